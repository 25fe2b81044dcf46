//! The authorizer of a scheduler that is replayed.
ghost use Rattle.std.specs.Prelude.{◌≡◌, Ok, []};

use dist_types::fault::Memory;
use dist_types::ids::JobId;
use dist_types::roles::JobAuthorizer;
use dist_types::token_error::TokenError;
use std::alloc::Global;

/// Gives each job the empty token: no line of a printed run shows one.
#[derive(Drop)]
pub struct EmptyTokens {
    key: Vec<u8>,
}

/// One with an empty key. It takes no memory.
pub(crate) fn without_key(alloc: Global) -> EmptyTokens
    ensures { result.key.items ≡ [] }
{
    EmptyTokens {
        key: Vec::new(alloc),
    }
}

impl JobAuthorizer for EmptyTokens {
    ghost key_of = { λ a. a.key.items };

    ghost token_for = { λ a job. [] };

    ghost verdict = { λ a job text. Ok tt };

    fn of_key(key: Vec<u8>) -> Self {
        EmptyTokens { key }
    }

    fn key(&self) -> &[u8] {
        &self.key
    }

    fn generate_token(&self, _job_id: JobId) -> Result<String, Memory> {
        Ok(String::new(*self.key.allocator()))
    }

    fn verify_token(&self, _job_id: JobId, _token: &str) -> Result<(), TokenError> {
        Ok(())
    }
}
