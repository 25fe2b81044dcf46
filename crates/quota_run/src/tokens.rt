//! The authorizer of a run whose jobs go to no server.
ghost use Rattle.std.specs.Prelude.{◌≡◌, Ok, []};

use dist_types::fault::Memory;
use dist_types::ids::JobId;
use dist_types::roles::JobAuthorizer;
use dist_types::token_error::TokenError;

/// Gives each job the empty token: no line of a run shows one.
#[derive(Drop)]
pub(crate) struct NoTokens {
    key: Vec<u8>,
}

impl JobAuthorizer for NoTokens {
    ghost key_of = { λ a. a.key.items };

    ghost token_for = { λ a job. [] };

    ghost verdict = { λ a job text. Ok tt };

    fn of_key(key: Vec<u8>) -> Self {
        NoTokens { key }
    }

    fn key(&self) -> &[u8] {
        &self.key
    }

    fn generate_token(&self, _job_id: JobId) -> Result<String, Memory> {
        Ok(String::new(*self.key.allocator()))
    }

    fn verify_token(&self, _job_id: JobId, _token: &str) -> Result<(), TokenError> {
        Ok(())
    }
}
