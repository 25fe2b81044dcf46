//! An authorizer whose tokens cost nothing to speak of.
ghost use Rattle.std.specs.Prelude.{Ok, codes};

use dist_types::fault::Memory;
use dist_types::ids::JobId;
use dist_types::roles::JobAuthorizer;
use dist_types::token_error::TokenError;

/// The tokens of `core`.
pub type CoreTokens = ShortTokens<0>;

/// The tokens of `quotas`.
pub type QuotaTokens = ShortTokens<1>;

/// The tokens of `turns`.
pub type TurnTokens = ShortTokens<2>;

/// Gives each job the token `t`, and accepts each token. Each word of the program has a number of its own, so
/// that it shares no compiled code with another, which would change its figures.
#[derive(Drop)]
pub struct ShortTokens<const WORD: u8> {
    key: Vec<u8>,
}

impl<const WORD: u8> JobAuthorizer for ShortTokens<WORD> {
    ghost key_of = { λ a. a.key.items };

    ghost token_for = { λ a job. codes "t" };

    ghost verdict = { λ a job text. Ok tt };

    fn of_key(key: Vec<u8>) -> Self {
        ShortTokens { key }
    }

    fn key(&self) -> &[u8] {
        &self.key
    }

    fn generate_token(&self, _job_id: JobId) -> Result<String, Memory> {
        let mut token = String::new(*self.key.allocator());
        token.push_str("t")?;
        Ok(token)
    }

    fn verify_token(&self, _job_id: JobId, _token: &str) -> Result<(), TokenError> {
        Ok(())
    }
}
