//! The roles that the scheduler and its servers are given: who makes and accepts the tokens of jobs.
ghost use Rattle.std.specs.Prelude.{◌≡◌, ℕ, List, IfOk, OnOk, Ok, Result, ⊤, string_bytes};
ghost use Rattle.dist_types.specs.Answers.{IsTokenAnswer};
ghost use Rattle.dist_types.specs.declared.token_error.TokenError.{TokenError as Refusal};

use crate::fault::Memory;
use crate::ids::JobId;
use crate::token_error::TokenError;

/// Makes the tokens of jobs under a key, and accepts them.
pub trait JobAuthorizer: Send + Drop {
    /// The key.
    ghost key_of: { Self → List ℕ };

    /// The one text that is the token for a job's number.
    ghost token_for: { Self → ℕ → List ℕ };

    /// Whether a text is accepted as the token for a job's number, and if not why.
    ghost verdict: { Self → ℕ → List ℕ → Result ⊤ Refusal };

    /// The authorizer of a key. It takes no memory.
    fn of_key(key: Vec<u8>) -> Self
        ensures key { key_of result ≡ key.items };

    /// The key.
    fn key(&self) -> &[u8]
        ensures key { result.now ≡ key_of self.now };

    /// The token for a job, which is accepted for it; `Memory` alone is refused.
    fn generate_token(&self, job_id: JobId) -> Result<String, Memory>
        ensures text { IfOk result (λ token. string_bytes token ≡ token_for self.now job_id.0) }
        ensures accepted { OnOk result (verdict self.now job_id.0 (token_for self.now job_id.0) ≡ Ok tt) };

    /// Accepts a token for a job, or says why not.
    fn verify_token(&self, job_id: JobId, token: &str) -> Result<(), TokenError>
        ensures { IsTokenAnswer (λ x. x) (verdict self.now job_id.0 token.now) result };
}
