//! What holds of every token.

ghost use Rattle.std.specs.Prelude.{◌≡◌, ◌<◌, ◌^◌, ◌↔◌, ℕ, List, Ok, Err, Result, Some, ⊤, codes};
ghost use Rattle.base64.specs.GeneralPurpose.{IsBytes};
ghost use Rattle.dist_token.specs.Accepted.{IsTokenFor, IsServerTokenFor};
ghost use Rattle.dist_types.specs.declared.dialer.Asked.{Asked};
ghost use Rattle.dist_types.specs.declared.token_error.TokenError.{TokenError as Refusal};
ghost use Rattle.dist_types.specs.declared.token_error.TokenError.TheVariants.{Memory as OutOfMemory};
ghost use Rattle.dist_token.specs.Forwarded.{Forwarding, HasCode, MayAnswer};
ghost use Rattle.dist_token.specs.Token.{token_text, job_claims_text, server_claims_text, plain_text};
ghost use Rattle.dist_token.specs.Verdict.{job_verdict, server_verdict, plain_server};
ghost use Rattle.dist_types.specs.Addr.{addr_text, IsAddr};
ghost use Rattle.dist_types.specs.declared.addr.Addr.{Addr};

use crate::server_token::{INSECURE_DIST_CLIENT_TOKEN, INSECURE_DIST_SERVER_TOKEN};

/// The token for a job is accepted for it under the same key.
pub fn tokens_are_accepted()
    ensures { (key : List ℕ) (id : ℕ) → id < 2 ^ 64
        → job_verdict key id (token_text key (job_claims_text id)) ≡ Ok tt }
{}

/// A text is accepted for a job exactly where it is a token for it: bytes, as every text is.
pub fn accepted_exactly()
    ensures { (key : List ℕ) (id : ℕ) (token : List ℕ) → IsBytes token
        → (job_verdict key id token ≡ Ok tt) ↔ IsTokenFor key id token }
{}

/// No text is a token for two jobs.
pub fn one_job_each()
    ensures { (key : List ℕ) (first second : ℕ) (token : List ℕ) → job_verdict key first token ≡ Ok tt
        → job_verdict key second token ≡ Ok tt → first ≡ second }
{}

/// The signed token for a server is accepted for it under the same key.
pub fn server_tokens_are_accepted()
    ensures { (key : List ℕ) (server : Addr) → IsAddr server
        → server_verdict key (token_text key (server_claims_text (addr_text server))) ≡ Ok server }
{}

/// The plain token for a server is accepted for it where the shared token is the same.
pub fn plain_tokens_are_accepted()
    ensures { (server : Addr) (shared : List ℕ) → IsAddr server
        → plain_server shared (plain_text (addr_text server) shared) ≡ Some server }
{}

/// A text is accepted for a server exactly where it is a signed token for it: bytes, as every text is.
pub fn servers_accepted_exactly()
    ensures { (key : List ℕ) (server : Addr) (token : List ℕ) → IsBytes token
        → (server_verdict key token ≡ Ok server) ↔ IsServerTokenFor key server token }
{}

/// A reply has one code.
pub fn one_code()
    ensures { (reply : List ℕ) (first second : ℕ) → HasCode reply first → HasCode reply second
        → first ≡ second }
{}

/// Where the dialer tells its record, a forwarded token gets one answer, unless memory runs out: the new
/// row says it, or the moment that is kept of the token.
pub fn one_answer()
    ensures { (old new : Forwarding) (now : ℕ) (token : List ℕ) (first second : Result ⊤ Refusal)
        (rows : List Asked)
        → old.asked ≡ Some rows → MayAnswer old now token first new → MayAnswer old now token second new
        → ¬ (first ≡ Err OutOfMemory) → ¬ (second ≡ Err OutOfMemory) → first ≡ second }
{}

/// The texts that stand where no token is configured.
pub fn insecure_tokens()
    ensures server { INSECURE_DIST_SERVER_TOKEN.now ≡ codes "dangerously_insecure_server" }
    ensures client { INSECURE_DIST_CLIENT_TOKEN.now ≡ codes "dangerously_insecure_client" }
{}
