//! The tokens of jobs.
ghost use Rattle.std.specs.Prelude.{◌≡◌, IfOk, Ok, OnOk, string_bytes};
ghost use Rattle.serde_json.specs.View.{view};
ghost use Rattle.dist_types.specs.Answers.{IsTokenAnswer};
ghost use Rattle.dist_token.specs.Token.{token_text, job_claims_text};
ghost use Rattle.dist_token.specs.Verdict.{job_claims, job_said, job_verdict};
ghost use Rattle.dist_token.specs.Views.{parts_view};

use crate::parts::{TokenParts, parts_of};
use crate::signing_key::SigningKey;
use crate::token::{is_written, token_under};
use crate::verdict::{are_two, mac_test, said};
use dist_types::fault::Memory;
use dist_types::ids::JobId;
use dist_types::roles::JobAuthorizer;
use dist_types::token_error::{Part, TokenError};
use serde_json::Value;
use std::alloc::Global;
use std::marker::Model;

/// Makes and accepts the tokens of jobs under an HS256 key.
#[derive(Drop)]
pub struct JWTJobAuthorizer {
    server_key: SigningKey,
}

impl Model for JWTJobAuthorizer {
    ghost use Rattle.std.specs.Prelude.{ℕ, List};

    ghost Value = { List ℕ };

    ghost view = { λ a. a.server_key };
}

impl JWTJobAuthorizer {
    /// The authorizer of a key of any length. It takes no memory.
    pub fn new(server_key: Vec<u8>) -> Self
        ensures { result ≡ server_key.items }
    {
        JWTJobAuthorizer {
            server_key: SigningKey::new(server_key),
        }
    }
}

impl JobAuthorizer for JWTJobAuthorizer {
    ghost key_of = { λ key. key };

    ghost token_for = { λ key id. token_text key (job_claims_text id) };

    ghost verdict = { job_verdict };

    fn of_key(key: Vec<u8>) -> Self {
        JWTJobAuthorizer::new(key)
    }

    fn key(&self) -> &[u8] {
        self.server_key.bytes()
    }

    fn generate_token(&self, job_id: JobId) -> Result<String, Memory> {
        job_token(self.server_key.allocator(), &self.server_key, job_id.0)
    }

    fn verify_token(&self, job_id: JobId, token: &str) -> Result<(), TokenError> {
        verify_job(
            self.server_key.allocator(),
            &self.server_key,
            job_id.0,
            token,
        )
    }
}

/// How many bytes the claims of a job have, at most.
const CLAIMS_ROOM: usize = 48;

// What the token for a job claims.
fn claims_for(alloc: Global, id: u64) -> Result<String, Memory>
    ensures { IfOk result (λ claims. string_bytes claims ≡ job_claims_text id) }
{
    let mut claims = String::with_capacity(alloc, CLAIMS_ROOM)?;
    write!(claims, "{{\"exp\":0,\"job_id\":{id}}}")?;
    Ok(claims)
}

// The token for a job, under a key.
fn job_token(alloc: Global, key: &SigningKey, id: u64) -> Result<String, Memory>
    ensures text { IfOk result (λ token. string_bytes token ≡ token_text key.now (job_claims_text id)) }
    ensures accepted { OnOk result
        (job_verdict key.now id (token_text key.now (job_claims_text id)) ≡ Ok tt) }
{
    let claims = claims_for(alloc, id)?;
    token_under(alloc, key, claims.as_bytes())
}

// The expiry and the job in an object of these two members.
fn job_claims(claims: &Value) -> Option<(u64, u64)>
    ensures { result ≡ job_claims (view claims.now) }
{
    if !are_two(claims) {
        return None;
    }
    let exp = claims.get("exp").and_then(Value::as_u64)?;
    let job = claims.get("job_id").and_then(Value::as_u64)?;
    Some((exp, job))
}

// Accepts the claims of a token for a job as JSON, or says by which test they are refused.
fn read_job(alloc: Global, parts: &TokenParts<'_>, id: u64) -> Result<(), TokenError>
    ensures { IsTokenAnswer (λ x. x) (job_said id (parts_view parts.now)) result }
{
    let claims = said(alloc, parts)?;
    let Some((exp, job)) = job_claims(&claims) else {
        return Err(TokenError::BadToken(Part::Claims));
    };
    if exp == 0 && job == id {
        Ok(())
    } else {
        Err(TokenError::MismatchedClaims)
    }
}

// The same. What is written as in the token that is made for the job is not read.
fn claims_test(alloc: Global, parts: &TokenParts<'_>, id: u64) -> Result<(), TokenError>
    ensures { IsTokenAnswer (λ x. x) (job_said id (parts_view parts.now)) result }
{
    let claims = claims_for(alloc, id)?;
    if is_written(alloc, parts, claims.as_bytes())? {
        return Ok(());
    }
    read_job(alloc, parts, id)
}

// Accepts a token for a job under a key, or says by which test it is refused.
fn verify_job(alloc: Global, key: &SigningKey, id: u64, token: &str) -> Result<(), TokenError>
    ensures { IsTokenAnswer (λ x. x) (job_verdict key.now id token.now) result }
{
    let Some(parts) = parts_of(token) else {
        return Err(TokenError::BadToken(Part::Shape));
    };
    mac_test(alloc, key, &parts)?;
    claims_test(alloc, &parts, id)
}
