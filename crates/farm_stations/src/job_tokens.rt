//! The tokens of jobs at a build server. What was accepted for a job is not judged again.
ghost use Rattle.std.specs.Prelude.{◌≡◌, codes, option_copied};
ghost use Rattle.dist_token.specs.Token.{token_text, job_claims_text};
ghost use Rattle.dist_token.specs.Verdict.{job_verdict};
ghost use Rattle.http_head.specs.declared.error.HttpError.TheVariants as http;
ghost use Rattle.http_head.specs.Bearer.{token_in};
ghost use Rattle.http_head.specs.Fields.{header};

use dist_token::job_token::JWTJobAuthorizer;
use dist_types::fault::Memory;
use dist_types::ids::JobId;
use dist_types::roles::JobAuthorizer;
use dist_types::text::Text;
use dist_types::token_error::TokenError;
use http_head::bearer::token_in;
use http_routes::error::HttpError;
use http_routes::head::read_head;
use http_routes::refusal::{Refusal, refusal_response};
use http_routes::request::Request;
use http_routes::route::wants_json;
use http_routes::server_route::{ServerAsked, ServerRouted, server_route};
use std::alloc::Global;
use std::marker::Model;

/// How many accepted tokens a server keeps: the last ones.
const MOST_ACCEPTED: usize = 64;

/// A token that was accepted for a job.
#[derive(Drop)]
struct AcceptedToken {
    job: JobId,
    text: Text,
}

/// Makes and takes the tokens of jobs under a key. Contracts see the key.
#[derive(Drop)]
pub struct JobTokens {
    authorizer: JWTJobAuthorizer,
    /// The last that were accepted under the key.
    accepted: Vec<AcceptedToken>,
    /// Where the next one is put.
    next: usize,
}

impl Model for JobTokens {
    ghost use Rattle.std.specs.Prelude.{◌≡◌, ℕ, List, All, Ok};
    ghost use Rattle.dist_token.specs.Verdict.{job_verdict};

    ghost Value = { List ℕ };

    ghost view = { λ t. t.authorizer };

    // What is kept was accepted.
    ghost invariant = { λ t. All (λ kept. job_verdict t.authorizer kept.job.0 kept.text ≡ Ok tt)
        t.accepted.items };
}

/// The token that a request shows.
fn shown_by(request: &Request) -> Option<&str>
    ensures { token_in (header (codes "authorization") request.now.headers) ≡ option_copied result }
{
    token_in(request.header("authorization"))
}

impl JobTokens {
    ghost use Rattle.std.specs.Prelude.{◌≡◌, true, IfOk, IfErr, Ok};
    ghost use Rattle.dist_token.specs.Verdict.{job_verdict};
    ghost use Rattle.http_routes.specs.ServerRoute.{IsServerAsked, server_answered, server_asked_of};
    ghost use Rattle.http_head.specs.declared.error.HttpError.TheVariants as http;

    // Whether a token is kept for the job.
    fn is_kept(&self, job: JobId, token: &str) -> bool
        ensures { result ≡ true → job_verdict self.now job.0 token.now ≡ Ok tt }
    {
        for kept in &self.accepted {
            if kept.job.0 == job.0 && kept.text.get() == token {
                return true;
            }
        }
        false
    }

    // Keeps a token that was accepted for a job, in place of the oldest. Where memory lacks nothing is kept.
    fn keep(&mut self, job: JobId, token: &str)
        requires { job_verdict self.old job.0 token.now ≡ Ok tt }
        ensures { self.new ≡ self.old }
    {
        let Ok(text) = Text::of(*self.accepted.allocator(), token) else {
            return;
        };
        let place = self.next;
        self.next = if place < MOST_ACCEPTED - 1 {
            place + 1
        } else {
            0
        };
        let accepted = AcceptedToken { job, text };
        match self.accepted.get_mut(place) {
            Some(oldest) => *oldest = accepted,
            None => {
                let _kept = self.accepted.push(accepted);
            }
        }
    }

    // Keeps the token of a request that asks the server to take a job.
    fn note(&mut self, request: &Request, what: &ServerRouted)
        requires { server_answered (server_asked_of (job_verdict self.old) request.now) ≡ what.now }
        ensures { self.new ≡ self.old }
    {
        let ServerRouted::Assign(job, _) = what else {
            return;
        };
        if let Some(token) = shown_by(request) {
            self.keep(*job, token);
        }
    }

    /// What the bytes ask of a server whose jobs have these tokens, as `server_asked` says it. Refused for
    /// want of memory alone.
    pub fn asked(&mut self, alloc: Global, bytes: &[u8]) -> Result<ServerAsked, HttpError>
        ensures ok { IfOk result (IsServerAsked (job_verdict self.old) bytes.now) }
        ensures key { self.new ≡ self.old }
        ensures err { IfErr result (λ e. e ≡ http.Memory) }
    {
        match read_head(alloc, bytes) {
            Ok(request) => {
                let json = wants_json(&request);
                let body = bytes.len().saturating_sub(request.body.get().len());
                let what = server_route(alloc, &request, &*self)?;
                self.note(&request, &what);
                Ok(ServerAsked { what, json, body })
            }
            Err(HttpError::BadHead) => {
                let reply = refusal_response(alloc, Refusal::BadHead)?;
                Ok(ServerAsked {
                    what: ServerRouted::Done(reply),
                    json: false,
                    body: bytes.len(),
                })
            }
            Err(_) => Err(HttpError::Memory),
        }
    }
}

impl JobAuthorizer for JobTokens {
    ghost key_of = { λ key. key };

    ghost token_for = { λ key id. token_text key (job_claims_text id) };

    ghost verdict = { job_verdict };

    fn of_key(key: Vec<u8>) -> Self {
        let alloc = *key.allocator();
        JobTokens {
            authorizer: JWTJobAuthorizer::of_key(key),
            accepted: Vec::new(alloc),
            next: 0,
        }
    }

    fn key(&self) -> &[u8] {
        self.authorizer.key()
    }

    fn generate_token(&self, job_id: JobId) -> Result<String, Memory> {
        self.authorizer.generate_token(job_id)
    }

    fn verify_token(&self, job_id: JobId, token: &str) -> Result<(), TokenError> {
        if self.is_kept(job_id, token) {
            return Ok(());
        }
        self.authorizer.verify_token(job_id, token)
    }
}
