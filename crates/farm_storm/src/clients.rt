//! What the storm's clients keep, so that it is made once: a round's request and the tokens of its jobs.
ghost use Rattle.std.specs.Prelude.{◌≡◌, IfOk, IfSome};
ghost use Rattle.farm_storm.specs.Storm.{token_of, alloc_request};

use crate::deed::NUM_ROUND_JOBS;
use crate::setup::SERVER_KEY;
use dist_token::job_token::JWTJobAuthorizer;
use dist_types::fault::Memory;
use dist_types::ids::JobId;
use dist_types::roles::JobAuthorizer;
use dist_types::text::Bytes;
use dist_types::try_clone::push;
use std::alloc::Global;
use std::marker::Model;

/// The token of a job. Contracts see the job.
#[derive(Drop)]
pub struct JobToken {
    job: u64,
    text: String,
}

impl Model for JobToken {
    ghost use Rattle.std.specs.Prelude.{◌≡◌, ℕ, string_bytes};
    ghost use Rattle.farm_storm.specs.Storm.{token_of};

    ghost Value = { ℕ };

    ghost view = { λ t. t.job };

    ghost invariant = { λ t. string_bytes t.text ≡ token_of t.job };
}

impl JobToken {
    /// Its text.
    pub fn text(&self) -> &str
        ensures { result.now ≡ token_of self.now }
    {
        self.text.as_str()
    }
}

/// The request for a job of a round. Contracts see the round.
#[derive(Drop)]
pub struct RoundRequest {
    round: u64,
    bytes: Bytes,
}

impl Model for RoundRequest {
    ghost use Rattle.std.specs.Prelude.{◌≡◌, ℕ};
    ghost use Rattle.farm_storm.specs.Storm.{alloc_request};

    ghost Value = { ℕ };

    ghost view = { λ r. r.round };

    ghost invariant = { λ r. r.bytes ≡ alloc_request r.round };
}

impl RoundRequest {
    /// The request of these bytes. It takes no memory.
    pub fn new(round: u64, bytes: Bytes) -> Self
        requires { bytes ≡ alloc_request round }
        ensures { result ≡ round }
    {
        RoundRequest { round, bytes }
    }

    /// Its bytes.
    pub fn bytes(&self) -> &Bytes
        ensures { result.now ≡ alloc_request self.now }
    {
        &self.bytes
    }
}

/// What makes the tokens of jobs, and what is kept. Contracts see the key of the tokens, which is that of
/// every build server.
#[derive(Drop)]
pub struct Clients {
    authorizer: JWTJobAuthorizer,
    /// In the places of the jobs in their rounds.
    tokens: Vec<JobToken>,
    asked: Option<RoundRequest>,
}

impl Model for Clients {
    ghost use Rattle.std.specs.Prelude.{◌≡◌, ℕ, List};
    ghost use Rattle.farm_storm.specs.Storm.{server_key};

    ghost Value = { List ℕ };

    ghost view = { λ c. c.authorizer };

    ghost invariant = { λ c. c.authorizer ≡ server_key };
}

impl Clients {
    ghost use Rattle.farm_storm.specs.Storm.{server_key};

    /// With nothing kept. Refused for want of memory alone.
    pub fn new(alloc: Global) -> Result<Self, Memory>
        ensures { IfOk result (λ clients. clients ≡ server_key) }
    {
        let key = Vec::from_slice(alloc, SERVER_KEY)?;
        Ok(Clients {
            authorizer: JWTJobAuthorizer::new(key),
            tokens: Vec::new(alloc),
            asked: None,
        })
    }

    /// The token of a job. Refused for want of memory alone.
    pub fn token(&self, job: u64) -> Result<JobToken, Memory>
        ensures { IfOk result (λ token. token ≡ job) }
    {
        let text = self.authorizer.generate_token(JobId(job))?;
        Ok(JobToken { job, text })
    }

    /// The token of a job, where it is kept.
    pub fn kept_token(&self, job: u64) -> Option<&JobToken>
        ensures { IfSome result (λ token. token.now ≡ job) }
    {
        let token = self.tokens.get((job % NUM_ROUND_JOBS) as usize)?;
        if token.job == job { Some(token) } else { None }
    }

    /// The request for a job of a round, where it is kept.
    pub fn kept_request(&self, round: u64) -> Option<&RoundRequest>
        ensures { IfSome result (λ request. request.now ≡ round) }
    {
        match &self.asked {
            Some(request) => {
                if request.round == round {
                    Some(request)
                } else {
                    None
                }
            }
            None => None,
        }
    }

    /// Keeps a token, in place of one of an earlier round. Refused for want of memory alone.
    pub fn keep_token(&mut self, token: JobToken) -> Result<(), Memory> {
        match self.tokens.get_mut((token.job % NUM_ROUND_JOBS) as usize) {
            Some(place) => {
                *place = token;
                Ok(())
            }
            None => push(&mut self.tokens, token),
        }
    }

    /// Keeps the request of a round, in place of that of an earlier one.
    pub fn keep_request(&mut self, request: RoundRequest) {
        self.asked = Some(request);
    }
}
