//! Which heads settle what is asked of a build server.
use dist_token::job_token::JWTJobAuthorizer;
use dist_types::fault::Memory;
use http_connections::take::HeadTest;
use http_head::request::Request;
use http_routes::settled::server_settled;

/// Heads under the tokens of jobs: the body of a request that is at no route, or shows no token that is accepted for
/// its job, is read by nobody.
#[derive(Drop)]
pub(crate) struct JobHeads<'a> {
    /// The key of the tokens.
    pub key: &'a JWTJobAuthorizer,
}

impl HeadTest for JobHeads<'_> {
    ghost use Rattle.dist_token.specs.Verdict.{job_verdict};
    ghost use Rattle.http_routes.specs.Settled.{IsSettledFor};

    ghost settled = { λ heads r. IsSettledFor (job_verdict heads.key.now) r };

    #[tactic(auto, using(http_routes::proofs::SettledLemmas::settled_for))]
    fn is_settled(&self, request: &Request) -> bool {
        match server_settled(request, self.key) {
            Ok(settled) => settled,
            Err(Memory) => false,
        }
    }
}
