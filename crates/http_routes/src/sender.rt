//! Who sent a request.
ghost use Rattle.std.specs.Prelude.{◌≡◌, IfOk, IfErr, option_copied};
ghost use Rattle.http_routes.specs.Sender.{client_test, same_ip, origin, server_of, job_test, accepted};
ghost use Rattle.http_routes.specs.Steps.{Decides};
ghost use Rattle.http_routes.specs.declared.refusal.Refusal.{Refusal};

use crate::admission::Admission;
use crate::refusal::{Refusal, Unrouted};
use crate::request::Request;
use dist_token::checks::ServerAuthCheck;
use dist_types::addr::{Addr, Ip, read_ip};
use dist_types::fault::Memory;
use dist_types::ids::JobId;
use dist_types::roles::JobAuthorizer;
use dist_types::token_error::TokenError;
use http_head::bearer::token_in;

/// Whether the check of clients lets the sender in.
pub(crate) fn client_test(said: Option<Admission>) -> Result<(), Unrouted>
    ensures { Decides (client_test said) result }
{
    match said {
        None => Err(Unrouted::Refused(Refusal::NoClientToken)),
        Some(Admission::Admitted) => Ok(()),
        Some(Admission::Refused(word, text)) => {
            Err(Unrouted::Refused(Refusal::ClientRefused(word, text)))
        }
    }
}

fn is_same_ip(a: Ip, b: Ip) -> bool
    ensures { result ≡ same_ip a b }
{
    match (a, b) {
        (Ip::V4(x), Ip::V4(y)) => x == y,
        (Ip::V6(x), Ip::V6(y)) => x == y,
        (Ip::V4(_), Ip::V6(_)) => false,
        (Ip::V6(_), Ip::V4(_)) => false,
    }
}

/// Where a request came from: what its X-Real-IP says, or its peer's IP where it has none.
fn origin(real_ip: Option<&str>, peer: Addr) -> Result<Ip, Unrouted>
    ensures { Decides (origin (option_copied real_ip.entry) peer) result }
{
    match real_ip {
        Some(text) => match read_ip(text) {
            Some(ip) => Ok(ip),
            None => Err(Unrouted::Refused(Refusal::BadRealIp)),
        },
        None => Ok(peer.ip()),
    }
}

/// The server that a token is accepted for.
fn served<V: ServerAuthCheck>(check: &V, token: &str) -> Result<Option<Addr>, Unrouted>
    ensures ok { IfOk result (λ server. server ≡ V.server_of check.now token.now) }
    ensures err { IfErr result (λ e. e ≡ Unrouted.Memory) }
{
    match check.check(token) {
        Ok(Some(server)) => Ok(Some(server.addr())),
        Ok(None) => Ok(None),
        Err(Memory) => Err(Unrouted::Memory),
    }
}

/// The server that sent the request: it shows a token that is accepted for it, from its own IP.
#[tactic(auto, unfolding(crate::specs::Sender::server_of))]
pub(crate) fn server_of<V: ServerAuthCheck>(
    request: &Request,
    peer: Addr,
    check: &V,
) -> Result<Addr, Unrouted>
    ensures { Decides (server_of (V.server_of check.now) request.now peer) result }
{
    let Some(shown) = token_in(request.header("authorization")) else {
        return Err(Unrouted::Refused(Refusal::NoServer));
    };
    let Some(server) = served(check, shown)? else {
        return Err(Unrouted::Refused(Refusal::NoServer));
    };
    let ip = origin(request.header("x-real-ip"), peer)?;
    if is_same_ip(ip, server.ip()) {
        Ok(server)
    } else {
        Err(Unrouted::Refused(Refusal::OtherAddress))
    }
}

/// Why a job's token is not accepted.
fn refused_job(e: TokenError) -> Unrouted
    ensures known { (refusal : Refusal) → result ≡ Unrouted.Refused refusal → refusal ≡ Refusal.JobRefused e }
    ensures memory { e ≡ TokenError.Memory → result ≡ Unrouted.Memory }
{
    match e {
        TokenError::BadToken(part) => Unrouted::Refused(Refusal::JobRefused(TokenError::BadToken(
            part,
        ))),
        TokenError::BadMac => Unrouted::Refused(Refusal::JobRefused(TokenError::BadMac)),
        TokenError::MismatchedClaims => {
            Unrouted::Refused(Refusal::JobRefused(TokenError::MismatchedClaims))
        }
        TokenError::FixedMismatch => Unrouted::Refused(Refusal::JobRefused(
            TokenError::FixedMismatch,
        )),
        TokenError::ForwardRefused(code) => {
            Unrouted::Refused(Refusal::JobRefused(TokenError::ForwardRefused(code)))
        }
        TokenError::LinkFault => Unrouted::Refused(Refusal::JobRefused(TokenError::LinkFault)),
        TokenError::Memory => Unrouted::Memory,
    }
}

/// Whether a token is accepted for the job.
fn accepted<A: JobAuthorizer>(authorizer: &A, job: JobId, token: &str) -> Result<(), Unrouted>
    ensures { Decides (accepted (A.verdict authorizer.now job.0 token.now)) result }
{
    match authorizer.verify_token(job, token) {
        Ok(()) => Ok(()),
        Err(e) => Err(refused_job(e)),
    }
}

/// Whether the request shows a token that is accepted for the job.
#[tactic(auto, unfolding(crate::specs::Sender::job_test))]
pub(crate) fn job_test<A: JobAuthorizer>(
    request: &Request,
    authorizer: &A,
    job: JobId,
) -> Result<(), Unrouted>
    ensures { Decides (job_test (A.verdict authorizer.now) request.now job) result }
{
    let Some(token) = token_in(request.header("authorization")) else {
        return Err(Unrouted::Refused(Refusal::NoJobToken));
    };
    accepted(authorizer, job, token)
}
