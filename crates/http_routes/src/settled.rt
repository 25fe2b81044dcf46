//! What the head of a request settles, whatever its body is.
ghost use Rattle.std.specs.Prelude.{◌≡◌, IfOk};
ghost use Rattle.http_routes.specs.Admission.{client_token};
ghost use Rattle.http_routes.specs.Settled.{server_settled, scheduler_settled, job_refused, sender_refused};
ghost use Rattle.http_routes.specs.Settled.{client_refused};

use crate::admission::client_token;
use crate::place::{assign_job, at_drain, is_at, run_job, state_job, submit_job};
use crate::refusal::Unrouted;
use crate::request::Request;
use crate::sender::{job_test, server_of};
use dist_token::checks::{ServerAuthCheck, TokenRefusal};
use dist_types::addr::Addr;
use dist_types::fault::Memory;
use dist_types::ids::JobId;
use dist_types::roles::JobAuthorizer;
use dist_types::rules::Rules;

/// Whether the request shows no token that is accepted for the job.
fn job_refused<A: JobAuthorizer>(
    request: &Request,
    authorizer: &A,
    job: JobId,
) -> Result<bool, Memory>
    ensures { IfOk result (λ refused. refused ≡ job_refused (A.verdict authorizer.now) request.now job) }
{
    match job_test(request, authorizer, job) {
        Ok(()) => Ok(false),
        Err(Unrouted::Refused(_)) => Ok(true),
        Err(Unrouted::Memory) => Err(Memory),
    }
}

/// Whether the head alone refuses a request to a build server: it is at no route, or shows no token that is
/// accepted for its job. `Memory` alone is refused.
#[tactic(auto, unfolding(crate::specs::Settled::server_settled))]
pub fn server_settled<A: JobAuthorizer>(request: &Request, authorizer: &A) -> Result<bool, Memory>
    ensures settled { IfOk result (λ settled. settled
        ≡ server_settled (A.verdict authorizer.now) request.now) }
{
    match assign_job(request) {
        Some(job) => job_refused(request, authorizer, job),
        None => match submit_job(request) {
            Some(job) => job_refused(request, authorizer, job),
            None => match run_job(request) {
                Some(job) => job_refused(request, authorizer, job),
                None => Ok(true),
            },
        },
    }
}

/// Whether the request is from no server.
fn sender_refused<V: ServerAuthCheck>(
    request: &Request,
    peer: Addr,
    check: &V,
) -> Result<bool, Memory>
    ensures { IfOk result (λ refused. refused
        ≡ sender_refused (V.server_of check.now) request.now peer) }
{
    match server_of(request, peer, check) {
        Ok(_) => Ok(false),
        Err(Unrouted::Refused(_)) => Ok(true),
        Err(Unrouted::Memory) => Err(Memory),
    }
}

/// Whether the request shows the check of clients no token, or one that it refuses whatever the moment is.
fn client_refused<K: TokenRefusal>(request: &Request, client: &K) -> bool
    ensures { result ≡ client_refused (K.refuses client.now) (client_token request.now) }
{
    match client_token(request) {
        Some(token) => client.is_refused(token),
        None => true,
    }
}

/// Whether the head alone settles what a request asks of the scheduler: it asks for the status; it is at no
/// route; it asks for a job, and shows no token or one that the check of clients refuses whatever the moment is;
/// or it is at a route of the servers, and is from none. `Memory` alone is refused.
#[tactic(auto, unfolding(crate::specs::Settled::scheduler_settled))]
pub fn scheduler_settled<K: TokenRefusal, V: ServerAuthCheck>(
    request: &Request,
    peer: Addr,
    client: &K,
    server: &V,
    rules: Rules,
) -> Result<bool, Memory>
    ensures settled { IfOk result (λ settled. settled
        ≡ scheduler_settled rules (K.refuses client.now) (V.server_of server.now) request.now peer) }
{
    if is_at(request, "POST", "/api/v1/scheduler/alloc_job") {
        return Ok(client_refused(request, client));
    }
    if is_at(request, "POST", "/api/v1/scheduler/heartbeat_server") {
        return sender_refused(request, peer, server);
    }
    if is_at(request, "GET", "/api/v1/scheduler/status") {
        return Ok(true);
    }
    if at_drain(rules, request) {
        return sender_refused(request, peer, server);
    }
    match state_job(request) {
        Some(_) => sender_refused(request, peer, server),
        None => Ok(true),
    }
}
