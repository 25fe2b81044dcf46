//! The place of a request: its method, its path, and the job that the path names.
ghost use Rattle.std.specs.Prelude.{◌≡◌, nat_eq, option_copied};
ghost use Rattle.std.specs.List.{starts_with};
ghost use Rattle.http_routes.specs.Place.{is_at, stripped, job_in, job_of, state_job, assign_job, submit_job};
ghost use Rattle.http_routes.specs.Place.{run_job, at_drain};

use crate::request::Request;
use dist_types::ids::JobId;
use dist_types::rules::Rules;

/// Whether the request's target begins so. Where it does not, its path need not be looked for.
fn begins(request: &Request, front: &str) -> bool
    ensures { result ≡ starts_with nat_eq request.now.target front.now }
{
    let target = request.target.get();
    target.as_bytes().starts_with(front.as_bytes())
}

/// Whether the request has that method and that path.
#[tactic(auto, unfolding(crate::specs::Place::is_at), using(crate::proofs::PlaceLemmas::is_elsewhere))]
pub(crate) fn is_at(request: &Request, method: &str, path: &str) -> bool
    ensures { result ≡ is_at method.now path.now request.now }
{
    if !begins(request, path) {
        return false;
    }
    if request.method.get() != method {
        return false;
    }
    request.path() == path
}

/// What follows the front, where the text begins with it.
#[tactic(auto, using(crate::proofs::PlaceLemmas::strips))]
fn stripped<'a>(front: &str, text: &'a str) -> Option<&'a str>
    ensures { option_copied result ≡ stripped front.now text.now }
{
    text.strip_prefix(front)
}

fn job_in(text: &str) -> Option<JobId>
    ensures { result ≡ job_in text.now }
{
    match text.parse() {
        Ok(job) => Some(job),
        Err(_) => None,
    }
}

/// The job that a POST names behind a front.
#[tactic(auto, unfolding(crate::specs::Place::job_of), using(crate::proofs::PlaceLemmas::names_elsewhere))]
fn job_of(front: &str, request: &Request) -> Option<JobId>
    ensures { result ≡ job_of front.now request.now }
{
    if !begins(request, front) {
        return None;
    }
    if request.method.get() != "POST" {
        return None;
    }
    let id = stripped(front, request.path())?;
    job_in(id)
}

/// The job whose state a request tells the scheduler.
#[tactic(auto, unfolding(crate::specs::Place::state_job))]
pub(crate) fn state_job(request: &Request) -> Option<JobId>
    ensures { result ≡ state_job request.now }
{
    job_of("/api/v1/scheduler/job_state/", request)
}

/// Whether the request is at the route of servers that drain, which stands in version 2 alone.
#[tactic(auto, unfolding(crate::specs::Place::at_drain))]
pub(crate) fn at_drain(rules: Rules, request: &Request) -> bool
    ensures { result ≡ at_drain rules request.now }
{
    match rules {
        Rules::One => false,
        Rules::Two => is_at(request, "POST", "/api/v1/scheduler/drain_server"),
    }
}

/// The job that a request asks a server to take.
#[tactic(auto, unfolding(crate::specs::Place::assign_job))]
pub(crate) fn assign_job(request: &Request) -> Option<JobId>
    ensures { result ≡ assign_job request.now }
{
    job_of("/api/v1/distserver/assign_job/", request)
}

/// The job whose toolchain a request brings to a server.
#[tactic(auto, unfolding(crate::specs::Place::submit_job))]
pub(crate) fn submit_job(request: &Request) -> Option<JobId>
    ensures { result ≡ submit_job request.now }
{
    job_of("/api/v1/distserver/submit_toolchain/", request)
}

/// The job that a request asks a server to run.
#[tactic(auto, unfolding(crate::specs::Place::run_job))]
pub(crate) fn run_job(request: &Request) -> Option<JobId>
    ensures { result ≡ run_job request.now }
{
    job_of("/api/v1/distserver/run_job/", request)
}
