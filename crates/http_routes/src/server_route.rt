//! The routes of a build server: what a request asks of it.
ghost use Rattle.std.specs.Prelude.{◌≡◌, IfOk, IfErr};
ghost use Rattle.http_routes.specs.ServerRoute.{assign_of, submit_of, run_of, server_asked_of};
ghost use Rattle.http_routes.specs.ServerRoute.{server_answered, IsServerAsked};
ghost use Rattle.http_routes.specs.Steps.{Decides};

use crate::error::HttpError;
use crate::head::read_head;
use crate::message::message_in;
use crate::place::{assign_job, run_job, submit_job};
use crate::refusal::{Refusal, Unrouted, refusal_response};
use crate::reply::Response;
use crate::request::Request;
use crate::route::wants_json;
use crate::run_head::run_in;
use crate::sender::job_test;
use dist_types::ids::JobId;
use dist_types::roles::JobAuthorizer;
use dist_types::toolchain::Toolchain;
use dist_wire::run::RunJobHttpRequest;
use std::alloc::Global;

/// What a request asks of a build server.
#[derive(Debug, Drop)]
pub enum ServerRouted {
    /// To take that job, with that toolchain.
    Assign(JobId, Toolchain),
    /// To store that job's toolchain: its archive is the body.
    Submit(JobId),
    /// To run that job. Its inputs begin at that place of the body.
    Run(JobId, RunJobHttpRequest, usize),
    /// Nothing more: the reply is known.
    Done(Response),
}

/// What is asked of a build server, and the form of the reply.
#[derive(Debug, Drop)]
pub struct ServerAsked {
    /// What is asked.
    pub what: ServerRouted,
    /// Whether the reply is to be in JSON.
    pub json: bool,
    /// Where in the bytes the request's body begins.
    pub body: usize,
}

/// A request to take that job: it shows the job's token, and its body begins with a toolchain.
#[tactic(auto, unfolding(crate::specs::ServerRoute::assign_of))]
fn assign_of<A: JobAuthorizer>(
    alloc: Global,
    request: &Request,
    authorizer: &A,
    job: JobId,
) -> Result<ServerRouted, Unrouted>
    ensures { Decides (assign_of (A.verdict authorizer.now) request.now job) result }
{
    job_test(request, authorizer, job)?;
    let tc = message_in(alloc, request)?;
    Ok(ServerRouted::Assign(job, tc))
}

/// A request that brings that job's toolchain: it shows the job's token.
#[tactic(auto, unfolding(crate::specs::ServerRoute::submit_of))]
fn submit_of<A: JobAuthorizer>(
    request: &Request,
    authorizer: &A,
    job: JobId,
) -> Result<ServerRouted, Unrouted>
    ensures { Decides (submit_of (A.verdict authorizer.now) request.now job) result }
{
    job_test(request, authorizer, job)?;
    Ok(ServerRouted::Submit(job))
}

/// A request to run that job: it shows the job's token, and its body is a run.
#[tactic(auto, unfolding(crate::specs::ServerRoute::run_of))]
fn run_of<A: JobAuthorizer>(
    alloc: Global,
    request: &Request,
    authorizer: &A,
    job: JobId,
) -> Result<ServerRouted, Unrouted>
    ensures { Decides (run_of (A.verdict authorizer.now) request.now job) result }
{
    job_test(request, authorizer, job)?;
    let (run, inputs) = run_in(alloc, request.body.get())?;
    Ok(ServerRouted::Run(job, run, inputs))
}

/// What a request asks, or why it is refused.
#[tactic(auto, unfolding(crate::specs::ServerRoute::server_asked_of))]
fn server_asked_of<A: JobAuthorizer>(
    alloc: Global,
    request: &Request,
    authorizer: &A,
) -> Result<ServerRouted, Unrouted>
    ensures { Decides (server_asked_of (A.verdict authorizer.now) request.now) result }
{
    match assign_job(request) {
        Some(job) => assign_of(alloc, request, authorizer, job),
        None => match submit_job(request) {
            Some(job) => submit_of(request, authorizer, job),
            None => match run_job(request) {
                Some(job) => run_of(alloc, request, authorizer, job),
                None => Err(Unrouted::Refused(Refusal::NoRoute)),
            },
        },
    }
}

/// What a request asks of a build server whose jobs have the authorizer's tokens; a request that is refused
/// gets its reply. Refused for want of memory alone.
pub fn server_route<A: JobAuthorizer>(
    alloc: Global,
    request: &Request,
    authorizer: &A,
) -> Result<ServerRouted, HttpError>
    ensures ok { IfOk result (λ routed. routed
        ≡ server_answered (server_asked_of (A.verdict authorizer.now) request.now)) }
    ensures err { IfErr result (λ e. e ≡ HttpError.Memory) }
{
    match server_asked_of(alloc, request, authorizer) {
        Ok(routed) => Ok(routed),
        Err(Unrouted::Refused(refusal)) => {
            let reply = refusal_response(alloc, refusal)?;
            Ok(ServerRouted::Done(reply))
        }
        Err(Unrouted::Memory) => Err(HttpError::Memory),
    }
}

/// What the bytes ask of a build server whose jobs have the authorizer's tokens; bytes that are no request
/// get their reply. Refused for want of memory alone.
pub fn server_asked<A: JobAuthorizer>(
    alloc: Global,
    bytes: &[u8],
    authorizer: &A,
) -> Result<ServerAsked, HttpError>
    ensures ok { IfOk result (IsServerAsked (A.verdict authorizer.now) bytes.now) }
    ensures err { IfErr result (λ e. e ≡ HttpError.Memory) }
{
    match read_head(alloc, bytes) {
        Ok(request) => {
            let json = wants_json(&request);
            let body = bytes.len().saturating_sub(request.body.get().len());
            let what = server_route(alloc, &request, authorizer)?;
            Ok(ServerAsked { what, json, body })
        }
        Err(HttpError::BadHead) => {
            let reply = refusal_response(alloc, Refusal::BadHead)?;
            Ok(ServerAsked {
                what: ServerRouted::Done(reply),
                json: false,
                body: bytes.len(),
            })
        }
        Err(_) => Err(HttpError::Memory),
    }
}
