//! The routes of the scheduler: what a request asks of it.
ghost use Rattle.std.specs.Prelude.{◌≡◌, IfOk, IfErr};
ghost use Rattle.http_routes.specs.Admission.{client_token, MayBeAsked};
ghost use Rattle.http_routes.specs.Route.{wants_json, alloc_of, beat_of, drain_of, update_of, report_of};
ghost use Rattle.http_routes.specs.Route.{asked_of, answered, IsRouted};
ghost use Rattle.http_routes.specs.Steps.{Decides};

use crate::admission::{Admission, said_of};
use crate::error::HttpError;
use crate::message::message_in;
use crate::place::{at_drain, is_at, state_job};
use crate::refusal::{Refusal, Unrouted, refusal_response};
use crate::reply::Response;
use crate::request::Request;
use crate::sender::{client_test, server_of};
use dist_token::checks::{ClientAuthCheck, ServerAuthCheck};
use dist_types::addr::Addr;
use dist_types::ids::{JobId, ServerId};
use dist_types::results::JobState;
use dist_types::rules::Rules;
use dist_types::toolchain::Toolchain;
use dist_wire::drain::DrainServerHttpRequest;
use dist_wire::heartbeat::HeartbeatServerHttpRequest;
use std::alloc::Global;

/// What a request asks of the scheduler.
#[derive(Debug, Drop)]
pub enum SchedRouted {
    /// A job with that toolchain.
    Alloc(Toolchain),
    /// A heartbeat of that server.
    Beat(ServerId, HeartbeatServerHttpRequest),
    /// The state of that job, told by that server.
    Update(ServerId, JobId, JobState),
    /// How many servers, processors and jobs there are.
    Status,
    /// That a registration of that server is to drain, or to drain no more. Asked in version 2 alone.
    Drain(ServerId, DrainServerHttpRequest),
    /// Nothing more: the reply is known.
    Done(Response),
}

/// What is asked of the scheduler, and the form of the reply.
#[derive(Debug, Drop)]
pub struct Asked {
    /// What is asked.
    pub what: SchedRouted,
    /// Whether the reply is to be in JSON.
    pub json: bool,
}

/// Where a request came from, and the rules that its scheduler goes by.
#[derive(Clone, Copy, Debug, PartialEq, Eq)]
pub struct Terms {
    /// The peer that sent it.
    pub peer: Addr,
    /// The rules.
    pub rules: Rules,
}

/// Whether a request asks for a reply in JSON: its Accept is exactly `application/json`.
#[tactic(auto, unfolding(crate::specs::Route::wants_json))]
pub fn wants_json(request: &Request) -> bool
    ensures { result ≡ wants_json request.now }
{
    match request.header("accept") {
        Some(text) => text == "application/json",
        None => false,
    }
}

/// A request for a job: its client is let in, and its body begins with a toolchain.
#[tactic(auto, unfolding(crate::specs::Route::alloc_of))]
fn alloc_of(
    alloc: Global,
    request: &Request,
    said: Option<Admission>,
) -> Result<SchedRouted, Unrouted>
    ensures { Decides (alloc_of request.now said) result }
{
    client_test(said)?;
    let tc = message_in(alloc, request)?;
    Ok(SchedRouted::Alloc(tc))
}

/// A heartbeat, and its server.
#[tactic(auto, unfolding(crate::specs::Route::beat_of))]
fn beat_of<V: ServerAuthCheck>(
    alloc: Global,
    request: &Request,
    peer: Addr,
    check: &V,
) -> Result<SchedRouted, Unrouted>
    ensures { Decides (beat_of (V.server_of check.now) request.now peer) result }
{
    let server = server_of(request, peer, check)?;
    let beat = message_in(alloc, request)?;
    Ok(SchedRouted::Beat(ServerId::new(server), beat))
}

/// A wish of a server that it drain, or drain no more.
#[tactic(auto, unfolding(crate::specs::Route::drain_of))]
fn drain_of<V: ServerAuthCheck>(
    alloc: Global,
    request: &Request,
    peer: Addr,
    check: &V,
) -> Result<SchedRouted, Unrouted>
    ensures { Decides (drain_of (V.server_of check.now) request.now peer) result }
{
    let sender = server_of(request, peer, check)?;
    let drain = message_in(alloc, request)?;
    Ok(SchedRouted::Drain(ServerId::new(sender), drain))
}

/// A state of that job, and the server that tells it.
#[tactic(auto, unfolding(crate::specs::Route::update_of))]
fn update_of<V: ServerAuthCheck>(
    alloc: Global,
    request: &Request,
    peer: Addr,
    check: &V,
    job: JobId,
) -> Result<SchedRouted, Unrouted>
    ensures { Decides (update_of (V.server_of check.now) request.now peer job) result }
{
    let server = server_of(request, peer, check)?;
    let state = message_in(alloc, request)?;
    Ok(SchedRouted::Update(ServerId::new(server), job, state))
}

/// The report of a job's state, where the request names one.
#[tactic(auto, unfolding(crate::specs::Route::report_of))]
fn report_of<V: ServerAuthCheck>(
    alloc: Global,
    request: &Request,
    peer: Addr,
    check: &V,
) -> Result<SchedRouted, Unrouted>
    ensures { Decides (report_of (V.server_of check.now) request.now peer) result }
{
    match state_job(request) {
        Some(job) => update_of(alloc, request, peer, check, job),
        None => Err(Unrouted::Refused(Refusal::NoRoute)),
    }
}

/// What a request asks, of whose token the check of clients says that; or why it is refused.
#[tactic(auto, unfolding(crate::specs::Route::asked_of))]
fn asked_of<V: ServerAuthCheck>(
    alloc: Global,
    request: &Request,
    terms: Terms,
    said: Option<Admission>,
    check: &V,
) -> Result<SchedRouted, Unrouted>
    ensures { Decides (asked_of terms.rules (V.server_of check.now) request.now terms.peer said) result }
{
    if is_at(request, "POST", "/api/v1/scheduler/alloc_job") {
        return alloc_of(alloc, request, said);
    }
    if is_at(request, "POST", "/api/v1/scheduler/heartbeat_server") {
        return beat_of(alloc, request, terms.peer, check);
    }
    if is_at(request, "GET", "/api/v1/scheduler/status") {
        return Ok(SchedRouted::Status);
    }
    if at_drain(terms.rules, request) {
        return drain_of(alloc, request, terms.peer, check);
    }
    report_of(alloc, request, terms.peer, check)
}

/// What a request asks, or the reply to its refusal.
fn routed<V: ServerAuthCheck>(
    alloc: Global,
    request: &Request,
    terms: Terms,
    said: Option<Admission>,
    check: &V,
) -> Result<SchedRouted, HttpError>
    ensures ok { IfOk result (λ routed. routed
        ≡ answered (asked_of terms.rules (V.server_of check.now) request.now terms.peer said)) }
    ensures err { IfErr result (λ e. e ≡ HttpError.Memory) }
{
    match asked_of(alloc, request, terms, said, check) {
        Ok(routed) => Ok(routed),
        Err(Unrouted::Refused(refusal)) => {
            let reply = refusal_response(alloc, refusal)?;
            Ok(SchedRouted::Done(reply))
        }
        Err(Unrouted::Memory) => Err(HttpError::Memory),
    }
}

/// What a request of that peer asks of the scheduler at that moment, under its checks of clients and of
/// servers, and by its rules; a request that is refused gets its reply. The check of clients is asked once,
/// where a request for a job shows a token, and else stays as it was. Refused for want of memory alone.
pub fn scheduler_route<K: ClientAuthCheck, V: ServerAuthCheck>(
    alloc: Global,
    request: &Request,
    peer: Addr,
    now: u64,
    client: &mut K,
    server: &V,
    rules: Rules,
) -> Result<SchedRouted, HttpError>
    ensures ok { IfOk result (λ routed. IsRouted rules K.may_answer K.shown (V.server_of server.now)
        request.now peer now client.old routed client.new) }
    ensures err { IfErr result (λ e. e ≡ HttpError.Memory) }
    ensures left { MayBeAsked K.may_answer (client_token request.now) now client.old client.new }
{
    let said = said_of(alloc, request, now, client)?;
    let terms = Terms { peer, rules };
    let routed = routed(alloc, request, terms, said, server)?;
    Ok(routed)
}
