//! Doing what is asked of a build server, and the reply that tells its answer.
ghost use Rattle.std.specs.Prelude.{◌≡◌, IfOk};
ghost use Rattle.build_server.specs.Builds.{builder_of};
ghost use Rattle.http_calls.specs.Urls.{IsHttp};
ghost use Rattle.http_routes.specs.Fault.{fault_response_of};
ghost use Rattle.http_routes.specs.Replies.{run_response};
ghost use Rattle.server_service.specs.Replied.{fault_of, IsTold, IsAssignedAndTold};
ghost use Rattle.server_service.specs.Replied.{IsSubmitted, IsSubmittedAndTold, IsRun, IsRunAndTold};
ghost use Rattle.server_service.specs.Replied.{IsDone};
ghost use Rattle.http_connections.specs.Form.{form_of};
ghost use Rattle.server_service.specs.Routed.{body_of};
ghost use Rattle.server_service.specs.Told.{peer_of};

use crate::body::BodySource;
use crate::peer::Peer;
use crate::route::{body_of, inputs_of};
use crate::telling::Telling;
use build_server::fault::ServerFault;
use build_server::keeping::{Keeping, assign_on, run_on, submit_from};
use dist_types::builder::BuilderIncoming;
use dist_types::dialer::Dialer;
use dist_types::fault::Memory;
use dist_types::ids::JobId;
use dist_types::results::{RunJobResult, SubmitToolchainResult};
use dist_types::toolchain::Toolchain;
use dist_wire::run::RunJobHttpRequest;
use http_connections::form::form_of;
use http_head::request::Request;
use http_routes::fault::RouteFault;
use http_routes::replies::{to_assignment, to_fault, to_run, to_submission};
use http_routes::reply::Response;
use http_routes::server_route::ServerRouted;
use std::alloc::Global;

/// What a run is to do.
#[derive(Drop)]
struct Order<'a> {
    job: JobId,
    /// What is asked for.
    asked: RunJobHttpRequest,
    inputs: &'a [u8],
}

/// The reply that tells a fault.
fn reply_fault(alloc: Global, fault: &RouteFault) -> Result<Response, Memory>
    ensures { IfOk result (λ r. r ≡ fault_response_of fault.now) }
{
    let response = to_fault(alloc, fault)?;
    Ok(response)
}

/// The reply to a call that gives no answer; none to want of memory.
fn reply_refusal(alloc: Global, fault: ServerFault) -> Result<Response, Memory>
    ensures { IfOk result (IsTold (fault_of fault)) }
{
    match fault {
        ServerFault::AlreadyAssigned(job) => reply_fault(alloc, &RouteFault::AlreadyAssigned(job)),
        ServerFault::UpdateFailed(call) => reply_fault(alloc, &RouteFault::UpdateFailed(call)),
        ServerFault::BuildFailed(cause) => reply_fault(alloc, &RouteFault::BuildFailed(cause)),
        ServerFault::Memory => Err(Memory),
    }
}

/// Assigns a job with its toolchain.
fn assign<K: Keeping>(
    alloc: Global,
    keeper: &mut K,
    json: bool,
    job: JobId,
    tc: Toolchain,
) -> Result<Response, Memory>
    ensures { IsAssignedAndTold json job tc (K.kept keeper.old) (K.kept keeper.new) result }
{
    match assign_on(keeper, job, tc) {
        Ok(answer) => {
            let response = to_assignment(alloc, json, &answer)?;
            Ok(response)
        }
        Err(fault) => reply_refusal(alloc, fault),
    }
}

/// Submits a body as the archive of a job's toolchain.
fn submitted<K: Keeping, D: Dialer>(
    alloc: Global,
    keeper: &mut K,
    dialer: &mut D,
    peer: Peer<'_>,
    job: JobId,
    body: &[u8],
) -> Result<SubmitToolchainResult, ServerFault>
    requires http { IsHttp peer.base.now }
    ensures submitted { IsSubmitted (peer_of peer.entry.base.now peer.entry.token.now) job body.now
        (K.kept keeper.old) (K.kept keeper.new)
        (record { asked = D.asked dialer.old; faults = D.faults dialer.old })
        (record { asked = D.asked dialer.new; faults = D.faults dialer.new }) result }
{
    let mut telling = Telling::new(alloc, dialer, peer.base, peer.token);
    let mut archive = BodySource::new(body);
    submit_from(alloc, keeper, &mut telling, job, &mut archive)
}

/// The same, and the reply that tells its answer.
fn submit<K: Keeping, D: Dialer>(
    alloc: Global,
    keeper: &mut K,
    dialer: &mut D,
    peer: Peer<'_>,
    json: bool,
    job: JobId,
    body: &[u8],
) -> Result<Response, Memory>
    requires http { IsHttp peer.base.now }
    ensures told { IsSubmittedAndTold (peer_of peer.entry.base.now peer.entry.token.now) json job body.now
        (K.kept keeper.old) (K.kept keeper.new)
        (record { asked = D.asked dialer.old; faults = D.faults dialer.old })
        (record { asked = D.asked dialer.new; faults = D.faults dialer.new }) result }
{
    match submitted(alloc, keeper, dialer, peer, job, body) {
        Ok(answer) => {
            let response = to_submission(alloc, json, &answer)?;
            Ok(response)
        }
        Err(fault) => reply_refusal(alloc, fault),
    }
}

/// The reply to a run that gave an answer.
fn reply_ran(alloc: Global, json: bool, answer: RunJobResult) -> Result<Response, Memory>
    ensures { IfOk result (λ r. r ≡ run_response json answer) }
{
    let response = to_run(alloc, json, &answer)?;
    Ok(response)
}

/// Runs a job over its inputs.
fn ran<K: Keeping, D: Dialer, B: BuilderIncoming>(
    alloc: Global,
    keeper: &mut K,
    dialer: &mut D,
    builder: &mut B,
    peer: Peer<'_>,
    order: &Order<'_>,
) -> Result<RunJobResult, ServerFault>
    requires http { IsHttp peer.base.now }
    ensures ran { IsRun (peer_of peer.entry.base.now peer.entry.token.now) order.now.job
        (record { command = order.now.asked.command; outputs = order.now.asked.outputs; inputs = order.now.inputs.now })
        (record {
          kept = K.kept keeper.old;
          dialing = record { asked = D.asked dialer.old; faults = D.faults dialer.old };
          builder = builder_of B.built B.refusals builder.old;
        })
        (record {
          kept = K.kept keeper.new;
          dialing = record { asked = D.asked dialer.new; faults = D.faults dialer.new };
          builder = builder_of B.built B.refusals builder.new;
        }) result }
{
    let mut telling = Telling::new(alloc, dialer, peer.base, peer.token);
    let command = &order.asked.command;
    let outputs = order.asked.outputs.get();
    match run_on(
        keeper,
        &mut telling,
        builder,
        order.job,
        command,
        outputs,
        order.inputs,
    ) {
        Ok(answer) => Ok(answer),
        Err(fault) => Err(fault),
    }
}

/// The same, and the reply that tells its answer.
fn run<K: Keeping, D: Dialer, B: BuilderIncoming>(
    alloc: Global,
    keeper: &mut K,
    dialer: &mut D,
    builder: &mut B,
    peer: Peer<'_>,
    json: bool,
    order: &Order<'_>,
) -> Result<Response, Memory>
    requires http { IsHttp peer.base.now }
    ensures told { IsRunAndTold (peer_of peer.entry.base.now peer.entry.token.now) json order.now.job
        (record { command = order.now.asked.command; outputs = order.now.asked.outputs; inputs = order.now.inputs.now })
        (record {
          kept = K.kept keeper.old;
          dialing = record { asked = D.asked dialer.old; faults = D.faults dialer.old };
          builder = builder_of B.built B.refusals builder.old;
        })
        (record {
          kept = K.kept keeper.new;
          dialing = record { asked = D.asked dialer.new; faults = D.faults dialer.new };
          builder = builder_of B.built B.refusals builder.new;
        }) result }
{
    match ran(alloc, keeper, dialer, builder, peer, order) {
        Ok(answer) => reply_ran(alloc, json, answer),
        Err(fault) => reply_refusal(alloc, fault),
    }
}

/// Does what a request, or what was taken in its place, asks of a build server, whose scheduler stands at a
/// base. Refused for want of memory alone: where the call that does it was, or where there is none for the
/// reply to what it answered.
pub(crate) fn answer<K: Keeping, D: Dialer, B: BuilderIncoming>(
    alloc: Global,
    keeper: &mut K,
    dialer: &mut D,
    builder: &mut B,
    peer: Peer<'_>,
    request: &Option<Request>,
    asked: ServerRouted,
) -> Result<Response, Memory>
    requires http { IsHttp peer.base.now }
    ensures done { IsDone (peer_of peer.entry.base.now peer.entry.token.now) (form_of request.now) (body_of request.now) asked
        (record {
          kept = K.kept keeper.old;
          dialing = record { asked = D.asked dialer.old; faults = D.faults dialer.old };
          builder = builder_of B.built B.refusals builder.old;
        })
        (record {
          kept = K.kept keeper.new;
          dialing = record { asked = D.asked dialer.new; faults = D.faults dialer.new };
          builder = builder_of B.built B.refusals builder.new;
        }) result }
{
    let json = form_of(request);
    let body = body_of(request);
    match asked {
        ServerRouted::Assign(job, tc) => assign(alloc, keeper, json, job, tc),
        ServerRouted::Submit(job) => submit(alloc, keeper, dialer, peer, json, job, body),
        ServerRouted::Run(job, asked, at) => {
            let inputs = inputs_of(body, at);
            let order = Order { job, asked, inputs };
            run(alloc, keeper, dialer, builder, peer, json, &order)
        }
        ServerRouted::Done(response) => Ok(response),
    }
}
