//! Doing what is asked of the scheduler, and the reply that tells its answer.
ghost use Rattle.std.specs.Prelude.{◌≡◌};
ghost use Rattle.dist_types.specs.declared.addr.Addr.{Addr};
ghost use Rattle.dist_wire.specs.declared.drain.DrainServerHttpRequest.{DrainServerHttpRequest as Wish};
ghost use Rattle.http_routes.specs.declared.route.SchedRouted.TheVariants.{Drain};
ghost use Rattle.sched.specs.Outside.{moments};
ghost use Rattle.sched.specs.Pass.{IsPassOf, Stays};
ghost use Rattle.scheduler_service.specs.Replied.{IsAllocated, IsDone};

use crate::asking::Asking;
use dist_token::job_token::JWTJobAuthorizer;
use dist_types::clock::Clock;
use dist_types::dialer::Dialer;
use dist_types::fault::Memory;
use dist_types::results::AllocJobResult;
use dist_types::roles::JobAuthorizer;
use dist_types::rules::Rules;
use dist_types::toolchain::Toolchain;
use dist_wire::drain::DrainServerHttpRequest;
use dist_wire::heartbeat::HeartbeatServerHttpRequest;
use http_routes::reply::Response;
use http_routes::route::SchedRouted;
use sched::fault::SchedFault;
use sched::pass::Pass;
use sched::scheduler::Scheduler;
use scheduler_replies::replies::{to_allocated, to_counted, to_drained, to_heard, to_reported};
use std::alloc::Global;
use std::sync::Wait;

/// What a request wants of the scheduler.
#[derive(Drop)]
pub struct Wanted {
    /// What it asks.
    pub asked: SchedRouted,
    /// Whether the reply is to be in JSON.
    pub json: bool,
}

/// Allocates a job, and asks its server through the dialer.
#[tactic(auto, using(crate::proofs::RepliedLemmas::allocation_stays))]
fn allocated<R: Wait, D: Dialer, C: Clock>(
    rt: &R,
    alloc: Global,
    scheduler: &Scheduler<JWTJobAuthorizer>,
    pass: &mut Pass,
    dialer: &mut D,
    clock: &mut C,
    tc: &Toolchain,
) -> Result<AllocJobResult, SchedFault>
    requires pass { IsPassOf scheduler.now pass.old }
    ensures allocated { IsAllocated tc.now
        (record { pass = pass.old; clock = moments C.moments C.last clock.old; asked = D.asked dialer.old; faults = D.faults dialer.old })
        (record { pass = pass.new; clock = moments C.moments C.last clock.new; asked = D.asked dialer.new; faults = D.faults dialer.new })
        result }
    ensures stays { Stays pass.old pass.new }
{
    let mut asking = Asking::new(alloc, dialer);
    scheduler.handle_alloc_job(rt, pass, clock, &mut asking, tc)
}

/// Does what is asked of the scheduler; a drain is asked by version 2 of the rules alone. Refused for want of
/// memory alone: where the call that does it was, or where there is none for the reply to what it answered.
pub fn answer<R: Wait, D: Dialer, C: Clock>(
    rt: &R,
    alloc: Global,
    scheduler: &Scheduler<JWTJobAuthorizer>,
    pass: &mut Pass,
    dialer: &mut D,
    clock: &mut C,
    wanted: Wanted,
) -> Result<Response, Memory>
    requires pass { IsPassOf scheduler.now pass.old }
    requires version { (server : Addr) (drain : Wish) → wanted.asked ≡ Drain server drain
        → scheduler.now.start.rules ≡ Rules.Two }
    ensures told { IsDone wanted.json wanted.asked
        (record { pass = pass.old; clock = moments C.moments C.last clock.old; asked = D.asked dialer.old; faults = D.faults dialer.old })
        (record { pass = pass.new; clock = moments C.moments C.last clock.new; asked = D.asked dialer.new; faults = D.faults dialer.new }) result }
    ensures stays { Stays pass.old pass.new }
{
    let Wanted { asked, json } = wanted;
    match asked {
        SchedRouted::Alloc(tc) => {
            let answer = allocated(rt, alloc, scheduler, pass, dialer, clock, &tc);
            to_allocated(alloc, json, answer)
        }
        SchedRouted::Beat(server, beat) => {
            let HeartbeatServerHttpRequest {
                jwt_key,
                num_cpus,
                server_nonce,
            } = beat;
            let key = JWTJobAuthorizer::of_key(jwt_key.into_inner());
            let answer = scheduler.handle_heartbeat_server(
                rt,
                pass,
                clock,
                server,
                server_nonce,
                num_cpus,
                key,
            );
            to_heard(alloc, json, answer)
        }
        SchedRouted::Update(server, job, state) => {
            let answer = scheduler.handle_update_job_state(rt, pass, clock, job, server, state);
            to_reported(alloc, json, server, job, answer)
        }
        SchedRouted::Status => {
            let answer = scheduler.handle_status(rt, pass, clock);
            to_counted(alloc, json, answer)
        }
        SchedRouted::Drain(server, drain) => {
            let DrainServerHttpRequest {
                server_nonce,
                draining,
            } = drain;
            let answer = scheduler.handle_drain_server(
                rt,
                pass,
                clock,
                server,
                server_nonce,
                draining,
            );
            to_drained(alloc, json, answer)
        }
        SchedRouted::Done(response) => Ok(response),
    }
}
