//! Doing what is asked of a scheduler with quotas, and the reply that tells its answer.
ghost use Rattle.std.specs.Prelude.{◌≡◌, ℕ, List, option_copied, is_some, true};
ghost use Rattle.http_connections.specs.Form.{form_of};
ghost use Rattle.http_routes.specs.Route.{IsNoDrain};
ghost use Rattle.http_routes.specs.declared.route.SchedRouted.TheVariants.{Alloc};
ghost use Rattle.quota.specs.Clients.{place_of};
ghost use Rattle.quota_service.specs.Question.{asker_of, is_listed};
ghost use Rattle.quota_service.specs.Replied.{IsAllocated, IsDone, IsSpent, sched_fault};
ghost use Rattle.sched.specs.Outside.{moments};
ghost use Rattle.scheduler_steps.specs.Settling.{is_own};

use crate::full::full;
use crate::step::{count, hear, report, settle};
use dist_token::job_token::JWTJobAuthorizer;
use dist_types::clock::Clock;
use dist_types::dialer::Dialer;
use dist_types::fault::Memory;
use dist_types::outgoing::SchedulerOutgoing;
use dist_types::results::AllocJobResult;
use dist_types::toolchain::Toolchain;
use http_connections::form::form_of;
use http_head::bearer::token_in;
use http_head::request::Request;
use http_routes::reply::Response;
use http_routes::route::SchedRouted;
use quota::fault::QuotaFault;
use quota::picked::QuotaPicked;
use quota::state::QuotaState;
use sched_core::answers::Picked;
use sched_core::reservation::Reservation;
use scheduler_replies::replies::{to_allocated, to_counted, to_heard, to_reported};
use scheduler_service::asking::Asking;
use scheduler_steps::allocated;
use scheduler_steps::fault::SchedFault;
use std::alloc::Global;

/// Why a reserve is refused, as the scheduler's fault.
fn sched_fault(fault: QuotaFault) -> SchedFault
    ensures { result ≡ sched_fault fault }
{
    match fault {
        QuotaFault::DuplicateClient(_) => SchedFault::Memory,
        QuotaFault::Core(e) => SchedFault::Core(e),
        QuotaFault::Memory => SchedFault::Memory,
    }
}

/// Asks the reserved job's server, and spends the reservation by what was heard.
fn spent<D: Dialer, C: Clock>(
    alloc: Global,
    quota: &mut QuotaState<JWTJobAuthorizer>,
    dialer: &mut D,
    clock: &mut C,
    tc: &Toolchain,
    r: Reservation,
) -> Result<AllocJobResult, SchedFault>
    requires own { is_own quota.old.core r ≡ true }
    ensures spent { IsSpent tc.now r
        (record { quota = quota.old; clock = moments C.moments C.last clock.old; asked = D.asked dialer.old; faults = D.faults dialer.old })
        (record { quota = quota.new; clock = moments C.moments C.last clock.new; asked = D.asked dialer.new; faults = D.faults dialer.new })
        result }
{
    let mut asking = Asking::new(alloc, dialer);
    let heard = asking.do_assign_job(r.server_id(), r.job_id(), tc, r.auth());
    let settled = settle(quota, clock.now(), r, heard);
    allocated::allocated(alloc, settled)
}

/// Allocates a job for the listed client of that name, at that moment. Only where a job is reserved is its
/// server asked, through the dialer.
fn allocate<D: Dialer, C: Clock>(
    alloc: Global,
    quota: &mut QuotaState<JWTJobAuthorizer>,
    dialer: &mut D,
    clock: &mut C,
    now: u64,
    client: &str,
    tc: &Toolchain,
) -> Result<AllocJobResult, SchedFault>
    requires listed { is_some (place_of quota.old.clients client.now) ≡ true }
    ensures allocated { IsAllocated client.now tc.now now
        (record { quota = quota.old; clock = moments C.moments C.last clock.old; asked = D.asked dialer.old; faults = D.faults dialer.old })
        (record { quota = quota.new; clock = moments C.moments C.last clock.new; asked = D.asked dialer.new; faults = D.faults dialer.new })
        result }
{
    match quota.reserve_for(now, client) {
        Ok(QuotaPicked::Picked(Picked::Reserved(r))) => spent(alloc, quota, dialer, clock, tc, r),
        Ok(QuotaPicked::Picked(Picked::NoRoom(standing))) => allocated::no_room(alloc, standing),
        Ok(QuotaPicked::Full { held, limit }) => full(alloc, held, limit),
        Ok(QuotaPicked::NoClient) => unreachable!(),
        Err(fault) => Err(sched_fault(fault)),
    }
}

/// The token that what was taken shows.
fn asker_of(request: &Option<Request>) -> Option<&str>
    ensures { option_copied result ≡ asker_of request.now }
{
    match request {
        None => None,
        Some(request) => token_in(request.header("authorization")),
    }
}

/// Does what is asked of the scheduler at that moment. Refused for want of memory alone: where the call
/// that does it was, or where there is none for the reply to what it answered.
pub(crate) fn answer<D: Dialer, C: Clock>(
    alloc: Global,
    quota: &mut QuotaState<JWTJobAuthorizer>,
    dialer: &mut D,
    clock: &mut C,
    now: u64,
    request: &Option<Request>,
    what: SchedRouted,
) -> Result<Response, Memory>
    requires listed { (tc : List ℕ) → what ≡ Alloc tc
        → is_listed quota.old.clients (asker_of request.now) ≡ true }
    requires no_drain { IsNoDrain what }
    ensures done { IsDone what (form_of request.now) (asker_of request.now) now
        (record { quota = quota.old; clock = moments C.moments C.last clock.old; asked = D.asked dialer.old; faults = D.faults dialer.old })
        (record { quota = quota.new; clock = moments C.moments C.last clock.new; asked = D.asked dialer.new; faults = D.faults dialer.new })
        result }
{
    let json = form_of(request);
    match what {
        SchedRouted::Alloc(tc) => match asker_of(request) {
            Some(client) => {
                let answer = allocate(alloc, quota, dialer, clock, now, client, &tc);
                to_allocated(alloc, json, answer)
            }
            None => unreachable!(),
        },
        SchedRouted::Beat(server, beat) => to_heard(alloc, json, hear(quota, now, server, beat)),
        SchedRouted::Update(server, job, state) => {
            let answer = report(quota, now, server, job, state);
            to_reported(alloc, json, server, job, answer)
        }
        SchedRouted::Status => to_counted(alloc, json, count(quota, now)),
        SchedRouted::Drain(_, _) => unreachable!(),
        SchedRouted::Done(response) => Ok(response),
    }
}
