//! The steps: each makes one call of the core at the moment `now`, in milliseconds.
ghost use Rattle.std.specs.Prelude.{◌≡◌, IfOk, Err, true};
ghost use Rattle.core_rules.specs.Rule.{is_initial};
ghost use Rattle.core_rules.specs.declared.call.Call.TheVariants as call;
ghost use Rattle.scheduler_steps.specs.Settling.{judged, spend_call, TellsSettle, RefusesSettle};
ghost use Rattle.scheduler_steps.specs.Step.{IsStep};
ghost use Rattle.scheduler_steps.specs.Telling.{hears, TellsReserve, TellsHeard, RefusesHeard};
ghost use Rattle.scheduler_steps.specs.Telling.{TellsReported, TellsCounted, TellsDrained, WantsMemory};

use crate::fault::{SchedFault, fault_of};
use crate::settled::{Settled, judged};
use core_rules::error::SchedError;
use dist_types::ids::{JobId, ServerId, ServerNonce};
use dist_types::outgoing::CallFault;
use dist_types::results::{
    AssignJobResult, HeartbeatServerResult, JobState, SchedulerStatusResult, UpdateJobStateResult,
};
use dist_types::roles::JobAuthorizer;
use dist_types::rules::Rules;
use sched_core::answers::Picked;
use sched_core::reservation::Reservation;
use sched_core::state::SchedState;

/// The most processors that a heartbeat may tell.
const MOST_CPUS: u64 = 4294967295;

/// Whether a heartbeat with so many processors is taken.
fn hears(cpus: u64) -> bool
    ensures { result ≡ hears cpus }
{
    cpus >= 1 && cpus <= MOST_CPUS
}

/// Reserves a job: the first half of an allocation. Refused for want of memory alone; that the ids are spent
/// is logged.
pub fn reserve<A: JobAuthorizer>(state: &mut SchedState<A>, now: u64) -> Result<Picked, SchedFault>
    ensures step { IsStep (call.Reserve now) (TellsReserve A.key_of A.token_for) WantsMemory
        state.old state.new result }
{
    match state.reserve(now) {
        Ok(picked) => Ok(picked),
        Err(e) => Err(fault_of(e)),
    }
}

/// Spends a reservation by what was heard of its server, whose state is Pending or Ready where it took the job.
fn spend<A: JobAuthorizer>(
    state: &mut SchedState<A>,
    now: u64,
    r: Reservation,
    heard: Result<AssignJobResult, CallFault>,
) -> Settled
    requires begins { IfOk heard (λ taken. is_initial taken.state ≡ true) }
    ensures step { IsStep (spend_call now r heard) (TellsSettle r heard) (RefusesSettle r heard)
        state.old state.new result }
{
    match heard {
        Ok(taken) => {
            let committed = state.commit(now, r, taken.state);
            Settled::Taken(committed, taken.need_toolchain)
        }
        Err(cause) => {
            let undone = state.undo(now, r);
            Settled::Failed(undone, cause)
        }
    }
}

/// The second half of an allocation: commits the reservation where its server took the job, in state Pending
/// or Ready, and else undoes it. Refused exactly where the reservation is no unspent one of this state. It
/// takes no memory.
pub fn settle<A: JobAuthorizer>(
    state: &mut SchedState<A>,
    now: u64,
    r: Reservation,
    heard: Result<AssignJobResult, CallFault>,
) -> Settled
    ensures step { IsStep (spend_call now r (judged heard)) (TellsSettle r (judged heard))
        (RefusesSettle r (judged heard)) state.old state.new result }
{
    spend(state, now, r, judged(heard))
}

/// Takes a heartbeat. Refused for a number of processors that is 0 or over 4294967295, and else for want of
/// memory alone.
pub fn hear<A: JobAuthorizer>(
    state: &mut SchedState<A>,
    now: u64,
    server: ServerId,
    nonce: ServerNonce,
    cpus: u64,
    key: A,
) -> Result<HeartbeatServerResult, SchedFault>
    ensures step { IsStep (call.Beat now server nonce cpus (A.key_of key)) (TellsHeard cpus)
        (RefusesHeard cpus) state.old state.new result }
{
    if !hears(cpus) {
        return Err(SchedFault::Core(SchedError::BadCpus(cpus)));
    }
    match state.beat(now, server, nonce, cpus, key) {
        Ok(answer) => Ok(answer),
        Err(e) => Err(fault_of(e)),
    }
}

/// Takes a server's report that a job is in a new state. Refused for want of memory alone; every other
/// answer is logged.
pub fn report<A: JobAuthorizer>(
    state: &mut SchedState<A>,
    now: u64,
    server: ServerId,
    job: JobId,
    to: JobState,
) -> Result<UpdateJobStateResult, SchedFault>
    ensures step { IsStep (call.Update now server job to) TellsReported WantsMemory
        state.old state.new result }
{
    match state.update(now, server, job, to) {
        Ok(answer) => Ok(answer),
        Err(e) => Err(fault_of(e)),
    }
}

/// Counts the registrations that stand, their processors and the open jobs. Refused for want of memory
/// alone.
pub fn count<A: JobAuthorizer>(
    state: &mut SchedState<A>,
    now: u64,
) -> Result<SchedulerStatusResult, SchedFault>
    ensures step { IsStep (call.Status now) TellsCounted WantsMemory state.old state.new result }
{
    match state.status(now) {
        Ok(answer) => Ok(answer),
        Err(e) => Err(fault_of(e)),
    }
}

/// Lets the registration that stands at the address under the nonce drain, or ends that, in version 2 of the
/// rules: it answers whether there is such a registration, and either answer is logged. Refused for want of
/// memory alone.
pub fn drain<A: JobAuthorizer>(
    state: &mut SchedState<A>,
    now: u64,
    server: ServerId,
    nonce: ServerNonce,
    on: bool,
) -> Result<bool, SchedFault>
    requires version { state.old.start.rules ≡ Rules.Two }
    ensures step { IsStep (call.Drain now server nonce on) TellsDrained WantsMemory
        state.old state.new result }
{
    match state.drain(now, server, nonce, on) {
        Ok(known) => Ok(known),
        Err(e) => Err(fault_of(e)),
    }
}
