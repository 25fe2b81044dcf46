//! The calls of a scheduler with quotas, each with the answer of the scheduler's own step.
ghost use Rattle.std.specs.Prelude.{◌≡◌, IfOk, true};
ghost use Rattle.core_rules.specs.Log.{logged};
ghost use Rattle.core_rules.specs.Rule.{rule, is_initial};
ghost use Rattle.core_rules.specs.declared.call.Call.TheVariants as call;
ghost use Rattle.scheduler_steps.specs.Settling.{judged, spend_call, settled_by, is_own};
ghost use Rattle.scheduler_steps.specs.Telling.{hears, TellsHeard, RefusesHeard, TellsReported, TellsCounted};
ghost use Rattle.scheduler_steps.specs.Telling.{WantsMemory};
ghost use Rattle.quota.specs.Quota.{over_core};
ghost use Rattle.quota_service.specs.Replied.{spending};
ghost use Rattle.quota_service.specs.Step.{IsStepOver};

use core_rules::error::SchedError;
use dist_token::job_token::JWTJobAuthorizer;
use dist_types::ids::{JobId, ServerId};
use dist_types::outgoing::CallFault;
use dist_types::results::{
    AssignJobResult, HeartbeatServerResult, JobState, SchedulerStatusResult, UpdateJobStateResult,
};
use dist_types::roles::JobAuthorizer;
use dist_wire::heartbeat::HeartbeatServerHttpRequest;
use quota::state::QuotaState;
use sched_core::reservation::Reservation;
use scheduler_steps::fault::{SchedFault, fault_of};
use scheduler_steps::settled::{Settled, judged};

/// The most processors that a heartbeat may tell.
const MOST_CPUS: u64 = 4294967295;

/// Whether a heartbeat with so many processors is taken.
fn hears(cpus: u64) -> bool
    ensures { result ≡ hears cpus }
{
    cpus >= 1 && cpus <= MOST_CPUS
}

/// Takes a heartbeat. Refused for a number of processors that is 0 or over 4294967295, and else for want of
/// memory alone.
pub(crate) fn hear(
    quota: &mut QuotaState<JWTJobAuthorizer>,
    now: u64,
    server: ServerId,
    beat: HeartbeatServerHttpRequest,
) -> Result<HeartbeatServerResult, SchedFault>
    ensures step { IsStepOver (call.Beat now server beat.server_nonce beat.num_cpus beat.jwt_key)
        (TellsHeard beat.num_cpus) (RefusesHeard beat.num_cpus) quota.old quota.new result }
{
    let HeartbeatServerHttpRequest {
        jwt_key,
        num_cpus,
        server_nonce,
    } = beat;
    if !hears(num_cpus) {
        return Err(SchedFault::Core(SchedError::BadCpus(num_cpus)));
    }
    let key = JWTJobAuthorizer::of_key(jwt_key.into_inner());
    match quota.beat(now, server, server_nonce, num_cpus, key) {
        Ok(answer) => Ok(answer),
        Err(e) => Err(fault_of(e)),
    }
}

/// Takes a server's report that a job is in a new state. Refused for want of memory alone; every other
/// answer is logged.
pub(crate) fn report(
    quota: &mut QuotaState<JWTJobAuthorizer>,
    now: u64,
    server: ServerId,
    job: JobId,
    to: JobState,
) -> Result<UpdateJobStateResult, SchedFault>
    ensures step { IsStepOver (call.Update now server job to) TellsReported WantsMemory quota.old quota.new
        result }
{
    match quota.update(now, server, job, to) {
        Ok(answer) => Ok(answer),
        Err(e) => Err(fault_of(e)),
    }
}

/// Counts the registrations that stand, their processors and the open jobs. Refused for want of memory
/// alone.
pub(crate) fn count(
    quota: &mut QuotaState<JWTJobAuthorizer>,
    now: u64,
) -> Result<SchedulerStatusResult, SchedFault>
    ensures step { IsStepOver (call.Status now) TellsCounted WantsMemory quota.old quota.new result }
{
    match quota.status(now) {
        Ok(answer) => Ok(answer),
        Err(e) => Err(fault_of(e)),
    }
}

/// Spends a reservation by what was heard of its server, whose state is Pending or Ready where it took the
/// job.
fn spend(
    quota: &mut QuotaState<JWTJobAuthorizer>,
    now: u64,
    r: Reservation,
    heard: Result<AssignJobResult, CallFault>,
) -> Settled
    requires begins { IfOk heard (λ taken. is_initial taken.state ≡ true) }
    requires own { is_own quota.old.core r ≡ true }
    ensures left { quota.new ≡ over_core quota.old
        (logged quota.old.core (rule quota.old.core (spend_call now r heard))) }
    ensures settled { result ≡ settled_by r heard (rule quota.old.core (spend_call now r heard)).kind }
{
    match heard {
        Ok(taken) => {
            let committed = quota.commit(now, r, taken.state);
            Settled::Taken(committed, taken.need_toolchain)
        }
        Err(cause) => {
            let undone = quota.undo(now, r);
            Settled::Failed(undone, cause)
        }
    }
}

/// The second half of an allocation: commits the reservation where its server took the job, in state
/// Pending or Ready, and else undoes it. It takes no memory.
pub(crate) fn settle(
    quota: &mut QuotaState<JWTJobAuthorizer>,
    now: u64,
    r: Reservation,
    heard: Result<AssignJobResult, CallFault>,
) -> Settled
    requires own { is_own quota.old.core r ≡ true }
    ensures left { quota.new ≡ over_core quota.old
        (logged quota.old.core (spending quota.old.core now r heard)) }
    ensures settled { result ≡ settled_by r (judged heard) (spending quota.old.core now r heard).kind }
{
    spend(quota, now, r, judged(heard))
}
