//! What one entry says of a registration, a job or a reservation.
ghost use Rattle.std.specs.Prelude.{◌≡◌, unwrap_or};
ghost use Rattle.core_rules.specs.Log.{is_this, names_job};
ghost use Rattle.core_rules.specs.Standing.{ends_by, is_heard, drains_by};
ghost use Rattle.core_rules.specs.Reservation.{is_booked, spends_by, is_accepted, is_started, is_complete};
ghost use Rattle.core_rules.specs.Job.{is_ready, readies_by};
ghost use Rattle.core_rules.specs.Reservation.{completes_by, reaps_by, undoes_by, frees_by};
ghost use Rattle.core_rules.specs.Reservation.{claims_by};
ghost use Rattle.core_rules.specs.Job.{moves_by};
ghost use Rattle.core_rules.specs.Next.{begins_by, state_after, ready_after, draining_after};

use crate::entry::{CoreEntry, CoreKind, Reserved, UpdateAnswer};
use dist_types::ids::JobId;
use dist_types::results::JobState;

/// Whether there is a number, and it is this one.
pub fn is_number(there: Option<u64>, number: u64) -> bool
    ensures { result ≡ is_this there number }
{
    match there {
        Some(n) => n == number,
        None => false,
    }
}

/// Whether the job is among those.
fn has_job(jobs: &[JobId], job: JobId) -> bool
    ensures { result ≡ names_job jobs.now job }
{
    jobs.iter().any(|j| j.0 == job.0)
}

/// Whether an entry of this kind names the registration as pruned or replaced.
pub fn ends(kind: &CoreKind, reg: u64) -> bool
    ensures { result ≡ ends_by kind.now reg }
{
    match kind {
        CoreKind::Beat {
            pruned,
            replaced,
            ..
        } => pruned.get().contains(&reg) || is_number(*replaced, reg),
        CoreKind::Status { pruned, .. } => pruned.get().contains(&reg),
        _ => false,
    }
}

/// Whether an entry of this kind makes a reservation.
pub fn is_reservation(kind: &CoreKind) -> bool
    ensures { result ≡ is_booked kind.now }
{
    matches!(kind, CoreKind::Reserve(Reserved::Job { .. }))
}

/// Whether an update with this answer counts as a sign.
pub fn heard(answer: UpdateAnswer) -> bool
    ensures { result ≡ is_heard answer }
{
    match answer {
        UpdateAnswer::Accepted | UpdateAnswer::Transition(_) => true,
        _ => false,
    }
}

/// Whether the update was accepted.
pub fn accepted(answer: UpdateAnswer) -> bool
    ensures { result ≡ is_accepted answer }
{
    matches!(answer, UpdateAnswer::Accepted)
}

/// Whether an entry of this kind is a commit or an undo of the job.
#[inline(always)]
pub fn spends(kind: &CoreKind, j: JobId) -> bool
    ensures { result ≡ spends_by kind.now j }
{
    match kind {
        CoreKind::Commit { job, .. } => job.0 == j.0,
        CoreKind::Undo { job, .. } => job.0 == j.0,
        _ => false,
    }
}

/// Whether the build has begun.
fn started(state: JobState) -> bool
    ensures { result ≡ is_started state }
{
    matches!(state, JobState::Started)
}

/// Whether the build is over.
pub fn complete(state: JobState) -> bool
    ensures { result ≡ is_complete state }
{
    matches!(state, JobState::Complete)
}

/// Whether an entry of this kind accepts that the job is complete.
pub fn completes(kind: &CoreKind, j: JobId) -> bool
    ensures { result ≡ completes_by kind.now j }
{
    match kind {
        CoreKind::Update {
            job,
            state,
            answer,
            ..
        } => complete(*state) && accepted(*answer) && job.0 == j.0,
        _ => false,
    }
}

/// Whether an entry of this kind names the job as reaped.
pub fn reaps(kind: &CoreKind, j: JobId) -> bool
    ensures { result ≡ reaps_by kind.now j }
{
    match kind {
        CoreKind::Beat { reaped, .. } => has_job(reaped.get(), j),
        _ => false,
    }
}

/// Whether an entry of this kind is an undo of the job that ended its reservation.
fn undoes(kind: &CoreKind, j: JobId) -> bool
    ensures { result ≡ undoes_by kind.now j }
{
    match kind {
        CoreKind::Undo { job, ended, .. } => *ended && job.0 == j.0,
        _ => false,
    }
}

/// Whether an entry of this kind ends the job's reservation at the registration.
#[inline(always)]
pub fn frees(kind: &CoreKind, job: JobId, reg: u64) -> bool
    ensures { result ≡ frees_by kind.now job reg }
{
    match kind {
        CoreKind::Reserve(_) => false,
        CoreKind::Commit { .. } => false,
        CoreKind::Undo { .. } => undoes(kind, job),
        CoreKind::Beat { .. } => reaps(kind, job) || ends(kind, reg),
        CoreKind::Update { .. } => completes(kind, job),
        CoreKind::Status { .. } => ends(kind, reg),
        CoreKind::Drain { .. } => false,
    }
}

/// Whether an entry of this kind accepts that the job's build has begun.
#[inline(always)]
pub fn claims(kind: &CoreKind, j: JobId) -> bool
    ensures { result ≡ claims_by kind.now j }
{
    match kind {
        CoreKind::Update {
            job,
            state,
            answer,
            ..
        } => started(*state) && accepted(*answer) && job.0 == j.0,
        _ => false,
    }
}

/// The state in which an entry of this kind commits the job and keeps it.
pub fn begins(kind: &CoreKind, j: JobId) -> Option<JobState>
    ensures { result ≡ begins_by kind.now j }
{
    match kind {
        CoreKind::Commit { job, state, kept } => {
            if *kept && job.0 == j.0 {
                Some(*state)
            } else {
                None
            }
        }
        _ => None,
    }
}

/// The state that an entry of this kind accepts for the job.
pub fn moves(kind: &CoreKind, j: JobId) -> Option<JobState>
    ensures { result ≡ moves_by kind.now j }
{
    match kind {
        CoreKind::Update {
            job,
            state,
            answer,
            ..
        } => {
            if accepted(*answer) && job.0 == j.0 {
                Some(*state)
            } else {
                None
            }
        }
        _ => None,
    }
}

/// The state after a move, if there is one.
fn moved(to: Option<JobState>, before: JobState) -> JobState
    ensures { result ≡ unwrap_or to before }
{
    match to {
        Some(state) => state,
        None => before,
    }
}

/// The state of a job after an entry, if it is committed.
#[inline(always)]
pub fn state_now(kind: &CoreKind, job: JobId, before: Option<JobState>) -> Option<JobState>
    ensures { result ≡ state_after kind.now job before }
{
    match begins(kind, job) {
        Some(state) => Some(state),
        None => match before {
            Some(state) => Some(moved(moves(kind, job), state)),
            None => None,
        },
    }
}

/// Whether the job may begin.
fn ready(state: JobState) -> bool
    ensures { result ≡ is_ready state }
{
    matches!(state, JobState::Ready)
}

/// The moment at which an entry makes the job ready, if it does.
fn readies(entry: &CoreEntry, j: JobId) -> Option<u64>
    ensures { result ≡ readies_by entry.entry.now j }
{
    match &entry.kind {
        CoreKind::Commit { job, state, kept } => {
            if *kept && ready(*state) && job.0 == j.0 {
                Some(entry.now)
            } else {
                None
            }
        }
        CoreKind::Update {
            job,
            state,
            answer,
            ..
        } => {
            if ready(*state) && accepted(*answer) && job.0 == j.0 {
                Some(entry.now)
            } else {
                None
            }
        }
        _ => None,
    }
}

/// The moment at which the job became ready, after an entry.
#[inline(always)]
pub fn ready_now(entry: &CoreEntry, job: JobId, before: Option<u64>) -> Option<u64>
    ensures { result ≡ ready_after entry.entry.now job before }
{
    match readies(entry, job) {
        Some(now) => Some(now),
        None => before,
    }
}

/// Whether an entry of this kind says that the registration drains, if it names it.
fn drains(kind: &CoreKind, number: u64) -> Option<bool>
    ensures { result ≡ drains_by kind.now number }
{
    match kind {
        CoreKind::Drain { on, reg, .. } => {
            if is_number(*reg, number) {
                Some(*on)
            } else {
                None
            }
        }
        _ => None,
    }
}

/// Whether the registration is draining after an entry.
pub fn draining_now(kind: &CoreKind, reg: u64, before: bool) -> bool
    ensures { result ≡ draining_after kind.now reg before }
{
    match drains(kind, reg) {
        Some(on) => on,
        None => before,
    }
}
