//! What the calls answer that spend a reservation, and the updates.
ghost use Rattle.std.specs.Prelude.{◌≡◌, if◌then◌else◌};
ghost use Rattle.core_rules.specs.Answers.{unended_by, verdict};
ghost use Rattle.core_rules.specs.declared.answers.Committed.TheVariants as committed;
ghost use Rattle.core_rules.specs.declared.answers.Undone.TheVariants as undone;

use crate::entry::UpdateAnswer;
use crate::error::SchedError;
use dist_types::ids::JobId;
use dist_types::results::{JobAlloc, JobState, UpdateJobStateResult};

/// What became of a commit.
#[derive(Debug, Drop)]
pub enum Committed {
    /// The job is kept, at the reservation's server and under its token.
    Kept(JobAlloc),
    /// The job's reservation had ended before.
    Dropped(JobId),
    /// The state has no unspent reservation of that number and job; nothing changed.
    Foreign(JobId),
}

/// What became of an undo.
#[derive(Clone, Copy, Debug, PartialEq, Eq)]
pub enum Undone {
    /// The reservation is ended.
    Unassigned,
    /// A registration stands at its address, but the reservation had ended before.
    NotKnown,
    /// No registration stands at its address.
    NoServer,
    /// The state has no unspent reservation of that number and job; nothing changed.
    Foreign,
}

/// What a commit answers.
pub fn answer_commit(kept: bool, alloc: JobAlloc) -> Committed
    ensures { result ≡ (if kept then committed.Kept alloc else committed.Dropped alloc.job_id) }
{
    if kept {
        Committed::Kept(alloc)
    } else {
        Committed::Dropped(alloc.job_id)
    }
}

/// What an undo answers that ended no reservation.
fn not_ended(noted: Option<u64>) -> Undone
    ensures { result ≡ unended_by noted }
{
    match noted {
        Some(_) => Undone::NotKnown,
        None => Undone::NoServer,
    }
}

/// What an undo answers.
pub fn answer_undo(noted: Option<u64>, ended: bool) -> Undone
    ensures { result ≡ (if ended then undone.Unassigned else unended_by noted) }
{
    if ended {
        Undone::Unassigned
    } else {
        not_ended(noted)
    }
}

/// What an update to that state answers.
pub fn answer_update(
    answer: UpdateAnswer,
    state: JobState,
) -> Result<UpdateJobStateResult, SchedError>
    ensures { result ≡ verdict answer state }
{
    match answer {
        UpdateAnswer::Accepted => Ok(UpdateJobStateResult::Success),
        UpdateAnswer::Unknown => Err(SchedError::UnknownJob),
        UpdateAnswer::Wrong => Err(SchedError::WrongServer),
        UpdateAnswer::Transition(from) => Err(SchedError::BadTransition(from, state)),
    }
}
