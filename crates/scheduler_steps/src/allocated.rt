//! What an allocation answers, once it is over.
ghost use Rattle.core_rules.specs.Texts.{no_room_text, dropped_text};
ghost use Rattle.scheduler_steps.specs.Settling.{FailsWith, Answers};

use crate::fault::{SchedFault, fault_after};
use crate::settled::Settled;
use core_rules::answers::Committed;
use core_rules::texts::{dropped_text, no_room_text};
use dist_types::ids::JobId;
use dist_types::results::AllocJobResult;
use std::alloc::Global;

/// No server of so many that stand has room.
pub fn no_room(alloc: Global, standing: u64) -> Result<AllocJobResult, SchedFault>
    ensures { FailsWith (no_room_text standing) result }
{
    match no_room_text(alloc, standing) {
        Ok(msg) => Ok(AllocJobResult::Fail { msg }),
        Err(_) => Err(SchedFault::Memory),
    }
}

/// The job's reservation ended before its server answered.
fn dropped(alloc: Global, job: JobId) -> Result<AllocJobResult, SchedFault>
    ensures { FailsWith (dropped_text job) result }
{
    match dropped_text(alloc, job) {
        Ok(msg) => Ok(AllocJobResult::Fail { msg }),
        Err(_) => Err(SchedFault::Memory),
    }
}

/// A job that its server took.
fn taken(
    alloc: Global,
    committed: Committed,
    need_toolchain: bool,
) -> Result<AllocJobResult, SchedFault>
    ensures { Answers (Settled.Taken committed need_toolchain) result }
{
    match committed {
        Committed::Kept(job_alloc) => Ok(AllocJobResult::Success {
            job_alloc,
            need_toolchain,
        }),
        Committed::Dropped(job) => dropped(alloc, job),
        Committed::Foreign(job) => dropped(alloc, job),
    }
}

/// What became of the reservation, as it is answered.
pub fn allocated(alloc: Global, settled: Settled) -> Result<AllocJobResult, SchedFault>
    ensures { Answers settled result }
{
    match settled {
        Settled::Taken(committed, need_toolchain) => taken(alloc, committed, need_toolchain),
        Settled::Failed(undone, cause) => Err(fault_after(undone, cause)),
    }
}
