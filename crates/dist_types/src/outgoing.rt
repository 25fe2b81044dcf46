//! What a scheduler asks of a server, and a server of its scheduler.
ghost use Rattle.std.specs.Prelude.{◌≡◌, ◌≤◌, ◌≢◌, List, ℕ, OnOk, Option, Err};
ghost use Rattle.dist_types.specs.Cause.{Rose};
ghost use Rattle.dist_types.specs.Content.{Recorded, KeptOrRecorded};
ghost use Rattle.dist_types.specs.declared.dialer.Asked.{Asked};
ghost use Rattle.dist_types.specs.Outgoing.{Assigned, Updated, Lent, Peer, Calls, assigned_row, updated_row};
ghost use Rattle.dist_types.specs.Outgoing.{nothing_lent};

use crate::fault::Memory;
use crate::ids::{JobId, ServerId};
use crate::results::{AssignJobResult, JobState, UpdateJobStateResult};
use crate::toolchain::Toolchain;
use std::alloc::AllocError;
use thiserror::Error;

/// Why a call to another server gave no answer.
#[derive(Clone, Copy, Debug, PartialEq, Eq, Error)]
pub enum CallFault {
    /// The call or its reply was lost.
    #[error("lost")]
    Lost,
    /// The reply's status is another than 200.
    #[error("status {0}")]
    Status(u16),
    /// The reply could not be read.
    #[error("unreadable reply")]
    Unreadable,
    /// The reply tells a state that the call cannot lead to.
    #[error("bad state {0}")]
    BadState(JobState),
    /// Memory ran out.
    #[error("out of memory")]
    Memory,
}

impl From<AllocError> for CallFault {
    ghost use Rattle.dist_types.specs.declared.outgoing.CallFault.TheVariants.{Memory as OutOfMemory};

    ghost from_gives = { λ _ e. e ≡ OutOfMemory };

    fn from(_: AllocError) -> Self {
        CallFault::Memory
    }
}

impl From<Memory> for CallFault {
    ghost use Rattle.dist_types.specs.declared.outgoing.CallFault.TheVariants.{Memory as OutOfMemory};

    ghost from_gives = { λ _ e. e ≡ OutOfMemory };

    fn from(_: Memory) -> Self {
        CallFault::Memory
    }
}

/// Asks servers to take jobs.
pub trait SchedulerOutgoing {
    /// The record: a row for each call in order, where it is told. A call that ran out of memory may have
    /// none.
    ghost assigned: { Self → Option (List Assigned) };

    /// How often a call was lost.
    ghost faults: { Self → ℕ };

    /// What it was lent, where it asks through a dialer of its caller's.
    ghost lent: { Self → Lent } = { λ _. nothing_lent };

    /// Whether that row of the dialer is this call.
    ghost says: { Assigned → Asked → Type 0 } = { λ _ _. Unit {0} };

    /// Asks the server to take the job, with its toolchain and under its token.
    fn do_assign_job(
        &mut self,
        server_id: ServerId,
        job_id: JobId,
        tc: &Toolchain,
        auth: &str,
    ) -> Result<AssignJobResult, CallFault>
        ensures row { result ≢ Err CallFault.Memory
            → Recorded (assigned_row server_id job_id.0 tc.now auth.now result)
            (assigned self.old) (assigned self.new) }
        ensures memory { result ≡ Err CallFault.Memory
            → KeptOrRecorded (assigned_row server_id job_id.0 tc.now auth.now result)
            (assigned self.old) (assigned self.new) }
        ensures steady { OnOk result (faults self.new ≡ faults self.old) }
        ensures uncounted { result ≡ Err CallFault.Memory → faults self.new ≡ faults self.old }
        ensures later { faults self.old ≤ faults self.new }
        ensures cause { result ≡ Err CallFault.Lost → Rose (faults self.old) (faults self.new) }
        ensures lent { Calls says (assigned_row server_id job_id.0 tc.now auth.now) result
            (lent self.old) (lent self.new) };
}

/// Tells the scheduler the states of jobs.
pub trait ServerOutgoing {
    /// The record: a row for each call in order, where it is told. A call that ran out of memory may have
    /// none.
    ghost updated: { Self → Option (List Updated) };

    /// How often a call was lost.
    ghost faults: { Self → ℕ };

    /// What it was lent, where it asks through a dialer of its caller's.
    ghost lent: { Self → Lent } = { λ _. nothing_lent };

    /// Whether that row of the dialer is this call, where every call goes to that peer.
    ghost says: { Peer → Updated → Asked → Type 0 } = { λ _ _ _. Unit {0} };

    /// Tells the scheduler that the job is in this state.
    fn do_update_job_state(
        &mut self,
        job_id: JobId,
        state: JobState,
    ) -> Result<UpdateJobStateResult, CallFault>
        ensures row { result ≢ Err CallFault.Memory
            → Recorded (updated_row job_id.0 state result) (updated self.old) (updated self.new) }
        ensures memory { result ≡ Err CallFault.Memory
            → KeptOrRecorded (updated_row job_id.0 state result) (updated self.old) (updated self.new) }
        ensures steady { OnOk result (faults self.new ≡ faults self.old) }
        ensures uncounted { result ≡ Err CallFault.Memory → faults self.new ≡ faults self.old }
        ensures later { faults self.old ≤ faults self.new }
        ensures cause { result ≡ Err CallFault.Lost → Rose (faults self.old) (faults self.new) }
        ensures lent { Calls (says (lent self.old).peer) (updated_row job_id.0 state) result
            (lent self.old) (lent self.new) };
}
