//! What build servers answer to an assignment.
ghost use Rattle.std.specs.Prelude.{None};

use dist_types::ids::{JobId, ServerId};
use dist_types::outgoing::{CallFault, SchedulerOutgoing};
use dist_types::results::{AssignJobResult, JobState};
use dist_types::toolchain::Toolchain;

/// What is heard of a server that is asked.
pub(crate) type Heard = Result<AssignJobResult, CallFault>;

/// Answers each assignment with what it was given.
#[derive(Drop)]
pub(crate) struct Answering {
    heard: Heard,
}

impl Answering {
    /// A requester that hears this.
    pub(crate) fn new(heard: Heard) -> Self {
        Answering { heard }
    }
}

impl SchedulerOutgoing for Answering {
    ghost assigned = { λ _. None };

    ghost faults = { λ _. 0 };

    fn do_assign_job(
        &mut self,
        _server_id: ServerId,
        _job_id: JobId,
        _tc: &Toolchain,
        _auth: &str,
    ) -> Result<AssignJobResult, CallFault> {
        match self.heard {
            Ok(taken) => Ok(taken),
            Err(CallFault::Status(code)) => Err(CallFault::Status(code)),
            Err(_) => Err(CallFault::Unreadable),
        }
    }
}

/// What a server answers, of those that the number draws: most take the job, some are in no state to.
pub(crate) fn heard_by(number: u64) -> Heard {
    let (state, need_toolchain) = match number {
        0 => return Err(CallFault::Status(503)),
        1 => return Err(CallFault::Unreadable),
        2 => (JobState::Started, false),
        3 | 4 | 5 => (JobState::Pending, true),
        _ => (JobState::Ready, false),
    };
    Ok(AssignJobResult {
        state,
        need_toolchain,
    })
}
