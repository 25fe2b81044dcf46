//! What a caller was answered, and keeps.
use crate::server::Heard;
use dist_types::ids::{JobId, ServerId};
use dist_types::results::{
    AllocJobResult, HeartbeatServerResult, SchedulerStatusResult, UpdateJobStateResult,
};
use sched::fault::SchedFault;

/// An answer of the scheduler.
#[derive(Debug, PartialEq, Drop)]
pub(crate) enum Answer {
    /// A job is given: its server, its id, its token, and whether the server asks for the toolchain.
    Given(ServerId, JobId, String, bool),
    /// None is, or a report is not taken: why.
    Refused(String),
    /// A heartbeat is taken: whether it made a registration.
    Heard(bool),
    /// A report is taken.
    Reported,
    /// The counts of a status.
    Counted(SchedulerStatusResult),
    /// A drain is taken: whether it named a registration.
    Drained(bool),
    /// A fault.
    Fault(SchedFault),
}

/// An answer with its place: the moment of the last entry of its call, which no other entry has.
#[derive(Debug, Drop)]
pub(crate) struct Kept {
    pub(crate) moment: u64,
    /// What was heard of the server, where one was asked.
    pub(crate) heard: Option<Heard>,
    pub(crate) answer: Answer,
}

/// The answer to an allocation.
pub(crate) fn allocated(answer: Result<AllocJobResult, SchedFault>) -> Answer {
    match answer {
        Ok(
            AllocJobResult::Success {
                job_alloc,
                need_toolchain,
            },
        ) => Answer::Given(
            job_alloc.server_id,
            job_alloc.job_id,
            job_alloc.auth.into_inner(),
            need_toolchain,
        ),
        Ok(AllocJobResult::Fail { msg }) => Answer::Refused(msg.into_inner()),
        Err(fault) => Answer::Fault(fault),
    }
}

/// The answer to a heartbeat.
pub(crate) fn heard(answer: Result<HeartbeatServerResult, SchedFault>) -> Answer {
    match answer {
        Ok(HeartbeatServerResult { is_new }) => Answer::Heard(is_new),
        Err(fault) => Answer::Fault(fault),
    }
}

/// The answer to a report.
pub(crate) fn reported(answer: Result<UpdateJobStateResult, SchedFault>) -> Answer {
    match answer {
        Ok(UpdateJobStateResult::Success) => Answer::Reported,
        Ok(UpdateJobStateResult::Fail { msg }) => Answer::Refused(msg.into_inner()),
        Err(fault) => Answer::Fault(fault),
    }
}

/// The answer to a status request.
pub(crate) fn counted(answer: Result<SchedulerStatusResult, SchedFault>) -> Answer {
    match answer {
        Ok(counts) => Answer::Counted(counts),
        Err(fault) => Answer::Fault(fault),
    }
}

/// The answer to a drain.
pub(crate) fn drained(answer: Result<bool, SchedFault>) -> Answer {
    match answer {
        Ok(known) => Answer::Drained(known),
        Err(fault) => Answer::Fault(fault),
    }
}
