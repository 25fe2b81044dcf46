//! Why a call of the scheduler gives no answer.
ghost use Rattle.std.specs.Prelude.{◌≡◌};
ghost use Rattle.scheduler_steps.specs.Faults.{fault_of, fault_after};

use core_rules::answers::Undone;
use core_rules::error::SchedError;
use dist_types::outgoing::CallFault;
use thiserror::Error;

/// Why a call of the scheduler gives no answer.
#[derive(Clone, Copy, Debug, PartialEq, Eq, Drop, Error)]
pub enum SchedFault {
    /// The core refuses the call. Want of memory is never told so, but as `Memory`.
    #[error("the call is refused")]
    Core(SchedError),
    /// The server that was asked did not take the job: what became of its reservation, and why.
    #[error("the server did not take the job: {1}")]
    AssignFailed(Undone, CallFault),
    /// Memory ran out.
    #[error("out of memory")]
    Memory,
}

/// A refusal of the core as a fault.
pub fn fault_of(e: SchedError) -> SchedFault
    ensures { result ≡ fault_of e }
{
    match e {
        SchedError::BadCpus(cpus) => SchedFault::Core(SchedError::BadCpus(cpus)),
        SchedError::IdsSpent => SchedFault::Core(SchedError::IdsSpent),
        SchedError::UnknownJob => SchedFault::Core(SchedError::UnknownJob),
        SchedError::WrongServer => SchedFault::Core(SchedError::WrongServer),
        SchedError::BadTransition(from, to) => SchedFault::Core(SchedError::BadTransition(
            from, to,
        )),
        SchedError::Memory => SchedFault::Memory,
    }
}

/// The fault of a job that its server did not take.
pub fn fault_after(undone: Undone, cause: CallFault) -> SchedFault
    ensures { result ≡ fault_after undone cause }
{
    match cause {
        CallFault::Lost => SchedFault::AssignFailed(undone, CallFault::Lost),
        CallFault::Status(code) => SchedFault::AssignFailed(undone, CallFault::Status(code)),
        CallFault::Unreadable => SchedFault::AssignFailed(undone, CallFault::Unreadable),
        CallFault::BadState(state) => SchedFault::AssignFailed(undone, CallFault::BadState(state)),
        CallFault::Memory => SchedFault::Memory,
    }
}
