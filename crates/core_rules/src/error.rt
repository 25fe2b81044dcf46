//! Why a call of the scheduler is refused.
use dist_types::results::JobState;
use std::alloc::{AllocError, AllocFailed};
use thiserror::Error;

/// Why a call of the scheduler is refused.
#[derive(Clone, Copy, Debug, PartialEq, Eq, Drop, Error)]
pub enum SchedError {
    /// A heartbeat with no processors, or with more than 4294967295: so many.
    #[error("Invalid number of CPUs ({0}) specified in heartbeat")]
    BadCpus(u64),
    /// The job ids are spent.
    #[error("No job ids left")]
    IdsSpent,
    /// No open job has that id.
    #[error("Unknown job")]
    UnknownJob,
    /// The job is at another address.
    #[error("Job is not registered on this server")]
    WrongServer,
    /// The job does not go from the first state to the second.
    #[error("Invalid job state transition from {0} to {1}")]
    BadTransition(JobState, JobState),
    /// Memory ran out; nothing changed.
    #[error("out of memory")]
    Memory,
}

impl From<AllocError> for SchedError {
    ghost use Rattle.std.specs.Prelude.{◌≡◌};
    ghost use Rattle.core_rules.specs.declared.error.SchedError.TheVariants.{Memory};

    ghost from_gives = { λ _ e. e ≡ Memory };

    fn from(_error: AllocError) -> SchedError {
        SchedError::Memory
    }
}

impl<T: Drop> From<AllocFailed<T>> for SchedError {
    ghost use Rattle.std.specs.Prelude.{◌≡◌};
    ghost use Rattle.core_rules.specs.declared.error.SchedError.TheVariants.{Memory};

    ghost from_gives = { λ _ e. e ≡ Memory };

    fn from(_error: AllocFailed<T>) -> SchedError {
        SchedError::Memory
    }
}
