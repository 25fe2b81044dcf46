//! What is wrong with a run.
use dist_types::fault::Memory as NoMemory;
use std::alloc::{AllocError, AllocFailed};
use thiserror::Error;

/// What is wrong with a run.
#[derive(Debug, Drop, Error)]
pub(crate) enum Fault {
    /// The entry at that place of the log, or its answer, is another than the replay's.
    #[error("place {0} differs")]
    Differs(usize),
    /// The books are others than the replay's.
    #[error("the books differ")]
    Books,
    /// The joined pass counts another number of entries than the log has.
    #[error("the joined pass counts {0} entries of {1}")]
    Counts(u64, usize),
    /// An answer has no place in the log.
    #[error("an answer of caller {0} is nobody's")]
    Unplaced(usize),
    /// The scheduler was not closed though all passes were joined.
    #[error("a pass is out")]
    Out,
    #[error("out of memory")]
    Memory,
}

impl From<AllocError> for Fault {
    fn from(_: AllocError) -> Self {
        Fault::Memory
    }
}

impl From<NoMemory> for Fault {
    fn from(_: NoMemory) -> Self {
        Fault::Memory
    }
}

impl<T: Drop> From<AllocFailed<T>> for Fault {
    fn from(_: AllocFailed<T>) -> Self {
        Fault::Memory
    }
}
