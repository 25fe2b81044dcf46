//! Why the steps were not taken.
use std::alloc::{AllocError, AllocFailed};
use thiserror::Error;

/// Why the steps were not taken.
#[derive(Debug, Drop, Error)]
pub(crate) enum Fault {
    #[error("the steps were not read")]
    Unread,
    #[error("a line is no step")]
    BadStep,
    #[error("the directory was not made")]
    NoDirectory,
    #[error("what came of the steps was not written")]
    Unwritten,
    #[error("out of memory")]
    Memory,
}

impl From<AllocError> for Fault {
    fn from(_: AllocError) -> Self {
        Fault::Memory
    }
}

impl<T: Drop> From<AllocFailed<T>> for Fault {
    fn from(_: AllocFailed<T>) -> Self {
        Fault::Memory
    }
}
