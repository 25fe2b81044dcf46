//! Why the rows were not run.
use std::alloc::{AllocError, AllocFailed};
use thiserror::Error;

/// Why the rows were not run.
#[derive(Debug, Drop, Error)]
pub(crate) enum Fault {
    #[error("a file was not read")]
    Unread,
    #[error("a row has no script")]
    NoScript,
    #[error("a file is no text")]
    NoText,
    #[error("a status is no number")]
    NoStatus,
    #[error("what came of the rows was not written")]
    Unwritten,
    #[error("out of memory")]
    Memory,
}

impl From<AllocError> for Fault {
    fn from(_: AllocError) -> Self {
        Fault::Memory
    }
}

impl<T: Drop> From<AllocFailed<T>> for Fault {
    fn from(_: AllocFailed<T>) -> Self {
        Fault::Memory
    }
}
