//! Why the rows were not answered.
use std::alloc::{AllocError, AllocFailed};
use thiserror::Error;

/// Why the rows were not answered.
#[derive(Debug, Drop, Error)]
pub(crate) enum Fault {
    #[error("the rows were not read")]
    Unread,
    #[error("a line is no row")]
    BadRow,
    #[error("the client has no toolchain")]
    NoToolchain,
    #[error("what came of the rows was not written")]
    Unwritten,
    #[error("out of memory")]
    Memory,
}

impl From<AllocError> for Fault {
    fn from(_: AllocError) -> Self {
        Fault::Memory
    }
}

impl<T: Drop> From<AllocFailed<T>> for Fault {
    fn from(_: AllocFailed<T>) -> Self {
        Fault::Memory
    }
}
