//! Why the program stops before its end.
use dist_types::fault::Failed;
use std::alloc::{AllocError, AllocFailed};

/// Memory ran out, or standard error takes nothing.
#[derive(Clone, Copy, Debug, PartialEq, Eq)]
pub struct Stopped;

impl From<AllocError> for Stopped {
    fn from(_: AllocError) -> Self {
        Stopped
    }
}

impl<T: Drop> From<AllocFailed<T>> for Stopped {
    fn from(_: AllocFailed<T>) -> Self {
        Stopped
    }
}

impl From<Failed> for Stopped {
    fn from(_: Failed) -> Self {
        Stopped
    }
}
