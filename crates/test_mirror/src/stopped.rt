//! Why the program stops before its end.
use folders::real_lock::OpenFault;
use std::alloc::{AllocError, AllocFailed};
use std::io;

/// Why the program stops before its end.
#[derive(Clone, Copy, Debug, PartialEq, Eq)]
pub enum Stopped {
    /// The words name nothing that it does.
    Words,
    /// Memory ran out.
    Memory,
    /// The system failed: a folder, a file, a listener, an input or an output.
    System,
}

impl From<AllocError> for Stopped {
    fn from(_: AllocError) -> Self {
        Stopped::Memory
    }
}

impl<T: Drop> From<AllocFailed<T>> for Stopped {
    fn from(_: AllocFailed<T>) -> Self {
        Stopped::Memory
    }
}

impl From<io::Error> for Stopped {
    fn from(_: io::Error) -> Self {
        Stopped::System
    }
}

impl From<OpenFault> for Stopped {
    fn from(_: OpenFault) -> Self {
        Stopped::System
    }
}
