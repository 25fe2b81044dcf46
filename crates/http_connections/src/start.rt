//! What one start of a scheduler or a build server is given, and why it is refused.
use dist_types::fault::Memory;
use std::alloc::{AllocError, AllocFailed};
use std::io;

/// What one start is given beside its configuration.
#[derive(Clone, Copy, Debug, PartialEq, Eq)]
pub struct Start {
    /// A random word: a scheduler's first job id, or a build server's nonce.
    pub word: u64,
    /// Random bytes: a build server's key.
    pub key: [u8; 32],
    /// How many processors there are.
    pub cpus: u64,
    /// After how many connections the listener ends, where it does.
    pub limit: Option<u64>,
    /// How long a link that was accepted waits for a byte to come or to go before it fails, in milliseconds; at
    /// least 1.
    pub timeout_ms: u64,
}

/// The system does not give what serving needs: an address, a folder, a thread or memory.
#[derive(Clone, Copy, Debug, PartialEq, Eq)]
pub struct StartFault;

impl From<AllocError> for StartFault {
    fn from(_: AllocError) -> Self {
        StartFault
    }
}

impl<T: Drop> From<AllocFailed<T>> for StartFault {
    fn from(_: AllocFailed<T>) -> Self {
        StartFault
    }
}

impl From<Memory> for StartFault {
    fn from(_: Memory) -> Self {
        StartFault
    }
}

impl From<io::Error> for StartFault {
    fn from(_: io::Error) -> Self {
        StartFault
    }
}
