//! Why the program does not serve.
use command_line::cause::ConfigFault;
use dist_types::fault::Memory;
use line_program::fault::ConfigCause;
use std::alloc::{AllocError, AllocFailed};
use thiserror::Error;

/// Why the program does not serve.
#[derive(Debug, Drop, Error)]
pub(crate) enum Fault {
    #[error("Usage: exec_server --config FILE --executor HOST:PORT --executor-token-file FILE [--builds N]")]
    Usage,
    #[error("BadExecutor: the executor is no HOST:PORT")]
    BadExecutor,
    #[error("BadBuilds: the number of builds is none from 1 to 1024")]
    BadBuilds,
    #[error("BadConfig: {0}")]
    BadConfig(ConfigCause),
    #[error("OpenSecret: the file of the secret cannot be read")]
    OpenSecret,
    #[error("BadSecret: the file holds no secret of 16 visible characters or more")]
    BadSecret,
    #[error("NoRandom: the system gave no random words")]
    NoRandom,
    #[error("NotServed: the address, the folder, a thread or memory is not given")]
    NotServed,
    #[error("Memory: out of memory")]
    Memory,
}

impl Fault {
    /// The status that tells it.
    pub(crate) fn status(&self) -> u8 {
        match self {
            Fault::Usage => 2,
            Fault::BadExecutor => 2,
            Fault::BadBuilds => 2,
            Fault::Memory => 3,
            Fault::NoRandom => 4,
            Fault::BadConfig(_) => 6,
            Fault::OpenSecret => 6,
            Fault::BadSecret => 6,
            Fault::NotServed => 7,
        }
    }
}

impl From<AllocError> for Fault {
    fn from(_: AllocError) -> Self {
        Fault::Memory
    }
}

impl<T: Drop> From<AllocFailed<T>> for Fault {
    fn from(_: AllocFailed<T>) -> Self {
        Fault::Memory
    }
}

impl From<Memory> for Fault {
    fn from(_: Memory) -> Self {
        Fault::Memory
    }
}

impl From<ConfigFault> for Fault {
    fn from(fault: ConfigFault) -> Self {
        match fault {
            ConfigFault::Cause(cause) => Fault::BadConfig(cause),
            ConfigFault::Memory => Fault::Memory,
        }
    }
}
