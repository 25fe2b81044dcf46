//! Why a call of a disk cache failed, and why a writer did.
pub use dist_types::cache_error::{Error, io};
use thiserror::Error as ThisError;

/// Why a writer wrote nothing, or not all.
#[derive(Clone, Copy, Debug, PartialEq, Eq, ThisError)]
pub enum WriteFault {
    /// It refused.
    #[error("refused")]
    Refused,
    /// Memory ran out.
    #[error("out of memory")]
    Memory,
}

/// The answer of a call of a disk cache.
pub type Result<T> = std::result::Result<T, Error>;
