//! Why a call on a client's toolchains failed.
use crate::cache_error::Error;
use thiserror::Error as ThisError;

/// Why a call on a client's toolchains failed.
#[derive(Clone, Copy, Debug, PartialEq, Eq, ThisError)]
pub enum ToolchainError {
    /// The cache of archives refused, or the folder failed. It is never `Error::Memory`.
    #[error("{0}")]
    Cache(Error),
    /// The compiler is configured to have no toolchain.
    #[error("toolchain disabled")]
    Disabled,
    /// A compiler is configured twice in the same way.
    #[error("compiler configured twice")]
    DuplicateConfig,
    /// A compiler is configured with an archive and without.
    #[error("compiler configured both ways")]
    ConflictConfig,
    /// The file of the weak map is no object of texts.
    #[error("bad weak map")]
    BadWeakMap,
    /// The packager refused, and its count of refusals rose.
    #[error("packager failed")]
    PackagerFailed,
    /// Memory ran out.
    #[error("out of memory")]
    Memory,
}
