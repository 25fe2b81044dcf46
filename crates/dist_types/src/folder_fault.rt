//! Why a call of a folder failed.

use std::alloc::AllocError;
use thiserror::Error;

/// Why a call of a folder failed.
#[derive(Clone, Copy, Debug, PartialEq, Eq, Error)]
pub enum FolderFault {
    /// There is no such file.
    #[error("missing")]
    Missing,
    /// The folder failed, and its count of faults rose, or stands at 2^64 - 1.
    #[error("failed")]
    Failed,
    /// Memory ran out.
    #[error("out of memory")]
    Memory,
}

impl From<AllocError> for FolderFault {
    ghost use Rattle.std.specs.Prelude.{◌≡◌};
    ghost use Rattle.dist_types.specs.declared.folder_fault.FolderFault.{FolderFault};
    ghost use Rattle.dist_types.specs.declared.folder_fault.FolderFault.TheVariants.{Memory};

    ghost from_gives = { λ _ f. f ≡ Memory };

    fn from(_: AllocError) -> Self {
        FolderFault::Memory
    }
}
