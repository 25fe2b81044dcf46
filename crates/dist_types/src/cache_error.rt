//! Why a call of a disk cache failed.
ghost use Rattle.std.specs.Prelude.{◌≡◌};
ghost use Rattle.dist_types.specs.CacheError.{error_of};

use crate::folder_fault::FolderFault;
use thiserror::Error as ThisError;

/// Why a call of a disk cache failed.
#[derive(Clone, Copy, Debug, PartialEq, Eq, ThisError)]
pub enum Error {
    /// The file is larger than the capacity.
    #[error("File too large")]
    FileTooLarge,
    /// The key is not listed.
    #[error("File not in cache")]
    FileNotInCache,
    /// The folder failed, or a file was missing. It is never `FolderFault::Memory`.
    #[error("{0}")]
    Io(FolderFault),
    /// Open reservations and the size exceed the capacity.
    #[error("Space is reserved")]
    PendingSpace,
    /// The text is no key.
    #[error("Bad key")]
    BadKey,
    /// The entry is of no open reservation.
    #[error("Entry not pending")]
    NotPending,
    /// The SHA-256 (FIPS 180-4) of the archive is not its id.
    #[error("Wrong digest")]
    WrongDigest,
    /// The writer refused.
    #[error("Writer refused")]
    WriterRefused,
    /// Memory ran out.
    #[error("out of memory")]
    Memory,
}

impl From<FolderFault> for Error {
    ghost from_gives = { λ f e. e ≡ error_of f };

    fn from(fault: FolderFault) -> Self {
        io(fault)
    }
}

/// A fault of the folder, as the cache tells it.
pub fn io(fault: FolderFault) -> Error
    ensures { result ≡ error_of fault }
{
    match fault {
        FolderFault::Missing => Error::Io(FolderFault::Missing),
        FolderFault::Failed => Error::Io(FolderFault::Failed),
        FolderFault::Memory => Error::Memory,
    }
}
