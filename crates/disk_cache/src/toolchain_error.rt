//! Why a call on a client's toolchains failed.
ghost use Rattle.std.specs.Prelude.{◌≡◌};
ghost use Rattle.disk_cache.specs.Toolchains.{toolchain_error, fault_error};

pub use dist_types::toolchain_error::ToolchainError;
use folders::fault::FolderFault;
use lru_disk_cache::Error;
use thiserror::Error as ThisError;

/// A refusal of the cache, as it is told here.
pub(crate) fn toolchain_error(refusal: Error) -> ToolchainError
    ensures { result ≡ toolchain_error refusal }
{
    match refusal {
        Error::FileTooLarge => ToolchainError::Cache(Error::FileTooLarge),
        Error::FileNotInCache => ToolchainError::Cache(Error::FileNotInCache),
        Error::Io(fault) => ToolchainError::Cache(Error::Io(fault)),
        Error::PendingSpace => ToolchainError::Cache(Error::PendingSpace),
        Error::BadKey => ToolchainError::Cache(Error::BadKey),
        Error::NotPending => ToolchainError::Cache(Error::NotPending),
        Error::WrongDigest => ToolchainError::Cache(Error::WrongDigest),
        Error::WriterRefused => ToolchainError::Cache(Error::WriterRefused),
        Error::Memory => ToolchainError::Memory,
    }
}

/// A fault of the folder, as it is told here.
pub(crate) fn fault_error(fault: FolderFault) -> ToolchainError
    ensures { result ≡ fault_error fault }
{
    match fault {
        FolderFault::Missing => ToolchainError::Cache(Error::Io(FolderFault::Missing)),
        FolderFault::Failed => ToolchainError::Cache(Error::Io(FolderFault::Failed)),
        FolderFault::Memory => ToolchainError::Memory,
    }
}
