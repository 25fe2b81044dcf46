//! One folder of the system at a time over a directory: the lock of a file of its own.

use crate::real_calls::{LOCK_NAME, joined};
use std::alloc::AllocError;
use std::fs::{self, File, TryLockError};
use std::io::{self, ErrorKind};
use std::rt::Files;
use thiserror::Error;

/// Why a folder of the system was not opened.
#[derive(Clone, Copy, Debug, PartialEq, Eq, Error)]
pub enum OpenFault {
    /// Another program, or another folder of this one, has it open.
    #[error("in use")]
    InUse,
    /// The system failed.
    #[error("failed")]
    Failed,
    /// Memory ran out.
    #[error("out of memory")]
    Memory,
}

impl From<AllocError> for OpenFault {
    fn from(_: AllocError) -> Self {
        OpenFault::Memory
    }
}

/// Holds the lock of a directory, which is made where there is none. It is let go where the file is dropped,
/// and by the system where the program ends, however it ends.
///
/// None where the file system has no locks, and where the file of the lock is not there and cannot be made:
/// who may not write there has nobody to fear, and nobody has to fear him.
pub(crate) fn hold<R: Files<File = File> + AllocGlobal>(
    rt: &R,
    root: &str,
) -> Result<Option<File>, OpenFault> {
    let path = match joined(rt.alloc(), root, LOCK_NAME) {
        Ok(path) => path,
        Err(_) => return Err(OpenFault::Memory),
    };
    let Some(file) = lock_file(rt, root, path.as_str())? else {
        return Ok(None);
    };
    match file.try_lock() {
        Ok(()) => Ok(Some(file)),
        Err(TryLockError::WouldBlock) => Err(OpenFault::InUse),
        Err(TryLockError::Error(error)) => match error.kind() {
            ErrorKind::Unsupported => Ok(None),
            _ => Err(fault_of(&error)),
        },
    }
}

fn fault_of(error: &io::Error) -> OpenFault {
    match error.kind() {
        ErrorKind::OutOfMemory => OpenFault::Memory,
        _ => OpenFault::Failed,
    }
}

// The file of the lock, which is made where there is none, with the directory.
fn lock_file<R: Files<File = File>>(
    rt: &R,
    root: &str,
    path: &str,
) -> Result<Option<File>, OpenFault> {
    match made(rt, path) {
        Ok(file) => Ok(Some(file)),
        Err(error) => match error.kind() {
            ErrorKind::NotFound => made_with(rt, root, path),
            ErrorKind::PermissionDenied => found(rt, path),
            ErrorKind::ReadOnlyFilesystem => found(rt, path),
            _ => Err(fault_of(&error)),
        },
    }
}

fn made<R: Files<File = File>>(rt: &R, path: &str) -> io::Result<File> {
    File::options()
        .read(true)
        .write(true)
        .create(true)
        .open(rt, path)
}

// The same, once the directory is made.
fn made_with<R: Files<File = File>>(
    rt: &R,
    root: &str,
    path: &str,
) -> Result<Option<File>, OpenFault> {
    match fs::create_dir_all(rt, root) {
        Ok(()) => {}
        Err(error) => return Err(fault_of(&error)),
    }
    match made(rt, path) {
        Ok(file) => Ok(Some(file)),
        Err(error) => Err(fault_of(&error)),
    }
}

// The file of the lock of a directory that cannot be written, if somebody made it before.
fn found<R: Files<File = File>>(rt: &R, path: &str) -> Result<Option<File>, OpenFault> {
    match fs::open(rt, path) {
        Ok(file) => Ok(Some(file)),
        Err(error) => match error.kind() {
            ErrorKind::NotFound => Ok(None),
            _ => Err(fault_of(&error)),
        },
    }
}
