//! What a folder of the system asks the system for. No clause can say what a file holds.

use crate::fault::FolderFault;
use crate::paths::is_plain;
use dist_types::source::{ReadError, StdSource, read_whole};
use std::alloc::Global;
use std::fs::{self, File, Metadata, OpenFile};
use std::io::{self, ErrorKind, Read, Write};
use std::rt::Files;

/// The most bytes of one file.
pub const MAX_FILE_BYTES: u32 = 2_147_483_648;

/// The file with the order, at the root.
pub(crate) const ORDER_NAME: &str = ".sccacheorder";

/// Where that file is written anew.
pub(crate) const NEW_ORDER_NAME: &str = ".sccacheordernew";

/// The file whose lock says that the folder is open, at the root.
pub(crate) const LOCK_NAME: &str = ".sccachelock";

/// Whether a path is that of a file of the folder's own, which no call lists, reads or changes.
pub(crate) fn is_own(path: &str) -> bool {
    path == ORDER_NAME || path == NEW_ORDER_NAME || path == LOCK_NAME
}

/// The fault that an error of the system stands for.
pub(crate) fn fault_of(error: &io::Error) -> FolderFault {
    match error.kind() {
        ErrorKind::OutOfMemory => FolderFault::Memory,
        ErrorKind::NotFound => FolderFault::Missing,
        ErrorKind::NotADirectory => FolderFault::Missing,
        _ => FolderFault::Failed,
    }
}

// The fault of a call that finds what it wants.
fn failed(error: &io::Error) -> FolderFault {
    match error.kind() {
        ErrorKind::OutOfMemory => FolderFault::Memory,
        _ => FolderFault::Failed,
    }
}

/// A name in a directory.
pub(crate) fn joined(alloc: Global, dir: &str, name: &str) -> Result<String, FolderFault> {
    let path = format!(in alloc; "{dir}/{name}")?;
    Ok(path)
}

/// What stands at a path of the system, if anything: a link is not followed.
pub(crate) fn told_at<R: Files>(rt: &R, path: &str) -> Result<Option<Metadata>, FolderFault> {
    match fs::symlink_metadata(rt, path) {
        Ok(metadata) => Ok(Some(metadata)),
        Err(error) => match fault_of(&error) {
            FolderFault::Missing => Ok(None),
            FolderFault::Failed => Err(FolderFault::Failed),
            FolderFault::Memory => Err(FolderFault::Memory),
        },
    }
}

// One more part of a path. Failed where it is not plain, or where a link stands there.
fn stepped<R: Files + AllocGlobal>(rt: &R, above: &str, part: &str) -> Result<String, FolderFault> {
    if !is_plain(part) {
        return Err(FolderFault::Failed);
    }
    let path = joined(rt.alloc(), above, part)?;
    if let Some(metadata) = told_at(rt, path.as_str())? {
        if metadata.is_symlink() {
            return Err(FolderFault::Failed);
        }
    }
    Ok(path)
}

// The path of the system of a path in the folder. Failed where it leads out of it, or is a file
// of the folder's own.
fn within<R: Files + AllocGlobal>(rt: &R, root: &str, path: &str) -> Result<String, FolderFault> {
    if is_own(path) {
        return Err(FolderFault::Failed);
    }
    let mut whole = String::from_str(rt.alloc(), root)?;
    for part in path.split('/') {
        whole = stepped(rt, whole.as_str(), part)?;
    }
    Ok(whole)
}

// The path of a file that is there, and its size. Missing where there is none.
fn file_within<R: Files + AllocGlobal>(
    rt: &R,
    root: &str,
    path: &str,
) -> Result<(String, u64), FolderFault> {
    let whole = within(rt, root, path)?;
    let Some(metadata) = told_at(rt, whole.as_str())? else {
        return Err(FolderFault::Missing);
    };
    if !metadata.is_file() {
        return Err(FolderFault::Missing);
    }
    Ok((whole, metadata.len()))
}

/// The content of a file of the system.
pub(crate) fn content_at<R: Files + AllocGlobal>(
    rt: &R,
    path: &str,
) -> Result<Vec<u8>, FolderFault> {
    match fs::open(rt, path) {
        Ok(file) => content_of(rt.alloc(), file),
        Err(error) => Err(fault_of(&error)),
    }
}

fn content_of<F: Read + Drop>(alloc: Global, file: F) -> Result<Vec<u8>, FolderFault> {
    match read_whole(alloc, &mut StdSource::new(file), MAX_FILE_BYTES) {
        Ok(bytes) => Ok(bytes),
        Err(ReadError::Memory) => Err(FolderFault::Memory),
        Err(ReadError::Failed) => Err(FolderFault::Failed),
        Err(ReadError::TooLong) => Err(FolderFault::Failed),
    }
}

/// Adds bytes at the end of a file of the system, which is made where there is none, and takes what it added
/// away again where it cannot add all.
pub(crate) fn add_whole<R: Files>(rt: &R, path: &str, bytes: &[u8]) -> Result<(), FolderFault> {
    let mut file = match File::options().append(true).create(true).open(rt, path) {
        Ok(file) => file,
        Err(error) => return Err(failed(&error)),
    };
    let old_len = match file.metadata() {
        Ok(metadata) => metadata.len(),
        Err(error) => return Err(failed(&error)),
    };
    match file.write_all(bytes) {
        Ok(()) => Ok(()),
        Err(error) => {
            let _cut = file.set_len(old_len);
            Err(failed(&error))
        }
    }
}

// Adds bytes at the end of a file of the system.
fn add_at<R: Files>(rt: &R, path: &str, bytes: &[u8]) -> Result<(), FolderFault> {
    match File::options().append(true).create(true).open(rt, path) {
        Ok(mut file) => match file.write_all(bytes) {
            Ok(()) => Ok(()),
            Err(error) => Err(failed(&error)),
        },
        Err(error) => Err(failed(&error)),
    }
}

/// A whole new file of the system.
pub(crate) fn write_at<R: Files>(rt: &R, path: &str, bytes: &[u8]) -> Result<(), FolderFault> {
    match fs::write(rt, path, bytes) {
        Ok(()) => Ok(()),
        Err(error) => Err(failed(&error)),
    }
}

/// The content of a file.
pub(crate) fn read<R: Files + AllocGlobal>(
    rt: &R,
    root: &str,
    path: &str,
) -> Result<Vec<u8>, FolderFault> {
    let (whole, _size) = file_within(rt, root, path)?;
    content_at(rt, whole.as_str())
}

/// How many bytes a file has.
pub(crate) fn size<R: Files + AllocGlobal>(
    rt: &R,
    root: &str,
    path: &str,
) -> Result<u64, FolderFault> {
    let (_whole, size) = file_within(rt, root, path)?;
    Ok(size)
}

/// A whole new file.
pub(crate) fn write<R: Files + AllocGlobal>(
    rt: &R,
    root: &str,
    path: &str,
    bytes: &[u8],
) -> Result<(), FolderFault> {
    if bytes.len() as u64 > MAX_FILE_BYTES as u64 {
        return Err(FolderFault::Failed);
    }
    let whole = within(rt, root, path)?;
    write_at(rt, whole.as_str(), bytes)
}

/// Bytes at the end of a file that is there.
pub(crate) fn append<R: Files + AllocGlobal>(
    rt: &R,
    root: &str,
    path: &str,
    bytes: &[u8],
) -> Result<(), FolderFault> {
    let (whole, size) = file_within(rt, root, path)?;
    if size.saturating_add(bytes.len() as u64) > MAX_FILE_BYTES as u64 {
        return Err(FolderFault::Failed);
    }
    add_at(rt, whole.as_str(), bytes)
}

/// The file takes another path.
pub(crate) fn rename<R: Files + AllocGlobal>(
    rt: &R,
    root: &str,
    from: &str,
    to: &str,
) -> Result<(), FolderFault> {
    let (old, _size) = file_within(rt, root, from)?;
    let new = within(rt, root, to)?;
    match fs::rename(rt, old.as_str(), new.as_str()) {
        Ok(()) => Ok(()),
        Err(error) => Err(failed(&error)),
    }
}

/// The file is gone.
pub(crate) fn remove<R: Files + AllocGlobal>(
    rt: &R,
    root: &str,
    path: &str,
) -> Result<(), FolderFault> {
    let (whole, _size) = file_within(rt, root, path)?;
    match fs::remove_file(rt, whole.as_str()) {
        Ok(()) => Ok(()),
        Err(error) => Err(fault_of(&error)),
    }
}

/// The directories above a path exist.
pub(crate) fn make_parents<R: Files + AllocGlobal>(
    rt: &R,
    root: &str,
    path: &str,
) -> Result<(), FolderFault> {
    let whole = within(rt, root, path)?;
    let Some((above, _name)) = whole.as_str().rsplit_once('/') else {
        return Ok(());
    };
    match fs::create_dir_all(rt, above) {
        Ok(()) => Ok(()),
        Err(error) => Err(failed(&error)),
    }
}
