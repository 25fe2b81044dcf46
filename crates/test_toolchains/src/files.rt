//! The steps about single files of a folder.
use crate::fault::Fault;
use crate::words::{bytes_of, cut, hex_of, said};
use disk_cache::fault::FolderFault;
use disk_cache::folder::Folder;
use std::alloc::Global;

/// A fault of the folder, by name.
fn failed(alloc: Global, fault: FolderFault) -> Result<String, Fault> {
    Ok(format!(in alloc; "{fault:?}")?)
}

/// Writes a file, whose directories are made.
pub(crate) fn write<F: Folder>(alloc: Global, folder: &mut F, rest: &str) -> Result<String, Fault> {
    let (path, word) = cut(rest);
    let bytes = bytes_of(alloc, word)?;
    let _ = folder.make_parents(path);
    match folder.write(path, &bytes) {
        Ok(()) => said(alloc, "written"),
        Err(fault) => failed(alloc, fault),
    }
}

/// Removes a file.
pub(crate) fn remove<F: Folder>(
    alloc: Global,
    folder: &mut F,
    path: &str,
) -> Result<String, Fault> {
    match folder.remove(path) {
        Ok(()) => said(alloc, "removed"),
        Err(fault) => failed(alloc, fault),
    }
}

/// The bytes of a file.
pub(crate) fn read<F: Folder>(alloc: Global, folder: &mut F, path: &str) -> Result<String, Fault> {
    match folder.read(path) {
        Ok(bytes) => hex_of(alloc, &bytes),
        Err(fault) => failed(alloc, fault),
    }
}
