//! Whether a cache lists what the model lists, and its folder has the model's files.

use crate::answers::Difference;
use crate::plain_cache::PlainCache;
use crate::plain_folder::{File, PlainFolder};
use folders::fault::FolderFault;
use folders::folder::{Folder, Found};
use lru_disk_cache::LruDiskCache;

/// The lists agree, and their sizes.
pub fn same_list<F: Folder + Drop>(
    cache: &LruDiskCache<F>,
    plain: &PlainCache,
) -> Result<(), Difference> {
    if lists(cache, plain) && cache.len() == plain.list.len() && cache.size() == plain.size() {
        return Ok(());
    }
    Err(Difference::Lists)
}

fn lists<F: Folder + Drop>(cache: &LruDiskCache<F>, plain: &PlainCache) -> bool {
    let mut at = 0usize;
    let mut same = true;
    for (key, size) in cache.entries() {
        same = same && is_at(plain, at, key.get(), *size);
        at = at.saturating_add(1);
    }
    same
}

fn is_at(plain: &PlainCache, at: usize, key: &str, size: u64) -> bool {
    match plain.list.get(at) {
        Some(entry) => entry.key.text() == key && entry.size == size,
        None => false,
    }
}

/// The files agree, their contents and their order, and the counts of faults.
pub fn same_files<F: Folder + Drop>(folder: &mut F, plain: &PlainFolder) -> Result<(), Difference> {
    if folder.faults() != plain.faults {
        return Err(Difference::Files);
    }
    match has_files(folder, plain) {
        Ok(true) => Ok(()),
        Ok(false) => Err(Difference::Files),
        Err(_) => Err(Difference::Files),
    }
}

fn has_files<F: Folder + Drop>(folder: &mut F, plain: &PlainFolder) -> Result<bool, FolderFault> {
    let found = folder.list("")?;
    let mut at = 0usize;
    let mut same = found.len() == plain.files.len();
    for file in &found {
        let here = has_file(folder, plain, at, file)?;
        same = same && here;
        at = at.saturating_add(1);
    }
    Ok(same)
}

fn has_file<F: Folder + Drop>(
    folder: &mut F,
    plain: &PlainFolder,
    at: usize,
    found: &Found,
) -> Result<bool, FolderFault> {
    let Some(file) = plain.files.get(at) else {
        return Ok(false);
    };
    let bytes = folder.read(found.path.get())?;
    Ok(is_file(file, found, &bytes))
}

fn is_file(file: &File, found: &Found, bytes: &[u8]) -> bool {
    found.path.get() == file.place.path()
        && found.size == file.bytes.len() as u64
        && bytes == file.bytes.as_slice()
}
