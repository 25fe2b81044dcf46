//! The order of recency of a folder of the system: a file of names, each with a NUL byte behind it, the
//! most recent last. Where a name cannot be written, the call that it tells of succeeds nonetheless: what a
//! full or read-only order file costs is the order at the next opening.

use crate::fault::FolderFault;
use crate::folder::Found;
use crate::real_calls::{
    NEW_ORDER_NAME, ORDER_NAME, add_whole, content_at, fault_of, is_own, joined, told_at, write_at,
};
use dist_types::text::Text;
use lru_metered::{LruCache, Memory};
use std::alloc::{AllocError, Allocator, Global};
use std::collections::BTreeMap;
use std::fs::{self, DirEntry};
use std::io::{self, ErrorKind};
use std::rt::Files;

/// How many names the order file may have beside twice those that it needs.
const SPARE_NAMES: u64 = 1024;

/// How many names wait at most that could not be written; the least recent are forgotten.
const MAX_WAITING: u64 = 65_536;

/// How many bytes of names that waited are written at once, and one name more.
const WAITING_BYTES: usize = 4096;

/// What is noted of recency beside the order file: the names that could not be written to it, least recent
/// first, how many were noted since it was written anew, and how many files there are.
#[derive(Drop)]
pub(crate) struct Notes {
    waiting: LruCache<Text, u8>,
    noted: u64,
    listed: u64,
}

impl Notes {
    /// No name.
    pub fn new(alloc: Global) -> Result<Self, Memory> {
        Ok(Notes {
            waiting: LruCache::new(alloc, MAX_WAITING)?,
            noted: 0,
            listed: 0,
        })
    }

    /// There are so many files.
    pub fn listed(&mut self, count: u64) {
        self.listed = count;
    }

    /// Notes that a file is the most recent. A name that cannot be written waits for the next; one that there
    /// is no memory for is forgotten. The order file is written anew where it has grown too long; where that
    /// fails it stays as it is.
    pub fn note<R: Files + AllocGlobal + Clone + Drop>(&mut self, rt: &R, root: &str, path: &str) {
        self.noted = self.noted.saturating_add(1);
        if self.waiting.is_empty() {
            if add_name(rt, root, path).is_err() {
                self.wait(rt.alloc(), path);
            }
        } else {
            self.wait(rt.alloc(), path);
            self.write_waiting(rt, root);
        }
        let needed = self.listed.saturating_mul(2).saturating_add(SPARE_NAMES);
        if self.noted > needed {
            self.noted = 0;
            self.write_anew(rt, root);
        }
    }

    // One more name waits.
    fn wait(&mut self, alloc: Global, path: &str) {
        if let Ok(name) = Text::of(alloc, path) {
            let _answer = self.waiting.insert(name, 0);
        }
    }

    // Writes the names that wait, as far as they can be.
    fn write_waiting<R: Files + AllocGlobal>(&mut self, rt: &R, root: &str) {
        for _ in 0..u64::MAX {
            if self.waiting.is_empty() {
                return;
            }
            let Ok(count) = add_first(rt, root, &self.waiting) else {
                return;
            };
            for _ in 0..count {
                let _name = self.waiting.remove_lru();
            }
        }
    }

    // Writes the order anew, with each file once.
    fn write_anew<R: Files + AllocGlobal + Clone + Drop>(&mut self, rt: &R, root: &str) {
        if let Ok(count) = rewrite(rt, root, self) {
            self.listed = count;
            self.waiting.clear();
        }
    }
}

// Adds a name to the order file.
fn add_name<R: Files + AllocGlobal>(rt: &R, root: &str, path: &str) -> Result<(), FolderFault> {
    let order = joined(rt.alloc(), root, ORDER_NAME)?;
    let mut line = Vec::new(rt.alloc());
    push_line(&mut line, path)?;
    add_whole(rt, order.as_str(), &line)
}

// Adds the first names that wait to the order file, and gives how many.
fn add_first<R: Files + AllocGlobal>(
    rt: &R,
    root: &str,
    waiting: &LruCache<Text, u8>,
) -> Result<u64, FolderFault> {
    let order = joined(rt.alloc(), root, ORDER_NAME)?;
    let (lines, count) = first_lines(rt.alloc(), waiting)?;
    add_whole(rt, order.as_str(), &lines)?;
    Ok(count)
}

// The lines of the first names that wait, and how many they are. An empty name before them ends a part of a
// name that a fault may have left in the order file.
fn first_lines(alloc: Global, waiting: &LruCache<Text, u8>) -> Result<(Vec<u8>, u64), AllocError> {
    let mut lines = Vec::new(alloc);
    push_line(&mut lines, "")?;
    let mut count = 0u64;
    for (name, _) in waiting.iter() {
        if lines.len() > WAITING_BYTES {
            break;
        }
        push_line(&mut lines, name.get())?;
        count = count.saturating_add(1);
    }
    Ok((lines, count))
}

fn push_line(lines: &mut Vec<u8>, name: &str) -> Result<(), AllocError> {
    lines.extend_from_slice(name.as_bytes())?;
    lines.push(0)?;
    Ok(())
}

// Writes the order anew, with each file once, and gives how many there are.
fn rewrite<R: Files + AllocGlobal + Clone + Drop>(
    rt: &R,
    root: &str,
    notes: &Notes,
) -> Result<u64, FolderFault> {
    let found = found_in_order(rt, root, "", notes)?;
    let names = names_of(rt.alloc(), &found)?;
    let old = joined(rt.alloc(), root, ORDER_NAME)?;
    let new = joined(rt.alloc(), root, NEW_ORDER_NAME)?;
    write_at(rt, new.as_str(), &names)?;
    match fs::rename(rt, new.as_str(), old.as_str()) {
        Ok(()) => Ok(found.len() as u64),
        Err(error) => Err(fault_of(&error)),
    }
}

fn names_of(alloc: Global, found: &[Found]) -> Result<Vec<u8>, AllocError> {
    let mut names = Vec::new(alloc);
    for file in found {
        push_line(&mut names, file.path.get())?;
    }
    Ok(names)
}

/// The files below a directory, least recent first, and those that no name is noted for before all others,
/// by path. None where there is no such directory.
pub(crate) fn found_in_order<R: Files + AllocGlobal + Clone + Drop>(
    rt: &R,
    root: &str,
    under: &str,
    notes: &Notes,
) -> Result<Vec<Found>, FolderFault> {
    let names = names_at(rt, root)?;
    let ranks = ranks_of(rt.alloc(), &names, notes)?;
    let mut rows = Vec::new(rt.alloc());
    let mut dirs = Vec::new(rt.alloc());
    let first = start_of(rt.alloc(), root, under)?;
    push_dir(&mut dirs, first)?;
    for _ in 0..u64::MAX {
        let Some(dir) = dirs.pop() else {
            break;
        };
        list(rt, root, dir.as_str(), &ranks, &mut rows, &mut dirs)?;
    }
    rows.sort()?;
    let found = found_of(rt.alloc(), &rows)?;
    Ok(found)
}

// The path of the system that a listing begins at.
fn start_of(alloc: Global, root: &str, under: &str) -> Result<String, FolderFault> {
    if under.is_empty() {
        let start = String::from_str(alloc, root)?;
        return Ok(start);
    }
    joined(alloc, root, under)
}

fn push_dir(dirs: &mut Vec<String>, dir: String) -> Result<(), AllocError> {
    dirs.push(dir)?;
    Ok(())
}

// The place of the last name noted for each path: those in the order file, then those that wait.
fn ranks_of(
    alloc: Global,
    names: &[u8],
    notes: &Notes,
) -> Result<BTreeMap<String, u64>, AllocError> {
    let mut ranks = BTreeMap::new(alloc);
    let mut rank = 0u64;
    for name in names.split(|b| *b == 0) {
        if let Ok(path) = str::from_utf8(name) {
            rank = rank.saturating_add(1);
            let path = String::from_str(alloc, path)?;
            let _old = ranks.insert(path, rank)?;
        }
    }
    for (path, _) in notes.waiting.iter() {
        rank = rank.saturating_add(1);
        let path = String::from_str(alloc, path.get())?;
        let _old = ranks.insert(path, rank)?;
    }
    Ok(ranks)
}

// The names in the order file. None where it is missing or cannot be read.
fn names_at<R: Files + AllocGlobal>(rt: &R, root: &str) -> Result<Vec<u8>, FolderFault> {
    let order = joined(rt.alloc(), root, ORDER_NAME)?;
    match content_at(rt, order.as_str()) {
        Ok(names) => Ok(names),
        Err(FolderFault::Missing) => Ok(Vec::new(rt.alloc())),
        Err(FolderFault::Failed) => Ok(Vec::new(rt.alloc())),
        Err(FolderFault::Memory) => Err(FolderFault::Memory),
    }
}

// The files in a directory, each with its rank, and the directories in it.
fn list<R: Files + AllocGlobal + Clone + Drop>(
    rt: &R,
    root: &str,
    dir: &str,
    ranks: &BTreeMap<String, u64>,
    rows: &mut Vec<(u64, String, u64)>,
    dirs: &mut Vec<String>,
) -> Result<(), FolderFault> {
    let entries = match fs::read_dir(rt, dir) {
        Ok(entries) => entries,
        Err(error) => match fault_of(&error) {
            FolderFault::Missing => return Ok(()),
            FolderFault::Failed => return Err(FolderFault::Failed),
            FolderFault::Memory => return Err(FolderFault::Memory),
        },
    };
    for entry in entries {
        if let Some(whole) = named(rt.alloc(), entry)? {
            sort_in(rt, root, whole, ranks, rows, dirs)?;
        }
    }
    Ok(())
}

// The path of what a directory holds. None where its name is not UTF-8: no path of a folder names it.
fn named<R: Files + Drop, A: Allocator + Drop>(
    alloc: Global,
    found: io::Result<DirEntry<R, A>>,
) -> Result<Option<String>, FolderFault> {
    match found {
        Ok(entry) => {
            let path = String::from_str(alloc, entry.path().as_str())?;
            Ok(Some(path))
        }
        Err(error) => match error.kind() {
            ErrorKind::OutOfMemory => Err(FolderFault::Memory),
            ErrorKind::InvalidFilename => Ok(None),
            _ => Err(FolderFault::Failed),
        },
    }
}

// A file with its rank, or a directory. A link is neither, nor is what went since the directory was read.
fn sort_in<R: Files + AllocGlobal>(
    rt: &R,
    root: &str,
    whole: String,
    ranks: &BTreeMap<String, u64>,
    rows: &mut Vec<(u64, String, u64)>,
    dirs: &mut Vec<String>,
) -> Result<(), FolderFault> {
    let Some(metadata) = told_at(rt, whole.as_str())? else {
        return Ok(());
    };
    if metadata.is_dir() {
        push_dir(dirs, whole)?;
        return Ok(());
    }
    if !metadata.is_file() {
        return Ok(());
    }
    let Some(rest) = whole.as_str().strip_prefix(root) else {
        return Ok(());
    };
    let Some(path) = rest.strip_prefix("/") else {
        return Ok(());
    };
    if is_own(path) {
        return Ok(());
    }
    let path = String::from_str(rt.alloc(), path)?;
    let rank = match ranks.get(path.as_str()) {
        Some(rank) => *rank,
        None => 0,
    };
    push_row(rows, rank, path, metadata.len())?;
    Ok(())
}

fn push_row(
    rows: &mut Vec<(u64, String, u64)>,
    rank: u64,
    path: String,
    size: u64,
) -> Result<(), AllocError> {
    rows.push((rank, path, size))?;
    Ok(())
}

fn found_of(alloc: Global, rows: &[(u64, String, u64)]) -> Result<Vec<Found>, AllocError> {
    let mut found = Vec::new(alloc);
    for (_rank, path, size) in rows {
        let path = Text::of(alloc, path.as_str())?;
        found.push(Found { path, size: *size })?;
    }
    Ok(found)
}
