//! `disk CALL DIR COUNT`: it makes a call so many times on a disk cache with room for 24 bytes in a directory.
//!
//! The calls are `add` (stores an entry under one of three keys), `commit` (the same by a reservation) and
//! `list` (opens the cache alone). Entry number n is a letter, the n-th from `a` on, six to ten times. It
//! writes the keys with their sizes, least recent first.
ghost use Rattle.std.specs.Prelude.{◌≡◌, true};
ghost use Rattle.lru_disk_cache.specs.Reserved.{is_pending};

use folders::folder::Folder;
use folders::real_folder::RealFolder;
use lru_disk_cache::{Error, LruDiskCache, LruDiskCacheAddEntry};
use std::alloc::{AllocError, Global};
use std::io;
use std::process::ExitCode;

/// The most bytes of the cache.
const ROOM: u64 = 24;

/// A call that stores an entry.
#[derive(Clone, Copy)]
enum Call {
    Add,
    Commit,
}

fn key_of(n: u64) -> &'static str {
    match n % 4 {
        1 => "b/c",
        3 => "d/e/f",
        _ => "a",
    }
}

// The bytes of an entry.
fn bytes_of(alloc: Global, n: u64) -> Result<Vec<u8>, AllocError> {
    let letter = b'a'.wrapping_add((n % 26) as u8);
    let mut bytes = Vec::new(alloc);
    for _ in 0..6 + n % 5 {
        bytes.push(letter)?;
    }
    Ok(bytes)
}

fn open<F: Folder + Drop>(alloc: Global, folder: F) -> Result<LruDiskCache<F>, Error> {
    match LruDiskCache::new(alloc, folder, "c", ROOM) {
        Ok(cache) => Ok(cache),
        Err((error, _folder)) => Err(error),
    }
}

// Closes the reservation of an entry that is pending.
fn close<F: Folder>(cache: &mut LruDiskCache<F>, entry: LruDiskCacheAddEntry)
    requires { is_pending entry cache.old.disk.pending ≡ true }
{
    match cache.abandon(entry) {
        Ok(()) => {}
        Err((_error, None)) => {}
        Err((_error, Some(_entry))) => unreachable!(),
    }
}

// Commits an entry that is pending. Where that fails its reservation is closed.
fn finish<F: Folder>(cache: &mut LruDiskCache<F>, entry: LruDiskCacheAddEntry) -> Result<(), Error>
    requires { is_pending entry cache.old.disk.pending ≡ true }
{
    match cache.commit(entry) {
        Ok(()) => Ok(()),
        Err((error, entry)) => {
            close(cache, entry);
            Err(error)
        }
    }
}

// Stores an entry by a reservation.
fn committed<F: Folder>(cache: &mut LruDiskCache<F>, key: &str, bytes: &[u8]) -> Result<(), Error> {
    let entry = cache.prepare_add(key, bytes.len() as u64)?;
    match cache.write_entry(&entry, bytes) {
        Ok(()) => finish(cache, entry),
        Err(error) => {
            close(cache, entry);
            Err(error)
        }
    }
}

// Stores so many entries over a folder.
fn added<F: Folder + Drop>(
    alloc: Global,
    folder: F,
    call: Call,
    count: u64,
) -> Result<LruDiskCache<F>, Error> {
    let mut cache = open(alloc, folder)?;
    for n in 0..count {
        let Ok(bytes) = bytes_of(alloc, n) else {
            return Err(Error::Memory);
        };
        let stored = match call {
            Call::Add => cache.insert_bytes(key_of(n), &bytes),
            Call::Commit => committed(&mut cache, key_of(n), &bytes),
        };
        stored?;
    }
    Ok(cache)
}

/// Makes the calls that the words ask for.
pub(crate) fn timed(rt: &HostRuntime, words: &[String]) -> io::Result<ExitCode> {
    let usage = ExitCode::from(2);
    let (Some(word), Some(dir), Some(count)) = (words.get(2), words.get(3), words.get(4)) else {
        eprintln!(rt; "bench: disk add|commit|list DIR COUNT")?;
        return Ok(usage);
    };
    let Ok(count) = count.as_str().parse::<u64>() else {
        eprintln!(rt; "bench: COUNT is no number")?;
        return Ok(usage);
    };
    let (call, count) = match word.as_str() {
        "add" => (Call::Add, count),
        "commit" => (Call::Commit, count),
        _ => (Call::Add, 0),
    };
    let folder = RealFolder::new(rt, dir.as_str())?;
    match added(rt.alloc(), folder, call, count) {
        Ok(cache) => {
            for (key, size) in cache.entries() {
                println!(rt; "{} {size}", key.get())?;
            }
            Ok(ExitCode::from(0))
        }
        Err(error) => {
            eprintln!(rt; "bench: {error}")?;
            Ok(ExitCode::from(1))
        }
    }
}
