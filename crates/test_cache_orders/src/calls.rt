//! The calls of a step, on the cache and on the model. Entries that are added are in `entries`.

use crate::answers::{Answer, content, copied, done};
use crate::names::{Key, Place};
use crate::orders::{Call, Step};
use crate::plain_cache::PlainCache;
use folders::folder::Folder;
use lru_disk_cache::{LruDiskCache, ReadSeek, WriteFault};
use std::alloc::{AllocError, Global};

/// How many pieces of a file are read, more than there may be.
const PIECES: u64 = 8;

/// What the cache answers to the call of a step that adds no entry.
pub fn given<F: Folder + Drop>(
    alloc: Global,
    cache: &mut LruDiskCache<F>,
    step: &Step,
    bytes: &[u8],
) -> Answer {
    let key = step.key.text();
    match step.call {
        Call::Insert => insert(cache, key, bytes),
        Call::InsertWith => insert_with(cache, key, bytes),
        Call::InsertFile => insert_file(cache, key),
        Call::GetFile => get_file(cache, key),
        Call::Get => get(alloc, cache, key),
        Call::GetAbsPath => get_abs_path(alloc, cache, key),
        Call::Remove => remove(cache, key),
        Call::Add => Answer::Absent,
    }
}

pub fn insert<F: Folder + Drop>(cache: &mut LruDiskCache<F>, key: &str, bytes: &[u8]) -> Answer {
    done(cache.insert_bytes(key, bytes))
}

fn insert_with<F: Folder + Drop>(cache: &mut LruDiskCache<F>, key: &str, bytes: &[u8]) -> Answer {
    done(cache.insert_with(key, |out| write_to(out, bytes)))
}

fn write_to(out: &mut Vec<u8>, bytes: &[u8]) -> Result<(), WriteFault> {
    match out.extend_from_slice(bytes) {
        Ok(()) => Ok(()),
        Err(_) => Err(WriteFault::Memory),
    }
}

// The cache lies below `tc`, so this file lies outside it.
fn insert_file<F: Folder + Drop>(cache: &mut LruDiskCache<F>, key: &str) -> Answer {
    if cache.path() != "tc" {
        return Answer::Absent;
    }
    done(cache.insert_file(key, "small"))
}

fn get_file<F: Folder + Drop>(cache: &mut LruDiskCache<F>, key: &str) -> Answer {
    content(cache.get_file(key))
}

fn get<F: Folder + Drop>(alloc: Global, cache: &mut LruDiskCache<F>, key: &str) -> Answer {
    match cache.get(key) {
        Ok(mut opened) => copied(read_all(alloc, &mut opened)),
        Err(error) => Answer::Refused(error),
    }
}

/// What is read, a few bytes at a time.
pub fn read_all<R: ReadSeek>(alloc: Global, opened: &mut R) -> Result<Vec<u8>, AllocError> {
    let mut whole = Vec::new(alloc);
    for _ in 0..PIECES {
        read_piece(opened, &mut whole)?;
    }
    Ok(whole)
}

fn read_piece<R: ReadSeek>(opened: &mut R, whole: &mut Vec<u8>) -> Result<(), AllocError> {
    let mut piece = [0u8; 5];
    let n = opened.read(&mut piece);
    whole.extend_from_slice(&piece[..n.min(5)])
}

fn get_abs_path<F: Folder + Drop>(alloc: Global, cache: &mut LruDiskCache<F>, key: &str) -> Answer {
    match cache.get_abs_path(key) {
        Ok(Some(path)) => copied(Vec::from_slice(alloc, path.as_bytes())),
        Ok(None) => Answer::Absent,
        Err(error) => Answer::Refused(error),
    }
}

fn remove<F: Folder + Drop>(cache: &mut LruDiskCache<F>, key: &str) -> Answer {
    done(cache.remove(key))
}

/// What the model answers to it.
pub fn wanted(alloc: Global, plain: &mut PlainCache, step: &Step, bytes: &[u8]) -> Answer {
    match step.call {
        Call::Insert => done(plain.insert(step.key, bytes)),
        Call::InsertWith => done(plain.insert(step.key, bytes)),
        Call::InsertFile => done(plain.insert_file(step.key, Place::Outside)),
        Call::GetFile => content(plain.look_up(step.key)),
        Call::Get => content(plain.look_up(step.key)),
        Call::GetAbsPath => promoted(alloc, plain, step.key),
        Call::Remove => done(plain.remove(step.key)),
        Call::Add => Answer::Absent,
    }
}

fn promoted(alloc: Global, plain: &mut PlainCache, key: Key) -> Answer {
    match plain.promote(key) {
        Ok(true) => copied(Vec::from_slice(alloc, key.path().as_bytes())),
        Ok(false) => Answer::Absent,
        Err(error) => Answer::Refused(error),
    }
}
