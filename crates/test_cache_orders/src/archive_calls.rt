//! The calls of a step on a cache of archives, on the cache and on the model.

use crate::answers::{Answer, Difference, agree, content, copied, done};
use crate::calls::read_all;
use crate::names::Archive;
use crate::orders::{Call, Step};
use crate::plain_cache::PlainCache;
use dist_types::toolchain::Toolchain;
use folders::folder::Folder;
use lru_disk_cache::WriteFault;
use std::alloc::Global;
use toolchain_cache::TcCache;

impl Step {
    /// The archive of a step.
    pub fn archive(&self) -> Archive {
        match self.size % 9 {
            0 | 1 => Archive::Abc,
            2 | 3 => Archive::Nothing,
            4 | 5 => Archive::Digits,
            6 | 7 => Archive::Dozen,
            _ => Archive::Large,
        }
    }

    // The bytes that are stored as its archive: now and then those of another one.
    fn bytes(&self) -> Archive {
        if self.more == 0 {
            return Archive::Abc;
        }
        self.archive()
    }
}

/// One step, on the cache and on the model.
pub fn act<F: Folder + Drop>(
    alloc: Global,
    cache: &mut TcCache<F>,
    plain: &mut PlainCache,
    step: &Step,
) -> Result<(), Difference> {
    let Ok(tc) = Toolchain::new(step.archive().id()) else {
        return Err(Difference::Answers);
    };
    let wanted = wanted(alloc, plain, step);
    agree(given(alloc, cache, step, &tc), wanted)
}

fn given<F: Folder + Drop>(
    alloc: Global,
    cache: &mut TcCache<F>,
    step: &Step,
    tc: &Toolchain,
) -> Answer {
    let bytes = step.bytes().content().as_bytes();
    match step.call {
        Call::Insert | Call::Add => done(cache.insert_bytes(tc, bytes)),
        Call::InsertWith => done(cache.insert_with(tc, |out| write_to(out, bytes))),
        Call::InsertFile => insert_package(alloc, cache, step.archive()),
        Call::GetFile => content(cache.get_file(tc)),
        Call::Get => get(alloc, cache, tc),
        Call::GetAbsPath => has(cache, tc),
        Call::Remove => done(cache.remove(tc)),
    }
}

fn write_to(out: &mut Vec<u8>, bytes: &[u8]) -> Result<(), WriteFault> {
    match out.extend_from_slice(bytes) {
        Ok(()) => Ok(()),
        Err(_) => Err(WriteFault::Memory),
    }
}

fn insert_package<F: Folder + Drop>(
    alloc: Global,
    cache: &mut TcCache<F>,
    archive: Archive,
) -> Answer {
    match cache.insert_package(archive.content().as_bytes()) {
        Ok(tc) => copied(Vec::from_slice(alloc, tc.archive_id().as_bytes())),
        Err(error) => Answer::Refused(error),
    }
}

fn get<F: Folder + Drop>(alloc: Global, cache: &mut TcCache<F>, tc: &Toolchain) -> Answer {
    match cache.get(tc) {
        Ok(mut opened) => copied(read_all(alloc, &mut opened)),
        Err(error) => Answer::Refused(error),
    }
}

fn has<F: Folder + Drop>(cache: &TcCache<F>, tc: &Toolchain) -> Answer {
    if cache.contains_toolchain(tc) {
        return Answer::Done;
    }
    Answer::Absent
}

fn wanted(alloc: Global, plain: &mut PlainCache, step: &Step) -> Answer {
    let archive = step.archive();
    match step.call {
        Call::Insert | Call::Add | Call::InsertWith => plain.insert_archive(archive, step.bytes()),
        Call::InsertFile => plain.insert_package(alloc, archive),
        Call::GetFile | Call::Get => plain.get_archive(archive),
        Call::GetAbsPath => plain.has_archive(archive),
        Call::Remove => plain.remove_archive(archive),
    }
}

/// The lists agree.
pub fn same_archives<F: Folder + Drop>(
    cache: &TcCache<F>,
    plain: &PlainCache,
) -> Result<(), Difference> {
    if lists(cache, plain) && cache.len() == plain.list.len() {
        return Ok(());
    }
    Err(Difference::Lists)
}

fn lists<F: Folder + Drop>(cache: &TcCache<F>, plain: &PlainCache) -> bool {
    let mut at = 0usize;
    let mut same = true;
    for (tc, size) in cache.archives() {
        let here = is_at(plain, at, tc.archive_id(), size);
        same = same && here;
        at = at.saturating_add(1);
    }
    same
}

fn is_at(plain: &PlainCache, at: usize, id: &str, size: u64) -> bool {
    match plain.list.get(at) {
        Some(entry) => entry.key.text() == id && entry.size == size,
        None => false,
    }
}
