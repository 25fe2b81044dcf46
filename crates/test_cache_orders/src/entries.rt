//! Entries that are announced, written, and committed or abandoned, on the cache and on the model.

use crate::answers::{Answer, Difference, agree, done};
use crate::calls::insert;
use crate::compare::same_list;
use crate::names::Key;
use crate::plain_cache::PlainCache;
use folders::folder::Folder;
use lru_disk_cache::{Error, LruDiskCache, LruDiskCacheAddEntry};
use std::process::Abort;

/// An entry that is added: its key, the size announced, the bytes that are written twice, and whether it is
/// committed.
#[derive(Clone, Copy)]
pub struct Plan<'a> {
    pub key: Key,
    pub size: u64,
    pub bytes: &'a [u8],
    pub commits: bool,
}

/// An entry is added. Between its announcement and its first byte another key is stored, and another entry
/// is added.
pub fn add_around<F: Folder + Drop>(
    rt: &impl Abort,
    cache: &mut LruDiskCache<F>,
    plain: &mut PlainCache,
    plan: &Plan<'_>,
    within: &Plan<'_>,
) -> Result<(), Difference> {
    let wanted = plain.prepare(plan.key, plan.size);
    match cache.prepare_add(plan.key.text(), plan.size) {
        Ok(entry) => {
            let used = between(rt, cache, plain, within);
            let written = write_twice(cache, plain, plan, &entry, wanted);
            let spent = spend(rt, cache, plain, plan, entry);
            used?;
            written?;
            spent
        }
        Err(error) => refused(error, wanted),
    }
}

fn between<F: Folder + Drop>(
    rt: &impl Abort,
    cache: &mut LruDiskCache<F>,
    plain: &mut PlainCache,
    plan: &Plan<'_>,
) -> Result<(), Difference> {
    same_list(cache, plain)?;
    let wanted = done(plain.insert(plan.key, plan.bytes));
    agree(insert(cache, plan.key.text(), plan.bytes), wanted)?;
    same_list(cache, plain)?;
    add(rt, cache, plain, plan)?;
    same_list(cache, plain)
}

// An entry is added.
fn add<F: Folder + Drop>(
    rt: &impl Abort,
    cache: &mut LruDiskCache<F>,
    plain: &mut PlainCache,
    plan: &Plan<'_>,
) -> Result<(), Difference> {
    let wanted = plain.prepare(plan.key, plan.size);
    match cache.prepare_add(plan.key.text(), plan.size) {
        Ok(entry) => {
            let written = write_twice(cache, plain, plan, &entry, wanted);
            let spent = spend(rt, cache, plain, plan, entry);
            written?;
            spent
        }
        Err(error) => refused(error, wanted),
    }
}

fn refused(error: Error, wanted: Result<u64, Error>) -> Result<(), Difference> {
    match wanted {
        Ok(_) => Err(Difference::Answers),
        Err(wanted) => agree(Answer::Refused(error), Answer::Refused(wanted)),
    }
}

// The number of an entry is the wanted one, and its bytes are written twice.
fn write_twice<F: Folder + Drop>(
    cache: &mut LruDiskCache<F>,
    plain: &mut PlainCache,
    plan: &Plan<'_>,
    entry: &LruDiskCacheAddEntry,
    wanted: Result<u64, Error>,
) -> Result<(), Difference> {
    let Ok(number) = wanted else {
        return Err(Difference::Answers);
    };
    if entry.number() != number {
        return Err(Difference::Answers);
    }
    write(cache, plain, plan, entry)?;
    write(cache, plain, plan, entry)?;
    same_list(cache, plain)
}

fn write<F: Folder + Drop>(
    cache: &mut LruDiskCache<F>,
    plain: &mut PlainCache,
    plan: &Plan<'_>,
    entry: &LruDiskCacheAddEntry,
) -> Result<(), Difference> {
    let wanted = done(plain.append(entry.number(), plan.bytes));
    let given = done(cache.write_entry(entry, plan.bytes));
    agree(given, wanted)
}

// The entry is committed, where that fails committed again, and then abandoned.
fn spend<F: Folder + Drop>(
    rt: &impl Abort,
    cache: &mut LruDiskCache<F>,
    plain: &mut PlainCache,
    plan: &Plan<'_>,
    entry: LruDiskCacheAddEntry,
) -> Result<(), Difference> {
    if !plan.commits {
        return abandon(rt, cache, plain, entry);
    }
    let wanted = done(plain.commit(entry.number(), plan.key));
    match cache.commit(entry) {
        Ok(()) => agree(Answer::Done, wanted),
        Err((error, entry)) => {
            let same = agree(Answer::Refused(error), wanted);
            let rest = commit_again(rt, cache, plain, plan, entry);
            same?;
            rest
        }
    }
}

fn commit_again<F: Folder + Drop>(
    rt: &impl Abort,
    cache: &mut LruDiskCache<F>,
    plain: &mut PlainCache,
    plan: &Plan<'_>,
    entry: LruDiskCacheAddEntry,
) -> Result<(), Difference> {
    let wanted = done(plain.commit(entry.number(), plan.key));
    match cache.commit(entry) {
        Ok(()) => agree(Answer::Done, wanted),
        Err((error, entry)) => {
            let same = agree(Answer::Refused(error), wanted);
            let rest = abandon(rt, cache, plain, entry);
            same?;
            rest
        }
    }
}

fn abandon<F: Folder + Drop>(
    rt: &impl Abort,
    cache: &mut LruDiskCache<F>,
    plain: &mut PlainCache,
    entry: LruDiskCacheAddEntry,
) -> Result<(), Difference> {
    let wanted = done(plain.abandon(entry.number()));
    match cache.abandon(entry) {
        Ok(()) => agree(Answer::Done, wanted),
        Err((error, None)) => agree(Answer::Refused(error), wanted),
        Err((_, Some(_entry))) => rt.abort(),
    }
}
