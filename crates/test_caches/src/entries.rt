//! Reservations: the worked row, entries of other caches, and files that are taken away by hand.
use crate::archives::{ABC, NOTHING, fresh_folder, open as archives};
use dist_types::toolchain::Toolchain;
use folders::fault::FolderFault;
use folders::folder::Folder;
use folders::real_folder::RealFolder;
use folders::reliable_folder::ReliableFolder;
use lru_disk_cache::{Error, LruDiskCache, LruDiskCacheAddEntry};
use std::alloc::Global;
use std::fs;
use std::process::Abort;
use std::rt::Files;
use std::test::Fail;
use toolchain_cache::{TcCache, toolchain_of};

const TEN: &[u8] = b"0123456789";

fn open_over<F: Folder + Drop>(
    alloc: Global,
    folder: F,
    size: u64,
) -> Result<LruDiskCache<F>, Fail> {
    match LruDiskCache::new(alloc, folder, "c", size) {
        Ok(cache) => Ok(cache),
        Err((error, _folder)) => Err(error.into()),
    }
}

fn open(alloc: Global, size: u64) -> Result<LruDiskCache<ReliableFolder>, Fail> {
    open_over(alloc, ReliableFolder::new(alloc), size)
}

fn prepared<F: Folder + Drop>(
    rt: &impl Abort,
    cache: &mut LruDiskCache<F>,
    key: &str,
    size: u64,
) -> LruDiskCacheAddEntry {
    match cache.prepare_add(key, size) {
        Ok(entry) => entry,
        Err(error) => panic!(rt; "{error}"),
    }
}

fn written<F: Folder + Drop>(
    rt: &impl Abort,
    cache: &mut LruDiskCache<F>,
    entry: &LruDiskCacheAddEntry,
) {
    match cache.write_entry(entry, TEN) {
        Ok(()) => {}
        Err(error) => panic!(rt; "{error}"),
    }
}

fn committed<F: Folder + Drop>(
    rt: &impl Abort,
    cache: &mut LruDiskCache<F>,
    entry: LruDiskCacheAddEntry,
) {
    match cache.commit(entry) {
        Ok(()) => {}
        Err((error, _entry)) => panic!(rt; "{error}"),
    }
}

fn abandoned<F: Folder + Drop>(
    rt: &impl Abort,
    cache: &mut LruDiskCache<F>,
    entry: LruDiskCacheAddEntry,
) {
    match cache.abandon(entry) {
        Ok(()) => {}
        Err((error, _entry)) => panic!(rt; "{error}"),
    }
}

/// The keys are those, least recent first, with their sizes; the whole size counts the pending ones.
fn holds<F: Folder + Drop>(
    rt: &impl Abort,
    cache: &LruDiskCache<F>,
    wanted: &[(&str, u64)],
    size: u64,
) -> Result<(), Fail> {
    let mut at = 0usize;
    for (key, bytes) in cache.entries() {
        let (name, number) = wanted.get(at).ok_or("one too many")?;
        assert_eq!(rt; key.get(), *name);
        assert_eq!(rt; *bytes, *number);
        at = at.saturating_add(1);
    }
    assert_eq!(rt; at, wanted.len());
    assert_eq!(rt; cache.size(), size);
    Ok(())
}

/// One entry, then two at once.
fn two_entries(rt: &impl Abort, cache: &mut LruDiskCache<ReliableFolder>) {
    let first = prepared(rt, cache, "a/b/c", 10);
    written(rt, cache, &first);
    committed(rt, cache, first);
    assert_eq!(rt; cache.size(), 10);
    let one = prepared(rt, cache, "a/b/d", 10);
    let two = prepared(rt, cache, "x/y/z", 10);
    assert_eq!(rt; cache.size(), 20);
    assert!(rt; cache.is_empty());
    assert!(rt; !cache.contains_key("a/b/c"));
    written(rt, cache, &one);
    written(rt, cache, &two);
    committed(rt, cache, one);
    committed(rt, cache, two);
}

/// Two keys stand, the least recent of them goes for a third, and a bad key is refused.
fn announced(rt: &impl Abort, cache: &mut LruDiskCache<ReliableFolder>) -> Result<(), Fail> {
    two_entries(rt, cache);
    holds(rt, cache, &[("a/b/d", 10), ("x/y/z", 10)], 20)?;
    let more = prepared(rt, cache, "a/b/c", 5);
    written(rt, cache, &more);
    committed(rt, cache, more);
    holds(rt, cache, &[("x/y/z", 10), ("a/b/c", 10)], 20)?;
    assert_eq!(rt; cache.get_file("a/b/c")?.as_slice(), TEN);
    assert_eq!(rt; cache.insert_bytes("./a", b"x"), Err(Error::BadKey));
    Ok(())
}

#[test]
fn entries_are_announced_written_and_committed(rt: HostRuntime) -> Result<(), Fail> {
    let mut cache = open(rt.alloc(), 25)?;
    announced(&rt, &mut cache)
}

/// Errors of a disk cache whose texts are fixed.
const TEXTS: &[(Error, &str)] = &[
    (Error::FileTooLarge, "File too large"),
    (Error::FileNotInCache, "File not in cache"),
    (Error::Io(FolderFault::Missing), "missing"),
    (Error::Io(FolderFault::Failed), "failed"),
];

#[test]
fn errors_print_their_texts(rt: HostRuntime) -> Result<(), Fail> {
    let alloc = rt.alloc();
    for (error, wanted) in TEXTS {
        let text = error.to_string(alloc)?;
        assert_eq!(&rt; text.as_str(), *wanted);
    }
    Ok(())
}

#[test]
fn a_file_that_is_larger_than_the_cache_is_refused(rt: HostRuntime) -> Result<(), Fail> {
    let mut cache = open(rt.alloc(), 1)?;
    assert_eq!(&rt; cache.insert_bytes("a", b"xy"), Err(Error::FileTooLarge));
    Ok(())
}

/// A third entry finds no space beside two of them.
fn refuse_third(rt: &impl Abort, cache: &mut LruDiskCache<ReliableFolder>) {
    match cache.prepare_add("c", 10) {
        Ok(_entry) => panic!(rt; "a third entry"),
        Err(error) => assert_eq!(rt; error, Error::PendingSpace),
    }
}

/// An entry that another cache announced is not pending.
fn refuse_foreign(
    rt: &impl Abort,
    cache: &mut LruDiskCache<ReliableFolder>,
    foreign: LruDiskCacheAddEntry,
) -> LruDiskCacheAddEntry {
    assert_eq!(rt; cache.write_entry(&foreign, TEN), Err(Error::NotPending));
    match cache.commit(foreign) {
        Ok(()) => panic!(rt; "an entry of another cache"),
        Err((error, foreign)) => {
            assert_eq!(rt; error, Error::NotPending);
            foreign
        }
    }
}

/// Two entries stay pending whatever is refused, until they are abandoned.
fn refusals(
    rt: &impl Abort,
    cache: &mut LruDiskCache<ReliableFolder>,
    other: &mut LruDiskCache<ReliableFolder>,
) {
    let one = prepared(rt, cache, "a", 10);
    let two = prepared(rt, cache, "b", 10);
    refuse_third(rt, cache);
    let foreign = prepared(rt, other, "z", 10);
    let foreign = refuse_foreign(rt, cache, foreign);
    abandoned(rt, other, foreign);
    assert_eq!(rt; cache.size(), 20);
    abandoned(rt, cache, one);
    assert_eq!(rt; cache.size(), 10);
    abandoned(rt, cache, two);
    assert_eq!(rt; cache.size(), 0);
    assert_eq!(rt; other.size(), 0);
}

#[test]
fn entries_are_refused_and_abandoned(rt: HostRuntime) -> Result<(), Fail> {
    let mut cache = open(rt.alloc(), 25)?;
    let mut other = open(rt.alloc(), 25)?;
    refusals(&rt, &mut cache, &mut other);
    assert_eq!(&rt; cache.into_folder().files().len(), 0);
    Ok(())
}

/// No bytes are stored under their digest, and under no other.
fn store_nothing(
    rt: &impl Abort,
    cache: &mut TcCache<ReliableFolder>,
    nothing: &Toolchain,
) -> Result<(), Fail> {
    assert_eq!(rt; cache.insert_bytes(nothing, b"x"), Err(Error::WrongDigest));
    assert!(rt; cache.is_empty());
    cache.insert_bytes(nothing, b"")?;
    assert!(rt; cache.contains_toolchain(nothing));
    assert_eq!(rt; cache.get_file(nothing)?.len(), 0);
    assert_eq!(rt; cache.len(), 1);
    Ok(())
}

#[test]
fn an_archive_of_no_bytes_is_one(rt: HostRuntime) -> Result<(), Fail> {
    let alloc = rt.alloc();
    let nothing = Toolchain::new(NOTHING)?;
    let mut cache = archives(alloc, ReliableFolder::new(alloc), 25)?;
    store_nothing(&rt, &mut cache, &nothing)
}

/// Two keys with a file each.
fn two_keys<F: Folder + Drop>(cache: &mut LruDiskCache<F>) -> Result<(), Fail> {
    cache.insert_bytes("a", TEN)?;
    cache.insert_bytes("b", TEN)?;
    Ok(())
}

/// The first key is listed although its file is missing, until it is removed; then it is stored again.
fn find_again<F: Folder + Drop>(rt: &impl Abort, cache: &mut LruDiskCache<F>) -> Result<(), Fail> {
    assert_eq!(rt;
        cache.get_file("a").err(),
        Some(Error::Io(FolderFault::Missing))
    );
    holds(rt, cache, &[("b", 10), ("a", 10)], 20)?;
    cache.remove("a")?;
    holds(rt, cache, &[("b", 10)], 10)?;
    cache.insert_bytes("a", TEN)?;
    assert_eq!(rt; cache.get_file("a")?.as_slice(), TEN);
    Ok(())
}

/// The path of a file of a cache.
fn path_in(alloc: Global, top: &str, name: &str) -> Result<String, Fail> {
    let path = format!(in alloc; "{top}/c/{name}")?;
    Ok(path)
}

/// A cache of two keys over a folder, one of whose files is taken away.
fn lose<R: Files + Abort, F: Folder + Drop>(
    rt: &R,
    alloc: Global,
    folder: F,
    gone: &str,
) -> Result<F, Fail> {
    let mut cache = open_over(alloc, folder, 25)?;
    two_keys(&mut cache)?;
    fs::remove_file(rt, gone)?;
    find_again(rt, &mut cache)?;
    Ok(cache.into_folder())
}

#[test]
fn a_file_that_was_taken_away_is_missing(rt: HostRuntime) -> Result<(), Fail> {
    let alloc = rt.alloc();
    let top = fresh_folder(&rt, "cache_tests_taken")?;
    let gone = path_in(alloc, top.as_str(), "a")?;
    let folder = RealFolder::new(&rt, top.as_str())?;
    let folder = lose(&rt, alloc, folder, gone.as_str())?;
    assert_eq!(&rt; folder.faults(), 0);
    fs::remove_dir_all(&rt, top.as_str())?;
    Ok(())
}

/// A package is stored under its digest, and a file beside the cache is none of its archives.
fn store_package(rt: &impl Abort, cache: &mut TcCache<ReliableFolder>) -> Result<(), Fail> {
    let tc = cache.insert_package(b"abc")?;
    assert_eq!(rt; tc.archive_id(), toolchain_of(b"abc").archive_id());
    assert_eq!(rt; tc.archive_id(), ABC);
    assert_eq!(rt; cache.get_file(&tc)?.as_slice(), b"abc".as_slice());
    assert_eq!(rt; cache.read_aside("weak").err(), Some(FolderFault::Missing));
    assert_eq!(rt; cache.len(), 1);
    Ok(())
}

#[test]
fn packages_and_files_beside_the_cache(rt: HostRuntime) -> Result<(), Fail> {
    let alloc = rt.alloc();
    let mut cache = archives(alloc, ReliableFolder::new(alloc), 25)?;
    store_package(&rt, &mut cache)
}
