//! One history of a cache of archives, over the folders in memory and over one of the system.
use dist_types::toolchain::Toolchain;
use folders::calls::Calls;
use folders::folder::Folder;
use folders::mem_folder::MemFolder;
use folders::real_folder::RealFolder;
use folders::reliable_folder::ReliableFolder;
use lru_disk_cache::Error;
use std::alloc::Global;
use std::env::{self, Env};
use std::fs;
use std::process::Abort;
use std::rt::Files;
use std::test::Fail;
use toolchain_cache::TcCache;

/// The examples of FIPS 180-4 for SHA-256: the text `abc`, two blocks, and nothing.
pub(crate) const ABC: &str = "ba7816bf8f01cfea414140de5dae2223b00361a396177a9cb410ff61f20015ad";

const TWO_BLOCKS: &str = "248d6a61d20638b8e5c026930c3e6039a33ce45964ff2167f6ecedd419db06c1";

pub(crate) const NOTHING: &str = "e3b0c44298fc1c149afbf4c8996fb92427ae41e4649b934ca495991b7852b855";

const BLOCKS: &str = "abcdbcdecdefdefgefghfghighijhijkijkljklmklmnlmnomnopnopq";

pub(crate) fn open<F: Folder + Drop>(
    alloc: Global,
    folder: F,
    size: u64,
) -> Result<TcCache<F>, Fail> {
    match TcCache::new(alloc, folder, "tc", size) {
        Ok(cache) => Ok(cache),
        Err((error, _folder)) => Err(error.into()),
    }
}

/// The archives are those, least recent first.
fn lists<F: Folder + Drop>(
    rt: &impl Abort,
    cache: &TcCache<F>,
    wanted: &[(&str, u64)],
) -> Result<(), Fail> {
    let mut at = 0usize;
    for (tc, size) in cache.archives() {
        let (id, bytes) = wanted.get(at).ok_or("one too many")?;
        assert_eq!(rt; tc.archive_id(), *id);
        assert_eq!(rt; size, *bytes);
        at = at.saturating_add(1);
    }
    assert_eq!(rt; at, wanted.len());
    assert_eq!(rt; cache.len(), wanted.len());
    Ok(())
}

/// The three archives of the examples.
#[derive(Drop)]
struct Examples {
    abc: Toolchain,
    blocks: Toolchain,
    nothing: Toolchain,
}

fn three_archives() -> Result<Examples, Fail> {
    Ok(Examples {
        abc: Toolchain::new(ABC)?,
        blocks: Toolchain::new(TWO_BLOCKS)?,
        nothing: Toolchain::new(NOTHING)?,
    })
}

fn fill<F: Folder + Drop>(
    rt: &impl Abort,
    cache: &mut TcCache<F>,
    examples: &Examples,
) -> Result<(), Fail> {
    assert!(rt; cache.is_empty());
    cache.insert_bytes(&examples.abc, b"abc")?;
    cache.insert_bytes(&examples.blocks, BLOCKS.as_bytes())?;
    cache.insert_bytes(&examples.nothing, b"")?;
    assert_eq!(rt;
        cache.insert_bytes(&examples.nothing, b"x").err(),
        Some(Error::WrongDigest)
    );
    lists(rt, cache, &[(ABC, 3), (TWO_BLOCKS, 56), (NOTHING, 0)])?;
    assert_eq!(rt;
        cache.get_file(&examples.abc)?.as_slice(),
        b"abc".as_slice()
    );
    lists(rt, cache, &[(TWO_BLOCKS, 56), (NOTHING, 0), (ABC, 3)])
}

fn shrink<F: Folder + Drop>(
    rt: &impl Abort,
    cache: &mut TcCache<F>,
    examples: &Examples,
) -> Result<(), Fail> {
    assert!(rt; !cache.contains_toolchain(&examples.blocks));
    assert_eq!(rt;
        cache
            .insert_bytes(&examples.blocks, BLOCKS.as_bytes())
            .err(),
        Some(Error::FileTooLarge)
    );
    assert_eq!(rt;
        cache.get_file(&examples.blocks).err(),
        Some(Error::FileNotInCache)
    );
    lists(rt, cache, &[(NOTHING, 0), (ABC, 3)])?;
    cache.remove(&examples.abc)?;
    lists(rt, cache, &[(NOTHING, 0)])
}

/// An opening that is filled.
fn filled<F: Folder + Drop>(
    rt: &impl Abort,
    alloc: Global,
    folder: F,
    examples: &Examples,
) -> Result<F, Fail> {
    let mut cache = open(alloc, folder, 59)?;
    fill(rt, &mut cache, examples)?;
    Ok(cache.into_folder())
}

/// An opening that finds all again.
fn found<F: Folder + Drop>(rt: &impl Abort, alloc: Global, folder: F) -> Result<F, Fail> {
    let cache = open(alloc, folder, 59)?;
    lists(rt, &cache, &[(TWO_BLOCKS, 56), (NOTHING, 0), (ABC, 3)])?;
    Ok(cache.into_folder())
}

/// An opening that has less room.
fn shrunk<F: Folder + Drop>(
    rt: &impl Abort,
    alloc: Global,
    folder: F,
    examples: &Examples,
) -> Result<F, Fail> {
    let mut cache = open(alloc, folder, 10)?;
    shrink(rt, &mut cache, examples)?;
    Ok(cache.into_folder())
}

/// Archives are stored, looked up, found again at an opening, and dropped at one that has less room.
fn history<F: Folder + Drop>(rt: &impl Abort, alloc: Global, folder: F) -> Result<F, Fail> {
    let examples = three_archives()?;
    let folder = filled(rt, alloc, folder, &examples)?;
    let folder = found(rt, alloc, folder)?;
    shrunk(rt, alloc, folder, &examples)
}

/// A folder of the system of this name with nothing in it.
pub(crate) fn fresh_folder<R: Env + Files + AllocGlobal>(
    rt: &R,
    name: &str,
) -> Result<String, Fail> {
    let dir = env::temp_dir(rt)?;
    let top = format!(in rt.alloc(); "{}/{name}", dir.as_path().as_str())?;
    let _ = fs::remove_dir_all(rt, top.as_str());
    fs::create_dir_all(rt, top.as_str())?;
    Ok(top)
}

#[test]
fn archives_over_a_reliable_folder(rt: HostRuntime) -> Result<(), Fail> {
    let alloc = rt.alloc();
    let folder = history(&rt, alloc, ReliableFolder::new(alloc))?;
    assert_eq!(rt; folder.files().len(), 1);
    assert_eq!(rt; folder.faults(), 0);
    Ok(())
}

/// An empty folder none of whose calls fail.
#[tactic(auto, using(crate::proofs::Empty::none_twice))]
fn empty_folder(alloc: Global) -> MemFolder {
    let calls = Calls::new(Vec::new(alloc), Vec::new(alloc));
    MemFolder::new(alloc, Vec::new(alloc), calls)
}

#[test]
fn archives_over_a_folder_in_memory(rt: HostRuntime) -> Result<(), Fail> {
    let alloc = rt.alloc();
    let folder = history(&rt, alloc, empty_folder(alloc))?;
    assert_eq!(rt; folder.files().len(), 1);
    assert_eq!(rt; folder.faults(), 0);
    Ok(())
}

/// A folder in memory, of which the calls of these numbers fail before they do anything.
#[tactic(auto, using(crate::proofs::Empty::none_twice))]
fn failing_folder(alloc: Global, numbers: Vec<u64>) -> MemFolder {
    let calls = Calls::new(numbers, Vec::new(alloc));
    MemFolder::new(alloc, Vec::new(alloc), calls)
}

#[test]
fn failures_are_counted_by_kind(rt: HostRuntime) -> Result<(), Fail> {
    let alloc = rt.alloc();
    let mut numbers = Vec::new(alloc);
    numbers.push(1)?;
    numbers.push(2)?;
    numbers.push(4)?;
    let mut folder = failing_folder(alloc, numbers);
    assert!(rt; folder.write("a", b"x").is_ok());
    assert!(rt; folder.rename("a", "b").is_err());
    assert!(rt; folder.remove("a").is_err());
    assert!(rt; folder.rename("b", "a").is_err());
    assert!(rt; folder.read("a").is_err());
    assert!(rt; folder.rename("a", "b").is_ok());
    assert!(rt; folder.remove("b").is_ok());
    let failures = folder.failures();
    assert_eq!(rt; failures.renames(), 1);
    assert_eq!(rt; failures.removals(), 1);
    assert_eq!(rt; failures.memory(), 0);
    assert_eq!(rt; folder.faults(), 3);
    Ok(())
}

#[test]
fn archives_over_a_folder_of_the_system(rt: HostRuntime) -> Result<(), Fail> {
    let top = fresh_folder(&rt, "cache_tests_archives")?;
    let folder = history(&rt, rt.alloc(), RealFolder::new(&rt, top.as_str())?)?;
    assert_eq!(rt; folder.faults(), 0);
    fs::remove_dir_all(&rt, top.as_str())?;
    Ok(())
}
