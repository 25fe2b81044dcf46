//! `cache CALL DIR COUNT`: it makes a call so many times on a cache of archives in a directory.
//!
//! The calls are `fill` (stores so many archives of eight bytes), `look` (so many look-ups, spread over all
//! archives), `evict` (opens the cache with just room for what it has, and stores so many new archives),
//! `mix` (stores, looks up and removes in turn, with room for five), `list` (opens the cache alone) and
//! `hash` (the SHA-256 of so many MiB). With a count of 0 each but `hash` opens the cache alone. It writes
//! how many archives there are then, and before that, for `mix` and `list`, their ids, least recent first.

use dist_types::toolchain::Toolchain;
use folders::folder::Folder;
use folders::real_folder::RealFolder;
use lru_disk_cache::Error;
use std::alloc::{AllocError, Global};
use std::io;
use std::process::ExitCode;
use toolchain_cache::{TcCache, toolchain_of};

/// How many bytes each archive has.
const SIZE: u64 = 8;

/// The most bytes of a cache that has room for all.
const LARGE: u64 = 1 << 40;

/// A call whose cost is measured.
#[derive(Clone, Copy, PartialEq, Eq)]
enum Call {
    Fill,
    Look,
    Evict,
    Mix,
    List,
}

fn call_of(word: &str) -> Option<Call> {
    match word {
        "fill" => Some(Call::Fill),
        "look" => Some(Call::Look),
        "evict" => Some(Call::Evict),
        "mix" => Some(Call::Mix),
        "list" => Some(Call::List),
        _ => None,
    }
}

fn open<F: Folder + Drop>(alloc: Global, folder: F, size: u64) -> Result<TcCache<F>, Error> {
    match TcCache::new(alloc, folder, "tc", size) {
        Ok(cache) => Ok(cache),
        Err((error, _folder)) => Err(error),
    }
}

// The toolchains of the archives that are listed.
fn listed<F: Folder + Drop>(alloc: Global, cache: &TcCache<F>) -> Result<Vec<Toolchain>, Error> {
    let mut all = Vec::new(alloc);
    for (tc, _size) in cache.archives() {
        let Ok(()) = all.push(tc) else {
            return Err(Error::Memory);
        };
    }
    Ok(all)
}

fn fill<F: Folder + Drop>(cache: &mut TcCache<F>, first: u64, count: u64) -> Result<(), Error> {
    for n in 0..count {
        let _tc = cache.insert_package(&first.wrapping_add(n).to_le_bytes())?;
    }
    Ok(())
}

fn look<F: Folder + Drop>(
    cache: &mut TcCache<F>,
    all: &[Toolchain],
    count: u64,
) -> Result<(), Error> {
    for n in 0..count {
        let at = n.wrapping_mul(7919) % (all.len() as u64).max(1);
        if let Some(tc) = all.get(at as usize) {
            let _bytes = cache.get_file(tc)?;
        }
    }
    Ok(())
}

fn mix<F: Folder + Drop>(cache: &mut TcCache<F>, count: u64) -> Result<(), Error> {
    for n in 0..count {
        let bytes = (n % 7).to_le_bytes();
        let tc = toolchain_of(&bytes);
        if n % 5 == 3 {
            cache.remove(&tc)?;
        } else {
            cache.insert_bytes(&tc, &bytes)?;
        }
        if n % 3 == 1 && cache.contains_toolchain(&tc) {
            let _bytes = cache.get_file(&tc)?;
        }
    }
    Ok(())
}

// Makes the calls. Gives how many archives there are then.
fn measured<F: Folder + Drop>(
    alloc: Global,
    folder: F,
    call: Call,
    count: u64,
    ids: &mut Vec<Toolchain>,
) -> Result<usize, Error> {
    let size = if call == Call::Mix { 5 * SIZE } else { LARGE };
    let mut cache = open(alloc, folder, size)?;
    match call {
        Call::Fill => fill(&mut cache, 0, count)?,
        Call::Mix => {
            mix(&mut cache, count)?;
            *ids = listed(alloc, &cache)?;
        }
        Call::List => *ids = listed(alloc, &cache)?,
        Call::Look => {
            let all = listed(alloc, &cache)?;
            look(&mut cache, &all, count)?;
        }
        Call::Evict => {
            let room = (cache.len() as u64).saturating_mul(SIZE);
            let mut tight = open(alloc, cache.into_folder(), room)?;
            fill(&mut tight, LARGE, count)?;
            return Ok(tight.len());
        }
    }
    Ok(cache.len())
}

// The first digit of the SHA-256 of so many MiB of the letter x, as a byte.
fn hashed(alloc: Global, count: u64) -> Result<u8, AllocError> {
    let block = [b'x'; 4096];
    let mut bytes = Vec::new(alloc);
    for _ in 0..count.saturating_mul(256) {
        bytes.extend_from_slice(&block)?;
    }
    let tc = toolchain_of(&bytes);
    Ok(*tc.archive_id().as_bytes().first().unwrap_or(&0))
}

/// Makes the calls that the words ask for.
pub(crate) fn timed(rt: &HostRuntime, words: &[String]) -> io::Result<ExitCode> {
    let usage = ExitCode::from(2);
    let (Some(word), Some(dir), Some(count)) = (words.get(2), words.get(3), words.get(4)) else {
        eprintln!(rt; "bench: cache fill|look|evict|mix|list|hash DIR COUNT")?;
        return Ok(usage);
    };
    let Ok(count) = count.as_str().parse::<u64>() else {
        eprintln!(rt; "bench: COUNT is no number")?;
        return Ok(usage);
    };
    if word.as_str() == "hash" {
        let first = hashed(rt.alloc(), count)?;
        println!(rt; "{first}")?;
        return Ok(ExitCode::from(0));
    }
    let Some(call) = call_of(word.as_str()) else {
        eprintln!(rt; "bench: no such call")?;
        return Ok(usage);
    };
    let folder = RealFolder::new(rt, dir.as_str())?;
    let mut ids = Vec::new(rt.alloc());
    match measured(rt.alloc(), folder, call, count, &mut ids) {
        Ok(len) => {
            for tc in &ids {
                println!(rt; "{}", tc.archive_id())?;
            }
            println!(rt; "{len}")?;
            Ok(ExitCode::from(0))
        }
        Err(error) => {
            eprintln!(rt; "bench: {error}")?;
            Ok(ExitCode::from(1))
        }
    }
}
