//! `lru CAPACITY CALL COUNT`: it fills a metered cache with so many numbers, and makes a call so many times.
//!
//! The calls are `evict` (an insert of a new key), `hit`, `replace` (an insert of a key that is there) and
//! `miss`. It writes the sum of what the calls answered.

use lru_metered::{InsertFault, LruCache};
use std::alloc::Global;
use std::io;
use std::process::ExitCode;

type Numbers = LruCache<u64, u64>;

/// A call whose cost is measured.
#[derive(Clone, Copy)]
enum Call {
    Evict,
    Hit,
    Replace,
    Miss,
}

fn call_of(word: &str) -> Option<Call> {
    match word {
        "evict" => Some(Call::Evict),
        "hit" => Some(Call::Hit),
        "replace" => Some(Call::Replace),
        "miss" => Some(Call::Miss),
        _ => None,
    }
}

// A cache that is full.
fn filled(alloc: Global, capacity: u64) -> Option<Numbers> {
    let mut cache = LruCache::new(alloc, capacity).ok()?;
    for key in 0..capacity {
        cache.insert(key, key).ok()?;
    }
    Some(cache)
}

// A key of a full cache, spread over all of them.
fn spread(n: u64, capacity: u64) -> u64 {
    n.wrapping_mul(0x9E37_79B9_7F4A_7C15) % capacity.max(1)
}

fn answer(cache: &mut Numbers, call: Call, n: u64) -> Result<Option<u64>, InsertFault<u64, u64>> {
    let capacity = cache.capacity();
    match call {
        Call::Evict => cache.insert(capacity.wrapping_add(n), n),
        Call::Hit => Ok(cache.get(&spread(n, capacity)).copied()),
        Call::Replace => cache.insert(spread(n, capacity), n),
        Call::Miss => Ok(cache.get(&capacity.wrapping_add(n)).copied()),
    }
}

// The sum of what the calls answer.
fn measured(alloc: Global, capacity: u64, call: Call, count: u64) -> Option<u64> {
    let mut cache = filled(alloc, capacity)?;
    let mut sum = 0u64;
    for n in 0..count {
        sum = sum.wrapping_add(answer(&mut cache, call, n).ok()?.unwrap_or(1));
    }
    Some(sum)
}

fn asked(words: &[String]) -> Option<(u64, Call, u64)> {
    let capacity = words.get(2)?.as_str().parse::<u64>().ok()?;
    let call = call_of(words.get(3)?.as_str())?;
    let count = words.get(4)?.as_str().parse::<u64>().ok()?;
    Some((capacity, call, count))
}

/// Makes the calls that the words ask for.
pub(crate) fn timed(rt: &HostRuntime, words: &[String]) -> io::Result<ExitCode> {
    let Some((capacity, call, count)) = asked(words) else {
        eprintln!(rt; "bench: lru CAPACITY evict|hit|replace|miss COUNT")?;
        return Ok(ExitCode::from(2));
    };
    match measured(rt.alloc(), capacity, call, count) {
        Some(sum) => {
            println!(rt; "{sum}")?;
            Ok(ExitCode::from(0))
        }
        None => {
            eprintln!(rt; "bench: out of memory")?;
            Ok(ExitCode::from(1))
        }
    }
}
