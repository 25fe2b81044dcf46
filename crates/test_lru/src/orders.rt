//! Worked orders: what a cache answers and holds after each call.
use crate::meters::{KeyBytes, Lengths, Weights};
use lru_metered::{CountableMeter, DefaultHasher, InsertFault, IntoIter, LruCache};
use std::alloc::Global;
use std::collections::hash_map::RandomState;
use std::string::String;
use std::test::*;
use std::vec::Vec;

type Numbers = LruCache<u32, u32>;

type Texts<M> = LruCache<String, Vec<u8>, DefaultHasher, M>;

/// A call of a cache of numbers.
#[derive(Clone, Copy)]
enum Call {
    Insert(u32, u32),
    Get(u32),
    GetMut(u32),
    Remove(u32),
    RemoveLru,
    SetCapacity(u64),
    SetAt(usize, u32),
    Clear,
}

// Makes the call, and gives the value that it answers.
fn apply(cache: &mut Numbers, call: Call) -> Result<Option<u32>, InsertFault<u32, u32>> {
    match call {
        Call::Insert(key, value) => cache.insert(key, value),
        Call::Get(key) => Ok(cache.get(&key).copied()),
        Call::GetMut(key) => Ok(cache.get_mut(&key).map(|value| *value)),
        Call::Remove(key) => Ok(cache.remove(&key)),
        Call::RemoveLru => Ok(cache.remove_lru().map(|pair| pair.1)),
        Call::SetCapacity(capacity) => {
            cache.set_capacity(capacity);
            Ok(None)
        }
        Call::SetAt(place, value) => Ok(cache.set_at(place, value).ok()),
        Call::Clear => {
            cache.clear();
            Ok(None)
        }
    }
}

const ORDERS: [(Call, Option<u32>, &str); 13] = [
    (Call::Insert(1, 10), None, "{1: 10}"),
    (Call::Insert(2, 20), None, "{2: 20, 1: 10}"),
    (Call::Insert(3, 30), None, "{3: 30, 2: 20, 1: 10}"),
    (Call::Insert(2, 22), Some(20), "{2: 22, 3: 30, 1: 10}"),
    (Call::Insert(6, 60), None, "{6: 60, 2: 22, 3: 30}"),
    (Call::GetMut(3), Some(30), "{3: 30, 6: 60, 2: 22}"),
    (Call::SetCapacity(2), None, "{3: 30, 6: 60}"),
    (Call::SetAt(0, 61), Some(60), "{3: 30, 6: 61}"),
    (Call::SetAt(2, 1), None, "{3: 30, 6: 61}"),
    (Call::Get(6), Some(61), "{6: 61, 3: 30}"),
    (Call::RemoveLru, Some(30), "{6: 61}"),
    (Call::Remove(6), Some(61), "{}"),
    (Call::Clear, None, "{}"),
];

#[test]
fn keeps_the_order_of_last_use(rt: HostRuntime) -> Result<(), Fail> {
    let alloc = rt.alloc();
    let mut cache = LruCache::new(alloc, 3)?;
    for (call, answer, printed) in ORDERS {
        assert_eq!(rt; apply(&mut cache, call)?, answer);
        assert_eq!(rt; format!(in alloc; "{cache:?}")?.as_str(), printed);
    }
    Ok(())
}

// A cache into which these keys went, each with a value of that length.
fn of_lengths<M: CountableMeter<String, Vec<u8>> + Drop>(
    alloc: Global,
    capacity: u64,
    meter: M,
    texts: &[(&str, usize)],
) -> Result<Texts<M>, Fail> {
    let mut cache = LruCache::with_meter(alloc, capacity, meter)?;
    for (key, length) in texts {
        cache.insert(String::from_str(alloc, key)?, vec![in alloc; 0; *length]?)?;
    }
    Ok(cache)
}

// The size of a cache, and its keys.
fn size_and_keys<M: CountableMeter<String, Vec<u8>>>(
    alloc: Global,
    cache: &Texts<M>,
) -> Result<String, Fail> {
    let mut keys = format!(in alloc; "{}:", cache.size())?;
    for (key, _) in cache {
        keys.push(' ')?;
        keys.push_str(key.as_str())?;
    }
    Ok(keys)
}

#[test]
fn evicts_by_the_length_of_values(rt: HostRuntime) -> Result<(), Fail> {
    let alloc = rt.alloc();
    let cache = of_lengths(alloc, 2, Lengths, &[("foo1", 2), ("foo2", 4)])?;
    assert_eq!(rt; size_and_keys(alloc, &cache)?.as_str(), "0:");
    let cache = of_lengths(alloc, 5, Lengths, &[("foo1", 2), ("foo2", 2), ("foo2", 4)])?;
    assert_eq!(rt; size_and_keys(alloc, &cache)?.as_str(), "4: foo2");
    Ok(())
}

#[test]
fn evicts_by_the_bytes_of_keys(rt: HostRuntime) -> Result<(), Fail> {
    let alloc = rt.alloc();
    let cache = of_lengths(alloc, 0, KeyBytes, &[("foo1", 0), ("", 3)])?;
    assert_eq!(rt; size_and_keys(alloc, &cache)?.as_str(), "0: ");
    let cache = of_lengths(
        alloc,
        9,
        KeyBytes,
        &[("foo1", 1), ("foo2", 1), ("three", 1)],
    )?;
    assert_eq!(rt; size_and_keys(alloc, &cache)?.as_str(), "9: foo2 three");
    Ok(())
}

#[test]
fn hands_an_overflow_back(rt: HostRuntime) -> Result<(), Fail> {
    let mut cache = LruCache::with_meter(rt.alloc(), u64::MAX, Weights)?;
    assert_eq!(rt; cache.insert(1, u64::MAX)?, None);
    assert_eq!(rt; cache.insert(2, 1), Err(InsertFault::Overflow(2, 1)));

    // The old pair is counted out first.
    assert_eq!(rt; cache.insert(1, 7)?, Some(u64::MAX));
    let refused = cache.extend([(2, 1), (3, u64::MAX), (4, 1)]);
    assert_eq!(rt; refused, Err(InsertFault::Overflow(3, u64::MAX)));
    assert_eq!(rt; cache.size(), 8);
    Ok(())
}

// A cache of three pairs.
fn of_three(alloc: Global) -> Result<Numbers, Fail> {
    let mut cache = LruCache::new(alloc, 3)?;
    cache.extend([(1, 10), (2, 20), (3, 30)])?;
    Ok(cache)
}

/// Calls of an iterator over three pairs: whether each is at the front, what it gives, and how many are left.
const ENDS: [(bool, Option<(u32, u32)>, usize); 5] = [
    (true, Some((1, 10)), 2),
    (false, Some((3, 30)), 1),
    (false, Some((2, 20)), 0),
    (true, None, 0),
    (false, None, 0),
];

#[test]
fn iterates_from_both_ends(rt: HostRuntime) -> Result<(), Fail> {
    let cache = of_three(rt.alloc())?;
    let mut pairs = cache.iter();
    for (at_front, expected, left) in ENDS {
        let pair = if at_front {
            pairs.next()
        } else {
            pairs.next_back()
        };
        assert_eq!(rt; pair.map(|(key, value)| (*key, *value)), expected);
        assert_eq!(rt; pairs.len(), left);
    }
    Ok(())
}

// What the iterator gives at that end.
fn give(pairs: &mut IntoIter<u32, u32>, at_front: bool) -> Option<(u32, u32)> {
    if at_front {
        pairs.next()
    } else {
        pairs.next_back()
    }
}

#[test]
fn iterates_by_value_from_both_ends(rt: HostRuntime) -> Result<(), Fail> {
    let mut pairs = of_three(rt.alloc())?.into_iter();
    for (at_front, expected, left) in ENDS {
        assert_eq!(rt; give(&mut pairs, at_front), expected);
        assert_eq!(rt; pairs.len(), left);
    }
    Ok(())
}

#[test]
fn clones_the_list(rt: HostRuntime) -> Result<(), Fail> {
    let alloc = rt.alloc();
    let mut cache = of_three(alloc)?;
    let copy = cache.clone()?;
    cache.clear();
    assert_eq!(rt;
        format!(in alloc; "{copy:?}")?.as_str(),
        "{3: 30, 2: 20, 1: 10}"
    );
    Ok(())
}

#[test]
fn hashes_with_random_seeds(rt: HostRuntime) -> Result<(), Fail> {
    let alloc = rt.alloc();
    let mut counted = LruCache::with_hasher(alloc, 1, RandomState::new(&rt)?)?;
    counted.extend([(1, 10), (2, 20)])?;
    assert_eq!(rt; counted.get(&2).copied(), Some(20));
    let mut weighed = LruCache::with_meter_and_hasher(alloc, 9, Weights, RandomState::new(&rt)?)?;
    weighed.extend([(1, 4), (2, 5), (3, 5)])?;
    assert_eq!(rt; weighed.size(), 5);
    Ok(())
}
