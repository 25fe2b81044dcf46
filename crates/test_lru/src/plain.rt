//! Each call beside the plain table of pairs, over steps that a fixed generator makes.
use crate::meters::{Tally, Weights};
use crate::plain_table::PlainTable;
use lru_metered::{Count, CountableMeter, DefaultHasher, InsertFault, LruCache};
use std::alloc::{AllocError, Global};
use std::hash::BuildHasherDefault;
use std::mem;
use std::process::Abort;
use std::test::*;

const STEPS: u32 = 10_000;

const CAPACITIES: [u64; 4] = [0, 1, 7, u64::MAX];

type Cache<M> = LruCache<u64, u64, DefaultHasher, M>;

/// A step of any cache.
#[derive(Clone, Copy)]
enum Step {
    Insert(u64, u64),
    Get(u64),
    Remove(u64),
    RemoveLru,
    Contains(u64),
    Extend([(u64, u64); 3]),
    HalveAndRestore,
    Clear,
}

/// A write to a value, which only a cache that counts its pairs has.
#[derive(Clone, Copy)]
enum Write {
    Key(u64, u64),
    Place(usize, u64),
}

/// What a step answers: a value, a flag, or the pair of an overflow.
#[derive(Clone, Copy, Debug, PartialEq, Eq)]
enum Answer {
    Value(Option<u64>),
    Flag(bool),
    Overflow(u64, u64),
}

// The step that a word of the generator stands for. One value in sixteen is so large that two of them and one
// more overflow.
fn step_of(word: u64) -> Step {
    let key = word >> 8 & 7;
    let value = if word >> 16 & 15 == 0 {
        u64::MAX / 2
    } else {
        word >> 20 & 3
    };
    match word & 15 {
        0 | 1 => Step::Get(key),
        2 => Step::Remove(key),
        3 => Step::RemoveLru,
        4 => Step::Contains(key),
        5 => Step::Extend([(key, value), (9, 1), (key, 2)]),
        6 => Step::HalveAndRestore,
        7 if key == 0 => Step::Clear,
        _ => Step::Insert(key, value),
    }
}

fn write_of(word: u64) -> Write {
    let value = word >> 20 & 3;
    if word & 1 == 0 {
        Write::Key(word >> 8 & 7, value)
    } else {
        Write::Place((word >> 8 & 7) as usize, value)
    }
}

// The next state of a generator of words.
fn next_state(state: u64) -> u64 {
    state
        .wrapping_mul(6364136223846793005)
        .wrapping_add(1442695040888963407)
}

// What an insert answers. Want of memory fails the test.
fn answer_of(outcome: Result<Option<u64>, InsertFault<u64, u64>>) -> Result<Answer, Fail> {
    match outcome {
        Err(InsertFault::Overflow(key, value)) => Ok(Answer::Overflow(key, value)),
        other => Ok(Answer::Value(other?)),
    }
}

fn apply<M: CountableMeter<u64, u64>>(cache: &mut Cache<M>, step: Step) -> Result<Answer, Fail> {
    match step {
        Step::Insert(key, value) => answer_of(cache.insert(key, value)),
        Step::Get(key) => Ok(Answer::Value(cache.get(&key).copied())),
        Step::Remove(key) => Ok(Answer::Value(cache.remove(&key))),
        Step::RemoveLru => Ok(Answer::Value(cache.remove_lru().map(|pair| pair.1))),
        Step::Contains(key) => Ok(Answer::Flag(cache.contains_key(&key))),
        Step::Extend(pairs) => answer_of(cache.extend(pairs).map(|_| None)),
        Step::HalveAndRestore => {
            let capacity = cache.capacity();
            cache.set_capacity(capacity / 2);
            cache.set_capacity(capacity);
            Ok(Answer::Flag(true))
        }
        Step::Clear => {
            cache.clear();
            Ok(Answer::Flag(true))
        }
    }
}

// The old value, where there is such a key or such a place.
fn write_value(cache: &mut Cache<Count>, write: Write) -> Option<u64> {
    match write {
        Write::Key(key, value) => match cache.get_mut(&key) {
            Some(slot) => Some(mem::replace(slot, value)),
            None => None,
        },
        Write::Place(place, value) => cache.set_at(place, value).ok(),
    }
}

/// What the pairs measure, and what makes the size.
#[derive(Clone, Copy)]
enum Scale {
    /// Nothing is measured, and the pairs are counted.
    Count,
    /// The values are summed up.
    Sum,
    /// The values are summed up, and the pairs are counted.
    CountUnderSum,
}

/// A cache over the plain table, whose sums are taken anew at each step.
#[derive(Drop)]
struct Plain {
    table: PlainTable<u64, u64, DefaultHasher>,
    capacity: u64,
    scale: Scale,
}

impl Plain {
    fn new(alloc: Global, capacity: u64, scale: Scale) -> Self {
        Plain {
            table: PlainTable::new(alloc, BuildHasherDefault::new()),
            capacity,
            scale,
        }
    }

    fn weight(&self, value: u64) -> u64 {
        match self.scale {
            Scale::Count => 0,
            Scale::Sum => value,
            Scale::CountUnderSum => value,
        }
    }

    /// The sum of the measures of the pairs whose key is another, and a start, where it is no more than
    /// 2^64-1.
    fn sum_of_others(&self, key: Option<u64>, start: u64) -> Option<u64> {
        let mut sum = start;
        for place in 0..self.table.len() {
            let (other, value) = self.table.pair_at(place)?;
            if key != Some(*other) {
                sum = sum.checked_add(self.weight(*value))?;
            }
        }
        Some(sum)
    }

    fn size(&self) -> Option<u64> {
        match self.scale {
            Scale::Sum => self.sum_of_others(None, 0),
            Scale::Count => Some(self.table.len() as u64),
            Scale::CountUnderSum => Some(self.table.len() as u64),
        }
    }

    fn trim(&mut self) {
        for _ in 0..self.table.len() {
            if self.size() <= Some(self.capacity) {
                return;
            }
            let _gone = self.table.pop_first();
        }
    }

    // The pair goes last, and the old one out. An overflow leaves the table as it was.
    fn insert(&mut self, key: u64, value: u64) -> Result<Answer, AllocError> {
        if self.sum_of_others(Some(key), self.weight(value)).is_none() {
            return Ok(Answer::Overflow(key, value));
        }
        let Ok(old) = self.table.put_last(key, value) else {
            return Err(AllocError);
        };
        self.trim();
        Ok(Answer::Value(old))
    }

    fn insert_each(&mut self, pairs: [(u64, u64); 3]) -> Result<Answer, AllocError> {
        for (key, value) in pairs {
            if let Answer::Overflow(key, value) = self.insert(key, value)? {
                return Ok(Answer::Overflow(key, value));
            }
        }
        Ok(Answer::Value(None))
    }

    fn promote(&mut self, key: u64) -> Option<u64> {
        if !self.table.promote(&key) {
            return None;
        }
        Some(*self.table.get_pair(&key)?.1)
    }

    fn apply(&mut self, step: Step) -> Result<Answer, AllocError> {
        match step {
            Step::Insert(key, value) => self.insert(key, value),
            Step::Get(key) => Ok(Answer::Value(self.promote(key))),
            Step::Remove(key) => Ok(Answer::Value(self.table.remove(&key).map(|pair| pair.1))),
            Step::RemoveLru => Ok(Answer::Value(self.table.pop_first().map(|pair| pair.1))),
            Step::Contains(key) => Ok(Answer::Flag(self.table.contains_key(&key))),
            Step::Extend(pairs) => self.insert_each(pairs),
            Step::HalveAndRestore => {
                let capacity = self.capacity;
                self.capacity = capacity / 2;
                self.trim();
                self.capacity = capacity;
                Ok(Answer::Flag(true))
            }
            Step::Clear => {
                self.table.clear();
                Ok(Answer::Flag(true))
            }
        }
    }

    fn write_at(&mut self, place: usize, value: u64) -> Option<u64> {
        if place >= self.table.len() {
            return None;
        }
        Some(self.table.put_at(place, value))
    }

    fn write(&mut self, write: Write) -> Option<u64> {
        match write {
            Write::Key(key, value) => {
                if !self.table.promote(&key) {
                    return None;
                }
                let last = self.table.len().saturating_sub(1);
                self.write_at(last, value)
            }
            Write::Place(place, value) => self.write_at(place, value),
        }
    }
}

// The list of the cache is that of the plain table.
fn assert_same<M: CountableMeter<u64, u64>>(rt: &impl Abort, cache: &Cache<M>, plain: &Plain) {
    assert_eq!(rt; cache.len(), plain.table.len());
    assert_eq!(rt; Some(cache.size()), plain.size());
    let mut place = 0usize;
    for (key, value) in cache {
        let expected = plain.table.pair_at(place);
        assert_eq!(rt; Some((*key, *value)), expected.map(|(k, v)| (*k, *v)));
        place = place.saturating_add(1);
    }
}

// Both take the same steps, at each capacity.
fn agree<M: CountableMeter<u64, u64> + Copy>(
    rt: &impl Abort,
    alloc: Global,
    meter: M,
    scale: Scale,
) -> Result<(), Fail> {
    for capacity in CAPACITIES {
        let mut cache = LruCache::with_meter(alloc, capacity, meter)?;
        let mut plain = Plain::new(alloc, capacity, scale);
        let mut state = capacity;
        for _ in 0..STEPS {
            state = next_state(state);
            let step = step_of(state >> 32);
            assert_eq!(rt; apply(&mut cache, step)?, plain.apply(step)?);
            assert_same(rt, &cache, &plain);
        }
    }
    Ok(())
}

#[test]
fn agrees_where_pairs_are_counted(rt: HostRuntime) -> Result<(), Fail> {
    agree(&rt, rt.alloc(), Count, Scale::Count)
}

#[test]
fn agrees_where_values_are_summed(rt: HostRuntime) -> Result<(), Fail> {
    agree(&rt, rt.alloc(), Weights, Scale::Sum)
}

#[test]
fn agrees_where_values_are_summed_and_pairs_counted(rt: HostRuntime) -> Result<(), Fail> {
    agree(&rt, rt.alloc(), Tally, Scale::CountUnderSum)
}

#[test]
fn writes_where_the_plain_list_does(rt: HostRuntime) -> Result<(), Fail> {
    for capacity in CAPACITIES {
        let mut cache = LruCache::with_meter(rt.alloc(), capacity, Count)?;
        let mut plain = Plain::new(rt.alloc(), capacity, Scale::Count);
        let mut state = capacity;
        for _ in 0..STEPS {
            state = next_state(state);
            let step = Step::Insert(state >> 40 & 7, state >> 44 & 3);
            assert_eq!(rt; apply(&mut cache, step)?, plain.apply(step)?);
            let change = write_of(state >> 32);
            assert_eq!(rt; write_value(&mut cache, change), plain.write(change));
            assert_same(&rt, &cache, &plain);
        }
    }
    Ok(())
}
