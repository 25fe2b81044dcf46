//! The open reservations.
ghost use Rattle.std.specs.Prelude.{◌≡◌, [], ◌∷◌, ◌++◌, true, min, OnOk, OnErr};
ghost use Rattle.std.specs.Option.{option_copied};
ghost use Rattle.lru_disk_cache.specs.Reserved.{has, held_size, temp_of, without_number, unsure, IsLeastFree};

use crate::entry::{LruDiskCacheAddEntry, Reserved, doubt, is_of};
use listed_files::storing::Arrival;
use lru_metered::Memory;
use std::alloc::Global;
use std::marker::Model;

/// The open reservations of a cache.
#[derive(Drop)]
pub struct Reservations {
    alloc: Global,
    pending: Vec<Reserved>,
}

impl Model for Reservations {
    ghost use Rattle.std.specs.Prelude.{List};
    ghost use Rattle.lru_disk_cache.specs.Reserved.{Reservation};

    ghost Value = { List Reservation };

    ghost view = { λ r. r.pending.items };
}

impl Reservations {
    /// None.
    pub fn new(alloc: Global) -> Self
        ensures { result ≡ [] }
    {
        Reservations {
            alloc,
            pending: Vec::new(alloc),
        }
    }

    /// The sum of the sizes announced, which stops at 2^64 - 1.
    pub fn held_size(&self) -> u64
        ensures { result ≡ min (held_size self.now) 18446744073709551615 }
    {
        let mut sum = 0u64;
        for reserved in &self.pending {
            sum = sum.saturating_add(reserved.size);
        }
        sum
    }

    /// Whether an open reservation has this number.
    fn has(&self, number: u64) -> bool
        ensures { result ≡ has number self.now }
    {
        self.pending
            .iter()
            .any(|reserved| reserved.number == number)
    }

    /// The least number that no open reservation has.
    pub fn least_free(&self) -> u64
        ensures { IsLeastFree result self.now }
    {
        for number in 0..self.pending.len() as u64 {
            if !self.has(number) {
                return number;
            }
        }
        self.pending.len() as u64
    }

    /// The path of the temporary file of an entry, if it is pending.
    pub fn temp_of(&self, entry: &LruDiskCacheAddEntry) -> Option<&str>
        ensures temp { option_copied result ≡ temp_of entry.now self.now }
    {
        temp_in(&self.pending, entry)
    }

    /// The sum of the sizes that those of other numbers announced, which stops at 2^64 - 1.
    pub fn held_beside(&self, number: u64) -> u64
        ensures { result ≡ min (held_size (without_number number self.now)) 18446744073709551615 }
    {
        sum_beside(&self.pending, number)
    }

    /// One more reservation, of this number, whose temporary file is there.
    pub fn push(&mut self, number: u64, arrival: Arrival) -> Result<(), Memory>
        ensures ok { OnOk result
            (self.new ≡ self.old ++ (record {
              number = number;
              key = arrival.key;
              size = arrival.size;
              temp = arrival.from;
              sure = true;
            }) ∷ []) }
        ensures err { OnErr result (self.new ≡ self.old) }
    {
        let Arrival {
            from,
            path: _path,
            key,
            size,
            limit: _limit,
        } = arrival;
        let reserved = Reserved {
            number,
            key,
            size,
            temp: from,
            sure: true,
        };
        let Ok(()) = self.pending.push(reserved) else {
            return Err(Memory);
        };
        Ok(())
    }

    /// The temporary file of the one of this number is not sure to be there any more.
    pub fn doubt(&mut self, number: u64)
        ensures { self.new ≡ unsure number self.old }
    {
        doubt_in(&mut self.pending, number);
    }

    /// The one of this number is closed. It takes no memory.
    pub fn settle(&mut self, number: u64)
        ensures { self.new ≡ without_number number self.old }
    {
        self.pending.retain(|reserved| reserved.number != number);
    }
}

// The temporary file of the one of this number is not sure to be there any more.
fn doubt_in(pending: &mut Vec<Reserved>, number: u64)
    ensures { pending.new.items ≡ unsure number pending.old.items }
{
    for reserved in pending.iter_mut() {
        doubt(reserved, number);
    }
}

// The path of the temporary file of an entry, if it is pending.
fn temp_in<'a>(pending: &'a [Reserved], entry: &LruDiskCacheAddEntry) -> Option<&'a str>
    ensures { option_copied result ≡ temp_of entry.now pending.now }
{
    for reserved in pending {
        if is_of(entry, reserved) {
            return Some(reserved.temp.get());
        }
    }
    None
}

// The sum of the sizes of those of other numbers, which stops at 2^64 - 1.
fn sum_beside(pending: &[Reserved], number: u64) -> u64
    ensures { result ≡ min (held_size (without_number number pending.now)) 18446744073709551615 }
{
    let mut sum = 0u64;
    for reserved in pending {
        sum = sum.saturating_add(size_beside(reserved, number));
    }
    sum
}

// The size of one of another number, and else none.
fn size_beside(reserved: &Reserved, number: u64) -> u64
    ensures { result ≡ held_size (without_number number (reserved.now ∷ [])) }
{
    if reserved.number == number {
        0
    } else {
        reserved.size
    }
}
