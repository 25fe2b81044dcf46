//! `LookupTable`: values under keys.
ghost use Rattle.std.specs.Prelude.{◌≡◌, ◌≤◌, ◌<◌, ◌+◌, [], None, Some, OnOk};
ghost use Rattle.std.specs.Option.{option_copied};
ghost use Rattle.row_index.specs.Lookup.{value_at, HaveSame, Puts};

use std::alloc::{AllocError, Global};
use std::collections::HashMap;
use std::hash::Hash;
use std::marker::Model;

/// Values under keys. Contracts see the entries, and how many more go in without memory.
#[derive(Drop)]
pub struct LookupTable<K: Eq + Hash + Drop, V: Drop> {
    values: HashMap<K, V>,
}

impl<K: Eq + Hash + Drop, V: Drop> Model for LookupTable<K, V> {
    ghost use Rattle.std.specs.HashMap.{spare};
    ghost use Rattle.row_index.specs.Lookup.{Looked};

    ghost Value = { Looked K V };

    ghost view = { λ t. record { entries = t.values.entries; spare = spare t.values } };
}

impl<K: Eq + Hash + Drop, V: Drop> LookupTable<K, V> {
    /// No value. It takes no memory.
    pub fn new(alloc: Global) -> Self
        ensures { result.entries ≡ [] }
    {
        LookupTable {
            values: HashMap::new(alloc),
        }
    }

    /// The value at a key.
    pub fn get(&self, key: &K) -> Option<&V>
        ensures { option_copied result ≡ value_at K.eq key.now self.now.entries }
    {
        self.values.get(key)
    }

    /// Puts a value at a key, in place of one that is there. It takes no memory.
    pub fn put(&mut self, key: K, value: V)
        requires room { 0 < self.old.spare }
        ensures values { Puts K.eq key (Some value) self.old.entries self.new.entries }
        ensures spare { self.old.spare ≤ self.new.spare + 1 }
    {
        match self.values.insert(key, value) {
            Ok(_) => (),
            Err(_) => unreachable!(),
        }
    }

    /// Takes out the value at a key, if there is one.
    pub fn take_out(&mut self, key: &K)
        ensures values { Puts K.eq key.now None self.old.entries self.new.entries }
        ensures spare { self.old.spare ≤ self.new.spare }
    {
        self.values.remove(key);
    }

    /// Makes room for so many values more. Refused for want of memory alone; each key keeps its value.
    pub fn make_room(&mut self, more: usize) -> Result<(), AllocError>
        ensures values { HaveSame K.eq self.old.entries self.new.entries }
        ensures room { OnOk result (more ≤ self.new.spare) }
        ensures spare { self.old.spare ≤ self.new.spare }
    {
        self.values.reserve(more)
    }
}
