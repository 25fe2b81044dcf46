//! `PlainTable`: the pairs of a cache in an index map, in the order of their use. It has the clauses of
//! the cache's own table, by another way:
//! a pair that is moved to the end, or out, moves those behind it.
ghost use Rattle.std.specs.Prelude.{◌≡◌, ◌-◌, ◌<◌, [], ◌∷◌, ◌++◌, length, drop, slice_get, is_some, IfNone};
ghost use Rattle.std.specs.Prelude.{IfOk, IfErr, OnOk, OnErr};
ghost use Rattle.std.specs.List.{IsDistinct};
ghost use Rattle.std.specs.Map.{lookup, lookup_key, remove_entry, keys_of, values_of};
ghost use Rattle.std.specs.Map.Iter.{deref_pair};
ghost use Rattle.std.specs.Option.{option_map};
ghost use Rattle.indexmap.specs.IndexMap.{spare};
ghost use Rattle.lru_metered.specs.Metered.{promoted, set_at};

use indexmap::IndexMap;
use std::alloc::Global;
use std::hash::{BuildHasher, Hash};
use std::marker::Model;
use std::mem;

// Moves the key's pair to the end, and gives its place there.
fn promote<K: Eq + Hash, V, S: BuildHasher>(map: &mut IndexMap<K, V, S>, key: &K) -> Option<usize>
    ensures pairs { map.new.entries ≡ promoted (K.eq key.now) map.old.entries }
    ensures found { is_some result ≡ is_some (lookup (K.eq key.now) map.old.entries) }
{
    let place = map.get_index_of(key)?;
    let last = map.len() - 1;
    map.move_index(place, last);
    Some(last)
}

// Takes out the key's pair, appends the new one, and gives the old value. There is room for one more.
fn put_last<K: Eq + Hash + Drop, V: Drop, S: BuildHasher>(
    map: &mut IndexMap<K, V, S>,
    key: K,
    value: V,
) -> Option<V>
    requires { 0 < spare map.old }
    ensures pairs { map.new.entries ≡ remove_entry (K.eq key) map.old.entries ++ (key, value) ∷ [] }
    ensures old { result ≡ lookup (K.eq key) map.old.entries }
{
    let old = map.shift_remove(&key);
    map.insert(key, value).unwrap();
    old
}

/// The pairs of a cache, least recent first. No two keys are equal.
#[derive(Drop)]
pub struct PlainTable<K: Eq + Hash, V, S: BuildHasher> {
    map: IndexMap<K, V, S>,
}

impl<K: Eq + Hash, V, S: BuildHasher> Model for PlainTable<K, V, S> {
    ghost use Rattle.std.specs.Prelude.{List};

    ghost Value = { List (K × V) };

    ghost view = { λ t. t.map.entries };
}

impl<K: Eq + Hash, V, S: BuildHasher> PlainTable<K, V, S> {
    pub fn new(alloc: Global, hash_builder: S) -> Self
        ensures { result ≡ [] }
    {
        PlainTable {
            map: IndexMap::with_hasher(alloc, hash_builder),
        }
    }

    pub fn len(&self) -> usize
        ensures len { result ≡ length self.now }
        ensures distinct { IsDistinct K.eq (keys_of self.now) }
    {
        self.map.len()
    }

    pub fn contains_key(&self, key: &K) -> bool
        ensures { result ≡ is_some (lookup (K.eq key.now) self.now) }
    {
        self.map.contains_key(key)
    }

    /// The key's pair, as it is kept.
    pub fn get_pair(&self, key: &K) -> Option<(&K, &V)>
        ensures key { option_map (λ p. p.0.now) result ≡ lookup_key (K.eq key.now) self.now }
        ensures value { option_map (λ p. p.1.now) result ≡ lookup (K.eq key.now) self.now }
    {
        self.map.get_key_value(key)
    }

    /// Moves the key's pair to the end, and tells whether there is one.
    pub fn promote(&mut self, key: &K) -> bool
        ensures pairs { self.new ≡ promoted (K.eq key.now) self.old }
        ensures found { result ≡ is_some (lookup (K.eq key.now) self.old) }
    {
        promote(&mut self.map, key).is_some()
    }

    /// The value of the last pair.
    pub fn latest(&self) -> &V
        requires { 0 < length self.now }
        ensures { slice_get (values_of self.now) (length self.now - 1) ≡ Some result.now }
    {
        &self.map[self.map.len() - 1]
    }

    /// Takes out the key's pair, appends the new one, and gives the old value.
    ///
    /// Where there is no memory the table is as it was, and the pair is handed back.
    pub fn put_last(&mut self, key: K, value: V) -> Result<Option<V>, (K, V)>
    where
        K: Drop,
        V: Drop,
        ensures pairs { OnOk result (self.new ≡ remove_entry (K.eq key) self.old ++ (key, value) ∷ []) }
        ensures old { IfOk result (λ old. old ≡ lookup (K.eq key) self.old) }
        ensures handed_back { IfErr result (λ p. p ≡ (key, value)) }
        ensures err { OnErr result (self.new ≡ self.old) }
    {
        if self.map.reserve(1).is_err() {
            return Err((key, value));
        }
        Ok(put_last(&mut self.map, key, value))
    }

    /// Gives the pair at a place the value, and the old value back.
    pub fn put_at(&mut self, place: usize, value: V) -> V
        requires { place < length self.old }
        ensures pairs { self.new ≡ set_at self.old place value }
        ensures old { slice_get (values_of self.old) place ≡ Some result }
    {
        mem::replace(&mut self.map[place], value)
    }

    /// Takes out the key's pair.
    pub fn remove(&mut self, key: &K) -> Option<(K, V)>
    where
        K: Drop,
        ensures key { option_map (λ p. p.0) result ≡ lookup_key (K.eq key.now) self.old }
        ensures value { option_map (λ p. p.1) result ≡ lookup (K.eq key.now) self.old }
        ensures others { self.new ≡ remove_entry (K.eq key.now) self.old }
        ensures absent { IfNone result (self.new ≡ self.old) }
    {
        self.map.shift_remove_entry(key)
    }

    /// Takes out the first pair.
    pub fn pop_first(&mut self) -> Option<(K, V)>
        ensures pair { result ≡ slice_get self.old 0 }
        ensures rest { self.new ≡ drop 1 self.old }
    {
        self.map.shift_remove_index(0)
    }

    /// Takes out all pairs.
    pub fn clear(&mut self)
    where
        K: Drop,
        V: Drop,
        ensures { self.new ≡ [] }
    {
        self.map.clear();
    }

    /// The pair at a place. Place 0 is the least recent.
    pub fn pair_at(&self, place: usize) -> Option<(&K, &V)>
        ensures { option_map deref_pair result ≡ slice_get self.now place }
    {
        self.map.get_index(place)
    }
}
