//! `Table`: the pairs of a cache, each found by its key, least recent first.
ghost use Rattle.std.specs.Prelude.{◌≡◌, ◌-◌, ◌<◌, [], ◌∷◌, ◌++◌, None, length, drop, slice_get, is_some};
ghost use Rattle.std.specs.Prelude.{IfNone, IfSome, IfOk, IfErr, OnOk, OnErr};
ghost use Rattle.std.specs.Borrow.{sem};
ghost use Rattle.std.specs.List.{IsDistinct};
ghost use Rattle.std.specs.Map.{lookup, lookup_key, remove_entry, keys_of, values_of};
ghost use Rattle.std.specs.Map.Iter.{ShowsInOrder, ShowsInReverse, GivesInOrder, GivesInReverse, deref_pair};
ghost use Rattle.std.specs.Option.{option_map};
ghost use Rattle.lru_metered.specs.Index.{hash_of, Relinks, IsIndexed};
ghost use Rattle.lru_metered.specs.Metered.{promoted, set_at};

use crate::chain::Chain;
use crate::fault::Memory;
use crate::index::{Entry, bucket_of, find, rehash, unhook};
use crate::iter::{IntoIter, Iter};
use crate::listing::{push, renew, take_out};
use crate::uncounted::promote;
use std::alloc::{AllocError, Global};
use std::hash::{BuildHasher, Hash};
use std::marker::Model;
use std::mem;

// The number of buckets of the first entry.
const FEWEST_BUCKETS: usize = 8;

// Doubles the buckets where there are no more of them than entries.
fn widen<K: Hash, V, S: BuildHasher>(
    nodes: &mut Chain<Entry<K, V>>,
    heads: &mut Vec<Option<usize>>,
    hasher: &S,
) -> Result<(), AllocError>
    requires { IsIndexed (λ k. hash_of S.BuildHasher S.Hasher.Hasher hasher.now (K.hash_input k))
        nodes.old.items heads.old.items }
    ensures indexed { IsIndexed (λ k. hash_of S.BuildHasher S.Hasher.Hasher hasher.now (K.hash_input k))
        nodes.new.items heads.new.items }
    ensures relinks { Relinks nodes.old nodes.new }
    ensures room { OnOk result (0 < length heads.new.items) }
{
    if nodes.len() < heads.len() {
        return Ok(());
    }
    let wider = heads.len().saturating_mul(2).max(FEWEST_BUCKETS);
    *heads = rehash(nodes, hasher, *heads.allocator(), wider)?;
    Ok(())
}

/// The pairs of a cache, least recent first. No two keys are equal.
///
/// They stand in a slab, and a chain of its keys is their order. Each bucket lists the entries of the
/// hashes that fall into it.
#[derive(Drop)]
pub struct Table<K: Eq + Hash, V, S: BuildHasher> {
    nodes: Chain<Entry<K, V>>,
    heads: Vec<Option<usize>>,
    hasher: S,
}

impl<K: Eq + Hash, V, S: BuildHasher> Model for Table<K, V, S> {
    ghost use Rattle.std.specs.Prelude.{List};
    ghost use Rattle.lru_metered.specs.Index.{hash_of};
    ghost use Rattle.lru_metered.specs.Listing.{pairs_of, IsTable};

    ghost Value = { List (K × V) };

    ghost view = { λ t. pairs_of t.nodes };

    ghost invariant = { λ t.
        IsTable K.eq (λ k. hash_of S.BuildHasher S.Hasher.Hasher t.hasher (K.hash_input k)) t.nodes
        t.heads.items };
}

impl<K: Eq + Hash, V, S: BuildHasher> Table<K, V, S> {
    ghost use Rattle.lru_metered.specs.Lends.{lends_latest};

    pub(crate) fn new(alloc: Global, hasher: S) -> Self
        ensures { result ≡ [] }
    {
        Table {
            nodes: Chain::new(alloc),
            heads: Vec::new(alloc),
            hasher,
        }
    }

    pub(crate) fn len(&self) -> usize
        ensures len { result ≡ length self.now }
        ensures distinct { IsDistinct K.eq (keys_of self.now) }
    {
        self.nodes.len()
    }

    pub(crate) fn contains_key(&self, key: &K) -> bool
        ensures { result ≡ is_some (lookup (K.eq key.now) self.now) }
    {
        find(&self.nodes, self.heads.as_slice(), &self.hasher, key).is_some()
    }

    /// The key's pair, as it is kept.
    pub(crate) fn get_pair(&self, key: &K) -> Option<(&K, &V)>
        ensures key { option_map (λ p. p.0.now) result ≡ lookup_key (K.eq key.now) self.now }
        ensures value { option_map (λ p. p.1.now) result ≡ lookup (K.eq key.now) self.now }
    {
        let found = find(&self.nodes, self.heads.as_slice(), &self.hasher, key)?;
        let entry = self.nodes.item(found.at);
        Some((&entry.key, &entry.value))
    }

    /// Moves the key's pair to the end, and tells whether there is one.
    pub(crate) fn promote(&mut self, key: &K) -> bool
        ensures pairs { self.new ≡ promoted (K.eq key.now) self.old }
        ensures found { result ≡ is_some (lookup (K.eq key.now) self.old) }
    {
        let Some(found) = find(&self.nodes, self.heads.as_slice(), &self.hasher, key) else {
            return false;
        };
        promote(&mut self.nodes, found.at);
        true
    }

    /// The value of the last pair.
    pub(crate) fn latest(&self) -> &V
        requires { 0 < length self.now }
        ensures { slice_get (values_of self.now) (length self.now - 1) ≡ Some result.now }
    {
        let at = self.nodes.last().unwrap();
        &self.nodes.item(at).value
    }

    /// The value of the last pair, to write.
    pub(crate) fn latest_mut(&mut self) -> &mut V
        requires { 0 < length self.old }
        ensures* writes_back { sem 𝓛 (lends_latest K.row V.row S.row S.Hasher.row K.Hash S.BuildHasher
            S.Hasher.Hasher self.entry result) }
        ensures value { slice_get (values_of self.old) (length self.old - 1) ≡ Some result.now }
    {
        let at = self.nodes.last().unwrap();
        let entry = self.nodes.item_mut(at);
        &mut entry.value
    }

    // Appends a pair whose key is new.
    fn put_new(&mut self, key: K, value: V) -> Result<Option<V>, (K, V)>
        requires { lookup (K.eq key) self.old ≡ None }
        ensures pairs { OnOk result (self.new ≡ self.old ++ (key, value) ∷ []) }
        ensures old { IfOk result (λ old. old ≡ None) }
        ensures handed_back { IfErr result (λ p. p ≡ (key, value)) }
        ensures err { OnErr result (self.new ≡ self.old) }
    {
        if widen(&mut self.nodes, &mut self.heads, &self.hasher).is_err() {
            return Err((key, value));
        }
        let bucket = bucket_of(&self.hasher, &key, self.heads.len());
        match push(
            &mut self.nodes,
            self.heads.as_mut_slice(),
            bucket,
            key,
            value,
        ) {
            Ok(()) => Ok(None),
            Err(pair) => Err(pair),
        }
    }

    /// Takes out the key's pair, appends the new one, and gives the old value.
    ///
    /// Where there is no memory the table is as it was, and the pair is handed back.
    pub(crate) fn put_last(&mut self, key: K, value: V) -> Result<Option<V>, (K, V)>
    where
        K: Drop,
        V: Drop,
        ensures pairs { OnOk result (self.new ≡ remove_entry (K.eq key) self.old ++ (key, value) ∷ []) }
        ensures old { IfOk result (λ old. old ≡ lookup (K.eq key) self.old) }
        ensures handed_back { IfErr result (λ p. p ≡ (key, value)) }
        ensures err { OnErr result (self.new ≡ self.old) }
        ensures absent { OnErr result (lookup (K.eq key) self.old ≡ None) }
    {
        let Some(found) = find(&self.nodes, self.heads.as_slice(), &self.hasher, &key) else {
            return self.put_new(key, value);
        };
        Ok(Some(renew(&mut self.nodes, found.at, key, value)))
    }

    /// Gives the pair at a place the value, and the old value back.
    pub(crate) fn put_at(&mut self, place: usize, value: V) -> V
        requires { place < length self.old }
        ensures pairs { self.new ≡ set_at self.old place value }
        ensures old { slice_get (values_of self.old) place ≡ Some result }
    {
        let at = self.nodes.nth(place).unwrap();
        mem::replace(&mut self.nodes.item_mut(at).value, value)
    }

    /// Takes out the key's pair.
    pub(crate) fn remove(&mut self, key: &K) -> Option<(K, V)>
    where
        K: Drop,
        ensures key { option_map (λ p. p.0) result ≡ lookup_key (K.eq key.now) self.old }
        ensures value { option_map (λ p. p.1) result ≡ lookup (K.eq key.now) self.old }
        ensures others { self.new ≡ remove_entry (K.eq key.now) self.old }
        ensures absent { IfNone result (self.new ≡ self.old) }
    {
        let found = find(&self.nodes, self.heads.as_slice(), &self.hasher, key)?;
        unhook(&mut self.nodes, self.heads.as_mut_slice(), found);
        Some(take_out(&mut self.nodes, found.at))
    }

    /// Takes out the first pair.
    pub(crate) fn pop_first(&mut self) -> Option<(K, V)>
        ensures pair { result ≡ slice_get self.old 0 }
        ensures rest { self.new ≡ drop 1 self.old }
    {
        let at = self.nodes.first()?;
        let key = &self.nodes.item(at).key;
        let found = find(&self.nodes, self.heads.as_slice(), &self.hasher, key).unwrap();
        unhook(&mut self.nodes, self.heads.as_mut_slice(), found);
        Some(take_out(&mut self.nodes, found.at))
    }

    /// The first pair.
    pub(crate) fn first_pair(&self) -> Option<(&K, &V)>
        ensures none { IfNone result (self.now ≡ []) }
        ensures some { IfSome result (λ p. self.now ≡ (p.0.now, p.1.now) ∷ drop 1 self.now) }
    {
        let mut pairs = self.iter();
        pairs.next()
    }

    /// Drops the first pair.
    pub(crate) fn drop_first(&mut self)
    where
        K: Drop,
        V: Drop,
        ensures { self.new ≡ drop 1 self.old }
    {
        let _pair = self.pop_first();
    }

    /// Takes out all pairs.
    pub(crate) fn clear(&mut self)
    where
        K: Drop,
        V: Drop,
        ensures { self.new ≡ [] }
    {
        self.nodes.clear();
        self.heads.clear();
    }

    /// A table with clones of the pairs, in their order.
    pub(crate) fn copy(&self) -> Result<Self, Memory>
    where
        K: Clone,
        V: Clone,
        S: Clone,
        requires keys { (k l : K) → K.is_clone k l → l ≡ k }
        requires values { (v w : V) → V.is_clone v w → w ≡ v }
        ensures { IfOk result (λ copy. copy ≡ self.now) }
    {
        let Ok(hasher) = self.hasher.clone() else {
            return Err(Memory);
        };
        let mut copy = Table::new(*self.heads.allocator(), hasher);
        for (k, v) in self.iter() {
            let Ok(key) = k.clone() else {
                return Err(Memory);
            };
            let Ok(value) = v.clone() else {
                return Err(Memory);
            };
            let Ok(_) = copy.put_new(key, value) else {
                return Err(Memory);
            };
        }
        Ok(copy)
    }

    pub(crate) fn iter(&self) -> Iter<'_, K, V>
        ensures rest { result ≡ self.now }
        ensures runs { ShowsInOrder (deref_pair {K = K} {X = V}) }
        ensures runs_back { ShowsInReverse (deref_pair {K = K} {X = V}) }
    {
        Iter::over(&self.nodes)
    }

    pub(crate) fn into_pairs(self) -> IntoIter<K, V>
    where
        K: Drop,
        V: Drop,
        S: Drop,
        ensures rest { result ≡ self }
        ensures runs { GivesInOrder (K × V) }
        ensures runs_back { GivesInReverse (K × V) }
    {
        let Table {
            nodes,
            heads: _heads,
            hasher: _hasher,
        } = self;
        IntoIter { nodes }
    }
}
