//! The entries of a table, and the buckets by which their keys are found. A bucket is a list of
//! entries, each of which names the next.
ghost use Rattle.std.specs.Prelude.{◌≡◌, ℕ, ◌<◌, ◌≤◌, List, Option, Some, None, length, slice_index_or};
ghost use Rattle.std.specs.Prelude.{IfSome, IfNone, IfOk, OnOk, OnErr, MatchOption, Contains, IsSome};
ghost use Rattle.std.specs.Prelude.{replicate};
ghost use Rattle.slab.specs.Slab.{get, ContainsKey, slab_len};
ghost use Rattle.lru_metered.specs.Index.{hash_of, bucket_in, pairs_at, nexts, Matches, Relinks, Lists};
ghost use Rattle.lru_metered.specs.Index.{IsBucketed, IsIndexed, homes, placed, below, Leads};

use crate::chain::Chain;
use std::alloc::{AllocError, Global};
use std::hash::{BuildHasher, Hash};
use std::mem;

/// A pair, and the key in the slab of the next entry of its bucket.
#[derive(Drop)]
pub struct Entry<K, V> {
    pub(crate) key: K,
    pub(crate) value: V,
    pub(crate) next: Option<usize>,
}

/// Where an entry stands in its bucket: behind another, or first.
#[derive(Clone, Copy)]
pub struct Found {
    pub(crate) bucket: usize,
    pub(crate) previous: Option<usize>,
    pub(crate) at: usize,
}

/// The bucket of a key, of so many.
pub(crate) fn bucket_of<K: Hash, S: BuildHasher>(hasher: &S, key: &K, buckets: usize) -> usize
    requires { 0 < buckets }
    ensures place { result ≡ bucket_in buckets (hash_of S.BuildHasher S.Hasher.Hasher hasher.now
        (K.hash_input key.now)) }
    ensures within { result < buckets }
{
    hasher.hash_one(key) as usize & (buckets - 1)
}

// The first entry of a bucket whose key is equal, and what leads to it.
fn search<K: Eq, V>(
    nodes: &Chain<Entry<K, V>>,
    heads: &[Option<usize>],
    bucket: usize,
    key: &K,
) -> Option<Found>
    requires within { bucket < length heads.now }
    requires lists { (list : List ℕ) × Lists (nexts nodes.now.items) (slice_index_or heads.now bucket None)
        list }
    ensures bucket { IfSome result (λ f. f.bucket ≡ bucket) }
    ensures leads { IfSome result (λ f. Leads (nexts nodes.now.items) (slice_index_or heads.now bucket None)
        f.previous (Some f.at)) }
    ensures matches { IfSome result (λ f. Matches (K.eq key.now) (pairs_at nodes.now.items) f.at) }
    ensures absent { IfNone result ((list : List ℕ) (x : ℕ) → Lists (nexts nodes.now.items) (slice_index_or
        heads.now bucket None) list → Contains list x → ¬ (Matches (K.eq key.now) (pairs_at nodes.now.items)
        x)) }
{
    let mut previous = None;
    let mut current = heads[bucket];
    while let Some(at) = current {
        let entry = nodes.item(at);
        if *key == entry.key {
            return Some(Found {
                bucket,
                previous,
                at,
            });
        }
        previous = current;
        current = entry.next;
    }
    None
}

/// The entry of a key.
pub(crate) fn find<K: Eq + Hash, V, S: BuildHasher>(
    nodes: &Chain<Entry<K, V>>,
    heads: &[Option<usize>],
    hasher: &S,
    key: &K,
) -> Option<Found>
    requires { IsIndexed (λ k. hash_of S.BuildHasher S.Hasher.Hasher hasher.now (K.hash_input k))
        nodes.now.items heads.now }
    ensures within { IfSome result (λ f. f.bucket < length heads.now) }
    ensures bucket { IfSome result (λ f. f.bucket ≡ bucket_in (length heads.now) (hash_of S.BuildHasher
        S.Hasher.Hasher hasher.now (K.hash_input key.now))) }
    ensures leads { IfSome result (λ f. Leads (nexts nodes.now.items) (slice_index_or heads.now f.bucket
        None) f.previous (Some f.at)) }
    ensures matches { IfSome result (λ f. Matches (K.eq key.now) (pairs_at nodes.now.items) f.at) }
    ensures absent { IfNone result ((x : ℕ) → ¬ (Matches (K.eq key.now) (pairs_at nodes.now.items) x)) }
{
    if heads.is_empty() {
        return None;
    }
    search(nodes, heads, bucket_of(hasher, key, heads.len()), key)
}

/// Puts an entry at the front of a bucket. It was in none.
pub(crate) fn hook<K, V>(
    nodes: &mut Chain<Entry<K, V>>,
    heads: &mut [Option<usize>],
    bucket: usize,
    at: usize,
)
    requires within { bucket < length heads.old }
    requires held { ContainsKey nodes.old.items at }
    ensures relinks { Relinks nodes.old nodes.new }
    ensures len { length heads.new ≡ length heads.old }
    ensures bucketed { (home : ℕ → Option ℕ) → IsBucketed (nexts nodes.old.items) home heads.old → home at ≡
        None → IsBucketed (nexts nodes.new.items) (placed at (Some bucket) home) heads.new }
{
    let next = mem::replace(&mut heads[bucket], Some(at));
    nodes.item_mut(at).next = next;
}

/// Takes an entry out of its bucket. It stays in the slab.
pub(crate) fn unhook<K, V>(
    nodes: &mut Chain<Entry<K, V>>,
    heads: &mut [Option<usize>],
    found: Found,
)
    requires within { found.bucket < length heads.old }
    requires held { ContainsKey nodes.old.items found.at }
    requires lists { (list : List ℕ) × Lists (nexts nodes.old.items) (slice_index_or heads.old found.bucket
        None) list }
    requires leads { Leads (nexts nodes.old.items) (slice_index_or heads.old found.bucket None)
        found.previous (Some found.at) }
    ensures relinks { Relinks nodes.old nodes.new }
    ensures len { length heads.new ≡ length heads.old }
    ensures bucketed { (home : ℕ → Option ℕ) → IsBucketed (nexts nodes.old.items) home heads.old → home
        found.at ≡ Some found.bucket → IsBucketed (nexts nodes.new.items) (placed found.at None home)
        heads.new }
{
    let next = nodes.item(found.at).next;
    match found.previous {
        Some(previous) => nodes.item_mut(previous).next = next,
        None => heads[found.bucket] = next,
    }
}

// Puts the entry of a key into the bucket of its hash, if there is an entry.
fn hook_at<K: Hash, V, S: BuildHasher>(
    nodes: &mut Chain<Entry<K, V>>,
    heads: &mut [Option<usize>],
    hasher: &S,
    at: usize,
)
    requires { 0 < length heads.old }
    ensures relinks { Relinks nodes.old nodes.new }
    ensures len { length heads.new ≡ length heads.old }
    ensures bucketed { (home : ℕ → Option ℕ) → IsBucketed (nexts nodes.old.items) home heads.old → home at ≡
        None → IsBucketed (nexts nodes.new.items) (placed at (homes (λ k. bucket_in (length heads.old)
        (hash_of S.BuildHasher S.Hasher.Hasher hasher.now (K.hash_input k))) (pairs_at nodes.old.items) at)
        home) heads.new }
{
    let Some(entry) = nodes.get(at) else {
        return;
    };
    let bucket = bucket_of(hasher, &entry.key, heads.len());
    hook(nodes, heads, bucket, at);
}

// The first entries of so many empty buckets.
fn no_heads(alloc: Global, buckets: usize) -> Result<Vec<Option<usize>>, AllocError>
    ensures items { IfOk result (λ heads. heads.items ≡ replicate buckets None) }
{
    let mut heads = Vec::new(alloc);
    heads.resize(buckets, None)?;
    Ok(heads)
}

/// So many buckets that list the entries. Where there is no memory nothing changes.
pub(crate) fn rehash<K: Hash, V, S: BuildHasher>(
    nodes: &mut Chain<Entry<K, V>>,
    hasher: &S,
    alloc: Global,
    buckets: usize,
) -> Result<Vec<Option<usize>>, AllocError>
    requires { 0 < buckets }
    ensures len { IfOk result (λ heads. length heads.items ≡ buckets) }
    ensures relinks { OnOk result (Relinks nodes.old nodes.new) }
    ensures indexed { IfOk result (λ heads. IsIndexed (λ k. hash_of S.BuildHasher S.Hasher.Hasher hasher.now
        (K.hash_input k)) nodes.new.items heads.items) }
    ensures err { OnErr result (nodes.new ≡ nodes.old) }
{
    let mut heads = no_heads(alloc, buckets)?;
    for at in 0..nodes.key_bound() {
        hook_at(nodes, heads.as_mut_slice(), hasher, at);
    }
    Ok(heads)
}
