//! The list of a disk cache: a cache of sizes, measured by these.
ghost use Rattle.std.specs.Prelude.{◌≡◌, ℕ, List, ◌+◌, ◌≤◌, [], ◌∷◌, ◌++◌, drop, length, slice_get, is_some};
ghost use Rattle.std.specs.Prelude.{IfOk, IfSome, OnOk, OnErr, OnSome, IsSome, Some, None};
ghost use Rattle.std.specs.Map.Iter.{ShowsInOrder, deref_pair};
ghost use Rattle.std.specs.List.{IsDistinct};
ghost use Rattle.std.specs.Map.{keys_of, lookup, remove_entry};
ghost use Rattle.std.specs.Str.{bytes_eq};
ghost use Rattle.listed_files.specs.Arriving.{awaited};
ghost use Rattle.listed_files.specs.Disk.{without_key};
ghost use Rattle.listed_files.specs.Entries.{total, promoted_key, IsTable};

use dist_types::text::Text;
use lru_metered::{CountableMeterWithMeasure, DefaultHasher, Iter, LruCache, Memory, Meter};
use std::alloc::{AllocError, Global};
use std::marker::Model;

/// A number of bytes, which a meter counts.
#[derive(Clone, Copy, Debug, Default)]
pub struct Size {
    bytes: u64,
}

/// Measures an entry by its size.
#[derive(Clone, Copy, Debug)]
pub struct Sizes;

impl Meter<Text, u64> for Sizes {
    type Measure = Size;

    ghost measured = { λ _ _ size. record { bytes = size } };

    fn measure(&self, _key: &Text, size: &u64) -> Size {
        Size { bytes: *size }
    }
}

/// A measure of its own, and not a `u64`: the drop of a table gets a proof so where a bound asks for it.
impl CountableMeterWithMeasure<Text, u64, Size> for Sizes {
    ghost use Rattle.std.specs.Prelude.{true};

    ghost meter_number = { λ _ size. size.bytes };

    ghost meter_gives_size = { λ _. true };

    ghost meter_default_is_zero = { λ _ _ zero. zero };

    fn meter_add(&self, current: Size, amount: Size) -> Option<Size> {
        let bytes = current.bytes.checked_add(amount.bytes)?;
        Some(Size { bytes })
    }

    fn meter_sub(&self, current: Size, amount: Size) -> Size {
        Size {
            bytes: current.bytes - amount.bytes,
        }
    }

    fn meter_size(&self, current: Size) -> Option<u64> {
        Some(current.bytes)
    }
}

/// Keys with sizes, least recent first, within a capacity.
#[derive(Drop)]
pub struct Table {
    list: LruCache<Text, u64, DefaultHasher, Sizes>,
}

impl Model for Table {
    ghost use Rattle.listed_files.specs.Entries.{Listed};

    ghost Value = { Listed };

    ghost view = { λ t. record { capacity = t.list.capacity; entries = t.list.pairs } };
}

impl Table {
    /// No key, and that capacity.
    pub fn new(alloc: Global, capacity: u64) -> Result<Self, Memory>
        ensures { IfOk result (λ t. t ≡ record { capacity = capacity; entries = [] }) }
    {
        let list = LruCache::with_meter(alloc, capacity, Sizes)?;
        Ok(Table { list })
    }

    /// The sum of the sizes.
    pub fn size(&self) -> u64
        ensures size { result ≡ total self.now.entries }
        ensures valid { IsTable self.now }
    {
        let _len = self.list.len();
        self.list.size()
    }

    /// The keys with their sizes, least recent first.
    pub fn iter(&self) -> Iter<'_, Text, u64>
        ensures rest { result ≡ self.now.entries }
        ensures runs { ShowsInOrder (deref_pair {K = List ℕ} {X = ℕ}) }
    {
        self.list.iter()
    }

    /// The most that it holds.
    pub fn capacity(&self) -> u64
        ensures { result ≡ self.now.capacity }
    {
        self.list.capacity()
    }

    /// How many keys are listed.
    pub fn len(&self) -> usize
        ensures len { result ≡ length self.now.entries }
        ensures distinct { IsDistinct bytes_eq (keys_of self.now.entries) }
    {
        self.list.len()
    }

    /// Whether the key is listed. It walks the list and takes no memory.
    pub fn has(&self, key: &str) -> bool
        ensures { result ≡ is_some (lookup (bytes_eq key.now) self.now.entries) }
    {
        for (listed, _size) in self.list.iter() {
            if key == listed.get() {
                return true;
            }
        }
        false
    }

    /// Whether the key is listed.
    pub fn contains(&self, key: &Text) -> bool
        ensures { result ≡ is_some (lookup (bytes_eq key.now) self.now.entries) }
    {
        self.list.contains_key(key)
    }

    /// The key becomes the most recent.
    pub fn promote(&mut self, key: &Text)
        ensures { self.new ≡ record self.old { entries = promoted_key key.now self.old.entries } }
    {
        let _size = self.list.get(key);
    }

    /// The key is not listed.
    pub fn unlist(&mut self, key: &Text)
        ensures entries { self.new ≡ record self.old {
          entries = remove_entry
              (bytes_eq key.now) self.old.entries;
        } }
        ensures absent { lookup (bytes_eq key.now) self.new.entries ≡ None }
    {
        let _len = self.list.len();
        let _size = self.list.remove(key);
    }

    /// Takes out the least recent key.
    pub fn take_first(&mut self) -> Option<(Text, u64)>
        ensures pair { result ≡ slice_get self.old.entries 0 }
        ensures rest { self.new ≡ record self.old { entries = drop 1 self.old.entries } }
    {
        self.list.remove_lru()
    }

    /// The sum of the sizes beside that of a key.
    pub fn size_beside(&self, key: &Text) -> u64
        ensures { result ≡ total (without_key key.now self.now.entries) }
    {
        let size = self.list.size();
        match self.list.peek(key) {
            Some(own) => size - *own,
            None => size,
        }
    }

    /// The key is listed as the most recent, with no size yet. Where there is no memory nothing changes.
    pub fn await_key(&mut self, key: Text) -> Result<(), Memory>
        ensures ok { OnOk result (self.new ≡ record self.old { entries = awaited key self.old.entries }) }
        ensures err { OnErr result (self.new ≡ self.old) }
        ensures absent { lookup (bytes_eq key) (without_key key self.old.entries) ≡ None }
        ensures distinct { IsDistinct bytes_eq (keys_of self.old.entries) }
    {
        let _len = self.list.len();
        let Ok(_) = self.list.insert(key, 0) else {
            return Err(Memory);
        };
        Ok(())
    }

    /// The key, which is listed, has this size, as the most recent. It fits. It takes no memory.
    pub fn arrive(&mut self, key: Text, size: u64)
        requires listed { IsSome (lookup (bytes_eq key) self.old.entries) }
        requires room { total (without_key key self.old.entries) + size ≤ self.old.capacity }
        ensures { self.new ≡ record self.old { entries = without_key key self.old.entries ++ (key, size) ∷ [] } }
    {
        let _capacity = self.list.capacity();
        let _answer = self.list.insert(key, size);
    }

    /// The key, which is not listed, is so as the most recent. It fits.
    pub fn push(&mut self, key: Text, size: u64) -> Result<(), Memory>
        requires absent { lookup (bytes_eq key) self.old.entries ≡ None }
        requires room { total self.old.entries + size ≤ self.old.capacity }
        ensures ok { OnOk result
            (self.new ≡ record self.old { entries = self.old.entries ++ (key, size) ∷ [] }) }
        ensures err { OnErr result (self.new ≡ self.old) }
    {
        let Ok(_) = self.list.insert(key, size) else {
            return Err(Memory);
        };
        Ok(())
    }
}
