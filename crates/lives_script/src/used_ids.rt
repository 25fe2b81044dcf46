//! The ids of lives, kept in order.
ghost use Rattle.std.specs.Prelude.{◌≡◌, ◌≤◌, List, ℕ, [], ◌++◌, ◌∷◌, OnOk, true, false};
ghost use Rattle.std.specs.List.{list_any};
ghost use Rattle.lives_script.specs.Ids.{Ids, IsIn, meets};
ghost use Rattle.lives_script.specs.Used.{Covers, IsBetween, AreEnds, AreOrdered, IsAdded, Keeps};

use std::alloc::{AllocError, Global};
use std::collections::BTreeMap;

/// The ids of lives, as stretches of numbers that lie apart: the last number of each, by its first.
#[derive(Debug, Drop)]
pub struct UsedIds {
    pub lasts: BTreeMap<u64, u64>,
}

/// The last number of a range, which is at most the greatest one, and where it wraps the last one from 0 on.
fn ends_of(from: u64, count: u64) -> (u64, Option<u64>)
    requires some { 1 ≤ count }
    ensures ends { AreEnds (record { from = from; count = count }) result.0 result.1 }
{
    match from.checked_add(count - 1) {
        Some(last) => (last, None),
        None => (u64::MAX, Some(count - 2 - (u64::MAX - from))),
    }
}

impl UsedIds {
    /// No id.
    pub fn new(alloc: Global) -> Self
        ensures none { Keeps result.lasts [] }
    {
        UsedIds {
            lasts: BTreeMap::new(alloc),
        }
    }

    /// Whether a number from the first to the last one is used.
    fn has_between(&self, first: u64, last: u64) -> bool
        requires some { first ≤ last }
        requires ordered { AreOrdered self.now.lasts }
        ensures some { result ≡ true → (id : ℕ) × IsBetween first last id × Covers self.now.lasts id }
        ensures none { result ≡ false → (id : ℕ) → IsBetween first last id → Covers self.now.lasts id → ⊥ }
    {
        match self.lasts.range(..=last).next_back() {
            Some((_, end)) => *end >= first,
            None => false,
        }
    }

    /// Whether a range of ids, of which there is one at least, meets one of those that are kept.
    pub fn meets(&self, from: u64, count: u64) -> bool
        requires some { 1 ≤ count }
        requires ordered { AreOrdered self.now.lasts }
        ensures exact { (rs : List Ids) → Keeps self.now.lasts rs
            → result ≡ list_any (λ r. meets r (record { from = from; count = count })) rs }
    {
        let (last, wrapped) = ends_of(from, count);
        if self.has_between(from, last) {
            return true;
        }
        match wrapped {
            Some(end) => self.has_between(0, end),
            None => false,
        }
    }

    /// Uses the numbers from the first to the last one.
    fn add_between(&mut self, first: u64, last: u64) -> Result<(), AllocError>
        requires some { first ≤ last }
        requires ordered { AreOrdered self.old.lasts }
        requires free { (id : ℕ) → IsBetween first last id → Covers self.old.lasts id → ⊥ }
        ensures added { OnOk result (IsAdded first last self.old.lasts self.new.lasts) }
    {
        self.lasts.insert(first, last)?;
        Ok(())
    }

    /// Keeps a range of ids more, of which there is one at least, and which meets none of those that are kept.
    pub fn add(&mut self, from: u64, count: u64) -> Result<(), AllocError>
        requires some { 1 ≤ count }
        requires ordered { AreOrdered self.old.lasts }
        requires free { (id : ℕ) → IsIn id (record { from = from; count = count }) → Covers self.old.lasts id → ⊥ }
        ensures kept { OnOk result ((rs : List Ids) → Keeps self.old.lasts rs
            → Keeps self.new.lasts (rs ++ record { from = from; count = count } ∷ [])) }
    {
        let (last, wrapped) = ends_of(from, count);
        self.add_between(from, last)?;
        match wrapped {
            Some(end) => self.add_between(0, end),
            None => Ok(()),
        }
    }
}
