//! The log as it is kept: its length is told, a look at an entry is counted, and the whole is for its history.
ghost use Rattle.std.specs.Prelude.{◌≡◌, ◌≤◌, ◌<◌, ◌+◌, ◌/◌, ◌++◌, ◌∷◌, [], OnOk, Some, length, max, slice_get};

use core_rules::entry::CoreEntry;
use row_index::Steps;
use std::alloc::{AllocError, Global};
use std::marker::Model;
use std::sync::ledger::Ledger;

/// A log that grows gets room for one spare entry beside so many.
const SPARE_PART: usize = 8;

/// The log. Contracts see its entries, how many there are, and for how many there is room.
#[derive(Drop)]
pub struct CoreLog {
    entries: Vec<CoreEntry>,
}

impl Model for CoreLog {
    ghost use Rattle.std.specs.Prelude.{vec_len, vec_capacity};
    ghost use Rattle.sched_core.specs.LogRoom.{LogRoom};

    ghost Value = { LogRoom };

    ghost view = { λ l. record {
      items = l.entries.items;
      len = vec_len l.entries;
      capacity = vec_capacity l.entries;
    } };
}

impl CoreLog {
    /// No entry. It takes no memory.
    pub fn new(alloc: Global) -> Self
        ensures items { result.items ≡ [] }
        ensures len { result.len ≡ 0 }
    {
        CoreLog {
            entries: Vec::new(alloc),
        }
    }

    /// How many entries there are.
    #[inline(always)]
    pub fn len(&self) -> usize
        ensures { result ≡ length self.now.items }
    {
        self.entries.len()
    }

    /// An entry. What is bounded in looks reads entries by this alone.
    pub fn look<L: Ledger>(&self, at: usize, steps: &mut Steps<L>) -> &CoreEntry
        requires { at < length self.now.items }
        ensures entry { slice_get self.now.items at ≡ Some result.now }
        ensures counted { steps.new ≡ steps.old + 1 }
    {
        steps.tick();
        &self.entries[at]
    }

    /// All entries, oldest first. Only `history` reads them.
    pub fn whole(&self) -> &[CoreEntry]
        ensures { result.now ≡ self.now.items }
    {
        self.entries.as_slice()
    }

    /// Makes room for so many entries more. A log without it grows by what is needed and an eighth of its
    /// entries, or where memory is short by what is needed alone. Refused for want of memory alone; the
    /// entries stay.
    pub fn make_room(&mut self, needed: usize) -> Result<(), AllocError>
        ensures items { self.new.items ≡ self.old.items }
        ensures len { self.new.len ≡ self.old.len }
        ensures room { OnOk result (self.new.len + needed ≤ self.new.capacity) }
        ensures capacity { self.old.capacity ≤ self.new.capacity }
        ensures grown { self.new.capacity ≤
            max self.old.capacity (self.old.len + needed + self.old.len / SPARE_PART) }
    {
        if needed <= self.entries.capacity() - self.entries.len() {
            return Ok(());
        }
        let spare = self.entries.len() / SPARE_PART;
        match self.entries.reserve_exact(needed.saturating_add(spare)) {
            Ok(()) => Ok(()),
            Err(_) => self.entries.reserve_exact(needed),
        }
    }

    /// Adds an entry where there is room for it. It takes no memory.
    #[inline(always)]
    pub fn push(&mut self, entry: CoreEntry)
        requires { self.old.len < self.old.capacity }
        ensures items { self.new.items ≡ self.old.items ++ entry ∷ [] }
        ensures len { self.new.len ≡ self.old.len + 1 }
        ensures capacity { self.old.capacity ≤ self.new.capacity }
    {
        match self.entries.push(entry) {
            Ok(()) => (),
            Err(_) => unreachable!(),
        }
    }
}
