//! The registrations that stand: their rows by rising number, found by number, and the first of them by
//! load, error and last sign. Contracts see the rows as a list.
ghost use Rattle.std.specs.Prelude.{◌≡◌, ◌≤◌, ◌<◌, ◌+◌, ◌*◌, ◌^◌, ◌==◌, ℕ, [], ◌∷◌, ◌++◌, IfOk, OnOk, true};
ghost use Rattle.std.specs.Prelude.{◌-◌, Some, length, map, filter, find, not, max, min, sum_by};
ghost use Rattle.row_index.specs.Slots.{rows_in, top};
ghost use Rattle.core_rules.specs.Pick.{pick, forgiven};
ghost use Rattle.core_rules.specs.Prune.{prune, left, at_address};
ghost use Rattle.sched_core.specs.Changes.{row_changed_at};
ghost use Rattle.sched_core.specs.Registrations.{no_rows, trees_of, AreSoundRows};

use crate::change::{Change, changed};
use crate::rows::Servers;
use crate::{addresses, places, processors};
use core_rules::rows::ServerRow;
use core_rules::rules::ERROR_TIMEOUT;
use core_rules::standing::HEARTBEAT_TIMEOUT;
use dist_types::ids::ServerId;
use row_index::{LoadKey, LookupTable, MomentKey, Numbered, Ranked, Ranks, Steps};
use std::alloc::{AllocError, Global};
use std::marker::{Brand, Model};
use std::sync::ledger::{Blank, Ledger};

/// The registrations that stand. Contracts see their rows by rising number, how many places they stand in,
/// the least number above all that were put there, and whether a place is left.
#[derive(Drop)]
pub struct Registrations {
    ranks: Ranks<ServerRow>,
    addresses: LookupTable<ServerId, u64>,
    cpus: u128,
}

impl Model for Registrations {
    ghost use Rattle.std.specs.Prelude.{◌+◌, ◌≤◌, length, nat_lt};
    ghost use Rattle.row_index.specs.Slots.{rows_in, top};
    ghost use Rattle.sched_core.specs.Registrations.{AreIndexed, PlacedRows};

    ghost Value = { PlacedRows };

    ghost view = { λ r. record {
      rows = rows_in r.ranks.places;
      places = record {
        count = length r.ranks.places;
        top = top r.ranks.numbers;
        has_left = nat_lt (length r.ranks.numbers) (length r.ranks.places);
      };
    } };

    ghost invariant = { λ r. AreIndexed (rows_in r.ranks.places) r.addresses.entries r.cpus
        × (length r.ranks.places ≤ length r.ranks.numbers + r.addresses.spare) };
}

/// The rows anew in so many places. Refused for want of memory alone.
fn renewed<L: Ledger>(
    alloc: Global,
    ranks: &Ranks<ServerRow>,
    places: usize,
    blank: Blank,
) -> Result<Ranks<ServerRow>, AllocError>
    requires name { blank.name ≡ L.name }
    requires parts { blank.parts ≡ L.parts }
    requires some { 0 < blank.parts }
    requires more { length (rows_in ranks.now.places) < places }
    ensures rows { IfOk result (λ r. rows_in r.places ≡ rows_in ranks.now.places) }
    ensures len { IfOk result (λ r. length r.places ≡ places) }
    ensures room { IfOk result (λ r. length r.numbers < length r.places) }
    ensures top { IfOk result (λ r. top r.numbers ≤ top ranks.now.numbers) }
{
    let mut steps = Steps::<L>::new(blank);
    ranks.renewed(alloc, places, &mut steps)
}

/// As many places as there are, where at most half of them are taken, else twice as many as there are rows.
fn places_for(rows: usize, places: usize) -> Result<usize, AllocError>
    ensures more { IfOk result (λ n. rows < n) }
    ensures few { IfOk result (λ n. n ≤ max places (2 * max 1 rows)) }
{
    if rows < places / 2 {
        return Ok(places);
    }
    match rows.max(1).checked_mul(2) {
        Some(more) => Ok(more),
        None => Err(AllocError),
    }
}

impl Registrations {
    /// No registration, in no place. It takes no memory.
    pub fn new(alloc: Global) -> Self
        ensures { result ≡ no_rows }
    {
        Registrations {
            ranks: Ranks::new(alloc),
            addresses: LookupTable::new(alloc),
            cpus: 0,
        }
    }

    /// How many registrations stand.
    pub fn len(&self) -> usize
        ensures { result ≡ length self.now.rows }
    {
        self.ranks.count()
    }

    /// The registrations, by rising number.
    pub fn servers(&self) -> Servers<'_>
        ensures rows { result ≡ self.now.rows }
    {
        Servers::new(self.ranks.places())
    }

    /// The registration of that number.
    pub fn row(&self, reg: u64) -> Option<ServerRow>
        ensures { result ≡ find (λ r. r.reg == reg) self.now.rows }
    {
        self.ranks.row(reg)
    }

    /// The registration at an address.
    pub fn at(&self, server: ServerId) -> Option<ServerRow>
        ensures row { result ≡ at_address server self.now.rows }
        ensures sound { AreSoundRows self.now.rows }
    {
        match addresses::number_at(&self.addresses, server) {
            Some(number) => self.ranks.row(number),
            None => None,
        }
    }

    /// The registration at an address, where it is not silent for too long.
    pub fn survivor(&self, now: u64, server: ServerId) -> Option<ServerRow>
        ensures { result ≡ at_address server (left now self.now.rows) }
    {
        let row = self.at(server);
        places::if_heard(row, now)
    }

    /// How many processors are left once those registrations are pruned.
    pub fn cpus_left(&self, pruned: &[u64]) -> u64
        ensures { (now : ℕ) → pruned.now ≡ prune now self.now.rows →
            result ≡ min (2 ^ 64 - 1) (sum_by (λ r. r.cpus) (left now self.now.rows)) }
    {
        processors::sum_without(&self.ranks, self.cpus, pruned)
    }

    /// The registration that the next reservation goes to.
    pub fn pick<L: Ledger>(&self, steps: &mut Steps<L>) -> Option<ServerRow>
        ensures pick { result ≡ pick self.now.rows }
        ensures looks { steps.new ≤ steps.old + 2 }
    {
        match self.ranks.lightest(steps) {
            Some(row) => Some(row),
            None => self.ranks.oldest(steps),
        }
    }

    /// The registrations with room whose errors a reservation forgets. Refused for want of memory alone.
    pub fn forgiven<L: Ledger>(
        &self,
        alloc: Global,
        now: u64,
        steps: &mut Steps<L>,
    ) -> Result<Vec<u64>, AllocError>
        ensures forgiven { IfOk result (λ v. v.items ≡ forgiven now self.now.rows) }
        ensures looks { (h : ℕ) → self.now.places.count ≤ 2 ^ h →
            steps.new ≤ steps.old + (2 * h * length (forgiven now self.now.rows) + 1) }
    {
        let bound = MomentKey {
            moment: now.saturating_sub(ERROR_TIMEOUT),
            number: 0,
        };
        self.ranks.errors_before(alloc, &bound, steps)
    }

    /// The registrations that are silent for too long. Refused for want of memory alone.
    pub fn pruned<L: Ledger>(
        &self,
        alloc: Global,
        now: u64,
        steps: &mut Steps<L>,
    ) -> Result<Vec<u64>, AllocError>
        ensures { IfOk result (λ v. v.items ≡ prune now self.now.rows) }
    {
        let bound = MomentKey {
            moment: now.saturating_sub(HEARTBEAT_TIMEOUT),
            number: 0,
        };
        self.ranks.signs_before(alloc, &bound, steps)
    }

    /// Changes the registration of that number. Nothing changes where there is none.
    #[inline(always)]
    pub fn change<L: Ledger>(&mut self, reg: u64, change: Change, steps: &mut Steps<L>)
        ensures rows { self.new.rows ≡ map (row_changed_at change reg) self.old.rows }
        ensures places { self.new.places ≡ self.old.places }
        ensures looks { (h : ℕ) → self.old.places.count ≤ 2 ^ h →
            steps.new ≤ steps.old + trees_of change * (2 * h + 1) }
    {
        match self.ranks.place_of(reg) {
            Some(place) => {
                let row = self.ranks.at(place);
                let new = changed(row, change);
                self.ranks.put_at(place, &row, new, steps);
            }
            None => (),
        }
    }

    /// Ends the registration of that number. Nothing changes where there is none.
    pub fn end<L: Ledger>(&mut self, reg: u64, steps: &mut Steps<L>)
        ensures rows { self.new.rows ≡ filter (λ r. not (reg == r.reg)) self.old.rows }
        ensures places { self.new.places ≡ self.old.places }
    {
        match self.ranks.row(reg) {
            Some(row) => {
                addresses::remove(&mut self.addresses, row.server);
                self.cpus = processors::lowered(self.cpus, &row);
                self.ranks.take_out(reg, steps);
            }
            None => (),
        }
    }

    /// Adds a registration whose number is above all others. It takes no memory.
    pub fn push<L: Ledger>(&mut self, row: ServerRow, steps: &mut Steps<L>)
        requires room { self.old.places.has_left ≡ true }
        requires above { self.old.places.top ≤ row.reg }
        requires sound { AreSoundRows (self.old.rows ++ row ∷ []) }
        ensures rows { self.new.rows ≡ self.old.rows ++ row ∷ [] }
        ensures count { self.new.places.count ≡ self.old.places.count }
        ensures top { self.new.places.top ≡ row.reg + 1 }
    {
        let _count = self.ranks.count();
        addresses::put(&mut self.addresses, row.server, row.reg);
        self.cpus = processors::raised(self.cpus, &row);
        self.ranks.push(row, steps);
    }

    /// Makes room for one registration more. Refused for want of memory alone; the rows stay.
    pub fn make_room(&mut self, alloc: Global) -> Result<(), AllocError>
        ensures rows { self.new.rows ≡ self.old.rows }
        ensures room { OnOk result (self.new.places.has_left ≡ true) }
        ensures top { self.new.places.top ≤ self.old.places.top }
        ensures count { self.new.places.count ≤ max self.old.places.count
            (2 * max 1 (length self.old.rows)) }
    {
        if self.ranks.has_room() {
            return Ok(());
        }
        let places = places_for(self.ranks.count(), self.ranks.len())?;
        addresses::make_room(&mut self.addresses, places)?;
        self.ranks = renewed::<Brand>(alloc, &self.ranks, places, Blank::new(1))?;
        Ok(())
    }
}
