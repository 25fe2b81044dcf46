//! `Ranks`: the rows and their trees.
ghost use Rattle.std.specs.Prelude.{◌≡◌, ◌≤◌, ◌<◌, ◌+◌, ◌*◌, ◌^◌, ◌==◌, ℕ, [], ◌∷◌, ◌++◌, true, None, Some};
ghost use Rattle.std.specs.Prelude.{IfOk, MatchOption, length, map, filter, find, not, if◌then◌else◌};
ghost use Rattle.std.specs.Prelude.{nat_lt};
ghost use Rattle.std.specs.Prelude.{slice_index_or, replicate, IfSome, IsSome, option_to_list};
ghost use Rattle.row_index.specs.Keys.{load_before, moment_before};
ghost use Rattle.row_index.specs.Winner.{early_slots};
ghost use Rattle.std.specs.List.{AllByRecursion};
ghost use Rattle.row_index.specs.Slots.{rows_in, top, IsPlaceOf};
ghost use Rattle.row_index.specs.Ranks.{HaveNoKey, IsFirstBy, early_numbers, number_in};
ghost use Rattle.row_index.specs.Ranks.{number_at, touched};

use crate::entry::enter;
use crate::keys::{LoadKey, MomentKey};
use crate::numbered_slots::Slots;
use crate::ranked::Ranked;
use crate::winner_tree::WinnerTree;
use std::alloc::{AllocError, Global};
use std::marker::Model;
use std::sync::ledger::Ledger;
use steps::Steps;

/// Rows under rising numbers, and the first of them by each key. Contracts see the places, each with a row
/// or none, and the numbers that were pushed into them.
#[derive(Drop)]
pub struct Ranks<T: Ranked> {
    slots: Slots<T>,
    loads: WinnerTree<LoadKey>,
    errors: WinnerTree<MomentKey>,
    signs: WinnerTree<MomentKey>,
}

impl<T: Ranked> Model for Ranks<T> {
    ghost use Rattle.row_index.specs.Slots.{Slotted};
    ghost use Rattle.row_index.specs.Ranks.{AreRanked};

    ghost Value = { Slotted T };

    ghost view = { λ r. r.slots };

    ghost invariant = { λ r. AreRanked T.load_of T.error_of T.sign_of r.slots.places r.loads r.errors
        r.signs };
}

/// The number of the row in a place, or 0.
fn number_in<T: Ranked>(row: &Option<T>) -> u64
    ensures { result ≡ number_in T.number_of row.now }
{
    match row {
        Some(row) => row.number(),
        None => 0,
    }
}

/// The numbers of the rows in those places. Refused for want of memory alone.
fn numbers_at<T: Ranked>(
    alloc: Global,
    slots: &Slots<T>,
    places: &[usize],
) -> Result<Vec<u64>, AllocError>
    requires { AllByRecursion (λ p. p < length slots.now.places) places.now }
    ensures { IfOk result (λ v. v.items ≡ map (number_at T.number_of slots.now.places) places.now) }
{
    let mut numbers = Vec::with_capacity(alloc, places.len())?;
    for place in places {
        let row = slots.row(*place);
        numbers.push(number_in(&row))?;
    }
    Ok(numbers)
}

/// Adds a row, if there is one, whose number is above all that were pushed.
fn push_if<T: Ranked, L: Ledger>(ranks: &mut Ranks<T>, row: &Option<T>, steps: &mut Steps<L>)
    requires room { length ranks.old.numbers < length ranks.old.places }
    requires above { IfSome row.now (λ r. top ranks.old.numbers ≤ T.number_of r) }
    ensures rows { rows_in ranks.new.places ≡ rows_in ranks.old.places ++ option_to_list row.now }
    ensures numbers { ranks.new.numbers ≡ ranks.old.numbers ++ map T.number_of (option_to_list row.now) }
    ensures len { length ranks.new.places ≡ length ranks.old.places }
{
    match row {
        Some(row) => ranks.push(*row, steps),
        None => (),
    }
}

impl<T: Ranked> Ranks<T> {
    /// No row, in no place. It takes no memory.
    pub fn new(alloc: Global) -> Self
        ensures { result ≡ record { places = []; numbers = [] } }
    {
        Ranks {
            slots: Slots::new(alloc),
            loads: WinnerTree::new(alloc),
            errors: WinnerTree::new(alloc),
            signs: WinnerTree::new(alloc),
        }
    }

    /// No row, in so many places. Refused for want of memory alone.
    pub fn with_places(alloc: Global, places: usize) -> Result<Self, AllocError>
        ensures { IfOk result (λ r. r ≡ record { places = replicate places None; numbers = [] }) }
    {
        let slots = Slots::with_places(alloc, places)?;
        let mut loads = WinnerTree::new(alloc);
        loads.grow(places)?;
        let mut errors = WinnerTree::new(alloc);
        errors.grow(places)?;
        let mut signs = WinnerTree::new(alloc);
        signs.grow(places)?;
        Ok(Ranks {
            slots,
            loads,
            errors,
            signs,
        })
    }

    /// The rows by place.
    pub fn places(&self) -> &[Option<T>]
        ensures { result.now ≡ self.now.places }
    {
        self.slots.places()
    }

    /// How many rows there are.
    pub fn count(&self) -> usize
        ensures { result ≡ length (rows_in self.now.places) }
    {
        self.slots.count()
    }

    /// How many places there are.
    pub fn len(&self) -> usize
        ensures { result ≡ length self.now.places }
    {
        self.slots.len()
    }

    /// Whether a place is left behind all rows.
    pub fn has_room(&self) -> bool
        ensures { result ≡ nat_lt (length self.now.numbers) (length self.now.places) }
    {
        self.slots.has_room()
    }

    /// The row of that number, of which there is no other.
    pub fn row(&self, number: u64) -> Option<T>
        ensures row { result ≡ find (λ r. T.number_of r == number) (rows_in self.now.places) }
        ensures only { MatchOption result (Unit {0})
            (λ row. AllByRecursion (λ r. (T.number_of r == number) ≡ true → r ≡ row)
            (rows_in self.now.places)) }
    {
        match self.slots.place_of(number) {
            Some(place) => self.slots.row(place),
            None => None,
        }
    }

    /// The row that the key by load puts first.
    pub fn lightest<L: Ledger>(&self, steps: &mut Steps<L>) -> Option<T>
        ensures first { MatchOption result (HaveNoKey T.load_of (rows_in self.now.places))
            (IsFirstBy T.number_of T.load_of load_before (rows_in self.now.places)) }
        ensures looks { steps.new ≤ steps.old + 1 }
    {
        match self.loads.winner(steps) {
            Some(place) => self.slots.row(place),
            None => None,
        }
    }

    /// The row that the key by error puts first.
    pub fn oldest<L: Ledger>(&self, steps: &mut Steps<L>) -> Option<T>
        ensures first { MatchOption result (HaveNoKey T.error_of (rows_in self.now.places))
            (IsFirstBy T.number_of T.error_of moment_before (rows_in self.now.places)) }
        ensures looks { steps.new ≤ steps.old + 1 }
    {
        match self.errors.winner(steps) {
            Some(place) => self.slots.row(place),
            None => None,
        }
    }

    /// The numbers of the rows whose error goes before the bound, rising. Refused for want of memory alone.
    pub fn errors_before<L: Ledger>(
        &self,
        alloc: Global,
        bound: &MomentKey,
        steps: &mut Steps<L>,
    ) -> Result<Vec<u64>, AllocError>
        ensures numbers { IfOk result (λ v. v.items ≡
            early_numbers T.number_of T.error_of moment_before bound.now (rows_in self.now.places)) }
        ensures looks { (h : ℕ) → length self.now.places ≤ 2 ^ h → steps.new ≤ steps.old + (2 * h * length
            (early_numbers T.number_of T.error_of moment_before bound.now (rows_in self.now.places)) + 1) }
    {
        let places = self.errors.slots_before(alloc, bound, steps)?;
        numbers_at(alloc, &self.slots, &places)
    }

    /// The numbers of the rows whose last sign goes before the bound, rising. Refused for want of memory
    /// alone.
    pub fn signs_before<L: Ledger>(
        &self,
        alloc: Global,
        bound: &MomentKey,
        steps: &mut Steps<L>,
    ) -> Result<Vec<u64>, AllocError>
        ensures numbers { IfOk result (λ v. v.items ≡
            early_numbers T.number_of T.sign_of moment_before bound.now (rows_in self.now.places)) }
    {
        let places = self.signs.slots_before(alloc, bound, steps)?;
        numbers_at(alloc, &self.slots, &places)
    }

    /// Puts a row in the place of one with the same number.
    #[inline(always)]
    pub fn put_at<L: Ledger>(&mut self, place: usize, old: &T, row: T, steps: &mut Steps<L>)
        requires place { IsPlaceOf T.number_of self.old.places (T.number_of row) place }
        requires old { slice_index_or self.old.places place None ≡ Some old.now }
        ensures rows { rows_in self.new.places ≡
            map (λ r. if T.number_of r == T.number_of row then row else r) (rows_in self.old.places) }
        ensures numbers { self.new.numbers ≡ self.old.numbers }
        ensures len { length self.new.places ≡ length self.old.places }
        ensures looks { (h : ℕ) → length self.old.places ≤ 2 ^ h → steps.new ≤ steps.old +
            touched T.load_of T.error_of T.sign_of (Some old.now) (Some row) * (2 * h + 1) }
    {
        // The row goes first, right after it was read, so that what stays of it is not written.
        self.slots.put(place, row);
        enter(
            &mut self.loads,
            place,
            old.load_key(),
            row.load_key(),
            steps,
        );
        enter(
            &mut self.errors,
            place,
            old.error_key(),
            row.error_key(),
            steps,
        );
        enter(
            &mut self.signs,
            place,
            old.sign_key(),
            row.sign_key(),
            steps,
        );
    }

    /// The place of the row of that number, if there is one.
    pub fn place_of(&self, number: u64) -> Option<usize>
        ensures { MatchOption result
            (find (λ r. T.number_of r == number) (rows_in self.now.places) ≡ None)
            (IsPlaceOf T.number_of self.now.places number) }
    {
        self.slots.place_of(number)
    }

    /// The row in a place that has one.
    #[inline(always)]
    pub fn at(&self, place: usize) -> T
        requires within { place < length self.now.places }
        requires full { IsSome (slice_index_or self.now.places place None) }
        ensures { slice_index_or self.now.places place None ≡ Some result }
    {
        match self.slots.row(place) {
            Some(row) => row,
            None => unreachable!(),
        }
    }

    /// Takes the row out of a place.
    fn take_at<L: Ledger>(&mut self, place: usize, number: u64, steps: &mut Steps<L>)
        requires { IsPlaceOf T.number_of self.old.places number place }
        ensures rows { rows_in self.new.places
            ≡ filter (λ r. not (T.number_of r == number)) (rows_in self.old.places) }
        ensures numbers { self.new.numbers ≡ self.old.numbers }
        ensures len { length self.new.places ≡ length self.old.places }
    {
        self.loads.set(place, None, steps);
        self.errors.set(place, None, steps);
        self.signs.set(place, None, steps);
        self.slots.take_out(place, number);
    }

    /// Takes the row of a number out. Nothing changes where there is none.
    pub fn take_out<L: Ledger>(&mut self, number: u64, steps: &mut Steps<L>)
        ensures rows { rows_in self.new.places
            ≡ filter (λ r. not (T.number_of r == number)) (rows_in self.old.places) }
        ensures numbers { self.new.numbers ≡ self.old.numbers }
        ensures len { length self.new.places ≡ length self.old.places }
    {
        match self.slots.place_of(number) {
            Some(place) => self.take_at(place, number, steps),
            None => (),
        }
    }

    /// Adds a row whose number is above all that were pushed. It takes no memory.
    pub fn push<L: Ledger>(&mut self, row: T, steps: &mut Steps<L>)
        requires room { length self.old.numbers < length self.old.places }
        requires above { top self.old.numbers ≤ T.number_of row }
        ensures rows { rows_in self.new.places ≡ rows_in self.old.places ++ row ∷ [] }
        ensures numbers { self.new.numbers ≡ self.old.numbers ++ T.number_of row ∷ [] }
        ensures len { length self.new.places ≡ length self.old.places }
    {
        let place = self.slots.used();
        self.loads.set(place, row.load_key(), steps);
        self.errors.set(place, row.error_key(), steps);
        self.signs.set(place, row.sign_key(), steps);
        self.slots.push(row);
    }

    /// The same rows in so many places, from the first on. Refused for want of memory alone.
    pub fn renewed<L: Ledger>(
        &self,
        alloc: Global,
        places: usize,
        steps: &mut Steps<L>,
    ) -> Result<Self, AllocError>
        requires { length (rows_in self.now.places) < places }
        ensures rows { IfOk result (λ r. rows_in r.places ≡ rows_in self.now.places) }
        ensures len { IfOk result (λ r. length r.places ≡ places) }
        ensures room { IfOk result (λ r. length r.numbers < length r.places) }
        ensures top { IfOk result (λ r. top r.numbers ≤ top self.now.numbers) }
    {
        let _used = self.slots.used();
        let mut ranks = Ranks::with_places(alloc, places)?;
        for row in self.slots.places() {
            push_if(&mut ranks, row, steps);
        }
        Ok(ranks)
    }
}
