//! `Slots`: rows by place and by number.
ghost use Rattle.std.specs.Prelude.{◌≡◌, ◌≤◌, ◌<◌, ◌+◌, ◌==◌, [], ◌∷◌, ◌++◌, None, Some, IfOk, IsSome};
ghost use Rattle.std.specs.Prelude.{MatchOption, length, map, filter, find, not, replicate, if◌then◌else◌};
ghost use Rattle.std.specs.Prelude.{nat_lt, slice_index_or, slice_set, vec_len, vec_capacity};
ghost use Rattle.std.specs.List.{AllByRecursion};
ghost use Rattle.row_index.specs.Slots.{rows_in, top, IsPlaceOf, AreRising, IsNowhere, IsAt};

use crate::numbered::Numbered;
use std::alloc::{AllocError, Global};
use std::marker::Model;

/// Rows under rising numbers, each in a place. Contracts see the places, each with a row or none, and the
/// numbers of the rows that were pushed into the first of them.
#[derive(Drop)]
pub struct Slots<T: Numbered> {
    numbers: Vec<u64>,
    rows: Vec<Option<T>>,
    count: usize,
}

impl<T: Numbered> Model for Slots<T> {
    ghost use Rattle.std.specs.Prelude.{vec_len, vec_capacity};
    ghost use Rattle.row_index.specs.Slots.{Slotted, AreSlots};

    ghost Value = { Slotted T };

    ghost view = { λ s. record { places = s.rows.items; numbers = s.numbers.items } };

    ghost invariant = { λ s. AreSlots T.number_of s.numbers.items s.rows.items (vec_len s.rows)
        (vec_capacity s.numbers) s.count };
}

/// The place of a number among numbers that rise, if it is there.
fn place_in(numbers: &[u64], number: u64) -> Option<usize>
    requires { AreRising numbers.now }
    ensures { MatchOption result (IsNowhere numbers.now number) (IsAt numbers.now number) }
{
    match numbers.binary_search(&number) {
        Ok(place) => Some(place),
        Err(_) => None,
    }
}

/// The row in a place, if there is one.
fn read_at<T: Copy>(rows: &[Option<T>], place: usize) -> Option<T>
    requires { place < length rows.now }
    ensures { result ≡ slice_index_or rows.now place None }
{
    rows[place]
}

/// Puts a row, or none, into a place.
fn write_at<T: Copy>(rows: &mut Vec<Option<T>>, place: usize, row: Option<T>)
    requires { place < vec_len rows.old }
    ensures items { rows.new.items ≡ slice_set rows.old.items place row }
    ensures len { vec_len rows.new ≡ vec_len rows.old }
{
    rows[place] = row;
}

/// So many places without a row. Refused for want of memory alone.
fn free_places<T: Copy>(alloc: Global, places: usize) -> Result<Vec<Option<T>>, AllocError>
    ensures items { IfOk result (λ v. v.items ≡ replicate places None) }
    ensures len { IfOk result (λ v. vec_len v ≡ places) }
{
    let mut rows = Vec::new(alloc);
    rows.resize(places, None)?;
    Ok(rows)
}

/// The place, where it has a row.
fn if_full<T: Copy>(place: usize, row: Option<T>) -> Option<usize>
    ensures { MatchOption result (row ≡ None) (λ p. (p ≡ place) × IsSome row) }
{
    match row {
        Some(_) => Some(place),
        None => None,
    }
}

impl<T: Numbered> Slots<T> {
    /// No row, in no place. It takes no memory.
    pub fn new(alloc: Global) -> Self
        ensures { result ≡ record { places = []; numbers = [] } }
    {
        Slots {
            numbers: Vec::new(alloc),
            rows: Vec::new(alloc),
            count: 0,
        }
    }

    /// No row, in so many places. Refused for want of memory alone.
    pub fn with_places(alloc: Global, places: usize) -> Result<Self, AllocError>
        ensures { IfOk result (λ s. s ≡ record { places = replicate places None; numbers = [] }) }
    {
        let numbers = Vec::with_capacity(alloc, places)?;
        let rows = free_places(alloc, places)?;
        Ok(Slots {
            numbers,
            rows,
            count: 0,
        })
    }

    /// How many places there are.
    pub fn len(&self) -> usize
        ensures { result ≡ length self.now.places }
    {
        self.rows.len()
    }

    /// How many rows there are.
    pub fn count(&self) -> usize
        ensures { result ≡ length (rows_in self.now.places) }
    {
        self.count
    }

    /// How many places had a row: the next row goes behind them.
    pub fn used(&self) -> usize
        ensures used { result ≡ length self.now.numbers }
        ensures within { result ≤ length self.now.places }
        // The numbers of the rows rise, and are below the least number above all that were pushed.
        ensures rising { AreRising (map T.number_of (rows_in self.now.places)) }
        ensures below { AllByRecursion (λ r. T.number_of r < top self.now.numbers)
            (rows_in self.now.places) }
    {
        self.numbers.len()
    }

    /// Whether a place is left behind all rows.
    pub fn has_room(&self) -> bool
        ensures { result ≡ nat_lt (length self.now.numbers) (length self.now.places) }
    {
        self.numbers.len() < self.rows.len()
    }

    /// The row in a place, if there is one.
    pub fn row(&self, place: usize) -> Option<T>
        requires { place < length self.now.places }
        ensures row { result ≡ slice_index_or self.now.places place None }
        ensures whole { MatchOption result (Unit {0})
            (λ row. IsPlaceOf T.number_of self.now.places (T.number_of row) place) }
    {
        read_at(&self.rows, place)
    }

    /// The places, each with a row or none.
    pub fn places(&self) -> &[Option<T>]
        ensures { result.now ≡ self.now.places }
    {
        &self.rows
    }

    /// The place of the row of that number, if there is one.
    pub fn place_of(&self, number: u64) -> Option<usize>
        ensures { MatchOption result
            (find (λ r. T.number_of r == number) (rows_in self.now.places) ≡ None)
            (IsPlaceOf T.number_of self.now.places number) }
    {
        match place_in(&self.numbers, number) {
            Some(place) => if_full(place, self.row(place)),
            None => None,
        }
    }

    /// Puts a row in the place of one with the same number.
    pub fn put(&mut self, place: usize, row: T)
        requires { IsPlaceOf T.number_of self.old.places (T.number_of row) place }
        ensures places { self.new.places ≡ slice_set self.old.places place (Some row) }
        ensures rows { rows_in self.new.places ≡
            map (λ r. if T.number_of r == T.number_of row then row else r) (rows_in self.old.places) }
        ensures numbers { self.new.numbers ≡ self.old.numbers }
    {
        write_at(&mut self.rows, place, Some(row));
    }

    /// Takes the row of that number out of its place.
    pub fn take_out(&mut self, place: usize, number: u64)
        requires { IsPlaceOf T.number_of self.old.places number place }
        ensures places { self.new.places ≡ slice_set self.old.places place None }
        ensures rows { rows_in self.new.places
            ≡ filter (λ r. not (T.number_of r == number)) (rows_in self.old.places) }
        ensures numbers { self.new.numbers ≡ self.old.numbers }
    {
        write_at(&mut self.rows, place, None);
        self.count -= 1;
    }

    /// Adds a row whose number is above all that were pushed, behind all others. It takes no memory.
    pub fn push(&mut self, row: T)
        requires room { length self.old.numbers < length self.old.places }
        requires above { top self.old.numbers ≤ T.number_of row }
        ensures places { self.new.places ≡ slice_set self.old.places (length self.old.numbers) (Some row) }
        ensures rows { rows_in self.new.places ≡ rows_in self.old.places ++ row ∷ [] }
        ensures numbers { self.new.numbers ≡ self.old.numbers ++ T.number_of row ∷ [] }
    {
        let place = self.numbers.len();
        match self.numbers.push(row.number()) {
            Ok(()) => (),
            Err(_) => unreachable!(),
        }
        write_at(&mut self.rows, place, Some(row));
        self.count += 1;
    }
}
