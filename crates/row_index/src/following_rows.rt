//! `Following`: rows by their ids.
ghost use Rattle.std.specs.Prelude.{◌≡◌, ◌<◌, ◌+◌, ◌%◌, ◌^◌, [], ◌∷◌, ◌++◌, true, OnOk, MatchOption};
ghost use Rattle.std.specs.Prelude.{length, slice_index_or, slice_set};
ghost use Rattle.row_index.specs.Following.{AreFollowing, IsPlace, IsNowhere, HasNone, IsRowOf};
ghost use Rattle.row_index.specs.Following.{IsPlaceOf};

use crate::identified::Identified;
use std::alloc::{AllocError, Global};
use std::marker::Model;

/// Rows whose ids follow one another modulo 2^64. Contracts see the id of the first, the rows, and whether
/// there is room for one more.
#[derive(Drop)]
pub struct Following<T: Identified> {
    rows: Vec<T>,
    first: u64,
}

impl<T: Identified> Model for Following<T> {
    ghost use Rattle.std.specs.Prelude.{nat_lt, vec_len, vec_capacity};
    ghost use Rattle.row_index.specs.Following.{Followed, AreFollowing};

    ghost Value = { Followed T };

    ghost view = { λ f. record {
      first = f.first;
      rows = f.rows.items;
      has_room = nat_lt (vec_len f.rows) (vec_capacity f.rows);
    } };

    ghost invariant = { λ f. AreFollowing T.id_of f.first f.rows.items };
}

/// The place that a row of that id has, if there is one.
fn place_in<T: Identified>(rows: &[T], first: u64, id: u64) -> Option<usize>
    ensures { MatchOption result (IsNowhere (length rows.now) first id) (IsPlace (length rows.now) first id) }
{
    let place = id.wrapping_sub(first) as usize;
    if place < rows.len() {
        Some(place)
    } else {
        None
    }
}

/// The row in a place.
fn read_at<T: Copy>(rows: &[T], place: usize) -> T
    requires { place < length rows.now }
    ensures { (d : T) → result ≡ slice_index_or rows.now place d }
{
    rows[place]
}

impl<T: Identified> Following<T> {
    /// No row; the first is to have that id. It takes no memory.
    pub fn new(alloc: Global, first: u64) -> Self
        ensures first { result.first ≡ first }
        ensures rows { result.rows ≡ [] }
    {
        Following {
            rows: Vec::new(alloc),
            first,
        }
    }

    /// The id that the first row has, or is to have.
    pub fn first(&self) -> u64
        ensures { result ≡ self.now.first }
    {
        self.first
    }

    /// How many rows there are.
    pub fn len(&self) -> usize
        ensures count { result ≡ length self.now.rows }
        ensures few { result < 2 ^ 63 }
    {
        self.rows.len()
    }

    /// The rows, each with the id after that of the row before it.
    pub fn rows(&self) -> &[T]
        ensures rows { result.now ≡ self.now.rows }
        ensures following { AreFollowing T.id_of self.now.first result.now }
    {
        &self.rows
    }

    /// The place of the row of that id, if there is one.
    pub fn place_of(&self, id: u64) -> Option<usize>
        ensures { MatchOption result (HasNone T.id_of self.now.rows id) (IsPlaceOf T.id_of self.now.rows id) }
    {
        place_in(&self.rows, self.first, id)
    }

    /// The row in a place.
    pub fn at(&self, place: usize) -> T
        requires { place < length self.now.rows }
        ensures { (d : T) → result ≡ slice_index_or self.now.rows place d }
    {
        read_at(&self.rows, place)
    }

    /// The row of that id, of which there is no other.
    pub fn get(&self, id: u64) -> Option<T>
        ensures { MatchOption result (HasNone T.id_of self.now.rows id) (IsRowOf T.id_of self.now.rows id) }
    {
        match place_in(&self.rows, self.first, id) {
            Some(place) => Some(read_at(&self.rows, place)),
            None => None,
        }
    }

    /// Puts a row in the place of one with the same id.
    pub fn put(&mut self, place: usize, row: T)
        requires within { place < length self.old.rows }
        requires same { (d : T) → T.id_of (slice_index_or self.old.rows place d) ≡ T.id_of row }
        ensures rows { self.new.rows ≡ slice_set self.old.rows place row }
        ensures first { self.new.first ≡ self.old.first }
        ensures room { self.new.has_room ≡ self.old.has_room }
    {
        self.rows[place] = row;
    }

    /// Makes room for one row more. Refused for want of memory alone; the rows stay.
    pub fn make_room(&mut self) -> Result<(), AllocError>
        ensures rows { self.new.rows ≡ self.old.rows }
        ensures first { self.new.first ≡ self.old.first }
        ensures room { OnOk result (self.new.has_room ≡ true) }
    {
        self.rows.reserve(1)
    }

    /// Adds a row whose id follows that of the last. It takes no memory.
    pub fn push(&mut self, row: T)
        requires room { self.old.has_room ≡ true }
        requires follows { T.id_of row ≡ (self.old.first + length self.old.rows) % 2 ^ 64 }
        ensures rows { self.new.rows ≡ self.old.rows ++ row ∷ [] }
        ensures first { self.new.first ≡ self.old.first }
        ensures few { length self.new.rows < 2 ^ 63 }
    {
        match self.rows.push(row) {
            Ok(()) => (),
            Err(_) => unreachable!(),
        }
    }
}
