//! The places that are kept of a registration's reservations, each look at one of which is counted.
ghost use Rattle.std.specs.Prelude.{◌≡◌, ◌<◌, ◌≤◌, ◌+◌, IfOk, Some, filter, length, slice_get};
ghost use Rattle.row_index.specs.Lists.{list_at};
ghost use Rattle.reservations.specs.Own.{is_own_at};

use crate::booked::{BookedRow, is_own_at};
use row_index::{NumberedLists, Steps};
use std::alloc::{AllocError, Global};
use std::marker::Model;
use std::sync::ledger::Ledger;

/// The places that are kept of a registration's reservations. Contracts see them as a list.
#[derive(Drop)]
pub struct OwnPlaces<'a> {
    places: &'a [usize],
}

impl<'a> Model for OwnPlaces<'a> {
    ghost use Rattle.std.specs.Prelude.{ℕ, List};

    ghost Value = { List ℕ };

    ghost view = { λ p. p.places.now };
}

impl<'a> OwnPlaces<'a> {
    /// Those of the registration of that number.
    pub fn of(own: &'a NumberedLists, reg: u64) -> Self
        ensures { result ≡ list_at own.now.lists reg }
    {
        OwnPlaces {
            places: own.of(reg),
        }
    }

    /// How many there are.
    pub fn len(&self) -> usize
        ensures { result ≡ length self.now }
    {
        self.places.len()
    }

    /// One of them.
    fn look<L: Ledger>(&self, at: usize, steps: &mut Steps<L>) -> usize
        requires { at < length self.now }
        ensures place { slice_get self.now at ≡ Some result }
        ensures counted { steps.new ≡ steps.old + 1 }
    {
        steps.tick();
        match self.places.get(at) {
            Some(place) => *place,
            None => unreachable!(),
        }
    }

    /// Those that have an unended reservation at the registration. It looks at each at most once. Refused for
    /// want of memory alone.
    pub fn kept<L: Ledger>(
        &self,
        alloc: Global,
        rows: &[BookedRow],
        reg: u64,
        steps: &mut Steps<L>,
    ) -> Result<Vec<usize>, AllocError>
        ensures kept { IfOk result (λ v. v.items ≡ filter (is_own_at reg rows.now) self.now) }
        ensures looks { steps.new ≤ steps.old + length self.now }
    {
        let mut kept = Vec::new(alloc);
        for at in 0..self.places.len() {
            let place = self.look(at, steps);
            if is_own_at(rows, place, reg) {
                kept.push(place)?;
            }
        }
        Ok(kept)
    }
}
