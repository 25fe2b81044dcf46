//! The reservations that are in hand, found by their jobs.
ghost use Rattle.std.specs.Prelude.{◌≡◌, ◌<◌, ℕ, OnOk, None, Some, true, nat_eq, if◌then◌else◌, slice_set, length};
ghost use Rattle.std.specs.Prelude.{◌++◌, ◌∷◌, [], vec_len, vec_capacity};
ghost use Rattle.quota_run.specs.Hand.{held_at, of_job};

use dist_types::ids::JobId;
use row_index::LookupTable;
use sched_core::reservation::Reservation;
use std::alloc::{AllocError, Global};
use std::marker::Model;

/// The reservations that are in hand, found by their jobs. Contracts see the one of each job, and whether there is room
/// for one more.
pub(crate) struct Hand {
    places: LookupTable<u64, usize>,
    held: Vec<Option<Reservation>>,
}

impl Model for Hand {
    ghost use Rattle.std.specs.Prelude.{nat_lt, vec_len, vec_capacity, ◌&&◌};
    ghost use Rattle.quota_run.specs.Hand.{InHand, AreFound};

    ghost Value = { InHand };

    ghost view = { λ h. record {
      places = h.places.entries;
      held = h.held.items;
      has_room = nat_lt (vec_len h.held) (vec_capacity h.held) && nat_lt 0 h.places.spare;
    } };

    ghost invariant = { λ h. AreFound h.places.entries h.held.items };
}

/// Takes out what is in hand in a place.
fn take_at(held: &mut Vec<Option<Reservation>>, place: usize) -> Option<Reservation>
    ensures taken { result ≡ held_at held.old.items place }
    ensures left { held.new.items ≡ slice_set held.old.items place None }
{
    match held.get_mut(place) {
        Some(slot) => slot.take(),
        None => None,
    }
}

/// Puts one more in hand. It takes no memory.
fn push_held(held: &mut Vec<Option<Reservation>>, r: Reservation)
    requires room { vec_len held.old < vec_capacity held.old }
    ensures held { held.new.items ≡ held.old.items ++ Some r ∷ [] }
{
    match held.push(Some(r)) {
        Ok(()) => (),
        Err(_) => unreachable!(),
    }
}

impl Hand {
    /// Nothing. It takes no memory.
    pub(crate) fn new(alloc: Global) -> Hand
        ensures none { (job : ℕ) → of_job result job ≡ None }
    {
        Hand {
            places: LookupTable::new(alloc),
            held: Vec::new(alloc),
        }
    }

    /// Makes room for one more. Refused for want of memory alone.
    pub(crate) fn make_room(&mut self) -> Result<(), AllocError>
        ensures same { (job : ℕ) → of_job self.new job ≡ of_job self.old job }
        ensures room { OnOk result (self.new.has_room ≡ true) }
    {
        self.held.reserve(1)?;
        self.places.make_room(1)
    }

    /// Takes a reservation in hand, in place of one of the same job. It takes no memory.
    pub(crate) fn add(&mut self, r: Reservation)
        requires room { self.old.has_room ≡ true }
        ensures added { (job : ℕ) → of_job self.new job ≡ (if nat_eq r.job.0 job then Some r else of_job self.old job) }
    {
        let job = r.job_id();
        let place = self.held.len();
        push_held(&mut self.held, r);
        self.places.put(job.0, place);
    }

    /// Gives the reservation of a job out of hand, if there is one.
    pub(crate) fn take(&mut self, job: JobId) -> Option<Reservation>
        ensures taken { result ≡ of_job self.old job.0 }
        ensures left { (other : ℕ) → of_job self.new other
            ≡ (if nat_eq job.0 other then None else of_job self.old other) }
    {
        match self.places.get(&job.0) {
            Some(place) => {
                let place = *place;
                self.places.take_out(&job.0);
                take_at(&mut self.held, place)
            }
            None => None,
        }
    }

    /// Gives any out of hand, if there is one.
    pub(crate) fn into_all(self) -> Vec<Option<Reservation>> {
        let Hand { places: _, held } = self;
        held
    }
}
