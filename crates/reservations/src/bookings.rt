//! The reservations: one row each, from its reserving on, found at once by the id of its job.
ghost use Rattle.std.specs.Prelude.{◌≡◌, ◌==◌, ◌&&◌, ◌<◌, ◌≤◌, ◌+◌, ◌%◌, ◌^◌, ◌++◌, ◌∷◌, [], true, length};
ghost use Rattle.std.specs.Prelude.{map};
ghost use Rattle.std.specs.Prelude.{find, slice_index_or, slice_set, if◌then◌else◌};
ghost use Rattle.std.specs.Prelude.{OnOk, MatchOption};
ghost use Rattle.std.specs.List.{list_any};
ghost use Rattle.std.specs.Option.{option_map};
ghost use Rattle.row_index.specs.Following.{HasNone, IsRowOf};
ghost use Rattle.core_rules.specs.Log.{same_job};
ghost use Rattle.reservations.specs.declared.booked.BookedRow.{BookedRow};
ghost use Rattle.reservations.specs.Booked.{held_view, jobs_by_id, unspent_view, open_view};
ghost use Rattle.reservations.specs.Booked.{booked_after, LeavesOthers};
ghost use Rattle.reservations.specs.Own.{ended_row, ended_job, ended_jobs, ended_in, ended_in_all};

use crate::booked::{self, BookedRow, booked_now, is_open};
use crate::jobs::Jobs;
use core_rules::entry::CoreEntry;
use core_rules::rows::OpenRow;
use dist_types::ids::{JobId, ServerId};
use row_index::Following;
use std::alloc::{AllocError, Global};
use std::marker::Model;

/// The reservations, how many jobs are open, and how many reservations are unspent. Contracts see the id of
/// the first job, the rows, and whether there is room for one more.
#[derive(Drop)]
pub struct Bookings {
    rows: Following<BookedRow>,
    open_ones: usize,
    unspent: usize,
}

impl Model for Bookings {
    ghost use Rattle.row_index.specs.Following.{Followed};
    ghost use Rattle.reservations.specs.declared.booked.BookedRow.{BookedRow};
    ghost use Rattle.reservations.specs.Booked.{AreCounted};

    ghost Value = { Followed BookedRow };

    ghost view = { λ b. b.rows };

    ghost invariant = { λ b. AreCounted b.rows.rows b.open_ones b.unspent };
}

/// The count after one of those that are counted came or went.
fn recounted(count: usize, was: bool, is: bool) -> usize
    requires some { was ≡ true → 0 < count }
    requires few { count < 2 ^ 63 }
    ensures { result + (if was then 1 else 0) ≡ count + (if is then 1 else 0) }
{
    if is {
        if was { count } else { count + 1 }
    } else {
        if was { count - 1 } else { count }
    }
}

/// How many rows stand before that whose id is 0, if there is one.
fn before_zero(first: u64, rows: usize) -> usize
    ensures within { result ≤ rows }
    ensures low { first + result ≤ 2 ^ 64 }
    ensures anew { result < rows → (first + result) % 2 ^ 64 ≡ 0 }
{
    rows.min(first.wrapping_neg() as usize)
}

impl Bookings {
    /// No reservation; the first is to have a job of that id. It takes no memory.
    pub fn new(alloc: Global, first: u64) -> Self
        ensures first { result.first ≡ first }
        ensures rows { result.rows ≡ [] }
    {
        Bookings {
            rows: Following::new(alloc, first),
            open_ones: 0,
            unspent: 0,
        }
    }

    /// How many reservations were made.
    pub fn made(&self) -> usize
        ensures { result ≡ length self.now.rows }
    {
        self.rows.len()
    }

    /// How many reservations are unspent.
    pub fn unspent_count(&self) -> usize
        ensures count { result ≡ length (unspent_view self.now.rows) }
        ensures few { result < 2 ^ 63 }
    {
        self.unspent
    }

    /// How many jobs are open.
    pub fn open_count(&self) -> usize
        ensures { result ≡ length (open_view self.now.rows) }
    {
        self.open_ones
    }

    /// The reservations, in the order of their reserving.
    pub fn rows(&self) -> &[BookedRow]
        ensures { result.now ≡ self.now.rows }
    {
        self.rows.rows()
    }

    /// The unended reservations, by rising job id.
    pub fn jobs(&self) -> Jobs<'_>
        ensures { result ≡ jobs_by_id self.now.rows }
    {
        let rows = self.rows.rows();
        let place = before_zero(self.rows.first(), rows.len());
        Jobs::new(&rows[place..], &rows[..place])
    }

    /// The reservation of that job, of which there is no other.
    pub fn row(&self, job: JobId) -> Option<BookedRow>
        ensures { MatchOption result (HasNone (λ b. b.job.0) self.now.rows job.0)
            (IsRowOf (λ b. b.job.0) self.now.rows job.0) }
    {
        self.rows.get(job.0)
    }

    /// Whether the reservation is unspent.
    pub fn is_unspent(&self, number: u64, job: JobId) -> bool
        ensures { result ≡
            list_any (λ u. (u.number == number) && same_job u.job job) (unspent_view self.now.rows) }
    {
        let found = self.row(job);
        booked::is_unspent(&found, number)
    }

    /// Whether the reservation is unended.
    pub fn is_held(&self, number: u64, job: JobId) -> bool
        ensures { result ≡ list_any (λ h. (h.number == number) && same_job h.job job)
            (held_view self.now.rows) }
    {
        let found = self.row(job);
        booked::is_held(&found, number)
    }

    /// The address of the unspent reservation of that number and job.
    pub fn unspent_address(&self, number: u64, job: JobId) -> Option<ServerId>
        ensures { result ≡ option_map (λ u. u.server)
            (find (λ u. (u.number == number) && same_job u.job job) (unspent_view self.now.rows)) }
    {
        let found = self.row(job);
        booked::unspent_address(&found, number)
    }

    /// The open job of that id.
    pub fn open_job(&self, job: JobId) -> Option<OpenRow>
        ensures { result ≡ find (λ o. same_job o.job job) (open_view self.now.rows) }
    {
        let found = self.row(job);
        booked::open_job(&found)
    }

    /// Makes room for one reservation more. Refused for want of memory alone; the rows stay.
    pub fn make_room(&mut self) -> Result<(), AllocError>
        ensures rows { self.new.rows ≡ self.old.rows }
        ensures first { self.new.first ≡ self.old.first }
        ensures room { OnOk result (self.new.has_room ≡ true) }
    {
        self.rows.make_room()
    }

    // Gives the reservation in a place another row.
    #[inline(always)]
    fn write(&mut self, place: usize, old: &BookedRow, new: BookedRow)
        requires within { place < length self.old.rows }
        requires was { (d : BookedRow) → old.now ≡ slice_index_or self.old.rows place d }
        requires same { old.now.job.0 ≡ new.job.0 }
        ensures rows { self.new.rows ≡ slice_set self.old.rows place new }
        ensures first { self.new.first ≡ self.old.first }
        ensures room { self.new.has_room ≡ self.old.has_room }
    {
        let was_open = is_open(old);
        let opens = is_open(&new);
        // The row goes first, right after it was read, so that what stays of it is not written.
        self.rows.put(place, new);
        self.open_ones = recounted(self.open_ones, was_open, opens);
        self.unspent = recounted(self.unspent, old.unspent, new.unspent);
    }

    // Gives the reservation in a place its row after an entry.
    #[inline(always)]
    fn change(&mut self, place: usize, step: &CoreEntry)
        requires { place < length self.old.rows }
        ensures rows { (d : BookedRow) → self.new.rows ≡ slice_set self.old.rows place
            (booked_after step.entry.now (slice_index_or self.old.rows place d)) }
        ensures first { self.new.first ≡ self.old.first }
        ensures room { self.new.has_room ≡ self.old.has_room }
    {
        let old = self.rows.at(place);
        let new = booked_now(&old, step);
        self.write(place, &old, new);
    }

    /// What an entry does that names one job alone.
    #[inline(always)]
    pub fn settle(&mut self, job: JobId, step: &CoreEntry)
        requires { LeavesOthers step.now job }
        ensures rows { self.new.rows ≡ map (booked_after step.entry.now) self.old.rows }
        ensures first { self.new.first ≡ self.old.first }
        ensures room { self.new.has_room ≡ self.old.has_room }
    {
        match self.rows.place_of(job.0) {
            Some(place) => self.change(place, step),
            None => (),
        }
    }

    // Ends the reservation in a place.
    fn end(&mut self, place: usize)
        requires { place < length self.old.rows }
        ensures rows { (d : BookedRow) → self.new.rows ≡ slice_set self.old.rows place
            (ended_row (slice_index_or self.old.rows place d)) }
        ensures first { self.new.first ≡ self.old.first }
        ensures room { self.new.has_room ≡ self.old.has_room }
    {
        let old = self.rows.at(place);
        let new = booked::ended(&old);
        self.write(place, &old, new);
    }

    /// Ends the reservation of a job, if there is one.
    pub fn end_job(&mut self, job: JobId)
        ensures rows { self.new.rows ≡ map (ended_job job) self.old.rows }
        ensures first { self.new.first ≡ self.old.first }
        ensures room { self.new.has_room ≡ self.old.has_room }
    {
        match self.rows.place_of(job.0) {
            Some(place) => self.end(place),
            None => (),
        }
    }

    /// Ends the reservation in a place, where it is at the registration.
    fn end_at(&mut self, place: usize, reg: u64)
        ensures rows { self.new.rows ≡ ended_in reg place self.old.rows }
        ensures first { self.new.first ≡ self.old.first }
        ensures room { self.new.has_room ≡ self.old.has_room }
    {
        if booked::is_own_at(self.rows.rows(), place, reg) {
            self.end(place);
        }
    }

    /// Ends the reservations in those places that are at the registration.
    pub fn end_each(&mut self, places: &[usize], reg: u64)
        ensures rows { self.new.rows ≡ ended_in_all reg places.now self.old.rows }
        ensures first { self.new.first ≡ self.old.first }
        ensures room { self.new.has_room ≡ self.old.has_room }
    {
        for place in places {
            self.end_at(*place, reg);
        }
    }

    /// Ends the reservations of those jobs.
    pub fn end_jobs(&mut self, jobs: &[JobId])
        ensures rows { self.new.rows ≡ map (ended_jobs jobs.now) self.old.rows }
        ensures first { self.new.first ≡ self.old.first }
        ensures room { self.new.has_room ≡ self.old.has_room }
    {
        for job in jobs {
            self.end_job(*job);
        }
    }

    /// Adds a reservation that is new, whose job has the next id. It takes no memory.
    pub fn push(&mut self, row: BookedRow)
        requires room { self.old.has_room ≡ true }
        requires follows { row.job.0 ≡ (self.old.first + length self.old.rows) % 2 ^ 64 }
        ensures rows { self.new.rows ≡ self.old.rows ++ row ∷ [] }
        ensures first { self.new.first ≡ self.old.first }
    {
        let opens = is_open(&row);
        self.open_ones = recounted(self.open_ones, false, opens);
        self.unspent = recounted(self.unspent, false, row.unspent);
        self.rows.push(row);
    }
}
