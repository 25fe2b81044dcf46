//! The reservations of a registration, by the list that is kept of their places.
ghost use Rattle.std.specs.Prelude.{◌≡◌, true, ◌<◌, ◌+◌, ◌%◌, ◌^◌, ◌++◌, ◌∷◌, [], Some, IfOk, IfSome, OnOk, length, map};
ghost use Rattle.std.specs.Prelude.{◌*◌, filter, nat_le, option_to_list};
ghost use Rattle.std.specs.List.{filter_map};
ghost use Rattle.core_rules.specs.Reap.{is_reaped, reap};
ghost use Rattle.core_rules.specs.Rule.{is_left};
ghost use Rattle.core_rules.specs.Reservation.{is_booked};
ghost use Rattle.core_rules.specs.Laws.{AreRising};
ghost use Rattle.reservations.specs.Booked.{booked_after};
ghost use Rattle.reservations.specs.Booked.{held_part_of, held_view, open_view};
ghost use Rattle.reservations.specs.Own.{is_own_at, own_row_at, IsOwnList, AreOwn, is_open_row, room_for};
ghost use Rattle.reservations.specs.Own.{ended_at, ended_at_all, ended_if, ended_jobs, swept_list};
ghost use Rattle.row_index.specs.Lists.{list_at};

use crate::booked::{BookedRow, held_part, is_open, own_row_at};
use crate::bookings::Bookings;
use crate::own_places::OwnPlaces;
use core_rules::effects::accepted;
use core_rules::entry::{CoreEntry, CoreKind};
use core_rules::rules::reapable;
use dist_types::ids::JobId;
use dist_types::rules::Rules;
use row_index::{NumberedLists, Steps};
use std::alloc::{AllocError, Global};
use std::marker::Brand;
use std::sync::ledger::{Blank, Ledger};

/// A heartbeat that reaps: of which registration, by which rules and at which moment, in milliseconds.
#[derive(Clone, Copy, Debug)]
pub struct Reaping {
    /// The registration.
    pub reg: u64,
    /// The version of the rules.
    pub rules: Rules,
    /// The moment.
    pub moment: u64,
}

/// Whether the heartbeat reaps the reservation, which is unended.
fn reaps(b: &BookedRow, beat: Reaping) -> bool
    ensures { result ≡ is_reaped beat.rules beat.moment beat.reg (held_part_of b.now) }
{
    let held = held_part(b);
    reapable(beat.rules, &held, beat.reg, beat.moment)
}

/// The jobs of the reservations in those places that the heartbeat reaps.
fn jobs_to_reap(
    alloc: Global,
    rows: &[BookedRow],
    places: &[usize],
    beat: Reaping,
) -> Result<Vec<JobId>, AllocError>
    ensures { IfOk result (λ v. v.items ≡ map (λ b. b.job)
        (filter (λ b. is_reaped beat.rules beat.moment beat.reg (held_part_of b))
        (filter_map (own_row_at beat.reg rows.now) places.now))) }
{
    places
        .iter()
        .filter_map(|place| own_row_at(rows, *place, beat.reg))
        .filter(|b| reaps(b, beat))
        .map(|b| b.job)
        .collect(alloc)
}

/// The jobs that the heartbeat reaps, where the places are its registration's own. Refused for want of memory
/// alone.
pub fn reaped_jobs(
    alloc: Global,
    rows: &[BookedRow],
    places: &[usize],
    beat: Reaping,
) -> Result<Vec<JobId>, AllocError>
    requires { IsOwnList beat.reg rows.now places.now }
    ensures { IfOk result (λ v. v.items ≡ reap beat.rules beat.moment beat.reg (held_view rows.now)) }
{
    jobs_to_reap(alloc, rows, places, beat)
}

/// How many of the reservations in those places are unended, at the registration, and have an open job.
fn open_at(rows: &[BookedRow], places: &[usize], reg: u64) -> usize
    ensures { result ≡ length (filter is_open_row (filter_map (own_row_at reg rows.now) places.now)) }
{
    places
        .iter()
        .filter_map(|place| own_row_at(rows, *place, reg))
        .filter(|b| is_open(b))
        .count()
}

/// How many open jobs are at none of the pruned registrations, whose numbers rise.
pub fn open_left(bookings: &Bookings, own: &NumberedLists, pruned: &[u64]) -> u64
    requires own { AreOwn bookings.now.rows own.now.lists }
    requires rising { AreRising pruned.now }
    ensures { result ≡ length (filter (λ o. is_left pruned.now o.reg) (open_view bookings.now.rows)) }
{
    let mut left = bookings.open_count();
    for number in pruned {
        left -= open_at(bookings.rows(), own.of(*number), *number);
    }
    left as u64
}

/// Drops from the list of a registration what is ended. Refused for want of memory alone.
fn sweep<L: Ledger>(
    alloc: Global,
    bookings: &Bookings,
    own: &mut NumberedLists,
    reg: u64,
    blank: Blank,
) -> Result<(), AllocError>
    requires name { blank.name ≡ L.name }
    requires parts { blank.parts ≡ L.parts }
    requires some { 0 < blank.parts }
    requires own { AreOwn bookings.now.rows own.old.lists }
    requires ready { own.old.ready ≡ Some reg }
    ensures own { AreOwn bookings.now.rows own.new.lists }
    ensures ready { OnOk result (own.new.ready ≡ Some reg) }
    ensures swept { OnOk result
        (list_at own.new.lists reg ≡ filter (is_own_at reg bookings.now.rows) (list_at own.old.lists reg)) }
{
    let mut steps = Steps::<L>::new(blank);
    let kept = OwnPlaces::of(own, reg).kept(alloc, bookings.rows(), reg, &mut steps)?;
    own.replace(reg, kept);
    own.make_room(reg)
}

/// Whether a list of so many places has too many for so many unended reservations: twice as many, and eight.
fn is_long(places: usize, load: u64) -> bool
    ensures { result ≡ nat_le (2 * load + 8) places }
{
    places as u128 >= 2 * u128::from(load) + 8
}

/// Makes room for one reservation more at a registration with so many, and drops what is ended from a list that
/// has twice as many places and eight. Refused for want of memory alone; the reservations stay.
pub fn make_room(
    alloc: Global,
    bookings: &mut Bookings,
    own: &mut NumberedLists,
    reg: u64,
    load: u64,
) -> Result<(), AllocError>
    requires { AreOwn bookings.old.rows own.old.lists }
    ensures rows { bookings.new.rows ≡ bookings.old.rows }
    ensures first { bookings.new.first ≡ bookings.old.first }
    ensures own { AreOwn bookings.new.rows own.new.lists }
    ensures room { OnOk result (room_for bookings.new.has_room own.new.ready ≡ Some reg) }
    ensures swept { OnOk result (list_at own.new.lists reg ≡
        swept_list reg bookings.old.rows load (list_at own.old.lists reg)) }
{
    bookings.make_room()?;
    own.make_room(reg)?;
    if is_long(OwnPlaces::of(own, reg).len(), load) {
        return sweep::<Brand>(alloc, bookings, own, reg, Blank::new(1));
    }
    Ok(())
}

/// Ends the reservations of a registration.
fn end_own(bookings: &mut Bookings, own: &mut NumberedLists, reg: u64)
    requires { AreOwn bookings.old.rows own.old.lists }
    ensures rows { bookings.new.rows ≡ map (ended_at reg) bookings.old.rows }
    ensures first { bookings.new.first ≡ bookings.old.first }
    ensures own { AreOwn bookings.new.rows own.new.lists }
{
    bookings.end_each(own.of(reg), reg);
    own.forget(reg);
}

/// Ends the reservations of those registrations.
fn end_all(bookings: &mut Bookings, own: &mut NumberedLists, numbers: &[u64])
    requires { AreOwn bookings.old.rows own.old.lists }
    ensures rows { bookings.new.rows ≡ map (ended_at_all numbers.now) bookings.old.rows }
    ensures first { bookings.new.first ≡ bookings.old.first }
    ensures own { AreOwn bookings.new.rows own.new.lists }
{
    for number in numbers {
        end_own(bookings, own, *number);
    }
}

/// Ends the reservations of a registration, if there is one.
fn end_if(bookings: &mut Bookings, own: &mut NumberedLists, number: Option<u64>)
    requires { AreOwn bookings.old.rows own.old.lists }
    ensures rows { bookings.new.rows ≡ map (ended_if number) bookings.old.rows }
    ensures first { bookings.new.first ≡ bookings.old.first }
    ensures own { AreOwn bookings.new.rows own.new.lists }
{
    match number {
        Some(number) => end_own(bookings, own, number),
        None => (),
    }
}

/// Adds a reservation that is new, whose job has the next id. It takes no memory.
fn push(bookings: &mut Bookings, own: &mut NumberedLists, row: BookedRow)
    requires own { AreOwn bookings.old.rows own.old.lists }
    requires room { room_for bookings.old.has_room own.old.ready ≡ Some row.reg }
    requires follows { row.job.0 ≡ (bookings.old.first + length bookings.old.rows) % 2 ^ 64 }
    ensures rows { bookings.new.rows ≡ bookings.old.rows ++ row ∷ [] }
    ensures first { bookings.new.first ≡ bookings.old.first }
    ensures own { AreOwn bookings.new.rows own.new.lists }
{
    own.push(row.reg, bookings.made());
    bookings.push(row);
}

/// The same, if there is one.
fn push_if(bookings: &mut Bookings, own: &mut NumberedLists, made: Option<BookedRow>)
    requires own { AreOwn bookings.old.rows own.old.lists }
    requires room { IfSome made (λ b. room_for bookings.old.has_room own.old.ready ≡ Some b.reg) }
    requires follows { IfSome made
        (λ b. b.job.0 ≡ (bookings.old.first + length bookings.old.rows) % 2 ^ 64) }
    ensures rows { bookings.new.rows ≡ bookings.old.rows ++ option_to_list made }
    ensures first { bookings.new.first ≡ bookings.old.first }
    ensures own { AreOwn bookings.new.rows own.new.lists }
{
    match made {
        Some(row) => push(bookings, own, row),
        None => (),
    }
}

/// What a heartbeat does to the reservations that were made before it.
fn beat(
    bookings: &mut Bookings,
    own: &mut NumberedLists,
    pruned: &[u64],
    replaced: Option<u64>,
    reaped: &[JobId],
)
    requires { AreOwn bookings.old.rows own.old.lists }
    ensures rows { bookings.new.rows
        ≡ map (ended_jobs reaped.now) (map (ended_if replaced) (map (ended_at_all pruned.now)
        bookings.old.rows)) }
    ensures first { bookings.new.first ≡ bookings.old.first }
    ensures own { AreOwn bookings.new.rows own.new.lists }
{
    end_all(bookings, own, pruned);
    end_if(bookings, own, replaced);
    bookings.end_jobs(reaped);
}

/// Takes an entry that makes a reservation into the books, with that reservation. It takes no memory.
#[inline(always)]
pub fn absorb_made(
    bookings: &mut Bookings,
    own: &mut NumberedLists,
    step: &CoreEntry,
    made: Option<BookedRow>,
)
    requires booked { is_booked step.now.kind ≡ true }
    requires own { AreOwn bookings.old.rows own.old.lists }
    requires room { IfSome made (λ b. room_for bookings.old.has_room own.old.ready ≡ Some b.reg) }
    requires follows { IfSome made
        (λ b. b.job.0 ≡ (bookings.old.first + length bookings.old.rows) % 2 ^ 64) }
    ensures rows { bookings.new.rows ≡ map (booked_after step.entry.now) bookings.old.rows ++ option_to_list made }
    ensures first { bookings.new.first ≡ bookings.old.first }
    ensures own { AreOwn bookings.new.rows own.new.lists }
{
    push_if(bookings, own, made);
}

/// Takes an entry into the books of the reservations that were made before it. It takes no memory.
#[inline(always)]
pub fn absorb(bookings: &mut Bookings, own: &mut NumberedLists, step: &CoreEntry)
    requires { AreOwn bookings.old.rows own.old.lists }
    ensures rows { bookings.new.rows ≡ map (booked_after step.entry.now) bookings.old.rows }
    ensures first { bookings.new.first ≡ bookings.old.first }
    ensures own { AreOwn bookings.new.rows own.new.lists }
{
    match &step.kind {
        CoreKind::Reserve(_) => (),
        CoreKind::Commit { job, .. } => bookings.settle(*job, step),
        CoreKind::Undo { job, .. } => bookings.settle(*job, step),
        CoreKind::Beat {
            pruned,
            replaced,
            reaped,
            ..
        } => {
            beat(bookings, own, pruned.get(), *replaced, reaped.get());
        }
        CoreKind::Update { job, answer, .. } => {
            if accepted(*answer) {
                bookings.settle(*job, step);
            }
        }
        CoreKind::Status { pruned, .. } => end_all(bookings, own, pruned.get()),
        CoreKind::Drain { .. } => (),
    }
}
