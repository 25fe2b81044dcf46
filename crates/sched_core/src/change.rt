//! What an entry does to the registrations that stand, one by one.
ghost use Rattle.std.specs.Prelude.{◌≡◌, ◌≤◌, ◌+◌, ◌*◌, ◌^◌, ◌++◌, ℕ, true, false, None, IsSome, IfSome};
ghost use Rattle.std.specs.Prelude.{map, ◌&&◌, ◌∷◌, [], if◌then◌else◌, find};
ghost use Rattle.std.specs.List.{AllByRecursion};
ghost use Rattle.std.specs.Prelude.{filter, not, length, option_to_list};
ghost use Rattle.std.specs.Option.{option_map};
ghost use Rattle.core_rules.specs.Log.{names, is_this, same_job};
ghost use Rattle.core_rules.specs.Next.{row_after, row_freed, row_stays, served_by, settled};
ghost use Rattle.sched_core.specs.Books.{row_lowered};
ghost use Rattle.reservations.specs.Booked.{FreesNoOther};
ghost use Rattle.sched_core.specs.Books.{MayRegister, lowered_in};
ghost use Rattle.core_rules.specs.Next.{place_if, row_by};
ghost use Rattle.sched_core.specs.Changes.{row_changed, row_changed_at, row_changed_if, row_forgiven};
ghost use Rattle.sched_core.specs.Changes.{row_reserved, row_renewed};
ghost use Rattle.sched_core.specs.Registrations.{AreFew, reserve_looks, AreSoundRows};
ghost use Rattle.core_rules.specs.Reservation.{frees_by};
ghost use Rattle.reservations.specs.Booked.{held_view, open_view, open_in};
ghost use Rattle.sched_core.specs.declared.change.Change.TheVariants.{See, Lower};
ghost use Rattle.core_rules.specs.Laws.{AreDistinct};
ghost use Rattle.sched_core.specs.Changes.{AreReapedApart, row_without};

use crate::registrations::Registrations;
use core_rules::effects::{frees, heard, is_number};
use core_rules::entry::{CoreEntry, CoreKind, Reserved};
use core_rules::rows::ServerRow;
use core_rules::standing::{one_more, place_of, row_made};
use dist_types::ids::{JobId, ServerId};
use reservations::booked::{self, BookedRow};
use reservations::bookings::Bookings;
use row_index::Steps;
use std::sync::ledger::Ledger;

/// A change of one registration.
#[derive(Clone, Copy, Debug)]
pub enum Change {
    /// One reservation less.
    Lower,
    /// One reservation more.
    Raise,
    /// Its error is forgotten.
    Forgive,
    /// An error at that moment.
    Note(u64),
    /// Its last sign at that moment.
    See(u64),
    /// One reservation less, and its last sign at that moment.
    LowerAndSee(u64),
    /// It drains, or no longer.
    Draining(bool),
}

/// The row after a change.
#[inline(always)]
pub fn changed(row: ServerRow, change: Change) -> ServerRow
    ensures { result ≡ row_changed change row }
{
    match change {
        Change::Lower => ServerRow {
            load: row.load.saturating_sub(1),
            ..row
        },
        Change::Raise => ServerRow {
            load: one_more(true, row.load),
            ..row
        },
        Change::Forgive => ServerRow { error: None, ..row },
        Change::Note(moment) => ServerRow {
            error: Some(moment),
            ..row
        },
        Change::See(moment) => ServerRow {
            seen: moment,
            ..row
        },
        Change::LowerAndSee(moment) => ServerRow {
            load: row.load.saturating_sub(1),
            seen: moment,
            ..row
        },
        Change::Draining(on) => ServerRow {
            draining: on,
            ..row
        },
    }
}

/// Changes the registration of that number, if there is a number.
#[inline(always)]
fn apply_if<L: Ledger>(
    rows: &mut Registrations,
    reg: Option<u64>,
    change: Change,
    steps: &mut Steps<L>,
)
    ensures rows { rows.new.rows ≡ map (row_changed_if change reg) rows.old.rows }
    ensures places { rows.new.places ≡ rows.old.places }
{
    match reg {
        Some(reg) => rows.change(reg, change, steps),
        None => (),
    }
}

/// Forgets the errors of those registrations.
fn forgive<L: Ledger>(rows: &mut Registrations, numbers: &[u64], steps: &mut Steps<L>)
    ensures rows { rows.new.rows ≡ map (row_forgiven numbers.now) rows.old.rows }
    ensures places { rows.new.places ≡ rows.old.places }
    ensures looks { (h : ℕ) → rows.old.places.count ≤ 2 ^ h →
        steps.new ≤ steps.old + 2 * length numbers.now * (2 * h + 1) }
{
    for number in numbers {
        rows.change(*number, Change::Forgive, steps);
    }
}

/// What a reserve does.
#[inline(always)]
fn reserve<L: Ledger>(rows: &mut Registrations, reserved: &Reserved, steps: &mut Steps<L>)
    ensures rows { rows.new.rows ≡ map (row_reserved reserved.now) rows.old.rows }
    ensures places { rows.new.places ≡ rows.old.places }
    ensures looks { (h : ℕ) → rows.old.places.count ≤ 2 ^ h →
        steps.new ≤ steps.old + reserve_looks reserved.now h }
{
    match reserved {
        Reserved::Job { reg, forgiven, .. } => {
            rows.change(*reg, Change::Raise, steps);
            forgive(rows, forgiven.get(), steps);
        }
        Reserved::NoRoom(_) => (),
        Reserved::Spent => (),
    }
}

/// The number of a row, if there is one.
fn number_of(row: &Option<ServerRow>) -> Option<u64>
    ensures { result ≡ option_map (λ r. r.reg) row.now }
{
    match row {
        Some(row) => Some(row.reg),
        None => None,
    }
}

/// What a heartbeat does that says old: a sign of the registration at its address.
fn renew<L: Ledger>(
    rows: &mut Registrations,
    server: ServerId,
    is_new: bool,
    now: u64,
    steps: &mut Steps<L>,
)
    ensures rows { rows.new.rows ≡ map (row_renewed now server is_new) rows.old.rows }
    ensures places { rows.new.places ≡ rows.old.places }
{
    if !is_new {
        let row = rows.at(server);
        let number = number_of(&row);
        apply_if(rows, number, Change::See(now), steps);
    }
}

/// The registration of the open job of that id, where it counts.
fn place_if_heard(heard: bool, bookings: &Bookings, job: JobId) -> Option<u64>
    ensures { result ≡ (if heard then place_if (find (λ o. same_job o.job job) (open_view bookings.now.rows))
        else None) }
{
    if heard {
        let found = bookings.open_job(job);
        place_of(&found)
    } else {
        None
    }
}

/// Gives the registrations their last sign, load and error after an entry, and whether they drain.
fn change_rows<L: Ledger>(
    rows: &mut Registrations,
    step: &CoreEntry,
    bookings: &Bookings,
    steps: &mut Steps<L>,
)
    ensures rows { rows.new.rows ≡ map (row_after step.entry.now
        (served_by step.entry.now.kind (open_view bookings.now.rows))) rows.old.rows }
    ensures places { rows.new.places ≡ rows.old.places }
{
    match &step.kind {
        CoreKind::Reserve(reserved) => reserve(rows, reserved, steps),
        CoreKind::Commit { .. } => (),
        CoreKind::Undo { noted, .. } => apply_if(rows, *noted, Change::Note(step.now), steps),
        CoreKind::Beat { server, is_new, .. } => renew(rows, *server, *is_new, step.now, steps),
        CoreKind::Update { job, answer, .. } => {
            let served = place_if_heard(heard(*answer), bookings, *job);
            apply_if(rows, served, Change::See(step.now), steps);
        }
        CoreKind::Status { .. } => (),
        CoreKind::Drain { on, reg, .. } => apply_if(rows, *reg, Change::Draining(*on), steps),
    }
}

/// Ends the registrations of those numbers.
fn end_all<L: Ledger>(rows: &mut Registrations, numbers: &[u64], steps: &mut Steps<L>)
    ensures rows { rows.new.rows ≡ filter (λ r. not (names numbers.now r.reg)) rows.old.rows }
    ensures places { rows.new.places ≡ rows.old.places }
{
    for number in numbers {
        rows.end(*number, steps);
    }
}

/// Ends the registration of that number, if there is a number.
fn end_if<L: Ledger>(rows: &mut Registrations, number: Option<u64>, steps: &mut Steps<L>)
    ensures rows { rows.new.rows ≡ filter (λ r. not (is_this number r.reg)) rows.old.rows }
    ensures places { rows.new.places ≡ rows.old.places }
{
    match number {
        Some(number) => rows.end(number, steps),
        None => (),
    }
}

/// Takes out the registrations that an entry ends.
fn end_rows<L: Ledger>(rows: &mut Registrations, kind: &CoreKind, steps: &mut Steps<L>)
    ensures rows { rows.new.rows ≡ filter (row_stays kind.now) rows.old.rows }
    ensures places { rows.new.places ≡ rows.old.places }
{
    match kind {
        CoreKind::Reserve(_) => (),
        CoreKind::Commit { .. } => (),
        CoreKind::Undo { .. } => (),
        CoreKind::Beat {
            pruned,
            replaced,
            ..
        } => {
            end_all(rows, pruned.get(), steps);
            end_if(rows, *replaced, steps);
        }
        CoreKind::Update { .. } => (),
        CoreKind::Status { pruned, .. } => end_all(rows, pruned.get(), steps),
        CoreKind::Drain { .. } => (),
    }
}

/// Whether an entry ends the reservation.
fn freed(b: &BookedRow, kind: &CoreKind) -> bool
    ensures { result ≡ (b.now.unended && frees_by kind.now b.now.job b.now.reg) }
{
    b.unended && frees(kind, b.job, b.reg)
}

/// Takes one reservation from the load of a registration, where it ended.
fn lower_if<L: Ledger>(rows: &mut Registrations, freed: bool, reg: u64, steps: &mut Steps<L>)
    ensures freed { freed ≡ true → rows.new.rows ≡ map (row_lowered reg) rows.old.rows }
    ensures kept { freed ≡ false → rows.new.rows ≡ rows.old.rows }
    ensures places { rows.new.places ≡ rows.old.places }
{
    if freed {
        rows.change(reg, Change::Lower, steps);
    }
}

/// Takes the reservation of a job from the load of its registration, where an entry of that job ended it.
fn free_job<L: Ledger>(
    rows: &mut Registrations,
    bookings: &Bookings,
    job: JobId,
    kind: &CoreKind,
    steps: &mut Steps<L>,
)
    requires { FreesNoOther kind.now job }
    ensures rows { rows.new.rows ≡ map (row_freed kind.now (held_view bookings.now.rows)) rows.old.rows }
    ensures places { rows.new.places ≡ rows.old.places }
{
    match bookings.row(job) {
        Some(b) => lower_if(rows, freed(&b, kind), b.reg, steps),
        None => (),
    }
}

/// Takes the reservation of a job, where it is unended, from the load of its registration.
fn free_one<L: Ledger>(
    rows: &mut Registrations,
    bookings: &Bookings,
    job: JobId,
    steps: &mut Steps<L>,
)
    ensures rows { rows.new.rows ≡ map (row_without (job ∷ []) (held_view bookings.now.rows)) rows.old.rows }
    ensures places { rows.new.places ≡ rows.old.places }
{
    match bookings.row(job) {
        Some(b) => lower_if(rows, b.unended, b.reg, steps),
        None => (),
    }
}

/// Takes the reservations of different jobs, where they are unended, from the loads of their registrations.
fn free_each<L: Ledger>(
    rows: &mut Registrations,
    bookings: &Bookings,
    jobs: &[JobId],
    steps: &mut Steps<L>,
)
    requires { AreDistinct jobs.now }
    ensures rows { rows.new.rows ≡ map (row_without jobs.now (held_view bookings.now.rows)) rows.old.rows }
    ensures places { rows.new.places ≡ rows.old.places }
{
    for job in jobs {
        free_one(rows, bookings, *job, steps);
    }
}

/// Takes the reservations that an entry ends from the loads of their registrations, where it leaves all these
/// standing.
fn free_rows<L: Ledger>(
    rows: &mut Registrations,
    bookings: &Bookings,
    kind: &CoreKind,
    steps: &mut Steps<L>,
)
    requires stay { AllByRecursion (λ r. row_stays kind.now r ≡ true) rows.old.rows }
    requires apart { AreReapedApart kind.now }
    ensures rows { rows.new.rows ≡ map (row_freed kind.now (held_view bookings.now.rows)) rows.old.rows }
    ensures places { rows.new.places ≡ rows.old.places }
{
    match kind {
        CoreKind::Reserve(_) => (),
        CoreKind::Commit { .. } => (),
        CoreKind::Undo { job, .. } => free_job(rows, bookings, *job, kind, steps),
        CoreKind::Beat { reaped, .. } => free_each(rows, bookings, reaped.get(), steps),
        CoreKind::Update { job, .. } => free_job(rows, bookings, *job, kind, steps),
        CoreKind::Status { .. } => (),
        CoreKind::Drain { .. } => (),
    }
}

/// What an entry does to the registrations that stood before it: those that it ends are taken out, and the
/// others get their loads, last signs and errors.
#[inline(always)]
fn settle<L: Ledger>(
    rows: &mut Registrations,
    bookings: &Bookings,
    step: &CoreEntry,
    steps: &mut Steps<L>,
)
    requires { AreReapedApart step.now.kind }
    ensures rows { rows.new.rows ≡
        settled step.entry.now (held_view bookings.now.rows) (open_view bookings.now.rows) rows.old.rows }
    ensures places { rows.new.places ≡ rows.old.places }
{
    end_rows(rows, &step.kind, steps);
    free_rows(rows, bookings, &step.kind, steps);
    change_rows(rows, step, bookings, steps);
}

/// Takes one reservation from the load of a registration, if one is given, and then gives that of the other
/// number, if there is one, its last sign. Where both are one it is changed once.
#[inline(always)]
fn lower_and_see<L: Ledger>(
    rows: &mut Registrations,
    lowered: Option<u64>,
    seen: Option<u64>,
    now: u64,
    steps: &mut Steps<L>,
)
    ensures rows { rows.new.rows ≡
        map (row_changed_if (See now) seen) (map (row_changed_if Lower lowered) rows.old.rows) }
    ensures places { rows.new.places ≡ rows.old.places }
{
    match lowered {
        Some(reg) => {
            if is_number(seen, reg) {
                rows.change(reg, Change::LowerAndSee(now), steps);
            } else {
                apply_if(rows, lowered, Change::Lower, steps);
                apply_if(rows, seen, Change::See(now), steps);
            }
        }
        None => apply_if(rows, seen, Change::See(now), steps),
    }
}

/// The registration of the reservation that was found, where an entry ends it.
fn lowered_in(found: &Option<BookedRow>, kind: &CoreKind) -> Option<u64>
    ensures { result ≡ lowered_in kind.now found.now }
{
    match found {
        Some(b) => { if freed(b, kind) { Some(b.reg) } else { None } }
        None => None,
    }
}

/// The registration of the open job of the reservation that was found, where it counts.
fn seen_in(found: &Option<BookedRow>, heard: bool) -> Option<u64>
    ensures { result ≡ (if heard then place_if (open_in found.now) else None) }
{
    if heard {
        let open = booked::open_job(found);
        place_of(&open)
    } else {
        None
    }
}

/// The same. A reserve looks at no more nodes of the trees than it must, a commit at no row, and an update
/// changes one row once.
#[inline(always)]
pub fn absorb_rows<L: Ledger>(
    rows: &mut Registrations,
    bookings: &Bookings,
    step: &CoreEntry,
    steps: &mut Steps<L>,
)
    requires { AreReapedApart step.now.kind }
    ensures rows { rows.new.rows ≡
        settled step.entry.now (held_view bookings.now.rows) (open_view bookings.now.rows) rows.old.rows }
    ensures places { rows.new.places ≡ rows.old.places }
    ensures looks { (h : ℕ) → rows.old.places.count ≤ 2 ^ h →
        AreFew step.entry.now.kind h steps.old steps.new }
{
    match &step.kind {
        CoreKind::Reserve(reserved) => reserve(rows, reserved, steps),
        CoreKind::Commit { .. } => (),
        CoreKind::Undo { .. } => settle(rows, bookings, step, steps),
        CoreKind::Beat { .. } => settle(rows, bookings, step, steps),
        CoreKind::Update { job, answer, .. } => {
            let found = bookings.row(*job);
            let lowered = lowered_in(&found, &step.kind);
            let seen = seen_in(&found, heard(*answer));
            lower_and_see(rows, lowered, seen, step.now, steps);
        }
        CoreKind::Status { .. } => settle(rows, bookings, step, steps),
        CoreKind::Drain { .. } => settle(rows, bookings, step, steps),
    }
}

/// Adds a registration, if there is one.
#[inline(always)]
fn push_row<L: Ledger>(rows: &mut Registrations, row: Option<ServerRow>, steps: &mut Steps<L>)
    requires room { IsSome row → rows.old.places.has_left ≡ true }
    requires above { IfSome row (λ r. rows.old.places.top ≤ r.reg) }
    requires sound { AreSoundRows (rows.old.rows ++ option_to_list row) }
    ensures rows { rows.new.rows ≡ rows.old.rows ++ option_to_list row }
    ensures count { rows.new.places.count ≡ rows.old.places.count }
    ensures top { (n : ℕ) → rows.old.places.top ≤ n → IfSome row (λ r. r.reg ≡ n)
        → rows.new.places.top ≤ n + 1 }
    ensures none { row ≡ None → steps.new ≡ steps.old }
{
    match row {
        Some(row) => rows.push(row, steps),
        None => (),
    }
}

/// Adds the registration that an entry of this number makes, if it makes one.
#[inline(always)]
pub fn push_made<L: Ledger>(
    rows: &mut Registrations,
    step: &CoreEntry,
    number: u64,
    steps: &mut Steps<L>,
)
    requires room { MayRegister step.now.kind → rows.old.places.has_left ≡ true }
    requires above { rows.old.places.top ≤ number }
    requires sound { AreSoundRows (rows.old.rows ++
        option_to_list (row_by step.now.kind number step.now.now)) }
    ensures rows { rows.new.rows ≡ rows.old.rows ++
        option_to_list (row_by step.entry.now.kind number step.entry.now.now) }
    ensures count { rows.new.places.count ≡ rows.old.places.count }
    ensures top { rows.new.places.top ≤ number + 1 }
    ensures none { row_by step.entry.now.kind number step.entry.now.now ≡ None → steps.new ≡ steps.old }
{
    if step.is_new_beat() {
        push_row(rows, row_made(step, number), steps);
    }
}
