//! A reservation as one row, from its reserving on: what an entry makes of it, and what is read off it.
ghost use Rattle.std.specs.Prelude.{◌≡◌, [], MatchOption, Some};
ghost use Rattle.std.specs.Option.{option_map};
ghost use Rattle.reservations.specs.Booked.{booked_new, held_part_of, job_part_of, open_part_of, job_view};
ghost use Rattle.reservations.specs.Booked.{is_unspent_in, is_held_in, address_in, open_in};
ghost use Rattle.reservations.specs.Booked.{IsFirstHeld};
ghost use Rattle.reservations.specs.Booked.{booked_after};
ghost use Rattle.reservations.specs.Own.{ended_row, is_own, is_own_at, own_part_of, own_row_at, is_open_row};

use core_rules::effects::{claims, frees, ready_now, spends, state_now};
use core_rules::entry::CoreEntry;
use core_rules::rows::{HeldRow, JobRow, OpenRow};
use dist_types::ids::{JobId, ServerId};
use dist_types::results::JobState;
use row_index::Identified;

/// A reservation.
#[derive(Clone, Copy, Debug)]
pub struct BookedRow {
    /// Its number: the place in the log of the entry that made it.
    pub number: u64,
    /// Its job.
    pub job: JobId,
    /// The registration that it was made at.
    pub reg: u64,
    /// The address of that registration.
    pub server: ServerId,
    /// The moment at which it was made, in milliseconds.
    pub reserved_at: u64,
    /// The state of its job, if the job is committed.
    pub state: Option<JobState>,
    /// The moment at which its job became ready, in milliseconds, if it did.
    pub ready_at: Option<u64>,
    /// Whether the build has begun.
    pub claimed: bool,
    /// Whether no commit and no undo has spent it.
    pub unspent: bool,
    /// Whether nothing has ended it.
    pub unended: bool,
}

impl Identified for BookedRow {
    ghost id_of = { λ b. b.job.0 };

    fn id(&self) -> u64 {
        self.job.0
    }
}

/// The reservation that was just made, if one was.
pub fn booked(job: &Option<JobRow>) -> Option<BookedRow>
    ensures { result ≡ option_map booked_new job.now }
{
    match job {
        Some(j) => Some(BookedRow {
            number: j.number,
            job: j.job,
            reg: j.reg,
            server: j.server,
            reserved_at: j.reserved_at,
            state: j.state,
            ready_at: j.ready_at,
            claimed: j.claimed,
            unspent: true,
            unended: true,
        }),
        None => None,
    }
}

/// The row of a reservation after an entry.
#[inline(always)]
pub fn booked_now(b: &BookedRow, step: &CoreEntry) -> BookedRow
    ensures { result ≡ booked_after step.entry.now b.now }
{
    let kind = &step.kind;
    BookedRow {
        number: b.number,
        job: b.job,
        reg: b.reg,
        server: b.server,
        reserved_at: b.reserved_at,
        state: state_now(kind, b.job, b.state),
        ready_at: ready_now(step, b.job, b.ready_at),
        claimed: b.claimed || claims(kind, b.job),
        unspent: b.unspent && !spends(kind, b.job),
        unended: b.unended && !frees(kind, b.job, b.reg),
    }
}

/// The row of a reservation once it is ended.
pub fn ended(b: &BookedRow) -> BookedRow
    ensures { result ≡ ended_row b.now }
{
    BookedRow {
        unended: false,
        ..*b
    }
}

/// Whether the reservation is unended and at the registration.
fn is_own(b: &BookedRow, reg: u64) -> bool
    ensures { result ≡ is_own reg b.now }
{
    b.unended && b.reg == reg
}

/// The same of the reservation in a place.
pub fn is_own_at(rows: &[BookedRow], place: usize, reg: u64) -> bool
    ensures { result ≡ is_own_at reg rows.now place }
{
    match rows.get(place) {
        Some(b) => is_own(b, reg),
        None => false,
    }
}

/// The reservation, where it is unended and at the registration.
fn own_part(b: &BookedRow, reg: u64) -> Option<BookedRow>
    ensures { result ≡ own_part_of reg (Some b.now) }
{
    if is_own(b, reg) { Some(*b) } else { None }
}

/// The same of the reservation in a place.
pub fn own_row_at(rows: &[BookedRow], place: usize, reg: u64) -> Option<BookedRow>
    ensures { result ≡ own_row_at reg rows.now place }
{
    match rows.get(place) {
        Some(b) => own_part(b, reg),
        None => None,
    }
}

/// Whether the reservation's job is open.
pub fn is_open(b: &BookedRow) -> bool
    ensures { result ≡ is_open_row b.now }
{
    b.unended && !b.unspent && b.state.is_some()
}

/// A reservation as an unended one.
pub fn held_part(b: &BookedRow) -> HeldRow
    ensures { result ≡ held_part_of b.now }
{
    HeldRow {
        number: b.number,
        job: b.job,
        reg: b.reg,
        reserved_at: b.reserved_at,
        state: b.state,
        ready_at: b.ready_at,
        claimed: b.claimed,
    }
}

/// The same with its address.
pub fn job_part(b: &BookedRow) -> JobRow
    ensures { result ≡ job_part_of b.now }
{
    JobRow {
        number: b.number,
        job: b.job,
        reg: b.reg,
        server: b.server,
        reserved_at: b.reserved_at,
        state: b.state,
        ready_at: b.ready_at,
        claimed: b.claimed,
    }
}

/// The open job of a spent and unended reservation, if its job has a state.
fn open_at(b: &BookedRow) -> Option<OpenRow>
    ensures { result ≡ option_map
        (λ s. record { job = b.now.job; reg = Some b.now.reg; server = Some b.now.server; state = s })
        b.now.state }
{
    match b.state {
        Some(state) => Some(OpenRow {
            job: b.job,
            reg: Some(b.reg),
            server: Some(b.server),
            state,
        }),
        None => None,
    }
}

/// The open job of a reservation.
pub fn open_part(b: &BookedRow) -> Option<OpenRow>
    ensures { result ≡ open_part_of b.now }
{
    if b.unended && !b.unspent {
        open_at(b)
    } else {
        None
    }
}

/// Whether the reservation that was found has that number and is unspent.
pub fn is_unspent(found: &Option<BookedRow>, number: u64) -> bool
    ensures { result ≡ is_unspent_in found.now number }
{
    match found {
        Some(b) => b.unspent && b.number == number,
        None => false,
    }
}

/// Whether the reservation that was found has that number and is unended.
pub fn is_held(found: &Option<BookedRow>, number: u64) -> bool
    ensures { result ≡ is_held_in found.now number }
{
    match found {
        Some(b) => b.unended && b.number == number,
        None => false,
    }
}

/// The address of the reservation that was found, where it has that number and is unspent.
pub fn unspent_address(found: &Option<BookedRow>, number: u64) -> Option<ServerId>
    ensures { result ≡ address_in found.now number }
{
    match found {
        Some(b) => {
            if b.unspent && b.number == number {
                Some(b.server)
            } else {
                None
            }
        }
        None => None,
    }
}

/// The open job of the reservation that was found.
pub fn open_job(found: &Option<BookedRow>) -> Option<OpenRow>
    ensures { result ≡ open_in found.now }
{
    match found {
        Some(b) => open_part(b),
        None => None,
    }
}

/// The place of the first unended reservation, if there is one.
pub fn first_held(rows: &[BookedRow]) -> Option<usize>
    ensures { MatchOption result (job_view rows.now ≡ []) (IsFirstHeld rows.now) }
{
    for (place, b) in rows.iter().enumerate() {
        if b.unended {
            return Some(place);
        }
    }
    None
}
