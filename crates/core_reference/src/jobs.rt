//! Which reservations are unspent and unended, and which jobs are open.
ghost use Rattle.std.specs.Prelude.{◌≡◌, ◌==◌, ◌&&◌, IfOk, map, option_and_then};
ghost use Rattle.std.specs.List.{filter_map, list_any};
ghost use Rattle.core_rules.specs.Cuts.{lasting};
ghost use Rattle.core_rules.specs.Log.{latest, same_job};
ghost use Rattle.core_rules.specs.Standing.{address_of};
ghost use Rattle.core_rules.specs.Reservation.{booked_at, booked_by, spends_by, frees_by, claims_by};
ghost use Rattle.core_rules.specs.Job.{committed_by, drops_by, is_open, ends_place_by, moves_by, place_of};
ghost use Rattle.core_rules.specs.Next.{held_by};
ghost use Rattle.core_rules.specs.Rows.{held_of, open_of, open_rows};
ghost use Rattle.core_reference.specs.Plain.{seen, lasts_as};

use crate::entries::{address_in, place_in, push_if, ready_in, state_in};
use core_rules::effects::{claims, complete, ends, frees, moves, reaps, spends};
use core_rules::entry::{CoreEntry, CoreKind, Reserved};
use core_rules::rows::{HeldRow, OpenRow};
use dist_types::ids::{JobId, ServerId};
use dist_types::results::JobState;
use std::alloc::{AllocError, Global};

/// Which reservations are asked for.
#[derive(Clone, Copy, Debug)]
pub(crate) enum Which {
    /// Those that no later commit or undo names.
    Unspent,
    /// Those that no later entry ends.
    Unended,
}

/// The reservation that an entry of this number makes, as it begins.
fn begun(step: &CoreEntry, number: u64) -> Option<HeldRow>
    ensures { result ≡ held_by step.entry.now.kind number step.entry.now.now }
{
    match &step.kind {
        CoreKind::Reserve(Reserved::Job { job, reg, .. }) => Some(HeldRow {
            number,
            job: *job,
            reg: *reg,
            reserved_at: step.now,
            state: None,
            ready_at: None,
            claimed: false,
        }),
        _ => None,
    }
}

/// Whether one of the entries spends the job's reservation.
fn is_spent(entries: &[CoreEntry], job: JobId) -> bool
    ensures { result ≡ list_any (λ e. spends_by e.kind job) entries.now }
{
    entries.iter().any(|e| spends(&e.kind, job))
}

/// Whether one of the entries ends the job's reservation at the registration.
fn is_freed(entries: &[CoreEntry], job: JobId, reg: u64) -> bool
    ensures { result ≡ list_any (λ e. frees_by e.kind job reg) entries.now }
{
    entries.iter().any(|e| frees(&e.kind, job, reg))
}

/// Whether one of the entries says that the job's build has begun.
fn is_claimed(entries: &[CoreEntry], job: JobId) -> bool
    ensures { result ≡ list_any (λ e. claims_by e.kind job) entries.now }
{
    entries.iter().any(|e| claims(&e.kind, job))
}

/// Whether the reservation lasts over the entries after it.
fn lasts(which: Which, row: &HeldRow, later: &[CoreEntry]) -> bool
    ensures { result ≡ lasts_as which row.now.job row.now.reg later.now }
{
    match which {
        Which::Unspent => !is_spent(later, row.job),
        Which::Unended => !is_freed(later, row.job, row.reg),
    }
}

/// The reservation that an entry of this number makes, where it lasts over the entries after it.
fn reservation(which: Which, step: &CoreEntry, number: u64, later: &[CoreEntry]) -> Option<HeldRow>
    ensures { result ≡ option_and_then (seen (λ b. lasts_as which b.job b.reg b.later) held_of)
        (booked_by step.entry.now.kind number step.entry.now.now later.now) }
{
    let row = begun(step, number)?;
    if lasts(which, &row, later) {
        Some(HeldRow {
            state: state_in(later, row.job),
            ready_at: ready_in(later, row.job),
            claimed: is_claimed(later, row.job),
            ..row
        })
    } else {
        None
    }
}

/// Those reservations, in the order of their reserving. Refused for want of memory alone.
pub(crate) fn reservations(
    alloc: Global,
    log: &[CoreEntry],
    which: Which,
) -> Result<Vec<HeldRow>, AllocError>
    ensures { IfOk result (λ v. v.items ≡
        map held_of (lasting booked_at (λ b. lasts_as which b.job b.reg b.later) log.now)) }
{
    let mut rows = Vec::new(alloc);
    for (place, step) in log.iter().enumerate() {
        let row = reservation(which, step, place as u64, &log[place + 1..]);
        push_if(&mut rows, row)?;
    }
    Ok(rows)
}

/// Whether the reservation of that number and job is among those.
pub(crate) fn is_among(rows: &[HeldRow], number: u64, job: JobId) -> bool
    ensures { result ≡ list_any (λ h. (h.number == number) && same_job h.job job) rows.now }
{
    rows.iter().any(|h| h.number == number && h.job.0 == job.0)
}

/// Whether an entry of this kind ends the registration, if there is one.
fn ends_place(kind: &CoreKind, reg: Option<u64>) -> bool
    ensures { result ≡ ends_place_by kind.now reg }
{
    match reg {
        Some(reg) => ends(kind, reg),
        None => false,
    }
}

/// Whether one of the entries reaps the job or ends its registration.
fn is_dropped(entries: &[CoreEntry], job: JobId, reg: Option<u64>) -> bool
    ensures { result ≡ list_any (λ e. drops_by e.kind job reg) entries.now }
{
    entries
        .iter()
        .any(|e| reaps(&e.kind, job) || ends_place(&e.kind, reg))
}

/// The state of a job that was committed in that one.
fn state_from(entries: &[CoreEntry], job: JobId, first: JobState) -> JobState
    ensures { result ≡ latest first (filter_map (λ e. moves_by e.kind job) entries.now) }
{
    let mut state = first;
    for e in entries {
        state = moves(&e.kind, job).unwrap_or(state);
    }
    state
}

/// The address of the registration, if there is one.
fn address_if(log: &[CoreEntry], reg: Option<u64>) -> Option<ServerId>
    ensures { result ≡ option_and_then (address_of log.now) reg }
{
    match reg {
        Some(reg) => address_in(log, reg),
        None => None,
    }
}

/// The job that was committed between those entries, where it is open.
fn open_row(
    log: &[CoreEntry],
    before: &[CoreEntry],
    later: &[CoreEntry],
    job: JobId,
    state: JobState,
) -> Option<OpenRow>
    ensures { result ≡ seen is_open (open_of log.now) (record {
      job = job;
      reg = place_of job before.now;
      state = state;
      later = later.now;
    }) }
{
    let reg = place_in(before, job);
    let state = state_from(later, job, state);
    if complete(state) {
        return None;
    }
    if is_dropped(later, job, reg) {
        return None;
    }
    Some(OpenRow {
        job,
        reg,
        server: address_if(log, reg),
        state,
    })
}

/// The job that an entry commits between those entries, where it is open.
fn open_at(
    log: &[CoreEntry],
    before: &[CoreEntry],
    step: &CoreEntry,
    later: &[CoreEntry],
) -> Option<OpenRow>
    ensures { result ≡ option_and_then (seen is_open (open_of log.now))
        (committed_by step.entry.now.kind before.now later.now) }
{
    match &step.kind {
        CoreKind::Commit { job, state, kept } => {
            if *kept {
                open_row(log, before, later, *job, *state)
            } else {
                None
            }
        }
        _ => None,
    }
}

/// The open jobs, in the order of their commits. Refused for want of memory alone.
pub(crate) fn open_jobs(alloc: Global, log: &[CoreEntry]) -> Result<Vec<OpenRow>, AllocError>
    ensures { IfOk result (λ v. v.items ≡ open_rows log.now) }
{
    let mut rows = Vec::new(alloc);
    for (place, step) in log.iter().enumerate() {
        let row = open_at(log, &log[..place], step, &log[place + 1..]);
        push_if(&mut rows, row)?;
    }
    Ok(rows)
}
