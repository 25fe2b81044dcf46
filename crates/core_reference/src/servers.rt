//! Which registrations stand, with their last signs, loads and errors.
ghost use Rattle.std.specs.Prelude.{◌≡◌, ◌∷◌, ◌++◌, [], ◌&&◌, ◌||◌, IfOk, map, filter, if◌then◌else◌};
ghost use Rattle.std.specs.List.{filter_map, list_any};
ghost use Rattle.core_rules.specs.Cuts.{cuts, lasting};
ghost use Rattle.core_rules.specs.Log.{latest, same_job};
ghost use Rattle.core_rules.specs.Standing.{registered_at, stands, ended, ends_by, is_sign, renews_by};
ghost use Rattle.core_rules.specs.Rows.{servers_of};
ghost use Rattle.core_reference.specs.Plain.{shown, signed, loaded, job_at, serves_one, sign_among};

use crate::entries::{error_in, is_draining, push_if};
use crate::jobs::{Which, reservations};
use core_rules::effects::{ends, heard};
use core_rules::entry::{CoreEntry, CoreKind, Reserved};
use core_rules::rows::{HeldRow, ServerRow};
use core_rules::standing::row_made;
use dist_types::ids::{JobId, ServerId};
use std::alloc::{AllocError, Global};

/// The job that an entry of this kind reserves at the registration.
fn job_reserved(kind: &CoreKind, number: u64) -> Option<JobId>
    ensures { result ≡ job_at kind.now number }
{
    match kind {
        CoreKind::Reserve(Reserved::Job { job, reg, .. }) => {
            if *reg == number { Some(*job) } else { None }
        }
        _ => None,
    }
}

/// The jobs that the entries reserve at the registration. Refused for want of memory alone.
fn jobs_reserved(alloc: Global, log: &[CoreEntry], reg: u64) -> Result<Vec<JobId>, AllocError>
    ensures { IfOk result (λ v. v.items ≡ filter_map (λ e. job_at e.kind reg) log.now) }
{
    log.iter()
        .filter_map(|e| job_reserved(&e.kind, reg))
        .collect(alloc)
}

/// Whether an entry of this kind is a heartbeat at the address that says old.
fn renews(kind: &CoreKind, at: ServerId) -> bool
    ensures { result ≡ renews_by kind.now at }
{
    match kind {
        CoreKind::Beat { server, is_new, .. } => !*is_new && at == *server,
        _ => false,
    }
}

/// Whether the job is among those.
fn is_listed(jobs: &[JobId], job: JobId) -> bool
    ensures { result ≡ list_any (λ j. same_job j job) jobs.now }
{
    jobs.iter().any(|j| j.0 == job.0)
}

/// Whether an entry of this kind is an update of one of those jobs that counts as a sign.
fn serves(kind: &CoreKind, jobs: &[JobId]) -> bool
    ensures { result ≡ serves_one kind.now jobs.now }
{
    match kind {
        CoreKind::Update { job, answer, .. } => heard(*answer) && is_listed(jobs, *job),
        _ => false,
    }
}

/// The moment of the entry where it is a sign of the registration, else the one before.
fn sign_now(step: &CoreEntry, at: ServerId, over: bool, jobs: &[JobId], before: u64) -> u64
    ensures { result ≡ (if sign_among step.entry.now.kind at over jobs.now then step.entry.now.now else before) }
{
    if renews(&step.kind, at) && !over || serves(&step.kind, jobs) {
        step.now
    } else {
        before
    }
}

/// Whether it was over before, or an entry of this kind ends it.
fn is_over(before: bool, kind: &CoreKind, reg: u64) -> bool
    ensures { result ≡ (before || ends_by kind.now reg) }
{
    before || ends(kind, reg)
}

/// The last sign of a registration that the entry made, of the entries after it.
fn last_sign(
    alloc: Global,
    before: &[CoreEntry],
    step: &CoreEntry,
    later: &[CoreEntry],
    row: &ServerRow,
) -> Result<u64, AllocError>
    ensures { IfOk result (λ seen. seen ≡ latest row.now.seen (map (λ c. c.at.now)
        (filter (is_sign row.now.server row.now.reg (before.now ++ step.entry.now ∷ [])) (cuts later.now)))) }
{
    let mut jobs = jobs_reserved(alloc, before, row.reg)?;
    push_if(&mut jobs, job_reserved(&step.kind, row.reg))?;
    let mut over = false;
    let mut seen = row.seen;
    for e in later {
        seen = sign_now(e, row.server, over, &jobs, seen);
        over = is_over(over, &e.kind, row.reg);
        push_if(&mut jobs, job_reserved(&e.kind, row.reg))?;
    }
    Ok(seen)
}

/// Whether one of the entries ends the registration.
fn is_ended(entries: &[CoreEntry], reg: u64) -> bool
    ensures { result ≡ ended entries.now reg }
{
    entries.iter().any(|e| ends(&e.kind, reg))
}

/// The registration that an entry makes between those entries, where it stands, with its last sign
/// and whether it is draining.
fn standing_at(
    alloc: Global,
    before: &[CoreEntry],
    step: &CoreEntry,
    later: &[CoreEntry],
) -> Result<Option<ServerRow>, AllocError>
    ensures { IfOk result (λ row. row ≡ shown registered_at stands signed
        (record { before = before.now; at = step.entry.now; after = later.now })) }
{
    let Some(row) = row_made(step, before.len() as u64) else {
        return Ok(None);
    };
    if is_ended(later, row.reg) {
        return Ok(None);
    }
    let seen = last_sign(alloc, before, step, later, &row)?;
    let draining = is_draining(later, row.reg);
    Ok(Some(ServerRow {
        seen,
        draining,
        ..row
    }))
}

/// The registrations that stand, by rising number, without loads and errors. Refused for want of memory
/// alone.
fn standing(alloc: Global, log: &[CoreEntry]) -> Result<Vec<ServerRow>, AllocError>
    ensures { IfOk result (λ v. v.items ≡ map signed (lasting registered_at stands log.now)) }
{
    let mut rows = Vec::new(alloc);
    for (place, step) in log.iter().enumerate() {
        let row = standing_at(alloc, &log[..place], step, &log[place + 1..])?;
        push_if(&mut rows, row)?;
    }
    Ok(rows)
}

/// The row with its load and its error.
fn loaded(row: &ServerRow, log: &[CoreEntry], held: &[HeldRow]) -> ServerRow
    ensures { result ≡ loaded held.now log.now row.now }
{
    ServerRow {
        load: held.iter().filter(|h| h.reg == row.reg).count() as u64,
        error: error_in(log, row.reg),
        ..*row
    }
}

/// The rows with their loads and errors. Refused for want of memory alone.
fn all_loaded(
    alloc: Global,
    rows: &[ServerRow],
    log: &[CoreEntry],
    held: &[HeldRow],
) -> Result<Vec<ServerRow>, AllocError>
    ensures { IfOk result (λ v. v.items ≡ map (loaded held.now log.now) rows.now) }
{
    rows.iter().map(|row| loaded(row, log, held)).collect(alloc)
}

/// The registrations that stand, by rising number. Refused for want of memory alone.
pub fn servers(alloc: Global, log: &[CoreEntry]) -> Result<Vec<ServerRow>, AllocError>
    ensures rows { IfOk result (λ v. v.items ≡ servers_of log.now) }
{
    let held = reservations(alloc, log, Which::Unended)?;
    let rows = standing(alloc, log)?;
    let all = all_loaded(alloc, &rows, log, &held)?;
    Ok(all)
}
