//! What a call decides over the rows of what stands, is unended and is open, by going over all of them.
ghost use Rattle.std.specs.Prelude.{◌≡◌, ◌-◌, ◌<◌, ◌^◌, ◌*◌, IfOk, min, sum_by, length, filter, nat_lt, find};
ghost use Rattle.core_rules.specs.Log.{same_job};
ghost use Rattle.core_rules.specs.Pick.{is_lighter, is_older, first_best, or_else, pick, is_stale, forgiven};
ghost use Rattle.core_rules.specs.Prune.{prune, left, at_address};
ghost use Rattle.core_rules.specs.Reap.{reap};
ghost use Rattle.core_rules.specs.Rule.{noted_over, reserved_at, reaped_by, beat_over, drain_over, is_left};
ghost use Rattle.core_rules.specs.Rule.{status_over};

use core_rules::entry::{CoreEntry, CoreKind, Reserved};
use core_rules::rows::{HeldRow, OpenRow, ServerRow};
use core_rules::rules::{ERROR_TIMEOUT, is_roomy, reapable};
use core_rules::standing::{drained, is_new, is_silent, replaced, status_entry};
use dist_types::ids::{JobId, ServerId, ServerNonce};
use dist_types::results::SchedulerStatusResult;
use dist_types::rules::Rules;
use dist_types::text::{Bytes, Items};
use std::alloc::{AllocError, Global};

// Which registration a reservation goes to.

/// Whether the first fraction is less than the second.
fn is_less(load: u64, cpus: u64, other_load: u64, other_cpus: u64) -> bool
    ensures { result ≡ nat_lt (load * other_cpus) (other_load * cpus) }
{
    u128::from(load) * u128::from(other_cpus) < u128::from(other_load) * u128::from(cpus)
}

/// Whether the first has less load for each processor.
fn lighter(a: &ServerRow, b: &ServerRow) -> bool
    ensures { result ≡ is_lighter a.now b.now }
{
    is_less(a.load, a.cpus, b.load, b.cpus)
}

/// Whether the first has the older error.
fn older(a: &ServerRow, b: &ServerRow) -> bool
    ensures { result ≡ is_older a.now b.now }
{
    a.error.unwrap_or(0) < b.error.unwrap_or(0)
}

/// The first that none is lighter than.
fn lightest(rows: &[ServerRow]) -> Option<ServerRow>
    ensures { result ≡ first_best is_lighter rows.now }
{
    let (first, rest) = rows.split_first()?;
    let mut best = *first;
    for row in rest {
        if lighter(row, &best) {
            best = *row;
        }
    }
    Some(best)
}

/// The first whose error is oldest.
fn oldest(rows: &[ServerRow]) -> Option<ServerRow>
    ensures { result ≡ first_best is_older rows.now }
{
    let (first, rest) = rows.split_first()?;
    let mut best = *first;
    for row in rest {
        if older(row, &best) {
            best = *row;
        }
    }
    Some(best)
}

/// The first choice, or the second where there is none.
fn first_choice(first: &Option<ServerRow>, second: &Option<ServerRow>) -> Option<ServerRow>
    ensures { result ≡ or_else first.now second.now }
{
    match first {
        Some(row) => Some(*row),
        None => *second,
    }
}

/// The registration that the next reservation goes to, over the rows of those that stand: of those with
/// room the lightest without a remembered error, else the one whose error is oldest; the least number
/// decides. None where none has room. Refused for want of memory alone.
fn picked(alloc: Global, rows: &[ServerRow]) -> Result<Option<ServerRow>, AllocError>
    ensures { IfOk result (λ row. row ≡ pick rows.now) }
{
    let all: Vec<ServerRow> = rows
        .iter()
        .copied()
        .filter(|row| is_roomy(row))
        .collect(alloc)?;
    let free: Vec<ServerRow> = all
        .iter()
        .copied()
        .filter(|row| row.error.is_none())
        .collect(alloc)?;
    let first = lightest(&free);
    let second = oldest(&all);
    Ok(first_choice(&first, &second))
}

/// Whether an error is too old to be remembered on.
fn stale(error: Option<u64>, now: u64) -> bool
    ensures { result ≡ is_stale now error }
{
    match error {
        Some(moment) => now.saturating_sub(moment) > ERROR_TIMEOUT,
        None => false,
    }
}

/// The registrations with room whose errors a reservation forgets. Refused for want of memory alone.
fn forgiven_numbers(alloc: Global, rows: &[ServerRow], now: u64) -> Result<Vec<u64>, AllocError>
    ensures { IfOk result (λ v. v.items ≡ forgiven now rows.now) }
{
    rows.iter()
        .filter(|row| is_roomy(row))
        .filter(|row| stale(row.error, now))
        .map(|row| row.reg)
        .collect(alloc)
}

// Which registrations are pruned, and which reservations reaped.

/// The numbers of the registrations whose last sign is too long ago. Refused for want of memory alone.
fn pruned_numbers(alloc: Global, rows: &[ServerRow], now: u64) -> Result<Vec<u64>, AllocError>
    ensures { IfOk result (λ v. v.items ≡ prune now rows.now) }
{
    rows.iter()
        .filter(|row| is_silent(row, now))
        .map(|row| row.reg)
        .collect(alloc)
}

/// Those that are not. Refused for want of memory alone.
fn left(alloc: Global, rows: &[ServerRow], now: u64) -> Result<Vec<ServerRow>, AllocError>
    ensures { IfOk result (λ v. v.items ≡ left now rows.now) }
{
    rows.iter()
        .copied()
        .filter(|row| !is_silent(row, now))
        .collect(alloc)
}

/// The registration at an address.
fn row_at(rows: &[ServerRow], server: ServerId) -> Option<ServerRow>
    ensures { result ≡ at_address server rows.now }
{
    rows.iter().copied().find(|row| row.server == server)
}

/// The open job of that id.
pub(crate) fn open_job(rows: &[OpenRow], job: JobId) -> Option<OpenRow>
    ensures { result ≡ find (λ o. same_job o.job job) rows.now }
{
    rows.iter().copied().find(|o| o.job.0 == job.0)
}

// The entry of each call.

/// What becomes of a reserve over those rows, where so many ids were given before. Refused for want of
/// memory alone.
pub(crate) fn reserve(
    alloc: Global,
    rows: &[ServerRow],
    now: u64,
    base: u64,
    given: u128,
) -> Result<Reserved, AllocError>
    requires fits { given < 2 ^ 66 }
    ensures { IfOk result (λ r. r ≡ reserved_at (pick rows.now) rows.now now base given) }
{
    let Some(row) = picked(alloc, rows)? else {
        return Ok(Reserved::NoRoom(rows.len() as u64));
    };
    if given == u128::from(u64::MAX) {
        return Ok(Reserved::Spent);
    }
    let numbers = forgiven_numbers(alloc, rows, now)?;
    let job = JobId(((u128::from(base) + given) % 18446744073709551616) as u64);
    Ok(Reserved::Job {
        job,
        reg: row.reg,
        forgiven: Items::new(numbers),
    })
}

/// The registration that stands at an address, if there is one.
pub(crate) fn noted(rows: &[ServerRow], server: Option<ServerId>) -> Option<u64>
    ensures { result ≡ noted_over rows.now server }
{
    let row = row_at(rows, server?)?;
    Some(row.reg)
}

/// The jobs that a heartbeat of the registration reaps.
fn reaped(
    alloc: Global,
    held: &[HeldRow],
    reg: u64,
    now: u64,
    rules: Rules,
) -> Result<Vec<JobId>, AllocError>
    ensures { IfOk result (λ v. v.items ≡ reap rules now reg held.now) }
{
    held.iter()
        .filter(|h| reapable(rules, h, reg, now))
        .map(|h| h.job)
        .collect(alloc)
}

/// A heartbeat: at which moment, in milliseconds, of which server, and what it says.
#[derive(Drop)]
pub(crate) struct Heartbeat {
    pub(crate) moment: u64,
    pub(crate) server: ServerId,
    pub(crate) nonce: ServerNonce,
    pub(crate) cpus: u64,
    pub(crate) key: Bytes,
}

/// The jobs that a heartbeat reaps, where the registration with its nonce stands at its address.
fn reaped_there(
    alloc: Global,
    held: &[HeldRow],
    there: &Option<ServerRow>,
    rules: Rules,
    beat: &Heartbeat,
) -> Result<Vec<JobId>, AllocError>
    ensures { IfOk result (λ v. v.items ≡ reaped_by rules beat.now.moment beat.now.nonce held.now there.now) }
{
    match there {
        Some(row) => {
            if row.nonce == beat.nonce {
                reaped(alloc, held, row.reg, beat.moment, rules)
            } else {
                Ok(Vec::new(alloc))
            }
        }
        None => Ok(Vec::new(alloc)),
    }
}

/// The entry of a heartbeat over those rows. Refused for want of memory alone.
pub(crate) fn beat(
    alloc: Global,
    rows: &[ServerRow],
    held: &[HeldRow],
    rules: Rules,
    beat: Heartbeat,
) -> Result<CoreEntry, AllocError>
    ensures { IfOk result (λ e. e ≡
        beat_over rules rows.now held.now beat.moment beat.server beat.nonce beat.cpus beat.key) }
{
    let pruned = pruned_numbers(alloc, rows, beat.moment)?;
    let rest = left(alloc, rows, beat.moment)?;
    let there = row_at(&rest, beat.server);
    let reaped = reaped_there(alloc, held, &there, rules, &beat)?;
    let Heartbeat {
        moment: now,
        server,
        nonce,
        cpus,
        key,
    } = beat;
    let kind = CoreKind::Beat {
        server,
        nonce,
        cpus,
        key,
        pruned: Items::new(pruned),
        reaped: Items::new(reaped),
        replaced: replaced(&there, nonce),
        is_new: is_new(&there, nonce),
    };
    Ok(CoreEntry { now, kind })
}

/// The entry of a drain over those rows.
pub(crate) fn drain(
    rows: &[ServerRow],
    now: u64,
    server: ServerId,
    nonce: ServerNonce,
    on: bool,
) -> CoreEntry
    ensures { result ≡ drain_over rows.now now server nonce on }
{
    let there = row_at(rows, server);
    let kind = CoreKind::Drain {
        server,
        nonce,
        on,
        reg: drained(&there, nonce),
    };
    CoreEntry { now, kind }
}

/// Whether the registration, if there is one, is not pruned.
fn left_standing(pruned: &[u64], reg: Option<u64>) -> bool
    ensures { result ≡ is_left pruned.now reg }
{
    match reg {
        Some(reg) => !pruned.contains(&reg),
        None => true,
    }
}

/// How many open jobs are at none of the pruned registrations.
fn jobs_left(pruned: &[u64], jobs: &[OpenRow]) -> u64
    ensures { result ≡ length (filter (λ o. is_left pruned.now o.reg) jobs.now) }
{
    jobs.iter().filter(|o| left_standing(pruned, o.reg)).count() as u64
}

/// How many processors they have, at most 2^64 - 1.
fn cpus_of(rows: &[ServerRow]) -> u64
    ensures { result ≡ min (2 ^ 64 - 1) (sum_by (λ r. r.cpus) rows.now) }
{
    let mut total = 0u64;
    for row in rows {
        total = total.saturating_add(row.cpus);
    }
    total
}

/// The entry of a status. Refused for want of memory alone.
pub(crate) fn status(
    alloc: Global,
    rows: &[ServerRow],
    jobs: &[OpenRow],
    now: u64,
) -> Result<CoreEntry, AllocError>
    ensures { IfOk result (λ e. e ≡ status_over rows.now jobs.now now) }
{
    let pruned = pruned_numbers(alloc, rows, now)?;
    let rest = left(alloc, rows, now)?;
    let counts = SchedulerStatusResult {
        num_servers: rest.len() as u64,
        num_cpus: cpus_of(&rest),
        in_progress: jobs_left(&pruned, jobs),
    };
    Ok(status_entry(now, pruned, counts))
}
