//! What a call decides over the registrations that stand.
ghost use Rattle.std.specs.Prelude.{◌≡◌, ◌≤◌, ◌<◌, ◌+◌, ◌^◌, [], ℕ, IfOk};
ghost use Rattle.core_rules.specs.Pick.{pick, forgiven};
ghost use Rattle.core_rules.specs.Prune.{prune};
ghost use Rattle.core_rules.specs.Rule.{noted_over, reserved_at, counts_over};
ghost use Rattle.sched_core.specs.Registrations.{decide_looks};

use crate::registrations::Registrations;
use core_rules::entry::Reserved;
use dist_types::ids::{JobId, ServerId};
use dist_types::results::SchedulerStatusResult;
use dist_types::text::Items;
use row_index::Steps;
use std::alloc::{AllocError, Global};
use std::sync::ledger::{Blank, Ledger};

/// The number of the registration that stands at an address, if there is one.
pub fn noted(rows: &Registrations, server: Option<ServerId>) -> Option<u64>
    ensures { result ≡ noted_over rows.now.rows server }
{
    match server {
        Some(server) => {
            let row = rows.at(server)?;
            Some(row.reg)
        }
        None => None,
    }
}

/// The registrations that are silent for too long. Refused for want of memory alone.
pub fn pruned<L: Ledger>(
    alloc: Global,
    rows: &Registrations,
    now: u64,
    blank: Blank,
) -> Result<Vec<u64>, AllocError>
    requires name { blank.name ≡ L.name }
    requires parts { blank.parts ≡ L.parts }
    requires some { 0 < blank.parts }
    ensures { IfOk result (λ v. v.items ≡ prune now rows.now.rows) }
{
    let mut steps = Steps::<L>::new(blank);
    rows.pruned(alloc, now, &mut steps)
}

/// The numbers of a status that prunes those registrations, where so many open jobs are left.
pub fn counts(
    rows: &Registrations,
    pruned: &[u64],
    open_left: u64,
    now: u64,
) -> SchedulerStatusResult
    requires { pruned.now ≡ prune now rows.now.rows }
    ensures { result ≡ record (counts_over rows.now.rows [] now) { in_progress = open_left } }
{
    SchedulerStatusResult {
        num_servers: (rows.len() - pruned.len()) as u64,
        num_cpus: rows.cpus_left(pruned),
        in_progress: open_left,
    }
}

/// The ids of the jobs: the first, and how many were given.
#[derive(Clone, Copy, Debug)]
pub struct JobIds {
    /// The first.
    pub base: u64,
    /// How many were given.
    pub given: u128,
}

/// What becomes of a reserve, where those ids were given before. Refused for want of memory alone. Errors
/// are looked for only where a job is reserved.
pub fn reserved<L: Ledger>(
    alloc: Global,
    rows: &Registrations,
    now: u64,
    ids: JobIds,
    steps: &mut Steps<L>,
) -> Result<Reserved, AllocError>
    requires fits { ids.given < 2 ^ 66 }
    ensures reserved { IfOk result (λ r. r ≡
        reserved_at (pick rows.now.rows) rows.now.rows now ids.base ids.given) }
    ensures looks { (h : ℕ) → rows.now.places.count ≤ 2 ^ h → steps.new ≤ steps.old + decide_looks
        (reserved_at (pick rows.now.rows) rows.now.rows now ids.base ids.given) h }
{
    let Some(row) = rows.pick(steps) else {
        return Ok(Reserved::NoRoom(rows.len() as u64));
    };
    if ids.given == u128::from(u64::MAX) {
        return Ok(Reserved::Spent);
    }
    let numbers = rows.forgiven(alloc, now, steps)?;
    let job = JobId(((u128::from(ids.base) + ids.given) % 18446744073709551616) as u64);
    Ok(Reserved::Job {
        job,
        reg: row.reg,
        forgiven: Items::new(numbers),
    })
}
