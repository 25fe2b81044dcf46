//! The reservation that an entry makes, at one of the registrations that stand.
ghost use Rattle.std.specs.Prelude.{◌≡◌, ◌==◌, find};
ghost use Rattle.core_rules.specs.Next.{job_over, job_in, job_by};

use crate::registrations::Registrations;
use core_rules::entry::{CoreKind, Reserved};
use core_rules::rows::{JobRow, ServerRow};
use dist_types::ids::JobId;

/// The row of a job that is reserved at the registration of a row.
fn job_of(row: &Option<ServerRow>, number: u64, job: JobId, now: u64) -> Option<JobRow>
    ensures { result ≡ job_over row.now number job now }
{
    match row {
        Some(row) => Some(JobRow {
            number,
            job,
            reg: row.reg,
            server: row.server,
            reserved_at: now,
            state: None,
            ready_at: None,
            claimed: false,
        }),
        None => None,
    }
}

/// The job that is reserved at a registration, with its address.
fn job_at(rows: &Registrations, reg: u64, number: u64, job: JobId, now: u64) -> Option<JobRow>
    ensures { result ≡ job_over (find (λ r. r.reg == reg) rows.now.rows) number job now }
{
    let row = rows.row(reg);
    job_of(&row, number, job, now)
}

/// The reservation that a reserve makes, with the address of its registration.
fn job_reserved(reserved: &Reserved, rows: &Registrations, number: u64, now: u64) -> Option<JobRow>
    ensures { result ≡ job_in reserved.now rows.now.rows number now }
{
    match reserved {
        Reserved::Job { job, reg, .. } => job_at(rows, *reg, number, *job, now),
        Reserved::NoRoom(_) => None,
        Reserved::Spent => None,
    }
}

/// The reservation that an entry of this number makes, with the address of its registration.
pub fn job_made(kind: &CoreKind, rows: &Registrations, number: u64, now: u64) -> Option<JobRow>
    ensures { result ≡ job_by kind.now rows.now.rows number now }
{
    match kind {
        CoreKind::Reserve(reserved) => job_reserved(reserved, rows, number, now),
        CoreKind::Commit { .. } => None,
        CoreKind::Undo { .. } => None,
        CoreKind::Beat { .. } => None,
        CoreKind::Update { .. } => None,
        CoreKind::Status { .. } => None,
        CoreKind::Drain { .. } => None,
    }
}
