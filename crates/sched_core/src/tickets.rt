//! How a reservation is made.
ghost use Rattle.std.specs.Prelude.{◌≡◌, ◌==◌, List, Some, IfOk, IfErr, true};
ghost use Rattle.std.specs.List.{list_any};
ghost use Rattle.core_rules.specs.Standing.{address_of};
ghost use Rattle.core_rules.specs.declared.entry.CoreEntry.{CoreEntry};
ghost use Rattle.core_rules.specs.Rows.{servers_of};
ghost use Rattle.core_rules.specs.Answers.{IsTicket};
ghost use Rattle.sched_core.specs.Picked.{IsReservedAs, picked_or_spent};
ghost use Rattle.sched_core.specs.Books.{kept_by, HaveKeys, IsKeptOf};
ghost use Rattle.core_rules.specs.Next.{IsAtRow};

use crate::answers::Picked;
use crate::books::Books;
use crate::keys::token_at;
use crate::reservation::Reservation;
use core_rules::entry::Reserved;
use core_rules::error::SchedError;
use dist_types::ids::{JobId, ServerId};
use dist_types::roles::JobAuthorizer;
use row_index::LookupTable;

/// The address of a registration that stands.
fn address_at(books: &Books, reg: u64) -> ServerId
    requires { list_any (λ r. r.reg == reg) books.now.lists.rows ≡ true }
    ensures { (log : List CoreEntry) → books.now.lists.rows ≡ servers_of log
        → address_of log reg ≡ Some result }
{
    match books.row(reg) {
        Some(row) => row.server,
        None => unreachable!(),
    }
}

/// The reservation that the entry of this number makes of a job at a registration that stands. Its token is
/// made here. Refused for want of memory alone.
fn reservation<A: JobAuthorizer>(
    books: &Books,
    keys: &LookupTable<u64, A>,
    number: u64,
    job: JobId,
    reg: u64,
) -> Result<Reservation, SchedError>
    requires keys { HaveKeys books.now.lists.rows (kept_by A.key_of keys.now.entries) }
    requires stands { list_any (λ r. r.reg == reg) books.now.lists.rows ≡ true }
    ensures ticket { (log : List CoreEntry) → IsKeptOf log number books.now.lists.rows
        (kept_by A.key_of keys.now.entries) → IfOk result (IsTicket A.key_of A.token_for log job reg) }
    ensures memory { IfErr result (λ e. e ≡ SchedError.Memory) }
{
    let auth = token_at(keys, reg, job)?;
    let server = address_at(books, reg);
    Ok(Reservation::of(number, job, server, reg, auth))
}

/// What a reserve makes whose entry has this number and says this: a reservation, or as many registrations
/// without room, or nothing where the ids are spent. Refused for want of memory alone.
pub fn made<A: JobAuthorizer>(
    books: &Books,
    keys: &LookupTable<u64, A>,
    number: u64,
    reserved: &Reserved,
) -> Result<Option<Picked>, SchedError>
    requires keys { HaveKeys books.now.lists.rows (kept_by A.key_of keys.now.entries) }
    requires stands { IsAtRow reserved.now books.now.lists.rows }
    ensures made { (log : List CoreEntry) → IsKeptOf log number books.now.lists.rows
        (kept_by A.key_of keys.now.entries)
        → IfOk result (IsReservedAs A.key_of A.token_for log reserved.now) }
    ensures memory { IfErr result (λ e. e ≡ SchedError.Memory) }
{
    match reserved {
        Reserved::Job { job, reg, .. } => {
            let picked = reservation(books, keys, number, *job, *reg)?;
            Ok(Some(Picked::Reserved(picked)))
        }
        Reserved::NoRoom(standing) => Ok(Some(Picked::NoRoom(*standing))),
        Reserved::Spent => Ok(None),
    }
}

/// What a reserve answers that made this.
pub fn answer(made: Option<Picked>) -> Result<Picked, SchedError>
    ensures { result ≡ picked_or_spent made }
{
    match made {
        Some(picked) => Ok(picked),
        None => Err(SchedError::IdsSpent),
    }
}
