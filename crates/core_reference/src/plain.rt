//! The plain scheduler: the entry of a call and the books, each asked anew of the whole log. It keeps nothing.
//! Each call is refused for want of memory alone.
ghost use Rattle.std.specs.Prelude.{◌≡◌, ◌<◌, ◌+◌, ◌^◌, ◌↔◌, IfOk, IsTrue, true, length, option_and_then};
ghost use Rattle.core_rules.specs.Standing.{address_of};
ghost use Rattle.core_rules.specs.Reservation.{bookings};
ghost use Rattle.core_rules.specs.Rows.{held_rows};
ghost use Rattle.core_rules.specs.Rule.{rule, is_initial, IsCall, place_at};
ghost use Rattle.dist_types.specs.declared.rules.Rules.TheVariants.{Two};
ghost use Rattle.core_reference.specs.Plain.{has_among, IsEntryOf};

use crate::choice::{self, Heartbeat};
use crate::entries::{address_in, made_in, reg_of};
use crate::jobs::{Which, is_among, open_jobs, reservations};
use crate::servers::servers;
use core_rules::call::Call;
use core_rules::entry::{CoreEntry, CoreKind};
use core_rules::rows::HeldRow;
use core_rules::rules::answer_by;
use core_rules::start::Start;
use core_rules::texts::is_initial;
use dist_types::ids::{JobId, ServerId};
use dist_types::results::JobState;
use dist_types::rules::Rules;
use std::alloc::{AllocError, Global};

/// The most processors that a heartbeat may say.
const MOST_CPUS: u64 = 4294967295;

/// The unended reservations, in the order of their reserving.
pub fn held(alloc: Global, log: &[CoreEntry]) -> Result<Vec<HeldRow>, AllocError>
    ensures rows { IfOk result (λ v. v.items ≡ held_rows log.now) }
{
    reservations(alloc, log, Which::Unended)
}

/// Whether the reservation of that number and job is unspent, or unended.
fn has(
    alloc: Global,
    log: &[CoreEntry],
    which: Which,
    number: u64,
    job: JobId,
) -> Result<bool, AllocError>
    ensures { IfOk result (λ b. b ≡ has_among which log.now number job) }
{
    let rows = reservations(alloc, log, which)?;
    Ok(is_among(&rows, number, job))
}

/// Whether a commit in that state makes an entry.
fn may_commit(is_own: bool, state: JobState) -> bool
    ensures { IsTrue result ↔ (is_own ≡ true) × (is_initial state ≡ true) }
{
    is_own && is_initial(state)
}

/// Whether a drain makes an entry.
fn may_drain(rules: Rules) -> bool
    ensures { IsTrue result ↔ rules ≡ Two }
{
    match rules {
        Rules::One => false,
        Rules::Two => true,
    }
}

/// Whether the call makes an entry.
fn is_call(alloc: Global, start: Start, log: &[CoreEntry], asked: &Call) -> Result<bool, AllocError>
    ensures { IfOk result (λ b. IsTrue b ↔ IsCall (record { start = start; log = log.now }) asked.now) }
{
    match asked {
        Call::Commit {
            number,
            job,
            state,
            ..
        } => {
            let is_own = has(alloc, log, Which::Unspent, *number, *job)?;
            Ok(may_commit(is_own, *state))
        }
        Call::Undo { number, job, .. } => {
            let is_own = has(alloc, log, Which::Unspent, *number, *job)?;
            Ok(is_own)
        }
        Call::Beat { cpus, .. } => Ok(1 <= *cpus && *cpus <= MOST_CPUS),
        Call::Drain { .. } => Ok(may_drain(start.rules)),
        Call::Reserve { .. } => Ok(true),
        Call::Update { .. } => Ok(true),
        Call::Status { .. } => Ok(true),
    }
}

/// The address of the reservation of that number.
fn address(log: &[CoreEntry], number: u64) -> Option<ServerId>
    ensures { result ≡ option_and_then (address_of log.now) (place_at log.now number) }
{
    match reg_of(log, number) {
        Some(reg) => address_in(log, reg),
        None => None,
    }
}

/// How many ids were given.
fn given(start: Start, log: &[CoreEntry]) -> u128
    ensures within { result < 2 ^ 66 }
    ensures given { result ≡ start.count + length (bookings log.now) }
{
    u128::from(start.count) + made_in(log) as u128
}

/// The entry of the call.
fn made(
    alloc: Global,
    start: Start,
    log: &[CoreEntry],
    asked: &Call,
) -> Result<CoreEntry, AllocError>
    ensures { IfOk result (λ e. e ≡ rule (record { start = start; log = log.now }) asked.now) }
{
    match asked {
        Call::Reserve { now } => {
            let rows = servers(alloc, log)?;
            let ids = given(start, log);
            let reserved = choice::reserve(alloc, &rows, *now, start.base, ids)?;
            let kind = CoreKind::Reserve(reserved);
            Ok(CoreEntry { now: *now, kind })
        }
        Call::Commit {
            now,
            number,
            job,
            state,
        } => {
            let kept = has(alloc, log, Which::Unended, *number, *job)?;
            let kind = CoreKind::Commit {
                job: *job,
                state: *state,
                kept,
            };
            Ok(CoreEntry { now: *now, kind })
        }
        Call::Undo { now, number, job } => {
            let rows = servers(alloc, log)?;
            let noted = choice::noted(&rows, address(log, *number));
            let ended = has(alloc, log, Which::Unended, *number, *job)?;
            let kind = CoreKind::Undo {
                job: *job,
                noted,
                ended,
            };
            Ok(CoreEntry { now: *now, kind })
        }
        Call::Beat {
            now,
            server,
            nonce,
            cpus,
            key,
        } => {
            let rows = servers(alloc, log)?;
            let held = held(alloc, log)?;
            let beat = Heartbeat {
                moment: *now,
                server: *server,
                nonce: *nonce,
                cpus: *cpus,
                key: key.copy(alloc)?,
            };
            choice::beat(alloc, &rows, &held, start.rules, beat)
        }
        Call::Update {
            now,
            server,
            job,
            state,
        } => {
            let rows = open_jobs(alloc, log)?;
            let found = choice::open_job(&rows, *job);
            let kind = CoreKind::Update {
                server: *server,
                job: *job,
                state: *state,
                answer: answer_by(&found, *server, *state),
            };
            Ok(CoreEntry { now: *now, kind })
        }
        Call::Status { now } => {
            let rows = servers(alloc, log)?;
            let jobs = open_jobs(alloc, log)?;
            choice::status(alloc, &rows, &jobs, *now)
        }
        Call::Drain {
            now,
            server,
            nonce,
            on,
        } => {
            let rows = servers(alloc, log)?;
            Ok(choice::drain(&rows, *now, *server, *nonce, *on))
        }
    }
}

/// The one entry that the rule gives a call over the log; none where the call makes none: a commit or an undo
/// where no unspent reservation has that number and job, a commit to another state than pending and ready, a
/// heartbeat that does not say 1 to 4294967295 processors, and a drain in version 1.
pub fn entry(
    alloc: Global,
    start: Start,
    log: &[CoreEntry],
    asked: &Call,
) -> Result<Option<CoreEntry>, AllocError>
    ensures entry { IfOk result (IsEntryOf (record { start = start; log = log.now }) asked.now) }
{
    if !is_call(alloc, start, log, asked)? {
        return Ok(None);
    }
    let made = made(alloc, start, log, asked)?;
    Ok(Some(made))
}
