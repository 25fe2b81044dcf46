//! The rules: what a call decides over the rows of what stands, is unended and is open.
ghost use Rattle.std.specs.Prelude.{◌≡◌, ◌==◌, ◌&&◌, ◌+◌, ◌<◌, ◌/◌};
ghost use Rattle.std.specs.Prelude.{Some, None, nat_lt, unwrap_or};
ghost use Rattle.core_rules.specs.Prune.{age};
ghost use Rattle.core_rules.specs.Pick.{has_room};
ghost use Rattle.core_rules.specs.Reap.{ready_age, is_overdue, is_reaped};
ghost use Rattle.core_rules.specs.Advance.{follows, is_at, advance_by};

use crate::entry::UpdateAnswer;
use crate::rows::{HeldRow, OpenRow, ServerRow};
use dist_types::ids::ServerId;
use dist_types::results::JobState;
use dist_types::rules::Rules;

/// A job that is not committed, or ready, is reaped from this age on, in milliseconds.
const UNCLAIMED_READY_TIMEOUT: u64 = 60000;

/// A pending job is reaped where its reservation is older, in milliseconds.
const UNCLAIMED_PENDING_TIMEOUT: u64 = 300000;

/// A remembered error is forgotten where it is older, in milliseconds.
pub const ERROR_TIMEOUT: u64 = 300000;

// Which registration a reservation goes to.

/// Whether the load is below the processors, one and an eighth of the processors.
fn has_capacity(load: u64, cpus: u64) -> bool
    ensures { result ≡ nat_lt load (cpus + 1 + cpus / 8) }
{
    load.saturating_sub(cpus) <= cpus / 8
}

/// Whether the registration has room.
pub fn is_roomy(row: &ServerRow) -> bool
    ensures { result ≡ has_room row.now }
{
    !row.draining && has_capacity(row.load, row.cpus)
}

// Which registrations are pruned, and which reservations reaped.

/// Whether a job in this state has waited too long, by the ages of its reservation and of its being
/// ready.
fn overdue(state: Option<JobState>, waited: u64, ready: u64) -> bool
    ensures { result ≡ is_overdue waited ready state }
{
    match state {
        None => waited >= UNCLAIMED_READY_TIMEOUT,
        Some(JobState::Pending) => waited > UNCLAIMED_PENDING_TIMEOUT,
        Some(JobState::Ready) => ready >= UNCLAIMED_READY_TIMEOUT,
        Some(JobState::Started) => false,
        Some(JobState::Complete) => false,
    }
}

/// How long ago a moment was, or 0 where there is none.
fn age_of(moment: Option<u64>, now: u64) -> u64
    ensures { result ≡ age now (unwrap_or moment now) }
{
    match moment {
        Some(moment) => now.saturating_sub(moment),
        None => 0,
    }
}

/// How long the reservation's job has been ready.
fn ready_for(rules: Rules, held: &HeldRow, now: u64) -> u64
    ensures { result ≡ ready_age rules now held.now }
{
    match rules {
        Rules::One => now.saturating_sub(held.reserved_at),
        Rules::Two => age_of(held.ready_at, now),
    }
}

/// Whether a heartbeat of the registration reaps the reservation.
pub fn reapable(rules: Rules, held: &HeldRow, reg: u64, now: u64) -> bool
    ensures { result ≡ is_reaped rules now reg held.now }
{
    let waited = now.saturating_sub(held.reserved_at);
    let ready = ready_for(rules, held, now);
    held.reg == reg && !held.claimed && overdue(held.state, waited, ready)
}

// What an update answers.

/// Whether the job goes from the first state to the second.
fn goes(from: JobState, to: JobState) -> bool
    ensures { result ≡ follows from to }
{
    match from {
        JobState::Pending => to == JobState::Ready,
        JobState::Ready => to == JobState::Started,
        JobState::Started => to == JobState::Complete,
        JobState::Complete => false,
    }
}

/// Whether there is an address, and it is this one.
fn is_there(there: Option<ServerId>, server: ServerId) -> bool
    ensures { result ≡ is_at there server }
{
    match there {
        Some(addr) => addr == server,
        None => false,
    }
}

/// What an update of that open job answers.
pub fn answer_by(found: &Option<OpenRow>, server: ServerId, state: JobState) -> UpdateAnswer
    ensures { result ≡ advance_by found.now server state }
{
    match found {
        None => UpdateAnswer::Unknown,
        Some(job) => {
            if is_there(job.server, server) {
                if goes(job.state, state) {
                    UpdateAnswer::Accepted
                } else {
                    UpdateAnswer::Transition(job.state)
                }
            } else {
                UpdateAnswer::Wrong
            }
        }
    }
}
