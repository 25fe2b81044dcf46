//! What is asked of some entries that follow one another.
ghost use Rattle.std.specs.Prelude.{◌≡◌, ◌++◌, OnOk, option_to_list, option_and_then, count_by};
ghost use Rattle.std.specs.Prelude.{slice_get};
ghost use Rattle.core_rules.specs.Log.{newer};
ghost use Rattle.core_rules.specs.Standing.{drained_in};
ghost use Rattle.core_rules.specs.Reservation.{is_booked};
ghost use Rattle.core_rules.specs.Fault.{error_of};
ghost use Rattle.core_rules.specs.Job.{state_of, ready_at, places_by, place_of};
ghost use Rattle.core_rules.specs.Next.{error_after};
ghost use Rattle.core_reference.specs.Plain.{reg_by, address_by};

use core_rules::effects::{draining_now, is_number, is_reservation, ready_now, state_now};
use core_rules::entry::{CoreEntry, CoreKind, Reserved};
use dist_types::ids::{JobId, ServerId};
use dist_types::results::JobState;
use std::alloc::AllocError;

/// Adds an element, if there is one. Refused for want of memory alone.
pub(crate) fn push_if<T: Drop>(items: &mut Vec<T>, item: Option<T>) -> Result<(), AllocError>
    ensures { OnOk result (items.new.items ≡ items.old.items ++ option_to_list item) }
{
    match item {
        Some(x) => {
            items.push(x)?;
            Ok(())
        }
        None => Ok(()),
    }
}

/// How many reservations they make.
pub(crate) fn made_in(entries: &[CoreEntry]) -> usize
    ensures { result ≡ count_by (λ e. is_booked e.kind) entries.now }
{
    entries.iter().filter(|e| is_reservation(&e.kind)).count()
}

/// The state of the job, if one of them commits it.
pub(crate) fn state_in(entries: &[CoreEntry], job: JobId) -> Option<JobState>
    ensures { result ≡ state_of job entries.now }
{
    let mut state = None;
    for e in entries {
        state = state_now(&e.kind, job, state);
    }
    state
}

/// The moment at which the job became ready, if it did.
pub(crate) fn ready_in(entries: &[CoreEntry], job: JobId) -> Option<u64>
    ensures { result ≡ ready_at job entries.now }
{
    let mut moment = None;
    for e in entries {
        moment = ready_now(e, job, moment);
    }
    moment
}

/// Whether the last of them that lets the registration drain, or ends that, says on.
pub(crate) fn is_draining(entries: &[CoreEntry], reg: u64) -> bool
    ensures { result ≡ drained_in entries.now reg }
{
    let mut draining = false;
    for e in entries {
        draining = draining_now(&e.kind, reg, draining);
    }
    draining
}

/// The remembered error of the registration after an entry.
fn error_now(step: &CoreEntry, reg: u64, before: Option<u64>) -> Option<u64>
    ensures { result ≡ error_after step.entry.now reg before }
{
    match &step.kind {
        CoreKind::Undo { noted, .. } if is_number(*noted, reg) => Some(step.now),
        CoreKind::Reserve(Reserved::Job { forgiven, .. }) if forgiven.get().contains(&reg) => None,
        _ => before,
    }
}

/// The remembered error of the registration.
pub(crate) fn error_in(log: &[CoreEntry], reg: u64) -> Option<u64>
    ensures { result ≡ error_of log.now reg }
{
    let mut error = None;
    for e in log {
        error = error_now(e, reg, error);
    }
    error
}

/// The registration at which an entry of this kind reserves the job, else the one before.
fn place_now(kind: &CoreKind, job: JobId, before: Option<u64>) -> Option<u64>
    ensures { result ≡ newer (places_by kind.now job) before }
{
    match kind {
        CoreKind::Reserve(Reserved::Job { job: j, reg, .. }) => {
            if j.0 == job.0 { Some(*reg) } else { before }
        }
        _ => before,
    }
}

/// The registration at which the job was reserved last.
pub(crate) fn place_in(entries: &[CoreEntry], job: JobId) -> Option<u64>
    ensures { result ≡ place_of job entries.now }
{
    let mut place = None;
    for e in entries {
        place = place_now(&e.kind, job, place);
    }
    place
}

/// The registration at which an entry of this kind reserves a job.
fn reg_made(kind: &CoreKind) -> Option<u64>
    ensures { result ≡ reg_by kind.now }
{
    match kind {
        CoreKind::Reserve(Reserved::Job { reg, .. }) => Some(*reg),
        _ => None,
    }
}

/// The registration of the reservation of that number.
pub(crate) fn reg_of(log: &[CoreEntry], number: u64) -> Option<u64>
    ensures { result ≡ option_and_then (λ e. reg_by e.kind) (slice_get log.now number) }
{
    let step = log.get(number as usize)?;
    reg_made(&step.kind)
}

/// The address of the registration that an entry of this kind makes.
fn address_made(kind: &CoreKind) -> Option<ServerId>
    ensures { result ≡ address_by kind.now }
{
    match kind {
        CoreKind::Beat {
            server,
            is_new: true,
            ..
        } => Some(*server),
        _ => None,
    }
}

/// The address of the registration of that number.
pub(crate) fn address_in(log: &[CoreEntry], reg: u64) -> Option<ServerId>
    ensures { result ≡ option_and_then (λ e. address_by e.kind) (slice_get log.now reg) }
{
    let step = log.get(reg as usize)?;
    address_made(&step.kind)
}
