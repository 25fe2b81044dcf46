//! What a setup and the entries say of an address or of a number.
ghost use Rattle.std.specs.Prelude.{◌≡◌, position, slice_get};
ghost use Rattle.std.specs.Option.{option_map};
ghost use Rattle.dist_types.specs.Addr.{same_addr};
ghost use Rattle.farm_entries.specs.Calls.{call_at, delivery_at};
ghost use Rattle.farm_entries.specs.Ways.{is_inside, caller_of, stepper, brought_at};

use dist_types::addr::Addr;
use farm_entries::entry::{Entry, OutCall, Step};
use farm_entries::site::Site;
use farm_script::event::EventKind;

/// The call of that number, if it was made.
pub(crate) fn call_at(entries: &[Entry], call: u64) -> Option<&OutCall>
    ensures { option_map (λ c. c.now) result ≡ call_at entries.now call }
{
    match entries.get(call as usize) {
        None => None,
        Some(entry) => match &entry.call {
            None => None,
            Some(out) => Some(out),
        },
    }
}

/// The place of the server at an address.
pub(crate) fn place_of(setup: &Site, addr: Addr) -> Option<usize>
    ensures place { result ≡ position (λ s. same_addr s.addr addr) setup.now.servers }
{
    setup
        .servers
        .get()
        .iter()
        .position(|server| server.addr == addr)
}

/// Whether an address is the scheduler's.
pub(crate) fn is_scheduler(setup: &Site, addr: Addr) -> bool
    ensures { result ≡ same_addr addr setup.now.scheduler.addr }
{
    addr == setup.scheduler.addr
}

/// Whether a call goes to the scheduler, or to a server of the farm.
pub(crate) fn is_inside(setup: &Site, entries: &[Entry], call: u64) -> bool
    ensures { result ≡ is_inside setup.now (call_at entries.now call) }
{
    match call_at(entries, call) {
        None => false,
        Some(out) => {
            if is_scheduler(setup, out.target) {
                return true;
            }
            place_of(setup, out.target).is_some()
        }
    }
}

/// The address of who made the call of that number.
pub(crate) fn caller_of(setup: &Site, entries: &[Entry], call: u64) -> Addr
    ensures { result ≡ caller_of setup.now entries.now (slice_get entries.now call) }
{
    match entries.get(call as usize) {
        None => setup.scheduler.addr,
        Some(entry) => match &entry.event.kind {
            EventKind::Request { target, .. } => *target,
            EventKind::Deliver { call } => match call_at(entries, *call) {
                None => setup.scheduler.addr,
                Some(out) => out.target,
            },
            EventKind::Fail { .. } => stepper(&entry.step, setup.scheduler.addr),
            EventKind::Return { .. } => stepper(&entry.step, setup.scheduler.addr),
            EventKind::Answer { .. } => stepper(&entry.step, setup.scheduler.addr),
            EventKind::Beat { server } => *server,
            EventKind::Restart { server, .. } => *server,
        },
    }
}

/// The address of a step's server, or that one where there is no step.
pub(crate) fn stepper(step: &Option<Step>, addr: Addr) -> Addr
    ensures { result ≡ stepper step.now addr }
{
    match step {
        None => addr,
        Some(step) => step.server,
    }
}

/// What the event of that number brought.
pub(crate) fn brought_at(entries: &[Entry], number: u64) -> &[u8]
    ensures { result.now ≡ brought_at entries.now number }
{
    match entries.get(number as usize) {
        None => &[],
        Some(entry) => match &entry.event.kind {
            EventKind::Request { bytes, .. } => bytes.get(),
            EventKind::Deliver { call } => match call_at(entries, *call) {
                None => &[],
                Some(out) => out.bytes.get(),
            },
            EventKind::Fail { .. } => &[],
            EventKind::Return { .. } => &[],
            EventKind::Answer { .. } => &[],
            EventKind::Beat { .. } => &[],
            EventKind::Restart { .. } => &[],
        },
    }
}

/// The call of a delivery, and the bytes of the delivery's reply, if it got one.
pub(crate) fn delivery_at(entries: &[Entry], delivery: u64) -> Option<(u64, &[u8])>
    ensures { option_map (λ p. (p.0, p.1.now)) result ≡ delivery_at entries.now delivery }
{
    match entries.get(delivery as usize) {
        None => None,
        Some(entry) => match &entry.event.kind {
            EventKind::Request { .. } => None,
            EventKind::Deliver { call } => match &entry.reply {
                None => None,
                Some(reply) => Some((*call, reply.bytes.get())),
            },
            EventKind::Fail { .. } => None,
            EventKind::Return { .. } => None,
            EventKind::Answer { .. } => None,
            EventKind::Beat { .. } => None,
            EventKind::Restart { .. } => None,
        },
    }
}
