//! The events of the storm.
ghost use Rattle.std.specs.Prelude.{◌≡◌, IfOk, map};
ghost use Rattle.farm_storm.specs.Places.{deed_at};
ghost use Rattle.farm_storm.specs.Storm.{peer, kind_of, event_of};

use crate::clients::Clients;
use crate::deed::{Deed, deed_at};
use crate::requests::{alloc_request, run_request, status_request, submit_request};
use crate::setup::{peer, scheduler_addr, server_addr};
use dist_types::addr::Addr;
use dist_types::fault::Memory;
use dist_types::text::Bytes;
use farm_script::event::{Event, EventKind};
use std::alloc::Global;

/// Bytes that come to an address.
fn request_to(target: Addr, bytes: Bytes) -> EventKind
    ensures { result ≡ EventKind.Request target peer bytes }
{
    EventKind::Request {
        target,
        peer: peer(),
        bytes,
    }
}

/// What is done as event of that number.
fn kind_of(
    alloc: Global,
    clients: &mut Clients,
    number: u64,
    deed: Deed,
) -> Result<EventKind, Memory>
    ensures { IfOk result (λ k. k ≡ kind_of number deed) }
{
    match deed {
        Deed::Beat(server) => Ok(EventKind::Beat {
            server: server_addr(server),
        }),
        Deed::Alloc(round) => {
            let bytes = alloc_request(alloc, clients, round)?;
            Ok(request_to(scheduler_addr(), bytes))
        }
        Deed::Submit(job) => {
            let bytes = submit_request(alloc, clients, job)?;
            Ok(request_to(server_addr(job), bytes))
        }
        Deed::Run(job) => {
            let bytes = run_request(alloc, clients, job)?;
            Ok(request_to(server_addr(job), bytes))
        }
        Deed::Status => {
            let bytes = status_request(alloc)?;
            Ok(request_to(scheduler_addr(), bytes))
        }
        Deed::Deliver => Ok(EventKind::Deliver {
            call: number.saturating_sub(1),
        }),
        Deed::Return => Ok(EventKind::Return {
            delivery: number.saturating_sub(1),
        }),
    }
}

/// The event of that number. Refused for want of memory alone.
pub fn event_at(alloc: Global, clients: &mut Clients, number: u64) -> Result<Event, Memory>
    ensures { IfOk result (λ event. event ≡ event_of number (deed_at number)) }
{
    let kind = kind_of(alloc, clients, number, deed_at(number))?;
    Ok(Event { at: number, kind })
}
