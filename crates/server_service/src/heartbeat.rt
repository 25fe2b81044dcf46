//! One heartbeat of a build server, and how long it waits behind it.
ghost use Rattle.std.specs.Prelude.{◌≡◌};
ghost use Rattle.http_calls.specs.Urls.{IsHttp};
ghost use Rattle.server_service.specs.Heartbeat.{IsBeaten, BeatsAndWaits, wait_after};
ghost use Rattle.server_service.specs.Told.{peer_of};

use crate::peer::{host_of, port_of};
use dist_types::dialer::{AskFault, Dialer};
use dist_types::outgoing::CallFault;
use dist_types::results::HeartbeatServerResult;
use dist_wire::heartbeat::HeartbeatServerHttpRequest;
use http_calls::reports::heartbeat_to_http;
use http_connections::hearing::heard;
use std::alloc::Global;
use url::Url;

/// How long a server waits behind a heartbeat that was told, in milliseconds.
pub const HEARTBEAT_WAIT_MS: u64 = 30_000;

/// How long a server waits behind a heartbeat that was not told, in milliseconds.
pub const HEARTBEAT_FAULT_WAIT_MS: u64 = 10_000;

/// Tells the scheduler at a base of scheme `http` once that the server stands, under its token, and gives
/// what it answers: one request more of the dialer's. Lost where the dialer failed, whose count then rose;
/// Status and Unreadable by the reply; Memory where memory ran out, before or behind the asking.
pub fn beat_once<D: Dialer>(
    alloc: Global,
    dialer: &mut D,
    scheduler: &Url,
    scheduler_auth: &str,
    beat: &HeartbeatServerHttpRequest,
) -> Result<HeartbeatServerResult, CallFault>
    requires http { IsHttp scheduler.now }
    ensures beaten { IsBeaten (peer_of scheduler.now scheduler_auth.now) beat.now result
        (record { asked = D.asked dialer.old; faults = D.faults dialer.old })
        (record { asked = D.asked dialer.new; faults = D.faults dialer.new }) }
{
    let request = match heartbeat_to_http(alloc, scheduler, scheduler_auth, beat) {
        Ok(request) => request,
        Err(_) => return Err(CallFault::Memory),
    };
    match dialer.ask(host_of(scheduler), port_of(scheduler), request.get()) {
        Ok(reply) => heard(alloc, &reply),
        Err(AskFault::Failed) => Err(CallFault::Lost),
        Err(AskFault::Memory) => Err(CallFault::Memory),
    }
}

/// How long a server waits behind a heartbeat, in milliseconds, by whether it was told.
pub fn wait_after(told: bool) -> u64
    ensures { result ≡ wait_after told }
{
    if told {
        HEARTBEAT_WAIT_MS
    } else {
        HEARTBEAT_FAULT_WAIT_MS
    }
}

/// Tells the scheduler once, as `beat_once` does, and gives how long to wait behind it, in milliseconds.
pub fn beat_and_wait<D: Dialer>(
    alloc: Global,
    dialer: &mut D,
    scheduler: &Url,
    scheduler_auth: &str,
    beat: &HeartbeatServerHttpRequest,
) -> u64
    requires http { IsHttp scheduler.now }
    ensures { BeatsAndWaits (peer_of scheduler.now scheduler_auth.now) beat.now result
        (record { asked = D.asked dialer.old; faults = D.faults dialer.old })
        (record { asked = D.asked dialer.new; faults = D.faults dialer.new }) }
{
    let heard = beat_once(alloc, dialer, scheduler, scheduler_auth, beat);
    wait_after(heard.is_ok())
}
