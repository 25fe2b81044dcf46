//! Serving one connection of a scheduler with quotas: take, answer, send.
ghost use Rattle.http_connections.specs.Served.{IsServedBy};
ghost use Rattle.quota_service.specs.Connection.{IsReplied};
ghost use Rattle.sched.specs.Outside.{moments};

use crate::answer::answer;
use crate::heads::PeerHeads;
use crate::listed::ListedCheck;
use crate::route::route;
use dist_token::checks::ServerAuthCheck;
use dist_token::job_token::JWTJobAuthorizer;
use dist_types::addr::Addr;
use dist_types::clock::Clock;
use dist_types::dialer::Dialer;
use dist_types::fault::Memory;
use dist_types::link::Link;
use dist_types::source::ReadError;
use http_connections::send::send;
use http_connections::served::Served;
use http_connections::take::take;
use quota::state::QuotaState;
use std::alloc::Global;

/// Takes one request, answers it, and sends the reply; each listed client's name is its token. ReadFault
/// and WriteFault come only where that half's count rose; ReadFault and Memory write nothing. After
/// ReadFault nothing is done that was asked; after Memory neither, where memory ran out before the request
/// was routed, and else what its one call says, and a reservation whose server could not be asked is given
/// back. An end of input inside a request gets the reply to a bad head.
pub fn serve_quota_connection<L: Link, D: Dialer, C: Clock, V: ServerAuthCheck>(
    alloc: Global,
    quota: &mut QuotaState<JWTJobAuthorizer>,
    link: &mut L,
    peer: Addr,
    dialer: &mut D,
    clock: &mut C,
    server: &V,
) -> Served
    ensures served { IsServedBy (IsReplied (V.server_of server.now) peer)
        (record { left = L.left link.old; held = L.held link.old; reads = L.Source.faults link.old; writes = L.Sink.faults link.old })
        (record { left = L.left link.new; held = L.held link.new; reads = L.Source.faults link.new; writes = L.Sink.faults link.new })
        (record { quota = quota.old; clock = moments C.moments C.last clock.old; asked = D.asked dialer.old; faults = D.faults dialer.old })
        (record { quota = quota.new; clock = moments C.moments C.last clock.new; asked = D.asked dialer.new; faults = D.faults dialer.new })
        result }
{
    let mut client = ListedCheck::new(alloc, &*quota);
    let heads = PeerHeads {
        peer,
        client: &client,
        server,
    };
    let request = match take(alloc, link, &heads) {
        Ok(request) => request,
        Err(ReadError::Failed) => return Served::ReadFault,
        Err(ReadError::Memory) => return Served::Memory,
        Err(ReadError::TooLong) => unreachable!(),
    };
    let now = clock.now();
    let what = match route(alloc, &request, peer, now, &mut client, server) {
        Ok(what) => what,
        Err(Memory) => return Served::Memory,
    };
    match answer(alloc, quota, dialer, clock, now, &request, what) {
        Ok(reply) => send(alloc, link, &reply),
        Err(Memory) => Served::Memory,
    }
}
