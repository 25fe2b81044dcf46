//! Serving one connection of a scheduler: take, answer, send.
ghost use Rattle.std.specs.Prelude.{◌≡◌};
ghost use Rattle.sched.specs.Outside.{moments, IsRead};
ghost use Rattle.sched.specs.Pass.{IsPassOf, Stays};
ghost use Rattle.scheduler_service.specs.Connection.{Asks, IsReplied};
ghost use Rattle.scheduler_service.specs.OneAnswer.{HasOneAnswer};
ghost use Rattle.dist_types.specs.Cause.{Rose};
ghost use Rattle.dist_types.specs.Content.{Added, Began};
ghost use Rattle.http_routes.specs.Reply.{reply_text};
ghost use Rattle.http_connections.specs.declared.served.Served.TheVariants.{Answered, WriteFault, ReadFault};
ghost use Rattle.http_connections.specs.declared.served.Served.TheVariants.{Memory as OutOfMemory};
ghost use Rattle.http_connections.specs.Served.{IsServedBy};

use crate::answer::{Wanted, answer};
use crate::heads::PeerHeads;
use crate::route::route;
use dist_token::checks::{ClientAuthCheck, ServerAuthCheck};
use dist_token::job_token::JWTJobAuthorizer;
use dist_types::addr::Addr;
use dist_types::clock::Clock;
use dist_types::dialer::Dialer;
use dist_types::fault::Memory;
use dist_types::link::Link;
use dist_types::rules::Rules;
use dist_types::source::ReadError;
use http_connections::form::form_of;
use http_connections::send::send;
use http_connections::served::Served;
use http_connections::take::take;
use http_head::request::Request;
use http_routes::reply::Response;
use http_routes::route::SchedRouted;
use sched::pass::Pass;
use sched::scheduler::Scheduler;
use std::alloc::Global;
use std::sync::Wait;

/// What was taken asks at the moment that the clock gives, by those rules. Refused for want of memory alone,
/// and then nothing is done.
fn routed<C: Clock, K: ClientAuthCheck, V: ServerAuthCheck>(
    alloc: Global,
    peer: Addr,
    clock: &mut C,
    client: &mut K,
    server: &V,
    rules: Rules,
    request: &Option<Request>,
) -> Result<SchedRouted, Memory>
    ensures read { IsRead (moments C.moments C.last clock.old) (moments C.moments C.last clock.new) }
    ensures asks { Asks rules K.may_answer K.shown (V.server_of server.now) peer request.now (C.last clock.new)
        client.old result client.new }
{
    let now = clock.now();
    route(alloc, request, peer, now, client, server, rules)
}

/// Sends the reply, and reads nothing.
fn sent<L: Link>(alloc: Global, link: &mut L, reply: &Response) -> Served
    ensures answered { result ≡ Answered → Added (reply_text reply.now) (L.held link.old) (L.held link.new) }
    ensures failed { result ≡ WriteFault → Rose (L.Sink.faults link.old) (L.Sink.faults link.new)
        × Began (reply_text reply.now) (L.held link.old) (L.held link.new) }
    ensures memory { result ≡ OutOfMemory → L.held link.new ≡ L.held link.old }
    ensures steady { ¬ (result ≡ WriteFault) → L.Sink.faults link.new ≡ L.Sink.faults link.old }
    ensures no_read { ¬ (result ≡ ReadFault) }
    ensures apart { L.Sink.apart link.new ≡ L.Sink.apart link.old }
{
    send(alloc, link, reply)
}

/// Takes one request, answers it, and sends the reply.
fn serve<R: Wait, L: Link, D: Dialer, C: Clock, K: ClientAuthCheck, V: ServerAuthCheck>(
    rt: &R,
    alloc: Global,
    scheduler: &Scheduler<JWTJobAuthorizer>,
    pass: &mut Pass,
    link: &mut L,
    peer: Addr,
    dialer: &mut D,
    clock: &mut C,
    client: &mut K,
    server: &V,
) -> Served
    requires pass { IsPassOf scheduler.now pass.old }
    ensures served { IsServedBy (IsReplied K.may_answer K.shown (V.server_of server.now) peer)
        (record { left = L.left link.old; held = L.held link.old; reads = L.Source.faults link.old; writes = L.Sink.faults link.old })
        (record { left = L.left link.new; held = L.held link.new; reads = L.Source.faults link.new; writes = L.Sink.faults link.new })
        (record {
          means = record { pass = pass.old; clock = moments C.moments C.last clock.old; asked = D.asked dialer.old; faults = D.faults dialer.old };
          client = client.old;
        })
        (record {
          means = record { pass = pass.new; clock = moments C.moments C.last clock.new; asked = D.asked dialer.new; faults = D.faults dialer.new };
          client = client.new;
        })
        result }
    ensures stays { Stays pass.old pass.new }
{
    let rules = scheduler.rules();
    let heads = PeerHeads {
        peer,
        client: &*client,
        server,
        rules,
    };
    let request = match take(alloc, link, &heads) {
        Ok(request) => request,
        Err(ReadError::Failed) => return Served::ReadFault,
        Err(ReadError::Memory) => return Served::Memory,
        Err(ReadError::TooLong) => unreachable!(),
    };
    let routing = match routed(alloc, peer, clock, client, server, rules, &request) {
        Ok(routing) => routing,
        Err(Memory) => return Served::Memory,
    };
    let json = form_of(&request);
    let wanted = Wanted {
        asked: routing,
        json,
    };
    match answer(rt, alloc, scheduler, pass, dialer, clock, wanted) {
        Ok(reply) => sent(alloc, link, &reply),
        Err(Memory) => Served::Memory,
    }
}

/// Takes one request, answers it, and sends the reply. ReadFault and WriteFault come only where that half's
/// count rose; ReadFault and Memory write nothing. After ReadFault nothing is done that was asked; after
/// Memory neither, where memory ran out before the request was routed, and else what its one call says. An
/// end of input inside a request gets the reply to a bad head. Whatever it answers, the pass holds what it
/// held. How the link hands out its bytes changes no answer.
pub fn serve_scheduler_connection<
    R: Wait,
    L: Link,
    D: Dialer,
    C: Clock,
    K: ClientAuthCheck,
    V: ServerAuthCheck,
>(
    rt: &R,
    alloc: Global,
    scheduler: &Scheduler<JWTJobAuthorizer>,
    pass: &mut Pass,
    link: &mut L,
    peer: Addr,
    dialer: &mut D,
    clock: &mut C,
    client: &mut K,
    server: &V,
) -> Served
    requires pass { IsPassOf scheduler.now pass.old }
    ensures served { IsServedBy (IsReplied K.may_answer K.shown (V.server_of server.now) peer)
        (record { left = L.left link.old; held = L.held link.old; reads = L.Source.faults link.old; writes = L.Sink.faults link.old })
        (record { left = L.left link.new; held = L.held link.new; reads = L.Source.faults link.new; writes = L.Sink.faults link.new })
        (record {
          means = record { pass = pass.old; clock = moments C.moments C.last clock.old; asked = D.asked dialer.old; faults = D.faults dialer.old };
          client = client.old;
        })
        (record {
          means = record { pass = pass.new; clock = moments C.moments C.last clock.new; asked = D.asked dialer.new; faults = D.faults dialer.new };
          client = client.new;
        })
        result }
    ensures one { HasOneAnswer K.may_answer K.shown (V.server_of server.now) peer
        (record { left = L.left link.old; held = L.held link.old; reads = L.Source.faults link.old; writes = L.Sink.faults link.old })
        (record { left = L.left link.new; held = L.held link.new; reads = L.Source.faults link.new; writes = L.Sink.faults link.new })
        (record {
          means = record { pass = pass.old; clock = moments C.moments C.last clock.old; asked = D.asked dialer.old; faults = D.faults dialer.old };
          client = client.old;
        })
        (record {
          means = record { pass = pass.new; clock = moments C.moments C.last clock.new; asked = D.asked dialer.new; faults = D.faults dialer.new };
          client = client.new;
        })
        result }
    ensures stays { Stays pass.old pass.new }
{
    serve(
        rt, alloc, scheduler, pass, link, peer, dialer, clock, client, server,
    )
}
