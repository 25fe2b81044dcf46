//! Serving one connection of a build server: take, answer, send.
ghost use Rattle.std.specs.Prelude.{◌≡◌};
ghost use Rattle.build_server.specs.Builds.{builder_of};
ghost use Rattle.dist_token.specs.Verdict.{job_verdict};
ghost use Rattle.http_calls.specs.Urls.{IsHttp};
ghost use Rattle.dist_types.specs.Cause.{Rose};
ghost use Rattle.dist_types.specs.Content.{Added, Began};
ghost use Rattle.http_routes.specs.Reply.{reply_text};
ghost use Rattle.http_connections.specs.declared.served.Served.TheVariants.{Answered, WriteFault, ReadFault};
ghost use Rattle.http_connections.specs.declared.served.Served.TheVariants.{Memory as OutOfMemory};
ghost use Rattle.http_connections.specs.Served.{IsServedBy};
ghost use Rattle.server_service.specs.OneAnswer.{HasOneAnswer};
ghost use Rattle.server_service.specs.Replied.{IsReplied};
ghost use Rattle.server_service.specs.Told.{peer_of};

use crate::answer::answer;
use crate::heads::JobHeads;
use crate::peer::Peer;
use crate::route::route;
use build_server::keeping::Keeping;
use dist_token::job_token::JWTJobAuthorizer;
use dist_types::builder::BuilderIncoming;
use dist_types::dialer::Dialer;
use dist_types::fault::Memory;
use dist_types::link::Link;
use dist_types::source::ReadError;
use http_connections::send::send;
use http_connections::served::Served;
use http_connections::take::take;
use http_head::request::Request;
use http_routes::reply::Response;
use std::alloc::Global;
use url::Url;

/// The reply to what was taken. Refused for want of memory alone: before what is asked was known, and then
/// nothing is done, or behind what it did.
fn reply_to<K: Keeping, D: Dialer, B: BuilderIncoming>(
    alloc: Global,
    keeper: &mut K,
    key: &JWTJobAuthorizer,
    dialer: &mut D,
    peer: Peer<'_>,
    builder: &mut B,
    request: &Option<Request>,
) -> Result<Response, Memory>
    requires http { IsHttp peer.base.now }
    ensures replied { IsReplied (job_verdict key.now) (peer_of peer.entry.base.now peer.entry.token.now) request.now
        (record {
          kept = K.kept keeper.old;
          dialing = record { asked = D.asked dialer.old; faults = D.faults dialer.old };
          builder = builder_of B.built B.refusals builder.old;
        })
        (record {
          kept = K.kept keeper.new;
          dialing = record { asked = D.asked dialer.new; faults = D.faults dialer.new };
          builder = builder_of B.built B.refusals builder.new;
        }) result }
{
    let routed = route(alloc, request, key)?;
    answer(alloc, keeper, dialer, builder, peer, request, routed)
}

/// Sends the reply, and reads nothing.
fn sent<L: Link>(alloc: Global, link: &mut L, reply: &Response) -> Served
    ensures answered { result ≡ Answered → Added (reply_text reply.now) (L.held link.old) (L.held link.new) }
    ensures failed { result ≡ WriteFault → Rose (L.Sink.faults link.old) (L.Sink.faults link.new)
        × Began (reply_text reply.now) (L.held link.old) (L.held link.new) }
    ensures memory { result ≡ OutOfMemory → L.held link.new ≡ L.held link.old }
    ensures steady { ¬ (result ≡ WriteFault) → L.Sink.faults link.new ≡ L.Sink.faults link.old }
    ensures no_read { ¬ (result ≡ ReadFault) }
    ensures apart { L.Sink.apart link.new ≡ L.Sink.apart link.old }
{
    send(alloc, link, reply)
}

/// Takes one request, answers it, and sends the reply.
fn serve<L: Link, D: Dialer, K: Keeping, B: BuilderIncoming>(
    alloc: Global,
    keeper: &mut K,
    key: &JWTJobAuthorizer,
    link: &mut L,
    dialer: &mut D,
    scheduler: &Url,
    scheduler_auth: &str,
    builder: &mut B,
) -> Served
    requires http { IsHttp scheduler.now }
    ensures served { IsServedBy (IsReplied (job_verdict key.now) (peer_of scheduler.now scheduler_auth.now))
        (record { left = L.left link.old; held = L.held link.old; reads = L.Source.faults link.old; writes = L.Sink.faults link.old })
        (record { left = L.left link.new; held = L.held link.new; reads = L.Source.faults link.new; writes = L.Sink.faults link.new })
        (record {
          kept = K.kept keeper.old;
          dialing = record { asked = D.asked dialer.old; faults = D.faults dialer.old };
          builder = builder_of B.built B.refusals builder.old;
        })
        (record {
          kept = K.kept keeper.new;
          dialing = record { asked = D.asked dialer.new; faults = D.faults dialer.new };
          builder = builder_of B.built B.refusals builder.new;
        })
        result }
{
    let request = match take(alloc, link, &JobHeads { key }) {
        Ok(request) => request,
        Err(ReadError::Failed) => return Served::ReadFault,
        Err(ReadError::Memory) => return Served::Memory,
        Err(ReadError::TooLong) => unreachable!(),
    };
    let peer = Peer {
        base: scheduler,
        token: scheduler_auth,
    };
    match reply_to(alloc, keeper, key, dialer, peer, builder, &request) {
        Ok(reply) => sent(alloc, link, &reply),
        Err(Memory) => Served::Memory,
    }
}

/// Takes one request, answers it, and sends the reply. The scheduler stands at a base of scheme `http`, and
/// is told under the token `scheduler_auth`; the tokens of jobs are those of the key. ReadFault and
/// WriteFault come only where that half's count rose; ReadFault and Memory write nothing. After ReadFault
/// nothing is done that was asked; after Memory neither, where memory ran out before the request was routed,
/// and else what its one call says. An end of input inside a request gets the reply to a bad head.
/// How the link hands out its bytes changes no answer.
pub fn serve_server_connection<L: Link, D: Dialer, K: Keeping, B: BuilderIncoming>(
    alloc: Global,
    keeper: &mut K,
    key: &JWTJobAuthorizer,
    link: &mut L,
    dialer: &mut D,
    scheduler: &Url,
    scheduler_auth: &str,
    builder: &mut B,
) -> Served
    requires http { IsHttp scheduler.now }
    ensures served { IsServedBy (IsReplied (job_verdict key.now) (peer_of scheduler.now scheduler_auth.now))
        (record { left = L.left link.old; held = L.held link.old; reads = L.Source.faults link.old; writes = L.Sink.faults link.old })
        (record { left = L.left link.new; held = L.held link.new; reads = L.Source.faults link.new; writes = L.Sink.faults link.new })
        (record {
          kept = K.kept keeper.old;
          dialing = record { asked = D.asked dialer.old; faults = D.faults dialer.old };
          builder = builder_of B.built B.refusals builder.old;
        })
        (record {
          kept = K.kept keeper.new;
          dialing = record { asked = D.asked dialer.new; faults = D.faults dialer.new };
          builder = builder_of B.built B.refusals builder.new;
        })
        result }
    ensures one { HasOneAnswer (job_verdict key.now) (peer_of scheduler.now scheduler_auth.now)
        (record { left = L.left link.old; held = L.held link.old; reads = L.Source.faults link.old; writes = L.Sink.faults link.old })
        (record { left = L.left link.new; held = L.held link.new; reads = L.Source.faults link.new; writes = L.Sink.faults link.new })
        (record {
          kept = K.kept keeper.old;
          dialing = record { asked = D.asked dialer.old; faults = D.faults dialer.old };
          builder = builder_of B.built B.refusals builder.old;
        })
        (record {
          kept = K.kept keeper.new;
          dialing = record { asked = D.asked dialer.new; faults = D.faults dialer.new };
          builder = builder_of B.built B.refusals builder.new;
        })
        result }
{
    serve(
        alloc,
        keeper,
        key,
        link,
        dialer,
        scheduler,
        scheduler_auth,
        builder,
    )
}
