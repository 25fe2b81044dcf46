//! Serving one connection of the far side: take, answer, send.
ghost use Rattle.http_connections.specs.Served.{IsServedBy};
ghost use Rattle.mirror.specs.Caches.{told_of};
ghost use Rattle.test_mirror.specs.Mirrored.{IsMirrored};

use dist_types::fault::Memory;
use dist_types::link::Link;
use dist_types::source::ReadError;
use folders::folder::Folder;
use http_connections::send::send;
use http_connections::served::Served;
use http_connections::take::{HeadTest, take};
use http_head::request::Request;
use http_routes::reply::Response;
use mirror::route::mirror_route;
use std::alloc::Global;
use toolchain_cache::TcCache;

/// Heads of requests to a mirror: each settles what is asked, since no body changes it.
#[derive(Drop)]
struct AnyHead;

impl HeadTest for AnyHead {
    ghost use Rattle.std.specs.Prelude.{⊤};

    ghost settled = { λ _ _. ⊤ };

    fn is_settled(&self, _request: &Request) -> bool {
        true
    }
}

/// The reply to what was taken. Refused for want of memory alone.
fn reply_to<F: Folder>(
    cache: &mut TcCache<F>,
    request: &Option<Request>,
) -> Result<Response, Memory>
    ensures mirrored { IsMirrored request.now (told_of F.held cache.old) (told_of F.held cache.new) result }
{
    match request {
        Some(request) => mirror_route(request, cache),
        None => Ok(Response::NotFound),
    }
}

/// Takes one request, answers it by the route of a mirror over a cache, and sends the reply: 404 where it is no
/// request. ReadFault and WriteFault come only where that half's count rose; ReadFault and Memory write nothing.
pub fn serve_mirror_connection<L: Link, F: Folder>(
    alloc: Global,
    cache: &mut TcCache<F>,
    link: &mut L,
) -> Served
    ensures served { IsServedBy IsMirrored
        (record { left = L.left link.old; held = L.held link.old; reads = L.Source.faults link.old; writes = L.Sink.faults link.old })
        (record { left = L.left link.new; held = L.held link.new; reads = L.Source.faults link.new; writes = L.Sink.faults link.new })
        (told_of F.held cache.old) (told_of F.held cache.new) result }
{
    let request = match take(alloc, link, &AnyHead) {
        Ok(request) => request,
        Err(ReadError::Failed) => return Served::ReadFault,
        Err(ReadError::Memory) => return Served::Memory,
        Err(ReadError::TooLong) => unreachable!(),
    };
    let replied = reply_to(cache, &request);
    match replied {
        Ok(reply) => send(alloc, link, &reply),
        Err(Memory) => Served::Memory,
    }
}
