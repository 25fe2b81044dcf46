//! What was taken of a connection asks of the scheduler.
ghost use Rattle.scheduler_service.specs.Connection.{Asks};

use dist_token::checks::{ClientAuthCheck, ServerAuthCheck};
use dist_types::addr::Addr;
use dist_types::fault::Memory;
use dist_types::rules::Rules;
use http_head::request::Request;
use http_routes::refusal::{Refusal, refusal_response};
use http_routes::route::{SchedRouted, scheduler_route};
use std::alloc::Global;

/// What is asked at a moment, by those rules, or the reply where there is nothing more to do. Refused for want
/// of memory alone, and then the check of clients was asked once at most.
pub fn route<K: ClientAuthCheck, V: ServerAuthCheck>(
    alloc: Global,
    request: &Option<Request>,
    peer: Addr,
    now: u64,
    client: &mut K,
    server: &V,
    rules: Rules,
) -> Result<SchedRouted, Memory>
    ensures { Asks rules K.may_answer K.shown (V.server_of server.now) peer request.now now client.old result
        client.new }
{
    match request {
        None => match refusal_response(alloc, Refusal::BadHead) {
            Ok(reply) => Ok(SchedRouted::Done(reply)),
            Err(_) => Err(Memory),
        },
        Some(request) => match scheduler_route(alloc, request, peer, now, client, server, rules) {
            Ok(routed) => Ok(routed),
            Err(_) => Err(Memory),
        },
    }
}
