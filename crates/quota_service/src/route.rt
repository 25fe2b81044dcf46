//! What was taken of a connection asks of a scheduler with quotas.
ghost use Rattle.std.specs.Prelude.{◌≡◌, IfOk};
ghost use Rattle.quota_service.specs.Question.{what_of};

use crate::listed::ListedCheck;
use dist_token::checks::ServerAuthCheck;
use dist_types::addr::Addr;
use dist_types::fault::Memory;
use dist_types::rules::Rules;
use http_head::request::Request;
use http_routes::refusal::{Refusal, refusal_response};
use http_routes::route::{SchedRouted, scheduler_route};
use std::alloc::Global;

/// What is asked at a moment in version 1, or the reply where there is nothing more to do. Refused for want
/// of memory alone.
pub(crate) fn route<V: ServerAuthCheck>(
    alloc: Global,
    request: &Option<Request>,
    peer: Addr,
    now: u64,
    client: &mut ListedCheck<'_>,
    server: &V,
) -> Result<SchedRouted, Memory>
    ensures { IfOk result (λ what. what ≡ what_of client.old (V.server_of server.now) peer request.now) }
{
    match request {
        None => match refusal_response(alloc, Refusal::BadHead) {
            Ok(reply) => Ok(SchedRouted::Done(reply)),
            Err(_) => Err(Memory),
        },
        Some(request) => {
            match scheduler_route(alloc, request, peer, now, client, server, Rules::One) {
                Ok(routed) => Ok(routed),
                Err(_) => Err(Memory),
            }
        }
    }
}
