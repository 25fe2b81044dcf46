//! What was taken of a connection asks of a build server.
ghost use Rattle.std.specs.Prelude.{◌≡◌, IfOk, drop};
ghost use Rattle.server_service.specs.Routed.{routed_of, body_of};

use dist_types::fault::Memory;
use dist_types::roles::JobAuthorizer;
use http_head::request::Request;
use http_routes::refusal::{Refusal, refusal_response};
use http_routes::server_route::{ServerRouted, server_route};
use std::alloc::Global;

/// What is asked under the tokens of an authorizer, or the reply where there is nothing more to do. Refused
/// for want of memory alone.
pub fn route<A: JobAuthorizer>(
    alloc: Global,
    request: &Option<Request>,
    key: &A,
) -> Result<ServerRouted, Memory>
    ensures { IfOk result (λ routed. routed ≡ routed_of (A.verdict key.now) request.now) }
{
    match request {
        None => match refusal_response(alloc, Refusal::BadHead) {
            Ok(reply) => Ok(ServerRouted::Done(reply)),
            Err(_) => Err(Memory),
        },
        Some(request) => match server_route(alloc, request, key) {
            Ok(routed) => Ok(routed),
            Err(_) => Err(Memory),
        },
    }
}

/// The body of what was taken.
pub(crate) fn body_of(request: &Option<Request>) -> &[u8]
    ensures { result.now ≡ body_of request.now }
{
    match request {
        None => &[],
        Some(request) => request.body.get(),
    }
}

/// The inputs of a run, which begin at that place of the body.
pub(crate) fn inputs_of(body: &[u8], at: usize) -> &[u8]
    ensures { result.now ≡ drop at body.now }
{
    if at >= body.len() {
        return &[];
    }
    &body[at..]
}
