//! The message that a body holds.
ghost use Rattle.std.specs.Prelude.{◌≡◌, option_copied};
ghost use Rattle.http_routes.specs.Message.{is_binary, message_in};
ghost use Rattle.http_routes.specs.Steps.{Decides};

use crate::refusal::{Refusal, Unrouted};
use crate::request::Request;
use dist_wire::error::WireError;
use dist_wire::message::Message;
use std::alloc::Global;

fn is_binary(text: Option<&str>) -> bool
    ensures { result ≡ is_binary (option_copied text.entry) }
{
    match text {
        Some(text) => text.as_bytes().starts_with(b"application/octet-stream"),
        None => false,
    }
}

/// The message in the request's body, whose content type begins with `application/octet-stream`.
#[tactic(auto, unfolding(crate::specs::Message::message_in))]
pub(crate) fn message_in<M: Message>(alloc: Global, request: &Request) -> Result<M, Unrouted>
    ensures { Decides (message_in M.at request.now) result }
{
    if !is_binary(request.header("content-type")) {
        return Err(Unrouted::Refused(Refusal::WrongContentType));
    }
    match M::read(alloc, request.body.get()) {
        Ok((message, _)) => Ok(message),
        Err(WireError::ParseError) => Err(Unrouted::Refused(Refusal::NoMessage)),
        Err(WireError::Memory) => Err(Unrouted::Memory),
    }
}
