//! What the reply to a call says.
ghost use Rattle.std.specs.Prelude.{◌≡◌, ◌≢◌, Err};
ghost use Rattle.http_routes.specs.CallReply.{IsAnswer};

use dist_types::outgoing::CallFault;
use dist_wire::message::Message;
use http_routes::call_reply::answer;
use std::alloc::Global;

/// What the reply to a call says; Memory where memory ran out.
pub fn heard<M: Message>(alloc: Global, reply: &[u8]) -> Result<M, CallFault>
    ensures says { result ≢ Err CallFault.Memory → IsAnswer M.at reply.now result }
    ensures came { result ≢ Err CallFault.Lost }
{
    match answer(alloc, reply) {
        Ok(answer) => answer,
        Err(_) => Err(CallFault::Memory),
    }
}
