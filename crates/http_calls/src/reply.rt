//! What the reply to a client's call says.
ghost use Rattle.std.specs.Prelude.{◌≡◌, ◌↔◌, Err, IsErr, IfErr};
ghost use Rattle.http_calls.specs.Refusals.{IsReplyError};
ghost use Rattle.http_calls.specs.Reply.{Resumes};

use dist_types::fault::Failed;
use dist_wire::message::Message;
use http_head::error::HttpError;
use http_routes::call_reply::read_reply;
use std::alloc::Global;

/// The answer of a call to which that came: LinkFault exactly where nothing came, else what the reply says.
#[tactic(auto, using(crate::proofs::RefusalLemmas::resumed_error, crate::proofs::RefusalLemmas::resumed_link))]
pub(crate) fn resumed<M: Message>(
    alloc: Global,
    reply: Result<&[u8], Failed>,
) -> Result<M, HttpError>
    ensures told { Resumes M.at reply.entry result }
    ensures link { (result ≡ Err HttpError.LinkFault) ↔ IsErr reply.entry }
    ensures errors { IfErr result IsReplyError }
{
    match reply {
        Ok(bytes) => read_reply(alloc, bytes),
        Err(Failed) => Err(HttpError::LinkFault),
    }
}
