//! What the reply to a call says.
ghost use Rattle.std.specs.Prelude.{◌≡◌, Ok, MatchResult, IfOk, IfErr, true, []};
ghost use Rattle.http_routes.specs.CallReply.{told_by, Reads, RefusesTold, IsAnswer, begun, IsAssigned};
ghost use Rattle.core_rules.specs.Rule.{is_initial};
ghost use Rattle.http_head.specs.Lent.{with_fields};

use crate::error::HttpError;
use core_rules::texts::is_initial;
use dist_types::outgoing::CallFault;
use dist_types::results::AssignJobResult;
use dist_types::text::Bytes;
use dist_wire::error::WireError;
use dist_wire::message::Message;
use http_head::lent_reply::{LentReply, lent_reply};
use std::alloc::Global;

/// The message of a reply, whatever its fields.
#[tactic(auto, unfolding(crate::specs::CallReply::told_by))]
fn told_by<M: Message>(alloc: Global, reply: LentReply<'_>) -> Result<M, HttpError>
    ensures { MatchResult result (λ m. told_by M.at (with_fields reply.entry []) ≡ Ok m)
        (RefusesTold (told_by M.at (with_fields reply.entry []))) }
{
    if reply.code != 200 {
        let body = Bytes::from_slice(alloc, reply.body)?;
        return Err(HttpError::Status(reply.code, body));
    }
    match M::read(alloc, reply.body) {
        Ok((message, _)) => Ok(message),
        Err(WireError::ParseError) => Err(HttpError::ParseError),
        Err(WireError::Memory) => Err(HttpError::Memory),
    }
}

/// The message that the bytes of a reply tell: it has status 200, and the message begins its body. ParseError
/// exactly where the bytes are no reply, or one with status 200 that begins with no message; Status, with the
/// body, exactly where they are a reply with another status; else refused for want of memory alone.
#[tactic(auto, using(crate::proofs::CallLemmas::lent_reads))]
pub fn read_reply<M: Message>(alloc: Global, bytes: &[u8]) -> Result<M, HttpError>
    ensures { Reads M.at bytes.now result }
{
    match lent_reply(bytes) {
        Some(reply) => told_by(alloc, reply),
        None => Err(HttpError::ParseError),
    }
}

/// What the reply to a call says: the message; or Status where its status is not 200, Unreadable where the
/// bytes are no reply or no message begins its body. Refused for want of memory alone.
pub fn answer<M: Message>(alloc: Global, reply: &[u8]) -> Result<Result<M, CallFault>, HttpError>
    ensures ok { IfOk result (IsAnswer M.at reply.now) }
    ensures err { IfErr result (λ e. e ≡ HttpError.Memory) }
{
    match read_reply(alloc, reply) {
        Ok(message) => Ok(Ok(message)),
        Err(HttpError::ParseError) => Ok(Err(CallFault::Unreadable)),
        Err(HttpError::Status(code, _)) => Ok(Err(CallFault::Status(code))),
        Err(_) => Err(HttpError::Memory),
    }
}

fn begun(answer: AssignJobResult) -> Result<AssignJobResult, CallFault>
    ensures begun { result ≡ begun answer }
    ensures begins { IfOk result (λ a. is_initial a.state ≡ true) }
{
    if is_initial(answer.state) {
        Ok(answer)
    } else {
        Err(CallFault::BadState(answer.state))
    }
}

/// What the reply to an assignment says: the answer of a server that takes the job, Pending or Ready; or
/// BadState where it tells another state, Status where its status is not 200, Unreadable where the bytes are
/// no reply or no answer begins its body. Refused for want of memory alone.
pub fn assigned(
    alloc: Global,
    reply: &[u8],
) -> Result<Result<AssignJobResult, CallFault>, HttpError>
    ensures ok { IfOk result (IsAssigned reply.now) }
    ensures begins { IfOk result (λ answer. IfOk answer (λ a. is_initial a.state ≡ true)) }
    ensures err { IfErr result (λ e. e ≡ HttpError.Memory) }
{
    match read_reply(alloc, reply) {
        Ok(answer) => Ok(begun(answer)),
        Err(HttpError::ParseError) => Ok(Err(CallFault::Unreadable)),
        Err(HttpError::Status(code, _)) => Ok(Err(CallFault::Status(code))),
        Err(_) => Err(HttpError::Memory),
    }
}
