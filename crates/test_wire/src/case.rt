//! What a line of a table says, for each type of message.
use dist_types::results::{
    AllocJobResult, AssignJobResult, HeartbeatServerResult, JobAlloc, JobState, RunJobResult,
    SchedulerStatusResult, SubmitToolchainResult, UpdateJobStateResult,
};
use dist_types::toolchain::Toolchain;
use dist_wire::alloc::AllocJobHttpResponse;
use dist_wire::drain::{DrainServerHttpRequest, DrainServerResult};
use dist_wire::error::WireError;
use dist_wire::heartbeat::HeartbeatServerHttpRequest;
use dist_wire::message::Message;
use dist_wire::run::RunJobHttpRequest;
use std::alloc::Global;

/// The three words of a line.
pub fn words(line: &str) -> Option<(&str, &str, &str)> {
    let (name, rest) = line.split_once(' ')?;
    let (hex, text) = rest.split_once(' ')?;
    Some((name, hex, text))
}

fn is_refused<M: Message>(alloc: Global, bytes: &[u8]) -> bool {
    matches!(M::read(alloc, bytes), Err(WireError::ParseError))
}

/// Whether the bytes are one message to their end, written so again, and told by this text.
fn is_spelled<M: Message>(alloc: Global, bytes: &[u8], json: &str) -> Result<bool, WireError> {
    let (message, length) = M::read(alloc, bytes)?;
    let written = message.write(alloc)?;
    let text = message.to_json(alloc)?;
    Ok(length == bytes.len() && written.as_slice() == bytes && text.as_str() == json)
}

/// Whether each shorter front of the bytes is refused.
fn is_whole<M: Message>(alloc: Global, bytes: &[u8]) -> bool {
    let mut whole = true;
    for n in 0..bytes.len() {
        if !is_refused::<M>(alloc, &bytes[..n]) {
            whole = false;
        }
    }
    whole
}

/// How many bytes of a message begin the bytes, if one does.
fn read_length<M: Message>(alloc: Global, bytes: &[u8]) -> Option<usize> {
    match M::read(alloc, bytes) {
        Ok((_, length)) => Some(length),
        Err(_) => None,
    }
}

/// What is written of the message that begins the bytes.
pub fn rewritten<M: Message>(alloc: Global, bytes: &[u8]) -> Result<Vec<u8>, WireError> {
    let (message, _) = M::read(alloc, bytes)?;
    message.write(alloc)
}

/// Whether a type's message is spelled so, and told by this text.
pub fn spelled(alloc: Global, name: &str, bytes: &[u8], json: &str) -> Result<bool, WireError> {
    match name {
        "Toolchain" => is_spelled::<Toolchain>(alloc, bytes, json),
        "JobState" => is_spelled::<JobState>(alloc, bytes, json),
        "AssignJobResult" => is_spelled::<AssignJobResult>(alloc, bytes, json),
        "UpdateJobStateResult" => is_spelled::<UpdateJobStateResult>(alloc, bytes, json),
        "HeartbeatServerHttpRequest" => is_spelled::<HeartbeatServerHttpRequest>(
            alloc, bytes, json,
        ),
        "HeartbeatServerResult" => is_spelled::<HeartbeatServerResult>(alloc, bytes, json),
        "AllocJobHttpResponse" => is_spelled::<AllocJobHttpResponse>(alloc, bytes, json),
        "AllocJobResult" => is_spelled::<AllocJobResult>(alloc, bytes, json),
        "RunJobHttpRequest" => is_spelled::<RunJobHttpRequest>(alloc, bytes, json),
        "RunJobResult" => is_spelled::<RunJobResult>(alloc, bytes, json),
        "SubmitToolchainResult" => is_spelled::<SubmitToolchainResult>(alloc, bytes, json),
        "SchedulerStatusResult" => is_spelled::<SchedulerStatusResult>(alloc, bytes, json),
        "DrainServerHttpRequest" => is_spelled::<DrainServerHttpRequest>(alloc, bytes, json),
        "DrainServerResult" => is_spelled::<DrainServerResult>(alloc, bytes, json),
        "JobAlloc" => is_spelled::<JobAlloc>(alloc, bytes, json),
        _ => Ok(false),
    }
}

/// Whether a type's message is whole.
pub fn whole(alloc: Global, name: &str, bytes: &[u8]) -> bool {
    match name {
        "Toolchain" => is_whole::<Toolchain>(alloc, bytes),
        "JobState" => is_whole::<JobState>(alloc, bytes),
        "AssignJobResult" => is_whole::<AssignJobResult>(alloc, bytes),
        "UpdateJobStateResult" => is_whole::<UpdateJobStateResult>(alloc, bytes),
        "HeartbeatServerHttpRequest" => is_whole::<HeartbeatServerHttpRequest>(alloc, bytes),
        "HeartbeatServerResult" => is_whole::<HeartbeatServerResult>(alloc, bytes),
        "AllocJobHttpResponse" => is_whole::<AllocJobHttpResponse>(alloc, bytes),
        "AllocJobResult" => is_whole::<AllocJobResult>(alloc, bytes),
        "RunJobHttpRequest" => is_whole::<RunJobHttpRequest>(alloc, bytes),
        "RunJobResult" => is_whole::<RunJobResult>(alloc, bytes),
        "SubmitToolchainResult" => is_whole::<SubmitToolchainResult>(alloc, bytes),
        "SchedulerStatusResult" => is_whole::<SchedulerStatusResult>(alloc, bytes),
        "DrainServerHttpRequest" => is_whole::<DrainServerHttpRequest>(alloc, bytes),
        "DrainServerResult" => is_whole::<DrainServerResult>(alloc, bytes),
        "JobAlloc" => is_whole::<JobAlloc>(alloc, bytes),
        _ => false,
    }
}

/// How many bytes a type's message has that begins the bytes.
pub fn length(alloc: Global, name: &str, bytes: &[u8]) -> Option<usize> {
    match name {
        "Toolchain" => read_length::<Toolchain>(alloc, bytes),
        "JobState" => read_length::<JobState>(alloc, bytes),
        "AssignJobResult" => read_length::<AssignJobResult>(alloc, bytes),
        "UpdateJobStateResult" => read_length::<UpdateJobStateResult>(alloc, bytes),
        "HeartbeatServerHttpRequest" => read_length::<HeartbeatServerHttpRequest>(alloc, bytes),
        "HeartbeatServerResult" => read_length::<HeartbeatServerResult>(alloc, bytes),
        "AllocJobHttpResponse" => read_length::<AllocJobHttpResponse>(alloc, bytes),
        "AllocJobResult" => read_length::<AllocJobResult>(alloc, bytes),
        "RunJobHttpRequest" => read_length::<RunJobHttpRequest>(alloc, bytes),
        "RunJobResult" => read_length::<RunJobResult>(alloc, bytes),
        "SubmitToolchainResult" => read_length::<SubmitToolchainResult>(alloc, bytes),
        "SchedulerStatusResult" => read_length::<SchedulerStatusResult>(alloc, bytes),
        "DrainServerHttpRequest" => read_length::<DrainServerHttpRequest>(alloc, bytes),
        "DrainServerResult" => read_length::<DrainServerResult>(alloc, bytes),
        "JobAlloc" => read_length::<JobAlloc>(alloc, bytes),
        _ => None,
    }
}
