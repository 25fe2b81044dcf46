//! The three messages that are declared beside their spellings, and what comes after a message.
use dist_types::addr::Addr;
use dist_types::fault::Memory;
use dist_types::ids::{JobId, ServerId, ServerNonce};
use dist_types::results::{AllocJobResult, JobAlloc};
use dist_types::text::{Bytes, Text};
use dist_types::try_clone::TryClone;
use dist_wire::alloc::AllocJobHttpResponse;
use dist_wire::error::WireError;
use dist_wire::heartbeat::HeartbeatServerHttpRequest;
use dist_wire::message::{Message, write_and_read};
use dist_wire::run::RunJobHttpRequest;
use std::alloc::{AllocError, Global};
use std::test::Fail;

fn heartbeat(alloc: Global) -> Result<HeartbeatServerHttpRequest, AllocError> {
    let jwt_key = Bytes::from_slice(alloc, &[1, 2, 2])?;
    Ok(HeartbeatServerHttpRequest {
        jwt_key,
        num_cpus: 8,
        server_nonce: ServerNonce::new(7),
    })
}

/// Whether a clone is written as its source.
fn is_copied<M: Message + TryClone>(alloc: Global, message: &M) -> Result<bool, WireError> {
    let copy = copied(message)?;
    let first = message.write(alloc)?;
    let second = copy.write(alloc)?;
    Ok(first.as_slice() == second.as_slice())
}

fn copied<M: TryClone>(message: &M) -> Result<M, Memory> {
    message.clone()
}

/// Whether a message that bytes spell is copied.
fn read_is_copied<M: Message + TryClone>(alloc: Global, bytes: &[u8]) -> Result<bool, WireError> {
    let (message, _) = M::read(alloc, bytes)?;
    is_copied(alloc, &message)
}

#[test]
fn a_heartbeat_shows_its_key_in_base64url(rt: HostRuntime) -> Result<(), Fail> {
    let heartbeat = heartbeat(rt.alloc())?;
    let text = format!(in rt.alloc(); "{heartbeat:?}")?;
    assert_eq!(rt;
        text.as_str(),
        "HeartbeatServerHttpRequest { jwt_key: \"AQIC\", num_cpus: 8, server_nonce: ServerNonce(7) }"
    );
    Ok(())
}

#[test]
fn a_clone_is_written_as_its_source(rt: HostRuntime) -> Result<(), Fail> {
    let heartbeat = heartbeat(rt.alloc())?;
    assert!(rt; is_copied(rt.alloc(), &heartbeat)?);
    let fail = [1, 0, 0, 0, 1, 0, 0, 0, 0, 0, 0, 0, b'x'];
    assert!(rt; read_is_copied::<AllocJobHttpResponse>(rt.alloc(), &fail)?);
    assert!(rt; read_is_copied::<RunJobHttpRequest>(rt.alloc(), &[0; 40])?);
    Ok(())
}

#[test]
fn what_is_written_is_read_before_other_bytes(rt: HostRuntime) -> Result<(), Fail> {
    let heartbeat = heartbeat(rt.alloc())?;
    let (read, length) = write_and_read(rt.alloc(), &heartbeat, b"more")?;
    assert_eq!(rt; length, 27);
    assert_eq!(rt; read.jwt_key.get(), [1, 2, 2].as_slice());
    assert_eq!(rt; read.num_cpus, 8);
    assert_eq!(rt; read.server_nonce, ServerNonce::new(7));
    Ok(())
}

#[test]
fn an_answer_is_sent_as_it_is(rt: HostRuntime) -> Result<(), Fail> {
    let job_alloc = JobAlloc {
        auth: Text::of(rt.alloc(), "t")?,
        job_id: JobId(1),
        server_id: ServerId::new(Addr::V4([127, 0, 0, 1], 10501)),
    };
    let result = AllocJobResult::Success {
        job_alloc,
        need_toolchain: false,
    };
    let before = result.write(rt.alloc())?;
    let response = AllocJobHttpResponse::from_alloc_job_result(result);
    let after = response.write(rt.alloc())?;
    assert_eq!(rt; before.as_slice(), after.as_slice());
    Ok(())
}

/// serde_json escapes neither the byte 0x7f nor the character U+2028.
#[test]
fn few_bytes_are_escaped(rt: HostRuntime) -> Result<(), Fail> {
    let msg = Text::of(rt.alloc(), "\u{7f}\u{2028}\u{1}")?;
    let response = AllocJobHttpResponse::Fail { msg };
    let text = response.to_json(rt.alloc())?;
    assert_eq!(rt;
        text.as_str(),
        "{\"Fail\":{\"msg\":\"\u{7f}\u{2028}\\u0001\"}}"
    );
    Ok(())
}

#[test]
fn errors_have_texts(rt: HostRuntime) -> Result<(), Fail> {
    let parse = format!(in rt.alloc(); "{}", WireError::ParseError)?;
    let memory = format!(in rt.alloc(); "{}", WireError::Memory)?;
    assert_eq!(rt; parse.as_str(), "no message begins the bytes");
    assert_eq!(rt; memory.as_str(), "out of memory");
    Ok(())
}
