//! What is written to a server, and what its replies say.
use dist_types::addr::Addr;
use dist_types::ids::{JobId, ServerId};
use dist_types::outgoing::CallFault;
use dist_types::results::{AssignJobResult, JobState, UpdateJobStateResult};
use dist_types::toolchain::Toolchain;
use http_routes::call_reply::{assigned, read_reply};
use http_routes::error::HttpError;
use http_routes::requests::assign_request;
use std::alloc::Global;
use std::process::Abort;

/// The toolchain whose archive is `abc`.
pub(crate) fn abc(rt: &impl Abort) -> Toolchain {
    Toolchain::new("ba7816bf8f01cfea414140de5dae2223b00361a396177a9cb410ff61f20015ad").expect(
        rt,
        "a toolchain",
    )
}

#[test]
fn an_assignment_is_written(rt: HostRuntime) {
    let tc = abc(&rt);
    let server = ServerId::new(Addr::V4([127, 0, 0, 1], 10501));
    let request = assign_request(rt.alloc(), server, JobId(4096), "a.b.c", &tc);
    assert!(&rt;
        request.expect(&rt, "a request").get()
            == b"POST /api/v1/distserver/assign_job/4096 HTTP/1.1\r\nHost: 127.0.0.1:10501\r\nAuthorization: Bearer a.b.c\r\nContent-Type: application/octet-stream\r\nContent-Length: 72\r\nConnection: close\r\n\r\n\x40\0\0\0\0\0\0\0ba7816bf8f01cfea414140de5dae2223b00361a396177a9cb410ff61f20015ad".as_slice()
    );
}

const PENDING: Result<AssignJobResult, CallFault> = Ok(AssignJobResult {
    state: JobState::Pending,
    need_toolchain: true,
});

const READY: Result<AssignJobResult, CallFault> = Ok(AssignJobResult {
    state: JobState::Ready,
    need_toolchain: false,
});

/// What the bytes show, the bytes, and what they say.
const ANSWERS: &[(&str, &[u8], Result<AssignJobResult, CallFault>)] = &[
    (
        "pending",
        b"HTTP/1.1 200 OK\r\nContent-Length: 5\r\n\r\n\0\0\0\0\x01",
        PENDING,
    ),
    ("no length", b"HTTP/1.1 200 OK\r\n\r\n\0\0\0\0\x01", PENDING),
    (
        "another reason",
        b"HTTP/1.0 200 Fine\r\n\r\n\0\0\0\0\x01",
        PENDING,
    ),
    (
        "a byte after the answer",
        b"HTTP/1.1 200 OK\r\nContent-Length: 6\r\n\r\n\0\0\0\0\x01\xff",
        PENDING,
    ),
    (
        "ready",
        b"HTTP/1.1 200 OK\r\nContent-Length: 5\r\n\r\n\x01\0\0\0\0",
        READY,
    ),
    (
        "started",
        b"HTTP/1.1 200 OK\r\nContent-Length: 5\r\n\r\n\x02\0\0\0\0",
        Err(CallFault::BadState(JobState::Started)),
    ),
    (
        "complete",
        b"HTTP/1.1 200 OK\r\nContent-Length: 5\r\n\r\n\x03\0\0\0\x01",
        Err(CallFault::BadState(JobState::Complete)),
    ),
    (
        "another status",
        b"HTTP/1.1 201 Created\r\nContent-Length: 5\r\n\r\n\0\0\0\0\x01",
        Err(CallFault::Status(201)),
    ),
    (
        "a low code",
        b"HTTP/1.1 007 X\r\n\r\n",
        Err(CallFault::Status(7)),
    ),
    (
        "a flag of 2",
        b"HTTP/1.1 200 OK\r\nContent-Length: 5\r\n\r\n\0\0\0\0\x02",
        Err(CallFault::Unreadable),
    ),
    (
        "a body too short",
        b"HTTP/1.1 200 OK\r\nContent-Length: 5\r\n\r\n\0\0\0\0",
        Err(CallFault::Unreadable),
    ),
    (
        "a body too long",
        b"HTTP/1.1 200 OK\r\nContent-Length: 5\r\n\r\n\0\0\0\0\x01\xff",
        Err(CallFault::Unreadable),
    ),
    (
        "a transfer coding",
        b"HTTP/1.1 200 OK\r\nTransfer-Encoding: identity\r\n\r\n\0\0\0\0\x01",
        Err(CallFault::Unreadable),
    ),
    (
        "a broken length and another status",
        b"HTTP/1.1 500 X\r\nContent-Length: x\r\n\r\n",
        Err(CallFault::Unreadable),
    ),
    (
        "no body",
        b"HTTP/1.1 200 OK\r\n\r\n",
        Err(CallFault::Unreadable),
    ),
    (
        "a head that is cut",
        b"HTTP/1.1 200 OK\r\n",
        Err(CallFault::Unreadable),
    ),
    ("nothing", b"", Err(CallFault::Unreadable)),
];

/// Whether that is what the bytes say.
fn is_told(alloc: Global, bytes: &[u8], want: Result<AssignJobResult, CallFault>) -> bool {
    match assigned(alloc, bytes) {
        Ok(told) => told == want,
        Err(_) => false,
    }
}

#[test]
fn replies_to_assignments_are_told(rt: HostRuntime) {
    for (name, bytes, want) in ANSWERS {
        assert!(&rt; is_told(rt.alloc(), bytes, *want), "{name}");
    }
}

/// Whether the reply says that a report was taken.
fn is_accepted(alloc: Global, bytes: &[u8]) -> bool {
    let answer: Result<UpdateJobStateResult, HttpError> = read_reply(alloc, bytes);
    matches!(&answer, Ok(UpdateJobStateResult::Success))
}

/// Whether the reply to a report has that status and that body.
fn is_refused(alloc: Global, bytes: &[u8], status: u16, body: &[u8]) -> bool {
    let answer: Result<UpdateJobStateResult, HttpError> = read_reply(alloc, bytes);
    match &answer {
        Err(HttpError::Status(code, text)) => *code == status && text.get() == body,
        _ => false,
    }
}

#[test]
fn a_reply_is_read_as_its_message(rt: HostRuntime) {
    let accepted = b"HTTP/1.1 200 OK\r\nContent-Length: 4\r\n\r\n\0\0\0\0".as_slice();
    let refused = b"HTTP/1.1 500 X\r\nContent-Length: 4\r\n\r\nabcd".as_slice();
    assert!(&rt; is_accepted(rt.alloc(), accepted));
    assert!(&rt; is_refused(rt.alloc(), refused, 500, b"abcd"));
}
