//! What each refusal of a request is told, one at a time, in each version.
use dist_types::addr::Addr;
use dist_types::rules::Rules;
use http_routes::asked::asked;
use http_routes::route::{SchedRouted, Terms};
use std::alloc::{AllocError, Global};
use std::process::Abort;

const LOCAL: Addr = Addr::V4([127, 0, 0, 1], 40000);

const ALLOC: &str = "POST /api/v1/scheduler/alloc_job";

const BEAT: &str = "POST /api/v1/scheduler/heartbeat_server";

const STATE: &str = "POST /api/v1/scheduler/job_state/4096";

const STATUS: &str = "GET /api/v1/scheduler/status";

const TOOLCHAIN: &[u8] =
    b"\x40\0\0\0\0\0\0\0ba7816bf8f01cfea414140de5dae2223b00361a396177a9cb410ff61f20015ad";

const HEARTBEAT: &[u8] = b"\x03\0\0\0\0\0\0\0\x01\x02\x03\x08\0\0\0\0\0\0\0\x07\0\0\0\0\0\0\0";

const READY: &[u8] = b"\x01\0\0\0";

const NO_BEARER: &[u8] =
    b"HTTP/1.1 401 Unauthorized\r\nWWW-Authenticate: Bearer error=\"no_bearer_auth\"\r\nContent-Length: 0\r\nConnection: close\r\n\r\n";

const FAILED: &[u8] =
    b"HTTP/1.1 401 Unauthorized\r\nWWW-Authenticate: Bearer error=\"bearer_auth_failed\"\r\nContent-Length: 20\r\nConnection: close\r\n\r\nFixed token mismatch";

pub(crate) const INVALID: &[u8] =
    b"HTTP/1.1 401 Unauthorized\r\nWWW-Authenticate: Bearer error=\"invalid_bearer_token\"\r\nContent-Length: 0\r\nConnection: close\r\n\r\n";

pub(crate) const MISMATCHED: &[u8] =
    b"HTTP/1.1 401 Unauthorized\r\nWWW-Authenticate: Bearer error=\"invalid_bearer_token_mismatched_address\"\r\nContent-Length: 0\r\nConnection: close\r\n\r\n";

pub(crate) const BAD_IP: &[u8] =
    b"HTTP/1.1 400 Bad Request\r\nContent-Length: 0\r\nConnection: close\r\n\r\n";

pub(crate) const CONTENT_TYPE: &[u8] =
    b"HTTP/1.1 400 Bad Request\r\nContent-Type: application/json\r\nContent-Length: 76\r\nConnection: close\r\n\r\n{\"cause\":null,\"description\":\"the request didn't have a binary content type\"}";

pub(crate) const PARSE: &[u8] =
    b"HTTP/1.1 400 Bad Request\r\nContent-Type: application/json\r\nContent-Length: 120\r\nConnection: close\r\n\r\n{\"cause\":{\"cause\":null,\"description\":\"no message begins the body\"},\"description\":\"error while parsing the bincode body\"}";

const BAD_HEAD: &[u8] =
    b"HTTP/1.1 400 Bad Request\r\nContent-Type: application/json\r\nContent-Length: 47\r\nConnection: close\r\n\r\n{\"cause\":null,\"description\":\"bad request head\"}";

pub(crate) const NOT_FOUND: &[u8] =
    b"HTTP/1.1 404 Not Found\r\nContent-Length: 0\r\nConnection: close\r\n\r\n";

/// What a row shows, the method and the target, the fields but for the length, the body, and the reply that
/// is known at once, if one is.
pub(crate) type Row = (
    &'static str,
    &'static str,
    &'static [u8],
    &'static [u8],
    Option<&'static [u8]>,
);

const CLIENTS: &[Row] = &[
    (
        "a job in order",
        ALLOC,
        b"Authorization: Bearer c1\r\nContent-Type: application/octet-stream\r\n",
        TOOLCHAIN,
        None,
    ),
    (
        "a job asked in JSON",
        ALLOC,
        b"Authorization: Bearer c1\r\nContent-Type: application/octet-stream\r\nAccept: application/json\r\n",
        TOOLCHAIN,
        None,
    ),
    (
        "bytes after the toolchain",
        ALLOC,
        b"Authorization: Bearer c1\r\nContent-Type: application/octet-stream\r\n",
        b"\x40\0\0\0\0\0\0\0BA7816BF8F01CFEA414140DE5DAE2223B00361A396177A9CB410FF61F20015ADxx",
        None,
    ),
    (
        "a longer content type",
        ALLOC,
        b"Authorization: Bearer c1\r\nContent-Type: application/octet-stream; x\r\n",
        TOOLCHAIN,
        None,
    ),
    (
        "no Authorization",
        ALLOC,
        b"Content-Type: application/octet-stream\r\n",
        TOOLCHAIN,
        Some(NO_BEARER),
    ),
    (
        "another scheme",
        ALLOC,
        b"Authorization: Basic c1\r\nContent-Type: application/octet-stream\r\n",
        TOOLCHAIN,
        Some(NO_BEARER),
    ),
    (
        "the scheme in small letters",
        ALLOC,
        b"Authorization: bearer c1\r\nContent-Type: application/octet-stream\r\n",
        TOOLCHAIN,
        Some(NO_BEARER),
    ),
    (
        "the scheme alone",
        ALLOC,
        b"Authorization: Bearer\r\nContent-Type: application/octet-stream\r\n",
        TOOLCHAIN,
        Some(NO_BEARER),
    ),
    (
        "an Authorization that is not UTF-8",
        ALLOC,
        b"Authorization: Bearer \xff\r\nContent-Type: application/octet-stream\r\n",
        TOOLCHAIN,
        Some(NO_BEARER),
    ),
    (
        "the first Authorization counts",
        ALLOC,
        b"Authorization: x\r\nAuthorization: Bearer c1\r\nContent-Type: application/octet-stream\r\n",
        TOOLCHAIN,
        Some(NO_BEARER),
    ),
    (
        "another token",
        ALLOC,
        b"Authorization: Bearer x\r\nContent-Type: application/octet-stream\r\n",
        TOOLCHAIN,
        Some(FAILED),
    ),
    (
        "the token in capitals",
        ALLOC,
        b"Authorization: Bearer C1\r\nContent-Type: application/octet-stream\r\n",
        TOOLCHAIN,
        Some(FAILED),
    ),
    (
        "two spaces before the token",
        ALLOC,
        b"Authorization: Bearer  c1\r\nContent-Type: application/octet-stream\r\n",
        TOOLCHAIN,
        Some(FAILED),
    ),
    (
        "a longer token",
        ALLOC,
        b"Authorization: Bearer c1 c1\r\nContent-Type: application/octet-stream\r\n",
        TOOLCHAIN,
        Some(FAILED),
    ),
    (
        "a client's X-Real-IP is not looked at",
        ALLOC,
        b"Authorization: Bearer c1\r\nContent-Type: application/octet-stream\r\nX-Real-IP: x\r\n",
        TOOLCHAIN,
        None,
    ),
    (
        "a job without a content type",
        ALLOC,
        b"Authorization: Bearer c1\r\n",
        TOOLCHAIN,
        Some(CONTENT_TYPE),
    ),
    (
        "a job in JSON",
        ALLOC,
        b"Authorization: Bearer c1\r\nContent-Type: application/json\r\n",
        TOOLCHAIN,
        Some(CONTENT_TYPE),
    ),
    (
        "the content type in capitals",
        ALLOC,
        b"Authorization: Bearer c1\r\nContent-Type: Application/Octet-Stream\r\n",
        TOOLCHAIN,
        Some(CONTENT_TYPE),
    ),
    (
        "a job without a toolchain",
        ALLOC,
        b"Authorization: Bearer c1\r\nContent-Type: application/octet-stream\r\n",
        b"",
        Some(PARSE),
    ),
    (
        "a digit too few",
        ALLOC,
        b"Authorization: Bearer c1\r\nContent-Type: application/octet-stream\r\n",
        b"\x3f\0\0\0\0\0\0\0a7816bf8f01cfea414140de5dae2223b00361a396177a9cb410ff61f20015ad",
        Some(PARSE),
    ),
    (
        "a length past the body",
        ALLOC,
        b"Authorization: Bearer c1\r\nContent-Type: application/octet-stream\r\n",
        b"\xff\xff\xff\xff\xff\xff\xff\xff",
        Some(PARSE),
    ),
];

const SERVERS: &[Row] = &[
    (
        "a heartbeat in order",
        BEAT,
        b"Authorization: Bearer 127.0.0.1:10501 s1\r\nContent-Type: application/octet-stream\r\n",
        HEARTBEAT,
        None,
    ),
    (
        "a heartbeat with no processors",
        BEAT,
        b"Authorization: Bearer 127.0.0.1:10501 s1\r\nContent-Type: application/octet-stream\r\n",
        b"\0\0\0\0\0\0\0\0\0\0\0\0\0\0\0\0\x07\0\0\0\0\0\0\0",
        None,
    ),
    (
        "a heartbeat with too many",
        BEAT,
        b"Authorization: Bearer 127.0.0.1:10501 s1\r\nContent-Type: application/octet-stream\r\n",
        b"\0\0\0\0\0\0\0\0\0\0\0\0\x01\0\0\0\x07\0\0\0\0\0\0\0",
        None,
    ),
    (
        "bytes after the heartbeat",
        BEAT,
        b"Authorization: Bearer 127.0.0.1:10501 s1\r\nContent-Type: application/octet-stream\r\n",
        b"\0\0\0\0\0\0\0\0\x08\0\0\0\0\0\0\0\x07\0\0\0\0\0\0\0\xff",
        None,
    ),
    (
        "no server token",
        BEAT,
        b"Content-Type: application/octet-stream\r\n",
        HEARTBEAT,
        Some(INVALID),
    ),
    (
        "a server's token under another scheme",
        BEAT,
        b"Authorization: Basic 127.0.0.1:10501 s1\r\nContent-Type: application/octet-stream\r\n",
        HEARTBEAT,
        Some(INVALID),
    ),
    (
        "a server's scheme alone",
        BEAT,
        b"Authorization: Bearer\r\nContent-Type: application/octet-stream\r\n",
        HEARTBEAT,
        Some(INVALID),
    ),
    (
        "a server's Authorization that is not UTF-8",
        BEAT,
        b"Authorization: Bearer 127.0.0.1:10501 s1\xff\r\nContent-Type: application/octet-stream\r\n",
        HEARTBEAT,
        Some(INVALID),
    ),
    (
        "another server token",
        BEAT,
        b"Authorization: Bearer 127.0.0.1:10501 s2\r\nContent-Type: application/octet-stream\r\n",
        HEARTBEAT,
        Some(INVALID),
    ),
    (
        "the clients' token",
        BEAT,
        b"Authorization: Bearer c1\r\nContent-Type: application/octet-stream\r\n",
        HEARTBEAT,
        Some(INVALID),
    ),
    (
        "no address",
        BEAT,
        b"Authorization: Bearer x s1\r\nContent-Type: application/octet-stream\r\n",
        HEARTBEAT,
        Some(INVALID),
    ),
    (
        "a longer server token",
        BEAT,
        b"Authorization: Bearer 127.0.0.1:10501 s1 s1\r\nContent-Type: application/octet-stream\r\n",
        HEARTBEAT,
        Some(INVALID),
    ),
    (
        "two spaces after the address",
        BEAT,
        b"Authorization: Bearer 127.0.0.1:10501  s1\r\nContent-Type: application/octet-stream\r\n",
        HEARTBEAT,
        Some(INVALID),
    ),
    (
        "the peer's IP as X-Real-IP",
        BEAT,
        b"Authorization: Bearer 127.0.0.1:10501 s1\r\nContent-Type: application/octet-stream\r\nX-Real-IP: 127.0.0.1\r\n",
        HEARTBEAT,
        None,
    ),
    (
        "another IP",
        BEAT,
        b"Authorization: Bearer 127.0.0.1:10501 s1\r\nContent-Type: application/octet-stream\r\nX-Real-IP: 10.0.0.1\r\n",
        HEARTBEAT,
        Some(MISMATCHED),
    ),
    (
        "a mapped IP",
        BEAT,
        b"Authorization: Bearer 127.0.0.1:10501 s1\r\nContent-Type: application/octet-stream\r\nX-Real-IP: ::ffff:127.0.0.1\r\n",
        HEARTBEAT,
        Some(MISMATCHED),
    ),
    (
        "an IP with a port",
        BEAT,
        b"Authorization: Bearer 127.0.0.1:10501 s1\r\nContent-Type: application/octet-stream\r\nX-Real-IP: 127.0.0.1:1\r\n",
        HEARTBEAT,
        Some(BAD_IP),
    ),
    (
        "no IP",
        BEAT,
        b"Authorization: Bearer 127.0.0.1:10501 s1\r\nContent-Type: application/octet-stream\r\nX-Real-IP: x\r\n",
        HEARTBEAT,
        Some(BAD_IP),
    ),
    (
        "an empty IP",
        BEAT,
        b"Authorization: Bearer 127.0.0.1:10501 s1\r\nContent-Type: application/octet-stream\r\nX-Real-IP:\r\n",
        HEARTBEAT,
        Some(BAD_IP),
    ),
    (
        "an X-Real-IP that is not UTF-8 counts as absent",
        BEAT,
        b"Authorization: Bearer 127.0.0.1:10501 s1\r\nContent-Type: application/octet-stream\r\nX-Real-IP: \xff\r\n",
        HEARTBEAT,
        None,
    ),
    (
        "the IP that X-Real-IP says stands for the peer's",
        BEAT,
        b"Authorization: Bearer [2001:db8::1]:1 s1\r\nContent-Type: application/octet-stream\r\nX-Real-IP: 2001:DB8::1\r\n",
        HEARTBEAT,
        None,
    ),
    (
        "a heartbeat without a content type",
        BEAT,
        b"Authorization: Bearer 127.0.0.1:10501 s1\r\n",
        HEARTBEAT,
        Some(CONTENT_TYPE),
    ),
    (
        "a heartbeat that is cut",
        BEAT,
        b"Authorization: Bearer 127.0.0.1:10501 s1\r\nContent-Type: application/octet-stream\r\n",
        b"\x03\0\0\0\0\0\0\0\x01\x02\x03\x08\0\0\0\0\0\0\0\x07\0\0\0\0\0\0",
        Some(PARSE),
    ),
    (
        "a state in order",
        STATE,
        b"Authorization: Bearer 127.0.0.1:10501 s1\r\nContent-Type: application/octet-stream\r\n",
        READY,
        None,
    ),
    (
        "a state without a token",
        STATE,
        b"Content-Type: application/octet-stream\r\n",
        READY,
        Some(INVALID),
    ),
    (
        "a state under another scheme",
        STATE,
        b"Authorization: Basic 127.0.0.1:10501 s1\r\nContent-Type: application/octet-stream\r\n",
        READY,
        Some(INVALID),
    ),
    (
        "a state whose Authorization is not UTF-8",
        STATE,
        b"Authorization: Bearer 127.0.0.1:10501 s1\xff\r\nContent-Type: application/octet-stream\r\n",
        READY,
        Some(INVALID),
    ),
    (
        "a state under another token",
        STATE,
        b"Authorization: Bearer 127.0.0.1:10501 s2\r\nContent-Type: application/octet-stream\r\n",
        READY,
        Some(INVALID),
    ),
    (
        "a state from another IP",
        STATE,
        b"Authorization: Bearer 127.0.0.1:10501 s1\r\nContent-Type: application/octet-stream\r\nX-Real-IP: 10.0.0.1\r\n",
        READY,
        Some(MISMATCHED),
    ),
    (
        "a state with no IP",
        STATE,
        b"Authorization: Bearer 127.0.0.1:10501 s1\r\nContent-Type: application/octet-stream\r\nX-Real-IP: x\r\n",
        READY,
        Some(BAD_IP),
    ),
    (
        "a state without a content type",
        STATE,
        b"Authorization: Bearer 127.0.0.1:10501 s1\r\n",
        READY,
        Some(CONTENT_TYPE),
    ),
    (
        "a state of no number",
        STATE,
        b"Authorization: Bearer 127.0.0.1:10501 s1\r\nContent-Type: application/octet-stream\r\n",
        b"\x04\0\0\0",
        Some(PARSE),
    ),
    (
        "a state that is cut",
        STATE,
        b"Authorization: Bearer 127.0.0.1:10501 s1\r\nContent-Type: application/octet-stream\r\n",
        b"\x01\0\0",
        Some(PARSE),
    ),
];

const TARGETS: &[Row] = &[
    ("the status", STATUS, b"", b"", None),
    (
        "the status with a query",
        "GET /api/v1/scheduler/status?a=b",
        b"",
        b"",
        None,
    ),
    (
        "the status in small letters",
        "get /api/v1/scheduler/status",
        b"",
        b"",
        Some(NOT_FOUND),
    ),
    (
        "the status posted",
        "POST /api/v1/scheduler/status",
        b"",
        b"",
        Some(NOT_FOUND),
    ),
    (
        "a slash after the status",
        "GET /api/v1/scheduler/status/",
        b"",
        b"",
        Some(NOT_FOUND),
    ),
    (
        "a job that is got",
        "GET /api/v1/scheduler/alloc_job",
        b"Authorization: Bearer c1\r\nContent-Type: application/octet-stream\r\n",
        TOOLCHAIN,
        Some(NOT_FOUND),
    ),
    (
        "a heartbeat that is got",
        "GET /api/v1/scheduler/heartbeat_server",
        b"Authorization: Bearer 127.0.0.1:10501 s1\r\nContent-Type: application/octet-stream\r\n",
        HEARTBEAT,
        Some(NOT_FOUND),
    ),
    (
        "a state that is got",
        "GET /api/v1/scheduler/job_state/4096",
        b"Authorization: Bearer 127.0.0.1:10501 s1\r\nContent-Type: application/octet-stream\r\n",
        READY,
        Some(NOT_FOUND),
    ),
    (
        "no id",
        "POST /api/v1/scheduler/job_state/",
        b"Authorization: Bearer 127.0.0.1:10501 s1\r\nContent-Type: application/octet-stream\r\n",
        READY,
        Some(NOT_FOUND),
    ),
    (
        "no slash before the id",
        "POST /api/v1/scheduler/job_state",
        b"Authorization: Bearer 127.0.0.1:10501 s1\r\nContent-Type: application/octet-stream\r\n",
        READY,
        Some(NOT_FOUND),
    ),
    (
        "an id of letters",
        "POST /api/v1/scheduler/job_state/x",
        b"Authorization: Bearer 127.0.0.1:10501 s1\r\nContent-Type: application/octet-stream\r\n",
        READY,
        Some(NOT_FOUND),
    ),
    (
        "an id below 0",
        "POST /api/v1/scheduler/job_state/-1",
        b"Authorization: Bearer 127.0.0.1:10501 s1\r\nContent-Type: application/octet-stream\r\n",
        READY,
        Some(NOT_FOUND),
    ),
    (
        "an id past 2^64 - 1",
        "POST /api/v1/scheduler/job_state/18446744073709551616",
        b"Authorization: Bearer 127.0.0.1:10501 s1\r\nContent-Type: application/octet-stream\r\n",
        READY,
        Some(NOT_FOUND),
    ),
    (
        "a slash after the id",
        "POST /api/v1/scheduler/job_state/4096/",
        b"Authorization: Bearer 127.0.0.1:10501 s1\r\nContent-Type: application/octet-stream\r\n",
        READY,
        Some(NOT_FOUND),
    ),
    (
        "no id and no token",
        "POST /api/v1/scheduler/job_state/x",
        b"",
        READY,
        Some(NOT_FOUND),
    ),
    (
        "an id with a plus and zeros",
        "POST /api/v1/scheduler/job_state/+0064",
        b"Authorization: Bearer 127.0.0.1:10501 s1\r\nContent-Type: application/octet-stream\r\n",
        READY,
        None,
    ),
    (
        "the greatest id",
        "POST /api/v1/scheduler/job_state/18446744073709551615?a",
        b"Authorization: Bearer 127.0.0.1:10501 s1\r\nContent-Type: application/octet-stream\r\n",
        READY,
        None,
    ),
    (
        "an assignment",
        "POST /api/v1/distserver/assign_job/4096",
        b"Authorization: Bearer 127.0.0.1:10501 s1\r\nContent-Type: application/octet-stream\r\n",
        TOOLCHAIN,
        Some(NOT_FOUND),
    ),
    (
        "the root in JSON",
        "GET /",
        b"Accept: application/json\r\n",
        b"",
        Some(NOT_FOUND),
    ),
    (
        "a transfer coding",
        ALLOC,
        b"Transfer-Encoding: chunked\r\n",
        b"",
        Some(BAD_HEAD),
    ),
    (
        "two lengths",
        STATUS,
        b"Content-Length: 0\r\n",
        b"",
        Some(BAD_HEAD),
    ),
];

/// Writes what comes behind the length: the other fields and the body.
fn write_rest(bytes: &mut Vec<u8>, fields: &[u8], body: &[u8]) -> Result<(), AllocError> {
    bytes.extend_from_slice(fields)?;
    bytes.extend_from_slice(b"\r\n")?;
    bytes.extend_from_slice(body)
}

fn request(rt: &impl Abort, alloc: Global, line: &str, fields: &[u8], body: &[u8]) -> Vec<u8> {
    let len = body.len();
    let line = format!(in alloc; "{line} HTTP/1.1\r\nContent-Length: {len}\r\n");
    let mut bytes = line.expect(rt, "memory").into_bytes();
    write_rest(&mut bytes, fields, body).expect(rt, "memory");
    bytes
}

/// Whether that is the reply that is known at once, or that none is.
fn is_done(alloc: Global, what: &SchedRouted, want: Option<&[u8]>) -> bool {
    match what {
        SchedRouted::Done(response) => match response.bytes(alloc) {
            Ok(reply) => want == Some(reply.as_slice()),
            Err(_) => false,
        },
        _ => want.is_none(),
    }
}

/// Whether a request on these terms has that reply at once, or none.
fn is_replied(alloc: Global, bytes: &[u8], terms: Terms, want: Option<&[u8]>) -> bool {
    match asked(alloc, bytes, terms, "c1", "s1") {
        Ok(asked) => is_done(alloc, &asked.what, want),
        Err(_) => false,
    }
}

/// Checks a row by these rules.
pub(crate) fn check_by(rt: &impl Abort, alloc: Global, rules: Rules, row: &Row) {
    let (name, line, fields, body, want) = row;
    let bytes = request(rt, alloc, line, fields, body);
    let terms = Terms { peer: LOCAL, rules };
    assert!(rt; is_replied(alloc, &bytes, terms, *want), "{name}");
}

/// Checks a row in each version.
fn check(rt: &impl Abort, alloc: Global, row: &Row) {
    check_by(rt, alloc, Rules::One, row);
    check_by(rt, alloc, Rules::Two, row);
}

#[test]
fn clients_are_told_each_refusal(rt: HostRuntime) {
    for row in CLIENTS {
        check(&rt, rt.alloc(), row);
    }
}

#[test]
fn servers_are_told_each_refusal(rt: HostRuntime) {
    for row in SERVERS {
        check(&rt, rt.alloc(), row);
    }
}

#[test]
fn other_targets_are_not_found(rt: HostRuntime) {
    for row in TARGETS {
        check(&rt, rt.alloc(), row);
    }
}

/// Bytes that are no request.
const NO_REQUESTS: &[&[u8]] = &[
    b"GET",
    b"POST /api/v1/scheduler/alloc_job HTTP/1.1\r\nTransfer-Encoding: chunked\r\n\r\n1\r\nx\r\n0\r\n\r\n",
    b"GET /api/v1/scheduler/status HTTP/1.1\r\n\r\nx",
    b"",
];

#[test]
fn bad_heads_are_told_as_such(rt: HostRuntime) {
    for bytes in NO_REQUESTS {
        let terms = Terms {
            peer: LOCAL,
            rules: Rules::One,
        };
        assert!(&rt; is_replied(rt.alloc(), bytes, terms, Some(BAD_HEAD)));
    }
}

/// Peers of a heartbeat of 127.0.0.1, and the reply that is known at once, if one is.
const PEERS: &[(Addr, Option<&[u8]>)] = &[
    (Addr::V4([10, 0, 0, 1], 5), Some(MISMATCHED)),
    (
        Addr::V6([0, 0, 0, 0, 0, 0xffff, 0x7f00, 1], 40000),
        Some(MISMATCHED),
    ),
    (Addr::V4([127, 0, 0, 1], 5), None),
];

#[test]
fn a_heartbeat_comes_from_its_own_ip(rt: HostRuntime) {
    let fields =
        b"Authorization: Bearer 127.0.0.1:10501 s1\r\nContent-Type: application/octet-stream\r\n".as_slice();
    let bytes = request(&rt, rt.alloc(), BEAT, fields, HEARTBEAT);
    for (peer, want) in PEERS {
        let terms = Terms {
            peer: *peer,
            rules: Rules::One,
        };
        assert!(&rt; is_replied(rt.alloc(), &bytes, terms, *want), "from {peer}");
    }
}
