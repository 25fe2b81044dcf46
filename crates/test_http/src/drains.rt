//! What a wish to drain asks in version 2, what each refusal of one is told, and that in version 1 there is no
//! such route.
use crate::refusals::{BAD_IP, CONTENT_TYPE, INVALID, MISMATCHED, NOT_FOUND, PARSE, Row, check_by};
use dist_types::addr::Addr;
use dist_types::ids::ServerNonce;
use dist_types::rules::Rules;
use dist_types::text::Bytes;
use dist_wire::drain::DrainServerHttpRequest;
use http_routes::asked::asked;
use http_routes::replies::to_drain;
use http_routes::requests::drain_request;
use http_routes::route::{Asked, SchedRouted, Terms};
use std::alloc::Global;
use std::process::Abort;

const SERVER: Addr = Addr::V4([127, 0, 0, 1], 10501);

const SCHEDULER: Addr = Addr::V4([127, 0, 0, 1], 10600);

const DRAIN: &str = "POST /api/v1/scheduler/drain_server";

const ON: &[u8] = b"\x07\0\0\0\0\0\0\0\x01";

const OFF: &[u8] = b"\x07\0\0\0\0\0\0\0\0";

const IN_ORDER: &[u8] =
    b"Authorization: Bearer 127.0.0.1:10501 s1\r\nContent-Type: application/octet-stream\r\n";

const DRAINS: &[Row] = &[
    ("a drain in order", DRAIN, IN_ORDER, ON, None),
    ("a drain that ends", DRAIN, IN_ORDER, OFF, None),
    (
        "a drain with a query",
        "POST /api/v1/scheduler/drain_server?a=b",
        IN_ORDER,
        ON,
        None,
    ),
    (
        "bytes after the drain",
        DRAIN,
        IN_ORDER,
        b"\x07\0\0\0\0\0\0\0\x01\xff",
        None,
    ),
    (
        "a drain in JSON",
        DRAIN,
        b"Authorization: Bearer 127.0.0.1:10501 s1\r\nContent-Type: application/octet-stream\r\nAccept: application/json\r\n",
        ON,
        None,
    ),
    (
        "no server token",
        DRAIN,
        b"Content-Type: application/octet-stream\r\n",
        ON,
        Some(INVALID),
    ),
    (
        "the clients' token",
        DRAIN,
        b"Authorization: Bearer c1\r\nContent-Type: application/octet-stream\r\n",
        ON,
        Some(INVALID),
    ),
    (
        "another server token",
        DRAIN,
        b"Authorization: Bearer 127.0.0.1:10501 s2\r\nContent-Type: application/octet-stream\r\n",
        ON,
        Some(INVALID),
    ),
    (
        "no IP",
        DRAIN,
        b"Authorization: Bearer 127.0.0.1:10501 s1\r\nContent-Type: application/octet-stream\r\nX-Real-IP: x\r\n",
        ON,
        Some(BAD_IP),
    ),
    (
        "another IP",
        DRAIN,
        b"Authorization: Bearer 127.0.0.1:10501 s1\r\nContent-Type: application/octet-stream\r\nX-Real-IP: 10.0.0.1\r\n",
        ON,
        Some(MISMATCHED),
    ),
    (
        "a drain without a content type",
        DRAIN,
        b"Authorization: Bearer 127.0.0.1:10501 s1\r\n",
        ON,
        Some(CONTENT_TYPE),
    ),
    (
        "a flag that is 2",
        DRAIN,
        IN_ORDER,
        b"\x07\0\0\0\0\0\0\0\x02",
        Some(PARSE),
    ),
    (
        "a drain that is cut",
        DRAIN,
        IN_ORDER,
        b"\x07\0\0\0\0\0\0\0",
        Some(PARSE),
    ),
    (
        "a drain that is got",
        "GET /api/v1/scheduler/drain_server",
        IN_ORDER,
        ON,
        Some(NOT_FOUND),
    ),
    (
        "a slash after the drain",
        "POST /api/v1/scheduler/drain_server/",
        IN_ORDER,
        ON,
        Some(NOT_FOUND),
    ),
];

#[test]
fn drains_are_told_each_refusal_in_version_2(rt: HostRuntime) {
    for row in DRAINS {
        check_by(&rt, rt.alloc(), Rules::Two, row);
    }
}

#[test]
fn no_drain_is_found_in_version_1(rt: HostRuntime) {
    for (name, line, fields, body, _) in DRAINS {
        let row = (*name, *line, *fields, *body, Some(NOT_FOUND));
        check_by(&rt, rt.alloc(), Rules::One, &row);
    }
}

/// A wish to drain that is written, of the server's nonce 7.
fn drain(rt: &impl Abort, alloc: Global, draining: bool) -> Bytes {
    let drain = DrainServerHttpRequest {
        server_nonce: ServerNonce::new(7),
        draining,
    };
    let request = drain_request(alloc, SCHEDULER, "127.0.0.1:10501 s1", &drain);
    request.expect(rt, "a request")
}

/// What the bytes ask of a scheduler in version 2.
fn ask(rt: &impl Abort, alloc: Global, bytes: &[u8]) -> Asked {
    let terms = Terms {
        peer: SERVER,
        rules: Rules::Two,
    };
    asked(alloc, bytes, terms, "c1", "s1").expect(rt, "a request")
}

/// Whether that is the server's wish to drain, or to drain no more.
fn is_drain(what: &SchedRouted, draining: bool) -> bool {
    match what {
        SchedRouted::Drain(server, drain) => {
            server.addr() == SERVER
                && (drain.server_nonce, drain.draining) == (ServerNonce::new(7), draining)
        }
        _ => false,
    }
}

#[test]
fn a_drain_that_is_written_is_told(rt: HostRuntime) {
    let bytes = drain(&rt, rt.alloc(), true);
    assert!(&rt;
        bytes.get()
            == b"POST /api/v1/scheduler/drain_server HTTP/1.1\r\nHost: 127.0.0.1:10600\r\nAuthorization: Bearer 127.0.0.1:10501 s1\r\nContent-Type: application/octet-stream\r\nContent-Length: 9\r\nConnection: close\r\n\r\n\x07\0\0\0\0\0\0\0\x01".as_slice()
    );
    assert!(&rt; is_drain(&ask(&rt, rt.alloc(), bytes.get()).what, true));
    let bytes = drain(&rt, rt.alloc(), false);
    assert!(&rt; is_drain(&ask(&rt, rt.alloc(), bytes.get()).what, false));
}

/// Whether a registration is named, whether the reply is in JSON, and the reply.
const REPLIES: &[(bool, bool, &[u8])] = &[
    (
        true,
        false,
        b"HTTP/1.1 200 OK\r\nContent-Type: application/octet-stream\r\nContent-Length: 1\r\nConnection: close\r\n\r\n\x01",
    ),
    (
        false,
        false,
        b"HTTP/1.1 200 OK\r\nContent-Type: application/octet-stream\r\nContent-Length: 1\r\nConnection: close\r\n\r\n\0",
    ),
    (
        true,
        true,
        b"HTTP/1.1 200 OK\r\nContent-Type: application/json\r\nContent-Length: 14\r\nConnection: close\r\n\r\n{\"known\":true}",
    ),
];

/// Whether that is the reply.
fn is_told(alloc: Global, known: bool, json: bool, want: &[u8]) -> bool {
    match to_drain(alloc, json, known) {
        Ok(response) => match response.bytes(alloc) {
            Ok(reply) => reply.as_slice() == want,
            Err(_) => false,
        },
        Err(_) => false,
    }
}

#[test]
fn a_drain_is_told_whether_it_names_a_registration(rt: HostRuntime) {
    for (known, json, want) in REPLIES {
        assert!(&rt; is_told(rt.alloc(), *known, *json, want));
    }
}
