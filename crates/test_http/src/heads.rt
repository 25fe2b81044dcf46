use http_routes::error::HttpError;
use http_routes::head::read_head;
use std::alloc::{AllocError, Global};
use std::process::Abort;

/// What the bytes show, the bytes, and of a request how many fields and bytes of body it has.
const HEADS: &[(&str, &[u8], Option<(usize, usize)>)] = &[
    ("no field", b"GET / HTTP/1.1\r\n\r\n", Some((0, 0))),
    ("the older version", b"GET / HTTP/1.0\r\n\r\n", Some((0, 0))),
    (
        "lines that end by LF alone",
        b"GET / HTTP/1.1\nHost: a\n\n",
        Some((1, 0)),
    ),
    (
        "both ends of lines",
        b"GET / HTTP/1.1\r\nHost: a\nB: c\r\n\n",
        Some((2, 0)),
    ),
    (
        "empty lines before the head",
        b"\r\n\nGET / HTTP/1.1\r\n\r\n",
        Some((0, 0)),
    ),
    ("a query", b"GET /a?b=c HTTP/1.1\r\n\r\n", Some((0, 0))),
    (
        "a method of its own",
        b"M-SEARCH * HTTP/1.1\r\n\r\n",
        Some((0, 0)),
    ),
    (
        "a target beyond ASCII",
        b"GET /\xc3\xa9 HTTP/1.1\r\n\r\n",
        Some((0, 0)),
    ),
    (
        "an empty value",
        b"GET / HTTP/1.1\r\nA:\r\n\r\n",
        Some((1, 0)),
    ),
    (
        "a value that is not UTF-8",
        b"GET / HTTP/1.1\r\nA: \xff\r\n\r\n",
        Some((1, 0)),
    ),
    (
        "a body",
        b"POST / HTTP/1.1\r\nContent-Length: 1\r\n\r\nx",
        Some((1, 1)),
    ),
    (
        "a body of no bytes",
        b"POST / HTTP/1.1\r\nContent-Length: 0\r\n\r\n",
        Some((1, 0)),
    ),
    (
        "the length in small letters",
        b"POST / HTTP/1.1\r\ncontent-length: 2\r\n\r\nxy",
        Some((1, 2)),
    ),
    (
        "blanks round the length",
        b"POST / HTTP/1.1\r\nContent-Length: \t 1 \t\r\n\r\nx",
        Some((1, 1)),
    ),
    (
        "zeros before the length",
        b"POST / HTTP/1.1\r\nContent-Length: 01\r\n\r\nx",
        Some((1, 1)),
    ),
    (
        "nineteen digits",
        b"POST / HTTP/1.1\r\nContent-Length: 0000000000000000001\r\n\r\nx",
        Some((1, 1)),
    ),
    ("nothing", b"", None),
    ("a method alone", b"GET", None),
    ("no end", b"GET / HTTP/1.1\r\nHost: a\r\n", None),
    ("no target", b"GET HTTP/1.1\r\n\r\n", None),
    ("another version", b"GET / HTTP/2.0\r\n\r\n", None),
    (
        "a target that is not UTF-8",
        b"GET /\xff HTTP/1.1\r\n\r\n",
        None,
    ),
    (
        "a blank after the name",
        b"GET / HTTP/1.1\r\nA : b\r\n\r\n",
        None,
    ),
    ("no colon", b"GET / HTTP/1.1\r\nA\r\n\r\n", None),
    (
        "a folded line",
        b"GET / HTTP/1.1\r\nA: b\r\n c\r\n\r\n",
        None,
    ),
    (
        "a byte 0 in a value",
        b"GET / HTTP/1.1\r\nA: \0\r\n\r\n",
        None,
    ),
    (
        "a byte after the head",
        b"GET /api/v1/scheduler/status HTTP/1.1\r\n\r\nx",
        None,
    ),
    (
        "a body one short",
        b"POST / HTTP/1.1\r\nContent-Length: 2\r\n\r\nx",
        None,
    ),
    (
        "a body one long",
        b"POST / HTTP/1.1\r\nContent-Length: 1\r\n\r\nxy",
        None,
    ),
    (
        "two lengths",
        b"POST / HTTP/1.1\r\nContent-Length: 1\r\ncontent-length: 1\r\n\r\nx",
        None,
    ),
    (
        "two lengths in one",
        b"POST / HTTP/1.1\r\nContent-Length: 1, 1\r\n\r\nx",
        None,
    ),
    (
        "an empty length",
        b"POST / HTTP/1.1\r\nContent-Length:\r\n\r\n",
        None,
    ),
    (
        "a plus",
        b"POST / HTTP/1.1\r\nContent-Length: +1\r\n\r\nx",
        None,
    ),
    (
        "hex",
        b"POST / HTTP/1.1\r\nContent-Length: 0x1\r\n\r\nx",
        None,
    ),
    (
        "twenty digits",
        b"POST / HTTP/1.1\r\nContent-Length: 00000000000000000001\r\n\r\nx",
        None,
    ),
    (
        "a length above the limit",
        b"POST / HTTP/1.1\r\nContent-Length: 1073741825\r\n\r\n",
        None,
    ),
    (
        "a length that is not UTF-8",
        b"POST / HTTP/1.1\r\nContent-Length: \xff\r\n\r\n",
        None,
    ),
    (
        "chunks",
        b"POST /api/v1/scheduler/alloc_job HTTP/1.1\r\nTransfer-Encoding: chunked\r\n\r\n1\r\nx\r\n0\r\n\r\n",
        None,
    ),
    (
        "another coding",
        b"POST / HTTP/1.1\r\ntransfer-encoding: identity\r\nContent-Length: 0\r\n\r\n",
        None,
    ),
    (
        "a coding that is not UTF-8",
        b"POST / HTTP/1.1\r\nTransfer-Encoding: \xff\r\n\r\n",
        None,
    ),
];

/// Whether the bytes are read as a request with so many fields and bytes of body, or refused.
fn is_read(alloc: Global, bytes: &[u8], want: Option<(usize, usize)>) -> bool {
    let read = read_head(alloc, bytes);
    match &read {
        Ok(request) => want == Some((request.headers.get().len(), request.body.get().len())),
        Err(HttpError::BadHead) => want.is_none(),
        Err(_) => false,
    }
}

#[test]
fn heads_are_read_by_their_rule(rt: HostRuntime) {
    for (name, bytes, want) in HEADS {
        assert!(&rt; is_read(rt.alloc(), bytes, *want), "{name}");
    }
}

/// Writes a head with so many fields, the last with a value of so many bytes.
fn write_head(head: &mut Vec<u8>, fields: usize, value: usize) -> Result<(), AllocError> {
    head.extend_from_slice(b"GET / HTTP/1.1\r\n")?;
    for _ in 1..fields {
        head.extend_from_slice(b"A: b\r\n")?;
    }
    head.extend_from_slice(b"A: ")?;
    for _ in 0..value {
        head.push(b'x')?;
    }
    head.extend_from_slice(b"\r\n\r\n")
}

/// The length of such a head, and whether it is read.
fn limit(rt: &impl Abort, alloc: Global, fields: usize, value: usize) -> (usize, bool) {
    let mut head = Vec::new(alloc);
    write_head(&mut head, fields, value).expect(rt, "memory");
    (head.len(), read_head(alloc, &head).is_ok())
}

/// The fields, the length of the last one's value, the length of the head, and whether it is read.
const LIMITS: &[(usize, usize, usize, bool)] = &[
    (100, 1, 618, true),
    (101, 1, 624, false),
    (1, 65513, 65536, true),
    (1, 65514, 65537, false),
];

#[test]
fn heads_have_limits(rt: HostRuntime) {
    for (fields, value, len, good) in LIMITS {
        let limit = limit(&rt, rt.alloc(), *fields, *value);
        assert!(&rt; limit == (*len, *good), "{fields} fields, {len} bytes");
    }
}
