//! Cut and lying links: what is replied, and exactly how many bytes are taken.
use crate::calls::{Desk, STATUS, link, serve};
use crate::slow::SlowLink;
use dist_http::Served;
use dist_types::source::read_up_to;
use std::alloc::{AllocError, Global};
use std::process::Abort;
use std::sync::Wait;

/// The status line of a bad head.
const BAD_HEAD: &[u8] = b"HTTP/1.1 400 Bad Request\r\n";

/// The status line of an answer.
const OK: &[u8] = b"HTTP/1.1 200 OK\r\n";

/// What serving bytes in memory came to: whether it was answered so, and how many bytes were left.
fn left<R: Abort + Wait>(rt: &R, alloc: Global, bytes: &[u8], line: &[u8]) -> (bool, usize) {
    let mut desk = Desk::new(rt, alloc, 1, b"");
    let mut link = link(rt, alloc, bytes, &[], &[]);
    let served = serve(rt, alloc, &mut desk, &mut link);
    let answered = served == Served::Answered && link.sink().bytes().starts_with(line);
    let rest = read_up_to(alloc, &mut link, bytes.len()).expect(rt, "a read");
    (answered, rest.len())
}

/// The same one byte a call.
fn left_slowly<R: Abort + Wait>(rt: &R, alloc: Global, bytes: &[u8], line: &[u8]) -> (bool, usize) {
    let mut desk = Desk::new(rt, alloc, 1, b"");
    let mut link = SlowLink::new(alloc, Vec::from_slice(alloc, bytes).expect(rt, "memory"));
    let served = serve(rt, alloc, &mut desk, &mut link);
    let answered = served == Served::Answered && link.out.starts_with(line);
    (answered, bytes.len().saturating_sub(link.taken()))
}

/// Bytes, the status line of their reply, and how many of them are left.
const CASES: &[(&[u8], &[u8], usize)] = &[
    (STATUS, OK, 0),
    (b"GET /api/v1/scheduler/status HTTP/1.1\n\n", OK, 0),
    (b"GET /api/v1/scheduler/status HTTP/1.1\r\n\r\nmore", OK, 4),
    (b"x\n\nGET", BAD_HEAD, 3),
    (b"GET / HTTP/1.1\r\n\r\n", b"HTTP/1.1 404 Not Found\r\n", 0),
    (
        b"POST /x HTTP/1.1\r\nContent-Length: 5\r\n\r\nabc",
        BAD_HEAD,
        0,
    ),
    (
        b"POST /x HTTP/1.1\r\nContent-Length: 2\r\n\r\nabc",
        b"HTTP/1.1 404 Not Found\r\n",
        1,
    ),
    (
        b"POST /x HTTP/1.1\r\nContent-Length: 9x\r\n\r\nabc",
        BAD_HEAD,
        3,
    ),
    (b"", BAD_HEAD, 0),
];

#[test]
fn exactly_the_cut(rt: HostRuntime) {
    let alloc = rt.alloc();
    for (bytes, line, rest) in CASES {
        assert!(&rt; left(&rt, alloc, bytes, line) == (true, *rest));
        assert!(&rt; left_slowly(&rt, alloc, bytes, line) == (true, *rest));
    }
}

/// A request that is cut at any byte is a bad head, and all of it is taken.
#[test]
fn cut_at_every_byte(rt: HostRuntime) {
    let alloc = rt.alloc();
    for n in 0..STATUS.len() {
        assert!(&rt; left(&rt, alloc, &STATUS[..n], BAD_HEAD) == (true, 0));
    }
}

/// What stands before the field's value in a long head.
const FRONT: &[u8] = b"GET /api/v1/scheduler/status HTTP/1.1\r\nX: ";

/// Writes a status request with so many bytes in its head, and three behind it.
fn write_long(bytes: &mut Vec<u8>, len: usize) -> Result<(), AllocError> {
    bytes.extend_from_slice(FRONT)?;
    for _ in FRONT.len() + 4..len {
        bytes.push(b'a')?;
    }
    bytes.extend_from_slice(b"\r\n\r\nGET")
}

/// What serving a head of so many bytes came to, and how many bytes were left.
fn left_of_head<R: Abort + Wait>(rt: &R, alloc: Global, len: usize, line: &[u8]) -> (bool, usize) {
    let mut bytes = Vec::new(alloc);
    write_long(&mut bytes, len).expect(rt, "memory");
    left(rt, alloc, &bytes, line)
}

/// A head of 65,536 bytes is read; of one that is longer, 65,537 bytes are taken.
#[test]
fn longest_head(rt: HostRuntime) {
    let alloc = rt.alloc();
    assert!(&rt; left_of_head(&rt, alloc, 65_536, OK) == (true, 3));
    assert!(&rt; left_of_head(&rt, alloc, 65_537, BAD_HEAD) == (true, 3));
    assert!(&rt; left_of_head(&rt, alloc, 65_540, BAD_HEAD) == (true, 6));
}

/// What serving a link came to whose reads and writes of these numbers fail, and how much was written.
fn failing<R: Abort + Wait>(
    rt: &R,
    alloc: Global,
    reads: &[u64],
    writes: &[u64],
) -> (Served, usize) {
    let mut desk = Desk::new(rt, alloc, 1, b"");
    let mut link = link(rt, alloc, STATUS, reads, writes);
    let served = serve(rt, alloc, &mut desk, &mut link);
    (served, link.sink().bytes().len())
}

/// A failing read writes nothing, and a peer that never reads is a write fault.
#[test]
fn faults(rt: HostRuntime) {
    let alloc = rt.alloc();
    assert!(&rt; failing(&rt, alloc, &[7], &[]) == (Served::ReadFault, 0));
    assert!(&rt; failing(&rt, alloc, &[], &[0]) == (Served::WriteFault, 0));
}
