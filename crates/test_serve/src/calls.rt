//! Connections in memory, and what the scheduler answers over them.
ghost use Rattle.sched.specs.Pass.{IsPassOf};

use dist_http::{Served, serve_scheduler_connection};
use dist_token::checks::{EqCheck, PlainServerCheck};
use dist_token::job_token::JWTJobAuthorizer;
use dist_types::addr::Addr;
use dist_types::clock::MemClock;
use dist_types::dialer::MemDialer;
use dist_types::link::{Link, MemLink};
use dist_types::sink::MemSink;
use dist_types::source::{MemSource, read_up_to};
use dist_types::text::Bytes;
use sched::pass::Pass;
use sched::scheduler::Scheduler;
use std::alloc::Global;
use std::process::Abort;
use std::sync::Wait;

/// The scheduler of the tests.
pub type TestScheduler = Scheduler<JWTJobAuthorizer>;

/// A status request.
pub const STATUS: &[u8] = b"GET /api/v1/scheduler/status HTTP/1.1\r\n\r\n";

/// A scheduler with its first pass, and what it asks build servers through.
#[derive(Drop)]
pub struct Desk {
    scheduler: TestScheduler,
    pass: Pass,
    dialer: MemDialer,
    ghost pass_of: { IsPassOf scheduler pass },
}

impl Desk {
    /// A scheduler whose first job has the id `base`, over a dialer with this reply.
    pub fn new(rt: &impl Abort, alloc: Global, base: u64, reply: &[u8]) -> Self {
        let dialer = dialer(rt, alloc, reply);
        let (scheduler, pass) = TestScheduler::new(alloc, base).expect(rt, "memory");
        Desk {
            scheduler,
            pass,
            dialer,
        }
    }
}

/// The check of the clients' token.
pub fn client(rt: &impl Abort, alloc: Global) -> EqCheck {
    EqCheck::new(String::from_str(alloc, "c1").expect(rt, "memory"))
}

/// The check of the servers' token.
pub fn server(rt: &impl Abort, alloc: Global) -> PlainServerCheck {
    PlainServerCheck::new(String::from_str(alloc, "s1").expect(rt, "memory"))
}

/// Serves one connection from port 40000, of a scheduler whose clients show `c1` and whose servers `s1`.
pub fn serve<R: Abort + Wait, L: Link>(
    rt: &R,
    alloc: Global,
    desk: &mut Desk,
    link: &mut L,
) -> Served {
    let peer = Addr::V4([127, 0, 0, 1], 40000);
    let mut clock = MemClock::new(Vec::new(alloc));
    let mut client = client(rt, alloc);
    let server = server(rt, alloc);
    serve_scheduler_connection(
        rt,
        alloc,
        &desk.scheduler,
        &mut desk.pass,
        link,
        peer,
        &mut desk.dialer,
        &mut clock,
        &mut client,
        &server,
    )
}

/// A connection with these bytes to read, whose reads and writes of the given numbers fail.
pub fn link(
    rt: &impl Abort,
    alloc: Global,
    bytes: &[u8],
    reads: &[u64],
    writes: &[u64],
) -> MemLink {
    let bytes = Vec::from_slice(alloc, bytes).expect(rt, "memory");
    let reads = Vec::from_slice(alloc, reads).expect(rt, "memory");
    let writes = Vec::from_slice(alloc, writes).expect(rt, "memory");
    MemLink::new(MemSource::new(bytes, reads), MemSink::new(alloc, writes))
}

/// A dialer with this reply.
pub fn dialer(rt: &impl Abort, alloc: Global, reply: &[u8]) -> MemDialer {
    let reply = Bytes::from_slice(alloc, reply).expect(rt, "memory");
    let replies = vec![in alloc; reply].expect(rt, "memory");
    MemDialer::new(alloc, replies, Vec::new(alloc))
}

/// A heartbeat of 127.0.0.1:10501 with one processor, the key 1, 2, 2 and the nonce 7.
const BEAT: &[u8] =
    b"POST /api/v1/scheduler/heartbeat_server HTTP/1.1\r\nAuthorization: Bearer 127.0.0.1:10501 s1\r\nContent-Type: application/octet-stream\r\nContent-Length: 27\r\n\r\n\x03\0\0\0\0\0\0\0\x01\x02\x02\x01\0\0\0\0\0\0\0\x07\0\0\0\0\0\0\0";

/// An allocation of `abc` under the clients' token.
pub const ALLOC: &[u8] =
    b"POST /api/v1/scheduler/alloc_job HTTP/1.1\r\nAuthorization: Bearer c1\r\nContent-Type: application/octet-stream\r\nContent-Length: 72\r\n\r\n\x40\0\0\0\0\0\0\0ba7816bf8f01cfea414140de5dae2223b00361a396177a9cb410ff61f20015ad";

/// Whether the text stands somewhere in the bytes.
fn holds(bytes: &[u8], text: &[u8]) -> bool {
    for i in 0..bytes.len() {
        if bytes[i..].starts_with(text) {
            return true;
        }
    }
    false
}

/// The connection of a request that was answered.
pub fn reply<R: Abort + Wait>(rt: &R, alloc: Global, desk: &mut Desk, request: &[u8]) -> MemLink {
    let mut link = link(rt, alloc, request, &[], &[]);
    assert!(rt; serve(rt, alloc, desk, &mut link) == Served::Answered);
    link
}

/// A heartbeat is answered.
pub fn beat<R: Abort + Wait>(rt: &R, alloc: Global, desk: &mut Desk) {
    let beat = reply(rt, alloc, desk, BEAT);
    assert!(rt; beat.sink().bytes().starts_with(b"HTTP/1.1 200 OK\r\n"));
}

/// Whether the bytes are the reply that tells the fault of a server.
fn is_refused(bytes: &[u8]) -> bool {
    bytes.starts_with(b"HTTP/1.1 500 Internal Server Error\r\n")
        && holds(bytes, b"\"description\":\"Error 503\"")
        && holds(bytes, b"job un-assigned from the server")
}

/// An allocation is answered with the fault of its server.
fn refuse<R: Abort + Wait>(rt: &R, alloc: Global, desk: &mut Desk) {
    let refused = reply(rt, alloc, desk, ALLOC);
    assert!(rt; is_refused(refused.sink().bytes()));
}

/// A server that answers 503 to an assignment: its job is un-assigned, and the reply tells both.
#[test]
fn refused_assignment(rt: HostRuntime) {
    let alloc = rt.alloc();
    let reply = b"HTTP/1.1 503 Service Unavailable\r\n\r\n";
    let mut desk = Desk::new(&rt, alloc, 4096, reply);
    beat(&rt, alloc, &mut desk);
    refuse(&rt, alloc, &mut desk);
    assert!(&rt; desk.pass.count() == 3);
    assert!(&rt; desk.dialer.asked().len() == 1);
}

/// The end of the reply to an allocation: the job's number, no toolchain is needed, and the server.
const PLACE: &[u8] = &[0, 16, 0, 0, 0, 0, 0, 0, 0, 0, 0, 0, 127, 0, 0, 1, 5, 41, 0];

/// An allocation is answered with the job's place.
fn allocate<R: Abort + Wait>(rt: &R, alloc: Global, desk: &mut Desk) {
    let given = reply(rt, alloc, desk, ALLOC);
    let bytes = given.sink().bytes();
    assert!(rt; bytes.starts_with(b"HTTP/1.1 200 OK\r\n"));
    assert!(rt; bytes.ends_with(PLACE));
}

/// The server of the heartbeat was asked to take the job, and nobody else.
fn asked_once(rt: &impl Abort, desk: &Desk) {
    let asked = desk.dialer.asked();
    assert!(rt; asked.len() == 1);
    assert!(rt; asked[0].host.get() == "127.0.0.1" && asked[0].port == 10501);
    let target = b"POST /api/v1/distserver/assign_job/4096 HTTP/1.1\r\nHost: 127.0.0.1:10501\r\n";
    assert!(rt; asked[0].request.get().starts_with(target));
}

/// The end of the reply to a status: one server, one processor and one job.
pub const COUNTS: &[u8] = &[
    1, 0, 0, 0, 0, 0, 0, 0, 1, 0, 0, 0, 0, 0, 0, 0, 1, 0, 0, 0, 0, 0, 0, 0,
];

/// A status counts one server, one processor and one job, and its request is taken whole.
fn count<R: Abort + Wait>(rt: &R, alloc: Global, desk: &mut Desk) {
    let mut counted = reply(rt, alloc, desk, STATUS);
    assert!(rt; counted.sink().bytes().ends_with(COUNTS));
    let rest = read_up_to(alloc, &mut counted, 1).expect(rt, "a read");
    assert!(rt; rest.is_empty());
}

/// A server that is ready: the job is allocated, and counted by the next status.
#[test]
fn assigned(rt: HostRuntime) {
    let alloc = rt.alloc();
    let ready = b"HTTP/1.1 200 OK\r\nContent-Length: 5\r\n\r\n\x01\0\0\0\0";
    let mut desk = Desk::new(&rt, alloc, 4096, ready);
    beat(&rt, alloc, &mut desk);
    allocate(&rt, alloc, &mut desk);
    asked_once(&rt, &desk);
    count(&rt, alloc, &mut desk);
}
