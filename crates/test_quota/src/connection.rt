//! Served connections of a scheduler with quotas: what a client is answered, and whom its allocation asks.
use dist_token::checks::PlainServerCheck;
use dist_token::job_token::JWTJobAuthorizer;
use dist_types::addr::Addr;
use dist_types::clock::MemClock;
use dist_types::dialer::MemDialer;
use dist_types::link::MemLink;
use dist_types::sink::MemSink;
use dist_types::source::MemSource;
use dist_types::text::Bytes;
use http_connections::served::Served;
use quota::state::QuotaState;
use quota_service::connection::serve_quota_connection;
use std::alloc::Global;
use std::process::Abort;

/// A heartbeat of 127.0.0.1:10501 with one processor, the key 1, 2, 2 and the nonce 7.
const BEAT: &[u8] =
    b"POST /api/v1/scheduler/heartbeat_server HTTP/1.1\r\nAuthorization: Bearer 127.0.0.1:10501 s1\r\nContent-Type: application/octet-stream\r\nContent-Length: 27\r\n\r\n\x03\0\0\0\0\0\0\0\x01\x02\x02\x01\0\0\0\0\0\0\0\x07\0\0\0\0\0\0\0";

/// An allocation of `abc` under the token of the one listed client.
const ALLOC: &[u8] =
    b"POST /api/v1/scheduler/alloc_job HTTP/1.1\r\nAuthorization: Bearer c1\r\nContent-Type: application/octet-stream\r\nContent-Length: 72\r\n\r\n\x40\0\0\0\0\0\0\0ba7816bf8f01cfea414140de5dae2223b00361a396177a9cb410ff61f20015ad";

/// The same under a token that is no listed client's.
const OTHER: &[u8] =
    b"POST /api/v1/scheduler/alloc_job HTTP/1.1\r\nAuthorization: Bearer c2\r\nContent-Type: application/octet-stream\r\nContent-Length: 72\r\n\r\n\x40\0\0\0\0\0\0\0ba7816bf8f01cfea414140de5dae2223b00361a396177a9cb410ff61f20015ad";

/// The build server takes the job, which is ready there.
const READY: &[u8] = b"HTTP/1.1 200 OK\r\nContent-Length: 5\r\n\r\n\x01\0\0\0\0";

/// The end of the reply to an allocation: the job's number, no toolchain is needed, and the server.
const PLACE: &[u8] = &[0, 16, 0, 0, 0, 0, 0, 0, 0, 0, 0, 0, 127, 0, 0, 1, 5, 41, 0];

/// The reply to a client that holds one reservation and may hold one.
const FULL: &[u8] =
    b"HTTP/1.1 200 OK\r\nContent-Type: application/octet-stream\r\nContent-Length: 58\r\nConnection: close\r\n\r\n\x01\0\0\0\x2e\0\0\0\0\0\0\0Client quota reached: 1 of 1 reservations held";

/// A scheduler with one listed client, and what it asks build servers through.
#[derive(Drop)]
struct Desk {
    quota: QuotaState<JWTJobAuthorizer>,
    dialer: MemDialer,
}

impl Desk {
    /// A scheduler whose first job has the id 4096 and whose client `c1` may hold one reservation.
    fn new(rt: &impl Abort, alloc: Global) -> Self {
        let name = String::from_str(alloc, "c1").expect(rt, "memory");
        let clients = vec![in alloc; (name, 1_u64)].expect(rt, "memory");
        let reply = Bytes::from_slice(alloc, READY).expect(rt, "memory");
        let replies = vec![in alloc; reply].expect(rt, "memory");
        Desk {
            quota: QuotaState::new(alloc, 4096, clients).expect(rt, "no clients"),
            dialer: MemDialer::new(alloc, replies, Vec::new(alloc)),
        }
    }

    /// The connection of a request from port 40000 that is answered; servers show `s1`.
    fn reply(&mut self, rt: &impl Abort, alloc: Global, request: &[u8]) -> MemLink {
        let bytes = Vec::from_slice(alloc, request).expect(rt, "memory");
        let source = MemSource::new(bytes, Vec::new(alloc));
        let mut link = MemLink::new(source, MemSink::new(alloc, Vec::new(alloc)));
        let server = PlainServerCheck::new(String::from_str(alloc, "s1").expect(rt, "memory"));
        let mut clock = MemClock::new(Vec::new(alloc));
        let peer = Addr::V4([127, 0, 0, 1], 40000);
        let served = serve_quota_connection(
            alloc,
            &mut self.quota,
            &mut link,
            peer,
            &mut self.dialer,
            &mut clock,
            &server,
        );
        assert!(rt; served == Served::Answered);
        link
    }
}

/// How many calls were made of the dialer, entries of the log there are, and reservations of the client.
fn counts(desk: &Desk) -> (usize, usize, Option<u64>) {
    let asked = desk.dialer.asked().len();
    (asked, desk.quota.history().len(), desk.quota.held("c1"))
}

/// A heartbeat is answered, and asks nobody.
fn beat(rt: &impl Abort, alloc: Global, desk: &mut Desk) {
    let heard = desk.reply(rt, alloc, BEAT);
    assert!(rt; heard.sink().bytes().starts_with(b"HTTP/1.1 200 OK\r\n"));
    assert!(rt; counts(desk) == (0, 1, Some(0)));
}

/// An allocation is answered with the job's place, and has its row at the dialer.
fn allocate(rt: &impl Abort, alloc: Global, desk: &mut Desk) {
    let given = desk.reply(rt, alloc, ALLOC);
    assert!(rt; given.sink().bytes().starts_with(b"HTTP/1.1 200 OK\r\n"));
    assert!(rt; given.sink().bytes().ends_with(PLACE));
    assert!(rt; counts(desk) == (1, 3, Some(1)));
    let asked = desk.dialer.asked();
    assert!(rt; asked.len() == 1);
    assert!(rt; asked[0].host.get() == "127.0.0.1" && asked[0].port == 10501);
    let target = b"POST /api/v1/distserver/assign_job/4096 HTTP/1.1\r\nHost: 127.0.0.1:10501\r\n";
    assert!(rt; asked[0].request.get().starts_with(target));
}

/// The server of a reservation is asked; a client that is full is told so and nobody is asked; a token that is no
/// listed client's is refused.
#[test]
fn answers_clients_by_their_limits(rt: HostRuntime) {
    let alloc = rt.alloc();
    let mut desk = Desk::new(&rt, alloc);
    beat(&rt, alloc, &mut desk);
    allocate(&rt, alloc, &mut desk);
    let full = desk.reply(&rt, alloc, ALLOC);
    assert!(&rt; full.sink().bytes() == FULL);
    assert!(&rt; counts(&desk) == (1, 3, Some(1)));
    let other = desk.reply(&rt, alloc, OTHER);
    assert!(&rt; other.sink().bytes().starts_with(b"HTTP/1.1 401 "));
    assert!(&rt; counts(&desk) == (1, 3, Some(1)));
}
