//! The scheduler over loopback.
use crate::calls::STATUS;
use dist_config::config::{ClientAuth, SchedulerConfig, ServerAuth, ServerConfig};
use dist_config::serve::Serve;
use dist_http::real_serve::RealServe;
use dist_http::starts::Starts;
use dist_http::{StartFault, serve_scheduler};
use dist_types::addr::Addr;
use dist_types::dialer::Dialer;
use dist_types::fault::Failed;
use dist_types::results::SchedulerStatusResult;
use dist_types::rules::Rules;
use dist_types::tcp::TcpDialer;
use http_connections::asking::{LimitedNet, Limits};
use http_routes::call_reply::answer;
use rand_core::SeedableRng;
use rand_xoshiro::SplitMix64;
use std::alloc::Global;
use std::net::{Net, OpenListener, TcpListener, TcpStream};
use std::process::Abort;
use std::thread;
use std::time::{Clock, Duration};

/// How often a peer is asked before one gives up, ten milliseconds between.
const MAX_TRIES: u64 = 500;

/// A port that nobody listens at.
pub fn free_port<R: Abort + Net>(rt: &R) -> u16 {
    let listener = TcpListener::bind(rt, "127.0.0.1:0").expect(rt, "a port");
    listener.local_addr().expect(rt, "an address").port()
}

/// Asks until there is a reply.
fn ask<R: Clock, D: Dialer>(rt: &R, dialer: &mut D, port: u16, request: &[u8]) -> Option<Vec<u8>> {
    for _ in 0..MAX_TRIES {
        match dialer.ask("127.0.0.1", port, request) {
            Ok(reply) => return Some(reply),
            Err(_) => thread::sleep(rt, Duration::from_millis(10)),
        }
    }
    None
}

/// The reply to a request at this port, once there is one.
pub fn reply_to<R: Net + Clock>(
    rt: &R,
    alloc: Global,
    port: u16,
    request: &[u8],
) -> Option<Vec<u8>> {
    let mut dialer = TcpDialer::new(alloc, rt);
    ask(rt, &mut dialer, port, request)
}

/// The reply to a status request at this port, once there is one.
pub fn reply<R: Net + Clock>(rt: &R, alloc: Global, port: u16) -> Option<Vec<u8>> {
    reply_to(rt, alloc, port, STATUS)
}

/// The counts of servers, processors and jobs that a reply tells.
fn counts_in(alloc: Global, reply: &[u8]) -> Option<(u64, u64, u64)> {
    let counts: Result<Result<SchedulerStatusResult, _>, _> = answer(alloc, reply);
    match &counts {
        Ok(Ok(counts)) => Some((counts.num_servers, counts.num_cpus, counts.in_progress)),
        _ => None,
    }
}

/// Asks for the counts until there is a reply.
fn counts<R: Net + Clock>(rt: &R, alloc: Global, port: u16) -> Option<(u64, u64, u64)> {
    match reply(rt, alloc, port) {
        Some(reply) => counts_in(alloc, &reply),
        None => None,
    }
}

/// A scheduler at this port, which lets everybody in.
pub fn config(port: u16) -> SchedulerConfig {
    SchedulerConfig {
        public_addr: Addr::V4([127, 0, 0, 1], port),
        client_auth: ClientAuth::Insecure,
        server_auth: ServerAuth::Insecure,
        rules: Rules::One,
    }
}

/// Starts on one processor, whose listener ends after so many connections, and whose links fail where they
/// wait longer than so many milliseconds.
pub fn starts(limit: Option<u64>, timeout_ms: u64) -> Starts<SplitMix64> {
    Starts {
        random: SplitMix64::seed_from_u64(1),
        cpus: 1,
        limit,
        timeout_ms,
    }
}

/// A scheduler that ends after one connection answers a status request.
#[test]
fn one_status(rt: HostRuntime) {
    let alloc = rt.alloc();
    let port = free_port(&rt);
    let config = config(port);
    let scheduler = Box::new(alloc, move |config: &SchedulerConfig, start| {
        serve_scheduler(&rt, alloc, config, start)
    });
    let server = Box::new(alloc, |_config: &ServerConfig, _start| Err(StartFault));
    let (Ok(scheduler), Ok(server)) = (scheduler, server) else {
        panic!(&rt; "memory");
    };
    let mut serve = RealServe::with_starts(scheduler, server, starts(Some(1), 2_000));
    let (counts, served) = thread::join(
        &rt,
        || counts(&rt, alloc, port),
        || serve.scheduler(&config),
    );
    assert!(&rt; served == Ok(()));
    assert!(&rt; counts == Some((0, 0, 0)));
}

/// An address that is taken is a fault at once.
#[test]
fn taken_address(rt: HostRuntime) {
    let alloc = rt.alloc();
    let listener = TcpListener::bind(&rt, "127.0.0.1:0").expect(&rt, "a port");
    let config = config(listener.local_addr().expect(&rt, "an address").port());
    let scheduler = Box::new(alloc, move |config: &SchedulerConfig, start| {
        serve_scheduler(&rt, alloc, config, start)
    });
    let server = Box::new(alloc, |_config: &ServerConfig, _start| Err(StartFault));
    let (Ok(scheduler), Ok(server)) = (scheduler, server) else {
        panic!(&rt; "memory");
    };
    let mut serve = RealServe::new(scheduler, server, SplitMix64::seed_from_u64(1), 1);
    assert!(&rt; serve.scheduler(&config) == Err(Failed));
}

/// A peer that takes the connection and brings nothing is a fault, once the limit of the asking is over.
#[test]
fn silent_peer(rt: HostRuntime) {
    let listener = TcpListener::bind(&rt, "127.0.0.1:0").expect(&rt, "a port");
    let port = listener.local_addr().expect(&rt, "an address").port();
    let limits = Limits {
        connect_ms: 100,
        reply_ms: 100,
    };
    let mut dialer = TcpDialer::new(rt.alloc(), LimitedNet::new(rt, limits));
    assert!(&rt; dialer.ask("127.0.0.1", port, STATUS).is_err());
}

/// How many connections are held open that bring nothing.
const IDLE: u64 = 64;

/// How many statuses are asked beside them.
const ASKED: u64 = 200;

/// How many statuses are answered.
fn answered<R: Net + Clock>(rt: &R, alloc: Global, port: u16) -> Option<u64> {
    let mut answered = 0u64;
    for _ in 0..ASKED {
        counts(rt, alloc, port)?;
        answered = answered.saturating_add(1);
    }
    Some(answered)
}

/// How many statuses are answered while so many connections are open that bring nothing.
fn beside_idle<R: Abort + Net + Clock>(rt: &R, alloc: Global, port: u16) -> Option<u64> {
    counts(rt, alloc, port)?;
    let mut idle = Vec::new(alloc);
    for _ in 0..IDLE {
        let link = TcpStream::connect(rt, ("127.0.0.1", port)).expect(rt, "a connection");
        assert!(rt; idle.push(link).is_ok());
    }
    answered(rt, alloc, port)
}

/// Idle connections stop nobody: each fails after its limit.
#[test]
fn idle_connections(rt: HostRuntime) {
    let alloc = rt.alloc();
    let port = free_port(&rt);
    let config = config(port);
    let scheduler = Box::new(alloc, move |config: &SchedulerConfig, start| {
        serve_scheduler(&rt, alloc, config, start)
    });
    let server = Box::new(alloc, |_config: &ServerConfig, _start| Err(StartFault));
    let (Ok(scheduler), Ok(server)) = (scheduler, server) else {
        panic!(&rt; "memory");
    };
    let limit = Some(1 + IDLE + ASKED);
    let mut serve = RealServe::with_starts(scheduler, server, starts(limit, 1_000));
    let (answered, served) = thread::join(
        &rt,
        || beside_idle(&rt, alloc, port),
        || serve.scheduler(&config),
    );
    assert!(&rt; served == Ok(()));
    assert!(&rt; answered == Some(ASKED));
}
