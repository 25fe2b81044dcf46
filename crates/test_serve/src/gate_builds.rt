//! A build server's connections are served at once, and not one after another.
ghost use Rattle.http_calls.specs.Urls.{IsHttp};

use crate::calls::dialer;
use crate::gate::{Gate, OneLink};
use build_server::echo::EchoBuilder;
use build_server::server::Server;
use build_server::state::ServerState;
use dist_http::{BuildKit, serve_server_workers};
use dist_token::job_token::JWTJobAuthorizer;
use dist_types::dialer::MemDialer;
use folders::reliable_folder::ReliableFolder;
use std::alloc::Global;
use std::process::Abort;
use std::sync::Wait;
use std::thread::Threads;
use toolchain_cache::TcCache;
use url::Url;

/// Where the scheduler stands.
pub const SCHEDULER: &str = "http://127.0.0.1:10600";

/// How many bytes the cache of archives has room for.
const CACHE_BYTES: u64 = 1_000;

/// One link to serve, and what it is served with.
type OneKit<'a> = BuildKit<OneLink<'a>, MemDialer, EchoBuilder>;

/// A kit with one link.
fn kit<'a>(rt: &impl Abort, alloc: Global, gate: &'a Gate) -> OneKit<'a> {
    BuildKit {
        tasks: OneLink::new(gate),
        dialer: dialer(rt, alloc, b""),
        builder: EchoBuilder::new(alloc),
    }
}

/// A server that holds nothing.
pub fn empty_server(rt: &impl Abort, alloc: Global) -> Server<ReliableFolder> {
    match TcCache::new(alloc, ReliableFolder::new(alloc), "tc", CACHE_BYTES) {
        Ok(cache) => Server::new(alloc, ServerState::new(alloc, cache)),
        Err(_) => panic!(rt; "memory"),
    }
}

/// Whether all links were answered.
fn are_answered(kits: &[OneKit<'_>]) -> bool {
    let mut answered = true;
    for kit in kits {
        answered = answered && kit.tasks.is_answered();
    }
    answered
}

/// Whether both links were answered.
fn both<R: Abort + Threads + Wait + Sync>(rt: &R, alloc: Global, gate: &Gate, base: &Url) -> bool
    requires http { IsHttp base.now }
{
    let server = empty_server(rt, alloc);
    let key = JWTJobAuthorizer::new(Vec::from_slice(alloc, &[1]).expect(rt, "memory"));
    let kits = vec![in alloc; kit(rt, alloc, gate), kit(rt, alloc, gate)].expect(rt, "memory");
    let back = serve_server_workers(rt, alloc, &server, &key, kits, base, "s1");
    are_answered(&back.expect(rt, "memory"))
}

/// The first of two links is held until the second was answered.
#[test]
fn gate_build_workers(rt: HostRuntime) {
    let alloc = rt.alloc();
    let base = Url::parse(alloc, SCHEDULER).expect(&rt, "a URL");
    if base.scheme() == "http" {
        assert!(&rt; both(&rt, alloc, &Gate::new(), &base));
    } else {
        panic!(&rt; "another scheme");
    }
}
