//! The build server over loopback.
use crate::loopback::{free_port, reply, starts};
use dist_config::config::{SchedulerConfig, ServerConfig};
use dist_config::serve::Serve;
use dist_http::real_serve::RealServe;
use dist_http::{StartFault, serve_server};
use dist_types::addr::Addr;
use dist_types::fault::Failed;
use dist_types::text::Text;
use rand_core::SeedableRng;
use rand_xoshiro::SplitMix64;
use std::alloc::Global;
use std::net::{OpenListener, TcpListener};
use std::process::Abort;
use std::thread;
use url::Url;

/// A server at this port, whose scheduler nobody is.
pub fn config(rt: &impl Abort, alloc: Global, port: u16) -> ServerConfig {
    ServerConfig {
        cache_dir: Text::of(alloc, "/tmp/sccache-dist-test").expect(rt, "memory"),
        public_addr: Addr::V4([127, 0, 0, 1], port),
        bind_address: Addr::V4([127, 0, 0, 1], port),
        scheduler_url: Url::parse(alloc, "http://127.0.0.1:1").expect(rt, "a URL"),
        scheduler_auth: Text::of(alloc, "127.0.0.1:10501 s1").expect(rt, "memory"),
        toolchain_cache_size: 1_000,
    }
}

/// Whether the reply is that there is no such route.
fn is_not_found(reply: Option<Vec<u8>>) -> bool {
    match reply {
        Some(reply) => reply.starts_with(b"HTTP/1.1 404 Not Found\r\n"),
        None => false,
    }
}

/// A server that ends after one connection has no status.
#[test]
fn one_not_found(rt: HostRuntime) {
    let alloc = rt.alloc();
    let port = free_port(&rt);
    let config = config(&rt, alloc, port);
    let scheduler = Box::new(alloc, |_config: &SchedulerConfig, _start| Err(StartFault));
    let server = Box::new(alloc, move |config: &ServerConfig, start| {
        serve_server(&rt, alloc, config, start)
    });
    let (Ok(scheduler), Ok(server)) = (scheduler, server) else {
        panic!(&rt; "memory");
    };
    let mut serve = RealServe::with_starts(scheduler, server, starts(Some(1), 2_000));
    let (found, served) = thread::join(
        &rt,
        || is_not_found(reply(&rt, alloc, port)),
        || serve.server(&config),
    );
    assert!(&rt; served == Ok(()));
    assert!(&rt; found);
}

/// An address that is taken is a fault at once.
#[test]
fn taken_address(rt: HostRuntime) {
    let alloc = rt.alloc();
    let listener = TcpListener::bind(&rt, "127.0.0.1:0").expect(&rt, "a port");
    let port = listener.local_addr().expect(&rt, "an address").port();
    let config = config(&rt, alloc, port);
    let scheduler = Box::new(alloc, |_config: &SchedulerConfig, _start| Err(StartFault));
    let server = Box::new(alloc, move |config: &ServerConfig, start| {
        serve_server(&rt, alloc, config, start)
    });
    let (Ok(scheduler), Ok(server)) = (scheduler, server) else {
        panic!(&rt; "memory");
    };
    let mut serve = RealServe::new(scheduler, server, SplitMix64::seed_from_u64(1), 1);
    assert!(&rt; serve.server(&config) == Err(Failed));
}
