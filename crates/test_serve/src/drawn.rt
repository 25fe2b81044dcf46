//! What a served call is given: the start that was drawn for it.
use crate::loopback::{config, starts};
use crate::server_loopback::config as server_config;
use dist_config::config::{SchedulerConfig, ServerConfig};
use dist_config::serve::Serve;
use dist_http::StartFault;
use dist_http::real_serve::RealServe;
use dist_types::fault::Failed;
use http_connections::start::Start;
use rand_xoshiro::SplitMix64;
use std::process::Abort;

/// The first start of `starts`: its word and its key are the first five words of SplitMix64 from the state 1,
/// as a Python program computes them.
const FIRST: Start = Start {
    word: 0x910a2dec89025cc1,
    key: [
        0x67, 0xec, 0x8e, 0x65, 0xa1, 0x8d, 0xeb, 0xbe, 0x5e, 0x55, 0x32, 0xfb, 0xee, 0xa2, 0x93,
        0xf8, 0x0b, 0xc9, 0x42, 0xee, 0x90, 0x86, 0xc1, 0x71, 0xb9, 0xb5, 0x01, 0xd1, 0xd8, 0x54,
        0xbb, 0x71,
    ],
    cpus: 1,
    limit: Some(3),
    timeout_ms: 100,
};

/// The second: the next five words.
const SECOND: Start = Start {
    word: 0xc34d0bff90150280,
    key: [
        0xa5, 0x3c, 0x36, 0xd7, 0x6c, 0xec, 0x99, 0xe0, 0x75, 0x85, 0x27, 0x12, 0x0f, 0xbb, 0xe7,
        0x85, 0xa8, 0x3d, 0x7e, 0x35, 0xde, 0x18, 0x17, 0x49, 0x96, 0x67, 0x61, 0x74, 0x8e, 0x5c,
        0x43, 0xcb,
    ],
    cpus: 1,
    limit: Some(3),
    timeout_ms: 100,
};

/// Serves where that start is wanted.
fn serve_at(start: Start, wanted: Start) -> Result<(), StartFault> {
    if start == wanted {
        Ok(())
    } else {
        Err(StartFault)
    }
}

/// The scheduler's call wants the first start, and the build server's the second.
fn serve_thrice(
    rt: &impl Abort,
    serve: &mut RealServe<SplitMix64>,
    scheduler: &SchedulerConfig,
    server: &ServerConfig,
) {
    assert!(rt; serve.scheduler(scheduler) == Ok(()));
    assert!(rt; serve.server(server) == Ok(()));
    assert!(rt; serve.scheduler(scheduler) == Err(Failed));
}

#[test]
fn each_call_gets_the_start_that_was_drawn(rt: HostRuntime) {
    let alloc = rt.alloc();
    let at_scheduler = config(1);
    let at_server = server_config(&rt, alloc, 1);
    let scheduler = Box::new(alloc, |_config: &SchedulerConfig, start| {
        serve_at(start, FIRST)
    });
    let server = Box::new(alloc, |_config: &ServerConfig, start| {
        serve_at(start, SECOND)
    });
    let (Ok(scheduler), Ok(server)) = (scheduler, server) else {
        panic!(&rt; "memory");
    };
    let mut serve = RealServe::with_starts(scheduler, server, starts(Some(3), 100));
    serve_thrice(&rt, &mut serve, &at_scheduler, &at_server);
}
