//! The scheduler of the server, and the server's state.
ghost use Rattle.std.specs.Prelude.{OnOk};
ghost use Rattle.http_calls.specs.Urls.{IsHttp};

use crate::stopped::Stopped;
use build_server::state::ServerState;
use dist_types::dialer::MemDialer;
use dist_types::text::Bytes;
use folders::reliable_folder::ReliableFolder;
use std::alloc::Global;
use toolchain_cache::TcCache;
use url::Url;

/// How many bytes the cache of archives has room for.
const CACHE_BYTES: u64 = 1_000;

/// Where the scheduler stands.
const SCHEDULER: &str = "http://127.0.0.1:10600";

/// The reply to a report that is accepted.
const ACCEPTED: &[u8] = b"HTTP/1.1 200 OK\r\nContent-Length: 4\r\n\r\n\0\0\0\0";

/// Where the scheduler stands, as a URL.
pub fn scheduler_base(alloc: Global) -> Result<Url, Stopped> {
    match Url::parse(alloc, SCHEDULER) {
        Ok(base) => Ok(base),
        Err(_) => Err(Stopped),
    }
}

/// A base of scheme `http`, and no other.
pub fn tested(base: &Url) -> Result<(), Stopped>
    ensures http { OnOk result (IsHttp base.now) }
{
    if base.scheme() == "http" {
        Ok(())
    } else {
        Err(Stopped)
    }
}

/// A build server that holds nothing.
pub fn empty_server(alloc: Global) -> Result<ServerState<ReliableFolder>, Stopped> {
    match TcCache::new(alloc, ReliableFolder::new(alloc), "tc", CACHE_BYTES) {
        Ok(cache) => Ok(ServerState::new(alloc, cache)),
        Err(_) => Err(Stopped),
    }
}

/// A dialer whose first replies are so many reports that are accepted, and whose other calls fail.
pub fn accepting(alloc: Global, number: u64) -> Result<MemDialer, Stopped> {
    let mut replies = Vec::new(alloc);
    for _ in 0..number {
        replies.push(Bytes::from_slice(alloc, ACCEPTED)?)?;
    }
    Ok(MemDialer::new(alloc, replies, Vec::new(alloc)))
}
