//! A far side in memory: a far cache that answers by the route of a mirror.
ghost use Rattle.std.specs.Prelude.{◌≡◌, ◌≢◌, ◌≤◌, ◌++◌, ◌∷◌, [], None, IfOk, OnOk, OnErr, Ok, Err};
ghost use Rattle.dist_types.specs.Cause.{Rose};
ghost use Rattle.http_routes.specs.Reply.{reply_text};
ghost use Rattle.toolchain_cache.specs.Archives.{id_of};
ghost use Rattle.mirror.specs.Caches.{told_of, Stores};
ghost use Rattle.mirror.specs.Far.{far_of, Sends, SendsAnswer, ServesOrNot, Strikes, AsksFar};
ghost use Rattle.mirror.specs.Routing.{Routes};

use crate::far_side::FarSide;
use crate::mirror::Mirror;
use crate::route::mirror_route;
use dist_types::dialer::AskFault;
use dist_types::fault::{Memory, raise};
use dist_types::text::Bytes;
use dist_types::toolchain::Toolchain;
use folders::folder::Folder;
use http_head::error::HttpError;
use http_head::head::read_head;
use http_head::request::Request;
use http_routes::reply::Response;
use lru_disk_cache::Error;
use std::alloc::Global;
use std::collections::VecDeque;
use std::marker::Model;
use toolchain_cache::TcCache;

/// What waits for an ask of the far side.
#[derive(Debug, Drop)]
pub enum Wait {
    /// The ask fails.
    Lose,
    /// It is answered 200 with these bytes, and not by the far cache.
    Lie(Bytes),
}

/// A dialer in memory. A far cache answers its asks by `mirror_route`; what waits comes first, each for one
/// ask. It tells no record. Contracts see the far cache, what waits, and how often asks failed.
#[derive(Drop)]
pub struct FarDialer<G: Folder> {
    alloc: Global,
    cache: TcCache<G>,
    waiting: VecDeque<Wait>,
    faults: u64,
}

impl<G: Folder> Model for FarDialer<G> {
    ghost use Rattle.toolchain_cache.specs.Archives.{ArchiveStore};
    ghost use Rattle.mirror.specs.Far.{FarParts};

    ghost Value = { FarParts (ArchiveStore G) };

    ghost view = { λ d. record { cache = d.cache; waiting = d.waiting.items; faults = d.faults } };
}

/// The bytes of a reply.
fn sent(alloc: Global, response: &Response) -> Result<Bytes, AskFault>
    ensures sends { Sends (reply_text response.now) result }
    ensures unfailed { result ≢ Err AskFault.Failed }
{
    match response.bytes(alloc) {
        Ok(bytes) => Ok(Bytes::new(bytes)),
        Err(_) => Err(AskFault::Memory),
    }
}

/// The reply of the far cache to a request.
fn answer<G: Folder>(
    alloc: Global,
    cache: &mut TcCache<G>,
    request: &Request,
) -> Result<Bytes, AskFault>
    ensures answers { (answer : _) × Routes request.now answer (told_of G.held cache.old)
        (told_of G.held cache.new) × SendsAnswer answer result }
    ensures unfailed { result ≢ Err AskFault.Failed }
{
    match mirror_route(request, cache) {
        Ok(response) => sent(alloc, &response),
        Err(_) => Err(AskFault::Memory),
    }
}

/// The reply of the far cache to the bytes of a request.
fn serve<G: Folder>(
    alloc: Global,
    cache: &mut TcCache<G>,
    request: &[u8],
) -> Result<Bytes, AskFault>
    ensures serves { ServesOrNot request.now (told_of G.held cache.old) (told_of G.held cache.new) result }
    ensures unfailed { result ≢ Err AskFault.Failed }
{
    match read_head(alloc, request) {
        Ok(request) => answer(alloc, cache, &request),
        Err(HttpError::BadHead) => sent(alloc, &Response::NotFound),
        Err(_) => Err(AskFault::Memory),
    }
}

/// What comes of what waited: the ask fails and is counted, or those bytes come.
fn strike(alloc: Global, wait: Wait, faults: &mut u64) -> Result<Bytes, AskFault>
    ensures strikes { Strikes wait faults.old faults.new result }
    ensures steady { OnOk result (faults.new ≡ faults.old) }
    ensures uncounted { result ≡ Err AskFault.Memory → faults.new ≡ faults.old }
    ensures later { faults.old ≤ faults.new }
    ensures cause { result ≡ Err AskFault.Failed → Rose faults.old faults.new }
{
    match wait {
        Wait::Lose => {
            raise(faults);
            Err(AskFault::Failed)
        }
        Wait::Lie(bytes) => sent(alloc, &Response::Binary(bytes)),
    }
}

impl<G: Folder> FarDialer<G> {
    /// A dialer to a far cache, where nothing waits. It takes no memory.
    pub fn new(alloc: Global, cache: TcCache<G>) -> Self
        ensures { result ≡ record { cache = cache; waiting = []; faults = 0 } }
    {
        FarDialer {
            alloc,
            cache,
            waiting: VecDeque::new(alloc),
            faults: 0,
        }
    }

    /// Stores bytes far as the archive that they are, and gives its toolchain. Refused as
    /// `TcCache::insert_package` is.
    pub fn put(&mut self, bytes: &[u8]) -> Result<Toolchain, Error>
        ensures id { IfOk result (λ tc. tc ≡ id_of bytes.now) }
        ensures stores { Stores (id_of bytes.now) bytes.now result (told_of G.held self.old.cache)
            (told_of G.held self.new.cache) }
        ensures rest { (self.new.waiting ≡ self.old.waiting) × (self.new.faults ≡ self.old.faults) }
    {
        self.cache.insert_package(bytes)
    }

    /// Something more waits, behind all that does. Refused for want of memory alone.
    pub fn wait(&mut self, wait: Wait) -> Result<(), Memory>
        ensures ok { OnOk result (self.new ≡ record self.old { waiting = self.old.waiting ++ wait ∷ [] }) }
        ensures err { OnErr result (self.new ≡ self.old) }
    {
        match self.waiting.push_back(wait) {
            Ok(()) => Ok(()),
            Err(_) => Err(Memory),
        }
    }

    // The reply to the bytes of a request: what waits comes first.
    fn reply(&mut self, request: &[u8]) -> Result<Bytes, AskFault>
        ensures asks { AsksFar request.now (far_of G.held self.old) (far_of G.held self.new) result }
        ensures steady { OnOk result (self.new.faults ≡ self.old.faults) }
        ensures uncounted { result ≡ Err AskFault.Memory → self.new.faults ≡ self.old.faults }
        ensures later { self.old.faults ≤ self.new.faults }
        ensures cause { result ≡ Err AskFault.Failed → Rose self.old.faults self.new.faults }
    {
        match self.waiting.pop_front() {
            Some(wait) => strike(self.alloc, wait, &mut self.faults),
            None => serve(self.alloc, &mut self.cache, request),
        }
    }
}

impl<G: Folder> FarSide for FarDialer<G> {
    ghost use Rattle.std.specs.Prelude.{None};
    ghost use Rattle.mirror.specs.Asking.{IsAsked};
    ghost use Rattle.mirror.specs.Far.{far_of, AsksFar, FarAsks};

    ghost asked = { λ _. None };

    ghost faults = { λ d. d.faults };

    ghost asks = { FarAsks G.held };

    /// The reply of the far cache, or what waits for this ask.
    fn ask_far(&mut self, host: &str, port: u16, request: &[u8]) -> Result<Bytes, AskFault>
        ensures tells { IsAsked host.now port request.now (record { asked = None; faults = self.old.faults })
            (record { asked = None; faults = self.new.faults }) result }
        ensures knows { AsksFar request.now (far_of G.held self.old) (far_of G.held self.new) result }
    {
        let _host = host;
        let _port = port;
        self.reply(request)
    }
}

impl<F: Folder, G: Folder> Mirror<F, FarDialer<G>> {
    /// Stores bytes far as the archive that they are, and gives its toolchain. Refused as
    /// `TcCache::insert_package` is.
    pub fn put_far(&mut self, bytes: &[u8]) -> Result<Toolchain, Error>
        ensures id { IfOk result (λ tc. tc ≡ id_of bytes.now) }
        ensures stores { Stores (id_of bytes.now) bytes.now result (told_of G.held self.old.dialer.cache)
            (told_of G.held self.new.dialer.cache) }
        ensures dialer { (self.new.dialer.waiting ≡ self.old.dialer.waiting)
            × (self.new.dialer.faults ≡ self.old.dialer.faults) }
        ensures rest { (self.new.near ≡ self.old.near) × (self.new.host ≡ self.old.host)
            × (self.new.port ≡ self.old.port) }
    {
        self.dialer.put(bytes)
    }

    /// Something more waits for an ask, behind all that does. Refused for want of memory alone.
    pub fn wait(&mut self, wait: Wait) -> Result<(), Memory>
        ensures ok { OnOk result (self.new ≡ record self.old {
          dialer = record self.old.dialer { waiting = self.old.dialer.waiting ++ wait ∷ [] };
        }) }
        ensures err { OnErr result (self.new ≡ self.old) }
    {
        self.dialer.wait(wait)
    }
}
