//! A near cache that is backed by a far one.
ghost use Rattle.std.specs.Prelude.{◌≡◌, IfOk, IfErr, OnErr, string_bytes, Err};
ghost use Rattle.dist_types.specs.Cause.{Rose};
ghost use Rattle.folders.specs.Held.{Holds};
ghost use Rattle.mirror.specs.Asking.{IsAskedFor};
ghost use Rattle.mirror.specs.Caches.{told_of, Stores, Stays, ListsNoMore};
ghost use Rattle.mirror.specs.Getting.{GetsBy, GoesOn, FetchedHave, AllHave};
ghost use Rattle.mirror.specs.Prefetching.{Brings, AfterGot, ReadyWhereTrue};
ghost use Rattle.mirror.specs.Rule.{RulesBy, AsOneBy};
ghost use Rattle.toolchain_cache.specs.Archives.{id_of};

use crate::error::MirrorError;
use crate::far_side::FarSide;
use crate::got::Got;
use crate::keep::conclude;
use crate::look::{look, near_of};
use crate::question::question;
use build_server::state::ServerState;
use dist_types::dialer::AskFault;
use dist_types::text::Bytes;
use dist_types::toolchain::Toolchain;
use folders::folder::Folder;
use lru_disk_cache::Error;
use std::marker::Model;
use toolchain_cache::TcCache;

/// A near cache of archives, backed by a far one that is asked over a dialer. Contracts see it as its parts.
#[derive(Drop)]
pub struct Mirror<F: Folder, D> {
    pub(crate) near: TcCache<F>,
    pub(crate) dialer: D,
    pub(crate) host: String,
    pub(crate) port: u16,
}

impl<F: Folder, D> Model for Mirror<F, D> {
    ghost use Rattle.std.specs.Prelude.{string_bytes};
    ghost use Rattle.mirror.specs.Getting.{Parts};

    ghost Value = { Parts F D };

    ghost view = { λ m. record {
      near = m.near;
      dialer = m.dialer;
      host = string_bytes m.host;
      port = m.port;
    } };
}

/// Asks a far side for the archive of a toolchain, at a host's port.
fn ask<D: FarSide>(
    dialer: &mut D,
    host: &String,
    port: u16,
    tc: &Toolchain,
) -> Result<Bytes, AskFault>
    ensures { IsAskedFor D.asked D.faults D.asks (string_bytes host.now) port tc.now dialer.old dialer.new result }
{
    match question(*host.allocator(), host, port, tc) {
        Ok(request) => dialer.ask_far(host, port, request.get()),
        Err(_) => Err(AskFault::Memory),
    }
}

/// Stores bytes in a build server's cache, and says whether that took them.
fn bring<F: Folder>(
    server: &mut ServerState<F>,
    tc: &Toolchain,
    bytes: &[u8],
) -> Result<bool, MirrorError>
    ensures brings { Brings tc.now bytes.now result server.old server.new }
{
    match server.adopt(tc, bytes) {
        Ok(()) => Ok(true),
        Err(Error::FileTooLarge) => Ok(false),
        Err(Error::WrongDigest) => Ok(false),
        Err(Error::Io(_)) => Ok(false),
        Err(Error::Memory) => Err(MirrorError::Memory),
        Err(_) => unreachable!(),
    }
}

impl<F: Folder, D> Mirror<F, D> {
    /// A mirror over a near cache, whose far side is asked at that host's port. It takes no memory.
    pub fn new(near: TcCache<F>, dialer: D, host: String, port: u16) -> Mirror<F, D>
        ensures { result ≡ record {
          near = near;
          dialer = dialer;
          host = string_bytes host;
          port = port;
        } }
    {
        Mirror {
            near,
            dialer,
            host,
            port,
        }
    }

    /// Stores bytes near as the archive that they are, and gives its toolchain. Refused as
    /// `TcCache::insert_package` is.
    pub fn put(&mut self, bytes: &[u8]) -> Result<Toolchain, Error>
        ensures id { IfOk result (λ tc. tc ≡ id_of bytes.now) }
        ensures stores { Stores (id_of bytes.now) bytes.now result (told_of F.held self.old.near)
            (told_of F.held self.new.near) }
        ensures rest { (self.new.dialer ≡ self.old.dialer) × (self.new.host ≡ self.old.host)
            × (self.new.port ≡ self.old.port) }
    {
        self.near.insert_package(bytes)
    }
}

impl<F: Folder, D: FarSide> Mirror<F, D> {
    // The far side is asked, where near has none.
    fn fetch(&mut self, tc: &Toolchain) -> Result<Got, MirrorError>
        ensures goes_on { GoesOn
            (IsAskedFor D.asked D.faults D.asks self.old.host self.old.port tc.now self.old.dialer self.new.dialer)
            tc.now result (told_of F.held self.old.near) (told_of F.held self.new.near) }
        ensures host { self.new.host ≡ self.old.host }
        ensures port { self.new.port ≡ self.old.port }
    {
        let heard = ask(&mut self.dialer, &self.host, self.port, tc);
        conclude(*self.host.allocator(), &mut self.near, tc, heard)
    }

    // The archive of a toolchain, near or fetched.
    fn find(&mut self, tc: &Toolchain) -> Result<Got, MirrorError>
        ensures gets { GetsBy F.held D.asked D.faults D.asks tc.now result self.old self.new }
    {
        let found = look(&mut self.near, tc);
        match near_of(found) {
            Ok(Some(bytes)) => Ok(Got::Near(bytes.into_inner())),
            Ok(None) => self.fetch(tc),
            Err(e) => Err(e),
        }
    }

    /// The archive of a toolchain: near where it is listed there and its file is not missing; else fetched,
    /// by one ask of the far side. What is fetched is verified before it is listed, and is listed near where
    /// it has room and the folder does not fail.
    ///
    /// Refused as NotAnywhere exactly where the far side answers 404; FetchFault exactly where the dialer
    /// failed; BadReply exactly where what came is no reply, by 0, or has another status than 200 and 404;
    /// WrongDigest exactly where the SHA-256 of what came is not the id; Near exactly where the near folder
    /// failed; and for want of memory. Nothing is then listed near that was not before.
    ///
    /// Where all that can have been heard is what the route of a mirror answers over a far cache, and both folders
    /// tell their files and do not fail, the answer, and what is listed behind it, follow from what was listed; and
    /// where there was room for all that was put, the answer is that of one cache that took all of it.
    pub fn get(&mut self, tc: &Toolchain) -> Result<Got, MirrorError>
        ensures gets { GetsBy F.held D.asked D.faults D.asks tc.now result self.old self.new }
        ensures fetched { FetchedHave tc.now result }
        ensures all { Holds (F.held self.old.near.folder) (λ files. AllHave tc.now result) }
        ensures unlisted { OnErr result
            (ListsNoMore (told_of F.held self.old.near) (told_of F.held self.new.near)) }
        ensures near_fails { IfErr result (λ e. (why : Error) → e ≡ MirrorError.Near why
            → Rose (F.held self.old.near.folder).faults (F.held self.new.near.folder).faults) }
        ensures link_fails { result ≡ Err MirrorError.FetchFault
            → Rose (D.faults self.old.dialer) (D.faults self.new.dialer) }
        ensures stays { Stays (told_of F.held self.old.near) (told_of F.held self.new.near) }
        ensures rules { RulesBy F.held D.asked D.faults D.asks tc.now result self.old self.new }
        ensures as_one { AsOneBy F.held D.asked D.faults D.asks tc.now result self.old self.new }
    {
        let _id = tc.archive_id();
        let answer = self.find(tc);
        answer
    }

    /// Gets the archive of a toolchain, and stores it in a build server's cache. It says false exactly where
    /// that cache refused it, as too large, as not of that SHA-256, or since its folder failed; else the
    /// archive is listed there. Refused as `get` is, which leaves the server as it was, and where memory ran
    /// out at the server, when the archive may be listed near.
    pub fn prefetch(
        &mut self,
        tc: &Toolchain,
        server: &mut ServerState<F>,
    ) -> Result<bool, MirrorError>
        ensures brings { (got : _) × GetsBy F.held D.asked D.faults D.asks tc.now got self.old self.new
            × AfterGot tc.now got result server.old server.new }
        ensures ready { ReadyWhereTrue tc.now result server.old server.new }
    {
        match self.get(tc) {
            Ok(Got::Near(bytes)) => bring(server, tc, &bytes),
            Ok(Got::Fetched(bytes, _)) => bring(server, tc, &bytes),
            Err(e) => Err(e),
        }
    }
}
