//! The two caches of a script's run, in memory, and what each step does to them.
ghost use Rattle.std.specs.Prelude.{◌≡◌, [], IfOk, string_bytes};
ghost use Rattle.mirror_script.specs.Script.{IsShort};
ghost use Rattle.mirror_script.specs.Said.{said_text};
ghost use Rattle.mirror_script.specs.declared.line.Site.TheVariants as site;
ghost use Rattle.mirror_script.specs.declared.line.Step.TheVariants as step;
ghost use Rattle.mirror_script.specs.declared.said.Said.{Said as Line};
ghost use Rattle.mirror_run.specs.Sites.{IsAt, Does};
ghost use Rattle.mirror_run.specs.Steps.{IsSaid, empty};

use dist_types::fault::Memory;
use dist_types::text::Bytes;
use dist_types::toolchain::Toolchain;
use folders::reliable_folder::ReliableFolder;
use lru_disk_cache::Error;
use mirror::error::MirrorError;
use mirror::far::{FarDialer, Wait};
use mirror::got::Got;
use mirror::mirror::Mirror;
use mirror_script::line::{Site, Step};
use mirror_script::said::{Said, text};
use std::alloc::Global;
use toolchain_cache::TcCache;

/// The host that the far cache is asked at.
const HOST: &str = "far";

/// The port that it is asked at.
const PORT: u16 = 80;

/// A mirror in memory, whose far cache is in memory too.
pub(crate) type Sites = Mirror<ReliableFolder, FarDialer<ReliableFolder>>;

/// A cache in memory, which lists nothing.
fn empty_cache(alloc: Global, room: u64) -> Result<TcCache<ReliableFolder>, Memory>
    ensures room { IfOk result (λ c. c.capacity ≡ room) }
    ensures lists { IfOk result (λ c. c.archives ≡ []) }
{
    match TcCache::new(alloc, ReliableFolder::new(alloc), "", room) {
        Ok(cache) => Ok(cache),
        Err(_) => Err(Memory),
    }
}

/// Two caches that list nothing, of so many bytes. Refused for want of memory alone.
pub(crate) fn open(alloc: Global, near: u64, far: u64) -> Result<Sites, Memory>
    ensures opened { IfOk result (λ m. IsAt (record { near = near; far = far }) empty m) }
{
    let near = empty_cache(alloc, near)?;
    let cache = empty_cache(alloc, far)?;
    let host = match String::from_str(alloc, HOST) {
        Ok(host) => host,
        Err(_) => return Err(Memory),
    };
    Ok(Mirror::new(near, FarDialer::new(alloc, cache), host, PORT))
}

/// Puts bytes near.
fn put_near(sites: &mut Sites, bytes: &Bytes) -> Result<Said, Memory>
    ensures does { IfOk result (λ l. Does (step.Put site.Near bytes.now) l sites.old sites.new) }
{
    match sites.put(bytes.get()) {
        Ok(tc) => Ok(Said::Put(tc)),
        Err(Error::FileTooLarge) => Ok(Said::TooLarge),
        Err(_) => Err(Memory),
    }
}

/// Puts bytes far.
fn put_far(sites: &mut Sites, bytes: &Bytes) -> Result<Said, Memory>
    requires short { IsShort (step.Put site.Far bytes.now) }
    ensures does { IfOk result (λ l. Does (step.Put site.Far bytes.now) l sites.old sites.new) }
{
    match sites.put_far(bytes.get()) {
        Ok(tc) => Ok(Said::Put(tc)),
        Err(Error::FileTooLarge) => Ok(Said::TooLarge),
        Err(_) => Err(Memory),
    }
}

/// Puts bytes near or far.
fn put(sites: &mut Sites, place: &Site, bytes: &Bytes) -> Result<Said, Memory>
    requires short { IsShort (step.Put place.now bytes.now) }
    ensures does { IfOk result (λ l. Does (step.Put place.now bytes.now) l sites.old sites.new) }
{
    match place {
        Site::Near => put_near(sites, bytes),
        Site::Far => put_far(sites, bytes),
    }
}

/// The line of what was got.
fn got_said(got: Result<Got, MirrorError>) -> Result<Said, Memory>
    ensures said { IfOk result (λ l. IsSaid got l) }
{
    match got {
        Ok(Got::Near(bytes)) => Ok(Said::Near(Bytes::new(bytes))),
        Ok(Got::Fetched(bytes, true)) => Ok(Said::Fetched(Bytes::new(bytes))),
        Ok(Got::Fetched(bytes, false)) => Ok(Said::Unlisted(Bytes::new(bytes))),
        Err(MirrorError::NotAnywhere) => Ok(Said::NotAnywhere),
        Err(MirrorError::FetchFault) => Ok(Said::FetchFault),
        Err(MirrorError::BadReply(code)) => Ok(Said::BadReply(code)),
        Err(MirrorError::WrongDigest) => Ok(Said::WrongDigest),
        Err(MirrorError::Near(_)) => Err(Memory),
        Err(MirrorError::Memory) => Err(Memory),
    }
}

/// Asks for the archive of a toolchain.
fn get(sites: &mut Sites, tc: &Toolchain) -> Result<Said, Memory>
    ensures does { IfOk result (λ l. Does (step.Get tc.now) l sites.old sites.new) }
{
    let _id = tc.archive_id();
    let got = sites.get(tc);
    got_said(got)
}

/// The next ask fails.
fn lose(sites: &mut Sites) -> Result<Said, Memory>
    ensures does { IfOk result (λ l. Does step.Lose l sites.old sites.new) }
{
    sites.wait(Wait::Lose)?;
    Ok(Said::Lose)
}

/// The next ask is answered with this body.
fn lie(alloc: Global, sites: &mut Sites, body: &Bytes) -> Result<Said, Memory>
    requires short { IsShort (step.Lie body.now) }
    ensures does { IfOk result (λ l. Does (step.Lie body.now) l sites.old sites.new) }
{
    let copy = Bytes::from_slice(alloc, body.get())?;
    sites.wait(Wait::Lie(copy))?;
    Ok(Said::Lie)
}

/// Does a step. Refused for want of memory alone.
fn did(alloc: Global, sites: &mut Sites, step: &Step) -> Result<Said, Memory>
    requires short { IsShort step.now }
    ensures does { IfOk result (λ l. Does step.now l sites.old sites.new) }
{
    match step {
        Step::Put(place, bytes) => put(sites, place, bytes),
        Step::Get(tc) => get(sites, tc),
        Step::Lose => lose(sites),
        Step::Lie(body) => lie(alloc, sites, body),
    }
}

/// Does a step, and gives its line. Refused for want of memory alone.
pub(crate) fn line_of(alloc: Global, sites: &mut Sites, step: &Step) -> Result<String, Memory>
    requires short { IsShort step.now }
    ensures does { IfOk result
        (λ t. (l : Line) × (string_bytes t ≡ said_text l) × Does step.now l sites.old sites.new) }
{
    let said = did(alloc, sites, step)?;
    match text(alloc, &said) {
        Ok(line) => Ok(line),
        Err(_) => Err(Memory),
    }
}
