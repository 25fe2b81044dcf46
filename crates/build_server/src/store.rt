//! What a server asks of its cache: to store an archive that is not listed, and to read one that is.
ghost use Rattle.std.specs.Prelude.{◌≡◌, ◌≤◌, ◌-◌, length, take, is_some, true, false, IfOk, IfErr, OnOk, Ok};
ghost use Rattle.std.specs.Prelude.{Err};
ghost use Rattle.toolchain_cache.specs.Archives.{IsInStep, IsArchiveStore};
ghost use Rattle.listed_files.specs.Disk.{dropped};
ghost use Rattle.folders.specs.Changed.{ButUnder};
ghost use Rattle.listed_files.specs.Entries.{total};
ghost use Rattle.folders.specs.Files.{front};
ghost use Rattle.folders.specs.Held.{Became};
ghost use Rattle.build_server.specs.Books.{ids, is_listed};
ghost use Rattle.build_server.specs.Rules.{NotFolder, FolderHeld};
ghost use Rattle.build_server.specs.Stores.{Stores, MayRefuse, refusal, Reads};

use crate::archive::HashedArchive;
use crate::fault::ServerFault;
use crate::run::Taken;
use crate::submit::Submitted;
use dist_types::fault::Memory;
use dist_types::text::{Bytes, Items};
use dist_types::toolchain::Toolchain;
use dist_types::try_clone::push;
use folders::folder::Folder;
use lru_disk_cache::Error;
use std::alloc::Global;
use toolchain_cache::TcCache;

/// The sum of the sizes of the archives, in bytes.
fn sum<F: Folder>(cache: &TcCache<F>) -> u64
    requires fits { total cache.now.archives ≤ cache.now.capacity }
    ensures sum { result ≡ total cache.now.archives }
{
    let _capacity = cache.capacity();
    let mut sum = 0;
    for (_, size) in cache.archives() {
        sum += size;
    }
    sum
}

/// The toolchains of the archives that go from the front so that the others fit a limit. Refused for want
/// of memory alone.
fn to_drop<F: Folder>(
    alloc: Global,
    cache: &TcCache<F>,
    limit: u64,
) -> Result<Vec<Toolchain>, Memory>
    requires fits { total cache.now.archives ≤ cache.now.capacity }
    ensures dropped { IfOk result (λ v. v.items ≡ ids (dropped limit cache.now.archives)) }
{
    let mut gone = Vec::new(alloc);
    let mut left = sum(cache);
    for (tc, size) in cache.archives() {
        if left <= limit {
            return Ok(gone);
        }
        push(&mut gone, tc)?;
        left -= size;
    }
    Ok(gone)
}

/// What a refused store comes to, where so many went that it would drop.
fn refused(e: Error, mut gone: Vec<Toolchain>, went: usize) -> Result<Submitted, ServerFault>
    requires refused { MayRefuse e }
    ensures refusal { result ≡ refusal e (take went gone.items) }
{
    match e {
        Error::WrongDigest => Ok(Submitted::Digest),
        Error::FileTooLarge => Ok(Submitted::Capacity),
        Error::Io(_) => {
            gone.truncate(went);
            Ok(Submitted::Folder(Items::new(gone)))
        }
        Error::Memory => Err(ServerFault::Memory),
        _ => unreachable!(),
    }
}

/// Stores an archive that is not listed. It was hashed before, and is not hashed again.
#[tactic(auto, using(crate::proofs::StoreLemmas::others_same))]
pub(crate) fn store<F: Folder>(
    alloc: Global,
    cache: &mut TcCache<F>,
    tc: &Toolchain,
    archive: &HashedArchive<'_>,
) -> Result<Submitted, ServerFault>
    requires unlisted { is_listed tc.now cache.old.archives ≡ false }
    requires stands { IsArchiveStore cache.old.path cache.old.capacity cache.old.archives
        (F.held cache.old.folder) }
    ensures stores { Stores cache.old.capacity tc.now archive.now result
        cache.old.archives cache.new.archives (F.held cache.old.folder) (F.held cache.new.folder) }
    ensures in_step { IfOk result (λ outcome. NotFolder outcome
        → IsInStep cache.old.path (F.held cache.old.folder) cache.old.archives
        → IsInStep cache.new.path (F.held cache.new.folder) cache.new.archives) }
    ensures at { (cache.new.path ≡ cache.old.path) × (cache.new.capacity ≡ cache.old.capacity) }
    ensures others { Became (ButUnder (front cache.old.path)) (F.held cache.old.folder).files
        (F.held cache.new.folder).files }
    ensures later { (F.held cache.old.folder).faults ≤ (F.held cache.new.folder).faults }
{
    if !archive.is_of(tc) {
        return Ok(Submitted::Digest);
    }
    let bytes = archive.bytes();
    let size = bytes.len() as u64;
    let limit = cache.capacity().saturating_sub(size);
    let Ok(gone) = to_drop(alloc, cache, limit) else {
        return Err(ServerFault::Memory);
    };
    let count = cache.len();
    match cache.insert_verified(tc, bytes) {
        Ok(()) => Ok(Submitted::Stored(size, Items::new(gone))),
        Err(e) => refused(e, gone, count - cache.len()),
    }
}

/// What holds of the archives, whatever failed so far.
pub(crate) fn shown<F: Folder>(cache: &TcCache<F>)
    ensures stands { IsArchiveStore cache.now.path cache.now.capacity cache.now.archives
        (F.held cache.now.folder) }
{
    let mut archives = cache.archives();
    let Some((first, _)) = archives.next() else {
        return;
    };
    let _listed = cache.contains_toolchain(&first);
}

/// Reads an archive that is listed.
pub(crate) fn read<F: Folder>(cache: &mut TcCache<F>, tc: Toolchain) -> Result<Taken, Memory>
    requires listed { is_listed tc cache.old.archives ≡ true }
    ensures reads { Reads tc result cache.old.archives cache.new.archives
        (F.held cache.old.folder) (F.held cache.new.folder) }
    ensures in_step { IfOk result (λ taken. FolderHeld taken
        → IsInStep cache.old.path (F.held cache.old.folder) cache.old.archives
        → IsInStep cache.new.path (F.held cache.new.folder) cache.new.archives) }
    ensures at { (cache.new.path ≡ cache.old.path) × (cache.new.capacity ≡ cache.old.capacity) }
    ensures others { Became (ButUnder (front cache.old.path)) (F.held cache.old.folder).files
        (F.held cache.new.folder).files }
    ensures later { (F.held cache.old.folder).faults ≤ (F.held cache.new.folder).faults }
{
    match cache.get_file(&tc) {
        Ok(archive) => Ok(Taken::Read(tc, Bytes::new(archive))),
        Err(Error::Io(_)) => Ok(Taken::Folder(tc)),
        Err(Error::Memory) => Err(Memory),
        Err(_) => unreachable!(),
    }
}
