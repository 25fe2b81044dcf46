//! What becomes of what the far side said: an archive is verified, and then kept near.
ghost use Rattle.std.specs.Prelude.{◌≡◌, ◌≢◌, ◌⊎◌};
ghost use Rattle.toolchain_cache.specs.Archives.{id_of};
ghost use Rattle.mirror.specs.Caches.{told_of};
ghost use Rattle.mirror.specs.Getting.{Keeps, AfterSaid, AfterHeard, Refuses};

use crate::error::MirrorError;
use crate::got::Got;
use crate::said::{Said, read};
use build_server::archive::HashedArchive;
use dist_types::dialer::AskFault;
use dist_types::text::Bytes;
use dist_types::toolchain::Toolchain;
use folders::folder::Folder;
use lru_disk_cache::Error;
use std::alloc::Global;
use toolchain_cache::TcCache;

/// Stores an archive near that was verified, and gives it. It is not hashed again.
fn keep<F: Folder>(near: &mut TcCache<F>, tc: &Toolchain, bytes: Bytes) -> Result<Got, MirrorError>
    requires verified { id_of bytes ≡ tc.now }
    ensures keeps { Keeps tc.now bytes result (told_of F.held near.old) (told_of F.held near.new) }
{
    match near.insert_verified(tc, bytes.get()) {
        Ok(()) => Ok(Got::Fetched(bytes.into_inner(), true)),
        Err(Error::FileTooLarge) => Ok(Got::Fetched(bytes.into_inner(), false)),
        Err(Error::Io(_)) => Ok(Got::Fetched(bytes.into_inner(), false)),
        Err(Error::Memory) => Err(MirrorError::Memory),
        Err(_) => unreachable!(),
    }
}

/// What the far side sent is kept near where its SHA-256 is the id, and else refused. It is hashed once.
fn verify<F: Folder>(
    near: &mut TcCache<F>,
    tc: &Toolchain,
    bytes: Bytes,
) -> Result<Got, MirrorError>
    ensures { Keeps tc.now bytes result (told_of F.held near.old) (told_of F.held near.new)
        ⊎ Refuses tc.now bytes result (told_of F.held near.old) (told_of F.held near.new) }
{
    if !HashedArchive::of(bytes.get()).is_of(tc) {
        return Err(MirrorError::WrongDigest);
    }
    keep(near, tc, bytes)
}

/// The answer by what the far side said.
fn settle<F: Folder>(near: &mut TcCache<F>, tc: &Toolchain, said: Said) -> Result<Got, MirrorError>
    ensures { AfterSaid tc.now said result (told_of F.held near.old) (told_of F.held near.new) }
{
    match said {
        Said::Archive(bytes) => verify(near, tc, bytes),
        Said::NotThere => Err(MirrorError::NotAnywhere),
        Said::Bad(code) => Err(MirrorError::BadReply(code)),
    }
}

/// The answer by what was heard of the far side. Its reply is let go once it is read.
pub(crate) fn conclude<F: Folder>(
    alloc: Global,
    near: &mut TcCache<F>,
    tc: &Toolchain,
    heard: Result<Bytes, AskFault>,
) -> Result<Got, MirrorError>
    ensures { AfterHeard tc.now heard result (told_of F.held near.old) (told_of F.held near.new) }
{
    match heard {
        Ok(reply) => match read(alloc, reply) {
            Ok(said) => settle(near, tc, said),
            Err(_) => Err(MirrorError::Memory),
        },
        Err(AskFault::Failed) => Err(MirrorError::FetchFault),
        Err(AskFault::Memory) => Err(MirrorError::Memory),
    }
}
