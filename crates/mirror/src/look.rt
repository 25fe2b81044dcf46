//! A look into a cache of archives, and what it comes to.
ghost use Rattle.std.specs.Prelude.{◌≡◌};
ghost use Rattle.toolchain_cache.specs.Archives.{IsArchiveStore};
ghost use Rattle.mirror.specs.Caches.{told_of, Looks};
ghost use Rattle.mirror.specs.Getting.{near_of};

use crate::error::MirrorError;
use dist_types::text::Bytes;
use dist_types::toolchain::Toolchain;
use folders::fault::FolderFault;
use folders::folder::Folder;
use lru_disk_cache::Error;
use toolchain_cache::TcCache;

/// What holds of a cache, whatever failed so far.
fn shown<F: Folder>(cache: &TcCache<F>)
    ensures stands { IsArchiveStore cache.now.path cache.now.capacity cache.now.archives
        (F.held cache.now.folder) }
{
    let mut archives = cache.archives();
    let Some((first, _)) = archives.next() else {
        return;
    };
    let _listed = cache.contains_toolchain(&first);
}

/// The archive of a toolchain, which becomes the most recent. Refused as `TcCache::get_file` is.
pub(crate) fn look<F: Folder>(cache: &mut TcCache<F>, tc: &Toolchain) -> Result<Bytes, Error>
    ensures looks { Looks tc.now result (told_of F.held cache.old) (told_of F.held cache.new) }
{
    shown(cache);
    match cache.get_file(tc) {
        Ok(bytes) => Ok(Bytes::new(bytes)),
        Err(error) => Err(error),
    }
}

/// What the look near comes to: the archive, or none; or why it failed.
pub(crate) fn near_of(found: Result<Bytes, Error>) -> Result<Option<Bytes>, MirrorError>
    ensures { result ≡ near_of found }
{
    match found {
        Ok(bytes) => Ok(Some(bytes)),
        Err(Error::FileNotInCache) => Ok(None),
        Err(Error::Io(FolderFault::Missing)) => Ok(None),
        Err(Error::Io(FolderFault::Failed)) => {
            Err(MirrorError::Near(Error::Io(FolderFault::Failed)))
        }
        Err(Error::Io(FolderFault::Memory)) => {
            Err(MirrorError::Near(Error::Io(FolderFault::Memory)))
        }
        Err(Error::Memory) => Err(MirrorError::Memory),
        Err(Error::FileTooLarge) => Err(MirrorError::Near(Error::FileTooLarge)),
        Err(Error::PendingSpace) => Err(MirrorError::Near(Error::PendingSpace)),
        Err(Error::BadKey) => Err(MirrorError::Near(Error::BadKey)),
        Err(Error::NotPending) => Err(MirrorError::Near(Error::NotPending)),
        Err(Error::WrongDigest) => Err(MirrorError::Near(Error::WrongDigest)),
        Err(Error::WriterRefused) => Err(MirrorError::Near(Error::WriterRefused)),
    }
}
