//! Keys that are no archive's. Others put their files there since the folder was cleaned, so that there are
//! none where files are told.
ghost use Rattle.std.specs.Prelude.{◌≡◌, ◌≤◌, ◌⊎◌, true, None, IfErr, OnOk};
ghost use Rattle.folders.specs.Held.{Holds};
ghost use Rattle.lru_disk_cache.specs.Store.{OpenFails};
ghost use Rattle.listed_files.specs.Calls.{Uncounted};
ghost use Rattle.toolchain_cache.specs.Cleaned.{are_archive_keys, without_keys, NoneTold};

use crate::cleaning::other_keys;
use dist_types::text::Text;
use folders::folder::Folder;
use lru_disk_cache::{Error, LruDiskCache, Result};
use std::alloc::Global;

/// Takes the keys out that are no archive's, and removes their files. Where files are told nothing changes.
pub(crate) fn drop_others<F: Folder>(alloc: Global, cache: &mut LruDiskCache<F>) -> Result<()>
    requires { Holds (F.held cache.old.folder)
        (λ files. are_archive_keys cache.old.disk.entries ≡ true) }
    ensures same { (cache.new ≡ cache.old)
        ⊎ NoneTold (F.held cache.old.folder) (F.held cache.new.folder) }
    ensures keys { OnOk result (are_archive_keys cache.new.disk.entries ≡ true) }
    ensures place { cache.new.disk ≡ record cache.old.disk { entries = cache.new.disk.entries } }
    ensures unspoiled { cache.new.spoiled ≡ cache.old.spoiled }
    ensures steady { OnOk result ((F.held cache.new.folder).faults ≡ (F.held cache.old.folder).faults) }
    ensures fails { IfErr result (λ e. OpenFails e (F.held cache.old.folder) (F.held cache.new.folder)) }
    ensures uncounted { IfErr result (λ e. Uncounted e (F.held cache.old.folder) (F.held cache.new.folder)) }
    ensures later { (F.held cache.old.folder).faults ≤ (F.held cache.new.folder).faults }
{
    let Ok(others) = other_keys(alloc, cache.entries()) else {
        return Err(Error::Memory);
    };
    let rest = others.as_slice();
    if rest.is_empty() {
        return Ok(());
    }
    drop_each(cache, rest)
}

// Takes each of these keys out, and removes its file.
fn drop_each<F: Folder>(cache: &mut LruDiskCache<F>, others: &[Text]) -> Result<()>
    requires { (F.held cache.old.folder).files ≡ None }
    ensures untold { (F.held cache.new.folder).files ≡ None }
    ensures keys { OnOk result
        (cache.new.disk.entries ≡ without_keys others.now cache.old.disk.entries) }
    ensures place { cache.new.disk ≡ record cache.old.disk { entries = cache.new.disk.entries } }
    ensures unspoiled { cache.new.spoiled ≡ cache.old.spoiled }
    ensures steady { OnOk result ((F.held cache.new.folder).faults ≡ (F.held cache.old.folder).faults) }
    ensures fails { IfErr result (λ e. OpenFails e (F.held cache.old.folder) (F.held cache.new.folder)) }
    ensures uncounted { IfErr result (λ e. Uncounted e (F.held cache.old.folder) (F.held cache.new.folder)) }
    ensures later { (F.held cache.old.folder).faults ≤ (F.held cache.new.folder).faults }
{
    for key in others {
        match cache.remove(key.get()) {
            Ok(()) => {}
            Err(error) => return Err(error),
        }
    }
    Ok(())
}
