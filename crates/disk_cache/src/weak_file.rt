//! The file of the weak map.
ghost use Rattle.std.specs.Prelude.{◌≡◌, ◌⊎◌, [], Some, None, IfOk, IfErr, OnOk, codes};
ghost use Rattle.folders.specs.Files.{file_at};
ghost use Rattle.folders.specs.Held.{Holds, Became, Lacks};
ghost use Rattle.toolchain_cache.specs.Archives.{IsArchiveStore, IsInStep};
ghost use Rattle.disk_cache.specs.Names.{AreNames, weak_path, temp_path};
ghost use Rattle.folders.specs.Whole.{OldOr};
ghost use Rattle.disk_cache.specs.Saving.{ButTwo, OldOrEmpty, OldOrBegun, SaveFails, BeginFails, LoadFails};
ghost use Rattle.disk_cache.specs.WeakMaps.{weak_map_in, weak_map_at};

use crate::names::Names;
use crate::toolchain_error::{ToolchainError, fault_error};
use crate::weak_map::WeakMap;
use folders::fault::FolderFault;
use folders::folder::Folder;
use std::alloc::Global;
use toolchain_cache::TcCache;

/// Writes the text of a weak map under another name, and renames it: a fault leaves the file's old text or
/// the new.
pub(crate) fn save<F: Folder>(
    cache: &mut TcCache<F>,
    names: &Names,
    text: &[u8],
) -> Result<(), FolderFault>
    requires names { AreNames names.now }
    requires path { cache.old.path ≡ names.now.cache }
    ensures at { (cache.new.path ≡ cache.old.path) × (cache.new.capacity ≡ cache.old.capacity) ×
        (cache.new.archives ≡ cache.old.archives) }
    ensures stands { IsArchiveStore cache.new.path cache.new.capacity cache.new.archives (F.held
        cache.new.folder) }
    ensures in_step { IsInStep cache.old.path (F.held cache.old.folder) cache.old.archives → IsInStep
        cache.new.path (F.held cache.new.folder) cache.new.archives }
    ensures unspoiled { cache.new.spoiled ≡ cache.old.spoiled }
    ensures written { OnOk result (Holds (F.held cache.new.folder) (λ files. file_at files (weak_path
        names.now.dir) ≡ Some text.now)) }
    ensures gone { OnOk result (Holds (F.held cache.new.folder) (Lacks (temp_path names.now.dir))) }
    ensures left { Became (OldOr (weak_path names.now.dir) text.now) (F.held cache.old.folder).files
        (F.held cache.new.folder).files }
    ensures others { Became (ButTwo (temp_path names.now.dir) (weak_path names.now.dir)) (F.held
        cache.old.folder).files (F.held cache.new.folder).files }
    ensures steady { OnOk result ((F.held cache.new.folder).faults ≡ (F.held cache.old.folder).faults) }
    ensures fails { IfErr result (λ e. SaveFails e (F.held cache.old.folder) (F.held cache.new.folder)) }
{
    match cache.write_aside(names.temp.get(), text) {
        Ok(()) => {}
        Err(fault) => return Err(fault),
    }
    match cache.rename_aside(names.temp.get(), names.weak.get()) {
        Ok(()) => Ok(()),
        Err(fault) => Err(fault),
    }
}

/// Begins a weak map in which nothing is recorded: its text is `{}`.
fn begin<F: Folder>(
    alloc: Global,
    cache: &mut TcCache<F>,
    names: &Names,
) -> Result<WeakMap, ToolchainError>
    requires names { AreNames names.now }
    requires path { cache.old.path ≡ names.now.cache }
    requires stands { IsArchiveStore cache.old.path cache.old.capacity cache.old.archives (F.held
        cache.old.folder) }
    ensures at { (cache.new.path ≡ cache.old.path) × (cache.new.capacity ≡ cache.old.capacity) ×
        (cache.new.archives ≡ cache.old.archives) }
    ensures stands { IsArchiveStore cache.new.path cache.new.capacity cache.new.archives (F.held
        cache.new.folder) }
    ensures in_step { IsInStep cache.old.path (F.held cache.old.folder) cache.old.archives → IsInStep
        cache.new.path (F.held cache.new.folder) cache.new.archives }
    ensures unspoiled { cache.new.spoiled ≡ cache.old.spoiled }
    ensures none { IfOk result (λ map. map ≡ []) }
    ensures written { IfOk result (λ map. Holds (F.held cache.new.folder) (λ files. weak_map_at
        names.now.dir files ≡ Some map)) }
    ensures gone { OnOk result (Holds (F.held cache.new.folder) (Lacks (temp_path names.now.dir))) }
    ensures begun { OnOk result (Holds (F.held cache.new.folder) (λ files. file_at files (weak_path
        names.now.dir) ≡ Some (codes "{}"))) }
    ensures weak { Became (OldOrEmpty names.now.dir) (F.held cache.old.folder).files
        (F.held cache.new.folder).files }
    ensures others { Became (ButTwo (temp_path names.now.dir) (weak_path names.now.dir)) (F.held
        cache.old.folder).files (F.held cache.new.folder).files }
    ensures steady { OnOk result ((F.held cache.new.folder).faults ≡ (F.held cache.old.folder).faults) }
    ensures fails { IfErr result (λ e. BeginFails e (F.held cache.old.folder) (F.held cache.new.folder)) }
{
    let map = WeakMap::empty(alloc);
    let Ok(text) = map.text(alloc) else {
        return Err(ToolchainError::Memory);
    };
    match save(cache, names, &text) {
        Ok(()) => Ok(map),
        Err(fault) => Err(fault_error(fault)),
    }
}

/// The weak map that bytes are.
fn map_of(alloc: Global, bytes: &[u8]) -> Result<WeakMap, ToolchainError>
    ensures ok { IfOk result (λ map. weak_map_in bytes.now ≡ Some map) }
    ensures err { IfErr result (λ e. (e ≡ ToolchainError.Memory) ⊎ ((e ≡ ToolchainError.BadWeakMap) ×
        (weak_map_in bytes.now ≡ None))) }
{
    match WeakMap::read(alloc, bytes) {
        Ok(found) => match found {
            Some(map) => Ok(map),
            None => Err(ToolchainError::BadWeakMap),
        },
        Err(_) => Err(ToolchainError::Memory),
    }
}

/// The weak map of the file, which is made as `{}` where it is missing: BadWeakMap exactly where it is no
/// object of texts.
pub(crate) fn load<F: Folder>(
    alloc: Global,
    cache: &mut TcCache<F>,
    names: &Names,
) -> Result<WeakMap, ToolchainError>
    requires names { AreNames names.now }
    requires path { cache.old.path ≡ names.now.cache }
    ensures at { (cache.new.path ≡ cache.old.path) × (cache.new.capacity ≡ cache.old.capacity) ×
        (cache.new.archives ≡ cache.old.archives) }
    ensures stands { IsArchiveStore cache.new.path cache.new.capacity cache.new.archives (F.held
        cache.new.folder) }
    ensures in_step { IsInStep cache.old.path (F.held cache.old.folder) cache.old.archives → IsInStep
        cache.new.path (F.held cache.new.folder) cache.new.archives }
    ensures unspoiled { cache.new.spoiled ≡ cache.old.spoiled }
    ensures found { IfOk result (λ map. Holds (F.held cache.old.folder) (λ files. weak_map_at names.now.dir
        files ≡ Some map)) }
    ensures written { IfOk result (λ map. Holds (F.held cache.new.folder) (λ files. weak_map_at
        names.now.dir files ≡ Some map)) }
    ensures clean { Holds (F.held cache.old.folder) (Lacks (temp_path names.now.dir)) → OnOk result (Holds
        (F.held cache.new.folder) (Lacks (temp_path names.now.dir))) }
    ensures begun { Holds (F.held cache.old.folder) (Lacks (weak_path names.now.dir)) → OnOk result (Holds
        (F.held cache.new.folder) (λ files. file_at files (weak_path names.now.dir) ≡ Some (codes "{}"))) }
    ensures weak { Became (OldOrBegun names.now.dir) (F.held cache.old.folder).files
        (F.held cache.new.folder).files }
    ensures others { Became (ButTwo (temp_path names.now.dir) (weak_path names.now.dir)) (F.held
        cache.old.folder).files (F.held cache.new.folder).files }
    ensures steady { OnOk result ((F.held cache.new.folder).faults ≡ (F.held cache.old.folder).faults) }
    ensures fails { IfErr result (λ e. LoadFails names.now.dir e (F.held cache.old.folder) (F.held
        cache.new.folder)) }
{
    match cache.read_aside(names.weak.get()) {
        Ok(bytes) => map_of(alloc, &bytes),
        Err(fault) => match fault {
            FolderFault::Missing => begin(alloc, cache, names),
            FolderFault::Failed => Err(fault_error(fault)),
            FolderFault::Memory => Err(fault_error(fault)),
        },
    }
}
