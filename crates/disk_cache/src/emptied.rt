//! A directory that is emptied.
ghost use Rattle.std.specs.Prelude.{◌≡◌, ℕ, List, Err, OnOk};
ghost use Rattle.folders.specs.Files.{front, without};
ghost use Rattle.folders.specs.Held.{Holds, Became};
ghost use Rattle.folders.specs.Changed.{ButUnder, Counts, RemovedAt, RemovedUnder};
ghost use Rattle.disk_cache.specs.Names.{AreNames, temp_dir};
ghost use Rattle.disk_cache.specs.Opening.{IsEmpty, AreApart, SameArchives};

use crate::names::Names;
use dist_types::text::Text;
use folders::fault::FolderFault;
use folders::folder::Folder;

/// Removes a file. One that is missing already is no fault.
fn discard<F: Folder>(folder: &mut F, path: &Text) -> Result<(), FolderFault>
    ensures exact { OnOk result (Became (λ old new. new ≡ without path.now old) (F.held folder.old).files
        (F.held folder.new).files) }
    ensures part { Became (RemovedAt path.now) (F.held folder.old).files (F.held folder.new).files }
    ensures counts { Counts result (F.held folder.old) (F.held folder.new) }
    ensures found { ¬ (result ≡ Err FolderFault.Missing) }
{
    match folder.remove(path.get()) {
        Ok(()) => Ok(()),
        Err(FolderFault::Missing) => Ok(()),
        Err(FolderFault::Failed) => Err(FolderFault::Failed),
        Err(FolderFault::Memory) => Err(FolderFault::Memory),
    }
}

/// Removes all files below a directory. Those beside it stay, and so do the archives of a cache beside it.
pub(crate) fn empty<F: Folder>(folder: &mut F, under: &Text) -> Result<(), FolderFault>
    ensures emptied { OnOk result (Holds (F.held folder.new) (IsEmpty under.now)) }
    ensures others { OnOk result (Became (ButUnder (front under.now)) (F.held folder.old).files (F.held
        folder.new).files) }
    ensures archives { (path : List ℕ) → AreApart path under.now → OnOk result (Became (SameArchives path)
        (F.held folder.old).files (F.held folder.new).files) }
    ensures left { Became (RemovedUnder (front under.now)) (F.held folder.old).files
        (F.held folder.new).files }
    ensures counts { Counts result (F.held folder.old) (F.held folder.new) }
{
    let found = match folder.list(under.get()) {
        Ok(found) => found,
        Err(fault) => return Err(fault),
    };
    for file in &found {
        match discard(folder, &file.path) {
            Ok(()) => {}
            Err(fault) => return Err(fault),
        }
    }
    Ok(())
}

/// Empties the directory of what is still being written, and makes it.
pub(crate) fn prepare<F: Folder>(folder: &mut F, names: &Names) -> Result<(), FolderFault>
    requires { AreNames names.now }
    ensures emptied { OnOk result (Holds (F.held folder.new) (IsEmpty (temp_dir names.now.dir))) }
    ensures others { OnOk result (Became (ButUnder (front (temp_dir names.now.dir))) (F.held
        folder.old).files (F.held folder.new).files) }
    ensures archives { (path : List ℕ) → AreApart path (temp_dir names.now.dir) → OnOk result (Became
        (SameArchives path) (F.held folder.old).files (F.held folder.new).files) }
    ensures left { Became (RemovedUnder (front (temp_dir names.now.dir))) (F.held folder.old).files
        (F.held folder.new).files }
    ensures counts { Counts result (F.held folder.old) (F.held folder.new) }
{
    match empty(folder, &names.temp_dir) {
        Ok(()) => {}
        Err(fault) => return Err(fault),
    }
    match folder.make_parents(names.temp.get()) {
        Ok(()) => Ok(()),
        Err(fault) => Err(fault),
    }
}
