//! The steps of a disk cache: writing the temporary file, dropping what is least recent, and putting the file
//! in its place.
ghost use Rattle.std.specs.Prelude.{◌≡◌, ◌+◌, ◌-◌, ◌≤◌, ◌<◌, ◌++◌, ◌∷◌, [], length, take, drop, true, false};
ghost use Rattle.std.specs.Prelude.{Some, None, Err, IfOk, IfErr, OnOk, OnErr};
ghost use Rattle.std.specs.Map.{lookup};
ghost use Rattle.std.specs.Str.{bytes_eq};
ghost use Rattle.folders.specs.Files.{file_at, size_at, put, without, moved, touched, appended};
ghost use Rattle.folders.specs.Files.{PartAppended, DoneOrNot};
ghost use Rattle.folders.specs.Failures.{WhereTold, call_failed, removal_failed};
ghost use Rattle.folders.specs.Held.{Holds, Lacks};
ghost use Rattle.listed_files.specs.Key.{is_key};
ghost use Rattle.listed_files.specs.Entries.{total, trim, IsEnd, IsTable};
ghost use Rattle.listed_files.specs.Disk.{files_prepared};
ghost use Rattle.listed_files.specs.Calls.{CallFails};
ghost use Rattle.listed_files.specs.Arriving.{awaited, paths_of, Cut};
ghost use Rattle.listed_files.specs.Told.{TellsRename, ToldCall, ToldStored};
ghost use Rattle.listed_files.specs.Disk.{Turns, TurnsBy};
ghost use Rattle.listed_files.specs.Disk.{Stands, Avoids, ButListed};
ghost use Rattle.folders.specs.Changed.{ButAt, ButUnder, ButUnderAnd};
ghost use Rattle.listed_files.specs.Disk.{ButThese, IsKeyless, Keeps, Drops, stored, staying, dropped};
ghost use Rattle.folders.specs.Changed.{Counts};
ghost use Rattle.listed_files.specs.Disk.{without_each, files_placed, files_stored, without_key, Left};
ghost use Rattle.folders.specs.Changed.{OnlyRemoved, RemovedAt, SameAt, RemovedOrSame, IsNeither};
ghost use Rattle.listed_files.specs.Calls.{Uncounted};
ghost use Rattle.folders.specs.Whole.{OldOr, OldOrMoved};

use crate::key::path_of;
use crate::table::Table;
use dist_types::cache_error::{Error, io};
use dist_types::text::Text;
use folders::fault::FolderFault;
use folders::folder::Folder;
use std::alloc::AllocError;

/// A file that is to stand under a key.
#[derive(Drop)]
pub struct Arrival {
    /// Where it is.
    pub from: Text,
    /// Where it is to be.
    pub path: Text,
    /// Its key.
    pub key: Text,
    /// How many bytes it has.
    pub size: u64,
    /// What the sizes of the other entries may sum to.
    pub limit: u64,
}

/// Removes the file of a key that is not listed any more. One that is missing already is no fault.
pub fn remove_file<F: Folder>(folder: &mut F, root: &Text, key: &Text) -> Result<(), FolderFault>
    ensures found { ¬ (result ≡ Err FolderFault.Missing) }
    ensures exact { OnOk result (Turns (λ old new. new ≡ without (root.now ++ key.now) old) (F.held
        folder.old) (F.held folder.new)) }
    ensures gone { OnOk result (Holds (F.held folder.new) (Lacks (root.now ++ key.now))) }
    ensures removed { OnOk result (Turns OnlyRemoved (F.held folder.old) (F.held folder.new)) }
    ensures others { Turns (ButAt (root.now ++ key.now)) (F.held folder.old) (F.held folder.new) }
    ensures part { Turns (RemovedAt (root.now ++ key.now)) (F.held folder.old) (F.held folder.new) }
    ensures counts { Counts result (F.held folder.old) (F.held folder.new) }
{
    let path = path_of(root, key)?;
    remove_at(folder, path.get())
}

/// How many bytes a file has.
pub fn measure<F: Folder>(folder: &mut F, path: &str) -> Result<u64, Error>
    ensures size { IfOk result (λ n. Holds (F.held folder.old) (λ files. size_at files path.now ≡ Some n)) }
    ensures same { OnOk result (F.held folder.new ≡ F.held folder.old) }
    ensures files { (F.held folder.new).files ≡ (F.held folder.old).files }
    ensures fails { IfErr result (λ e. CallFails (Lacks path.now) e (F.held folder.old) (F.held folder.new)) }
    ensures uncounted { IfErr result (λ e. Uncounted e (F.held folder.old) (F.held folder.new)) }
    ensures later { (F.held folder.old).faults ≤ (F.held folder.new).faults }
    ensures failed { WhereTold (F.held folder.old) (ToldCall result (F.failures folder.old) (F.failures
        folder.new)) }
{
    match folder.size(path) {
        Ok(size) => Ok(size),
        Err(fault) => Err(io(fault)),
    }
}

/// Adds bytes at the end of a file.
pub fn add_to<F: Folder>(folder: &mut F, path: &str, bytes: &[u8]) -> Result<(), Error>
    ensures ok { OnOk result (TurnsBy (appended path.now bytes.now) (F.held folder.old) (F.held folder.new)) }
    ensures part { OnErr result (Turns (PartAppended path.now bytes.now) (F.held folder.old) (F.held
        folder.new)) }
    ensures found { OnOk result (Holds (F.held folder.old) (λ files. ¬ (Lacks path.now files))) }
    ensures others { Turns (ButAt path.now) (F.held folder.old) (F.held folder.new) }
    ensures there { Turns (λ old new. ¬ (Lacks path.now old) → ¬ (Lacks path.now new)) (F.held folder.old)
        (F.held folder.new) }
    ensures fails { IfErr result (λ e. CallFails (Lacks path.now) e (F.held folder.old) (F.held folder.new)) }
    ensures steady { OnOk result ((F.held folder.new).faults ≡ (F.held folder.old).faults) }
    ensures uncounted { IfErr result (λ e. Uncounted e (F.held folder.old) (F.held folder.new)) }
    ensures later { (F.held folder.old).faults ≤ (F.held folder.new).faults }
{
    match folder.append(path, bytes) {
        Ok(()) => Ok(()),
        Err(fault) => Err(io(fault)),
    }
}

/// Removes the file at a path. One that is missing already is no fault.
pub fn remove_at<F: Folder>(folder: &mut F, path: &str) -> Result<(), FolderFault>
    ensures found { ¬ (result ≡ Err FolderFault.Missing) }
    ensures exact { OnOk result (Turns (λ old new. new ≡ without path.now old) (F.held folder.old) (F.held
        folder.new)) }
    ensures gone { OnOk result (Holds (F.held folder.new) (Lacks path.now)) }
    ensures others { Turns (ButAt path.now) (F.held folder.old) (F.held folder.new) }
    ensures part { Turns (RemovedAt path.now) (F.held folder.old) (F.held folder.new) }
    ensures done { Turns (DoneOrNot (without path.now)) (F.held folder.old) (F.held folder.new) }
    ensures counts { Counts result (F.held folder.old) (F.held folder.new) }
    ensures failed { WhereTold (F.held folder.old) (F.failures folder.new ≡ removal_failed result (F.failures
        folder.old)) }
{
    match folder.remove(path) {
        Ok(()) => Ok(()),
        Err(FolderFault::Missing) => Ok(()),
        Err(FolderFault::Failed) => Err(FolderFault::Failed),
        Err(FolderFault::Memory) => Err(FolderFault::Memory),
    }
}

/// Drops the least recent entry and then its file.
#[tactic(auto, using(folders::proofs::Exactly::none_removed))]
fn drop_first<F: Folder>(folder: &mut F, table: &mut Table, root: &Text) -> Result<(), FolderFault>
    requires table { IsTable table.old }
    requires stands { Stands root.now (F.held folder.old) table.old.entries }
    ensures rest { table.new ≡ record table.old { entries = drop 1 table.old.entries } }
    ensures stands { Stands root.now (F.held folder.new) table.new.entries }
    ensures others { Turns (ButListed root.now table.old.entries) (F.held folder.old) (F.held folder.new) }
    ensures kept { Turns (Keeps root.now table.new.entries) (F.held folder.old) (F.held folder.new) }
    ensures exact { OnOk result (TurnsBy (without_each root.now (take 1 table.old.entries)) (F.held
        folder.old) (F.held folder.new)) }
    ensures removed { Turns OnlyRemoved (F.held folder.old) (F.held folder.new) }
    ensures counts { Counts result (F.held folder.old) (F.held folder.new) }
{
    let Some((key, _)) = table.take_first() else {
        return Ok(());
    };
    remove_file(folder, root, &key)
}

/// Drops the least recent entries and their files until the others fit a limit.
#[tactic(auto, using(folders::proofs::Exactly::none_removed))]
pub fn make_room<F: Folder>(
    folder: &mut F,
    table: &mut Table,
    root: &Text,
    limit: u64,
) -> Result<(), FolderFault>
    requires { Stands root.now (F.held folder.old) table.old.entries }
    ensures ok { OnOk result (table.new.entries ≡ trim limit table.old.entries) }
    ensures fits { OnOk result (total table.new.entries ≤ limit) }
    ensures drops { Drops root.now limit table.old table.new (F.held folder.old) (F.held folder.new) }
    ensures exact { OnOk result (TurnsBy (without_each root.now (dropped limit table.old.entries)) (F.held
        folder.old) (F.held folder.new)) }
    ensures removed { Turns OnlyRemoved (F.held folder.old) (F.held folder.new) }
    ensures counts { Counts result (F.held folder.old) (F.held folder.new) }
{
    while table.size() > limit {
        drop_first(folder, table, root)?;
    }
    Ok(())
}

/// The paths of the files that go from the front so that the entries beside a key fit a limit.
fn paths_to_drop(
    table: &Table,
    root: &Text,
    key: &Text,
    limit: u64,
) -> Result<Vec<Text>, AllocError>
    ensures { IfOk result (λ v. v.items ≡ paths_of root.now (dropped limit (without_key key.now
        table.now.entries))) }
{
    let mut paths = Vec::new(root.alloc());
    let _len = table.len();
    let mut rest = table.size_beside(key);
    for (listed, size) in table.iter() {
        if rest <= limit {
            return Ok(paths);
        }
        if key == listed {
            continue;
        }
        let path = path_of(root, listed)?;
        let Ok(()) = paths.push(path) else {
            return Err(AllocError);
        };
        rest -= *size;
    }
    Ok(paths)
}

/// Takes the least recent entries out, one a path, and removes the files at these.
fn drop_each<F: Folder>(
    folder: &mut F,
    table: &mut Table,
    paths: &[Text],
) -> Result<(), FolderFault>
    ensures found { ¬ (result ≡ Err FolderFault.Missing) }
    ensures capacity { table.new.capacity ≡ table.old.capacity }
    ensures cut { Cut result paths.now table.old.entries table.new.entries (F.held folder.old).files
        (F.held folder.new).files }
    ensures counts { Counts result (F.held folder.old) (F.held folder.new) }
    ensures failed { WhereTold (F.held folder.old) (F.failures folder.new ≡ removal_failed result (F.failures
        folder.old)) }
{
    for path in paths {
        let _entry = table.take_first();
        remove_at(folder, path.get())?;
    }
    Ok(())
}

/// Puts the file of a key that is awaited in its place. Where that fails the key is not listed.
#[tactic(auto, using(crate::proofs::Spared::all_same))]
fn place<F: Folder>(
    folder: &mut F,
    table: &mut Table,
    root: &Text,
    arrival: &Arrival,
    own: Text,
) -> Result<(), FolderFault>
    requires key { is_key arrival.now.key ≡ true }
    requires same { own ≡ arrival.now.key }
    requires path { arrival.now.path ≡ root.now ++ arrival.now.key }
    requires apart { bytes_eq arrival.now.path arrival.now.from ≡ false }
    requires awaits { table.old.entries ≡ awaited arrival.now.key table.old.entries }
    requires avoids { Avoids root.now arrival.now.from (without_key arrival.now.key table.old.entries) }
    requires absent { lookup (bytes_eq arrival.now.key) (without_key arrival.now.key table.old.entries)
        ≡ None }
    requires room { total (without_key arrival.now.key table.old.entries) + arrival.now.size
        ≤ table.old.capacity }
    requires stands { Stands root.now (F.held folder.old) (without_key arrival.now.key table.old.entries) }
    requires written { Holds (F.held folder.old)
        (λ files. size_at files arrival.now.from ≡ Some arrival.now.size) }
    ensures ok { OnOk result
        (table.new ≡ record table.old {
          entries = without_key arrival.now.key table.old.entries ++ (arrival.now.key, arrival.now.size)
              ∷ [];
        }) }
    ensures err { OnErr result
        (table.new ≡ record table.old { entries = without_key arrival.now.key table.old.entries }) }
    ensures stands { Stands root.now (F.held folder.new) table.new.entries }
    ensures content { OnOk result (Turns (λ old new. file_at new arrival.now.path ≡ file_at old
        arrival.now.from) (F.held folder.old) (F.held folder.new)) }
    ensures whole { Turns (OldOrMoved arrival.now.from arrival.now.path) (F.held folder.old) (F.held
        folder.new) }
    ensures others { Turns (ButUnderAnd root.now arrival.now.from) (F.held folder.old) (F.held folder.new) }
    ensures untouched { Turns (ButThese root.now arrival.now.from arrival.now.path (without_key
        arrival.now.key table.old.entries)) (F.held folder.old) (F.held folder.new) }
    ensures kept { Turns (Keeps root.now (without_key arrival.now.key table.old.entries)) (F.held folder.old)
        (F.held folder.new) }
    ensures exact { OnOk result (TurnsBy (moved arrival.now.from arrival.now.path) (F.held folder.old)
        (F.held folder.new)) }
    ensures removed { Turns (RemovedOrSame (IsNeither arrival.now.from arrival.now.path)) (F.held folder.old)
        (F.held folder.new) }
    ensures counts { Counts result (F.held folder.old) (F.held folder.new) }
    ensures failed { WhereTold (F.held folder.old) (TellsRename result (F.failures folder.old) (F.failures
        folder.new)) }
{
    match folder.rename(arrival.from.get(), arrival.path.get()) {
        Ok(()) => {
            table.arrive(own, arrival.size);
            Ok(())
        }
        Err(fault) => {
            table.unlist(&arrival.key);
            Err(fault)
        }
    }
}

/// Makes the directories above a file.
fn make_way<F: Folder>(folder: &mut F, path: &Text) -> Result<(), FolderFault>
    ensures files { (F.held folder.new).files ≡ (F.held folder.old).files }
    ensures counts { Counts result (F.held folder.old) (F.held folder.new) }
    ensures failed { WhereTold (F.held folder.old) (F.failures folder.new ≡ call_failed result (F.failures
        folder.old)) }
{
    folder.make_parents(path.get())
}

/// Makes the directories above a file and writes the temporary one.
pub fn write_temp<F: Folder>(
    folder: &mut F,
    path: &Text,
    temp: &Text,
    bytes: &[u8],
) -> Result<(), FolderFault>
    ensures written { OnOk result
        (Holds (F.held folder.new) (λ files. file_at files temp.now ≡ Some bytes.now)) }
    ensures others { Turns (ButAt temp.now) (F.held folder.old) (F.held folder.new) }
    ensures exact { OnOk result (TurnsBy (put temp.now bytes.now) (F.held folder.old) (F.held folder.new)) }
    ensures counts { Counts result (F.held folder.old) (F.held folder.new) }
    ensures failed { WhereTold (F.held folder.old) (F.failures folder.new ≡ call_failed result (F.failures
        folder.old)) }
{
    make_way(folder, path)?;
    folder.write(temp.get(), bytes)
}

/// Takes the key out, makes room, and puts the file in its place. All memory of its own is taken before that.
#[tactic(auto, using(crate::proofs::Spared::all_same))]
pub fn fill<F: Folder>(
    folder: &mut F,
    table: &mut Table,
    root: &Text,
    arrival: &Arrival,
) -> Result<(), FolderFault>
    requires key { is_key arrival.now.key ≡ true }
    requires path { arrival.now.path ≡ root.now ++ arrival.now.key }
    requires apart { bytes_eq arrival.now.path arrival.now.from ≡ false }
    requires avoids { Avoids root.now arrival.now.from table.old.entries }
    requires fits { arrival.now.limit + arrival.now.size ≤ table.old.capacity }
    requires stands { Stands root.now (F.held folder.old) table.old.entries }
    requires written { Holds (F.held folder.old)
        (λ files. size_at files arrival.now.from ≡ Some arrival.now.size) }
    ensures ok { OnOk result
        (table.new ≡ record table.old {
          entries = stored arrival.now.key arrival.now.size arrival.now.limit
              table.old.entries;
        }) }
    ensures err { OnErr result ((table.new.capacity ≡ table.old.capacity)
        × Left arrival.now.key arrival.now.limit table.old.entries table.new.entries) }
    ensures stands { Stands root.now (F.held folder.new) table.new.entries }
    ensures content { OnOk result (Turns (λ old new. file_at new arrival.now.path ≡ file_at old
        arrival.now.from) (F.held folder.old) (F.held folder.new)) }
    ensures whole { Turns (OldOrMoved arrival.now.from arrival.now.path) (F.held folder.old) (F.held
        folder.new) }
    ensures others { Turns (ButUnderAnd root.now arrival.now.from) (F.held folder.old) (F.held folder.new) }
    ensures untouched { Turns (ButThese root.now arrival.now.from arrival.now.path table.old.entries) (F.held
        folder.old) (F.held folder.new) }
    ensures kept { OnOk result (Turns (Keeps root.now (staying arrival.now.key arrival.now.limit
        table.old.entries)) (F.held folder.old) (F.held folder.new)) }
    ensures left { OnErr result (Turns (Keeps root.now table.new.entries) (F.held folder.old) (F.held
        folder.new)) }
    ensures exact { OnOk result (TurnsBy (files_placed root.now arrival.now.from arrival.now.path (dropped
        arrival.now.limit (without_key arrival.now.key table.old.entries))) (F.held folder.old) (F.held
        folder.new)) }
    ensures removed { Turns (RemovedOrSame (IsNeither arrival.now.from arrival.now.path)) (F.held folder.old)
        (F.held folder.new) }
    ensures counts { Counts result (F.held folder.old) (F.held folder.new) }
    ensures failed { WhereTold (F.held folder.old) (ToldStored result arrival.now.key arrival.now.limit
        table.old.entries table.new.entries (F.failures folder.old) (F.failures folder.new)) }
{
    let alloc = root.alloc();
    let listed = arrival.key.copy(alloc)?;
    let own = arrival.key.copy(alloc)?;
    let paths = paths_to_drop(table, root, &arrival.key, arrival.limit)?;
    let Ok(()) = table.await_key(listed) else {
        return Err(FolderFault::Memory);
    };
    match drop_each(folder, table, &paths) {
        Ok(()) => place(folder, table, root, arrival, own),
        Err(fault) => {
            table.unlist(&arrival.key);
            Err(fault)
        }
    }
}

/// Stores bytes under a key: writes them to a temporary file, takes the key out, makes room, and puts the
/// file in its place.
pub fn store<F: Folder>(
    folder: &mut F,
    table: &mut Table,
    root: &Text,
    arrival: &Arrival,
    bytes: &[u8],
) -> Result<(), FolderFault>
    requires key { is_key arrival.now.key ≡ true }
    requires path { arrival.now.path ≡ root.now ++ arrival.now.key }
    requires temp { IsKeyless root.now arrival.now.from }
    requires size { arrival.now.size ≡ length bytes.now }
    requires fits { arrival.now.limit + arrival.now.size ≤ table.old.capacity }
    requires stands { Stands root.now (F.held folder.old) table.old.entries }
    ensures ok { OnOk result
        (table.new ≡ record table.old {
          entries = stored arrival.now.key arrival.now.size arrival.now.limit
              table.old.entries;
        }) }
    ensures err { OnErr result ((table.new.capacity ≡ table.old.capacity)
        × Left arrival.now.key arrival.now.limit table.old.entries table.new.entries) }
    ensures stands { Stands root.now (F.held folder.new) table.new.entries }
    ensures content { OnOk result
        (Holds (F.held folder.new) (λ files. file_at files arrival.now.path ≡ Some bytes.now)) }
    ensures whole { Turns (OldOr arrival.now.path bytes.now) (F.held folder.old) (F.held folder.new) }
    ensures others { Turns (ButUnder root.now) (F.held folder.old) (F.held folder.new) }
    ensures untouched { Turns (ButThese root.now arrival.now.from arrival.now.path table.old.entries) (F.held
        folder.old) (F.held folder.new) }
    ensures kept { OnOk result (Turns (Keeps root.now (staying arrival.now.key arrival.now.limit
        table.old.entries)) (F.held folder.old) (F.held folder.new)) }
    ensures left { OnErr result (Turns (Keeps root.now table.new.entries) (F.held folder.old) (F.held
        folder.new)) }
    ensures exact { OnOk result (TurnsBy (files_stored root.now arrival.now.from arrival.now.path bytes.now
        (dropped arrival.now.limit (without_key arrival.now.key table.old.entries))) (F.held folder.old)
        (F.held folder.new)) }
    ensures removed { Turns (RemovedOrSame (IsNeither arrival.now.from arrival.now.path)) (F.held folder.old)
        (F.held folder.new) }
    ensures counts { Counts result (F.held folder.old) (F.held folder.new) }
    ensures failed { WhereTold (F.held folder.old) (ToldStored result arrival.now.key arrival.now.limit
        table.old.entries table.new.entries (F.failures folder.old) (F.failures folder.new)) }
{
    write_temp(folder, &arrival.path, &arrival.from, bytes)?;
    fill(folder, table, root, arrival)
}

/// Writes an empty temporary file, and drops the least recent entries and their files until the others fit.
pub fn announce<F: Folder>(
    folder: &mut F,
    table: &mut Table,
    root: &Text,
    arrival: &Arrival,
) -> Result<(), FolderFault>
    requires temp { IsKeyless root.now arrival.now.from }
    requires stands { Stands root.now (F.held folder.old) table.old.entries }
    ensures ok { OnOk result (table.new.entries ≡ trim arrival.now.limit table.old.entries) }
    ensures fits { OnOk result (total table.new.entries ≤ arrival.now.limit) }
    ensures capacity { table.new.capacity ≡ table.old.capacity }
    ensures room { IsEnd table.new.entries table.old.entries
        × (trim arrival.now.limit table.new.entries ≡ trim arrival.now.limit table.old.entries) }
    ensures stands { Stands root.now (F.held folder.new) table.new.entries }
    ensures there { OnOk result
        (Holds (F.held folder.new) (λ files. file_at files arrival.now.from ≡ Some [])) }
    ensures others { Turns (ButUnder root.now) (F.held folder.old) (F.held folder.new) }
    ensures untouched { Turns (ButThese root.now arrival.now.from arrival.now.from table.old.entries) (F.held
        folder.old) (F.held folder.new) }
    ensures kept { Turns (Keeps root.now table.new.entries) (F.held folder.old) (F.held folder.new) }
    ensures exact { OnOk result (TurnsBy (files_prepared root.now arrival.now.from (dropped arrival.now.limit
        table.old.entries)) (F.held folder.old) (F.held folder.new)) }
    ensures removed { Turns (RemovedOrSame (IsNeither arrival.now.from arrival.now.from)) (F.held folder.old)
        (F.held folder.new) }
    ensures counts { Counts result (F.held folder.old) (F.held folder.new) }
{
    write_temp(folder, &arrival.path, &arrival.from, &[])?;
    make_room(folder, table, root, arrival.limit)
}

/// Makes the directories above the file of a key, takes the key out, makes room, and moves a file there.
pub fn move_in<F: Folder>(
    folder: &mut F,
    table: &mut Table,
    root: &Text,
    arrival: &Arrival,
) -> Result<(), FolderFault>
    requires key { is_key arrival.now.key ≡ true }
    requires path { arrival.now.path ≡ root.now ++ arrival.now.key }
    requires apart { bytes_eq arrival.now.path arrival.now.from ≡ false }
    requires avoids { Avoids root.now arrival.now.from table.old.entries }
    requires fits { arrival.now.limit + arrival.now.size ≤ table.old.capacity }
    requires stands { Stands root.now (F.held folder.old) table.old.entries }
    requires written { Holds (F.held folder.old)
        (λ files. size_at files arrival.now.from ≡ Some arrival.now.size) }
    ensures ok { OnOk result
        (table.new ≡ record table.old {
          entries = stored arrival.now.key arrival.now.size arrival.now.limit
              table.old.entries;
        }) }
    ensures err { OnErr result ((table.new.capacity ≡ table.old.capacity)
        × Left arrival.now.key arrival.now.limit table.old.entries table.new.entries) }
    ensures stands { Stands root.now (F.held folder.new) table.new.entries }
    ensures content { OnOk result (Turns (λ old new. file_at new arrival.now.path ≡ file_at old
        arrival.now.from) (F.held folder.old) (F.held folder.new)) }
    ensures whole { Turns (OldOrMoved arrival.now.from arrival.now.path) (F.held folder.old) (F.held
        folder.new) }
    ensures others { Turns (ButUnderAnd root.now arrival.now.from) (F.held folder.old) (F.held folder.new) }
    ensures untouched { Turns (ButThese root.now arrival.now.from arrival.now.path table.old.entries) (F.held
        folder.old) (F.held folder.new) }
    ensures kept { OnOk result (Turns (Keeps root.now (staying arrival.now.key arrival.now.limit
        table.old.entries)) (F.held folder.old) (F.held folder.new)) }
    ensures left { OnErr result (Turns (Keeps root.now table.new.entries) (F.held folder.old) (F.held
        folder.new)) }
    ensures exact { OnOk result (TurnsBy (files_placed root.now arrival.now.from arrival.now.path (dropped
        arrival.now.limit (without_key arrival.now.key table.old.entries))) (F.held folder.old) (F.held
        folder.new)) }
    ensures removed { Turns (RemovedOrSame (IsNeither arrival.now.from arrival.now.path)) (F.held folder.old)
        (F.held folder.new) }
    ensures counts { Counts result (F.held folder.old) (F.held folder.new) }
    ensures failed { WhereTold (F.held folder.old) (ToldStored result arrival.now.key arrival.now.limit
        table.old.entries table.new.entries (F.failures folder.old) (F.failures folder.new)) }
{
    make_way(folder, &arrival.path)?;
    fill(folder, table, root, arrival)
}

/// Makes a file the most recent and reads it. It is there.
pub fn fetch<F: Folder>(folder: &mut F, path: &Text) -> Result<Vec<u8>, FolderFault>
    requires { Holds (F.held folder.old) (λ files. ¬ (Lacks path.now files)) }
    ensures content { IfOk result
        (λ v. Holds (F.held folder.old) (λ files. file_at files path.now ≡ Some v.items)) }
    ensures others { Turns SameAt (F.held folder.old) (F.held folder.new) }
    ensures exact { OnOk result (TurnsBy (touched path.now) (F.held folder.old) (F.held folder.new)) }
    ensures counts { Counts result (F.held folder.old) (F.held folder.new) }
{
    folder.touch(path.get())?;
    folder.read(path.get())
}
