//! The opening of a disk cache: what is found is sorted out, the least recent go until the rest fits, and the
//! rest is listed.
ghost use Rattle.std.specs.Prelude.{◌≡◌, ◌+◌, ◌≤◌, ◌++◌, ◌∷◌, [], length, drop, Err, IfOk, OnOk};
ghost use Rattle.std.specs.List.{IsDistinct};
ghost use Rattle.std.specs.Map.{keys_of, remove_entry};
ghost use Rattle.std.specs.Option.{option_copied};
ghost use Rattle.std.specs.Str.{bytes_eq};
ghost use Rattle.folders.specs.Files.{front};
ghost use Rattle.folders.specs.Held.{Holds};
ghost use Rattle.listed_files.specs.Entries.{Entries, total, trim};
ghost use Rattle.listed_files.specs.Disk.{Turns};
ghost use Rattle.listed_files.specs.Disk.{Stands, AllKeys, Keeps};
ghost use Rattle.folders.specs.Changed.{OnlyRemoved, ButUnder, RemovedUnder, Counts};
ghost use Rattle.listed_files.specs.Opened.{stripped, keyed, kept, opened, Shows, InStep, KeepsKept};
ghost use Rattle.listed_files.specs.Opened.{KeepsOpened};

use crate::key::is_key;
use crate::storing::remove_file;
use crate::table::Table;
use dist_types::text::Text;
use folders::fault::FolderFault;
use folders::folder::{Folder, Found};
use std::alloc::Global;

/// What follows the root in a path.
#[tactic(auto, using(crate::proofs::Strips::strips))]
fn stripped<'a>(root: &str, path: &'a str) -> Option<&'a str>
    ensures { option_copied result ≡ stripped root.now path.now }
{
    path.strip_prefix(root)
}

/// Keeps a file that was found, where its key is one and its size is within the capacity, and else removes
/// it.
#[tactic(auto, using(folders::proofs::Removals::none_spared, folders::proofs::Removals::spared_at, crate::proofs::Keeping::none_out_kept))]
fn sort_one<F: Folder>(
    folder: &mut F,
    root: &Text,
    capacity: u64,
    file: &Found,
    good: &mut Vec<(Text, u64)>,
) -> Result<(), FolderFault>
    ensures list { OnOk result (good.new.items ≡ good.old.items ++ kept root.now capacity (file.now ∷ [])) }
    ensures shows { (rest : Entries) → Shows root.now (F.held folder.old)
        (good.old.items ++ (keyed root.now (file.now ∷ []) ++ rest))
        → OnOk result (Shows root.now (F.held folder.new) (good.new.items ++ rest)) }
    ensures keeps { (rest : Entries) → Shows root.now (F.held folder.old) (good.old.items ++ (keyed root.now
        (file.now ∷ []) ++ rest)) → Turns (KeepsKept root.now capacity) (F.held folder.old) (F.held
        folder.new) }
    ensures found { ¬ (result ≡ Err FolderFault.Missing) }
    ensures removed { OnOk result (Turns OnlyRemoved (F.held folder.old) (F.held folder.new)) }
    ensures others { OnOk result (Turns (ButUnder root.now) (F.held folder.old) (F.held folder.new)) }
    ensures spares { Turns (RemovedUnder root.now) (F.held folder.old) (F.held folder.new) }
    ensures counts { Counts result (F.held folder.old) (F.held folder.new) }
{
    let Some(key) = stripped(root.get(), file.path.get()) else {
        return Ok(());
    };
    let key = Text::of(root.alloc(), key)?;
    if !is_key(key.get()) {
        return remove_file(folder, root, &key);
    }
    if file.size > capacity {
        return remove_file(folder, root, &key);
    }
    let Ok(()) = good.push((key, file.size)) else {
        return Err(FolderFault::Memory);
    };
    Ok(())
}

/// Sorts out all files that were found.
#[tactic(auto, using(folders::proofs::Removals::spared_both))]
fn sort_out<F: Folder>(
    folder: &mut F,
    root: &Text,
    capacity: u64,
    found: &[Found],
    good: &mut Vec<(Text, u64)>,
) -> Result<(), FolderFault>
    requires { Shows root.now (F.held folder.old) (good.old.items ++ keyed root.now found.now) }
    ensures list { OnOk result (good.new.items ≡ good.old.items ++ kept root.now capacity found.now) }
    ensures shows { OnOk result (Shows root.now (F.held folder.new) good.new.items) }
    ensures keeps { Turns (KeepsKept root.now capacity) (F.held folder.old) (F.held folder.new) }
    ensures found { ¬ (result ≡ Err FolderFault.Missing) }
    ensures removed { OnOk result (Turns OnlyRemoved (F.held folder.old) (F.held folder.new)) }
    ensures others { OnOk result (Turns (ButUnder root.now) (F.held folder.old) (F.held folder.new)) }
    ensures spares { Turns (RemovedUnder root.now) (F.held folder.old) (F.held folder.new) }
    ensures counts { Counts result (F.held folder.old) (F.held folder.new) }
{
    for file in found {
        sort_one(folder, root, capacity, file, good)?;
    }
    Ok(())
}

/// Where the longest end begins whose sizes fit. It adds up from the end, so no sum passes the capacity.
fn first_kept(good: &[(Text, u64)], capacity: u64) -> usize
    ensures within { result ≤ length good.now }
    ensures rest { drop result good.now ≡ trim capacity good.now }
{
    let mut first = good.len();
    let mut room = capacity;
    while first > 0 {
        let size = good[first - 1].1;
        if size > room {
            return first;
        }
        room -= size;
        first -= 1;
    }
    first
}

/// Removes the least recent files until the sizes of the others fit. Gives the others.
fn drop_old<'a, F: Folder>(
    folder: &mut F,
    root: &Text,
    capacity: u64,
    good: &'a [(Text, u64)],
) -> Result<&'a [(Text, u64)], FolderFault>
    requires { Shows root.now (F.held folder.old) good.now }
    ensures list { IfOk result (λ r. r.now ≡ trim capacity good.now) }
    ensures shows { IfOk result (λ r. Shows root.now (F.held folder.new) r.now) }
    ensures keeps { Turns (Keeps root.now (trim capacity good.now)) (F.held folder.old) (F.held folder.new) }
    ensures found { ¬ (result ≡ Err FolderFault.Missing) }
    ensures removed { OnOk result (Turns OnlyRemoved (F.held folder.old) (F.held folder.new)) }
    ensures others { OnOk result (Turns (ButUnder root.now) (F.held folder.old) (F.held folder.new)) }
    ensures spares { Turns (RemovedUnder root.now) (F.held folder.old) (F.held folder.new) }
    ensures counts { Counts result (F.held folder.old) (F.held folder.new) }
{
    let first = first_kept(good, capacity);
    for (key, _size) in &good[..first] {
        remove_file(folder, root, key)?;
    }
    Ok(&good[first..])
}

/// Lists a key as the most recent. It fits.
fn list_one(alloc: Global, table: &mut Table, key: &Text, size: u64) -> Result<(), FolderFault>
    requires { total table.old.entries + size ≤ table.old.capacity }
    ensures { OnOk result (table.new ≡ record table.old {
      entries = remove_entry
          (bytes_eq key.now) table.old.entries ++ (key.now, size) ∷ [];
    }) }
{
    let listed = Text::of(alloc, key.get())?;
    table.unlist(key);
    let Ok(()) = table.push(listed, size) else {
        return Err(FolderFault::Memory);
    };
    Ok(())
}

/// Lists what fits, in its order.
fn list_all(alloc: Global, table: &mut Table, good: &[(Text, u64)]) -> Result<(), FolderFault>
    requires { total table.old.entries + total good.now ≤ table.old.capacity }
    ensures capacity { OnOk result (table.new.capacity ≡ table.old.capacity) }
    ensures list { OnOk result (IsDistinct bytes_eq (keys_of (table.old.entries ++ good.now))
        → table.new.entries ≡ table.old.entries ++ good.now) }
    ensures keys { OnOk result (AllKeys table.old.entries → AllKeys good.now → AllKeys table.new.entries) }
{
    for (key, size) in good {
        list_one(alloc, table, key, *size)?;
    }
    Ok(())
}

/// Opens a cache: lists the files under a root, removes those that are no key's or too large, and the least
/// recent where the others exceed the capacity.
pub fn open<F: Folder>(
    folder: &mut F,
    path: &Text,
    root: &Text,
    capacity: u64,
) -> Result<Table, FolderFault>
    requires { root.now ≡ front path.now }
    ensures capacity { IfOk result (λ t. t.capacity ≡ capacity) }
    ensures opened { IfOk result
        (λ t. Holds (F.held folder.old) (λ files. t.entries ≡ opened root.now capacity files)) }
    ensures in_step { IfOk result
        (λ t. Holds (F.held folder.new) (λ files. InStep root.now files t.entries)) }
    ensures stands { IfOk result (λ t. Stands root.now (F.held folder.new) t.entries) }
    ensures cleared { IfOk result (λ t. Shows root.now (F.held folder.new) t.entries) }
    ensures keeps { Turns (KeepsOpened root.now capacity) (F.held folder.old) (F.held folder.new) }
    ensures removed { OnOk result (Turns OnlyRemoved (F.held folder.old) (F.held folder.new)) }
    ensures others { OnOk result (Turns (ButUnder root.now) (F.held folder.old) (F.held folder.new)) }
    ensures spares { Turns (RemovedUnder root.now) (F.held folder.old) (F.held folder.new) }
    ensures counts { Counts result (F.held folder.old) (F.held folder.new) }
{
    let alloc = root.alloc();
    let found = folder.list(path.get())?;
    let mut good = Vec::new(alloc);
    sort_out(folder, root, capacity, &found, &mut good)?;
    let rest = drop_old(folder, root, capacity, &good)?;
    let Ok(mut table) = Table::new(alloc, capacity) else {
        return Err(FolderFault::Memory);
    };
    let Ok(()) = list_all(alloc, &mut table, rest) else {
        return Err(FolderFault::Memory);
    };
    Ok(table)
}
