//! Storing a file of the folder, and what a closure writes.
ghost use Rattle.std.specs.Prelude.{◌≡◌, ◌++◌, ◌≤◌, length, false, is_some, if◌then◌else◌, string_bytes};
ghost use Rattle.std.specs.Prelude.{Some, None, Ok, IsSome, IfOk, IfErr, OnOk, OnErr};
ghost use Rattle.std.specs.Fn.{FnOnceReturnsAtMut};
ghost use Rattle.std.specs.Map.{lookup};
ghost use Rattle.std.specs.Option.{option_map};
ghost use Rattle.std.specs.Str.{bytes_eq};
ghost use Rattle.folders.specs.Files.{file_at, touched};
ghost use Rattle.folders.specs.Failures.{WhereTold};
ghost use Rattle.folders.specs.Held.{Holds};
ghost use Rattle.listed_files.specs.Key.{names_temporary};
ghost use Rattle.folders.specs.Changed.{RemovedOrSame, IsNeither};
ghost use Rattle.listed_files.specs.Disk.{IsBeside};
ghost use Rattle.listed_files.specs.Disk.{Avoids, ButInsert, Keeps, KeepsSpoiled, dropped};
ghost use Rattle.folders.specs.Changed.{ButUnderAnd, ButUnder, SameAt};
ghost use Rattle.listed_files.specs.Disk.{files_placed, without_key};
ghost use Rattle.lru_disk_cache.specs.Reserved.{KeepsReserved};
ghost use Rattle.folders.specs.Whole.{OldOrMoved, OldOrWritten};
ghost use Rattle.lru_disk_cache.specs.Moving.{IsSized, MoveFails, Wrote, WroteSize, WriterFails, WithFails};
ghost use Rattle.listed_files.specs.Told.{ToldSized};

use crate::cache::{LruDiskCache, arrival_from};
use crate::error::{Error, Result, WriteFault, io};
use crate::reading::Opened;
use dist_types::text::Text;
use folders::folder::Folder;
use listed_files::key::{is_key, path_of};
use listed_files::storing::move_in;
use std::alloc::Global;

impl<F: Folder> LruDiskCache<F> {
    ghost use Rattle.lru_disk_cache.specs.Store.{KeepsInStep, Leaves, Makes};
    ghost use Rattle.lru_disk_cache.specs.Store.{IsStore, inserted, looked_up, room_beside};
    ghost use Rattle.lru_disk_cache.specs.Store.{insert_verdict, LookUpFails};
    ghost use Rattle.listed_files.specs.Calls.{Uncounted};
    ghost use Rattle.lru_disk_cache.specs.Spoiling.{MaySpoil};

    /// Stores a file of the folder under a key, as the most recent, by renaming it. The least recent go where
    /// they have to, and their files. Its path is neither that of the key's file nor of a listed key's, and
    /// its last part does not begin with `.sccachetmp`.
    ///
    /// Refused as `Error::BadKey`; as `Error::Io` with `FolderFault::Missing` where there is no such file; as
    /// `Error::FileTooLarge` and `Error::PendingSpace`, in this order, which leave all as it was; then as
    /// `Error::Io` or for want of memory, which leave the list as it was, or the key out and some of the
    /// least recent gone, none more than had to go; where files are told the folder's counts tell which, as
    /// for `insert_bytes`. The file of the key is as it was or has all the bytes of that file.
    #[tactic(auto, using(listed_files::proofs::Spared::all_same, listed_files::proofs::Standing::none_lost, crate::proofs::Reserving::none_reserved, crate::proofs::Spoiled::none_spoiled))]
    pub fn insert_file(&mut self, key: &str, path: &str) -> Result<()>
        requires apart { bytes_eq (self.old.disk.root ++ key.now) path.now ≡ false }
        requires avoids { Avoids self.old.disk.root path.now self.old.disk.entries }
        requires named { names_temporary path.now ≡ false }
        ensures ok { OnOk result ((n : _) × IsSized path.now (F.held self.old.folder) n × (insert_verdict
            self.old.disk key.now n ≡ Ok tt) × (self.new.disk ≡ inserted self.old.disk key.now n) × Makes
            F.held (files_placed self.old.disk.root path.now (self.old.disk.root ++ key.now) (dropped
            (room_beside self.old.disk n) (without_key key.now self.old.disk.entries))) self.old self.new) }
        ensures content { OnOk result (Leaves F.held (λ old new. file_at new (self.old.disk.root ++ key.now)
            ≡ file_at old path.now) self.old self.new) }
        ensures whole { Leaves F.held (OldOrMoved path.now (self.old.disk.root ++ key.now)) self.old self.new }
        ensures fails { IfErr result (λ e. MoveFails key.now path.now e self.old.disk self.new.disk
            (F.held self.old.folder) (F.held self.new.folder)) }
        ensures failed { WhereTold (F.held self.old.folder) (ToldSized result key.now (room_beside
            self.old.disk) (IsSized path.now (F.held self.old.folder)) self.old.disk.entries
            self.new.disk.entries (F.failures self.old.folder) (F.failures self.new.folder)) }
        ensures left { OnErr result (Leaves F.held (Keeps self.old.disk.root self.new.disk.entries) self.old
            self.new) }
        ensures reserved { Leaves F.held (KeepsReserved self.old.disk.pending) self.old self.new }
        ensures others { Leaves F.held (ButUnderAnd self.old.disk.root path.now) self.old self.new }
        ensures removed { Leaves F.held (RemovedOrSame (IsNeither path.now (self.old.disk.root ++ key.now)))
            self.old self.new }
        ensures steady { OnOk result ((F.held self.new.folder).faults ≡ (F.held self.old.folder).faults) }
        ensures uncounted { IfErr result
            (λ e. Uncounted e (F.held self.old.folder) (F.held self.new.folder)) }
        ensures later { (F.held self.old.folder).faults ≤ (F.held self.new.folder).faults }
        ensures in_step { KeepsInStep F.held result self.old self.new }
        ensures stays { Leaves F.held (KeepsSpoiled self.old.disk.root self.old.spoiled) self.old self.new }
        ensures unspoiled { self.new.spoiled ≡ self.old.spoiled }
        ensures stands { IsStore (F.held self.new.folder) self.new.disk }
    {
        self.shown();
        if !is_key(key) {
            return Err(Error::BadKey);
        }
        let size = match self.path_size(path) {
            Ok(size) => size,
            Err(error) => return Err(error),
        };
        match self.admit(key, size) {
            Ok(()) => {}
            Err(refusal) => return Err(refusal),
        }
        let limit = self.room_beside(size);
        let Ok(from) = Text::of(self.alloc, path) else {
            return Err(Error::Memory);
        };
        let Ok(arrival) = arrival_from(&self.root, from, key, size, limit) else {
            return Err(Error::Memory);
        };
        match move_in(&mut self.folder, &mut self.table, &self.root, &arrival) {
            Ok(()) => Ok(()),
            Err(fault) => Err(io(fault)),
        }
    }

    /// Stores what a closure writes under a key, as `insert_bytes` stores bytes. The closure is called once,
    /// with an empty vector.
    ///
    /// Refused as `Error::BadKey`, before the closure is called; as `Error::WriterRefused` exactly where the
    /// closure refuses, which leaves all as it was; then as `insert_bytes` is.
    #[tactic(auto, using(listed_files::proofs::Spared::all_same))]
    pub fn insert_with<W: FnOnce(&mut Vec<u8>) -> std::result::Result<(), WriteFault>>(
        &mut self,
        key: &str,
        with: W,
    ) -> Result<()>
        requires { W.IsAlwaysCallable with }
        ensures ok { OnOk result ((bytes : _) × Wrote W.FnOnce (λ v. v.items) with (Ok tt) bytes
            × (insert_verdict self.old.disk key.now (length bytes) ≡ Ok tt)
            × (self.new.disk ≡ inserted self.old.disk key.now (length bytes)) × Holds (F.held self.new.folder)
            (λ files. file_at files (self.old.disk.root ++ key.now) ≡ Some bytes)) }
        ensures whole { Leaves F.held (OldOrWritten (Wrote W.FnOnce (λ v. v.items) with (Ok tt))
            (self.old.disk.root ++ key.now)) self.old self.new }
        ensures fails { IfErr result
            (λ e. WithFails (Wrote W.FnOnce (λ v. v.items) with) key.now e self.old.disk self.new.disk
            (F.held self.old.folder) (F.held self.new.folder)) }
        ensures failed { WhereTold (F.held self.old.folder) (ToldSized result key.now (room_beside
            self.old.disk) (WroteSize (Wrote W.FnOnce (λ v. v.items) with)) self.old.disk.entries
            self.new.disk.entries (F.failures self.old.folder) (F.failures self.new.folder)) }
        ensures left { OnErr result (Leaves F.held (Keeps self.old.disk.root self.new.disk.entries) self.old
            self.new) }
        ensures reserved { Leaves F.held (KeepsReserved self.old.disk.pending) self.old self.new }
        ensures others { Leaves F.held (ButUnder self.old.disk.root) self.old self.new }
        ensures removed { Leaves F.held (RemovedOrSame (IsBeside self.old.disk.root (self.old.disk.root ++
            key.now))) self.old self.new }
        ensures steady { OnOk result ((F.held self.new.folder).faults ≡ (F.held self.old.folder).faults) }
        ensures uncounted { IfErr result
            (λ e. Uncounted e (F.held self.old.folder) (F.held self.new.folder)) }
        ensures later { (F.held self.old.folder).faults ≤ (F.held self.new.folder).faults }
        ensures in_step { KeepsInStep F.held result self.old self.new }
        ensures stays { Leaves F.held (ButInsert self.old.disk.root self.old.spoiled) self.old self.new }
        ensures unspoiled { OnOk result (self.new.spoiled ≡ self.old.spoiled) }
        ensures spoils { IfErr result (λ e. MaySpoil e self.old.spoiled self.new.spoiled
            (F.held self.old.folder) (F.held self.new.folder)) }
        ensures stands { IsStore (F.held self.new.folder) self.new.disk }
    {
        self.shown();
        if !is_key(key) {
            return Err(Error::BadKey);
        }
        match written(self.alloc, with) {
            Ok(bytes) => self.insert_bytes(key, &bytes),
            Err(error) => Err(error),
        }
    }

    /// The file of a key, opened for reading. The key becomes the most recent.
    ///
    /// Refused as `get_file` is.
    pub fn get(&mut self, key: &str) -> Result<Opened>
        ensures ok { OnOk result (self.new.disk ≡ looked_up self.old.disk key.now) }
        ensures found { OnOk result (IsSome (lookup (bytes_eq key.now) self.old.disk.entries)) }
        ensures content { IfOk result
            (λ o. Holds (F.held self.old.folder)
            (λ files. file_at files (self.old.disk.root ++ key.now) ≡ Some o.content)) }
        ensures place { IfOk result (λ o. o.place ≡ 0) }
        ensures fails { IfErr result
            (λ e. LookUpFails key.now e self.old.disk self.new.disk (F.held self.old.folder)
            (F.held self.new.folder)) }
        ensures others { Leaves F.held SameAt self.old self.new }
        ensures exact { OnOk result (Makes F.held (touched (self.old.disk.root ++ key.now)) self.old
            self.new) }
        ensures steady { OnOk result ((F.held self.new.folder).faults ≡ (F.held self.old.folder).faults) }
        ensures uncounted { IfErr result
            (λ e. Uncounted e (F.held self.old.folder) (F.held self.new.folder)) }
        ensures later { (F.held self.old.folder).faults ≤ (F.held self.new.folder).faults }
        ensures in_step { KeepsInStep F.held result self.old self.new }
        ensures unspoiled { self.new.spoiled ≡ self.old.spoiled }
        ensures stands { IsStore (F.held self.new.folder) self.new.disk }
    {
        match self.get_file(key) {
            Ok(bytes) => Ok(Opened::new(bytes)),
            Err(error) => Err(error),
        }
    }

    /// The path of the file of a key in the folder, where the key is listed. The key becomes the most recent
    /// in the list; the folder is not asked.
    ///
    /// Refused for want of memory alone, only where the key is listed, which leaves all as it was.
    pub fn get_abs_path(&mut self, key: &str) -> Result<Option<String>>
        ensures found { IfOk result
            (λ o. option_map string_bytes o ≡ (if is_some (lookup (bytes_eq key.now) self.old.disk.entries)
            then Some (self.old.disk.root ++ key.now) else None)) }
        ensures ok { OnOk result (self.new.disk ≡ looked_up self.old.disk key.now) }
        ensures fails { IfErr result (λ e. (e ≡ Error.Memory) × (self.new.disk ≡ self.old.disk)
            × IsSome (lookup (bytes_eq key.now) self.old.disk.entries)) }
        ensures folder { F.held self.new.folder ≡ F.held self.old.folder }
        ensures unspoiled { self.new.spoiled ≡ self.old.spoiled }
        ensures stands { IsStore (F.held self.new.folder) self.new.disk }
    {
        let Ok(key) = Text::of(self.alloc, key) else {
            if !self.table.has(key) {
                return Ok(None);
            }
            return Err(Error::Memory);
        };
        if !self.table.contains(&key) {
            return Ok(None);
        }
        let Ok(path) = path_of(&self.root, &key) else {
            return Err(Error::Memory);
        };
        self.table.promote(&key);
        Ok(Some(path.into_inner()))
    }
}

/// What a closure writes. It is called once, with an empty vector.
pub fn written<W: FnOnce(&mut Vec<u8>) -> std::result::Result<(), WriteFault>>(
    alloc: Global,
    with: W,
) -> Result<Vec<u8>>
    requires { W.IsAlwaysCallable with }
    ensures ok { IfOk result (λ b. Wrote W.FnOnce (λ v. v.items) with (Ok tt) b.items) }
    ensures fails { IfErr result (λ e. WriterFails (Wrote W.FnOnce (λ v. v.items) with) e) }
{
    let mut bytes = Vec::new(alloc);
    match write_into(&mut bytes, with) {
        Ok(()) => Ok(bytes),
        Err(WriteFault::Refused) => Err(Error::WriterRefused),
        Err(WriteFault::Memory) => Err(Error::Memory),
    }
}

// Calls a closure on a vector.
fn write_into<W: FnOnce(&mut Vec<u8>) -> std::result::Result<(), WriteFault>>(
    out: &mut Vec<u8>,
    with: W,
) -> std::result::Result<(), WriteFault>
    requires { W.IsAlwaysCallable with }
    ensures { FnOnceReturnsAtMut W.FnOnce with out.old result out.new }
{
    with(out)
}
