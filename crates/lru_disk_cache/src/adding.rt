//! Reservations: entries that are announced, written and then committed or abandoned.
ghost use Rattle.std.specs.Prelude.{◌≡◌, ◌+◌, ◌++◌, ◌≤◌, ◌⊎◌, [], true, Some, Ok, Err, IfOk, IfErr, OnOk};
ghost use Rattle.std.specs.Prelude.{OnErr};
ghost use Rattle.folders.specs.Files.{file_at, without, appended, PartAppended};
ghost use Rattle.folders.specs.Failures.{WhereTold};
ghost use Rattle.folders.specs.Held.{Holds, Lacks};
ghost use Rattle.listed_files.specs.Key.{is_key};
ghost use Rattle.folders.specs.Changed.{RemovedOrSame, IsNeither, OnlyRemoved};
ghost use Rattle.listed_files.specs.Disk.{IsNoTemp};
ghost use Rattle.folders.specs.Changed.{ButAt, ButUnder};
ghost use Rattle.listed_files.specs.Disk.{Keeps, KeepsSpoiled, dropped, files_placed, without_key};
ghost use Rattle.lru_disk_cache.specs.Reserved.{held_size, is_pending, without_number, IsLeastFree};
ghost use Rattle.lru_disk_cache.specs.Reserved.{KeepsReserved};
ghost use Rattle.folders.specs.Whole.{OldOrMoved};
ghost use Rattle.lru_disk_cache.specs.Adding.{entry_path, prepared, held_beside, room_for};
ghost use Rattle.listed_files.specs.Disk.{files_prepared};
ghost use Rattle.lru_disk_cache.specs.Adding.{commit_verdict, committed, abandoned, abandon_answer, HasSize};
ghost use Rattle.listed_files.specs.Told.{ToldCall, ToldSized, ToldClosed};
ghost use Rattle.lru_disk_cache.specs.Adding.{PrepareFails, WriteFails, CommitFails, AbandonFails};

use crate::cache::{LruDiskCache, arrival_of};
use crate::entry::LruDiskCacheAddEntry;
use crate::error::{Error, Result, io};
use dist_types::text::Text;
use folders::fault::FolderFault;
use folders::folder::Folder;
use listed_files::storing::{add_to, announce, fill, measure, remove_at};

impl<F: Folder> LruDiskCache<F> {
    ghost use Rattle.lru_disk_cache.specs.Store.{KeepsInStep, Leaves, Makes};
    ghost use Rattle.lru_disk_cache.specs.Store.{IsStore, room_beside, insert_verdict};
    ghost use Rattle.listed_files.specs.Calls.{Uncounted};

    /// Announces a file of this size under a key: the least recent go until it fits, and its size is held
    /// until it is committed or abandoned. Its temporary file is empty.
    ///
    /// Refused as `Error::BadKey`, `Error::FileTooLarge` and `Error::PendingSpace`, in this order, which
    /// leave all as it was; then as `Error::Io` or for want of memory, which leave the list as it was, or
    /// some of the least recent gone, none more than had to go.
    #[tactic(auto, using(listed_files::proofs::Spared::all_same))]
    pub fn prepare_add(&mut self, key: &str, size: u64) -> Result<LruDiskCacheAddEntry>
        ensures ok { IfOk result (λ e. self.new.disk ≡ prepared self.old.disk e) }
        ensures entry { IfOk result (λ e. (e.key ≡ key.now) × (e.size ≡ size)
            × IsLeastFree e.number self.old.disk.pending) }
        ensures admits { OnOk result (insert_verdict self.old.disk key.now size ≡ Ok tt) }
        ensures empty { IfOk result
            (λ e. Holds (F.held self.new.folder)
            (λ files. file_at files (entry_path self.old.disk e) ≡ Some [])) }
        ensures fails { IfErr result
            (λ e. PrepareFails key.now size e self.old.disk self.new.disk (F.held self.old.folder)
            (F.held self.new.folder)) }
        ensures kept { Leaves F.held (Keeps self.old.disk.root self.new.disk.entries) self.old self.new }
        ensures reserved { Leaves F.held (KeepsReserved self.old.disk.pending) self.old self.new }
        ensures others { Leaves F.held (ButUnder self.old.disk.root) self.old self.new }
        ensures exact { IfOk result (λ e. Makes F.held (files_prepared self.old.disk.root (entry_path
            self.old.disk e) (dropped (room_beside self.old.disk size) self.old.disk.entries)) self.old
            self.new) }
        ensures removed { Leaves F.held (RemovedOrSame (IsNoTemp self.old.disk.root)) self.old self.new }
        ensures steady { OnOk result ((F.held self.new.folder).faults ≡ (F.held self.old.folder).faults) }
        ensures uncounted { IfErr result
            (λ e. Uncounted e (F.held self.old.folder) (F.held self.new.folder)) }
        ensures later { (F.held self.old.folder).faults ≤ (F.held self.new.folder).faults }
        ensures in_step { KeepsInStep F.held result self.old self.new }
        ensures stays { Leaves F.held (KeepsSpoiled self.old.disk.root self.old.spoiled) self.old self.new }
        ensures unspoiled { self.new.spoiled ≡ self.old.spoiled }
        ensures stands { IsStore (F.held self.new.folder) self.new.disk }
    {
        self.shown();
        match self.admit(key, size) {
            Ok(()) => {}
            Err(refusal) => return Err(refusal),
        }
        let limit = self.room_beside(size);
        let Ok(own) = Text::of(self.alloc, key) else {
            return Err(Error::Memory);
        };
        let number = self.pending.least_free();
        let Ok(arrival) = arrival_of(&self.root, number, key, size, limit) else {
            return Err(Error::Memory);
        };
        match announce(&mut self.folder, &mut self.table, &self.root, &arrival) {
            Ok(()) => {}
            Err(fault) => return Err(io(fault)),
        }
        let Ok(()) = self.pending.push(number, arrival) else {
            return Err(Error::Memory);
        };
        Ok(LruDiskCacheAddEntry::new(number, own, size))
    }

    /// Adds bytes at the end of the temporary file of an entry.
    ///
    /// Refused as `Error::NotPending` exactly where this cache has no open reservation with the entry's
    /// number, key and size, which leaves all as it was; then as `Error::Io` or for want of memory, which
    /// leave a front of the bytes added. Where files are told, `FolderFault::Missing` comes exactly where a
    /// commit of the entry failed before and its file is not there any more, which leaves all as it was.
    #[tactic(auto, using(listed_files::proofs::Standing::none_lost, crate::proofs::Reserving::none_reserved, crate::proofs::Spoiled::none_spoiled))]
    pub fn write_entry(&mut self, entry: &LruDiskCacheAddEntry, bytes: &[u8]) -> Result<()>
        ensures ok { OnOk result (Makes F.held (appended (entry_path self.old.disk entry.now) bytes.now)
            self.old self.new) }
        ensures pending { OnOk result (is_pending entry.now self.old.disk.pending ≡ true) }
        ensures there { OnOk result (Holds (F.held self.old.folder)
            (λ files. ¬ (Lacks (entry_path self.old.disk entry.now) files))) }
        ensures part { OnErr result (Leaves F.held (PartAppended (entry_path self.old.disk entry.now)
            bytes.now) self.old self.new) }
        ensures fails { IfErr result
            (λ e. WriteFails entry.now e self.old.disk self.new.disk (F.held self.old.folder)
            (F.held self.new.folder)) }
        ensures disk { self.new.disk ≡ self.old.disk }
        ensures others { Leaves F.held (ButAt (entry_path self.old.disk entry.now)) self.old self.new }
        ensures kept { Leaves F.held (Keeps self.old.disk.root self.old.disk.entries) self.old self.new }
        ensures reserved { Leaves F.held (KeepsReserved (without_number entry.now.number
            self.old.disk.pending)) self.old self.new }
        ensures steady { OnOk result ((F.held self.new.folder).faults ≡ (F.held self.old.folder).faults) }
        ensures uncounted { IfErr result
            (λ e. Uncounted e (F.held self.old.folder) (F.held self.new.folder)) }
        ensures later { (F.held self.old.folder).faults ≤ (F.held self.new.folder).faults }
        ensures in_step { KeepsInStep F.held result self.old self.new }
        ensures stays { Leaves F.held (KeepsSpoiled self.old.disk.root self.old.spoiled) self.old self.new }
        ensures unspoiled { self.new.spoiled ≡ self.old.spoiled }
        ensures stands { IsStore (F.held self.new.folder) self.new.disk }
    {
        let Some(temp) = self.pending.temp_of(entry) else {
            return Err(Error::NotPending);
        };
        add_to(&mut self.folder, temp, bytes)
    }

    /// Stores the temporary file of an entry under its key, as the most recent, with the size that the file
    /// has, and closes the reservation. The least recent go where they have to, and their files.
    ///
    /// Refused, with the entry handed back and its reservation open, as `Error::NotPending` (exactly where
    /// this cache has no open reservation with the entry's number, key and size), `Error::FileTooLarge` and
    /// `Error::PendingSpace`, in this order, which leave all as it was; and as `Error::Io` or for want of
    /// memory, which leave the list as it was, or the key out and some of the least recent gone, none more
    /// than had to go; where files are told the folder's counts tell which, as for `insert_bytes`. The file
    /// of the key is as it was or has all the bytes of the temporary file. Where
    /// files are told, `FolderFault::Missing` comes exactly where a commit of the entry failed before and its
    /// file is not there any more, which leaves all as it was; where it is there, the commit may be tried
    /// again.
    pub fn commit(
        &mut self,
        entry: LruDiskCacheAddEntry,
    ) -> std::result::Result<(), (Error, LruDiskCacheAddEntry)>
        ensures ok { OnOk result ((n : _) × HasSize self.old.disk entry (F.held self.old.folder) n ×
            (commit_verdict self.old.disk entry n ≡ Ok tt) × (self.new.disk ≡ committed self.old.disk entry
            n) × Makes F.held (files_placed self.old.disk.root (entry_path self.old.disk entry)
            (self.old.disk.root ++ entry.key) (dropped (room_for self.old.disk entry n) (without_key
            entry.key self.old.disk.entries))) self.old self.new) }
        ensures pending { OnOk result (is_pending entry self.old.disk.pending ≡ true) }
        ensures content { OnOk result (Leaves F.held (λ old new. file_at new (self.old.disk.root ++
            entry.key) ≡ file_at old (entry_path self.old.disk entry)) self.old self.new) }
        ensures whole { Leaves F.held (OldOrMoved (entry_path self.old.disk entry) (self.old.disk.root ++
            entry.key)) self.old self.new }
        ensures back { IfErr result (λ e. e.1 ≡ entry) }
        ensures fails { IfErr result
            (λ e. CommitFails entry e.0 self.old.disk self.new.disk (F.held self.old.folder)
            (F.held self.new.folder)) }
        ensures failed { WhereTold (F.held self.old.folder) (ToldSized result entry.key (room_for
            self.old.disk entry) (HasSize self.old.disk entry (F.held self.old.folder))
            self.old.disk.entries self.new.disk.entries (F.failures self.old.folder)
            (F.failures self.new.folder)) }
        ensures kept { OnErr result (Leaves F.held (Keeps self.old.disk.root self.new.disk.entries) self.old
            self.new) }
        ensures reserved { Leaves F.held (KeepsReserved (without_number entry.number self.old.disk.pending))
            self.old self.new }
        ensures others { Leaves F.held (ButUnder self.old.disk.root) self.old self.new }
        ensures removed { Leaves F.held (RemovedOrSame (IsNeither (entry_path self.old.disk entry)
            (self.old.disk.root ++ entry.key))) self.old self.new }
        ensures steady { OnOk result ((F.held self.new.folder).faults ≡ (F.held self.old.folder).faults) }
        ensures uncounted { IfErr result
            (λ e. Uncounted e.0 (F.held self.old.folder) (F.held self.new.folder)) }
        ensures later { (F.held self.old.folder).faults ≤ (F.held self.new.folder).faults }
        ensures in_step { KeepsInStep F.held result self.old self.new }
        ensures stays { Leaves F.held (KeepsSpoiled self.old.disk.root self.old.spoiled) self.old self.new }
        ensures unspoiled { self.new.spoiled ≡ self.old.spoiled }
        ensures stands { IsStore (F.held self.new.folder) self.new.disk }
    {
        match self.commit_entry(&entry) {
            Ok(()) => {
                let _number = entry.spend();
                Ok(())
            }
            Err(error) => Err((error, entry)),
        }
    }

    /// Closes the reservation of an entry and removes its temporary file. It takes no memory of its own, and
    /// a file that is missing already is no fault.
    ///
    /// Refused as `Error::NotPending` exactly where this cache has no open reservation with the entry's
    /// number, key and size, which leaves all as it was and alone hands the entry back; and as `Error::Io`
    /// or for want of the folder's memory, where its removal of the file failed, which leave the reservation
    /// closed.
    #[tactic(auto, using(folders::proofs::Exactly::none_removed, listed_files::proofs::Standing::none_lost, crate::proofs::Reserving::none_reserved, crate::proofs::Spoiled::none_spoiled))]
    pub fn abandon(
        &mut self,
        entry: LruDiskCacheAddEntry,
    ) -> std::result::Result<(), (Error, Option<LruDiskCacheAddEntry>)>
        ensures ok { OnOk result (self.new.disk ≡ abandoned self.old.disk entry) }
        ensures pending { OnOk result (is_pending entry self.old.disk.pending ≡ true) }
        ensures gone { OnOk result (Holds (F.held self.new.folder) (Lacks (entry_path self.old.disk entry))) }
        ensures exact { OnOk result (Leaves F.held (λ old new. new ≡ without (entry_path self.old.disk entry)
            old) self.old self.new) }
        ensures fails { IfErr result
            (λ e. AbandonFails entry e.0 e.1 self.old.disk self.new.disk (F.held self.old.folder)
            (F.held self.new.folder)) }
        ensures failed { WhereTold (F.held self.old.folder) (IfErr result (λ e. ToldClosed e.0
            (F.failures self.old.folder) (F.failures self.new.folder))) }
        ensures removed { Leaves F.held OnlyRemoved self.old self.new }
        ensures others { Leaves F.held (ButAt (entry_path self.old.disk entry)) self.old self.new }
        ensures kept { Leaves F.held (Keeps self.old.disk.root self.old.disk.entries) self.old self.new }
        ensures reserved { Leaves F.held (KeepsReserved (without_number entry.number self.old.disk.pending))
            self.old self.new }
        ensures steady { OnOk result ((F.held self.new.folder).faults ≡ (F.held self.old.folder).faults) }
        ensures uncounted { IfErr result
            (λ e. Uncounted e.0 (F.held self.old.folder) (F.held self.new.folder)) }
        ensures later { (F.held self.old.folder).faults ≤ (F.held self.new.folder).faults }
        ensures in_step { KeepsInStep F.held result self.old self.new }
        ensures stays { Leaves F.held (KeepsSpoiled self.old.disk.root self.old.spoiled) self.old self.new }
        ensures unspoiled { self.new.spoiled ≡ self.old.spoiled }
        ensures stands { IsStore (F.held self.new.folder) self.new.disk }
    {
        let Some(temp) = self.pending.temp_of(&entry) else {
            return Err((Error::NotPending, Some(entry)));
        };
        let answer = remove_at(&mut self.folder, temp);
        self.pending.settle(entry.spend());
        closed(answer)
    }

    // How many bytes the temporary file of an entry has.
    fn entry_size(&mut self, entry: &LruDiskCacheAddEntry) -> Result<u64>
        ensures key { OnOk result (is_key entry.now.key ≡ true) }
        ensures now { IfOk result (λ n. HasSize self.new.disk entry.now (F.held self.new.folder) n) }
        ensures stands { IsStore (F.held self.new.folder) self.new.disk }
        ensures size { IfOk result (λ n. HasSize self.old.disk entry.now (F.held self.old.folder) n) }
        ensures pending { OnOk result (is_pending entry.now self.old.disk.pending ≡ true) }
        ensures same { OnOk result (F.held self.new.folder ≡ F.held self.old.folder) }
        ensures fails { IfErr result
            (λ e. WriteFails entry.now e self.old.disk self.new.disk (F.held self.old.folder)
            (F.held self.new.folder)) }
        ensures unspoiled { self.new.spoiled ≡ self.old.spoiled }
        ensures disk { self.new.disk ≡ self.old.disk }
        ensures files { (F.held self.new.folder).files ≡ (F.held self.old.folder).files }
        ensures uncounted { IfErr result
            (λ e. Uncounted e (F.held self.old.folder) (F.held self.new.folder)) }
        ensures later { (F.held self.old.folder).faults ≤ (F.held self.new.folder).faults }
        ensures failed { WhereTold (F.held self.old.folder) (ToldCall result (F.failures self.old.folder)
            (F.failures self.new.folder)) }
    {
        let Some(temp) = self.pending.temp_of(entry) else {
            return Err(Error::NotPending);
        };
        measure(&mut self.folder, temp)
    }

    // Whether the file of an entry may be stored with a size. Gives what the other entries may sum to then.
    fn admit_entry(&self, entry: &LruDiskCacheAddEntry, size: u64) -> Result<u64>
        ensures verdict { OnOk result (commit_verdict self.now.disk entry.now size ≡ Ok tt) }
        ensures room { IfOk result (λ n. n ≡ room_for self.now.disk entry.now size) }
        ensures fits { IfOk result
            (λ n. n + size + held_beside self.now.disk entry.now ≡ self.now.disk.capacity) }
        ensures fails { IfErr result (λ e. commit_verdict self.now.disk entry.now size ≡ Err e) }
        ensures which { IfErr result (λ e. (e ≡ Error.FileTooLarge) ⊎ (e ≡ Error.PendingSpace)) }
    {
        let capacity = self.table.capacity();
        if size > capacity {
            return Err(Error::FileTooLarge);
        }
        let beside = self.held_by_others(entry.number());
        if size > capacity - beside {
            return Err(Error::PendingSpace);
        }
        Ok(capacity - (beside + size))
    }

    // The sum of the sizes that the reservations of other numbers announced.
    #[tactic(auto, using(crate::proofs::Reserving::held_without))]
    fn held_by_others(&self, number: u64) -> u64
        ensures held { result ≡ held_size (without_number number self.now.disk.pending) }
        ensures fits { result ≤ self.now.disk.capacity }
    {
        let _capacity = self.table.capacity();
        self.pending.held_beside(number)
    }

    // What a commit does, but for spending the entry.
    #[tactic(auto, using(listed_files::proofs::Spared::all_same, listed_files::proofs::Standing::none_lost, crate::proofs::Reserving::none_reserved, crate::proofs::Spoiled::none_spoiled))]
    fn commit_entry(&mut self, entry: &LruDiskCacheAddEntry) -> Result<()>
        ensures ok { OnOk result ((n : _) × HasSize self.old.disk entry.now (F.held self.old.folder) n ×
            (commit_verdict self.old.disk entry.now n ≡ Ok tt) × (self.new.disk ≡ committed self.old.disk
            entry.now n) × Makes F.held (files_placed self.old.disk.root (entry_path self.old.disk entry.now)
            (self.old.disk.root ++ entry.now.key) (dropped (room_for self.old.disk entry.now n) (without_key
            entry.now.key self.old.disk.entries))) self.old self.new) }
        ensures pending { OnOk result (is_pending entry.now self.old.disk.pending ≡ true) }
        ensures content { OnOk result (Leaves F.held (λ old new. file_at new (self.old.disk.root ++
            entry.now.key) ≡ file_at old (entry_path self.old.disk entry.now)) self.old self.new) }
        ensures whole { Leaves F.held (OldOrMoved (entry_path self.old.disk entry.now) (self.old.disk.root ++
            entry.now.key)) self.old self.new }
        ensures fails { IfErr result
            (λ e. CommitFails entry.now e self.old.disk self.new.disk (F.held self.old.folder)
            (F.held self.new.folder)) }
        ensures failed { WhereTold (F.held self.old.folder) (ToldSized result entry.now.key (room_for
            self.old.disk entry.now) (HasSize self.old.disk entry.now (F.held self.old.folder))
            self.old.disk.entries self.new.disk.entries (F.failures self.old.folder)
            (F.failures self.new.folder)) }
        ensures kept { OnErr result (Leaves F.held (Keeps self.old.disk.root self.new.disk.entries) self.old
            self.new) }
        ensures reserved { Leaves F.held (KeepsReserved (without_number entry.now.number
            self.old.disk.pending)) self.old self.new }
        ensures others { Leaves F.held (ButUnder self.old.disk.root) self.old self.new }
        ensures removed { Leaves F.held (RemovedOrSame (IsNeither (entry_path self.old.disk entry.now)
            (self.old.disk.root ++ entry.now.key))) self.old self.new }
        ensures steady { OnOk result ((F.held self.new.folder).faults ≡ (F.held self.old.folder).faults) }
        ensures uncounted { IfErr result
            (λ e. Uncounted e (F.held self.old.folder) (F.held self.new.folder)) }
        ensures later { (F.held self.old.folder).faults ≤ (F.held self.new.folder).faults }
        ensures in_step { KeepsInStep F.held result self.old self.new }
        ensures stays { Leaves F.held (KeepsSpoiled self.old.disk.root self.old.spoiled) self.old self.new }
        ensures unspoiled { self.new.spoiled ≡ self.old.spoiled }
        ensures stands { IsStore (F.held self.new.folder) self.new.disk }
    {
        self.shown();
        let size = match self.entry_size(entry) {
            Ok(size) => size,
            Err(error) => return Err(error),
        };
        let limit = match self.admit_entry(entry, size) {
            Ok(limit) => limit,
            Err(refusal) => return Err(refusal),
        };
        let number = entry.number();
        let Ok(arrival) = arrival_of(&self.root, number, entry.key(), size, limit) else {
            return Err(Error::Memory);
        };
        match fill(&mut self.folder, &mut self.table, &self.root, &arrival) {
            Ok(()) => {
                self.pending.settle(number);
                Ok(())
            }
            Err(fault) => {
                self.pending.doubt(number);
                Err(io(fault))
            }
        }
    }
}

// The answer of an entry that was pending, by that of the removal of its file.
fn closed(
    answer: std::result::Result<(), FolderFault>,
) -> std::result::Result<(), (Error, Option<LruDiskCacheAddEntry>)>
    ensures { result ≡ abandon_answer answer }
{
    match answer {
        Ok(()) => Ok(()),
        Err(fault) => Err((io(fault), None)),
    }
}
