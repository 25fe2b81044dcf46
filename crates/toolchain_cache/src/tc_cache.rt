//! `TcCache`: archives of toolchains, known by the SHA-256 of their content.
ghost use Rattle.std.specs.Prelude.{◌≡◌, ◌≤◌, ◌⊎◌, ◌-◌, [], true, false, length, map, nat_le, is_some, Some, None};
ghost use Rattle.std.specs.Prelude.{Ok, Err, IsSome, IfOk, IfErr, OnOk, OnErr};
ghost use Rattle.std.specs.Map.{lookup};
ghost use Rattle.std.specs.Str.{bytes_eq};
ghost use Rattle.folders.specs.Files.{file_at, front, put, moved, touched, without};
ghost use Rattle.folders.specs.Files.{PartWritten, DoneOrNot, Same};
ghost use Rattle.folders.specs.Held.{Holds, Became, BecameBy, Lacks, Never, Changes};
ghost use Rattle.listed_files.specs.Entries.{total, promoted_key};
ghost use Rattle.folders.specs.Changed.{RemovedOrSame};
ghost use Rattle.listed_files.specs.Disk.{IsBeside};
ghost use Rattle.folders.specs.Changed.{ButAt, ButUnder, SameAt, OnlyRemoved, RemovedUnder, IsOutside};
ghost use Rattle.listed_files.specs.Disk.{without_key, ButInsert, KeepsSpoiled};
ghost use Rattle.toolchain_cache.specs.Archives.{id_of, archive_path, opened_archives, paths_under, IsInStep};
ghost use Rattle.toolchain_cache.specs.Archives.{IsArchiveStore};
ghost use Rattle.toolchain_cache.specs.Cleaned.{are_archive_keys, NoneTold};
ghost use Rattle.toolchain_cache.specs.Keyed.{unkeyed, AllHold};
ghost use Rattle.toolchain_cache.specs.Archiving.{archive_verdict, with_archive, StoreFails, FindFails};
ghost use Rattle.toolchain_cache.specs.Archiving.{DropFails, Relists, dropped_for};
ghost use Rattle.lru_disk_cache.specs.Spoiling.{MaySpoil};
ghost use Rattle.toolchain_cache.specs.Stored.{KeepsArchives, KeepsListed, PlacesArchive, staying_for};
ghost use Rattle.lru_disk_cache.specs.Moving.{Wrote, WroteSize};
ghost use Rattle.listed_files.specs.Told.{ToldSized, ToldStored};
ghost use Rattle.folders.specs.Failures.{WhereTold};
ghost use Rattle.toolchain_cache.specs.Archiving.{StoreWithFails};
ghost use Rattle.folders.specs.Whole.{OldOr, OldOrWritten};

use crate::archives::{Archives, is_key_of};
use crate::cleaning::clean;
use crate::digest::{is_archive, key_of, toolchain_of};
use crate::others::drop_others;
use dist_types::toolchain::Toolchain;
use folders::fault::FolderFault;
use folders::folder::Folder;
use lru_disk_cache::{Error, LruDiskCache, Opened, Result, WriteFault, io, place_of, written};
use std::alloc::Global;
use std::marker::Model;

/// A cache of archives of toolchains under a path of a folder, whose sizes sum to no more than a capacity.
/// Each is known by the SHA-256 of its content; what is least recent goes first.
#[derive(Drop)]
pub struct TcCache<F: Folder> {
    alloc: Global,
    cache: LruDiskCache<F>,
}

impl<F: Folder> Model for TcCache<F> {
    ghost use Rattle.toolchain_cache.specs.Archives.{ArchiveStore};
    ghost use Rattle.toolchain_cache.specs.Keyed.{unkeyed, IsKeyed};

    ghost Value = { ArchiveStore F };

    ghost view = { λ t. record {
      path = t.cache.disk.path;
      capacity = t.cache.disk.capacity;
      archives = unkeyed t.cache.disk.entries;
      folder = t.cache.folder;
      spoiled = t.cache.spoiled;
    } };

    ghost invariant = { λ t. IsKeyed (F.held t.cache.folder) t.cache.disk };
}

impl<F: Folder> TcCache<F> {
    ghost use Rattle.lru_disk_cache.specs.Store.{OpenFails};
    ghost use Rattle.listed_files.specs.Calls.{Uncounted};

    /// Opens a cache of `cache_size` bytes of the archives below a path, which is empty or a key. A file is
    /// removed that does not stand where its SHA-256 says or that is larger than that, and the least recent
    /// where the others exceed it. Where that fails, as `Error::Io` or for want of memory, the folder is
    /// handed back, of which no more than files below the path are removed, and none of an archive that the
    /// same opening without a fault would list.
    pub fn new(
        alloc: Global,
        mut folder: F,
        cache_dir: &str,
        cache_size: u64,
    ) -> std::result::Result<Self, (Error, F)>
        ensures opened { IfOk result
            (λ t. Holds (F.held folder)
            (λ files. t.archives ≡ opened_archives cache_dir.now cache_size files)) }
        ensures at { IfOk result (λ t. (t.path ≡ cache_dir.now) × (t.capacity ≡ cache_size)) }
        ensures begun { IfOk result (λ t. t.spoiled ≡ 0) }
        ensures relists { IfOk result
            (λ t. Holds (F.held folder) (λ files. Relists cache_dir.now cache_size files t.archives)) }
        ensures in_step { IfOk result (λ t. IsInStep cache_dir.now (F.held t.folder) t.archives) }
        ensures cleared { IfOk result
            (λ t. Holds (F.held t.folder)
            (λ files. paths_under cache_dir.now files ≡ map
            (λ a. archive_path cache_dir.now a.0) t.archives)) }
        ensures removed { IfOk result
            (λ t. Became OnlyRemoved (F.held folder).files (F.held t.folder).files) }
        ensures others { IfOk result (λ t. Became (ButUnder (front cache_dir.now)) (F.held folder).files
            (F.held t.folder).files) }
        ensures stands { IfOk result (λ t. IsArchiveStore t.path t.capacity t.archives (F.held t.folder)) }
        ensures steady { IfOk result (λ t. (F.held t.folder).faults ≡ (F.held folder).faults) }
        ensures uncounted { IfErr result (λ e. Uncounted e.0 (F.held folder) (F.held e.1)) }
        ensures later { IfErr result (λ e. (F.held folder).faults ≤ (F.held e.1).faults) }
        ensures fails { IfErr result (λ e. OpenFails e.0 (F.held folder) (F.held e.1)) }
        ensures left { IfErr result (λ e. Became (RemovedUnder (front cache_dir.now)) (F.held folder).files
            (F.held e.1).files) }
        ensures kept { IfOk result (λ t. Became (KeepsListed cache_dir.now cache_size) (F.held folder).files
            (F.held t.folder).files) }
        ensures spared { IfErr result (λ e. Became (KeepsListed cache_dir.now cache_size)
            (F.held folder).files (F.held e.1).files) }
    {
        let Ok((path, root)) = place_of(alloc, cache_dir) else {
            return Err((Error::Memory, folder));
        };
        match clean(&mut folder, &path, &root, cache_size) {
            Ok(()) => {}
            Err(fault) => return Err((io(fault), folder)),
        }
        match LruDiskCache::new(alloc, folder, cache_dir, cache_size) {
            Ok(cache) => TcCache::over(alloc, cache),
            Err(refusal) => Err(refusal),
        }
    }

    /// Whether the archive of a toolchain is listed. It keeps the order and takes no memory. Whatever failed
    /// so far, each listed archive has a file of its size whose SHA-256 is its id, where files are told.
    pub fn contains_toolchain(&self, tc: &Toolchain) -> bool
        ensures listed { result ≡ is_some (lookup (bytes_eq tc.now) self.now.archives) }
        ensures stands { IsArchiveStore self.now.path self.now.capacity self.now.archives
            (F.held self.now.folder) }
    {
        self.shown();
        let id = tc.archive_id().as_bytes();
        for (key, _size) in self.cache.entries() {
            if is_key_of(key, id) {
                return true;
            }
        }
        false
    }

    /// How many archives are listed. It takes no memory.
    pub fn len(&self) -> usize
        ensures { result ≡ length self.now.archives }
    {
        self.cache.len()
    }

    /// Whether no archive is listed. It takes no memory.
    pub fn is_empty(&self) -> bool
        ensures { result ≡ nat_le (length self.now.archives) 0 }
    {
        self.cache.len() == 0
    }

    /// The most that the sizes sum to, in bytes. It takes no memory.
    pub fn capacity(&self) -> u64
        ensures { result ≡ self.now.capacity }
    {
        self.cache.capacity()
    }

    /// The toolchains of the archives with their sizes, least recent first. It takes no memory.
    pub fn archives(&self) -> Archives<'_>
        ensures rest { result ≡ self.now.archives }
    {
        Archives::of(self.cache.entries())
    }

    /// The folder. It takes no memory.
    pub fn into_folder(self) -> F
        ensures { result ≡ self.folder }
    {
        let TcCache {
            alloc: _alloc,
            cache,
        } = self;
        cache.into_folder()
    }

    /// Stores bytes as the archive of a toolchain, as the most recent. The least recent go where they have
    /// to, and their files. It hashes the bytes once and copies none.
    ///
    /// Refused as `Error::WrongDigest`, where the SHA-256 of the bytes is not the toolchain's id, and as
    /// `Error::FileTooLarge`, in this order, which leave all as it was; then as `Error::Io` or for want of
    /// memory, which leave the list as it was, or the archive unlisted and some of the least recent gone,
    /// none more than had to go; where files are told the folder's counts tell which, as for
    /// `LruDiskCache::insert_bytes`. The file of the archive is as it was or has all the bytes. What was
    /// written of the temporary file stays until the next opening, and is touched by no call before that.
    #[tactic(auto, using(listed_files::proofs::Spared::all_same, lru_disk_cache::proofs::Spoiled::none_inserted, crate::proofs::StoredLemmas::archives_stay))]
    pub fn insert_bytes(&mut self, tc: &Toolchain, bytes: &[u8]) -> Result<()>
        ensures ok { OnOk result (self.new.archives ≡ with_archive self.old.capacity tc.now
            (length bytes.now) self.old.archives) }
        ensures admits { OnOk result (archive_verdict self.old.capacity tc.now bytes.now ≡ Ok tt) }
        ensures content { OnOk result
            (Holds (F.held self.new.folder)
            (λ files. file_at files (archive_path self.old.path tc.now) ≡ Some bytes.now)) }
        ensures whole { Became (OldOr (archive_path self.old.path tc.now) bytes.now)
            (F.held self.old.folder).files (F.held self.new.folder).files }
        ensures fails { IfErr result
            (λ e. StoreFails self.old.capacity tc.now bytes.now e self.old.archives self.new.archives
            (F.held self.old.folder) (F.held self.new.folder)) }
        ensures failed { WhereTold (F.held self.old.folder) (ToldStored result tc.now (self.old.capacity
            - length bytes.now) self.old.archives self.new.archives (F.failures self.old.folder)
            (F.failures self.new.folder)) }
        ensures in_step { IsInStep self.old.path (F.held self.old.folder) self.old.archives
            → OnOk result (IsInStep self.new.path (F.held self.new.folder) self.new.archives) }
        ensures at { (self.new.path ≡ self.old.path) × (self.new.capacity ≡ self.old.capacity) }
        ensures others { Became (ButUnder (front self.old.path)) (F.held self.old.folder).files
            (F.held self.new.folder).files }
        ensures kept { OnOk result
            (Became (KeepsArchives self.old.path
            (staying_for self.old.capacity tc.now (length bytes.now) self.old.archives))
            (F.held self.old.folder).files (F.held self.new.folder).files) }
        ensures left { OnErr result
            (Became (KeepsArchives self.old.path self.new.archives) (F.held self.old.folder).files
            (F.held self.new.folder).files) }
        ensures exact { OnOk result
            (PlacesArchive self.old.path tc.now bytes.now
            (dropped_for self.old.capacity tc.now (length bytes.now) self.old.archives)
            (F.held self.old.folder) (F.held self.new.folder)) }
        ensures removed { Became
            (RemovedOrSame (IsBeside (front self.old.path) (archive_path self.old.path tc.now)))
            (F.held self.old.folder).files (F.held self.new.folder).files }
        ensures steady { OnOk result ((F.held self.new.folder).faults ≡ (F.held self.old.folder).faults) }
        ensures uncounted { IfErr result
            (λ e. Uncounted e (F.held self.old.folder) (F.held self.new.folder)) }
        ensures later { (F.held self.old.folder).faults ≤ (F.held self.new.folder).faults }
        ensures stays { Became (ButInsert (front self.old.path) self.old.spoiled)
            (F.held self.old.folder).files (F.held self.new.folder).files }
        ensures unspoiled { OnOk result (self.new.spoiled ≡ self.old.spoiled) }
        ensures spoils { IfErr result
            (λ e. MaySpoil e self.old.spoiled self.new.spoiled (F.held self.old.folder)
            (F.held self.new.folder)) }
        ensures stands { IsArchiveStore self.new.path self.new.capacity self.new.archives
            (F.held self.new.folder) }
    {
        self.shown();
        if !is_archive(tc, bytes) {
            return Err(Error::WrongDigest);
        }
        self.insert_verified(tc, bytes)
    }

    /// The archive of a toolchain, which becomes the most recent. Where files are told its SHA-256 is the
    /// toolchain's id.
    ///
    /// Refused as `Error::FileNotInCache` exactly where it is not listed, which leaves all as it was; as
    /// `Error::Io`, only where it is, which leaves it listed and most recent; and for want of memory, only
    /// where it is, which leaves the list as it was, or the archive most recent.
    #[tactic(auto, using(folders::proofs::Removals::none_same))]
    pub fn get_file(&mut self, tc: &Toolchain) -> Result<Vec<u8>>
        ensures ok { OnOk result (self.new.archives ≡ promoted_key tc.now self.old.archives) }
        ensures found { OnOk result (IsSome (lookup (bytes_eq tc.now) self.old.archives)) }
        ensures content { IfOk result
            (λ v. Holds (F.held self.old.folder)
            (λ files. file_at files (archive_path self.old.path tc.now) ≡ Some v.items)) }
        ensures digest { IfOk result (λ v. Holds (F.held self.old.folder) (λ files. id_of v.items ≡ tc.now)) }
        ensures fails { IfErr result
            (λ e. FindFails tc.now e self.old.archives self.new.archives (F.held self.old.folder)
            (F.held self.new.folder)) }
        ensures memory { result ≡ Err Error.Memory → IsSome (lookup (bytes_eq tc.now) self.old.archives) }
        ensures in_step { IsInStep self.old.path (F.held self.old.folder) self.old.archives
            → OnOk result (IsInStep self.new.path (F.held self.new.folder) self.new.archives) }
        ensures at { (self.new.path ≡ self.old.path) × (self.new.capacity ≡ self.old.capacity) }
        ensures others { Became (ButUnder (front self.old.path)) (F.held self.old.folder).files
            (F.held self.new.folder).files }
        ensures same { Became SameAt (F.held self.old.folder).files (F.held self.new.folder).files }
        ensures exact { OnOk result
            (BecameBy (touched (archive_path self.old.path tc.now)) (F.held self.old.folder).files
            (F.held self.new.folder).files) }
        ensures steady { OnOk result ((F.held self.new.folder).faults ≡ (F.held self.old.folder).faults) }
        ensures uncounted { IfErr result
            (λ e. Uncounted e (F.held self.old.folder) (F.held self.new.folder)) }
        ensures later { (F.held self.old.folder).faults ≤ (F.held self.new.folder).faults }
        ensures unspoiled { self.new.spoiled ≡ self.old.spoiled }
        ensures stands { IsArchiveStore self.new.path self.new.capacity self.new.archives
            (F.held self.new.folder) }
    {
        self.shown();
        let Ok(key) = key_of(self.alloc, tc) else {
            return Err(self.unless_listed(tc));
        };
        let answer = self.cache.get_file(key.get());
        let _len = self.cache.len();
        answer
    }

    /// The archive of a toolchain, opened for reading. It becomes the most recent.
    ///
    /// Refused as `get_file` is.
    pub fn get(&mut self, tc: &Toolchain) -> Result<Opened>
        ensures ok { OnOk result (self.new.archives ≡ promoted_key tc.now self.old.archives) }
        ensures found { OnOk result (IsSome (lookup (bytes_eq tc.now) self.old.archives)) }
        ensures content { IfOk result
            (λ o. Holds (F.held self.old.folder)
            (λ files. file_at files (archive_path self.old.path tc.now) ≡ Some o.content)) }
        ensures digest { IfOk result
            (λ o. Holds (F.held self.old.folder) (λ files. id_of o.content ≡ tc.now)) }
        ensures place { IfOk result (λ o. o.place ≡ 0) }
        ensures fails { IfErr result
            (λ e. FindFails tc.now e self.old.archives self.new.archives (F.held self.old.folder)
            (F.held self.new.folder)) }
        ensures memory { result ≡ Err Error.Memory → IsSome (lookup (bytes_eq tc.now) self.old.archives) }
        ensures in_step { IsInStep self.old.path (F.held self.old.folder) self.old.archives
            → OnOk result (IsInStep self.new.path (F.held self.new.folder) self.new.archives) }
        ensures at { (self.new.path ≡ self.old.path) × (self.new.capacity ≡ self.old.capacity) }
        ensures others { Became (ButUnder (front self.old.path)) (F.held self.old.folder).files
            (F.held self.new.folder).files }
        ensures same { Became SameAt (F.held self.old.folder).files (F.held self.new.folder).files }
        ensures exact { OnOk result
            (BecameBy (touched (archive_path self.old.path tc.now)) (F.held self.old.folder).files
            (F.held self.new.folder).files) }
        ensures steady { OnOk result ((F.held self.new.folder).faults ≡ (F.held self.old.folder).faults) }
        ensures uncounted { IfErr result
            (λ e. Uncounted e (F.held self.old.folder) (F.held self.new.folder)) }
        ensures later { (F.held self.old.folder).faults ≤ (F.held self.new.folder).faults }
        ensures unspoiled { self.new.spoiled ≡ self.old.spoiled }
        ensures stands { IsArchiveStore self.new.path self.new.capacity self.new.archives
            (F.held self.new.folder) }
    {
        match self.get_file(tc) {
            Ok(bytes) => Ok(Opened::new(bytes)),
            Err(error) => Err(error),
        }
    }

    /// Takes the archive of a toolchain out and removes its file. It answers Ok where it is not listed.
    ///
    /// Refused as `Error::Io`, only where it is listed, which leaves it unlisted, and for want of memory,
    /// only where it is, which leaves the list as it was, or the archive unlisted.
    #[tactic(auto, using(folders::proofs::Exactly::none_removed, crate::proofs::StoredLemmas::archives_stay, crate::proofs::StoredLemmas::one_stays, lru_disk_cache::proofs::Spoiled::none_spoiled))]
    pub fn remove(&mut self, tc: &Toolchain) -> Result<()>
        ensures ok { OnOk result (self.new.archives ≡ without_key tc.now self.old.archives) }
        ensures gone { OnOk result (IsSome (lookup (bytes_eq tc.now) self.old.archives)
            → Holds (F.held self.new.folder) (Lacks (archive_path self.old.path tc.now))) }
        ensures fails { IfErr result
            (λ e. DropFails tc.now e self.old.archives self.new.archives (F.held self.old.folder)
            (F.held self.new.folder)) }
        ensures memory { result ≡ Err Error.Memory → IsSome (lookup (bytes_eq tc.now) self.old.archives) }
        ensures in_step { IsInStep self.old.path (F.held self.old.folder) self.old.archives
            → OnOk result (IsInStep self.new.path (F.held self.new.folder) self.new.archives) }
        ensures at { (self.new.path ≡ self.old.path) × (self.new.capacity ≡ self.old.capacity) }
        ensures others { Became (ButUnder (front self.old.path)) (F.held self.old.folder).files
            (F.held self.new.folder).files }
        ensures alone { Became (ButAt (archive_path self.old.path tc.now)) (F.held self.old.folder).files
            (F.held self.new.folder).files }
        ensures kept { Became (KeepsArchives self.old.path self.new.archives)
            (F.held self.old.folder).files (F.held self.new.folder).files }
        ensures exact { OnOk result (IsSome (lookup (bytes_eq tc.now) self.old.archives)
            → BecameBy (without (archive_path self.old.path tc.now)) (F.held self.old.folder).files
            (F.held self.new.folder).files) }
        ensures same { OnOk result (lookup (bytes_eq tc.now) self.old.archives ≡ None
            → F.held self.new.folder ≡ F.held self.old.folder) }
        ensures removed { Became OnlyRemoved (F.held self.old.folder).files (F.held self.new.folder).files }
        ensures steady { OnOk result ((F.held self.new.folder).faults ≡ (F.held self.old.folder).faults) }
        ensures uncounted { IfErr result
            (λ e. Uncounted e (F.held self.old.folder) (F.held self.new.folder)) }
        ensures later { (F.held self.old.folder).faults ≤ (F.held self.new.folder).faults }
        ensures stays { Became (KeepsSpoiled (front self.old.path) self.old.spoiled)
            (F.held self.old.folder).files (F.held self.new.folder).files }
        ensures unspoiled { self.new.spoiled ≡ self.old.spoiled }
        ensures stands { IsArchiveStore self.new.path self.new.capacity self.new.archives
            (F.held self.new.folder) }
    {
        self.shown();
        let Ok(key) = key_of(self.alloc, tc) else {
            if self.contains_toolchain(tc) {
                return Err(Error::Memory);
            }
            return Ok(());
        };
        let answer = self.cache.remove(key.get());
        let _len = self.cache.len();
        answer
    }

    /// Stores what a closure writes as the archive of a toolchain, as `insert_bytes` stores bytes. The
    /// closure is called once, with an empty vector.
    ///
    /// Refused as `Error::WriterRefused` exactly where the closure refuses, which leaves all as it was; then
    /// as `insert_bytes` is.
    #[tactic(auto, using(listed_files::proofs::Spared::all_same, lru_disk_cache::proofs::Spoiled::none_inserted, crate::proofs::StoredLemmas::archives_stay))]
    pub fn insert_with<W: FnOnce(&mut Vec<u8>) -> std::result::Result<(), WriteFault>>(
        &mut self,
        tc: &Toolchain,
        with: W,
    ) -> Result<()>
        requires { W.IsAlwaysCallable with }
        ensures ok { OnOk result ((bytes : _) × Wrote W.FnOnce (λ v. v.items) with (Ok tt) bytes
            × (archive_verdict self.old.capacity tc.now bytes ≡ Ok tt)
            × (self.new.archives ≡ with_archive self.old.capacity tc.now (length bytes) self.old.archives)
            × (Holds (F.held self.new.folder)
            (λ files. file_at files (archive_path self.old.path tc.now) ≡ Some bytes)
            × Became (KeepsArchives self.old.path
            (staying_for self.old.capacity tc.now (length bytes) self.old.archives))
            (F.held self.old.folder).files (F.held self.new.folder).files
            × PlacesArchive self.old.path tc.now bytes
            (dropped_for self.old.capacity tc.now (length bytes) self.old.archives) (F.held self.old.folder)
            (F.held self.new.folder))) }
        ensures whole { Became
            (OldOrWritten (Wrote W.FnOnce (λ v. v.items) with (Ok tt)) (archive_path self.old.path tc.now))
            (F.held self.old.folder).files (F.held self.new.folder).files }
        ensures fails { IfErr result
            (λ e. StoreWithFails (Wrote W.FnOnce (λ v. v.items) with) self.old.capacity tc.now e
            self.old.archives self.new.archives (F.held self.old.folder) (F.held self.new.folder)) }
        ensures failed { WhereTold (F.held self.old.folder) (ToldSized result tc.now (λ n. self.old.capacity
            - n) (WroteSize (Wrote W.FnOnce (λ v. v.items) with)) self.old.archives self.new.archives
            (F.failures self.old.folder) (F.failures self.new.folder)) }
        ensures in_step { IsInStep self.old.path (F.held self.old.folder) self.old.archives
            → OnOk result (IsInStep self.new.path (F.held self.new.folder) self.new.archives) }
        ensures at { (self.new.path ≡ self.old.path) × (self.new.capacity ≡ self.old.capacity) }
        ensures others { Became (ButUnder (front self.old.path)) (F.held self.old.folder).files
            (F.held self.new.folder).files }
        ensures left { OnErr result
            (Became (KeepsArchives self.old.path self.new.archives) (F.held self.old.folder).files
            (F.held self.new.folder).files) }
        ensures removed { Became
            (RemovedOrSame (IsBeside (front self.old.path) (archive_path self.old.path tc.now)))
            (F.held self.old.folder).files (F.held self.new.folder).files }
        ensures steady { OnOk result ((F.held self.new.folder).faults ≡ (F.held self.old.folder).faults) }
        ensures uncounted { IfErr result
            (λ e. Uncounted e (F.held self.old.folder) (F.held self.new.folder)) }
        ensures later { (F.held self.old.folder).faults ≤ (F.held self.new.folder).faults }
        ensures stays { Became (ButInsert (front self.old.path) self.old.spoiled)
            (F.held self.old.folder).files (F.held self.new.folder).files }
        ensures unspoiled { OnOk result (self.new.spoiled ≡ self.old.spoiled) }
        ensures spoils { IfErr result
            (λ e. MaySpoil e self.old.spoiled self.new.spoiled (F.held self.old.folder)
            (F.held self.new.folder)) }
        ensures stands { IsArchiveStore self.new.path self.new.capacity self.new.archives
            (F.held self.new.folder) }
    {
        self.shown();
        match written(self.alloc, with) {
            Ok(bytes) => self.insert_bytes(tc, &bytes),
            Err(error) => Err(error),
        }
    }

    /// Stores bytes as the archive that they are, as the most recent, and gives its toolchain. The least
    /// recent go where they have to, and their files. It hashes the bytes once and copies none.
    ///
    /// Refused as `Error::FileTooLarge`, which leaves all as it was, and else as `insert_bytes` is.
    pub fn insert_package(&mut self, bytes: &[u8]) -> Result<Toolchain>
        ensures id { IfOk result (λ tc. tc ≡ id_of bytes.now) }
        ensures ok { OnOk result (self.new.archives ≡ with_archive self.old.capacity (id_of bytes.now)
            (length bytes.now) self.old.archives) }
        ensures admits { OnOk result (archive_verdict self.old.capacity (id_of bytes.now) bytes.now ≡ Ok tt) }
        ensures content { OnOk result
            (Holds (F.held self.new.folder)
            (λ files. file_at files (archive_path self.old.path (id_of bytes.now)) ≡ Some bytes.now)) }
        ensures whole { Became (OldOr (archive_path self.old.path (id_of bytes.now)) bytes.now)
            (F.held self.old.folder).files (F.held self.new.folder).files }
        ensures fails { IfErr result
            (λ e. StoreFails self.old.capacity (id_of bytes.now) bytes.now e self.old.archives
            self.new.archives (F.held self.old.folder) (F.held self.new.folder)) }
        ensures failed { WhereTold (F.held self.old.folder) (ToldStored result (id_of bytes.now)
            (self.old.capacity - length bytes.now) self.old.archives self.new.archives
            (F.failures self.old.folder) (F.failures self.new.folder)) }
        ensures in_step { IsInStep self.old.path (F.held self.old.folder) self.old.archives
            → OnOk result (IsInStep self.new.path (F.held self.new.folder) self.new.archives) }
        ensures at { (self.new.path ≡ self.old.path) × (self.new.capacity ≡ self.old.capacity) }
        ensures others { Became (ButUnder (front self.old.path)) (F.held self.old.folder).files
            (F.held self.new.folder).files }
        ensures kept { OnOk result
            (Became (KeepsArchives self.old.path
            (staying_for self.old.capacity (id_of bytes.now) (length bytes.now) self.old.archives))
            (F.held self.old.folder).files (F.held self.new.folder).files) }
        ensures left { OnErr result
            (Became (KeepsArchives self.old.path self.new.archives) (F.held self.old.folder).files
            (F.held self.new.folder).files) }
        ensures exact { OnOk result
            (PlacesArchive self.old.path (id_of bytes.now) bytes.now
            (dropped_for self.old.capacity (id_of bytes.now) (length bytes.now) self.old.archives)
            (F.held self.old.folder) (F.held self.new.folder)) }
        ensures removed { Became
            (RemovedOrSame (IsBeside (front self.old.path) (archive_path self.old.path (id_of bytes.now))))
            (F.held self.old.folder).files (F.held self.new.folder).files }
        ensures steady { OnOk result ((F.held self.new.folder).faults ≡ (F.held self.old.folder).faults) }
        ensures uncounted { IfErr result
            (λ e. Uncounted e (F.held self.old.folder) (F.held self.new.folder)) }
        ensures later { (F.held self.old.folder).faults ≤ (F.held self.new.folder).faults }
        ensures stays { Became (ButInsert (front self.old.path) self.old.spoiled)
            (F.held self.old.folder).files (F.held self.new.folder).files }
        ensures unspoiled { OnOk result (self.new.spoiled ≡ self.old.spoiled) }
        ensures spoils { IfErr result
            (λ e. MaySpoil e self.old.spoiled self.new.spoiled (F.held self.old.folder)
            (F.held self.new.folder)) }
        ensures stands { IsArchiveStore self.new.path self.new.capacity self.new.archives
            (F.held self.new.folder) }
    {
        let tc = toolchain_of(bytes);
        match self.insert_verified(&tc, bytes) {
            Ok(()) => Ok(tc),
            Err(error) => Err(error),
        }
    }

    /// The content of a file of the folder, which may lie beside the cache. The archives stay as they are.
    pub fn read_aside(&mut self, path: &str) -> std::result::Result<Vec<u8>, FolderFault>
        ensures content { IfOk result
            (λ v. Holds (F.held self.old.folder) (λ files. file_at files path.now ≡ Some v.items)) }
        ensures leaves { Changes (Lacks path.now) (λ files. files) Same result (F.held self.old.folder)
            (F.held self.new.folder) }
        ensures at { (self.new.path ≡ self.old.path) × (self.new.capacity ≡ self.old.capacity)
            × (self.new.archives ≡ self.old.archives) }
        ensures in_step { IsInStep self.old.path (F.held self.old.folder) self.old.archives
            → IsInStep self.new.path (F.held self.new.folder) self.new.archives }
        ensures unspoiled { self.new.spoiled ≡ self.old.spoiled }
        ensures stands { IsArchiveStore self.new.path self.new.capacity self.new.archives
            (F.held self.new.folder) }
    {
        self.shown();
        let answer = self.cache.read_aside(path);
        let _len = self.cache.len();
        answer
    }

    /// Writes a file of the folder that does not lie below the path of the cache. The archives and their
    /// files stay as they are.
    pub fn write_aside(&mut self, path: &str, bytes: &[u8]) -> std::result::Result<(), FolderFault>
        requires { IsOutside self.old.path path.now }
        ensures writes { Changes Never (put path.now bytes.now) (PartWritten path.now bytes.now) result
            (F.held self.old.folder) (F.held self.new.folder) }
        ensures at { (self.new.path ≡ self.old.path) × (self.new.capacity ≡ self.old.capacity)
            × (self.new.archives ≡ self.old.archives) }
        ensures in_step { IsInStep self.old.path (F.held self.old.folder) self.old.archives
            → IsInStep self.new.path (F.held self.new.folder) self.new.archives }
        ensures unspoiled { self.new.spoiled ≡ self.old.spoiled }
        ensures stands { IsArchiveStore self.new.path self.new.capacity self.new.archives
            (F.held self.new.folder) }
    {
        self.shown();
        let answer = self.cache.write_aside(path, bytes);
        let _len = self.cache.len();
        answer
    }

    /// Renames a file of the folder, from and to paths that do not lie below that of the cache. The archives
    /// and their files stay as they are.
    pub fn rename_aside(&mut self, from: &str, to: &str) -> std::result::Result<(), FolderFault>
        requires from { IsOutside self.old.path from.now }
        requires to { IsOutside self.old.path to.now }
        ensures renames { Changes (Lacks from.now) (moved from.now to.now) (DoneOrNot (moved from.now to.now))
            result (F.held self.old.folder) (F.held self.new.folder) }
        ensures at { (self.new.path ≡ self.old.path) × (self.new.capacity ≡ self.old.capacity)
            × (self.new.archives ≡ self.old.archives) }
        ensures in_step { IsInStep self.old.path (F.held self.old.folder) self.old.archives
            → IsInStep self.new.path (F.held self.new.folder) self.new.archives }
        ensures unspoiled { self.new.spoiled ≡ self.old.spoiled }
        ensures stands { IsArchiveStore self.new.path self.new.capacity self.new.archives
            (F.held self.new.folder) }
    {
        self.shown();
        let answer = self.cache.rename_aside(from, to);
        let _len = self.cache.len();
        answer
    }

    /// Stores bytes whose SHA-256 is the id of the toolchain, as `insert_bytes` does, and hashes nothing.
    ///
    /// Refused as `Error::FileTooLarge`, which leaves all as it was, and else as `insert_bytes` is.
    #[tactic(auto, using(listed_files::proofs::Spared::all_same, lru_disk_cache::proofs::Spoiled::none_inserted, crate::proofs::StoredLemmas::archives_stay))]
    pub fn insert_verified(&mut self, tc: &Toolchain, bytes: &[u8]) -> Result<()>
        requires { id_of bytes.now ≡ tc.now }
        ensures ok { OnOk result (self.new.archives ≡ with_archive self.old.capacity tc.now
            (length bytes.now) self.old.archives) }
        ensures admits { OnOk result (archive_verdict self.old.capacity tc.now bytes.now ≡ Ok tt) }
        ensures content { OnOk result
            (Holds (F.held self.new.folder)
            (λ files. file_at files (archive_path self.old.path tc.now) ≡ Some bytes.now)) }
        ensures whole { Became (OldOr (archive_path self.old.path tc.now) bytes.now)
            (F.held self.old.folder).files (F.held self.new.folder).files }
        ensures fails { IfErr result
            (λ e. StoreFails self.old.capacity tc.now bytes.now e self.old.archives self.new.archives
            (F.held self.old.folder) (F.held self.new.folder)) }
        ensures failed { WhereTold (F.held self.old.folder) (ToldStored result tc.now (self.old.capacity
            - length bytes.now) self.old.archives self.new.archives (F.failures self.old.folder)
            (F.failures self.new.folder)) }
        ensures in_step { IsInStep self.old.path (F.held self.old.folder) self.old.archives
            → OnOk result (IsInStep self.new.path (F.held self.new.folder) self.new.archives) }
        ensures at { (self.new.path ≡ self.old.path) × (self.new.capacity ≡ self.old.capacity) }
        ensures others { Became (ButUnder (front self.old.path)) (F.held self.old.folder).files
            (F.held self.new.folder).files }
        ensures kept { OnOk result
            (Became (KeepsArchives self.old.path
            (staying_for self.old.capacity tc.now (length bytes.now) self.old.archives))
            (F.held self.old.folder).files (F.held self.new.folder).files) }
        ensures left { OnErr result
            (Became (KeepsArchives self.old.path self.new.archives) (F.held self.old.folder).files
            (F.held self.new.folder).files) }
        ensures exact { OnOk result
            (PlacesArchive self.old.path tc.now bytes.now
            (dropped_for self.old.capacity tc.now (length bytes.now) self.old.archives)
            (F.held self.old.folder) (F.held self.new.folder)) }
        ensures removed { Became
            (RemovedOrSame (IsBeside (front self.old.path) (archive_path self.old.path tc.now)))
            (F.held self.old.folder).files (F.held self.new.folder).files }
        ensures steady { OnOk result ((F.held self.new.folder).faults ≡ (F.held self.old.folder).faults) }
        ensures uncounted { IfErr result
            (λ e. Uncounted e (F.held self.old.folder) (F.held self.new.folder)) }
        ensures later { (F.held self.old.folder).faults ≤ (F.held self.new.folder).faults }
        ensures stays { Became (ButInsert (front self.old.path) self.old.spoiled)
            (F.held self.old.folder).files (F.held self.new.folder).files }
        ensures unspoiled { OnOk result (self.new.spoiled ≡ self.old.spoiled) }
        ensures spoils { IfErr result
            (λ e. MaySpoil e self.old.spoiled self.new.spoiled (F.held self.old.folder)
            (F.held self.new.folder)) }
        ensures stands { IsArchiveStore self.new.path self.new.capacity self.new.archives
            (F.held self.new.folder) }
    {
        self.shown();
        if !self.cache.can_store(bytes.len() as u64) {
            return Err(Error::FileTooLarge);
        }
        let Ok(key) = key_of(self.alloc, tc) else {
            return Err(Error::Memory);
        };
        let answer = self.cache.insert_bytes(key.get(), bytes);
        let _len = self.cache.len();
        answer
    }

    // Why a look-up fails that there is no memory for the key of: the archive is listed, or not. It takes no
    // memory.
    fn unless_listed(&self, tc: &Toolchain) -> Error
        ensures fails { FindFails tc.now result self.now.archives self.now.archives (F.held self.now.folder)
            (F.held self.now.folder) }
        ensures memory { result ≡ Error.Memory → IsSome (lookup (bytes_eq tc.now) self.now.archives) }
    {
        if self.contains_toolchain(tc) {
            Error::Memory
        } else {
            Error::FileNotInCache
        }
    }

    // What holds of the cache, whatever failed so far.
    fn shown(&self)
        ensures stands { IsArchiveStore self.now.path self.now.capacity self.now.archives
            (F.held self.now.folder) }
    {
        let _len = self.cache.len();
        let _sum = self.cache.size();
    }

    // A cache of archives over one whose keys are all theirs where files are told. Other keys go, and their
    // files.
    fn over(alloc: Global, mut cache: LruDiskCache<F>) -> std::result::Result<Self, (Error, F)>
        requires hold { Holds (F.held cache.folder)
            (λ files. AllHold cache.disk.root files cache.disk.entries) }
        requires told { Holds (F.held cache.folder) (λ files. are_archive_keys cache.disk.entries ≡ true) }
        requires none { cache.disk.pending ≡ [] }
        requires root { cache.disk.root ≡ front cache.disk.path }
        ensures ok { IfOk result
            (λ t. ((t ≡ record {
              path = cache.disk.path;
              capacity = cache.disk.capacity;
              archives = unkeyed cache.disk.entries;
              folder = cache.folder;
              spoiled = cache.spoiled;
            }) × (are_archive_keys cache.disk.entries ≡ true))
            ⊎ NoneTold (F.held cache.folder) (F.held t.folder)) }
        ensures at { IfOk result
            (λ t. (t.path ≡ cache.disk.path) × (t.capacity ≡ cache.disk.capacity)) }
        ensures spoiled { IfOk result (λ t. t.spoiled ≡ cache.spoiled) }
        ensures stands { IfOk result (λ t. IsArchiveStore t.path t.capacity t.archives (F.held t.folder)) }
        ensures steady { IfOk result (λ t. (F.held t.folder).faults ≡ (F.held cache.folder).faults) }
        ensures back { IfErr result (λ e. (e.1 ≡ cache.folder)
            ⊎ NoneTold (F.held cache.folder) (F.held e.1)) }
        ensures fails { IfErr result (λ e. OpenFails e.0 (F.held cache.folder) (F.held e.1)) }
        ensures uncounted { IfErr result (λ e. Uncounted e.0 (F.held cache.folder) (F.held e.1)) }
        ensures later { IfErr result (λ e. (F.held cache.folder).faults ≤ (F.held e.1).faults) }
    {
        match drop_others(alloc, &mut cache) {
            Ok(()) => {
                let opened = TcCache { alloc, cache };
                opened.shown();
                Ok(opened)
            }
            Err(error) => Err((error, cache.into_folder())),
        }
    }
}
