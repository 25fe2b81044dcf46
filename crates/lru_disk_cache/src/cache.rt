//! `LruDiskCache` and its calls.
ghost use Rattle.std.specs.Prelude.{◌≡◌, ℕ, List, ◌+◌, ◌++◌, ◌^◌, ◌<◌, ◌≤◌, length, nat_le, is_some, true};
ghost use Rattle.std.specs.Prelude.{Some, None, Ok, [], IsSome, IfOk, IfErr, OnOk, OnErr, OnSome};
ghost use Rattle.std.specs.Map.Iter.{ShowsInOrder, deref_pair};
ghost use Rattle.std.specs.List.{IsDistinct};
ghost use Rattle.std.specs.Map.{keys_of, lookup};
ghost use Rattle.std.specs.Str.{bytes_eq};
ghost use Rattle.folders.specs.Files.{file_at, front, touched, without};
ghost use Rattle.folders.specs.Failures.{WhereTold};
ghost use Rattle.folders.specs.Held.{Holds, Became, Lacks};
ghost use Rattle.listed_files.specs.Key.{is_key, temp_name, insert_name};
ghost use Rattle.listed_files.specs.Entries.{total, IsTable};
ghost use Rattle.listed_files.specs.Opened.{InStep, Shows, KeepsOpened};
ghost use Rattle.folders.specs.Changed.{RemovedOrSame};
ghost use Rattle.listed_files.specs.Disk.{IsBeside};
ghost use Rattle.listed_files.specs.Disk.{Stands, IsTemp, IsInsertTemp, IsKeyless, Keeps, KeepsSpoiled};
ghost use Rattle.listed_files.specs.Disk.{staying, dropped, ButInsert};
ghost use Rattle.folders.specs.Changed.{ButAt, ButUnder, SameAt};
ghost use Rattle.listed_files.specs.Disk.{files_stored, without_key};
ghost use Rattle.folders.specs.Changed.{OnlyRemoved, RemovedUnder};
ghost use Rattle.lru_disk_cache.specs.Reserved.{held_size, KeepsReserved};
ghost use Rattle.folders.specs.Whole.{OldOr};
ghost use Rattle.listed_files.specs.Told.{ToldStored};

use crate::error::{Error, Result, io};
use crate::reservations::Reservations;
use dist_types::fault::raise;
use dist_types::text::Text;
use folders::fault::FolderFault;
use folders::folder::Folder;
use folders::paths::front_of;
use listed_files::key::{insert_path, is_key, path_of, temp_path};
use listed_files::opening::open;
use listed_files::storing::{Arrival, fetch, remove_file, store};
use listed_files::table::Table;
use lru_metered::Iter;
use std::alloc::{AllocError, Global};
use std::marker::Model;

/// A cache of files under a path of a folder, whose sizes, with those announced by open reservations, sum
/// to no more than a capacity. What is least recent goes first.
#[derive(Drop)]
pub struct LruDiskCache<F: Folder> {
    pub(crate) alloc: Global,
    pub(crate) folder: F,
    pub(crate) path: Text,
    pub(crate) root: Text,
    pub(crate) table: Table,
    pub(crate) pending: Reservations,
    pub(crate) spoiled: u64,
}

impl<F: Folder> Model for LruDiskCache<F> {
    ghost use Rattle.lru_disk_cache.specs.Store.{Store, IsStore};

    ghost Value = { Store F };

    ghost view = { λ c. record {
      disk = record {
        path = c.path;
        root = c.root;
        capacity = c.table.capacity;
        entries = c.table.entries;
        pending = c.pending;
      };
      folder = c.folder;
      spoiled = c.spoiled;
    } };

    ghost invariant = { λ c. IsStore (F.held c.folder)
        (record {
          path = c.path;
          root = c.root;
          capacity = c.table.capacity;
          entries = c.table.entries;
          pending = c.pending;
        }) };
}

impl<F: Folder> LruDiskCache<F> {
    ghost use Rattle.lru_disk_cache.specs.Store.{KeepsInStep, Leaves, Makes};
    ghost use Rattle.lru_disk_cache.specs.Store.{IsStore, inserted, looked_up, removed};
    ghost use Rattle.lru_disk_cache.specs.Store.{opened_disk, insert_verdict, room_beside, OpenFails};
    ghost use Rattle.lru_disk_cache.specs.Store.{InsertFails, LookUpFails, RemoveFails};
    ghost use Rattle.listed_files.specs.Calls.{Uncounted};
    ghost use Rattle.lru_disk_cache.specs.Store.{Spoils};

    /// Opens a cache of `size` bytes of the files below a path. Those are removed that are no key's or larger
    /// than that, and the least recent where the others exceed it. Where that fails, as `Error::Io` or for
    /// want of memory, the folder is handed back, of which no more than files below the path are removed, and
    /// none that the same opening without a fault would list.
    pub fn new(
        alloc: Global,
        mut folder: F,
        path: &str,
        size: u64,
    ) -> std::result::Result<Self, (Error, F)>
        ensures opened { IfOk result
            (λ c. Holds (F.held folder) (λ files. c.disk ≡ opened_disk path.now size files)) }
        ensures empty { IfOk result (λ c. (c.disk.path ≡ path.now) × (c.disk.capacity ≡ size)
            × (c.disk.pending ≡ []) × (c.spoiled ≡ 0)) }
        ensures in_step { IfOk result
            (λ c. Holds (F.held c.folder) (λ files. InStep c.disk.root files c.disk.entries)) }
        ensures stands { IfOk result (λ c. IsStore (F.held c.folder) c.disk) }
        ensures cleared { IfOk result (λ c. Shows c.disk.root (F.held c.folder) c.disk.entries) }
        ensures removed { IfOk result
            (λ c. Became OnlyRemoved (F.held folder).files (F.held c.folder).files) }
        ensures others { IfOk result
            (λ c. Became (ButUnder c.disk.root) (F.held folder).files (F.held c.folder).files) }
        ensures steady { IfOk result (λ c. (F.held c.folder).faults ≡ (F.held folder).faults) }
        ensures uncounted { IfErr result (λ e. Uncounted e.0 (F.held folder) (F.held e.1)) }
        ensures later { IfErr result (λ e. (F.held folder).faults ≤ (F.held e.1).faults) }
        ensures fails { IfErr result (λ e. OpenFails e.0 (F.held folder) (F.held e.1)) }
        ensures left { IfErr result (λ e. Became (RemovedUnder (front path.now)) (F.held folder).files
            (F.held e.1).files) }
        ensures spared { IfErr result (λ e. Became (KeepsOpened (front path.now) size) (F.held folder).files
            (F.held e.1).files) }
    {
        let Ok((path, root)) = place_of(alloc, path) else {
            return Err((Error::Memory, folder));
        };
        match open(&mut folder, &path, &root, size) {
            Ok(table) => {
                // The size is what says that the files fit.
                let _size = table.size();
                Ok(LruDiskCache {
                    alloc,
                    folder,
                    path,
                    root,
                    table,
                    pending: Reservations::new(alloc),
                    spoiled: 0,
                })
            }
            Err(fault) => Err((io(fault), folder)),
        }
    }

    /// The sum of the sizes, in bytes, with those announced by open reservations. It takes no memory.
    /// Whatever failed so far, each listed key has a file of its size where files are told.
    pub fn size(&self) -> u64
        ensures size { result ≡ total self.now.disk.entries + held_size self.now.disk.pending }
        ensures within { result ≤ self.now.disk.capacity }
        ensures stands { IsStore (F.held self.now.folder) self.now.disk }
    {
        let held = self.held();
        self.table.size() + held
    }

    /// How many keys are listed. It takes no memory.
    pub fn len(&self) -> usize
        ensures len { result ≡ length self.now.disk.entries }
        ensures distinct { IsDistinct bytes_eq (keys_of self.now.disk.entries) }
    {
        self.table.len()
    }

    /// Whether no key is listed. It takes no memory.
    pub fn is_empty(&self) -> bool
        ensures { result ≡ nat_le (length self.now.disk.entries) 0 }
    {
        self.table.len() == 0
    }

    /// The most that the sizes sum to, in bytes. It takes no memory.
    pub fn capacity(&self) -> u64
        ensures { result ≡ self.now.disk.capacity }
    {
        self.table.capacity()
    }

    /// The path of the directory that its files lie in. It takes no memory.
    pub fn path(&self) -> &str
        ensures path { result.now ≡ self.now.disk.path }
        ensures root { self.now.disk.root ≡ front self.now.disk.path }
    {
        self.path.get()
    }

    /// Whether a file of this size is within the capacity. It takes no memory.
    pub fn can_store(&self, size: u64) -> bool
        ensures { result ≡ nat_le size self.now.disk.capacity }
    {
        size <= self.table.capacity()
    }

    /// Whether a key is listed. It walks the list, keeps its order, and takes no memory.
    pub fn contains_key(&self, key: &str) -> bool
        ensures { result ≡ is_some (lookup (bytes_eq key.now) self.now.disk.entries) }
    {
        self.table.has(key)
    }

    /// The keys with their sizes, least recent first. It takes no memory.
    pub fn entries(&self) -> Iter<'_, Text, u64>
        ensures rest { result ≡ self.now.disk.entries }
        ensures runs { ShowsInOrder (deref_pair {K = List ℕ} {X = ℕ}) }
    {
        self.table.iter()
    }

    /// The folder. It takes no memory.
    pub fn into_folder(self) -> F
        ensures { result ≡ self.folder }
    {
        let LruDiskCache {
            alloc: _alloc,
            folder,
            path: _path,
            root: _root,
            table: _table,
            pending: _pending,
            spoiled: _spoiled,
        } = self;
        folder
    }

    /// Stores bytes under a key, as the most recent. The least recent go where they have to, and their files.
    ///
    /// Refused as `Error::BadKey`, `Error::FileTooLarge` and `Error::PendingSpace`, in this order, which
    /// leave all as it was; then as `Error::Io` or for want of memory, which leave the list as it was, or
    /// the key out and some of the least recent gone, none more than had to go. Where files are told the
    /// folder's counts tell which: the list is as it was where neither a rename nor a removal failed; where
    /// a removal did the least recent are gone up to that whose file it was, and where the rename did all
    /// that had to go. The file of the key is as it was or has all the bytes, never a part of them. What was
    /// written of the temporary file stays until
    /// the next opening, counts for no size, and is touched by no call before that.
    #[tactic(auto, using(listed_files::proofs::Spared::all_same, crate::proofs::Spoiled::none_inserted))]
    pub fn insert_bytes(&mut self, key: &str, bytes: &[u8]) -> Result<()>
        ensures ok { OnOk result (self.new.disk ≡ inserted self.old.disk key.now (length bytes.now)) }
        ensures admits { OnOk result (insert_verdict self.old.disk key.now (length bytes.now) ≡ Ok tt) }
        ensures content { OnOk result
            (Holds (F.held self.new.folder)
            (λ files. file_at files (self.old.disk.root ++ key.now) ≡ Some bytes.now)) }
        ensures whole { Leaves F.held (OldOr (self.old.disk.root ++ key.now) bytes.now) self.old self.new }
        ensures fails { IfErr result
            (λ e. InsertFails key.now (length bytes.now) e self.old.disk self.new.disk
            (F.held self.old.folder) (F.held self.new.folder)) }
        ensures failed { WhereTold (F.held self.old.folder) (ToldStored result key.now (room_beside
            self.old.disk (length bytes.now)) self.old.disk.entries self.new.disk.entries
            (F.failures self.old.folder) (F.failures self.new.folder)) }
        ensures kept { OnOk result (Leaves F.held (Keeps self.old.disk.root (staying key.now (room_beside
            self.old.disk (length bytes.now)) self.old.disk.entries)) self.old self.new) }
        ensures left { OnErr result (Leaves F.held (Keeps self.old.disk.root self.new.disk.entries) self.old
            self.new) }
        ensures others { Leaves F.held (ButUnder self.old.disk.root) self.old self.new }
        ensures reserved { Leaves F.held (KeepsReserved self.old.disk.pending) self.old self.new }
        ensures exact { OnOk result ((temp : List ℕ) × IsInsertTemp self.old.disk.root temp × Makes F.held
            (files_stored self.old.disk.root temp (self.old.disk.root ++ key.now) bytes.now (dropped
            (room_beside self.old.disk (length bytes.now)) (without_key key.now self.old.disk.entries)))
            self.old self.new) }
        ensures removed { Leaves F.held (RemovedOrSame (IsBeside self.old.disk.root (self.old.disk.root ++
            key.now))) self.old self.new }
        ensures steady { OnOk result ((F.held self.new.folder).faults ≡ (F.held self.old.folder).faults) }
        ensures uncounted { IfErr result
            (λ e. Uncounted e (F.held self.old.folder) (F.held self.new.folder)) }
        ensures later { (F.held self.old.folder).faults ≤ (F.held self.new.folder).faults }
        ensures in_step { KeepsInStep F.held result self.old self.new }
        ensures stays { Leaves F.held (ButInsert self.old.disk.root self.old.spoiled) self.old self.new }
        ensures unspoiled { OnOk result (self.new.spoiled ≡ self.old.spoiled) }
        ensures spoils { IfErr result (λ e. Spoils e self.old.spoiled self.new.spoiled) }
        ensures stands { IsStore (F.held self.new.folder) self.new.disk }
    {
        self.shown();
        let size = bytes.len() as u64;
        match self.admit(key, size) {
            Ok(()) => {}
            Err(refusal) => return Err(refusal),
        }
        let limit = self.room_beside(size);
        let Ok(arrival) = insert_arrival(&self.root, self.spoiled, key, size, limit) else {
            raise(&mut self.spoiled);
            return Err(Error::Memory);
        };
        match store(
            &mut self.folder,
            &mut self.table,
            &self.root,
            &arrival,
            bytes,
        ) {
            Ok(()) => Ok(()),
            Err(fault) => {
                raise(&mut self.spoiled);
                Err(io(fault))
            }
        }
    }

    /// The content of the file of a key, which becomes the most recent.
    ///
    /// Refused as `Error::FileNotInCache` exactly where the key is not listed, which leaves all as it was;
    /// as `Error::Io`, only where it is, which leaves it listed and most recent; and for want of memory,
    /// only where it is, which leaves the list as it was, or the key most recent.
    pub fn get_file(&mut self, key: &str) -> Result<Vec<u8>>
        ensures ok { OnOk result (self.new.disk ≡ looked_up self.old.disk key.now) }
        ensures found { OnOk result (IsSome (lookup (bytes_eq key.now) self.old.disk.entries)) }
        ensures content { IfOk result
            (λ v. Holds (F.held self.old.folder)
            (λ files. file_at files (self.old.disk.root ++ key.now) ≡ Some v.items)) }
        ensures fails { IfErr result
            (λ e. LookUpFails key.now e self.old.disk self.new.disk (F.held self.old.folder)
            (F.held self.new.folder)) }
        ensures others { Leaves F.held SameAt self.old self.new }
        ensures exact { OnOk result (Makes F.held (touched (self.old.disk.root ++ key.now)) self.old
            self.new) }
        ensures steady { OnOk result ((F.held self.new.folder).faults ≡ (F.held self.old.folder).faults) }
        ensures uncounted { IfErr result
            (λ e. Uncounted e (F.held self.old.folder) (F.held self.new.folder)) }
        ensures later { (F.held self.old.folder).faults ≤ (F.held self.new.folder).faults }
        ensures in_step { KeepsInStep F.held result self.old self.new }
        ensures unspoiled { self.new.spoiled ≡ self.old.spoiled }
        ensures stands { IsStore (F.held self.new.folder) self.new.disk }
    {
        self.shown();
        let Ok(key) = Text::of(self.alloc, key) else {
            return Err(self.unless_listed(key));
        };
        if !self.table.contains(&key) {
            return Err(Error::FileNotInCache);
        }
        let Ok(path) = path_of(&self.root, &key) else {
            return Err(Error::Memory);
        };
        self.table.promote(&key);
        match fetch(&mut self.folder, &path) {
            Ok(bytes) => Ok(bytes),
            Err(fault) => Err(io(fault)),
        }
    }

    /// Takes a key out and removes its file. It answers Ok where the key is not listed.
    ///
    /// Refused as `Error::Io`, only where the key is listed, which leaves it out, and for want of memory,
    /// only where it is, which leaves the list as it was, or the key out.
    #[tactic(auto, using(folders::proofs::Exactly::none_removed, listed_files::proofs::Standing::none_lost, crate::proofs::Reserving::none_reserved, crate::proofs::Spoiled::none_spoiled))]
    pub fn remove(&mut self, key: &str) -> Result<()>
        ensures ok { OnOk result (self.new.disk ≡ removed self.old.disk key.now) }
        ensures gone { OnOk result (IsSome (lookup (bytes_eq key.now) self.old.disk.entries)
            → Holds (F.held self.new.folder) (Lacks (self.old.disk.root ++ key.now))) }
        ensures fails { IfErr result
            (λ e. RemoveFails key.now e self.old.disk self.new.disk (F.held self.old.folder)
            (F.held self.new.folder)) }
        ensures others { Leaves F.held (ButAt (self.old.disk.root ++ key.now)) self.old self.new }
        ensures kept { Leaves F.held (Keeps self.old.disk.root self.new.disk.entries) self.old self.new }
        ensures reserved { Leaves F.held (KeepsReserved self.old.disk.pending) self.old self.new }
        ensures exact { OnOk result (IsSome (lookup (bytes_eq key.now) self.old.disk.entries) → Makes F.held
            (without (self.old.disk.root ++ key.now)) self.old self.new) }
        ensures same { OnOk result (lookup (bytes_eq key.now) self.old.disk.entries ≡ None
            → F.held self.new.folder ≡ F.held self.old.folder) }
        ensures removed { Leaves F.held OnlyRemoved self.old self.new }
        ensures steady { OnOk result ((F.held self.new.folder).faults ≡ (F.held self.old.folder).faults) }
        ensures uncounted { IfErr result
            (λ e. Uncounted e (F.held self.old.folder) (F.held self.new.folder)) }
        ensures later { (F.held self.old.folder).faults ≤ (F.held self.new.folder).faults }
        ensures in_step { KeepsInStep F.held result self.old self.new }
        ensures stays { Leaves F.held (KeepsSpoiled self.old.disk.root self.old.spoiled) self.old self.new }
        ensures unspoiled { self.new.spoiled ≡ self.old.spoiled }
        ensures stands { IsStore (F.held self.new.folder) self.new.disk }
    {
        self.shown();
        let Ok(key) = Text::of(self.alloc, key) else {
            if !self.table.has(key) {
                return Ok(());
            }
            return Err(Error::Memory);
        };
        if !self.table.contains(&key) {
            return Ok(());
        }
        self.table.unlist(&key);
        match remove_file(&mut self.folder, &self.root, &key) {
            Ok(()) => Ok(()),
            Err(fault) => Err(io(fault)),
        }
    }

    // Why a look-up of a key fails that there is no memory to copy: it is listed, or not. It takes no memory.
    fn unless_listed(&self, key: &str) -> Error
        ensures { LookUpFails key.now result self.now.disk self.now.disk (F.held self.now.folder)
            (F.held self.now.folder) }
    {
        if self.table.has(key) {
            Error::Memory
        } else {
            Error::FileNotInCache
        }
    }

    // What holds of the cache, whatever failed so far.
    pub(crate) fn shown(&self)
        ensures stands { IsStore (F.held self.now.folder) self.now.disk }
        ensures distinct { IsDistinct bytes_eq (keys_of self.now.disk.entries) }
    {
        let _len = self.table.len();
    }

    // The sum of the sizes that open reservations announced.
    pub(crate) fn held(&self) -> u64
        ensures held { result ≡ held_size self.now.disk.pending }
        ensures fits { total self.now.disk.entries + result ≤ self.now.disk.capacity }
        ensures range { self.now.disk.capacity ≤ 18446744073709551615 }
    {
        let _capacity = self.table.capacity();
        self.pending.held_size()
    }

    // What the sizes of the other entries may sum to where one of this size is stored.
    pub(crate) fn room_beside(&self, size: u64) -> u64
        requires { held_size self.now.disk.pending + size ≤ self.now.disk.capacity }
        ensures { result ≡ room_beside self.now.disk size }
    {
        self.table.capacity() - (self.held() + size)
    }

    // Whether a key may be stored with a size.
    pub(crate) fn admit(&self, key: &str, size: u64) -> Result<()>
        ensures verdict { result ≡ insert_verdict self.now.disk key.now size }
        ensures key { OnOk result (is_key key.now ≡ true) }
        ensures room { OnOk result (held_size self.now.disk.pending + size ≤ self.now.disk.capacity) }
    {
        if !is_key(key) {
            return Err(Error::BadKey);
        }
        if size > self.table.capacity() {
            return Err(Error::FileTooLarge);
        }
        if size > self.table.capacity() - self.held() {
            return Err(Error::PendingSpace);
        }
        Ok(())
    }
}

/// A path, and what the path of each file below it begins with.
pub fn place_of(alloc: Global, path: &str) -> std::result::Result<(Text, Text), AllocError>
    ensures { IfOk result (λ p. (p.0 ≡ path.now) × (p.1 ≡ front path.now)) }
{
    let root = front_of(alloc, path)?;
    let path = Text::of(alloc, path)?;
    Ok((path, root))
}

/// A file that is to stand under a key, by way of the temporary file of a reservation, by its number.
#[tactic(auto, using(listed_files::proofs::Paths::temp_keyless))]
pub(crate) fn arrival_of(
    root: &Text,
    number: u64,
    key: &str,
    size: u64,
    limit: u64,
) -> std::result::Result<Arrival, FolderFault>
    ensures from { IfOk result (λ a. a.from ≡ root.now ++ temp_name number) }
    ensures temp { IfOk result (λ a. IsTemp root.now a.from) }
    ensures keyless { IfOk result (λ a. IsKeyless root.now a.from) }
    ensures number { number < 2 ^ 64 }
    ensures path { IfOk result (λ a. a.path ≡ root.now ++ key.now) }
    ensures key { IfOk result (λ a. (a.key ≡ key.now) × (a.size ≡ size) × (a.limit ≡ limit)) }
{
    let from = temp_path(root.alloc(), root, number)?;
    arrival_from(root, from, key, size, limit)
}

/// A file that is to stand under a key, by way of the temporary file of an insert, by its number.
#[tactic(auto, using(listed_files::proofs::Paths::insert_keyless))]
fn insert_arrival(
    root: &Text,
    number: u64,
    key: &str,
    size: u64,
    limit: u64,
) -> std::result::Result<Arrival, FolderFault>
    ensures from { IfOk result (λ a. a.from ≡ root.now ++ insert_name number) }
    ensures temp { IfOk result (λ a. IsInsertTemp root.now a.from) }
    ensures keyless { IfOk result (λ a. IsKeyless root.now a.from) }
    ensures number { number < 2 ^ 64 }
    ensures path { IfOk result (λ a. a.path ≡ root.now ++ key.now) }
    ensures key { IfOk result (λ a. (a.key ≡ key.now) × (a.size ≡ size) × (a.limit ≡ limit)) }
{
    let from = insert_path(root.alloc(), root, number)?;
    arrival_from(root, from, key, size, limit)
}

/// A file of a path that is to stand under a key.
pub(crate) fn arrival_from(
    root: &Text,
    from: Text,
    key: &str,
    size: u64,
    limit: u64,
) -> std::result::Result<Arrival, FolderFault>
    ensures from { IfOk result (λ a. a.from ≡ from) }
    ensures path { IfOk result (λ a. a.path ≡ root.now ++ key.now) }
    ensures key { IfOk result (λ a. (a.key ≡ key.now) × (a.size ≡ size) × (a.limit ≡ limit)) }
{
    let key = Text::of(root.alloc(), key)?;
    let path = path_of(root, &key)?;
    Ok(Arrival {
        from,
        path,
        key,
        size,
        limit,
    })
}
