//! `ClientToolchains`: the archives that a client sends, packaged or configured.
ghost use Rattle.std.specs.Prelude.{◌≡◌, ◌≤◌, ◌++◌, ◌∷◌, [], Some, None, Ok, Err, IsSome, OnOk, IfOk, IfErr};
ghost use Rattle.std.specs.Prelude.{OnErr, codes};
ghost use Rattle.std.specs.Map.{lookup};
ghost use Rattle.std.specs.Str.{bytes_eq};
ghost use Rattle.std.specs.Option.{option_map};
ghost use Rattle.folders.specs.Files.{file_at, front};
ghost use Rattle.folders.specs.Held.{Holds, Became, Lacks};
ghost use Rattle.toolchain_cache.specs.Archives.{id_of, opened_archives, IsInStep};
ghost use Rattle.listed_files.specs.Disk.{KeepsSpoiled};
ghost use Rattle.listed_files.specs.Calls.{Uncounted};
ghost use Rattle.toolchain_cache.specs.Archiving.{FindFails, Relists};
ghost use Rattle.toolchain_cache.specs.Stored.{KeepsListed};
ghost use Rattle.disk_cache.specs.Configs.{config_of, config_verdict, custom_of, IsChoice};
ghost use Rattle.disk_cache.specs.Custom.{TellsCustom, Takes, Unread, IsCustom, taken_of, last_taken, taking};
ghost use Rattle.disk_cache.specs.Custom.{custom_as, custom_told, customs_seen};
ghost use Rattle.disk_cache.specs.InStep.{KeepsStep};
ghost use Rattle.disk_cache.specs.Names.{cache_path, temp_dir, weak_path};
ghost use Rattle.disk_cache.specs.Opening.{IsEmpty, HasOnly, ButOwn, LeftOpen, OpeningFails};
ghost use Rattle.disk_cache.specs.Others.{KeepsBeside, KeepsOthers};
ghost use Rattle.disk_cache.specs.Putting.{Gets, IsFound, ReadsCustom, FindsArchive, LooksUp, found_of};
ghost use Rattle.disk_cache.specs.Putting.{looked_of};
ghost use Rattle.disk_cache.specs.Putting.{Records, RecordsStored, KeptOrRecorded, Stores, IsStocked, Packs, Packages};
ghost use Rattle.disk_cache.specs.Putting.{PutsCustom, PutsPackage, LooksThenPackages, Puts};
ghost use Rattle.disk_cache.specs.Putting.{archives_seen, bytes_seen, placed_as, placed_seen};
ghost use Rattle.disk_cache.specs.Toolchains.{IsClient, IsWritten, with_state};
ghost use Rattle.disk_cache.specs.WeakMaps.{weak_map_at, recorded_id};
ghost use Rattle.path_pkg.specs.Called.{CalledOnce};

use crate::config::{Choice, CustomToolchain, DistToolchainConfig, choice_of, copy_all, judge};
use crate::custom::{Custom, Placed, Taken, custom_as, last_taken, taken_of};
use crate::emptied::prepare;
use crate::names::{Names, names_of};
use crate::toolchain_error::{ToolchainError, fault_error, toolchain_error};
use crate::weak_file::{load, save};
use crate::weak_map::WeakMap;
use dist_types::fault::Memory;
use dist_types::text::Text;
use dist_types::toolchain::Toolchain;
use dist_types::try_clone::TryClone;
use folders::fault::FolderFault;
use folders::folder::Folder;
use lru_disk_cache::Error;
use path_pkg::fault::PackFault;
use path_pkg::packagers::ToolchainPackager;
use std::alloc::Global;
use std::marker::Model;
use toolchain_cache::{TcCache, toolchain_of};

/// The toolchains of a client: archives that were packaged, in a cache under a path of a folder, each found
/// again by a weak key of its compiler, and archives of the folder that are configured for compilers.
#[derive(Drop)]
pub struct ClientToolchains<F: Folder> {
    alloc: Global,
    cache: TcCache<F>,
    names: Names,
    weak: WeakMap,
    configs: Vec<DistToolchainConfig>,
    taken: Vec<Taken>,
}

impl<F: Folder> Model for ClientToolchains<F> {
    ghost use Rattle.std.specs.Prelude.{◌≤◌};
    ghost use Rattle.disk_cache.specs.Toolchains.{Toolchains};
    ghost use Rattle.disk_cache.specs.Shelf.{IsShelf};

    ghost Value = { Toolchains };

    ghost view = { λ t. record {
      dir = t.names.dir;
      capacity = t.cache.capacity;
      archives =
          t.cache.archives;
      weak = t.weak;
      configs = t.configs.items;
      taken = t.taken.items;
      held = F.held
          t.cache.folder;
      spoiled = t.cache.spoiled;
    } };

    ghost invariant = { λ t. IsShelf t.names t.cache.path t.cache.capacity t.cache.archives (F.held
        t.cache.folder) × (t.cache.spoiled ≤ 18446744073709551615) };
}

impl<F: Folder> ClientToolchains<F> {
    /// Opens the toolchains of a client below a path of the folder, which is empty or a key: the directory of
    /// what was still being written, `toolchain_tmp`, is emptied; the cache of archives, `tc`, is opened; and
    /// the weak map is read from `weak_map.json`, which is made as `{}` where it is missing.
    ///
    /// Refused as `ToolchainError::Cache` of `Error::Io`, where the folder fails; as `BadWeakMap`, where the
    /// file is no object of texts; as `DuplicateConfig` or `ConflictConfig`, by the first that configures a
    /// compiler again; and for want of memory. The folder is dropped then.
    pub fn new(
        alloc: Global,
        folder: F,
        cache_dir: &str,
        cache_size: u64,
        configs: &[DistToolchainConfig],
    ) -> Result<Self, ToolchainError>
    where
        F: Drop,
        ensures at { IfOk result (λ t. (t.dir ≡ cache_dir.now) × (t.capacity ≡ cache_size) × (t.configs ≡
            configs.now) × (t.taken ≡ [])) }
        ensures fresh { IfOk result (λ t. t.spoiled ≡ 0) }
        ensures archives { IfOk result (λ t. Holds (F.held folder) (λ files. t.archives ≡ opened_archives
            (cache_path cache_dir.now) cache_size files)) }
        ensures relists { IfOk result (λ t. Holds (F.held folder) (λ files. Relists
            (cache_path cache_dir.now) cache_size files t.archives)) }
        ensures in_step { IfOk result (λ t. IsInStep (cache_path cache_dir.now) t.held t.archives) }
        ensures cleared { IfOk result (λ t. Holds t.held (HasOnly (cache_path cache_dir.now) t.archives)) }
        ensures kept { IfOk result (λ t. Became (KeepsListed (cache_path cache_dir.now) cache_size)
            (F.held folder).files t.held.files) }
        ensures weak { IfOk result (λ t. Holds (F.held folder) (λ files. weak_map_at cache_dir.now files ≡
            Some t.weak)) }
        ensures written { IfOk result IsWritten }
        ensures begun { Holds (F.held folder) (Lacks (weak_path cache_dir.now)) → IfOk result (λ t. Holds
            t.held (λ files. file_at files (weak_path cache_dir.now) ≡ Some (codes "{}"))) }
        ensures emptied { IfOk result (λ t. Holds t.held (IsEmpty (temp_dir cache_dir.now))) }
        ensures others { IfOk result (λ t. Became (ButOwn cache_dir.now) (F.held folder).files t.held.files) }
        ensures judged { OnOk result (config_verdict configs.now ≡ Ok tt) }
        ensures stands { IfOk result IsClient }
        ensures steady { IfOk result (λ t. t.held.faults ≡ (F.held folder).faults) }
        ensures fails { IfErr result (λ e. (left : F) × OpeningFails e cache_dir.now configs.now (F.held
            folder) (F.held left)) }
    {
        match ClientToolchains::open(alloc, folder, cache_dir, cache_size, configs) {
            Ok(opened) => Ok(opened),
            Err((refusal, _folder)) => Err(refusal),
        }
    }

    /// The same, but that the folder is handed back where it is refused: no more than the client's own files
    /// are removed, none of an archive that the same opening without a fault would list, and the weak map
    /// reads as it did.
    pub fn open(
        alloc: Global,
        mut folder: F,
        cache_dir: &str,
        cache_size: u64,
        configs: &[DistToolchainConfig],
    ) -> Result<Self, (ToolchainError, F)>
        ensures at { IfOk result (λ t. (t.dir ≡ cache_dir.now) × (t.capacity ≡ cache_size) × (t.configs ≡
            configs.now) × (t.taken ≡ [])) }
        ensures fresh { IfOk result (λ t. t.spoiled ≡ 0) }
        ensures archives { IfOk result (λ t. Holds (F.held folder) (λ files. t.archives ≡ opened_archives
            (cache_path cache_dir.now) cache_size files)) }
        ensures relists { IfOk result (λ t. Holds (F.held folder) (λ files. Relists
            (cache_path cache_dir.now) cache_size files t.archives)) }
        ensures in_step { IfOk result (λ t. IsInStep (cache_path cache_dir.now) t.held t.archives) }
        ensures cleared { IfOk result (λ t. Holds t.held (HasOnly (cache_path cache_dir.now) t.archives)) }
        ensures kept { IfOk result (λ t. Became (KeepsListed (cache_path cache_dir.now) cache_size)
            (F.held folder).files t.held.files) }
        ensures weak { IfOk result (λ t. Holds (F.held folder) (λ files. weak_map_at cache_dir.now files ≡
            Some t.weak)) }
        ensures written { IfOk result IsWritten }
        ensures begun { Holds (F.held folder) (Lacks (weak_path cache_dir.now)) → IfOk result (λ t. Holds
            t.held (λ files. file_at files (weak_path cache_dir.now) ≡ Some (codes "{}"))) }
        ensures emptied { IfOk result (λ t. Holds t.held (IsEmpty (temp_dir cache_dir.now))) }
        ensures others { IfOk result (λ t. Became (ButOwn cache_dir.now) (F.held folder).files t.held.files) }
        ensures judged { OnOk result (config_verdict configs.now ≡ Ok tt) }
        ensures stands { IfOk result IsClient }
        ensures steady { IfOk result (λ t. t.held.faults ≡ (F.held folder).faults) }
        ensures fails { IfErr result (λ e. OpeningFails e.0 cache_dir.now configs.now (F.held folder)
            (F.held e.1)) }
        ensures left { IfErr result (λ e. Became (LeftOpen cache_dir.now) (F.held folder).files
            (F.held e.1).files) }
        ensures spared { IfErr result (λ e. Became (KeepsListed (cache_path cache_dir.now) cache_size)
            (F.held folder).files (F.held e.1).files) }
        ensures later { IfErr result (λ e. (F.held folder).faults ≤ (F.held e.1).faults) }
    {
        let Ok(names) = names_of(alloc, cache_dir) else {
            return Err((ToolchainError::Memory, folder));
        };
        match prepare(&mut folder, &names) {
            Ok(()) => {}
            Err(fault) => return Err((fault_error(fault), folder)),
        }
        let mut cache = match TcCache::new(alloc, folder, names.cache.get(), cache_size) {
            Ok(cache) => cache,
            Err((refusal, folder)) => return Err((toolchain_error(refusal), folder)),
        };
        let weak = match load(alloc, &mut cache, &names) {
            Ok(weak) => weak,
            Err(refusal) => return Err((refusal, cache.into_folder())),
        };
        match judge(configs) {
            Ok(()) => {}
            Err(refusal) => return Err((refusal, cache.into_folder())),
        }
        let Ok(configs) = copy_all(alloc, configs) else {
            return Err((ToolchainError::Memory, cache.into_folder()));
        };
        Ok(ClientToolchains {
            alloc,
            cache,
            names,
            weak,
            configs,
            taken: Vec::new(alloc),
        })
    }

    /// The archive of a toolchain: of the configured archives with this id the one whose SHA-256 was taken
    /// last, as it is, else the one in the cache, which becomes the most recent. None exactly where neither
    /// has it.
    ///
    /// Refused as `ToolchainError::Cache` of `Error::Io`, where the archive was not read, and for want of
    /// memory. No file but those of the cache is changed.
    pub fn get_toolchain(&mut self, tc: &Toolchain) -> Result<Option<Vec<u8>>, ToolchainError>
        ensures gets { Gets tc.now (archives_seen result) self.old self.new }
        ensures in_step { OnOk result (KeepsStep self.old self.new) }
        ensures beside { KeepsBeside self.old self.new }
        ensures later { self.old.held.faults ≤ self.new.held.faults }
        ensures stands { IsClient self.new }
    {
        let answer = self.archive_of(tc);
        self.shown();
        answer
    }

    /// What is told of the archive that is configured for a compiler: its toolchain, the compiler's path in
    /// it, and the archive's name. None exactly where no archive is configured for it. Its SHA-256 is taken
    /// at the first call that reads it, and is that of all later ones, which read nothing.
    ///
    /// Refused as `ToolchainError::Cache` of `Error::Io`, where the archive was not read, and for want of
    /// memory.
    pub fn get_custom_toolchain(
        &mut self,
        compiler_path: &str,
    ) -> Option<Result<(Toolchain, String, String), ToolchainError>>
        ensures tells { TellsCustom (custom_of compiler_path.now self.old.configs) compiler_path.now
            (customs_seen result) self.old self.new }
        ensures in_step { KeepsStep self.old self.new }
        ensures beside { KeepsBeside self.old self.new }
        ensures later { self.old.held.faults ≤ self.new.held.faults }
        ensures stands { IsClient self.new }
    {
        let answer = self.tell_custom(compiler_path);
        self.shown();
        answer
    }

    /// Puts the toolchain of a compiler, and tells its id, in four cases in this order. One that is
    /// configured to have none is refused as `Disabled`. Of one with a configured archive that archive is
    /// told, beside it the compiler's path in it and its name. Where an id is recorded under the weak key,
    /// and its archive is listed and read, it is that. Else the packager packs, what it packed is stored, and
    /// recorded under the key.
    ///
    /// Refused as `PackagerFailed` only where the packager's count rose; as `Cache` where the cache refuses
    /// what was packed, or the folder fails; and for want of memory. Where recording fails, the archive stays
    /// listed, the key is unrecorded, and the file of the weak map says the old or the new.
    pub fn put_toolchain(
        &mut self,
        compiler_path: &str,
        weak_key: &str,
        packager: &mut dyn ToolchainPackager,
    ) -> Result<(Toolchain, Option<(String, String)>), ToolchainError>
        ensures puts { Puts (packager.new ≡ packager.old)
            (CalledOnce (times packager.old) (times packager.new)) (packs packager.old)
            (refusals packager.old) (refusals packager.new) compiler_path.now weak_key.now
            (placed_seen result) self.old self.new }
        ensures in_step { OnOk result (KeepsStep self.old self.new) }
        ensures others { KeepsOthers weak_key.now self.old self.new }
        ensures later { self.old.held.faults ≤ self.new.held.faults }
        ensures stands { IsClient self.new }
    {
        let answer = self.put(compiler_path, weak_key, packager);
        self.shown();
        answer
    }

    /// The folder. It takes no memory.
    pub fn into_folder(self) -> F
        ensures { F.held result ≡ self.held }
    {
        let ClientToolchains {
            alloc: _alloc,
            cache,
            names: _names,
            weak: _weak,
            configs: _configs,
            taken: _taken,
        } = self;
        cache.into_folder()
    }

    // What holds of it, whatever failed so far.
    fn shown(&self)
        ensures { IsClient self.now }
    {
        let _names = &self.names;
    }

    // The archive of a toolchain.
    #[tactic(auto, using(crate::proofs::OthersLemmas::beside_same, crate::proofs::PutLemmas::gets_starved))]
    fn archive_of(&mut self, tc: &Toolchain) -> Result<Option<Vec<u8>>, ToolchainError>
        ensures gets { Gets tc.now (archives_seen result) self.old self.new }
        ensures beside { KeepsBeside self.old self.new }
        ensures later { self.old.held.faults ≤ self.new.held.faults }
    {
        match self.taken_archive(tc) {
            Ok(named) => match named {
                Some(archive) => self.read_whole(&archive),
                None => self.find_archive(tc),
            },
            Err(_) => Err(ToolchainError::Memory),
        }
    }

    // What is told of the archive that is configured for a compiler.
    #[tactic(auto, using(crate::proofs::OthersLemmas::beside_same))]
    fn tell_custom(
        &mut self,
        path: &str,
    ) -> Option<Result<(Toolchain, String, String), ToolchainError>>
        ensures tells { TellsCustom (custom_of path.now self.old.configs) path.now (customs_seen result)
            self.old self.new }
        ensures beside { KeepsBeside self.old self.new }
        ensures later { self.old.held.faults ≤ self.new.held.faults }
    {
        match self.custom_of(path) {
            None => None,
            Some(chosen) => match chosen {
                Ok(custom) => Some(told(self.take(path, custom))),
                Err(_) => Some(Err(ToolchainError::Memory)),
            },
        }
    }

    // The four cases, and what is told of them.
    fn put(
        &mut self,
        path: &str,
        key: &str,
        packager: &mut dyn ToolchainPackager,
    ) -> Result<(Toolchain, Option<(String, String)>), ToolchainError>
        ensures puts { Puts (packager.new ≡ packager.old)
            (CalledOnce (times packager.old) (times packager.new)) (packs packager.old)
            (refusals packager.old) (refusals packager.new) path.now key.now (placed_seen result)
            self.old self.new }
        ensures others { KeepsOthers key.now self.old self.new }
        ensures later { self.old.held.faults ≤ self.new.held.faults }
    {
        match self.place(path, key, packager) {
            Ok(placed) => Ok(parts_of(placed)),
            Err(refusal) => Err(refusal),
        }
    }

    // Where its memory comes from.
    fn alloc(&self) -> Global {
        self.alloc
    }

    // The name of the configured archive of an id that was taken last.
    fn taken_archive(&self, tc: &Toolchain) -> Result<Option<Text>, Memory>
        ensures ok { IfOk result (λ o. o ≡ option_map (λ t. t.archive) (last_taken tc.now self.now.taken)) }
        ensures err { OnErr result (IsSome (last_taken tc.now self.now.taken)) }
    {
        match last_taken(tc, &self.taken) {
            Some(taken) => {
                let archive = taken.archive.clone()?;
                Ok(Some(archive))
            }
            None => Ok(None),
        }
    }

    // What is configured for a compiler.
    fn choice_of(&self, path: &str) -> Choice
        ensures { IsChoice (config_of path.now self.now.configs) result }
    {
        choice_of(path, &self.configs)
    }

    // The archive that is configured for a compiler.
    fn custom_of(&self, path: &str) -> Option<Result<CustomToolchain, Memory>>
        ensures { IsCustom (custom_of path.now self.now.configs) result }
    {
        match self.choice_of(path) {
            Choice::Nothing => None,
            Choice::Disabled => None,
            Choice::Archive(custom) => Some(custom),
        }
    }

    // What was taken for a compiler.
    fn taken_id(&self, path: &str) -> Option<Toolchain>
        ensures { result ≡ option_map (λ t. t.id) (taken_of path.now self.now.taken) }
    {
        match taken_of(path, &self.taken) {
            Some(taken) => Some(taken.id),
            None => None,
        }
    }

    // The content of a configured archive.
    fn read_custom(&mut self, archive: &Text) -> Result<Vec<u8>, ToolchainError>
        ensures ok { IfOk result (λ v. Holds self.old.held (λ files. file_at files archive.now ≡ Some
            v.items)) }
        ensures same { OnOk result (self.new ≡ self.old) }
        ensures fails { IfErr result (λ e. Unread archive.now e self.old self.new) }
        ensures beside { KeepsBeside self.old self.new }
        ensures later { self.old.held.faults ≤ self.new.held.faults }
    {
        match self.cache.read_aside(archive.get()) {
            Ok(bytes) => Ok(bytes),
            Err(fault) => Err(fault_error(fault)),
        }
    }

    // The same, as an archive that was found.
    fn read_whole(&mut self, archive: &Text) -> Result<Option<Vec<u8>>, ToolchainError>
        ensures reads { ReadsCustom archive.now (archives_seen result) self.old self.new }
        ensures beside { KeepsBeside self.old self.new }
        ensures later { self.old.held.faults ≤ self.new.held.faults }
    {
        match self.read_custom(archive) {
            Ok(bytes) => Ok(Some(bytes)),
            Err(refusal) => Err(refusal),
        }
    }

    // The archive of a toolchain in the cache.
    fn find(&mut self, tc: &Toolchain) -> Result<Vec<u8>, Error>
        ensures ok { IfOk result (λ v. IsFound tc.now v.items self.old self.new) }
        ensures in_step { OnOk result (KeepsStep self.old self.new) }
        ensures changes { self.new ≡ with_state self.old self.new.archives self.old.weak self.old.taken
            self.new.held }
        ensures fails { IfErr result (λ e. FindFails tc.now e self.old.archives self.new.archives
            self.old.held self.new.held) }
        ensures memory { result ≡ Err Error.Memory → IsSome (lookup (bytes_eq tc.now) self.old.archives) }
        ensures uncounted { IfErr result (λ e. Uncounted e self.old.held self.new.held) }
        ensures beside { KeepsBeside self.old self.new }
        ensures later { self.old.held.faults ≤ self.new.held.faults }
    {
        self.cache.get_file(tc)
    }

    // The archive of a toolchain in the cache: none where it is not listed.
    fn find_archive(&mut self, tc: &Toolchain) -> Result<Option<Vec<u8>>, ToolchainError>
        ensures finds { FindsArchive tc.now (archives_seen result) self.old self.new }
        ensures beside { KeepsBeside self.old self.new }
        ensures later { self.old.held.faults ≤ self.new.held.faults }
    {
        match self.find(tc) {
            Ok(bytes) => Ok(Some(bytes)),
            Err(refusal) => unfound(refusal),
        }
    }

    // Takes the SHA-256 of a configured archive, unless it was taken for its compiler.
    #[tactic(auto, using(crate::proofs::OthersLemmas::beside_same))]
    fn take(&mut self, path: &str, custom: CustomToolchain) -> Result<Custom, ToolchainError>
        ensures takes { Takes (taken_of path.now self.old.taken) path.now custom result self.old self.new }
        ensures beside { KeepsBeside self.old self.new }
        ensures later { self.old.held.faults ≤ self.new.held.faults }
    {
        match self.taken_id(path) {
            Some(id) => Ok(custom_as(id, custom)),
            None => self.take_first(path, custom),
        }
    }

    // Takes the SHA-256 of a configured archive.
    fn take_first(&mut self, path: &str, custom: CustomToolchain) -> Result<Custom, ToolchainError>
        ensures takes { Takes None path.now custom result self.old self.new }
        ensures beside { KeepsBeside self.old self.new }
        ensures later { self.old.held.faults ≤ self.new.held.faults }
    {
        match self.read_custom(&custom.archive) {
            Ok(bytes) => self.note(path, custom, &bytes),
            Err(refusal) => Err(refusal),
        }
    }

    // Notes the SHA-256 of a configured archive that was read.
    #[tactic(auto, using(crate::proofs::OthersLemmas::beside_same))]
    fn note(
        &mut self,
        path: &str,
        custom: CustomToolchain,
        bytes: &[u8],
    ) -> Result<Custom, ToolchainError>
        ensures ok { IfOk result (λ answer. answer ≡ custom_as (id_of bytes.now) custom) }
        ensures noted { OnOk result (self.new ≡ with_state self.old self.old.archives self.old.weak
            (self.old.taken ++ taking path.now (id_of bytes.now) custom.archive ∷ []) self.old.held) }
        ensures err { IfErr result (λ e. (e ≡ ToolchainError.Memory) × (self.new ≡ self.old)) }
        ensures beside { KeepsBeside self.old self.new }
    {
        let id = toolchain_of(bytes);
        let Ok(taken) = taking(self.alloc, path, id, &custom.archive) else {
            return Err(ToolchainError::Memory);
        };
        let Ok(()) = self.taken.push(taken) else {
            return Err(ToolchainError::Memory);
        };
        Ok(custom_as(id, custom))
    }

    // The id that is recorded under a weak key.
    fn recorded_id(&self, key: &str) -> Option<Toolchain>
        ensures { result ≡ recorded_id key.now self.now.weak }
    {
        self.weak.recorded_id(key)
    }

    // The recorded toolchain of a weak key, whose archive is listed and was read; none where one is to be
    // packaged.
    #[tactic(auto, using(crate::proofs::OthersLemmas::beside_same))]
    fn look_up(&mut self, key: &str) -> Result<Option<Toolchain>, ToolchainError>
        ensures looks { LooksUp (recorded_id key.now self.old.weak) result self.old self.new }
        ensures beside { KeepsBeside self.old self.new }
        ensures later { self.old.held.faults ≤ self.new.held.faults }
    {
        match self.recorded_id(key) {
            Some(tc) => self.look_for(tc),
            None => Ok(None),
        }
    }

    // A recorded toolchain, whose archive is listed and was read; none where one is to be packaged.
    fn look_for(&mut self, tc: Toolchain) -> Result<Option<Toolchain>, ToolchainError>
        ensures looks { LooksUp (Some tc) result self.old self.new }
        ensures beside { KeepsBeside self.old self.new }
        ensures later { self.old.held.faults ≤ self.new.held.faults }
    {
        match self.find(&tc) {
            Ok(_bytes) => Ok(Some(tc)),
            Err(refusal) => unlooked(refusal),
        }
    }

    // Stores bytes as the archive of their SHA-256.
    fn store(&mut self, bytes: &[u8]) -> Result<Toolchain, Error>
        ensures stores { Stores bytes.now result self.old self.new }
        ensures in_step { OnOk result (KeepsStep self.old self.new) }
        ensures beside { KeepsBeside self.old self.new }
        ensures later { self.old.held.faults ≤ self.new.held.faults }
    {
        self.cache.insert_package(bytes)
    }

    // Records an id under a weak key.
    #[tactic(auto, using(crate::proofs::OthersLemmas::own_of_two, crate::proofs::OthersLemmas::own_same, crate::proofs::OthersLemmas::two_spared, lru_disk_cache::proofs::Spoiled::none_spoiled))]
    fn record(&mut self, key: &str, tc: &Toolchain) -> Result<(), ToolchainError>
        ensures records { Records key.now tc.now result self.old self.new }
        ensures in_step { OnOk result (KeepsStep self.old self.new) }
        ensures dir { self.new.dir ≡ self.old.dir }
        ensures own { Became (ButOwn self.old.dir) self.old.held.files self.new.held.files }
        ensures kept { KeptOrRecorded key.now tc.now self.old self.new }
        ensures spared { Became (KeepsSpoiled (front (cache_path self.old.dir)) self.old.spoiled)
            self.old.held.files self.new.held.files }
        ensures unspoiled { self.new.spoiled ≡ self.old.spoiled }
        ensures later { self.old.held.faults ≤ self.new.held.faults }
    {
        let Ok(weak) = self.weak.with_recorded(self.alloc, key, tc) else {
            return Err(ToolchainError::Memory);
        };
        let Ok(text) = weak.text(self.alloc) else {
            return Err(ToolchainError::Memory);
        };
        match save(&mut self.cache, &self.names, &text) {
            Ok(()) => {
                self.weak = weak;
                Ok(())
            }
            Err(fault) => Err(fault_error(fault)),
        }
    }

    // Records the id of an archive that was stored.
    #[tactic(auto, using(crate::proofs::OthersLemmas::others_recorded))]
    fn record_stored(&mut self, key: &str, tc: Toolchain) -> Result<Toolchain, ToolchainError>
        ensures records { RecordsStored key.now tc result self.old self.new }
        ensures others { KeepsOthers key.now self.old self.new }
        ensures later { self.old.held.faults ≤ self.new.held.faults }
    {
        match self.record(key, &tc) {
            Ok(()) => Ok(tc),
            Err(refusal) => Err(refusal),
        }
    }

    // Stores what was packed, and records its id.
    #[tactic(auto, using(crate::proofs::OthersLemmas::others_of))]
    fn stock(&mut self, key: &str, bytes: &[u8]) -> Result<Toolchain, ToolchainError>
        ensures stocks { IsStocked key.now bytes.now result self.old self.new }
        ensures others { KeepsOthers key.now self.old self.new }
        ensures later { self.old.held.faults ≤ self.new.held.faults }
    {
        match self.store(bytes) {
            Ok(tc) => self.record_stored(key, tc),
            Err(refusal) => Err(toolchain_error(refusal)),
        }
    }

    // Packs, stores what was packed, and records its id.
    #[tactic(auto, using(crate::proofs::OthersLemmas::beside_same, crate::proofs::OthersLemmas::others_of))]
    fn package(
        &mut self,
        key: &str,
        packager: &mut dyn ToolchainPackager,
    ) -> Result<Toolchain, ToolchainError>
        ensures packages { Packages (CalledOnce (times packager.old) (times packager.new))
            (packs packager.old) (refusals packager.old) (refusals packager.new)
            key.now result self.old self.new }
        ensures others { KeepsOthers key.now self.old self.new }
        ensures later { self.old.held.faults ≤ self.new.held.faults }
    {
        match packed(self.alloc(), packager) {
            Ok(bytes) => self.stock(key, &bytes),
            Err(refusal) => Err(refusal),
        }
    }

    // The fourth case.
    fn put_package(
        &mut self,
        key: &str,
        packager: &mut dyn ToolchainPackager,
    ) -> Result<Placed, ToolchainError>
        ensures puts { PutsPackage (CalledOnce (times packager.old) (times packager.new))
            (packs packager.old) (refusals packager.old) (refusals packager.new)
            key.now result self.old self.new }
        ensures others { KeepsOthers key.now self.old self.new }
        ensures later { self.old.held.faults ≤ self.new.held.faults }
    {
        match self.package(key, packager) {
            Ok(tc) => Ok(Placed::Alone(tc)),
            Err(refusal) => Err(refusal),
        }
    }

    // The third and the fourth case.
    #[tactic(auto, using(crate::proofs::OthersLemmas::others_then, crate::proofs::OthersLemmas::others_of))]
    fn look_then_package(
        &mut self,
        key: &str,
        packager: &mut dyn ToolchainPackager,
    ) -> Result<Placed, ToolchainError>
        ensures puts { LooksThenPackages (packager.new ≡ packager.old)
            (CalledOnce (times packager.old) (times packager.new)) (packs packager.old)
            (refusals packager.old) (refusals packager.new) key.now result self.old self.new }
        ensures others { KeepsOthers key.now self.old self.new }
        ensures later { self.old.held.faults ≤ self.new.held.faults }
    {
        match self.look_up(key) {
            Ok(looked) => match looked {
                Some(tc) => Ok(Placed::Alone(tc)),
                None => self.put_package(key, packager),
            },
            Err(refusal) => Err(refusal),
        }
    }

    // The second case.
    fn put_custom(&mut self, path: &str, custom: CustomToolchain) -> Result<Placed, ToolchainError>
        ensures puts { PutsCustom path.now custom result self.old self.new }
        ensures beside { KeepsBeside self.old self.new }
        ensures later { self.old.held.faults ≤ self.new.held.faults }
    {
        match self.take(path, custom) {
            Ok(custom) => Ok(Placed::Configured(custom)),
            Err(refusal) => Err(refusal),
        }
    }

    // The four cases.
    #[tactic(auto, using(crate::proofs::OthersLemmas::beside_same, crate::proofs::OthersLemmas::others_of))]
    fn place(
        &mut self,
        path: &str,
        key: &str,
        packager: &mut dyn ToolchainPackager,
    ) -> Result<Placed, ToolchainError>
        ensures puts { Puts (packager.new ≡ packager.old)
            (CalledOnce (times packager.old) (times packager.new)) (packs packager.old)
            (refusals packager.old) (refusals packager.new) path.now key.now result self.old self.new }
        ensures others { KeepsOthers key.now self.old self.new }
        ensures later { self.old.held.faults ≤ self.new.held.faults }
    {
        match self.choice_of(path) {
            Choice::Nothing => self.look_then_package(key, packager),
            Choice::Disabled => Err(ToolchainError::Disabled),
            Choice::Archive(chosen) => match chosen {
                Ok(custom) => self.put_custom(path, custom),
                Err(_) => Err(ToolchainError::Memory),
            },
        }
    }
}

// What a packager packs.
fn packed(alloc: Global, packager: &mut dyn ToolchainPackager) -> Result<Vec<u8>, ToolchainError>
    ensures { Packs (CalledOnce (times packager.old) (times packager.new)) (packs packager.old)
        (refusals packager.old) (refusals packager.new) (bytes_seen result) }
{
    let mut bytes = Vec::new(alloc);
    match packager.write_pkg(&mut bytes) {
        Ok(()) => Ok(bytes),
        Err(fault) => match fault {
            PackFault::Refused => Err(ToolchainError::PackagerFailed),
            PackFault::Memory => Err(ToolchainError::Memory),
        },
    }
}

// A configured archive whose SHA-256 was taken for a compiler.
fn taking(alloc: Global, path: &str, id: Toolchain, archive: &Text) -> Result<Taken, Memory>
    ensures { IfOk result (λ t. t ≡ taking path.now id archive.now) }
{
    let compiler = Text::of(alloc, path)?;
    let archive = archive.clone()?;
    Ok(Taken {
        compiler,
        id,
        archive,
    })
}

// What a failed look into the cache comes to: none where the archive is not listed.
fn unfound(refusal: Error) -> Result<Option<Vec<u8>>, ToolchainError>
    ensures { archives_seen result ≡ found_of refusal }
{
    match refusal {
        Error::FileNotInCache => Ok(None),
        Error::Io(fault) => Err(ToolchainError::Cache(Error::Io(fault))),
        Error::Memory => Err(ToolchainError::Memory),
        Error::FileTooLarge => Err(ToolchainError::Cache(Error::FileTooLarge)),
        Error::PendingSpace => Err(ToolchainError::Cache(Error::PendingSpace)),
        Error::BadKey => Err(ToolchainError::Cache(Error::BadKey)),
        Error::NotPending => Err(ToolchainError::Cache(Error::NotPending)),
        Error::WrongDigest => Err(ToolchainError::Cache(Error::WrongDigest)),
        Error::WriterRefused => Err(ToolchainError::Cache(Error::WriterRefused)),
    }
}

// What a failed look for a recorded archive comes to: none where it is to be packaged.
fn unlooked(refusal: Error) -> Result<Option<Toolchain>, ToolchainError>
    ensures { result ≡ looked_of refusal }
{
    match refusal {
        Error::FileNotInCache => Ok(None),
        Error::Io(fault) => match fault {
            FolderFault::Missing => Ok(None),
            FolderFault::Failed => Err(ToolchainError::Cache(Error::Io(FolderFault::Failed))),
            FolderFault::Memory => Err(ToolchainError::Cache(Error::Io(FolderFault::Memory))),
        },
        Error::Memory => Err(ToolchainError::Memory),
        Error::FileTooLarge => Err(ToolchainError::Cache(Error::FileTooLarge)),
        Error::PendingSpace => Err(ToolchainError::Cache(Error::PendingSpace)),
        Error::BadKey => Err(ToolchainError::Cache(Error::BadKey)),
        Error::NotPending => Err(ToolchainError::Cache(Error::NotPending)),
        Error::WrongDigest => Err(ToolchainError::Cache(Error::WrongDigest)),
        Error::WriterRefused => Err(ToolchainError::Cache(Error::WriterRefused)),
    }
}

// What is told of a configured archive, in three parts.
fn told(
    custom: Result<Custom, ToolchainError>,
) -> Result<(Toolchain, String, String), ToolchainError>
    ensures { custom_told result ≡ custom }
{
    match custom {
        Ok(custom) => {
            let Custom {
                id,
                inside,
                archive,
            } = custom;
            Ok((id, inside.into_inner(), archive.into_inner()))
        }
        Err(refusal) => Err(refusal),
    }
}

// What is told of a compiler's toolchain, in its parts.
fn parts_of(placed: Placed) -> (Toolchain, Option<(String, String)>)
    ensures { placed_as result ≡ placed }
{
    match placed {
        Placed::Alone(id) => (id, None),
        Placed::Configured(custom) => {
            let Custom {
                id,
                inside,
                archive,
            } = custom;
            (id, Some((inside.into_inner(), archive.into_inner())))
        }
    }
}
