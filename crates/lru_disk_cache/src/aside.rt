//! Files that are kept beside a cache, in its folder.
ghost use Rattle.std.specs.Prelude.{◌≡◌, ◌≤◌, Some, IfOk, IfErr, OnOk};
ghost use Rattle.listed_files.specs.Calls.{CallFails};
ghost use Rattle.folders.specs.Files.{file_at, size_at, put, moved, PartWritten, DoneOrNot, Same};
ghost use Rattle.folders.specs.Failures.{WhereTold};
ghost use Rattle.folders.specs.Held.{Holds, Lacks, Never, Changes};
ghost use Rattle.listed_files.specs.Told.{ToldCall};
ghost use Rattle.folders.specs.Changed.{IsOutside};

use crate::cache::LruDiskCache;
use crate::error;
use folders::fault::FolderFault;
use folders::folder::Folder;
use listed_files::storing::measure;

impl<F: Folder> LruDiskCache<F> {
    ghost use Rattle.lru_disk_cache.specs.Store.{IsStore};
    ghost use Rattle.listed_files.specs.Calls.{Uncounted};

    /// The content of a file of the folder. The cache stays as it is.
    pub fn read_aside(&mut self, path: &str) -> Result<Vec<u8>, FolderFault>
        ensures content { IfOk result
            (λ v. Holds (F.held self.old.folder) (λ files. file_at files path.now ≡ Some v.items)) }
        ensures leaves { Changes (Lacks path.now) (λ files. files) Same result (F.held self.old.folder)
            (F.held self.new.folder) }
        ensures disk { self.new.disk ≡ self.old.disk }
        ensures unspoiled { self.new.spoiled ≡ self.old.spoiled }
        ensures stands { IsStore (F.held self.new.folder) self.new.disk }
    {
        self.folder.read(path)
    }

    /// How many bytes a file of the folder has. The cache stays as it is.
    pub(crate) fn path_size(&mut self, path: &str) -> error::Result<u64>
        ensures size { IfOk result
            (λ n. Holds (F.held self.old.folder) (λ files. size_at files path.now ≡ Some n)) }
        ensures same { OnOk result (F.held self.new.folder ≡ F.held self.old.folder) }
        ensures files { (F.held self.new.folder).files ≡ (F.held self.old.folder).files }
        ensures fails { IfErr result
            (λ e. CallFails (Lacks path.now) e (F.held self.old.folder) (F.held self.new.folder)) }
        ensures uncounted { IfErr result
            (λ e. Uncounted e (F.held self.old.folder) (F.held self.new.folder)) }
        ensures later { (F.held self.old.folder).faults ≤ (F.held self.new.folder).faults }
        ensures failed { WhereTold (F.held self.old.folder) (ToldCall result (F.failures self.old.folder)
            (F.failures self.new.folder)) }
        ensures disk { self.new.disk ≡ self.old.disk }
        ensures unspoiled { self.new.spoiled ≡ self.old.spoiled }
        ensures stands { IsStore (F.held self.new.folder) self.new.disk }
    {
        measure(&mut self.folder, path)
    }

    /// Writes a file of the folder that does not lie below the path of the cache, which stays as it is.
    pub fn write_aside(&mut self, path: &str, bytes: &[u8]) -> Result<(), FolderFault>
        requires { IsOutside self.old.disk.path path.now }
        ensures writes { Changes Never (put path.now bytes.now) (PartWritten path.now bytes.now) result
            (F.held self.old.folder) (F.held self.new.folder) }
        ensures disk { self.new.disk ≡ self.old.disk }
        ensures unspoiled { self.new.spoiled ≡ self.old.spoiled }
        ensures stands { IsStore (F.held self.new.folder) self.new.disk }
    {
        self.folder.write(path, bytes)
    }

    /// Renames a file of the folder, from and to paths that do not lie below that of the cache, which stays
    /// as it is.
    pub fn rename_aside(&mut self, from: &str, to: &str) -> Result<(), FolderFault>
        requires from { IsOutside self.old.disk.path from.now }
        requires to { IsOutside self.old.disk.path to.now }
        ensures renames { Changes (Lacks from.now) (moved from.now to.now) (DoneOrNot (moved from.now to.now))
            result (F.held self.old.folder) (F.held self.new.folder) }
        ensures disk { self.new.disk ≡ self.old.disk }
        ensures unspoiled { self.new.spoiled ≡ self.old.spoiled }
        ensures stands { IsStore (F.held self.new.folder) self.new.disk }
    {
        self.folder.rename(from, to)
    }
}
