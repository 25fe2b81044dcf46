//! A folder in memory that never fails.
ghost use Rattle.std.specs.Prelude.{◌≡◌, [], Some, IfOk, IfErr};
ghost use Rattle.std.specs.List.{IsDistinct};
ghost use Rattle.std.specs.Map.{keys_of};
ghost use Rattle.std.specs.Str.{bytes_eq};
ghost use Rattle.std.proofs.Props.{props};
ghost use Rattle.folders.specs.Files.{Files, file_at, size_at, put, without, moved, touched, appended};
ghost use Rattle.folders.specs.Files.{found_under, PartWritten, PartAppended, DoneOrNot, Same};
ghost use Rattle.folders.specs.Held.{Held, Holds, Lacks, Never, Changes, IsFault};

use crate::failure_counts::FailureCounts;
use crate::fault::FolderFault;
use crate::folder::{Folder, Found};
use crate::paths::front_of;
use crate::rows::{content, find, joined_bytes, put, put_from, take_out};
use dist_types::text::{Bytes, Text};
use std::alloc::Global;

/// Files by path, in order of recency, whose paths differ. No call fails but for want of memory.
#[derive(Debug, Drop)]
pub struct ReliableFolder {
    alloc: Global,
    files: Vec<(Text, Bytes)>,
    failures: FailureCounts,
    ghost distinct: { IsDistinct bytes_eq (keys_of files.items) } by { Prim.hlevel props },
}

impl ReliableFolder {
    ghost use Rattle.folders.specs.InMemory.{reliable_files};

    /// A folder with no file. It takes no memory.
    pub fn new(alloc: Global) -> Self
        ensures empty { reliable_files result ≡ [] }
    {
        ReliableFolder {
            alloc,
            files: Vec::new(alloc),
            failures: FailureCounts::none(),
        }
    }

    /// Its files.
    pub fn files(&self) -> &[(Text, Bytes)]
        ensures { result.now ≡ reliable_files self.now }
    {
        &self.files
    }
}

impl ReliableFolder {
    ghost use Rattle.folders.specs.InMemory.{reliable_held};

    // The files below a directory.
    fn try_list(&mut self, under: &str) -> Result<Vec<Found>, FolderFault>
        ensures found { IfOk result
            (λ v. Holds (reliable_held self.old) (λ files. v.items ≡ found_under under.now files)) }
        ensures distinct { IfOk result
            (λ v. Holds (reliable_held self.old) (λ files. IsDistinct bytes_eq (keys_of files))) }
        ensures leaves { Changes Never (λ files. files) Same result (reliable_held self.old) (reliable_held self.new) }
        ensures finds { IfErr result IsFault }
        ensures kept { self.new.failures ≡ self.old.failures }
    {
        let begun = front_of(self.alloc, under)?;
        let found = find(self.alloc, &self.files, begun.get())?;
        Ok(found)
    }

    // The directories above a path.
    fn try_make_parents(&mut self, path: &str) -> Result<(), FolderFault>
        ensures leaves { Changes Never (λ files. files) Same result (reliable_held self.old) (reliable_held self.new) }
        ensures finds { IfErr result IsFault }
        ensures kept { self.new.failures ≡ self.old.failures }
    {
        let _path = path;
        Ok(())
    }

    // The content of a file.
    fn try_read(&mut self, path: &str) -> Result<Vec<u8>, FolderFault>
        ensures content { IfOk result
            (λ v. Holds (reliable_held self.old) (λ files. file_at files path.now ≡ Some v.items)) }
        ensures leaves { Changes (Lacks path.now) (λ files. files) Same result (reliable_held self.old)
            (reliable_held self.new) }
        ensures kept { self.new.failures ≡ self.old.failures }
    {
        let Some(bytes) = content(&self.files, path) else {
            return Err(FolderFault::Missing);
        };
        let copy = Vec::from_slice(self.alloc, bytes)?;
        Ok(copy)
    }

    // The size of a file.
    fn try_size(&mut self, path: &str) -> Result<u64, FolderFault>
        ensures size { IfOk result (λ n. Holds (reliable_held self.old) (λ files. size_at files path.now ≡ Some n)) }
        ensures leaves { Changes (Lacks path.now) (λ files. files) Same result (reliable_held self.old)
            (reliable_held self.new) }
        ensures kept { self.new.failures ≡ self.old.failures }
    {
        let Some(bytes) = content(&self.files, path) else {
            return Err(FolderFault::Missing);
        };
        Ok(bytes.len() as u64)
    }

    // A whole new file.
    fn try_write(&mut self, path: &str, bytes: &[u8]) -> Result<(), FolderFault>
        ensures writes { Changes Never (put path.now bytes.now) (PartWritten path.now bytes.now) result
            (reliable_held self.old) (reliable_held self.new) }
        ensures finds { IfErr result IsFault }
        ensures kept { self.new.failures ≡ self.old.failures }
    {
        put(self.alloc, &mut self.files, path, bytes)?;
        Ok(())
    }

    // Bytes at the end of a file.
    fn try_append(&mut self, path: &str, bytes: &[u8]) -> Result<(), FolderFault>
        ensures appends { Changes (Lacks path.now) (appended path.now bytes.now)
            (PartAppended path.now bytes.now) result (reliable_held self.old) (reliable_held self.new) }
        ensures kept { self.new.failures ≡ self.old.failures }
    {
        let Some(there) = content(&self.files, path) else {
            return Err(FolderFault::Missing);
        };
        let whole = joined_bytes(self.alloc, there, bytes)?;
        put(self.alloc, &mut self.files, path, whole.get())?;
        Ok(())
    }

    // The file takes another path.
    fn try_rename(&mut self, from: &str, to: &str) -> Result<(), FolderFault>
        ensures renames { Changes (Lacks from.now) (moved from.now to.now) (DoneOrNot (moved from.now to.now))
            result (reliable_held self.old) (reliable_held self.new) }
        ensures kept { self.new.failures ≡ self.old.failures }
    {
        let Some(bytes) = content(&self.files, from) else {
            return Err(FolderFault::Missing);
        };
        let copy = Bytes::from_slice(self.alloc, bytes)?;
        put_from(self.alloc, &mut self.files, from, to, copy)?;
        Ok(())
    }

    // The file is gone.
    fn try_remove(&mut self, path: &str) -> Result<(), FolderFault>
        ensures removes { Changes (Lacks path.now) (without path.now) (DoneOrNot (without path.now)) result
            (reliable_held self.old) (reliable_held self.new) }
        ensures kept { self.new.failures ≡ self.old.failures }
    {
        if content(&self.files, path).is_none() {
            return Err(FolderFault::Missing);
        }
        take_out(&mut self.files, path);
        Ok(())
    }

    // The file is the most recent.
    fn try_touch(&mut self, path: &str) -> Result<(), FolderFault>
        ensures touches { Changes (Lacks path.now) (touched path.now) (DoneOrNot (touched path.now)) result
            (reliable_held self.old) (reliable_held self.new) }
        ensures kept { self.new.failures ≡ self.old.failures }
    {
        let Some(bytes) = content(&self.files, path) else {
            return Err(FolderFault::Missing);
        };
        let copy = Bytes::from_slice(self.alloc, bytes)?;
        put(self.alloc, &mut self.files, path, copy.get())?;
        Ok(())
    }
}

impl Folder for ReliableFolder {
    ghost use Rattle.folders.specs.InMemory.{reliable_failures, reliable_held};

    ghost held = { reliable_held };

    ghost failures = { reliable_failures };

    fn list(&mut self, under: &str) -> Result<Vec<Found>, FolderFault> {
        let answer = self.try_list(under);
        self.failures.count(&answer);
        answer
    }

    fn make_parents(&mut self, path: &str) -> Result<(), FolderFault> {
        let answer = self.try_make_parents(path);
        self.failures.count(&answer);
        answer
    }

    fn read(&mut self, path: &str) -> Result<Vec<u8>, FolderFault> {
        let answer = self.try_read(path);
        self.failures.count(&answer);
        answer
    }

    fn size(&mut self, path: &str) -> Result<u64, FolderFault> {
        let answer = self.try_size(path);
        self.failures.count(&answer);
        answer
    }

    fn write(&mut self, path: &str, bytes: &[u8]) -> Result<(), FolderFault> {
        let answer = self.try_write(path, bytes);
        self.failures.count(&answer);
        answer
    }

    fn append(&mut self, path: &str, bytes: &[u8]) -> Result<(), FolderFault> {
        let answer = self.try_append(path, bytes);
        self.failures.count(&answer);
        answer
    }

    fn rename(&mut self, from: &str, to: &str) -> Result<(), FolderFault> {
        let answer = self.try_rename(from, to);
        self.failures.count_rename(&answer);
        answer
    }

    fn remove(&mut self, path: &str) -> Result<(), FolderFault> {
        let answer = self.try_remove(path);
        self.failures.count_removal(&answer);
        answer
    }

    fn touch(&mut self, path: &str) -> Result<(), FolderFault> {
        let answer = self.try_touch(path);
        self.failures.count(&answer);
        answer
    }

    fn faults(&self) -> u64 {
        0
    }
}
