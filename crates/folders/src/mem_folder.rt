//! The folder in memory.
ghost use Rattle.std.specs.Prelude.{◌≡◌, Some, IfOk, IfErr};
ghost use Rattle.std.specs.List.{IsDistinct};
ghost use Rattle.std.specs.Map.{keys_of};
ghost use Rattle.std.specs.Str.{bytes_eq};
ghost use Rattle.std.proofs.Props.{props};
ghost use Rattle.dist_types.specs.Cause.{counted};
ghost use Rattle.folders.specs.Files.{Files, file_at, size_at, put, without, moved, touched, appended};
ghost use Rattle.folders.specs.Files.{found_under, PartWritten, PartAppended, DoneOrNot, Same};
ghost use Rattle.folders.specs.Failures.{call_failed, rename_failed, removal_failed, WhereTold};
ghost use Rattle.folders.specs.Held.{Held, Lacks, Never, Changes, IsFault};

use crate::calls::Calls;
use crate::failure_counts::FailureCounts;
use crate::fault::FolderFault;
use crate::folder::{Folder, Found};
use crate::paths::front_of;
use crate::rows::{content, find, joined_bytes, put, put_from, take_out};
use dist_types::text::{Bytes, Text};
use std::alloc::Global;

/// Files by path, in order of recency, whose paths differ.
#[derive(Debug, Drop)]
pub struct MemFolder {
    alloc: Global,
    files: Vec<(Text, Bytes)>,
    calls: Calls,
    failures: FailureCounts,
    ghost distinct: { IsDistinct bytes_eq (keys_of files.items) } by { Prim.hlevel props },
}

impl MemFolder {
    ghost use Rattle.folders.specs.InMemory.{folder_files, folder_calls, folder_failures};

    /// A folder with these files.
    pub fn new(alloc: Global, files: Vec<(Text, Bytes)>, calls: Calls) -> Self
        requires { IsDistinct bytes_eq (keys_of files.items) }
        ensures files { folder_files result ≡ files.items }
        ensures calls { folder_calls result ≡ calls }
        ensures failures { folder_failures result ≡ record { renames = 0; removals = 0; memory = 0 } }
    {
        MemFolder {
            alloc,
            files,
            calls,
            failures: FailureCounts::none(),
        }
    }

    /// How often its calls failed, by kind.
    pub fn failures(&self) -> &FailureCounts
        ensures { result.now ≡ folder_failures self.now }
    {
        &self.failures
    }

    /// Its files.
    pub fn files(&self) -> &[(Text, Bytes)]
        ensures { result.now ≡ folder_files self.now }
    {
        &self.files
    }
}

impl MemFolder {
    ghost use Rattle.folders.specs.InMemory.{folder_held, folder_files, folder_calls, verdict, left};
    ghost use Rattle.folders.specs.InMemory.{folder_count, SameNumbers, there, Acts, piece_verdict, piece_left};
    ghost use Rattle.folders.specs.Numbers.{piece};

    // The files below a directory.
    fn try_list(&mut self, under: &str) -> Result<Vec<Found>, FolderFault>
        ensures found { IfOk result (λ v. v.items ≡ found_under under.now (folder_files self.old)) }
        ensures distinct { IfOk result (λ v. IsDistinct bytes_eq (keys_of (folder_files self.old))) }
        ensures leaves { Changes Never (λ files. files) Same result (folder_held self.old)
            (folder_held self.new) }
        ensures finds { IfErr result IsFault }

        ensures exact { Acts (λ v. v.items) result
            (verdict (folder_calls self.old) (Some (found_under under.now (folder_files self.old))))
            (folder_files self.old) (folder_files self.old) (folder_files self.new) }
        ensures calls { folder_count self.new ≡ counted (folder_count self.old) }
        ensures listed { SameNumbers (folder_calls self.old) (folder_calls self.new) }
        ensures kept { self.new.failures ≡ self.old.failures }
    {
        let breaks = self.calls.begin()?;
        let begun = front_of(self.alloc, under)?;
        let found = find(self.alloc, &self.files, begun.get())?;
        self.calls.end(breaks)?;
        Ok(found)
    }

    // The content of a file.
    fn try_read(&mut self, path: &str) -> Result<Vec<u8>, FolderFault>
        ensures content { IfOk result (λ v. file_at (folder_files self.old) path.now ≡ Some v.items) }
        ensures leaves { Changes (Lacks path.now) (λ files. files) Same result (folder_held self.old)
            (folder_held self.new) }

        ensures exact { Acts (λ v. v.items) result
            (verdict (folder_calls self.old) (file_at (folder_files self.old) path.now))
            (folder_files self.old) (folder_files self.old) (folder_files self.new) }
        ensures calls { folder_count self.new ≡ counted (folder_count self.old) }
        ensures listed { SameNumbers (folder_calls self.old) (folder_calls self.new) }
        ensures kept { self.new.failures ≡ self.old.failures }
    {
        let breaks = self.calls.begin()?;
        let Some(bytes) = content(&self.files, path) else {
            return Err(FolderFault::Missing);
        };
        let copy = Vec::from_slice(self.alloc, bytes)?;
        self.calls.end(breaks)?;
        Ok(copy)
    }

    // The directories above a path.
    fn try_make_parents(&mut self, path: &str) -> Result<(), FolderFault>
        ensures leaves { Changes Never (λ files. files) Same result (folder_held self.old)
            (folder_held self.new) }
        ensures finds { IfErr result IsFault }

        ensures exact { Acts (λ v. v) result (verdict (folder_calls self.old) (Some (tt {0})))
            (folder_files self.old) (folder_files self.old) (folder_files self.new) }
        ensures calls { folder_count self.new ≡ counted (folder_count self.old) }
        ensures listed { SameNumbers (folder_calls self.old) (folder_calls self.new) }
        ensures kept { self.new.failures ≡ self.old.failures }
    {
        let _path = path;
        let breaks = self.calls.begin()?;
        self.calls.end(breaks)
    }

    // The size of a file.
    fn try_size(&mut self, path: &str) -> Result<u64, FolderFault>
        ensures size { IfOk result (λ n. size_at (folder_files self.old) path.now ≡ Some n) }
        ensures leaves { Changes (Lacks path.now) (λ files. files) Same result (folder_held self.old)
            (folder_held self.new) }

        ensures exact { Acts (λ v. v) result
            (verdict (folder_calls self.old) (size_at (folder_files self.old) path.now))
            (folder_files self.old) (folder_files self.old) (folder_files self.new) }
        ensures calls { folder_count self.new ≡ counted (folder_count self.old) }
        ensures listed { SameNumbers (folder_calls self.old) (folder_calls self.new) }
        ensures kept { self.new.failures ≡ self.old.failures }
    {
        let breaks = self.calls.begin()?;
        let Some(bytes) = content(&self.files, path) else {
            return Err(FolderFault::Missing);
        };
        let size = bytes.len() as u64;
        self.calls.end(breaks)?;
        Ok(size)
    }

    // Bytes at the end of a file.
    fn try_append(&mut self, path: &str, bytes: &[u8]) -> Result<(), FolderFault>
        ensures appends { Changes (Lacks path.now) (appended path.now bytes.now)
            (PartAppended path.now bytes.now) result (folder_held self.old) (folder_held self.new) }

        ensures exact { Acts (λ v. v) result
            (piece_verdict (folder_calls self.old) bytes.now (there (folder_files self.old) path.now))
            (piece_left (folder_calls self.old) bytes.now (there (folder_files self.old) path.now)
            (folder_files self.old)
            (appended path.now (piece (folder_calls self.old) bytes.now) (folder_files self.old)))
            (folder_files self.old) (folder_files self.new) }
        ensures calls { folder_count self.new ≡ counted (folder_count self.old) }
        ensures listed { SameNumbers (folder_calls self.old) (folder_calls self.new) }
        ensures kept { self.new.failures ≡ self.old.failures }
    {
        let piece = self.calls.begin_piece(bytes)?;
        let Some(there) = content(&self.files, path) else {
            return Err(FolderFault::Missing);
        };
        let whole = joined_bytes(self.alloc, there, &bytes[..piece.length])?;
        put(self.alloc, &mut self.files, path, whole.get())?;
        self.calls.end(piece.breaks)
    }

    // A whole new file.
    fn try_write(&mut self, path: &str, bytes: &[u8]) -> Result<(), FolderFault>
        ensures writes { Changes Never (put path.now bytes.now) (PartWritten path.now bytes.now) result
            (folder_held self.old) (folder_held self.new) }
        ensures finds { IfErr result IsFault }

        ensures exact { Acts (λ v. v) result
            (piece_verdict (folder_calls self.old) bytes.now (Some (tt {0})))
            (piece_left (folder_calls self.old) bytes.now (Some (tt {0})) (folder_files self.old)
            (put path.now (piece (folder_calls self.old) bytes.now) (folder_files self.old)))
            (folder_files self.old) (folder_files self.new) }
        ensures calls { folder_count self.new ≡ counted (folder_count self.old) }
        ensures listed { SameNumbers (folder_calls self.old) (folder_calls self.new) }
        ensures kept { self.new.failures ≡ self.old.failures }
    {
        let piece = self.calls.begin_piece(bytes)?;
        put(self.alloc, &mut self.files, path, &bytes[..piece.length])?;
        self.calls.end(piece.breaks)
    }

    // The file is gone.
    fn try_remove(&mut self, path: &str) -> Result<(), FolderFault>
        ensures removes { Changes (Lacks path.now) (without path.now) (DoneOrNot (without path.now)) result
            (folder_held self.old) (folder_held self.new) }

        ensures exact { Acts (λ v. v) result
            (verdict (folder_calls self.old) (there (folder_files self.old) path.now))
            (left (folder_calls self.old) (there (folder_files self.old) path.now) (folder_files self.old)
            (without path.now (folder_files self.old))) (folder_files self.old) (folder_files self.new) }
        ensures calls { folder_count self.new ≡ counted (folder_count self.old) }
        ensures listed { SameNumbers (folder_calls self.old) (folder_calls self.new) }
        ensures kept { self.new.failures ≡ self.old.failures }
    {
        let breaks = self.calls.begin()?;
        if content(&self.files, path).is_none() {
            return Err(FolderFault::Missing);
        }
        take_out(&mut self.files, path);
        self.calls.end(breaks)
    }

    // The file is the most recent.
    fn try_touch(&mut self, path: &str) -> Result<(), FolderFault>
        ensures touches { Changes (Lacks path.now) (touched path.now) (DoneOrNot (touched path.now)) result
            (folder_held self.old) (folder_held self.new) }

        ensures exact { Acts (λ v. v) result
            (verdict (folder_calls self.old) (there (folder_files self.old) path.now))
            (left (folder_calls self.old) (there (folder_files self.old) path.now) (folder_files self.old)
            (touched path.now (folder_files self.old))) (folder_files self.old) (folder_files self.new) }
        ensures calls { folder_count self.new ≡ counted (folder_count self.old) }
        ensures listed { SameNumbers (folder_calls self.old) (folder_calls self.new) }
        ensures kept { self.new.failures ≡ self.old.failures }
    {
        let breaks = self.calls.begin()?;
        let Some(bytes) = content(&self.files, path) else {
            return Err(FolderFault::Missing);
        };
        let copy = Bytes::from_slice(self.alloc, bytes)?;
        put(self.alloc, &mut self.files, path, copy.get())?;
        self.calls.end(breaks)
    }

    // The file takes another path.
    fn try_rename(&mut self, from: &str, to: &str) -> Result<(), FolderFault>
        ensures renames { Changes (Lacks from.now) (moved from.now to.now) (DoneOrNot (moved from.now to.now))
            result (folder_held self.old) (folder_held self.new) }

        ensures exact { Acts (λ v. v) result
            (verdict (folder_calls self.old) (there (folder_files self.old) from.now))
            (left (folder_calls self.old) (there (folder_files self.old) from.now) (folder_files self.old)
            (moved from.now to.now (folder_files self.old))) (folder_files self.old) (folder_files self.new) }
        ensures calls { folder_count self.new ≡ counted (folder_count self.old) }
        ensures listed { SameNumbers (folder_calls self.old) (folder_calls self.new) }
        ensures kept { self.new.failures ≡ self.old.failures }
    {
        let breaks = self.calls.begin()?;
        let Some(bytes) = content(&self.files, from) else {
            return Err(FolderFault::Missing);
        };
        let copy = Bytes::from_slice(self.alloc, bytes)?;
        put_from(self.alloc, &mut self.files, from, to, copy)?;
        self.calls.end(breaks)
    }
}

impl Folder for MemFolder {
    ghost use Rattle.folders.specs.InMemory.{folder_failures, folder_held, folder_files, folder_calls, verdict, left};
    ghost use Rattle.folders.specs.InMemory.{folder_count, SameNumbers, there, Acts, piece_verdict, piece_left};
    ghost use Rattle.folders.specs.Numbers.{piece};

    ghost held = { folder_held };

    ghost failures = { folder_failures };

    fn list(&mut self, under: &str) -> Result<Vec<Found>, FolderFault>
        ensures found { IfOk result (λ v. v.items ≡ found_under under.now (folder_files self.old)) }
        ensures distinct { IfOk result (λ v. IsDistinct bytes_eq (keys_of (folder_files self.old))) }
        ensures leaves { Changes Never (λ files. files) Same result (folder_held self.old)
            (folder_held self.new) }
        ensures finds { IfErr result IsFault }

        ensures exact { Acts (λ v. v.items) result
            (verdict (folder_calls self.old) (Some (found_under under.now (folder_files self.old))))
            (folder_files self.old) (folder_files self.old) (folder_files self.new) }
        ensures calls { folder_count self.new ≡ counted (folder_count self.old) }
        ensures listed { SameNumbers (folder_calls self.old) (folder_calls self.new) }
        ensures failed { WhereTold (folder_held self.old) (folder_failures self.new ≡ call_failed result
            (folder_failures self.old)) }
    {
        let answer = self.try_list(under);
        self.failures.count(&answer);
        answer
    }

    fn read(&mut self, path: &str) -> Result<Vec<u8>, FolderFault>
        ensures content { IfOk result (λ v. file_at (folder_files self.old) path.now ≡ Some v.items) }
        ensures leaves { Changes (Lacks path.now) (λ files. files) Same result (folder_held self.old)
            (folder_held self.new) }

        ensures exact { Acts (λ v. v.items) result
            (verdict (folder_calls self.old) (file_at (folder_files self.old) path.now))
            (folder_files self.old) (folder_files self.old) (folder_files self.new) }
        ensures calls { folder_count self.new ≡ counted (folder_count self.old) }
        ensures listed { SameNumbers (folder_calls self.old) (folder_calls self.new) }
        ensures failed { WhereTold (folder_held self.old) (folder_failures self.new ≡ call_failed result
            (folder_failures self.old)) }
    {
        let answer = self.try_read(path);
        self.failures.count(&answer);
        answer
    }

    fn make_parents(&mut self, path: &str) -> Result<(), FolderFault>
        ensures leaves { Changes Never (λ files. files) Same result (folder_held self.old)
            (folder_held self.new) }
        ensures finds { IfErr result IsFault }

        ensures exact { Acts (λ v. v) result (verdict (folder_calls self.old) (Some (tt {0})))
            (folder_files self.old) (folder_files self.old) (folder_files self.new) }
        ensures calls { folder_count self.new ≡ counted (folder_count self.old) }
        ensures listed { SameNumbers (folder_calls self.old) (folder_calls self.new) }
        ensures failed { WhereTold (folder_held self.old) (folder_failures self.new ≡ call_failed result
            (folder_failures self.old)) }
    {
        let answer = self.try_make_parents(path);
        self.failures.count(&answer);
        answer
    }

    fn size(&mut self, path: &str) -> Result<u64, FolderFault>
        ensures size { IfOk result (λ n. size_at (folder_files self.old) path.now ≡ Some n) }
        ensures leaves { Changes (Lacks path.now) (λ files. files) Same result (folder_held self.old)
            (folder_held self.new) }

        ensures exact { Acts (λ v. v) result
            (verdict (folder_calls self.old) (size_at (folder_files self.old) path.now))
            (folder_files self.old) (folder_files self.old) (folder_files self.new) }
        ensures calls { folder_count self.new ≡ counted (folder_count self.old) }
        ensures listed { SameNumbers (folder_calls self.old) (folder_calls self.new) }
        ensures failed { WhereTold (folder_held self.old) (folder_failures self.new ≡ call_failed result
            (folder_failures self.old)) }
    {
        let answer = self.try_size(path);
        self.failures.count(&answer);
        answer
    }

    fn append(&mut self, path: &str, bytes: &[u8]) -> Result<(), FolderFault>
        ensures appends { Changes (Lacks path.now) (appended path.now bytes.now)
            (PartAppended path.now bytes.now) result (folder_held self.old) (folder_held self.new) }

        ensures exact { Acts (λ v. v) result
            (piece_verdict (folder_calls self.old) bytes.now (there (folder_files self.old) path.now))
            (piece_left (folder_calls self.old) bytes.now (there (folder_files self.old) path.now)
            (folder_files self.old)
            (appended path.now (piece (folder_calls self.old) bytes.now) (folder_files self.old)))
            (folder_files self.old) (folder_files self.new) }
        ensures calls { folder_count self.new ≡ counted (folder_count self.old) }
        ensures listed { SameNumbers (folder_calls self.old) (folder_calls self.new) }
        ensures failed { WhereTold (folder_held self.old) (folder_failures self.new ≡ call_failed result
            (folder_failures self.old)) }
    {
        let answer = self.try_append(path, bytes);
        self.failures.count(&answer);
        answer
    }

    fn write(&mut self, path: &str, bytes: &[u8]) -> Result<(), FolderFault>
        ensures writes { Changes Never (put path.now bytes.now) (PartWritten path.now bytes.now) result
            (folder_held self.old) (folder_held self.new) }
        ensures finds { IfErr result IsFault }

        ensures exact { Acts (λ v. v) result
            (piece_verdict (folder_calls self.old) bytes.now (Some (tt {0})))
            (piece_left (folder_calls self.old) bytes.now (Some (tt {0})) (folder_files self.old)
            (put path.now (piece (folder_calls self.old) bytes.now) (folder_files self.old)))
            (folder_files self.old) (folder_files self.new) }
        ensures calls { folder_count self.new ≡ counted (folder_count self.old) }
        ensures listed { SameNumbers (folder_calls self.old) (folder_calls self.new) }
        ensures failed { WhereTold (folder_held self.old) (folder_failures self.new ≡ call_failed result
            (folder_failures self.old)) }
    {
        let answer = self.try_write(path, bytes);
        self.failures.count(&answer);
        answer
    }

    fn remove(&mut self, path: &str) -> Result<(), FolderFault>
        ensures removes { Changes (Lacks path.now) (without path.now) (DoneOrNot (without path.now)) result
            (folder_held self.old) (folder_held self.new) }

        ensures exact { Acts (λ v. v) result
            (verdict (folder_calls self.old) (there (folder_files self.old) path.now))
            (left (folder_calls self.old) (there (folder_files self.old) path.now) (folder_files self.old)
            (without path.now (folder_files self.old))) (folder_files self.old) (folder_files self.new) }
        ensures calls { folder_count self.new ≡ counted (folder_count self.old) }
        ensures listed { SameNumbers (folder_calls self.old) (folder_calls self.new) }
        ensures failed { WhereTold (folder_held self.old) (folder_failures self.new ≡ removal_failed result
            (folder_failures self.old)) }
    {
        let answer = self.try_remove(path);
        self.failures.count_removal(&answer);
        answer
    }

    fn touch(&mut self, path: &str) -> Result<(), FolderFault>
        ensures touches { Changes (Lacks path.now) (touched path.now) (DoneOrNot (touched path.now)) result
            (folder_held self.old) (folder_held self.new) }

        ensures exact { Acts (λ v. v) result
            (verdict (folder_calls self.old) (there (folder_files self.old) path.now))
            (left (folder_calls self.old) (there (folder_files self.old) path.now) (folder_files self.old)
            (touched path.now (folder_files self.old))) (folder_files self.old) (folder_files self.new) }
        ensures calls { folder_count self.new ≡ counted (folder_count self.old) }
        ensures listed { SameNumbers (folder_calls self.old) (folder_calls self.new) }
        ensures failed { WhereTold (folder_held self.old) (folder_failures self.new ≡ call_failed result
            (folder_failures self.old)) }
    {
        let answer = self.try_touch(path);
        self.failures.count(&answer);
        answer
    }

    fn rename(&mut self, from: &str, to: &str) -> Result<(), FolderFault>
        ensures renames { Changes (Lacks from.now) (moved from.now to.now) (DoneOrNot (moved from.now to.now))
            result (folder_held self.old) (folder_held self.new) }

        ensures exact { Acts (λ v. v) result
            (verdict (folder_calls self.old) (there (folder_files self.old) from.now))
            (left (folder_calls self.old) (there (folder_files self.old) from.now) (folder_files self.old)
            (moved from.now to.now (folder_files self.old))) (folder_files self.old) (folder_files self.new) }
        ensures calls { folder_count self.new ≡ counted (folder_count self.old) }
        ensures listed { SameNumbers (folder_calls self.old) (folder_calls self.new) }
        ensures failed { WhereTold (folder_held self.old) (folder_failures self.new ≡ rename_failed result
            (folder_failures self.old)) }
    {
        let answer = self.try_rename(from, to);
        self.failures.count_rename(&answer);
        answer
    }

    fn faults(&self) -> u64
        ensures { result ≡ (folder_held self.now).faults }
    {
        self.calls.faults
    }
}
