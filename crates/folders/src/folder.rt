//! The trait of folders.
ghost use Rattle.std.specs.Prelude.{◌≡◌, IfOk, IfErr, Some, length};
ghost use Rattle.std.specs.List.{IsDistinct};
ghost use Rattle.std.specs.Map.{keys_of};
ghost use Rattle.std.specs.Str.{bytes_eq};
ghost use Rattle.folders.specs.Files.{Files, file_at, size_at, put, without, moved, touched, appended};
ghost use Rattle.folders.specs.Files.{found_under, PartWritten, PartAppended, DoneOrNot, Same};
ghost use Rattle.folders.specs.Failures.{Failures, call_failed, rename_failed, removal_failed, WhereTold};
ghost use Rattle.folders.specs.Held.{Held, Holds, Lacks, Never, Changes, IsFault};

use crate::fault::FolderFault;
use dist_types::text::Text;

/// A file that was found.
#[derive(Debug, Drop)]
pub struct Found {
    /// Its path.
    pub path: Text,
    /// How many bytes it has.
    pub size: u64,
}

/// Files by path, in order of recency.
///
/// Each call does what it says, or leaves a part of it where it fails; all other files stay, in their
/// order. `FolderFault::Failed` comes only where the count of faults rose in the call, and
/// `FolderFault::Memory` where memory ran out, which leaves that count.
pub trait Folder {
    /// Its files, where it tells them, and its count of faults.
    ghost held: { Self → Held };

    /// How often its calls failed, by kind, where it tells files.
    ghost failures: { Self → Failures };

    /// All files below a directory, least recent first. It never answers `Missing`.
    fn list(&mut self, under: &str) -> Result<Vec<Found>, FolderFault>
        ensures found { IfOk result
            (λ v. Holds (held self.old) (λ files. v.items ≡ found_under under.now files)) }
        ensures distinct { IfOk result
            (λ v. Holds (held self.old) (λ files. IsDistinct bytes_eq (keys_of files))) }
        ensures leaves { Changes Never (λ files. files) Same result (held self.old) (held self.new) }
        ensures finds { IfErr result IsFault }
        ensures failed { WhereTold (held self.old) (failures self.new ≡ call_failed result (failures self.old)) };

    /// The directories above a path exist. It never answers `Missing`.
    fn make_parents(&mut self, path: &str) -> Result<(), FolderFault>
        ensures leaves { Changes Never (λ files. files) Same result (held self.old) (held self.new) }
        ensures finds { IfErr result IsFault }
        ensures failed { WhereTold (held self.old) (failures self.new ≡ call_failed result (failures self.old)) };

    /// The content of a file. `Missing` where there is none.
    fn read(&mut self, path: &str) -> Result<Vec<u8>, FolderFault>
        ensures content { IfOk result
            (λ v. Holds (held self.old) (λ files. file_at files path.now ≡ Some v.items)) }
        ensures leaves { Changes (Lacks path.now) (λ files. files) Same result (held self.old)
            (held self.new) }
        ensures failed { WhereTold (held self.old) (failures self.new ≡ call_failed result (failures self.old)) };

    /// How many bytes a file has. `Missing` where there is none.
    fn size(&mut self, path: &str) -> Result<u64, FolderFault>
        ensures size { IfOk result (λ n. Holds (held self.old) (λ files. size_at files path.now ≡ Some n)) }
        ensures leaves { Changes (Lacks path.now) (λ files. files) Same result (held self.old)
            (held self.new) }
        ensures failed { WhereTold (held self.old) (failures self.new ≡ call_failed result (failures self.old)) };

    /// A whole new file, the most recent. A fault may leave a front of it. It never answers `Missing`.
    fn write(&mut self, path: &str, bytes: &[u8]) -> Result<(), FolderFault>
        ensures writes { Changes Never (put path.now bytes.now) (PartWritten path.now bytes.now) result
            (held self.old) (held self.new) }
        ensures finds { IfErr result IsFault }
        ensures failed { WhereTold (held self.old) (failures self.new ≡ call_failed result (failures self.old)) };

    /// Bytes at the end of a file, which is the most recent. A fault may leave a front of them. `Missing`
    /// where there is no such file.
    fn append(&mut self, path: &str, bytes: &[u8]) -> Result<(), FolderFault>
        ensures appends { Changes (Lacks path.now) (appended path.now bytes.now)
            (PartAppended path.now bytes.now) result (held self.old) (held self.new) }
        ensures failed { WhereTold (held self.old) (failures self.new ≡ call_failed result (failures self.old)) };

    /// The file takes another path, whose file it replaces, and is the most recent. A fault leaves that
    /// done or not. `Missing` where there is no file to be renamed.
    fn rename(&mut self, from: &str, to: &str) -> Result<(), FolderFault>
        ensures renames { Changes (Lacks from.now) (moved from.now to.now) (DoneOrNot (moved from.now to.now))
            result (held self.old) (held self.new) }
        ensures failed { WhereTold (held self.old) (failures self.new ≡ rename_failed result (failures self.old)) };

    /// The file is gone. A fault leaves that done or not. `Missing` where there is none.
    fn remove(&mut self, path: &str) -> Result<(), FolderFault>
        ensures removes { Changes (Lacks path.now) (without path.now) (DoneOrNot (without path.now)) result
            (held self.old) (held self.new) }
        ensures failed { WhereTold (held self.old) (failures self.new ≡ removal_failed result (failures self.old)) };

    /// The file is the most recent. A fault leaves that done or not. `Missing` where there is none.
    fn touch(&mut self, path: &str) -> Result<(), FolderFault>
        ensures touches { Changes (Lacks path.now) (touched path.now) (DoneOrNot (touched path.now)) result
            (held self.old) (held self.new) }
        ensures failed { WhereTold (held self.old) (failures self.new ≡ call_failed result (failures self.old)) };

    /// The count of faults, which stops at 2^64 - 1. It takes no memory.
    fn faults(&self) -> u64
        ensures { result ≡ (held self.now).faults };
}
