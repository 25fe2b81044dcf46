//! Files by name: the trait, the files in memory, and those of the system.
ghost use Rattle.std.specs.Prelude.{◌≡◌, ◌≢◌, ◌<◌, ◌≤◌, ◌↔◌, ◌⊎◌, List, ℕ, Option, Some, None, Err, IfOk, IfSome};
ghost use Rattle.std.specs.Prelude.{OnOk, OnErr, length, option_map};
ghost use Rattle.dist_types.specs.Cause.{Rose, counted};
ghost use Rattle.command_line.specs.Files.{file_at, max_file, real_files, real_files_faults};
ghost use Rattle.command_line.specs.declared.files.NamedFile.{NamedFile};

use dist_types::fault::raise;
use dist_types::source::{ReadError, Source, StdSource, read_whole};
use dist_types::text::{Bytes, Text};
use std::alloc::Global;
use std::fs;
use std::io::ErrorKind;
use thiserror::Error;

/// The longest file of the system that is read, in bytes.
pub const MAX_FILE: u32 = 2_147_483_648;

/// Why a file was not read.
#[derive(Clone, Copy, Debug, PartialEq, Eq, Error)]
pub enum FileFault {
    /// There is no such file.
    #[error("file missing")]
    Missing,
    /// Reading it failed, and the count of faults rose.
    #[error("file unreadable")]
    Failed,
    /// Memory ran out.
    #[error("out of memory")]
    Memory,
}

/// A file: its name and its bytes.
#[derive(Debug, Drop)]
pub struct NamedFile {
    /// The name.
    pub name: Text,
    /// The content.
    pub bytes: Bytes,
}

/// Files that are read whole, by name.
pub trait Files {
    /// The files, where they are told; of two with one name the first counts.
    ghost files: { Self → Option (List NamedFile) };

    /// How often reading failed.
    ghost faults: { Self → ℕ };

    /// The bytes of a file; Missing exactly where there is no such file, Failed only where the count rose.
    fn read(&mut self, name: &str) -> Result<Vec<u8>, FileFault>
        ensures ok { IfOk result (λ bytes.
            IfSome (files self.old) (λ told. file_at name.now told ≡ Some bytes.items)) }
        ensures missing { IfSome (files self.old) (λ told.
            (result ≡ Err FileFault.Missing) ↔ (file_at name.now told ≡ None)) }
        ensures kept { files self.new ≡ files self.old }
        ensures steady { OnOk result (faults self.new ≡ faults self.old) }
        ensures uncounted { result ≢ Err FileFault.Failed → faults self.new ≡ faults self.old }
        ensures later { faults self.old ≤ faults self.new }
        ensures cause { result ≡ Err FileFault.Failed → Rose (faults self.old) (faults self.new) };
}

/// Files in memory. A listed call, counted from 0 over all calls, fails where there is such a file.
#[derive(Debug, Drop)]
pub struct MemFiles {
    alloc: Global,
    files: Vec<NamedFile>,
    fails: Vec<u64>,
    calls: u64,
    faults: u64,
}

impl MemFiles {
    ghost use Rattle.command_line.specs.Files.{mem_files, files_fails, files_calls, files_faults};

    /// Files that were not read so far. It takes no memory.
    pub fn new(alloc: Global, files: Vec<NamedFile>, fails: Vec<u64>) -> Self
        ensures files { mem_files result ≡ files.items }
        ensures fails { files_fails result ≡ fails.items }
        ensures calls { files_calls result ≡ 0 }
        ensures faults { files_faults result ≡ 0 }
    {
        MemFiles {
            alloc,
            files,
            fails,
            calls: 0,
            faults: 0,
        }
    }
}

fn found<'a>(files: &'a [NamedFile], name: &str) -> Option<&'a [u8]>
    ensures { option_map (λ bytes. bytes.now) result ≡ file_at name.now files.now }
{
    match files.iter().find(|file| file.name.get() == name) {
        Some(file) => Some(file.bytes.get()),
        None => None,
    }
}

impl Files for MemFiles {
    ghost use Rattle.std.specs.Prelude.{true, false};
    ghost use Rattle.dist_types.specs.InMemory.{is_listed};
    ghost use Rattle.command_line.specs.Files.{mem_files, files_fails, files_calls, files_faults};

    ghost files = { λ d. Some d.files.items };

    ghost faults = { λ d. d.faults };

    /// Fails exactly where this call is listed and there is such a file.
    fn read(&mut self, name: &str) -> Result<Vec<u8>, FileFault>
        ensures ok { IfOk result (λ bytes.
            IfSome (Some (mem_files self.old)) (λ told. file_at name.now told ≡ Some bytes.items)) }
        ensures missing { IfSome (Some (mem_files self.old)) (λ told.
            (result ≡ Err FileFault.Missing) ↔ (file_at name.now told ≡ None)) }
        ensures kept { Some (mem_files self.new) ≡ Some (mem_files self.old) }
        ensures steady { OnOk result (files_faults self.new ≡ files_faults self.old) }
        ensures uncounted { result ≢ Err FileFault.Failed → files_faults self.new ≡ files_faults self.old }
        ensures later { files_faults self.old ≤ files_faults self.new }
        ensures cause { result ≡ Err FileFault.Failed → Rose (files_faults self.old) (files_faults self.new) }

        ensures unlisted { OnOk result (is_listed (files_fails self.old) (files_calls self.old) ≡ false) }
        ensures listed { result ≡ Err FileFault.Failed
            → is_listed (files_fails self.old) (files_calls self.old) ≡ true }
        ensures counted { result ≡ Err FileFault.Failed
            → files_faults self.new ≡ counted (files_faults self.old) }
        ensures calls { files_calls self.new ≡ counted (files_calls self.old) }
        ensures fails { files_fails self.new ≡ files_fails self.old }
    {
        let number = self.calls;
        self.calls = self.calls.saturating_add(1);
        let Some(bytes) = found(&self.files, name) else {
            return Err(FileFault::Missing);
        };
        if self.fails.contains(&number) {
            raise(&mut self.faults);
            return Err(FileFault::Failed);
        }
        match Vec::from_slice(self.alloc, bytes) {
            Ok(copy) => Ok(copy),
            Err(_) => Err(FileFault::Memory),
        }
    }
}

/// The files of the system, by their paths.
#[derive(Drop)]
pub struct RealFiles<S: fs::Files + Drop> {
    alloc: Global,
    system: S,
    faults: u64,
}

impl<S: fs::Files + Drop> RealFiles<S> {
    /// Files none of which was read so far. It takes no memory.
    pub fn new(alloc: Global, system: S) -> Self
        ensures faults { real_files_faults result ≡ 0 }
    {
        RealFiles {
            alloc,
            system,
            faults: 0,
        }
    }
}

/// Why a file was not opened. There is none where its name, or a folder on the way, does not stand.
fn open_fault(kind: ErrorKind) -> FileFault
    ensures missing { (result ≡ FileFault.Missing)
        ↔ ((kind ≡ ErrorKind.NotFound) ⊎ (kind ≡ ErrorKind.NotADirectory)) }
    ensures memory { (result ≡ FileFault.Memory) ↔ (kind ≡ ErrorKind.OutOfMemory) }
{
    if kind == ErrorKind::NotFound {
        return FileFault::Missing;
    }
    if kind == ErrorKind::NotADirectory {
        return FileFault::Missing;
    }
    if kind == ErrorKind::OutOfMemory {
        return FileFault::Memory;
    }
    FileFault::Failed
}

/// The content of an open file: all bytes that its source has left, which are 2,147,483,648 at most. One byte
/// more is a fault.
#[tactic(auto, using(crate::proofs::FileLemmas::all_read, crate::proofs::FileLemmas::no_longer, crate::proofs::FileLemmas::longer, crate::proofs::FileLemmas::whatever))]
pub fn contents<S: Source>(alloc: Global, source: &mut S) -> Result<Vec<u8>, FileFault>
    ensures content { IfOk result (λ bytes. IfSome (S.left source.old) (λ told. told ≡ bytes.items)) }
    ensures short { IfOk result (λ bytes. length bytes.items ≤ max_file) }
    // Up to the limit it is read, where reading does not fail and memory is left; past it it is not.
    ensures fits { IfSome (S.left source.old) (λ told. length told ≤ max_file
        → OnErr result ((result ≡ Err FileFault.Memory) ⊎ Rose (S.faults source.old) (S.faults source.new))) }
    ensures past { IfSome (S.left source.old) (λ told. max_file < length told
        → (result ≡ Err FileFault.Failed) ⊎ (result ≡ Err FileFault.Memory)) }
    ensures opened { result ≢ Err FileFault.Missing }
{
    match read_whole(alloc, source, MAX_FILE) {
        Ok(bytes) => Ok(bytes),
        Err(ReadError::Memory) => Err(FileFault::Memory),
        Err(ReadError::Failed) => Err(FileFault::Failed),
        Err(ReadError::TooLong) => Err(FileFault::Failed),
    }
}

/// The content of a file of the system.
fn contents_of<S: fs::Files>(alloc: Global, system: &S, name: &str) -> Result<Vec<u8>, FileFault>
    ensures short { IfOk result (λ bytes. length bytes.items ≤ max_file) }
{
    match fs::open(system, name) {
        Ok(file) => contents(alloc, &mut StdSource::new(file)),
        Err(e) => Err(open_fault(e.kind())),
    }
}

impl<S: fs::Files + Drop> Files for RealFiles<S> {
    ghost files = { λ _. None };

    ghost faults = { λ d. d.faults };

    /// The bytes, at most 2,147,483,648; a longer file is a fault, and so are a folder and a file that may
    /// not be read. Each fault is counted once.
    fn read(&mut self, name: &str) -> Result<Vec<u8>, FileFault>
        ensures ok { IfOk result (λ bytes. IfSome None (λ told. file_at name.now told ≡ Some bytes.items)) }
        ensures missing { IfSome None (λ told.
            (result ≡ Err FileFault.Missing) ↔ (file_at name.now told ≡ None)) }
        ensures kept { real_files self.new ≡ real_files self.old }
        ensures steady { OnOk result (real_files_faults self.new ≡ real_files_faults self.old) }
        ensures uncounted { result ≢ Err FileFault.Failed
            → real_files_faults self.new ≡ real_files_faults self.old }
        ensures later { real_files_faults self.old ≤ real_files_faults self.new }
        ensures cause { result ≡ Err FileFault.Failed
            → Rose (real_files_faults self.old) (real_files_faults self.new) }

        ensures counted { result ≡ Err FileFault.Failed
            → real_files_faults self.new ≡ counted (real_files_faults self.old) }
        ensures short { IfOk result (λ bytes. length bytes.items ≤ max_file) }
    {
        match contents_of(self.alloc, &self.system, name) {
            Ok(bytes) => Ok(bytes),
            Err(FileFault::Missing) => Err(FileFault::Missing),
            Err(FileFault::Memory) => Err(FileFault::Memory),
            Err(FileFault::Failed) => {
                raise(&mut self.faults);
                Err(FileFault::Failed)
            }
        }
    }
}
