//! The tree of the system.
ghost use Rattle.std.specs.Prelude.{◌≡◌, IfErr, IsErrAnd};
ghost use Rattle.std.specs.IoError.{error_kind, raw_os_error};
ghost use Rattle.path_pkg.specs.SystemFault.{system_fault};

use crate::fault::TreeFault;
use crate::node::Kind;
use crate::tree::Tree;
use dist_types::fault::raise;
use dist_types::source::{ReadError, StdSource, read_whole};
use std::alloc::{AllocError, Allocator, Global};
use std::fs::{self, DirEntry, Metadata};
use std::io::{self, ErrorKind, Read};
use std::rt::Files;

/// The most bytes of one file.
pub const MAX_FILE_BYTES: u32 = 2_147_483_648;

/// The files of the system. Of what stands where it tells nothing.
#[derive(Drop)]
pub struct RealTree<R: Files + AllocGlobal + Clone + Drop> {
    rt: R,
    faults: u64,
    misnamed: u64,
}

impl<R: Files + AllocGlobal + Clone + Drop> RealTree<R> {
    ghost use Rattle.path_pkg.specs.Real.{real_faults, real_misnamed, real_told};
    ghost use Rattle.path_pkg.specs.Told.{Refused, TreeCause};

    /// The tree of the system, no fault so far. It takes no memory.
    pub fn new(rt: R) -> Self
        ensures faults { real_faults result ≡ 0 }
        ensures misnamed { real_misnamed result ≡ 0 }
    {
        RealTree {
            rt,
            faults: 0,
            misnamed: 0,
        }
    }

    /// Counts a refusal: a fault or a name that is not UTF-8 by its own count, and want of memory by none.
    fn refused(&mut self, fault: TreeFault) -> TreeFault
        ensures fault { result ≡ fault }
        ensures counted { Refused (TreeCause fault) (real_told self.old) (real_told self.new) }
    {
        match fault {
            TreeFault::Failed => raise(&mut self.faults),
            TreeFault::NotUtf8 => raise(&mut self.misnamed),
            TreeFault::Memory => {}
        }
        fault
    }
}

fn kind_of(metadata: &Metadata) -> Kind {
    if metadata.is_dir() {
        Kind::Dir
    } else if metadata.is_file() {
        Kind::File
    } else if metadata.is_symlink() {
        Kind::Link
    } else {
        Kind::Other
    }
}

/// The refusal that an error of the system stands for. A name that is not UTF-8 has no number of the system.
fn fault_of(error: &io::Error) -> TreeFault
    ensures { result ≡ system_fault (raw_os_error error.now) (error_kind error.now) }
{
    match error.kind() {
        ErrorKind::OutOfMemory => TreeFault::Memory,
        ErrorKind::InvalidFilename => match error.raw_os_error() {
            None => TreeFault::NotUtf8,
            Some(_) => TreeFault::Failed,
        },
        _ => TreeFault::Failed,
    }
}

/// The kind that the system told: None where nothing is there, or where links lead round.
fn kind_from(told: io::Result<Metadata>) -> Result<Kind, TreeFault>
    ensures { IfErr result (λ f. IsErrAnd told (λ e. f ≡ system_fault (raw_os_error e) (error_kind e))) }
{
    match told {
        Ok(metadata) => Ok(kind_of(&metadata)),
        Err(error) => match error.kind() {
            ErrorKind::NotFound => Ok(Kind::None),
            ErrorKind::NotADirectory => Ok(Kind::None),
            ErrorKind::FilesystemLoop => Ok(Kind::None),
            _ => Err(fault_of(&error)),
        },
    }
}

impl<R: Files + AllocGlobal + Clone + Drop> Tree for RealTree<R> {
    ghost use Rattle.path_pkg.specs.Real.{real_told, nothing_told};

    ghost told = { real_told };

    fn kind(&mut self, path: &str) -> Result<Kind, TreeFault> {
        match kind_from(fs::symlink_metadata(&self.rt, path)) {
            Ok(kind) => Ok(kind),
            Err(fault) => Err(self.refused(fault)),
        }
    }

    fn read_link(&mut self, path: &str) -> Result<String, TreeFault> {
        match link_target(&self.rt, path) {
            Ok(target) => Ok(target),
            Err(fault) => Err(self.refused(fault)),
        }
    }

    fn target_kind(&mut self, path: &str) -> Result<Kind, TreeFault> {
        match kind_from(fs::metadata(&self.rt, path)) {
            Ok(kind) => Ok(kind),
            Err(fault) => Err(self.refused(fault)),
        }
    }

    fn read(&mut self, path: &str) -> Result<Vec<u8>, TreeFault> {
        match read_file(&self.rt, path) {
            Ok(bytes) => Ok(bytes),
            Err(fault) => Err(self.refused(fault)),
        }
    }

    fn walk(&mut self, path: &str) -> Result<Vec<String>, TreeFault> {
        match walk_all(&self.rt, path) {
            Ok(paths) => Ok(paths),
            Err(fault) => Err(self.refused(fault)),
        }
    }

    ghost in_byte_order = { λ tree t told. absurd (nothing_told t told) };
}

/// The target of a link.
fn link_target<R: Files + AllocGlobal>(rt: &R, path: &str) -> Result<String, TreeFault> {
    match fs::read_link(rt, path) {
        Ok(target) => {
            let copy = String::from_str(rt.alloc(), target.as_path().as_str())?;
            Ok(copy)
        }
        Err(error) => Err(fault_of(&error)),
    }
}

/// The content of a file. Failed past the most bytes of one file.
fn read_file<R: Files + AllocGlobal>(rt: &R, path: &str) -> Result<Vec<u8>, TreeFault> {
    match fs::open(rt, path) {
        Ok(file) => content_of(rt.alloc(), file),
        Err(error) => Err(fault_of(&error)),
    }
}

fn content_of<F: Read + Drop>(alloc: Global, file: F) -> Result<Vec<u8>, TreeFault> {
    match read_whole(alloc, &mut StdSource::new(file), MAX_FILE_BYTES) {
        Ok(bytes) => Ok(bytes),
        Err(ReadError::Memory) => Err(TreeFault::Memory),
        Err(ReadError::Failed) => Err(TreeFault::Failed),
        Err(ReadError::TooLong) => Err(TreeFault::Failed),
    }
}

/// All paths below a directory, in byte order.
fn walk_all<R: Files + AllocGlobal + Clone + Drop>(
    rt: &R,
    path: &str,
) -> Result<Vec<String>, TreeFault> {
    let mut paths = Vec::new(rt.alloc());
    let mut dirs = Vec::new(rt.alloc());
    let first = String::from_str(rt.alloc(), path)?;
    push(&mut dirs, first)?;
    for _ in 0..u64::MAX {
        let Some(dir) = dirs.pop() else {
            break;
        };
        list(rt, dir.as_str(), &mut paths, &mut dirs)?;
    }
    paths.sort()?;
    Ok(paths)
}

fn push(paths: &mut Vec<String>, path: String) -> Result<(), AllocError> {
    paths.push(path)?;
    Ok(())
}

/// Adds the paths in a directory, and those of its directories once more.
fn list<R: Files + AllocGlobal + Clone + Drop>(
    rt: &R,
    dir: &str,
    paths: &mut Vec<String>,
    dirs: &mut Vec<String>,
) -> Result<(), TreeFault> {
    let entries = match fs::read_dir(rt, dir) {
        Ok(entries) => entries,
        Err(error) => return Err(fault_of(&error)),
    };
    for found in entries {
        let path = named(rt.alloc(), found)?;
        let kind = kind_from(fs::symlink_metadata(rt, path.as_str()))?;
        if kind == Kind::Dir {
            let again = String::from_str(rt.alloc(), path.as_str())?;
            push(dirs, again)?;
        }
        push(paths, path)?;
    }
    Ok(())
}

/// The path of what a directory holds. NotUtf8 where its name is not UTF-8.
fn named<R: Files + Drop, A: Allocator + Drop>(
    alloc: Global,
    found: io::Result<DirEntry<R, A>>,
) -> Result<String, TreeFault> {
    match found {
        Ok(entry) => {
            let path = String::from_str(alloc, entry.path().as_str())?;
            Ok(path)
        }
        Err(error) => Err(fault_of(&error)),
    }
}
