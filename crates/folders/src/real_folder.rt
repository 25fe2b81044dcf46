//! The folder of the system.
ghost use Rattle.std.specs.Prelude.{◌≡◌, ◌≤◌, IfOk};
ghost use Rattle.folders.specs.Held.{IsFault};
ghost use Rattle.folders.specs.Real.{real_faults, Told};

use crate::fault::FolderFault;
use crate::folder::{Folder, Found};
use crate::real_calls as calls;
use crate::real_lock::{OpenFault, hold};
use crate::real_order::{Notes, found_in_order};
use dist_types::fault::raise;
use dist_types::text::Text;
use std::alloc::AllocError;
use std::fs::File;
use std::rt::Files;

/// A directory of the system, whose files it does not tell. Their order of recency stands in a file
/// `.sccacheorder` at its root, which it never lists: a name at the end of it for each file that became
/// the most recent. Where that file is missing or damaged the order is that of the paths. No call fails
/// because it cannot be written: those names wait for the next, and cost the order alone where the folder is
/// dropped before.
///
/// One that `open` gives holds the lock of a file `.sccachelock` at its root while it lives, so that a second
/// one is refused. The system lets a lock go where a program ends, however it ends.
///
/// No path leads out of the directory, neither by `..` nor by a link: such a call fails.
#[derive(Drop)]
pub struct RealFolder<R: Files + AllocGlobal + Clone + Drop> {
    rt: R,
    root: Text,
    notes: Notes,
    faults: u64,
    lock: Option<File>,
}

impl<R: Files<File = File> + AllocGlobal + Clone + Drop> RealFolder<R> {
    /// As `new`, and held against others while it is open. The directory is made where there is none.
    ///
    /// Refused as `OpenFault::InUse` where another program, or another folder of this one, has opened it so.
    pub fn open(rt: R, root: &str) -> Result<Self, OpenFault>
        ensures faults { IfOk result (λ f. real_faults f ≡ 0) }
    {
        let lock = hold(&rt, root)?;
        let folder = RealFolder::over(rt, root, lock)?;
        Ok(folder)
    }
}

impl<R: Files + AllocGlobal + Clone + Drop> RealFolder<R> {
    /// The files below a directory, no fault so far.
    pub fn new(rt: R, root: &str) -> Result<Self, AllocError>
        ensures faults { IfOk result (λ f. real_faults f ≡ 0) }
    {
        RealFolder::over(rt, root, None)
    }

    // The files below a directory, with the lock of it, if one is held.
    fn over(rt: R, root: &str, lock: Option<File>) -> Result<Self, AllocError>
        ensures faults { IfOk result (λ f. real_faults f ≡ 0) }
    {
        let root = Text::of(rt.alloc(), root)?;
        let Ok(notes) = Notes::new(rt.alloc()) else {
            return Err(AllocError);
        };
        Ok(RealFolder {
            rt,
            root,
            notes,
            faults: 0,
            lock,
        })
    }

    // Counts a fault where the system failed.
    fn refused(&mut self, fault: FolderFault) -> FolderFault
        ensures fault { result ≡ fault }
        ensures counted { Told fault (real_faults self.old) (real_faults self.new) }
    {
        match fault {
            FolderFault::Failed => raise(&mut self.faults),
            FolderFault::Missing => {}
            FolderFault::Memory => {}
        }
        fault
    }

    // Counts a fault of a call that always finds what it wants: what went in the meantime is one.
    fn broken(&mut self, fault: FolderFault) -> FolderFault
        ensures fault { IsFault result }
        ensures counted { Told result (real_faults self.old) (real_faults self.new) }
    {
        match fault {
            FolderFault::Memory => FolderFault::Memory,
            FolderFault::Failed => self.refused(FolderFault::Failed),
            FolderFault::Missing => self.refused(FolderFault::Failed),
        }
    }

    // Notes that a file is the most recent.
    fn noted(&mut self, path: &str)
        ensures steady { real_faults self.new ≡ real_faults self.old }
    {
        self.notes.note(&self.rt, self.root.get(), path);
    }

    fn written(&mut self, path: &str, bytes: &[u8]) -> Result<(), FolderFault>
        ensures steady { real_faults self.new ≡ real_faults self.old }
    {
        calls::write(&self.rt, self.root.get(), path, bytes)?;
        self.noted(path);
        Ok(())
    }

    fn appended(&mut self, path: &str, bytes: &[u8]) -> Result<(), FolderFault>
        ensures steady { real_faults self.new ≡ real_faults self.old }
    {
        calls::append(&self.rt, self.root.get(), path, bytes)?;
        self.noted(path);
        Ok(())
    }

    fn renamed(&mut self, from: &str, to: &str) -> Result<(), FolderFault>
        ensures steady { real_faults self.new ≡ real_faults self.old }
    {
        calls::rename(&self.rt, self.root.get(), from, to)?;
        self.noted(to);
        Ok(())
    }

    fn touched(&mut self, path: &str) -> Result<(), FolderFault>
        ensures steady { real_faults self.new ≡ real_faults self.old }
    {
        let _size = calls::size(&self.rt, self.root.get(), path)?;
        self.noted(path);
        Ok(())
    }
}

impl<R: Files + AllocGlobal + Clone + Drop> Folder for RealFolder<R> {
    ghost use Rattle.folders.specs.Real.{real_held};

    ghost held = { real_held };

    ghost failures = { λ f. record { renames = 0; removals = 0; memory = 0 } };

    fn list(&mut self, under: &str) -> Result<Vec<Found>, FolderFault> {
        match found_in_order(&self.rt, self.root.get(), under, &self.notes) {
            Ok(found) => {
                self.notes.listed(found.len() as u64);
                Ok(found)
            }
            Err(fault) => Err(self.broken(fault)),
        }
    }

    fn make_parents(&mut self, path: &str) -> Result<(), FolderFault> {
        match calls::make_parents(&self.rt, self.root.get(), path) {
            Ok(()) => Ok(()),
            Err(fault) => Err(self.broken(fault)),
        }
    }

    fn read(&mut self, path: &str) -> Result<Vec<u8>, FolderFault> {
        match calls::read(&self.rt, self.root.get(), path) {
            Ok(bytes) => Ok(bytes),
            Err(fault) => Err(self.refused(fault)),
        }
    }

    fn size(&mut self, path: &str) -> Result<u64, FolderFault> {
        match calls::size(&self.rt, self.root.get(), path) {
            Ok(size) => Ok(size),
            Err(fault) => Err(self.refused(fault)),
        }
    }

    fn write(&mut self, path: &str, bytes: &[u8]) -> Result<(), FolderFault> {
        match self.written(path, bytes) {
            Ok(()) => Ok(()),
            Err(fault) => Err(self.broken(fault)),
        }
    }

    fn append(&mut self, path: &str, bytes: &[u8]) -> Result<(), FolderFault> {
        match self.appended(path, bytes) {
            Ok(()) => Ok(()),
            Err(fault) => Err(self.refused(fault)),
        }
    }

    fn rename(&mut self, from: &str, to: &str) -> Result<(), FolderFault> {
        match self.renamed(from, to) {
            Ok(()) => Ok(()),
            Err(fault) => Err(self.refused(fault)),
        }
    }

    fn remove(&mut self, path: &str) -> Result<(), FolderFault> {
        match calls::remove(&self.rt, self.root.get(), path) {
            Ok(()) => Ok(()),
            Err(fault) => Err(self.refused(fault)),
        }
    }

    fn touch(&mut self, path: &str) -> Result<(), FolderFault> {
        match self.touched(path) {
            Ok(()) => Ok(()),
            Err(fault) => Err(self.refused(fault)),
        }
    }

    fn faults(&self) -> u64 {
        self.faults
    }
}
