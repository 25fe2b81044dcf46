//! A folder that does not tell its files.
use folders::fault::FolderFault;
use folders::folder::{Folder, Found};
use folders::mem_folder::MemFolder;

/// A folder in memory that does not tell its files, and of which one call answers that its file is missing.
#[derive(Drop)]
pub struct UntoldFolder {
    inner: MemFolder,
    calls: u64,
    missing: u64,
}

impl UntoldFolder {
    /// That folder, whose call of the number `missing`, of those that may miss a file, misses it.
    pub fn new(inner: MemFolder, missing: u64) -> Self {
        UntoldFolder {
            inner,
            calls: 0,
            missing,
        }
    }

    /// The folder in memory.
    pub fn into_inner(self) -> MemFolder {
        self.inner
    }
}

/// One more call that may miss its file. Whether it does.
fn misses(calls: &mut u64, missing: u64) -> bool {
    let number = *calls;
    *calls = number.saturating_add(1);
    number == missing
}

impl Folder for UntoldFolder {
    ghost use Rattle.std.specs.Prelude.{None};
    ghost use Rattle.folders.specs.InMemory.{folder_held};

    ghost held = { λ f. record { files = None; faults = (folder_held f.inner).faults } };

    ghost failures = { λ f. record { renames = 0; removals = 0; memory = 0 } };

    fn list(&mut self, under: &str) -> Result<Vec<Found>, FolderFault> {
        self.inner.list(under)
    }

    fn make_parents(&mut self, path: &str) -> Result<(), FolderFault> {
        self.inner.make_parents(path)
    }

    fn read(&mut self, path: &str) -> Result<Vec<u8>, FolderFault> {
        if misses(&mut self.calls, self.missing) {
            return Err(FolderFault::Missing);
        }
        self.inner.read(path)
    }

    fn size(&mut self, path: &str) -> Result<u64, FolderFault> {
        if misses(&mut self.calls, self.missing) {
            return Err(FolderFault::Missing);
        }
        self.inner.size(path)
    }

    fn write(&mut self, path: &str, bytes: &[u8]) -> Result<(), FolderFault> {
        self.inner.write(path, bytes)
    }

    fn append(&mut self, path: &str, bytes: &[u8]) -> Result<(), FolderFault> {
        if misses(&mut self.calls, self.missing) {
            return Err(FolderFault::Missing);
        }
        self.inner.append(path, bytes)
    }

    fn rename(&mut self, from: &str, to: &str) -> Result<(), FolderFault> {
        if misses(&mut self.calls, self.missing) {
            return Err(FolderFault::Missing);
        }
        self.inner.rename(from, to)
    }

    fn remove(&mut self, path: &str) -> Result<(), FolderFault> {
        if misses(&mut self.calls, self.missing) {
            return Err(FolderFault::Missing);
        }
        self.inner.remove(path)
    }

    fn touch(&mut self, path: &str) -> Result<(), FolderFault> {
        if misses(&mut self.calls, self.missing) {
            return Err(FolderFault::Missing);
        }
        self.inner.touch(path)
    }

    fn faults(&self) -> u64 {
        self.inner.faults()
    }
}
