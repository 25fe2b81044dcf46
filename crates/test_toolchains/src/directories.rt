//! Where each step has its folder from.
use crate::fault::Fault;
use disk_cache::folder::Folder;
use disk_cache::real_folder::RealFolder;
use std::rt::Files;

/// Folders over the same files, which are made anew for each step.
pub(crate) trait Folders {
    type Made: Folder + Drop;

    /// One more of them.
    fn make(&self) -> Result<Self::Made, Fault>;
}

/// A directory of the system.
#[derive(Clone, Copy)]
pub(crate) struct Directory<'a, R: Files + AllocGlobal + Drop> {
    pub rt: &'a R,
    pub path: &'a str,
}

impl<'a, R: Files + AllocGlobal + Drop> Folders for Directory<'a, R> {
    type Made = RealFolder<&'a R>;

    fn make(&self) -> Result<Self::Made, Fault> {
        let folder = RealFolder::new(self.rt, self.path)?;
        Ok(folder)
    }
}
