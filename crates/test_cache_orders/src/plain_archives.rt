//! The plain cache of archives: a plain cache whose keys are those of archives.

use crate::answers::{Answer, content, copied, done};
use crate::names::{Archive, CAPACITY, Key, Place};
use crate::plain_cache::PlainCache;
use folders::fault::FolderFault;
use lru_disk_cache::Error;
use std::alloc::Global;

impl PlainCache {
    /// Opening removes each file that is above the capacity, whose path is no archive's, or whose SHA-256 is
    /// another than its path says, and then opens as a disk cache does.
    pub fn open_archives(&mut self) -> Result<(), Error> {
        self.list.clear();
        self.folder.nothing()?;
        let found = self.found()?;
        for (place, size) in found {
            self.clean(place, size)?;
        }
        self.open()
    }

    fn clean(&mut self, place: Place, size: u64) -> Result<(), FolderFault> {
        match place {
            Place::Of(Key::Of(archive)) => self.clean_archive(archive, size),
            Place::Of(_) | Place::TooLarge => self.folder.remove(place),
            Place::Temporary(_) | Place::Inserted(_) => self.folder.remove(place),
            _ => Ok(()),
        }
    }

    // Other bytes have another SHA-256.
    fn clean_archive(&mut self, archive: Archive, size: u64) -> Result<(), FolderFault> {
        let place = Place::Of(Key::Of(archive));
        if size > CAPACITY {
            return self.folder.remove(place);
        }
        let bytes = self.folder.read(place)?;
        if bytes.as_slice() == archive.content().as_bytes() {
            return Ok(());
        }
        self.folder.remove(place)
    }

    /// Bytes are stored as an archive, whose SHA-256 is checked first.
    pub fn insert_archive(&mut self, archive: Archive, bytes: Archive) -> Answer {
        if archive != bytes {
            return Answer::Refused(Error::WrongDigest);
        }
        done(self.insert(Key::Of(archive), bytes.content().as_bytes()))
    }

    /// Bytes are stored as the archive that they are, which is told.
    pub fn insert_package(&mut self, alloc: Global, archive: Archive) -> Answer {
        match self.insert(Key::Of(archive), archive.content().as_bytes()) {
            Ok(()) => copied(Vec::from_slice(alloc, archive.id().as_bytes())),
            Err(error) => Answer::Refused(error),
        }
    }

    /// The archive, which becomes the most recent.
    pub fn get_archive(&mut self, archive: Archive) -> Answer {
        content(self.look_up(Key::Of(archive)))
    }

    /// The archive goes, and its file.
    pub fn remove_archive(&mut self, archive: Archive) -> Answer {
        done(self.remove(Key::Of(archive)))
    }

    /// Whether the archive is listed.
    pub fn has_archive(&self, archive: Archive) -> Answer {
        if self.list.iter().any(|entry| entry.key == Key::Of(archive)) {
            return Answer::Done;
        }
        Answer::Absent
    }
}
