//! The plain cache: a list of keys with sizes, least recent first, and open reservations, over a plain
//! folder.

use crate::names::{CAPACITY, Key, Place};
use crate::plain_folder::PlainFolder;
use folders::fault::FolderFault;
use lru_disk_cache::Error;
use std::alloc::Global;

/// A key that is listed.
#[derive(Clone, Copy)]
pub struct Entry {
    pub key: Key,
    pub size: u64,
}

/// An open reservation: its number and the size announced.
#[derive(Clone, Copy)]
struct Reserved {
    number: u64,
    size: u64,
}

/// The folder, the list, the open reservations, and how many inserts failed.
#[derive(Drop)]
pub struct PlainCache {
    alloc: Global,
    pub folder: PlainFolder,
    pub list: Vec<Entry>,
    open: Vec<Reserved>,
    spoiled: u64,
}

// ---- the rules

impl PlainCache {
    pub fn new(alloc: Global, folder: PlainFolder) -> Self {
        PlainCache {
            alloc,
            folder,
            list: Vec::new(alloc),
            open: Vec::new(alloc),
            spoiled: 0,
        }
    }

    /// Opening removes temporary files and those above the capacity, and then adds the others in their order,
    /// of which the least recent go until the rest fits.
    pub fn open(&mut self) -> Result<(), Error> {
        self.list.clear();
        self.open.clear();
        self.spoiled = 0;
        self.folder.nothing()?;
        let found = self.found()?;
        for (place, size) in found {
            self.sort_in(place, size)?;
        }
        self.make_room(CAPACITY)?;
        Ok(())
    }

    fn sort_in(&mut self, place: Place, size: u64) -> Result<(), FolderFault> {
        match place {
            Place::Of(key) => self.list_last(key, size),
            Place::Outside | Place::Configured => Ok(()),
            Place::Weak | Place::Written | Place::Leftover => Ok(()),
            _ => self.folder.remove(place),
        }
    }

    /// An insert writes a temporary file, counts an old entry of the key out, drops the least recent until
    /// the new size fits, renames, and lists the key as the most recent. Where that fails, the next insert
    /// takes another temporary file.
    pub fn insert(&mut self, key: Key, bytes: &[u8]) -> Result<(), Error> {
        let size = bytes.len() as u64;
        self.admit(key, size)?;
        match self.store(Entry { key, size }, bytes) {
            Ok(()) => Ok(()),
            Err(fault) => {
                self.spoiled = self.spoiled.saturating_add(1);
                Err(Error::from(fault))
            }
        }
    }

    fn store(&mut self, entry: Entry, bytes: &[u8]) -> Result<(), FolderFault> {
        let temporary = Place::Inserted(self.spoiled);
        self.folder.nothing()?;
        self.folder.write(temporary, bytes)?;
        self.fill(temporary, entry, self.room_beside(entry.size))
    }

    /// The same of a file outside the cache, which is renamed.
    pub fn insert_file(&mut self, key: Key, place: Place) -> Result<(), Error> {
        if key == Key::Bad {
            return Err(Error::BadKey);
        }
        let size = self.folder.size(place)?;
        self.admit(key, size)?;
        self.folder.nothing()?;
        self.fill(place, Entry { key, size }, self.room_beside(size))?;
        Ok(())
    }

    /// The key becomes the most recent, then its file, which is read.
    pub fn look_up(&mut self, key: Key) -> Result<Vec<u8>, Error> {
        if !self.promote(key)? {
            return Err(Error::FileNotInCache);
        }
        self.folder.touch(Place::Of(key))?;
        let bytes = self.folder.read(Place::Of(key))?;
        Ok(bytes)
    }

    /// The key becomes the most recent. Gives whether it is listed.
    pub fn promote(&mut self, key: Key) -> Result<bool, Error> {
        let Some(size) = self.size_of(key) else {
            return Ok(false);
        };
        self.unlist(key);
        self.list_last(key, size)?;
        Ok(true)
    }

    /// The key is unlisted, and then its file removed.
    pub fn remove(&mut self, key: Key) -> Result<(), Error> {
        if self.size_of(key).is_none() {
            return Ok(());
        }
        self.unlist(key);
        self.folder.remove(Place::Of(key))?;
        Ok(())
    }

    /// Room is made for the size announced, which counts from then on. Gives the number of the reservation.
    pub fn prepare(&mut self, key: Key, size: u64) -> Result<u64, Error> {
        self.admit(key, size)?;
        let number = self.least_free();
        self.folder.nothing()?;
        self.folder.write(Place::Temporary(number), &[])?;
        self.make_room(self.room_beside(size))?;
        let Ok(()) = self.open.push(Reserved { number, size }) else {
            return Err(Error::Memory);
        };
        Ok(number)
    }

    /// Bytes are added to the temporary file.
    pub fn append(&mut self, number: u64, bytes: &[u8]) -> Result<(), Error> {
        self.folder.append(Place::Temporary(number), bytes)?;
        Ok(())
    }

    /// The file's size is taken as an insert takes one, with this reservation counted out.
    pub fn commit(&mut self, number: u64, key: Key) -> Result<(), Error> {
        let size = self.folder.size(Place::Temporary(number))?;
        let beside = self.held_beside(number);
        if size > CAPACITY {
            return Err(Error::FileTooLarge);
        }
        if size > CAPACITY.saturating_sub(beside) {
            return Err(Error::PendingSpace);
        }
        let limit = CAPACITY.saturating_sub(beside).saturating_sub(size);
        self.fill(Place::Temporary(number), Entry { key, size }, limit)?;
        self.close(number);
        Ok(())
    }

    /// The reservation is closed, and then its file removed.
    pub fn abandon(&mut self, number: u64) -> Result<(), Error> {
        self.close(number);
        self.folder.remove(Place::Temporary(number))?;
        Ok(())
    }

    /// The sum of the sizes, with those announced.
    pub fn size(&self) -> u64 {
        self.listed().saturating_add(self.held())
    }
}

// ---- its parts

impl PlainCache {
    fn admit(&self, key: Key, size: u64) -> Result<(), Error> {
        if key == Key::Bad {
            return Err(Error::BadKey);
        }
        if size > CAPACITY {
            return Err(Error::FileTooLarge);
        }
        if size > CAPACITY.saturating_sub(self.held()) {
            return Err(Error::PendingSpace);
        }
        Ok(())
    }

    // What the listed sizes may sum to beside one of this size.
    fn room_beside(&self, size: u64) -> u64 {
        CAPACITY.saturating_sub(self.held()).saturating_sub(size)
    }

    fn fill(&mut self, from: Place, entry: Entry, limit: u64) -> Result<(), FolderFault> {
        self.unlist(entry.key);
        self.make_room(limit)?;
        self.folder.rename(from, Place::Of(entry.key))?;
        self.list_last(entry.key, entry.size)
    }

    // The least recent are unlisted, and then their files removed, one by one until the others fit.
    fn make_room(&mut self, limit: u64) -> Result<(), FolderFault> {
        for _ in 0..self.list.len() {
            if self.listed() <= limit {
                return Ok(());
            }
            self.drop_first()?;
        }
        Ok(())
    }

    fn drop_first(&mut self) -> Result<(), FolderFault> {
        let Some(entry) = self.list.first() else {
            return Ok(());
        };
        let key = entry.key;
        self.unlist(key);
        self.folder.remove(Place::Of(key))
    }

    fn unlist(&mut self, key: Key) {
        self.list.retain(|entry| entry.key != key);
    }

    fn list_last(&mut self, key: Key, size: u64) -> Result<(), FolderFault> {
        let Ok(()) = self.list.push(Entry { key, size }) else {
            return Err(FolderFault::Memory);
        };
        Ok(())
    }

    fn size_of(&self, key: Key) -> Option<u64> {
        for entry in &self.list {
            if entry.key == key {
                return Some(entry.size);
            }
        }
        None
    }

    fn listed(&self) -> u64 {
        let mut sum = 0u64;
        for entry in &self.list {
            sum = sum.saturating_add(entry.size);
        }
        sum
    }

    fn held(&self) -> u64 {
        let mut sum = 0u64;
        for reserved in &self.open {
            sum = sum.saturating_add(reserved.size);
        }
        sum
    }

    fn held_beside(&self, number: u64) -> u64 {
        let mut sum = 0u64;
        for reserved in &self.open {
            if reserved.number != number {
                sum = sum.saturating_add(reserved.size);
            }
        }
        sum
    }

    fn least_free(&self) -> u64 {
        let mut number = 0u64;
        for _ in 0..self.open.len() {
            if self.open.iter().any(|reserved| reserved.number == number) {
                number = number.saturating_add(1);
            }
        }
        number
    }

    fn close(&mut self, number: u64) {
        self.open.retain(|reserved| reserved.number != number);
    }

    /// The places and sizes of the files.
    pub fn found(&self) -> Result<Vec<(Place, u64)>, FolderFault> {
        let mut found = Vec::new(self.alloc);
        for file in &self.folder.files {
            let Ok(()) = found.push((file.place, file.bytes.len() as u64)) else {
                return Err(FolderFault::Memory);
            };
        }
        Ok(found)
    }
}
