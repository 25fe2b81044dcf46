//! The plain toolchains of a client: a plain cache of archives, two weak keys under which archives may be
//! recorded, and an archive that is configured for one compiler.

use crate::answers::{Answer, copied};
use crate::names::{Archive, Key, Place};
use crate::plain_cache::PlainCache;
use crate::plain_folder::PlainFolder;
use dist_types::toolchain_error::ToolchainError;
use folders::fault::FolderFault;
use lru_disk_cache::Error;
use std::alloc::{AllocError, Global};

/// The archives that may be recorded under a weak key, or none.
const RECORDS: &[Option<Archive>] = &[
    None,
    Some(Archive::Abc),
    Some(Archive::Nothing),
    Some(Archive::Digits),
    Some(Archive::Dozen),
];

/// A weak key.
#[derive(Clone, Copy, PartialEq, Eq)]
pub enum WeakKey {
    First,
    Second,
}

impl WeakKey {
    /// Its text.
    pub fn text(self) -> &'static str {
        match self {
            WeakKey::First => "w1",
            WeakKey::Second => "w2",
        }
    }
}

/// What is recorded under the weak keys.
#[derive(Clone, Copy, PartialEq, Eq)]
struct Recorded {
    first: Option<Archive>,
    second: Option<Archive>,
}

impl Recorded {
    fn under(self, key: WeakKey) -> Option<Archive> {
        match key {
            WeakKey::First => self.first,
            WeakKey::Second => self.second,
        }
    }

    fn with(self, key: WeakKey, archive: Archive) -> Recorded {
        match key {
            WeakKey::First => Recorded {
                first: Some(archive),
                second: self.second,
            },
            WeakKey::Second => Recorded {
                first: self.first,
                second: Some(archive),
            },
        }
    }

    // The object of texts, whose keys rise.
    fn text(self, alloc: Global) -> Result<String, AllocError> {
        let mut text = String::from_str(alloc, "{")?;
        put_member(&mut text, WeakKey::First, self.first)?;
        if self.first.is_some() && self.second.is_some() {
            text.push_str(",")?;
        }
        put_member(&mut text, WeakKey::Second, self.second)?;
        text.push_str("}")?;
        Ok(text)
    }
}

fn put_member(text: &mut String, key: WeakKey, archive: Option<Archive>) -> Result<(), AllocError> {
    let Some(archive) = archive else {
        return Ok(());
    };
    text.push_str("\"")?;
    text.push_str(key.text())?;
    text.push_str("\":\"")?;
    text.push_str(archive.id())?;
    text.push_str("\"")
}

// What the bytes of a weak map say.
fn recorded_in(alloc: Global, bytes: &[u8]) -> Result<Option<Recorded>, AllocError> {
    for first in RECORDS {
        for second in RECORDS {
            let recorded = Recorded {
                first: *first,
                second: *second,
            };
            let text = recorded.text(alloc)?;
            if text.as_bytes() == bytes {
                return Ok(Some(recorded));
            }
        }
    }
    Ok(None)
}

/// The cache, what is recorded, and whether the SHA-256 of the configured archive was taken.
#[derive(Drop)]
pub struct PlainClient {
    alloc: Global,
    pub cache: PlainCache,
    recorded: Recorded,
    taken: bool,
}

const NOTHING: Recorded = Recorded {
    first: None,
    second: None,
};

impl PlainClient {
    pub fn new(alloc: Global, folder: PlainFolder) -> Self {
        PlainClient {
            alloc,
            cache: PlainCache::new(alloc, folder),
            recorded: NOTHING,
            taken: false,
        }
    }

    /// Opening empties the directory of what is still being written, opens the cache of archives, and reads
    /// the weak map, which is made as `{}` if it is missing.
    pub fn open(&mut self) -> Result<(), ToolchainError> {
        self.taken = false;
        self.recorded = NOTHING;
        match self.empty() {
            Ok(()) => {}
            Err(fault) => return Err(ToolchainError::Cache(Error::from(fault))),
        }
        match self.cache.open_archives() {
            Ok(()) => {}
            Err(error) => return Err(ToolchainError::Cache(error)),
        }
        self.load()
    }

    fn empty(&mut self) -> Result<(), FolderFault> {
        self.cache.folder.nothing()?;
        let found = self.cache.found()?;
        for (place, _) in found {
            if place == Place::Written || place == Place::Leftover {
                self.cache.folder.remove(place)?;
            }
        }
        self.cache.folder.nothing()
    }

    fn load(&mut self) -> Result<(), ToolchainError> {
        match self.cache.folder.read(Place::Weak) {
            Ok(bytes) => match recorded_in(self.alloc, &bytes) {
                Ok(Some(recorded)) => {
                    self.recorded = recorded;
                    Ok(())
                }
                Ok(None) => Err(ToolchainError::BadWeakMap),
                Err(_) => Err(ToolchainError::Memory),
            },
            Err(FolderFault::Missing) => self.save(NOTHING),
            Err(fault) => Err(ToolchainError::Cache(Error::from(fault))),
        }
    }

    // The weak map is written under another name and renamed, and stands recorded then.
    fn save(&mut self, recorded: Recorded) -> Result<(), ToolchainError> {
        let Ok(text) = recorded.text(self.alloc) else {
            return Err(ToolchainError::Memory);
        };
        match self.write(text.as_bytes()) {
            Ok(()) => {
                self.recorded = recorded;
                Ok(())
            }
            Err(fault) => Err(ToolchainError::Cache(Error::from(fault))),
        }
    }

    fn write(&mut self, text: &[u8]) -> Result<(), FolderFault> {
        self.cache.folder.write(Place::Written, text)?;
        self.cache.folder.rename(Place::Written, Place::Weak)
    }

    /// The toolchain of a compiler that is not configured: a recorded one whose archive is listed and read,
    /// else what is packed, which is stored and then recorded. A packager may refuse.
    pub fn put(&mut self, key: WeakKey, packed: Option<Archive>) -> Answer {
        let Some(recorded) = self.recorded.under(key) else {
            return self.package(key, packed);
        };
        match self.cache.look_up(Key::Of(recorded)) {
            Ok(_) => self.told(recorded),
            Err(Error::FileNotInCache) => self.package(key, packed),
            Err(Error::Io(FolderFault::Missing)) => self.package(key, packed),
            Err(error) => Answer::Refused(error),
        }
    }

    fn package(&mut self, key: WeakKey, packed: Option<Archive>) -> Answer {
        let Some(archive) = packed else {
            return Answer::Denied(ToolchainError::PackagerFailed);
        };
        let bytes = archive.content().as_bytes();
        match self.cache.insert(Key::Of(archive), bytes) {
            Ok(()) => self.record(key, archive),
            Err(error) => Answer::Refused(error),
        }
    }

    fn record(&mut self, key: WeakKey, archive: Archive) -> Answer {
        match self.save(self.recorded.with(key, archive)) {
            Ok(()) => self.told(archive),
            Err(refusal) => crate::answers::denied(refusal),
        }
    }

    fn told(&self, archive: Archive) -> Answer {
        copied(Vec::from_slice(self.alloc, archive.id().as_bytes()))
    }

    /// The configured archive, whose SHA-256 is taken at the first call that reads it.
    pub fn configured(&mut self) -> Answer {
        if !self.taken {
            match self.cache.folder.read(Place::Configured) {
                Ok(_) => self.taken = true,
                Err(fault) => return Answer::Refused(Error::from(fault)),
            }
        }
        match Vec::from_slice(self.alloc, Archive::Nothing.id().as_bytes()) {
            Ok(id) => Answer::Configured(id),
            Err(_) => Answer::Refused(Error::Memory),
        }
    }

    /// The archive of an id: the configured one, where its SHA-256 was taken, else that of the cache.
    pub fn get(&mut self, archive: Archive) -> Answer {
        if self.taken && archive == Archive::Nothing {
            return match self.cache.folder.read(Place::Configured) {
                Ok(bytes) => Answer::Content(bytes),
                Err(fault) => Answer::Refused(Error::from(fault)),
            };
        }
        match self.cache.look_up(Key::Of(archive)) {
            Ok(bytes) => Answer::Content(bytes),
            Err(Error::FileNotInCache) => Answer::Absent,
            Err(error) => Answer::Refused(error),
        }
    }
}
