//! The plain folder: files by place, least recent first, one of whose calls fails.
ghost use Rattle.std.specs.Prelude.{◌≡◌, ◌≤◌, true};

use crate::names::Place;
use folders::fault::FolderFault;
use std::alloc::Global;

/// The call of a folder that fails: none, the one of this number before it does anything, behind it, or in the
/// middle of what it writes.
#[derive(Clone, Copy, PartialEq, Eq)]
pub enum Failing {
    /// None.
    Never,
    /// The call of this number, before it does anything.
    Before(u64),
    /// The call of this number, behind what it does.
    Behind(u64),
    /// The call of this number, in front of the last byte that it writes; before it does anything, where it
    /// writes none.
    Middle(u64),
}

impl Failing {
    /// The number of the call that fails before it does anything.
    pub fn before(self) -> Option<u64> {
        match self {
            Failing::Before(number) => Some(number),
            _ => None,
        }
    }

    /// The number of the call that fails behind what it does.
    pub fn behind(self) -> Option<u64> {
        match self {
            Failing::Behind(number) => Some(number),
            _ => None,
        }
    }

    /// The number of the call that fails in the middle of what it writes.
    pub fn middle(self) -> Option<u64> {
        match self {
            Failing::Middle(number) => Some(number),
            _ => None,
        }
    }

    /// Whether so many calls may have failed: a call that finds no file does not fail behind that.
    pub fn allows(self, faults: u64) -> bool
        ensures few { result ≡ true → faults ≤ 1 }
    {
        match self {
            Failing::Never => faults == 0,
            Failing::Before(_) => faults == 1,
            Failing::Behind(_) => faults <= 1,
            Failing::Middle(_) => faults == 1,
        }
    }
}

/// A file.
#[derive(Drop)]
pub struct File {
    /// Where it lies.
    pub place: Place,
    /// What it holds.
    pub bytes: Vec<u8>,
}

/// The files, how many calls there were, how many failed, and which is to fail.
#[derive(Drop)]
pub struct PlainFolder {
    alloc: Global,
    /// The files.
    pub files: Vec<File>,
    /// How many calls there were.
    pub calls: u64,
    /// How many failed.
    pub faults: u64,
    failing: Failing,
}

impl PlainFolder {
    /// A folder of no file, one of whose calls is to fail.
    pub fn new(alloc: Global, failing: Failing) -> Self {
        PlainFolder {
            alloc,
            files: Vec::new(alloc),
            calls: 0,
            faults: 0,
            failing,
        }
    }

    // One more call, whose number this gives. It fails here if that is to be.
    fn begin(&mut self) -> Result<u64, FolderFault> {
        let number = self.calls;
        self.calls = number.saturating_add(1);
        self.fail_at(Failing::Before(number))?;
        self.fail_at(Failing::Middle(number))?;
        Ok(number)
    }

    // One more call, which writes bytes. Gives its number, and those of the bytes that it writes.
    fn begin_piece<'a>(&mut self, bytes: &'a [u8]) -> Result<(u64, &'a [u8]), FolderFault> {
        let number = self.calls;
        if self.failing != Failing::Middle(number) || bytes.is_empty() {
            self.begin()?;
            return Ok((number, bytes));
        }
        self.calls = number.saturating_add(1);
        Ok((number, &bytes[..bytes.len() - 1]))
    }

    // The end of the call of a number, which did what it does.
    fn end(&mut self, number: u64) -> Result<(), FolderFault> {
        self.fail_at(Failing::Behind(number))
    }

    // The same of a call that wrote bytes.
    fn end_piece(&mut self, number: u64) -> Result<(), FolderFault> {
        self.fail_at(Failing::Middle(number))?;
        self.end(number)
    }

    fn fail_at(&mut self, here: Failing) -> Result<(), FolderFault> {
        if self.failing == here {
            self.faults = self.faults.saturating_add(1);
            return Err(FolderFault::Failed);
        }
        Ok(())
    }

    // A copy of the content of a file.
    fn content(&self, place: Place) -> Result<Vec<u8>, FolderFault> {
        for file in &self.files {
            if file.place == place {
                let bytes = Vec::from_slice(self.alloc, &file.bytes)?;
                return Ok(bytes);
            }
        }
        Err(FolderFault::Missing)
    }

    fn take_out(&mut self, place: Place) {
        self.files.retain(|file| file.place != place);
    }

    // The file is the most recent, in the place of one that was there.
    fn put(&mut self, place: Place, bytes: Vec<u8>) -> Result<(), FolderFault> {
        self.take_out(place);
        let Ok(()) = self.files.push(File { place, bytes }) else {
            return Err(FolderFault::Memory);
        };
        Ok(())
    }

    /// A call that changes nothing: a listing, or the making of directories.
    pub fn nothing(&mut self) -> Result<(), FolderFault> {
        let number = self.begin()?;
        self.end(number)
    }

    /// The content of a file.
    pub fn read(&mut self, place: Place) -> Result<Vec<u8>, FolderFault> {
        let number = self.begin()?;
        let bytes = self.content(place)?;
        self.end(number)?;
        Ok(bytes)
    }

    /// How many bytes a file has.
    pub fn size(&mut self, place: Place) -> Result<u64, FolderFault> {
        let bytes = self.read(place)?;
        Ok(bytes.len() as u64)
    }

    /// A file has this content, in place of that of one which was there.
    pub fn write(&mut self, place: Place, bytes: &[u8]) -> Result<(), FolderFault> {
        let (number, piece) = self.begin_piece(bytes)?;
        let bytes = Vec::from_slice(self.alloc, piece)?;
        self.put(place, bytes)?;
        self.end_piece(number)
    }

    /// A file has these bytes more.
    pub fn append(&mut self, place: Place, bytes: &[u8]) -> Result<(), FolderFault> {
        let (number, piece) = self.begin_piece(bytes)?;
        let mut whole = self.content(place)?;
        whole.extend_from_slice(piece)?;
        self.put(place, whole)?;
        self.end_piece(number)
    }

    /// A file lies elsewhere, in place of one that lay there.
    pub fn rename(&mut self, from: Place, to: Place) -> Result<(), FolderFault> {
        let number = self.begin()?;
        let bytes = self.content(from)?;
        self.take_out(from);
        self.put(to, bytes)?;
        self.end(number)
    }

    /// A file is the most recent.
    pub fn touch(&mut self, place: Place) -> Result<(), FolderFault> {
        self.rename(place, place)
    }

    /// The file is gone. One that is missing already is no fault.
    pub fn remove(&mut self, place: Place) -> Result<(), FolderFault> {
        let number = self.begin()?;
        let there = self.files.iter().any(|file| file.place == place);
        if !there {
            return Ok(());
        }
        self.take_out(place);
        self.end(number)
    }
}
