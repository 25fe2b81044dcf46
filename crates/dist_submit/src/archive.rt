//! The archive of a job's toolchain: its id, which a folder may keep, and its bytes, which are read where they are wanted.
use crate::deadline::millis;
use crate::files::{read, write};
use crate::refused::toolchain;
use dist_types::text::Bytes;
use dist_types::toolchain::Toolchain;
use http_calls::calls::Client;
use path_pkg::mem_packager::MemPackager;
use std::alloc::Global;
use std::fs;
use std::rt::Files;
use std::time::{Clock, SystemTime};
use submit_words::job::Job;
use submit_words::refusal::Refusal;
use toolchain_cache::toolchain_of;

/// The archive of a job's toolchain.
#[derive(Drop)]
pub(crate) struct Archive {
    /// The name of its file.
    name: String,
    /// The file that keeps its id, if there is one.
    kept_in: Option<String>,
    /// Its id, as far as it is known.
    id: Option<Toolchain>,
    /// Whether the client has its bytes.
    is_placed: bool,
    /// How many bytes it has, as far as they were read.
    size: u64,
}

/// What tells a file from what it was: its path, its length, and when it was changed; none where that is not told.
fn source_of<R: Files + AllocGlobal>(rt: &R, alloc: Global, name: &str) -> Option<String> {
    let metadata = fs::metadata(rt, name).ok()?;
    let changed = metadata.modified().ok()?;
    let since = changed.duration_since(SystemTime::UNIX_EPOCH).ok()?;
    let path = fs::canonicalize(rt, name).ok()?;
    let path = path.to_str()?;
    let (seconds, nanos) = (since.as_secs(), since.subsec_nanos());
    format!(in alloc; "{path}\0{}\0{seconds}.{nanos}", metadata.len()).ok()
}

/// The file that keeps the id of an archive: its name in the folder is the SHA-256 of what tells the archive's file.
fn kept_in<R: Files + AllocGlobal>(rt: &R, alloc: Global, job: &Job<'_>) -> Option<String> {
    let folder = job.cache?;
    let source = source_of(rt, alloc, job.archive)?;
    let key = toolchain_of(source.as_str().as_bytes());
    format!(in alloc; "{folder}/{}", key.archive_id()).ok()
}

/// The id that a file keeps.
fn kept_id<R: Files + AllocGlobal>(rt: &R, file: &str) -> Option<Toolchain> {
    let bytes = read(rt, file)?;
    let text = str::from_utf8(&bytes).ok()?;
    Toolchain::new(text).ok()
}

impl Archive {
    /// The archive that a job names, with the id that a folder keeps of it.
    pub(crate) fn of<R: Files + AllocGlobal>(
        rt: &R,
        alloc: Global,
        job: &Job<'_>,
    ) -> Result<Self, Refusal> {
        let name = String::from_str(alloc, job.archive)?;
        let kept_in = kept_in(rt, alloc, job);
        let id = match &kept_in {
            Some(file) => kept_id(rt, file.as_str()),
            None => None,
        };
        Ok(Archive {
            name,
            kept_in,
            id,
            is_placed: false,
            size: 0,
        })
    }

    /// How many bytes it has, 0 where they were not read.
    pub(crate) fn size(&self) -> u64 {
        self.size
    }

    // Keeps its id. Where it cannot be kept, the next job reads it again.
    fn keep<R: Files + AllocGlobal + Clock>(&self, rt: &R, alloc: Global, id: &Toolchain) {
        let Some(file) = &self.kept_in else {
            return;
        };
        if let Ok(part) = format!(in alloc; "{}.{}", file.as_str(), millis(rt)) {
            let _kept = write(rt, file.as_str(), part.as_str(), id.archive_id().as_bytes());
        }
    }

    /// Its id, once the client has its bytes.
    fn placed<R: Files + AllocGlobal + Clock, C: Client>(
        &mut self,
        rt: &R,
        alloc: Global,
        client: &mut C,
    ) -> Result<Toolchain, Refusal> {
        let Some(bytes) = read(rt, self.name.as_str()) else {
            let name = String::from_str(alloc, self.name.as_str())?;
            return Err(Refusal::ArchiveUnread(name));
        };
        self.size = bytes.len() as u64;
        let mut packed = MemPackager::new(alloc, Bytes::new(bytes), Vec::new(alloc));
        let name = self.name.as_str();
        let id = match client.put_toolchain(name, name, &mut packed) {
            Ok((id, _custom)) => id,
            Err(refusal) => return Err(toolchain(alloc, refusal)),
        };
        self.is_placed = true;
        self.keep(rt, alloc, &id);
        Ok(id)
    }

    /// Its id: the one that is kept, else that of its bytes.
    pub(crate) fn id<R: Files + AllocGlobal + Clock, C: Client>(
        &mut self,
        rt: &R,
        alloc: Global,
        client: &mut C,
    ) -> Result<Toolchain, Refusal> {
        if let Some(id) = self.id {
            return Ok(id);
        }
        let id = self.placed(rt, alloc, client)?;
        self.id = Some(id);
        Ok(id)
    }

    /// Sees to it that the client has its bytes under that id.
    pub(crate) fn place<R: Files + AllocGlobal + Clock, C: Client>(
        &mut self,
        rt: &R,
        alloc: Global,
        client: &mut C,
        id: &Toolchain,
    ) -> Result<(), Refusal> {
        if self.is_placed {
            return Ok(());
        }
        let found = self.placed(rt, alloc, client)?;
        self.id = Some(found);
        if found.archive_id() == id.archive_id() {
            return Ok(());
        }
        let name = String::from_str(alloc, self.name.as_str())?;
        Err(Refusal::ArchiveChanged(name))
    }
}
