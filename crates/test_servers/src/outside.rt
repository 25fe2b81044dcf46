//! What the tests hand to a server: archives with their ids, caches, a scheduler that answers every report
//! alike, and one build.
use dist_types::command::CompileCommand;
use dist_types::fault::raise;
use dist_types::ids::JobId;
use dist_types::outgoing::{CallFault, ServerOutgoing};
use dist_types::results::{JobState, UpdateJobStateResult};
use dist_types::source::{MemSource, Source};
use dist_types::text::{Items, Text};
use dist_types::toolchain::Toolchain;
use folders::calls::Calls;
use folders::mem_folder::MemFolder;
use std::alloc::Global;
use std::process::Abort;
use toolchain_cache::TcCache;

/// Archives, and the ids that sha256sum prints for them.
pub(crate) const ARCHIVES: &[(&str, &str)] = &[
    (
        "",
        "e3b0c44298fc1c149afbf4c8996fb92427ae41e4649b934ca495991b7852b855",
    ),
    (
        "abc",
        "ba7816bf8f01cfea414140de5dae2223b00361a396177a9cb410ff61f20015ad",
    ),
    (
        "12345678",
        "ef797c8118f02dfb649607dd5d3f8c7623048c9c063d532cc95c5ed7a898a64f",
    ),
    (
        "0123456789",
        "84d89877f0d4041efb6bf91a16f0248f2fd573e6af05c19f96bedb9f882f7882",
    ),
    (
        "xxxxxxxxxxxxxxxxxxxx",
        "d4fc1db665446507dc51b0c9392dd9649291581bfe1b48e241b2b08032b3b647",
    ),
];

/// The bytes of the archive at a place, or none.
pub(crate) fn archive(place: usize) -> &'static [u8] {
    match ARCHIVES.get(place) {
        Some((text, _)) => text.as_bytes(),
        None => b"",
    }
}

/// The toolchain of the archive at a place.
pub(crate) fn toolchain(rt: &impl Abort, place: usize) -> Toolchain {
    let (_, id) = ARCHIVES.get(place).expect(rt, "an archive");
    Toolchain::new(id).expect(rt, "an id")
}

/// A cache over an empty folder in memory, of whose calls those of these numbers fail before they do
/// anything, and those behind it.
#[tactic(auto, using(crate::proofs::Empty::none_twice))]
pub(crate) fn cache_of(
    alloc: Global,
    capacity: u64,
    before: Vec<u64>,
    after: Vec<u64>,
) -> Option<TcCache<MemFolder>> {
    let folder = MemFolder::new(alloc, Vec::new(alloc), Calls::new(before, after));
    match TcCache::new(alloc, folder, "tc", capacity) {
        Ok(cache) => Some(cache),
        Err(_) => None,
    }
}

/// An archive as it comes, of which the reads of these numbers fail.
pub(crate) fn source_of(
    rt: &impl Abort,
    alloc: Global,
    bytes: &[u8],
    fails: Vec<u64>,
) -> MemSource {
    let bytes = Vec::from_slice(alloc, bytes).expect(rt, "memory");
    MemSource::new(bytes, fails)
}

/// How many bytes are left, where no read fails.
pub(crate) fn left(rt: &impl Abort, source: &mut MemSource) -> usize {
    let mut buf = [0u8; 64];
    source.read(&mut buf).expect(rt, "a read")
}

/// The command `cc` in `/`, without arguments.
pub(crate) fn command(rt: &impl Abort, alloc: Global) -> CompileCommand {
    CompileCommand {
        executable: Text::of(alloc, "cc").expect(rt, "memory"),
        arguments: Items::new(Vec::new(alloc)),
        env_vars: Items::new(Vec::new(alloc)),
        cwd: Text::of(alloc, "/").expect(rt, "memory"),
    }
}

/// The names of some outputs.
pub(crate) fn names(rt: &impl Abort, alloc: Global, name: &str) -> Vec<Text> {
    let mut names = Vec::new(alloc);
    names
        .push(Text::of(alloc, name).expect(rt, "memory"))
        .expect(rt, "memory");
    names
}

/// A scheduler that accepts every report up to one, which it loses, and keeps what it was told.
#[derive(Debug, Drop)]
pub(crate) struct Scheduler {
    pub(crate) told: Vec<(JobId, JobState)>,
    pub(crate) loses: Option<JobState>,
    faults: u64,
}

impl Scheduler {
    pub(crate) fn new(alloc: Global, loses: Option<JobState>) -> Self {
        Scheduler {
            told: Vec::new(alloc),
            loses,
            faults: 0,
        }
    }

    fn loses_this(&self, state: JobState) -> bool {
        match self.loses {
            Some(lost) => lost == state,
            None => false,
        }
    }
}

impl ServerOutgoing for Scheduler {
    ghost use Rattle.std.specs.Prelude.{None};

    ghost updated = { λ _. None };

    ghost faults = { λ s. s.faults };

    fn do_update_job_state(
        &mut self,
        job_id: JobId,
        state: JobState,
    ) -> Result<UpdateJobStateResult, CallFault> {
        if self.told.push((job_id, state)).is_err() {
            return Err(CallFault::Memory);
        }
        if self.loses_this(state) {
            raise(&mut self.faults);
            return Err(CallFault::Lost);
        }
        Ok(UpdateJobStateResult::Success)
    }
}
