//! `ServerState` and its calls.
ghost use Rattle.std.specs.Prelude.{◌≡◌, []};
ghost use Rattle.toolchain_cache.specs.Archives.{IsArchiveStore};
ghost use Rattle.build_server.specs.Books.{AreRising};
ghost use Rattle.build_server.specs.Rules.{Assigns, Submits, Begins, TakesIn, TakesOut, Adopts, need_by};

use crate::archive::HashedArchive;
use crate::fault::{ServerFault, Update, fault_of};
use crate::keeping::Keeping;
use crate::run::{RunHeld, Taken};
use crate::store::{read, shown, store};
use crate::submit::{Submit, Submitted};
use crate::table::{Held, HeldTable};
use dist_types::ids::JobId;
use dist_types::results::{AssignJobResult, JobState};
use dist_types::toolchain::Toolchain;
use folders::folder::Folder;
use lru_disk_cache::Error;
use std::alloc::Global;
use std::marker::Model;
use toolchain_cache::{Archives, TcCache};

/// What a build server keeps: the jobs that it holds, over its cache of archives. Contracts see it as its
/// books.
#[derive(Drop)]
pub struct ServerState<F: Folder> {
    alloc: Global,
    cache: TcCache<F>,
    jobs: HeldTable,
}

impl<F: Folder> Model for ServerState<F> {
    ghost use Rattle.build_server.specs.Books.{Books};

    ghost Value = { Books };

    ghost view = { λ s. record {
      held = s.jobs;
      archives = s.cache.archives;
      capacity = s.cache.capacity;
      path = s.cache.path;
      folder = F.held s.cache.folder;
    } };
}

impl<F: Folder> ServerState<F> {
    /// A server over a cache, which holds nothing. It takes no memory.
    pub fn new(alloc: Global, cache: TcCache<F>) -> Self
        ensures fresh { result ≡ record {
          held = [];
          archives = cache.archives;
          capacity = cache.capacity;
          path = cache.path;
          folder = F.held cache.folder;
        } }
    {
        ServerState {
            alloc,
            cache,
            jobs: HeldTable::new(alloc),
        }
    }

    /// Assigns a job with its toolchain, which is held from then on: Ready and false where the archive is
    /// listed, Pending and true where it is not. The order of the archives stays. AlreadyAssigned exactly
    /// where the job is held, whose toolchain stays; Memory changes nothing.
    pub fn assign(&mut self, job: JobId, tc: Toolchain) -> Result<AssignJobResult, ServerFault>
        ensures assigns { Assigns job tc self.old self.new result }
    {
        if self.jobs.get(job).is_some() {
            return Err(ServerFault::AlreadyAssigned(job));
        }
        let listed = self.cache.contains_toolchain(&tc);
        match self.jobs.insert(job, tc) {
            Ok(()) => Ok(need_by(listed)),
            Err(_) => Err(ServerFault::Memory),
        }
    }

    /// Begins a submission under a job. It takes no memory.
    pub fn begin_submit(&self, job: JobId) -> Submit
        ensures job { result ≡ job }
    {
        Submit::new(job)
    }

    /// Ends a submission by what the scheduler answered to Ready. Where that is not accepted: UpdateFailed,
    /// or Memory where the update says so, and nothing changes. Else, in this order: None where the job is
    /// not held, Listed where the archive is listed, Digest where its SHA-256 is not the toolchain's id,
    /// Capacity where it is larger than the cache, and Stored; Folder where the folder failed, which some of
    /// those may have gone before that the store would drop. Want of memory may leave the same.
    pub fn end_submit(
        &mut self,
        submit: Submit,
        ready: Update,
        archive: &[u8],
    ) -> Result<Submitted, ServerFault>
        ensures submits { Submits submit ready archive.now self.old self.new result }
    {
        match ready {
            Ok(_) => self.take_in(submit.job(), &HashedArchive::of(archive)),
            Err(e) => Err(fault_of(e)),
        }
    }

    /// Takes a job out by what the scheduler answered to Started. Where that is not accepted: UpdateFailed,
    /// or Memory where the update says so, and nothing is taken. Else the job is held no longer, and its
    /// archive is read and most recent; None where the job was not held, Unlisted where the archive is not
    /// listed, Folder where the folder failed. After Memory the job stays held.
    pub fn begin_run(&mut self, job: JobId, started: Update) -> Result<RunHeld, ServerFault>
        ensures begins { Begins job started self.old self.new result }
    {
        match started {
            Ok(_) => self.take_out(job),
            Err(e) => Err(fault_of(e)),
        }
    }

    /// The jobs that are held with their toolchains, by rising id. It takes no memory.
    pub fn held(&self) -> Held<'_>
        ensures rest { result ≡ self.now.held }
        ensures rising { AreRising self.now.held }
    {
        self.jobs.iter()
    }

    /// The toolchains of the archives with their sizes in bytes, least recent first. It takes no memory.
    /// Whatever failed so far, their ids differ, their sizes fit the capacity, and each has a file of its
    /// size whose SHA-256 is its id, where files are told.
    pub fn archives(&self) -> Archives<'_>
        ensures rest { result ≡ self.now.archives }
        ensures stands { IsArchiveStore self.now.path self.now.capacity self.now.archives self.now.folder }
    {
        shown(&self.cache);
        self.cache.archives()
    }

    /// The cache. It takes no memory.
    pub fn into_cache(self) -> TcCache<F>
        ensures archives { result.archives ≡ self.archives }
        ensures at { (result.path ≡ self.path) × (result.capacity ≡ self.capacity) }
        ensures folder { F.held result.folder ≡ self.folder }
    {
        let ServerState {
            alloc: _,
            cache,
            jobs: _,
        } = self;
        cache
    }

    /// Stores an archive under a job, after Ready was accepted: what `end_submit` does then, without a hash.
    #[tactic(auto, using(crate::proofs::StoreLemmas::others_same))]
    pub fn take_in(
        &mut self,
        job: JobId,
        archive: &HashedArchive<'_>,
    ) -> Result<Submitted, ServerFault>
        ensures taken { TakesIn job archive.now self.old self.new result }
    {
        let Some(tc) = self.jobs.get(job) else {
            return Ok(Submitted::None);
        };
        if self.cache.contains_toolchain(&tc) {
            return Ok(Submitted::Listed);
        }
        store(self.alloc, &mut self.cache, &tc, archive)
    }

    /// Stores bytes as the archive of a toolchain, as the most recent, under no job: as
    /// `TcCache::insert_bytes` does, with its refusals. What is held stays. It hashes the bytes once and copies
    /// none.
    pub fn adopt(&mut self, tc: &Toolchain, bytes: &[u8]) -> Result<(), Error>
        ensures adopts { Adopts tc.now bytes.now self.old self.new result }
    {
        let answer = self.cache.insert_bytes(tc, bytes);
        answer
    }

    // Takes a job out and reads its archive, after Started was accepted.
    fn take_out(&mut self, job: JobId) -> Result<RunHeld, ServerFault>
        ensures taken { TakesOut job self.old self.new result }
    {
        let Some(tc) = self.jobs.get(job) else {
            return Ok(RunHeld::new(Taken::None));
        };
        if !self.cache.contains_toolchain(&tc) {
            self.jobs.remove(job);
            return Ok(RunHeld::new(Taken::Unlisted(tc)));
        }
        match read(&mut self.cache, tc) {
            Ok(taken) => {
                self.jobs.remove(job);
                Ok(RunHeld::new(taken))
            }
            Err(_) => Err(ServerFault::Memory),
        }
    }
}

/// The answer where the archive is listed, and where it is not.
fn need_by(listed: bool) -> AssignJobResult
    ensures { result ≡ need_by listed }
{
    if listed {
        return AssignJobResult {
            state: JobState::Ready,
            need_toolchain: false,
        };
    }
    AssignJobResult {
        state: JobState::Pending,
        need_toolchain: true,
    }
}

/// It tells its books.
impl<F: Folder> Keeping for ServerState<F> {
    ghost use Rattle.std.specs.Prelude.{Some};

    ghost kept = { λ s. Some s };

    fn assign(&mut self, job: JobId, tc: Toolchain) -> Result<AssignJobResult, ServerFault> {
        ServerState::assign(self, job, tc)
    }

    fn begin_submit(&self, job: JobId) -> Submit {
        ServerState::begin_submit(self, job)
    }

    fn end_submit(
        &mut self,
        submit: Submit,
        ready: Update,
        archive: &[u8],
    ) -> Result<Submitted, ServerFault> {
        ServerState::end_submit(self, submit, ready, archive)
    }

    fn begin_run(&mut self, job: JobId, started: Update) -> Result<RunHeld, ServerFault> {
        ServerState::begin_run(self, job, started)
    }
}
