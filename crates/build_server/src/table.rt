//! The table of the jobs that a server holds.
ghost use Rattle.std.specs.Prelude.{◌≡◌, IfOk, OnOk, OnErr, [], length, None};
ghost use Rattle.std.specs.Map.Iter.{TakesFirst};
ghost use Rattle.std.specs.Iterator.{at_most};
ghost use Rattle.build_server.specs.Books.{held_for, placed, without_job, AreRising};

use dist_types::fault::Memory;
use dist_types::ids::JobId;
use dist_types::toolchain::Toolchain;
use std::alloc::Global;
use std::collections::BTreeMap;
use std::collections::btree_map::Iter;
use std::marker::Model;

/// Jobs with their toolchains. Contracts see them as a list by rising job.
#[derive(Drop)]
pub(crate) struct HeldTable {
    jobs: BTreeMap<JobId, Toolchain, Global>,
}

impl Model for HeldTable {
    ghost use Rattle.std.specs.Prelude.{List, ℕ};
    ghost use Rattle.dist_types.specs.declared.ids.JobId.{JobId};

    ghost Value = { List (JobId × List ℕ) };

    ghost view = { λ t. t.jobs.entries };
}

/// The jobs that a server holds with their toolchains, by rising id. Contracts see it as the list of those
/// that are still to come.
#[derive(Drop)]
pub struct Held<'a> {
    jobs: Iter<'a, JobId, Toolchain>,
}

impl<'a> Model for Held<'a> {
    ghost use Rattle.std.specs.Prelude.{List, ℕ};
    ghost use Rattle.dist_types.specs.declared.ids.JobId.{JobId};

    ghost Value = { List (JobId × List ℕ) };

    ghost view = { λ h. h.jobs };
}

impl<'a> Iterator for Held<'a> {
    type Item = (JobId, Toolchain);

    ghost next_gives = { TakesFirst (λ p. p) };

    ghost remaining = { λ s. at_most (length s) };

    fn next(&mut self) -> Option<(JobId, Toolchain)> {
        let (job, tc) = self.jobs.next()?;
        Some((*job, *tc))
    }
}

impl HeldTable {
    /// No jobs.
    pub(crate) fn new(alloc: Global) -> Self
        ensures empty { result ≡ [] }
    {
        HeldTable {
            jobs: BTreeMap::new(alloc),
        }
    }

    /// The jobs, by rising id.
    pub(crate) fn iter(&self) -> Held<'_>
        ensures rest { result ≡ self.now }
        ensures rising { AreRising self.now }
    {
        Held {
            jobs: self.jobs.iter(),
        }
    }

    /// The toolchain that is held for a job.
    pub(crate) fn get(&self, job: JobId) -> Option<Toolchain>
        ensures found { result ≡ held_for job self.now }
    {
        self.jobs.get(&job).copied()
    }

    /// Holds a job that is not held. Refused for want of memory alone.
    pub(crate) fn insert(&mut self, job: JobId, tc: Toolchain) -> Result<(), Memory>
        requires free { held_for job self.old ≡ None }
        ensures ok { OnOk result (self.new ≡ placed job tc self.old) }
        ensures err { OnErr result (self.new ≡ self.old) }
    {
        let Ok(_) = self.jobs.insert(job, tc) else {
            return Err(Memory);
        };
        Ok(())
    }

    /// Holds a job no longer.
    pub(crate) fn remove(&mut self, job: JobId)
        ensures removed { self.new ≡ without_job job self.old }
    {
        let _count = self.jobs.len();
        self.jobs.remove(&job);
    }
}
