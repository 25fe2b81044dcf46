//! The rules as a plain program: a list of held pairs, and a list of archives, least recent first.
use crate::outside::archive;
use std::alloc::Global;
use std::process::Abort;

/// Jobs with the places of their archives, by rising job, and archives by place with their sizes.
#[derive(Drop)]
pub(crate) struct Plain {
    alloc: Global,
    pub(crate) held: Vec<(u64, usize)>,
    pub(crate) archives: Vec<(usize, u64)>,
    capacity: u64,
}

/// How a submission ends: the archives that go stand with it.
#[derive(Debug, Drop)]
pub(crate) enum Ended {
    None,
    Listed,
    Digest,
    Capacity,
    Stored(Vec<usize>),
}

impl Plain {
    pub(crate) fn new(alloc: Global, capacity: u64) -> Self {
        Plain {
            alloc,
            held: Vec::new(alloc),
            archives: Vec::new(alloc),
            capacity,
        }
    }

    /// The place of the archive that a job wants.
    pub(crate) fn wants(&self, job: u64) -> Option<usize> {
        for (held, place) in &self.held {
            if *held == job {
                return Some(*place);
            }
        }
        None
    }

    pub(crate) fn lists(&self, place: usize) -> bool {
        self.archives.iter().any(|(other, _)| *other == place)
    }

    /// None where the job is held, else whether the archive is listed.
    pub(crate) fn assign(&mut self, rt: &impl Abort, job: u64, place: usize) -> Option<bool> {
        if self.wants(job).is_some() {
            return None;
        }
        self.held.push((job, place)).expect(rt, "memory");
        self.held.sort().expect(rt, "memory");
        Some(self.lists(place))
    }

    /// The archives that go so that one of this size fits.
    fn front(&self, rt: &impl Abort, size: u64) -> Vec<usize> {
        let mut sum: u64 = 0;
        for (_, other) in &self.archives {
            sum = sum.saturating_add(*other);
        }
        let mut gone = Vec::new(self.alloc);
        for (place, other) in &self.archives {
            if sum.saturating_add(size) > self.capacity {
                gone.push(*place).expect(rt, "memory");
                sum = sum.saturating_sub(*other);
            }
        }
        gone
    }

    /// Takes some archives out.
    pub(crate) fn forget(&mut self, gone: &[usize]) {
        self.archives.retain(|(place, _)| !gone.contains(place));
    }

    /// How a submission of the bytes at a place ends.
    pub(crate) fn submit(&self, rt: &impl Abort, job: u64, given: usize) -> Ended {
        let Some(place) = self.wants(job) else {
            return Ended::None;
        };
        if self.lists(place) {
            return Ended::Listed;
        }
        if place != given {
            return Ended::Digest;
        }
        let size = archive(given).len() as u64;
        if size > self.capacity {
            return Ended::Capacity;
        }
        Ended::Stored(self.front(rt, size))
    }

    /// Stores an archive, where these go.
    pub(crate) fn store(&mut self, rt: &impl Abort, given: usize, gone: &[usize]) {
        self.forget(gone);
        let size = archive(given).len() as u64;
        self.archives.push((given, size)).expect(rt, "memory");
    }

    /// The archive is the most recent.
    pub(crate) fn touch(&mut self, rt: &impl Abort, place: usize) {
        let size = archive(place).len() as u64;
        self.archives.retain(|(other, _)| *other != place);
        self.archives.push((place, size)).expect(rt, "memory");
    }

    /// Takes a job out.
    pub(crate) fn take(&mut self, job: u64) -> Option<usize> {
        let place = self.wants(job);
        self.held.retain(|(held, _)| *held != job);
        place
    }
}
