//! A scheduler's state, the moment of its last call, and the jobs that go through it.
use crate::short_tokens::CoreTokens;
use core_rules::answers::Committed;
use dist_types::addr::Addr;
use dist_types::ids::{JobId, ServerId, ServerNonce};
use dist_types::results::JobState;
use dist_types::roles::JobAuthorizer;
use sched_core::answers::Picked;
use sched_core::state::SchedState;
use std::alloc::Global;

/// A scheduler's state, and the moment of the last call in milliseconds.
#[derive(Drop)]
pub struct Desk {
    state: SchedState<CoreTokens>,
    now: u64,
}

/// What goes through.
#[derive(Clone, Copy)]
pub struct Load {
    /// How many servers there are.
    pub servers: u64,
    /// How many processors and open jobs each server has.
    pub each: u64,
    /// How many jobs start and complete, while so many are open.
    pub jobs: u64,
}

/// A job that runs.
#[derive(Clone, Copy)]
pub struct Running {
    job: JobId,
    server: ServerId,
}

// A job that a commit kept.
fn kept(answer: Committed) -> Option<Running> {
    match answer {
        Committed::Kept(alloc) => Some(Running {
            job: alloc.job_id,
            server: alloc.server_id,
        }),
        Committed::Dropped(_) => None,
        Committed::Foreign(_) => None,
    }
}

impl Desk {
    /// A scheduler with an empty log.
    pub fn new(alloc: Global) -> Self {
        Desk {
            state: SchedState::new(alloc, 0),
            now: 0,
        }
    }

    /// How many entries its log has, and how many jobs are open.
    pub fn counts(&self) -> (usize, usize) {
        (self.state.history().len(), self.state.open_count())
    }

    // The moment of the next call.
    fn next(&mut self) -> u64 {
        self.now = self.now.saturating_add(1);
        self.now
    }

    // A server registers.
    fn register(&mut self, alloc: Global, number: u64, cpus: u64) -> Option<()> {
        let [a, b, c, d] = ((number % 4294967296) as u32).to_be_bytes();
        let server = ServerId::new(Addr::V4([a, b, c, d], 10501));
        let key = CoreTokens::of_key(Vec::new(alloc));
        let now = self.next();
        self.state
            .beat(now, server, ServerNonce::new(7), cpus, key)
            .ok()?;
        Some(())
    }

    // A job is reserved, and committed as pending.
    fn allocate(&mut self) -> Option<Running> {
        let now = self.next();
        match self.state.reserve(now) {
            Ok(Picked::Reserved(reservation)) => {
                let now = self.next();
                let answer = self.state.commit(now, reservation, JobState::Pending);
                kept(answer)
            }
            Ok(Picked::NoRoom(_)) => None,
            Err(_) => None,
        }
    }

    // Its server reports it in a state. Whether that was accepted.
    fn report(&mut self, running: &Running, to: JobState) -> bool {
        let now = self.next();
        self.state
            .update(now, running.server, running.job, to)
            .is_ok()
    }

    // A job up to its start, which is reported twice if so asked.
    fn start(&mut self, twice: bool) -> Option<Running> {
        let running = self.allocate()?;
        let ready = self.report(&running, JobState::Ready);
        let started = self.report(&running, JobState::Started);
        if twice && self.report(&running, JobState::Started) {
            return None;
        }
        if ready && started {
            Some(running)
        } else {
            None
        }
    }

    // The job in a place completes, and the next one starts there.
    fn turn(&mut self, place: &mut Running, twice: bool) -> Option<()> {
        if !self.report(place, JobState::Complete) {
            return None;
        }
        *place = self.start(twice)?;
        Some(())
    }
}

// The servers register.
fn register_all(desk: &mut Desk, alloc: Global, servers: u64, cpus: u64) -> Option<()> {
    for number in 0..servers {
        desk.register(alloc, number, cpus)?;
    }
    Some(())
}

// So many jobs start.
fn start_all(desk: &mut Desk, open: &mut Vec<Running>, jobs: u64) -> Option<()> {
    for number in 0..jobs {
        let running = desk.start(number % 2 == 0)?;
        open.push(running).ok()?;
    }
    Some(())
}

// The jobs go through: each takes the place of the one that started before all that are open.
fn go_through(desk: &mut Desk, open: &mut [Running], jobs: u64) -> Option<()> {
    let count = open.len() as u64;
    if count == 0 {
        return None;
    }
    for number in 0..jobs {
        let place = open.get_mut((number % count) as usize)?;
        desk.turn(place, number % 2 == 0)?;
    }
    Some(())
}

/// The servers register, as many jobs start as they have processors, and the jobs go through.
pub fn run(desk: &mut Desk, open: &mut Vec<Running>, alloc: Global, load: &Load) -> Option<()> {
    register_all(desk, alloc, load.servers, load.each)?;
    start_all(desk, open, load.servers.saturating_mul(load.each))?;
    go_through(desk, open, load.jobs)
}
