//! One caller: which calls it makes, and what it keeps of them.
ghost use Rattle.sched.specs.Pass.{IsPassOf, Stays};

use crate::answer::{Answer, Kept, allocated, counted, drained, heard, reported};
use crate::draws::Draws;
use crate::fault::Fault;
use crate::server::{Answering, Heard, heard_by};
use crate::ticks::Ticks;
use core_rules::error::SchedError;
use dist_token::job_token::JWTJobAuthorizer;
use dist_types::addr::Addr;
use dist_types::ids::{JobId, ServerId, ServerNonce};
use dist_types::results::JobState;
use dist_types::roles::JobAuthorizer;
use dist_types::rules::Rules;
use dist_types::toolchain::Toolchain;
use sched::fault::SchedFault;
use sched::pass::Pass;
use sched::scheduler::Scheduler;
use std::alloc::Global;
use std::sync::Wait;

/// The scheduler that is called.
pub(crate) type TestScheduler = Scheduler<JWTJobAuthorizer>;

/// How many build servers there are.
const SERVERS: u64 = 12;

/// How many processors each has.
const CPUS: u64 = 4;

/// The bytes of the key of each registration.
pub(crate) const KEY: &[u8] = &[1, 2, 2];

/// A job that was given to the caller, and how far it has come.
#[derive(Clone, Copy)]
struct Job {
    job: JobId,
    server: ServerId,
    state: JobState,
}

/// What a caller has beside its pass.
#[derive(Drop)]
pub(crate) struct Caller {
    alloc: Global,
    clock: Ticks,
    draws: Draws,
    tc: Toolchain,
    jobs: Vec<Job>,
    kept: Vec<Kept>,
}

/// The build server of that number.
fn numbered(number: u64) -> ServerId {
    ServerId::new(Addr::V4([127, 0, 0, 1], (number % 60000) as u16))
}

/// The state that follows, or that one again.
fn next_state(state: JobState) -> JobState {
    match state {
        JobState::Pending => JobState::Ready,
        JobState::Ready => JobState::Started,
        JobState::Started => JobState::Complete,
        JobState::Complete => JobState::Complete,
    }
}

impl Caller {
    /// The caller of that number, of so many.
    pub(crate) fn new(alloc: Global, number: u64, callers: u64, tc: Toolchain) -> Self {
        Caller {
            alloc,
            clock: Ticks::new(number, callers),
            draws: Draws::new(number),
            tc,
            jobs: Vec::new(alloc),
            kept: Vec::new(alloc),
        }
    }

    /// What it was answered, in order.
    pub(crate) fn into_kept(self) -> Vec<Kept> {
        self.kept
    }

    fn keep(&mut self, heard: Option<Heard>, answer: Answer) -> Result<(), Fault> {
        let moment = self.clock.last();
        self.kept.push(Kept {
            moment,
            heard,
            answer,
        })?;
        Ok(())
    }

    /// A heartbeat. One whose number of processors is refused makes no entry, so its answer has no place.
    fn beat<R: Wait>(
        &mut self,
        rt: &R,
        scheduler: &TestScheduler,
        pass: &mut Pass,
    ) -> Result<(), Fault>
        requires pass { IsPassOf scheduler.now pass.old }
        ensures stays { Stays pass.old pass.new }
    {
        let key = JWTJobAuthorizer::of_key(Vec::from_slice(self.alloc, KEY)?);
        let server = numbered(self.draws.below(SERVERS));
        let nonce = ServerNonce::new(if self.draws.comes(40) { 8 } else { 7 });
        let cpus = if self.draws.comes(30) { 0 } else { CPUS };
        let clock = &mut self.clock;
        let answer = scheduler.handle_heartbeat_server(rt, pass, clock, server, nonce, cpus, key);
        let answer = heard(answer);
        if answer == Answer::Fault(SchedFault::Core(SchedError::BadCpus(0))) {
            return Ok(());
        }
        self.keep(None, answer)
    }

    /// An allocation.
    fn allocate<R: Wait>(
        &mut self,
        rt: &R,
        scheduler: &TestScheduler,
        pass: &mut Pass,
    ) -> Result<(), Fault>
        requires pass { IsPassOf scheduler.now pass.old }
        ensures stays { Stays pass.old pass.new }
    {
        let drawn = self.draws.below(12);
        let mut server = Answering::new(heard_by(drawn));
        let clock = &mut self.clock;
        let answer = scheduler.handle_alloc_job(rt, pass, clock, &mut server, &self.tc);
        let answer = allocated(answer);
        if let Answer::Given(server, job, _, is_pending) = &answer {
            let state = if *is_pending {
                JobState::Pending
            } else {
                JobState::Ready
            };
            let (server, job) = (*server, *job);
            self.jobs.push(Job { job, server, state })?;
        }
        self.keep(Some(heard_by(drawn)), answer)
    }

    /// The job to report on, the server that reports it, and the state: mostly the one that follows.
    fn draw_report(&mut self) -> (usize, Job) {
        let place = self.draws.below(self.jobs.len() as u64) as usize;
        let mut report = match self.jobs.get(place) {
            Some(job) => *job,
            None => Job {
                job: JobId(0),
                server: numbered(0),
                state: JobState::Pending,
            },
        };
        report.state = next_state(report.state);
        if self.draws.comes(20) {
            report.server = numbered(self.draws.below(SERVERS));
        }
        if self.draws.comes(20) {
            report.state = JobState::Complete;
        }
        (place, report)
    }

    /// Takes the report down on the caller's own books, where it was taken, or the job is nobody's.
    fn note(&mut self, place: usize, state: JobState, answer: &Answer) {
        let is_over = match answer {
            Answer::Reported => state == JobState::Complete,
            Answer::Fault(fault) => *fault == SchedFault::Core(SchedError::UnknownJob),
            _ => false,
        };
        if place >= self.jobs.len() {
            return;
        }
        if is_over {
            self.jobs.swap_remove(place);
        } else if *answer == Answer::Reported {
            self.jobs[place].state = state;
        }
    }

    /// A report on a job.
    fn report<R: Wait>(
        &mut self,
        rt: &R,
        scheduler: &TestScheduler,
        pass: &mut Pass,
    ) -> Result<(), Fault>
        requires pass { IsPassOf scheduler.now pass.old }
        ensures stays { Stays pass.old pass.new }
    {
        let (place, report) = self.draw_report();
        let Job { job, server, state } = report;
        let clock = &mut self.clock;
        let answer = scheduler.handle_update_job_state(rt, pass, clock, job, server, state);
        let answer = reported(answer);
        self.note(place, state, &answer);
        self.keep(None, answer)
    }

    /// A status request.
    fn count<R: Wait>(
        &mut self,
        rt: &R,
        scheduler: &TestScheduler,
        pass: &mut Pass,
    ) -> Result<(), Fault>
        requires pass { IsPassOf scheduler.now pass.old }
        ensures stays { Stays pass.old pass.new }
    {
        let answer = scheduler.handle_status(rt, pass, &mut self.clock);
        self.keep(None, counted(answer))
    }

    /// A drain, or its end.
    fn drain<R: Wait>(
        &mut self,
        rt: &R,
        scheduler: &TestScheduler,
        pass: &mut Pass,
    ) -> Result<(), Fault>
        requires pass { IsPassOf scheduler.now pass.old }
        ensures stays { Stays pass.old pass.new }
    {
        let server = numbered(self.draws.below(SERVERS));
        let on = self.draws.comes(3);
        let nonce = ServerNonce::new(7);
        match scheduler.rules() {
            Rules::One => Ok(()),
            Rules::Two => {
                let clock = &mut self.clock;
                let answer = scheduler.handle_drain_server(rt, pass, clock, server, nonce, on);
                self.keep(None, drained(answer))
            }
        }
    }

    /// One call, of those that the numbers draw.
    pub(crate) fn call<R: Wait>(
        &mut self,
        rt: &R,
        scheduler: &TestScheduler,
        pass: &mut Pass,
    ) -> Result<(), Fault>
        requires pass { IsPassOf scheduler.now pass.old }
        ensures stays { Stays pass.old pass.new }
    {
        match self.draws.below(16) {
            0 | 1 => self.beat(rt, scheduler, pass),
            2 | 3 | 4 | 5 => self.allocate(rt, scheduler, pass),
            6 => self.count(rt, scheduler, pass),
            7 => self.drain(rt, scheduler, pass),
            _ => self.report(rt, scheduler, pass),
        }
    }
}
