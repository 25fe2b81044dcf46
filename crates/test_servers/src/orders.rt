//! Generated orders of calls, over folders that do not fail: the state beside the plain program.
use crate::outside::{archive, cache_of, command, names, toolchain};
use crate::plain::{Ended, Plain};
use build_server::echo::EchoBuilder;
use build_server::fault::ServerFault;
use build_server::run::{Ran, RunDone};
use build_server::state::ServerState;
use build_server::submit::Submitted;
use dist_types::ids::JobId;
use dist_types::results::{JobState, UpdateJobStateResult};
use dist_types::toolchain::Toolchain;
use folders::mem_folder::MemFolder;
use std::alloc::Global;
use std::process::Abort;

/// The capacity of the caches: one archive is larger, and not all others fit together.
pub(crate) const CAPACITY: u64 = 15;

/// How many orders there are, and of how many calls each is.
pub(crate) const ORDERS: u64 = 300;

pub(crate) const STEPS: u64 = 24;

/// A call on a server.
#[derive(Clone, Copy, Debug)]
pub(crate) enum Step {
    /// Assigns a job with the toolchain of an archive.
    Assign(u64, usize),
    /// Submits an archive under a job.
    Submit(u64, usize),
    /// Runs a job.
    Run(u64),
}

/// Some numbers, one after the other, each below 2^32.
#[derive(Drop)]
pub(crate) struct Numbers {
    last: u64,
}

impl Numbers {
    pub(crate) fn new(seed: u64) -> Self {
        Numbers { last: seed }
    }

    /// The next number below `limit`, by the multiplier of Knuth's MMIX.
    fn below(&mut self, limit: u64) -> u64 {
        self.last = self
            .last
            .wrapping_mul(6_364_136_223_846_793_005)
            .wrapping_add(1_442_695_040_888_963_407);
        (self.last >> 33) % limit.max(1)
    }

    /// A place of an archive: that of its job as often as any.
    fn place(&mut self, job: u64) -> usize {
        let own = job % 5;
        let any = self.below(5);
        let place = if self.below(2) == 0 { own } else { any };
        place as usize
    }

    /// The next call: four jobs, and the archives.
    pub(crate) fn step(&mut self) -> Step {
        let job = self.below(4).saturating_add(4096);
        let place = self.place(job);
        match self.below(8) {
            0..=2 => Step::Assign(job, place),
            3..=5 => Step::Submit(job, place),
            _ => Step::Run(job),
        }
    }
}

/// Whether the ids are those of these places, in order.
pub(crate) fn are_at(rt: &impl Abort, ids: &[Toolchain], places: &[usize]) -> bool {
    if ids.len() != places.len() {
        return false;
    }
    ids.iter().zip(places).all(|(id, place)| id.archive_id() == toolchain(rt, *place).archive_id())
}

/// That what a state keeps is what the plain program keeps.
pub(crate) fn assert_kept(rt: &impl Abort, state: &ServerState<MemFolder>, plain: &Plain) {
    let mut at = 0;
    for (job, tc) in state.held() {
        let (want, place) = plain.held.get(at).expect(rt, "a job");
        assert_eq!(rt; job, JobId(*want));
        assert_eq!(rt; tc, toolchain(rt, *place));
        at += 1;
    }
    assert_eq!(rt; at, plain.held.len());
    let mut at = 0;
    for (tc, size) in state.archives() {
        let (place, want) = plain.archives.get(at).expect(rt, "an archive");
        assert_eq!(rt; (tc, size), (toolchain(rt, *place), *want));
        at += 1;
    }
    assert_eq!(rt; at, plain.archives.len());
}

/// Assigns on both.
pub(crate) fn assign(
    rt: &impl Abort,
    state: &mut ServerState<MemFolder>,
    plain: &mut Plain,
    job: u64,
    place: usize,
) {
    let want = plain.assign(rt, job, place);
    match state.assign(JobId(job), toolchain(rt, place)) {
        Ok(answer) => {
            assert_eq!(rt; want, Some(!answer.need_toolchain));
            assert_eq!(rt; answer.state == JobState::Ready, !answer.need_toolchain);
        }
        Err(fault) => {
            assert_eq!(rt; fault, ServerFault::AlreadyAssigned(JobId(job)));
            assert_eq!(rt; want, None);
        }
    }
}

/// Submits on the state, after Ready was accepted.
pub(crate) fn submit(
    rt: &impl Abort,
    state: &mut ServerState<MemFolder>,
    job: u64,
    given: usize,
) -> Submitted {
    let ticket = state.begin_submit(JobId(job));
    match state.end_submit(ticket, Ok(UpdateJobStateResult::Success), archive(given)) {
        Ok(outcome) => outcome,
        Err(_) => {
            assert!(rt; false, "an accepted submission is refused");
            Submitted::None
        }
    }
}

/// Compares the ends of a submission, and stores on the plain side.
pub(crate) fn assert_ended(
    rt: &impl Abort,
    plain: &mut Plain,
    given: usize,
    outcome: &Submitted,
    want: &Ended,
) {
    match (outcome, want) {
        (Submitted::None, Ended::None) => {}
        (Submitted::Listed, Ended::Listed) => {}
        (Submitted::Digest, Ended::Digest) => {}
        (Submitted::Capacity, Ended::Capacity) => {}
        (Submitted::Stored(size, dropped), Ended::Stored(gone)) => {
            assert_eq!(rt; *size, archive(given).len() as u64);
            assert!(rt; are_at(rt, dropped.get(), gone));
            plain.store(rt, given, gone);
        }
        _ => assert!(rt; false, "the submission ended otherwise"),
    }
}

/// Runs on the state, after Started was accepted, and ends the run.
pub(crate) fn run(
    rt: &impl Abort,
    alloc: Global,
    state: &mut ServerState<MemFolder>,
    job: u64,
) -> Ran {
    let Ok(held) = state.begin_run(JobId(job), Ok(UpdateJobStateResult::Success)) else {
        assert!(rt; false, "an accepted run is refused");
        return Ran::None;
    };
    let mut builder = EchoBuilder::new(alloc);
    let (command, outputs) = (command(rt, alloc), names(rt, alloc, "o"));
    match held.build(&mut builder, &command, &outputs, b"in") {
        Ok(done) => ran_of(done),
        Err((held, _)) => {
            held.give_up();
            assert!(rt; false, "there was memory for the build");
            Ran::None
        }
    }
}

fn ran_of(done: RunDone) -> Ran {
    let ran = done.ran();
    let _ = done.end_run(Ok(UpdateJobStateResult::Success));
    ran
}

/// Runs on the plain side, and compares.
fn assert_ran(rt: &impl Abort, plain: &mut Plain, job: u64, ran: Ran) {
    let Some(place) = plain.take(job) else {
        assert_eq!(rt; ran, Ran::None);
        return;
    };
    if !plain.lists(place) {
        assert_eq!(rt; ran, Ran::Unlisted(toolchain(rt, place)));
        return;
    }
    plain.touch(rt, place);
    assert_eq!(rt; ran, Ran::Built(toolchain(rt, place)));
}

/// One call on both.
fn take(
    rt: &impl Abort,
    alloc: Global,
    state: &mut ServerState<MemFolder>,
    plain: &mut Plain,
    step: Step,
) {
    match step {
        Step::Assign(job, place) => assign(rt, state, plain, job, place),
        Step::Submit(job, given) => {
            let want = plain.submit(rt, job, given);
            let outcome = submit(rt, state, job, given);
            assert_ended(rt, plain, given, &outcome, &want);
        }
        Step::Run(job) => {
            let ran = run(rt, alloc, state, job);
            assert_ran(rt, plain, job, ran);
        }
    }
}

#[test]
fn three_hundred_orders_of_calls(rt: HostRuntime) {
    let alloc = rt.alloc();
    for seed in 0..ORDERS {
        let cache = cache_of(alloc, CAPACITY, Vec::new(alloc), Vec::new(alloc));
        let mut state = ServerState::new(alloc, cache.expect(&rt, "a cache"));
        let mut plain = Plain::new(alloc, CAPACITY);
        let mut numbers = Numbers::new(seed);
        for _ in 0..STEPS {
            take(&rt, alloc, &mut state, &mut plain, numbers.step());
            assert_kept(&rt, &state, &plain);
        }
    }
}
