//! All callers at once.
ghost use Rattle.std.specs.Prelude.{◌≡◌, ◌+◌, ◌≤◌, [], All, IfOk, vec_len, vec_capacity, length};
ghost use Rattle.sched.specs.Pass.{IsPassOf};

use crate::answer::Kept;
use crate::caller::{Caller, TestScheduler};
use crate::fault::Fault;
use dist_token::job_token::JWTJobAuthorizer;
use dist_types::rules::Rules;
use dist_types::toolchain::Toolchain;
use sched::pass::Pass;
use sched_core::state::SchedState;
use std::alloc::Global;
use std::sync::Wait;
use std::thread;
use std::thread::Threads;

/// How many callers there are.
pub(crate) const CALLERS: usize = 8;

/// How many calls each makes.
pub(crate) const CALLS: u64 = 10000;

/// Every so many calls a caller makes one under a second pass, which it splits off and joins again.
const APART: u64 = 25;

/// The id of the first job.
const BASE: u64 = 4096;

/// The toolchain of every job: the id of the archive `abc` (FIPS 180-4, appendix B.1).
const TOOLCHAIN: &str = "ba7816bf8f01cfea414140de5dae2223b00361a396177a9cb410ff61f20015ad";

/// What is left once all passes are joined: the state, how many entries they counted, and all answers.
#[derive(Drop)]
pub(crate) struct Finished {
    pub(crate) state: SchedState<JWTJobAuthorizer>,
    pub(crate) counted: u64,
    pub(crate) kept: Vec<Vec<Kept>>,
}

/// A caller with its pass, and why it stopped early, if it did.
#[derive(Drop)]
struct Worker {
    caller: Caller,
    pass: Pass,
    stopped: Option<Fault>,
}

/// One call under a second pass.
fn call_apart<R: Wait>(
    rt: &R,
    scheduler: &TestScheduler,
    caller: &mut Caller,
    pass: &mut Pass,
) -> Result<(), Fault>
    requires pass { IsPassOf scheduler.now pass.old }
    ensures of { IsPassOf scheduler.now pass.new }
{
    let mut other = scheduler.split(rt, pass)?;
    let made = caller.call(rt, scheduler, &mut other);
    scheduler.join(pass, other);
    made
}

/// Makes all calls of a caller.
fn call_all<R: Wait>(
    rt: &R,
    scheduler: &TestScheduler,
    caller: &mut Caller,
    pass: &mut Pass,
) -> Result<(), Fault>
    requires pass { IsPassOf scheduler.now pass.old }
    ensures of { IsPassOf scheduler.now pass.new }
{
    for number in 0..CALLS {
        if number % APART == 0 {
            call_apart(rt, scheduler, caller, pass)?;
        } else {
            caller.call(rt, scheduler, pass)?;
        }
    }
    Ok(())
}

/// Makes all calls of a worker.
fn work<R: Wait>(rt: &R, scheduler: &TestScheduler, worker: &mut Worker)
    requires pass { IsPassOf scheduler.now worker.old.pass }
    ensures of { IsPassOf scheduler.now worker.new.pass }
{
    match call_all(rt, scheduler, &mut worker.caller, &mut worker.pass) {
        Ok(()) => (),
        Err(fault) => worker.stopped = Some(fault),
    }
}

/// Runs all workers at once, and waits for all.
fn work_all<R: Threads + Wait + Sync>(rt: &R, scheduler: &TestScheduler, workers: &mut [Worker])
    requires passes { All (λ w. IsPassOf scheduler.now w.pass) workers.old }
    ensures passes { All (λ w. IsPassOf scheduler.now w.pass) workers.new }
{
    let threads = workers.len();
    if threads == 0 {
        return;
    }
    thread::for_each_mut(
        rt,
        workers,
        threads,
        &|_, w: &mut Worker| -> ()
            requires pass { IsPassOf scheduler.now w.now.pass }
            ensures of { IsPassOf scheduler.entry.now w.exit.now.pass }
        {
            work(rt, scheduler, w);
        },
    );
}

/// A worker for each caller, each with a pass that is split off. Where memory runs out, they are let go.
fn hire<R: Wait>(
    rt: &R,
    alloc: Global,
    scheduler: &TestScheduler,
    pass: &mut Pass,
) -> Result<Vec<Worker>, Fault>
    requires pass { IsPassOf scheduler.now pass.old }
    ensures of { IsPassOf scheduler.now pass.new }
    ensures passes { IfOk result (λ v. All (λ w. IsPassOf scheduler.now w.pass) v.items) }
{
    let mut workers = Vec::new(alloc);
    for number in 0..CALLERS {
        let Ok(tc) = Toolchain::new(TOOLCHAIN) else {
            return Err(Fault::Memory);
        };
        let caller = Caller::new(alloc, number as u64, CALLERS as u64, tc);
        let split = scheduler.split(rt, pass)?;
        workers.push(Worker {
            caller,
            pass: split,
            stopped: None,
        })?;
    }
    Ok(workers)
}

/// Joins all passes. What each caller keeps, or why one stopped early.
fn gather(
    alloc: Global,
    scheduler: &TestScheduler,
    pass: &mut Pass,
    workers: Vec<Worker>,
) -> Result<Vec<Vec<Kept>>, Fault>
    requires pass { IsPassOf scheduler.now pass.old }
    requires passes { All (λ w. IsPassOf scheduler.now w.pass) workers.items }
    ensures of { IsPassOf scheduler.now pass.new }
{
    let mut kept = Vec::new(alloc);
    for worker in workers {
        let Worker {
            caller,
            pass: other,
            stopped,
        } = worker;
        scheduler.join(pass, other);
        if let Some(fault) = stopped {
            return Err(fault);
        }
        kept.push(caller.into_kept())?;
    }
    Ok(kept)
}

/// Makes all calls, joins all passes and closes the scheduler.
pub(crate) fn run<R: Threads + Wait + Sync>(rt: &R, alloc: Global) -> Result<Finished, Fault> {
    let (scheduler, mut pass) = TestScheduler::with_rules(alloc, BASE, Rules::Two)?;
    let mut workers = hire(rt, alloc, &scheduler, &mut pass)?;
    work_all(rt, &scheduler, &mut workers);
    let kept = gather(alloc, &scheduler, &mut pass, workers)?;
    let counted = pass.count();
    match scheduler.close(rt, pass) {
        Ok(state) => Ok(Finished {
            state,
            counted,
            kept,
        }),
        Err(_) => Err(Fault::Out),
    }
}
