//! Many callers at once, each with a pass of its own: every entry is counted once.
ghost use Rattle.sched.specs.Pass.{IsPassOf, Stays};

use crate::answers::{Answers, TestScheduler, abc, beat, scheduler, still};
use dist_types::results::JobState;
use sched::pass::Pass;
use std::alloc::Global;
use std::process::Abort;
use std::sync::Wait;
use std::thread;
use std::thread::Threads;

/// How often each caller makes its three calls.
const ROUNDS: u64 = 200;

/// How many entries each caller makes at least: a heartbeat and a status make one, an allocation that is
/// taken two, and one without room one.
const LEAST: u64 = 3 * ROUNDS;

/// Makes a heartbeat, an allocation and a status, again and again.
fn work<R: Abort + Wait>(rt: &R, alloc: Global, scheduler: &TestScheduler, mut pass: Pass) -> Pass
    requires pass { IsPassOf scheduler.now pass }
    ensures pass { IsPassOf scheduler.now result }
{
    let tc = abc(rt);
    for _ in 0..ROUNDS {
        beat(rt, alloc, scheduler, &mut pass);
        let mut takes = Answers {
            state: JobState::Ready,
            status: None,
        };
        let mut clock = still(alloc);
        let job = scheduler.handle_alloc_job(rt, &mut pass, &mut clock, &mut takes, &tc);
        assert!(rt; job.is_ok());
        let counts = scheduler.handle_status(rt, &mut pass, &mut clock);
        assert!(rt; counts.is_ok());
    }
    pass
}

/// Two callers at once, in threads of their own.
fn two<R: Abort + Threads + Wait + Sync>(
    rt: &R,
    alloc: Global,
    scheduler: &TestScheduler,
    mut pass: Pass,
) -> Pass
    requires pass { IsPassOf scheduler.now pass }
    ensures pass { IsPassOf scheduler.now result }
{
    let other = scheduler.split(rt, &mut pass).expect(rt, "memory");
    let (mut pass, other) = thread::join(
        rt,
        || -> Pass
            requires { IsPassOf scheduler.now pass }
            ensures { IsPassOf scheduler.entry.now result }
        { work(rt, alloc, scheduler, pass) },
        || -> Pass
            requires { IsPassOf scheduler.now other }
            ensures { IsPassOf scheduler.entry.now result }
        { work(rt, alloc, scheduler, other) },
    );
    scheduler.join(&mut pass, other);
    pass
}

/// Four callers at once.
fn four<R: Abort + Threads + Wait + Sync>(
    rt: &R,
    alloc: Global,
    scheduler: &TestScheduler,
    mut pass: Pass,
) -> Pass
    requires pass { IsPassOf scheduler.now pass }
    ensures pass { IsPassOf scheduler.now result }
{
    let other = scheduler.split(rt, &mut pass).expect(rt, "memory");
    let (mut pass, other) = thread::join(
        rt,
        || -> Pass
            requires { IsPassOf scheduler.now pass }
            ensures { IsPassOf scheduler.entry.now result }
        { two(rt, alloc, scheduler, pass) },
        || -> Pass
            requires { IsPassOf scheduler.now other }
            ensures { IsPassOf scheduler.entry.now result }
        { two(rt, alloc, scheduler, other) },
    );
    scheduler.join(&mut pass, other);
    pass
}

/// Four callers at once, with splits and joins between: the joined pass counts every entry, and the log has
/// as many.
#[test]
fn every_entry_is_counted_once(rt: HostRuntime) {
    let alloc = rt.alloc();
    let (scheduler, pass) = scheduler(&rt, alloc);
    let pass = four(&rt, alloc, &scheduler, pass);
    assert_eq!(&rt; pass.held(), 4);
    assert!(&rt; pass.count() >= 4 * LEAST);
    let counted = pass.count();
    match scheduler.close(&rt, pass) {
        Ok(state) => assert_eq!(&rt; state.history().len() as u64, counted),
        Err(_) => panic!(&rt; "not closed with all passes in"),
    }
}
