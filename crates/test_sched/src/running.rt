//! What the calls answer, and what the passes count.
ghost use Rattle.std.specs.Prelude.{◌≡◌};
ghost use Rattle.sched.specs.Pass.{IsPassOf, Stays};

use crate::answers::{Answers, TestScheduler, abc, beat, scheduler, server, still};
use core_rules::answers::Undone;
use core_rules::error::SchedError;
use dist_types::ids::{JobId, ServerId, ServerNonce};
use dist_types::outgoing::CallFault;
use dist_types::results::{AllocJobResult, JobState, UpdateJobStateResult};
use dist_types::rules::Rules;
use sched::fault::SchedFault;
use sched::pass::Pass;
use std::alloc::Global;
use std::process::Abort;
use std::sync::Wait;

/// The servers, the processors and the jobs that a status counts.
fn status<R: Abort + Wait>(
    rt: &R,
    alloc: Global,
    scheduler: &TestScheduler,
    pass: &mut Pass,
) -> (u64, u64, u64)
    requires pass { IsPassOf scheduler.now pass.old }
    ensures stays { Stays pass.old pass.new }
{
    let answer = scheduler.handle_status(rt, pass, &mut still(alloc));
    let counts = answer.expect(rt, "a status");
    (counts.num_servers, counts.num_cpus, counts.in_progress)
}

/// A heartbeat under the pass, and a status under a second one, which is split off: each counts its entry.
fn make_two<R: Abort + Wait>(
    rt: &R,
    alloc: Global,
    scheduler: &TestScheduler,
    pass: &mut Pass,
) -> Pass
    requires pass { IsPassOf scheduler.now pass.old }
    ensures pass { IsPassOf scheduler.now pass.new }
    ensures of { IsPassOf scheduler.now result }
{
    assert!(rt; beat(rt, alloc, scheduler, pass));
    let mut second = scheduler.split(rt, pass).expect(rt, "memory");
    assert_eq!(rt; status(rt, alloc, scheduler, &mut second).0, 1);
    assert_eq!(rt; (pass.count(), pass.held()), (1, 1));
    assert_eq!(rt; (second.count(), second.held()), (1, 1));
    second
}

/// A close is refused while a pass is out: it tells the entries, those of the pass, and hands both back.
fn refuse_close<R: Abort + Wait>(
    rt: &R,
    scheduler: TestScheduler,
    pass: Pass,
) -> (TestScheduler, Pass)
    requires pass { IsPassOf scheduler pass }
    ensures same { result.0 ≡ scheduler }
    ensures pass { IsPassOf scheduler result.1 }
{
    match scheduler.close(rt, pass) {
        Ok(_) => panic!(rt; "closed with a pass out"),
        Err(out) => {
            assert_eq!(rt; (out.made, out.held), (2, 1));
            (out.scheduler, out.pass)
        }
    }
}

/// How many entries the log of a scheduler has that is closed.
fn close<R: Abort + Wait>(rt: &R, scheduler: TestScheduler, pass: Pass) -> usize
    requires pass { IsPassOf scheduler pass }
{
    match scheduler.close(rt, pass) {
        Ok(state) => state.history().len(),
        Err(_) => panic!(rt; "not closed with all passes in"),
    }
}

/// Two passes make a heartbeat and a status; `close` refuses while one of them is out, and gives a log as
/// long as they count once they are joined.
#[test]
fn passes(rt: HostRuntime) {
    let alloc = rt.alloc();
    let (first, mut pass) = scheduler(&rt, alloc);
    let second = make_two(&rt, alloc, &first, &mut pass);
    let (first, mut pass) = refuse_close(&rt, first, pass);
    first.join(&mut pass, second);
    assert_eq!(&rt; (pass.count(), pass.held()), (2, 2));
    assert_eq!(&rt; close(&rt, first, pass), 2);
}

/// Where a job is allocated: its server, its number, and whether the server needs the toolchain.
type Place = (ServerId, JobId, bool);

/// What an allocation gives where each server answers an assignment so.
fn allocate<R: Abort + Wait>(
    rt: &R,
    alloc: Global,
    scheduler: &TestScheduler,
    pass: &mut Pass,
    mut answers: Answers,
) -> Result<Place, SchedFault>
    requires pass { IsPassOf scheduler.now pass.old }
    ensures stays { Stays pass.old pass.new }
{
    let tc = abc(rt);
    let answer = scheduler.handle_alloc_job(rt, pass, &mut still(alloc), &mut answers, &tc);
    match &answer {
        Ok(
            AllocJobResult::Success {
                job_alloc,
                need_toolchain,
            },
        ) => Ok((job_alloc.server_id, job_alloc.job_id, *need_toolchain)),
        Ok(AllocJobResult::Fail { msg: _ }) => panic!(rt; "no job"),
        Err(fault) => Err(*fault),
    }
}

/// A job that its server refuses is un-assigned, for the server's status.
#[test]
fn refused_assignment(rt: HostRuntime) {
    let alloc = rt.alloc();
    let (scheduler, mut pass) = TestScheduler::new(alloc, 4096).expect(&rt, "memory");
    beat(&rt, alloc, &scheduler, &mut pass);
    let refuses = Answers {
        state: JobState::Ready,
        status: Some(503),
    };
    let refused = allocate(&rt, alloc, &scheduler, &mut pass, refuses).err();
    let wanted = SchedFault::AssignFailed(Undone::Unassigned, CallFault::Status(503));
    assert!(&rt; refused == Some(wanted));
    assert_eq!(&rt; pass.count(), 3);
}

/// Whether a report that job 4096 is ready, of the server at this port, is taken.
fn report<R: Wait>(
    rt: &R,
    alloc: Global,
    scheduler: &TestScheduler,
    pass: &mut Pass,
    port: u16,
) -> Result<bool, SchedFault>
    requires pass { IsPassOf scheduler.now pass.old }
    ensures stays { Stays pass.old pass.new }
{
    let ready = JobState::Ready;
    let mut clock = still(alloc);
    let answer = scheduler.handle_update_job_state(
        rt,
        pass,
        &mut clock,
        JobId(4096),
        server(port),
        ready,
    );
    match &answer {
        Ok(UpdateJobStateResult::Success) => Ok(true),
        Ok(UpdateJobStateResult::Fail { msg: _ }) => Ok(false),
        Err(fault) => Err(*fault),
    }
}

/// Job 4096 is reported ready, once and by its own server.
fn reports<R: Abort + Wait>(rt: &R, alloc: Global, scheduler: &TestScheduler, pass: &mut Pass)
    requires pass { IsPassOf scheduler.now pass.old }
    ensures stays { Stays pass.old pass.new }
{
    let ready = JobState::Ready;
    let again = SchedFault::Core(SchedError::BadTransition(ready, ready));
    let elsewhere = SchedFault::Core(SchedError::WrongServer);
    assert!(rt; report(rt, alloc, scheduler, pass, 10501) == Ok(true));
    assert!(rt; report(rt, alloc, scheduler, pass, 10501) == Err(again));
    assert!(rt; report(rt, alloc, scheduler, pass, 10502) == Err(elsewhere));
}

/// One job, from its allocation to Ready, and the reports that are refused.
#[test]
fn one_job(rt: HostRuntime) {
    let alloc = rt.alloc();
    let (scheduler, mut pass) = scheduler(&rt, alloc);
    beat(&rt, alloc, &scheduler, &mut pass);
    let waits = Answers {
        state: JobState::Pending,
        status: None,
    };
    let place = allocate(&rt, alloc, &scheduler, &mut pass, waits);
    assert!(&rt; place == Ok((server(10501), JobId(4096), true)));
    reports(&rt, alloc, &scheduler, &mut pass);
    assert_eq!(&rt; status(&rt, alloc, &scheduler, &mut pass), (1, 1, 1));
    assert_eq!(&rt; pass.count(), 7);
}

/// Whether the server of the heartbeat drains from now on, or no more, under this nonce.
fn drain<R: Abort + Wait>(
    rt: &R,
    alloc: Global,
    scheduler: &TestScheduler,
    pass: &mut Pass,
    nonce: u64,
    on: bool,
) -> bool
    requires pass { IsPassOf scheduler.now pass.old }
    requires version { scheduler.now.start.rules ≡ Rules.Two }
    ensures stays { Stays pass.old pass.new }
{
    let nonce = ServerNonce::new(nonce);
    let mut clock = still(alloc);
    let answer = scheduler.handle_drain_server(rt, pass, &mut clock, server(10501), nonce, on);
    answer.expect(rt, "a drain")
}

/// What an allocation gives where each server takes the job; none where no server has room.
fn given<R: Abort + Wait>(
    rt: &R,
    alloc: Global,
    scheduler: &TestScheduler,
    pass: &mut Pass,
) -> Option<JobId>
    requires pass { IsPassOf scheduler.now pass.old }
    ensures stays { Stays pass.old pass.new }
{
    let mut takes = Answers {
        state: JobState::Ready,
        status: None,
    };
    let tc = abc(rt);
    let answer = scheduler.handle_alloc_job(rt, pass, &mut still(alloc), &mut takes, &tc);
    match &answer {
        Ok(
            AllocJobResult::Success {
                job_alloc,
                need_toolchain: _,
            },
        ) => Some(job_alloc.job_id),
        Ok(AllocJobResult::Fail { msg: _ }) => None,
        Err(_) => panic!(rt; "a fault"),
    }
}

/// In version 2 of the rules a server that drains gets no job, until it drains no more; a drain under another
/// nonce names nobody. Each drain makes its entry.
#[test]
fn a_server_that_drains_gets_no_job(rt: HostRuntime) {
    let alloc = rt.alloc();
    let (scheduler, mut pass) = TestScheduler::with_rules(alloc, 4096, Rules::Two).expect(
        &rt, "memory",
    );
    assert!(&rt; scheduler.rules() == Rules::Two);
    beat(&rt, alloc, &scheduler, &mut pass);
    assert!(&rt; drain(&rt, alloc, &scheduler, &mut pass, 7, true));
    assert!(&rt; given(&rt, alloc, &scheduler, &mut pass).is_none());
    assert!(&rt; drain(&rt, alloc, &scheduler, &mut pass, 7, false));
    assert!(&rt; given(&rt, alloc, &scheduler, &mut pass) == Some(JobId(4096)));
    assert!(&rt; !drain(&rt, alloc, &scheduler, &mut pass, 8, true));
    assert_eq!(&rt; pass.count(), 7);
    assert_eq!(&rt; close(&rt, scheduler, pass), 7);
}
