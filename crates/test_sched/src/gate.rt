//! No turn is held while a server is asked.
ghost use Rattle.sched.specs.Pass.{IsPassOf};

use crate::answers::{TestScheduler, abc, beat, still};
use dist_types::ids::{JobId, ServerId};
use dist_types::outgoing::{CallFault, SchedulerOutgoing};
use dist_types::results::{AllocJobResult, AssignJobResult, JobState};
use dist_types::toolchain::Toolchain;
use sched::pass::Pass;
use std::alloc::Global;
use std::process::Abort;
use std::sync::Wait;
use std::sync::atomic::{AtomicBool, Ordering};
use std::thread;
use std::thread::Threads;

/// How often a flag is looked at before one gives up.
const MAX_LOOKS: u64 = 1_000_000_000;

/// Looks for the flag, and yields now and then; false where it gave up.
fn is_set(flag: &AtomicBool) -> bool {
    for look in 0..MAX_LOOKS {
        if flag.load(Ordering::SeqCst) {
            return true;
        }
        if look % 1024 == 0 {
            thread::yield_now();
        }
    }
    false
}

/// Whether the first call has begun, and whether the second was answered.
#[derive(Drop)]
struct Gate {
    begun: AtomicBool,
    answered: AtomicBool,
}

/// Holds each assignment until the second call was answered, and gives up with status 504.
#[derive(Drop)]
struct Held<'a>(&'a Gate);

impl SchedulerOutgoing for Held<'_> {
    ghost use Rattle.std.specs.Prelude.{None};

    ghost assigned = { λ _. None };

    ghost faults = { λ _. 0 };

    fn do_assign_job(
        &mut self,
        _server_id: ServerId,
        _job_id: JobId,
        _tc: &Toolchain,
        _auth: &str,
    ) -> Result<AssignJobResult, CallFault> {
        self.0.begun.store(true, Ordering::SeqCst);
        if is_set(&self.0.answered) {
            Ok(AssignJobResult {
                state: JobState::Ready,
                need_toolchain: false,
            })
        } else {
            Err(CallFault::Status(504))
        }
    }
}

/// Allocates a job, whose assignment is held. Whether the job was given, and the pass.
fn first<R: Abort + Wait>(
    rt: &R,
    alloc: Global,
    scheduler: &TestScheduler,
    mut pass: Pass,
    gate: &Gate,
) -> (bool, Pass)
    requires pass { IsPassOf scheduler.now pass }
    ensures pass { IsPassOf scheduler.now result.1 }
{
    let tc = abc(rt);
    let mut held = Held(gate);
    let answer = scheduler.handle_alloc_job(rt, &mut pass, &mut still(alloc), &mut held, &tc);
    (matches!(&answer, Ok(AllocJobResult::Success { .. })), pass)
}

/// Waits until the first call has begun, makes a heartbeat, and says so. Whether that was waited for, and the
/// pass.
fn second<R: Abort + Wait>(
    rt: &R,
    alloc: Global,
    scheduler: &TestScheduler,
    mut pass: Pass,
    gate: &Gate,
) -> (bool, Pass)
    requires pass { IsPassOf scheduler.now pass }
    ensures pass { IsPassOf scheduler.now result.1 }
{
    let waited = is_set(&gate.begun);
    beat(rt, alloc, scheduler, &mut pass);
    gate.answered.store(true, Ordering::SeqCst);
    (waited, pass)
}

/// Whether the assignment was let go and the heartbeat answered behind it, and how many entries both made.
fn both<R: Abort + Threads + Wait + Sync>(rt: &R, alloc: Global, gate: &Gate) -> (bool, u64) {
    let (scheduler, mut pass) = TestScheduler::new(alloc, 4096).expect(rt, "memory");
    beat(rt, alloc, &scheduler, &mut pass);
    let other = scheduler.split(rt, &mut pass).expect(rt, "memory");
    let ((let_go, mut pass), (heard, other)) = thread::join(
        rt,
        || -> (bool, Pass)
            requires { IsPassOf scheduler pass }
            ensures { IsPassOf scheduler result.1 }
        { first(rt, alloc, &scheduler, pass, gate) },
        || -> (bool, Pass)
            requires { IsPassOf scheduler other }
            ensures { IsPassOf scheduler result.1 }
        { second(rt, alloc, &scheduler, other, gate) },
    );
    scheduler.join(&mut pass, other);
    (let_go && heard, pass.count())
}

/// A heartbeat is answered while an assignment is asked.
#[test]
fn gate_assign(rt: HostRuntime) {
    let gate = Gate {
        begun: AtomicBool::new(false),
        answered: AtomicBool::new(false),
    };
    assert_eq!(&rt; both(&rt, rt.alloc(), &gate), (true, 4));
}
