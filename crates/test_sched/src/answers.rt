//! A requester whose answers are given, and what the tests hand to the scheduler.
ghost use Rattle.sched.specs.Pass.{IsPassOf, Stays};

use dist_token::job_token::JWTJobAuthorizer;
use dist_types::addr::Addr;
use dist_types::clock::MemClock;
use dist_types::ids::{JobId, ServerId, ServerNonce};
use dist_types::outgoing::{CallFault, SchedulerOutgoing};
use dist_types::results::{AssignJobResult, JobState};
use dist_types::roles::JobAuthorizer;
use dist_types::toolchain::Toolchain;
use sched::pass::Pass;
use sched::scheduler::Scheduler;
use std::alloc::Global;
use std::process::Abort;
use std::sync::Wait;

/// The scheduler of the tests.
pub type TestScheduler = Scheduler<JWTJobAuthorizer>;

/// Answers each assignment with a state, or with a status that is not 200.
#[derive(Drop)]
pub struct Answers {
    /// The state of each job.
    pub state: JobState,
    /// The status of the reply, where it is not 200.
    pub status: Option<u16>,
}

impl SchedulerOutgoing for Answers {
    ghost use Rattle.std.specs.Prelude.{None};

    ghost assigned = { λ _. None };

    ghost faults = { λ _. 0 };

    fn do_assign_job(
        &mut self,
        _server_id: ServerId,
        _job_id: JobId,
        _tc: &Toolchain,
        _auth: &str,
    ) -> Result<AssignJobResult, CallFault> {
        match self.status {
            Some(code) => Err(CallFault::Status(code)),
            None => Ok(AssignJobResult {
                state: self.state,
                need_toolchain: self.state == JobState::Pending,
            }),
        }
    }
}

/// The build server at that port.
pub fn server(port: u16) -> ServerId {
    ServerId::new(Addr::V4([127, 0, 0, 1], port))
}

/// A clock that gives 0 at each look.
pub fn still(alloc: Global) -> MemClock {
    MemClock::new(Vec::new(alloc))
}

/// The toolchain whose archive is `abc` (FIPS 180-4, appendix B.1).
pub fn abc(rt: &impl Abort) -> Toolchain {
    Toolchain::new("ba7816bf8f01cfea414140de5dae2223b00361a396177a9cb410ff61f20015ad").expect(
        rt,
        "a toolchain",
    )
}

/// A scheduler whose first job is 4096, and its first pass.
pub fn scheduler(rt: &impl Abort, alloc: Global) -> (TestScheduler, Pass)
    ensures of { IsPassOf result.0 result.1 }
{
    TestScheduler::with_job_id_base(alloc, 4096).expect(rt, "memory")
}

/// A heartbeat of the server at port 10501 with one processor. Whether it makes a registration.
pub fn beat<R: Abort + Wait>(
    rt: &R,
    alloc: Global,
    scheduler: &TestScheduler,
    pass: &mut Pass,
) -> bool
    requires pass { IsPassOf scheduler.now pass.old }
    ensures stays { Stays pass.old pass.new }
{
    let key = JWTJobAuthorizer::of_key([1u8, 2, 2].to_vec(alloc).expect(rt, "memory"));
    let nonce = ServerNonce::new(7);
    let mut clock = still(alloc);
    let answer = scheduler.handle_heartbeat_server(
        rt,
        pass,
        &mut clock,
        server(10501),
        nonce,
        1,
        key,
    );
    answer.expect(rt, "a heartbeat").is_new
}
