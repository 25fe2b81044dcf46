//! The five calls as a trait, for code over any scheduler.
ghost use Rattle.std.specs.Prelude.{◌≡◌};
ghost use Rattle.sched.specs.Course.{IsAllocation};
ghost use Rattle.sched.specs.Heard.{IsHeard, IsUpdated, IsCounted, IsDrained};
ghost use Rattle.sched.specs.Outside.{moments, requests};
ghost use Rattle.sched.specs.Pass.{Whose, IsPassOf};

use crate::fault::SchedFault;
use crate::pass::Pass;
use crate::scheduler::Scheduler;
use dist_token::job_token::JWTJobAuthorizer;
use dist_types::clock::Clock;
use dist_types::ids::{JobId, ServerId, ServerNonce};
use dist_types::outgoing::SchedulerOutgoing;
use dist_types::results::{
    AllocJobResult, HeartbeatServerResult, JobState, SchedulerStatusResult, UpdateJobStateResult,
};
use dist_types::roles::JobAuthorizer;
use dist_types::rules::Rules;
use dist_types::toolchain::Toolchain;
use std::sync::Wait;

/// The five calls that a scheduler answers, each to the caller of a pass of its own.
pub trait SchedulerIncoming<A: JobAuthorizer> {
    /// Which scheduler it is, and with what it began.
    ghost whose: { Self → Whose };

    /// Reserves a job, has its server asked, and keeps the job or gives the reservation back, as
    /// `Scheduler::handle_alloc_job` does, with its faults.
    fn handle_alloc_job<R: Wait, O: SchedulerOutgoing, C: Clock>(
        &self,
        rt: &R,
        pass: &mut Pass,
        clock: &mut C,
        requester: &mut O,
        tc: &Toolchain,
    ) -> Result<AllocJobResult, SchedFault>
        requires pass { IsPassOf (whose self.now) pass.old }
        ensures allocation { IsAllocation A.key_of A.token_for O.says tc.now pass.old pass.new
            (moments C.moments C.last clock.old) (moments C.moments C.last clock.new)
            (requests O.assigned O.faults O.lent requester.old)
            (requests O.assigned O.faults O.lent requester.new)
            result };

    /// Takes a server's heartbeat: Core(BadCpus) exactly where its number of processors is 0 or over
    /// 4294967295, Memory where memory ran out.
    fn handle_heartbeat_server<R: Wait, C: Clock>(
        &self,
        rt: &R,
        pass: &mut Pass,
        clock: &mut C,
        server_id: ServerId,
        nonce: ServerNonce,
        num_cpus: u64,
        job_authorizer: A,
    ) -> Result<HeartbeatServerResult, SchedFault>
        requires pass { IsPassOf (whose self.now) pass.old }
        ensures heard { IsHeard server_id nonce num_cpus (A.key_of job_authorizer) pass.old pass.new
            (moments C.moments C.last clock.old) (moments C.moments C.last clock.new) result };

    /// Takes a server's report that a job is in a new state: Core(UnknownJob), Core(WrongServer),
    /// Core(BadTransition), or Memory where memory ran out.
    fn handle_update_job_state<R: Wait, C: Clock>(
        &self,
        rt: &R,
        pass: &mut Pass,
        clock: &mut C,
        job_id: JobId,
        server_id: ServerId,
        state: JobState,
    ) -> Result<UpdateJobStateResult, SchedFault>
        requires pass { IsPassOf (whose self.now) pass.old }
        ensures updated { IsUpdated job_id server_id state pass.old pass.new
            (moments C.moments C.last clock.old) (moments C.moments C.last clock.new) result };

    /// Counts the registrations that stand, their processors and the open jobs; Memory where memory ran out.
    fn handle_status<R: Wait, C: Clock>(
        &self,
        rt: &R,
        pass: &mut Pass,
        clock: &mut C,
    ) -> Result<SchedulerStatusResult, SchedFault>
        requires pass { IsPassOf (whose self.now) pass.old }
        ensures counted { IsCounted pass.old pass.new
            (moments C.moments C.last clock.old) (moments C.moments C.last clock.new) result };

    /// Lets a registration drain, or ends that, in version 2 of the rules: whether there is such a one;
    /// Memory where memory ran out.
    fn handle_drain_server<R: Wait, C: Clock>(
        &self,
        rt: &R,
        pass: &mut Pass,
        clock: &mut C,
        server_id: ServerId,
        nonce: ServerNonce,
        on: bool,
    ) -> Result<bool, SchedFault>
        requires pass { IsPassOf (whose self.now) pass.old }
        requires version { (whose self.now).start.rules ≡ Rules.Two }
        ensures drained { IsDrained server_id nonce on pass.old pass.new
            (moments C.moments C.last clock.old) (moments C.moments C.last clock.new) result };
}

/// Each is the scheduler's own. Over every authorizer the toolchain refuses these calls: what they send to a
/// thread would rest on a bound of the impl.
impl SchedulerIncoming<JWTJobAuthorizer> for Scheduler<JWTJobAuthorizer> {
    ghost whose = { λ s. s };

    fn handle_alloc_job<R: Wait, O: SchedulerOutgoing, C: Clock>(
        &self,
        rt: &R,
        pass: &mut Pass,
        clock: &mut C,
        requester: &mut O,
        tc: &Toolchain,
    ) -> Result<AllocJobResult, SchedFault> {
        Scheduler::handle_alloc_job(self, rt, pass, clock, requester, tc)
    }

    fn handle_heartbeat_server<R: Wait, C: Clock>(
        &self,
        rt: &R,
        pass: &mut Pass,
        clock: &mut C,
        server_id: ServerId,
        nonce: ServerNonce,
        num_cpus: u64,
        job_authorizer: JWTJobAuthorizer,
    ) -> Result<HeartbeatServerResult, SchedFault> {
        Scheduler::handle_heartbeat_server(
            self,
            rt,
            pass,
            clock,
            server_id,
            nonce,
            num_cpus,
            job_authorizer,
        )
    }

    fn handle_update_job_state<R: Wait, C: Clock>(
        &self,
        rt: &R,
        pass: &mut Pass,
        clock: &mut C,
        job_id: JobId,
        server_id: ServerId,
        state: JobState,
    ) -> Result<UpdateJobStateResult, SchedFault> {
        Scheduler::handle_update_job_state(self, rt, pass, clock, job_id, server_id, state)
    }

    fn handle_status<R: Wait, C: Clock>(
        &self,
        rt: &R,
        pass: &mut Pass,
        clock: &mut C,
    ) -> Result<SchedulerStatusResult, SchedFault> {
        Scheduler::handle_status(self, rt, pass, clock)
    }

    fn handle_drain_server<R: Wait, C: Clock>(
        &self,
        rt: &R,
        pass: &mut Pass,
        clock: &mut C,
        server_id: ServerId,
        nonce: ServerNonce,
        on: bool,
    ) -> Result<bool, SchedFault> {
        Scheduler::handle_drain_server(self, rt, pass, clock, server_id, nonce, on)
    }
}
