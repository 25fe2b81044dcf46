//! The two turns of an allocation.
ghost use Rattle.std.specs.Prelude.{IfOk};
ghost use Rattle.core_rules.specs.declared.call.Call.TheVariants as call;
ghost use Rattle.scheduler_steps.specs.Settling.{judged, spend_call, TellsSettle};
ghost use Rattle.scheduler_steps.specs.Telling.{TellsReserve, WantsMemory};
ghost use Rattle.sched.specs.Course.{Never};
ghost use Rattle.sched.specs.Hand.{HasPicked, IsLastOwn};
ghost use Rattle.sched.specs.Outside.{moments};
ghost use Rattle.sched.specs.Pass.{IsPassOf};
ghost use Rattle.sched.specs.Turn.{IsTurn};

use crate::fault::SchedFault;
use crate::pass::Pass;
use crate::scheduler::Scheduler;
use atomic_table::Badge;
use dist_types::clock::Clock;
use dist_types::outgoing::CallFault;
use dist_types::results::AssignJobResult;
use dist_types::roles::JobAuthorizer;
use sched_core::answers::Picked;
use sched_core::reservation::Reservation;
use scheduler_steps::settled::Settled;
use scheduler_steps::step;
use std::mem;
use std::sync::Wait;

impl<A: JobAuthorizer> Scheduler<A> {
    /// Reserves a job. The reservation is at the last own place.
    pub(crate) fn reserve<R: Wait, C: Clock>(
        &self,
        rt: &R,
        pass: &mut Pass,
        clock: &mut C,
    ) -> Result<Picked, SchedFault>
        requires pass { IsPassOf self.now pass.old }
        ensures turn { IsTurn (λ now. call.Reserve now) (TellsReserve A.key_of A.token_for) WantsMemory
            pass.old pass.new
            (moments C.moments C.last clock.old) (moments C.moments C.last clock.new) result }
        ensures own { IfOk result (HasPicked pass.new) }
    {
        let (turn, mut desk) = self.begin(rt, mem::replace(&mut pass.badge, Badge::blank()));
        let answer = step::reserve(&mut desk.state, clock.now());
        pass.badge = self.end(turn, desk, &mut pass.entries);
        answer
    }

    /// Spends the reservation at the last own place, by what was heard of its server.
    pub(crate) fn settle<R: Wait, C: Clock>(
        &self,
        rt: &R,
        pass: &mut Pass,
        clock: &mut C,
        r: Reservation,
        heard: Result<AssignJobResult, CallFault>,
    ) -> Settled
        requires pass { IsPassOf self.now pass.old }
        requires own { IsLastOwn pass.old r.number r.job }
        ensures turn { IsTurn (λ now. spend_call now r (judged heard)) (TellsSettle r (judged heard)) Never
            pass.old pass.new
            (moments C.moments C.last clock.old) (moments C.moments C.last clock.new) result }
    {
        let (turn, mut desk) = self.begin(rt, mem::replace(&mut pass.badge, Badge::blank()));
        let settled = step::settle(&mut desk.state, clock.now(), r, heard);
        pass.badge = self.end(turn, desk, &mut pass.entries);
        settled
    }
}
