//! What follows the settlement of a call.
ghost use Rattle.std.specs.Prelude.{◌≡◌, IfOk, IfErr, true, None, Result, option_copied};
ghost use Rattle.dist_types.specs.declared.outgoing.CallFault.{CallFault as Cause};
ghost use Rattle.dist_types.specs.declared.results.AssignJobResult.{AssignJobResult as Answer};
ghost use Rattle.core_rules.specs.Reservation.{unspent};
ghost use Rattle.core_rules.specs.Rule.{is_among, is_initial};
ghost use Rattle.farm_entries.specs.Seen.{with_core};
ghost use Rattle.farm_entries.specs.Settled.{IsOutcome, assignment_end};
ghost use Rattle.line_program.specs.declared.fault.FarmFault.TheVariants as fault;

use crate::pending::Made;
use crate::told::{Turn, told_since};
use dist_token::job_token::JWTJobAuthorizer;
use dist_types::fault::Memory;
use dist_types::outgoing::CallFault;
use dist_types::results::AssignJobResult;
use http_routes::call_reply::assigned;
use http_routes::replies::want_of_memory;
use line_program::fault::FarmFault;
use sched_core::reservation::Reservation;
use sched_core::state::SchedState;
use scheduler_replies::replies::to_allocated;
use scheduler_steps::allocated::allocated;
use scheduler_steps::step;
use std::alloc::Global;

/// A call that is settled at a moment.
#[derive(Debug, Drop)]
pub struct Settlement<'a> {
    pub call: u64,
    pub at: u64,
    /// The bytes that came back, or none where the call is lost.
    pub reply: Option<&'a [u8]>,
}

/// What the reply of an assign call says.
#[tactic(auto, using(http_routes::proofs::CallLemmas::begins_assigned))]
fn outcome(
    alloc: Global,
    reply: Option<&[u8]>,
) -> Result<Result<AssignJobResult, CallFault>, FarmFault>
    ensures assigned { IfOk result (IsOutcome (option_copied reply.entry)) }
    ensures begins { IfOk result (λ r. IfOk r (λ a. is_initial a.state ≡ true)) }
    ensures err { IfErr result (λ e. e ≡ fault.Memory) }
{
    match reply {
        None => Ok(Err(CallFault::Lost)),
        Some(bytes) => match assigned(alloc, bytes) {
            Ok(outcome) => Ok(outcome),
            Err(error) => Err(FarmFault::from(want_of_memory(error))),
        },
    }
}

/// Spends a reservation by what was heard of its server, and tells who asked for the job.
fn settle(
    alloc: Global,
    state: &mut SchedState<JWTJobAuthorizer>,
    turn: Turn,
    reservation: Reservation,
    heard: Result<AssignJobResult, CallFault>,
) -> Result<Made, FarmFault>
    requires own { is_among (unspent state.old.log) reservation.number reservation.job ≡ true }
    requires begins { IfOk heard (λ a. is_initial a.state ≡ true) }
    ensures made { IfOk result (λ m. m.effect ≡ assignment_end state.old turn.root turn.json turn.at
        reservation heard) }
    ensures silent { IfOk result (λ m. (m.effect.call ≡ None) × (m.pending ≡ None)) }
    ensures core { IfOk result (λ m. state.new ≡ with_core state.old m.effect.core) }
    ensures err { IfErr result (λ e. e ≡ fault.Memory) }
{
    let before = state.history().len();
    let settled = step::settle(state, turn.at, reservation, heard);
    let response = match to_allocated(alloc, turn.json, allocated(alloc, settled)) {
        Ok(response) => response,
        Err(Memory) => return Err(FarmFault::Memory),
    };
    told_since(alloc, state, before, turn.root, &response)
}

/// Goes on with an assign call by what its reply says.
pub fn end_assignment(
    alloc: Global,
    state: &mut SchedState<JWTJobAuthorizer>,
    turn: Turn,
    reservation: Reservation,
    reply: Option<&[u8]>,
) -> Result<Made, FarmFault>
    requires own { is_among (unspent state.old.log) reservation.number reservation.job ≡ true }
    ensures made { IfOk result (λ m. (r : Result Answer Cause) × IsOutcome (option_copied reply.entry) r
        × (m.effect ≡ assignment_end state.old turn.root turn.json turn.at reservation r)) }
    ensures silent { IfOk result (λ m. (m.effect.call ≡ None) × (m.pending ≡ None)) }
    ensures core { IfOk result (λ m. state.new ≡ with_core state.old m.effect.core) }
    ensures err { IfErr result (λ e. e ≡ fault.Memory) }
{
    let heard = match outcome(alloc, reply) {
        Ok(heard) => heard,
        Err(fault) => {
            state.undo(turn.at, reservation);
            return Err(fault);
        }
    };
    settle(alloc, state, turn, reservation, heard)
}
