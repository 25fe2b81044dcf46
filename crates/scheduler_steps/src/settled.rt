//! What becomes of a reservation whose server was asked.
ghost use Rattle.std.specs.Prelude.{◌≡◌, IfOk, true};
ghost use Rattle.core_rules.specs.Rule.{is_initial};
ghost use Rattle.scheduler_steps.specs.Settling.{judged};

use core_rules::answers::{Committed, Undone};
use core_rules::texts::is_initial;
use dist_types::outgoing::CallFault;
use dist_types::results::AssignJobResult;

/// What becomes of a reservation whose server was asked.
#[derive(Debug, Drop)]
pub enum Settled {
    /// The server took the job: what became of the commit, and whether the toolchain is wanted.
    Taken(Committed, bool),
    /// It did not: what became of the undo, and why.
    Failed(Undone, CallFault),
}

/// What was heard of a server, where a job may begin in the state that it answered; else that it may not.
pub fn judged(heard: Result<AssignJobResult, CallFault>) -> Result<AssignJobResult, CallFault>
    ensures is { result ≡ judged heard }
    ensures begins { IfOk result (λ taken. is_initial taken.state ≡ true) }
{
    match heard {
        Ok(taken) => {
            if is_initial(taken.state) {
                Ok(taken)
            } else {
                Err(CallFault::BadState(taken.state))
            }
        }
        Err(cause) => Err(cause),
    }
}
