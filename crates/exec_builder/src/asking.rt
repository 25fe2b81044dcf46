//! One question to an executor, and what it answers.
ghost use Rattle.std.specs.Prelude.{◌≡◌, ◌≢◌, ◌≤◌, Err};
ghost use Rattle.dist_types.specs.Cause.{Rose};
ghost use Rattle.exec_builder.specs.Asking.{Answers};

use crate::executor::Executor;
use dist_types::dialer::{AskFault, Dialer};
use dist_types::outgoing::CallFault;
use dist_wire::message::Message;
use http_routes::call_reply::answer;
use std::alloc::Global;

/// Asks an executor, and answers what its reply says: Lost exactly where the dialer failed, whose count of faults
/// stays elsewhere; Status where its status is not 200, Unreadable where no message begins its body.
pub(crate) fn ask<M: Message, D: Dialer>(
    alloc: Global,
    dialer: &mut D,
    executor: &Executor,
    request: &[u8],
) -> Result<M, CallFault>
    ensures answers { Answers M.at executor.now request.now result (D.asked dialer.old) (D.asked dialer.new) }
    ensures cause { result ≡ Err CallFault.Lost → Rose (D.faults dialer.old) (D.faults dialer.new) }
    ensures steady { result ≢ Err CallFault.Lost → D.faults dialer.new ≡ D.faults dialer.old }
    ensures later { D.faults dialer.old ≤ D.faults dialer.new }
{
    match dialer.ask(executor.host.get(), executor.port, request) {
        Ok(reply) => match answer(alloc, &reply) {
            Ok(answer) => answer,
            Err(_) => Err(CallFault::Memory),
        },
        Err(fault) => match fault {
            AskFault::Failed => Err(CallFault::Lost),
            AskFault::Memory => Err(CallFault::Memory),
        },
    }
}
