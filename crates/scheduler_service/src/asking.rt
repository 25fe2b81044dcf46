//! A requester that asks build servers to take jobs, over a dialer that its caller lends it.
ghost use Rattle.std.specs.Prelude.{◌≡◌};

use crate::host::{Host, port_of};
use dist_types::dialer::{AskFault, Dialer};
use dist_types::ids::{JobId, ServerId};
use dist_types::outgoing::{CallFault, SchedulerOutgoing};
use dist_types::results::AssignJobResult;
use dist_types::toolchain::Toolchain;
use http_connections::hearing::heard;
use http_routes::requests::assign_request;
use std::alloc::Global;

/// Asks build servers through a dialer. It tells no record of its own: the dialer's is the record.
#[derive(Drop)]
pub struct Asking<'d, D: Dialer> {
    alloc: Global,
    dialer: &'d mut D,
}

impl<'d, D: Dialer> Asking<'d, D> {
    /// A requester over this dialer. It takes no memory.
    pub fn new(alloc: Global, dialer: &'d mut D) -> Self
        ensures same { result.dialer.ghost_name ≡ dialer.entry.ghost_name }
        ensures now { result.dialer.now ≡ dialer.old }
    {
        Asking { alloc, dialer }
    }
}

impl<'d, D: Dialer> SchedulerOutgoing for Asking<'d, D> {
    ghost use Rattle.std.specs.Prelude.{None};
    ghost use Rattle.scheduler_service.specs.Requested.{IsAskedFor, lent_of};

    ghost assigned = { λ _. None };

    ghost faults = { λ s. D.faults s.dialer.now };

    ghost lent = { λ s. lent_of s.dialer.ghost_name (D.asked s.dialer.now) };

    ghost says = { IsAskedFor };

    fn do_assign_job(
        &mut self,
        server_id: ServerId,
        job_id: JobId,
        tc: &Toolchain,
        auth: &str,
    ) -> Result<AssignJobResult, CallFault> {
        let request = match assign_request(self.alloc, server_id, job_id, auth, tc) {
            Ok(request) => request,
            Err(_) => return Err(CallFault::Memory),
        };
        let addr = server_id.addr();
        let host = format!(in self.alloc; "{}", Host(addr))?;
        match self.dialer.ask(host.as_str(), port_of(addr), request.get()) {
            Ok(reply) => heard(self.alloc, &reply),
            Err(AskFault::Failed) => Err(CallFault::Lost),
            Err(AskFault::Memory) => Err(CallFault::Memory),
        }
    }
}
