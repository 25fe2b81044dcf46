//! A requester that tells the scheduler the states of jobs, over a dialer that its caller lends it.
ghost use Rattle.std.specs.Prelude.{◌≡◌};
ghost use Rattle.http_calls.specs.Urls.{IsHttp};

use crate::peer::{host_of, port_of};
use dist_types::dialer::{AskFault, Dialer};
use dist_types::ids::JobId;
use dist_types::outgoing::{CallFault, ServerOutgoing};
use dist_types::results::{JobState, UpdateJobStateResult};
use http_calls::reports::state_report_to_http;
use http_connections::hearing::heard;
use std::alloc::Global;
use url::Url;

/// Tells the scheduler at a base, under a server's token, through a dialer. It tells no record of its own:
/// the dialer's is the record.
#[derive(Drop)]
pub struct Telling<'d, D: Dialer> {
    alloc: Global,
    dialer: &'d mut D,
    scheduler: &'d Url,
    token: &'d str,
    ghost http: { IsHttp scheduler.now },
}

impl<'d, D: Dialer> Telling<'d, D> {
    /// A requester over this dialer. It takes no memory.
    pub fn new(alloc: Global, dialer: &'d mut D, scheduler: &'d Url, token: &'d str) -> Self
        requires http { IsHttp scheduler.now }
        ensures same { result.dialer.ghost_name ≡ dialer.entry.ghost_name }
        ensures now { result.dialer.now ≡ dialer.old }
        ensures base { result.scheduler.now ≡ scheduler.now }
        ensures token { result.token.now ≡ token.now }
    {
        Telling {
            alloc,
            dialer,
            scheduler,
            token,
        }
    }
}

impl<'d, D: Dialer> ServerOutgoing for Telling<'d, D> {
    ghost use Rattle.std.specs.Prelude.{None};
    ghost use Rattle.server_service.specs.Told.{IsToldOf, lent_of, peer_of};

    ghost updated = { λ _. None };

    ghost faults = { λ s. D.faults s.dialer.now };

    ghost lent = { λ s. lent_of s.dialer.ghost_name (peer_of s.scheduler.now s.token.now)
        (D.asked s.dialer.now) };

    ghost says = { IsToldOf };

    fn do_update_job_state(
        &mut self,
        job_id: JobId,
        state: JobState,
    ) -> Result<UpdateJobStateResult, CallFault> {
        let scheduler = self.scheduler;
        let request = match state_report_to_http(self.alloc, scheduler, self.token, job_id, state) {
            Ok(request) => request,
            Err(_) => return Err(CallFault::Memory),
        };
        let host = host_of(scheduler);
        let port = port_of(scheduler);
        match self.dialer.ask(host, port, request.get()) {
            Ok(reply) => heard(self.alloc, &reply),
            Err(AskFault::Failed) => Err(CallFault::Lost),
            Err(AskFault::Memory) => Err(CallFault::Memory),
        }
    }
}
