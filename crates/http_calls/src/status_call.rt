//! The call that asks the scheduler for its status.
ghost use Rattle.std.specs.Prelude.{◌≡◌, ◌↔◌, Err, IsErr, false, List, ℕ, Option, OnOk, IfOk, IfErr};
ghost use Rattle.dist_types.specs.declared.addr.Addr.{Addr};
ghost use Rattle.dist_types.specs.declared.rules.Rules.{Rules};
ghost use Rattle.dist_wire.specs.Reading as wire;
ghost use Rattle.http_head.specs.WrittenRequest.{request_text, IsWithinLimits};
ghost use Rattle.http_routes.specs.declared.admission.Admission.{Admission};
ghost use Rattle.http_routes.specs.declared.route.SchedRouted.TheVariants.{Status};
ghost use Rattle.http_routes.specs.Asked.{IsAskedUnder};
ghost use Rattle.http_calls.specs.Calls.{RefusesBase, status_request, ReadsStatus};
ghost use Rattle.http_calls.specs.Refusals.{IsReplyError};
ghost use Rattle.http_calls.specs.Reply.{Resumes};
ghost use Rattle.http_calls.specs.Urls.{IsHttp};

use crate::reply::resumed;
use crate::scheduler_calls::status_text;
use dist_types::fault::Failed;
use dist_types::results::SchedulerStatusResult;
use dist_types::text::Bytes;
use http_head::error::HttpError;
use std::alloc::Global;
use std::marker::Model;
use url::Url;

/// A call that asks for the status, which contracts see as the bytes of its request.
#[derive(Debug, Drop)]
pub struct StatusCall {
    alloc: Global,
    request: Bytes,
}

impl Model for StatusCall {
    ghost use Rattle.std.specs.Prelude.{ℕ, List};

    ghost Value = { List ℕ };

    ghost view = { λ c. c.request };
}

impl StatusCall {
    /// The call that asks the scheduler at that base for its status, with no token: BadBase exactly where the
    /// base's scheme is not `http`; else refused for want of memory alone. Where the request is within the
    /// limits, it is read as one for the status.
    pub fn start(alloc: Global, base: &Url) -> Result<StatusCall, HttpError>
        ensures text { IfOk result (λ call. call ≡ request_text (status_request base.now)) }
        ensures asks { IfOk result (λ call. IsWithinLimits (status_request base.now)
            → (rules : Rules) (lets : List ℕ → Admission) (serves : List ℕ → Option Addr)
            (peer : Addr)
            → IsAskedUnder rules lets serves call peer (record { what = Status; json = false })) }
        ensures reads { IfOk result (ReadsStatus base.now) }
        ensures http { OnOk result (IsHttp base.now) }
        ensures err { IfErr result (RefusesBase base.now) }
    {
        let request = status_text(alloc, base)?;
        Ok(StatusCall { alloc, request })
    }

    /// The bytes to be sent.
    pub fn request(&self) -> &[u8]
        ensures { result.now ≡ self.now }
    {
        self.request.get()
    }

    /// The answer, by the reply that came: LinkFault exactly where none came; else what the reply says,
    /// unless memory ran out.
    pub fn resume(self, reply: Result<&[u8], Failed>) -> Result<SchedulerStatusResult, HttpError>
        ensures told { Resumes wire.status_at reply.entry result }
        ensures link { (result ≡ Err HttpError.LinkFault) ↔ IsErr reply.entry }
        ensures errors { IfErr result IsReplyError }
    {
        resumed(self.alloc, reply)
    }
}
