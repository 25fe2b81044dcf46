//! The call that asks the scheduler for a job.
ghost use Rattle.std.specs.Prelude.{◌≡◌, ◌↔◌, Err, IsErr, false, List, ℕ, Option, OnOk, IfOk, IfErr};
ghost use Rattle.dist_types.specs.declared.addr.Addr.{Addr};
ghost use Rattle.dist_types.specs.declared.rules.Rules.{Rules};
ghost use Rattle.dist_wire.specs.Reading as wire;
ghost use Rattle.http_head.specs.WrittenRequest.{request_text, IsToken, IsWithinLimits};
ghost use Rattle.http_routes.specs.declared.admission.Admission.{Admission};
ghost use Rattle.http_routes.specs.declared.admission.Admission.TheVariants.{Admitted};
ghost use Rattle.http_routes.specs.declared.route.SchedRouted.TheVariants.{Alloc};
ghost use Rattle.http_routes.specs.Asked.{IsAskedUnder};
ghost use Rattle.http_calls.specs.Calls.{RefusesBase, alloc_request, ReadsAlloc};
ghost use Rattle.http_calls.specs.Refusals.{IsReplyError};
ghost use Rattle.http_calls.specs.Reply.{Resumes};
ghost use Rattle.http_calls.specs.Urls.{IsHttp};

use crate::reply::resumed;
use crate::scheduler_calls::alloc_text;
use dist_types::fault::Failed;
use dist_types::results::AllocJobResult;
use dist_types::text::Bytes;
use dist_types::toolchain::Toolchain;
use http_head::error::HttpError;
use std::alloc::Global;
use std::marker::Model;
use url::Url;

/// A call that asks for a job, which contracts see as the bytes of its request.
#[derive(Debug, Drop)]
pub struct AllocCall {
    alloc: Global,
    request: Bytes,
}

impl Model for AllocCall {
    ghost use Rattle.std.specs.Prelude.{ℕ, List};

    ghost Value = { List ℕ };

    ghost view = { λ c. c.request };
}

impl AllocCall {
    /// The call that asks the scheduler at that base for a job with that toolchain, under a client's token:
    /// BadBase exactly where the base's scheme is not `http`; else refused for want of memory alone. Where
    /// the token is one that a field carries and the request is within the limits, it is read as one for a
    /// job with that toolchain by each scheduler that lets the token's client in; whatever a check of clients, in
    /// whatever state, says of the token, it is asked about that token.
    pub fn start(
        alloc: Global,
        base: &Url,
        token: &str,
        tc: &Toolchain,
    ) -> Result<AllocCall, HttpError>
        ensures text { IfOk result (λ call. call ≡ request_text (alloc_request base.now token.now tc.now)) }
        ensures asks { IfOk result (λ call. IsToken token.now
            → IsWithinLimits (alloc_request base.now token.now tc.now)
            → (rules : Rules) (lets : List ℕ → Admission) (serves : List ℕ → Option Addr)
            (peer : Addr) → lets token.now ≡ Admitted
            → IsAskedUnder rules lets serves call peer (record { what = Alloc tc.now; json = false })) }
        ensures reads { IfOk result (ReadsAlloc base.now token.now tc.now) }
        ensures http { OnOk result (IsHttp base.now) }
        ensures err { IfErr result (RefusesBase base.now) }
    {
        let request = alloc_text(alloc, base, token, tc)?;
        Ok(AllocCall { alloc, request })
    }

    /// The bytes to be sent.
    pub fn request(&self) -> &[u8]
        ensures { result.now ≡ self.now }
    {
        self.request.get()
    }

    /// The answer, by the reply that came: LinkFault exactly where none came; else what the reply says,
    /// unless memory ran out.
    pub fn resume(self, reply: Result<&[u8], Failed>) -> Result<AllocJobResult, HttpError>
        ensures told { Resumes wire.alloc_at reply.entry result }
        ensures link { (result ≡ Err HttpError.LinkFault) ↔ IsErr reply.entry }
        ensures errors { IfErr result IsReplyError }
    {
        resumed(self.alloc, reply)
    }
}
