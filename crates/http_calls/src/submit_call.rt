//! The call that brings a job's server the archive of its toolchain.
ghost use Rattle.std.specs.Prelude.{◌≡◌, ◌↔◌, Ok, Err, Result, ⊤, IsErr, List, ℕ, IfOk, IfErr};
ghost use Rattle.dist_types.specs.declared.token_error.TokenError.{TokenError};
ghost use Rattle.dist_wire.specs.Reading as wire;
ghost use Rattle.http_head.specs.WrittenRequest.{request_text, IsToken, IsWithinLimits};
ghost use Rattle.http_routes.specs.ServerRoute.{AsksSubmit};
ghost use Rattle.http_calls.specs.Calls as written;
ghost use Rattle.http_calls.specs.Refusals.{IsReplyError};
ghost use Rattle.http_calls.specs.Reply.{Resumes};

use crate::reply::resumed;
use crate::server_calls::submit_request;
use dist_types::fault::Failed;
use dist_types::results::{JobAlloc, SubmitToolchainResult};
use dist_types::text::Bytes;
use http_head::error::HttpError;
use std::alloc::Global;
use std::marker::Model;

/// A call that brings an archive, which contracts see as the bytes of its request.
#[derive(Debug, Drop)]
pub struct SubmitCall {
    alloc: Global,
    request: Bytes,
}

impl Model for SubmitCall {
    ghost use Rattle.std.specs.Prelude.{ℕ, List};

    ghost Value = { List ℕ };

    ghost view = { λ c. c.request };
}

impl SubmitCall {
    /// The call that brings a job's server its archive, under the job's token. Refused for want of memory
    /// alone. Where the token is one that a field carries and the request is within the limits, it is read as
    /// that job's archive by each server that accepts the token for the job.
    pub fn start(alloc: Global, job: &JobAlloc, archive: &[u8]) -> Result<SubmitCall, HttpError>
        ensures text { IfOk result
            (λ call. call ≡ request_text (written.submit_request job.now archive.now)) }
        ensures asks { IfOk result (λ call. IsToken job.now.auth
            → IsWithinLimits (written.submit_request job.now archive.now)
            → (verdict : ℕ → List ℕ → Result ⊤ TokenError) → verdict job.now.job_id.0 job.now.auth ≡ Ok tt
            → AsksSubmit verdict call job.now.job_id archive.now) }
        ensures err { IfErr result (λ e. e ≡ HttpError.Memory) }
    {
        let request = submit_request(alloc, job.server_id, job.auth.get(), job.job_id, archive)?;
        Ok(SubmitCall { alloc, request })
    }

    /// The bytes to be sent.
    pub fn request(&self) -> &[u8]
        ensures { result.now ≡ self.now }
    {
        self.request.get()
    }

    /// The answer, by the reply that came: LinkFault exactly where none came; else what the reply says,
    /// unless memory ran out.
    pub fn resume(self, reply: Result<&[u8], Failed>) -> Result<SubmitToolchainResult, HttpError>
        ensures told { Resumes wire.submit_at reply.entry result }
        ensures link { (result ≡ Err HttpError.LinkFault) ↔ IsErr reply.entry }
        ensures errors { IfErr result IsReplyError }
    {
        resumed(self.alloc, reply)
    }
}
