//! The call that asks a job's server to run it.
ghost use Rattle.std.specs.Prelude.{◌≡◌, ◌≤◌, ◌<◌, ◌^◌, ◌⊎◌, ◌↔◌, Ok, Err, Result, ⊤, IsErr, List, ℕ};
ghost use Rattle.std.specs.Prelude.{IfOk, IfErr, OnOk, length, map, string_bytes};
ghost use Rattle.dist_types.specs.declared.token_error.TokenError.{TokenError};
ghost use Rattle.dist_wire.specs.Reading as wire;
ghost use Rattle.dist_wire.specs.Written as spelling;
ghost use Rattle.dist_wire.specs.declared.run.RunJobHttpRequest.{RunJobHttpRequest};
ghost use Rattle.http_head.specs.WrittenRequest.{request_text, IsToken, IsWithinLimits};
ghost use Rattle.http_routes.specs.ServerRoute.{AsksRun};
ghost use Rattle.path_pkg.specs.Called.{CalledOnce};
ghost use Rattle.http_calls.specs.Calls as written;
ghost use Rattle.http_calls.specs.Client.{PacksRequest, run_of, first_of};
ghost use Rattle.http_calls.specs.Refusals.{IsReplyError};
ghost use Rattle.http_calls.specs.Reply.{Resumes};

use crate::reply::resumed;
use crate::server_calls::{packed_request, run_request};
use dist_types::command::CompileCommand;
use dist_types::fault::Failed;
use dist_types::results::{JobAlloc, RunJobResult};
use dist_types::text::{Bytes, Items, Text};
use dist_wire::run::RunJobHttpRequest;
use http_head::error::HttpError;
use path_pkg::packagers::InputsPackager;
use path_pkg::unix::PathTransformer;
use std::alloc::Global;
use std::marker::Model;

/// A call that runs a job, which contracts see as the bytes of its request.
#[derive(Debug, Drop)]
pub struct RunCall {
    alloc: Global,
    request: Bytes,
}

impl Model for RunCall {
    ghost use Rattle.std.specs.Prelude.{ℕ, List};

    ghost Value = { List ℕ };

    ghost view = { λ c. c.request };
}

/// The names of outputs as a message has them.
fn names_of(alloc: Global, outputs: Vec<String>) -> Result<Items<Text>, HttpError>
    ensures ok { IfOk result (λ names. names ≡ map string_bytes outputs.items) }
    ensures err { IfErr result (λ e. e ≡ HttpError.Memory) }
{
    let names = outputs.into_iter().map(Text::new).collect(alloc)?;
    Ok(Items::new(names))
}

/// The run of a command with these outputs. Refused for want of memory alone.
fn run_of(
    alloc: Global,
    command: CompileCommand,
    outputs: Vec<String>,
) -> Result<RunJobHttpRequest, HttpError>
    ensures { IfOk result (λ run. run ≡ run_of command outputs) }
{
    let outputs = names_of(alloc, outputs)?;
    Ok(RunJobHttpRequest { command, outputs })
}

/// The call that asks a job's server to run it, with the inputs that a packager packs.
fn packed_run(
    alloc: Global,
    job: &JobAlloc,
    run: &RunJobHttpRequest,
    inputs: &mut dyn InputsPackager,
) -> Result<(RunCall, PathTransformer), HttpError>
    ensures { PacksRequest (inputs.new ≡ inputs.old) (CalledOnce (times inputs.old) (times inputs.new))
        (packs inputs.old) (refusals inputs.old) (refusals inputs.new) job.now run.now (first_of result) }
{
    match packed_request(alloc, job, run, inputs) {
        Ok((request, transformer)) => Ok((RunCall { alloc, request }, transformer)),
        Err(refusal) => Err(refusal),
    }
}

impl RunCall {
    /// The call that asks a job's server to run it so, with those inputs, under the job's token: HeadTooLong
    /// exactly where command and outputs have 2^32 bytes or more; else refused for want of memory alone.
    /// Where the token is one that a field carries and the request is within the limits, it is read as that
    /// run with those inputs by each server that accepts the token for the job.
    pub fn start(
        alloc: Global,
        job: &JobAlloc,
        command: CompileCommand,
        outputs: Vec<String>,
        inputs: &[u8],
    ) -> Result<RunCall, HttpError>
        ensures text { let run : RunJobHttpRequest =
            record { command = command; outputs = map string_bytes outputs.items } in
            IfOk result (λ call. call ≡ request_text (written.run_request job.now run inputs.now)) }
        ensures asks { let run : RunJobHttpRequest =
            record { command = command; outputs = map string_bytes outputs.items } in
            IfOk result (λ call. IsToken job.now.auth
            → IsWithinLimits (written.run_request job.now run inputs.now)
            → (verdict : ℕ → List ℕ → Result ⊤ TokenError) → verdict job.now.job_id.0 job.now.auth ≡ Ok tt
            → AsksRun verdict call job.now.job_id run inputs.now) }
        ensures err { IfErr result (λ e. (e ≡ HttpError.Memory) ⊎ ((e ≡ HttpError.HeadTooLong)
            × (2 ^ 32 ≤ length (spelling.run_text
            (record { command = command; outputs = map string_bytes outputs.items }))))) }
        ensures low { OnOk result (length (spelling.run_text
            (record { command = command; outputs = map string_bytes outputs.items })) < 2 ^ 32) }
    {
        let outputs = names_of(alloc, outputs)?;
        let run = RunJobHttpRequest { command, outputs };
        let request = run_request(
            alloc,
            job.server_id,
            job.auth.get(),
            job.job_id,
            &run,
            inputs,
        )?;
        Ok(RunCall { alloc, request })
    }

    /// The same with the inputs that a packager packs, and what mapped their paths: HeadTooLong exactly where
    /// command and outputs have 2^32 bytes or more, and then the packager is not called; Packager where it
    /// refuses; else refused for want of memory alone.
    pub(crate) fn packed(
        alloc: Global,
        job: &JobAlloc,
        command: CompileCommand,
        outputs: Vec<String>,
        inputs: &mut dyn InputsPackager,
    ) -> Result<(RunCall, PathTransformer), HttpError>
        ensures { PacksRequest (inputs.new ≡ inputs.old) (CalledOnce (times inputs.old) (times inputs.new))
            (packs inputs.old) (refusals inputs.old) (refusals inputs.new) job.now
            (run_of command outputs) (first_of result) }
    {
        match run_of(alloc, command, outputs) {
            Ok(run) => {
                let answer = packed_run(alloc, job, &run, inputs);
                answer
            }
            Err(_) => Err(HttpError::Memory),
        }
    }

    /// The bytes to be sent.
    pub fn request(&self) -> &[u8]
        ensures { result.now ≡ self.now }
    {
        self.request.get()
    }

    /// The answer, by the reply that came: LinkFault exactly where none came; else what the reply says,
    /// unless memory ran out.
    pub fn resume(self, reply: Result<&[u8], Failed>) -> Result<RunJobResult, HttpError>
        ensures told { Resumes wire.ran_at reply.entry result }
        ensures link { (result ≡ Err HttpError.LinkFault) ↔ IsErr reply.entry }
        ensures errors { IfErr result IsReplyError }
    {
        resumed(self.alloc, reply)
    }
}
