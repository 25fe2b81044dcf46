//! The requests of clients.
ghost use Rattle.std.specs.Prelude.{◌≡◌, IfOk, string_bytes};
ghost use Rattle.http_head.specs.WrittenRequest.{request_text};
ghost use Rattle.http_routes.specs.RunHead.{run_body};
ghost use Rattle.dist_types.specs.Addr.{addr_text};
ghost use Rattle.http_routes.specs.Requests.{post_with, alloc_with, submit_with, run_with, status_with};
ghost use Rattle.farm_storm.specs.Storm as spec;
ghost use Rattle.farm_storm.specs.Storm.{token_of, storm_run};

use crate::clients::{Clients, RoundRequest};
use crate::deed::NUM_ROUND_JOBS;
use crate::setup::{CLIENT_TOKEN, scheduler_addr, server_addr};
use dist_types::addr::Addr;
use dist_types::command::CompileCommand;
use dist_types::fault::Memory;
use dist_types::ids::JobId;
use dist_types::text::{Bytes, Items, Text};
use dist_types::toolchain::Toolchain;
use dist_types::try_clone::push;
use dist_wire::error::WireError;
use dist_wire::message::Message;
use dist_wire::run::RunJobHttpRequest;
use http_head::written_request::{Method, WrittenRequest};
use std::alloc::Global;
use toolchain_cache::toolchain_of;

/// A POST under a token.
fn posted(
    alloc: Global,
    target: String,
    host: String,
    token: &str,
    body: Vec<u8>,
) -> Result<Bytes, Memory>
    ensures { IfOk result (λ bytes. bytes
        ≡ request_text (post_with (string_bytes target) (string_bytes host) token.now body.items)) }
{
    let token = Text::of(alloc, token)?;
    let request = WrittenRequest {
        method: Method::Post,
        target: Text::new(target),
        host: Text::new(host),
        token: Some(token),
        body: Some(Bytes::new(body)),
    };
    let bytes = request.bytes(alloc)?;
    Ok(bytes)
}

/// A message as it is written.
fn written<M: Message>(alloc: Global, message: &M) -> Result<Vec<u8>, Memory>
    ensures { IfOk result (λ bytes. bytes.items ≡ M.text message.now) }
{
    match message.write(alloc) {
        Ok(bytes) => Ok(bytes),
        Err(WireError::Memory) => Err(Memory),
        Err(WireError::ParseError) => unreachable!(),
    }
}

/// A request for a job to the scheduler at that address, under a client's token.
#[tactic(auto, unfolding(http_routes::specs::Requests::alloc_with))]
fn alloc_at(alloc: Global, scheduler: Addr, token: &str, tc: &Toolchain) -> Result<Bytes, Memory>
    ensures { IfOk result (λ bytes. bytes
        ≡ request_text (alloc_with (addr_text scheduler) token.now tc.now)) }
{
    let body = written(alloc, tc)?;
    let target = String::from_str(alloc, "/api/v1/scheduler/alloc_job")?;
    let host = format!(in alloc; "{scheduler}")?;
    let bytes = posted(alloc, target, host, token, body)?;
    Ok(bytes)
}

/// The request for a job of a round, as it is written.
#[tactic(auto, unfolding(crate::specs::Storm::alloc_request))]
fn alloc_written(alloc: Global, round: u64) -> Result<Bytes, Memory>
    ensures { IfOk result (λ bytes. bytes ≡ spec.alloc_request round) }
{
    let archive = round.to_be_bytes();
    let tc = toolchain_of(&archive);
    let scheduler = scheduler_addr();
    let bytes = alloc_at(alloc, scheduler, CLIENT_TOKEN, &tc)?;
    Ok(bytes)
}

/// The request for a job of a round, which is kept.
pub fn alloc_request(alloc: Global, clients: &mut Clients, round: u64) -> Result<Bytes, Memory>
    ensures { IfOk result (λ bytes. bytes ≡ spec.alloc_request round) }
{
    if let Some(request) = clients.kept_request(round) {
        let copy = request.bytes().copy(alloc)?;
        return Ok(copy);
    }
    let bytes = alloc_written(alloc, round)?;
    let copy = bytes.copy(alloc)?;
    clients.keep_request(RoundRequest::new(round, bytes));
    Ok(copy)
}

/// The request that brings an archive to the server at that address, under the job's token.
#[tactic(auto, unfolding(http_routes::specs::Requests::submit_with))]
fn submit_at(
    alloc: Global,
    server: Addr,
    token: &str,
    job: JobId,
    archive: &[u8],
) -> Result<Bytes, Memory>
    ensures { IfOk result (λ bytes. bytes
        ≡ request_text (submit_with (addr_text server) token.now job archive.now)) }
{
    let target = format!(in alloc; "/api/v1/distserver/submit_toolchain/{job}")?;
    let host = format!(in alloc; "{server}")?;
    let body = Vec::from_slice(alloc, archive)?;
    let bytes = posted(alloc, target, host, token, body)?;
    Ok(bytes)
}

/// The request that brings a job's archive to its server. The job's token is kept.
#[tactic(auto, unfolding(crate::specs::Storm::submit_request))]
pub fn submit_request(alloc: Global, clients: &mut Clients, job: u64) -> Result<Bytes, Memory>
    ensures { IfOk result (λ bytes. bytes ≡ spec.submit_request job) }
{
    let token = clients.token(job)?;
    let archive = (job / NUM_ROUND_JOBS).to_be_bytes();
    let server = server_addr(job);
    let bytes = submit_at(alloc, server, token.text(), JobId(job), &archive)?;
    clients.keep_token(token)?;
    Ok(bytes)
}

/// What is run.
fn storm_run(alloc: Global) -> Result<RunJobHttpRequest, Memory>
    ensures { IfOk result (λ run. run ≡ storm_run) }
{
    let executable = Text::of(alloc, "cc")?;
    let cwd = Text::of(alloc, "/")?;
    let output = Text::of(alloc, "o")?;
    let mut outputs = Vec::new(alloc);
    push(&mut outputs, output)?;
    Ok(RunJobHttpRequest {
        command: CompileCommand {
            executable,
            arguments: Items::new(Vec::new(alloc)),
            env_vars: Items::new(Vec::new(alloc)),
            cwd,
        },
        outputs: Items::new(outputs),
    })
}

/// The body of the request to run a job.
#[tactic(auto, unfolding(http_routes::specs::RunHead::run_body), using(crate::proofs::RunLengthLemmas::run_length))]
fn run_body(alloc: Global, inputs: &[u8]) -> Result<Vec<u8>, Memory>
    ensures { IfOk result (λ body. body.items ≡ run_body storm_run inputs.now) }
{
    let run = storm_run(alloc)?;
    let head = written(alloc, &run)?;
    let mut body = Vec::from_slice(alloc, &(head.len() as u32).to_be_bytes())?;
    body.extend_from_slice(&head)?;
    body.extend_from_slice(inputs)?;
    Ok(body)
}

/// The request to run a job with those inputs at the server at that address, under the job's token.
#[tactic(auto, unfolding(http_routes::specs::Requests::run_with))]
fn run_at(
    alloc: Global,
    server: Addr,
    token: &str,
    job: JobId,
    inputs: &[u8],
) -> Result<Bytes, Memory>
    ensures { IfOk result (λ bytes. bytes
        ≡ request_text (run_with (addr_text server) token.now job storm_run inputs.now)) }
{
    let target = format!(in alloc; "/api/v1/distserver/run_job/{job}")?;
    let host = format!(in alloc; "{server}")?;
    let body = run_body(alloc, inputs)?;
    let bytes = posted(alloc, target, host, token, body)?;
    Ok(bytes)
}

/// The request to run a job under its token, which goes to its server.
#[tactic(auto, unfolding(crate::specs::Storm::run_request))]
fn run_under(alloc: Global, token: &str, job: u64) -> Result<Bytes, Memory>
    requires { token.now ≡ token_of job }
    ensures { IfOk result (λ bytes. bytes ≡ spec.run_request job) }
{
    let inputs = job.to_be_bytes();
    let server = server_addr(job);
    let bytes = run_at(alloc, server, token, JobId(job), &inputs)?;
    Ok(bytes)
}

/// The request to run a job, which goes to its server.
pub fn run_request(alloc: Global, clients: &Clients, job: u64) -> Result<Bytes, Memory>
    ensures { IfOk result (λ bytes. bytes ≡ spec.run_request job) }
{
    match clients.kept_token(job) {
        Some(token) => run_under(alloc, token.text(), job),
        None => {
            let token = clients.token(job)?;
            run_under(alloc, token.text(), job)
        }
    }
}

/// A status request to the scheduler at that address.
#[tactic(auto, unfolding(http_routes::specs::Requests::status_with))]
fn status_at(alloc: Global, scheduler: Addr) -> Result<Bytes, Memory>
    ensures { IfOk result (λ bytes. bytes ≡ request_text (status_with (addr_text scheduler))) }
{
    let target = Text::of(alloc, "/api/v1/scheduler/status")?;
    let host = format!(in alloc; "{scheduler}")?;
    let request = WrittenRequest {
        method: Method::Get,
        target,
        host: Text::new(host),
        token: None,
        body: None,
    };
    let bytes = request.bytes(alloc)?;
    Ok(bytes)
}

/// The status request.
#[tactic(auto, unfolding(crate::specs::Storm::status_request))]
pub fn status_request(alloc: Global) -> Result<Bytes, Memory>
    ensures { IfOk result (λ bytes. bytes ≡ spec.status_request) }
{
    let scheduler = scheduler_addr();
    let bytes = status_at(alloc, scheduler)?;
    Ok(bytes)
}
