//! The requests that go to the server of a job. They are written from its address, and not over a URL, which
//! writes some addresses otherwise and leaves out port 80.
ghost use Rattle.std.specs.Prelude.{◌≡◌, ◌≤◌, ◌<◌, ◌^◌, ◌⊎◌, ◌++◌, ℕ, List, Ok, Result, ⊤, codes};
ghost use Rattle.std.specs.Prelude.{string_bytes, length, OnOk, IfOk, IfErr};
ghost use Rattle.std.specs.Fmt.{decimal};
ghost use Rattle.dist_types.specs.Addr.{addr_text, IsAddr};
ghost use Rattle.dist_types.specs.declared.token_error.TokenError.{TokenError};
ghost use Rattle.dist_wire.specs.Spelling.{SpellsRun};
ghost use Rattle.dist_wire.specs.Written as spelling;
ghost use Rattle.http_head.specs.WrittenRequest.{request_text, IsToken, IsWithinLimits};
ghost use Rattle.http_routes.specs.RunHead.{run_body};
ghost use Rattle.http_routes.specs.ServerRoute.{AsksSubmit, AsksRun};
ghost use Rattle.http_routes.specs.Requests.{post_with, submit_with, run_with};
ghost use Rattle.path_pkg.specs.Called.{CalledOnce};
ghost use Rattle.http_calls.specs.Client.{PacksBody, PacksRequest, first_of};

use crate::builder::{RequestBuilder, ReqwestRequestBuilderExt};
use dist_types::addr::Addr;
use dist_types::ids::{JobId, ServerId};
use dist_types::results::JobAlloc;
use dist_types::text::Bytes;
use dist_wire::error::WireError;
use dist_wire::message::Message;
use dist_wire::run::RunJobHttpRequest;
use http_head::error::HttpError;
use path_pkg::fault::PackFault;
use path_pkg::packagers::InputsPackager;
use path_pkg::unix::PathTransformer;
use std::alloc::Global;

/// The numbers of an address fit their types. It does nothing when it runs.
fn fits(addr: Addr)
    ensures { IsAddr addr }
{
    match addr {
        Addr::V4(octets, _) => {
            let [_a, _b, _c, _d] = octets;
        }
        Addr::V6(groups, _) => {
            let _groups = groups;
        }
    }
}

/// The bytes of a POST under a token.
fn posted(target: String, host: String, token: &str, body: Bytes) -> Result<Bytes, HttpError>
    ensures text { IfOk result (λ bytes. bytes
        ≡ request_text (post_with (string_bytes target) (string_bytes host) token.now body)) }
    ensures err { IfErr result (λ e. e ≡ HttpError.Memory) }
{
    let builder = RequestBuilder::post_to(target, host);
    let builder = builder.bearer_auth(token)?;
    let builder = builder.bytes(body.into_inner())?;
    let bytes = builder.build()?;
    Ok(Bytes::new(bytes))
}

/// The bytes of the request that brings a job's archive.
#[tactic(auto, unfolding(http_routes::specs::Requests::submit_with))]
fn submit_text(
    alloc: Global,
    server: ServerId,
    token: &str,
    job: JobId,
    archive: &[u8],
) -> Result<Bytes, HttpError>
    ensures text { IfOk result (λ bytes. bytes
        ≡ request_text (submit_with (addr_text server) token.now job archive.now)) }
    ensures err { IfErr result (λ e. e ≡ HttpError.Memory) }
{
    let target = format!(in alloc; "/api/v1/distserver/submit_toolchain/{job}")?;
    let host = format!(in alloc; "{server}")?;
    let body = Bytes::from_slice(alloc, archive)?;
    let bytes = posted(target, host, token, body)?;
    Ok(bytes)
}

/// The request that brings the archive of a job to its server, under the job's token. Refused for want of
/// memory alone. Where the token is one that a field carries and the request is within the limits, it is read
/// as that job's archive by each server that accepts the token for the job.
pub(crate) fn submit_request(
    alloc: Global,
    server: ServerId,
    token: &str,
    job: JobId,
    archive: &[u8],
) -> Result<Bytes, HttpError>
    ensures text { IfOk result (λ bytes. bytes
        ≡ request_text (submit_with (addr_text server) token.now job archive.now)) }
    ensures asks { IfOk result (λ bytes. IsToken token.now
        → IsWithinLimits (submit_with (addr_text server) token.now job archive.now)
        → (verdict : ℕ → List ℕ → Result ⊤ TokenError) → verdict job.0 token.now ≡ Ok tt
        → AsksSubmit verdict bytes job archive.now) }
    ensures err { IfErr result (λ e. e ≡ HttpError.Memory) }
{
    fits(server.addr());
    let bytes = submit_text(alloc, server, token, job, archive)?;
    Ok(bytes)
}

/// The body of a run: HeadTooLong exactly where the head has 2^32 bytes or more; else refused for want of
/// memory alone.
#[tactic(auto, unfolding(http_routes::specs::RunHead::run_body))]
fn run_body(alloc: Global, run: &RunJobHttpRequest, inputs: &[u8]) -> Result<Bytes, HttpError>
    ensures body { IfOk result (λ bytes. bytes ≡ run_body run.now inputs.now) }
    ensures low { OnOk result (length (spelling.run_text run.now) < 2 ^ 32) }
    ensures spelled { OnOk result (SpellsRun run.now (spelling.run_text run.now)) }
    ensures err { IfErr result (λ e. (e ≡ HttpError.Memory)
        ⊎ ((e ≡ HttpError.HeadTooLong) × (2 ^ 32 ≤ length (spelling.run_text run.now)))) }
{
    let head = match run.write(alloc) {
        Ok(head) => head,
        Err(WireError::Memory) => return Err(HttpError::Memory),
        Err(WireError::ParseError) => unreachable!(),
    };
    let Ok(len) = u32::try_from(head.len()) else {
        return Err(HttpError::HeadTooLong);
    };
    let mut bytes = Vec::from_slice(alloc, &len.to_be_bytes())?;
    bytes.extend_from_slice(&head)?;
    bytes.extend_from_slice(inputs)?;
    Ok(Bytes::new(bytes))
}

/// The body of a run whose inputs a packager packs: HeadTooLong exactly where the head has 2^32 bytes or
/// more, and then the packager is not called.
fn packed_body(
    alloc: Global,
    run: &RunJobHttpRequest,
    inputs: &mut dyn InputsPackager,
) -> Result<(Bytes, PathTransformer), HttpError>
    ensures { PacksBody (inputs.new ≡ inputs.old) (CalledOnce (times inputs.old) (times inputs.new))
        (packs inputs.old) (refusals inputs.old) (refusals inputs.new) run.now (first_of result) }
{
    let mut body = match run_body(alloc, run, &[]) {
        Ok(body) => body.into_inner(),
        Err(refusal) => return Err(refusal),
    };
    match inputs.write_inputs(&mut body) {
        Ok(transformer) => Ok((Bytes::new(body), transformer)),
        Err(fault) => match fault {
            PackFault::Refused => Err(HttpError::Packager),
            PackFault::Memory => Err(HttpError::Memory),
        },
    }
}

/// The bytes of the request to run a job with that body.
fn run_posted(
    alloc: Global,
    server: ServerId,
    token: &str,
    job: JobId,
    body: Bytes,
) -> Result<Bytes, HttpError>
    ensures text { IfOk result (λ bytes. bytes ≡ request_text (post_with
        (codes "/api/v1/distserver/run_job/" ++ decimal job.0) (addr_text server) token.now body)) }
    ensures fits { OnOk result (IsAddr server × (job.0 < 2 ^ 64)) }
    ensures err { IfErr result (λ e. e ≡ HttpError.Memory) }
{
    fits(server.addr());
    let target = format!(in alloc; "/api/v1/distserver/run_job/{job}")?;
    let host = format!(in alloc; "{server}")?;
    let bytes = posted(target, host, token, body)?;
    Ok(bytes)
}

/// The request that asks a job's server to run it with the inputs that a packager packs, under the job's
/// token.
pub(crate) fn packed_request(
    alloc: Global,
    job: &JobAlloc,
    run: &RunJobHttpRequest,
    inputs: &mut dyn InputsPackager,
) -> Result<(Bytes, PathTransformer), HttpError>
    ensures { PacksRequest (inputs.new ≡ inputs.old) (CalledOnce (times inputs.old) (times inputs.new))
        (packs inputs.old) (refusals inputs.old) (refusals inputs.new) job.now run.now (first_of result) }
{
    match packed_body(alloc, run, inputs) {
        Ok((body, transformer)) => {
            match run_posted(alloc, job.server_id, job.auth.get(), job.job_id, body) {
                Ok(bytes) => Ok((bytes, transformer)),
                Err(_) => Err(HttpError::Memory),
            }
        }
        Err(refusal) => Err(refusal),
    }
}

/// The bytes of the request to run a job.
#[tactic(auto, unfolding(http_routes::specs::Requests::run_with))]
fn run_text(
    alloc: Global,
    server: ServerId,
    token: &str,
    job: JobId,
    run: &RunJobHttpRequest,
    inputs: &[u8],
) -> Result<Bytes, HttpError>
    ensures text { IfOk result (λ bytes. bytes
        ≡ request_text (run_with (addr_text server) token.now job run.now inputs.now)) }
    ensures low { OnOk result (length (spelling.run_text run.now) < 2 ^ 32) }
    ensures spelled { OnOk result (SpellsRun run.now (spelling.run_text run.now)) }
    ensures err { IfErr result (λ e. (e ≡ HttpError.Memory)
        ⊎ ((e ≡ HttpError.HeadTooLong) × (2 ^ 32 ≤ length (spelling.run_text run.now)))) }
{
    let body = run_body(alloc, run, inputs)?;
    let target = format!(in alloc; "/api/v1/distserver/run_job/{job}")?;
    let host = format!(in alloc; "{server}")?;
    let bytes = posted(target, host, token, body)?;
    Ok(bytes)
}

/// The request that asks a job's server to run it, under the job's token: HeadTooLong exactly where the head
/// has 2^32 bytes or more; else refused for want of memory alone. Where the token is one that a field carries
/// and the request is within the limits, it is read as that run with those inputs by each server that accepts
/// the token for the job.
pub(crate) fn run_request(
    alloc: Global,
    server: ServerId,
    token: &str,
    job: JobId,
    run: &RunJobHttpRequest,
    inputs: &[u8],
) -> Result<Bytes, HttpError>
    ensures text { IfOk result (λ bytes. bytes
        ≡ request_text (run_with (addr_text server) token.now job run.now inputs.now)) }
    ensures asks { IfOk result (λ bytes. IsToken token.now
        → IsWithinLimits (run_with (addr_text server) token.now job run.now inputs.now)
        → (verdict : ℕ → List ℕ → Result ⊤ TokenError) → verdict job.0 token.now ≡ Ok tt
        → AsksRun verdict bytes job run.now inputs.now) }
    ensures low { OnOk result (length (spelling.run_text run.now) < 2 ^ 32) }
    ensures err { IfErr result (λ e. (e ≡ HttpError.Memory)
        ⊎ ((e ≡ HttpError.HeadTooLong) × (2 ^ 32 ≤ length (spelling.run_text run.now)))) }
{
    fits(server.addr());
    let bytes = run_text(alloc, server, token, job, run, inputs)?;
    Ok(bytes)
}
