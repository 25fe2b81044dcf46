//! The requests that the scheduler and its build servers write to each other.
ghost use Rattle.std.specs.Prelude.{◌≡◌, IfOk, IfErr, string_bytes};
ghost use Rattle.http_head.specs.WrittenRequest.{request_text};
ghost use Rattle.http_routes.specs.Requests.{post_with, assign_request_text, state_request_text};
ghost use Rattle.http_routes.specs.Requests.{heartbeat_request_text, drain_request_text};

use crate::builder::{RequestBuilder, ReqwestRequestBuilderExt};
use crate::error::HttpError;
use dist_types::addr::Addr;
use dist_types::ids::{JobId, ServerId};
use dist_types::results::JobState;
use dist_types::text::Bytes;
use dist_types::toolchain::Toolchain;
use dist_wire::drain::DrainServerHttpRequest;
use dist_wire::heartbeat::HeartbeatServerHttpRequest;
use dist_wire::message::Message;
use std::alloc::Global;

/// The bytes of a POST under a token, with a message as its body.
fn posted<M: Message>(
    target: String,
    host: String,
    token: &str,
    message: &M,
) -> Result<Bytes, HttpError>
    ensures ok { IfOk result (λ bytes. bytes
        ≡ request_text (post_with (string_bytes target) (string_bytes host) token.now (M.text message.now))) }
    ensures err { IfErr result (λ e. e ≡ HttpError.Memory) }
{
    let builder = RequestBuilder::post_to(target, host);
    let builder = builder.bearer_auth(token)?;
    let builder = builder.bincode(message)?;
    let bytes = builder.build()?;
    Ok(Bytes::new(bytes))
}

/// The request that asks a server to take a job, under the job's token and with its toolchain. Refused for
/// want of memory alone.
#[tactic(auto, unfolding(crate::specs::Requests::assign_with))]
pub fn assign_request(
    alloc: Global,
    server: ServerId,
    job: JobId,
    token: &str,
    tc: &Toolchain,
) -> Result<Bytes, HttpError>
    ensures ok { IfOk result (λ bytes. bytes ≡ assign_request_text server job token.now tc.now) }
    ensures err { IfErr result (λ e. e ≡ HttpError.Memory) }
{
    let target = format!(in alloc; "/api/v1/distserver/assign_job/{job}")?;
    let host = format!(in alloc; "{server}")?;
    let bytes = posted(target, host, token, tc)?;
    Ok(bytes)
}

/// The report of a job's state to the scheduler at that address, under a server's token. Refused for want of
/// memory alone.
#[tactic(auto, unfolding(crate::specs::Requests::state_with))]
pub fn state_request(
    alloc: Global,
    scheduler: Addr,
    token: &str,
    job: JobId,
    state: JobState,
) -> Result<Bytes, HttpError>
    ensures ok { IfOk result (λ bytes. bytes ≡ state_request_text scheduler token.now job state) }
    ensures err { IfErr result (λ e. e ≡ HttpError.Memory) }
{
    let target = format!(in alloc; "/api/v1/scheduler/job_state/{job}")?;
    let host = format!(in alloc; "{scheduler}")?;
    let bytes = posted(target, host, token, &state)?;
    Ok(bytes)
}

/// A heartbeat to the scheduler at that address, under a server's token. Refused for want of memory alone.
#[tactic(auto, unfolding(crate::specs::Requests::heartbeat_with))]
pub fn heartbeat_request(
    alloc: Global,
    scheduler: Addr,
    token: &str,
    beat: &HeartbeatServerHttpRequest,
) -> Result<Bytes, HttpError>
    ensures ok { IfOk result (λ bytes. bytes ≡ heartbeat_request_text scheduler token.now beat.now) }
    ensures err { IfErr result (λ e. e ≡ HttpError.Memory) }
{
    let target = String::from_str(alloc, "/api/v1/scheduler/heartbeat_server")?;
    let host = format!(in alloc; "{scheduler}")?;
    let bytes = posted(target, host, token, beat)?;
    Ok(bytes)
}

/// The wish of a server that it drain, or drain no more, to the scheduler at that address, under a server's
/// token. Refused for want of memory alone.
#[tactic(auto, unfolding(crate::specs::Requests::drain_with))]
pub fn drain_request(
    alloc: Global,
    scheduler: Addr,
    token: &str,
    drain: &DrainServerHttpRequest,
) -> Result<Bytes, HttpError>
    ensures ok { IfOk result (λ bytes. bytes ≡ drain_request_text scheduler token.now drain.now) }
    ensures err { IfErr result (λ e. e ≡ HttpError.Memory) }
{
    let target = String::from_str(alloc, "/api/v1/scheduler/drain_server")?;
    let host = format!(in alloc; "{scheduler}")?;
    let bytes = posted(target, host, token, drain)?;
    Ok(bytes)
}
