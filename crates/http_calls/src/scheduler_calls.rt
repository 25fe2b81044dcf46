//! The requests that go to the scheduler at a base.
ghost use Rattle.std.specs.Prelude.{◌≡◌, None, OnOk, IfOk, IfErr};
ghost use Rattle.dist_wire.specs.Spelling.{SpellsToolchain, SpellsHeartbeat};
ghost use Rattle.dist_wire.specs.Written as spelling;
ghost use Rattle.http_head.specs.declared.written_request.Method.TheVariants.{Get};
ghost use Rattle.http_head.specs.WrittenRequest.{request_text};
ghost use Rattle.http_routes.specs.Builder.{target_of, host_of};
ghost use Rattle.http_routes.specs.Requests.{post_with};
ghost use Rattle.url.specs.Parts.{IsValid};
ghost use Rattle.http_calls.specs.Calls.{RefusesBase, alloc_request, status_request, state_request};
ghost use Rattle.http_calls.specs.Calls.{heartbeat_request};
ghost use Rattle.http_calls.specs.Urls.{IsHttp};

use crate::builder::{RequestBuilder, ReqwestRequestBuilderExt};
use crate::urls::{heartbeat_url, scheduler_alloc_job, scheduler_status, state_url};
use dist_types::fault::Memory;
use dist_types::ids::JobId;
use dist_types::results::JobState;
use dist_types::text::Bytes;
use dist_types::toolchain::Toolchain;
use dist_wire::heartbeat::HeartbeatServerHttpRequest;
use dist_wire::message::Message;
use http_head::error::HttpError;
use std::alloc::Global;
use url::Url;

/// The bytes of a POST to a URL under a token, with a message as its body.
fn built<M: Message>(alloc: Global, url: &Url, token: &str, message: &M) -> Result<Bytes, HttpError>
    ensures text { IfOk result (λ bytes. bytes
        ≡ request_text (post_with (target_of url.now) (host_of url.now) token.now (M.text message.now))) }
    ensures spelled { OnOk result (M.spells message.now (M.text message.now)) }
    ensures err { IfErr result (λ e. e ≡ HttpError.Memory) }
{
    let builder = RequestBuilder::post(alloc, url)?;
    let builder = builder.bearer_auth(token)?;
    let builder = builder.bincode(message)?;
    let bytes = builder.build()?;
    Ok(Bytes::new(bytes))
}

/// The same, refused for want of memory alone.
fn posted<M: Message>(alloc: Global, url: &Url, token: &str, message: &M) -> Result<Bytes, Memory>
    ensures text { IfOk result (λ bytes. bytes
        ≡ request_text (post_with (target_of url.now) (host_of url.now) token.now (M.text message.now))) }
    ensures spelled { OnOk result (M.spells message.now (M.text message.now)) }
{
    match built(alloc, url, token, message) {
        Ok(bytes) => Ok(bytes),
        Err(_) => Err(Memory),
    }
}

/// The bytes of a request for a job.
#[tactic(auto, using(crate::proofs::UrlLemmas::target_at), unfolding(http_routes::specs::Requests::alloc_with))]
pub(crate) fn alloc_text(
    alloc: Global,
    base: &Url,
    token: &str,
    tc: &Toolchain,
) -> Result<Bytes, HttpError>
    ensures text { IfOk result (λ bytes. bytes ≡ request_text (alloc_request base.now token.now tc.now)) }
    ensures http { OnOk result (IsHttp base.now) }
    ensures valid { IsValid base.now }
    ensures spelled { OnOk result (SpellsToolchain tc.now (spelling.bytes_text tc.now)) }
    ensures err { IfErr result (RefusesBase base.now) }
{
    let url = scheduler_alloc_job(base)?;
    let bytes = posted(alloc, &url, token, tc)?;
    Ok(bytes)
}

/// The bytes of a GET of a URL, which shows no token.
fn built_get(alloc: Global, url: &Url) -> Result<Bytes, HttpError>
    ensures text { IfOk result (λ bytes. bytes ≡ request_text (record {
      method = Get;
      target = target_of url.now;
      host = host_of url.now;
      token = None;
      body = None;
    })) }
    ensures err { IfErr result (λ e. e ≡ HttpError.Memory) }
{
    let builder = RequestBuilder::get(alloc, url)?;
    let bytes = builder.build()?;
    Ok(Bytes::new(bytes))
}

/// The bytes of a request for the status.
#[tactic(auto, using(crate::proofs::UrlLemmas::target_at), unfolding(http_routes::specs::Requests::status_with))]
pub(crate) fn status_text(alloc: Global, base: &Url) -> Result<Bytes, HttpError>
    ensures text { IfOk result (λ bytes. bytes ≡ request_text (status_request base.now)) }
    ensures http { OnOk result (IsHttp base.now) }
    ensures valid { IsValid base.now }
    ensures err { IfErr result (RefusesBase base.now) }
{
    let url = scheduler_status(base)?;
    match built_get(alloc, &url) {
        Ok(bytes) => Ok(bytes),
        Err(_) => Err(HttpError::Memory),
    }
}

/// The bytes of the report of a job's state, to a base of scheme `http`.
#[tactic(auto, using(crate::proofs::UrlLemmas::target_at), unfolding(http_routes::specs::Requests::state_with))]
pub(crate) fn state_text(
    alloc: Global,
    base: &Url,
    token: &str,
    job: JobId,
    state: JobState,
) -> Result<Bytes, Memory>
    requires http { IsHttp base.now }
    ensures text { IfOk result (λ bytes. bytes ≡ request_text (state_request base.now token.now job state)) }
    ensures valid { OnOk result (IsValid base.now) }
{
    let url = state_url(alloc, base, job)?;
    let bytes = posted(alloc, &url, token, &state)?;
    Ok(bytes)
}

/// The bytes of a heartbeat, to a base of scheme `http`.
#[tactic(auto, using(crate::proofs::UrlLemmas::target_at), unfolding(http_routes::specs::Requests::heartbeat_with))]
pub(crate) fn heartbeat_text(
    alloc: Global,
    base: &Url,
    token: &str,
    beat: &HeartbeatServerHttpRequest,
) -> Result<Bytes, Memory>
    requires http { IsHttp base.now }
    ensures text { IfOk result
        (λ bytes. bytes ≡ request_text (heartbeat_request base.now token.now beat.now)) }
    ensures valid { OnOk result (IsValid base.now) }
    ensures spelled { OnOk result (SpellsHeartbeat beat.now (spelling.heartbeat_text beat.now)) }
{
    let url = heartbeat_url(base)?;
    let bytes = posted(alloc, &url, token, beat)?;
    Ok(bytes)
}
