//! The URLs of the routes.
ghost use Rattle.std.specs.Prelude.{◌≡◌, ◌++◌, OnOk, IfOk, IfErr, codes};
ghost use Rattle.std.specs.Fmt.{decimal};
ghost use Rattle.url.specs.Parts.{IsValid};
ghost use Rattle.http_calls.specs.Calls.{RefusesBase};
ghost use Rattle.http_calls.specs.Urls.{IsHttp, IsAbsolutePath, at_path};

pub use crate::servers::{server_assign_job, server_run_job, server_submit_toolchain};
use dist_types::fault::Memory;
use dist_types::ids::JobId;
use http_head::error::HttpError;
use std::alloc::Global;
use url::Url;

/// Whether a base is an `http` URL: BadBase where it is not.
pub(crate) fn tested(base: &Url) -> Result<(), HttpError>
    ensures http { OnOk result (IsHttp base.now) }
    ensures valid { IsValid base.now }
    ensures err { IfErr result (λ e. (e ≡ HttpError.BadBase) × ¬ (IsHttp base.now)) }
{
    if base.scheme() == "http" {
        Ok(())
    } else {
        Err(HttpError::BadBase)
    }
}

/// The base with another path, and with no query and no fragment. Refused for want of memory alone: no join
/// of an absolute path to an `http` base is refused for another cause.
#[tactic(auto, using(crate::proofs::JoinLemmas::joined_is))]
fn joined(base: &Url, path: &str) -> Result<Url, Memory>
    requires http { IsHttp base.now }
    requires path { IsAbsolutePath path.now }
    ensures ok { IfOk result (λ url. url ≡ at_path base.now path.now) }
    ensures valid { IsValid base.now }
{
    // What a URL says of its scheme, it says as a valid one.
    let _scheme = base.scheme();
    match base.join(path) {
        Ok(url) => Ok(url),
        Err(_) => Err(Memory),
    }
}

/// Where a job is asked for: BadBase exactly where the base's scheme is not `http`; else refused for want of
/// memory alone.
#[tactic(auto, using(crate::proofs::CallLemmas::alloc_path))]
pub fn scheduler_alloc_job(base: &Url) -> Result<Url, HttpError>
    ensures http { OnOk result (IsHttp base.now) }
    ensures ok { IfOk result (λ url. url ≡ at_path base.now (codes "/api/v1/scheduler/alloc_job")) }
    ensures valid { IsValid base.now }
    ensures err { IfErr result (RefusesBase base.now) }
{
    tested(base)?;
    let url = joined(base, "/api/v1/scheduler/alloc_job")?;
    Ok(url)
}

/// Where a server's heartbeat is told, at a base of scheme `http`.
#[tactic(auto, using(crate::proofs::CallLemmas::heartbeat_path))]
pub(crate) fn heartbeat_url(base: &Url) -> Result<Url, Memory>
    requires http { IsHttp base.now }
    ensures ok { IfOk result (λ url. url ≡ at_path base.now (codes "/api/v1/scheduler/heartbeat_server")) }
    ensures valid { IsValid base.now }
{
    joined(base, "/api/v1/scheduler/heartbeat_server")
}

/// Where a server's heartbeat is told: BadBase exactly where the base's scheme is not `http`; else refused
/// for want of memory alone.
pub fn scheduler_heartbeat_server(base: &Url) -> Result<Url, HttpError>
    ensures http { OnOk result (IsHttp base.now) }
    ensures ok { IfOk result (λ url. url ≡ at_path base.now (codes "/api/v1/scheduler/heartbeat_server")) }
    ensures valid { IsValid base.now }
    ensures err { IfErr result (RefusesBase base.now) }
{
    tested(base)?;
    let url = heartbeat_url(base)?;
    Ok(url)
}

/// Where it is told that a server is to drain: BadBase exactly where the base's scheme is not `http`; else
/// refused for want of memory alone.
#[tactic(auto, using(crate::proofs::CallLemmas::drain_path))]
pub fn scheduler_drain_server(base: &Url) -> Result<Url, HttpError>
    ensures http { OnOk result (IsHttp base.now) }
    ensures ok { IfOk result (λ url. url ≡ at_path base.now (codes "/api/v1/scheduler/drain_server")) }
    ensures valid { IsValid base.now }
    ensures err { IfErr result (RefusesBase base.now) }
{
    tested(base)?;
    let url = joined(base, "/api/v1/scheduler/drain_server")?;
    Ok(url)
}

/// Where the status is asked for: BadBase exactly where the base's scheme is not `http`; else refused for
/// want of memory alone.
#[tactic(auto, using(crate::proofs::CallLemmas::status_path))]
pub fn scheduler_status(base: &Url) -> Result<Url, HttpError>
    ensures http { OnOk result (IsHttp base.now) }
    ensures ok { IfOk result (λ url. url ≡ at_path base.now (codes "/api/v1/scheduler/status")) }
    ensures valid { IsValid base.now }
    ensures err { IfErr result (RefusesBase base.now) }
{
    tested(base)?;
    let url = joined(base, "/api/v1/scheduler/status")?;
    Ok(url)
}

/// Where a job's state is told, at a base of scheme `http`.
#[tactic(auto, using(crate::proofs::CallLemmas::state_path))]
pub(crate) fn state_url(alloc: Global, base: &Url, job: JobId) -> Result<Url, Memory>
    requires http { IsHttp base.now }
    ensures ok { IfOk result (λ url. url
        ≡ at_path base.now (codes "/api/v1/scheduler/job_state/" ++ decimal job.0)) }
    ensures valid { OnOk result (IsValid base.now) }
{
    let path = format!(in alloc; "/api/v1/scheduler/job_state/{job}")?;
    let url = joined(base, &path)?;
    Ok(url)
}

/// Where a job's state is told: BadBase exactly where the base's scheme is not `http`; else refused for want
/// of memory alone.
pub fn scheduler_job_state(alloc: Global, base: &Url, job: JobId) -> Result<Url, HttpError>
    ensures http { OnOk result (IsHttp base.now) }
    ensures ok { IfOk result (λ url. url
        ≡ at_path base.now (codes "/api/v1/scheduler/job_state/" ++ decimal job.0)) }
    ensures valid { IsValid base.now }
    ensures err { IfErr result (RefusesBase base.now) }
{
    tested(base)?;
    let url = state_url(alloc, base, job)?;
    Ok(url)
}
