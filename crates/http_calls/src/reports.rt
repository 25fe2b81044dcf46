//! What a build server tells the scheduler at a base: the state of a job, and that it stands.
ghost use Rattle.std.specs.Prelude.{◌≡◌, ℕ, List, Option, Some, IfOk, IfErr, false};
ghost use Rattle.dist_types.specs.Addr.{ip_of};
ghost use Rattle.dist_types.specs.declared.addr.Addr.{Addr};
ghost use Rattle.dist_types.specs.declared.rules.Rules.{Rules};
ghost use Rattle.http_head.specs.WrittenRequest.{request_text, IsToken, IsWithinLimits};
ghost use Rattle.http_routes.specs.declared.admission.Admission.{Admission};
ghost use Rattle.http_routes.specs.declared.route.SchedRouted.TheVariants.{Update, Beat};
ghost use Rattle.http_routes.specs.Asked.{IsAskedUnder};
ghost use Rattle.http_calls.specs.Calls.{RefusesBase, state_request, heartbeat_request};
ghost use Rattle.http_calls.specs.Urls.{IsHttp};

use crate::scheduler_calls::{heartbeat_text, state_text};
use crate::urls::tested;
use dist_types::fault::Memory;
use dist_types::ids::JobId;
use dist_types::results::JobState;
use dist_types::text::Bytes;
use dist_wire::heartbeat::HeartbeatServerHttpRequest;
use http_head::error::HttpError;
use std::alloc::Global;
use url::Url;

/// The report of a job's state to a base of scheme `http`, under a server's token. Refused for want of memory
/// alone. Where the token is one that a field carries and the request is within the limits, it is read as the
/// update of that job to that state of the server that the token is accepted for, from whatever peer has the
/// server's IP.
pub fn state_report_to_http(
    alloc: Global,
    base: &Url,
    token: &str,
    job: JobId,
    state: JobState,
) -> Result<Bytes, Memory>
    requires http { IsHttp base.now }
    ensures text { IfOk result (λ bytes. bytes ≡ request_text (state_request base.now token.now job state)) }
    ensures asks { IfOk result (λ bytes. IsToken token.now
        → IsWithinLimits (state_request base.now token.now job state)
        → (rules : Rules) (lets : List ℕ → Admission) (serves : List ℕ → Option Addr)
        (peer server : Addr)
        → serves token.now ≡ Some server → ip_of peer ≡ ip_of server
        → IsAskedUnder rules lets serves bytes peer
        (record { what = Update server job state; json = false })) }
{
    let bytes = state_text(alloc, base, token, job, state)?;
    Ok(bytes)
}

/// The report of a job's state, under a server's token: BadBase exactly where the base's scheme is not
/// `http`; else refused for want of memory alone. Where the token is one that a field carries and the request
/// is within the limits, it is read as the update of that job to that state of the server that the token is
/// accepted for, from whatever peer has the server's IP.
pub fn state_report(
    alloc: Global,
    base: &Url,
    token: &str,
    job: JobId,
    state: JobState,
) -> Result<Bytes, HttpError>
    ensures text { IfOk result (λ bytes. bytes ≡ request_text (state_request base.now token.now job state)) }
    ensures asks { IfOk result (λ bytes. IsToken token.now
        → IsWithinLimits (state_request base.now token.now job state)
        → (rules : Rules) (lets : List ℕ → Admission) (serves : List ℕ → Option Addr)
        (peer server : Addr)
        → serves token.now ≡ Some server → ip_of peer ≡ ip_of server
        → IsAskedUnder rules lets serves bytes peer
        (record { what = Update server job state; json = false })) }
    ensures err { IfErr result (RefusesBase base.now) }
{
    tested(base)?;
    let bytes = state_report_to_http(alloc, base, token, job, state)?;
    Ok(bytes)
}

/// The heartbeat of a server to a base of scheme `http`, under its token. Refused for want of memory alone.
/// Where the token is one that a field carries and the request is within the limits, it is read as that
/// heartbeat of the server that the token is accepted for, from whatever peer has the server's IP.
pub fn heartbeat_to_http(
    alloc: Global,
    base: &Url,
    token: &str,
    beat: &HeartbeatServerHttpRequest,
) -> Result<Bytes, Memory>
    requires http { IsHttp base.now }
    ensures text { IfOk result
        (λ bytes. bytes ≡ request_text (heartbeat_request base.now token.now beat.now)) }
    ensures asks { IfOk result (λ bytes. IsToken token.now
        → IsWithinLimits (heartbeat_request base.now token.now beat.now)
        → (rules : Rules) (lets : List ℕ → Admission) (serves : List ℕ → Option Addr)
        (peer server : Addr)
        → serves token.now ≡ Some server → ip_of peer ≡ ip_of server
        → IsAskedUnder rules lets serves bytes peer
        (record { what = Beat server beat.now; json = false })) }
{
    let bytes = heartbeat_text(alloc, base, token, beat)?;
    Ok(bytes)
}

/// The heartbeat of a server, under its token: BadBase exactly where the base's scheme is not `http`; else
/// refused for want of memory alone. Where the token is one that a field carries and the request is within
/// the limits, it is read as that heartbeat of the server that the token is accepted for, from whatever peer
/// has the server's IP.
pub fn heartbeat(
    alloc: Global,
    base: &Url,
    token: &str,
    beat: &HeartbeatServerHttpRequest,
) -> Result<Bytes, HttpError>
    ensures text { IfOk result
        (λ bytes. bytes ≡ request_text (heartbeat_request base.now token.now beat.now)) }
    ensures asks { IfOk result (λ bytes. IsToken token.now
        → IsWithinLimits (heartbeat_request base.now token.now beat.now)
        → (rules : Rules) (lets : List ℕ → Admission) (serves : List ℕ → Option Addr)
        (peer server : Addr)
        → serves token.now ≡ Some server → ip_of peer ≡ ip_of server
        → IsAskedUnder rules lets serves bytes peer
        (record { what = Beat server beat.now; json = false })) }
    ensures err { IfErr result (RefusesBase base.now) }
{
    tested(base)?;
    let bytes = heartbeat_to_http(alloc, base, token, beat)?;
    Ok(bytes)
}
