//! The replies to what the scheduler and a build server answer: in JSON where that is wanted, else in binary.
//! Each is refused for want of memory alone.
ghost use Rattle.std.specs.Prelude.{◌≡◌, IfOk, Some};
ghost use Rattle.http_routes.specs.Fault.{fault_response_of};
ghost use Rattle.http_routes.specs.Replies.{heard_response, status_response, drained_response};
ghost use Rattle.http_routes.specs.Replies.{alloc_response, update_response, commit_response, core_fault};
ghost use Rattle.http_routes.specs.Replies.{assign_response, submit_response, run_response};
ghost use Rattle.core_rules.specs.Texts.{no_room_text, dropped_text};

use crate::error::HttpError;
use crate::fault::{RouteFault, fault_response};
use crate::reply::{Response, respond};
use core_rules::answers::Committed;
use core_rules::error::SchedError;
use core_rules::texts;
use dist_types::fault::Memory;
use dist_types::ids::{JobId, ServerId};
use dist_types::results::{
    AllocJobResult, AssignJobResult, HeartbeatServerResult, RunJobResult, SchedulerStatusResult,
    SubmitToolchainResult, UpdateJobStateResult,
};
use dist_types::text::Text;
use dist_wire::alloc::AllocJobHttpResponse;
use dist_wire::drain::DrainServerResult;
use std::alloc::{AllocError, Global};

/// Want of memory, where it is the one cause of a refusal.
pub fn want_of_memory(error: HttpError) -> AllocError
    requires { error ≡ HttpError.Memory }
{
    match error {
        HttpError::Memory => AllocError,
        _ => unreachable!(),
    }
}

/// The reply to a heartbeat.
#[tactic(auto, unfolding(crate::specs::Replies::heard_response))]
pub fn to_heartbeat(
    alloc: Global,
    json: bool,
    answer: &HeartbeatServerResult,
) -> Result<Response, AllocError>
    ensures { IfOk result (λ r. r ≡ heard_response json answer.now) }
{
    match respond(alloc, json, answer) {
        Ok(response) => Ok(response),
        Err(error) => Err(want_of_memory(error)),
    }
}

/// The reply to a status request.
#[tactic(auto, unfolding(crate::specs::Replies::status_response))]
pub fn to_status(
    alloc: Global,
    json: bool,
    answer: &SchedulerStatusResult,
) -> Result<Response, AllocError>
    ensures { IfOk result (λ r. r ≡ status_response json answer.now) }
{
    match respond(alloc, json, answer) {
        Ok(response) => Ok(response),
        Err(error) => Err(want_of_memory(error)),
    }
}

/// The reply to a wish to drain, by whether it names a registration.
#[tactic(auto, unfolding(crate::specs::Replies::drained_response))]
pub fn to_drain(alloc: Global, json: bool, known: bool) -> Result<Response, AllocError>
    ensures { IfOk result (λ r. r ≡ drained_response json known) }
{
    match respond(alloc, json, &DrainServerResult { known }) {
        Ok(response) => Ok(response),
        Err(error) => Err(want_of_memory(error)),
    }
}

/// The reply to an allocation.
#[tactic(auto, unfolding(crate::specs::Replies::alloc_response))]
pub fn to_allocation(
    alloc: Global,
    json: bool,
    answer: AllocJobResult,
) -> Result<Response, AllocError>
    ensures { IfOk result (λ r. r ≡ alloc_response json answer) }
{
    let sent = AllocJobHttpResponse::from_alloc_job_result(answer);
    match respond(alloc, json, &sent) {
        Ok(response) => Ok(response),
        Err(error) => Err(want_of_memory(error)),
    }
}

/// The reply to a report on a job that is taken.
#[tactic(auto, unfolding(crate::specs::Replies::update_response))]
pub fn to_update(
    alloc: Global,
    json: bool,
    answer: &UpdateJobStateResult,
) -> Result<Response, AllocError>
    ensures { IfOk result (λ r. r ≡ update_response json answer.now) }
{
    match respond(alloc, json, answer) {
        Ok(response) => Ok(response),
        Err(error) => Err(want_of_memory(error)),
    }
}

/// The reply to a fault.
pub fn to_fault(alloc: Global, fault: &RouteFault) -> Result<Response, AllocError>
    ensures { IfOk result (λ r. r ≡ fault_response_of fault.now) }
{
    match fault_response(alloc, fault) {
        Ok(response) => Ok(response),
        Err(error) => Err(want_of_memory(error)),
    }
}

/// Why no job was allocated: no server has room, of so many that stand.
pub fn no_room(alloc: Global, standing: u64) -> Result<Text, AllocError>
    ensures { IfOk result (λ text. text ≡ no_room_text standing) }
{
    match texts::no_room_text(alloc, standing) {
        Ok(text) => Ok(text),
        Err(Memory) => Err(AllocError),
    }
}

/// Why no job was allocated: its reservation ended before the server answered.
pub fn dropped(alloc: Global, job: JobId) -> Result<Text, AllocError>
    ensures { IfOk result (λ text. text ≡ dropped_text job) }
{
    match texts::dropped_text(alloc, job) {
        Ok(text) => Ok(text),
        Err(Memory) => Err(AllocError),
    }
}

/// The reply to who asked for a job, by what became of the commit of its reservation.
pub fn to_commit(
    alloc: Global,
    json: bool,
    need_toolchain: bool,
    committed: Committed,
) -> Result<Response, AllocError>
    ensures { IfOk result (λ r. r ≡ commit_response json need_toolchain committed) }
{
    match committed {
        Committed::Kept(job_alloc) => to_allocation(
            alloc,
            json,
            AllocJobResult::Success {
                job_alloc,
                need_toolchain,
            },
        ),
        Committed::Dropped(job) => {
            let msg = dropped(alloc, job)?;
            to_allocation(alloc, json, AllocJobResult::Fail { msg })
        }
        Committed::Foreign(job) => {
            let msg = dropped(alloc, job)?;
            to_allocation(alloc, json, AllocJobResult::Fail { msg })
        }
    }
}

/// What the scheduler's refusal of a server's request about a job is told as; want of memory is told by no
/// reply.
pub fn core_fault(server: ServerId, job: JobId, error: SchedError) -> Option<RouteFault>
    ensures { result ≡ core_fault server job error }
{
    match error {
        SchedError::BadCpus(cpus) => Some(RouteFault::BadCpus(cpus)),
        SchedError::IdsSpent => Some(RouteFault::IdsSpent),
        SchedError::UnknownJob => Some(RouteFault::UnknownJob),
        SchedError::WrongServer => Some(RouteFault::WrongServer(job, server)),
        SchedError::BadTransition(from, to) => Some(RouteFault::BadTransition(from, to)),
        SchedError::Memory => None,
    }
}

/// The reply to an assignment.
#[tactic(auto, unfolding(crate::specs::Replies::assign_response))]
pub fn to_assignment(
    alloc: Global,
    json: bool,
    answer: &AssignJobResult,
) -> Result<Response, AllocError>
    ensures { IfOk result (λ r. r ≡ assign_response json answer.now) }
{
    match respond(alloc, json, answer) {
        Ok(response) => Ok(response),
        Err(error) => Err(want_of_memory(error)),
    }
}

/// The reply to an archive that was brought.
#[tactic(auto, unfolding(crate::specs::Replies::submit_response))]
pub fn to_submission(
    alloc: Global,
    json: bool,
    answer: &SubmitToolchainResult,
) -> Result<Response, AllocError>
    ensures { IfOk result (λ r. r ≡ submit_response json answer.now) }
{
    match respond(alloc, json, answer) {
        Ok(response) => Ok(response),
        Err(error) => Err(want_of_memory(error)),
    }
}

/// The reply to a request to run a job.
#[tactic(auto, unfolding(crate::specs::Replies::run_response))]
pub fn to_run(alloc: Global, json: bool, answer: &RunJobResult) -> Result<Response, AllocError>
    ensures { IfOk result (λ r. r ≡ run_response json answer.now) }
{
    match respond(alloc, json, answer) {
        Ok(response) => Ok(response),
        Err(error) => Err(want_of_memory(error)),
    }
}
