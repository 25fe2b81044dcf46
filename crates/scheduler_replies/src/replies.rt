//! The reply to each kind of answer: in JSON where that is wanted, else in binary. Each is refused for want of
//! memory alone: of the answer, or for its reply.
ghost use Rattle.std.specs.Prelude.{◌≡◌, IfOk};
ghost use Rattle.http_routes.specs.Fault.{fault_response_of};
ghost use Rattle.http_routes.specs.Replies.{heard_response, status_response, alloc_response, update_response};
ghost use Rattle.http_routes.specs.Replies.{drained_response};
ghost use Rattle.http_routes.specs.Reply.{response_of};
ghost use Rattle.scheduler_replies.specs.Replies.{told_fault, report_fault, IsTold, Replies};

use core_rules::error::SchedError;
use dist_types::fault::Memory;
use dist_types::ids::{JobId, ServerId};
use dist_types::results::{
    AllocJobResult, HeartbeatServerResult, SchedulerStatusResult, UpdateJobStateResult,
};
use dist_wire::alloc::AllocJobHttpResponse;
use dist_wire::drain::DrainServerResult;
use dist_wire::message::Message;
use http_routes::fault::{RouteFault, fault_response};
use http_routes::reply::{Response, respond};
use scheduler_steps::fault::SchedFault;
use std::alloc::Global;

/// What a refusal of the scheduler is told as, where it is not about a job; want of memory is told by no
/// reply.
fn told_fault(fault: SchedFault) -> Option<RouteFault>
    ensures { result ≡ told_fault fault }
{
    match fault {
        SchedFault::Core(error) => match error {
            SchedError::BadCpus(cpus) => Some(RouteFault::BadCpus(cpus)),
            SchedError::IdsSpent => Some(RouteFault::IdsSpent),
            SchedError::UnknownJob => None,
            SchedError::WrongServer => None,
            SchedError::BadTransition(_, _) => None,
            SchedError::Memory => None,
        },
        SchedFault::AssignFailed(undone, cause) => Some(RouteFault::AssignFailed(undone, cause)),
        SchedFault::Memory => None,
    }
}

/// What a refusal of that server's report on that job is told as.
fn report_fault(server: ServerId, job: JobId, fault: SchedFault) -> Option<RouteFault>
    ensures { result ≡ report_fault server job fault }
{
    match fault {
        SchedFault::Core(error) => match error {
            SchedError::BadCpus(_) => None,
            SchedError::IdsSpent => None,
            SchedError::UnknownJob => Some(RouteFault::UnknownJob),
            SchedError::WrongServer => Some(RouteFault::WrongServer(job, server)),
            SchedError::BadTransition(from, to) => Some(RouteFault::BadTransition(from, to)),
            SchedError::Memory => None,
        },
        SchedFault::AssignFailed(_, _) => None,
        SchedFault::Memory => None,
    }
}

/// The reply that tells a fault, where one does.
fn to_fault(alloc: Global, fault: Option<RouteFault>) -> Result<Response, Memory>
    ensures { IfOk result (IsTold fault) }
{
    let Some(fault) = fault else {
        return Err(Memory);
    };
    match fault_response(alloc, &fault) {
        Ok(response) => Ok(response),
        Err(_) => Err(Memory),
    }
}

/// The reply with a message.
fn to_message<M: Message>(alloc: Global, json: bool, message: &M) -> Result<Response, Memory>
    ensures { IfOk result (λ r. r ≡ response_of M.text M.json json message.now) }
{
    match respond(alloc, json, message) {
        Ok(response) => Ok(response),
        Err(_) => Err(Memory),
    }
}

/// The reply to a heartbeat.
#[tactic(auto, unfolding(http_routes::specs::Replies::heard_response))]
pub fn to_heard(
    alloc: Global,
    json: bool,
    answer: Result<HeartbeatServerResult, SchedFault>,
) -> Result<Response, Memory>
    ensures { IfOk result (Replies (heard_response json) told_fault answer) }
{
    match answer {
        Ok(answer) => to_message(alloc, json, &answer),
        Err(fault) => to_fault(alloc, told_fault(fault)),
    }
}

/// The reply to a status request.
#[tactic(auto, unfolding(http_routes::specs::Replies::status_response))]
pub fn to_counted(
    alloc: Global,
    json: bool,
    answer: Result<SchedulerStatusResult, SchedFault>,
) -> Result<Response, Memory>
    ensures { IfOk result (Replies (status_response json) told_fault answer) }
{
    match answer {
        Ok(answer) => to_message(alloc, json, &answer),
        Err(fault) => to_fault(alloc, told_fault(fault)),
    }
}

/// The reply to a wish to drain, by whether it names a registration.
#[tactic(auto, unfolding(http_routes::specs::Replies::drained_response))]
pub fn to_drained(
    alloc: Global,
    json: bool,
    answer: Result<bool, SchedFault>,
) -> Result<Response, Memory>
    ensures { IfOk result (Replies (drained_response json) told_fault answer) }
{
    match answer {
        Ok(known) => to_message(alloc, json, &DrainServerResult { known }),
        Err(fault) => to_fault(alloc, told_fault(fault)),
    }
}

/// The reply to an allocation.
#[tactic(auto, unfolding(http_routes::specs::Replies::alloc_response))]
pub fn to_allocated(
    alloc: Global,
    json: bool,
    answer: Result<AllocJobResult, SchedFault>,
) -> Result<Response, Memory>
    ensures { IfOk result (Replies (alloc_response json) told_fault answer) }
{
    match answer {
        Ok(answer) => {
            let sent = AllocJobHttpResponse::from_alloc_job_result(answer);
            to_message(alloc, json, &sent)
        }
        Err(fault) => to_fault(alloc, told_fault(fault)),
    }
}

/// The reply to a server's report on a job.
#[tactic(auto, unfolding(http_routes::specs::Replies::update_response))]
pub fn to_reported(
    alloc: Global,
    json: bool,
    server: ServerId,
    job: JobId,
    answer: Result<UpdateJobStateResult, SchedFault>,
) -> Result<Response, Memory>
    ensures { IfOk result (Replies (update_response json) (report_fault server job) answer) }
{
    match answer {
        Ok(answer) => to_message(alloc, json, &answer),
        Err(fault) => to_fault(alloc, report_fault(server, job, fault)),
    }
}
