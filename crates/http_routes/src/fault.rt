//! The faults of a request whose route is known, and the replies that tell them.
ghost use Rattle.std.specs.Prelude.{◌≡◌, [], ◌∷◌, IfOk, IfErr};
ghost use Rattle.http_routes.specs.ErrJson.{texts_of};
ghost use Rattle.http_routes.specs.Fault.{call_text, cause_text, fault_texts, fault_response_of};
ghost use Rattle.core_rules.specs.Texts.{no_room_text, dropped_text};

use crate::err_json::ErrJson;
use crate::error::HttpError;
use crate::reply::Response;
use core_rules::answers::Undone;
use dist_types::builder::BuildCause;
use dist_types::ids::{JobId, ServerId};
use dist_types::outgoing::CallFault;
use dist_types::results::JobState;
use dist_types::text::Text;
use std::alloc::Global;
use std::fmt;

/// Why the scheduler or a build server does not do what a request asks of it.
#[derive(Debug, Drop)]
pub enum RouteFault {
    /// A heartbeat tells so many processors: none, or more than 4294967295.
    BadCpus(u64),
    /// The job is not committed, or is over.
    UnknownJob,
    /// The job runs at another server than this one.
    WrongServer(JobId, ServerId),
    /// The job's state, and one that does not follow it.
    BadTransition(JobState, JobState),
    /// Every job id is spent.
    IdsSpent,
    /// The server did not take the job: what became of the reservation, and why the call failed.
    AssignFailed(Undone, CallFault),
    /// The server holds the job already.
    AlreadyAssigned(JobId),
    /// The scheduler did not take a report of the job's state: why the call failed.
    UpdateFailed(CallFault),
    /// The build gave nothing.
    BuildFailed(BuildCause),
}

/// What became of a reservation whose call failed, as a reply tells it.
#[derive(Drop)]
struct UndoneText<'a>(&'a Undone);

impl fmt::Display for UndoneText<'_> {
    ghost use Rattle.std.specs.Prelude.{Some};
    ghost use Rattle.http_routes.specs.Fault.{undone_text};

    ghost output = { λ u. Some (undone_text u.0.now) };

    fn fmt<W: fmt::Write>(&self, f: &mut fmt::Formatter<W>) -> fmt::Result {
        match self.0 {
            Undone::Unassigned => {
                write!(f, "assign job failed, job un-assigned from the server")
            }
            Undone::NotKnown => write!(f, "assign job failed and job not known to the server"),
            Undone::NoServer => write!(f, "assign job failed and server not known"),
            Undone::Foreign => write!(f, "assign job failed and job not known to the server"),
        }
    }
}

/// Why a call gave no answer, as a reply tells it.
#[derive(Drop)]
struct CallText<'a>(&'a CallFault);

impl fmt::Display for CallText<'_> {
    ghost use Rattle.std.specs.Prelude.{Some};
    ghost use Rattle.http_routes.specs.Fault.{call_text};

    ghost output = { λ c. Some (call_text c.0.now) };

    fn fmt<W: fmt::Write>(&self, f: &mut fmt::Formatter<W>) -> fmt::Result {
        match self.0 {
            CallFault::Lost => write!(f, "no reply"),
            CallFault::Status(code) => write!(f, "Error {code}"),
            CallFault::Unreadable => write!(f, "unreadable reply"),
            CallFault::BadState(state) => write!(f, "state {state} in an assignment"),
            CallFault::Memory => write!(f, "out of memory"),
        }
    }
}

/// Why a build gave nothing, as a reply tells it.
#[derive(Drop)]
struct CauseText<'a>(&'a BuildCause);

impl fmt::Display for CauseText<'_> {
    ghost use Rattle.std.specs.Prelude.{Some};
    ghost use Rattle.http_routes.specs.Fault.{cause_text};

    ghost output = { λ c. Some (cause_text c.0.now) };

    fn fmt<W: fmt::Write>(&self, f: &mut fmt::Formatter<W>) -> fmt::Result {
        match self.0 {
            BuildCause::Unlisted => write!(f, "toolchain not in cache"),
            BuildCause::Folder => write!(f, "toolchain unreadable"),
            BuildCause::Refused => write!(f, "builder refused"),
        }
    }
}

impl fmt::Display for RouteFault {
    ghost use Rattle.std.specs.Prelude.{Some};
    ghost use Rattle.http_routes.specs.Fault.{fault_text};

    ghost output = { λ fault. Some (fault_text fault) };

    fn fmt<W: fmt::Write>(&self, f: &mut fmt::Formatter<W>) -> fmt::Result {
        match self {
            RouteFault::BadCpus(cpus) => {
                write!(f, "Invalid number of CPUs ({cpus}) specified in heartbeat")
            }
            RouteFault::UnknownJob => write!(f, "Unknown job"),
            RouteFault::WrongServer(job, server) => {
                write!(
                    f,
                    "Job id {job} is not registered on server ServerId({server})"
                )
            }
            RouteFault::BadTransition(old, new) => {
                write!(f, "Invalid job state transition from {old} to {new}")
            }
            RouteFault::IdsSpent => write!(f, "No job ids left"),
            RouteFault::AssignFailed(undone, _) => write!(f, "{}", UndoneText(undone)),
            RouteFault::AlreadyAssigned(job) => write!(f, "Job {job} is already assigned"),
            RouteFault::UpdateFailed(_) => write!(f, "Updating job state failed"),
            RouteFault::BuildFailed(_) => write!(f, "run build failed"),
        }
    }
}

/// What went wrong, in a call whose request is of that kind.
fn call_failed(
    alloc: Global,
    text: Text,
    asked: &str,
    call: &CallFault,
) -> Result<ErrJson, HttpError>
    ensures texts { IfOk result (λ e. texts_of e ≡ text ∷ asked.now ∷ call_text call.now ∷ []) }
    ensures memory { IfErr result (λ e. e ≡ HttpError.Memory) }
{
    let call = CallText(call);
    let why = format!(in alloc; "{call}")?;
    let asked = Text::of(alloc, asked)?;
    let cause = ErrJson::of(Text::new(why)).under(alloc, asked)?;
    cause.under(alloc, text)
}

/// What went wrong, in a build.
fn build_failed(alloc: Global, text: Text, cause: &BuildCause) -> Result<ErrJson, HttpError>
    ensures texts { IfOk result (λ e. texts_of e ≡ text ∷ cause_text cause.now ∷ []) }
    ensures memory { IfErr result (λ e. e ≡ HttpError.Memory) }
{
    let cause = CauseText(cause);
    let why = format!(in alloc; "{cause}")?;
    ErrJson::of(Text::new(why)).under(alloc, text)
}

/// What went wrong, and why.
fn fault_json(alloc: Global, fault: &RouteFault) -> Result<ErrJson, HttpError>
    ensures texts { IfOk result (λ e. texts_of e ≡ fault_texts fault.now) }
    ensures memory { IfErr result (λ e. e ≡ HttpError.Memory) }
{
    let text = Text::new(format!(in alloc; "{fault}")?);
    match fault {
        RouteFault::BadCpus(_) => Ok(ErrJson::of(text)),
        RouteFault::UnknownJob => Ok(ErrJson::of(text)),
        RouteFault::WrongServer(_, _) => Ok(ErrJson::of(text)),
        RouteFault::BadTransition(_, _) => Ok(ErrJson::of(text)),
        RouteFault::IdsSpent => Ok(ErrJson::of(text)),
        RouteFault::AssignFailed(_, call) => {
            call_failed(alloc, text, "POST to scheduler assign_job failed", call)
        }
        RouteFault::AlreadyAssigned(_) => Ok(ErrJson::of(text)),
        RouteFault::UpdateFailed(call) => {
            call_failed(alloc, text, "POST to scheduler job_state failed", call)
        }
        RouteFault::BuildFailed(cause) => build_failed(alloc, text, cause),
    }
}

/// The reply 500 to a fault. Refused for want of memory alone.
pub fn fault_response(alloc: Global, fault: &RouteFault) -> Result<Response, HttpError>
    ensures ok { IfOk result (λ response. response ≡ fault_response_of fault.now) }
    ensures err { IfErr result (λ e. e ≡ HttpError.Memory) }
{
    let json = fault_json(alloc, fault)?.into_data(alloc)?;
    Ok(Response::ServerError(Text::new(json)))
}

/// Why no job was allocated: no server has room, of so many that stand. Refused for want of memory alone.
pub fn no_room_text(alloc: Global, standing: u64) -> Result<Text, HttpError>
    ensures ok { IfOk result (λ text. text ≡ no_room_text standing) }
    ensures err { IfErr result (λ e. e ≡ HttpError.Memory) }
{
    let text = format!(in alloc; "Insufficient capacity across {standing} available servers")?;
    Ok(Text::new(text))
}

/// Why no job was allocated: its reservation ended before the server answered. Refused for want of memory
/// alone.
pub fn dropped_text(alloc: Global, job: JobId) -> Result<Text, HttpError>
    ensures ok { IfOk result (λ text. text ≡ dropped_text job) }
    ensures err { IfErr result (λ e. e ≡ HttpError.Memory) }
{
    let text = format!(in alloc;
        "Job {job} assignment was cleaned up before allocation completed"
    )?;
    Ok(Text::new(text))
}
