//! Why a call of a build server gives no answer.
ghost use Rattle.std.specs.Prelude.{◌≡◌};
ghost use Rattle.build_server.specs.Rules.{fault_of};

pub use dist_types::builder::BuildCause;
use dist_types::ids::JobId;
use dist_types::outgoing::CallFault;
use dist_types::results::UpdateJobStateResult;
use thiserror::Error;

/// What the scheduler answered to an update. Either `Ok` counts as accepted.
pub type Update = Result<UpdateJobStateResult, CallFault>;

/// Why a call of a build server gives no answer.
#[derive(Clone, Copy, Debug, PartialEq, Eq, Error)]
pub enum ServerFault {
    /// The job is held already.
    #[error("Job {0} is already assigned")]
    AlreadyAssigned(JobId),
    /// The scheduler did not accept an update.
    #[error("Updating job state failed")]
    UpdateFailed(CallFault),
    /// The job was run, and gave no build.
    #[error("run build failed")]
    BuildFailed(BuildCause),
    /// Memory ran out.
    #[error("out of memory")]
    Memory,
}

/// How an update that was not accepted is told: want of memory as such.
pub(crate) fn fault_of(e: CallFault) -> ServerFault
    ensures { result ≡ fault_of e }
{
    match e {
        CallFault::Lost => ServerFault::UpdateFailed(CallFault::Lost),
        CallFault::Status(code) => ServerFault::UpdateFailed(CallFault::Status(code)),
        CallFault::Unreadable => ServerFault::UpdateFailed(CallFault::Unreadable),
        CallFault::BadState(state) => ServerFault::UpdateFailed(CallFault::BadState(state)),
        CallFault::Memory => ServerFault::Memory,
    }
}
