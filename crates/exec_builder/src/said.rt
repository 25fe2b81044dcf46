//! What the answer to a question says of a build.
ghost use Rattle.std.specs.Prelude.{◌≡◌};
ghost use Rattle.exec_builder.specs.Said.{said_of, brought_of, answer_of};

use dist_types::builder::BuildFault;
use dist_types::fault::Memory;
use dist_types::outgoing::CallFault;
use dist_types::results::{BuildResult, JobComplete, RunJobResult, SubmitToolchainResult};

/// For how many milliseconds a refusal is held back where no reply came.
pub const HOLD_MS: u64 = 30_000;

/// The status by which an executor says that it does not know an archive.
pub const UNKNOWN_STATUS: u16 = 404;

/// What an executor said to the question to run a command.
#[derive(Debug, Drop)]
pub enum Said {
    /// The command was run, and this is what it gave.
    Built(BuildResult),
    /// The executor does not know the archive.
    Unknown,
    /// It refused, or what it replied is no answer.
    Refused,
    /// No reply came.
    Gone,
}

/// What an executor said to an archive.
#[derive(Clone, Copy, Debug, PartialEq, Eq)]
pub enum Brought {
    /// It has the archive.
    Taken,
    /// It refused, or what it replied is no answer.
    Refused,
    /// No reply came.
    Gone,
}

/// What an answer to the question to run says; refused where memory ran out.
pub fn said_of(answer: Result<RunJobResult, CallFault>) -> Result<Said, Memory>
    ensures { result ≡ said_of answer }
{
    match answer {
        Ok(RunJobResult::Complete(complete)) => {
            let JobComplete { output, outputs } = complete;
            Ok(Said::Built(BuildResult { output, outputs }))
        }
        Ok(RunJobResult::JobNotFound) => Ok(Said::Refused),
        Err(CallFault::Status(code)) => {
            if code == UNKNOWN_STATUS {
                Ok(Said::Unknown)
            } else {
                Ok(Said::Refused)
            }
        }
        Err(CallFault::Unreadable) => Ok(Said::Refused),
        Err(CallFault::BadState(_)) => Ok(Said::Refused),
        Err(CallFault::Lost) => Ok(Said::Gone),
        Err(CallFault::Memory) => Err(Memory),
    }
}

/// What an answer to an archive says; refused where memory ran out.
pub fn brought_of(answer: Result<SubmitToolchainResult, CallFault>) -> Result<Brought, Memory>
    ensures { result ≡ brought_of answer }
{
    match answer {
        Ok(SubmitToolchainResult::Success) => Ok(Brought::Taken),
        Ok(SubmitToolchainResult::JobNotFound) => Ok(Brought::Refused),
        Ok(SubmitToolchainResult::CannotCache) => Ok(Brought::Refused),
        Err(CallFault::Status(_)) => Ok(Brought::Refused),
        Err(CallFault::Unreadable) => Ok(Brought::Refused),
        Err(CallFault::BadState(_)) => Ok(Brought::Refused),
        Err(CallFault::Lost) => Ok(Brought::Gone),
        Err(CallFault::Memory) => Err(Memory),
    }
}

/// The answer of a build: what was built, or that it was refused.
pub fn answer_of(said: Said) -> Result<BuildResult, BuildFault>
    ensures { result ≡ answer_of said }
{
    match said {
        Said::Built(built) => Ok(built),
        Said::Unknown => Err(BuildFault::Refused),
        Said::Refused => Err(BuildFault::Refused),
        Said::Gone => Err(BuildFault::Refused),
    }
}
