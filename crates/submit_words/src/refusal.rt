//! Why a job was not run, or what it made not handed on: by name, with the status of each, and whether it means that
//! a job is asked for again.
ghost use Rattle.std.specs.Prelude.{◌≡◌, string_bytes};
ghost use Rattle.submit_words.specs.Refusals.{status_of, asks_again, is_passing};
ghost use Rattle.submit_words.specs.Refusals as spec;

use std::alloc::{AllocError, AllocFailed};
use std::fmt;
use thiserror::Error;

/// The status of wrong words, and of an URL that names no scheduler.
pub const MISUSED: u8 = 120;

/// The status of a refusal by scheduler or server.
pub const REFUSED: u8 = 121;

/// The status where no reply came, none that can be read, or none in time.
pub const UNANSWERED: u8 = 122;

/// The status where a file was not read or not written, or an output is not what was asked for.
pub const UNFILED: u8 = 123;

/// The status where memory ran out.
pub const NO_MEMORY: u8 = 124;

/// What is asked of whom.
#[derive(Clone, Copy, Debug, PartialEq, Eq)]
pub enum Step {
    /// The scheduler is asked for a job.
    Ask,
    /// The archive is brought to the job's server.
    Bring,
    /// The job's server is asked to run it.
    Run,
}

impl fmt::Display for Step {
    fn fmt<W: fmt::Write>(&self, f: &mut fmt::Formatter<W>) -> fmt::Result {
        f.write_str(match self {
            Step::Ask => "alloc_job",
            Step::Bring => "submit_toolchain",
            Step::Run => "run_job",
        })
    }
}

/// Why a job was not run, or what it made not handed on: each by its name.
#[derive(Debug, Drop, Error)]
pub enum Refusal {
    /// The scheduler's URL is none.
    #[error("BadUrl: {0} is no URL")]
    BadUrl(String),
    /// It is none of `http`.
    #[error("BadBase: the scheduler's URL is no http URL")]
    BadBase,
    /// The name of an output is no plain relative path.
    #[error("BadOutput: {0} is no plain name of an output")]
    BadOutput(String),
    /// The scheduler has no job now, and why.
    #[error("NoJob: {0}")]
    NoJob(String),
    /// The reply has this status, and not 200, and this body.
    #[error("Status: {1} at {0}, {2}")]
    Status(Step, u16, String),
    /// The server does not hold the job.
    #[error("JobNotFound: the server does not know the job")]
    JobNotFound,
    /// The server could not store the archive.
    #[error("CannotCache: the server cannot store the archive")]
    CannotCache,
    /// Command and outputs have 2^32 bytes or more.
    #[error("HeadTooLong: command and outputs have 2^32 bytes or more")]
    HeadTooLong,
    /// No reply came.
    #[error("LinkFault: no reply at {0}")]
    LinkFault(Step),
    /// The reply cannot be read.
    #[error("ParseError: the reply is none to {0}")]
    ParseError(Step),
    /// The time was over.
    #[error("TimeOut: it took longer than --max-time")]
    TimeOut,
    /// The archive was not read.
    #[error("ArchiveUnread: {0} was not read")]
    ArchiveUnread(String),
    /// The inputs were not read.
    #[error("InputUnread: {0} was not read")]
    InputUnread(String),
    /// The file of the token was not read, or is no text.
    #[error("TokenUnread: {0} was not read as a text")]
    TokenUnread(String),
    /// The archive is another than it was when its id was kept.
    #[error("ArchiveChanged: {0} changed while it was used")]
    ArchiveChanged(String),
    /// The archive could not be kept while it is brought.
    #[error("Toolchain: {0}")]
    Toolchain(String),
    /// An output did not come back.
    #[error("MissingOutput: {0} did not come back")]
    MissingOutput(String),
    /// An output came that was not asked for.
    #[error("UnaskedOutput: {0} was not asked for")]
    UnaskedOutput(String),
    /// An output was not written.
    #[error("OutputUnwritten: {0} was not written")]
    OutputUnwritten(String),
    /// The job's output or error was not written.
    #[error("WriteFault: standard output or error was not written")]
    WriteFault,
    /// Memory ran out.
    #[error("Memory: out of memory")]
    Memory,
}

impl From<AllocError> for Refusal {
    ghost use Rattle.submit_words.specs.declared.refusal.Refusal.TheVariants as Refusals;

    ghost from_gives = { λ _ e. e ≡ Refusals.Memory };

    fn from(_: AllocError) -> Self {
        Refusal::Memory
    }
}

impl<T: Drop> From<AllocFailed<T>> for Refusal {
    ghost use Rattle.submit_words.specs.declared.refusal.Refusal.TheVariants as Refusals;

    ghost from_gives = { λ _ e. e ≡ Refusals.Memory };

    fn from(_: AllocFailed<T>) -> Self {
        Refusal::Memory
    }
}

// Whether a fault as JSON has this text outermost.
fn is_fault(body: &str, last: &[u8]) -> bool
    ensures { result ≡ spec.is_fault body.now last.now }
{
    body.as_bytes().ends_with(last)
}

// Whether a status at a step means that a job is asked for again.
fn is_passing(step: Step, code: u16, body: &str) -> bool
    ensures { result ≡ is_passing step code body.now }
{
    match step {
        Step::Ask => code == 500 && !is_fault(body, b"\"description\":\"No job ids left\"}"),
        Step::Bring | Step::Run => {
            code == 401
                || code == 500 && is_fault(body, b"\"description\":\"Updating job state failed\"}")
        }
    }
}

impl Refusal {
    /// The status that the program ends with.
    pub fn status(&self) -> u8
        ensures { result ≡ status_of self.now }
    {
        match self {
            Refusal::BadUrl(_) | Refusal::BadBase | Refusal::BadOutput(_) => MISUSED,
            Refusal::NoJob(_)
            | Refusal::Status(_, _, _)
            | Refusal::JobNotFound
            | Refusal::CannotCache
            | Refusal::HeadTooLong => REFUSED,
            Refusal::LinkFault(_) | Refusal::ParseError(_) | Refusal::TimeOut => UNANSWERED,
            Refusal::ArchiveUnread(_)
            | Refusal::InputUnread(_)
            | Refusal::TokenUnread(_)
            | Refusal::ArchiveChanged(_)
            | Refusal::Toolchain(_)
            | Refusal::MissingOutput(_)
            | Refusal::UnaskedOutput(_)
            | Refusal::OutputUnwritten(_)
            | Refusal::WriteFault => UNFILED,
            Refusal::Memory => NO_MEMORY,
        }
    }

    /// Whether it means that a job is asked for again: there is none now, the server does not hold the job or does not
    /// know its token, the scheduler did not take its state, or no reply came; and where the archive changed.
    pub fn asks_again(&self) -> bool
        ensures { result ≡ asks_again self.now }
    {
        match self {
            Refusal::NoJob(_)
            | Refusal::JobNotFound
            | Refusal::LinkFault(_)
            | Refusal::ArchiveChanged(_) => true,
            Refusal::Status(step, code, body) => is_passing(*step, *code, body.as_str()),
            _ => false,
        }
    }
}
