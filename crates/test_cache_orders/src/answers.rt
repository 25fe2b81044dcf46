//! What calls answer, and where two caches differ.
ghost use Rattle.std.specs.Prelude.{◌≡◌, OnOk};

use dist_types::toolchain_error::ToolchainError;
use folders::fault::FolderFault;
use lru_disk_cache::Error;
use std::alloc::AllocError;

/// The answer of a call.
#[derive(PartialEq, Eq, Drop)]
pub enum Answer {
    /// It did what it does.
    Done,
    /// There is no such key.
    Absent,
    /// A content, or the path of a file.
    Content(Vec<u8>),
    /// It refused.
    Refused(Error),
    /// A compiler's toolchain is a configured archive, of this SHA-256.
    Configured(Vec<u8>),
    /// A client's toolchains refused, by what is configured, what is recorded, or the packager.
    Denied(ToolchainError),
}

/// The answer of a call that gives nothing.
pub fn done(answer: Result<(), Error>) -> Answer {
    match answer {
        Ok(()) => Answer::Done,
        Err(error) => Answer::Refused(error),
    }
}

/// The answer of a call that gives a content.
pub fn content(answer: Result<Vec<u8>, Error>) -> Answer {
    match answer {
        Ok(bytes) => Answer::Content(bytes),
        Err(error) => Answer::Refused(error),
    }
}

/// The refusal of a client's toolchains.
pub fn denied(refusal: ToolchainError) -> Answer {
    match refusal {
        ToolchainError::Cache(error) => Answer::Refused(error),
        ToolchainError::Memory => Answer::Refused(Error::Memory),
        _ => Answer::Denied(refusal),
    }
}

/// Bytes that were copied, as an answer.
pub fn copied(bytes: Result<Vec<u8>, AllocError>) -> Answer {
    match bytes {
        Ok(bytes) => Answer::Content(bytes),
        Err(_) => Answer::Refused(Error::Memory),
    }
}

/// Where the cache and the model differ.
#[derive(Clone, Copy)]
pub enum Difference {
    /// In an answer.
    Answers,
    /// In the lists of keys.
    Lists,
    /// In the files, or in the count of faults.
    Files,
    /// A call did not fail that was to.
    Faults,
    /// No memory was left to tell.
    Memory,
}

impl Difference {
    /// What differs.
    pub fn text(self) -> &'static str {
        match self {
            Difference::Answers => "an answer differs",
            Difference::Lists => "the lists differ",
            Difference::Files => "the files differ",
            Difference::Faults => "a call did not fail",
            Difference::Memory => "out of memory",
        }
    }
}

/// Two answers are one.
pub fn agree(given: Answer, wanted: Answer) -> Result<(), Difference> {
    if given == wanted {
        return Ok(());
    }
    Err(Difference::Answers)
}

/// Two answers of a folder are one.
pub fn same(
    given: Result<(), FolderFault>,
    wanted: Result<(), FolderFault>,
) -> Result<(), Difference>
    ensures one { OnOk result (given ≡ wanted) }
{
    if given != wanted {
        return Err(Difference::Answers);
    }
    Ok(())
}
