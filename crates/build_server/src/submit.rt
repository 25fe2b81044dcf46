//! Submissions of toolchains: what is under way, and how one ends.
ghost use Rattle.std.specs.Prelude.{◌≡◌};
ghost use Rattle.build_server.specs.Rules.{submit_result};

use dist_types::ids::JobId;
use dist_types::results::SubmitToolchainResult;
use dist_types::text::Items;
use dist_types::toolchain::Toolchain;
use std::marker::Model;

/// The toolchains whose archives were dropped, least recent first.
pub type Dropped = Items<Toolchain>;

/// A submission that is under way. It holds nothing, and may be let go.
#[derive(Debug, Drop)]
pub struct Submit {
    job: JobId,
}

impl Model for Submit {
    ghost use Rattle.dist_types.specs.declared.ids.JobId.{JobId};

    ghost Value = { JobId };

    ghost view = { λ s. s.job };
}

impl Submit {
    /// A submission under a job.
    pub(crate) fn new(job: JobId) -> Self
        ensures job { result ≡ job }
    {
        Submit { job }
    }

    /// The job under which the toolchain is submitted.
    pub fn job(&self) -> JobId
        ensures job { result ≡ self.now }
    {
        self.job
    }
}

/// How a submission ended that the scheduler accepted.
#[derive(Debug, Drop)]
pub enum Submitted {
    /// The job is not held.
    None,
    /// The archive was listed before.
    Listed,
    /// The archive was stored: its size in bytes, and which archives went for it.
    Stored(u64, Dropped),
    /// The archive's SHA-256 is not the toolchain's id.
    Digest,
    /// The archive is larger than the cache.
    Capacity,
    /// The folder failed; these archives went before it did.
    Folder(Dropped),
}

impl Submitted {
    /// What the submitter is told.
    pub fn result(&self) -> SubmitToolchainResult
        ensures result { result ≡ submit_result self.now }
    {
        match self {
            Submitted::None => SubmitToolchainResult::JobNotFound,
            Submitted::Listed => SubmitToolchainResult::Success,
            Submitted::Stored(_, _) => SubmitToolchainResult::Success,
            Submitted::Digest => SubmitToolchainResult::CannotCache,
            Submitted::Capacity => SubmitToolchainResult::CannotCache,
            Submitted::Folder(_) => SubmitToolchainResult::CannotCache,
        }
    }
}
