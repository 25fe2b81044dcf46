//! How far the job of a reservation is that is replayed.
use dist_types::ids::JobId;
use row_index::Identified;

/// How far the job of a reservation is.
#[derive(Clone, Copy, Debug)]
pub struct Progress {
    /// The job.
    pub job: JobId,
    /// Whether an entry accepted that its build has begun.
    pub is_begun: bool,
    /// Whether it was built.
    pub is_built: bool,
}

impl Identified for Progress {
    ghost id_of = { λ p. p.job.0 };

    fn id(&self) -> u64 {
        self.job.0
    }
}
