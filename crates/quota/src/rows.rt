//! How it is kept whose the reservations are.
ghost use Rattle.std.specs.Prelude.{◌≡◌};
ghost use Rattle.quota.specs.Holdings.{share_ended};

use dist_types::ids::JobId;
use row_index::Identified;

/// A reservation.
#[derive(Clone, Copy, Debug)]
pub struct OwnedRow {
    /// Its number: the place in the log of the entry that made it.
    pub number: u64,
    /// Its job.
    pub job: JobId,
    /// The place of the share that it belongs to.
    pub share: usize,
    /// Whether nothing has ended it by its job.
    pub unended: bool,
}

impl Identified for OwnedRow {
    ghost id_of = { λ b. b.job.0 };

    fn id(&self) -> u64 {
        self.job.0
    }
}

/// What one client has at one registration.
#[derive(Clone, Copy, Debug)]
pub struct Share {
    /// The registration.
    pub reg: u64,
    /// The place of the client.
    pub client: usize,
    /// How many unended reservations it has there.
    pub count: u64,
    /// The place of the newest share before this one at the same registration.
    pub before: Option<usize>,
    /// Whether the registration has ended.
    pub over: bool,
}

/// Which client has a share, and at which registration.
#[derive(Clone, Copy, Debug, PartialEq, Eq, Hash)]
pub struct ShareKey {
    /// The registration.
    pub reg: u64,
    /// The place of the client.
    pub client: usize,
}
