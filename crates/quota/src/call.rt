//! The calls of a run, and what each answers.
use dist_types::ids::{JobId, ServerId, ServerNonce};
use dist_types::results::JobState;
use dist_types::text::{Bytes, Text};

/// A call of a run, at a moment in milliseconds.
#[derive(Debug, Drop)]
pub enum QuotaCall {
    /// Reserves a job for the client of that name.
    Alloc {
        now: u64,
        client: Text,
    },
    /// Commits the reserved job: it is ready at once, or else pending.
    Commit {
        now: u64,
        job: JobId,
        is_ready: bool,
    },
    /// Gives the reservation of the job back.
    Undo {
        now: u64,
        job: JobId,
    },
    /// Takes a heartbeat.
    Beat {
        now: u64,
        server: ServerId,
        nonce: ServerNonce,
        cpus: u64,
        key: Bytes,
    },
    /// Takes a server's report on a job.
    Update {
        now: u64,
        server: ServerId,
        job: JobId,
        state: JobState,
    },
    /// Answers a status request.
    Status {
        now: u64,
    },
}

/// What a call of a run answers.
#[derive(Clone, Copy, Debug, PartialEq, Eq)]
pub enum QuotaAnswer {
    /// The call made an entry: its place in the log, which says the rest.
    Logged(u64),
    /// The client holds as many reservations as it may: how many, and how many it may; nothing changed.
    Full { held: u64, limit: u64 },
    /// No client has that name; nothing changed.
    NoClient,
    /// The job is not reserved and unspent; nothing changed.
    NoReservation,
    /// A heartbeat with no processors, or with more than 4294967295; nothing changed.
    BadCpus,
}
