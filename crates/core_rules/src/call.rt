//! The calls that make an entry.
use dist_types::ids::{JobId, ServerId, ServerNonce};
use dist_types::results::JobState;
use dist_types::text::Bytes;

/// A call of the scheduler, at a moment in milliseconds. A reservation is named by the number of its
/// entry and its job.
#[derive(Debug, Drop)]
pub enum Call {
    /// Reserves a job.
    Reserve {
        now: u64,
    },
    /// Spends a reservation, with the state that the server answered.
    Commit {
        now: u64,
        number: u64,
        job: JobId,
        state: JobState,
    },
    /// Gives a reservation back.
    Undo {
        now: u64,
        number: u64,
        job: JobId,
    },
    /// Takes a heartbeat.
    Beat {
        now: u64,
        server: ServerId,
        nonce: ServerNonce,
        cpus: u64,
        key: Bytes,
    },
    /// Takes a server's report on a job.
    Update {
        now: u64,
        server: ServerId,
        job: JobId,
        state: JobState,
    },
    /// Answers a status request.
    Status {
        now: u64,
    },
    /// Lets a server drain, or ends that: version 2 alone.
    Drain {
        now: u64,
        server: ServerId,
        nonce: ServerNonce,
        on: bool,
    },
}
