//! What is asked of the log, as rows.
use dist_types::ids::{JobId, ServerId, ServerNonce};
use dist_types::results::JobState;

/// A registration that stands.
#[derive(Clone, Copy, Debug)]
pub struct ServerRow {
    /// Its number: the place in the log of the heartbeat that made it.
    pub reg: u64,
    /// Its address.
    pub server: ServerId,
    /// Its processors.
    pub cpus: u64,
    /// The nonce of this start of the server.
    pub nonce: ServerNonce,
    /// The moment of its last sign, in milliseconds.
    pub seen: u64,
    /// How many unended reservations it has.
    pub load: u64,
    /// The moment of its remembered error, in milliseconds.
    pub error: Option<u64>,
    /// Whether it is draining: it has no room, and its jobs go on.
    pub draining: bool,
}

/// A reservation that is unended.
#[derive(Clone, Copy, Debug)]
pub struct HeldRow {
    /// Its number: the place in the log of the entry that made it.
    pub number: u64,
    /// Its job.
    pub job: JobId,
    /// The registration that it is at.
    pub reg: u64,
    /// The moment at which it was made, in milliseconds.
    pub reserved_at: u64,
    /// The state of its job, if the job is committed.
    pub state: Option<JobState>,
    /// The moment at which its job became ready, in milliseconds, if it did.
    pub ready_at: Option<u64>,
    /// Whether the build has begun.
    pub claimed: bool,
}

/// A reservation that is unended, with the address of its registration.
#[derive(Clone, Copy, Debug)]
pub struct JobRow {
    /// The number of the reservation: the place in the log of the entry that made it.
    pub number: u64,
    /// Its job.
    pub job: JobId,
    /// The registration that it is at.
    pub reg: u64,
    /// The address of that registration.
    pub server: ServerId,
    /// The moment at which it was made, in milliseconds.
    pub reserved_at: u64,
    /// The state of its job, if the job is committed.
    pub state: Option<JobState>,
    /// The moment at which its job became ready, in milliseconds, if it did.
    pub ready_at: Option<u64>,
    /// Whether the build has begun.
    pub claimed: bool,
}

/// A job that is committed and open.
#[derive(Clone, Copy, Debug)]
pub struct OpenRow {
    /// The job.
    pub job: JobId,
    /// The registration that it was reserved at.
    pub reg: Option<u64>,
    /// The address of that registration.
    pub server: Option<ServerId>,
    /// Its state.
    pub state: JobState,
}
