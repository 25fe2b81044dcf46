//! What happens in a script.
use dist_types::addr::Addr;
use dist_types::ids::ServerNonce;
use dist_types::results::JobState;
use dist_types::text::Text;

/// What happens.
#[derive(Debug, Drop)]
pub enum EventKind {
    /// A job is asked for, for the client of that name.
    Alloc(Text),
    /// The reserved job of that number is committed: it is ready at once, or else pending.
    Commit(u64, bool),
    /// The reservation of the job of that number is given back.
    Undo(u64),
    /// A build server beats, with its nonce and its number of processors.
    Beat(Addr, ServerNonce, u64),
    /// A build server reports that the job of that number is in a state.
    Update(Addr, u64, JobState),
    /// The status is asked for.
    Status,
}

/// What happens at a moment.
#[derive(Debug, Drop)]
pub struct Event {
    /// The moment, in milliseconds.
    pub at: u64,
    /// What happens at it.
    pub kind: EventKind,
}
