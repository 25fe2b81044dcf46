//! What is kept of a text that was read, to be judged.
use core_rules::entry::CoreEntry;
use core_rules::rows::ServerRow;
use dist_types::ids::JobId;
use dist_types::results::JobState;

/// What is judged one after the other.
#[derive(Debug, Drop)]
pub enum Mark {
    /// The core entry of a line: the line's number, the entry's, and the entry at its event's moment.
    Core(u64, u64, CoreEntry),
    /// A run that built, or whose builder refused: the line's number and the job.
    Built(u64, JobId),
}

/// A line of the books behind the ids.
#[derive(Clone, Copy, Debug)]
pub enum Book {
    /// A registration that stands.
    Server(ServerRow),
    /// An unended reservation: its job, its registration, how far it is, whether it is claimed.
    Job(JobId, u64, Option<JobState>, bool),
}
