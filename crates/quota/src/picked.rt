//! What a reserve for a client answers.
use sched_core::answers::Picked;

/// What a reserve for a client answers.
#[derive(Debug)]
pub enum QuotaPicked {
    /// What the scheduler picked.
    Picked(Picked),
    /// The client holds as many reservations as it may; nothing changed.
    Full {
        /// How many it holds.
        held: u64,
        /// How many it may hold.
        limit: u64,
    },
    /// No client has that name; nothing changed.
    NoClient,
}
