//! What a pass knows, as plain data.
use core_rules::entry::CoreEntry;
use core_rules::start::Start;
use std::collections::LinkedList;

/// What a pass knows of the scheduler's table. No value of it is made.
pub struct View {
    /// The front of the log that was seen.
    pub front: LinkedList<CoreEntry>,
    /// The own places.
    pub own: LinkedList<u64>,
    /// A shorter front, of a pass that was taken in.
    pub other: LinkedList<CoreEntry>,
    /// Whether one has the turn.
    pub turn: bool,
    /// How many passes it holds.
    pub held: u64,
    /// How many passes were split off it, or off one that it took in.
    pub splits: u64,
    /// How many passes were made, as it was noted.
    pub note: u64,
    /// With what the scheduler began.
    pub start: Start,
    /// Whether it is a caller's, and not spent.
    pub live: bool,
}
