//! The version of the scheduler's rules that a scheduler goes by.

/// A version of the rules. A scheduler keeps the one that it began with.
#[derive(Clone, Copy, Debug, PartialEq, Eq)]
pub enum Rules {
    /// Version 1: no registration drains, and a Ready job's age counts from its reservation.
    One,
    /// Version 2: a registration that drains has no room, and a Ready job's age counts from the moment
    /// since which it is Ready.
    Two,
}
