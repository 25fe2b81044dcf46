//! Scripts of a scheduler's lives: how its farm is set up, and each life's range of ids and what happens in it, and
//! the grammar of the lines that say so.
//!
//! The contract: `read_lives` gives what the lines spell, or the first faulty line; the laws say that reading a line
//! is the grammar, that the number is that of the first faulty line, that a script without one is read as what its
//! lines say, and which ranges share an id.
//!
//! The layer above runs the lives, by the farm.
#![tactic(auto)]

pub mod laws;
pub mod line;
pub mod script;
pub mod used_ids;
