//! Scripts of a mirror: what its two caches hold, what is done, and the grammar of the lines that say so; and the
//! lines that a mirror's run prints.
//!
//! The contract: `read_script` gives what the lines spell, or the number of the first faulty line; the laws say that
//! reading a line is the grammar, that the number is that of the first faulty line, and that a script without one
//! is read as what its lines say. What a step gave has one text.
//!
//! The layer above does the steps, by `mirror`.
#![tactic(auto)]

pub mod laws;
pub mod line;
pub mod said;
pub mod script;
