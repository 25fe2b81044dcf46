//! Scripts of a scheduler with quotas: the first job's id, the clients and what happens, and the grammar of the
//! lines that say so; and the lines that a run of one prints.
//!
//! The contract: `read_script` gives what the lines spell, or the first faulty line; the laws say that reading a
//! line is the grammar, that the number is that of the first faulty line, and that a script without one is read
//! as what its lines say. What an event gave has one text.
//!
//! The layer above makes the calls, by `quota`.
#![tactic(auto)]

pub mod clients;
pub mod event;
pub mod laws;
pub mod line;
pub mod script;
