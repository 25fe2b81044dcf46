//! Scripts: how a farm is set up, what happens to it, and the grammar of the lines that say so.
//!
//! The contract: `read_script` gives what the lines spell, or the number of the first faulty line; the
//! laws say that reading a line is the grammar, that the number is that of the first faulty line, and
//! that a script without one is read as what its lines say.
//!
//! The layer above is the farm, which runs events over what the setup says.
#![tactic(auto)]

pub mod event;
pub mod fields;
pub mod laws;
pub mod lines;
pub mod reader;
pub mod script;
pub mod setup;
pub mod words;
