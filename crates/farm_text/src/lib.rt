//! The lines of a printed run: each piece as it is displayed, and the lines of many one after the other.
//!
//! The contract: exactly the text that `Printed` in farm_entries says, appended to what stands before it.
//!
//! The layer above is `farm_run`, whose `print_run` puts the text of a run together.
#![tactic(auto)]

pub mod lines;
pub mod text;
