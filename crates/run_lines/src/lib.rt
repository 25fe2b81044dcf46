//! The lines of a printed run: what each says, its one text, and how it is read back.
//!
//! The contract: a line is read as a value exactly where it is the text of that value and the value's numbers
//! fit their types; no line has a line end in it. The line of an event is shared with scripts: it is a line
//! of the script's grammar, in the one spelling that is printed of its value.
//!
//! The layer above is `audit`, which judges a whole text.
#![tactic(auto)]

pub mod core_lines;
pub mod fields;
pub mod laws;
pub mod line;
pub mod lines;
pub mod lists;
pub mod step_lines;
