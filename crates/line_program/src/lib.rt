//! A program over lines: why it did not do its work, how that is told, and its input, line by line.
//!
//! The contract: `read_input` reads to the end, or to one byte past a limit, before a line is judged; `report`
//! answers the status of a fault and writes its text on errs, behind the program's name, or answers 5 where errs
//! failed; `program_main` does both around what a `Program` makes of its input.
//!
//! The programs above use `fault::FarmFault`, `input::read_input`, `pieces` (which cuts an input into lines and
//! holds them to the limits), `limits`, `program`, `report::report`, `words` and `why::Why`.
#![tactic(auto)]

pub mod fault;
pub mod input;
pub mod limits;
pub mod pieces;
pub mod program;
pub mod report;
pub mod why;
pub mod words;
