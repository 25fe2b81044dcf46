//! The calls of the scheduler's state, each once, reservations that are another scheduler's, and histories that
//! a model outside of this repository's code has judged. Tests alone; nothing above uses this crate.
#![tactic(auto)]

#[cfg(test)]
mod rows;
#[cfg(test)]
mod state;
#[cfg(test)]
mod table_one;
#[cfg(test)]
mod table_two;
