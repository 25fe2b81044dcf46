//! The commands of the program over objects in memory: tests alone.
#![tactic(auto)]

pub mod called;
#[cfg(test)]
mod rows;
pub mod zeros;
