//! Tests of the lines of printed runs: lines of each kind, and forms near them. Tests alone; nothing above uses
//! this crate.
#![tactic(auto)]

#[cfg(test)]
mod lines;
#[cfg(test)]
mod table;
