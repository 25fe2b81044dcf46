//! Lists of words, and whether each stands in a row of the command line; and the values of the key `rules`.
//! Tests alone; nothing above uses this crate.
#![tactic(auto)]

#[cfg(test)]
mod rows;
#[cfg(test)]
mod rules;
