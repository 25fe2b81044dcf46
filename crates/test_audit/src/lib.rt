//! Tests of the audit: runs in which some lines are others, each with the verdict of the outside judge. Tests
//! alone; nothing above uses this crate.
#![tactic(auto)]

#[cfg(test)]
mod books;
#[cfg(test)]
mod entries;
#[cfg(test)]
mod grammar;
#[cfg(test)]
mod judged;
#[cfg(test)]
mod runs;
