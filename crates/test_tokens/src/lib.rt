//! The tests of dist_token: MACs, tokens of other programs, hostile tokens, and a check that asks a peer. Tests
//! alone; nothing above uses this crate.
#![tactic(auto)]

#[cfg(test)]
mod proxy;
#[cfg(test)]
mod tokens;
#[cfg(test)]
mod vectors;
