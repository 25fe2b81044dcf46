//! Tests of the shared types: the standards' examples, that calls succeed where memory is left, and the
//! objects of the system over loopback. Tests alone; nothing above uses this crate.
#![tactic(auto)]

#[cfg(test)]
mod addresses;
#[cfg(test)]
mod keys;
#[cfg(test)]
mod lent;
#[cfg(test)]
mod loopback;
#[cfg(test)]
mod objects;
#[cfg(test)]
mod roles;
#[cfg(test)]
mod values;
