//! Generated histories of the scheduler's core: the running state beside the plain scheduler of `core_reference`.
//! Tests, and what they draw and count; nothing above uses this crate.
#![tactic(auto)]

#[cfg(test)]
mod arms;
#[cfg(test)]
mod draws;
#[cfg(test)]
mod histories;
