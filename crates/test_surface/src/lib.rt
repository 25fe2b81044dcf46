//! Tests alone: each name of the public surface names its item, at the place that a user looks for it. There is
//! nothing to run: where a name is gone, this crate does not compile.
#![tactic(auto)]

mod base;
mod caches;
mod farms;
mod network;
mod servers;
