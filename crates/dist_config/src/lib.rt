//! What a scheduler and a build server are configured with, and what takes such a configuration and serves.
//!
//! The contract: the configurations are plain values; a copy of one equals it. `Serve` tells, where it does,
//! a record with one row for each call, which is the configuration that it was handed and its answer, and
//! fails only where its count of faults rose.
//!
//! The layers above use the types of `config`, the trait `Serve` with `MemServe`, and `start`, whose
//! schedulers and servers hand their configuration on.
#![tactic(auto)]

pub mod config;
pub mod serve;
pub mod start;
