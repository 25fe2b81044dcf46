//! The laws of runs, each a clause that quantifies over every input. Nothing here does anything when it
//! runs.
//!
//! The layer above is `farm_run`, whose runs keep them, and which exports both modules again.
#![tactic(auto)]

pub mod build_laws;
pub mod laws;
