//! The storm: a farm of eight build servers, the events that come to it, as many as are asked for, and the
//! summary of what it made of them.
//!
//! The contract: `storm_text` is the summary of the entries that the first events of the storm make, each
//! next over those before it. The setup, the events and the summary are definitions: the events go round by
//! round, and the summary counts entries by tests on each, and the open jobs.
//!
//! The layer above is the command, which uses `storm_text` and `IsStormText`.
#![tactic(auto)]

mod clients;
mod deed;
mod events;
pub mod laws;
mod requests;
mod run;
mod setup;
mod summary;
mod sums;

pub use run::storm_text;
