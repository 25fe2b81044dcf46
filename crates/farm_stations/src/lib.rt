//! The build servers of a farm: each over a folder and a builder, either of which may be handed in.
//!
//! The contract: each call of a station is a step of the server that it is, as the rules say it in the
//! weather of its folder and its builder.
//!
//! The layer above is `farm_run`, whose farms have a station for each server.
#![tactic(auto)]

pub mod build_row;
pub mod builder;
pub mod copies;
mod failed;
pub mod folder_laws;
pub mod job_tokens;
pub mod own_builder;
pub mod station;
