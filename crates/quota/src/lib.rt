//! A scheduler with quotas: each client may hold so many reservations, and one that is refused leaves the
//! answers of all others as they were.
#![tactic(auto)]

pub mod call;
pub mod clients;
pub mod fault;
mod holdings;
pub mod laws;
pub mod picked;
mod places;
mod rows;
pub mod state;
