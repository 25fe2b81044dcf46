//! The scheduler's core computed plainly, which is what the running state is compared with: a log, and each
//! question asked anew of all its entries (`plain`). Nothing but tests uses it.
#![tactic(auto)]

mod choice;
mod entries;
mod jobs;
pub mod plain;
pub mod servers;
