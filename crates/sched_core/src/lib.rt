//! The core of the scheduler: one growing log of entries, and the books that answer from it.
//!
//! Every rule is a question to the whole log (`core_rules`). The contract: each call of `SchedState` appends
//! exactly the entry of the core rule over the log before, and answers what that entry says; what it keeps
//! beside the log equals the filters.
//! The layer above uses `SchedState`, `Reservation`, `Picked` and the iterators from here, and the names of
//! `core_rules`, which stand here again.
#![tactic(auto)]

mod addresses;
pub mod answers;
mod books;
mod change;
mod decide;
mod keys;
mod log;
mod made;
mod places;
mod processors;
mod registrations;
pub mod reservation;
pub mod rows;
pub mod state;
mod tickets;

pub use core_rules::{HEARTBEAT_TIMEOUT, call, effects, entry, error, laws, start, texts};
pub use dist_types::rules::Rules;
