//! What a reader believes of the scheduler: the entries of its log, the calls that make them, and every
//! rule as a question to the whole log, asked by filters (`specs/`).
//!
//! The definitions say which registrations stand, which reservations are unended, which jobs are open, and
//! the one entry that a call makes (`specs/Rule.antt`). The contract: `laws`, of every log whose entries are
//! each the rule's over those before them; and each function here is one definition over entries or rows.
//! The layers above use the entries, calls, rows and answers, and cite the definitions; the books that
//! answer from them without walking the log are those of `sched_core`.
#![tactic(auto)]

pub mod answers;
pub mod call;
pub mod effects;
pub mod entry;
pub mod error;
pub mod laws;
mod ranked;
pub mod rows;
pub mod rules;
pub mod standing;
pub mod start;
pub mod texts;

pub use standing::HEARTBEAT_TIMEOUT;
