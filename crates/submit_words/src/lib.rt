//! The words, statuses and rules of the program `dist_submit`.
#![tactic(auto)]

pub mod heads;
pub mod job;
pub mod misuse;
pub mod number;
pub mod options;
pub mod refusal;
pub mod status;
pub mod words;
