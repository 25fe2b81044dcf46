//! Audits the text of a printed run: whether it is one, whether its core entries are the core rule's, its
//! builds each once and after their start, and its books those of its entries; or its first fault.
#![tactic(auto)]

pub mod audit;
pub mod books;
pub mod kept;
pub mod laws;
pub mod mark;
pub mod order;
pub mod progress;
pub mod reading;
pub mod replay;
pub mod tokens;
pub mod verdict;
