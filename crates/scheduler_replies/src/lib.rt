//! The replies to what the steps of a scheduler answer, for every driver: one way from an answer to a reply,
//! and one definition of the reply by the entry that was made.
//!
//! The contract: each function of `replies` makes the reply to one kind of answer, its message or its fault,
//! and wants memory or tells it. `specs/ByEntry.antt` says which call of the core is what is asked, and which
//! reply its entry gives; what a step and `replies` make together is that (`proofs/ReplyLemmas.antt`), so a
//! farm's next entry and a place of the running log are read alike.
//!
//! The layers above use the five functions of `replies`, and in their clauses `Replies` and `RepliesAt`.
#![tactic(auto)]

pub mod laws;
pub mod replies;
