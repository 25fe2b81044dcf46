//! The steps of a scheduler: one call of its core each, without anything outside.
//!
//! Each makes its call on a state: the rule's entry is logged and the answer tells it, or the step is refused
//! and nothing changes. An allocation is two steps, `reserve` and `settle`, with the asking of a server
//! between them, which is its driver's. So a driver holds a lock, a turn or the state itself round each step,
//! and nothing else of the scheduler is its own.
//!
//! The layers above use the six steps, `Settled`, `SchedFault`, the two functions of `allocated`, and in
//! their clauses `IsStep` with what each step tells and refuses.
#![tactic(auto)]

pub mod allocated;
pub mod fault;
pub mod settled;
pub mod step;
