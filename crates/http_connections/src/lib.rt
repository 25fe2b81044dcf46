//! Connections of HTTP/1.1 (RFC 9112), as a scheduler and a build server have them alike.
//!
//! The contract: `take` takes exactly the cut of what a link has left, and it is the request that it is, or
//! none; the body of a request that its head settles is dropped as it comes. `send` writes a reply whole, all
//! of whose bytes are made before the first is written; Failed and WriteFault come only where that half's
//! count rose. `heard` says what the reply to a call says. `Tasks`
//! tells which links it gives and gets back. `BegunLink` is a link whose first bytes were read before it was
//! given to a worker.
//!
//! The rest is the system's side: `reception` has the links of one listener for all of its workers, over `lot`,
//! where each waits until its request is there (`begun`), and `queues`; `accepting` has the tasks of a worker;
//! `stream` and `asking` the limits of what is accepted and of what is asked; `start` what a start is given.
//!
//! The layers above use these, and of the definitions `IsServedBy`, `Took`, `Worked`, `Hears` and `form_of`.
#![tactic(auto)]

pub mod accepting;
mod asked;
pub mod asking;
mod begun;
pub mod begun_link;
pub mod form;
pub mod hearing;
mod lot;
pub mod queues;
pub mod reception;
mod scan;
pub mod send;
pub mod served;
pub mod start;
mod stop;
pub mod stream;
pub mod take;
pub mod tasks;
