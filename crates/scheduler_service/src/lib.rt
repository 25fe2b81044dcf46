//! A scheduler over HTTP/1.1 (RFC 9112): its connections, its workers and its listener.
//!
//! A connection is taken, answered and sent, each by a function: `route` and `answer` do what is asked by one
//! call of the scheduler, over a requester on a lent dialer; `connection` puts the three together, and its
//! one clause says what becomes of the link, the pass, the clock, the dialer and the check of clients.
//! `workers` runs one worker for each kit in a thread of its own. `checks` and `run_scheduler` are the
//! system's side.
//!
//! The layers above use `serve_scheduler_connection`, `serve_scheduler_kits`, `serve_scheduler_workers`,
//! `Kit` and `serve_scheduler`, and of the definitions `IsReplied` and `IsDoneAt`, by which a reply is read
//! off the entries at the pass's own places; `laws` says that two connections that meet the same have one
//! answer.
#![tactic(auto)]

pub mod answer;
pub mod asking;
pub mod checks;
pub mod connection;
mod heads;
mod host;
pub mod laws;
pub mod route;
pub mod run_scheduler;
pub mod workers;
