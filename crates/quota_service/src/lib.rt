//! A scheduler with quotas over HTTP/1.1 (RFC 9112): the serving of one connection.
//!
//! A connection is taken, answered and sent, as a scheduler's is: `route` says what a request asks, where
//! each listed client's name is its token; `step` and `answer` do it by one call of the scheduler with
//! quotas, or by two, between which a job's server is asked through a lent dialer; `connection` puts the
//! three together, and its one clause says what becomes of the link, the scheduler, the clock and the
//! dialer.
//!
//! The layer above uses `serve_quota_connection`, and of the definitions `IsReplied` and `IsDone`.
#![tactic(auto)]

mod answer;
pub mod connection;
mod full;
mod heads;
mod listed;
mod route;
mod step;
