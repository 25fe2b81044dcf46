//! A build server over HTTP/1.1 (RFC 9112): its connections, its workers, its heartbeat and its listener.
//!
//! A connection is taken, answered and sent, each by a function: `route` says what is asked, `answer` does it
//! by one call over a keeper, a builder and a requester on a lent dialer (`telling`), and `connection` puts
//! the three together: its one clause says what becomes of the link, the keeper, the dialer and the builder.
//! `workers` runs one worker for each kit in a thread of its own, over a server that is shared. `heartbeat`
//! is one heartbeat, and how long to wait behind it; `run_server` is the system's side. `laws` says that a
//! connection's answer is one, whatever a link does.
//!
//! The layers above use `serve_server_connection`, `serve_server_workers`, `BuildKit`, `beat_and_wait`
//! and `serve_server`, and of the definitions `IsReplied`, `IsDone` and `IsToldOf`.
#![tactic(auto)]

mod answer;
pub mod body;
pub mod connection;
mod heads;
pub mod heartbeat;
pub mod laws;
mod peer;
pub mod route;
pub mod run_server;
pub mod telling;
pub mod workers;
