//! What a client asks of the scheduler and of build servers: the URLs of the routes, the requests that are
//! written, and the calls, each begun, sent by whoever can, and resumed with its reply.
//!
//! The contract: a URL of a route is its base with the route's path, and BadBase comes exactly where the base
//! is no `http` URL; a request is the text of its parts, which URL, token and body give; what a call writes
//! is what its route reads; a resumed call answers what its reply says, and LinkFault exactly where none
//! came. A call of a client adds one row to its dialer's record, and its answer is that call resumed with
//! that row's reply.
//!
//! The layer above uses `calls::Client` and `http::Client`, `urls`, `RequestBuilder` with
//! `ReqwestRequestBuilderExt`, `AllocCall`, `StatusCall`, `SubmitCall`, `RunCall` and the calls of
//! `reports`; and of the definitions those of `Calls`, `Resumes` and `Client`.
#![tactic(auto)]

pub mod alloc_call;
mod ask;
pub mod builder;
pub mod calls;
pub mod http;
pub mod laws;
mod reply;
pub mod reports;
pub mod run_call;
mod scheduler_calls;
mod server_calls;
mod servers;
pub mod status_call;
pub mod submit_call;
pub mod urls;

pub use http_head::error;
