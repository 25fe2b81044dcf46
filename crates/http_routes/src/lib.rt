//! The routes of the scheduler and of the build servers over HTTP/1.1 (RFC 9112): what requests ask, what
//! they are replied, and the calls between the two.
//!
//! The contract: bytes ask one thing at most of the scheduler by its rules (`asked_under`) and of a server
//! (`server_asked`), and each refusal comes exactly where its test says, in the tests' order; the bytes of a
//! reply are its text, and its reader sees the code, the fields and the body that were meant; a reply to a
//! call says one thing; what is written for a call is what its route reads. Want of memory is the one other
//! answer.
//!
//! The layer above uses `scheduler_route`, `asked_of_checks`, `asked_under`, `server_route`, `server_asked`,
//! the replies of `replies`, `Response::bytes`, the requests of `written`, `assigned` and `answer`; and of
//! the definitions `IsAskedUnder`, `IsRouted`, `IsServerAsked`, those of `Replies`, `fault_response_of`,
//! `reply_text`, `IsAssigned` and `IsAnswer`.
#![tactic(auto)]

pub mod admission;
pub mod asked;
pub mod builder;
pub mod call_reply;
pub mod err_json;
pub mod error;
pub mod fault;
pub mod kind;
pub mod laws;
mod message;
mod place;
pub mod refusal;
pub mod replies;
pub mod reply;
pub mod requests;
pub mod route;
mod run_head;
mod sender;
pub mod server_route;
pub mod settled;

pub use http_head::{head, request};
