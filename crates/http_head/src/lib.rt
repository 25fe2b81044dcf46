//! HTTP/1.1 (RFC 9112) heads: how a request and a reply are read, how a request is written, and how far a
//! connection is read for one.
//!
//! The contract: bytes are one request at most, and `read_head` answers it exactly where they are one; of
//! replies `read_reply_head` alike, `lent_reply` their status and body, and `status_of` their status alone.
//! `WrittenRequest::bytes` gives the text of a written request, and the law `requests_read_back` says that a
//! sendable one is read with exactly its method, target, token, content type and body. Bytes have one stop
//! and one cut. Want of memory is the one other answer.
//!
//! The layers above use all of the modules, and of the definitions `IsRequest`, `IsReply`, `HasStatus`,
//! `header`, `token_in`, `request_text`, `IsSendable`, `Carries`, `stop_of` and `IsCut`.
#![tactic(auto)]

pub mod bearer;
pub mod error;
pub mod field;
pub mod fields;
pub mod head;
pub mod laws;
pub mod lent_reply;
mod message;
pub mod opening;
pub mod reply;
pub mod request;
pub mod word;
pub mod written_request;
