//! The MAC of RFC 2104, the tokens of jobs and build servers, and the checks that accept or refuse them.
//!
//! The contract: a token is three texts in base64url, the header, the claims and the MAC of the first two
//! under a key. Every check accepts exactly the tokens of that definition, and refuses any other by the
//! first test that it fails, in one order. What is made is accepted, for every key, job and server.
//! The layers above use `JWTJobAuthorizer`, the functions on server tokens, and the two traits of checks.
#![tactic(auto)]

pub mod checks;
pub mod job_token;
mod kept;
pub mod laws;
pub mod mac;
mod parts;
pub mod proxy;
mod rounds;
pub mod server_token;
pub mod signing_key;
mod token;
mod verdict;
