//! What every layer shares: lists that contracts see as such, addresses, ids and results, and the
//! outside, which is what is read and written, each with its count of faults.
//!
//! The contract: a text says an address exactly where the grammar of addresses says so; a call to the
//! outside tells what it took or added, and fails only where its count of faults rose.
//! The layers above use the types, the texts both ways, and the meanings of the traits.
#![tactic(auto)]

pub mod addr;
pub mod builder;
pub mod cache_error;
pub mod clock;
pub mod command;
pub mod dialer;
pub mod fault;
pub mod folder_fault;
pub mod ids;
pub mod keys;
pub mod link;
pub mod outgoing;
pub mod output;
pub mod readers;
pub mod results;
pub mod roles;
pub mod rules;
pub mod sink;
pub mod source;
pub mod tcp;
pub mod text;
mod text_key;
pub mod token_error;
pub mod toolchain;
pub mod toolchain_error;
pub mod try_clone;
pub mod type_error;
