//! Generated orders of calls on a disk cache, a cache of archives and a client's toolchains, beside a plain model
//! of each: a list of keys, files by path, and what is recorded.
//! Tests alone; nothing above uses this crate. What compares, and the plain folder, stand outside the tests, so
//! that edits of them are tried.
#![tactic(auto)]

pub mod answers;
#[cfg(test)]
mod archive_calls;
#[cfg(test)]
mod calls;
#[cfg(test)]
mod client_calls;
#[cfg(test)]
mod compare;
#[cfg(test)]
mod entries;
pub mod names;
#[cfg(test)]
mod orders;
#[cfg(test)]
mod plain_archives;
#[cfg(test)]
mod plain_cache;
#[cfg(test)]
mod plain_client;
pub mod plain_folder;
#[cfg(test)]
mod runs;
