//! What a build server holds, builds and reports.
//!
//! A server is seen as its books (`specs/Books.antt`): the jobs that it holds, by rising id, and its
//! archives, least recent first, over a folder that may fail. Each call of `ServerState` meets its rule
//! over them (`specs/Rules.antt`): `assign`, `begin_submit` and `end_submit`, `begin_run`. What was
//! taken out by `begin_run` is spent by `RunHeld::build` alone, which calls the builder once where the
//! archive was read, and what that gives by `RunDone::end_run` (`specs/Builds.antt`). `assign_on`,
//! `submit_on` and `run_on` do this over any keeper, requester, builder and reader, and say what becomes
//! of each (`specs/Rows.antt`). The layers above use these, `Server` with its `keeper`, and `EchoBuilder`.
#![tactic(auto)]

pub mod archive;
pub mod echo;
pub mod fault;
pub mod keeping;
pub mod laws;
pub mod run;
pub mod server;
pub mod state;
mod store;
pub mod submit;
mod table;

pub use table::Held;
