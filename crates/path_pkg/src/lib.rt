//! Paths and packages: paths as they are sent and as they are read again, paths made simple, and packages of
//! a tree's directories, files and links, written as a framed list.
//!
//! The contract: a path is mapped, made simple or packed exactly as the definitions of `specs/` say of its
//! text and of what a tree tells that it holds, and is refused exactly where they say, in their order; a tree
//! or a sink fails a call only where its count rose; a refused call adds nothing; what is written is the one
//! framed list of what was added, and after a fault a front of it. The layers above use the transformers, the
//! packagers' traits and the builder.
#![tactic(auto)]

mod collect;
pub mod fault;
pub mod framed;
pub mod laws;
mod link_lookup;
pub mod listed_calls;
pub mod mem_packager;
pub mod mem_tree;
pub mod node;
pub mod package;
pub mod packagers;
mod path;
mod place;
mod plain_tree;
pub mod real_tree;
pub mod record;
pub mod recorded;
pub mod simplify;
mod sorted;
pub mod tree;
pub mod unix;
mod win_path;
pub mod windows;
mod write;
