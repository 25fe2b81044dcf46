//! Folders that may fail.
//!
//! A folder is seen as what it tells (`specs/Held.antt`): its files in order of recency, where it tells
//! them, and its count of faults. Each call that changes a folder says what it does and what a fault may
//! leave of it, by one relation, `Changes`. `MemFolder` is the folder in memory whose numbered calls fail,
//! `ReliableFolder` the one that never fails, and `RealFolder` that of the system.
#![tactic(auto)]

pub mod calls;
pub mod failure_counts;
pub mod fault;
pub mod folder;
pub mod mem_folder;
pub mod paths;
mod real_calls;
pub mod real_folder;
pub mod real_lock;
mod real_order;
pub mod reliable_folder;
mod rows;
