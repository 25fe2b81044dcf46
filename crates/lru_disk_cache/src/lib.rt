//! Caches of files in a folder that may fail.
//!
//! A disk cache is seen as its disk and its folder (`specs/Store.antt`): the disk is a list of keys with
//! sizes, least recent first, under a path and within a capacity, beside its open reservations. Whatever
//! fails, each listed key has a file of its size, where the folder tells its files. Folders stand in
//! `folders`; their names are given again here.
#![tactic(auto)]

mod adding;
mod aside;
mod cache;
mod entry;
mod error;
pub mod laws;
mod moving;
mod reading;
mod reservations;

pub use cache::{LruDiskCache, place_of};
pub use entry::LruDiskCacheAddEntry;
pub use error::{Error, Result, WriteFault, io};
pub use folders::{calls, fault, folder, mem_folder, real_folder, real_lock, reliable_folder};
pub use listed_files::key::is_key;
pub use moving::written;
pub use reading::{Opened, ReadSeek};
