//! Files of a folder that are listed under keys.
//!
//! A list of keys with sizes, least recent first, stands over the files of a folder: each listed key has a
//! file of its size, where the folder tells its files. Here are the keys, the list, and the steps that change
//! list and folder together: an opening, a store, and what is dropped. `lru_disk_cache` makes its cache of
//! them.
#![tactic(auto)]

pub mod key;
pub mod opening;
pub mod storing;
pub mod table;
