//! The tests of lru_disk_cache: a cache of archives over each folder. Tests alone; nothing above uses this
//! crate.
#![tactic(auto)]

#[cfg(test)]
mod archives;
#[cfg(test)]
mod entries;
