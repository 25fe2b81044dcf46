//! A cache of archives of toolchains, each known by its SHA-256.
//!
//! Build servers stand on it. It is seen as its archives, least recent first, and its folder
//! (`specs/Archives.antt`, `specs/Archiving.antt`). Whatever fails, each listed archive has a file of its
//! size whose SHA-256 is its id, where the folder tells its files. `Cleaned` is what its opening leaves.
#![tactic(auto)]

mod archives;
mod cleaning;
mod digest;
pub mod laws;
mod others;
mod tc_cache;

pub use archives::Archives;
pub use digest::toolchain_of;
pub use tc_cache::TcCache;
