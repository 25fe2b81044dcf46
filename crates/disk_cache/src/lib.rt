//! The caches of archives, for build servers and for clients.
//!
//! Folders stand in `folders`, disk caches in `lru_disk_cache`, and the cache of archives known by their
//! SHA-256, which build servers take as it is, in `toolchain_cache`; their names are given again here. Here
//! stand the toolchains of a client.
//!
//! The contract: a client's toolchains are seen as one record, `Toolchains`: its archives, the weak map, what
//! is configured, the configured archives whose SHA-256 was taken, and what the folder tells. Each call
//! answers and leaves what its relation says of it, by `Gets`, `TellsCustom` and `Puts`; and whatever failed,
//! each listed archive has its file, and the file of the weak map is one (`IsClient`). The layers above use
//! `ClientToolchains`, what it is configured with, and its error.
#![tactic(auto)]

mod client_toolchains;
pub mod config;
pub mod custom;
mod emptied;
pub mod names;
pub mod toolchain_error;
mod weak_file;
pub mod weak_map;

pub use client_toolchains::ClientToolchains;
pub use config::{CustomToolchain, DistToolchainConfig};
use dist_types::text::Text;
pub use folders::{fault, folder, mem_folder, real_folder, reliable_folder};
pub use lru_disk_cache::{
    Error, LruDiskCache, LruDiskCacheAddEntry, Opened, ReadSeek, Result, WriteFault, is_key,
};
use lru_metered::Iter;
pub use toolchain_cache::{Archives, TcCache};
pub use toolchain_error::ToolchainError;

/// The keys of a disk cache with their sizes in bytes, least recent first.
pub type Entries<'a> = Iter<'a, Text, u64>;
