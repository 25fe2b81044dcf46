//! The metered cache, the disk caches, and a client's toolchains.

use disk_cache::fault::FolderFault;
use disk_cache::folder::{Folder, Found};
use disk_cache::mem_folder::MemFolder;
use disk_cache::real_folder::RealFolder;
use disk_cache::{
    Archives, ClientToolchains, CustomToolchain, DistToolchainConfig, Entries, Error, LruDiskCache,
    LruDiskCacheAddEntry, Opened, ReadSeek, Result, TcCache, ToolchainError, WriteFault,
};
use lru_metered::chain::Chain;
use lru_metered::{
    Count, CountableMeter, CountableMeterWithMeasure, InsertFault, IntoIter, Iter, LruCache,
    Memory, Meter, Steps,
};
