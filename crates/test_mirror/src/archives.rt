//! The archives of a folder.
use crate::stopped::Stopped;
use folders::real_folder::RealFolder;
use std::fs;
use toolchain_cache::TcCache;

/// Where in its folder a side keeps its archives.
const CACHE_PATH: &str = "tc";

/// The most bytes of a side's archives.
const CACHE_BYTES: u64 = 4_294_967_296;

/// The archives of one side, over a folder of the system that is held while they live.
pub type Archives = TcCache<RealFolder<HostRuntime>>;

/// The archives that stand in a folder, which is made where there is none.
pub fn archives_in(rt: HostRuntime, folder: &str) -> Result<Archives, Stopped> {
    let held = RealFolder::open(rt, folder)?;
    match TcCache::new(rt.alloc(), held, CACHE_PATH, CACHE_BYTES) {
        Ok(archives) => Ok(archives),
        Err(_) => Err(Stopped::System),
    }
}

/// Stores files as the archives that they are, and writes the id of each.
pub fn put_all(rt: HostRuntime, archives: &mut Archives, files: &[String]) -> Result<(), Stopped> {
    for file in files {
        let bytes = fs::read(&rt, file)?;
        match archives.insert_package(&bytes) {
            Ok(tc) => println!(rt; "put {}", tc.archive_id())?,
            Err(_) => return Err(Stopped::System),
        }
    }
    Ok(())
}

/// Writes the id and the length of each archive, the least recent first.
pub fn list_all(rt: HostRuntime, archives: &Archives) -> Result<(), Stopped> {
    for (tc, len) in archives.archives() {
        println!(rt; "{} {len}", tc.archive_id())?;
    }
    Ok(())
}
