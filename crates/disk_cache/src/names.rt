//! The paths of the files of a client's toolchains.
ghost use Rattle.std.specs.Prelude.{◌≡◌, ◌++◌, IfOk};
ghost use Rattle.folders.specs.Files.{front};
ghost use Rattle.disk_cache.specs.Names.{AreNames};

use dist_types::text::Text;
use std::alloc::{AllocError, Global};

/// The path that a client's files lie below, and the paths of its own.
#[derive(Debug, Drop)]
pub struct Names {
    /// The path that it is opened with.
    pub dir: Text,
    /// The cache of archives.
    pub cache: Text,
    /// The weak map.
    pub weak: Text,
    /// What is still being written.
    pub temp_dir: Text,
    /// The weak map, while it is written.
    pub temp: Text,
}

/// A name below a path, which is empty or a directory's.
fn below(alloc: Global, dir: &str, name: &str) -> Result<Text, AllocError>
    ensures { IfOk result (λ t. t ≡ front dir.now ++ name.now) }
{
    if dir.is_empty() {
        return Text::of(alloc, name);
    }
    let mut path = String::from_str(alloc, dir)?;
    path.push_str("/")?;
    path.push_str(name)?;
    Ok(Text::new(path))
}

/// The paths below a path. Refused for want of memory alone.
pub(crate) fn names_of(alloc: Global, dir: &str) -> Result<Names, AllocError>
    ensures dir { IfOk result (λ n. n.dir ≡ dir.now) }
    ensures names { IfOk result AreNames }
{
    let cache = below(alloc, dir, "tc")?;
    let weak = below(alloc, dir, "weak_map.json")?;
    let temp_dir = below(alloc, dir, "toolchain_tmp")?;
    let temp = below(alloc, dir, "toolchain_tmp/weak_map.json")?;
    let dir = Text::of(alloc, dir)?;
    Ok(Names {
        dir,
        cache,
        weak,
        temp_dir,
        temp,
    })
}
