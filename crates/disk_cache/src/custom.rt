//! Configured archives whose SHA-256 was taken.
ghost use Rattle.std.specs.Prelude.{◌≡◌};
ghost use Rattle.std.specs.Option.{option_map};
ghost use Rattle.disk_cache.specs.Custom.{taken_of, last_taken, custom_as};

use crate::config::CustomToolchain;
use dist_types::text::Text;
use dist_types::toolchain::Toolchain;

/// A configured archive whose SHA-256 was taken.
#[derive(Debug, Drop)]
pub struct Taken {
    /// The path of the compiler that it is configured for.
    pub compiler: Text,
    /// Its SHA-256.
    pub id: Toolchain,
    /// Its name, in the folder.
    pub archive: Text,
}

/// What is told of a configured archive.
#[derive(Debug, Drop)]
pub struct Custom {
    /// Its SHA-256.
    pub id: Toolchain,
    /// The compiler's path in it.
    pub inside: Text,
    /// Its name, in the folder.
    pub archive: Text,
}

/// What is told of a compiler's toolchain: its id, and of a configured archive what is told of that.
#[derive(Debug, Drop)]
pub enum Placed {
    /// An archive of the cache.
    Alone(Toolchain),
    /// A configured archive.
    Configured(Custom),
}

/// What was taken for a compiler.
pub(crate) fn taken_of<'a>(path: &str, taken: &'a [Taken]) -> Option<&'a Taken>
    ensures { option_map (λ t. t.now) result ≡ taken_of path.now taken.now }
{
    for first in taken {
        if path == first.compiler.get() {
            return Some(first);
        }
    }
    None
}

/// The last of this id that was taken.
pub(crate) fn last_taken<'a>(id: &Toolchain, taken: &'a [Taken]) -> Option<&'a Taken>
    ensures { option_map (λ t. t.now) result ≡ last_taken id.now taken.now }
{
    let mut last = None;
    for later in taken {
        if id.archive_id() == later.id.archive_id() {
            last = Some(later);
        }
    }
    last
}

/// What is told of a configured archive with that SHA-256. It takes no memory.
pub(crate) fn custom_as(id: Toolchain, custom: CustomToolchain) -> Custom
    ensures { result ≡ custom_as id custom }
{
    let CustomToolchain {
        archive,
        compiler_executable,
    } = custom;
    Custom {
        id,
        inside: compiler_executable,
        archive,
    }
}
