//! An archive with its digest.
ghost use Rattle.std.specs.Prelude.{◌≡◌};
ghost use Rattle.std.specs.Str.{bytes_eq};
ghost use Rattle.toolchain_cache.specs.Archives.{id_of};

use dist_types::toolchain::Toolchain;
use std::marker::Model;
use toolchain_cache::toolchain_of;

/// The bytes of an archive, and the toolchain whose archive they are: its id is their SHA-256. Contracts see it
/// as the bytes. A store under the server's lock goes on over it, so that nothing is hashed there.
#[derive(Debug, Drop)]
pub struct HashedArchive<'a> {
    bytes: &'a [u8],
    toolchain: Toolchain,
}

impl<'a> Model for HashedArchive<'a> {
    ghost use Rattle.std.specs.Prelude.{◌≡◌, List, ℕ};
    ghost use Rattle.toolchain_cache.specs.Archives.{id_of};

    ghost Value = { List ℕ };

    ghost view = { λ a. a.bytes.now };

    ghost invariant = { λ a. a.toolchain ≡ id_of a.bytes.now };
}

impl<'a> HashedArchive<'a> {
    /// Hashes the bytes, once. It takes no memory and copies none.
    pub fn of(bytes: &'a [u8]) -> Self
        ensures bytes { result ≡ bytes.now }
    {
        HashedArchive {
            bytes,
            toolchain: toolchain_of(bytes),
        }
    }

    /// The bytes.
    pub fn bytes(&self) -> &[u8]
        ensures bytes { result.now ≡ self.now }
    {
        self.bytes
    }

    /// The toolchain whose archive they are.
    pub fn toolchain(&self) -> Toolchain
        ensures id { result ≡ id_of self.now }
    {
        self.toolchain
    }

    /// Whether they are the archive of that toolchain.
    pub fn is_of(&self, tc: &Toolchain) -> bool
        ensures digest { result ≡ bytes_eq (id_of self.now) tc.now }
    {
        self.toolchain.archive_id() == tc.archive_id()
    }
}
