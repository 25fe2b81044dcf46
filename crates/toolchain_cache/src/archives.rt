//! The archives of a cache, one after the other.
ghost use Rattle.std.specs.Prelude.{◌≡◌, length, drop};
ghost use Rattle.std.specs.Iterator.{YieldsFirst, item_count};
ghost use Rattle.std.specs.Str.{bytes_eq};
ghost use Rattle.toolchain_cache.specs.Keyed.{id_in, unkeyed, IsArchiveKey, AllArchiveKeys};

use dist_types::text::Text;
use dist_types::toolchain::Toolchain;
use lru_metered::Iter;
use std::marker::Model;

/// The toolchains of archives with their sizes in bytes, least recent first. Contracts see it as the list
/// of those that are still to come.
#[derive(Drop)]
pub struct Archives<'a> {
    entries: Iter<'a, Text, u64>,
}

impl<'a> Model for Archives<'a> {
    ghost use Rattle.std.specs.Prelude.{ℕ, List};
    ghost use Rattle.toolchain_cache.specs.Keyed.{unkeyed, AllArchiveKeys};

    ghost Value = { List (List ℕ × ℕ) };

    ghost view = { λ a. unkeyed a.entries };

    ghost invariant = { λ a. AllArchiveKeys a.entries };
}

impl<'a> Archives<'a> {
    /// The archives of keys with sizes.
    pub(crate) fn of(entries: Iter<'a, Text, u64>) -> Self
        requires { AllArchiveKeys entries }
        ensures rest { result ≡ unkeyed entries.entry }
    {
        Archives { entries }
    }
}

impl<'a> Iterator for Archives<'a> {
    type Item = (Toolchain, u64);

    ghost next_gives = { YieldsFirst (λ s. s) };

    ghost remaining = { item_count (λ s. s) };

    fn next(&mut self) -> Option<(Toolchain, u64)> {
        let (key, size) = self.entries.next()?;
        Some((toolchain_of(key), *size))
    }
}

/// Whether the key of an archive names that id.
pub(crate) fn is_key_of(key: &Text, id: &[u8]) -> bool
    requires { IsArchiveKey key.now }
    ensures { result ≡ bytes_eq id.now (id_in key.now) }
{
    id == &key.get().as_bytes()[4..]
}

// The toolchain that the key of an archive names.
fn toolchain_of(key: &Text) -> Toolchain
    requires { IsArchiveKey key.now }
    ensures { result ≡ id_in key.now }
{
    let id = &key.get().as_bytes()[4..];
    let Ok(text) = str::from_utf8(id) else {
        unreachable!();
    };
    match Toolchain::new(text) {
        Ok(tc) => tc,
        Err(_) => unreachable!(),
    }
}
