//! The keys of the orders, and the paths that their files may have.

/// How many bytes the cache holds.
pub const CAPACITY: u64 = 20;

/// The directory of the cache in its folder.
pub const ROOT: &str = "tc";

/// An archive, which is known by the SHA-256 of its content.
#[derive(Clone, Copy, PartialEq, Eq)]
pub enum Archive {
    /// `abc`.
    Abc,
    /// No bytes.
    Nothing,
    /// Ten digits.
    Digits,
    /// Twelve bytes.
    Dozen,
    /// More than a cache holds.
    Large,
}

impl Archive {
    /// Its content.
    pub fn content(self) -> &'static str {
        match self {
            Archive::Abc => "abc",
            Archive::Nothing => "",
            Archive::Digits => "0123456789",
            Archive::Dozen => "a dozen here",
            Archive::Large => "more than twenty bytes",
        }
    }

    /// The SHA-256 of its content.
    pub fn id(self) -> &'static str {
        match self {
            Archive::Abc => "ba7816bf8f01cfea414140de5dae2223b00361a396177a9cb410ff61f20015ad",
            Archive::Nothing => "e3b0c44298fc1c149afbf4c8996fb92427ae41e4649b934ca495991b7852b855",
            Archive::Digits => "84d89877f0d4041efb6bf91a16f0248f2fd573e6af05c19f96bedb9f882f7882",
            Archive::Dozen => "abdb58e71e90ec6489a2e62e47011112e763b5d9de5de84437055e54a4a824ca",
            Archive::Large => "5694c7194da1c00b9a3f3b28e4d10d4aa6399e9320965e22e3882cf244b0c44a",
        }
    }

    /// The path of its file.
    pub fn path(self) -> &'static str {
        match self {
            Archive::Abc => {
                "tc/b/a/ba7816bf8f01cfea414140de5dae2223b00361a396177a9cb410ff61f20015ad"
            }
            Archive::Nothing => {
                "tc/e/3/e3b0c44298fc1c149afbf4c8996fb92427ae41e4649b934ca495991b7852b855"
            }
            Archive::Digits => {
                "tc/8/4/84d89877f0d4041efb6bf91a16f0248f2fd573e6af05c19f96bedb9f882f7882"
            }
            Archive::Dozen => {
                "tc/a/b/abdb58e71e90ec6489a2e62e47011112e763b5d9de5de84437055e54a4a824ca"
            }
            Archive::Large => {
                "tc/5/6/5694c7194da1c00b9a3f3b28e4d10d4aa6399e9320965e22e3882cf244b0c44a"
            }
        }
    }
}

/// A key of a disk cache or of an archive, or a text that is none.
#[derive(Clone, Copy, PartialEq, Eq)]
pub enum Key {
    /// `a`.
    First,
    /// `b/c`.
    Second,
    /// `d`.
    Third,
    /// `e/f/g`.
    Fourth,
    /// A text that leads out of its directory.
    Bad,
    /// That of an archive.
    Of(Archive),
}

impl Key {
    /// The text that a call is given; of an archive its id.
    pub fn text(self) -> &'static str {
        match self {
            Key::First => "a",
            Key::Second => "b/c",
            Key::Third => "d",
            Key::Fourth => "e/f/g",
            Key::Bad => "a/../b",
            Key::Of(archive) => archive.id(),
        }
    }

    /// The path of its file.
    pub fn path(self) -> &'static str {
        match self {
            Key::First => "tc/a",
            Key::Second => "tc/b/c",
            Key::Third => "tc/d",
            Key::Fourth => "tc/e/f/g",
            Key::Bad => "",
            Key::Of(archive) => archive.path(),
        }
    }
}

/// A file: of a key, a temporary one of a reservation or of an insert by its number, one that is too large to be listed, one outside the
/// directory of the cache, or one of a client's own.
#[derive(Clone, Copy, PartialEq, Eq)]
pub enum Place {
    /// Of a key.
    Of(Key),
    /// The temporary one of a reservation, by its number.
    Temporary(u64),
    /// The temporary one of an insert, by how many inserts failed before it.
    Inserted(u64),
    /// One that is too large to be listed.
    TooLarge,
    /// One outside the directory of the cache.
    Outside,
    /// The archive that is configured for a compiler.
    Configured,
    /// The weak map.
    Weak,
    /// The weak map, while it is written.
    Written,
    /// What was still being written when a client ended.
    Leftover,
}

impl Place {
    /// Its path.
    pub fn path(self) -> &'static str {
        match self {
            Place::Of(key) => key.path(),
            Place::Temporary(0) => "tc/.sccachetmp0",
            Place::Temporary(1) => "tc/.sccachetmp1",
            Place::Temporary(_) => "tc/.sccachetmp2",
            Place::Inserted(0) => "tc/.sccachetmp-0",
            Place::Inserted(1) => "tc/.sccachetmp-1",
            Place::Inserted(_) => "tc/.sccachetmp-2",
            Place::TooLarge => "tc/h",
            Place::Outside => "small",
            Place::Configured => "ct1",
            Place::Weak => "weak_map.json",
            Place::Written => "toolchain_tmp/weak_map.json",
            Place::Leftover => "toolchain_tmp/pkg",
        }
    }
}
