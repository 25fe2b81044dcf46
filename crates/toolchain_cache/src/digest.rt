//! The SHA-256 of archives, and their keys.
ghost use Rattle.std.specs.Prelude.{◌≡◌, true, IfOk};
ghost use Rattle.std.specs.Str.{bytes_eq};
ghost use Rattle.toolchain_cache.specs.Archives.{id_of, is_id, archive_key};

use dist_types::text::Text;
use dist_types::toolchain::Toolchain;
use sha2::{Digest, Sha256};
use std::alloc::{AllocError, Global};

/// The SHA-256 (FIPS 180-4) of bytes, in lower-case hex. It takes no memory.
#[tactic(auto, unfolding(crate::specs::Archives::id_of))]
pub(crate) fn id_of(bytes: &[u8]) -> [u8; 64]
    ensures { result ≡ id_of bytes.now }
{
    let mut digits = [0u8; 64];
    match hex::encode_to_slice(Sha256::digest(bytes), &mut digits) {
        Ok(()) => digits,
        Err(_) => unreachable!(),
    }
}

/// Whether the SHA-256 of bytes is the id of a toolchain. It takes no memory.
pub(crate) fn is_archive(tc: &Toolchain, bytes: &[u8]) -> bool
    ensures { result ≡ bytes_eq (id_of bytes.now) tc.now }
{
    let digits = id_of(bytes);
    digits.as_slice() == tc.archive_id().as_bytes()
}

/// The key of the archive of a toolchain: its first digit, `/`, its second digit, `/` and its id.
#[tactic(auto, unfolding(crate::specs::Archives::archive_key))]
pub(crate) fn key_of(alloc: Global, tc: &Toolchain) -> Result<Text, AllocError>
    ensures key { IfOk result (λ t. t ≡ archive_key tc.now) }
    ensures id { is_id tc.now ≡ true }
{
    let id = tc.archive_id();
    let key = format!(in alloc; "{}/{}/{id}", &id[..1], &id[1..2])?;
    Ok(Text::new(key))
}

/// The toolchain whose archive bytes are: their SHA-256 is its id. It takes no memory.
pub fn toolchain_of(bytes: &[u8]) -> Toolchain
    ensures { result ≡ id_of bytes.now }
{
    let digits = id_of(bytes);
    let Ok(text) = str::from_utf8(&digits) else {
        unreachable!();
    };
    match Toolchain::new(text) {
        Ok(tc) => tc,
        Err(_) => unreachable!(),
    }
}
