//! What comes before the opening of a cache of archives: files that are none are removed.
ghost use Rattle.std.specs.Prelude.{◌≡◌, ◌≤◌, ℕ, List, if◌then◌else◌, ◌++◌, ◌∷◌, [], length, map, filter};
ghost use Rattle.std.specs.Prelude.{Some, Err, IfOk, OnOk};
ghost use Rattle.std.specs.List.{IsDistinct, list_all};
ghost use Rattle.std.specs.Map.{keys_of};
ghost use Rattle.std.specs.Str.{bytes_eq};
ghost use Rattle.dist_types.specs.Toolchain.{is_lower_hex};
ghost use Rattle.folders.specs.Files.{file_at, front, without};
ghost use Rattle.folders.specs.Held.{Holds, Became, BecameBy, Lacks};
ghost use Rattle.folders.specs.Changed.{SameAt, RemovedAt, RemovedUnder, Counts};
ghost use Rattle.toolchain_cache.specs.Archives.{is_id, archive_key};
ghost use Rattle.toolchain_cache.specs.Cleaned.{found_of, under, is_sound, Cleaned, is_archive_key};
ghost use Rattle.toolchain_cache.specs.Cleaned.{other_key, other_keys, KeepsSound, SparesSound};
ghost use Rattle.toolchain_cache.specs.Stored.{KeepsListed};

use crate::digest::id_of;
use dist_types::text::Text;
use folders::fault::FolderFault;
use folders::folder::{Folder, Found};
use lru_metered::Iter;
use std::alloc::{AllocError, Global};

/// How long the key of an archive is, in bytes: two digits, each with its `/`, and an id of 64 digits.
const KEY_LEN: usize = 68;

// The key of the archive of an id.
#[tactic(auto, unfolding(crate::specs::Archives::archive_key))]
fn key_bytes(alloc: Global, id: &[u8]) -> Result<Vec<u8>, AllocError>
    requires { 2 ≤ length id.now }
    ensures key { IfOk result (λ v. v.items ≡ archive_key id.now) }
{
    let mut key = Vec::from_slice(alloc, &id[..1])?;
    key.push(b'/')?;
    key.extend_from_slice(&id[1..2])?;
    key.push(b'/')?;
    key.extend_from_slice(id)?;
    Ok(key)
}

// Whether a path is that of the archive of an id under a root.
fn is_at(root: &Text, path: &Text, id: &[u8; 64]) -> Result<bool, AllocError>
    ensures at { IfOk result (λ b. b ≡ bytes_eq path.now (root.now ++ archive_key id.now)) }
{
    let key = key_bytes(root.alloc(), id)?;
    let mut whole = Vec::from_slice(root.alloc(), root.get().as_bytes())?;
    whole.extend_from_slice(&key)?;
    Ok(path.get().as_bytes() == whole.as_slice())
}

// Whether a file that was found is within the capacity and stands where its SHA-256 says. One whose path is
// too long or too short for an archive is not read.
fn is_sound<F: Folder>(
    folder: &mut F,
    root: &Text,
    capacity: u64,
    file: &Found,
) -> Result<bool, FolderFault>
    requires { Holds (F.held folder.old) (λ files. ¬ (Lacks file.now.path files)) }
    ensures sound { IfOk result
        (λ b. Holds (F.held folder.old) (λ files. (bytes : List ℕ) → file_at files file.now.path ≡ Some bytes
        → file.now.size ≡ length bytes → b ≡ is_sound root.now capacity (file.now.path, bytes))) }
    ensures same { OnOk result ((F.held folder.new).files ≡ (F.held folder.old).files) }
    ensures kept { Became SameAt (F.held folder.old).files (F.held folder.new).files }
    ensures counts { Counts result (F.held folder.old) (F.held folder.new) }
{
    if file.size > capacity {
        return Ok(false);
    }
    if file.path.get().len() != root.get().len() + KEY_LEN {
        return Ok(false);
    }
    let bytes = folder.read(file.path.get())?;
    let sound = is_at(root, &file.path, &id_of(&bytes))?;
    Ok(sound)
}

// Removes a file. One that is missing already is no fault.
fn discard<F: Folder>(folder: &mut F, path: &Text) -> Result<(), FolderFault>
    ensures found { ¬ (result ≡ Err FolderFault.Missing) }
    ensures exact { OnOk result (Became (λ old new. new ≡ without path.now old) (F.held folder.old).files
        (F.held folder.new).files) }
    ensures part { Became (RemovedAt path.now) (F.held folder.old).files (F.held folder.new).files }
    ensures counts { Counts result (F.held folder.old) (F.held folder.new) }
{
    match folder.remove(path.get()) {
        Ok(()) => Ok(()),
        Err(FolderFault::Missing) => Ok(()),
        Err(FolderFault::Failed) => Err(FolderFault::Failed),
        Err(FolderFault::Memory) => Err(FolderFault::Memory),
    }
}

// Removes a file that was found, unless it is sound.
#[tactic(auto, using(folders::proofs::Removals::same_part_at, crate::proofs::Sparing::same_spares))]
fn clean_one<F: Folder>(
    folder: &mut F,
    root: &Text,
    capacity: u64,
    file: &Found,
) -> Result<(), FolderFault>
    requires { Holds (F.held folder.old) (λ files. ¬ (Lacks file.now.path files)) }
    ensures cleaned { OnOk result
        (Became (λ old new. (bytes : List ℕ) → file_at old file.now.path ≡ Some bytes
        → file.now.size ≡ length bytes → new ≡ (if is_sound root.now capacity (file.now.path, bytes) then old
        else without file.now.path old)) (F.held folder.old).files (F.held folder.new).files) }
    ensures part { Became (RemovedAt file.now.path) (F.held folder.old).files (F.held folder.new).files }
    ensures spares { Became (SparesSound root.now capacity file.now) (F.held folder.old).files
        (F.held folder.new).files }
    ensures counts { Counts result (F.held folder.old) (F.held folder.new) }
{
    if is_sound(folder, root, capacity, file)? {
        return Ok(());
    }
    discard(folder, &file.path)
}

// Removes of all files that were found those that are not sound.
fn clean_all<F: Folder>(
    folder: &mut F,
    root: &Text,
    capacity: u64,
    found: &[Found],
) -> Result<(), FolderFault>
    requires found { Holds (F.held folder.old) (λ files. found.now ≡ map found_of (under root.now files)) }
    requires distinct { Holds (F.held folder.old) (λ files. IsDistinct bytes_eq (keys_of files)) }
    ensures cleaned { OnOk result (Became (Cleaned root.now capacity) (F.held folder.old).files
        (F.held folder.new).files) }
    ensures spares { Became (RemovedUnder root.now) (F.held folder.old).files (F.held folder.new).files }
    ensures sound { Became (KeepsSound root.now capacity) (F.held folder.old).files
        (F.held folder.new).files }
    ensures counts { Counts result (F.held folder.old) (F.held folder.new) }
{
    for file in found {
        clean_one(folder, root, capacity, file)?;
    }
    Ok(())
}

/// Removes the files below a path that are larger than the capacity or do not stand where their SHA-256 says.
/// Whether that succeeds or not, each archive that an opening would list keeps its file.
pub(crate) fn clean<F: Folder>(
    folder: &mut F,
    path: &Text,
    root: &Text,
    capacity: u64,
) -> Result<(), FolderFault>
    requires { root.now ≡ front path.now }
    ensures cleaned { OnOk result (Became (Cleaned root.now capacity) (F.held folder.old).files
        (F.held folder.new).files) }
    ensures spares { Became (RemovedUnder root.now) (F.held folder.old).files (F.held folder.new).files }
    ensures spared { Became (KeepsListed path.now capacity) (F.held folder.old).files
        (F.held folder.new).files }
    ensures counts { Counts result (F.held folder.old) (F.held folder.new) }
{
    let found = folder.list(path.get())?;
    clean_all(folder, root, capacity, &found)
}

// Whether the bytes are an id.
fn is_id(id: &[u8]) -> bool
    ensures { result ≡ is_id id.now }
{
    id.len() == 64 && all_lower_hex(id)
}

// Whether all bytes are hex digits in lower case.
fn all_lower_hex(id: &[u8]) -> bool
    ensures { result ≡ list_all is_lower_hex id.now }
{
    id.iter().all(|b| is_lower_hex(*b))
}

// Whether it is a hex digit in lower case.
fn is_lower_hex(b: u8) -> bool
    ensures { result ≡ is_lower_hex b }
{
    b.is_ascii_digit() || (b'a'..=b'f').contains(&b)
}

/// Whether it is the key of an archive.
fn is_archive_key(alloc: Global, key: &str) -> Result<bool, AllocError>
    ensures { IfOk result (λ b. b ≡ is_archive_key key.now) }
{
    let bytes = key.as_bytes();
    if bytes.len() != KEY_LEN {
        return Ok(false);
    }
    let id = &bytes[4..];
    if !is_id(id) {
        return Ok(false);
    }
    let whole = key_bytes(alloc, id)?;
    Ok(bytes == whole.as_slice())
}

// One more key, if it is no archive's.
fn push_other(alloc: Global, others: &mut Vec<Text>, key: &Text) -> Result<(), AllocError>
    ensures { OnOk result (others.new.items ≡ others.old.items ++ other_key key.now) }
{
    if !is_archive_key(alloc, key.get())? {
        let copy = key.copy(alloc)?;
        others.push(copy)?;
    }
    Ok(())
}

/// The keys that are no archive's, in their order.
pub(crate) fn other_keys(
    alloc: Global,
    entries: Iter<'_, Text, u64>,
) -> Result<Vec<Text>, AllocError>
    ensures { IfOk result (λ v. v.items ≡ other_keys entries.entry) }
{
    let mut others = Vec::new(alloc);
    for (key, _size) in entries {
        push_other(alloc, &mut others, key)?;
    }
    Ok(others)
}
