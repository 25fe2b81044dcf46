//! Lists of files, least recent first.
ghost use Rattle.std.specs.Prelude.{◌≡◌, ◌≤◌, ◌<◌, ◌++◌, ◌∷◌, [], IfOk, OnOk, OnErr, vec_len, vec_capacity};
ghost use Rattle.std.specs.Option.{option_copied};
ghost use Rattle.folders.specs.Files.{file_at, put, without, found_behind};

use crate::folder::Found;
use dist_types::text::{Bytes, Text};
use std::alloc::{AllocError, Global};

// The content of the file at a path.
pub(crate) fn content<'a>(files: &'a [(Text, Bytes)], path: &str) -> Option<&'a [u8]>
    ensures { option_copied result ≡ file_at files.now path.now }
{
    for (here, bytes) in files {
        if path == here.get() {
            return Some(bytes.get());
        }
    }
    None
}

// Takes out the file at a path.
pub(crate) fn take_out(files: &mut Vec<(Text, Bytes)>, path: &str)
    ensures files { files.new.items ≡ without path.now files.old.items }
    ensures len { vec_len files.new ≤ vec_len files.old }
    ensures capacity { vec_capacity files.new ≡ vec_capacity files.old }
{
    files.retain(|file| path != file.0.get());
}

// The file goes last, in the place of one at its path. There is room for one more.
pub(crate) fn put_last(files: &mut Vec<(Text, Bytes)>, path: Text, bytes: Bytes)
    requires { vec_len files.old < vec_capacity files.old }
    ensures { files.new.items ≡ put path bytes files.old.items }
{
    take_out(files, path.get());
    match files.push((path, bytes)) {
        Ok(()) => {}
        Err(_) => unreachable!(),
    }
}

// Puts a file at a path, in the place of the one that was there.
pub(crate) fn put(
    alloc: Global,
    files: &mut Vec<(Text, Bytes)>,
    path: &str,
    bytes: &[u8],
) -> Result<(), AllocError>
    ensures ok { OnOk result (files.new.items ≡ put path.now bytes.now files.old.items) }
    ensures err { OnErr result (files.new.items ≡ files.old.items) }
{
    let path = Text::of(alloc, path)?;
    let bytes = Bytes::from_slice(alloc, bytes)?;
    files.reserve(1)?;
    put_last(files, path, bytes);
    Ok(())
}

// Puts a file at a path, in the place of the one that was there, once the one of another path is out.
pub(crate) fn put_from(
    alloc: Global,
    files: &mut Vec<(Text, Bytes)>,
    from: &str,
    path: &str,
    bytes: Bytes,
) -> Result<(), AllocError>
    ensures ok { OnOk result (files.new.items ≡ put path.now bytes (without from.now files.old.items)) }
    ensures err { OnErr result (files.new.items ≡ files.old.items) }
{
    let path = Text::of(alloc, path)?;
    files.reserve(1)?;
    take_out(files, from);
    put_last(files, path, bytes);
    Ok(())
}

// One more file that was found, if its path begins so.
fn push_found(
    alloc: Global,
    found: &mut Vec<Found>,
    begun: &str,
    path: &str,
    bytes: &[u8],
) -> Result<(), AllocError>
    ensures { OnOk result (found.new.items ≡ found.old.items ++ found_behind begun.now
        ((path.now, bytes.now) ∷ [])) }
{
    if path.as_bytes().starts_with(begun.as_bytes()) {
        let path = Text::of(alloc, path)?;
        found.push(Found {
            path,
            size: bytes.len() as u64,
        })?;
    }
    Ok(())
}

// The files whose paths begin so.
pub(crate) fn find(
    alloc: Global,
    files: &[(Text, Bytes)],
    begun: &str,
) -> Result<Vec<Found>, AllocError>
    ensures { IfOk result (λ v. v.items ≡ found_behind begun.now files.now) }
{
    let mut found = Vec::new(alloc);
    for (path, bytes) in files {
        push_found(alloc, &mut found, begun, path.get(), bytes.get())?;
    }
    Ok(found)
}

// Some bytes behind others.
pub(crate) fn joined_bytes(alloc: Global, first: &[u8], second: &[u8]) -> Result<Bytes, AllocError>
    ensures { IfOk result (λ b. b ≡ first.now ++ second.now) }
{
    let mut inner = Vec::from_slice(alloc, first)?;
    inner.extend_from_slice(second)?;
    Ok(Bytes::new(inner))
}
