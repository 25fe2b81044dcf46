//! Framed lists: the bytes of a record.
ghost use Rattle.std.specs.Prelude.{◌≡◌, ◌++◌, ◌∷◌, [], ◌<◌, ◌^◌, List, ℕ, length, IfOk, OnOk};
ghost use Rattle.path_pkg.specs.Framed.{path_bytes, frame_bytes};
ghost use Rattle.path_pkg.specs.Framed.Frame.{DirFrame, FileFrame, LinkFrame};

use std::alloc::{AllocError, Global};

/// The letter of a directory.
pub const DIRECTORY: u8 = 0x44;

/// The letter of a file.
pub const FILE: u8 = 0x46;

/// The letter of a link.
pub const LINK: u8 = 0x4c;

/// The byte at the end.
pub const END: u8 = 0x45;

/// Adds the length of a path and the path.
#[tactic(auto, unfolding(crate::specs::Framed::path_bytes))]
fn put_path(out: &mut Vec<u8>, path: &[u8]) -> Result<(), AllocError>
    requires { length path.now < 2 ^ 32 }
    ensures { OnOk result (out.new.items ≡ out.old.items ++ path_bytes path.now) }
{
    let len = path.len() as u32;
    out.extend_from_slice(&len.to_be_bytes())?;
    out.extend_from_slice(path)?;
    Ok(())
}

/// The record of a directory.
pub(crate) fn dir_frame(alloc: Global, path: &[u8]) -> Result<Vec<u8>, AllocError>
    requires { length path.now < 2 ^ 32 }
    ensures { IfOk result (λ v. v.items ≡ frame_bytes (DirFrame path.now)) }
{
    let mut out = Vec::new(alloc);
    out.push(DIRECTORY)?;
    put_path(&mut out, path)?;
    Ok(out)
}

/// The record of a link.
pub(crate) fn link_frame(alloc: Global, path: &[u8], target: &[u8]) -> Result<Vec<u8>, AllocError>
    requires path { length path.now < 2 ^ 32 }
    requires target { length target.now < 2 ^ 32 }
    ensures { IfOk result (λ v. v.items ≡ frame_bytes (LinkFrame path.now target.now)) }
{
    let mut out = Vec::new(alloc);
    out.push(LINK)?;
    put_path(&mut out, path)?;
    put_path(&mut out, target)?;
    Ok(out)
}

/// The record of a file, up to its content.
#[tactic(auto, using(crate::proofs::FrameLemmas::file_frame))]
pub(crate) fn file_head(alloc: Global, path: &[u8], content: &[u8]) -> Result<Vec<u8>, AllocError>
    requires { length path.now < 2 ^ 32 }
    ensures { IfOk result (λ v. v.items ++ content.now ≡ frame_bytes (FileFrame path.now content.now)) }
{
    let mut out = Vec::new(alloc);
    out.push(FILE)?;
    put_path(&mut out, path)?;
    let size = content.len() as u64;
    out.extend_from_slice(&size.to_be_bytes())?;
    Ok(out)
}
