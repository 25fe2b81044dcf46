//! The text that a path of Windows is sent as.
ghost use Rattle.std.specs.Prelude.{◌≡◌, ◌++◌, ◌∷◌, [], slice_index, drop, ◌<◌, ◌+◌, true, filter, IfOk};
ghost use Rattle.std.specs.Prelude.{OnOk, not, ◌==◌, ◌&&◌, string_bytes};
ghost use Rattle.std.specs.List.{slice_split, flat_map};
ghost use Rattle.std.specs.Option.{option_map};
ghost use Rattle.std.specs.Str.{bytes_eq};
ghost use Rattle.path_pkg.specs.Windows.{is_separator, is_plain, is_verbatim, is_barred, is_full, parts_of};
ghost use Rattle.path_pkg.specs.Windows.{verbatim_parts, without_dots, after_first, disk_text, on_disk};
ghost use Rattle.path_pkg.specs.Windows.{abs_text, any_text};
ghost use Rattle.path_pkg.specs.Path.{joined};
ghost use Rattle.std.specs.Char.{is_ascii_alphabetic};

use crate::path::{path_text, push_joined};
use dist_types::text::Text;
use std::alloc::{AllocError, Global};

/// A byte of a path, and 0 past its end.
pub(crate) fn byte(path: &[u8], i: usize) -> u8
    ensures { result ≡ slice_index path.now i }
{
    path.get(i).copied().unwrap_or(0)
}

fn is_separator(b: u8) -> bool
    ensures { result ≡ is_separator b }
{
    b == b'/' || b == b'\\'
}

/// Whether a path begins with a letter, `:` and a separator.
#[tactic(auto, unfolding(crate::specs::Windows::is_plain))]
pub(crate) fn is_plain(path: &[u8]) -> bool
    ensures { result ≡ is_plain path.now }
{
    byte(path, 0).is_ascii_alphabetic() && byte(path, 1) == b':' && is_separator(byte(path, 2))
}

fn begins_verbatim(path: &[u8]) -> bool
    ensures { result ≡ (slice_index path.now 0 == 92 && slice_index path.now 1 == 92
        && slice_index path.now 2 == 63 && slice_index path.now 3 == 92) }
{
    byte(path, 0) == b'\\'
        && byte(path, 1) == b'\\'
        && byte(path, 2) == b'?'
        && byte(path, 3) == b'\\'
}

/// Whether a path begins with `\\?\`, a letter and `:\`.
#[tactic(auto, unfolding(crate::specs::Windows::is_verbatim))]
pub(crate) fn is_verbatim(path: &[u8]) -> bool
    ensures { result ≡ is_verbatim path.now }
{
    begins_verbatim(path)
        && byte(path, 4).is_ascii_alphabetic()
        && byte(path, 5) == b':'
        && byte(path, 6) == b'\\'
}

/// Whether a path begins with a separator, or with a letter and `:`.
#[tactic(auto, unfolding(crate::specs::Windows::is_barred))]
fn is_barred(path: &[u8]) -> bool
    ensures { result ≡ is_barred path.now }
{
    is_separator(byte(path, 0)) || (byte(path, 0).is_ascii_alphabetic() && byte(path, 1) == b':')
}

/// What follows the byte at a place, or nothing past the end.
fn after(text: &str, i: usize) -> &str
    requires { slice_index text.now i < 128 }
    ensures { result.now ≡ drop (i + 1) text.now }
{
    if i >= text.len() {
        return "";
    }
    &text[i + 1..]
}

fn push_full(alloc: Global, parts: &mut Vec<Text>, piece: &str) -> Result<(), AllocError>
    ensures { OnOk result (parts.new.items ≡ parts.old.items ++ filter is_full (piece.now ∷ [])) }
{
    if piece == "" {
        return Ok(());
    }
    let part = Text::of(alloc, piece)?;
    parts.push(part)?;
    Ok(())
}

/// Adds the parts of a text that is cut at a byte, without the empty ones.
fn push_cut(alloc: Global, parts: &mut Vec<Text>, text: &str, at: char) -> Result<(), AllocError>
    requires { at < 128 }
    ensures { OnOk result (parts.new.items ≡ parts.old.items ++ filter is_full
        (slice_split (λ b. b == at) text.now)) }
{
    for piece in text.split(at) {
        push_full(alloc, parts, piece)?;
    }
    Ok(())
}

/// The parts between each two `\`, without the empty ones.
fn verbatim_parts(alloc: Global, path: &str) -> Result<Vec<Text>, AllocError>
    ensures { IfOk result (λ v. v.items ≡ verbatim_parts path.now) }
{
    let mut parts = Vec::new(alloc);
    push_cut(alloc, &mut parts, path, '\\')?;
    Ok(parts)
}

/// The parts between each two separators, without the empty ones.
fn parts_of(alloc: Global, path: &str) -> Result<Vec<Text>, AllocError>
    ensures { IfOk result (λ v. v.items ≡ parts_of path.now) }
{
    let mut parts = Vec::new(alloc);
    for piece in path.split('\\') {
        push_cut(alloc, &mut parts, piece, '/')?;
    }
    Ok(parts)
}

fn is_dot(part: &Text) -> bool
    ensures { result ≡ bytes_eq part.now (46 ∷ []) }
{
    part.get() == "."
}

/// The parts without each `.`.
fn without_dots(parts: Vec<Text>) -> Vec<Text>
    ensures { result.items ≡ without_dots parts.items }
{
    let mut parts = parts;
    parts.retain(|part| !is_dot(part));
    parts
}

/// The parts without each `.` but one that leads, joined by `/`.
fn relative_text(alloc: Global, parts: Vec<Text>) -> Result<String, AllocError>
    ensures { IfOk result (λ s. string_bytes s ≡ joined (after_first parts.items)) }
{
    let mut parts = parts;
    if parts.is_empty() {
        return Ok(String::new(alloc));
    }
    let first = parts.remove(0);
    let others = without_dots(parts);
    let mut out = first.into_inner();
    push_joined(&mut out, &others)?;
    Ok(out)
}

/// The text of a path on a disk.
fn disk_path(alloc: Global, letter: u8, parts: &[Text]) -> Result<String, AllocError>
    requires { is_ascii_alphabetic letter ≡ true }
    ensures { IfOk result (λ s. string_bytes s ≡ on_disk letter parts.now) }
{
    let mut out = disk_text(alloc, letter.to_ascii_uppercase())?;
    out.push_str("/")?;
    let rest = path_text(alloc, false, parts)?;
    out.push_str(rest.as_str())?;
    Ok(out)
}

/// The text of a disk in the other system.
pub(crate) fn disk_text(alloc: Global, letter: u8) -> Result<String, AllocError>
    requires { letter < 128 }
    ensures { IfOk result (λ s. string_bytes s ≡ disk_text letter) }
{
    let mut out = String::from_str(alloc, "/prefix/disk-")?;
    out.push(char::from(letter))?;
    Ok(out)
}

fn verbatim_text(alloc: Global, path: &str) -> Result<String, AllocError>
    requires { is_verbatim path.now ≡ true }
    ensures { IfOk result (λ s. string_bytes s ≡ on_disk (slice_index path.now 4)
        (verbatim_parts (drop 7 path.now))) }
{
    let parts = verbatim_parts(alloc, after(path, 6))?;
    let text = disk_path(alloc, byte(path.as_bytes(), 4), &parts)?;
    Ok(text)
}

fn plain_text(alloc: Global, path: &str) -> Result<String, AllocError>
    requires { is_plain path.now ≡ true }
    ensures { IfOk result (λ s. string_bytes s ≡ on_disk (slice_index path.now 0)
        (without_dots (parts_of (drop 3 path.now)))) }
{
    let parts = without_dots(parts_of(alloc, after(path, 2))?);
    let text = disk_path(alloc, byte(path.as_bytes(), 0), &parts)?;
    Ok(text)
}

/// The text that a path on a disk is sent as, and None for every other path.
#[tactic(auto, unfolding(crate::specs::Windows::abs_text))]
pub(crate) fn abs_text(alloc: Global, path: &str) -> Result<Option<String>, AllocError>
    ensures { IfOk result (λ o. option_map string_bytes o ≡ abs_text path.now) }
{
    if is_verbatim(path.as_bytes()) {
        let text = verbatim_text(alloc, path)?;
        return Ok(Some(text));
    }
    if is_plain(path.as_bytes()) {
        let text = plain_text(alloc, path)?;
        return Ok(Some(text));
    }
    Ok(None)
}

/// The text that a path is sent as.
#[tactic(auto, unfolding(crate::specs::Windows::any_text))]
pub(crate) fn any_text(alloc: Global, path: &str) -> Result<Option<String>, AllocError>
    ensures { IfOk result (λ o. option_map string_bytes o ≡ any_text path.now) }
{
    if is_verbatim(path.as_bytes()) || is_plain(path.as_bytes()) {
        return abs_text(alloc, path);
    }
    if is_barred(path.as_bytes()) {
        return Ok(None);
    }
    let parts = parts_of(alloc, path)?;
    let text = relative_text(alloc, parts)?;
    Ok(Some(text))
}
