//! Paths of Windows, as they are sent and as they are read again.
ghost use Rattle.std.specs.Prelude.{◌≡◌, ◌++◌, ◌∷◌, ◌<◌, [], All, if◌then◌else◌, IfOk, IfErr, OnErr, OnOk};
ghost use Rattle.std.specs.Prelude.{string_bytes};
ghost use Rattle.std.specs.List.{list_any};
ghost use Rattle.std.specs.Option.{option_map, option_copied};
ghost use Rattle.path_pkg.specs.Windows.{windows_dist, windows_dist_abs, is_on_plain, is_on_verbatim};
ghost use Rattle.path_pkg.specs.Windows.{plain_mappings, verbatim_mappings, mappings, mapped_with, local_of};
ghost use Rattle.path_pkg.specs.Windows.{pairs_of, letters_from};
ghost use Rattle.path_pkg.specs.Written.{texts_of};

use crate::fault::PackError;
use crate::sorted::{Entries, put};
use crate::unix::text_in;
use crate::win_path::{abs_text, any_text, byte, disk_text, is_plain, is_verbatim};
use std::alloc::{AllocError, Global};
use std::collections::BTreeMap;
use std::marker::Model;

/// Maps the paths of a client under Windows, and keeps the path that was mapped last to each text. Contracts
/// see it as the pairs of a text and that path, by text in byte order.
#[derive(Debug, Drop)]
pub struct PathTransformer {
    alloc: Global,
    mapped: Entries,
}

impl Model for PathTransformer {
    ghost use Rattle.std.specs.Prelude.{List};
    ghost use Rattle.path_pkg.specs.Written.{Entry, texts_of};

    ghost Value = { List Entry };

    ghost view = { λ t. texts_of t.mapped.entries };
}

fn is_on_plain(letter: u8, path: &[u8]) -> bool
    ensures { result ≡ is_on_plain letter path.now }
{
    is_plain(path) && byte(path, 0).to_ascii_uppercase() == letter
}

fn is_on_verbatim(letter: u8, path: &[u8]) -> bool
    ensures { result ≡ is_on_verbatim letter path.now }
{
    is_verbatim(path) && byte(path, 4).to_ascii_uppercase() == letter
}

fn has_plain(mapped: &Entries, letter: u8) -> bool
    ensures { result ≡ list_any (λ e. is_on_plain letter e.1) (texts_of mapped.now.entries) }
{
    for (_, path) in mapped {
        if is_on_plain(letter, path.get().as_bytes()) {
            return true;
        }
    }
    false
}

fn has_verbatim(mapped: &Entries, letter: u8) -> bool
    ensures { result ≡ list_any (λ e. is_on_verbatim letter e.1) (texts_of mapped.now.entries) }
{
    for (_, path) in mapped {
        if is_on_verbatim(letter, path.get().as_bytes()) {
            return true;
        }
    }
    false
}

impl PathTransformer {
    /// A transformer that mapped nothing so far. It takes no memory.
    pub fn new(alloc: Global) -> Self
        ensures { result ≡ [] }
    {
        PathTransformer {
            alloc,
            mapped: BTreeMap::new(alloc),
        }
    }

    /// The text that a path on a disk is sent as, which is kept with the path. None exactly where the path is
    /// on no disk or is not UTF-8.
    pub fn as_dist_abs(&mut self, p: &[u8]) -> Result<Option<String>, PackError>
        ensures text { IfOk result (λ o. option_map string_bytes o ≡ windows_dist_abs p.now) }
        ensures mapped { OnOk result (self.new ≡ mapped_with self.old p.now (windows_dist_abs p.now)) }
        ensures err { IfErr result (λ e. e ≡ PackError.Memory) }
        ensures same { OnErr result (self.new ≡ self.old) }
    {
        let Some(path) = text_in(p) else {
            return Ok(None);
        };
        let text = abs_text(self.alloc, path)?;
        keep(self.alloc, &mut self.mapped, path, text)
    }

    /// The text that a path is sent as, which is kept with the path. None exactly where the path begins with
    /// a separator or a letter and `:` and is on no disk, or is not UTF-8.
    pub fn as_dist(&mut self, p: &[u8]) -> Result<Option<String>, PackError>
        ensures text { IfOk result (λ o. option_map string_bytes o ≡ windows_dist p.now) }
        ensures mapped { OnOk result (self.new ≡ mapped_with self.old p.now (windows_dist p.now)) }
        ensures err { IfErr result (λ e. e ≡ PackError.Memory) }
        ensures same { OnErr result (self.new ≡ self.old) }
    {
        let Some(path) = text_in(p) else {
            return Ok(None);
        };
        let text = any_text(self.alloc, path)?;
        keep(self.alloc, &mut self.mapped, path, text)
    }

    /// The disks of the paths that are kept, each with its text: the plain ones `X:` and then the verbatim
    /// ones `\\?\X:`, each once, by letter.
    pub fn disk_mappings(&self) -> Result<Vec<(String, String)>, PackError>
        ensures mappings { IfOk result (λ v. pairs_of v.items ≡ mappings self.now) }
        ensures err { IfErr result (λ e. e ≡ PackError.Memory) }
    {
        let mut pairs = Vec::new(self.alloc);
        push_plain_disks(self.alloc, &mut pairs, &self.mapped)?;
        push_verbatim_disks(self.alloc, &mut pairs, &self.mapped)?;
        Ok(pairs)
    }

    /// The path that was mapped last to a text, and None exactly where none was.
    pub fn to_local(&self, p: &str) -> Result<Option<String>, PackError>
        ensures path { IfOk result (λ o. option_map string_bytes o ≡ local_of self.now p.now) }
        ensures err { IfErr result (λ e. e ≡ PackError.Memory) }
    {
        match local(&self.mapped, p) {
            Some(path) => {
                let copy = String::from_str(self.alloc, path)?;
                Ok(Some(copy))
            }
            None => Ok(None),
        }
    }
}

/// The path that was mapped to a text.
fn local<'a>(mapped: &'a Entries, p: &str) -> Option<&'a str>
    ensures { option_copied result ≡ local_of (texts_of mapped.now.entries) p.now }
{
    match mapped.get(p) {
        Some(path) => Some(path.get()),
        None => None,
    }
}

/// Keeps a path with the text that it was mapped to.
fn keep(
    alloc: Global,
    mapped: &mut Entries,
    path: &str,
    text: Option<String>,
) -> Result<Option<String>, PackError>
    ensures text { IfOk result (λ o. option_map string_bytes o ≡ option_map string_bytes text) }
    ensures mapped { OnOk result
        (texts_of mapped.new.entries ≡ mapped_with (texts_of mapped.old.entries) path.now
        (option_map string_bytes text)) }
    ensures err { IfErr result (λ e. e ≡ PackError.Memory) }
    ensures same { OnErr result (texts_of mapped.new.entries ≡ texts_of mapped.old.entries) }
{
    match text {
        Some(text) => {
            put(alloc, mapped, text.as_str(), path)?;
            Ok(Some(text))
        }
        None => Ok(None),
    }
}

fn push_plain(
    alloc: Global,
    pairs: &mut Vec<(String, String)>,
    mapped: &Entries,
    letter: u8,
) -> Result<(), AllocError>
    requires { letter < 128 }
    ensures { OnOk result (pairs_of pairs.new.items ≡ pairs_of pairs.old.items ++ plain_mappings
        (texts_of mapped.now.entries) (letter ∷ [])) }
{
    if !has_plain(mapped, letter) {
        return Ok(());
    }
    let mut disk = String::new(alloc);
    disk.push(char::from(letter))?;
    disk.push_str(":")?;
    let text = disk_text(alloc, letter)?;
    pairs.push((disk, text))?;
    Ok(())
}

fn push_verbatim(
    alloc: Global,
    pairs: &mut Vec<(String, String)>,
    mapped: &Entries,
    letter: u8,
) -> Result<(), AllocError>
    requires { letter < 128 }
    ensures { OnOk result (pairs_of pairs.new.items ≡ pairs_of pairs.old.items ++ verbatim_mappings
        (texts_of mapped.now.entries) (letter ∷ [])) }
{
    if !has_verbatim(mapped, letter) {
        return Ok(());
    }
    let mut disk = String::from_str(alloc, "\\\\?\\")?;
    disk.push(char::from(letter))?;
    disk.push_str(":")?;
    let text = disk_text(alloc, letter)?;
    pairs.push((disk, text))?;
    Ok(())
}

fn push_plain_disks(
    alloc: Global,
    pairs: &mut Vec<(String, String)>,
    mapped: &Entries,
) -> Result<(), AllocError>
    ensures { OnOk result (pairs_of pairs.new.items ≡ pairs_of pairs.old.items ++ plain_mappings
        (texts_of mapped.now.entries) (letters_from 65 26)) }
{
    for letter in b'A'..b'Z' + 1 {
        push_plain(alloc, pairs, mapped, letter)?;
    }
    Ok(())
}

fn push_verbatim_disks(
    alloc: Global,
    pairs: &mut Vec<(String, String)>,
    mapped: &Entries,
) -> Result<(), AllocError>
    ensures { OnOk result (pairs_of pairs.new.items ≡ pairs_of pairs.old.items ++ verbatim_mappings
        (texts_of mapped.now.entries) (letters_from 65 26)) }
{
    for letter in b'A'..b'Z' + 1 {
        push_verbatim(alloc, pairs, mapped, letter)?;
    }
    Ok(())
}
