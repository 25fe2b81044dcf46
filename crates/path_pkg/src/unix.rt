//! Paths of Unix, as they are sent and as they are read again.
ghost use Rattle.std.specs.Prelude.{◌≡◌, [], Some, IfOk, IfErr, IsOkAnd, string_bytes};
ghost use Rattle.std.specs.Option.{option_map};
ghost use Rattle.path_pkg.specs.Path.{is_absolute};
ghost use Rattle.path_pkg.specs.Unix.{unix_dist, unix_dist_abs};

use crate::fault::PackError;
use std::alloc::{AllocError, Global};

/// Maps the paths of a client under Unix: each is sent as it is.
#[derive(Debug, Drop)]
pub struct PathTransformer {
    alloc: Global,
}

/// The text of bytes, where they are UTF-8.
pub(crate) fn text_in(bytes: &[u8]) -> Option<&str>
    ensures { option_map (λ s. s.now) result ≡ unix_dist bytes.now }
{
    match str::from_utf8(bytes) {
        Ok(text) => Some(text),
        Err(_) => None,
    }
}

fn starts_at_root(path: &[u8]) -> bool
    ensures { result ≡ is_absolute path.now }
{
    match path {
        [b'/', ..] => true,
        _ => false,
    }
}

fn copy_some(alloc: Global, text: Option<&str>) -> Result<Option<String>, AllocError>
    ensures { IfOk result (λ o. option_map string_bytes o ≡ option_map (λ s. s.now) text.entry) }
{
    match text {
        Some(text) => {
            let copy = String::from_str(alloc, text)?;
            Ok(Some(copy))
        }
        None => Ok(None),
    }
}

impl PathTransformer {
    /// A transformer. It takes no memory.
    pub fn new(alloc: Global) -> Self {
        PathTransformer { alloc }
    }

    /// The text that an absolute path is sent as: None exactly where it does not begin with `/` or is not
    /// UTF-8.
    pub fn as_dist_abs(&mut self, p: &[u8]) -> Result<Option<String>, PackError>
        ensures text { IfOk result (λ o. option_map string_bytes o ≡ unix_dist_abs p.now) }
        ensures err { IfErr result (λ e. e ≡ PackError.Memory) }
    {
        if !starts_at_root(p) {
            return Ok(None);
        }
        self.as_dist(p)
    }

    /// The text that a path is sent as: None exactly where it is not UTF-8.
    pub fn as_dist(&mut self, p: &[u8]) -> Result<Option<String>, PackError>
        ensures text { IfOk result (λ o. option_map string_bytes o ≡ unix_dist p.now) }
        ensures err { IfErr result (λ e. e ≡ PackError.Memory) }
    {
        let copy = copy_some(self.alloc, text_in(p))?;
        Ok(copy)
    }

    /// The disks that were mapped: there are none. It is never refused.
    pub fn disk_mappings(&self) -> Result<Vec<(String, String)>, PackError>
        ensures { IsOkAnd result (λ v. v.items ≡ []) }
    {
        Ok(Vec::new(self.alloc))
    }

    /// The path that was sent as a text: the text.
    pub fn to_local(&self, p: &str) -> Result<Option<String>, PackError>
        ensures path { IfOk result (λ o. option_map string_bytes o ≡ Some p.now) }
        ensures err { IfErr result (λ e. e ≡ PackError.Memory) }
    {
        let path = String::from_str(self.alloc, p)?;
        Ok(Some(path))
    }
}
