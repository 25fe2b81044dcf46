//! A field of a head.
ghost use Rattle.std.specs.Prelude.{◌≡◌, IfOk};

use std::alloc::{AllocError, Global};
use std::marker::Model;

/// A field of a head: its name, and its value without the white space around it. Contracts see it as the two.
#[derive(Debug, Drop)]
pub struct Field {
    /// The name, and behind it the value.
    bytes: Vec<u8>,
    /// How many bytes the name has.
    name_len: usize,
}

impl Model for Field {
    ghost use Rattle.std.specs.Prelude.{◌≤◌, length, take, drop};
    ghost use Rattle.http_head.specs.Fields.{Field as Named};

    ghost Value = { Named };

    ghost view = { λ f. (take f.name_len f.bytes.items, drop f.name_len f.bytes.items) };

    ghost invariant = { λ f. f.name_len ≤ length f.bytes.items };
}

impl Field {
    /// A copy of a name and a value. Refused for want of memory alone.
    pub fn of(alloc: Global, name: &str, value: &[u8]) -> Result<Self, AllocError>
        ensures { IfOk result (λ f. f ≡ (name.now, value.now)) }
    {
        let name_len = name.len();
        let mut bytes = Vec::with_capacity(alloc, name_len.saturating_add(value.len()))?;
        bytes.extend_from_slice(name.as_bytes())?;
        bytes.extend_from_slice(value)?;
        Ok(Field { bytes, name_len })
    }

    /// The bytes of its name.
    pub fn name(&self) -> &[u8]
        ensures { result.now ≡ self.now.0 }
    {
        &self.bytes[..self.name_len]
    }

    /// Its value.
    pub fn value(&self) -> &[u8]
        ensures { result.now ≡ self.now.1 }
    {
        &self.bytes[self.name_len..]
    }
}
