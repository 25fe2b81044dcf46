//! Paths of a folder, and their parts.
ghost use Rattle.std.specs.Prelude.{◌≡◌, ◌++◌, IfOk};
ghost use Rattle.folders.specs.Files.{front};
ghost use Rattle.folders.specs.Plain.{is_plain};

use dist_types::text::Text;
use std::alloc::{AllocError, Global};

/// Whether a text is not empty, not `.` or `..`, and has no NUL byte.
#[tactic(auto, unfolding(crate::specs::Plain::is_plain))]
pub fn is_plain(part: &str) -> bool
    ensures { result ≡ is_plain part.now }
{
    part != "" && part != "." && part != ".." && !part.as_bytes().contains(&0)
}

/// What the path of each file below a directory begins with.
pub fn front_of(alloc: Global, under: &str) -> Result<Text, AllocError>
    ensures { IfOk result (λ t. t ≡ front under.now) }
{
    if under.is_empty() {
        return Text::of(alloc, under);
    }
    joined(alloc, under, "/")
}

/// One text behind another.
pub fn joined(alloc: Global, first: &str, second: &str) -> Result<Text, AllocError>
    ensures { IfOk result (λ t. t ≡ first.now ++ second.now) }
{
    let mut inner = String::from_str(alloc, first)?;
    inner.push_str(second)?;
    Ok(Text::new(inner))
}
