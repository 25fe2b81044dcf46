//! Keys, and the files that they name.
ghost use Rattle.std.specs.Prelude.{◌≡◌, ◌++◌, IfOk, codes};
ghost use Rattle.listed_files.specs.Key.{is_key, is_temporary, temp_name, insert_name};

use dist_types::text::Text;
use folders::paths::{is_plain, joined};
use std::alloc::{AllocError, Global};

/// Whether a text may be a key: a relative path of parts joined by `/`, none of which is empty, `.` or
/// `..` or has a NUL byte, and the last of which does not begin with `.sccachetmp`. It takes no memory.
#[tactic(auto, using(crate::proofs::KeyParts::none_temporary))]
pub fn is_key(text: &str) -> bool
    ensures { result ≡ is_key text.now }
{
    let mut plain = true;
    let mut temporary = false;
    for part in text.split('/') {
        let good = is_plain(part);
        let last = is_temporary(part);
        temporary = last;
        plain = plain && good;
    }
    plain && !temporary
}

/// Whether it is the name of a temporary file.
#[tactic(auto, unfolding(crate::specs::Key::is_temporary))]
fn is_temporary(name: &str) -> bool
    ensures { result ≡ is_temporary name.now }
{
    name.as_bytes().starts_with(b".sccachetmp")
}

/// The path of the temporary file of a reservation under a root, by its number.
#[tactic(auto, unfolding(crate::specs::Key::temp_name))]
pub fn temp_path(alloc: Global, root: &Text, number: u64) -> Result<Text, AllocError>
    ensures path { IfOk result (λ t. t ≡ root.now ++ temp_name number) }
{
    let name = format!(in alloc; ".sccachetmp{number}")?;
    joined(alloc, root.get(), name.as_str())
}

/// The path of the temporary file of an insert under a root, by its number.
#[tactic(auto, unfolding(crate::specs::Key::insert_name))]
pub fn insert_path(alloc: Global, root: &Text, number: u64) -> Result<Text, AllocError>
    ensures path { IfOk result (λ t. t ≡ root.now ++ insert_name number) }
{
    let name = format!(in alloc; ".sccachetmp-{number}")?;
    joined(alloc, root.get(), name.as_str())
}

/// The path of the file of a key under a root.
pub fn path_of(root: &Text, key: &Text) -> Result<Text, AllocError>
    ensures path { IfOk result (λ t. t ≡ root.now ++ key.now) }
{
    joined(root.alloc(), root.get(), key.get())
}
