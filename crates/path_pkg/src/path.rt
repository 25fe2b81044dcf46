//! Paths as texts and as parts.
ghost use Rattle.std.specs.Prelude.{◌≡◌, ◌++◌, ◌∷◌, IfOk, OnOk, string_bytes};
ghost use Rattle.std.specs.Option.{option_to_list};
ghost use Rattle.std.specs.List.{flat_map};
ghost use Rattle.path_pkg.specs.Path.{is_absolute, path_text, step_in, steps_of};

use dist_types::text::Text;
use std::alloc::{AllocError, Global};
use std::collections::VecDeque;

/// A step that is still to be taken.
#[derive(Debug, Drop)]
pub enum Step {
    /// To the directory above.
    Up,
    /// To what has this name.
    Name(Text),
    /// Nowhere: the target of the link at this path is simple now.
    Linked(Text),
}

/// Whether a path begins with `/`.
pub(crate) fn is_absolute(path: &str) -> bool
    ensures { result ≡ is_absolute path.now }
{
    match path.as_bytes() {
        [b'/', ..] => true,
        _ => false,
    }
}

fn step_in(alloc: Global, piece: &str) -> Result<Option<Step>, AllocError>
    ensures { IfOk result (λ step. step ≡ step_in piece.now) }
{
    if piece == "" {
        return Ok(None);
    }
    if piece == "." {
        return Ok(None);
    }
    if piece == ".." {
        return Ok(Some(Step::Up));
    }
    let name = Text::of(alloc, piece)?;
    Ok(Some(Step::Name(name)))
}

fn push_some(steps: &mut VecDeque<Step>, step: Option<Step>) -> Result<(), AllocError>
    ensures { OnOk result (steps.new.items ≡ steps.old.items ++ option_to_list step) }
{
    match step {
        Some(step) => {
            steps.push_back(step)?;
            Ok(())
        }
        None => Ok(()),
    }
}

/// The steps of a path.
pub(crate) fn steps_of(alloc: Global, path: &str) -> Result<VecDeque<Step>, AllocError>
    ensures { IfOk result (λ steps. steps.items ≡ steps_of path.now) }
{
    let mut steps = VecDeque::new(alloc);
    for piece in path.split('/') {
        let step = step_in(alloc, piece)?;
        push_some(&mut steps, step)?;
    }
    Ok(steps)
}

pub(crate) fn push_joined(out: &mut String, parts: &[Text]) -> Result<(), AllocError>
    ensures { OnOk result (string_bytes out.new ≡ string_bytes out.old ++ flat_map (λ p. 47 ∷ p) parts.now) }
{
    for part in parts {
        out.push_str("/")?;
        out.push_str(part.get())?;
    }
    Ok(())
}

/// The text of a path.
pub(crate) fn path_text(alloc: Global, absolute: bool, parts: &[Text]) -> Result<String, AllocError>
    ensures { IfOk result (λ text. string_bytes text ≡ path_text absolute parts.now) }
{
    let mut out = String::from_str(alloc, if absolute { "/" } else { "" })?;
    match parts {
        [] => Ok(out),
        [first, others @ ..] => {
            out.push_str(first.get())?;
            push_joined(&mut out, others)?;
            Ok(out)
        }
    }
}
