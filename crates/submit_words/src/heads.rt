//! What is shown of heads: their lines, but of a token no more than that there is one.
ghost use Rattle.std.specs.Prelude.{◌≡◌, ◌++◌, ◌∷◌, [], IfOk, OnOk, string_bytes};
ghost use Rattle.submit_words.specs.Heads.{has_token, shown_line, shown_head};

use std::alloc::{AllocError, Global};

/// What is shown of a line with a token.
const HIDDEN: &str = "Authorization: (hidden)";

// Whether a line has a token.
fn has_token(line: &str) -> bool
    ensures { result ≡ has_token line.now }
{
    line.as_bytes().starts_with(b"Authorization:")
}

/// What is shown of a line of a head: the line, but of one with a token no more than that.
pub fn shown_line(line: &str) -> &str
    ensures { result.now ≡ shown_line line.now }
{
    if has_token(line) { HIDDEN } else { line }
}

// Adds a line behind a mark, with a line end.
fn push_line(text: &mut String, mark: &str, line: &str) -> Result<(), AllocError>
    ensures { OnOk result (string_bytes text.new ≡ string_bytes text.old ++ ((mark.now ++ line.now) ++ 10 ∷ [])) }
{
    text.push_str(mark)?;
    text.push_str(line)?;
    text.push_str("\n")
}

/// What is shown of a head: each of its lines behind a mark, and a line end.
pub fn shown_head(alloc: Global, mark: &str, head: &str) -> Result<String, AllocError>
    ensures { IfOk result (λ text. string_bytes text ≡ shown_head mark.now head.now) }
{
    let mut text = String::new(alloc);
    for line in head.split('\n') {
        push_line(&mut text, mark, shown_line(line))?;
    }
    Ok(text)
}
