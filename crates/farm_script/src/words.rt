//! The words of a line, which are parted by one space.
ghost use Rattle.std.specs.Prelude.{◌≡◌, ◌==◌, position, true};
ghost use Rattle.std.specs.List.{list_all};
ghost use Rattle.std.specs.Option.{option_map};
ghost use Rattle.farm_script.specs.Reading.{IsLineAnswer};
ghost use Rattle.farm_script.specs.Words.{first_word, next_word, strip, is_visible};

use line_program::fault::LineFault;
use std::str;

fn space_at(text: &[u8]) -> Option<usize>
    ensures { result ≡ position (λ b. b == 32) text.now }
{
    text.iter().position(|b| *b == b' ')
}

/// What stands before the first space, and what stands behind it.
pub fn first_word(text: &[u8]) -> Result<(&[u8], &[u8]), LineFault>
    ensures { IsLineAnswer (λ x. (x.0.now, x.1.now)) result (first_word text.now) }
{
    match space_at(text) {
        None => Err(LineFault::Bad),
        Some(i) => Ok((&text[..i], &text[i + 1..])),
    }
}

/// The first word, and what stands behind the space behind it, where there is one.
pub fn next_word(text: &[u8]) -> (&[u8], Option<&[u8]>)
    ensures { (result.0.now, option_map (λ rest. rest.now) result.1) ≡ next_word text.now }
{
    match space_at(text) {
        None => (text, None),
        Some(i) => (&text[..i], Some(&text[i + 1..])),
    }
}

/// What stands behind a prefix.
pub fn strip<'a>(text: &'a [u8], prefix: &[u8]) -> Result<&'a [u8], LineFault>
    ensures { IsLineAnswer (λ x. x.now) result (strip prefix.now text.entry.now) }
{
    match text.strip_prefix(prefix) {
        None => Err(LineFault::Bad),
        Some(rest) => Ok(rest),
    }
}

fn is_visible(b: u8) -> bool
    ensures { result ≡ is_visible b }
{
    b >= 0x21 && b <= 0x7e
}

/// Whether each byte stands from 0x21 to 0x7e.
pub fn all_visible(word: &[u8]) -> bool
    ensures { result ≡ list_all is_visible word.now }
{
    word.iter().all(|b| is_visible(*b))
}

/// A word of visible bytes as text.
pub fn visible_text(word: &[u8]) -> &str
    requires { list_all is_visible word.now ≡ true }
    ensures { result.now ≡ word.now }
{
    match str::from_utf8(word) {
        Ok(text) => text,
        Err(_) => unreachable!(),
    }
}
