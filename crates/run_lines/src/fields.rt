//! The fields of a printed line, each read from one word, in its one spelling.
ghost use Rattle.std.specs.Prelude.{◌≡◌, true, IfOk, string_bytes, length, IsOk};
ghost use Rattle.std.specs.List.{list_all};
ghost use Rattle.dist_types.specs.Addr.{addr_text};
ghost use Rattle.dist_types.specs.Toolchain.{is_lower_hex};
ghost use Rattle.farm_script.specs.Reading.{IsLineAnswer};
ghost use Rattle.farm_script.specs.Words.{field};
ghost use Rattle.farm_entries.specs.Printed.{hex_text};
ghost use Rattle.run_lines.specs.Fields.{lower_at, exact_at, maybe_at, state_at, either_at, stage_at, id_at};

use dist_types::addr::Addr;
use dist_types::results::JobState;
use dist_types::text::Bytes;
use dist_types::toolchain::Toolchain;
use farm_script::fields::{addr, hex, number};
use farm_script::words::{first_word, visible_text};
use line_program::fault::LineFault;
use std::alloc::{AllocError, Global};

/// The text that is printed of an address.
fn text_of(alloc: Global, addr: Addr) -> Result<String, AllocError>
    ensures { IfOk result (λ t. string_bytes t ≡ addr_text addr) }
{
    format!(in alloc; "{addr}")
}

/// An address, where the word is the text that is printed of it.
#[tactic(auto, unfolding(crate::specs::Fields::exact_at))]
pub fn exact(alloc: Global, word: &[u8]) -> Result<Addr, LineFault>
    ensures { IsLineAnswer (λ x. x) result (exact_at word.now) }
{
    let addr = addr(word)?;
    let text = text_of(alloc, addr)?;
    if text.as_bytes() == word {
        Ok(addr)
    } else {
        Err(LineFault::Bad)
    }
}

/// The hex that is printed of bytes.
fn hex_of(alloc: Global, bytes: &[u8]) -> Result<String, AllocError>
    ensures { IfOk result (λ t. string_bytes t ≡ hex_text bytes.now) }
{
    match bytes {
        [] => String::from_str(alloc, "-"),
        [_, ..] => hex::encode(alloc, bytes),
    }
}

/// Bytes, where the word is the hex that is printed of them.
#[tactic(auto, unfolding(crate::specs::Fields::lower_at))]
pub fn lower(alloc: Global, word: &[u8]) -> Result<Bytes, LineFault>
    ensures { IsLineAnswer (λ x. x) result (lower_at word.now) }
{
    let bytes = hex(alloc, word)?;
    let text = hex_of(alloc, bytes.get())?;
    if text.as_bytes() == word {
        Ok(bytes)
    } else {
        Err(LineFault::Bad)
    }
}

/// An address and the space behind it.
pub fn exact_field(alloc: Global, text: &[u8]) -> Result<(Addr, &[u8]), LineFault>
    ensures { IsLineAnswer (λ x. (x.0, x.1.now)) result (field exact_at text.now) }
{
    let (word, rest) = first_word(text)?;
    let value = exact(alloc, word)?;
    Ok((value, rest))
}

/// A number, or a dash for none.
pub fn maybe(word: &[u8]) -> Result<Option<u64>, LineFault>
    ensures { IsLineAnswer (λ x. x) result (maybe_at word.now) }
{
    if word == b"-".as_slice() {
        return Ok(None);
    }
    let n = number(word)?;
    Ok(Some(n))
}

/// A number, or a dash for none, and the space behind it.
pub fn maybe_field(text: &[u8]) -> Result<(Option<u64>, &[u8]), LineFault>
    ensures { IsLineAnswer (λ x. (x.0, x.1.now)) result (field maybe_at text.now) }
{
    let (word, rest) = first_word(text)?;
    let value = maybe(word)?;
    Ok((value, rest))
}

/// The name of a job's state.
pub fn state(word: &[u8]) -> Result<JobState, LineFault>
    ensures { IsLineAnswer (λ x. x) result (state_at word.now) }
{
    if word == b"pending".as_slice() {
        return Ok(JobState::Pending);
    }
    if word == b"ready".as_slice() {
        return Ok(JobState::Ready);
    }
    if word == b"started".as_slice() {
        return Ok(JobState::Started);
    }
    if word == b"complete".as_slice() {
        return Ok(JobState::Complete);
    }
    Err(LineFault::Bad)
}

/// The name of a job's state and the space behind it.
pub fn state_field(text: &[u8]) -> Result<(JobState, &[u8]), LineFault>
    ensures { IsLineAnswer (λ x. (x.0, x.1.now)) result (field state_at text.now) }
{
    let (word, rest) = first_word(text)?;
    let value = state(word)?;
    Ok((value, rest))
}

/// The first of two words, or the second.
pub fn either(word: &[u8], first: &[u8], second: &[u8]) -> Result<bool, LineFault>
    ensures { IsLineAnswer (λ x. x) result (either_at first.now second.now word.now) }
{
    if word == first {
        return Ok(true);
    }
    if word == second {
        return Ok(false);
    }
    Err(LineFault::Bad)
}

/// How far a job is.
fn stage(word: &[u8]) -> Result<Option<JobState>, LineFault>
    ensures { IsLineAnswer (λ x. x) result (stage_at word.now) }
{
    if word == b"reserved".as_slice() {
        return Ok(None);
    }
    let state = state(word)?;
    Ok(Some(state))
}

/// How far a job is, and the space behind it.
pub fn stage_field(text: &[u8]) -> Result<(Option<JobState>, &[u8]), LineFault>
    ensures { IsLineAnswer (λ x. (x.0, x.1.now)) result (field stage_at text.now) }
{
    let (word, rest) = first_word(text)?;
    let value = stage(word)?;
    Ok((value, rest))
}

fn is_lower(b: u8) -> bool
    ensures { result ≡ is_lower_hex b }
{
    (b >= 48 && b <= 57) || (b >= 97 && b <= 102)
}

fn all_lower(word: &[u8]) -> bool
    ensures { result ≡ list_all is_lower_hex word.now }
{
    word.iter().all(|b| is_lower(*b))
}

/// The toolchain of a lower-case id.
#[tactic(auto, using(crate::proofs::IdLemmas::lower_visible, crate::proofs::IdLemmas::lower_digest))]
fn toolchain(word: &[u8]) -> Result<Toolchain, LineFault>
    requires long { length word.now ≡ 64 }
    requires lower { list_all is_lower_hex word.now ≡ true }
    ensures same { IfOk result (λ tc. tc ≡ word.now) }
    ensures taken { IsOk result }
{
    match Toolchain::new(visible_text(word)) {
        Ok(tc) => Ok(tc),
        Err(_) => Err(LineFault::Bad),
    }
}

/// An id, which is 64 hex digits in lower case.
pub fn id(word: &[u8]) -> Result<Toolchain, LineFault>
    ensures { IsLineAnswer (λ x. x) result (id_at word.now) }
{
    if word.len() == 64 && all_lower(word) {
        return toolchain(word);
    }
    Err(LineFault::Bad)
}

/// One of two words and the space behind it: whether it is the first.
pub fn either_field<'a>(
    text: &'a [u8],
    first: &[u8],
    second: &[u8],
) -> Result<(bool, &'a [u8]), LineFault>
    ensures { IsLineAnswer (λ x. (x.0, x.1.now)) result
        (field (either_at first.now second.now) text.entry.now) }
{
    let (word, rest) = first_word(text)?;
    let value = either(word, first, second)?;
    Ok((value, rest))
}
