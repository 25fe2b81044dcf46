//! The fields of a line, each read from one word.
ghost use Rattle.std.specs.Prelude.{◌≡◌};
ghost use Rattle.farm_script.specs.Reading.{IsLineAnswer};
ghost use Rattle.farm_script.specs.Words.{field};
ghost use Rattle.farm_script.specs.Fields.{append_digit, digits_on, number_at, below_zero, from_zero};
ghost use Rattle.farm_script.specs.Fields.{code_at, addr_at, any_addr_at, host_at, is_token, token_at};
ghost use Rattle.farm_script.specs.Fields.{hex_at, as_key, key_at, as_name, name_at};

use crate::lines::Scopes;
use crate::words::{all_visible, first_word, visible_text};
use dist_types::addr::{Addr, is_scoped, read_addr};
use dist_types::text::{Bytes, Text};
use hex::FromHexError;
use line_program::fault::LineFault;
use std::alloc::Global;

fn appended(n: u64, b: u8) -> Result<u64, LineFault>
    ensures { IsLineAnswer (λ x. x) result (append_digit n b) }
{
    if !b.is_ascii_digit() {
        return Err(LineFault::Bad);
    }
    match n.checked_mul(10) {
        None => Err(LineFault::Bad),
        Some(tens) => match tens.checked_add(u64::from(b - 48)) {
            None => Err(LineFault::Bad),
            Some(sum) => Ok(sum),
        },
    }
}

#[tactic(auto, using(crate::proofs::DigitLemmas::digits_done))]
fn digits(word: &[u8]) -> Result<u64, LineFault>
    ensures { IsLineAnswer (λ x. x) result (digits_on 0 word.now) }
{
    let mut n = 0u64;
    for b in word {
        n = appended(n, *b)?;
    }
    Ok(n)
}

/// A number in decimal without leading zeros, at most 2^64 - 1.
pub fn number(word: &[u8]) -> Result<u64, LineFault>
    ensures { IsLineAnswer (λ x. x) result (number_at word.now) }
{
    if word.is_empty() || (word.len() > 1 && word[0] == 48) {
        return Err(LineFault::Bad);
    }
    digits(word)
}

fn negative(n: u64) -> Result<i32, LineFault>
    ensures { IsLineAnswer (λ x. x) result (below_zero n) }
{
    if n < 1 || n > 2_147_483_648 {
        return Err(LineFault::Bad);
    }
    Ok(-1 - (n - 1) as i32)
}

fn positive(n: u64) -> Result<i32, LineFault>
    ensures { IsLineAnswer (λ x. x) result (from_zero n) }
{
    if n > 2_147_483_647 {
        return Err(LineFault::Bad);
    }
    Ok(n as i32)
}

/// An exit code in decimal, without leading zeros, with a dash before it where it is below 0.
#[tactic(auto, unfolding(crate::specs::Fields::code_at))]
pub fn code(word: &[u8]) -> Result<i32, LineFault>
    ensures { IsLineAnswer (λ x. x) result (code_at word.now) }
{
    match word {
        [] => Err(LineFault::Bad),
        [45, rest @ ..] => {
            let n = number(rest)?;
            negative(n)
        }
        [_, ..] => {
            let n = number(word)?;
            positive(n)
        }
    }
}

/// An address.
pub fn addr(word: &[u8]) -> Result<Addr, LineFault>
    ensures { IsLineAnswer (λ x. x) result (addr_at word.now) }
{
    if !all_visible(word) {
        return Err(LineFault::Bad);
    }
    match read_addr(visible_text(word)) {
        Some(addr) => Ok(addr),
        None => Err(LineFault::Bad),
    }
}

/// An address, or `0.0.0.0:0` for one with a scope.
fn any_addr(word: &[u8]) -> Result<Addr, LineFault>
    ensures { IsLineAnswer (λ x. x) result (any_addr_at word.now) }
{
    if !all_visible(word) {
        return Err(LineFault::Bad);
    }
    let text = visible_text(word);
    if is_scoped(text) {
        return Ok(Addr::V4([0, 0, 0, 0], 0));
    }
    match read_addr(text) {
        Some(addr) => Ok(addr),
        None => Err(LineFault::Bad),
    }
}

/// An address, which may have a scope where those are taken.
pub fn host(scopes: Scopes, word: &[u8]) -> Result<Addr, LineFault>
    ensures { IsLineAnswer (λ x. x) result (host_at scopes word.now) }
{
    match scopes {
        Scopes::Refused => addr(word),
        Scopes::Taken => any_addr(word),
    }
}

fn is_token(word: &[u8]) -> bool
    ensures { result ≡ is_token word.now }
{
    word.len() >= 1 && word.len() <= 1024 && all_visible(word)
}

/// A token, which is 1 to 1,024 visible bytes.
pub fn token(alloc: Global, word: &[u8]) -> Result<Text, LineFault>
    ensures { IsLineAnswer (λ x. x) result (token_at word.now) }
{
    if !is_token(word) {
        return Err(LineFault::Bad);
    }
    let text = Text::of(alloc, visible_text(word))?;
    Ok(text)
}

/// Bytes as pairs of hex digits of either case, or `-` for none.
pub fn hex(alloc: Global, word: &[u8]) -> Result<Bytes, LineFault>
    ensures { IsLineAnswer (λ x. x) result (hex_at word.now) }
{
    if word == b"-".as_slice() {
        return Ok(Bytes::new(Vec::new(alloc)));
    }
    if word.is_empty() {
        return Err(LineFault::Bad);
    }
    match hex::decode(alloc, word) {
        Ok(bytes) => Ok(Bytes::new(bytes)),
        Err(FromHexError::OutOfMemory) => Err(LineFault::Memory),
        Err(_) => Err(LineFault::Bad),
    }
}

fn as_key(bytes: Bytes) -> Result<Bytes, LineFault>
    ensures { IsLineAnswer (λ x. x) result (as_key bytes) }
{
    let length = bytes.get().len();
    if length < 1 || length > 1024 {
        return Err(LineFault::Bad);
    }
    Ok(bytes)
}

/// A key, which is hex of 1 to 1,024 bytes.
pub fn key(alloc: Global, word: &[u8]) -> Result<Bytes, LineFault>
    ensures { IsLineAnswer (λ x. x) result (key_at word.now) }
{
    let bytes = hex(alloc, word)?;
    as_key(bytes)
}

fn as_name(bytes: Bytes) -> Result<Text, LineFault>
    ensures { IsLineAnswer (λ x. x) result (as_name bytes) }
{
    match String::from_utf8(bytes.into_inner()) {
        Ok(text) => Ok(Text::new(text)),
        Err(_) => Err(LineFault::Bad),
    }
}

/// A name, which is hex of bytes in UTF-8.
pub fn name(alloc: Global, word: &[u8]) -> Result<Text, LineFault>
    ensures { IsLineAnswer (λ x. x) result (name_at word.now) }
{
    let bytes = hex(alloc, word)?;
    as_name(bytes)
}

/// An address and the space behind it.
pub fn addr_field(text: &[u8]) -> Result<(Addr, &[u8]), LineFault>
    ensures { IsLineAnswer (λ x. (x.0, x.1.now)) result (field addr_at text.now) }
{
    let (word, rest) = first_word(text)?;
    let value = addr(word)?;
    Ok((value, rest))
}

/// A number and the space behind it.
pub fn number_field(text: &[u8]) -> Result<(u64, &[u8]), LineFault>
    ensures { IsLineAnswer (λ x. (x.0, x.1.now)) result (field number_at text.now) }
{
    let (word, rest) = first_word(text)?;
    let value = number(word)?;
    Ok((value, rest))
}

/// A token and the space behind it.
pub fn token_field(alloc: Global, text: &[u8]) -> Result<(Text, &[u8]), LineFault>
    ensures { IsLineAnswer (λ x. (x.0, x.1.now)) result (field token_at text.now) }
{
    let (word, rest) = first_word(text)?;
    let value = token(alloc, word)?;
    Ok((value, rest))
}

/// An address and the space behind it, which may have a scope where those are taken.
pub fn host_field(scopes: Scopes, text: &[u8]) -> Result<(Addr, &[u8]), LineFault>
    ensures { IsLineAnswer (λ x. (x.0, x.1.now)) result (field (host_at scopes) text.now) }
{
    let (word, rest) = first_word(text)?;
    let value = host(scopes, word)?;
    Ok((value, rest))
}

/// An exit code and the space behind it.
pub fn code_field(text: &[u8]) -> Result<(i32, &[u8]), LineFault>
    ensures { IsLineAnswer (λ x. (x.0, x.1.now)) result (field code_at text.now) }
{
    let (word, rest) = first_word(text)?;
    let value = code(word)?;
    Ok((value, rest))
}

/// Bytes in hex and the space behind them.
pub fn hex_field(alloc: Global, text: &[u8]) -> Result<(Bytes, &[u8]), LineFault>
    ensures { IsLineAnswer (λ x. (x.0, x.1.now)) result (field hex_at text.now) }
{
    let (word, rest) = first_word(text)?;
    let value = hex(alloc, word)?;
    Ok((value, rest))
}

/// A key and the space behind it.
pub fn key_field(alloc: Global, text: &[u8]) -> Result<(Bytes, &[u8]), LineFault>
    ensures { IsLineAnswer (λ x. (x.0, x.1.now)) result (field key_at text.now) }
{
    let (word, rest) = first_word(text)?;
    let value = key(alloc, word)?;
    Ok((value, rest))
}
