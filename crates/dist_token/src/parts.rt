ghost use Rattle.std.specs.Prelude.{◌≡◌, [], ◌∷◌, IfOk, IfSome, MatchOption, option_map};
ghost use Rattle.dist_token.specs.Dots.{dot_parts, IsCut};
ghost use Rattle.serde_json.specs.View.{view};
ghost use Rattle.dist_token.specs.Verdict.{parts_of, bytes_of, json_of, value_of};
ghost use Rattle.dist_token.specs.Token.{signed_text};
ghost use Rattle.dist_token.specs.Views.{parts_view};

use base64::DecodeAllocError;
use base64::engine::general_purpose::URL_SAFE_NO_PAD;
use dist_types::fault::Memory;
use serde_json::Value;
use std::alloc::Global;

/// A token, cut at its dots.
#[derive(Clone, Copy)]
pub struct TokenParts<'a> {
    pub header: &'a [u8],
    pub claims: &'a [u8],
    pub mac: &'a [u8],
    /// The first two, with the dot between them.
    pub signed: &'a [u8],
}

// The text before the first dot, and the text after it.
fn cut(text: &str) -> Option<(&str, &str)>
    ensures { MatchOption result (dot_parts text.now ≡ text.now ∷ []) (λ x. IsCut text.now x.0.now x.1.now) }
{
    text.split_once('.')
}

/// Cuts a token at its dots, where it has two.
pub fn parts_of(token: &str) -> Option<TokenParts<'_>>
    ensures parts { option_map parts_view result ≡ parts_of token.now }
    ensures signed { IfSome result (λ p. p.signed.now ≡ signed_text p.header.now p.claims.now) }
{
    let (header, rest) = cut(token)?;
    let (claims, mac) = cut(rest)?;
    if let Some(_) = cut(mac) {
        return None;
    }
    let bytes = token.as_bytes();
    Some(TokenParts {
        header: header.as_bytes(),
        claims: claims.as_bytes(),
        mac: mac.as_bytes(),
        signed: &bytes[..header.len() + 1 + claims.len()],
    })
}

/// The bytes that a part stands for.
#[tactic(auto, unfolding(crate::specs::Verdict::bytes_of, base64::specs::GeneralPurpose::decoded_of))]
pub fn bytes_of(alloc: Global, part: &[u8]) -> Result<Option<Vec<u8>>, Memory>
    ensures { IfOk result (λ bytes. option_map (λ b. b.items) bytes ≡ bytes_of part.now) }
{
    match URL_SAFE_NO_PAD.decode(alloc, part) {
        Ok(bytes) => Ok(Some(bytes)),
        Err(DecodeAllocError::DecodeError(_)) => Ok(None),
        Err(DecodeAllocError::OutOfMemory) => Err(Memory),
    }
}

/// The value that bytes are as JSON.
pub fn json_of(alloc: Global, bytes: &[u8]) -> Result<Option<Value>, Memory>
    ensures { IfOk result (λ value. option_map view value ≡ json_of bytes.now) }
{
    let Ok(text) = str::from_utf8(bytes) else {
        return Ok(None);
    };
    match Value::from_str(alloc, text) {
        Ok(value) => Ok(Some(value)),
        Err(e) => { if e.is_memory() { Err(Memory) } else { Ok(None) } }
    }
}

/// The value that a part says.
pub fn value_of(alloc: Global, part: &[u8]) -> Result<Option<Value>, Memory>
    ensures { IfOk result (λ value. option_map view value ≡ value_of part.now) }
{
    match bytes_of(alloc, part)? {
        Some(bytes) => json_of(alloc, bytes.as_slice()),
        None => Ok(None),
    }
}
