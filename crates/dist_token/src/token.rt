//! The text of a signed token: RFC 7519 with HS256 alone, its parts in base64url without padding
//! (RFC 4648, section 5).
ghost use Rattle.std.specs.Prelude.{◌≡◌, ◌∷◌, ◌++◌, IfOk, OnOk, IsTrue, string_bytes};
ghost use Rattle.dist_token.specs.Token.{encoded, header_text, token_text};
ghost use Rattle.dist_token.specs.Verdict.{IsWritten};
ghost use Rattle.dist_token.specs.Views.{parts_view};

use crate::mac::MacKey;
use crate::parts::TokenParts;
use base64::engine::general_purpose::URL_SAFE_NO_PAD;
use dist_types::fault::Memory;
use std::alloc::Global;

/// The header of every token that is made, in base64url.
const HEADER: &str = "eyJ0eXAiOiJKV1QiLCJhbGciOiJIUzI1NiJ9";

/// How many bytes a token has beside its claims, at most: its header, its MAC and two dots.
const BESIDE_CLAIMS: usize = 96;

// The header, as every token begins, with room for claims of so many bytes and for the MAC.
#[tactic(auto, using(crate::proofs::Bytes::encoded_header))]
fn begun(alloc: Global, claims_len: usize) -> Result<String, Memory>
    ensures { IfOk result (λ token. string_bytes token ≡ encoded header_text) }
{
    let room = BESIDE_CLAIMS.saturating_add(claims_len.saturating_mul(2));
    let mut token = String::with_capacity(alloc, room)?;
    token.push_str(HEADER)?;
    Ok(token)
}

/// Whether a part is the header of every token that is made.
pub fn is_made_header(part: &[u8]) -> bool
    ensures { IsTrue result → part.now ≡ encoded header_text }
{
    part == HEADER.as_bytes()
}

// Adds a dot and a part.
#[tactic(auto, unfolding(crate::specs::Token::encoded))]
fn push_part(token: &mut String, bytes: &[u8]) -> Result<(), Memory>
    ensures { OnOk result (string_bytes token.new ≡ string_bytes token.old ++ 46 ∷ encoded bytes.now) }
{
    token.push('.')?;
    URL_SAFE_NO_PAD.encode_string(bytes, token)?;
    Ok(())
}

/// The token that says these claims, under a key.
pub fn token_under<K: MacKey>(alloc: Global, key: &K, claims: &[u8]) -> Result<String, Memory>
    ensures { IfOk result (λ token. string_bytes token ≡ token_text (K.bytes_of key.now) claims.now) }
{
    let mut token = begun(alloc, claims.len())?;
    push_part(&mut token, claims)?;
    let mac = key.mac(token.as_bytes());
    push_part(&mut token, &mac)?;
    Ok(token)
}

/// Whether the header and the claims are written as they are in a token that is made for these claims.
#[tactic(auto, unfolding(crate::specs::Token::encoded))]
pub fn is_written(alloc: Global, parts: &TokenParts<'_>, claims: &[u8]) -> Result<bool, Memory>
    ensures { IfOk result (λ same. IsTrue same → IsWritten claims.now (parts_view parts.now)) }
{
    if !is_made_header(parts.header) {
        return Ok(false);
    }
    let written = URL_SAFE_NO_PAD.encode(alloc, claims)?;
    Ok(parts.claims == written.as_bytes())
}
