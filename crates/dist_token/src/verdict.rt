//! The tests that every signed token passes, in their order.
ghost use Rattle.std.specs.Prelude.{◌≡◌, ok_or};
ghost use Rattle.serde_json.specs.View.{view};
ghost use Rattle.dist_types.specs.Answers.{IsTokenAnswer};
ghost use Rattle.dist_types.specs.declared.token_error.TokenError.TheVariants.{BadToken};
ghost use Rattle.dist_types.specs.declared.token_error.Part.TheVariants.{Claims};
ghost use Rattle.dist_token.specs.Verdict.{value_of, are_two, is_hs256, mac_test, header_test, said, tested};
ghost use Rattle.dist_token.specs.Verdict.{untested};
ghost use Rattle.serde_json.specs.Find.{as_object};
ghost use Rattle.dist_token.specs.Token.{signed_text};
ghost use Rattle.dist_token.specs.Views.{parts_view};

use crate::mac::{MacKey, is_mac};
use crate::parts::{TokenParts, bytes_of, parts_of, value_of};
use crate::token::is_made_header;
use dist_types::token_error::{Part, TokenError};
use serde_json::Value;
use std::alloc::Global;

/// Whether the third part is the MAC of the first two.
pub fn mac_test<K: MacKey>(alloc: Global, key: &K, parts: &TokenParts<'_>) -> Result<(), TokenError>
    requires { parts.now.signed.now ≡ signed_text parts.now.header.now parts.now.claims.now }
    ensures { IsTokenAnswer (λ x. x) (mac_test (K.bytes_of key.now) (parts_view parts.now)) result }
{
    let Some(mac) = bytes_of(alloc, parts.mac)? else {
        return Err(TokenError::BadToken(Part::Mac));
    };
    if is_mac(mac.as_slice(), &key.mac(parts.signed)) {
        Ok(())
    } else {
        Err(TokenError::BadMac)
    }
}

fn is_hs256(header: &Value) -> bool
    ensures { result ≡ is_hs256 (view header.now) }
{
    match header.get("alg").and_then(Value::as_str) {
        Some(name) => name == "HS256",
        None => false,
    }
}

// Whether the first part says the algorithm.
fn header_test(alloc: Global, parts: &TokenParts<'_>) -> Result<(), TokenError>
    ensures { IsTokenAnswer (λ x. x) (header_test (parts_view parts.now)) result }
{
    if is_made_header(parts.header) {
        return Ok(());
    }
    match value_of(alloc, parts.header)? {
        Some(header) => {
            if is_hs256(&header) {
                Ok(())
            } else {
                Err(TokenError::BadToken(Part::Header))
            }
        }
        None => Err(TokenError::BadToken(Part::Header)),
    }
}

// What the second part says.
fn claims_value(alloc: Global, parts: &TokenParts<'_>) -> Result<Value, TokenError>
    ensures { IsTokenAnswer view (ok_or (value_of parts.now.claims.now) (BadToken Claims)) result }
{
    match value_of(alloc, parts.claims)? {
        Some(claims) => Ok(claims),
        None => Err(TokenError::BadToken(Part::Claims)),
    }
}

/// What the claims say, where the header passes.
pub fn said(alloc: Global, parts: &TokenParts<'_>) -> Result<Value, TokenError>
    ensures { IsTokenAnswer view (said (parts_view parts.now)) result }
{
    header_test(alloc, parts)?;
    claims_value(alloc, parts)
}

/// What the claims of a token say, where its parts, its MAC and its header pass.
pub fn tested<K: MacKey>(alloc: Global, key: &K, token: &str) -> Result<Value, TokenError>
    ensures { IsTokenAnswer view (tested (K.bytes_of key.now) token.now) result }
{
    let Some(parts) = parts_of(token) else {
        return Err(TokenError::BadToken(Part::Shape));
    };
    mac_test(alloc, key, &parts)?;
    said(alloc, &parts)
}

/// The same without the tests of the MAC.
pub fn untested(alloc: Global, token: &str) -> Result<Value, TokenError>
    ensures { IsTokenAnswer view (untested token.now) result }
{
    let Some(parts) = parts_of(token) else {
        return Err(TokenError::BadToken(Part::Shape));
    };
    said(alloc, &parts)
}

// Whether the claims are an object of exactly two members.
pub fn are_two(claims: &Value) -> bool
    ensures { result ≡ are_two (as_object (view claims.now)) }
{
    match claims.as_object() {
        Some(members) => members.len() == 2,
        None => false,
    }
}
