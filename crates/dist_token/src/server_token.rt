//! The tokens of build servers, plain ones and signed ones.
ghost use Rattle.std.specs.Prelude.{◌≡◌, IfOk, Ok, OnOk, Some, string_bytes};
ghost use Rattle.std.specs.Result.{result_ok};
ghost use Rattle.serde_json.specs.View.{view};
ghost use Rattle.dist_types.specs.Addr.{addr_text, IsAddr};
ghost use Rattle.dist_types.specs.Answers.{IsTokenAnswer};
ghost use Rattle.dist_token.specs.Token.{token_text, server_claims_text, plain_text};
ghost use Rattle.dist_token.specs.Verdict.{address_in, server_test, server_verdict, extracted, plain_server};

use crate::mac::{BareKey, MacKey};
use crate::token::token_under;
use crate::verdict::{are_two, tested, untested};
use dist_types::addr::{Addr, read_addr};
use dist_types::fault::Memory;
use dist_types::ids::ServerId;
use dist_types::token_error::{Part, TokenError};
use serde_json::Value;
use std::alloc::Global;

/// The shared server token that stands where none is configured.
pub const INSECURE_DIST_SERVER_TOKEN: &str = "dangerously_insecure_server";

/// The client token that stands where none is configured.
pub const INSECURE_DIST_CLIENT_TOKEN: &str = "dangerously_insecure_client";

fn address_in(value: &Value) -> Option<Addr>
    ensures { result ≡ address_in (view value.now) }
{
    read_addr(value.as_str()?)
}

// The server that the claims name.
fn server_test(claims: &Value) -> Result<ServerId, TokenError>
    ensures { result ≡ server_test (view claims.now) }
{
    if !are_two(claims) {
        return Err(TokenError::BadToken(Part::Claims));
    }
    if claims.get("exp").and_then(Value::as_u64).is_none() {
        return Err(TokenError::BadToken(Part::Claims));
    }
    match claims.get("server_id").and_then(address_in) {
        Some(address) => Ok(ServerId::new(address)),
        None => Err(TokenError::BadToken(Part::Claims)),
    }
}

// The server that a token is accepted for under a key.
fn server_under<K: MacKey>(alloc: Global, key: &K, token: &str) -> Result<ServerId, TokenError>
    ensures { IsTokenAnswer (λ server. server) (server_verdict (K.bytes_of key.now) token.now) result }
{
    let claims = tested(alloc, key, token)?;
    server_test(&claims)
}

/// The server that a signed token is accepted for under a key, or none, whatever its expiry. `Memory`
/// alone is refused.
pub(crate) fn check_under<K: MacKey>(
    alloc: Global,
    token: &str,
    key: &K,
) -> Result<Option<ServerId>, Memory>
    ensures { IfOk result
        (λ server. server ≡ result_ok (server_verdict (K.bytes_of key.now) token.now)) }
{
    match server_under(alloc, key, token) {
        Ok(server) => Ok(Some(server)),
        Err(TokenError::Memory) => Err(Memory),
        Err(_) => Ok(None),
    }
}

/// The server that a signed token is accepted for under a key, or none, whatever its expiry. `Memory`
/// alone is refused.
pub fn check_jwt_server_token(
    alloc: Global,
    server_token: &str,
    key: &[u8],
) -> Result<Option<ServerId>, Memory>
    ensures { IfOk result (λ server. server ≡ result_ok (server_verdict key.now server_token.now)) }
{
    check_under(alloc, server_token, &BareKey { bytes: key })
}

/// The server that a signed token names, whose MAC is not looked at: anybody can make such a token. Refused
/// by the first test that fails: its three parts, its header, its claims.
pub fn dangerous_insecure_extract_jwt_server_token(
    alloc: Global,
    server_token: &str,
) -> Result<ServerId, TokenError>
    ensures { IsTokenAnswer (λ server. server) (extracted server_token.now) result }
{
    let claims = untested(alloc, server_token)?;
    server_test(&claims)
}

/// The server that a plain token names before its first space, where the rest is the shared token. It takes
/// no memory.
pub fn check_server_token(server_token: &str, auth_token: &str) -> Option<ServerId>
    ensures { result ≡ plain_server auth_token.now server_token.now }
{
    let (address, rest) = server_token.split_once(' ')?;
    if rest == auth_token {
        Some(ServerId::new(read_addr(address)?))
    } else {
        None
    }
}

/// How many bytes most addresses have with a space, at most.
const ADDRESS_ROOM: usize = 24;

// What the token for a server claims.
fn server_claims(alloc: Global, server_id: ServerId) -> Result<String, Memory>
    ensures { IfOk result (λ claims. string_bytes claims ≡ server_claims_text (addr_text server_id)) }
{
    let address = server_id.addr();
    Ok(format!(in alloc; "{{\"exp\":0,\"server_id\":\"{address}\"}}")?)
}

/// The signed token for a server, under a key, which is accepted for it. `Memory` alone is refused.
pub fn create_jwt_server_token(
    alloc: Global,
    server_id: ServerId,
    key: &[u8],
) -> Result<String, Memory>
    ensures text { IfOk result
        (λ token. string_bytes token ≡ token_text key.now (server_claims_text (addr_text server_id))) }
    ensures accepted { OnOk result
        (server_verdict key.now (token_text key.now (server_claims_text (addr_text server_id)))
        ≡ Ok server_id) }
{
    fits(server_id.addr());
    let claims = server_claims(alloc, server_id)?;
    token_under(alloc, &BareKey { bytes: key }, claims.as_bytes())
}

/// The plain token for a server: its address, a space and the shared token. It is accepted for that
/// server. `Memory` alone is refused.
pub fn create_server_token(
    alloc: Global,
    server_id: ServerId,
    auth_token: &str,
) -> Result<String, Memory>
    ensures text { IfOk result
        (λ token. string_bytes token ≡ plain_text (addr_text server_id) auth_token.now) }
    ensures accepted { OnOk result
        (plain_server auth_token.now (plain_text (addr_text server_id) auth_token.now) ≡ Some server_id) }
{
    fits(server_id.addr());
    let address = server_id.addr();
    let room = ADDRESS_ROOM.saturating_add(auth_token.len());
    let mut token = String::with_capacity(alloc, room)?;
    write!(token, "{address} {auth_token}")?;
    Ok(token)
}

// Each number of an address fits its type. It does nothing when it runs.
fn fits(address: Addr)
    ensures { IsAddr address }
{
    match address {
        Addr::V4(octets, _) => {
            let [_a, _b, _c, _d] = octets;
        }
        Addr::V6(groups, _) => {
            let _groups = groups;
        }
    }
}
