//! The tables of a configuration that say by their `type` how somebody is told.
ghost use Rattle.std.specs.Prelude.{◌≡◌, IfOk, option_map, option_and_then, codes};
ghost use Rattle.toml.specs.View.{table_view};
ghost use Rattle.dist_types.specs.Addr.{addr_text};
ghost use Rattle.dist_token.specs.Token.{plain_text};
ghost use Rattle.command_line.specs.Values.{text_at, http_url_at, optional_number_at};
ghost use Rattle.command_line.specs.Profile.{typed_at, client_auth_of, server_auth_of, builder_of};
ghost use Rattle.command_line.specs.Profile.{scheduler_auth_of, proxied, signing, own_token};

use crate::look_up::{has_only, http_url_at, optional_number_at, table_at, text_at};
use crate::values::is_secret;
use dist_config::config::{ClientAuth, ServerAuth};
use dist_token::server_token::{
    INSECURE_DIST_SERVER_TOKEN, create_server_token, dangerous_insecure_extract_jwt_server_token,
};
use dist_types::addr::{Addr, same_addr};
use dist_types::fault::Memory;
use dist_types::ids::ServerId;
use dist_types::text::Text;
use dist_types::token_error::TokenError;
use std::alloc::Global;
use toml::Table;

/// The text of a table's key.
fn copy_at(alloc: Global, table: &Table, key: &str) -> Result<Option<Text>, Memory>
    ensures { IfOk result (λ text. text ≡ text_at key.now (table_view table.now)) }
{
    match text_at(table, key) {
        Some(text) => {
            let text = Text::of(alloc, text)?;
            Ok(Some(text))
        }
        None => Ok(None),
    }
}

fn shared_client(alloc: Global, table: &Table) -> Result<Option<ClientAuth>, Memory>
    ensures { IfOk result (λ auth. auth ≡ option_map (λ t. ClientAuth.Token t)
        (text_at (codes "token") (table_view table.now))) }
{
    match copy_at(alloc, table, "token")? {
        Some(token) => Ok(Some(ClientAuth::Token { token })),
        None => Ok(None),
    }
}

fn proxied_client(alloc: Global, table: &Table) -> Result<Option<ClientAuth>, Memory>
    ensures { IfOk result (λ auth. auth ≡ proxied (http_url_at (codes "url") (table_view table.now))
        (optional_number_at (codes "cache_secs") (table_view table.now))) }
{
    match http_url_at(alloc, table, "url")? {
        Some(url) => match optional_number_at(table, "cache_secs") {
            Some(cache_secs) => Ok(Some(ClientAuth::ProxyToken { url, cache_secs })),
            None => Ok(None),
        },
        None => Ok(None),
    }
}

#[tactic(auto, unfolding(crate::specs::Profile::client_auth_of))]
fn client_auth_of(alloc: Global, kind: &str, table: &Table) -> Result<Option<ClientAuth>, Memory>
    ensures { IfOk result (λ auth. auth ≡ client_auth_of kind.now (table_view table.now)) }
{
    if kind == "DANGEROUSLY_INSECURE" {
        if has_only(table, &["type"]) {
            return Ok(Some(ClientAuth::Insecure));
        }
        return Ok(None);
    }
    if kind == "token" {
        if has_only(table, &["type", "token"]) {
            return shared_client(alloc, table);
        }
        return Ok(None);
    }
    if kind == "proxy_token" {
        if has_only(table, &["type", "url", "cache_secs"]) {
            return proxied_client(alloc, table);
        }
        return Ok(None);
    }
    Ok(None)
}

/// How a scheduler tells its clients, by the table at a key.
pub fn client_auth_at(alloc: Global, table: &Table, key: &str) -> Result<Option<ClientAuth>, Memory>
    ensures { IfOk result (λ auth. auth ≡ typed_at client_auth_of key.now (table_view table.now)) }
{
    match table_at(table, key) {
        Some(inner) => match text_at(inner, "type") {
            Some(kind) => client_auth_of(alloc, kind, inner),
            None => Ok(None),
        },
        None => Ok(None),
    }
}

fn shared_server(alloc: Global, table: &Table) -> Result<Option<ServerAuth>, Memory>
    ensures { IfOk result (λ auth. auth ≡ option_map (λ t. ServerAuth.Token t)
        (text_at (codes "token") (table_view table.now))) }
{
    match copy_at(alloc, table, "token")? {
        Some(token) => Ok(Some(ServerAuth::Token { token })),
        None => Ok(None),
    }
}

fn signing_server(alloc: Global, table: &Table) -> Result<Option<ServerAuth>, Memory>
    ensures { IfOk result (λ auth. auth ≡ option_and_then signing
        (text_at (codes "secret_key") (table_view table.now))) }
{
    match text_at(table, "secret_key") {
        Some(text) => {
            if is_secret(alloc, text)? {
                let secret_key = Text::of(alloc, text)?;
                return Ok(Some(ServerAuth::JwtHS256 { secret_key }));
            }
            Ok(None)
        }
        None => Ok(None),
    }
}

#[tactic(auto, unfolding(crate::specs::Profile::server_auth_of))]
fn server_auth_of(alloc: Global, kind: &str, table: &Table) -> Result<Option<ServerAuth>, Memory>
    ensures { IfOk result (λ auth. auth ≡ server_auth_of kind.now (table_view table.now)) }
{
    if kind == "DANGEROUSLY_INSECURE" {
        if has_only(table, &["type"]) {
            return Ok(Some(ServerAuth::Insecure));
        }
        return Ok(None);
    }
    if kind == "token" {
        if has_only(table, &["type", "token"]) {
            return shared_server(alloc, table);
        }
        return Ok(None);
    }
    if kind == "jwt_hs256" {
        if has_only(table, &["type", "secret_key"]) {
            return signing_server(alloc, table);
        }
        return Ok(None);
    }
    Ok(None)
}

/// How a scheduler tells its build servers, by the table at a key.
pub fn server_auth_at(alloc: Global, table: &Table, key: &str) -> Result<Option<ServerAuth>, Memory>
    ensures { IfOk result (λ auth. auth ≡ typed_at server_auth_of key.now (table_view table.now)) }
{
    match table_at(table, key) {
        Some(inner) => match text_at(inner, "type") {
            Some(kind) => server_auth_of(alloc, kind, inner),
            None => Ok(None),
        },
        None => Ok(None),
    }
}

#[tactic(auto, unfolding(crate::specs::Profile::builder_of))]
fn builder_of(kind: &str, table: &Table) -> Option<()>
    ensures { result ≡ builder_of kind.now (table_view table.now) }
{
    if kind == "echo" {
        if has_only(table, &["type"]) {
            return Some(());
        }
        return None;
    }
    None
}

/// Whether the table at a key names the builder that there is.
pub fn builder_at(table: &Table, key: &str) -> Option<()>
    ensures { result ≡ typed_at builder_of key.now (table_view table.now) }
{
    match table_at(table, key) {
        Some(inner) => match text_at(inner, "type") {
            Some(kind) => builder_of(kind, inner),
            None => None,
        },
        None => None,
    }
}

/// The plain token of the server of an address.
fn plain_token(alloc: Global, address: Addr, shared: &str) -> Result<Text, Memory>
    ensures { IfOk result (λ token. token ≡ plain_text (addr_text address) shared.now) }
{
    let token = create_server_token(alloc, ServerId::new(address), shared)?;
    Ok(Text::new(token))
}

fn shared_token(alloc: Global, address: Addr, table: &Table) -> Result<Option<Text>, Memory>
    ensures { IfOk result (λ token. token ≡ option_map (plain_text (addr_text address))
        (text_at (codes "token") (table_view table.now))) }
{
    match text_at(table, "token") {
        Some(shared) => {
            let token = plain_token(alloc, address, shared)?;
            Ok(Some(token))
        }
        None => Ok(None),
    }
}

fn own_token(alloc: Global, address: Addr, text: &str) -> Result<Option<Text>, Memory>
    ensures { IfOk result (λ token. token ≡ own_token address text.now) }
{
    let named = match dangerous_insecure_extract_jwt_server_token(alloc, text) {
        Ok(named) => named.addr(),
        Err(TokenError::Memory) => return Err(Memory),
        Err(_) => return Ok(None),
    };
    if same_addr(&named, &address) {
        let token = Text::of(alloc, text)?;
        return Ok(Some(token));
    }
    Ok(None)
}

fn signed_token(alloc: Global, address: Addr, table: &Table) -> Result<Option<Text>, Memory>
    ensures { IfOk result (λ token. token ≡ option_and_then (own_token address)
        (text_at (codes "token") (table_view table.now))) }
{
    match text_at(table, "token") {
        Some(text) => own_token(alloc, address, text),
        None => Ok(None),
    }
}

#[tactic(auto, unfolding(crate::specs::Profile::scheduler_auth_of))]
fn scheduler_auth_of(
    alloc: Global,
    address: Addr,
    kind: &str,
    table: &Table,
) -> Result<Option<Text>, Memory>
    ensures { IfOk result (λ token. token ≡ scheduler_auth_of address kind.now (table_view table.now)) }
{
    if kind == "DANGEROUSLY_INSECURE" {
        if has_only(table, &["type"]) {
            let token = plain_token(alloc, address, INSECURE_DIST_SERVER_TOKEN)?;
            return Ok(Some(token));
        }
        return Ok(None);
    }
    if kind == "token" {
        if has_only(table, &["type", "token"]) {
            return shared_token(alloc, address, table);
        }
        return Ok(None);
    }
    if kind == "jwt_token" {
        if has_only(table, &["type", "token"]) {
            return signed_token(alloc, address, table);
        }
        return Ok(None);
    }
    Ok(None)
}

/// The token that the server of an address shows to the scheduler, by the table at a key.
pub fn scheduler_auth_at(
    alloc: Global,
    address: Addr,
    table: &Table,
    key: &str,
) -> Result<Option<Text>, Memory>
    ensures { IfOk result (λ token. token ≡ typed_at (scheduler_auth_of address) key.now
        (table_view table.now)) }
{
    match table_at(table, key) {
        Some(inner) => match text_at(inner, "type") {
            Some(kind) => scheduler_auth_of(alloc, address, kind, inner),
            None => Ok(None),
        },
        None => Ok(None),
    }
}
