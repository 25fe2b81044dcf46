//! What words ask for, by the rows of the command line.
ghost use Rattle.std.specs.Prelude.{◌≡◌, ◌/◌, ◌∷◌, IfOk, map, option_map, option_and_then, string_bytes};
ghost use Rattle.command_line.specs.Options.{said_of, options_in};
ghost use Rattle.command_line.specs.Asked.{farm_row, audit_row, storm_row, key_row, shared_length, shared_by, keyed};
ghost use Rattle.command_line.specs.Asked.{token_by, file_of, auth_row, command_row, asked_by};
ghost use Rattle.command_line.specs.Asked as spec;
ghost use Rattle.command_line.specs.Views.{asked_of};

use crate::events::events_in;
use crate::option_words::{Options, options_in};
use crate::token_length::TokenLength;
use dist_types::addr::{Addr, read_addr};
use dist_types::fault::Memory;
use std::alloc::Global;

/// How many bits a shared token has where none are asked for.
const SHARED_BITS: u64 = 256;

/// How many bytes a signing key has.
const KEY_BYTES: usize = 32;

/// What is asked for.
#[derive(Clone, Copy, Debug)]
pub enum Asked<'a> {
    /// The run of a script.
    Farm,
    /// So many random bytes in base64url.
    Random(usize),
    /// The token of a server under a key in base64url.
    TokenUnder(Addr, &'a str),
    /// The token of a server under the key of the file of this name.
    TokenOf(Addr, &'a str),
    /// A scheduler of the file of this name.
    Scheduler(&'a str),
    /// A build server of the file of this name.
    Server(&'a str),
    /// The storm of so many events.
    Storm(u64),
    /// The audit of a printed run.
    Audit,
}

fn farm_row(words: &[String]) -> Option<Asked<'_>>
    ensures { option_map asked_of result ≡ farm_row (map string_bytes words.now) }
{
    match words.split_first() {
        None => Some(Asked::Farm),
        Some(_) => None,
    }
}

fn audit_row(words: &[String]) -> Option<Asked<'_>>
    ensures { option_map asked_of result ≡ audit_row (map string_bytes words.now) }
{
    match words.split_first() {
        None => Some(Asked::Audit),
        Some(_) => None,
    }
}

fn storm_row(words: &[String]) -> Option<Asked<'_>>
    ensures { option_map asked_of result ≡ storm_row (map string_bytes words.now) }
{
    match words {
        [] => None,
        [word] => match events_in(word.as_str()) {
            Some(count) => Some(Asked::Storm(count)),
            None => None,
        },
        [_, _, ..] => None,
    }
}

fn key_row(words: &[String]) -> Option<Asked<'_>>
    ensures { option_map asked_of result ≡ key_row (map string_bytes words.now) }
{
    match words.split_first() {
        None => Some(Asked::Random(KEY_BYTES)),
        Some(_) => None,
    }
}

fn shared_length(bits: Option<&str>) -> Option<usize>
    ensures { result ≡ option_map (λ n. n / 8) (shared_length (option_map (λ text. text.now) bits.entry)) }
{
    match bits {
        None => Some((SHARED_BITS / 8) as usize),
        Some(text) => {
            let length = TokenLength::from_bits(text)?;
            Some(length.num_bytes())
        }
    }
}

fn shared_by<'a>(said: &Options<'a>) -> Option<Asked<'a>>
    ensures { option_map asked_of result ≡ shared_by (said_of said.now) }
{
    if said.server.is_some() {
        return None;
    }
    if said.secret_key.is_some() {
        return None;
    }
    if said.config.is_some() {
        return None;
    }
    let num_bytes = shared_length(said.bits)?;
    Some(Asked::Random(num_bytes))
}

fn keyed<'a>(address: Addr, key: Option<&'a str>, path: Option<&'a str>) -> Option<Asked<'a>>
    ensures { option_map asked_of result
        ≡ keyed address (option_map (λ t. t.now) key.entry) (option_map (λ t. t.now) path.entry) }
{
    match key {
        None => match path {
            None => None,
            Some(path) => Some(Asked::TokenOf(address, path)),
        },
        Some(key) => match path {
            None => Some(Asked::TokenUnder(address, key)),
            Some(_) => None,
        },
    }
}

fn token_by<'a>(said: &Options<'a>) -> Option<Asked<'a>>
    ensures { option_map asked_of result ≡ token_by (said_of said.now) }
{
    if said.bits.is_some() {
        return None;
    }
    match said.server {
        None => None,
        Some(text) => match read_addr(text) {
            None => None,
            Some(address) => keyed(address, said.secret_key, said.config),
        },
    }
}

fn file_of<'a>(said: &Options<'a>) -> Option<&'a str>
    ensures { option_map (λ path. path.now) result ≡ file_of (said_of said.now) }
{
    if said.bits.is_some() {
        return None;
    }
    if said.server.is_some() {
        return None;
    }
    if said.secret_key.is_some() {
        return None;
    }
    said.config
}

fn shared_row<'a>(alloc: Global, words: &'a [String]) -> Result<Option<Asked<'a>>, Memory>
    ensures { IfOk result (λ asked. option_map asked_of asked
        ≡ option_and_then shared_by (options_in (map string_bytes words.now))) }
{
    match options_in(alloc, words)? {
        Some(said) => Ok(shared_by(&said)),
        None => Ok(None),
    }
}

fn token_row<'a>(alloc: Global, words: &'a [String]) -> Result<Option<Asked<'a>>, Memory>
    ensures { IfOk result (λ asked. option_map asked_of asked
        ≡ option_and_then token_by (options_in (map string_bytes words.now))) }
{
    match options_in(alloc, words)? {
        Some(said) => Ok(token_by(&said)),
        None => Ok(None),
    }
}

fn file_row<'a>(alloc: Global, words: &'a [String]) -> Result<Option<&'a str>, Memory>
    ensures { IfOk result (λ path. option_map (λ p. p.now) path
        ≡ option_and_then file_of (options_in (map string_bytes words.now))) }
{
    match options_in(alloc, words)? {
        Some(said) => Ok(file_of(&said)),
        None => Ok(None),
    }
}

// The row of a word behind `auth`.
fn named_auth_row<'a>(
    alloc: Global,
    word: &str,
    words: &'a [String],
) -> Result<Option<Asked<'a>>, Memory>
    ensures { IfOk result (λ asked. option_map asked_of asked
        ≡ auth_row (word.now ∷ map string_bytes words.now)) }
{
    if word == "generate-jwt-hs256-key" {
        return Ok(key_row(words));
    }
    if word == "generate-shared-token" {
        return shared_row(alloc, words);
    }
    if word == "generate-jwt-hs256-server-token" {
        return token_row(alloc, words);
    }
    Ok(None)
}

fn auth_row<'a>(alloc: Global, words: &'a [String]) -> Result<Option<Asked<'a>>, Memory>
    ensures { IfOk result (λ asked. option_map asked_of asked ≡ auth_row (map string_bytes words.now)) }
{
    match words.split_first() {
        Some((word, rest)) => named_auth_row(alloc, word.as_str(), rest),
        None => Ok(None),
    }
}

fn scheduler_row<'a>(alloc: Global, words: &'a [String]) -> Result<Option<Asked<'a>>, Memory>
    ensures { IfOk result (λ asked. option_map asked_of asked
        ≡ option_map spec.scheduler (option_and_then file_of (options_in (map string_bytes words.now)))) }
{
    match file_row(alloc, words)? {
        Some(path) => Ok(Some(Asked::Scheduler(path))),
        None => Ok(None),
    }
}

fn server_row<'a>(alloc: Global, words: &'a [String]) -> Result<Option<Asked<'a>>, Memory>
    ensures { IfOk result (λ asked. option_map asked_of asked
        ≡ option_map spec.server (option_and_then file_of (options_in (map string_bytes words.now)))) }
{
    match file_row(alloc, words)? {
        Some(path) => Ok(Some(Asked::Server(path))),
        None => Ok(None),
    }
}

fn command_row<'a>(alloc: Global, words: &'a [String]) -> Result<Option<Asked<'a>>, Memory>
    ensures { IfOk result (λ asked. option_map asked_of asked ≡ command_row (map string_bytes words.now)) }
{
    let Some((word, rest)) = words.split_first() else {
        return Ok(None);
    };
    let word = word.as_str();
    if word == "farm" {
        return Ok(farm_row(rest));
    }
    if word == "auth" {
        return auth_row(alloc, rest);
    }
    if word == "scheduler" {
        return scheduler_row(alloc, rest);
    }
    if word == "server" {
        return server_row(alloc, rest);
    }
    if word == "storm" {
        return Ok(storm_row(rest));
    }
    if word == "audit" {
        return Ok(audit_row(rest));
    }
    Ok(None)
}

/// What words ask for; the first is the program's name. Refused for want of memory alone.
pub fn asked_by<'a>(alloc: Global, words: &'a [String]) -> Result<Option<Asked<'a>>, Memory>
    ensures { IfOk result (λ asked. option_map asked_of asked ≡ asked_by (map string_bytes words.now)) }
{
    match words.split_first() {
        Some((_, rest)) => command_row(alloc, rest),
        None => Ok(None),
    }
}
