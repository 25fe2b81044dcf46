//! Looks up the keys of a TOML table.
ghost use Rattle.std.specs.Prelude.{◌≡◌, map, option_map, option_and_then, IfOk};
ghost use Rattle.std.specs.List.{list_any};
ghost use Rattle.std.specs.Str.{bytes_eq};
ghost use Rattle.toml.specs.Data.{get_member, as_table};
ghost use Rattle.toml.specs.View.{view, table_view};
ghost use Rattle.command_line.specs.Unknown.{lesser, least_with, least_unknown, IsLeast};
ghost use Rattle.command_line.specs.Values.{has_only, text_at, address_at, http_url_at, http_url_in};
ghost use Rattle.command_line.specs.Values.{optional_number, optional_number_at, rules_in, rules_at};

use dist_types::addr::{Addr, read_addr};
use dist_types::fault::Memory;
use dist_types::rules::Rules;
use std::alloc::Global;
use toml::{Table, Value};
use url::{ParseError, Url};

/// The value at a key.
pub fn value_at<'a>(table: &'a Table, key: &str) -> Option<&'a Value>
    ensures { option_map (λ v. view v.now) result ≡ get_member key.now (table_view table.now) }
{
    table.get(key)
}

fn is_one_of(key: &str, names: &[&str]) -> bool
    ensures { result ≡ list_any (λ name. bytes_eq name.now key.now) names.now }
{
    names.iter().any(|name| *name == key)
}

/// The lesser of a key and another, if there is one, in byte order.
fn lesser<'a>(key: &'a str, least: Option<&'a str>) -> &'a str
    ensures { result.now ≡ lesser key.now (option_map (λ other. other.now) least.entry) }
{
    match least {
        None => key,
        Some(other) => { if key.cmp(other).is_gt() { other } else { key } }
    }
}

/// The least key that is none of these, with one key more.
fn least_with<'a>(known: &[&str], least: Option<&'a str>, key: &'a str) -> Option<&'a str>
    ensures { option_map (λ k. k.now) result
        ≡ least_with (map (λ name. name.now) known.now) (option_map (λ k. k.now) least.entry) key.now }
{
    if is_one_of(key, known) {
        least
    } else {
        Some(lesser(key, least))
    }
}

/// The least key, in byte order, that is none of these.
pub fn least_unknown<'a>(table: &'a Table, known: &[&str]) -> Option<&'a str>
    ensures unknown { option_map (λ key. key.now) result
        ≡ least_unknown (map (λ name. name.now) known.now) (table_view table.now) }
    ensures least { IsLeast (map (λ name. name.now) known.now) (table_view table.now)
        (option_map (λ key. key.now) result) }
{
    let mut least = None;
    for (key, _) in table {
        least = least_with(known, least, key.as_str());
    }
    least
}

/// Whether each key is one of these.
pub fn has_only(table: &Table, known: &[&str]) -> bool
    ensures { result ≡ has_only (map (λ name. name.now) known.now) (table_view table.now) }
{
    least_unknown(table, known).is_none()
}

/// The text at a key.
pub fn text_at<'a>(table: &'a Table, key: &str) -> Option<&'a str>
    ensures { option_map (λ text. text.now) result ≡ text_at key.now (table_view table.now) }
{
    match value_at(table, key) {
        Some(value) => value.as_str(),
        None => None,
    }
}

/// The table at a key.
pub fn table_at<'a>(table: &'a Table, key: &str) -> Option<&'a Table>
    ensures { option_map (λ inner. table_view inner.now) result
        ≡ option_and_then as_table (get_member key.now (table_view table.now)) }
{
    match value_at(table, key) {
        Some(value) => value.as_table(),
        None => None,
    }
}

/// The address at a key.
pub fn address_at(table: &Table, key: &str) -> Option<Addr>
    ensures { result ≡ address_at key.now (table_view table.now) }
{
    match text_at(table, key) {
        Some(text) => read_addr(text),
        None => None,
    }
}

fn optional_number(value: Option<&Value>) -> Option<Option<u64>>
    ensures { result ≡ optional_number (option_map (λ v. view v.now) value.entry) }
{
    match value {
        None => Some(None),
        Some(value) => match value.as_integer() {
            None => None,
            Some(number) => {
                if number < 0 {
                    None
                } else {
                    Some(Some(number as u64))
                }
            }
        },
    }
}

/// The whole number at a key, where it is at least 0; within it, none where there is no value.
pub fn optional_number_at(table: &Table, key: &str) -> Option<Option<u64>>
    ensures { result ≡ optional_number_at key.now (table_view table.now) }
{
    optional_number(value_at(table, key))
}

/// The version of the rules that a number names, and the first where there is none.
fn rules_in(number: Option<u64>) -> Option<Rules>
    ensures { result ≡ rules_in number }
{
    match number {
        None => Some(Rules::One),
        Some(1) => Some(Rules::One),
        Some(2) => Some(Rules::Two),
        Some(_) => None,
    }
}

/// The version of the rules at a key, where its value is 1 or 2; the first where there is no value.
pub fn rules_at(table: &Table, key: &str) -> Option<Rules>
    ensures { result ≡ rules_at key.now (table_view table.now) }
{
    match optional_number_at(table, key) {
        Some(number) => rules_in(number),
        None => None,
    }
}

/// The URL that a text says, whose scheme is `http`.
pub fn http_url_in(alloc: Global, text: &str) -> Result<Option<Url>, Memory>
    ensures { IfOk result (λ url. url ≡ http_url_in text.now) }
{
    match Url::parse(alloc, text) {
        Ok(url) => {
            if url.scheme() == "http" {
                Ok(Some(url))
            } else {
                Ok(None)
            }
        }
        Err(ParseError::OutOfMemory) => Err(Memory),
        Err(ParseError::Overflow) => Err(Memory),
        Err(_) => Ok(None),
    }
}

/// The URL at a key, whose scheme is `http`.
pub fn http_url_at(alloc: Global, table: &Table, key: &str) -> Result<Option<Url>, Memory>
    ensures { IfOk result (λ url. url ≡ http_url_at key.now (table_view table.now)) }
{
    match text_at(table, key) {
        Some(text) => http_url_in(alloc, text),
        None => Ok(None),
    }
}
