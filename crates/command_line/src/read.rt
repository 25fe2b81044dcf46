//! Reads the configuration files.
ghost use Rattle.std.specs.Prelude.{◌≡◌, ⊤, map, option_map, Err};
ghost use Rattle.toml.specs.View.{table_view};
ghost use Rattle.toml.specs.Data.{get_member};
ghost use Rattle.command_line.specs.Reading.{of_bytes, says, IsRead};
ghost use Rattle.command_line.specs.Told.{IsConfigAnswer, IsConfigFault, needed};
ghost use Rattle.command_line.specs.Profile.{known, address_or, scheduler_in, server_in, text_in, document_in};
ghost use Rattle.command_line.specs.Profile.{table_in, scheduler_config_in, server_config_in};

use crate::auth::{builder_at, client_auth_at, scheduler_auth_at, server_auth_at};
use crate::cause::ConfigFault;
use crate::files::{FileFault, Files};
use crate::look_up::{
    address_at, http_url_at, least_unknown, optional_number_at, rules_at, text_at, value_at,
};
use dist_config::config::{SchedulerConfig, ServerConfig};
use dist_types::addr::Addr;
use dist_types::text::Text;
use line_program::fault::ConfigCause;
use std::alloc::Global;
use toml::Table;

/// The capacity of a cache of toolchains where none is configured, in bytes.
pub const TOOLCHAIN_CACHE_SIZE: u64 = 10_737_418_240;

/// What was found at a key, or that key as the bad one.
fn needed<T>(alloc: Global, key: &str, found: Option<T>) -> Result<T, ConfigFault>
    ensures { IsConfigAnswer (λ x. x) (needed key.now found) result }
{
    match found {
        Some(value) => Ok(value),
        None => Err(bad_key(alloc, key)),
    }
}

fn bad_key(alloc: Global, key: &str) -> ConfigFault
    ensures { IsConfigFault {U = ⊤} result (Err (ConfigCause.Key key.now)) }
{
    match Text::of(alloc, key) {
        Ok(key) => ConfigFault::Cause(ConfigCause::Key(key)),
        Err(_) => ConfigFault::Memory,
    }
}

fn known(alloc: Global, keys: &[&str], table: &Table) -> Result<(), ConfigFault>
    ensures { IsConfigAnswer (λ x. x) (known (map (λ key. key.now) keys.now) (table_view table.now)) result }
{
    match least_unknown(table, keys) {
        Some(key) => Err(bad_key(alloc, key)),
        None => Ok(()),
    }
}

fn address_or(other: Addr, table: &Table, key: &str) -> Option<Addr>
    ensures { result ≡ address_or other (get_member key.now (table_view table.now)) key.now
        (table_view table.now) }
{
    match value_at(table, key) {
        Some(_) => address_at(table, key),
        None => Some(other),
    }
}

const SCHEDULER_KEYS: [&str; 4] = ["public_addr", "client_auth", "server_auth", "rules"];

#[tactic(auto, unfolding(crate::specs::Profile::scheduler_in))]
fn scheduler_in(alloc: Global, table: &Table) -> Result<SchedulerConfig, ConfigFault>
    ensures { IsConfigAnswer (λ x. x) (scheduler_in (table_view table.now)) result }
{
    known(alloc, &SCHEDULER_KEYS, table)?;
    let public_addr = needed(alloc, "public_addr", address_at(table, "public_addr"))?;
    let client_auth = client_auth_at(alloc, table, "client_auth")?;
    let client_auth = needed(alloc, "client_auth", client_auth)?;
    let server_auth = server_auth_at(alloc, table, "server_auth")?;
    let server_auth = needed(alloc, "server_auth", server_auth)?;
    let rules = needed(alloc, "rules", rules_at(table, "rules"))?;
    Ok(SchedulerConfig {
        public_addr,
        client_auth,
        server_auth,
        rules,
    })
}

const SERVER_KEYS: [&str; 7] = [
    "builder",
    "cache_dir",
    "public_addr",
    "bind_address",
    "scheduler_url",
    "scheduler_auth",
    "toolchain_cache_size",
];

#[tactic(auto, unfolding(crate::specs::Profile::server_in))]
fn server_in(alloc: Global, table: &Table) -> Result<ServerConfig, ConfigFault>
    ensures { IsConfigAnswer (λ x. x) (server_in (table_view table.now)) result }
{
    known(alloc, &SERVER_KEYS, table)?;
    needed(alloc, "builder", builder_at(table, "builder"))?;
    let cache_dir = needed(alloc, "cache_dir", text_at(table, "cache_dir"))?;
    let public_addr = needed(alloc, "public_addr", address_at(table, "public_addr"))?;
    let bind_address = address_or(public_addr, table, "bind_address");
    let bind_address = needed(alloc, "bind_address", bind_address)?;
    let scheduler_url = http_url_at(alloc, table, "scheduler_url")?;
    let scheduler_url = needed(alloc, "scheduler_url", scheduler_url)?;
    let scheduler_auth = scheduler_auth_at(alloc, public_addr, table, "scheduler_auth")?;
    let scheduler_auth = needed(alloc, "scheduler_auth", scheduler_auth)?;
    let size = optional_number_at(table, "toolchain_cache_size");
    let size = needed(alloc, "toolchain_cache_size", size)?;
    let cache_dir = Text::of(alloc, cache_dir)?;
    Ok(ServerConfig {
        cache_dir,
        public_addr,
        bind_address,
        scheduler_url,
        scheduler_auth,
        toolchain_cache_size: size.unwrap_or(TOOLCHAIN_CACHE_SIZE),
    })
}

/// The table that a text is as TOML.
fn document_in(alloc: Global, text: &str) -> Result<Table, ConfigFault>
    ensures { IsConfigAnswer table_view (document_in text.now) result }
{
    match toml::table_from_str(alloc, text) {
        Ok(table) => Ok(table),
        Err(e) => {
            if e.is_memory() {
                Err(ConfigFault::Memory)
            } else {
                Err(ConfigFault::Cause(ConfigCause::NotToml))
            }
        }
    }
}

/// The text that bytes are, where they are UTF-8.
fn text_in(bytes: &[u8]) -> Option<&str>
    ensures { option_map (λ text. text.now) result ≡ text_in bytes.now }
{
    match str::from_utf8(bytes) {
        Ok(text) => Some(text),
        Err(_) => None,
    }
}

/// The table that the bytes of a file are.
fn table_in(alloc: Global, bytes: &[u8]) -> Result<Table, ConfigFault>
    ensures { IsConfigAnswer table_view (table_in bytes.now) result }
{
    match text_in(bytes) {
        Some(text) => document_in(alloc, text),
        None => Err(ConfigFault::Cause(ConfigCause::NotToml)),
    }
}

/// The configuration of a scheduler that bytes say, or why they say none.
pub fn scheduler_config_in(alloc: Global, bytes: &[u8]) -> Result<SchedulerConfig, ConfigFault>
    ensures { IsConfigAnswer (λ x. x) (scheduler_config_in bytes.now) result }
{
    let table = table_in(alloc, bytes)?;
    scheduler_in(alloc, &table)
}

/// The configuration of a build server that bytes say, or why they say none.
pub fn server_config_in(alloc: Global, bytes: &[u8]) -> Result<ServerConfig, ConfigFault>
    ensures { IsConfigAnswer (λ x. x) (server_config_in bytes.now) result }
{
    let table = table_in(alloc, bytes)?;
    server_in(alloc, &table)
}

/// The bytes of a file.
fn file_bytes<D: Files>(files: &mut D, path: &str) -> Result<Vec<u8>, ConfigFault>
    ensures read { IsRead (λ bytes. bytes.items) result (says of_bytes path.now) (D.files files.old)
        (D.faults files.old) (D.faults files.new) }
    ensures kept { D.files files.new ≡ D.files files.old }
{
    match files.read(path) {
        Ok(bytes) => Ok(bytes),
        Err(FileFault::Missing) => Err(ConfigFault::Cause(ConfigCause::Missing)),
        Err(FileFault::Failed) => Err(ConfigFault::Cause(ConfigCause::Unreadable)),
        Err(FileFault::Memory) => Err(ConfigFault::Memory),
    }
}

/// The configuration of a scheduler that a file says, or why it says none.
pub fn scheduler_config<D: Files>(
    alloc: Global,
    files: &mut D,
    path: &str,
) -> Result<SchedulerConfig, ConfigFault>
    ensures read { IsRead (λ config. config) result (says scheduler_config_in path.now) (D.files files.old)
        (D.faults files.old) (D.faults files.new) }
    ensures kept { D.files files.new ≡ D.files files.old }
{
    let bytes = match file_bytes(files, path) {
        Ok(bytes) => bytes,
        Err(fault) => return Err(fault),
    };
    scheduler_config_in(alloc, &bytes)
}

/// The configuration of a build server that a file says, or why it says none.
pub fn server_config<D: Files>(
    alloc: Global,
    files: &mut D,
    path: &str,
) -> Result<ServerConfig, ConfigFault>
    ensures read { IsRead (λ config. config) result (says server_config_in path.now) (D.files files.old)
        (D.faults files.old) (D.faults files.new) }
    ensures kept { D.files files.new ≡ D.files files.old }
{
    let bytes = match file_bytes(files, path) {
        Ok(bytes) => bytes,
        Err(fault) => return Err(fault),
    };
    server_config_in(alloc, &bytes)
}
