//! The command line: which command words ask for, the configuration files that it reads, and the keys and
//! tokens that it writes.
//!
//! The contract: words ask for a command exactly where they stand in its row, by one definition over the
//! words alone. What a file's bytes say is one definition over the table that they are as TOML: a
//! configuration, or the one cause why there is none. `Files` answers Missing exactly where there is no such
//! file, and fails only where its count of faults rose. The line of a key or token is one function of the
//! command and of the random stream that is handed in, or the key is not base64url. Which files are read, and
//! how often, is no clause: of reading only the count of faults is told.
//!
//! The layer above uses `parse::{Command, AuthSubcommand, try_parse_from}`, `files` (the trait, the files in
//! memory and those of the system), `read::{scheduler_config, server_config}` and `line::auth_line`.
#![tactic(auto)]

pub mod asked;
pub mod auth;
pub mod cause;
pub mod command;
mod events;
pub mod files;
pub mod laws;
pub mod line;
pub mod look_up;
pub mod need;
pub mod option_words;
pub mod parse;
pub mod read;
pub mod token_length;
pub mod values;
