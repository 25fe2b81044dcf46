//! The options behind a command: `--name VALUE` or `--name=VALUE`, each once, in any order. They are read by
//! clap's builder; what clap takes beyond the rows is refused before it.
ghost use Rattle.std.specs.Prelude.{◌≡◌, IfOk, map, option_map, string_bytes, true, false};
ghost use Rattle.std.specs.List.{list_all};
ghost use Rattle.clap.specs.Lexer.{strip_byte, name_and_value, long_of};
ghost use Rattle.clap.specs.Words.{app_of, found_of, rule_of, rows_of};
ghost use Rattle.command_line.specs.Options.{said_of, is_option_word, may_stand, options_in};
ghost use Rattle.command_line.specs.Clap.{option_rule, bare_app, options_app, said_in};

use clap::error::ErrorKind;
use clap::{Arg, ArgMatches, Command};
use dist_types::fault::Memory;
use std::alloc::{AllocError, Global};

/// What the options of a command say.
#[derive(Clone, Copy, Debug)]
pub struct Options<'a> {
    /// How many random bits.
    pub bits: Option<&'a str>,
    /// The address of a build server.
    pub server: Option<&'a str>,
    /// A key in base64url.
    pub secret_key: Option<&'a str>,
    /// The name of a file.
    pub config: Option<&'a str>,
}

// What follows a first `-`.
fn behind_dash(word: &str) -> Option<&str>
    ensures { option_map (λ rest. rest.now) result ≡ strip_byte 45 word.now }
{
    word.strip_prefix('-')
}

// What stands before the first `=`, and what stands behind it if there is one.
fn name_and_value(text: &str) -> (&str, Option<&str>)
    ensures { (result.0.now, option_map (λ value. value.now) result.1) ≡ name_and_value text.now }
{
    match text.split_once('=') {
        Some((name, value)) => (name, Some(value)),
        None => (text, None),
    }
}

// `--name` or `--name=value`, as the name and the value.
fn long_of(word: &str) -> Option<(&str, Option<&str>)>
    ensures { option_map (λ p. (p.0.now, option_map (λ value. value.now) p.1)) result ≡ long_of word.now }
{
    let rest = behind_dash(behind_dash(word)?)?;
    if rest.is_empty() {
        return None;
    }
    Some(name_and_value(rest))
}

// Whether a word is `--name`, or `--name=value` with a value that is not empty.
fn is_option_word(word: &str) -> bool
    ensures { result ≡ is_option_word (long_of word.now) }
{
    match long_of(word) {
        None => false,
        Some((_, None)) => true,
        Some((_, Some(value))) => !value.is_empty(),
    }
}

// Whether a word may stand in a row: it is not empty, and where it has two or more bytes and begins with `-`,
// it is an option's.
fn may_stand(word: &str) -> bool
    ensures { result ≡ may_stand word.now }
{
    match word.as_bytes() {
        [] => false,
        [_] => true,
        [first, ..] => {
            if *first == b'-' {
                is_option_word(word)
            } else {
                true
            }
        }
    }
}

// An option that takes one value.
fn option<'a>(alloc: Global, name: &'a str) -> Arg<'a>
    ensures rule { rule_of result ≡ option_rule name.entry.now }
    ensures local { result.global ≡ false }
{
    Arg::new(alloc, name).long(name)
}

// A command with no program's name before its words, and no flag for help.
fn bare_command<'a>(alloc: Global) -> Command<'a>
    ensures { app_of result ≡ bare_app }
{
    Command::new(alloc, "options")
        .no_binary_name(true)
        .disable_help_flag(true)
}

// The command of the options.
fn option_command<'a>(alloc: Global) -> Result<Command<'a>, AllocError>
    ensures { IfOk result (λ command. app_of command ≡ options_app) }
{
    bare_command(alloc)
        .arg(option(alloc, "bits"))?
        .arg(option(alloc, "server"))?
        .arg(option(alloc, "secret-key"))?
        .arg(option(alloc, "config"))
}

// What the matches say.
#[tactic(auto, using(crate::proofs::ClapLemmas::first_value_rows))]
fn said_in<'a>(matches: &ArgMatches<'a>) -> Options<'a>
    ensures { said_of result ≡ said_in (rows_of (found_of matches.now)) }
{
    Options {
        bits: matches.get_str("bits"),
        server: matches.get_str("server"),
        secret_key: matches.get_str("secret-key"),
        config: matches.get_str("config"),
    }
}

// What clap reads of words that may stand.
fn read<'a>(alloc: Global, words: &'a [String]) -> Result<Option<Options<'a>>, Memory>
    requires { list_all may_stand (map string_bytes words.now) ≡ true }
    ensures { IfOk result (λ said. option_map said_of said ≡ options_in (map string_bytes words.now)) }
{
    let command = option_command(alloc)?;
    match command.try_get_matches_from(words) {
        Ok(matches) => Ok(Some(said_in(&matches))),
        Err(refused) => {
            if refused.kind() == ErrorKind::OutOfMemory {
                Err(Memory)
            } else {
                Ok(None)
            }
        }
    }
}

fn all_may_stand(words: &[String]) -> bool
    ensures { result ≡ list_all may_stand (map string_bytes words.now) }
{
    words.iter().all(|word| may_stand(word.as_str()))
}

/// What the options that these words are say, where each word is part of one. Refused for want of memory
/// alone.
pub fn options_in<'a>(alloc: Global, words: &'a [String]) -> Result<Option<Options<'a>>, Memory>
    ensures { IfOk result (λ said. option_map said_of said ≡ options_in (map string_bytes words.now)) }
{
    if !all_may_stand(words) {
        return Ok(None);
    }
    read(alloc, words)
}
