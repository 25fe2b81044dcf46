//! The options in front of the command, read by clap: each once but `--env` and `--output`, in any order.
ghost use Rattle.std.specs.Prelude.{◌≡◌, IfOk, false, map, option_map, string_bytes, unwrap_or, []};
ghost use Rattle.clap.specs.Words.{app_of, found_of, rule_of, rows_of, first_of, all_of};
ghost use Rattle.submit_words.specs.Misuse.{Reads};
ghost use Rattle.submit_words.specs.Options.{option_rule, list_rule, flag_rule, bare_app, with_client, with_files};
ghost use Rattle.submit_words.specs.Options.{with_run, with_limits, with_flags, submit_app, said_in, said_of, is_set};
ghost use Rattle.submit_words.specs.Options as spec;

use crate::misuse::{Misuse, usage};
use clap::error::ErrorKind;
use clap::{Arg, ArgAction, ArgMatches, Command, Error};
use std::alloc::{AllocError, Global};

/// What the options say.
#[derive(Debug, Drop)]
pub struct Options<'a> {
    /// The scheduler's URL.
    pub scheduler: Option<&'a str>,
    /// The clients' token.
    pub token: Option<&'a str>,
    /// The name of the file that has it.
    pub token_file: Option<&'a str>,
    /// The name of the archive's file.
    pub archive: Option<&'a str>,
    /// The folder that keeps the ids of archives.
    pub cache: Option<&'a str>,
    /// The command's folder.
    pub cwd: Option<&'a str>,
    /// The command's variables, each as `NAME=VALUE`.
    pub env: Vec<&'a str>,
    /// The name of the inputs' file.
    pub input: Option<&'a str>,
    /// The outputs, each as `NAME` or `NAME=FILE`.
    pub output: Vec<&'a str>,
    /// How often a job is asked for.
    pub tries: Option<&'a str>,
    /// How many seconds it may take.
    pub max_time: Option<&'a str>,
    /// Whether heads are shown.
    pub verbose: bool,
    /// Whether a line of JSON is written.
    pub json: bool,
    /// Whether the words are asked for.
    pub help: bool,
    /// Whether the version is asked for.
    pub version: bool,
}

// An option that takes one value.
fn option<'a>(alloc: Global, name: &'a str) -> Arg<'a>
    ensures rule { rule_of result ≡ option_rule name.entry.now }
    ensures local { result.global ≡ false }
{
    Arg::new(alloc, name).long(name)
}

// An option that may come again.
fn list<'a>(alloc: Global, name: &'a str) -> Arg<'a>
    ensures rule { rule_of result ≡ list_rule name.entry.now }
    ensures local { result.global ≡ false }
{
    Arg::new(alloc, name).long(name).action(ArgAction::Append)
}

// An option that takes no value.
fn flag<'a>(alloc: Global, name: &'a str) -> Arg<'a>
    ensures rule { rule_of result ≡ flag_rule name.entry.now }
    ensures local { result.global ≡ false }
{
    Arg::new(alloc, name).long(name).action(ArgAction::SetTrue)
}

// A command with no program's name before its words, and no flag for help but its own.
fn bare_command<'a>(alloc: Global) -> Command<'a>
    ensures { app_of result ≡ bare_app }
{
    Command::new(alloc, "dist_submit")
        .no_binary_name(true)
        .disable_help_flag(true)
}

// Whom is asked, under which token.
fn with_client<'a>(alloc: Global, command: Command<'a>) -> Result<Command<'a>, AllocError>
    ensures { IfOk result (λ c. app_of c ≡ with_client (app_of command.entry)) }
{
    command
        .arg(option(alloc, "scheduler"))?
        .arg(option(alloc, "token"))
}

// Which files are read and kept.
fn with_files<'a>(alloc: Global, command: Command<'a>) -> Result<Command<'a>, AllocError>
    ensures { IfOk result (λ c. app_of c ≡ with_files (app_of command.entry)) }
{
    command
        .arg(option(alloc, "token-file"))?
        .arg(option(alloc, "archive"))?
        .arg(option(alloc, "cache"))
}

// What is run.
fn with_run<'a>(alloc: Global, command: Command<'a>) -> Result<Command<'a>, AllocError>
    ensures { IfOk result (λ c. app_of c ≡ with_run (app_of command.entry)) }
{
    command
        .arg(option(alloc, "cwd"))?
        .arg(list(alloc, "env"))?
        .arg(option(alloc, "input"))?
        .arg(list(alloc, "output"))
}

// How often and how long a job is asked for.
fn with_limits<'a>(alloc: Global, command: Command<'a>) -> Result<Command<'a>, AllocError>
    ensures { IfOk result (λ c. app_of c ≡ with_limits (app_of command.entry)) }
{
    command
        .arg(option(alloc, "tries"))?
        .arg(option(alloc, "max-time"))
}

// What is shown.
fn with_flags<'a>(alloc: Global, command: Command<'a>) -> Result<Command<'a>, AllocError>
    ensures { IfOk result (λ c. app_of c ≡ with_flags (app_of command.entry)) }
{
    command
        .arg(flag(alloc, "verbose"))?
        .arg(flag(alloc, "json"))?
        .arg(flag(alloc, "help"))?
        .arg(flag(alloc, "version"))
}

// The command of the options.
fn option_command<'a>(alloc: Global) -> Result<Command<'a>, AllocError>
    ensures { IfOk result (λ command. app_of command ≡ submit_app) }
{
    let command = with_client(alloc, bare_command(alloc))?;
    let command = with_files(alloc, command)?;
    let command = with_run(alloc, command)?;
    let command = with_limits(alloc, command)?;
    with_flags(alloc, command)
}

// The first value of an option.
#[tactic(auto, using(crate::proofs::ReadLemmas::first_rows))]
fn first<'a>(matches: &ArgMatches<'a>, name: &str) -> Option<&'a str>
    ensures { option_map (λ t. t.now) result ≡ first_of name.now (rows_of (found_of matches.now)) }
{
    matches.get_str(name)
}

// Whether a flag stands.
fn is_set(matches: &ArgMatches<'_>, name: &str) -> bool
    ensures { result ≡ is_set (first_of name.now (rows_of (found_of matches.now))) }
{
    match first(matches, name) {
        Some(value) => value == "true",
        None => false,
    }
}

// All values of an option.
#[tactic(auto, using(crate::proofs::ReadLemmas::all_rows))]
fn all<'a>(alloc: Global, matches: &ArgMatches<'a>, name: &str) -> Result<Vec<&'a str>, AllocError>
    ensures { IfOk result (λ v. map (λ t. t.now) v.items
        ≡ unwrap_or (all_of name.now (rows_of (found_of matches.now))) []) }
{
    match matches.get_strs(name) {
        Some(values) => Vec::from_slice(alloc, values),
        None => Ok(Vec::new(alloc)),
    }
}

// What the matches say.
fn said_in<'a>(alloc: Global, matches: &ArgMatches<'a>) -> Result<Options<'a>, AllocError>
    ensures { IfOk result (λ said. said_of said ≡ said_in (rows_of (found_of matches.now))) }
{
    let env = all(alloc, matches, "env")?;
    let output = all(alloc, matches, "output")?;
    Ok(Options {
        scheduler: first(matches, "scheduler"),
        token: first(matches, "token"),
        token_file: first(matches, "token-file"),
        archive: first(matches, "archive"),
        cache: first(matches, "cache"),
        cwd: first(matches, "cwd"),
        env,
        input: first(matches, "input"),
        output,
        tries: first(matches, "tries"),
        max_time: first(matches, "max-time"),
        verbose: is_set(matches, "verbose"),
        json: is_set(matches, "json"),
        help: is_set(matches, "help"),
        version: is_set(matches, "version"),
    })
}

// The first line of a text.
fn first_line(text: &str) -> &str {
    match text.split_once('\n') {
        Some((line, _rest)) => line,
        None => text,
    }
}

// What stands behind `error: `.
fn cause_in(line: &str) -> &str {
    match line.strip_prefix("error: ") {
        Some(cause) => cause,
        None => line,
    }
}

// The first line of what clap says, behind `error: `.
fn cause_of(alloc: Global, refused: &Error) -> Misuse {
    match format!(in alloc; "{refused}") {
        Ok(text) => usage(alloc, cause_in(first_line(text.as_str()))),
        Err(_) => Misuse::Memory,
    }
}

/// What the options that these words are say. Refused exactly where clap finds a fault in the words, unless
/// memory ran out.
pub fn options_in<'a>(alloc: Global, words: &'a [String]) -> Result<Options<'a>, Misuse>
    ensures { Reads said_of (spec.options_in (map string_bytes words.now)) result }
{
    let command = option_command(alloc)?;
    match command.try_get_matches_from(words) {
        Ok(matches) => {
            let said = said_in(alloc, &matches)?;
            Ok(said)
        }
        Err(refused) => {
            if refused.kind() == ErrorKind::OutOfMemory {
                Err(Misuse::Memory)
            } else {
                Err(cause_of(alloc, &refused))
            }
        }
    }
}
