//! What the program's words ask for.
ghost use Rattle.std.specs.Prelude.{◌≡◌, Some, map, option_map, string_bytes};
ghost use Rattle.clap.specs.Lexer.{name_and_value};
ghost use Rattle.submit_words.specs.Misuse.{Reads};
ghost use Rattle.submit_words.specs.Options.{said_of};
ghost use Rattle.submit_words.specs.Words.{is_dashes, front_of, command_of, tries_in, seconds_in, variable_in};
ghost use Rattle.submit_words.specs.Words.{output_in, each, token_of, run_of, asked_of, terms_of, job_of};
ghost use Rattle.submit_words.specs.Words.{invocation_of, invocation_with, invocation_in};
ghost use Rattle.submit_words.specs.Words as spec;
ghost use Rattle.submit_words.specs.Views.{token_seen, pair_seen, asked_seen, terms_seen, job_seen};
ghost use Rattle.submit_words.specs.Views.{invocation_seen};

use crate::job::{Invocation, Job, Pair, Token};
use crate::misuse::{Misuse, usage};
use crate::number::number_in;
use crate::options::{Options, options_in};
use std::alloc::Global;

/// How often a job is asked for where nothing is said.
pub const TRIES: u64 = 5;

/// The most that can be said.
pub const MOST_TRIES: u64 = 100;

/// The most seconds that can be said, a day.
pub const MOST_SECONDS: u64 = 86_400;

/// The command's folder where none is named.
pub const CWD: &str = "/";

// Whom is asked, under which token, with which archive, and what is run.
#[derive(Clone, Copy)]
struct Asked<'a> {
    scheduler: &'a str,
    token: Token<'a>,
    archive: &'a str,
    executable: &'a str,
    arguments: &'a [String],
}

// The command's variables and outputs, and how often and how long it is asked for.
#[derive(Drop)]
struct Terms<'a> {
    variables: Vec<Pair<'a>>,
    outputs: Vec<Pair<'a>>,
    tries: u64,
    seconds: Option<u64>,
}

// The place of the first `--`.
fn dashes_at(words: &[String]) -> Option<usize>
    ensures front { front_of (map string_bytes words.now) ≡ map string_bytes (spec.front_at result words.now) }
    ensures command { command_of (map string_bytes words.now)
        ≡ option_map (map string_bytes) (spec.command_at result words.now) }
    ensures within { spec.IsWithin result words.now }
{
    for (i, word) in words.iter().enumerate() {
        if word.as_str() == "--" {
            return Some(i);
        }
    }
    None
}

// What stands before the first `=`, and what stands behind it if there is one.
fn name_and_value(text: &str) -> (&str, Option<&str>)
    ensures { (result.0.now, option_map (λ value. value.now) result.1) ≡ name_and_value text.now }
{
    match text.split_once('=') {
        Some((name, value)) => (name, Some(value)),
        None => (text, None),
    }
}

fn variable_in(text: &str) -> Option<Pair<'_>>
    ensures { option_map pair_seen result ≡ variable_in text.now }
{
    let (name, value) = name_and_value(text);
    if name.is_empty() {
        return None;
    }
    let text = value?;
    Some(Pair { name, text })
}

fn output_in(text: &str) -> Option<Pair<'_>>
    ensures { option_map pair_seen result ≡ output_in text.now }
{
    let (name, file) = name_and_value(text);
    if name.is_empty() {
        return None;
    }
    match file {
        None => Some(Pair { name, text: name }),
        Some(text) => {
            if text.is_empty() {
                None
            } else {
                Some(Pair { name, text })
            }
        }
    }
}

fn variables_in<'a>(alloc: Global, texts: &[&'a str]) -> Result<Vec<Pair<'a>>, Misuse>
    ensures { Reads (λ v. map pair_seen v.items) (each variable_in (map (λ t. t.now) texts.now)) result }
{
    let mut pairs = Vec::new(alloc);
    for text in texts {
        match variable_in(text) {
            Some(pair) => pairs.push(pair)?,
            None => return Err(usage(alloc, "--env takes NAME=VALUE")),
        }
    }
    Ok(pairs)
}

fn outputs_in<'a>(alloc: Global, texts: &[&'a str]) -> Result<Vec<Pair<'a>>, Misuse>
    ensures { Reads (λ v. map pair_seen v.items) (each output_in (map (λ t. t.now) texts.now)) result }
{
    let mut pairs = Vec::new(alloc);
    for text in texts {
        match output_in(text) {
            Some(pair) => pairs.push(pair)?,
            None => return Err(usage(alloc, "--output takes NAME or NAME=FILE")),
        }
    }
    Ok(pairs)
}

fn tries_in(alloc: Global, text: Option<&str>) -> Result<u64, Misuse>
    ensures { Reads (λ n. n) (tries_in (option_map (λ t. t.now) text.entry)) result }
{
    match text {
        None => Ok(TRIES),
        Some(text) => match number_in(MOST_TRIES, text) {
            Some(tries) => Ok(tries),
            None => Err(usage(alloc, "--tries takes a number from 1 to 100")),
        },
    }
}

fn seconds_in(alloc: Global, text: Option<&str>) -> Result<Option<u64>, Misuse>
    ensures { Reads (λ n. n) (seconds_in (option_map (λ t. t.now) text.entry)) result }
{
    match text {
        None => Ok(None),
        Some(text) => match number_in(MOST_SECONDS, text) {
            Some(seconds) => Ok(Some(seconds)),
            None => Err(usage(alloc, "--max-time takes seconds, a number from 1 to 86400")),
        },
    }
}

fn token_of<'a>(
    alloc: Global,
    text: Option<&'a str>,
    file: Option<&'a str>,
) -> Result<Token<'a>, Misuse>
    ensures { Reads token_seen (token_of (option_map (λ t. t.now) text.entry)
        (option_map (λ t. t.now) file.entry)) result }
{
    match (text, file) {
        (Some(text), None) => Ok(Token::Word(text)),
        (None, Some(name)) => Ok(Token::File(name)),
        (None, None) => Err(usage(alloc, "--token or --token-file is missing")),
        (Some(_), Some(_)) => Err(usage(alloc, "--token and --token-file stand both")),
    }
}

fn needed<'a>(alloc: Global, value: Option<&'a str>, missing: &str) -> Result<&'a str, Misuse>
    ensures { Reads (λ t. t.now) (option_map (λ t. t.now) value.entry) result }
{
    match value {
        Some(value) => Ok(value),
        None => Err(usage(alloc, missing)),
    }
}

fn run_of(alloc: Global, command: Option<&[String]>) -> Result<(&str, &[String]), Misuse>
    ensures { Reads (λ p. (p.0.now, map string_bytes p.1.now))
        (run_of (option_map (λ words. map string_bytes words.now) command.entry)) result }
{
    let Some(words) = command else {
        return Err(usage(alloc, "-- and the command are missing"));
    };
    match words {
        [] => Err(usage(alloc, "no command stands behind --")),
        [executable, arguments @ ..] => Ok((executable.as_str(), arguments)),
    }
}

fn asked_of<'a>(
    alloc: Global,
    said: &Options<'a>,
    command: Option<&'a [String]>,
) -> Result<Asked<'a>, Misuse>
    ensures { Reads asked_seen (asked_of (said_of said.now)
        (option_map (λ words. map string_bytes words.now) command.entry)) result }
{
    let scheduler = needed(alloc, said.scheduler, "--scheduler is missing")?;
    let token = token_of(alloc, said.token, said.token_file)?;
    let archive = needed(alloc, said.archive, "--archive is missing")?;
    let (executable, arguments) = run_of(alloc, command)?;
    Ok(Asked {
        scheduler,
        token,
        archive,
        executable,
        arguments,
    })
}

fn terms_of<'a>(alloc: Global, said: &Options<'a>) -> Result<Terms<'a>, Misuse>
    ensures { Reads terms_seen (terms_of (said_of said.now)) result }
{
    let variables = variables_in(alloc, &said.env)?;
    let outputs = match outputs_in(alloc, &said.output) {
        Ok(outputs) => outputs,
        Err(misuse) => return Err(misuse),
    };
    let tries = tries_in(alloc, said.tries)?;
    let seconds = seconds_in(alloc, said.max_time)?;
    Ok(Terms {
        variables,
        outputs,
        tries,
        seconds,
    })
}

fn job_of<'a>(
    alloc: Global,
    said: &Options<'a>,
    command: Option<&'a [String]>,
) -> Result<Job<'a>, Misuse>
    ensures { Reads job_seen (job_of (said_of said.now)
        (option_map (λ words. map string_bytes words.now) command.entry)) result }
{
    let asked = asked_of(alloc, said, command)?;
    let terms = terms_of(alloc, said)?;
    Ok(Job {
        scheduler: asked.scheduler,
        token: asked.token,
        archive: asked.archive,
        cache: said.cache,
        executable: asked.executable,
        arguments: asked.arguments,
        cwd: said.cwd.unwrap_or(CWD),
        variables: terms.variables,
        input: said.input,
        outputs: terms.outputs,
        tries: terms.tries,
        seconds: terms.seconds,
        verbose: said.verbose,
        json: said.json,
    })
}

fn invocation_of<'a>(
    alloc: Global,
    said: &Options<'a>,
    command: Option<&'a [String]>,
) -> Result<Invocation<'a>, Misuse>
    ensures { Reads invocation_seen (invocation_of (said_of said.now)
        (option_map (λ words. map string_bytes words.now) command.entry)) result }
{
    if said.help {
        return Ok(Invocation::Help);
    }
    if said.version {
        return Ok(Invocation::Version);
    }
    let job = job_of(alloc, said, command)?;
    Ok(Invocation::Job(job))
}

// The words in front of the first `--`, and those behind it if it stands.
fn cut(words: &[String]) -> (&[String], Option<&[String]>)
    ensures front { map string_bytes result.0.now ≡ front_of (map string_bytes words.now) }
    ensures command { option_map (λ rest. map string_bytes rest.now) result.1
        ≡ command_of (map string_bytes words.now) }
{
    match dashes_at(words) {
        Some(i) => (&words[..i], Some(&words[i + 1..])),
        None => (words, None),
    }
}

fn invocation_with<'a>(
    alloc: Global,
    front: &'a [String],
    command: Option<&'a [String]>,
) -> Result<Invocation<'a>, Misuse>
    ensures { Reads invocation_seen (invocation_with (map string_bytes front.now)
        (option_map (λ words. map string_bytes words.now) command.entry)) result }
{
    let said = options_in(alloc, front)?;
    invocation_of(alloc, &said, command)
}

fn invocation_in(alloc: Global, words: &[String]) -> Result<Invocation<'_>, Misuse>
    ensures { Reads invocation_seen (invocation_in (map string_bytes words.now)) result }
{
    let (front, command) = cut(words);
    invocation_with(alloc, front, command)
}

/// What words ask for; the first is the program's name. Usage exactly where they ask for nothing, unless
/// memory ran out.
pub fn asked_by(alloc: Global, words: &[String]) -> Result<Invocation<'_>, Misuse>
    ensures { Reads invocation_seen (spec.asked_by (map string_bytes words.now)) result }
{
    match words.split_first() {
        Some((_name, rest)) => invocation_in(alloc, rest),
        None => Err(usage(alloc, "there are no words")),
    }
}
