//! The words that the program is called with.
use crate::fault::Fault;
use clap::error::ErrorKind;
use clap::{Arg, ArgMatches, Command};
use std::alloc::{AllocError, Global};
use std::{env, io};

/// How many builds run at once at most.
const MOST_BUILDS: usize = 1_024;

/// What is asked for.
#[derive(Debug, Drop)]
pub(crate) struct Words {
    /// The name of the configuration's file.
    pub config: String,
    /// The executor's host.
    pub host: String,
    /// The executor's port.
    pub port: u16,
    /// The name of the file of the executor's secret.
    pub token_file: String,
    /// How many builds run at once, where that is said.
    pub builds: Option<usize>,
}

/// An option that takes one value.
fn option<'a>(alloc: Global, name: &'a str) -> Arg<'a> {
    Arg::new(alloc, name).long(name)
}

/// The command of the options.
fn command<'a>(alloc: Global) -> Result<Command<'a>, AllocError> {
    Command::new(alloc, "exec_server")
        .no_binary_name(true)
        .disable_help_flag(true)
        .arg(option(alloc, "config"))?
        .arg(option(alloc, "executor"))?
        .arg(option(alloc, "executor-token-file"))?
        .arg(option(alloc, "builds"))
}

/// A copy of a text.
fn copied(alloc: Global, text: &str) -> Result<String, Fault> {
    let copy = String::from_str(alloc, text)?;
    Ok(copy)
}

/// A copy of what has to be said.
fn needed(alloc: Global, value: Option<&str>) -> Result<String, Fault> {
    match value {
        Some(value) => copied(alloc, value),
        None => Err(Fault::Usage),
    }
}

/// A host and a port: visible characters, a colon and a number.
fn place_of(text: &str) -> Option<(&str, u16)> {
    let (host, port) = text.rsplit_once(':')?;
    let port = port.parse::<u16>().ok()?;
    if host.is_empty() || !host.as_bytes().iter().all(|byte| byte.is_ascii_graphic()) {
        return None;
    }
    Some((host, port))
}

/// The number of builds, where it is said.
fn builds_of(text: Option<&str>) -> Result<Option<usize>, Fault> {
    let Some(text) = text else {
        return Ok(None);
    };
    match text.parse::<usize>() {
        Ok(builds) if builds >= 1 && builds <= MOST_BUILDS => Ok(Some(builds)),
        _ => Err(Fault::BadBuilds),
    }
}

/// What matches ask for.
fn asked(alloc: Global, matches: &ArgMatches<'_>) -> Result<Words, Fault> {
    let config = needed(alloc, matches.get_str("config"))?;
    let token_file = needed(alloc, matches.get_str("executor-token-file"))?;
    let executor = needed(alloc, matches.get_str("executor"))?;
    let builds = builds_of(matches.get_str("builds"))?;
    let Some((host, port)) = place_of(executor.as_str()) else {
        return Err(Fault::BadExecutor);
    };
    let host = copied(alloc, host)?;
    Ok(Words {
        config,
        host,
        port,
        token_file,
        builds,
    })
}

/// What the words behind the program's name ask for.
fn read(alloc: Global, words: &[String]) -> Result<Words, Fault> {
    let command = command(alloc)?;
    match command.try_get_matches_from(words) {
        Ok(matches) => asked(alloc, &matches),
        Err(refused) => {
            if refused.kind() == ErrorKind::OutOfMemory {
                return Err(Fault::Memory);
            }
            Err(Fault::Usage)
        }
    }
}

/// What the words ask for.
pub(crate) fn words_of(alloc: Global, args: io::Result<env::Args>) -> Result<Words, Fault> {
    let args = match args {
        Ok(args) => args,
        Err(fault) => {
            let want = fault.kind() == io::ErrorKind::OutOfMemory;
            return Err(if want { Fault::Memory } else { Fault::Usage });
        }
    };
    let words: Vec<String> = args.collect(alloc)?;
    match words.as_slice() {
        [] => Err(Fault::Usage),
        [_program, rest @ ..] => read(alloc, rest),
    }
}
