//! The program `test_mirror WORD FOLDER ..`: one side of a mirror of archives, over the archives that stand in a folder.
//!
//! `put FOLDER FILE..` stores files there as the archives that they are, and writes the id of each. `list FOLDER` writes
//! the id and the length of each archive there. `serve FOLDER PORT` is a far side: it writes the port of 127.0.0.1 that
//! it listens at, which is a free one where PORT is 0, and answers by the route of a mirror until it is ended.
//! `get FOLDER PORT` is a near side, whose far side stands at that port of 127.0.0.1: it gets the archive of each id
//! that a line of standard input says, and writes what came.
//!
//! Its status is 2 where these words, or a line of the input, say nothing that it does, 3 where memory ran out, and 7
//! where the system failed.
#![tactic(auto)]

mod archives;
mod connection;
mod far;
mod near;
mod stopped;

use crate::archives::{archives_in, list_all, put_all};
use crate::far::serve_all;
use crate::near::get_all;
use crate::stopped::Stopped;
use std::env;
use std::process::ExitCode;

/// The port that a word says.
fn port_of(word: Option<&String>) -> Result<u16, Stopped> {
    let Some(word) = word else {
        return Err(Stopped::Words);
    };
    match word.parse::<u16>() {
        Ok(port) => Ok(port),
        Err(_) => Err(Stopped::Words),
    }
}

/// Does what the words say.
fn run(rt: HostRuntime, words: &[String]) -> Result<(), Stopped> {
    let (Some(word), Some(folder)) = (words.get(1), words.get(2)) else {
        return Err(Stopped::Words);
    };
    let folder = folder.as_str();
    match word.as_str() {
        "put" => put_all(rt, &mut archives_in(rt, folder)?, &words[3..]),
        "list" => list_all(rt, &archives_in(rt, folder)?),
        "serve" => serve_all(rt, &mut archives_in(rt, folder)?, port_of(words.get(3))?),
        "get" => get_all(rt, archives_in(rt, folder)?, port_of(words.get(3))?),
        _ => Err(Stopped::Words),
    }
}

/// The status of what was done.
fn status_of(done: Result<(), Stopped>) -> u8 {
    match done {
        Ok(()) => 0,
        Err(Stopped::Words) => 2,
        Err(Stopped::Memory) => 3,
        Err(Stopped::System) => 7,
    }
}

/// Reads the words, and does what they say.
fn started(rt: HostRuntime) -> Result<(), Stopped> {
    let words: Vec<String> = env::args(&rt)?.collect(rt.alloc())?;
    run(rt, &words)
}

fn main(rt: HostRuntime) -> ExitCode {
    ExitCode::from(status_of(started(rt)))
}
