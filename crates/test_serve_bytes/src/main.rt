//! The program `test_serve_bytes NUMBER MOST ACCEPTED`: a build server over an empty cache in memory serves so
//! many connections one behind the other, whose bytes come from standard input, so many at most each read,
//! and whose replies go to standard output.
//!
//! Its scheduler accepts the first ACCEPTED reports, and then is gone. On standard error there is a line for
//! each connection: what serving it answered, and how many reports were made so far. Then how many bytes are
//! left, or that reading fails. Then for each report its host and port, its length, and its bytes.
#![tactic(auto)]

mod peer;
mod pipe;
mod report;
mod serve;
mod stopped;

use crate::pipe::Pipe;
use dist_types::sink::StdSink;
use dist_types::tcp::TcpLink;
use std::process::ExitCode;
use std::{env, io};

/// The status where memory ran out, or standard error takes nothing.
const STOPPED: u8 = 3;

/// The number that a word is, or 1.
fn number_of(word: Option<&String>) -> u64 {
    match word {
        Some(word) => word.parse::<u64>().unwrap_or(1),
        None => 1,
    }
}

fn main(rt: HostRuntime) -> io::Result<ExitCode> {
    let alloc = rt.alloc();
    let words: Vec<String> = env::args(&rt)?.collect(alloc)?;
    let number = number_of(words.get(1));
    let most = number_of(words.get(2));
    let accepted = number_of(words.get(3));
    let mut link = TcpLink::new(Pipe::new(rt.stdin(), rt.stdout(), most));
    let mut errs = StdSink::new(rt.stderr());
    match serve::serve_all(alloc, number, accepted, &mut link, &mut errs) {
        Ok(()) => Ok(ExitCode::from(0)),
        Err(_) => Ok(ExitCode::from(STOPPED)),
    }
}
