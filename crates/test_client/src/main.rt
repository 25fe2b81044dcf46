//! The program `test_client`: it reads rows from standard input, a line each, has a client over a dialer in
//! memory make the call of each, and writes what came of it. A line that begins with `#` is written as it is.
#![tactic(auto)]

mod answers;
mod asking;
mod calls;
mod fault;
mod rows;
mod words;

use dist_types::sink::{Sink, StdSink, write_all};
use dist_types::source::{Source, StdSource, read_whole};
use fault::Fault;
use std::alloc::Global;
use std::process::ExitCode;

/// The most bytes of all the rows.
const LIMIT: u32 = 4 << 20;

/// What came of each line.
fn told(alloc: Global, text: &str) -> Result<String, Fault> {
    let mut told = String::new(alloc);
    for line in text.lines() {
        let said = rows::told(alloc, line)?;
        told.push_str(said.as_str())?;
        told.push_str("\n")?;
    }
    Ok(told)
}

/// What is read, as a text.
fn read_text<S: Source>(alloc: Global, input: &mut S) -> Result<String, Fault> {
    let Ok(bytes) = read_whole(alloc, input, LIMIT) else {
        return Err(Fault::Unread);
    };
    let Ok(text) = String::from_utf8(bytes) else {
        return Err(Fault::BadRow);
    };
    Ok(text)
}

fn write_text<K: Sink>(out: &mut K, text: &str) -> Result<(), Fault> {
    match write_all(out, text.as_bytes()) {
        Ok(()) => Ok(()),
        Err(_) => Err(Fault::Unwritten),
    }
}

fn run<S: Source, K: Sink>(alloc: Global, input: &mut S, out: &mut K) -> Result<(), Fault> {
    let text = read_text(alloc, input)?;
    let told = told(alloc, text.as_str())?;
    write_text(out, told.as_str())
}

fn main(rt: HostRuntime) -> ExitCode {
    let mut input = StdSource::new(rt.stdin());
    let mut out = StdSink::new(rt.stdout());
    match run(rt.alloc(), &mut input, &mut out) {
        Ok(()) => ExitCode::from(0),
        Err(fault) => {
            let _ = eprintln!(rt; "test_client: {fault}");
            ExitCode::from(1)
        }
    }
}
