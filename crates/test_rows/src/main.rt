//! The program `test_rows`: it reads the names of rows from standard input, a line each, runs the program
//! `sccache-dist` on the files of each, over objects in memory, and writes a line for each: whether the status,
//! the output and errs are, byte for byte, those that its files say.
#![tactic(auto)]

mod fault;
mod judge;
mod row;

use dist_types::sink::{Sink, StdSink, write_all};
use dist_types::source::{Source, StdSource, read_whole};
use farm::files::{Files, RealFiles};
use fault::Fault;
use judge::judge;
use row::Row;
use std::alloc::Global;
use std::process::ExitCode;

/// The most bytes of all the names.
const LIMIT: u32 = 1 << 20;

fn read_names<S: Source>(alloc: Global, input: &mut S) -> Result<String, Fault> {
    let Ok(bytes) = read_whole(alloc, input, LIMIT) else {
        return Err(Fault::Unread);
    };
    match String::from_utf8(bytes) {
        Ok(names) => Ok(names),
        Err(_) => Err(Fault::NoText),
    }
}

fn say<K: Sink>(out: &mut K, text: &str) -> Result<(), Fault> {
    match write_all(out, text.as_bytes()) {
        Ok(()) => Ok(()),
        Err(_) => Err(Fault::Unwritten),
    }
}

/// How many rows came out otherwise than they must.
fn judge_all<D: Files, K: Sink>(
    alloc: Global,
    names: &str,
    files: &mut D,
    out: &mut K,
) -> Result<u64, Fault> {
    let mut others = 0u64;
    for name in names.lines() {
        let judged = judge(alloc, Row::of(alloc, files, name)?, files);
        if !judged.holds() {
            others = others.saturating_add(1);
        }
        let line = format!(in alloc; "{name}: {}\n", judged.word())?;
        say(out, line.as_str())?;
    }
    Ok(others)
}

fn run<S: Source, D: Files, K: Sink>(
    alloc: Global,
    input: &mut S,
    files: &mut D,
    out: &mut K,
) -> Result<u64, Fault> {
    let names = read_names(alloc, input)?;
    judge_all(alloc, names.as_str(), files, out)
}

fn main(rt: HostRuntime) -> ExitCode {
    let alloc = rt.alloc();
    let mut input = StdSource::new(rt.stdin());
    let mut out = StdSink::new(rt.stdout());
    let mut files = RealFiles::new(alloc, &rt);
    match run(alloc, &mut input, &mut files, &mut out) {
        Ok(0) => ExitCode::from(0),
        Ok(_) => ExitCode::from(1),
        Err(fault) => {
            let _ = eprintln!(rt; "test_rows: {fault}");
            ExitCode::from(2)
        }
    }
}
