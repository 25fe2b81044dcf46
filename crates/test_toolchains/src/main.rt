//! The program `test_toolchains`: it reads steps about a client's toolchains from standard input, a line
//! each, takes them one after the other over a directory of the system, and writes what came of each. A line
//! that begins with `#` is written as it is.
#![tactic(auto)]

mod bench;
mod directories;
mod fault;
mod files;
mod lines;
mod puts;
mod sweep;
mod words;

use bench::Bench;
use directories::{Directory, Folders};
use dist_types::sink::{Sink, StdSink, write_all};
use dist_types::source::{Source, StdSource, read_whole};
use fault::Fault;
use std::alloc::Global;
use std::fs;
use std::process::ExitCode;
use std::rt::Files;

/// The most bytes of all the steps.
const LIMIT: u32 = 4 << 20;

/// The directory, which is made, and removed again.
const DIR: &str = "toolchain_tests_dir";

/// Takes the step of a line with a folder of its own.
fn take_line<M: Folders>(
    alloc: Global,
    folders: &M,
    bench: &mut Bench<M::Made>,
    line: &str,
) -> Result<String, Fault> {
    let folder = folders.make()?;
    lines::take(alloc, bench, folder, line)
}

/// Takes each step, and puts down what came of it.
fn take_lines<M: Folders>(
    alloc: Global,
    folders: &M,
    bench: &mut Bench<M::Made>,
    text: &str,
) -> Result<String, Fault> {
    let mut told = String::new(alloc);
    for line in text.lines() {
        let said = take_line(alloc, folders, bench, line)?;
        told.push_str(said.as_str())?;
        told.push_str("\n")?;
    }
    Ok(told)
}

/// The same, with nothing open before.
fn take_all<M: Folders>(alloc: Global, folders: &M, text: &str) -> Result<String, Fault> {
    let mut bench = Bench::new(alloc);
    take_lines(alloc, folders, &mut bench, text)
}

/// The same in a new directory, which is removed again.
fn take_in_directory<R: Files + AllocGlobal + Drop>(
    rt: &R,
    alloc: Global,
    text: &str,
) -> Result<String, Fault> {
    let _ = fs::remove_dir_all(rt, DIR);
    let Ok(()) = fs::create_dir_all(rt, DIR) else {
        return Err(Fault::NoDirectory);
    };
    let told = take_all(alloc, &Directory { rt, path: DIR }, text);
    let _ = fs::remove_dir_all(rt, DIR);
    told
}

/// What is read, as a text.
fn read_text<S: Source>(alloc: Global, input: &mut S) -> Result<String, Fault> {
    let Ok(bytes) = read_whole(alloc, input, LIMIT) else {
        return Err(Fault::Unread);
    };
    let Ok(text) = String::from_utf8(bytes) else {
        return Err(Fault::BadStep);
    };
    Ok(text)
}

fn write_text<K: Sink>(out: &mut K, text: &str) -> Result<(), Fault> {
    match write_all(out, text.as_bytes()) {
        Ok(()) => Ok(()),
        Err(_) => Err(Fault::Unwritten),
    }
}

fn run<R: Files + AllocGlobal + Drop, S: Source, K: Sink>(
    rt: &R,
    input: &mut S,
    out: &mut K,
) -> Result<(), Fault> {
    let alloc: Global = rt.alloc();
    let text = read_text(alloc, input)?;
    let told = take_in_directory(rt, alloc, text.as_str())?;
    write_text(out, told.as_str())
}

fn main(rt: HostRuntime) -> ExitCode {
    let mut input = StdSource::new(rt.stdin());
    let mut out = StdSink::new(rt.stdout());
    match run(&rt, &mut input, &mut out) {
        Ok(()) => ExitCode::from(0),
        Err(fault) => {
            let _ = eprintln!(rt; "test_toolchains: {fault}");
            ExitCode::from(1)
        }
    }
}
