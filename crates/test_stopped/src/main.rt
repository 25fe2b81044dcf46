//! The program `test_stopped`: it reads a script of a farm from standard input and runs it over folders and
//! builders that are handed in. Where memory runs out in an event, it runs the events before that again, and once
//! more with it, and compares: what is handed back has to hold whole events alone, and, but at the server that the
//! event reaches for, all has to be as before it. It writes what came of it. `tests/refused-memory` runs it.
#![tactic(auto)]

mod begun;
mod judged;

use begun::{Run, begun};
use dist_types::sink::{Sink, StdSink, write_all};
use dist_types::source::{Source, StdSource, read_whole};
use farm::fault::FarmFault;
use farm::script::read_script;
use judged::judge;
use std::alloc::Global;
use std::process::ExitCode;

/// The most bytes of a script.
const LIMIT: u32 = 1 << 20;

/// Runs a script. What came of it.
fn run(alloc: Global, script: &[u8]) -> Result<&'static str, FarmFault> {
    let (setup, events) = read_script(alloc, script)?;
    let farm: Run = begun(alloc, &setup)?;
    match farm.run(&events) {
        Ok(_farm) => Ok("whole\n"),
        Err(stopped) => judge(alloc, &setup, &events, &stopped),
    }
}

/// Reads and runs a script. None is told where memory ran out in reading or beginning it.
fn told<S: Source>(alloc: Global, input: &mut S) -> &'static str {
    let Ok(script) = read_whole(alloc, input, LIMIT) else {
        return "not read\n";
    };
    match run(alloc, &script) {
        Ok(told) => told,
        Err(_) => "not begun\n",
    }
}

fn write<K: Sink>(out: &mut K, text: &str) -> ExitCode {
    match write_all(out, text.as_bytes()) {
        Ok(()) => ExitCode::from(0),
        Err(_) => ExitCode::from(1),
    }
}

fn main(rt: HostRuntime) -> ExitCode {
    let mut input = StdSource::new(rt.stdin());
    let mut out = StdSink::new(rt.stdout());
    let text = told(rt.alloc(), &mut input);
    write(&mut out, text)
}
