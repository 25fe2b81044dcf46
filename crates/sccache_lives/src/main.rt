//! The program `sccache_lives`: it makes the real objects, and all that it does is in `run_command_line`.
#![tactic(auto)]

use dist_types::sink::StdSink;
use dist_types::source::StdSource;
use line_program::program::run_command_line;
use lives::program::Lives;
use std::env;
use std::process::ExitCode;

fn main(rt: HostRuntime) -> ExitCode {
    let words = env::args(&rt);
    let mut input = StdSource::new(rt.stdin());
    let mut out = StdSink::new(rt.stdout());
    let mut errs = StdSink::new(rt.stderr());
    let status = run_command_line::<Lives, _, _, _>(
        rt.alloc(),
        words,
        &mut input,
        &mut out,
        &mut errs,
    );
    ExitCode::from(status)
}
