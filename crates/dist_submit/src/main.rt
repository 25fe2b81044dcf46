//! The program `dist_submit`: it has a job built by the farm of a scheduler. It asks for a job with the toolchain of an
//! archive, brings the archive where it is wanted, has the job run, and hands on what it made.
#![tactic(auto)]

mod archive;
mod deadline;
mod files;
mod link;
mod outputs;
mod progress;
mod refused;
mod report;
mod submit;
mod usage;

use crate::submit::Streams;
use crate::usage::{HELP, VERSION};
use dist_types::sink::{StdSink, write_all};
use dist_types::source::StdSource;
use std::alloc::Global;
use std::env;
use std::io::IsTerminal;
use std::process::ExitCode;
use submit_words::job::Invocation;
use submit_words::misuse::Misuse;
use submit_words::refusal::{MISUSED, NO_MEMORY, UNFILED};
use submit_words::words::asked_by;

fn main(rt: HostRuntime) -> ExitCode {
    let alloc: Global = rt.alloc();
    let words: Vec<String> = match env::args(&rt) {
        Ok(args) => match args.collect(alloc) {
            Ok(words) => words,
            Err(_) => return ExitCode::from(NO_MEMORY),
        },
        Err(_) => {
            let _ = eprintln!(rt; "dist_submit: Usage: a word is not UTF-8");
            return ExitCode::from(MISUSED);
        }
    };
    let mut out = StdSink::new(rt.stdout());
    let told = match asked_by(alloc, &words) {
        Ok(Invocation::Job(job)) => {
            let progress = rt.stderr().is_terminal() && !job.verbose;
            let heads = if job.verbose {
                Some(StdSink::new(rt.stderr()))
            } else {
                None
            };
            let mut streams = Streams {
                input: StdSource::new(rt.stdin()),
                out,
                errs: StdSink::new(rt.stderr()),
                heads,
            };
            let status = submit::submit(&rt, alloc, &job, &mut streams, progress);
            return ExitCode::from(status);
        }
        Ok(Invocation::Help) => write_all(&mut out, HELP.as_bytes()),
        Ok(Invocation::Version) => write_all(&mut out, VERSION.as_bytes()),
        Err(Misuse::Usage(cause)) => {
            let _ = eprintln!(rt;
                "dist_submit: Usage: {cause}; dist_submit --help tells the words"
            );
            return ExitCode::from(MISUSED);
        }
        Err(Misuse::Memory) => return ExitCode::from(NO_MEMORY),
    };
    ExitCode::from(if told.is_ok() { 0 } else { UNFILED })
}
