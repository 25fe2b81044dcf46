//! `core SERVERS EACH JOBS`: a scheduler's state with so many servers, each with as many
//! processors and open jobs as EACH says, and so many jobs that go through it.
//!
//! A job is a reserve, a commit as pending and three updates that are accepted: ready, started and, once all
//! jobs that were open at its start are over, complete. Every second job is reported as started twice, so a
//! job has three and a half reports. Each call is a millisecond after the one before it. It writes how many entries the log has, and how many jobs are open.

use crate::desk::{self, Desk, Load};
use std::alloc::Global;
use std::io;
use std::process::ExitCode;

// The entries and the open jobs, once all servers are registered and all jobs went through.
fn measured(alloc: Global, load: &Load) -> Option<(usize, usize)> {
    let mut desk = Desk::new(alloc);
    let mut open = Vec::new(alloc);
    let done = desk::run(&mut desk, &mut open, alloc, load);
    let counts = desk.counts();
    match done {
        Some(()) => Some(counts),
        None => None,
    }
}

// The number that a word says.
fn number(words: &[String], place: usize) -> Option<u64> {
    words.get(place)?.as_str().parse::<u64>().ok()
}

fn asked(words: &[String]) -> Option<Load> {
    let servers = number(words, 2)?;
    let each = number(words, 3)?;
    let jobs = number(words, 4)?;
    Some(Load {
        servers,
        each,
        jobs,
    })
}

/// Makes the jobs that the words ask for.
pub(crate) fn timed(rt: &HostRuntime, words: &[String]) -> io::Result<ExitCode> {
    let Some(load) = asked(words) else {
        eprintln!(rt; "bench: core SERVERS EACH JOBS")?;
        return Ok(ExitCode::from(2));
    };
    match measured(rt.alloc(), &load) {
        Some((entries, open)) => {
            println!(rt; "{entries} {open}")?;
            Ok(ExitCode::from(0))
        }
        None => {
            eprintln!(rt; "bench: no room, or out of memory")?;
            Ok(ExitCode::from(1))
        }
    }
}
