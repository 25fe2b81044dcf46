//! The program `bench WHAT ..`: it makes what bench/ times, and writes what came of it.
//!
//!     bench lru CAPACITY CALL COUNT     a call of a metered cache
//!     bench cache CALL DIR COUNT        a call of a cache of archives in a directory
//!     bench disk CALL DIR COUNT         a call of a disk cache in a directory
//!     bench core SERVERS EACH JOBS      jobs on a scheduler's books
//!     bench quotas CLIENTS CALL COUNT   a call of a scheduler with quotas
//!     bench storm COUNT                 the storm of so many events
//!     bench turns CALLERS ROUNDS        calls on a running scheduler, from threads
//!     bench all                         a short run of each; of the storm its 100,000 events
//!
//! The module of each says more. The status is 2 where the words are none of these, and 1 where a run fails.
#![tactic(auto)]

mod books;
mod cache;
mod desk;
mod disk;
mod lru;
mod quotas;
mod scheduler;
mod short_tokens;
mod storm;
mod turns;

use std::alloc::Global;
use std::process::ExitCode;
use std::sync::Wait;
use std::thread::Threads;
use std::{env, io};

/// The runs of `bench all`.
const ALL: &[&str] = &[
    "bench lru 3 evict 4",
    "bench cache hash . 1",
    "bench core 8 4 4",
    "bench quotas 2 job 4",
    "bench storm 100000",
    "bench turns 2 4",
];

fn words_of(alloc: Global, line: &str) -> io::Result<Vec<String>> {
    let mut words = Vec::new(alloc);
    for word in line.split(' ') {
        words.push(format!(in alloc; "{word}")?)?;
    }
    Ok(words)
}

/// Makes the run that the words ask for, if there is such a one. Threads are started by the second handle.
fn timed<R: Threads + Wait + Sync>(
    rt: &HostRuntime,
    threads: &R,
    words: &[String],
) -> io::Result<ExitCode> {
    let what = match words.get(1) {
        Some(word) => word.as_str(),
        None => "",
    };
    match what {
        "lru" => lru::timed(rt, words),
        "cache" => cache::timed(rt, words),
        "disk" => disk::timed(rt, words),
        "core" => scheduler::timed(rt, words),
        "quotas" => quotas::timed(rt, words),
        "storm" => storm::timed(rt, words),
        "turns" => turns::timed(rt, threads, words),
        _ => {
            eprintln!(rt; "bench: lru|cache|disk|core|quotas|storm|turns|all ..")?;
            Ok(ExitCode::from(2))
        }
    }
}

fn is_all(words: &[String]) -> bool {
    match words.get(1) {
        Some(word) => word.as_str() == "all",
        None => false,
    }
}

fn main(rt: HostRuntime) -> io::Result<ExitCode> {
    let words: Vec<String> = env::args(&rt)?.collect(rt.alloc())?;
    if !is_all(&words) {
        return timed(&rt, &rt, &words);
    }
    for line in ALL {
        let _status = timed(&rt, &rt, &words_of(rt.alloc(), line)?)?;
    }
    Ok(ExitCode::from(0))
}
