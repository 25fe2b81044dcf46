//! The program `test_turn`: callers in threads of their own make calls of every kind on one scheduler, whose
//! passes are split and joined between them. Then the scheduler is closed, and its log replayed, call by
//! call, on a state of one thread: the entries and the books have to be the same, and each caller's answer
//! the one that the replay gives at that answer's place.
//!
//! What it writes does not depend on which caller came first. The status is 1 where anything differs.
#![tactic(auto)]

mod answer;
mod caller;
mod crew;
mod draws;
mod fault;
mod replay;
mod server;
mod ticks;

use crew::{CALLERS, CALLS, Finished, run};
use fault::Fault;
use replay::compare;
use std::alloc::Global;
use std::process::ExitCode;
use std::sync::Wait;
use std::thread::Threads;

/// Makes all calls, and compares what came of them with their replay.
fn make_all<R: Threads + Wait + Sync>(rt: &R, alloc: Global) -> Result<(), Fault> {
    let Finished {
        state,
        counted,
        kept,
    } = run(rt, alloc)?;
    compare(alloc, &state, counted, &kept)
}

fn main(rt: HostRuntime) -> ExitCode {
    match make_all(&rt, rt.alloc()) {
        Ok(()) => {
            let said = println!(&rt;
                "{CALLERS} callers made {CALLS} calls each: the log, the books and all answers are the replay's"
            );
            ExitCode::from(u8::from(said.is_err()))
        }
        Err(fault) => {
            let _ = eprintln!(&rt; "test_turn: {fault}");
            ExitCode::from(1)
        }
    }
}
