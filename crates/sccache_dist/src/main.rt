//! The program `sccache-dist`: it makes the real objects, and all that it does is in `run_command_line`. The
//! words are judged first: random words are asked of the system, and memory for what serves, only where they
//! need them.
#![tactic(auto)]

ghost use Rattle.std.specs.Prelude.{◌≡◌, IfErr, IsOk};
ghost use Rattle.line_program.specs.declared.fault.FarmFault.TheVariants as fault;
ghost use Rattle.command_line.specs.declared.need.Need.TheVariants as needs;

use dist_config::config::{SchedulerConfig, ServerConfig};
use dist_http::real_serve::RealServe;
use dist_http::{Start, serve_scheduler, serve_server};
use dist_types::sink::StdSink;
use dist_types::source::StdSource;
use farm::command::{run_command_line, words_given};
use farm::fault::FarmFault;
use farm::files::RealFiles;
use farm::need::{Need, needed_by};
use farm::serve::{MemServe, Serve};
use rand_chacha::ChaCha20Rng;
use rand_core::SeedableRng;
use std::process::ExitCode;
use std::random::RandomSource;
use std::thread::Threads;
use std::{env, thread};

/// A command line whose words were judged.
struct Judged {
    /// The words, or why there are none.
    given: Result<Vec<String>, FarmFault>,
    /// What their command needs.
    need: Need,
    /// Random words, where it needs them.
    seed: [u8; 32],
}

/// How many processors the system has, or 1 where it does not tell.
fn processors<R: Threads>(rt: &R) -> u64 {
    match thread::available_parallelism(rt) {
        Ok(number) => number.get() as u64,
        Err(_) => 1,
    }
}

/// Random words of the system, where a command needs them. That there are none is a fault of reading.
fn seed_for<R: RandomSource>(rt: &R, need: Need) -> Result<[u8; 32], FarmFault>
    ensures unneeded { need ≡ needs.Nothing → IsOk result }
    ensures refused { IfErr result (λ told. told ≡ fault.ReadFault) }
{
    let mut seed = [0; 32];
    if need == Need::Nothing {
        return Ok(seed);
    }
    match rt.fill_bytes(&mut seed) {
        Ok(()) => Ok(seed),
        Err(_) => Err(FarmFault::ReadFault),
    }
}

/// Nothing is done but that a fault is told.
fn refused(fault: FarmFault) -> Judged {
    Judged {
        given: Err(fault),
        need: Need::Nothing,
        seed: [0; 32],
    }
}

/// Judges the words of the command line, and draws what their command needs.
fn judge_words(rt: &HostRuntime) -> Judged {
    let alloc = rt.alloc();
    let words = match words_given(alloc, env::args(rt)) {
        Ok(words) => words,
        Err(fault) => return refused(fault),
    };
    let Ok(need) = needed_by(alloc, &words) else {
        return refused(FarmFault::Memory);
    };
    match seed_for(rt, need) {
        Ok(seed) => Judged {
            given: Ok(words),
            need,
            seed,
        },
        Err(fault) => refused(fault),
    }
}

/// Runs the command over the streams and the files of the system.
fn run<N: Serve>(
    rt: &HostRuntime,
    given: Result<Vec<String>, FarmFault>,
    seed: [u8; 32],
    serve: &mut N,
) -> ExitCode {
    let mut random = ChaCha20Rng::from_seed(seed);
    let mut input = StdSource::new(rt.stdin());
    let mut out = StdSink::new(rt.stdout());
    let mut errs = StdSink::new(rt.stderr());
    let mut files = RealFiles::new(rt.alloc(), rt);
    let status = run_command_line(
        rt.alloc(),
        given,
        &mut input,
        &mut out,
        &mut errs,
        &mut files,
        &mut random,
        serve,
    );
    ExitCode::from(status)
}

/// Runs the command where it serves nobody.
fn run_unserved(
    rt: &HostRuntime,
    given: Result<Vec<String>, FarmFault>,
    seed: [u8; 32],
) -> ExitCode {
    let mut serve = MemServe::new(rt.alloc(), Vec::new(rt.alloc()));
    run(rt, given, seed, &mut serve)
}

fn main(rt: HostRuntime) -> ExitCode {
    let alloc = rt.alloc();
    let Judged { given, need, seed } = judge_words(&rt);
    if need != Need::Serving {
        return run_unserved(&rt, given, seed);
    }
    let scheduler = move |config: &SchedulerConfig, start: Start| {
        serve_scheduler(&rt, alloc, config, start)
    };
    let server = move |config: &ServerConfig, start: Start| {
        serve_server(&rt, alloc, config, start)
    };
    let (Ok(scheduler), Ok(server)) = (Box::new(alloc, scheduler), Box::new(alloc, server)) else {
        return run_unserved(&rt, Err(FarmFault::Memory), seed);
    };
    let starts = ChaCha20Rng::from_seed(seed);
    let mut serve = RealServe::new(scheduler, server, starts, processors(&rt));
    run(&rt, given, seed, &mut serve)
}
