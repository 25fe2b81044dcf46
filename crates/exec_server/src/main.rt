//! The program `exec_server`: a build server that compiles. It is the build server of `sccache-dist`, whose builders ask
//! an executor on the same machine, and so the example of a builder that is handed in.
//!
//!     exec_server --config FILE --executor HOST:PORT --executor-token-file FILE [--builds N]
//!
//! The configuration is that of `sccache-dist server`; its builder, which is `echo`, is passed over. N is how many builds
//! run at once, and the number of processors that the scheduler is told: those of the machine where no number is given.
//!
//! Statuses: 2 where the words are wrong, 3 where there is no memory, 4 where the system gave no random words, 6 where
//! the configuration or the secret has a fault, and 7 where it cannot serve.
#![tactic(auto)]

mod builders;
mod fault;
mod secret;
mod words;

use crate::builders::{RealBuilder, builders_of};
use crate::fault::Fault;
use crate::secret::secret_in;
use crate::words::words_of;
use command_line::files::RealFiles;
use command_line::read::server_config;
use dist_config::config::ServerConfig;
use dist_http::Start;
use dist_http::starts::Starts;
use rand_chacha::ChaCha20Rng;
use rand_core::SeedableRng;
use server_service::run_server::serve_server_with;
use std::alloc::Global;
use std::fs::File;
use std::net::Net;
use std::process::ExitCode;
use std::random::RandomSource;
use std::rt::Files;
use std::thread::Threads;
use std::time::Clock;
use std::{env, io, thread};

/// How many processors the system has, or 1 where it does not tell.
fn processors<R: Threads>(rt: &R) -> usize {
    match thread::available_parallelism(rt) {
        Ok(number) => number.get(),
        Err(_) => 1,
    }
}

/// What a server is started with that builds so much at once.
fn start_of(seed: [u8; 32], builds: usize) -> Start {
    let mut starts = Starts::new(ChaCha20Rng::from_seed(seed), builds as u64);
    starts.draw()
}

/// What is made before the server serves.
#[derive(Drop)]
struct Ready<'a, R: Net + Clock + Copy + Drop> {
    config: ServerConfig,
    start: Start,
    builders: Vec<RealBuilder<'a, R>>,
}

/// What the words ask for, made ready.
fn prepared<R: Threads + Files<File = File> + RandomSource + Net + Clock + Copy + Drop>(
    rt: &R,
    alloc: Global,
    words: io::Result<env::Args>,
) -> Result<Ready<'_, R>, Fault> {
    let words = words_of(alloc, words)?;
    let mut seed = [0; 32];
    if rt.fill_bytes(&mut seed).is_err() {
        return Err(Fault::NoRandom);
    }
    let builds = match words.builds {
        Some(builds) => builds,
        None => processors(rt),
    };
    let mut files = RealFiles::new(alloc, *rt);
    let config = server_config(alloc, &mut files, words.config.as_str())?;
    let secret = secret_in(alloc, &mut files, words.token_file.as_str())?;
    let builders = builders_of(rt, alloc, &words, secret.as_str(), builds)?;
    Ok(Ready {
        config,
        start: start_of(seed, builds),
        builders,
    })
}

fn main(rt: HostRuntime) -> ExitCode {
    let alloc = rt.alloc();
    let Ready {
        config,
        start,
        builders,
    } = match prepared(&rt, alloc, env::args(&rt)) {
        Ok(ready) => ready,
        Err(fault) => {
            let _ = eprintln!(rt; "exec_server: {fault}");
            return ExitCode::from(fault.status());
        }
    };
    match serve_server_with(&rt, alloc, &config, start, builders) {
        Ok(()) => ExitCode::from(0),
        Err(_) => {
            let fault = Fault::NotServed;
            let _ = eprintln!(rt; "exec_server: {fault}");
            ExitCode::from(fault.status())
        }
    }
}
