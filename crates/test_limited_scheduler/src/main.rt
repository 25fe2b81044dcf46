//! The program `test_limited_scheduler PORT MILLISECONDS`: a scheduler at that port of 127.0.0.1, which lets
//! everybody in, and whose links fail where they wait so long for a byte to come or to go.
//!
//! Without words it listens at a free port, and ends before the first connection. Its status is 7 where it
//! cannot listen.
#![tactic(auto)]

use dist_config::config::{ClientAuth, SchedulerConfig, ServerAuth};
use dist_types::addr::Addr;
use dist_types::rules::Rules;
use http_connections::start::Start;
use scheduler_service::run_scheduler::serve_scheduler;
use std::process::ExitCode;
use std::{env, io};

/// The word of that number, where it is a port.
fn port_of(word: Option<&String>) -> Option<u16> {
    word?.parse::<u16>().ok()
}

/// The word of that number, where it is a number of milliseconds.
fn millis_of(word: Option<&String>) -> Option<u64> {
    word?.parse::<u64>().ok()
}

/// What this scheduler is started with: it ends at once where there is no port.
fn start_of(port: Option<u16>, timeout_ms: u64) -> Start {
    Start {
        word: 1,
        key: [0; 32],
        cpus: 1,
        limit: match port {
            Some(_) => None,
            None => Some(0),
        },
        timeout_ms,
    }
}

fn main(rt: HostRuntime) -> io::Result<ExitCode> {
    let alloc = rt.alloc();
    let words: Vec<String> = env::args(&rt)?.collect(alloc)?;
    let port = port_of(words.get(1));
    let start = start_of(port, millis_of(words.get(2)).unwrap_or(1_000));
    let config = SchedulerConfig {
        public_addr: Addr::V4([127, 0, 0, 1], port.unwrap_or(0)),
        client_auth: ClientAuth::Insecure,
        server_auth: ServerAuth::Insecure,
        rules: Rules::One,
    };
    match serve_scheduler(&rt, alloc, &config, start) {
        Ok(()) => Ok(ExitCode::from(0)),
        Err(_) => Ok(ExitCode::from(7)),
    }
}
