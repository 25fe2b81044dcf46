//! The program `test_slow_builder PORT SCHEDULER PROCESSORS MILLISECONDS FOLDER`: a build server at that port of
//! 127.0.0.1 whose scheduler stands at another, which tells so many processors, and whose builder waits so long
//! before each build and then echoes. It keeps its archives in the folder.
//!
//! Without words it listens at a free port, and ends before the first connection. Its status is 7 where it cannot
//! serve, and 3 where there is no memory.
#![tactic(auto)]

use build_server::echo::EchoBuilder;
use dist_config::config::ServerConfig;
use dist_types::addr::Addr;
use dist_types::builder::{BuildFault, BuilderIncoming};
use dist_types::command::CompileCommand;
use dist_types::results::BuildResult;
use dist_types::text::Text;
use dist_types::toolchain::Toolchain;
use http_connections::accepting::WORKERS;
use http_connections::start::Start;
use http_connections::stream::LINK_TIMEOUT_MS;
use server_service::run_server::serve_server_with;
use std::alloc::Global;
use std::process::ExitCode;
use std::time::{Clock, Duration};
use std::{env, io, thread};
use url::Url;

/// The most bytes of its archives.
const CACHE_BYTES: u64 = 4_294_967_296;

/// Where its archives stand, where no folder is named.
const NO_FOLDER: &str = "test-slow-builder";

/// The status where there is no memory.
const NO_MEMORY: u8 = 3;

/// The status where it cannot serve.
const NOT_SERVED: u8 = 7;

/// Waits, and then echoes. It tells no record and never refuses.
#[derive(Drop)]
struct SlowBuilder<'a, R: Clock> {
    rt: &'a R,
    wait: Duration,
    echo: EchoBuilder,
}

impl<R: Clock> BuilderIncoming for SlowBuilder<'_, R> {
    ghost use Rattle.std.specs.Prelude.{None};

    ghost built = { λ _. None };

    ghost refusals = { λ _. 0 };

    ghost answers = { λ _. None };

    fn run_build(
        &mut self,
        toolchain: &Toolchain,
        archive: &[u8],
        command: &CompileCommand,
        outputs: &[Text],
        inputs: &[u8],
    ) -> Result<BuildResult, BuildFault> {
        thread::sleep(self.rt, self.wait);
        self.echo
            .run_build(toolchain, archive, command, outputs, inputs)
    }
}

/// The word of that number, where it is a number.
fn number_of(word: Option<&String>) -> Option<u64> {
    word?.parse::<u64>().ok()
}

/// The word of that number, where it is a port.
fn port_of(word: Option<&String>) -> Option<u16> {
    word?.parse::<u16>().ok()
}

/// What this server is started with: it ends at once where there is no port.
fn start_of(port: Option<u16>, cpus: u64) -> Start {
    Start {
        word: u64::from(port.unwrap_or(1)),
        key: [7; 32],
        cpus,
        limit: match port {
            Some(_) => None,
            None => Some(0),
        },
        timeout_ms: LINK_TIMEOUT_MS,
    }
}

/// The configuration of the server at a port, whose scheduler stands at another; none where memory ran out.
fn config_of(alloc: Global, port: u16, scheduler: u16, folder: &str) -> Option<ServerConfig> {
    let url = format!(in alloc; "http://127.0.0.1:{scheduler}").ok()?;
    let auth = format!(in alloc; "127.0.0.1:{port} s1").ok()?;
    let addr = Addr::V4([127, 0, 0, 1], port);
    Some(ServerConfig {
        cache_dir: Text::of(alloc, folder).ok()?,
        public_addr: addr,
        bind_address: addr,
        scheduler_url: Url::parse(alloc, url.as_str()).ok()?,
        scheduler_auth: Text::new(auth),
        toolchain_cache_size: CACHE_BYTES,
    })
}

/// A builder for each worker; none where memory ran out.
fn builders_of<R: Clock>(rt: &R, alloc: Global, millis: u64) -> Option<Vec<SlowBuilder<'_, R>>> {
    let mut builders = Vec::with_capacity(alloc, WORKERS).ok()?;
    for _ in 0..WORKERS {
        let builder = SlowBuilder {
            rt,
            wait: Duration::from_millis(millis),
            echo: EchoBuilder::new(alloc),
        };
        if builders.push(builder).is_err() {
            return None;
        }
    }
    Some(builders)
}

fn main(rt: HostRuntime) -> io::Result<ExitCode> {
    let alloc = rt.alloc();
    let words: Vec<String> = env::args(&rt)?.collect(alloc)?;
    let port = port_of(words.get(1));
    let scheduler = port_of(words.get(2)).unwrap_or(1);
    let start = start_of(port, number_of(words.get(3)).unwrap_or(1));
    let folder = match words.get(5) {
        Some(folder) => folder.as_str(),
        None => NO_FOLDER,
    };
    let Some(config) = config_of(alloc, port.unwrap_or(0), scheduler, folder) else {
        return Ok(ExitCode::from(NO_MEMORY));
    };
    let millis = number_of(words.get(4)).unwrap_or(0);
    let Some(builders) = builders_of(&rt, alloc, millis) else {
        return Ok(ExitCode::from(NO_MEMORY));
    };
    match serve_server_with(&rt, alloc, &config, start, builders) {
        Ok(()) => Ok(ExitCode::from(0)),
        Err(_) => Ok(ExitCode::from(NOT_SERVED)),
    }
}
