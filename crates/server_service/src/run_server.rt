//! A build server on a runtime of the system: its listener, its cache, its workers and its heartbeat.
ghost use Rattle.std.specs.Prelude.{◌≡◌, OnOk, IfOk, IfErr};
ghost use Rattle.http_calls.specs.Urls.{IsHttp};
ghost use Rattle.server_service.specs.Heartbeat.{beat_of};

use crate::heartbeat::beat_and_wait;
use crate::workers::{BuildKit, serve_server_workers};
use build_server::echo::EchoBuilder;
use build_server::server::Server;
use build_server::state::ServerState;
use dist_config::config::ServerConfig;
use dist_token::job_token::JWTJobAuthorizer;
use dist_types::builder::BuilderIncoming;
use dist_types::ids::ServerNonce;
use dist_types::tcp::TcpDialer;
use dist_types::text::Bytes;
use dist_wire::heartbeat::HeartbeatServerHttpRequest;
use folders::folder::Folder;
use folders::real_folder::RealFolder;
use http_connections::accepting::{Accepting, QUICK_WORKERS, Sharing, WORKERS, socket_addr};
use http_connections::asking::{LimitedNet, REPORT_LIMITS, SHORT_LIMITS};
use http_connections::queues::Takes;
use http_connections::reception::Reception;
use http_connections::start::{Start, StartFault};
use http_routes::kind::Role;
use std::alloc::Global;
use std::fs::File;
use std::net::{Net, TcpListener, TcpStream};
use std::rt::Files;
use std::sync::{Condvar, Mutex, Wait};
use std::thread;
use std::thread::Threads;
use std::time::{Clock, Duration};
use toolchain_cache::TcCache;
use url::Url;

/// Where in its folder a server keeps its archives.
const CACHE_PATH: &str = "tc";

/// Whether the listener ended, and a bell for who waits for that.
#[derive(Drop)]
struct Ending {
    ended: Mutex<bool>,
    bell: Condvar,
}

impl Ending {
    fn new() -> Self {
        Ending {
            ended: Mutex::new(false),
            bell: Condvar::new(),
        }
    }

    /// Says that the listener ended.
    fn end<R: Wait>(&self, rt: &R) {
        *self.ended.lock(rt) = true;
        self.bell.notify_all();
    }

    /// Waits so many milliseconds, or until the listener ended; whether it did.
    fn wait<R: Wait + Clock>(&self, rt: &R, millis: u64) -> bool {
        let (ended, _) = self.bell.wait_timeout_while(
            rt,
            self.ended.lock(rt),
            Duration::from_millis(millis),
            |ended| !*ended,
        );
        *ended
    }
}

/// Tells the scheduler the heartbeat of the start again and again, until the listener ended. What waits longer
/// than the limit for an answer is not told.
fn beat_until_ended<R: Wait + Clock + Copy + Net<Stream = TcpStream>>(
    sharing: &Sharing<'_, R>,
    ending: &Ending,
    config: &ServerConfig,
    beat: &HeartbeatServerHttpRequest,
)
    requires http { IsHttp config.now.scheduler_url }
    requires beat { beat.now ≡ beat_of sharing.now.start }
{
    let mut dialer = TcpDialer::new(sharing.alloc, sharing.asking(SHORT_LIMITS));
    for _ in sharing.rt.forever() {
        let wait = beat_and_wait(
            sharing.alloc,
            &mut dialer,
            &config.scheduler_url,
            config.scheduler_auth.get(),
            beat,
        );
        if ending.wait(sharing.rt, wait) {
            return;
        }
    }
}

/// A base of scheme `http`, and no other.
fn tested(base: &Url) -> Result<(), StartFault>
    ensures http { OnOk result (IsHttp base.now) }
{
    if base.scheme() == "http" {
        Ok(())
    } else {
        Err(StartFault)
    }
}

/// The server of a configuration, which holds nothing, over the archives that stand in its folder. The
/// folder is made where there is none, and held while the server lives, so that a second one is refused.
fn server_of<R: Files<File = File> + AllocGlobal + Copy + Drop>(
    rt: R,
    alloc: Global,
    config: &ServerConfig,
) -> Result<Server<RealFolder<R>>, StartFault> {
    let Ok(folder) = RealFolder::open(rt, config.cache_dir.get()) else {
        return Err(StartFault);
    };
    match TcCache::new(alloc, folder, CACHE_PATH, config.toolchain_cache_size) {
        Ok(cache) => Ok(Server::new(alloc, ServerState::new(alloc, cache))),
        Err(_) => Err(StartFault),
    }
}

/// The heartbeat of one start: its key, its nonce and its number of processors.
fn beat_of(alloc: Global, start: &Start) -> Result<HeartbeatServerHttpRequest, StartFault>
    ensures { IfOk result (λ beat. beat ≡ beat_of start.now) }
{
    let jwt_key = Vec::from_slice(alloc, &start.key)?;
    Ok(HeartbeatServerHttpRequest {
        jwt_key: Bytes::new(jwt_key),
        num_cpus: start.cpus,
        server_nonce: ServerNonce::new(start.word),
    })
}

/// What a worker of a build server has for its own.
type ServerKit<'a, R, B> = BuildKit<Accepting<'a, R>, TcpDialer<LimitedNet<R>>, B>;

/// From which queues the worker of that number takes, from 0, where there are so many: the last two only what waits
/// for nobody, and the first half of the others also what still comes. Those that take the least stand last, since
/// workers that cannot be started are run by the caller, the first of them first.
fn takes_of(number: usize, workers: usize) -> Takes {
    let build = workers.saturating_sub(QUICK_WORKERS).max(1);
    if number >= build {
        Takes::Quick
    } else if number < build.div_ceil(2) {
        Takes::All
    } else {
        Takes::Whole
    }
}

/// The tasks of the worker of that number, from 0, where there are so many.
fn tasks_of<'a, R: Wait + Clock + Copy>(
    sharing: &Sharing<'a, R>,
    number: usize,
    workers: usize,
) -> Accepting<'a, R> {
    Accepting::new(
        sharing.rt,
        sharing.reception,
        takes_of(number, workers),
        sharing.start.timeout_ms,
    )
}

/// What all workers have: one for each builder.
fn server_kits<'a, R: Net + Clock + Wait + Copy, B: BuilderIncoming + Drop>(
    sharing: &Sharing<'a, R>,
    builders: Vec<B>,
) -> Result<Vec<ServerKit<'a, R, B>>, StartFault> {
    let workers = builders.len();
    let mut kits = Vec::with_capacity(sharing.alloc, workers)?;
    for builder in builders {
        kits.push(BuildKit {
            tasks: tasks_of(sharing, kits.len(), workers),
            dialer: TcpDialer::new(sharing.alloc, sharing.asking(REPORT_LIMITS)),
            builder,
        })?;
    }
    Ok(kits)
}

/// A builder that echoes for each worker.
fn echo_builders(alloc: Global) -> Result<Vec<EchoBuilder>, StartFault> {
    let mut builders = Vec::with_capacity(alloc, WORKERS)?;
    for _ in 0..WORKERS {
        builders.push(EchoBuilder::new(alloc))?;
    }
    Ok(builders)
}

/// Serves all connections of the kits, and tells that the listener ended.
fn serve_until_ended<
    'a,
    R: Threads
        + Wait
        + Sync
        + Send
        + Copy
        + Clock
        + Net<Listener = TcpListener, Stream = TcpStream>,
    F: Folder + Send,
    B: BuilderIncoming + Drop + Send,
>(
    rt: &R,
    alloc: Global,
    ending: &Ending,
    server: &Server<F>,
    key: &JWTJobAuthorizer,
    kits: Vec<ServerKit<'a, R, B>>,
    config: &ServerConfig,
) -> Result<(), StartFault>
    requires http { IsHttp config.now.scheduler_url }
{
    let served = serve_server_workers(
        rt,
        alloc,
        server,
        key,
        kits,
        &config.scheduler_url,
        config.scheduler_auth.get(),
    );
    ending.end(rt);
    match served {
        Ok(_) => Ok(()),
        Err(_) => Err(StartFault),
    }
}

/// Serves, and tells heartbeats in a thread of its own, until the listener ended. Where that thread cannot be
/// started no connection is taken and no heartbeat told, and the kits come back as they were.
fn serve_and_beat<
    'a,
    R: Threads
        + Wait
        + Sync
        + Send
        + Copy
        + Clock
        + Net<Listener = TcpListener, Stream = TcpStream>,
    F: Folder + Send,
    B: BuilderIncoming + Drop + Send,
>(
    sharing: &Sharing<'a, R>,
    server: &Server<F>,
    key: &JWTJobAuthorizer,
    kits: Vec<ServerKit<'a, R, B>>,
    config: &ServerConfig,
    beat: &HeartbeatServerHttpRequest,
) -> Result<Result<(), StartFault>, Vec<ServerKit<'a, R, B>>>
    requires http { IsHttp config.now.scheduler_url }
    requires beat { beat.now ≡ beat_of sharing.now.start }
    ensures refused { IfErr result (λ back. back ≡ kits.entry) }
{
    let rt = sharing.rt;
    let alloc = sharing.alloc;
    let ending = Ending::new();
    let ending = &ending;
    thread::scope(
        thread::scope_env(),
        rt,
        |scope| -> Result<Result<(), StartFault>, Vec<ServerKit<'_, R, B>>>
            requires { IsHttp config.now.scheduler_url × (beat.now ≡ beat_of sharing.now.start) }
            ensures { IfErr result (λ back. back ≡ kits.entry) }
        {
            let beats = scope.spawn(
                move || -> ()
                    requires { IsHttp config.now.scheduler_url × (beat.now ≡ beat_of sharing.now.start) }
                {
                    beat_until_ended(sharing, ending, config, beat);
                },
            );
            let Ok(beats) = beats else {
                return Err(kits);
            };
            let served = serve_until_ended(rt, alloc, ending, server, key, kits, config);
            beats.join(rt);
            Ok(served)
        },
    )
}

/// Serves as a build server until the listener ends, by builders that echo. Refused at once where the
/// address is taken, the folder cannot be opened, the scheduler's URL is not of http, no thread can be
/// started for the heartbeats, the system does not watch the links, or memory ran out.
pub fn serve_server<
    R: Threads
        + Wait
        + Sync
        + Send
        + Copy
        + Clock
        + Net<Listener = TcpListener, Stream = TcpStream>
        + Files<File = File>
        + AllocGlobal
        + Drop,
>(rt: &R, alloc: Global, config: &ServerConfig, start: Start) -> Result<(), StartFault>
where
    R::Dir: Send,
{
    let builders = echo_builders(alloc)?;
    serve_server_with(rt, alloc, config, start, builders)
}

/// The same by these builders, each of which a worker has for its own. The last two workers take only requests that
/// wait for nobody, so two fewer than the builders build at once.
pub fn serve_server_with<
    R: Threads
        + Wait
        + Sync
        + Send
        + Copy
        + Clock
        + Net<Listener = TcpListener, Stream = TcpStream>
        + Files<File = File>
        + AllocGlobal
        + Drop,
    B: BuilderIncoming + Drop + Send,
>(
    rt: &R,
    alloc: Global,
    config: &ServerConfig,
    start: Start,
    builders: Vec<B>,
) -> Result<(), StartFault>
where
    R::Dir: Send,
{
    tested(&config.scheduler_url)?;
    let listener = TcpListener::bind(rt, socket_addr(config.bind_address))?;
    let server = server_of(*rt, alloc, config)?;
    let beat = beat_of(alloc, &start)?;
    let key = JWTJobAuthorizer::new(Vec::from_slice(alloc, &start.key)?);
    let reception = Reception::new(rt, alloc, Role::Server, listener, start)?;
    let sharing = Sharing {
        rt,
        alloc,
        reception: &reception,
        start,
    };
    let kits = server_kits(&sharing, builders)?;
    match serve_and_beat(&sharing, &server, &key, kits, config, &beat) {
        Ok(served) => served?,
        Err(_kits) => return Err(StartFault),
    }
    reception.outcome(rt)
}
