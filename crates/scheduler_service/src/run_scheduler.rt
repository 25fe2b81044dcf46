//! A scheduler on a runtime of the system: its listener, its checks and its workers.
ghost use Rattle.std.specs.Prelude.{◌≡◌, Some, IfOk};
ghost use Rattle.dist_types.specs.Real.{real_asked, real_dialer_faults};
ghost use Rattle.dist_token.specs.Verdict.{bytes_of};
ghost use Rattle.scheduler_service.specs.Chosen.{server_check_of, IsChosen};

use crate::checks::{ClientCheck, ServerCheck};
use crate::workers::{Kit, serve_scheduler_workers};
use base64::engine::general_purpose::URL_SAFE_NO_PAD;
use dist_config::config::{ClientAuth, SchedulerConfig, ServerAuth};
use dist_token::checks::{EqCheck, JwtServerCheck, PlainServerCheck};
use dist_token::job_token::JWTJobAuthorizer;
use dist_token::proxy::ProxyTokenCheck;
use dist_token::server_token::{INSECURE_DIST_CLIENT_TOKEN, INSECURE_DIST_SERVER_TOKEN};
use dist_types::clock::RealClock;
use dist_types::tcp::TcpDialer;
use http_connections::accepting::{Accepting, Sharing, WORKERS, socket_addr};
use http_connections::asking::{LimitedNet, SHORT_LIMITS};
use http_connections::reception::Reception;
use http_connections::start::{Start, StartFault};
use http_routes::kind::Role;
use sched::scheduler::Scheduler;
use std::alloc::Global;
use std::net::{Net, TcpListener, TcpStream};
use std::sync::Wait;
use std::thread::Threads;
use std::time::Clock;

/// The key that a text in base64url says.
#[tactic(auto, unfolding(dist_token::specs::Verdict::bytes_of, base64::specs::GeneralPurpose::decoded_of))]
fn key_of(alloc: Global, text: &str) -> Result<Vec<u8>, StartFault>
    ensures { IfOk result (λ key. bytes_of text.now ≡ Some key.items) }
{
    match URL_SAFE_NO_PAD.decode(alloc, text.as_bytes()) {
        Ok(key) => Ok(key),
        Err(_) => Err(StartFault),
    }
}

/// The check of servers' tokens that a configuration chooses. Refused where memory ran out, or where its key
/// is not base64url.
fn server_check(alloc: Global, auth: &ServerAuth) -> Result<ServerCheck, StartFault>
    ensures { IfOk result (λ check. server_check_of auth.now ≡ Some check) }
{
    match auth {
        ServerAuth::Insecure => {
            let token = String::from_str(alloc, INSECURE_DIST_SERVER_TOKEN)?;
            Ok(ServerCheck::Plain(PlainServerCheck::new(token)))
        }
        ServerAuth::Token { token } => {
            let token = String::from_str(alloc, token.get())?;
            Ok(ServerCheck::Plain(PlainServerCheck::new(token)))
        }
        ServerAuth::JwtHS256 { secret_key } => {
            let key = key_of(alloc, secret_key.get())?;
            Ok(ServerCheck::Signed(JwtServerCheck::new(key)))
        }
    }
}

/// How a scheduler asks build servers and the peer of its clients' tokens, all of which answer at once.
type SchedulerDialer<R> = TcpDialer<LimitedNet<R>>;

/// The check of clients' tokens that a configuration chooses. Refused where memory ran out, or where the URL
/// of a peer is not of http.
fn client_check<R: Net + Clock + Wait + Copy>(
    sharing: &Sharing<'_, R>,
    auth: &ClientAuth,
) -> Result<ClientCheck<SchedulerDialer<R>>, StartFault>
    ensures { IfOk result (λ check. IsChosen real_asked real_dialer_faults auth.now check) }
{
    match auth {
        ClientAuth::Insecure => {
            let token = String::from_str(sharing.alloc, INSECURE_DIST_CLIENT_TOKEN)?;
            Ok(ClientCheck::Fixed(EqCheck::new(token)))
        }
        ClientAuth::Token { token } => {
            let token = String::from_str(sharing.alloc, token.get())?;
            Ok(ClientCheck::Fixed(EqCheck::new(token)))
        }
        ClientAuth::ProxyToken { url, cache_secs } => {
            let Ok(url) = url.clone() else {
                return Err(StartFault);
            };
            if url.scheme() != "http" {
                return Err(StartFault);
            }
            let dialer = TcpDialer::new(sharing.alloc, sharing.asking(SHORT_LIMITS));
            let check = ProxyTokenCheck::new(sharing.alloc, dialer, url, *cache_secs);
            Ok(ClientCheck::Forwarded(check))
        }
    }
}

/// What a worker of a scheduler has for its own.
type SchedulerKit<'a, R> = Kit<
    Accepting<'a, R>,
    SchedulerDialer<R>,
    RealClock<&'a R>,
    ClientCheck<SchedulerDialer<R>>,
>;

/// What the worker of that number, from 0, has for its own.
fn scheduler_kit<'a, R: Net + Clock + Wait + Copy>(
    sharing: &Sharing<'a, R>,
    auth: &ClientAuth,
    number: usize,
) -> Result<SchedulerKit<'a, R>, StartFault>
    ensures { IfOk result (λ kit. IsChosen real_asked real_dialer_faults auth.now kit.client) }
{
    let client = client_check(sharing, auth)?;
    Ok(Kit {
        tasks: sharing.tasks(number),
        dialer: TcpDialer::new(sharing.alloc, sharing.asking(SHORT_LIMITS)),
        clock: RealClock::new(sharing.rt),
        client,
    })
}

/// What all workers have.
fn scheduler_kits<'a, R: Net + Clock + Wait + Copy>(
    sharing: &Sharing<'a, R>,
    auth: &ClientAuth,
) -> Result<Vec<SchedulerKit<'a, R>>, StartFault> {
    let mut kits = Vec::with_capacity(sharing.alloc, WORKERS)?;
    for number in 0..WORKERS {
        let kit = scheduler_kit(sharing, auth, number)?;
        kits.push(kit)?;
    }
    Ok(kits)
}

/// Serves as a scheduler until the listener ends. Refused where the address is taken, a check cannot be made
/// as the configuration says, the system does not watch the links, or memory ran out. Where no thread can be
/// started it serves alone.
pub fn serve_scheduler<
    R: Threads
        + Wait
        + Sync
        + Send
        + Copy
        + Clock
        + Net<Listener = TcpListener, Stream = TcpStream>,
>(rt: &R, alloc: Global, config: &SchedulerConfig, start: Start) -> Result<(), StartFault> {
    let listener = TcpListener::bind(rt, socket_addr(config.public_addr))?;
    let (scheduler, mut pass) = Scheduler::<JWTJobAuthorizer>::with_rules(
        alloc,
        start.word,
        config.rules,
    )?;
    let server = server_check(alloc, &config.server_auth)?;
    let reception = Reception::new(rt, alloc, Role::Scheduler, listener, start)?;
    let sharing = Sharing {
        rt,
        alloc,
        reception: &reception,
        start,
    };
    let kits = scheduler_kits(&sharing, &config.client_auth)?;
    serve_scheduler_workers(rt, alloc, &scheduler, &mut pass, kits, &server)?;
    reception.outcome(rt)
}
