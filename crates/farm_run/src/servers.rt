//! What a build server does with what comes to it, and at its own events.
ghost use Rattle.std.specs.Prelude.{◌≡◌, ◌+◌, Some, None, false, IfOk, IfErr, OnOk, string_bytes};
ghost use Rattle.dist_types.specs.Addr.{addr_text};
ghost use Rattle.dist_token.specs.Token.{plain_text, token_text, server_claims_text};
ghost use Rattle.build_server.specs.Rules.{assign_verdict};
ghost use Rattle.farm_entries.specs.Begun.{Keeps, IsBegunBy};
ghost use Rattle.farm_entries.specs.Seen.{server_token};
ghost use Rattle.farm_entries.specs.Served.{books_of, state_call, beat_call, beat_effect};
ghost use Rattle.farm_entries.specs.Served.{report_of, assigned, served, told_of, AsksServer};
ghost use Rattle.farm_entries.specs.Served.{IsServerAnswered};
ghost use Rattle.farm_entries.specs.Servers.{stepped};
ghost use Rattle.farm_stations.specs.Post.{around_of};
ghost use Rattle.farm_stations.specs.Stations.{now_of, IsWell};
ghost use Rattle.farm_entries.specs.Ways.{to_server};
ghost use Rattle.farm_entries.specs.declared.pending.Told.{Told as Kept};
ghost use Rattle.line_program.specs.declared.fault.FarmFault.TheVariants as fault;

use crate::desk::Desk;
use crate::pending::Made;
use crate::serve::Arrival;
use crate::told::reply;
use build_server::fault::ServerFault;
use dist_token::server_token::{create_jwt_server_token, create_server_token};
use dist_types::addr::Addr;
use dist_types::builder::BuilderIncoming;
use dist_types::ids::{JobId, ServerId};
use dist_types::results::JobState;
use dist_types::roles::JobAuthorizer;
use dist_types::text::Bytes;
use dist_types::toolchain::Toolchain;
use dist_wire::heartbeat::HeartbeatServerHttpRequest;
use farm_entries::entry::{Effect, OutCall, StepKind};
use farm_entries::pending::{Ask, Pending, Told};
use farm_entries::site::{Site, SiteServer};
use farm_script::setup::SetupAuth;
use farm_stations::station::Station;
use folders::folder::Folder;
use http_routes::fault::RouteFault;
use http_routes::replies::{to_assignment, to_fault, want_of_memory};
use http_routes::requests::{heartbeat_request, state_request};
use http_routes::server_route::{ServerAsked, ServerRouted};
use line_program::fault::FarmFault;
use std::alloc::Global;

/// Which entry asks a server, in which form the reply is wanted, and where the body begins.
#[derive(Clone, Copy, Debug)]
struct Wish {
    number: u64,
    json: bool,
    body: usize,
}

/// The token that a server at an address shows, where all have one.
fn plain_token(alloc: Global, addr: Addr, token: &str) -> Result<String, FarmFault>
    ensures ok { IfOk result (λ text. string_bytes text ≡ plain_text (addr_text addr) token.now) }
    ensures err { IfErr result (λ e. e ≡ fault.Memory) }
{
    match create_server_token(alloc, ServerId::new(addr), token) {
        Ok(text) => Ok(text),
        Err(_) => Err(FarmFault::Memory),
    }
}

/// The token that a server at an address shows, where each has its own under a key.
fn signed_token(alloc: Global, addr: Addr, key: &[u8]) -> Result<String, FarmFault>
    ensures ok { IfOk result
        (λ text. string_bytes text ≡ token_text key.now (server_claims_text (addr_text addr))) }
    ensures err { IfErr result (λ e. e ≡ fault.Memory) }
{
    match create_jwt_server_token(alloc, ServerId::new(addr), key) {
        Ok(text) => Ok(text),
        Err(_) => Err(FarmFault::Memory),
    }
}

/// The token that the server at an address shows to the scheduler.
fn token_at(alloc: Global, setup: &Site, addr: Addr) -> Result<String, FarmFault>
    ensures ok { IfOk result (λ text. string_bytes text ≡ server_token setup.now addr) }
    ensures err { IfErr result (λ e. e ≡ fault.Memory) }
{
    match &setup.scheduler.auth {
        SetupAuth::Plain(token) => {
            let text = plain_token(alloc, addr, token.get())?;
            Ok(text)
        }
        SetupAuth::Jwt(key) => {
            let text = signed_token(alloc, addr, key.get())?;
            Ok(text)
        }
    }
}

/// The call that tells the scheduler a job's state.
pub fn state_call(
    desk: &Desk,
    addr: Addr,
    job: JobId,
    state: JobState,
) -> Result<OutCall, FarmFault>
    ensures ok { IfOk result (λ c. c ≡ state_call desk.now.setup addr job state) }
    ensures err { IfErr result (λ e. e ≡ fault.Memory) }
{
    let text = token_at(desk.alloc, &desk.setup, addr)?;
    let target = desk.setup.scheduler.addr;
    match state_request(desk.alloc, target, text.as_str(), job, state) {
        Ok(bytes) => Ok(OutCall { target, bytes }),
        Err(error) => Err(FarmFault::from(want_of_memory(error))),
    }
}

/// The call of a server's heartbeat.
fn beat_call<F: Folder + Drop, B: BuilderIncoming + Drop>(
    desk: &Desk,
    server: &SiteServer,
    station: &Station<F, B>,
) -> Result<OutCall, FarmFault>
    ensures ok { IfOk result (λ c. c ≡ beat_call desk.now.setup (now_of server.now station.now)) }
    ensures err { IfErr result (λ e. e ≡ fault.Memory) }
{
    let text = token_at(desk.alloc, &desk.setup, server.addr)?;
    let beat = HeartbeatServerHttpRequest {
        jwt_key: Bytes::from_slice(desk.alloc, station.authorizer().key())?,
        num_cpus: server.cpus,
        server_nonce: station.nonce(),
    };
    let target = desk.setup.scheduler.addr;
    match heartbeat_request(desk.alloc, target, text.as_str(), &beat) {
        Ok(bytes) => Ok(OutCall { target, bytes }),
        Err(error) => Err(FarmFault::from(want_of_memory(error))),
    }
}

/// A server's heartbeat, made by the entry of that number.
pub fn beat<F: Folder + Drop, B: BuilderIncoming + Drop>(
    desk: &Desk,
    server: &SiteServer,
    station: &Station<F, B>,
    number: u64,
) -> Result<Made, FarmFault>
    ensures effect { IfOk result
        (λ m. m.effect ≡ beat_effect desk.now.setup (now_of server.now station.now)) }
    ensures pending { IfOk result
        (λ m. m.pending ≡ Some (report_of number false (now_of server.now station.now) Told.Heartbeat)) }
    ensures err { IfErr result (λ e. e ≡ fault.Memory) }
{
    let call = beat_call(desk, server, station)?;
    Ok(Made {
        effect: Effect::of_call(None, call),
        pending: Some(Pending {
            root: number,
            json: false,
            ask: Ask::Report {
                server: server.addr,
                life: station.life(),
                told: Told::Heartbeat,
            },
        }),
    })
}

/// Assigns a job.
fn assign<F: Folder + Drop, B: BuilderIncoming + Drop>(
    alloc: Global,
    server: &SiteServer,
    station: &mut Station<F, B>,
    wish: Wish,
    job: JobId,
    tc: Toolchain,
) -> Result<Effect, FarmFault>
    requires well { IsWell server.now station.old }
    ensures made { IfOk result (λ x. x ≡ assigned server.now.addr wish.number wish.json job tc
        (assign_verdict (books_of (now_of server.now station.old)) job tc)) }
    ensures after { IfOk result
        (λ x. now_of server.now station.new ≡ stepped x.step (now_of server.now station.old)) }
    ensures still_well { OnOk result (IsWell server.now station.new) }
    ensures around { around_of station.new ≡ around_of station.old }
    ensures err { IfErr result (λ e. e ≡ fault.Memory) }
{
    match station.assign(server, job, tc) {
        Ok(answer) => {
            let response = to_assignment(alloc, wish.json, &answer)?;
            let reply = reply(alloc, wish.number, &response)?;
            let ready = !answer.need_toolchain;
            let kind = StepKind::Assigned { job, tc, ready };
            Ok(Effect::of_step_reply(server.addr, kind, reply))
        }
        Err(ServerFault::AlreadyAssigned(_)) => {
            let response = to_fault(alloc, &RouteFault::AlreadyAssigned(job))?;
            let reply = reply(alloc, wish.number, &response)?;
            Ok(Effect::of_reply(None, reply))
        }
        Err(ServerFault::Memory) => Err(FarmFault::Memory),
        Err(ServerFault::UpdateFailed(_)) => Err(FarmFault::Memory),
        Err(ServerFault::BuildFailed(_)) => Err(FarmFault::Memory),
    }
}

/// What is kept of a call that a server makes.
fn report<F: Folder + Drop, B: BuilderIncoming + Drop>(
    server: &SiteServer,
    station: &Station<F, B>,
    wish: Wish,
    told: Told,
) -> Pending
    ensures { result ≡ report_of wish.number wish.json (now_of server.now station.now) told }
{
    Pending {
        root: wish.number,
        json: wish.json,
        ask: Ask::Report {
            server: server.addr,
            life: station.life(),
            told,
        },
    }
}

/// What a server does with what is asked of it.
fn serve_asked<F: Folder + Drop, B: BuilderIncoming + Drop>(
    desk: &Desk,
    server: &SiteServer,
    station: &mut Station<F, B>,
    wish: Wish,
    what: ServerRouted,
) -> Result<Made, FarmFault>
    requires well { IsWell server.now station.old }
    ensures answer { IfOk result
        (λ m. m.effect ≡ served desk.now.setup (now_of server.now station.old) wish.number wish.json what) }
    ensures kept { IfOk result (λ m. Keeps (λ p. (t : Kept) × (told_of wish.body what ≡ Some t)
        × (p ≡ report_of wish.number wish.json (now_of server.now station.old) t)) m.effect m.pending) }
    ensures after { IfOk result
        (λ m. now_of server.now station.new ≡ stepped m.effect.step (now_of server.now station.old)) }
    ensures still_well { OnOk result (IsWell server.now station.new) }
    ensures around { around_of station.new ≡ around_of station.old }
    ensures err { IfErr result (λ e. e ≡ fault.Memory) }
{
    match what {
        ServerRouted::Assign(job, tc) => {
            let effect = assign(desk.alloc, server, station, wish, job, tc)?;
            Ok(Made::whole(effect))
        }
        ServerRouted::Submit(job) => {
            let call = state_call(desk, server.addr, job, JobState::Ready)?;
            let told = Told::Ready {
                job,
                archive: wish.body,
            };
            let pending = report(server, station, wish, told);
            Ok(Made {
                effect: Effect::of_call(None, call),
                pending: Some(pending),
            })
        }
        ServerRouted::Run(job, run, at) => {
            let Some(inputs) = wish.body.checked_add(at) else {
                return Err(FarmFault::Memory);
            };
            let call = state_call(desk, server.addr, job, JobState::Started)?;
            let told = Told::Started { job, run, inputs };
            let pending = report(server, station, wish, told);
            Ok(Made {
                effect: Effect::of_call(None, call),
                pending: Some(pending),
            })
        }
        ServerRouted::Done(response) => {
            let reply = reply(desk.alloc, wish.number, &response)?;
            Ok(Made::whole(Effect::of_reply(None, reply)))
        }
    }
}

/// What is made of bytes that come to a build server.
pub fn serve_at<F: Folder + Drop, B: BuilderIncoming + Drop>(
    desk: &Desk,
    server: &SiteServer,
    station: &mut Station<F, B>,
    arrival: &Arrival<'_>,
) -> Result<Made, FarmFault>
    requires well { IsWell server.now station.old }
    ensures answered { IfOk result
        (λ m. IsServerAnswered desk.now.setup (now_of server.now station.old) arrival.now.stamp.number
        arrival.now.bytes.now m.effect) }
    ensures kept { IfOk result
        (λ m. Keeps (IsBegunBy desk.now.setup desk.now.state.log arrival.now.stamp.number
        (to_server (now_of server.now station.old) arrival.now.bytes.now) m.effect) m.effect m.pending) }
    ensures after { IfOk result
        (λ m. now_of server.now station.new ≡ stepped m.effect.step (now_of server.now station.old)) }
    ensures still_well { OnOk result (IsWell server.now station.new) }
    ensures around { around_of station.new ≡ around_of station.old }
    ensures err { IfErr result (λ e. e ≡ fault.Memory) }
{
    let question = match station.asked(desk.alloc, arrival.bytes) {
        Ok(question) => question,
        Err(error) => return Err(FarmFault::from(want_of_memory(error))),
    };
    let ServerAsked { what, json, body } = question;
    let wish = Wish {
        number: arrival.stamp.number,
        json,
        body,
    };
    serve_asked(desk, server, station, wish, what)
}
