//! What follows the settlement of a build server's calls.
ghost use Rattle.std.specs.Prelude.{◌≡◌, Some, None, Ok, Err, Result, drop, IfOk, IfErr, OnOk, OnErr};
ghost use Rattle.std.specs.Prelude.{option_copied};
ghost use Rattle.build_server.specs.Builds.{built_of};
ghost use Rattle.dist_types.specs.declared.outgoing.CallFault.{CallFault as Cause};
ghost use Rattle.dist_types.specs.declared.results.UpdateJobStateResult.{UpdateJobStateResult as Accepted};
ghost use Rattle.dist_types.specs.declared.results.HeartbeatServerResult.{HeartbeatServerResult as Heard};
ghost use Rattle.farm_entries.specs.Begun.{Keeps, completion_at};
ghost use Rattle.farm_entries.specs.Effects.{step_effect};
ghost use Rattle.farm_entries.specs.Passage.{LeavesOutside};
ghost use Rattle.farm_stations.specs.Post.{LeavesAround, around_of, outside_of};
ghost use Rattle.farm_entries.specs.Servers.{stepped};
ghost use Rattle.farm_entries.specs.Settled.{IsUpdated, IsHeard, unreported, running, ReadyEnds, StartedEnds};
ghost use Rattle.farm_entries.specs.Settled.{complete_end, heard_as, ended_response, Reports};
ghost use Rattle.farm_stations.specs.Stations.{now_of, IsWell};
ghost use Rattle.farm_entries.specs.Weather.{weather_of};
ghost use Rattle.line_program.specs.declared.fault.FarmFault.TheVariants as fault;

use crate::desk::Desk;
use crate::pending::Made;
use crate::servers::state_call;
use crate::told::reply;
use build_server::fault::ServerFault;
use build_server::run::RunDone;
use dist_types::addr::Addr;
use dist_types::builder::BuilderIncoming;
use dist_types::ids::JobId;
use dist_types::outgoing::CallFault;
use dist_types::results::{
    BuildResult, HeartbeatServerResult, JobState, RunJobResult, UpdateJobStateResult,
};
use dist_wire::run::RunJobHttpRequest;
use farm_entries::entry::{Effect, HeardAs, StepKind};
use farm_entries::pending::{Ask, Pending, Told};
use farm_entries::site::SiteServer;
use farm_stations::build_row::copy_result;
use farm_stations::station::Station;
use folders::folder::Folder;
use http_routes::call_reply::answer;
use http_routes::fault::RouteFault;
use http_routes::replies::{to_fault, to_run, to_submission, want_of_memory};
use http_routes::reply::Response;
use line_program::fault::FarmFault;
use std::alloc::Global;

/// A call of a server that comes back: the entry that is replied to and in which form, what the event of that
/// entry brought, and the call's reply, or none where it is lost.
#[derive(Debug, Drop)]
pub struct Back<'a> {
    /// The server that made the call, and the life that it did so in.
    pub server: Addr,
    pub life: u64,
    pub root: u64,
    pub json: bool,
    pub brought: &'a [u8],
    pub reply: Option<&'a [u8]>,
}

/// What the reply to a report says.
fn updated(
    alloc: Global,
    reply: Option<&[u8]>,
) -> Result<Result<UpdateJobStateResult, CallFault>, FarmFault>
    ensures ok { IfOk result (IsUpdated (option_copied reply.entry)) }
    ensures err { IfErr result (λ e. e ≡ fault.Memory) }
{
    match reply {
        None => Ok(Err(CallFault::Lost)),
        Some(bytes) => match answer(alloc, bytes) {
            Ok(told) => Ok(told),
            Err(error) => Err(FarmFault::from(want_of_memory(error))),
        },
    }
}

/// What the reply to a heartbeat says.
fn heard(
    alloc: Global,
    reply: Option<&[u8]>,
) -> Result<Result<HeartbeatServerResult, CallFault>, FarmFault>
    ensures ok { IfOk result (IsHeard (option_copied reply.entry)) }
    ensures err { IfErr result (λ e. e ≡ fault.Memory) }
{
    match reply {
        None => Ok(Err(CallFault::Lost)),
        Some(bytes) => match answer(alloc, bytes) {
            Ok(told) => Ok(told),
            Err(error) => Err(FarmFault::from(want_of_memory(error))),
        },
    }
}

/// A report that was not accepted.
fn unreported(
    alloc: Global,
    addr: Addr,
    root: u64,
    job: JobId,
    cause: CallFault,
) -> Result<Effect, FarmFault>
    ensures ok { IfOk result (λ x. x ≡ unreported addr root job cause) }
    ensures err { IfErr result (λ e. e ≡ fault.Memory) }
{
    let response = to_fault(alloc, &RouteFault::UpdateFailed(cause))?;
    let reply = reply(alloc, root, &response)?;
    Ok(Effect::of_step_reply(addr, StepKind::Unreported { job }, reply))
}

/// Goes on with a submission, by what the scheduler answered to Ready.
#[tactic(auto, using(farm_stations::proofs::HandLemmas::around_same))]
fn end_ready<F: Folder + Drop, B: BuilderIncoming + Drop>(
    alloc: Global,
    server: &SiteServer,
    station: &mut Station<F, B>,
    back: &Back<'_>,
    job: JobId,
    archive: usize,
) -> Result<Effect, FarmFault>
    requires well { IsWell server.now station.old }
    ensures made { IfOk result (λ x. (r : Result Accepted Cause) × IsUpdated (option_copied back.now.reply) r
        × ReadyEnds (weather_of (outside_of station.old) (outside_of station.new))
        (now_of server.now station.old) back.now.root back.now.json job (drop archive back.now.brought.now) r
        x) }
    ensures silent { IfOk result (λ x. x.call ≡ None) }
    ensures after { IfOk result
        (λ x. now_of server.now station.new ≡ stepped x.step (now_of server.now station.old)) }
    ensures outside { IfOk result (λ x. LeavesOutside x.step (outside_of station.old)
        (outside_of station.new)) }
    ensures leaves { OnErr result (LeavesAround (around_of station.old) (around_of station.new)) }
    ensures still_well { OnOk result (IsWell server.now station.new) }
    ensures err { IfErr result (λ e. e ≡ fault.Memory) }
{
    let told = updated(alloc, back.reply)?;
    match told {
        Err(cause) => {
            let effect = unreported(alloc, server.addr, back.root, job, cause)?;
            Ok(effect)
        }
        Ok(accepted) => {
            let bytes = behind(back.brought, archive);
            let outcome = station.submit(server, job, bytes, accepted)?;
            let response = to_submission(alloc, back.json, &outcome.result())?;
            let reply = reply(alloc, back.root, &response)?;
            let kind = StepKind::Submitted { job, outcome };
            Ok(Effect::of_step_reply(server.addr, kind, reply))
        }
    }
}

/// What stands behind a place.
fn behind(bytes: &[u8], place: usize) -> &[u8]
    ensures { result.now ≡ drop place bytes.now }
{
    if place >= bytes.len() {
        return &[];
    }
    &bytes[place..]
}

/// Goes on with a run, by what the scheduler answered to Started.
#[tactic(auto, using(farm_stations::proofs::HandLemmas::around_same))]
fn end_started<F: Folder + Drop, B: BuilderIncoming + Drop>(
    desk: &Desk,
    server: &SiteServer,
    station: &mut Station<F, B>,
    back: &Back<'_>,
    job: JobId,
    run: RunJobHttpRequest,
    inputs: usize,
) -> Result<Made, FarmFault>
    requires well { IsWell server.now station.old }
    ensures made { IfOk result (λ m. (r : Result Accepted Cause) × IsUpdated (option_copied back.now.reply) r
        × StartedEnds (weather_of (outside_of station.old) (outside_of station.new)) desk.now.setup
        (now_of server.now station.old) back.now.root job run (drop inputs back.now.brought.now) r m.effect) }
    ensures kept { IfOk result
        (λ m. Keeps (λ p. completion_at back.now.root back.now.json server.now.addr station.old.life
        m.effect.step ≡ Some p) m.effect m.pending) }
    ensures after { IfOk result
        (λ m. now_of server.now station.new ≡ stepped m.effect.step (now_of server.now station.old)) }
    ensures outside { IfOk result
        (λ m. LeavesOutside m.effect.step (outside_of station.old) (outside_of station.new)) }
    ensures leaves { OnErr result (LeavesAround (around_of station.old) (around_of station.new)) }
    ensures still_well { OnOk result (IsWell server.now station.new) }
    ensures err { IfErr result (λ e. e ≡ fault.Memory) }
{
    let told = updated(desk.alloc, back.reply)?;
    match told {
        Err(cause) => {
            let effect = unreported(desk.alloc, server.addr, back.root, job, cause)?;
            Ok(Made::whole(effect))
        }
        Ok(accepted) => {
            let life = station.life();
            let bytes = behind(back.brought, inputs);
            let done = station.run(server, job, &run, bytes, accepted)?;
            tell_run(desk, server.addr, life, back, job, done)
        }
    }
}

/// What a run gave, where it was built, for the step that tells it.
fn result_of(done: &RunDone) -> Result<Option<BuildResult>, FarmFault>
    ensures ok { IfOk result (λ o. o ≡ built_of done.now) }
    ensures err { IfErr result (λ e. e ≡ fault.Memory) }
{
    match done.built() {
        None => Ok(None),
        Some(built) => match copy_result(built) {
            Ok(copy) => Ok(Some(copy)),
            Err(_) => Err(FarmFault::Memory),
        },
    }
}

/// The step of a run that went so, and the call that tells the scheduler its end.
fn ran_effect(desk: &Desk, addr: Addr, job: JobId, done: &RunDone) -> Result<Effect, FarmFault>
    ensures ok { IfOk result (λ x. x ≡ running desk.now.setup addr job done.now) }
    ensures err { IfErr result (λ e. e ≡ fault.Memory) }
{
    let call = state_call(desk, addr, job, JobState::Complete)?;
    let result = result_of(done)?;
    let ran = done.ran();
    let kind = StepKind::Ran { job, ran, result };
    Ok(Effect::of_step_call(addr, kind, call))
}

/// Tells the scheduler the end of a run.
fn tell_run(
    desk: &Desk,
    addr: Addr,
    life: u64,
    back: &Back<'_>,
    job: JobId,
    done: RunDone,
) -> Result<Made, FarmFault>
    ensures effect { IfOk result (λ m. m.effect ≡ running desk.now.setup addr job done) }
    ensures pending { IfOk result
        (λ m. m.pending ≡ Some (record {
          root = back.now.root;
          json = back.now.json;
          ask = Ask.Report addr life (Told.Complete job done);
        })) }
    ensures err { IfErr result (λ e. e ≡ fault.Memory) }
{
    match ran_effect(desk, addr, job, &done) {
        Ok(effect) => Ok(Made {
            effect,
            pending: Some(Pending {
                root: back.root,
                json: back.json,
                ask: Ask::Report {
                    server: addr,
                    life,
                    told: Told::Complete { job, done },
                },
            }),
        }),
        Err(_) => {
            let _ = done.end_run(Err(CallFault::Lost));
            Err(FarmFault::Memory)
        }
    }
}

/// The reply to a run that ended.
fn ended_response(
    alloc: Global,
    json: bool,
    ended: Result<RunJobResult, ServerFault>,
) -> Result<Response, FarmFault>
    ensures ok { IfOk result (λ r. r ≡ ended_response json ended) }
    ensures err { IfErr result (λ e. e ≡ fault.Memory) }
{
    match ended {
        Ok(answer) => {
            let response = to_run(alloc, json, &answer)?;
            Ok(response)
        }
        Err(ServerFault::BuildFailed(cause)) => {
            let response = to_fault(alloc, &RouteFault::BuildFailed(cause))?;
            Ok(response)
        }
        Err(ServerFault::AlreadyAssigned(job)) => {
            let response = to_fault(alloc, &RouteFault::AlreadyAssigned(job))?;
            Ok(response)
        }
        Err(ServerFault::UpdateFailed(cause)) => {
            let response = to_fault(alloc, &RouteFault::UpdateFailed(cause))?;
            Ok(response)
        }
        Err(ServerFault::Memory) => Err(FarmFault::Memory),
    }
}

/// Ends a run, by what the scheduler answered to Complete.
fn end_complete(
    alloc: Global,
    addr: Addr,
    back: &Back<'_>,
    job: JobId,
    done: RunDone,
) -> Result<Effect, FarmFault>
    ensures made { IfOk result (λ x. (r : Result Accepted Cause) × IsUpdated (option_copied back.now.reply) r
        × (x ≡ complete_end addr back.now.root back.now.json job done r)) }
    ensures err { IfErr result (λ e. e ≡ fault.Memory) }
{
    let told = match updated(alloc, back.reply) {
        Ok(told) => told,
        Err(_) => {
            let _ = done.end_run(Err(CallFault::Lost));
            return Err(FarmFault::Memory);
        }
    };
    match told {
        Err(cause) => {
            let _ = done.end_run(Err(CallFault::Lost));
            let effect = unreported(alloc, addr, back.root, job, cause)?;
            Ok(effect)
        }
        Ok(accepted) => {
            let ended = done.end_run(Ok(accepted));
            let response = ended_response(alloc, back.json, ended)?;
            let reply = reply(alloc, back.root, &response)?;
            Ok(Effect::of_step_reply(addr, StepKind::Finished { job }, reply))
        }
    }
}

fn heard_as(told: Result<HeartbeatServerResult, CallFault>) -> HeardAs
    ensures { result ≡ heard_as told }
{
    match told {
        Ok(answer) => {
            if answer.is_new {
                HeardAs::New
            } else {
                HeardAs::Old
            }
        }
        Err(_) => HeardAs::Lost,
    }
}

/// Ends a heartbeat.
fn end_beat(alloc: Global, addr: Addr, reply: Option<&[u8]>) -> Result<Effect, FarmFault>
    ensures made { IfOk result (λ x. (r : Result Heard Cause) × IsHeard (option_copied reply.entry) r
        × (x ≡ step_effect addr (StepKind.Heard (heard_as r)))) }
    ensures err { IfErr result (λ e. e ≡ fault.Memory) }
{
    let told = heard(alloc, reply)?;
    Ok(Effect::of_step(addr, StepKind::Heard(heard_as(told))))
}

/// Goes on with a call of a build server by its reply.
#[tactic(auto, using(farm_stations::proofs::HandLemmas::around_same))]
pub fn go_on<F: Folder + Drop, B: BuilderIncoming + Drop>(
    desk: &Desk,
    server: &SiteServer,
    station: &mut Station<F, B>,
    back: &Back<'_>,
    told: Told,
) -> Result<Made, FarmFault>
    requires well { IsWell server.now station.old }
    ensures made { IfOk result
        (λ m. Reports (weather_of (outside_of station.old) (outside_of station.new)) desk.now.setup
        (now_of server.now station.old) back.now.brought.now back.now.root back.now.json
        (option_copied back.now.reply) told m.effect) }
    ensures kept { IfOk result
        (λ m. Keeps (λ p. completion_at back.now.root back.now.json server.now.addr station.old.life
        m.effect.step ≡ Some p) m.effect m.pending) }
    ensures after { IfOk result
        (λ m. now_of server.now station.new ≡ stepped m.effect.step (now_of server.now station.old)) }
    ensures outside { IfOk result
        (λ m. LeavesOutside m.effect.step (outside_of station.old) (outside_of station.new)) }
    ensures leaves { OnErr result (LeavesAround (around_of station.old) (around_of station.new)) }
    ensures still_well { OnOk result (IsWell server.now station.new) }
    ensures err { IfErr result (λ e. e ≡ fault.Memory) }
{
    match told {
        Told::Ready { job, archive } => {
            let effect = end_ready(desk.alloc, server, station, back, job, archive)?;
            Ok(Made::whole(effect))
        }
        Told::Started { job, run, inputs } => {
            end_started(desk, server, station, back, job, run, inputs)
        }
        Told::Complete { job, done } => {
            let effect = end_complete(desk.alloc, server.addr, back, job, done)?;
            Ok(Made::whole(effect))
        }
        Told::Heartbeat => {
            let effect = end_beat(desk.alloc, server.addr, back.reply)?;
            Ok(Made::whole(effect))
        }
    }
}
