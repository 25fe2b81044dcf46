//! What the scheduler does with what comes to it.
ghost use Rattle.std.specs.Prelude.{◌≡◌, length, IfOk, IfErr, OnOk, Option, Some, None};
ghost use Rattle.core_rules.specs.Log.{Core as Seen};
ghost use Rattle.dist_types.specs.declared.addr.Addr.{Addr as Sender};
ghost use Rattle.dist_wire.specs.declared.drain.DrainServerHttpRequest.{DrainServerHttpRequest as Wish};
ghost use Rattle.core_rules.specs.declared.entry.CoreEntry.{CoreEntry as Entry};
ghost use Rattle.http_routes.specs.Admission.{equal_admission};
ghost use Rattle.http_routes.specs.Asked.{IsAskedUnder};
ghost use Rattle.http_routes.specs.Replies.{alloc_response};
ghost use Rattle.http_routes.specs.declared.reply.Response.{Response};
ghost use Rattle.http_routes.specs.declared.route.SchedRouted.TheVariants as asked;
ghost use Rattle.std.specs.Result.{result_ok};
ghost use Rattle.dist_token.specs.Verdict.{server_verdict};
ghost use Rattle.scheduler_replies.specs.Replies.{told_fault, Replies};
ghost use Rattle.farm_entries.specs.Answers.{Asks, assign_call, answer_to, IsAnswered};
ghost use Rattle.farm_entries.specs.Begun.{IsAssignment, IsBegunBy, Keeps};
ghost use Rattle.farm_entries.specs.Effects.{reply_effect, call_effect, reply_to};
ghost use Rattle.farm_entries.specs.Seen.{with_core};
ghost use Rattle.farm_run.specs.Farm.{acted};
ghost use Rattle.farm_entries.specs.Ways.{to_scheduler};
ghost use Rattle.line_program.specs.declared.fault.FarmFault.TheVariants as fault;

use crate::desk::Desk;
use crate::pending::Made;
use crate::told::{Turn, made_since, reply, told_since};
use dist_token::checks::{EqCheck, JwtServerCheck};
use dist_token::job_token::JWTJobAuthorizer;
use dist_types::addr::Addr;
use dist_types::fault::Memory;
use dist_types::ids::{JobId, ServerId};
use dist_types::results::{AllocJobResult, JobState};
use dist_types::roles::JobAuthorizer;
use dist_types::rules::Rules;
use dist_types::toolchain::Toolchain;
use dist_wire::drain::DrainServerHttpRequest;
use dist_wire::heartbeat::HeartbeatServerHttpRequest;
use farm_entries::entry::{Effect, OutCall};
use farm_entries::pending::{Ask, Pending};
use farm_entries::site::Site;
use farm_script::setup::SetupAuth;
use http_routes::asked::{asked, asked_under};
use http_routes::replies::want_of_memory;
use http_routes::requests::assign_request;
use http_routes::route::{Asked, SchedRouted, Terms};
use line_program::fault::FarmFault;
use sched_core::answers::Picked;
use sched_core::reservation::Reservation;
use sched_core::state::SchedState;
use scheduler_replies::replies::{to_allocated, to_counted, to_drained, to_heard, to_reported};
use scheduler_steps::allocated::no_room;
use scheduler_steps::fault::SchedFault;
use scheduler_steps::step;
use std::alloc::{AllocError, Global};

/// The number of the entry that is made, and the moment of its event.
#[derive(Clone, Copy, Debug)]
pub struct Stamp {
    pub number: u64,
    pub at: u64,
}

/// Bytes that come from a peer.
#[derive(Debug, Drop)]
pub struct Arrival<'a> {
    pub stamp: Stamp,
    pub peer: Addr,
    pub bytes: &'a [u8],
}

/// What bytes ask of the scheduler, where each build server has a token of its own under a key.
fn asked_by_key(
    alloc: Global,
    bytes: &[u8],
    terms: Terms,
    client: &str,
    key: &[u8],
) -> Result<Asked, FarmFault>
    ensures ok { IfOk result
        (IsAskedUnder terms.rules (equal_admission client.now)
        (λ shown. result_ok (server_verdict key.now shown)) bytes.now terms.peer) }
    ensures err { IfErr result (λ e. e ≡ fault.Memory) }
{
    let mut client = EqCheck::new(String::from_str(alloc, client)?);
    let server = JwtServerCheck::new(Vec::from_slice(alloc, key)?);
    match asked_under(alloc, bytes, terms, &mut client, &server) {
        Ok(question) => Ok(question),
        Err(error) => Err(FarmFault::from(want_of_memory(error))),
    }
}

/// What bytes ask of the scheduler, by its rules and by how build servers show who they are.
fn question(alloc: Global, setup: &Site, peer: Addr, bytes: &[u8]) -> Result<Asked, FarmFault>
    ensures ok { IfOk result (Asks setup.now peer bytes.now) }
    ensures err { IfErr result (λ e. e ≡ fault.Memory) }
{
    let client = setup.scheduler.client.get();
    let terms = Terms {
        peer,
        rules: setup.rules,
    };
    match &setup.scheduler.auth {
        SetupAuth::Plain(token) => match asked(alloc, bytes, terms, client, token.get()) {
            Ok(question) => Ok(question),
            Err(error) => Err(FarmFault::from(want_of_memory(error))),
        },
        SetupAuth::Jwt(key) => {
            let question = asked_by_key(alloc, bytes, terms, client, key.get())?;
            Ok(question)
        }
    }
}

/// What a heartbeat does.
fn hear(
    alloc: Global,
    state: &mut SchedState<JWTJobAuthorizer>,
    turn: Turn,
    server: ServerId,
    beat: HeartbeatServerHttpRequest,
) -> Result<Made, FarmFault>
    ensures made { IfOk result
        (λ m. m.effect ≡ answer_to state.old turn.root turn.at turn.json (asked.Beat server beat)) }
    ensures silent { IfOk result (λ m. (m.effect.call ≡ None) × (m.pending ≡ None)) }
    ensures core { IfOk result (λ m. state.new ≡ with_core state.old m.effect.core) }
    ensures err { IfErr result (λ e. e ≡ fault.Memory) }
{
    let HeartbeatServerHttpRequest {
        jwt_key,
        num_cpus,
        server_nonce,
    } = beat;
    let before = state.history().len();
    let key = JWTJobAuthorizer::of_key(jwt_key.into_inner());
    let heard = step::hear(state, turn.at, server, server_nonce, num_cpus, key);
    let response = match to_heard(alloc, turn.json, heard) {
        Ok(response) => response,
        Err(Memory) => return Err(FarmFault::Memory),
    };
    told_since(alloc, state, before, turn.root, &response)
}

/// What a server's report on a job does.
fn report(
    alloc: Global,
    state: &mut SchedState<JWTJobAuthorizer>,
    turn: Turn,
    server: ServerId,
    job: JobId,
    to: JobState,
) -> Result<Made, FarmFault>
    ensures made { IfOk result
        (λ m. m.effect ≡ answer_to state.old turn.root turn.at turn.json (asked.Update server job to)) }
    ensures silent { IfOk result (λ m. (m.effect.call ≡ None) × (m.pending ≡ None)) }
    ensures core { IfOk result (λ m. state.new ≡ with_core state.old m.effect.core) }
    ensures err { IfErr result (λ e. e ≡ fault.Memory) }
{
    let before = state.history().len();
    let reported = step::report(state, turn.at, server, job, to);
    let response = match to_reported(alloc, turn.json, server, job, reported) {
        Ok(response) => response,
        Err(Memory) => return Err(FarmFault::Memory),
    };
    told_since(alloc, state, before, turn.root, &response)
}

/// What a status request does.
fn count(
    alloc: Global,
    state: &mut SchedState<JWTJobAuthorizer>,
    turn: Turn,
) -> Result<Made, FarmFault>
    ensures made { IfOk result
        (λ m. m.effect ≡ answer_to state.old turn.root turn.at turn.json asked.Status) }
    ensures silent { IfOk result (λ m. (m.effect.call ≡ None) × (m.pending ≡ None)) }
    ensures core { IfOk result (λ m. state.new ≡ with_core state.old m.effect.core) }
    ensures err { IfErr result (λ e. e ≡ fault.Memory) }
{
    let before = state.history().len();
    let counted = step::count(state, turn.at);
    let response = match to_counted(alloc, turn.json, counted) {
        Ok(response) => response,
        Err(Memory) => return Err(FarmFault::Memory),
    };
    told_since(alloc, state, before, turn.root, &response)
}

/// What a server's wish to drain, or to drain no more, does, by version 2 of the rules.
fn drain(
    alloc: Global,
    state: &mut SchedState<JWTJobAuthorizer>,
    turn: Turn,
    server: ServerId,
    wish: DrainServerHttpRequest,
) -> Result<Made, FarmFault>
    requires version { state.old.start.rules ≡ Rules.Two }
    ensures made { IfOk result
        (λ m. m.effect ≡ answer_to state.old turn.root turn.at turn.json (asked.Drain server wish)) }
    ensures silent { IfOk result (λ m. (m.effect.call ≡ None) × (m.pending ≡ None)) }
    ensures core { IfOk result (λ m. state.new ≡ with_core state.old m.effect.core) }
    ensures err { IfErr result (λ e. e ≡ fault.Memory) }
{
    let DrainServerHttpRequest {
        server_nonce,
        draining,
    } = wish;
    let before = state.history().len();
    let drained = step::drain(state, turn.at, server, server_nonce, draining);
    let response = match to_drained(alloc, turn.json, drained) {
        Ok(response) => response,
        Err(Memory) => return Err(FarmFault::Memory),
    };
    told_since(alloc, state, before, turn.root, &response)
}

/// The call that asks the reservation's server to take the job.
fn assign_call(
    alloc: Global,
    reservation: &Reservation,
    tc: &Toolchain,
) -> Result<OutCall, AllocError>
    ensures { IfOk result (λ call. call ≡ assign_call tc.now reservation.now) }
{
    let server = reservation.server_id();
    let target = server.addr();
    match assign_request(alloc, server, reservation.job_id(), reservation.auth(), tc) {
        Ok(bytes) => Ok(OutCall { target, bytes }),
        Err(error) => Err(want_of_memory(error)),
    }
}

/// What was made since the log had so many entries, and that call.
fn ask(
    alloc: Global,
    state: &SchedState<JWTJobAuthorizer>,
    before: usize,
    reservation: &Reservation,
    tc: &Toolchain,
) -> Result<Effect, AllocError>
    ensures { IfOk result (λ x. (core : Seen) (made : Option Entry) → length core.log ≡ before
        → state.now ≡ with_core core made
        → x ≡ call_effect made (Some (assign_call tc.now reservation.now))) }
{
    let core = made_since(alloc, state, before)?;
    let call = assign_call(alloc, reservation, tc)?;
    Ok(Effect::of_call(core, call))
}

/// What is made of a reservation: the call that asks its server to take the job. Where memory runs out
/// the reservation is undone.
fn reserved(
    alloc: Global,
    state: &mut SchedState<JWTJobAuthorizer>,
    before: usize,
    turn: Turn,
    tc: &Toolchain,
    reservation: Reservation,
) -> Result<Made, FarmFault>
    ensures made { IfOk result (λ m. (core : Seen) (made : Option Entry) → length core.log ≡ before
        → state.old ≡ with_core core made
        → m.effect ≡ call_effect made (Some (assign_call tc.now reservation))) }
    ensures pending { IfOk result (λ m. m.pending
        ≡ Some (record { root = turn.root; json = turn.json; ask = Ask.Assign reservation })) }
    ensures same { OnOk result (state.new ≡ state.old) }
    ensures err { IfErr result (λ e. e ≡ fault.Memory) }
{
    match ask(alloc, state, before, &reservation, tc) {
        Ok(effect) => Ok(Made {
            effect,
            pending: Some(Pending {
                root: turn.root,
                json: turn.json,
                ask: Ask::Assign(reservation),
            }),
        }),
        Err(_) => {
            state.undo(turn.at, reservation);
            Err(FarmFault::Memory)
        }
    }
}

/// What was made since the log had so many entries, and the reply to an allocation that made no reservation.
fn unpicked(
    alloc: Global,
    state: &SchedState<JWTJobAuthorizer>,
    before: usize,
    turn: Turn,
    answer: Result<AllocJobResult, SchedFault>,
) -> Result<Made, FarmFault>
    ensures told { IfOk result (λ m. (response : Response)
        × Replies (alloc_response turn.json) told_fault answer response
        × ((core : Seen) (made : Option Entry) → length core.log ≡ before → state.now ≡ with_core core made
        → m.effect ≡ reply_effect made (reply_to turn.root response))) }
    ensures silent { IfOk result (λ m. (m.effect.call ≡ None) × (m.pending ≡ None)) }
    ensures err { IfErr result (λ e. e ≡ fault.Memory) }
{
    let response = match to_allocated(alloc, turn.json, answer) {
        Ok(response) => response,
        Err(Memory) => return Err(FarmFault::Memory),
    };
    told_since(alloc, state, before, turn.root, &response)
}

/// Allocates a job: the call that asks the picked server to take it, or the reply where none is picked.
fn allocate(
    alloc: Global,
    state: &mut SchedState<JWTJobAuthorizer>,
    turn: Turn,
    tc: &Toolchain,
) -> Result<Made, FarmFault>
    ensures answer { IfOk result (λ m. m.effect ≡ answer_to state.old turn.root turn.at turn.json
        (asked.Alloc tc.now)) }
    ensures kept { IfOk result
        (λ m. Keeps (IsAssignment state.old.log turn.root turn.json m.effect.core) m.effect m.pending) }
    ensures core { IfOk result (λ m. state.new ≡ with_core state.old m.effect.core) }
    ensures err { IfErr result (λ e. e ≡ fault.Memory) }
{
    let before = state.history().len();
    match step::reserve(state, turn.at) {
        Ok(Picked::Reserved(r)) => reserved(alloc, state, before, turn, tc, r),
        Ok(Picked::NoRoom(standing)) => {
            unpicked(alloc, state, before, turn, no_room(alloc, standing))
        }
        Err(refusal) => unpicked(alloc, state, before, turn, Err(refusal)),
    }
}

/// What is made of what is asked of the scheduler; a drain is asked by version 2 of the rules alone.
fn serve_asked(
    alloc: Global,
    state: &mut SchedState<JWTJobAuthorizer>,
    turn: Turn,
    what: SchedRouted,
) -> Result<Made, FarmFault>
    requires version { (server : Sender) (wish : Wish) → what ≡ asked.Drain server wish
        → state.old.start.rules ≡ Rules.Two }
    ensures answer { IfOk result
        (λ m. m.effect ≡ answer_to state.old turn.root turn.at turn.json what) }
    ensures kept { IfOk result
        (λ m. Keeps (IsAssignment state.old.log turn.root turn.json m.effect.core) m.effect m.pending) }
    ensures core { IfOk result (λ m. state.new ≡ with_core state.old m.effect.core) }
    ensures err { IfErr result (λ e. e ≡ fault.Memory) }
{
    match what {
        SchedRouted::Alloc(tc) => allocate(alloc, state, turn, &tc),
        SchedRouted::Beat(server, beat) => hear(alloc, state, turn, server, beat),
        SchedRouted::Update(server, job, to) => report(alloc, state, turn, server, job, to),
        SchedRouted::Status => count(alloc, state, turn),
        SchedRouted::Drain(server, wish) => drain(alloc, state, turn, server, wish),
        SchedRouted::Done(response) => {
            let reply = reply(alloc, turn.root, &response)?;
            Ok(Made::whole(Effect::of_reply(None, reply)))
        }
    }
}

/// What is made of bytes that come to the scheduler.
pub fn serve(desk: &mut Desk, arrival: &Arrival<'_>) -> Result<Made, FarmFault>
    requires rules { desk.old.state.start.rules ≡ desk.old.setup.rules }
    ensures answered { IfOk result
        (λ m. IsAnswered desk.old.setup desk.old.state arrival.now.stamp.number arrival.now.stamp.at
        arrival.now.peer arrival.now.bytes.now m.effect) }
    ensures kept { IfOk result
        (λ m. Keeps (IsBegunBy desk.old.setup desk.old.state.log arrival.now.stamp.number
        (to_scheduler arrival.now.peer arrival.now.bytes.now) m.effect) m.effect m.pending) }
    ensures desk { IfOk result (λ m. desk.new ≡ acted desk.old m.effect.core) }
    ensures err { IfErr result (λ e. e ≡ fault.Memory) }
{
    let question = question(desk.alloc, &desk.setup, arrival.peer, arrival.bytes)?;
    let Asked { what, json } = question;
    let Stamp { number: root, at } = arrival.stamp;
    serve_asked(desk.alloc, &mut desk.state, Turn { root, json, at }, what)
}
