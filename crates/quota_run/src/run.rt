//! Runs of calls over a scheduler with quotas.
ghost use Rattle.std.specs.Prelude.{◌≡◌, ℕ, [], ◌≤◌, ◌<◌, ◌⊎◌, IfOk, IfErr, OnOk, OnErr, Some, None, nat_eq};
ghost use Rattle.std.specs.Prelude.{length, map, string_bytes, if◌then◌else◌, true, ◌++◌, ◌∷◌};
ghost use Rattle.core_rules.specs.Rule.{is_initial};
ghost use Rattle.dist_types.specs.declared.rules.Rules.TheVariants.{One};
ghost use Rattle.quota.specs.Calls.{IsIsolated, state_if};
ghost use Rattle.quota.specs.Clients.{client_of, AreNamedOnce, IsRefused};
ghost use Rattle.quota.specs.Quota.{Quota, held_of, AreOwned, IsWithin};
ghost use Rattle.quota.specs.declared.call.QuotaCall.TheVariants as call;
ghost use Rattle.quota_run.specs.Hand.{InHand, AreUnspent, of_job, with_ticket};
ghost use Rattle.quota_run.specs.Answers.{answered, answer_of, refused_of, heard_of, updated_of, ticket_in};
ghost use Rattle.quota_run.specs.Run.{IsMade, IsStep, AreMade, AreBegun};

use crate::hand::Hand;
use core_rules::entry::CoreEntry;
use core_rules::error::SchedError;
use dist_types::fault::Memory;
use dist_types::ids::{JobId, ServerId, ServerNonce};
use dist_types::results::{HeartbeatServerResult, JobState, UpdateJobStateResult};
use dist_types::roles::JobAuthorizer;
use dist_types::text::Bytes;
use quota::call::{QuotaAnswer, QuotaCall};
use quota::fault::QuotaFault;
use quota::laws::refused_calls_leave_others;
use quota::picked::QuotaPicked;
use quota::state::QuotaState;
use sched_core::answers::Picked;
use sched_core::reservation::Reservation;
use std::alloc::Global;
use std::marker::Model;

/// A scheduler with quotas, with the reservations in hand that its calls made and none has spent. It can't be
/// dropped: `close` gives back what is in hand. Contracts see the scheduler.
pub struct Run<A: JobAuthorizer> {
    alloc: Global,
    quota: QuotaState<A>,
    hand: Hand,
}

impl<A: JobAuthorizer> Model for Run<A> {
    ghost use Rattle.quota.specs.Quota.{Quota};
    ghost use Rattle.quota_run.specs.Hand.{AreUnspent};

    ghost Value = { Quota };

    ghost view = { λ r. r.quota };

    ghost invariant = { λ r. AreUnspent r.quota.core.log r.hand };
}

/// The number of the next entry.
fn next_number<A: JobAuthorizer>(quota: &QuotaState<A>) -> u64
    ensures { result ≡ length quota.now.core.log }
{
    quota.history().len() as u64
}

/// The answer to a reserve that is refused so, whose entry would have this number.
fn refused(fault: QuotaFault, number: u64) -> Result<QuotaAnswer, Memory>
    ensures { answered result ≡ refused_of number fault }
{
    match fault {
        QuotaFault::Memory => Err(Memory),
        QuotaFault::Core(_) => Ok(QuotaAnswer::Logged(number)),
        QuotaFault::DuplicateClient(_) => Ok(QuotaAnswer::Logged(number)),
    }
}

/// Takes what was picked in hand, and gives the answer, whose entry has this number. It takes no memory.
fn take_in(hand: &mut Hand, picked: QuotaPicked, number: u64) -> QuotaAnswer
    requires room { hand.old.has_room ≡ true }
    ensures answer { result ≡ answer_of number picked }
    ensures added { (job : ℕ) → of_job hand.new job ≡ with_ticket (ticket_in picked) hand.old job }
{
    match picked {
        QuotaPicked::Picked(Picked::Reserved(r)) => {
            hand.add(r);
            QuotaAnswer::Logged(number)
        }
        QuotaPicked::Picked(Picked::NoRoom(_)) => QuotaAnswer::Logged(number),
        QuotaPicked::Full { held, limit } => QuotaAnswer::Full { held, limit },
        QuotaPicked::NoClient => QuotaAnswer::NoClient,
    }
}

/// Reserves a job for a client, where there is room in hand.
fn alloc_in<A: JobAuthorizer>(
    quota: &mut QuotaState<A>,
    hand: &mut Hand,
    now: u64,
    client: &str,
) -> Result<QuotaAnswer, Memory>
    requires room { hand.old.has_room ≡ true }
    requires kept { AreUnspent quota.old.core.log hand.old }
    ensures step { IsStep quota.old (call.Alloc now client.now) quota.new result }
    ensures kept { AreUnspent quota.new.core.log hand.new }
{
    let number = next_number(quota);
    match quota.reserve_for(now, client) {
        Ok(picked) => {
            let _log = quota.history();
            Ok(take_in(hand, picked, number))
        }
        Err(fault) => refused(fault, number),
    }
}

/// Reserves a job for a client.
fn alloc_for<A: JobAuthorizer>(
    quota: &mut QuotaState<A>,
    hand: &mut Hand,
    now: u64,
    client: &str,
) -> Result<QuotaAnswer, Memory>
    requires kept { AreUnspent quota.old.core.log hand.old }
    ensures step { IsStep quota.old (call.Alloc now client.now) quota.new result }
    ensures kept { AreUnspent quota.new.core.log hand.new }
{
    match hand.make_room() {
        Ok(()) => alloc_in(quota, hand, now, client),
        Err(_) => Err(Memory),
    }
}

/// The state that a job begins in.
fn state_if(is_ready: bool) -> JobState
    ensures state { result ≡ state_if is_ready }
    ensures begins { is_initial result ≡ true }
{
    if is_ready {
        JobState::Ready
    } else {
        JobState::Pending
    }
}

/// Commits the reservation of a job, if it is in hand. It takes no memory.
fn commit<A: JobAuthorizer>(
    quota: &mut QuotaState<A>,
    hand: &mut Hand,
    now: u64,
    job: JobId,
    is_ready: bool,
) -> QuotaAnswer
    requires kept { AreUnspent quota.old.core.log hand.old }
    ensures made { IsMade quota.old (call.Commit now job is_ready) quota.new result }
    ensures kept { AreUnspent quota.new.core.log hand.new }
{
    match hand.take(job) {
        Some(r) => {
            let number = next_number(quota);
            quota.commit(now, r, state_if(is_ready));
            QuotaAnswer::Logged(number)
        }
        None => QuotaAnswer::NoReservation,
    }
}

/// Gives the reservation of a job back, if it is in hand. It takes no memory.
fn undo<A: JobAuthorizer>(
    quota: &mut QuotaState<A>,
    hand: &mut Hand,
    now: u64,
    job: JobId,
) -> QuotaAnswer
    requires kept { AreUnspent quota.old.core.log hand.old }
    ensures made { IsMade quota.old (call.Undo now job) quota.new result }
    ensures kept { AreUnspent quota.new.core.log hand.new }
{
    match hand.take(job) {
        Some(r) => {
            let number = next_number(quota);
            quota.undo(now, r);
            QuotaAnswer::Logged(number)
        }
        None => QuotaAnswer::NoReservation,
    }
}

/// The answer to a heartbeat that was answered so, whose entry has this number.
fn heard(
    answer: Result<HeartbeatServerResult, SchedError>,
    number: u64,
) -> Result<QuotaAnswer, Memory>
    ensures { answered result ≡ heard_of number answer }
{
    match answer {
        Ok(_) => Ok(QuotaAnswer::Logged(number)),
        Err(SchedError::BadCpus(_)) => Ok(QuotaAnswer::BadCpus),
        Err(SchedError::Memory) => Err(Memory),
        Err(SchedError::IdsSpent) => Err(Memory),
        Err(SchedError::UnknownJob) => Err(Memory),
        Err(SchedError::WrongServer) => Err(Memory),
        Err(SchedError::BadTransition(_, _)) => Err(Memory),
    }
}

/// Takes a heartbeat.
fn beat<A: JobAuthorizer>(
    quota: &mut QuotaState<A>,
    now: u64,
    server: ServerId,
    nonce: ServerNonce,
    cpus: u64,
    key: Bytes,
) -> Result<QuotaAnswer, Memory>
    ensures step { IsStep quota.old (call.Beat now server nonce cpus key) quota.new result }
    ensures kept { (hand : InHand) → AreUnspent quota.old.core.log hand → AreUnspent quota.new.core.log hand }
{
    let number = next_number(quota);
    let key = A::of_key(key.into_inner());
    let answer = quota.beat(now, server, nonce, cpus, key);
    heard(answer, number)
}

/// The answer to a report that was answered so, whose entry has this number.
fn updated(
    answer: Result<UpdateJobStateResult, SchedError>,
    number: u64,
) -> Result<QuotaAnswer, Memory>
    ensures { answered result ≡ updated_of number answer }
{
    match answer {
        Ok(_) => Ok(QuotaAnswer::Logged(number)),
        Err(SchedError::Memory) => Err(Memory),
        Err(SchedError::BadCpus(_)) => Ok(QuotaAnswer::Logged(number)),
        Err(SchedError::IdsSpent) => Ok(QuotaAnswer::Logged(number)),
        Err(SchedError::UnknownJob) => Ok(QuotaAnswer::Logged(number)),
        Err(SchedError::WrongServer) => Ok(QuotaAnswer::Logged(number)),
        Err(SchedError::BadTransition(_, _)) => Ok(QuotaAnswer::Logged(number)),
    }
}

/// Takes a server's report on a job.
fn update<A: JobAuthorizer>(
    quota: &mut QuotaState<A>,
    now: u64,
    server: ServerId,
    job: JobId,
    state: JobState,
) -> Result<QuotaAnswer, Memory>
    ensures step { IsStep quota.old (call.Update now server job state) quota.new result }
    ensures kept { (hand : InHand) → AreUnspent quota.old.core.log hand → AreUnspent quota.new.core.log hand }
{
    let number = next_number(quota);
    let answer = quota.update(now, server, job, state);
    updated(answer, number)
}

/// Answers a status request.
fn status<A: JobAuthorizer>(quota: &mut QuotaState<A>, now: u64) -> Result<QuotaAnswer, Memory>
    ensures step { IsStep quota.old (call.Status now) quota.new result }
    ensures kept { (hand : InHand) → AreUnspent quota.old.core.log hand → AreUnspent quota.new.core.log hand }
{
    let number = next_number(quota);
    match quota.status(now) {
        Ok(_) => Ok(QuotaAnswer::Logged(number)),
        Err(_) => Err(Memory),
    }
}

/// Makes a call.
fn step<A: JobAuthorizer>(
    alloc: Global,
    quota: &mut QuotaState<A>,
    hand: &mut Hand,
    call: &QuotaCall,
) -> Result<QuotaAnswer, Memory>
    requires kept { AreUnspent quota.old.core.log hand.old }
    ensures step { IsStep quota.old call.now quota.new result }
    ensures kept { AreUnspent quota.new.core.log hand.new }
{
    match call {
        QuotaCall::Alloc { now, client } => alloc_for(quota, hand, *now, client.get()),
        QuotaCall::Commit { now, job, is_ready } => {
            Ok(commit(quota, hand, *now, *job, *is_ready))
        }
        QuotaCall::Undo { now, job } => Ok(undo(quota, hand, *now, *job)),
        QuotaCall::Beat {
            now,
            server,
            nonce,
            cpus,
            key,
        } => match key.copy(alloc) {
            Ok(key) => beat(quota, *now, *server, *nonce, *cpus, key),
            Err(_) => Err(Memory),
        },
        QuotaCall::Update {
            now,
            server,
            job,
            state,
        } => update(quota, *now, *server, *job, *state),
        QuotaCall::Status { now } => status(quota, *now),
    }
}

/// Adds an answer. Refused for want of memory alone.
fn push(answers: &mut Vec<QuotaAnswer>, answer: QuotaAnswer) -> Result<(), Memory>
    ensures { OnOk result (answers.new.items ≡ answers.old.items ++ answer ∷ []) }
{
    match answers.push(answer) {
        Ok(()) => Ok(()),
        Err(_) => Err(Memory),
    }
}

/// Makes calls in their order, and answers each, until memory runs out.
fn answer_each<A: JobAuthorizer>(
    run: &mut Run<A>,
    calls: &[QuotaCall],
) -> Result<Vec<QuotaAnswer>, Memory>
    ensures made { IfOk result (λ answers. AreMade run.old calls.now run.new answers.items) }
    ensures begun { OnErr result (AreBegun run.old calls.now run.new) }
{
    let mut answers = Vec::new(run.alloc);
    for call in calls {
        let answer = run.answer(call)?;
        push(&mut answers, answer)?;
    }
    Ok(answers)
}

/// Gives back what is in hand in a place.
fn give_back<A: JobAuthorizer>(quota: &mut QuotaState<A>, slot: Option<Reservation>) {
    match slot {
        Some(r) => {
            quota.undo(0, r);
        }
        None => (),
    }
}

impl<A: JobAuthorizer> Run<A> {
    /// A run whose first job has the id `base`, over these clients, each with how many reservations it may hold.
    /// DuplicateClient comes where a name stands twice, and Memory where memory runs out.
    pub fn new(alloc: Global, base: u64, clients: Vec<(String, u64)>) -> Result<Run<A>, QuotaFault>
        ensures empty { IfOk result (λ q. q ≡ record {
          core = record { start = record { base = base; count = 0; rules = One }; log = [] };
          clients = map (λ c. client_of (string_bytes c.0) c.1) clients.items;
          owners = [];
        }) }
        ensures named_once { IfOk result (λ q. AreNamedOnce q.clients) }
        ensures refused { IfErr result
            (IsRefused (map (λ c. client_of (string_bytes c.0) c.1) clients.items)) }
    {
        let quota = QuotaState::new(alloc, base, clients)?;
        Ok(Run {
            alloc,
            quota,
            hand: Hand::new(alloc),
        })
    }

    /// How many reservations the client of that name holds: None where it is not listed. It takes no memory.
    pub fn held(&self, client: &str) -> Option<u64>
        ensures held { result ≡ held_of self.now client.now }
        ensures within { IsWithin self.now }
        ensures owned { AreOwned self.now }
    {
        self.quota.held(client)
    }

    /// The log, oldest entry first. It takes no memory.
    pub fn history(&self) -> &[CoreEntry]
        ensures log { result.now ≡ self.now.core.log }
    {
        self.quota.history()
    }

    /// Makes a call, and answers it. A commit and an undo are of the reservation of their job that is in hand. Memory
    /// changes nothing.
    pub fn answer(&mut self, call: &QuotaCall) -> Result<QuotaAnswer, Memory>
        ensures step { IsStep self.old call.now self.new result }
    {
        step(self.alloc, &mut self.quota, &mut self.hand, call)
    }

    /// Makes calls in their order, and answers each. Memory comes where it runs out; the calls before are then made.
    pub fn answer_all(&mut self, calls: &[QuotaCall]) -> Result<Vec<QuotaAnswer>, Memory>
        // Each answer is that of its call over the calls before it.
        ensures made { IfOk result (λ answers. AreMade self.old calls.now self.new answers.items) }
        ensures begun { OnErr result (AreBegun self.old calls.now self.new) }
        // No client holds more than it may, and each reservation has one owner.
        ensures within { IsWithin self.new }
        ensures owned { AreOwned self.new }
        // Without the calls that were answered Full or NoClient the log and all other answers are the same.
        ensures isolated { IsIsolated self.old calls.now }
    {
        refused_calls_leave_others();
        let answers = answer_each(self, calls);
        self.keeps_limits();
        answers
    }

    /// Each limit is kept, and each reservation owned, as every look at a client's number says.
    fn keeps_limits(&self)
        ensures within { IsWithin self.now }
        ensures owned { AreOwned self.now }
    {
        self.quota.held("");
    }

    /// Lets it go: what is in hand is given back on its own scheduler, at the moment 0.
    pub fn close(self) {
        let Run {
            alloc: _,
            mut quota,
            hand,
        } = self;
        let mut held = hand.into_all();
        while let Some(slot) = held.pop() {
            give_back(&mut quota, slot);
        }
        held.destroy_empty();
    }
}
