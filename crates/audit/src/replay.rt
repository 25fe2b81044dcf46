//! Replays core entries, each over those before it.
ghost use Rattle.std.specs.Prelude.{◌≡◌, ◌+◌, ◌%◌, ◌^◌, OnOk, IfOk, length, true, false, []};
ghost use Rattle.core_rules.specs.declared.entry.CoreEntry.{CoreEntry as Made};
ghost use Rattle.core_rules.specs.declared.entry.CoreKind.TheVariants as core;
ghost use Rattle.core_rules.specs.declared.call.Call.TheVariants as call;
ghost use Rattle.core_rules.specs.Log.{logged, same_job, Core};
ghost use Rattle.core_rules.specs.Rule.{rule, is_initial};
ghost use Rattle.core_rules.specs.Same.{same_but_key};
ghost use Rattle.audit.specs.Replay.{IsCalled, IsLeft, checked, due_by, judged, is_begun};
ghost use Rattle.audit.specs.Kept.{IsKeptOf, ReservesJob, accepted_of};

use crate::kept::{Kept, add, make_room, note_state, take};
use crate::tokens::{EmptyTokens, without_key};
use core_rules::entry::{CoreEntry, CoreKind};
use core_rules::error::SchedError;
use dist_types::fault::Memory;
use dist_types::ids::{JobId, ServerId, ServerNonce};
use dist_types::results::{JobState, UpdateJobStateResult};
use dist_types::rules::Rules;
use sched_core::answers::Picked;
use sched_core::reservation::Reservation;
use sched_core::state::SchedState;
use std::alloc::Global;

/// A scheduler that is replayed, and what is kept of its reservations.
pub struct Replay {
    pub alloc: Global,
    pub state: SchedState<EmptyTokens>,
    pub kept: Kept,
}

/// Keeps what was reserved.
fn keep(r: &mut Replay, t: Reservation) -> Result<(), Memory>
    requires room { r.old.kept.rows.has_room ≡ true }
    requires follows { t.job.0 ≡ (r.old.kept.rows.first + length r.old.kept.rows.rows) % 2 ^ 64 }
    ensures state { OnOk result (r.new.state ≡ r.old.state) }
    ensures built { OnOk result (r.new.kept.built.items ≡ r.old.kept.built.items) }
    ensures kept { OnOk result ((s : Core) (e : Made) → IsKeptOf r.old.kept s → ReservesJob e.kind t.job
        → t.number ≡ length s.log → is_begun s.log t.job ≡ false → IsKeptOf r.new.kept (logged s e)) }
{
    match add(&mut r.kept, t) {
        Ok(()) => Ok(()),
        Err(t) => {
            r.state.undo(0, t);
            Err(Memory)
        }
    }
}

fn reserve_in(r: &mut Replay, now: u64) -> Result<(), Memory>
    requires kept { IsKeptOf r.old.kept r.old.state }
    requires room { r.old.kept.rows.has_room ≡ true }
    ensures logged { OnOk result (r.new.state ≡ logged r.old.state (rule r.old.state (call.Reserve now))) }
    ensures kept { OnOk result (IsKeptOf r.new.kept r.new.state) }
    ensures built { OnOk result (r.new.kept.built.items ≡ r.old.kept.built.items) }
{
    let _log = r.state.history();
    match r.state.reserve(now) {
        Ok(Picked::Reserved(t)) => {
            keep(r, t)?;
            Ok(())
        }
        Ok(Picked::NoRoom(_)) => Ok(()),
        Err(SchedError::Memory) => Err(Memory),
        Err(SchedError::IdsSpent) => Ok(()),
        Err(SchedError::BadCpus(_)) => Ok(()),
        Err(SchedError::UnknownJob) => Ok(()),
        Err(SchedError::WrongServer) => Ok(()),
        Err(SchedError::BadTransition(_, _)) => Ok(()),
    }
}

fn reserve(r: &mut Replay, now: u64) -> Result<(), Memory>
    requires { IsKeptOf r.old.kept r.old.state }
    ensures logged { OnOk result (r.new.state ≡ logged r.old.state (rule r.old.state (call.Reserve now))) }
    ensures kept { OnOk result (IsKeptOf r.new.kept r.new.state) }
    ensures built { OnOk result (r.new.kept.built.items ≡ r.old.kept.built.items) }
{
    make_room(&mut r.kept)?;
    reserve_in(r, now)?;
    Ok(())
}

fn is_initial(state: JobState) -> bool
    ensures { result ≡ is_initial state }
{
    match state {
        JobState::Pending => true,
        JobState::Ready => true,
        JobState::Started => false,
        JobState::Complete => false,
    }
}

fn commit(r: &mut Replay, now: u64, job: JobId, state: JobState) -> bool
    requires { IsKeptOf r.old.kept r.old.state }
    ensures called { (kept : _) → IsCalled result (due_by r.old.state now (core.Commit job state kept))
        r.old.state r.new.state }
    ensures kept { IsKeptOf r.new.kept r.new.state }
    ensures built { r.new.kept.built.items ≡ r.old.kept.built.items }
{
    if !is_initial(state) {
        return false;
    }
    match take(&mut r.kept, job) {
        None => false,
        Some(t) => {
            r.state.commit(now, t, state);
            true
        }
    }
}

fn undo(r: &mut Replay, now: u64, job: JobId) -> bool
    requires { IsKeptOf r.old.kept r.old.state }
    ensures called { (noted : _) (ended : _) → IsCalled result
        (due_by r.old.state now (core.Undo job noted ended))
        r.old.state r.new.state }
    ensures kept { IsKeptOf r.new.kept r.new.state }
    ensures built { r.new.kept.built.items ≡ r.old.kept.built.items }
{
    match take(&mut r.kept, job) {
        None => false,
        Some(t) => {
            r.state.undo(now, t);
            true
        }
    }
}

#[tactic(auto, using(crate::proofs::ReplayLemmas::kept_beat))]
fn beat(
    r: &mut Replay,
    now: u64,
    server: ServerId,
    nonce: ServerNonce,
    cpus: u64,
) -> Result<bool, Memory>
    requires { IsKeptOf r.old.kept r.old.state }
    ensures called { IfOk result (λ done. IsCalled done (checked r.old.state.start.rules (call.Beat now server nonce cpus []))
        r.old.state r.new.state) }
    ensures kept { OnOk result (IsKeptOf r.new.kept r.new.state) }
    ensures built { OnOk result (r.new.kept.built.items ≡ r.old.kept.built.items) }
{
    if cpus < 1 || cpus > 4294967295 {
        return Ok(false);
    }
    let key = without_key(r.alloc);
    match r.state.beat(now, server, nonce, cpus, key) {
        Ok(_) => Ok(true),
        Err(_) => Err(Memory),
    }
}

/// Whether an update was accepted, if memory did not run out.
fn accepted(answer: Result<UpdateJobStateResult, SchedError>) -> Option<bool>
    ensures { result ≡ accepted_of answer }
{
    match answer {
        Ok(_) => Some(true),
        Err(SchedError::Memory) => None,
        Err(SchedError::IdsSpent) => Some(false),
        Err(SchedError::BadCpus(_)) => Some(false),
        Err(SchedError::UnknownJob) => Some(false),
        Err(SchedError::WrongServer) => Some(false),
        Err(SchedError::BadTransition(_, _)) => Some(false),
    }
}

fn update(
    r: &mut Replay,
    now: u64,
    server: ServerId,
    job: JobId,
    state: JobState,
) -> Result<(), Memory>
    requires { IsKeptOf r.old.kept r.old.state }
    ensures logged { OnOk result (r.new.state ≡ logged r.old.state
        (rule r.old.state (call.Update now server job state))) }
    ensures kept { OnOk result (IsKeptOf r.new.kept r.new.state) }
    ensures built { OnOk result (r.new.kept.built.items ≡ r.old.kept.built.items) }
{
    let answer = r.state.update(now, server, job, state);
    match accepted(answer) {
        None => Err(Memory),
        Some(is_accepted) => {
            note_state(&mut r.kept, job, state, is_accepted);
            Ok(())
        }
    }
}

#[tactic(auto, using(crate::proofs::ReplayLemmas::kept_status))]
fn status(r: &mut Replay, now: u64) -> Result<(), Memory>
    requires { IsKeptOf r.old.kept r.old.state }
    ensures logged { OnOk result (r.new.state ≡ logged r.old.state
        (rule r.old.state (call.Status now))) }
    ensures kept { OnOk result (IsKeptOf r.new.kept r.new.state) }
    ensures built { OnOk result (r.new.kept.built.items ≡ r.old.kept.built.items) }
{
    match r.state.status(now) {
        Ok(_) => Ok(()),
        Err(_) => Err(Memory),
    }
}

#[tactic(auto, using(crate::proofs::ReplayLemmas::kept_drain))]
fn drain(
    r: &mut Replay,
    now: u64,
    server: ServerId,
    nonce: ServerNonce,
    on: bool,
) -> Result<bool, Memory>
    requires { IsKeptOf r.old.kept r.old.state }
    ensures called { IfOk result (λ done. IsCalled done (checked r.old.state.start.rules
        (call.Drain now server nonce on)) r.old.state r.new.state) }
    ensures kept { OnOk result (IsKeptOf r.new.kept r.new.state) }
    ensures built { OnOk result (r.new.kept.built.items ≡ r.old.kept.built.items) }
{
    match r.state.rules() {
        Rules::One => Ok(false),
        Rules::Two => match r.state.drain(now, server, nonce, on) {
            Ok(_) => Ok(true),
            Err(_) => Err(Memory),
        },
    }
}

/// Makes the call that an entry can be of, if it may be made.
fn call(r: &mut Replay, now: u64, kind: &CoreKind) -> Result<bool, Memory>
    requires { IsKeptOf r.old.kept r.old.state }
    ensures called { IfOk result (λ done. IsCalled done (due_by r.old.state now kind.now)
        r.old.state r.new.state) }
    ensures kept { OnOk result (IsKeptOf r.new.kept r.new.state) }
    ensures built { OnOk result (r.new.kept.built.items ≡ r.old.kept.built.items) }
{
    match kind {
        CoreKind::Reserve(_) => {
            reserve(r, now)?;
            Ok(true)
        }
        CoreKind::Commit {
            job,
            state,
            kept: _,
        } => Ok(commit(r, now, *job, *state)),
        CoreKind::Undo {
            job,
            noted: _,
            ended: _,
        } => Ok(undo(r, now, *job)),
        CoreKind::Beat {
            server,
            nonce,
            cpus,
            key: _,
            pruned: _,
            reaped: _,
            replaced: _,
            is_new: _,
        } => beat(r, now, *server, *nonce, *cpus),
        CoreKind::Update {
            server,
            job,
            state,
            answer: _,
        } => {
            update(r, now, *server, *job, *state)?;
            Ok(true)
        }
        CoreKind::Status {
            pruned: _,
            servers: _,
            cpus: _,
            jobs: _,
        } => {
            status(r, now)?;
            Ok(true)
        }
        CoreKind::Drain {
            server,
            nonce,
            on,
            reg: _,
        } => drain(r, now, *server, *nonce, *on),
    }
}

/// Whether the last entry of the log is the same as an entry, but for its key.
fn is_last(state: &SchedState<EmptyTokens>, step: &CoreEntry) -> bool
    ensures { (s : Core) (made : Made) → state.now ≡ logged s made
        → result ≡ same_but_key made step.entry.now }
{
    match state.history() {
        [.., last] => last.is_same_but_key(step),
        [] => false,
    }
}

/// Judges a core entry of that number: whether it is the core rule's over those before it.
pub fn judge_core(r: &mut Replay, number: u64, step: &CoreEntry) -> Result<bool, Memory>
    requires { IsKeptOf r.old.kept r.old.state }
    ensures exact { IfOk result (λ good. IsLeft good (judged r.old.state number step.entry.now)
        r.new.state) }
    ensures kept { OnOk result (IsKeptOf r.new.kept r.new.state) }
    ensures built { OnOk result (r.new.kept.built.items ≡ r.old.kept.built.items) }
{
    if number != r.state.history().len() as u64 {
        return Ok(false);
    }
    if !call(r, step.now, &step.kind)? {
        return Ok(false);
    }
    Ok(is_last(&r.state, step))
}

/// Gives back what is in hand of a reservation.
fn give_back(state: &mut SchedState<EmptyTokens>, slot: Option<Reservation>) {
    match slot {
        Some(t) => {
            state.undo(0, t);
        }
        None => (),
    }
}

/// Lets it go: what is in hand is given back.
pub fn close(r: Replay) {
    let Replay {
        alloc: _,
        mut state,
        kept,
    } = r;
    let Kept {
        rows: _,
        mut held,
        built: _,
    } = kept;
    while let Some(slot) = held.pop() {
        give_back(&mut state, slot);
    }
    held.destroy_empty();
}
