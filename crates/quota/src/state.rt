//! The scheduler with quotas.
ghost use Rattle.std.specs.Prelude.{◌≡◌, ◌≤◌, ◌++◌, ◌∷◌, [], ℕ, List, IfOk, IfErr, OnOk, OnErr, IsErrOf};
ghost use Rattle.std.specs.Prelude.{Some, Err, map};
ghost use Rattle.std.specs.Prelude.{length, if◌then◌else◌, string_bytes, ◌↔◌, ◌⊎◌, ◌<◌, true, Option};
ghost use Rattle.std.specs.Prelude.{◌==◌, slice_get};
ghost use Rattle.std.specs.Option.{option_copied};
ghost use Rattle.core_rules.specs.Answers.{Leaves, committed_by, undo_answer, updated_by};
ghost use Rattle.core_rules.specs.declared.call.Call.TheVariants as call;
ghost use Rattle.core_rules.specs.declared.entry.CoreEntry.{CoreEntry};
ghost use Rattle.core_rules.specs.Laws.{IsLegal, IsLawful};
ghost use Rattle.core_rules.specs.Log.{Core, logged};
ghost use Rattle.core_rules.specs.Reservation.{unspent};
ghost use Rattle.core_rules.specs.Rule.{rule, is_among, is_initial, says_new_entry, counts_of};
ghost use Rattle.dist_types.specs.declared.rules.Rules.TheVariants.{One};
ghost use Rattle.quota.specs.Asked.{IsReserveFor};
ghost use Rattle.quota.specs.Clients.{client_of, AreNamedOnce, IsRefused};
ghost use Rattle.quota.specs.Holdings.{count_of, owner_of};
ghost use Rattle.quota.specs.Kept.{Agree, AreWithin, IsKept, with_made, after_made};
ghost use Rattle.quota.specs.Kept.{FollowsIn, owned_picked, ends_undone, ends_updated};
ghost use Rattle.quota.specs.Quota.{held_of, over_core, logged_for, owner_by, AreOwned, IsWithin, LeavesOver};
ghost use Rattle.quota.specs.Asked.{IsReserve, ByRefusal, refusal_at, fault_of};
ghost use Rattle.sched_core.specs.Picked.{IsPicked};

use crate::clients::Clients;
use crate::fault::QuotaFault;
use crate::holdings::Holdings;
use crate::picked::QuotaPicked;
use core_rules::answers::{Committed, Undone};
use core_rules::effects::complete;
use core_rules::entry::CoreEntry;
use core_rules::error::SchedError;
use dist_types::ids::{JobId, ServerId, ServerNonce};
use dist_types::results::{
    HeartbeatServerResult, JobState, SchedulerStatusResult, UpdateJobStateResult,
};
use dist_types::roles::JobAuthorizer;
use sched_core::answers::Picked;
use sched_core::reservation::Reservation;
use sched_core::state::SchedState;
use std::alloc::Global;
use std::marker::Model;

/// A scheduler by the rules of version 1, whose clients each hold at most so many reservations. Contracts see
/// the scheduler, the clients, and whose each reservation is.
#[derive(Drop)]
pub struct QuotaState<A: JobAuthorizer> {
    state: SchedState<A>,
    clients: Clients,
    holdings: Holdings,
}

impl<A: JobAuthorizer> Model for QuotaState<A> {
    ghost use Rattle.std.specs.Prelude.{map};
    ghost use Rattle.quota.specs.Holdings.{owner_of};
    ghost use Rattle.quota.specs.Kept.{IsKept};
    ghost use Rattle.quota.specs.Quota.{Quota};

    ghost Value = { Quota };

    ghost view = { λ s. record {
      core = s.state;
      clients = s.clients;
      owners = map owner_of s.holdings.owned;
    } };

    ghost invariant = { λ s. IsKept s.state s.clients s.holdings };
}

impl<A: JobAuthorizer> QuotaState<A> {
    /// A scheduler with an empty log, whose first job has the id `base`, and with these clients, each with
    /// how
    /// many reservations it may hold. DuplicateClient comes where a name stands twice, and Memory where
    /// memory
    /// runs out.
    pub fn new(
        alloc: Global,
        base: u64,
        clients: Vec<(String, u64)>,
    ) -> Result<QuotaState<A>, QuotaFault>
        ensures empty { IfOk result (λ q. q ≡ record {
          core = record { start = record { base = base; count = 0; rules = One }; log = [] };
          clients = map (λ c. client_of (string_bytes c.0) c.1) clients.items;
          owners = [];
        }) }
        ensures named_once { IfOk result (λ q. AreNamedOnce q.clients) }
        ensures refused { IfErr result
            (IsRefused (map (λ c. client_of (string_bytes c.0) c.1) clients.items)) }
    {
        let clients = Clients::of(alloc, clients)?;
        let holdings = Holdings::new(alloc, base, clients.len())?;
        Ok(QuotaState {
            state: SchedState::new(alloc, base),
            clients,
            holdings,
        })
    }

    /// How many reservations the client of that name holds: None where it is not listed. It takes no memory,
    /// and goes through no reservations.
    pub fn held(&self, client: &str) -> Option<u64>
        ensures held { result ≡ held_of self.now client.now }
        ensures within { IsWithin self.now }
        ensures owned { AreOwned self.now }
    {
        match self.clients.place_of(client) {
            Some(place) => Some(self.holdings.held_at(place)),
            None => None,
        }
    }

    /// The log, oldest entry first: each entry is the core rule's over those before it, so all laws of legal
    /// logs hold of it. It takes no memory.
    pub fn history(&self) -> &[CoreEntry]
        ensures log { result.now ≡ self.now.core.log }
        ensures legal { IsLegal self.now.core.start self.now.core.log }
        ensures lawful { IsLawful self.now.core.log }
    {
        self.state.history()
    }

    /// Reserves a job for a client at the moment `now`, in milliseconds. NoClient comes where it is not
    /// listed
    /// and Full where it holds as many reservations as it may: these change nothing and log nothing. Else
    /// it is
    /// a reserve of the scheduler, for which it took its memory before: `Core(IdsSpent)` is logged, `Memory`
    /// changes nothing.
    #[inline(always)]
    pub fn reserve_for(&mut self, now: u64, client: &str) -> Result<QuotaPicked, QuotaFault>
        ensures reserved { IsReserveFor A.key_of A.token_for now client.now self.old self.new result }
        ensures within { IsWithin self.new }
    {
        let Some(place) = self.clients.place_of(client) else {
            return Ok(QuotaPicked::NoClient);
        };
        let held = self.holdings.held_at(place);
        let limit = self.clients.limit_at(place);
        if is_full(held, limit) {
            return Ok(QuotaPicked::Full { held, limit });
        }
        self.holdings.make_room()?;
        let picked = match self.state.reserve(now) {
            Ok(picked) => picked,
            Err(e) => return Err(fault_of(e)),
        };
        note(&mut self.holdings, &picked, place);
        Ok(QuotaPicked::Picked(picked))
    }

    /// Spends a reservation, as the scheduler does. It takes no memory.
    #[inline(always)]
    pub fn commit(&mut self, now: u64, r: Reservation, state: JobState) -> Committed
        requires begins { is_initial state ≡ true }
        ensures logged { self.new ≡ over_core self.old
            (if is_among (unspent self.old.core.log) r.number r.job then
            logged self.old.core (rule self.old.core (call.Commit now r.number r.job state))
            else self.old.core) }
        ensures answer { result ≡ committed_by (is_among (unspent self.old.core.log) r.number r.job)
            (rule self.old.core (call.Commit now r.number r.job state)).kind r }
    {
        // It ends no reservation.
        self.state.commit(now, r, state)
    }

    /// Gives a reservation back, as the scheduler does. It takes no memory.
    #[inline(always)]
    pub fn undo(&mut self, now: u64, r: Reservation) -> Undone
        ensures logged { self.new ≡ over_core self.old
            (if is_among (unspent self.old.core.log) r.number r.job then
            logged self.old.core (rule self.old.core (call.Undo now r.number r.job)) else self.old.core) }
        ensures answer { result ≡ undo_answer (is_among (unspent self.old.core.log) r.number r.job)
            (rule self.old.core (call.Undo now r.number r.job)).kind }
    {
        let job = r.job_id();
        let undone = self.state.undo(now, r);
        self.holdings.end_job_if(ends_undone(undone), job);
        undone
    }

    /// Takes a heartbeat, as the scheduler does. BadCpus and Memory change nothing.
    pub fn beat(
        &mut self,
        now: u64,
        server: ServerId,
        nonce: ServerNonce,
        cpus: u64,
        key: A,
    ) -> Result<HeartbeatServerResult, SchedError>
        ensures logged { OnOk result (self.new ≡ over_core self.old (logged self.old.core
            (rule self.old.core (call.Beat now server nonce cpus (A.key_of key))))) }
        ensures answer { IfOk result (λ r. r.is_new ≡ says_new_entry
            (rule self.old.core (call.Beat now server nonce cpus (A.key_of key)))) }
        ensures bad_cpus { (result ≡ Err (SchedError.BadCpus cpus)) ↔ ((cpus ≡ 0) ⊎ (4294967295 < cpus)) }
        ensures errors { IfErr result (λ e. (e ≡ SchedError.BadCpus cpus) ⊎ (e ≡ SchedError.Memory)) }
        ensures err { OnErr result (self.new ≡ self.old) }
    {
        let before = self.state.history().len();
        let heard = self.state.beat(now, server, nonce, cpus, key);
        absorb_since(&self.state, &mut self.holdings, before);
        heard
    }

    /// Takes a server's report that a job is in a new state, as the scheduler does. Every answer but Memory,
    /// which changes nothing, is logged.
    #[inline(always)]
    pub fn update(
        &mut self,
        now: u64,
        server: ServerId,
        job: JobId,
        state: JobState,
    ) -> Result<UpdateJobStateResult, SchedError>
        ensures logged { OnOk result (self.new ≡ over_core self.old (logged self.old.core
            (rule self.old.core (call.Update now server job state)))) }
        ensures answer { ¬ IsErrOf result SchedError.Memory →
            result ≡ updated_by (rule self.old.core (call.Update now server job state)).kind }
        ensures err { IfErr result (λ e. LeavesOver e self.old self.new
            (rule self.old.core (call.Update now server job state))) }
    {
        let updated = self.state.update(now, server, job, state);
        self.holdings.end_job_if(ends_updated(state, &updated), job);
        updated
    }

    /// Answers a status request, as the scheduler does. Memory changes nothing.
    pub fn status(&mut self, now: u64) -> Result<SchedulerStatusResult, SchedError>
        ensures logged { OnOk result (self.new ≡ over_core self.old (logged self.old.core
            (rule self.old.core (call.Status now)))) }
        ensures answer { IfOk result (λ r. r ≡ counts_of (rule self.old.core (call.Status now))) }
        ensures memory { IfErr result (λ e. e ≡ SchedError.Memory) }
        ensures err { OnErr result (self.new ≡ self.old) }
    {
        let before = self.state.history().len();
        let counts = self.state.status(now);
        absorb_since(&self.state, &mut self.holdings, before);
        counts
    }
}

/// Whether a client that holds so many may hold no more.
fn is_full(held: u64, limit: u64) -> bool
    ensures { result ≡ (held == limit) }
{
    held == limit
}

/// Whether an undo that was answered so ended its reservation.
fn ends_undone(undone: Undone) -> bool
    ensures { result ≡ ends_undone undone }
{
    matches!(undone, Undone::Unassigned)
}

/// Whether a report of that state that was answered so ended its job's reservation.
fn ends_updated(state: JobState, updated: &Result<UpdateJobStateResult, SchedError>) -> bool
    ensures { result ≡ ends_updated state updated.now }
{
    match updated {
        Ok(_) => complete(state),
        Err(_) => false,
    }
}

/// The entry in a place of the log, if there is one.
fn entry_at<'a>(log: &'a [CoreEntry], place: usize) -> Option<&'a CoreEntry>
    ensures { option_copied result ≡ slice_get log.now place }
{
    log.get(place)
}

/// Ends what the entry that the log grew by ends, if it grew by one.
fn absorb_since<A: JobAuthorizer>(state: &SchedState<A>, holdings: &mut Holdings, before: usize)
    ensures owned { (core : Core) (made : Option CoreEntry) → length core.log ≡ before
        → state.now ≡ with_made core made → holdings.new.owned ≡ after_made made holdings.old.owned }
    ensures first { holdings.new.first ≡ holdings.old.first }
    ensures clients { holdings.new.clients ≡ holdings.old.clients }
{
    match entry_at(state.history(), before) {
        Some(entry) => holdings.absorb(&entry.kind),
        None => (),
    }
}

/// Why the scheduler refuses a reserve.
fn fault_of(e: SchedError) -> QuotaFault
    ensures { result ≡ fault_of e }
{
    match e {
        SchedError::Memory => QuotaFault::Memory,
        SchedError::BadCpus(cpus) => QuotaFault::Core(SchedError::BadCpus(cpus)),
        SchedError::IdsSpent => QuotaFault::Core(SchedError::IdsSpent),
        SchedError::UnknownJob => QuotaFault::Core(SchedError::UnknownJob),
        SchedError::WrongServer => QuotaFault::Core(SchedError::WrongServer),
        SchedError::BadTransition(from, to) => {
            QuotaFault::Core(SchedError::BadTransition(from, to))
        }
    }
}

/// Notes whose the reservation is that was picked, if one was. It takes no memory.
#[inline(always)]
fn note(holdings: &mut Holdings, picked: &Picked, client: usize)
    requires room { holdings.old.has_room ≡ true }
    requires listed { client < holdings.old.clients }
    requires follows { FollowsIn picked.now holdings.old }
    ensures owned { holdings.new.owned ≡ holdings.old.owned ++ owned_picked picked.now client }
    ensures first { holdings.new.first ≡ holdings.old.first }
    ensures clients { holdings.new.clients ≡ holdings.old.clients }
{
    match picked {
        Picked::Reserved(r) => holdings.add(r.number(), r.job_id(), r.registration(), client),
        Picked::NoRoom(_) => (),
    }
}
