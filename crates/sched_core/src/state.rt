//! The scheduler's state: its log, and what is kept of it.
ghost use Rattle.std.specs.Prelude.{◌≡◌, ◌↔◌, ◌⊎◌, ◌<◌, ◌≤◌, ◌+◌, ◌^◌, ◌++◌, ◌∷◌, [], Err, Some, IfOk};
ghost use Rattle.std.specs.Prelude.{IfErr};
ghost use Rattle.std.specs.Prelude.{OnOk, OnErr, IsErrOf, length, map, true, if◌then◌else◌, option_to_list};
ghost use Rattle.std.specs.Prelude.{◌*◌, ◌/◌, ℕ, false, max, option_and_then};
ghost use Rattle.sched_core.specs.Most.{most_standing, forgiven_count};
ghost use Rattle.sched_core.specs.Registrations.{AreFew};
ghost use Rattle.std.specs.List.{AllByRecursion};
ghost use Rattle.core_rules.specs.Log.{Core, logged};
ghost use Rattle.core_rules.specs.Standing.{address_of};
ghost use Rattle.core_rules.specs.Reservation.{bookings, unspent, unended, spends_by};
ghost use Rattle.core_rules.specs.Job.{open_jobs};
ghost use Rattle.core_rules.specs.Rule.{rule, says_new_entry, counts_of, knows_of, is_among, is_initial};
ghost use Rattle.core_rules.specs.Rule.{place_at, noted_over};
ghost use Rattle.core_rules.specs.Rows.{servers_of, jobs_of, job_row, unended_by_id};
ghost use Rattle.core_rules.specs.Answers.{Leaves, RefusesReserve, committed_by, undo_answer};
ghost use Rattle.sched_core.specs.Picked.{IsPicked, IsReservedAs};
ghost use Rattle.core_rules.specs.Next.{IsAtRow};
ghost use Rattle.core_rules.specs.Answers.{updated_by};
ghost use Rattle.core_rules.specs.Laws.{IsLegal, IsLawful, IsRule};
ghost use Rattle.sched_core.specs.Books.{IsState, MayRegister, Kept, key_by, kept_by, keys_of};
ghost use Rattle.sched_core.specs.Books.{HasRoomFor, HasJobRoom, MakesNothing};
ghost use Rattle.sched_core.specs.Books.{unspent_next};
ghost use Rattle.reservations.specs.Booked.{unspent_view};
ghost use Rattle.core_rules.specs.declared.call.Call.TheVariants as call;

use crate::answers::Picked;
use crate::books::{Books, Heartbeat};
use crate::decide::JobIds;
use crate::keys::{self, RegistrationKey};
use crate::log::CoreLog;
use crate::reservation::Reservation;
use crate::rows::{Jobs, Servers};
use crate::tickets;
use core_rules::answers::{Committed, Undone, answer_commit, answer_undo, answer_update};
use core_rules::entry::{CoreEntry, CoreKind, Reserved};
use core_rules::error::SchedError;
use core_rules::laws::legal_logs_are_lawful;
use core_rules::start::Start;
use core_rules::{rules, standing};
use dist_types::ids::{JobId, ServerId, ServerNonce};
use dist_types::results::{
    HeartbeatServerResult, JobState, SchedulerStatusResult, UpdateJobStateResult,
};
use dist_types::roles::JobAuthorizer;
use dist_types::rules::Rules;
use row_index::{LookupTable, Steps};
use std::alloc::{AllocError, Global};
use std::marker::{Brand, Model};
use std::sync::ledger::{Blank, Ledger};

/// The most processors that a heartbeat may say.
const MOST_CPUS: u64 = 4294967295;

/// The log of the scheduler, and the books that answer from it. Contracts see the first job id, how
/// many jobs were reserved before, and the log.
#[derive(Drop)]
pub struct SchedState<A: JobAuthorizer> {
    alloc: Global,
    start: Start,
    journal: Journal<A>,
}

/// The log, and what is kept of it.
#[derive(Drop)]
struct Journal<A: JobAuthorizer> {
    books: Books,
    keys: LookupTable<u64, A>,
    log: CoreLog,
}

impl<A: JobAuthorizer> Model for SchedState<A> {
    ghost use Rattle.core_rules.specs.Log.{Core};

    ghost Value = { Core };

    ghost use Rattle.sched_core.specs.Books.{IsState, kept_by};

    ghost view = { λ s. record { start = s.start; log = s.journal.log.items } };

    ghost invariant = { λ s. IsState s.start s.journal.books (kept_by A.key_of s.journal.keys.entries)
        s.journal.log.items
        s.journal.log.len s.journal.log.capacity };
}

impl<A: JobAuthorizer> SchedState<A> {
    /// A scheduler with an empty log, whose first job has the id `base`. It takes no memory.
    pub fn new(alloc: Global, base: u64) -> Self
        ensures empty { result ≡
            record { start = record { base = base; count = 0; rules = Rules.One }; log = [] } }
    {
        SchedState::with_job_ids(alloc, base, 0)
    }

    /// A scheduler with an empty log, which goes on where `count` jobs were reserved before: its next
    /// job has the id `base + count`, modulo 2^64. It takes no memory.
    pub fn with_job_ids(alloc: Global, base: u64, count: u64) -> Self
        ensures empty { result ≡
            record { start = record { base = base; count = count; rules = Rules.One }; log = [] } }
    {
        SchedState::with_rules(alloc, base, count, Rules::One)
    }

    /// The same, by that version of the rules.
    pub fn with_rules(alloc: Global, base: u64, count: u64, rules: Rules) -> Self
        ensures empty { result ≡
            record { start = record { base = base; count = count; rules = rules }; log = [] } }
    {
        SchedState {
            alloc,
            start: Start { base, count, rules },
            journal: Journal {
                books: Books::new(alloc, base.wrapping_add(count)),
                keys: LookupTable::new(alloc),
                log: CoreLog::new(alloc),
            },
        }
    }

    /// The id of the first job.
    pub fn base(&self) -> u64
        ensures base { result ≡ self.now.start.base }
    {
        self.start.base
    }

    /// How many jobs were reserved before the log begins.
    pub fn count(&self) -> u64
        ensures count { result ≡ self.now.start.count }
    {
        self.start.count
    }

    /// The version of the rules that it goes by.
    pub fn rules(&self) -> Rules
        ensures rules { result ≡ self.now.start.rules }
    {
        self.start.rules
    }

    /// How many reservations the log makes: one for each id that was given since it began. It takes no
    /// memory, and does not go through the log.
    pub fn reservation_count(&self) -> u64
        ensures made { result ≡ length (bookings self.now.log) }
    {
        self.journal.books.made()
    }

    /// How many jobs are open. It takes no memory, and does not go through the log.
    pub fn open_count(&self) -> usize
        ensures { result ≡ length (open_jobs self.now.log) }
    {
        self.journal.books.open_count()
    }

    /// The log, oldest entry first: each entry is the core rule's over those before it, so all laws of
    /// legal logs hold of it. It takes no memory.
    pub fn history(&self) -> &[CoreEntry]
        ensures log { result.now ≡ self.now.log }
        ensures legal { IsLegal self.now.start self.now.log }
        ensures count { self.now.start.count < 2 ^ 64 }
        ensures lawful { IsLawful self.now.log }
    {
        legal_logs_are_lawful();
        self.journal.log.whole()
    }

    /// The registrations that stand, by rising number, as the whole log gives them. It takes no
    /// memory.
    pub fn servers(&self) -> Servers<'_>
        ensures rows { result ≡ servers_of self.now.log }
    {
        self.journal.books.servers()
    }

    /// The unended reservations, by rising job id, as the whole log gives them. It takes no memory.
    pub fn jobs(&self) -> Jobs<'_>
        ensures jobs { result ≡ jobs_of self.now.log }
        // None is left out: each is at a registration that has an address.
        ensures all { map Some result ≡ map (job_row self.now.log) (unended_by_id self.now.log) }
    {
        self.journal.books.jobs()
    }

    /// Reserves a job at the moment `now`, in milliseconds: at the registration with room and no
    /// remembered error that has the least load for each processor, else at the one with room whose
    /// error is oldest; the errors over 300000 milliseconds old are then forgotten. NoRoom says how many
    /// registrations stand of which none has room. IdsSpent comes where one has room and no id is left;
    /// it is logged, and leaves the books. Memory changes nothing. Room is kept for the entry that
    /// spends the reservation.
    pub fn reserve(&mut self, now: u64) -> Result<Picked, SchedError>
        // It appends the one entry that the core rule gives, and answers what that entry says.
        ensures logged { OnOk result (self.new ≡ logged self.old (rule self.old (call.Reserve now))) }
        ensures picked { IfOk result (IsPicked A.key_of A.token_for self.old.log
            (rule self.old (call.Reserve now)).kind) }
        ensures refused { IfErr result (RefusesReserve (rule self.old (call.Reserve now)).kind) }
        ensures err { IfErr result (λ e. Leaves e self.old self.new (rule self.old (call.Reserve now))) }
        // So every law of legal logs holds: ids differ, and a reserve goes to the first of those with room.
        ensures lawful { IsLawful self.new.log }
    {
        let picked = reserve_uncounted::<A, Brand>(self, now, Blank::new(1));
        self.keeps_laws();
        picked
    }

    /// The same, with its looks at the trees of the books and at the entries of the log counted: where at
    /// most 2^h registrations ever stood at one time it takes no more than 6h + 8, and as many again for each
    /// error that it forgets.
    pub fn reserve_counted<L: Ledger>(
        &mut self,
        now: u64,
        steps: &mut Steps<L>,
    ) -> Result<Picked, SchedError>
        // It appends the one entry that the core rule gives, and answers what that entry says.
        ensures logged { OnOk result (self.new ≡ logged self.old (rule self.old (call.Reserve now))) }
        ensures picked { IfOk result (IsPicked A.key_of A.token_for self.old.log
            (rule self.old (call.Reserve now)).kind) }
        ensures refused { IfErr result (RefusesReserve (rule self.old (call.Reserve now)).kind) }
        ensures err { IfErr result (λ e. Leaves e self.old self.new (rule self.old (call.Reserve now))) }
        ensures looks { (h : ℕ) → max 1 (most_standing self.old.log) ≤ 2 ^ h → steps.new ≤ steps.old +
            (6 * h + 8) * (1 + forgiven_count (rule self.old (call.Reserve now)).kind) }
        ensures lawful { IsLawful self.new.log }
    {
        let picked = self.enter_reserve(now, steps);
        self.keeps_laws();
        picked
    }

    /// The same.
    fn enter_reserve<L: Ledger>(
        &mut self,
        now: u64,
        steps: &mut Steps<L>,
    ) -> Result<Picked, SchedError>
        ensures logged { OnOk result (self.new ≡ logged self.old (rule self.old (call.Reserve now))) }
        ensures picked { IfOk result (IsPicked A.key_of A.token_for self.old.log
            (rule self.old (call.Reserve now)).kind) }
        ensures refused { IfErr result (RefusesReserve (rule self.old (call.Reserve now)).kind) }
        ensures err { IfErr result (λ e. Leaves e self.old self.new (rule self.old (call.Reserve now))) }
        ensures looks { (h : ℕ) → max 1 (most_standing self.old.log) ≤ 2 ^ h → steps.new ≤ steps.old +
            (6 * h + 8) * (1 + forgiven_count (rule self.old (call.Reserve now)).kind) }
    {
        let ids = JobIds {
            base: self.start.base,
            given: u128::from(self.start.count) + u128::from(self.journal.books.made()),
        };
        let reserved = self.journal.books.reserved(self.alloc, now, ids, steps)?;
        make_job_room(
            self.alloc,
            &mut self.journal.books,
            &mut self.journal.log,
            &reserved,
        )?;
        let made = made_next(&self.journal, &reserved)?;
        let kind = CoreKind::Reserve(reserved);
        let entry = CoreEntry { now, kind };
        take(self.start, &mut self.journal, entry, None, steps);
        tickets::answer(made)
    }

    /// Spends a reservation at the moment `now`, in milliseconds: keeps its job in the state Pending or
    /// Ready where the reservation is unended, else drops it. Foreign comes exactly where this state has
    /// no unspent reservation of that number and job; it changes nothing. It takes no memory.
    pub fn commit(&mut self, now: u64, r: Reservation, state: JobState) -> Committed
        requires begins { is_initial state ≡ true }
        ensures logged { self.new ≡ (if is_among (unspent self.old.log) r.number r.job then
            logged self.old (rule self.old (call.Commit now r.number r.job state)) else self.old) }
        ensures answer { result ≡ committed_by (is_among (unspent self.old.log) r.number r.job)
            (rule self.old (call.Commit now r.number r.job state)).kind r }
        // So every law of legal logs holds: a reservation is spent once, and ends once at most.
        ensures lawful { IsLawful self.new.log }
    {
        let number = r.number();
        let job = r.job_id();
        let alloc = r.into_alloc();
        if !self.owns(number, job) {
            self.keeps_laws();
            return Committed::Foreign(job);
        }
        let kept = self.holds(number, job);
        let kind = CoreKind::Commit { job, state, kept };
        self.spend(number, job, CoreEntry { now, kind });
        self.keeps_laws();
        answer_commit(kept, alloc)
    }

    /// Gives a reservation back at the moment `now`, in milliseconds, which is noted as the error of the
    /// registration that stands at its address, if one does; the reservation ends, if it is unended.
    /// Foreign comes exactly where this state has no unspent reservation of that number and job; it
    /// changes nothing. It takes no memory.
    pub fn undo(&mut self, now: u64, r: Reservation) -> Undone
        ensures logged { self.new ≡ (if is_among (unspent self.old.log) r.number r.job then
            logged self.old (rule self.old (call.Undo now r.number r.job)) else self.old) }
        ensures answer { result ≡ undo_answer (is_among (unspent self.old.log) r.number r.job)
            (rule self.old (call.Undo now r.number r.job)).kind }
        ensures lawful { IsLawful self.new.log }
    {
        let number = r.number();
        let job = r.job_id();
        r.spend();
        if !self.owns(number, job) {
            self.keeps_laws();
            return Undone::Foreign;
        }
        let noted = self.noted(number, job);
        let ended = self.holds(number, job);
        let kind = CoreKind::Undo { job, noted, ended };
        self.spend(number, job, CoreEntry { now, kind });
        self.keeps_laws();
        answer_undo(noted, ended)
    }

    /// Each entry of the log is the core rule's over those before it, so all laws of legal logs hold of it.
    #[inline(always)]
    fn keeps_laws(&self)
        ensures { IsLawful self.now.log }
    {
        let _start = self.start;
        legal_logs_are_lawful();
    }

    /// Whether this state made the reservation of that number and job, and it is unspent.
    #[inline(always)]
    fn owns(&self, number: u64, job: JobId) -> bool
        ensures { result ≡ is_among (unspent self.now.log) number job }
    {
        self.journal.books.is_unspent(number, job)
    }

    /// Whether the reservation of that number and job is unended.
    #[inline(always)]
    fn holds(&self, number: u64, job: JobId) -> bool
        ensures { result ≡ is_among (unended self.now.log) number job }
    {
        self.journal.books.is_held(number, job)
    }

    /// The registration that stands at the address of an unspent reservation, if there is one.
    #[inline(always)]
    fn noted(&self, number: u64, job: JobId) -> Option<u64>
        requires { is_among (unspent self.now.log) number job ≡ true }
        ensures { result ≡ noted_over (servers_of self.now.log)
            (option_and_then (address_of self.now.log) (place_at self.now.log number)) }
    {
        let server = self.journal.books.unspent_address(number, job);
        self.journal.books.noted(server)
    }

    /// Enters what spends a reservation: there is room for it since the reserve.
    #[inline(always)]
    fn spend(&mut self, number: u64, job: JobId, entry: CoreEntry)
        requires owned { is_among (unspent self.old.log) number job ≡ true }
        requires spends { spends_by entry.kind job ≡ true }
        requires rule { IsRule self.old entry }
        ensures { self.new ≡ logged self.old entry }
    {
        take_uncounted::<A, Brand>(self.start, &mut self.journal, entry, None, Blank::new(1));
    }

    /// Takes a heartbeat at the moment `now`, in milliseconds: prunes the registrations that are silent
    /// for over 90000; then renews the one at the address, where it has this nonce, and reaps its
    /// reservations that wait for too long, or makes a new one, in place of one with another nonce.
    /// BadCpus comes before all else where `cpus` is 0 or over 4294967295, Memory where memory runs
    /// out; either changes nothing.
    pub fn beat(
        &mut self,
        now: u64,
        server: ServerId,
        nonce: ServerNonce,
        cpus: u64,
        key: A,
    ) -> Result<HeartbeatServerResult, SchedError>
        // It appends the one entry that the core rule gives, and answers what that entry says.
        ensures logged { OnOk result (self.new ≡ logged self.old
            (rule self.old (call.Beat now server nonce cpus (A.key_of key)))) }
        ensures answer { IfOk result (λ r. r.is_new ≡ says_new_entry
            (rule self.old (call.Beat now server nonce cpus (A.key_of key)))) }
        ensures bad_cpus { (result ≡ Err (SchedError.BadCpus cpus)) ↔ ((cpus ≡ 0) ⊎ (4294967295 < cpus)) }
        ensures errors { IfErr result (λ e. (e ≡ SchedError.BadCpus cpus) ⊎ (e ≡ SchedError.Memory)) }
        ensures err { OnErr result (self.new ≡ self.old) }
    {
        if cpus == 0 || cpus > MOST_CPUS {
            return Err(SchedError::BadCpus(cpus));
        }
        let beat = Heartbeat {
            moment: now,
            server,
            nonce,
            cpus,
        };
        let rules = self.start.rules;
        let entry = self.journal.books.beat(self.alloc, rules, beat, key.key())?;
        let is_new = entry.is_new_beat();
        make_beat_room(self.alloc, is_new, &mut self.journal)?;
        let key = keys::key_made(is_new, self.journal.log.len() as u64, key);
        take_uncounted::<A, Brand>(self.start, &mut self.journal, entry, key, Blank::new(1));
        Ok(HeartbeatServerResult { is_new })
    }

    /// Takes a server's report at the moment `now`, in milliseconds, that a job is in a new state.
    /// UnknownJob comes where no open job has that id, then WrongServer where the job is at another
    /// address; both are logged and leave the books. BadTransition comes where the state does not follow
    /// the job's; like a report that is accepted it is a sign of the server. Memory changes nothing.
    pub fn update(
        &mut self,
        now: u64,
        server: ServerId,
        job: JobId,
        state: JobState,
    ) -> Result<UpdateJobStateResult, SchedError>
        ensures logged { OnOk result (self.new ≡ logged self.old
            (rule self.old (call.Update now server job state))) }
        ensures answer { ¬ IsErrOf result SchedError.Memory →
            result ≡ updated_by (rule self.old (call.Update now server job state)).kind }
        ensures err { IfErr result (λ e. Leaves e self.old self.new
            (rule self.old (call.Update now server job state))) }
    {
        let found = self.journal.books.open_job(job);
        let answer = rules::answer_by(&found, server, state);
        let kind = CoreKind::Update {
            server,
            job,
            state,
            answer,
        };
        self.enter(CoreEntry { now, kind })?;
        answer_update(answer, state)
    }

    /// Prunes the registrations that are silent for too long at the moment `now`, in milliseconds, and
    /// counts those that are left, their processors and the open jobs. Memory changes nothing.
    pub fn status(&mut self, now: u64) -> Result<SchedulerStatusResult, SchedError>
        ensures logged { OnOk result (self.new ≡ logged self.old (rule self.old (call.Status now))) }
        ensures answer { IfOk result (λ r. r ≡ counts_of (rule self.old (call.Status now))) }
        ensures memory { IfErr result (λ e. e ≡ SchedError.Memory) }
        ensures err { OnErr result (self.new ≡ self.old) }
    {
        let pruned = self.journal.books.pruned(self.alloc, now)?;
        let answer = self.journal.books.counts(&pruned, now);
        let entry = standing::status_entry(now, pruned, answer);
        self.enter(entry)?;
        Ok(answer)
    }

    /// Lets the registration that stands at the address under the nonce drain at the moment `now`, in
    /// milliseconds, or ends that: one that drains has no room, and its jobs go on. It answers whether
    /// there is such a registration; where there is none that is logged all the same. It prunes nothing,
    /// and is no sign of the server. Memory changes nothing.
    pub fn drain(
        &mut self,
        now: u64,
        server: ServerId,
        nonce: ServerNonce,
        on: bool,
    ) -> Result<bool, SchedError>
        requires version { self.old.start.rules ≡ Rules.Two }
        ensures logged { OnOk result (self.new ≡ logged self.old
            (rule self.old (call.Drain now server nonce on))) }
        ensures answer { IfOk result (λ known. known ≡
            knows_of (rule self.old (call.Drain now server nonce on))) }
        ensures memory { IfErr result (λ e. e ≡ SchedError.Memory) }
        ensures err { OnErr result (self.new ≡ self.old) }
    {
        let entry = self.journal.books.drain(now, server, nonce, on);
        let known = entry.is_known();
        self.enter(entry)?;
        Ok(known)
    }

    /// Makes room in the log for an entry that makes nothing, and enters it. Refused for want of memory
    /// alone.
    #[inline(always)]
    fn enter(&mut self, entry: CoreEntry) -> Result<(), AllocError>
        requires rule { IsRule self.old entry }
        requires nothing { MakesNothing entry.kind }
        ensures entered { OnOk result (self.new ≡ logged self.old entry) }
        ensures err { OnErr result (self.new ≡ self.old) }
    {
        make_log_room(&self.journal.books, &mut self.journal.log)?;
        take_uncounted::<A, Brand>(self.start, &mut self.journal, entry, None, Blank::new(1));
        Ok(())
    }
}

/// Makes room in the log for one more entry, beside those that spend the reservations, and for one
/// reservation more. Refused for want of memory alone; the entries stay.
fn make_log_room(books: &Books, log: &mut CoreLog) -> Result<(), AllocError>
    ensures log { log.new.items ≡ log.old.items }
    ensures log_room { log.old.len + length (unspent_view books.now.lists.booked) ≤ log.old.capacity →
        log.new.len + length (unspent_view books.now.lists.booked) ≤ log.new.capacity }
    ensures spare { OnOk result
        (log.new.len + length (unspent_view books.now.lists.booked) + 2 ≤ log.new.capacity) }
{
    log.make_room(books.unspent_count() + 2)
}

/// Makes room for what a reserve adds. Refused for want of memory alone; the lists stay.
fn make_job_room(
    alloc: Global,
    books: &mut Books,
    log: &mut CoreLog,
    reserved: &Reserved,
) -> Result<(), AllocError>
    ensures lists { books.new.lists ≡ books.old.lists }
    ensures log { log.new.items ≡ log.old.items }
    ensures log_room { log.old.len + length (unspent_view books.old.lists.booked) ≤ log.old.capacity →
        log.new.len + length (unspent_view books.old.lists.booked) ≤ log.new.capacity }
    ensures first { books.new.first ≡ books.old.first }
    ensures room { OnOk result (HasRoomFor reserved.now books.new.job_room) }
    ensures top { books.new.top ≡ books.old.top }
    ensures places { books.new.places ≡ books.old.places }
    ensures spare { OnOk result
        (log.new.len + length (unspent_view books.old.lists.booked) + 2 ≤ log.new.capacity) }
{
    books.make_job_room(alloc, reserved)?;
    make_log_room(books, log)
}

/// What a reserve makes whose entry is the next one and says this. Refused for want of memory alone.
fn made_next<A: JobAuthorizer>(
    journal: &Journal<A>,
    reserved: &Reserved,
) -> Result<Option<Picked>, SchedError>
    requires rows { journal.now.books.lists.rows ≡ servers_of journal.now.log.items }
    requires keys { kept_by A.key_of journal.now.keys.entries ≡ keys_of journal.now.log.items }
    requires stands { IsAtRow reserved.now journal.now.books.lists.rows }
    ensures made { IfOk result
        (IsReservedAs A.key_of A.token_for journal.now.log.items reserved.now) }
    ensures memory { IfErr result (λ e. e ≡ SchedError.Memory) }
{
    let number = journal.log.len() as u64;
    tickets::made(&journal.books, &journal.keys, number, reserved)
}

/// Makes room for what a heartbeat may add. Refused for want of memory alone; the lists stay.
fn make_row_room<A: JobAuthorizer>(
    alloc: Global,
    books: &mut Books,
    keys: &mut LookupTable<u64, A>,
    log: &mut CoreLog,
) -> Result<(), AllocError>
    ensures lists { books.new.lists ≡ books.old.lists }
    ensures keys { kept_by A.key_of keys.new.entries ≡ kept_by A.key_of keys.old.entries }
    ensures log { log.new.items ≡ log.old.items }
    ensures log_room { log.old.len + length (unspent_view books.old.lists.booked) ≤ log.old.capacity →
        log.new.len + length (unspent_view books.old.lists.booked) ≤ log.new.capacity }
    ensures first { books.new.first ≡ books.old.first }
    ensures room { OnOk result (books.new.has_row_room ≡ true) }
    ensures top { books.new.top ≤ books.old.top }
    ensures places { books.new.places ≤ max books.old.places (2 * max 1 (length books.old.lists.rows)) }
    ensures keys_room { OnOk result (0 < keys.new.spare) }
    ensures spare { OnOk result
        (log.new.len + length (unspent_view books.old.lists.booked) + 2 ≤ log.new.capacity) }
{
    books.make_row_room(alloc)?;
    keys::make_room(keys)?;
    make_log_room(books, log)
}

/// Makes room for what a heartbeat adds: one that says old adds its entry alone. Refused for want of memory
/// alone; the lists stay.
fn make_beat_room<A: JobAuthorizer>(
    alloc: Global,
    is_new: bool,
    journal: &mut Journal<A>,
) -> Result<(), AllocError>
    ensures lists { journal.new.books.lists ≡ journal.old.books.lists }
    ensures keys { kept_by A.key_of journal.new.keys.entries ≡ kept_by A.key_of journal.old.keys.entries }
    ensures log { journal.new.log.items ≡ journal.old.log.items }
    ensures log_room { journal.old.log.len + length (unspent_view journal.old.books.lists.booked)
        ≤ journal.old.log.capacity →
        journal.new.log.len + length (unspent_view journal.old.books.lists.booked)
        ≤ journal.new.log.capacity }
    ensures first { journal.new.books.first ≡ journal.old.books.first }
    ensures room { OnOk result (is_new ≡ true → journal.new.books.has_row_room ≡ true) }
    ensures top { journal.new.books.top ≤ journal.old.books.top }
    ensures places { journal.new.books.places ≤
        max journal.old.books.places (2 * max 1 (length journal.old.books.lists.rows)) }
    ensures keys_room { OnOk result (is_new ≡ true → 0 < journal.new.keys.spare) }
    ensures spare { OnOk result
        (journal.new.log.len + length (unspent_view journal.old.books.lists.booked) + 2
        ≤ journal.new.log.capacity) }
    ensures old { is_new ≡ false → (journal.new.books ≡ journal.old.books)
        × (journal.new.keys ≡ journal.old.keys) }
{
    if is_new {
        make_row_room(
            alloc,
            &mut journal.books,
            &mut journal.keys,
            &mut journal.log,
        )
    } else {
        make_log_room(&journal.books, &mut journal.log)
    }
}

/// Takes the next entry into the books and the log. It takes no memory.
#[inline(always)]
fn take<A: JobAuthorizer, L: Ledger>(
    start: Start,
    journal: &mut Journal<A>,
    step: CoreEntry,
    key: Option<RegistrationKey<A>>,
    steps: &mut Steps<L>,
)
    requires state { IsState start journal.old.books (kept_by A.key_of journal.old.keys.entries)
        journal.old.log.items journal.old.log.len journal.old.log.capacity }
    requires rule { IsRule (record { start = start; log = journal.old.log.items }) step }
    requires key { key ≡ key_by step.kind (length journal.old.log.items) }
    requires row_room { MayRegister step.kind → journal.old.books.has_row_room ≡ true }
    requires job_room { HasJobRoom step.kind journal.old.books.job_room }
    requires keys_room { MayRegister step.kind → 0 < journal.old.keys.spare }
    requires log_room { journal.old.log.len + 1 +
        length (unspent_next journal.old.books.lists step (length journal.old.log.items))
        ≤ journal.old.log.capacity }
    ensures state { IsState start journal.new.books (kept_by A.key_of journal.new.keys.entries)
        journal.new.log.items journal.new.log.len journal.new.log.capacity }
    ensures log { journal.new.log.items ≡ journal.old.log.items ++ step ∷ [] }
    ensures looks { (h : ℕ) → journal.old.books.places ≤ 2 ^ h → AreFew step.kind h steps.old steps.new }
{
    journal.books.absorb(&step, journal.log.len() as u64, steps);
    keys::end_keys(&mut journal.keys, &step.kind);
    keys::put_key(&mut journal.keys, key);
    journal.log.push(step);
}

/// The same, where nobody counts.
#[inline(always)]
fn take_uncounted<A: JobAuthorizer, L: Ledger>(
    start: Start,
    journal: &mut Journal<A>,
    step: CoreEntry,
    key: Option<RegistrationKey<A>>,
    blank: Blank,
)
    requires name { blank.name ≡ L.name }
    requires parts { blank.parts ≡ L.parts }
    requires some { 0 < blank.parts }
    requires state { IsState start journal.old.books (kept_by A.key_of journal.old.keys.entries)
        journal.old.log.items journal.old.log.len journal.old.log.capacity }
    requires rule { IsRule (record { start = start; log = journal.old.log.items }) step }
    requires key { key ≡ key_by step.kind (length journal.old.log.items) }
    requires row_room { MayRegister step.kind → journal.old.books.has_row_room ≡ true }
    requires job_room { HasJobRoom step.kind journal.old.books.job_room }
    requires keys_room { MayRegister step.kind → 0 < journal.old.keys.spare }
    requires log_room { journal.old.log.len + 1 +
        length (unspent_next journal.old.books.lists step (length journal.old.log.items))
        ≤ journal.old.log.capacity }
    ensures state { IsState start journal.new.books (kept_by A.key_of journal.new.keys.entries)
        journal.new.log.items journal.new.log.len journal.new.log.capacity }
    ensures log { journal.new.log.items ≡ journal.old.log.items ++ step ∷ [] }
{
    let mut steps = Steps::<L>::new(blank);
    take(start, journal, step, key, &mut steps);
}

/// A reserve whose looks nobody counts.
fn reserve_uncounted<A: JobAuthorizer, L: Ledger>(
    state: &mut SchedState<A>,
    now: u64,
    blank: Blank,
) -> Result<Picked, SchedError>
    requires name { blank.name ≡ L.name }
    requires parts { blank.parts ≡ L.parts }
    requires some { 0 < blank.parts }
    // It appends the one entry that the core rule gives, and answers what that entry says.
    ensures logged { OnOk result (state.new ≡ logged state.old (rule state.old (call.Reserve now))) }
    ensures picked { IfOk result (IsPicked A.key_of A.token_for state.old.log
        (rule state.old (call.Reserve now)).kind) }
    ensures refused { IfErr result (RefusesReserve (rule state.old (call.Reserve now)).kind) }
    ensures err { IfErr result (λ e. Leaves e state.old state.new (rule state.old (call.Reserve now))) }
{
    let mut steps = Steps::<L>::new(blank);
    state.reserve_counted(now, &mut steps)
}
