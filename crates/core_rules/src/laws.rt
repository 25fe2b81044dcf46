//! What every log has whose entries are each the core rule's over those before them. Each law is the
//! contract of a function that does nothing.
ghost use Rattle.std.specs.Prelude.{◌≡◌, ◌<◌, ◌^◌, ◌++◌, ◌∷◌, [], ℕ, List, Some, true, false, length, map};
ghost use Rattle.std.specs.List.{AllByRecursion};
ghost use Rattle.core_rules.specs.declared.entry.CoreEntry.{CoreEntry};
ghost use Rattle.core_rules.specs.declared.start.Start.{Start};
ghost use Rattle.dist_types.specs.declared.ids.JobId.{JobId};
ghost use Rattle.core_rules.specs.declared.entry.CoreKind.TheVariants.{Reserve};
ghost use Rattle.core_rules.specs.declared.entry.Reserved.TheVariants.{Job};
ghost use Rattle.core_rules.specs.declared.call.Call.{Call};
ghost use Rattle.core_rules.specs.Log.{Core, same_job};
ghost use Rattle.core_rules.specs.Reservation.{bookings, spends_by, unended, unspent};
ghost use Rattle.core_rules.specs.Rule.{rule, IsCall, is_among};
ghost use Rattle.core_rules.specs.Calls.{call_of};
ghost use Rattle.core_rules.specs.Same.{same_but_key};
ghost use Rattle.core_rules.specs.Job.{commits, is_open, is_unclosed, open_jobs, state_of, ready_at};
ghost use Rattle.core_rules.specs.Laws.{HasNoDrain, NothingDrains};
ghost use Rattle.core_rules.specs.Prune.{age};
ghost use Rattle.core_rules.specs.Reap.{ready_age};
ghost use Rattle.core_rules.specs.declared.rows.HeldRow.{HeldRow};
ghost use Rattle.dist_types.specs.declared.results.JobState.TheVariants.{Ready};
ghost use Rattle.dist_types.specs.declared.rules.Rules.TheVariants.{One};
ghost use Rattle.std.specs.Prelude.{is_some};
ghost use Rattle.core_rules.specs.Laws.{IsLegal, InEachLegalLog, IsLawful, AreDistinct, AreDifferent};
ghost use Rattle.core_rules.specs.Laws.{AreJobRows, IsHeldOnce, IsSpentOnce, IsEndedOnce, HasOrder};
ghost use Rattle.core_rules.specs.Laws.{IsBounded, IsFairEntry, EndsOnce, HasStanding, Reserves};
ghost use Rattle.core_rules.specs.Rows.{jobs_of};
ghost use Rattle.core_rules.specs.Standing.{registrations, standing};
ghost use Rattle.core_rules.specs.Cuts.{cuts};

/// The ids of different reservations differ, until the ids are spent.
pub fn ids_differ()
    ensures { InEachLegalLog (λ log. AreDistinct (map (λ b. b.job) (bookings log))) }
{}

/// Each open job has exactly one unended reservation, and its registration stands.
pub fn open_jobs_are_held()
    ensures { InEachLegalLog (λ log. AllByRecursion (λ c. IsHeldOnce log c.job) (open_jobs log)) }
{}

/// A job is open exactly where it was not complete when it was committed, and no later entry accepts that it
/// is complete, reaps it or ends its registration.
pub fn open_jobs_are_unclosed()
    ensures { InEachLegalLog (λ log. AllByRecursion (λ c. is_open c ≡ is_unclosed c) (commits log)) }
{}

/// A reservation is spent at most once: of the entries after it, at most one is a commit or an undo of
/// its job.
pub fn reservations_are_spent_once()
    ensures { InEachLegalLog (λ log. AllByRecursion IsSpentOnce (bookings log)) }
{}

/// A reservation ends at most once: no entry undoes it, reaps it or accepts that it is complete after
/// one that ended it.
pub fn reservations_end_once()
    ensures { InEachLegalLog (λ log. AllByRecursion IsEndedOnce (bookings log)) }
{}

/// No job is committed and kept twice.
pub fn jobs_are_committed_once()
    ensures { InEachLegalLog (λ log. AreDistinct (map (λ c. c.job) (commits log))) }
{}

/// A job's states follow pending, ready, started and complete: the first is pending or ready, and none
/// is left out after it.
pub fn states_are_in_order()
    ensures { InEachLegalLog (λ log. AllByRecursion HasOrder (commits log)) }
{}

/// The load of a registration that stands is at most c + 1 + c/8, c being its processors.
pub fn loads_are_bounded()
    ensures { InEachLegalLog (λ log. AllByRecursion (IsBounded log) (standing log)) }
{}

/// A job is reserved at a registration that stands and has room. Against each with room and no
/// remembered error it has none itself, and no greater load for each processor; of equals it has the
/// least number. Where each with room has an error its own is the oldest, and of equals it has the least
/// number. And a reserve says that none has room only where none has.
pub fn reserves_are_fair()
    ensures { InEachLegalLog (λ log. AllByRecursion (λ c. IsFairEntry c.before c.at.kind) (cuts log)) }
{}

/// Each unended reservation is at a registration that stands; so one that has ended has no load.
pub fn reservations_are_at_standing_servers()
    ensures { InEachLegalLog (λ log. AllByRecursion (HasStanding log) (unended log)) }
{}

/// A registration ends at most once: no entry prunes or replaces it after one that did.
pub fn registrations_end_once()
    ensures { InEachLegalLog (λ log. AllByRecursion EndsOnce (registrations log)) }
{}

/// An address has at most one registration that stands.
pub fn addresses_are_registered_once()
    ensures { (start : Start) (log : List CoreEntry) → IsLegal start log →
        AreDifferent (map (λ g. g.server) (standing log)) }
{}

/// The rows of the unended reservations have rising job ids, and are exactly those reservations.
pub fn job_rows_are_exact()
    ensures { InEachLegalLog (λ log. AreJobRows log (jobs_of log)) }
{}

/// All of these laws, as one.
pub fn legal_logs_are_lawful()
    ensures { InEachLegalLog IsLawful }
{}

/// A reservation stays unspent until an entry spends its job.
pub fn reservations_stay_unspent()
    ensures { (log : List CoreEntry) (e : CoreEntry) (number : ℕ) (job : JobId) →
        is_among (unspent log) number job ≡ true → spends_by e.kind job ≡ false →
        is_among (unspent (log ++ e ∷ [])) number job ≡ true }
{}

/// The same of entries that follow one another: a reservation stays unspent while none of them spends its job.
pub fn reservations_stay_unspent_through()
    ensures { (log entries : List CoreEntry) (number : ℕ) (job : JobId) →
        is_among (unspent log) number job ≡ true →
        AllByRecursion (λ e. spends_by e.kind job ≡ false) entries →
        is_among (unspent (log ++ entries)) number job ≡ true }
{}

/// A job has at most one entry that reserves it.
pub fn jobs_are_reserved_once()
    ensures { (start : Start) (log : List CoreEntry) (job : JobId) (place other : ℕ) → start.count < 2 ^ 64 →
        IsLegal start log → Reserves log place job → Reserves log other job → place ≡ other }
{}

/// A reservation that an entry makes is unspent, under the number of that entry.
pub fn reservations_begin_unspent()
    ensures { (log : List CoreEntry) (e : CoreEntry) (job : JobId) (reg : ℕ) (forgiven : List ℕ) →
        e.kind ≡ Reserve (Job job reg forgiven) → is_among (unspent (log ++ e ∷ [])) (length log) job ≡ true }
{}

/// Unspent reservations of one job have one number.
pub fn reservations_have_one_number()
    ensures { (start : Start) (log : List CoreEntry) (a b : ℕ) (j k : JobId) → start.count < 2 ^ 64
        → IsLegal start log →
        is_among (unspent log) a j ≡ true → is_among (unspent log) b k ≡ true → same_job k j ≡ true → a ≡ b }
{}

/// Each front of a legal log is legal.
pub fn fronts_are_legal()
    ensures { (start : Start) (front log : List CoreEntry) → IsLegal start (front ++ log) →
        IsLegal start front }
{}

/// Over a legal log the entry of a call is of no other call: the entry tells which call it is of.
pub fn entries_tell_their_calls()
    ensures { (s : Core) (c : Call) → s.start.count < 2 ^ 64 → IsLegal s.start s.log → IsCall s c →
        call_of s.log (rule s c) ≡ Some c }
{}

/// An entry is the same as itself, whatever key a heartbeat had.
pub fn entries_are_the_same_as_themselves()
    ensures { (e : CoreEntry) → same_but_key e e ≡ true }
{}

/// In version 1 no entry of a legal log is a drain.
pub fn version_one_has_no_drain()
    ensures { (start : Start) (log : List CoreEntry) → start.rules ≡ One → IsLegal start log → HasNoDrain log }
{}

/// Where no entry of a log is a drain, no registration that stands is draining.
pub fn nothing_drains_without_drains()
    ensures { (log : List CoreEntry) → HasNoDrain log → NothingDrains log }
{}

/// In version 1 a ready job's age is that of its reservation.
pub fn version_one_ages_are_of_reservations()
    ensures { (now : ℕ) (h : HeldRow) → ready_age One now h ≡ age now h.reserved_at }
{}

/// A job that is ready became so at some moment.
pub fn ready_jobs_became_ready()
    ensures { (job : JobId) (entries : List CoreEntry) → state_of job entries ≡ Some Ready →
        is_some (ready_at job entries) ≡ true }
{}
