//! What is kept of the reservations of a scheduler that is replayed, one row each, so that none is looked for.
ghost use Rattle.std.specs.Prelude.{◌≡◌, ◌<◌, ◌+◌, ◌%◌, ◌^◌, ◌&&◌, ◌++◌, ◌∷◌, [], IfOk, OnOk, None};
ghost use Rattle.std.specs.Prelude.{false, not, length, map, slice_set, true};
ghost use Rattle.row_index.specs.Following.{IsPlaceOf};
ghost use Rattle.core_rules.specs.Log.{Core, logged};
ghost use Rattle.core_rules.specs.Laws.{IsLegal};
ghost use Rattle.core_rules.specs.declared.entry.CoreEntry.{CoreEntry};
ghost use Rattle.audit.specs.Replay.{is_begun};
ghost use Rattle.audit.specs.Kept.{IsKeptOf, IsTakenBy, IsBuiltAs, BeginsJob, ReservesJob, held_at};
ghost use Rattle.audit.specs.Kept.{TellsState};
ghost use Rattle.core_rules.specs.Reservation.{is_started};
ghost use Rattle.audit.specs.Kept.{row_begun, row_built};

use crate::progress::Progress;
use dist_types::fault::Memory;
use dist_types::ids::JobId;
use dist_types::results::JobState;
use row_index::Following;
use sched_core::reservation::Reservation;
use std::alloc::AllocError;

/// Each reservation that was made, in order, and the jobs that were built.
pub struct Kept {
    /// How far the job of each is.
    pub rows: Following<Progress>,
    /// What is in hand of each: the reservation, while it is unspent.
    pub held: Vec<Option<Reservation>>,
    /// The jobs that were built, in order.
    pub built: Vec<JobId>,
}

/// Takes out what is in hand in a place.
fn take_at(held: &mut Vec<Option<Reservation>>, place: usize) -> Option<Reservation>
    ensures taken { result ≡ held_at held.old.items place }
    ensures left { held.new.items ≡ slice_set held.old.items place None }
{
    match held.get_mut(place) {
        Some(slot) => slot.take(),
        None => None,
    }
}

/// The unspent reservation of a job, to be spent.
pub fn take(kept: &mut Kept, job: JobId) -> Option<Reservation>
    ensures taken { (s : Core) → IsKeptOf kept.old s → IsTakenBy kept.new job s result }
    ensures built { kept.new.built.items ≡ kept.old.built.items }
{
    match kept.rows.place_of(job.0) {
        Some(place) => take_at(&mut kept.held, place),
        None => None,
    }
}

/// Notes that the build of the job in a place has begun.
fn begin_at(rows: &mut Following<Progress>, place: usize, job: JobId)
    requires { IsPlaceOf (λ p. p.job.0) rows.old.rows job.0 place }
    ensures rows { rows.new.rows ≡ map (row_begun job) rows.old.rows }
    ensures first { rows.new.first ≡ rows.old.first }
{
    let row = rows.at(place);
    let begun = Progress {
        job,
        is_begun: true,
        is_built: row.is_built,
    };
    rows.put(place, begun);
}

/// Notes that the build of a job has begun, if it is kept.
fn begin_row(rows: &mut Following<Progress>, job: JobId)
    ensures rows { rows.new.rows ≡ map (row_begun job) rows.old.rows }
    ensures first { rows.new.first ≡ rows.old.first }
{
    match rows.place_of(job.0) {
        Some(place) => begin_at(rows, place, job),
        None => (),
    }
}

/// The same, of all that is kept.
fn begin(kept: &mut Kept, job: JobId)
    ensures begun { (s : Core) (e : CoreEntry) → IsKeptOf kept.old s → BeginsJob e.kind job
        → IsKeptOf kept.new (logged s e) }
    ensures built { kept.new.built.items ≡ kept.old.built.items }
{
    begin_row(&mut kept.rows, job);
}

/// Whether a job is started in a state that was accepted.
fn is_start(state: JobState, is_accepted: bool) -> bool
    ensures { result ≡ (is_started state && is_accepted) }
{
    match state {
        JobState::Pending => false,
        JobState::Ready => false,
        JobState::Started => is_accepted,
        JobState::Complete => false,
    }
}

/// Notes that a state of a job was told, and whether it was accepted.
pub fn note_state(kept: &mut Kept, job: JobId, state: JobState, is_accepted: bool)
    ensures noted { (s : Core) (e : CoreEntry) → IsKeptOf kept.old s → TellsState e.kind job state is_accepted
        → IsKeptOf kept.new (logged s e) }
    ensures built { kept.new.built.items ≡ kept.old.built.items }
{
    if is_start(state, is_accepted) {
        begin(kept, job);
    }
}

fn push_built(built: &mut Vec<JobId>, job: JobId) -> Result<(), AllocError>
    ensures { OnOk result (built.new.items ≡ built.old.items ++ job ∷ []) }
{
    built.push(job)?;
    Ok(())
}

/// Notes that the job in a place was built.
fn build_at(rows: &mut Following<Progress>, place: usize, job: JobId)
    requires { IsPlaceOf (λ p. p.job.0) rows.old.rows job.0 place }
    ensures rows { rows.new.rows ≡ map (row_built job) rows.old.rows }
    ensures first { rows.new.first ≡ rows.old.first }
{
    let row = rows.at(place);
    let built = Progress {
        job,
        is_begun: row.is_begun,
        is_built: true,
    };
    rows.put(place, built);
}

/// Whether the build of a job has begun, and it was not built.
fn is_first(row: Progress) -> bool
    ensures { result ≡ (row.is_begun && not row.is_built) }
{
    row.is_begun && !row.is_built
}

/// The same of the job in a place.
fn is_due(rows: &Following<Progress>, place: usize, job: JobId) -> bool
    requires { IsPlaceOf (λ p. p.job.0) rows.now.rows job.0 place }
    ensures { (is : IsPlaceOf (λ p. p.job.0) rows.now.rows job.0 place)
        → result ≡ (is.row.is_begun && not is.row.is_built) }
{
    let row = rows.at(place);
    is_first(row)
}

/// Notes that the job in a place was built, where its build has begun and it was not built before: whether that
/// is so.
fn build_in(kept: &mut Kept, place: usize, job: JobId) -> Result<bool, Memory>
    requires { IsPlaceOf (λ p. p.job.0) kept.old.rows.rows job.0 place }
    ensures { IfOk result (λ good. (s : Core) → s.start.count < 2 ^ 64 → IsLegal s.start s.log → IsKeptOf kept.old s
        → IsBuiltAs good kept.old kept.new job s) }
{
    if !is_due(&kept.rows, place, job) {
        return Ok(false);
    }
    push_built(&mut kept.built, job)?;
    build_at(&mut kept.rows, place, job);
    Ok(true)
}

/// Notes that a job was built, where its build has begun and it was not built before: whether that is so.
pub fn build(kept: &mut Kept, job: JobId) -> Result<bool, Memory>
    ensures { IfOk result (λ good. (s : Core) → s.start.count < 2 ^ 64 → IsLegal s.start s.log → IsKeptOf kept.old s
        → IsBuiltAs good kept.old kept.new job s) }
{
    match kept.rows.place_of(job.0) {
        None => Ok(false),
        Some(place) => build_in(kept, place, job),
    }
}

/// Makes room for one more.
pub fn make_room(kept: &mut Kept) -> Result<(), AllocError>
    ensures kept { (s : Core) → IsKeptOf kept.old s → IsKeptOf kept.new s }
    ensures built { kept.new.built.items ≡ kept.old.built.items }
    ensures room { OnOk result (kept.new.rows.has_room ≡ true) }
{
    kept.rows.make_room()
}

/// Keeps a new reservation. Given back for want of memory.
pub fn add(kept: &mut Kept, t: Reservation) -> Result<(), Reservation>
    requires room { kept.old.rows.has_room ≡ true }
    requires follows { t.job.0 ≡ (kept.old.rows.first + length kept.old.rows.rows) % 2 ^ 64 }
    ensures kept { OnOk result ((s : Core) (e : CoreEntry) → IsKeptOf kept.old s → ReservesJob e.kind t.job
        → t.number ≡ length s.log → is_begun s.log t.job ≡ false → IsKeptOf kept.new (logged s e)) }
    ensures built { OnOk result (kept.new.built.items ≡ kept.old.built.items) }
{
    let job = t.job_id();
    match kept.held.push(Some(t)) {
        Ok(()) => {
            kept.rows.push(Progress {
                job,
                is_begun: false,
                is_built: false,
            });
            Ok(())
        }
        Err(failed) => match failed.value {
            Some(t) => Err(t),
            None => unreachable!(),
        },
    }
}
