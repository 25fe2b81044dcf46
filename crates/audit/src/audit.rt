//! The audit of a text.
ghost use Rattle.std.specs.Prelude.{◌≡◌, ◌↔◌, ◌⊎◌, ◌≤◌, ◌++◌, ◌∷◌, IfOk, OnOk, [], ℕ};
ghost use Rattle.audit.specs.Reading.{read_of};
ghost use Rattle.audit.specs.Kept.{IsKeptOf, IsBuiltAs};
ghost use Rattle.audit.specs.Replay.{Judged, IsJudged, judge, judge_all};
ghost use Rattle.audit.specs.Verdict.{rules_of, start_of, by_marks, on_read, verdict};
ghost use Rattle.audit.specs.Reading.{Read};
ghost use Rattle.audit.specs.FirstBad.{IsFirstBad, IsPrinted};
ghost use Rattle.audit.specs.Held.{IsHeld, IsFault, IsWrongBook};
ghost use Rattle.audit.specs.declared.verdict.Verdict.TheVariants as told;
ghost use Rattle.line_program.specs.declared.why.Why.{Why as Cause};
ghost use Rattle.line_program.specs.declared.why.Why.TheVariants as why;

use crate::books::{due_books, first_wrong};
use crate::kept::{Kept, build};
use crate::laws::{refusals_are_first_faults, what_holds_is_held};
use crate::mark::Mark;
use crate::reading::{Reading, read};
use crate::replay::{Replay, close, judge_core};
use crate::verdict::{Verdict, Why};
use dist_types::fault::Memory;
use dist_types::ids::JobId;
use dist_types::rules::Rules;
use row_index::Following;
use sched_core::state::SchedState;
use std::alloc::Global;

/// Judges a build: whether it is its job's first behind its accepted start.
fn judge_build(r: &mut Replay, job: JobId) -> Result<bool, Memory>
    requires { IsKeptOf r.old.kept r.old.state }
    ensures told { IfOk result (λ good. IsBuiltAs good r.old.kept r.new.kept job r.old.state) }
    ensures state { OnOk result (r.new.state ≡ r.old.state) }
{
    let _log = r.state.history();
    build(&mut r.kept, job)
}

/// Judges a core entry or a build over those before it: its line and why, where it is refused.
fn judge(r: &mut Replay, mark: &Mark) -> Result<Option<(u64, Why)>, Memory>
    requires { IsKeptOf r.old.kept r.old.state }
    ensures exact { IfOk result (λ o. IsJudged o
        (judge (record { core = r.old.state; built = r.old.kept.built.items }) mark.now)
        (record { core = r.new.state; built = r.new.kept.built.items })) }
    ensures kept { IfOk result (λ o. IsKeptOf r.new.kept r.new.state) }
{
    match mark {
        Mark::Core(line, number, step) => {
            if judge_core(r, *number, step)? {
                Ok(None)
            } else {
                Ok(Some((*line, Why::Core)))
            }
        }
        Mark::Built(line, job) => {
            if judge_build(r, *job)? {
                Ok(None)
            } else {
                Ok(Some((*line, Why::Build)))
            }
        }
    }
}

/// Judges what was read, on a scheduler that is at its start.
fn by_marks(alloc: Global, r: &Reading, replay: &mut Replay) -> Result<Verdict, Memory>
    requires line { r.now.ids_line ≤ 268435457 }
    requires start { replay.old.state ≡ (start_of (read_of r.now)).core }
    requires kept { IsKeptOf replay.old.kept replay.old.state }
    requires built { replay.old.kept.built.items ≡ [] }
    ensures { IfOk result (λ v. v ≡ by_marks (read_of r.now) (judge_all (start_of (read_of r.now)) r.now.marks.items)) }
{
    for mark in r.marks.iter() {
        match judge(replay, mark)? {
            None => (),
            Some((line, why)) => return Ok(Verdict::Refused(line, why)),
        }
    }
    let due = due_books(alloc, &replay.state)?;
    match first_wrong(r.books.as_slice(), due.as_slice()) {
        None => Ok(Verdict::Holds),
        Some(place) => Ok(Verdict::Refused(r.ids_line + 1 + place as u64, Why::Books)),
    }
}

/// The rules of a version.
fn rules_of(version: u64) -> Rules
    ensures { result ≡ rules_of version }
{
    if version == 1 { Rules::One } else { Rules::Two }
}

fn on_read(alloc: Global, r: &Reading) -> Result<Verdict, Memory>
    requires line { r.now.ids_line ≤ 268435457 }
    ensures { IfOk result (λ v. v ≡ on_read (read_of r.now)) }
{
    if r.count < r.made {
        return Ok(Verdict::Refused(r.ids_line, Why::Core));
    }
    let mut replay = Replay {
        alloc,
        state: SchedState::with_rules(alloc, r.base, r.count - r.made, rules_of(r.version)),
        kept: Kept {
            rows: Following::new(alloc, r.base.wrapping_add(r.count - r.made)),
            held: Vec::new(alloc),
            built: Vec::new(alloc),
        },
    };
    let answer = by_marks(alloc, r, &mut replay);
    close(replay);
    answer
}

/// The verdict on a text.
fn judge_text(alloc: Global, text: &[u8]) -> Result<Verdict, Memory>
    ensures { IfOk result (λ v. v ≡ verdict text.now) }
{
    match read(alloc, text)? {
        Err(line) => Ok(Verdict::Refused(line, Why::Text)),
        Ok(r) => on_read(alloc, &r),
    }
}

/// The verdict on a text, whoever wrote it. Refused for want of memory alone.
pub fn audit(alloc: Global, text: &[u8]) -> Result<Verdict, Memory>
    // It holds exactly where the text is a printed run within the limit, each core entry is the core rule's
    // over those before it, whatever key a heartbeat had, each id is built at most once and only behind an
    // accepted start, and the books are those of the entries.
    ensures holds { IfOk result (λ v. (v ≡ told.Holds) ↔ IsHeld text.now) }
    // The first line outside the grammar comes before all else.
    ensures text { IfOk result (λ v. (n : ℕ) → (v ≡ told.Refused n why.Text) ↔ IsFirstBad text.now n) }
    // Then the first of the core entries and the builds that is not good; before them the line of the ids,
    // where fewer were given than the entries take.
    ensures judged { IfOk result (λ v. (n : ℕ) (w : Cause) → (w ≡ why.Core) ⊎ (w ≡ why.Build)
        → (v ≡ told.Refused n w) ↔ ((r : Read) × IsPrinted text.now r × IsFault r (n, w))) }
    // Then the first line of the books that is not the one that the entries give.
    ensures books { IfOk result (λ v. (n : ℕ) → (v ≡ told.Refused n why.Books) ↔ IsWrongBook text.now n) }
{
    let answer = judge_text(alloc, text)?;
    what_holds_is_held();
    refusals_are_first_faults();
    Ok(answer)
}
