//! Laws of the audit, each a clause that quantifies over every text or entry.
ghost use Rattle.std.specs.Prelude.{◌≡◌, ◌↔◌, ◌⊎◌, List, ℕ, Some, Ok, Err, true};
ghost use Rattle.core_rules.specs.declared.entry.CoreEntry.{CoreEntry};
ghost use Rattle.core_rules.specs.declared.call.Call.{Call};
ghost use Rattle.core_rules.specs.Log.{Core};
ghost use Rattle.core_rules.specs.Same.{same_but_key};
ghost use Rattle.core_rules.specs.Rule.{rule, IsCall};
ghost use Rattle.audit.specs.Replay.{IsRuleButKey, replayed, HasOneNumber};
ghost use Rattle.audit.specs.Keyless.{without_key, without_keys, keyless_call};
ghost use Rattle.audit.specs.Reading.{Read, read};
ghost use Rattle.audit.specs.FirstBad.{IsFirstBad, IsPrinted};
ghost use Rattle.audit.specs.Held.{IsHeld, IsFault, IsWrongBook};
ghost use Rattle.audit.specs.Verdict.{verdict};
ghost use Rattle.audit.specs.declared.verdict.Verdict.TheVariants.{Holds, Refused};
ghost use Rattle.line_program.specs.declared.why.Why.{Why};
ghost use Rattle.line_program.specs.declared.why.Why.TheVariants as why;

use core_rules::laws::reservations_have_one_number;

/// A text is refused for its line n exactly where that is its first line outside the grammar.
pub fn first_bad_lines_are_told()
    ensures told { (text : List ℕ) (n : ℕ) → (read text ≡ Err n) ↔ IsFirstBad text n }
    // No text has two such lines.
    ensures single { (text : List ℕ) (n m : ℕ) → IsFirstBad text n → IsFirstBad text m → n ≡ m }
{}

/// An entry is replayed exactly where it is the core rule's for some call, whatever its key; and then as
/// the rule's entry.
pub fn the_rules_entries_are_replayed()
    ensures sound { (s : Core) (e made : CoreEntry) → replayed s e ≡ Some made → (c : Call) × IsCall s c
        × (same_but_key (rule s c) e ≡ true) × (made ≡ rule s c) }
    ensures complete { (s : Core) (e : CoreEntry) → HasOneNumber s.log → IsRuleButKey s e
        → (made : CoreEntry) × (replayed s e ≡ Some made) }
{}

/// A text is read as what is to be judged exactly where it is a printed run that says so.
pub fn printed_runs_are_read()
    ensures { (text : List ℕ) (r : Read) → (read text ≡ Ok r) ↔ IsPrinted text r }
{}

/// A text holds exactly where it is a printed run whose core entries are each the core rule's over those
/// before it, whose builds are each a job's first behind its accepted start, and whose books are those of
/// its entries.
pub fn what_holds_is_held()
    ensures { (text : List ℕ) → (verdict text ≡ Holds) ↔ IsHeld text }
{
    reservations_have_one_number();
}

/// A refusal names the first fault: a line outside the grammar before all else; then the ids, and the core
/// entries and the builds in their order; then the books.
pub fn refusals_are_first_faults()
    ensures text { (text : List ℕ) (n : ℕ) → (verdict text ≡ Refused n why.Text) ↔ IsFirstBad text n }
    ensures judged { (text : List ℕ) (n : ℕ) (w : Why) → (w ≡ why.Core) ⊎ (w ≡ why.Build)
        → (verdict text ≡ Refused n w) ↔ ((r : Read) × IsPrinted text r × IsFault r (n, w)) }
    ensures books { (text : List ℕ) (n : ℕ)
        → (verdict text ≡ Refused n why.Books) ↔ IsWrongBook text n }
{
    reservations_have_one_number();
}

/// The entry of a call does not depend on the keys of the heartbeats before it; its own key aside, it is
/// the same over a log without keys.
pub fn keys_do_not_matter()
    ensures { (s : Core) (c : Call) → rule (without_keys s) (keyless_call c) ≡ without_key (rule s c) }
{}
