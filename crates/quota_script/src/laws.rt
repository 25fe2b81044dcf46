//! Laws of the grammar, each a clause that quantifies over every input.
ghost use Rattle.std.specs.Prelude.{◌≡◌, ◌↔◌, List, ℕ, Some, Ok, Err};
ghost use Rattle.farm_script.specs.declared.lines.Scopes.{Scopes};
ghost use Rattle.line_program.specs.declared.fault.FarmFault.{FarmFault};
ghost use Rattle.quota_script.specs.Line.{line_at};
ghost use Rattle.quota_script.specs.Grammar.{Spells};
ghost use Rattle.quota_script.specs.Script.{Said, script};
ghost use Rattle.quota_script.specs.FirstFaulty.{IsFirstFaulty, IsFaultless};
ghost use Rattle.quota_script.specs.Spelled.{SpellsScript};
ghost use Rattle.quota_script.specs.declared.line.Line.{Line};

/// A line is read as a value exactly where it is one of the value's spellings.
pub fn lines_are_spelled()
    ensures { (scopes : Scopes) (t : List ℕ) (l : Line) → (line_at scopes t ≡ Some l) ↔ Spells scopes t l }
{}

/// A script is refused with a fault exactly where that is its first faulty line's, with its number.
pub fn first_faulty_lines_are_named()
    ensures { (bytes : List ℕ) (f : FarmFault) → (script bytes ≡ Err f) ↔ IsFirstFaulty bytes f }
{}

/// A script is read so exactly where no line of it is faulty and its lines say it.
pub fn scripts_are_spelled()
    ensures { (bytes : List ℕ) (s : Said) → (script bytes ≡ Ok s) ↔ (IsFaultless bytes × SpellsScript bytes s) }
{}
