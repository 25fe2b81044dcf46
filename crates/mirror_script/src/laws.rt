//! Laws of the grammar, each a clause that quantifies over every input.
ghost use Rattle.std.specs.Prelude.{◌≡◌, ◌↔◌, List, ℕ, Some, Ok, Err};
ghost use Rattle.line_program.specs.declared.fault.FarmFault.{FarmFault};
ghost use Rattle.mirror_script.specs.Line.{line_at};
ghost use Rattle.mirror_script.specs.Grammar.{Spells};
ghost use Rattle.mirror_script.specs.Script.{script};
ghost use Rattle.mirror_script.specs.FirstFaulty.{IsFirstFaulty, IsFaultless};
ghost use Rattle.mirror_script.specs.Spelled.{SpellsScript};
ghost use Rattle.mirror_script.specs.declared.line.Line.{Line};
ghost use Rattle.mirror_script.specs.declared.script.Script.{Script};

/// A line is read as a value exactly where it is one of the value's spellings.
pub fn lines_are_spelled()
    ensures { (t : List ℕ) (l : Line) → (line_at t ≡ Some l) ↔ Spells t l }
{}

/// A script is refused with a fault exactly where that is its first faulty line's, with its number.
pub fn first_faulty_lines_are_named()
    ensures { (bytes : List ℕ) (f : FarmFault) → (script bytes ≡ Err f) ↔ IsFirstFaulty bytes f }
{}

/// A script is read so exactly where no line of it is faulty and its lines say it.
pub fn scripts_are_spelled()
    ensures { (bytes : List ℕ) (s : Script) → (script bytes ≡ Ok s) ↔ (IsFaultless bytes × SpellsScript bytes s) }
{}
