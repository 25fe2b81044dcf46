//! Laws of the grammar and of ranges, each a clause that quantifies over every input.
ghost use Rattle.std.specs.Prelude.{◌≡◌, ◌↔◌, ◌++◌, ◌∷◌, List, ℕ, Some, Ok, Err, true};
ghost use Rattle.farm_script.specs.declared.lines.Scopes.{Scopes};
ghost use Rattle.line_program.specs.declared.fault.FarmFault.{FarmFault};
ghost use Rattle.lives_script.specs.FirstFaulty.{IsFirstFaulty, IsFaultless};
ghost use Rattle.lives_script.specs.Grammar.{Spells};
ghost use Rattle.lives_script.specs.Ids.{Ids, IsRange, IsIn, Meet, AreApartIds, meets};
ghost use Rattle.lives_script.specs.Line.{line_at};
ghost use Rattle.lives_script.specs.Script.{script};
ghost use Rattle.lives_script.specs.Spelled.{SpellsLives};
ghost use Rattle.lives_script.specs.declared.line.Line.{Line};
ghost use Rattle.lives_script.specs.declared.script.Script.{Script};

/// A line is read as a value exactly where it is one of the value's spellings.
pub fn lines_are_spelled()
    ensures { (scopes : Scopes) (t : List ℕ) (l : Line) → (line_at scopes t ≡ Some l) ↔ Spells scopes t l }
{}

/// A script is refused with a fault exactly where that is its first faulty line's, with its number.
pub fn first_faulty_lines_are_named()
    ensures { (bytes : List ℕ) (f : FarmFault) → (script bytes ≡ Err f) ↔ IsFirstFaulty bytes f }
{}

/// A script is read so exactly where no line of it is faulty and its lines say it.
pub fn scripts_are_spelled()
    ensures { (bytes : List ℕ) (s : Script) → (script bytes ≡ Ok s) ↔ (IsFaultless bytes × SpellsLives bytes s) }
{}

/// Two ranges share an id exactly where one has the first id of the other.
pub fn ranges_meet_at_a_first_id()
    ensures { (r s : Ids) → IsRange r → IsRange s → (meets r s ≡ true) ↔ Meet r s }
{}

/// An id is in one range alone of those that lie apart.
pub fn ranges_apart_share_no_id()
    ensures { (front between back : List Ids) (r s : Ids) (id : ℕ)
        → AreApartIds (front ++ r ∷ between ++ s ∷ back) → IsIn id r → IsIn id s → ⊥ }
{}
