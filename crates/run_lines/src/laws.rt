//! The law of the grammar, a clause that quantifies over every text.
ghost use Rattle.std.specs.Prelude.{◌≡◌, ◌↔◌, List, ℕ, Some};
ghost use Rattle.run_lines.specs.Lines.{run_line_at};
ghost use Rattle.run_lines.specs.Grammar.{IsRunLine, LineFits, Unbroken};
ghost use Rattle.run_lines.specs.Texts.{line_text};
ghost use Rattle.run_lines.specs.declared.line.RunLine.{RunLine};

/// A line is read as a value exactly where it is the one text of that value, and the value's numbers fit.
pub fn lines_are_printed()
    ensures { (t : List ℕ) (l : RunLine) → (run_line_at t ≡ Some l) ↔ IsRunLine t l }
{}

/// The text of a line has no line end in it.
pub fn lines_are_unbroken()
    ensures { (l : RunLine) → LineFits l → Unbroken (line_text l) }
{}
