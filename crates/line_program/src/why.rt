//! Why a printed run is refused.
ghost use Rattle.std.specs.Prelude.{◌≡◌};

use std::fmt;

/// Why a printed run is refused, in the order in which the causes are tried.
#[derive(Clone, Copy, Debug, PartialEq, Eq)]
pub enum Why {
    /// The line is the first outside the grammar of printed runs.
    Text,
    /// The line's core entry is not the one that the rule gives after those before.
    Core,
    /// The line's build has no accepted start before it, or its id was built before.
    Build,
    /// The line is the first of the books that is not the log's.
    Books,
}

impl fmt::Display for Why {
    ghost use Rattle.std.specs.Prelude.{Some};
    ghost use Rattle.line_program.specs.FaultText.{why_text};

    ghost output = { λ w. Some (why_text w) };

    fn fmt<W: fmt::Write>(&self, f: &mut fmt::Formatter<W>) -> fmt::Result {
        match self {
            Why::Text => write!(f, "text"),
            Why::Core => write!(f, "core"),
            Why::Build => write!(f, "build"),
            Why::Books => write!(f, "books"),
        }
    }
}
