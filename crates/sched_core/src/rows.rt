//! The rows of what is kept, one after the other.
ghost use Rattle.std.specs.Prelude.{◌≡◌};
ghost use Rattle.std.specs.Iterator.{YieldsFirst, item_count};
ghost use Rattle.row_index.specs.Slots.{rows_in};

use crate::places::first_full;
pub use core_rules::rows::{HeldRow, JobRow, OpenRow, ServerRow};
pub use reservations::jobs::Jobs;
use std::marker::Model;

/// The registrations that stand, by rising number. Contracts see it as the list of the rows that are
/// still to come.
#[derive(Drop)]
pub struct Servers<'a> {
    rest: &'a [Option<ServerRow>],
}

impl<'a> Model for Servers<'a> {
    ghost use Rattle.std.specs.Prelude.{List};
    ghost use Rattle.row_index.specs.Slots.{rows_in};
    ghost use Rattle.core_rules.specs.declared.rows.ServerRow.{ServerRow};

    ghost Value = { List ServerRow };

    ghost view = { λ s. rows_in s.rest.now };
}

impl<'a> Servers<'a> {
    /// The rows of the places.
    pub(crate) fn new(rest: &'a [Option<ServerRow>]) -> Self
        ensures rows { result ≡ rows_in rest.now }
    {
        Servers { rest }
    }
}

impl<'a> Iterator for Servers<'a> {
    type Item = ServerRow;

    ghost next_gives = { YieldsFirst (λ s. s) };

    ghost remaining = { item_count (λ s. s) };

    fn next(&mut self) -> Option<ServerRow> {
        let place = first_full(self.rest)?;
        let row = self.rest[place];
        self.rest = &self.rest[place + 1..];
        row
    }
}
