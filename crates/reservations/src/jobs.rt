//! The unended reservations, one after the other.
ghost use Rattle.std.specs.Prelude.{◌≡◌, ◌++◌};
ghost use Rattle.std.specs.Iterator.{YieldsFirst, item_count};
ghost use Rattle.reservations.specs.Booked.{job_view};

use crate::booked::{BookedRow, first_held, job_part};
use core_rules::rows::JobRow;
use std::marker::Model;

/// The unended reservations, by rising job id. Contracts see it as the list of the rows that are still
/// to come.
#[derive(Drop)]
pub struct Jobs<'a> {
    rest: &'a [BookedRow],
    behind: &'a [BookedRow],
}

impl<'a> Model for Jobs<'a> {
    ghost use Rattle.std.specs.Prelude.{List, ◌++◌};
    ghost use Rattle.core_rules.specs.declared.rows.JobRow.{JobRow};
    ghost use Rattle.reservations.specs.Booked.{job_view};

    ghost Value = { List JobRow };

    ghost view = { λ s. job_view s.rest.now ++ job_view s.behind.now };
}

impl<'a> Jobs<'a> {
    /// The unended ones of the first slice, and then of the second.
    pub(crate) fn new(rest: &'a [BookedRow], behind: &'a [BookedRow]) -> Self
        ensures rows { result ≡ job_view rest.now ++ job_view behind.now }
    {
        Jobs { rest, behind }
    }
}

impl<'a> Iterator for Jobs<'a> {
    type Item = JobRow;

    ghost next_gives = { YieldsFirst (λ s. s) };

    ghost remaining = { item_count (λ s. s) };

    fn next(&mut self) -> Option<JobRow> {
        if let Some(place) = first_held(self.rest) {
            let row = job_part(&self.rest[place]);
            self.rest = &self.rest[place + 1..];
            return Some(row);
        }
        let place = first_held(self.behind)?;
        let row = job_part(&self.behind[place]);
        self.behind = &self.behind[place + 1..];
        Some(row)
    }
}
