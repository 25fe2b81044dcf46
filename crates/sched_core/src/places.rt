//! Rows by place.
ghost use Rattle.std.specs.Prelude.{◌≡◌, [], MatchOption};
ghost use Rattle.row_index.specs.Slots.{rows_in};
ghost use Rattle.sched_core.specs.Registrations.{IsFirstFull, heard_part};

use core_rules::rows::ServerRow;
use core_rules::standing::is_silent;

/// The place of the first row, if there is one.
pub fn first_full(places: &[Option<ServerRow>]) -> Option<usize>
    ensures { MatchOption result (rows_in places.now ≡ []) (IsFirstFull places.now) }
{
    for (place, row) in places.iter().enumerate() {
        if row.is_some() {
            return Some(place);
        }
    }
    None
}

/// The row, where it is not silent for too long.
pub fn if_heard(row: Option<ServerRow>, now: u64) -> Option<ServerRow>
    ensures { result ≡ heard_part now row }
{
    match row {
        Some(row) => {
            if is_silent(&row, now) {
                None
            } else {
                Some(row)
            }
        }
        None => None,
    }
}
