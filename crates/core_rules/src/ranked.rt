//! The keys by which registrations are ranked: by load and by error where they have room, and by last sign.
ghost use Rattle.std.specs.Prelude.{◌≡◌, Some};
ghost use Rattle.core_rules.specs.Ranked.{load_if_room, load_key_of, error_key_by, error_key_of};
ghost use Rattle.core_rules.specs.Ranked.{sign_key_of};

use crate::rows::ServerRow;
use crate::rules::is_roomy;
use row_index::{LoadKey, MomentKey, Numbered, Ranked};

impl Numbered for ServerRow {
    ghost number_of = { λ row. row.reg };

    fn number(&self) -> u64 {
        self.reg
    }
}

/// The key by load of a row with room.
fn load_if_room(row: &ServerRow) -> Option<LoadKey>
    ensures { result ≡ load_if_room row.now }
{
    if is_roomy(row) {
        Some(LoadKey {
            load: row.load,
            cpus: row.cpus,
            number: row.reg,
        })
    } else {
        None
    }
}

/// The key by error of a row with room that has this error.
fn error_if_room(row: &ServerRow, moment: u64) -> Option<MomentKey>
    ensures { result ≡ error_key_by (Some moment) row.now }
{
    if is_roomy(row) {
        Some(MomentKey {
            moment,
            number: row.reg,
        })
    } else {
        None
    }
}

impl Ranked for ServerRow {
    ghost load_of = { load_key_of };

    ghost error_of = { error_key_of };

    ghost sign_of = { sign_key_of };

    fn load_key(&self) -> Option<LoadKey> {
        match self.error {
            Some(_) => None,
            None => load_if_room(self),
        }
    }

    fn error_key(&self) -> Option<MomentKey> {
        match self.error {
            Some(moment) => error_if_room(self, moment),
            None => None,
        }
    }

    fn sign_key(&self) -> Option<MomentKey> {
        Some(MomentKey {
            moment: self.seen,
            number: self.reg,
        })
    }
}
