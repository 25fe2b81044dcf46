//! Rows that the trees compare.
ghost use Rattle.std.specs.Prelude.{◌≡◌, Option};
ghost use Rattle.row_index.specs.declared.keys.LoadKey.{LoadKey};
ghost use Rattle.row_index.specs.declared.keys.MomentKey.{MomentKey};

use crate::keys::{LoadKey, MomentKey};
use crate::numbered::Numbered;

/// A row with a number, and with up to three keys.
pub trait Ranked: Numbered {
    // The keys.
    ghost load_of: { Self → Option LoadKey };

    ghost error_of: { Self → Option MomentKey };

    ghost sign_of: { Self → Option MomentKey };

    /// Its key by load, if it is to be found by it.
    fn load_key(&self) -> Option<LoadKey>
        ensures { result ≡ load_of self.now };

    /// Its key by its error, if it is to be found by it.
    fn error_key(&self) -> Option<MomentKey>
        ensures { result ≡ error_of self.now };

    /// Its key by its last sign, if it is to be found by it.
    fn sign_key(&self) -> Option<MomentKey>
        ensures { result ≡ sign_of self.now };
}
