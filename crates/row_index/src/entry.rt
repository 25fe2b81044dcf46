//! The key of one place in one tree.
ghost use Rattle.std.specs.Prelude.{◌≡◌, ◌≤◌, ◌<◌, ◌+◌, ◌*◌, ◌^◌, ℕ, None, length, slice_index_or};
ghost use Rattle.std.specs.Prelude.{slice_set};
ghost use Rattle.row_index.specs.Ranks.{key_stays, touches};

use crate::key::Key;
use crate::winner_tree::WinnerTree;
use std::sync::ledger::Ledger;
use steps::Steps;

/// Whether the key stays.
#[inline(always)]
fn stays<K: Key>(old: &Option<K>, new: &Option<K>) -> bool
    ensures { result ≡ key_stays K.before old.now new.now }
{
    match old {
        Some(old) => match new {
            Some(new) => !old.is_before(new) && !new.is_before(old),
            None => false,
        },
        None => new.is_none(),
    }
}

/// Gives a place another key, unless it stays.
#[inline(always)]
pub(crate) fn enter<K: Key, L: Ledger>(
    tree: &mut WinnerTree<K>,
    place: usize,
    old: Option<K>,
    new: Option<K>,
    steps: &mut Steps<L>,
)
    requires within { place < length tree.old }
    requires old { slice_index_or tree.old place None ≡ old }
    ensures keys { tree.new ≡ slice_set tree.old place new }
    ensures looks { (h : ℕ) → length tree.old ≤ 2 ^ h → steps.new ≤ steps.old +
        touches K.before old new * (2 * h + 1) }
{
    if !stays(&old, &new) {
        tree.set(place, new, steps);
    }
}
