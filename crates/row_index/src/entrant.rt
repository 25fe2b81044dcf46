//! `Entrant`: a key that stands in a slot, and which of two goes first.
ghost use Rattle.std.specs.Prelude.{◌≡◌};
ghost use Rattle.row_index.specs.Matches.{entered, first_of, keeps};

use crate::key::Key;

/// A key, and the slot that it stands in.
#[derive(Clone, Copy)]
pub struct Entrant<K> {
    pub(crate) key: K,
    pub(crate) slot: usize,
}

/// What the slot sends: its key, if there is one.
pub(crate) fn enter<K: Key>(slot: usize, key: Option<K>) -> Option<Entrant<K>>
    ensures { result ≡ entered slot key }
{
    match key {
        Some(key) => Some(Entrant { key, slot }),
        None => None,
    }
}

/// The one of two that goes first, the first where they are equal.
pub(crate) fn first<K: Key>(
    left: &Option<Entrant<K>>,
    right: &Option<Entrant<K>>,
) -> Option<Entrant<K>>
    ensures { result ≡ first_of K.before left.now right.now }
{
    let Some(one) = left else {
        return *right;
    };
    let Some(other) = right else {
        return *left;
    };
    if other.key.is_before(&one.key) {
        *right
    } else {
        *left
    }
}

/// Whether a match ended as before, where only the key of one slot has changed: nobody won, or the same slot
/// did, and not that one.
pub(crate) fn stays<K: Key>(slot: usize, old: &Option<Entrant<K>>, new: &Option<Entrant<K>>) -> bool
    ensures { result ≡ keeps slot old.now new.now }
{
    match old {
        Some(old) => match new {
            Some(new) => old.slot == new.slot && new.slot != slot,
            None => false,
        },
        None => new.is_none(),
    }
}
