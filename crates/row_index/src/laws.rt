//! What follows from the definitions, for every list of keys.
ghost use Rattle.std.specs.Prelude.{◌≡◌, ℕ, List, Option};
ghost use Rattle.row_index.specs.Winner.{IsLeast, Differ};

use crate::key::Key;

/// Where no two slots have one key, at most one slot has the least.
pub fn one_least<K: Key>()
    ensures { (keys : List (Option K)) (a b : ℕ) → Differ keys → IsLeast K.before keys a
        → IsLeast K.before keys b → a ≡ b }
{}
