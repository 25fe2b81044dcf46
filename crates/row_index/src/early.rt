//! The slots whose keys go before a bound, found from a node down.
ghost use Rattle.std.specs.Prelude.{◌≡◌, ℕ, ◌+◌, ◌*◌, ◌^◌, ◌<◌, ◌≤◌, ◌++◌, length, OnOk};
ghost use Rattle.row_index.specs.Winner.{early_slots};
ghost use Rattle.row_index.specs.Matches.{is_early, leaves_of, span, IsBoard, Spans};

use crate::entrant::Entrant;
use crate::key::Key;
use crate::nodes::Nodes;
use std::alloc::AllocError;
use std::sync::ledger::Ledger;
use steps::Steps;

// Whether there is an entrant whose key goes before the bound.
fn early<K: Key>(entrant: &Option<Entrant<K>>, bound: &K) -> bool
    ensures { result ≡ is_early K.before bound.now entrant.now }
{
    match entrant {
        Some(entrant) => entrant.key.is_before(bound),
        None => false,
    }
}

/// Appends the slots below a node, by the leaves from left to right. Where its winner is not before the
/// bound there are none.
pub(crate) fn collect<K: Key, L: Ledger>(
    nodes: &Nodes<K>,
    at: usize,
    bound: &K,
    slots: &mut Vec<usize>,
    steps: &mut Steps<L>,
) -> Result<(), AllocError>
    requires board { IsBoard K.before (leaves_of nodes.now) nodes.now }
    requires within { at < length nodes.now }
    ensures slots { OnOk result ((j first : ℕ) → Spans (leaves_of nodes.now) j at first
        → slots.new.items ≡ slots.old.items ++
        early_slots K.before bound.now first (span nodes.now first (2 ^ j))) }
    ensures looks { (j first : ℕ) → Spans (leaves_of nodes.now) j at first
        → steps.new ≤ steps.old + (2 * j * length
        (early_slots K.before bound.now first (span nodes.now first (2 ^ j))) + 1) }
{
    if !early(nodes.look(at, steps), bound) {
        return Ok(());
    }
    let leaves = nodes.leaves();
    if at < leaves {
        slots.push(at)?;
        return Ok(());
    }
    collect(nodes, 2 * (at - leaves), bound, slots, steps)?;
    collect(nodes, 2 * (at - leaves) + 1, bound, slots, steps)?;
    Ok(())
}
