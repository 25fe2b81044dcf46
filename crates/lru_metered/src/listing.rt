//! The entries of a table in their order: each is in the list, once.
ghost use Rattle.std.specs.Prelude.{◌≡◌, ◌≢◌, ℕ, ◌<◌, [], ◌∷◌, ◌++◌, Some, None, length, IfErr, OnOk};
ghost use Rattle.std.specs.Prelude.{OnErr, Contains};
ghost use Rattle.slab.specs.Slab.{get, Updates};
ghost use Rattle.lru_metered.specs.Chain.{without};
ghost use Rattle.lru_metered.specs.Index.{pairs_at, nexts};
ghost use Rattle.lru_metered.specs.Listing.{IsFull, Pushed, Renewed, HasSlots};

use crate::chain::Chain;
use crate::index::{Entry, hook};
use crate::uncounted::{append, detach, promote};
use std::mem;

/// Takes an entry out of the list and of the slab. Its bucket does not list it.
pub(crate) fn take_out<K, V>(nodes: &mut Chain<Entry<K, V>>, at: usize) -> (K, V)
    requires full { IsFull nodes.old }
    requires listed { Contains nodes.old.order at }
    ensures pair { pairs_at nodes.old.items at ≡ Some result }
    ensures full { IsFull nodes.new }
    ensures order { nodes.new.order ≡ without at nodes.old.order }
    ensures updates { Updates nodes.old.items nodes.new.items at None }
{
    detach(nodes, at);
    let Entry {
        key,
        value,
        next: _next,
    } = nodes.take(at);
    (key, value)
}

/// Gives an entry another pair, and the old value back. The entry goes last, and its next stays.
pub(crate) fn renew<K: Drop, V>(nodes: &mut Chain<Entry<K, V>>, at: usize, key: K, value: V) -> V
    requires full { IsFull nodes.old }
    requires listed { Contains nodes.old.order at }
    ensures renewed { Renewed nodes.old nodes.new at (key, value) }
    ensures value { (p : K × V) → pairs_at nodes.old.items at ≡ Some p → result ≡ p.1 }
{
    promote(nodes, at);
    let entry = nodes.item_mut(at);
    entry.key = key;
    mem::replace(&mut entry.value, value)
}

/// Stores a pair, at the front of a bucket and at the end of the list. Where there is no memory the
/// pair is handed back.
pub(crate) fn push<K, V>(
    nodes: &mut Chain<Entry<K, V>>,
    heads: &mut [Option<usize>],
    bucket: usize,
    key: K,
    value: V,
) -> Result<(), (K, V)>
    requires full { IsFull nodes.old }
    requires within { bucket < length heads.old }
    ensures pushed { OnOk result (Pushed nodes.old nodes.new heads.old heads.new bucket (key, value)) }
    ensures len { length heads.new ≡ length heads.old }
    ensures handed_back { IfErr result (λ p. p ≡ (key, value)) }
    ensures err { OnErr result (HasSlots nodes.old nodes.new × (heads.new ≡ heads.old)) }
{
    let entry = Entry {
        key,
        value,
        next: None,
    };
    let at = match nodes.insert(entry) {
        Ok(at) => at,
        Err(entry) => {
            let Entry {
                key,
                value,
                next: _next,
            } = entry;
            return Err((key, value));
        }
    };
    hook(nodes, heads, bucket, at);
    append(nodes, at);
    Ok(())
}
