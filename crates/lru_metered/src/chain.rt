//! `Chain`: items in a slab, some of them in a list that is linked through their keys.
ghost use Rattle.std.specs.Prelude.{◌≡◌, ◌+◌, ◌≤◌, [], ◌∷◌, ◌++◌, Some, None, drop, slice_get, IfErr, IfOk};
ghost use Rattle.std.specs.Prelude.{IfSome, IsSome, IsOk, List, ℕ, OnErr, OnOk, option_copied, is_some, true};
ghost use Rattle.std.specs.Prelude.{false, ◌≢◌, if◌then◌else◌, Contains};
ghost use Rattle.std.specs.Borrow.{sem};
ghost use Rattle.slab.specs.Slab.{get, ContainsKey, HasRoomFor, Updates, slab_len};
ghost use Rattle.lru_metered.specs.Chain.{Changes, links, items_of, with_ends, with_previous, with_next};
ghost use Rattle.lru_metered.specs.Chain.{without, Joins, first_or, last_or};

use crate::neighbours::Neighbours;
use slab::Slab;
use std::alloc::{AllocError, AllocFailed, Allocator, Global};
use std::marker::Model;
use std::sync::ledger::Ledger;
use steps::Steps;

/// An item, and what its node is linked to.
#[derive(Drop)]
pub struct Node<T> {
    item: T,
    neighbours: Neighbours,
}

// Gives a node new neighbours, and the old ones back.
fn relink<T, L: Ledger>(
    nodes: &mut Slab<Node<T>>,
    key: usize,
    ends: (Option<usize>, Option<usize>),
    steps: &mut Steps<L>,
) -> (Option<usize>, Option<usize>)
    requires { IsSome (links nodes.old key) }
    ensures changed { Changes (links nodes.old) (links nodes.new) (Some key) (with_ends ends.0 ends.1) }
    ensures items { items_of nodes.new ≡ items_of nodes.old }
    ensures was { links nodes.old key ≡ Some result }
    ensures counted { steps.new ≤ steps.old + 1 }
{
    let node = &mut nodes[key];
    node.neighbours.replace(ends, steps)
}

// Gives a node another one before it.
fn set_previous<T, L: Ledger>(
    nodes: &mut Slab<Node<T>>,
    key: Option<usize>,
    previous: Option<usize>,
    steps: &mut Steps<L>,
)
    requires { IfSome key (λ x. IsSome (links nodes.old x)) }
    ensures changed { Changes (links nodes.old) (links nodes.new) key (with_previous previous) }
    ensures items { items_of nodes.new ≡ items_of nodes.old }
    ensures counted { steps.new ≤ steps.old + 1 }
{
    if let Some(key) = key {
        let node = &mut nodes[key];
        node.neighbours.set_previous(previous, steps);
    }
}

// Gives a node another one after it.
fn set_next<T, L: Ledger>(
    nodes: &mut Slab<Node<T>>,
    key: Option<usize>,
    next: Option<usize>,
    steps: &mut Steps<L>,
)
    requires { IfSome key (λ x. IsSome (links nodes.old x)) }
    ensures changed { Changes (links nodes.old) (links nodes.new) key (with_next next) }
    ensures items { items_of nodes.new ≡ items_of nodes.old }
    ensures counted { steps.new ≤ steps.old + 1 }
{
    if let Some(key) = key {
        let node = &mut nodes[key];
        node.neighbours.set_next(next, steps);
    }
}

// The neighbours of a node that is taken out name each other.
fn join<T, L: Ledger>(
    nodes: &mut Slab<Node<T>>,
    ends: (Option<usize>, Option<usize>),
    steps: &mut Steps<L>,
)
    requires previous { IfSome ends.0 (λ x. IsSome (links nodes.old x)) }
    requires next { IfSome ends.1 (λ x. IsSome (links nodes.old x)) }
    ensures changed { Joins (links nodes.old) (links nodes.new) ends }
    ensures items { items_of nodes.new ≡ items_of nodes.old }
    ensures counted { steps.new ≤ steps.old + 2 }
{
    set_next(nodes, ends.0, ends.1, steps);
    set_previous(nodes, ends.1, ends.0, steps);
}

/// Items in a slab, and a list of some of their keys, which is linked through the nodes.
#[derive(Drop)]
pub struct Chain<T> {
    nodes: Slab<Node<T>>,
    first: Option<usize>,
    last: Option<usize>,
}

impl<T> Model for Chain<T> {
    ghost use Rattle.std.specs.Prelude.{length};
    ghost use Rattle.lru_metered.specs.Chain.{Chained, IsChain, items_of, links, walk};

    ghost Value = { Chained T };

    ghost view = { λ c. record {
      items = items_of c.nodes;
      order = walk (links c.nodes)
          (length c.nodes.slots) c.first;
    } };

    ghost invariant = { λ c. IsChain (links c.nodes) c.first c.last
        (walk (links c.nodes) (length c.nodes.slots) c.first) };
}

impl<T> Chain<T> {
    ghost use Rattle.lru_metered.specs.ChainLends.{lends_item};

    /// A chain of no item, which takes no memory.
    pub fn new(alloc: Global) -> Chain<T>
        ensures items { result.items.slots ≡ [] }
        ensures order { result.order ≡ [] }
    {
        Chain {
            nodes: Slab::new(alloc),
            first: None,
            last: None,
        }
    }

    /// Stores an item under the key that the slab picks. The key is not in the list.
    ///
    /// Where there is no memory the item is handed back, and nothing changes.
    pub fn insert(&mut self, item: T) -> Result<usize, T>
        ensures key { IfOk result (λ key. key ≡ self.old.items.vacant_key) }
        ensures was_vacant { IfOk result (λ key. get self.old.items key ≡ None) }
        ensures updates { IfOk result (λ key. Updates self.old.items self.new.items key (Some item)) }
        ensures order { self.new.order ≡ self.old.order }
        ensures handed_back { IfErr result (λ back. back ≡ item) }
        ensures err { OnErr result (self.new.items.slots ≡ self.old.items.slots) }
        ensures succeeds { HasRoomFor self.old.items 1 → IsOk result }
        ensures len { OnOk result (slab_len self.new.items ≡ slab_len self.old.items + 1) }
    {
        let node = Node {
            item,
            neighbours: Neighbours::none(),
        };
        match self.nodes.insert(node) {
            Ok(key) => Ok(key),
            Err(failed) => {
                let AllocFailed { value } = failed;
                let Node {
                    item,
                    neighbours: _neighbours,
                } = value;
                Err(item)
            }
        }
    }

    /// The item of a key.
    pub fn get(&self, key: usize) -> Option<&T>
        ensures { option_copied result ≡ get self.now.items key }
    {
        match self.nodes.get(key) {
            Some(node) => Some(&node.item),
            None => None,
        }
    }

    /// The item of a key that has one.
    pub fn item(&self, key: usize) -> &T
        requires { ContainsKey self.now.items key }
        ensures { get self.now.items key ≡ Some result.now }
    {
        &self.nodes[key].item
    }

    /// A number that is above each key of an item.
    pub fn key_bound(&self) -> usize
        ensures { (key : ℕ) → result ≤ key → get self.now.items key ≡ None }
    {
        self.nodes.capacity()
    }

    /// The number of items, in the list or not.
    pub fn len(&self) -> usize
        ensures { result ≡ slab_len self.now.items }
    {
        self.nodes.len()
    }

    /// Room for more items, so that as many calls of `insert` take no memory.
    pub fn reserve(&mut self, additional: usize) -> Result<(), AllocError>
        ensures room { OnOk result (HasRoomFor self.new.items additional) }
        ensures succeeds { HasRoomFor self.old.items additional → IsOk result }
        ensures items { self.new.items ≡ record self.old.items { capacity = self.new.items.capacity } }
        ensures order { self.new.order ≡ self.old.order }
    {
        self.nodes.reserve(additional)
    }

    /// The first key of the list.
    pub fn first(&self) -> Option<usize>
        ensures { result ≡ slice_get self.now.order 0 }
    {
        self.first
    }

    /// The last key of the list.
    pub fn last(&self) -> Option<usize>
        ensures { result ≡ last_or None self.now.order }
    {
        self.last
    }

    /// The key after one of the list. It looks at one node.
    pub(crate) fn next_of<L: Ledger>(&self, key: usize, steps: &mut Steps<L>) -> Option<usize>
        requires { Contains self.now.order key }
        ensures next { (front back : List ℕ) → self.now.order ≡ front ++ key ∷ back
            → result ≡ first_or back None }
        ensures looks { steps.new ≡ steps.old + 1 }
    {
        self.nodes[key].neighbours.next(steps)
    }

    /// The key before one of the list. It looks at one node.
    pub(crate) fn previous_of<L: Ledger>(&self, key: usize, steps: &mut Steps<L>) -> Option<usize>
        requires { Contains self.now.order key }
        ensures previous { (front back : List ℕ) → self.now.order ≡ front ++ key ∷ back
            → result ≡ last_or None front }
        ensures looks { steps.new ≡ steps.old + 1 }
    {
        self.nodes[key].neighbours.previous(steps)
    }

    /// The item of a key, to write.
    pub fn item_mut(&mut self, key: usize) -> &mut T
        requires { ContainsKey self.old.items key }
        ensures* writes_back { sem 𝓛 (lends_item T.row self.entry key result) }
        ensures value { get self.old.items key ≡ Some result.now }
    {
        let node = &mut self.nodes[key];
        &mut node.item
    }

    /// Takes out all items, and keeps the memory.
    pub fn clear(&mut self)
    where
        T: Drop,
        ensures items { self.new.items.slots ≡ [] }
        ensures order { self.new.order ≡ [] }
    {
        self.nodes.clear();
        self.first = None;
        self.last = None;
    }

    /// Takes out the item of a key that is not in the list.
    pub fn take(&mut self, key: usize) -> T
        requires held { ContainsKey self.old.items key }
        requires apart { ¬ (Contains self.old.order key) }
        ensures item { get self.old.items key ≡ Some result }
        ensures len { slab_len self.new.items + 1 ≡ slab_len self.old.items }
        ensures room { HasRoomFor self.new.items 1 }
        ensures updates { Updates self.old.items self.new.items key None }
        ensures order { self.new.order ≡ self.old.order }
    {
        let Node {
            item,
            neighbours: _neighbours,
        } = self.nodes.remove(key);
        item
    }

    /// Puts a key that is not in the list at its end.
    pub fn push_back<L: Ledger>(&mut self, at: usize, steps: &mut Steps<L>)
        requires held { ContainsKey self.old.items at }
        requires apart { ¬ (Contains self.old.order at) }
        ensures order { self.new.order ≡ self.old.order ++ at ∷ [] }
        ensures items { self.new.items ≡ self.old.items }
        ensures looks { steps.new ≤ steps.old + 4 }
    {
        relink(&mut self.nodes, at, (self.last, None), steps);
        set_next(&mut self.nodes, self.last, Some(at), steps);
        self.first = outer(self.first, self.first, Some(at));
        self.last = Some(at);
    }

    /// Takes a key of the list out of it.
    pub fn unlink<L: Ledger>(&mut self, at: usize, steps: &mut Steps<L>)
        requires { Contains self.old.order at }
        ensures order { self.new.order ≡ without at self.old.order }
        ensures items { self.new.items ≡ self.old.items }
        ensures looks { steps.new ≤ steps.old + 4 }
    {
        let ends = relink(&mut self.nodes, at, (None, None), steps);
        join(&mut self.nodes, ends, steps);
        self.first = outer(self.first, ends.0, ends.1);
        self.last = outer(self.last, ends.1, ends.0);
    }

    /// Moves a key of the list to its end.
    pub fn move_to_back<L: Ledger>(&mut self, at: usize, steps: &mut Steps<L>)
        requires { Contains self.old.order at }
        ensures order { self.new.order ≡ without at self.old.order ++ at ∷ [] }
        ensures items { self.new.items ≡ self.old.items }
        ensures looks { steps.new ≤ steps.old + 4 }
    {
        if is_last(self.last, at) {
            return;
        }
        let ends = relink(&mut self.nodes, at, (self.last, None), steps);
        join(&mut self.nodes, ends, steps);
        set_next(&mut self.nodes, self.last, Some(at), steps);
        self.first = outer(self.first, ends.0, ends.1);
        self.last = Some(at);
    }

    /// Takes the first key of the list out of it.
    pub fn pop_front<L: Ledger>(&mut self, steps: &mut Steps<L>) -> Option<usize>
        ensures key { result ≡ slice_get self.old.order 0 }
        ensures order { self.new.order ≡ drop 1 self.old.order }
        ensures items { self.new.items ≡ self.old.items }
        ensures looks { steps.new ≤ steps.old + 4 }
    {
        let at = self.first?;
        self.unlink(at, steps);
        Some(at)
    }
}

// The key at an end of the list, once a node whose neighbours these are is out: the one within, where it had
// none without.
fn outer(end: Option<usize>, without: Option<usize>, within: Option<usize>) -> Option<usize>
    ensures { result ≡ (if is_some without then end else within) }
{
    match without {
        Some(_) => end,
        None => within,
    }
}

// Whether the list ends in the key.
fn is_last(last: Option<usize>, at: usize) -> bool
    ensures yes { result ≡ true → last ≡ Some at }
    ensures no { result ≡ false → last ≢ Some at }
{
    match last {
        Some(key) => key == at,
        None => false,
    }
}
