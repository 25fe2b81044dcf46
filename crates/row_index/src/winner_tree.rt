//! `WinnerTree`: the key of each slot, and the matches between them.
//!
//! Of `leaves` leaves and one node fewer above them, the nodes stand in one list: first the leaves, by slot,
//! and behind them the winner of each pair of nodes in turn (nodes 0 and 1, nodes 2 and 3, and so on), where
//! winners are paired as leaves are. The last is the root.
ghost use Rattle.std.specs.Prelude.{◌≡◌, ℕ, ◌+◌, ◌-◌, ◌*◌, ◌/◌, ◌^◌, ◌<◌, ◌≤◌, [], ◌++◌, length, take};
ghost use Rattle.std.specs.Prelude.{replicate, None};
ghost use Rattle.std.specs.Prelude.{slice_index_or, slice_set, IfOk, IsOk, OnOk, OnErr, MatchOption};
ghost use Rattle.std.specs.Int.{IsPowerOfTwo};
ghost use Rattle.row_index.specs.Winner.{HasNone, IsLeast, early_slots};
ghost use Rattle.row_index.specs.Matches.{leaves_of, ArePlayed, IsNoMore, IsOpen};

use crate::early::collect;
use crate::entrant::{Entrant, enter, stays};
use crate::key::Key;
use crate::nodes::Nodes;
use std::alloc::{AllocError, Global};
use std::marker::{Brand, Model};
use std::sync::ledger::{Blank, Ledger};
use steps::Steps;

/// The most leaves that a tree is given.
const LEAVES_MAX: usize = 1 << 62;

// As many leaves as so many slots take: the least power of two that is no less.
fn leaves_for(slots: usize) -> Result<usize, AllocError>
    ensures enough { IfOk result (λ leaves. slots ≤ leaves) }
    ensures some { IfOk result (λ leaves. 0 < leaves) }
    ensures least { IfOk result (IsNoMore slots) }
    ensures power { IfOk result IsPowerOfTwo }
    ensures fits { IfOk result (λ leaves. leaves ≤ 2 ^ 62) }
{
    if slots > LEAVES_MAX {
        return Err(AllocError);
    }
    Ok(slots.next_power_of_two())
}

// Plays each match, the lowest first.
fn play_all<K: Key, L: Ledger>(nodes: &mut Nodes<K>, leaves: usize, blank: Blank)
    requires name { blank.name ≡ L.name }
    requires parts { blank.parts ≡ L.parts }
    requires some { 0 < blank.parts }
    requires leaves { 0 < leaves }
    requires bound { leaves ≤ 2 ^ 62 }
    requires len { length nodes.old ≡ 2 * leaves - 1 }
    ensures len { length nodes.new ≡ length nodes.old }
    ensures leaves { take leaves nodes.new ≡ take leaves nodes.old }
    ensures played { ArePlayed K.before leaves nodes.new }
{
    let mut steps = Steps::<L>::new(blank);
    for pair in 0..leaves - 1 {
        let winner = nodes.play(pair, &mut steps);
        let _old = nodes.put(leaves + pair, winner, &mut steps);
    }
}

// Plays the matches above a slot whose key has changed, up to one whose winner stays.
fn climb<K: Key, L: Ledger>(
    nodes: &mut Nodes<K>,
    slot: usize,
    entrant: Option<Entrant<K>>,
    steps: &mut Steps<L>,
)
    requires open { IsOpen K.before (leaves_of nodes.old) slot slot nodes.old }
    requires entrant { entrant ≡ slice_index_or nodes.old slot None }
    requires within { slot < leaves_of nodes.old }
    requires len { length nodes.old ≡ 2 * leaves_of nodes.old - 1 }
    requires bound { leaves_of nodes.old ≤ 2 ^ 62 }
    ensures len { length nodes.new ≡ length nodes.old }
    ensures leaves { take (leaves_of nodes.old) nodes.new ≡ take (leaves_of nodes.old) nodes.old }
    ensures played { ArePlayed K.before (leaves_of nodes.old) nodes.new }
    ensures looks { (h : ℕ) → leaves_of nodes.old ≤ 2 ^ h → steps.new ≤ steps.old + 2 * h }
{
    let leaves = nodes.leaves();
    let mut at = slot;
    let mut risen = entrant;
    while at / 2 + 1 < leaves {
        let winner = nodes.rise(at, &risen, steps);
        at = leaves + at / 2;
        let old = nodes.put(at, winner, steps);
        if stays(slot, &old, &winner) {
            return;
        }
        risen = winner;
    }
}

/// The key of each slot, and the slot of the least.
#[derive(Drop)]
pub struct WinnerTree<K: Key> {
    nodes: Nodes<K>,
    slots: usize,
}

impl<K: Key> Model for WinnerTree<K> {
    ghost use Rattle.std.specs.Prelude.{List, Option};
    ghost use Rattle.row_index.specs.Matches.{IsTree, keys_of, leaves_of};

    ghost Value = { List (Option K) };

    ghost view = { λ t. keys_of t.slots t.nodes };

    ghost invariant = { λ t. IsTree K.before (leaves_of t.nodes) t.slots t.nodes };
}

impl<K: Key> WinnerTree<K> {
    /// A tree of no slot, which takes no memory.
    pub fn new(alloc: Global) -> WinnerTree<K>
        ensures { result ≡ [] }
    {
        WinnerTree {
            nodes: Nodes::new(alloc),
            slots: 0,
        }
    }

    /// The number of slots.
    pub fn len(&self) -> usize
        ensures { result ≡ length self.now }
    {
        self.slots
    }

    /// Slots up to that number, the new ones without a key. It takes time in the number of slots where that
    /// passes a power of two.
    ///
    /// Where there is no memory nothing changes.
    pub fn grow(&mut self, slots: usize) -> Result<(), AllocError>
        ensures keys { OnOk result (self.new ≡ self.old ++ replicate (slots - length self.old) None) }
        ensures err { OnErr result (self.new ≡ self.old) }
        ensures succeeds { slots ≤ length self.old → IsOk result }
    {
        if slots <= self.slots {
            return Ok(());
        }
        let leaves = self.nodes.leaves();
        if slots <= leaves {
            self.slots = slots;
            return Ok(());
        }
        let more = leaves_for(slots)?;
        self.nodes.extend(leaves, 2 * more - 1)?;
        play_all::<K, Brand>(&mut self.nodes, more, Blank::new(1));
        self.slots = slots;
        Ok(())
    }

    /// Puts a key into a slot, or takes the slot's key out.
    pub fn set<L: Ledger>(&mut self, slot: usize, key: Option<K>, steps: &mut Steps<L>)
        requires { slot < length self.old }
        ensures keys { self.new ≡ slice_set self.old slot key }
        ensures looks { (h : ℕ) → length self.old ≤ 2 ^ h → steps.new ≤ steps.old + (2 * h + 1) }
    {
        let entrant = enter(slot, key);
        let _old = self.nodes.put(slot, entrant, steps);
        climb(&mut self.nodes, slot, entrant, steps);
    }

    /// The slot whose key goes before all others, where a slot has a key.
    pub fn winner<L: Ledger>(&self, steps: &mut Steps<L>) -> Option<usize>
        ensures winner { MatchOption result (HasNone self.now) (IsLeast K.before self.now) }
        ensures looks { steps.new ≤ steps.old + 1 }
    {
        let root = self.nodes.len().checked_sub(1)?;
        match self.nodes.look(root, steps) {
            Some(entrant) => Some(entrant.slot),
            None => None,
        }
    }

    /// The slots whose keys go before the bound, rising. The only refusal is want of memory.
    pub fn slots_before<L: Ledger>(
        &self,
        alloc: Global,
        bound: &K,
        steps: &mut Steps<L>,
    ) -> Result<Vec<usize>, AllocError>
        ensures slots { IfOk result (λ v. v.items ≡ early_slots K.before bound.now 0 self.now) }
        ensures looks { (h : ℕ) → length self.now ≤ 2 ^ h
            → steps.new ≤ steps.old + (2 * h * length (early_slots
            K.before bound.now 0 self.now) + 1) }
    {
        let mut slots = Vec::new(alloc);
        let Some(root) = self.nodes.len().checked_sub(1) else {
            return Ok(slots);
        };
        collect(&self.nodes, root, bound, &mut slots, steps)?;
        Ok(slots)
    }
}
