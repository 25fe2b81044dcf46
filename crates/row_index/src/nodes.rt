//! `Nodes`: the nodes of a tree, each look at one of which is counted.
ghost use Rattle.std.specs.Prelude.{◌≡◌, ◌+◌, ◌-◌, ◌*◌, ◌/◌, ◌^◌, ◌<◌, ◌≤◌, [], ◌++◌, length, take};
ghost use Rattle.std.specs.Prelude.{replicate, None};
ghost use Rattle.std.specs.Prelude.{slice_index_or, slice_set, OnOk, OnErr};
ghost use Rattle.row_index.specs.Matches.{leaves_of, match_of};

use crate::entrant::{Entrant, first};
use crate::key::Key;
use std::alloc::{AllocError, Global};
use std::marker::Model;
use std::sync::ledger::Ledger;
use steps::Steps;

/// The nodes, each with the entrant that won there, or none. A node is read by `look` alone.
#[derive(Drop)]
pub struct Nodes<K: Key> {
    items: Vec<Option<Entrant<K>>>,
}

impl<K: Key> Model for Nodes<K> {
    ghost use Rattle.std.specs.Prelude.{List, Option};
    ghost use Rattle.row_index.specs.declared.entrant.Entrant.{Entrant};

    ghost Value = { List (Option (Entrant K)) };

    ghost view = { λ n. n.items.items };
}

impl<K: Key> Nodes<K> {
    /// No node, which takes no memory.
    pub(crate) fn new(alloc: Global) -> Nodes<K>
        ensures { result ≡ [] }
    {
        Nodes {
            items: Vec::new(alloc),
        }
    }

    /// The number of nodes.
    pub(crate) fn len(&self) -> usize
        ensures { result ≡ length self.now }
    {
        self.items.len()
    }

    /// The number of leaves, one more than that of the nodes above them.
    pub(crate) fn leaves(&self) -> usize
        ensures { result ≡ leaves_of self.now }
    {
        let nodes = self.items.len();
        nodes / 2 + nodes % 2
    }

    /// Who won at a node.
    pub(crate) fn look<L: Ledger>(&self, at: usize, steps: &mut Steps<L>) -> &Option<Entrant<K>>
        requires { at < length self.now }
        ensures node { result.now ≡ slice_index_or self.now at None }
        ensures counted { steps.new ≡ steps.old + 1 }
    {
        steps.tick();
        &self.items[at]
    }

    /// Writes who won at a node, and gives who had won there.
    pub(crate) fn put<L: Ledger>(
        &mut self,
        at: usize,
        entrant: Option<Entrant<K>>,
        steps: &mut Steps<L>,
    ) -> Option<Entrant<K>>
        requires { at < length self.old }
        ensures nodes { self.new ≡ slice_set self.old at entrant }
        ensures old { result ≡ slice_index_or self.old at None }
        ensures counted { steps.new ≡ steps.old + 1 }
    {
        let old = *self.look(at, steps);
        self.items[at] = entrant;
        old
    }

    /// Who wins the match of a node whose winner is in hand with the other one of its pair.
    pub(crate) fn rise<L: Ledger>(
        &self,
        at: usize,
        risen: &Option<Entrant<K>>,
        steps: &mut Steps<L>,
    ) -> Option<Entrant<K>>
        requires risen { risen.now ≡ slice_index_or self.now at None }
        requires within { 2 * (at / 2) + 1 < length self.now }
        ensures winner { result ≡ match_of K.before self.now (at / 2) }
        ensures counted { steps.new ≡ steps.old + 1 }
    {
        if at % 2 == 0 {
            first(risen, self.look(at + 1, steps))
        } else {
            first(self.look(at - 1, steps), risen)
        }
    }

    /// Who wins the match of a pair of nodes.
    pub(crate) fn play<L: Ledger>(&self, pair: usize, steps: &mut Steps<L>) -> Option<Entrant<K>>
        requires small { pair < 2 ^ 62 }
        requires within { 2 * pair + 1 < length self.now }
        ensures winner { result ≡ match_of K.before self.now pair }
        ensures counted { steps.new ≡ steps.old + 2 }
    {
        let left = self.look(2 * pair, steps);
        let right = self.look(2 * pair + 1, steps);
        first(left, right)
    }

    /// Keeps so many nodes, and adds empty ones, so that there are `len`. Where there is no memory nothing
    /// changes.
    pub(crate) fn extend(&mut self, kept: usize, len: usize) -> Result<(), AllocError>
        requires kept { kept ≤ length self.old }
        requires longer { length self.old ≤ len }
        ensures nodes { OnOk result (self.new ≡ take kept self.old ++ replicate (len - kept) None) }
        ensures err { OnErr result (self.new ≡ self.old) }
    {
        self.items.reserve(len - self.items.len())?;
        self.items.truncate(kept);
        self.items.resize(len, None)
    }
}
