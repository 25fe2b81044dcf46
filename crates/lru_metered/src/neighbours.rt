//! `Neighbours`: the keys that a node of a chain is linked to. Nobody reads or writes them but by a call
//! that counts a step.
ghost use Rattle.std.specs.Prelude.{◌≡◌, ◌+◌, None};
ghost use Rattle.lru_metered.specs.Chain.{with_previous, with_next};

use std::marker::Model;
use std::mem;
use std::sync::ledger::Ledger;
use steps::Steps;

/// The keys of the nodes before and after a node.
#[derive(Drop)]
pub struct Neighbours {
    previous: Option<usize>,
    next: Option<usize>,
}

impl Model for Neighbours {
    ghost use Rattle.std.specs.Prelude.{ℕ, Option};

    ghost Value = { Option ℕ × Option ℕ };

    ghost view = { λ n. (n.previous, n.next) };
}

impl Neighbours {
    /// Those of a node that is in no list.
    pub(crate) fn none() -> Neighbours
        ensures { result ≡ (None, None) }
    {
        Neighbours {
            previous: None,
            next: None,
        }
    }

    /// The key of the node before.
    pub(crate) fn previous<L: Ledger>(&self, steps: &mut Steps<L>) -> Option<usize>
        ensures is { result ≡ self.now.0 }
        ensures counted { steps.new ≡ steps.old + 1 }
    {
        count(steps);
        self.previous
    }

    /// The key of the node after.
    pub(crate) fn next<L: Ledger>(&self, steps: &mut Steps<L>) -> Option<usize>
        ensures is { result ≡ self.now.1 }
        ensures counted { steps.new ≡ steps.old + 1 }
    {
        count(steps);
        self.next
    }

    /// Other neighbours. Gives the old ones.
    pub(crate) fn replace<L: Ledger>(
        &mut self,
        ends: (Option<usize>, Option<usize>),
        steps: &mut Steps<L>,
    ) -> (Option<usize>, Option<usize>)
        ensures was { result ≡ self.old }
        ensures now { self.new ≡ ends }
        ensures counted { steps.new ≡ steps.old + 1 }
    {
        count(steps);
        let previous = mem::replace(&mut self.previous, ends.0);
        let next = mem::replace(&mut self.next, ends.1);
        (previous, next)
    }

    /// Another node before.
    pub(crate) fn set_previous<L: Ledger>(&mut self, previous: Option<usize>, steps: &mut Steps<L>)
        ensures now { self.new ≡ with_previous previous self.old }
        ensures counted { steps.new ≡ steps.old + 1 }
    {
        count(steps);
        self.previous = previous;
    }

    /// Another node after.
    pub(crate) fn set_next<L: Ledger>(&mut self, next: Option<usize>, steps: &mut Steps<L>)
        ensures now { self.new ≡ with_next next self.old }
        ensures counted { steps.new ≡ steps.old + 1 }
    {
        count(steps);
        self.next = next;
    }
}

// Each reading and each writing counts one step.
fn count<L: Ledger>(steps: &mut Steps<L>)
    ensures { steps.new ≡ steps.old + 1 }
{
    steps.tick();
}
