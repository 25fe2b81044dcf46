//! The calls on the keys of a chain where no steps are counted: each counts its steps on a ledger of its own.
ghost use Rattle.std.specs.Prelude.{◌≡◌, ◌<◌, [], ◌∷◌, ◌++◌, ℕ, List, None, Contains, slice_get};
ghost use Rattle.slab.specs.Slab.{ContainsKey};
ghost use Rattle.lru_metered.specs.Chain.{without, first_or, last_or};

use crate::chain::Chain;
use std::marker::Brand;
use std::sync::ledger::{Blank, Ledger};
use steps::Steps;

// Each call on a ledger that the blank opens.
fn append_on<T, L: Ledger>(chain: &mut Chain<T>, at: usize, blank: Blank)
    requires name { blank.name ≡ L.name }
    requires parts { blank.parts ≡ L.parts }
    requires some { 0 < blank.parts }
    requires held { ContainsKey chain.old.items at }
    requires apart { ¬ (Contains chain.old.order at) }
    ensures order { chain.new.order ≡ chain.old.order ++ at ∷ [] }
    ensures items { chain.new.items ≡ chain.old.items }
{
    let mut steps = Steps::<L>::new(blank);
    chain.push_back(at, &mut steps);
}

fn detach_on<T, L: Ledger>(chain: &mut Chain<T>, at: usize, blank: Blank)
    requires name { blank.name ≡ L.name }
    requires parts { blank.parts ≡ L.parts }
    requires some { 0 < blank.parts }
    requires listed { Contains chain.old.order at }
    ensures order { chain.new.order ≡ without at chain.old.order }
    ensures items { chain.new.items ≡ chain.old.items }
{
    let mut steps = Steps::<L>::new(blank);
    chain.unlink(at, &mut steps);
}

fn promote_on<T, L: Ledger>(chain: &mut Chain<T>, at: usize, blank: Blank)
    requires name { blank.name ≡ L.name }
    requires parts { blank.parts ≡ L.parts }
    requires some { 0 < blank.parts }
    requires listed { Contains chain.old.order at }
    ensures order { chain.new.order ≡ without at chain.old.order ++ at ∷ [] }
    ensures items { chain.new.items ≡ chain.old.items }
{
    let mut steps = Steps::<L>::new(blank);
    chain.move_to_back(at, &mut steps);
}

/// `Chain::push_back`.
pub(crate) fn append<T>(chain: &mut Chain<T>, at: usize)
    requires held { ContainsKey chain.old.items at }
    requires apart { ¬ (Contains chain.old.order at) }
    ensures order { chain.new.order ≡ chain.old.order ++ at ∷ [] }
    ensures items { chain.new.items ≡ chain.old.items }
{
    append_on::<T, Brand>(chain, at, Blank::new(1));
}

/// `Chain::unlink`.
pub(crate) fn detach<T>(chain: &mut Chain<T>, at: usize)
    requires { Contains chain.old.order at }
    ensures order { chain.new.order ≡ without at chain.old.order }
    ensures items { chain.new.items ≡ chain.old.items }
{
    detach_on::<T, Brand>(chain, at, Blank::new(1));
}

/// `Chain::move_to_back`.
pub(crate) fn promote<T>(chain: &mut Chain<T>, at: usize)
    requires { Contains chain.old.order at }
    ensures order { chain.new.order ≡ without at chain.old.order ++ at ∷ [] }
    ensures items { chain.new.items ≡ chain.old.items }
{
    promote_on::<T, Brand>(chain, at, Blank::new(1));
}

fn after_on<T, L: Ledger>(chain: &Chain<T>, key: usize, blank: Blank) -> Option<usize>
    requires name { blank.name ≡ L.name }
    requires parts { blank.parts ≡ L.parts }
    requires some { 0 < blank.parts }
    requires listed { Contains chain.now.order key }
    ensures { (front back : List ℕ) → chain.now.order ≡ front ++ key ∷ back → result ≡ first_or back None }
{
    let mut steps = Steps::<L>::new(blank);
    chain.next_of(key, &mut steps)
}

fn before_on<T, L: Ledger>(chain: &Chain<T>, key: usize, blank: Blank) -> Option<usize>
    requires name { blank.name ≡ L.name }
    requires parts { blank.parts ≡ L.parts }
    requires some { 0 < blank.parts }
    requires listed { Contains chain.now.order key }
    ensures { (front back : List ℕ) → chain.now.order ≡ front ++ key ∷ back → result ≡ last_or None front }
{
    let mut steps = Steps::<L>::new(blank);
    chain.previous_of(key, &mut steps)
}

impl<T> Chain<T> {
    /// The key after one of the list.
    pub fn after(&self, key: usize) -> Option<usize>
        requires { Contains self.now.order key }
        ensures { (front back : List ℕ) → self.now.order ≡ front ++ key ∷ back → result ≡ first_or back None }
    {
        after_on::<T, Brand>(self, key, Blank::new(1))
    }

    /// The key before one of the list.
    pub fn before(&self, key: usize) -> Option<usize>
        requires { Contains self.now.order key }
        ensures { (front back : List ℕ) → self.now.order ≡ front ++ key ∷ back → result ≡ last_or None front }
    {
        before_on::<T, Brand>(self, key, Blank::new(1))
    }

    /// The key at a place of the list, where it has so many. It goes over those before it.
    pub fn nth(&self, place: usize) -> Option<usize>
        ensures { result ≡ slice_get self.now.order place }
    {
        let mut current = self.first();
        for _ in 0..place {
            current = self.after(current?);
        }
        current
    }
}
