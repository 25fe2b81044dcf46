//! Paths made simple: without empty parts, `.` and `..`, and with recording without links.
ghost use Rattle.std.specs.Prelude.{◌≡◌, ◌++◌, ◌∷◌, [], ℕ, true, false, IfOk, IfErr, OnOk, string_bytes};
ghost use Rattle.path_pkg.specs.Fault.{is_decided, is_simplify_error, IsPackAnswer, PackLeavesTree};
ghost use Rattle.path_pkg.specs.Path.{steps_of};
ghost use Rattle.path_pkg.specs.Place.{spot_of};
ghost use Rattle.path_pkg.specs.Simplified.{is_met, link_target, taken, simplified, simple_path};
ghost use Rattle.path_pkg.specs.Spot.{spot_text, above, below, beside};
ghost use Rattle.path_pkg.specs.Told.{WhereTold};
ghost use Rattle.path_pkg.specs.declared.path.Step.TheVariants.{Linked};
ghost use Rattle.path_pkg.specs.Tree.{is_link};

use crate::fault::PackError;
use crate::link_lookup::LinkLookup;
use crate::path::{Step, steps_of};
use crate::place::{Place, above, below, beside, noted, start, text};
use crate::tree::Tree;
use dist_types::text::Text;
use std::alloc::{AllocError, Global};
use std::collections::VecDeque;

/// The most links that are replaced on one path, those of their targets with them.
pub const MAX_LINKS: u32 = 40;

#[tactic(auto, using(crate::proofs::FaultLemmas::undecided, crate::proofs::FaultLemmas::of_simplify, crate::proofs::FaultLemmas::pack_refused, crate::proofs::FaultLemmas::untouched))]
fn is_link_at<T: LinkLookup>(alloc: Global, tree: &mut T, place: &Place) -> Result<bool, PackError>
    ensures link { IfOk result
        (λ b. WhereTold (T.told tree.old) (λ t. b ≡ is_link t (spot_text (spot_of place.now)))) }
    ensures decided { IfErr result (λ e. is_decided e ≡ false) }
    ensures reasons { IfErr result (λ e. is_simplify_error e ≡ true) }
    ensures leaves { PackLeavesTree result (T.told tree.old) (T.told tree.new) }
{
    let path = text(alloc, place)?;
    let is_link = tree.is_link(path.as_str())?;
    Ok(is_link)
}

/// To the directory above, unless one is at a link.
#[tactic(auto, using(crate::proofs::FaultLemmas::untouched))]
fn go_up<T: LinkLookup>(alloc: Global, tree: &mut T, place: Place) -> Result<Place, PackError>
    ensures up { IfOk result (λ p. spot_of p ≡ above (spot_of place)) }
    ensures free { OnOk result
        (WhereTold (T.told tree.old) (λ t. is_link t (spot_text (spot_of place)) ≡ false)) }
    ensures reasons { IfErr result (λ e. is_simplify_error e ≡ true) }
    ensures at_link { IfErr result (λ e. is_decided e ≡ true → (e ≡ PackError.LinkInParent)
        × WhereTold (T.told tree.old) (λ t. is_link t (spot_text (spot_of place)) ≡ true)) }
    ensures leaves { PackLeavesTree result (T.told tree.old) (T.told tree.new) }
{
    if is_link_at(alloc, tree, &place)? {
        return Err(PackError::LinkInParent);
    }
    Ok(above(place))
}

/// Whether one is at a link that is to be replaced.
fn is_met<T: LinkLookup>(
    alloc: Global,
    tree: &mut T,
    recording: bool,
    place: &Place,
) -> Result<bool, PackError>
    ensures met { IfOk result
        (λ b. WhereTold (T.told tree.old) (λ t. b ≡ is_met t recording (spot_of place.now))) }
    ensures decided { IfErr result (λ e. is_decided e ≡ false) }
    ensures reasons { IfErr result (λ e. is_simplify_error e ≡ true) }
    ensures leaves { PackLeavesTree result (T.told tree.old) (T.told tree.new) }
{
    if !recording {
        return Ok(false);
    }
    is_link_at(alloc, tree, place)
}

/// From the link where one is: the place that its target is taken from, the steps of the target, and then the
/// others.
#[tactic(auto, using(crate::proofs::FaultLemmas::undecided, crate::proofs::FaultLemmas::of_simplify, crate::proofs::FaultLemmas::pack_refused, crate::proofs::FaultLemmas::untouched))]
fn follow<T: LinkLookup>(
    alloc: Global,
    tree: &mut T,
    place: Place,
    others: VecDeque<Step>,
) -> Result<(Place, VecDeque<Step>), PackError>
    requires { WhereTold (T.told tree.old) (λ t. is_link t (spot_text (spot_of place)) ≡ true) }
    ensures place { IfOk result
        (λ r. WhereTold (T.told tree.old)
        (λ t. spot_of r.0 ≡ beside (above (spot_of place)) (link_target t (spot_of place)))) }
    ensures steps { IfOk result
        (λ r. WhereTold (T.told tree.old) (λ t. r.1.items ≡ steps_of (link_target t (spot_of place)) ++ Linked
        (spot_text (spot_of place)) ∷ others.items)) }
    ensures decided { IfErr result (λ e. is_decided e ≡ false) }
    ensures reasons { IfErr result (λ e. is_simplify_error e ≡ true) }
    ensures leaves { PackLeavesTree result (T.told tree.old) (T.told tree.new) }
{
    let mut others = others;
    let path = text(alloc, &place)?;
    let target = tree.link_target(path.as_str())?;
    let next = beside(alloc, above(place), target.as_str());
    let mut steps = steps_of(alloc, target.as_str())?;
    push(&mut steps, Step::Linked(Text::new(path)))?;
    steps.append(&mut others)?;
    Ok((next, steps))
}

fn push(steps: &mut VecDeque<Step>, step: Step) -> Result<(), AllocError>
    ensures { OnOk result (steps.new.items ≡ steps.old.items ++ step ∷ []) }
{
    steps.push_back(step)?;
    Ok(())
}

/// Takes the steps, and replaces at most so many links.
fn take<T: LinkLookup>(
    alloc: Global,
    tree: &mut T,
    recording: bool,
    left: u32,
    place: Place,
    todo: VecDeque<Step>,
) -> Result<Place, PackError>
    ensures taken { WhereTold (T.told tree.old)
        (λ t. IsPackAnswer spot_of (taken left t recording (spot_of place) todo.items) result) }
    ensures reasons { IfErr result (λ e. is_simplify_error e ≡ true) }
    ensures leaves { PackLeavesTree result (T.told tree.old) (T.told tree.new) }
{
    let mut place = place;
    let mut todo = todo;
    while let Some(step) = todo.pop_front() {
        match step {
            Step::Up => match go_up(alloc, tree, place) {
                Ok(next) => place = next,
                Err(fault) => return Err(fault),
            },
            Step::Name(name) => {
                place = below(place, name)?;
                if is_met(alloc, tree, recording, &place)? {
                    if left == 0 {
                        return Err(PackError::TooManyLinks);
                    }
                    let (next, steps) = follow(alloc, tree, place, todo)?;
                    return take(alloc, tree, recording, left - 1, next, steps);
                }
            }
            Step::Linked(path) => {
                place = noted(alloc, place, path)?;
            }
        }
    }
    Ok(place)
}

/// A path made simple, with the links that were replaced on it.
#[tactic(auto, using(crate::proofs::FaultLemmas::untouched), unfolding(crate::specs::Simplified::simplified))]
pub(crate) fn simplified<T: LinkLookup>(
    alloc: Global,
    tree: &mut T,
    recording: bool,
    path: &str,
) -> Result<Place, PackError>
    ensures simplified { WhereTold (T.told tree.old)
        (λ t. IsPackAnswer spot_of (simplified recording t path.now) result) }
    ensures reasons { IfErr result (λ e. is_simplify_error e ≡ true) }
    ensures leaves { PackLeavesTree result (T.told tree.old) (T.told tree.new) }
{
    let steps = steps_of(alloc, path)?;
    take(alloc, tree, recording, MAX_LINKS, start(alloc, path), steps)
}

/// The path without empty parts, without `.`, and without `..`, each of which drops the part before it.
/// LinkInParent exactly where a `..` stands behind a link; the rest of the path is not asked for links.
/// TreeFault and NotUtf8 come only where the tree's count of them rose.
#[tactic(auto, using(crate::proofs::FaultLemmas::untouched))]
pub fn simplify_path<T: Tree>(alloc: Global, tree: &mut T, path: &str) -> Result<String, PackError>
    ensures simplified { WhereTold (T.told tree.old)
        (λ t. IsPackAnswer string_bytes (simple_path false t path.now) result) }
    ensures reasons { IfErr result (λ e. is_simplify_error e ≡ true) }
    ensures leaves { PackLeavesTree result (T.told tree.old) (T.told tree.new) }
{
    match simplified(alloc, tree, false, path) {
        Ok(place) => {
            let simple = text(alloc, &place)?;
            Ok(simple)
        }
        Err(fault) => Err(fault),
    }
}
