//! Recording the links that were replaced on a path.
ghost use Rattle.std.specs.Prelude.{◌≡◌, List, ℕ, true, map, IfOk, IfErr, OnErr, OnOk, string_bytes};
ghost use Rattle.std.specs.Cmp.Lexicographic.{slice_cmp};
ghost use Rattle.std.specs.List.Sorted.{IsStrictlySortedBy};
ghost use Rattle.std.specs.Option.{option_map, is_some};
ghost use Rattle.std.specs.Ordering.{nat_cmp};
ghost use Rattle.path_pkg.specs.Fault.{is_simplify_error, IsPackAnswer, PackLeavesTree};
ghost use Rattle.path_pkg.specs.Recorded.{recorded, recorded_with, IsSameMap};
ghost use Rattle.path_pkg.specs.Simplified.{simplified, simple_path};
ghost use Rattle.path_pkg.specs.Told.{WhereTold};
ghost use Rattle.path_pkg.specs.Windows.{local_of, pairs_of};
ghost use Rattle.path_pkg.specs.Written.{Entry, put, put_all};

use crate::fault::PackError;
use crate::place::text;
use crate::simplify::{simplified, simplify_path};
use crate::tree::Tree;
use dist_types::text::Text;
use std::alloc::{AllocError, Global};
use std::collections::BTreeMap;

/// Puts back what stood at a path before another target was put there.
fn restore(links: &mut BTreeMap<String, String>, path: String, old: Option<String>)
    ensures { (before : List Entry) (v : List ℕ) → IsStrictlySortedBy (slice_cmp nat_cmp)
        (map (λ e. e.0) before) → pairs_of links.old.entries ≡ put before (string_bytes path, v)
        → local_of before (string_bytes path) ≡ option_map string_bytes old
        → pairs_of links.new.entries ≡ before }
{
    match old {
        Some(target) => {
            let _ = links.insert(path, target);
        }
        None => {
            let _ = links.remove(path.as_str());
        }
    }
}

/// Records a link, and gives the target that was recorded for its path before.
fn record_one(
    links: &mut BTreeMap<String, String>,
    path: String,
    target: String,
) -> Result<Option<String>, AllocError>
    ensures ok { OnOk result (pairs_of links.new.entries ≡ put (pairs_of links.old.entries)
        (string_bytes path, string_bytes target)) }
    ensures old { IfOk result
        (λ old. local_of (pairs_of links.old.entries) (string_bytes path) ≡ option_map string_bytes old) }
    ensures sorted { IsStrictlySortedBy (slice_cmp nat_cmp) (map (λ e. e.0) (pairs_of links.old.entries)) }
    ensures err { OnErr result (pairs_of links.new.entries ≡ pairs_of links.old.entries) }
{
    let old = links.insert(path, target)?;
    Ok(old)
}

/// Records links, all of them or none.
pub(crate) fn record_all(
    alloc: Global,
    links: &mut BTreeMap<String, String>,
    more: &[(Text, Text)],
) -> Result<(), AllocError>
    ensures ok { OnOk result (pairs_of links.new.entries ≡ put_all (pairs_of links.old.entries) more.now) }
    ensures err { OnErr result (pairs_of links.new.entries ≡ pairs_of links.old.entries) }
{
    let Some((first, others)) = more.split_first() else {
        return Ok(());
    };
    let path = String::from_str(alloc, first.0.get())?;
    let again = String::from_str(alloc, first.0.get())?;
    let target = String::from_str(alloc, first.1.get())?;
    let old = record_one(links, path, target)?;
    match record_all(alloc, links, others) {
        Ok(()) => Ok(()),
        Err(fault) => {
            restore(links, again, old);
            Err(fault)
        }
    }
}

/// A path made simple, with the links that were replaced on it recorded.
#[tactic(auto, using(crate::proofs::FaultLemmas::untouched))]
fn simplify_recorded<T: Tree>(
    alloc: Global,
    tree: &mut T,
    path: &str,
    links: &mut BTreeMap<String, String>,
) -> Result<String, PackError>
    ensures simplified { WhereTold (T.told tree.old)
        (λ t. IsPackAnswer string_bytes (simple_path true t path.now) result) }
    ensures links { OnOk result
        (WhereTold (T.told tree.old)
        (λ t. pairs_of links.new.entries ≡ recorded_with (pairs_of links.old.entries)
        (simplified true t path.now))) }
    ensures err { OnErr result (pairs_of links.new.entries ≡ pairs_of links.old.entries) }
    ensures reasons { IfErr result (λ e. is_simplify_error e ≡ true) }
    ensures leaves { PackLeavesTree result (T.told tree.old) (T.told tree.new) }
{
    match simplified(alloc, tree, true, path) {
        Ok(place) => {
            let simple = text(alloc, &place)?;
            record_all(alloc, links, &place.links)?;
            Ok(simple)
        }
        Err(fault) => Err(fault),
    }
}

/// Makes paths simple. Where it has a map, each link on a path is replaced by its target, and recorded there
/// with what stands in its place.
#[derive(Drop)]
pub struct SimplifyPath<'a> {
    /// The paths of links, each with its target made simple.
    pub resolved_symlinks: Option<&'a mut BTreeMap<String, String>>,
}

impl SimplifyPath<'_> {
    /// The path without empty parts, without `.`, and without `..`, each of which drops the part before it.
    /// LinkInParent where a `..` stands behind a link, which with recording is replaced before; TooManyLinks
    /// at the forty-first link that is replaced, those of targets counted. After a refusal the map is as it
    /// was.
    pub fn simplify<T: Tree>(
        &mut self,
        alloc: Global,
        tree: &mut T,
        path: &str,
    ) -> Result<String, PackError>
        ensures simplified { WhereTold (T.told tree.old)
            (λ t. IsPackAnswer string_bytes (simple_path
            (is_some (recorded self.old.resolved_symlinks)) t path.now)
            result) }
        ensures links { OnOk result
            (WhereTold (T.told tree.old)
            (λ t. recorded self.new.resolved_symlinks ≡ option_map
            (λ links. recorded_with links (simplified true t path.now))
            (recorded self.old.resolved_symlinks))) }
        ensures err { OnErr result
            (recorded self.new.resolved_symlinks ≡ recorded self.old.resolved_symlinks) }
        ensures reasons { IfErr result (λ e. is_simplify_error e ≡ true) }
        ensures same_map { IsSameMap self.old.resolved_symlinks self.new.resolved_symlinks }
        ensures leaves { PackLeavesTree result (T.told tree.old) (T.told tree.new) }
    {
        match &mut self.resolved_symlinks {
            Some(links) => simplify_recorded(alloc, tree, path, links),
            None => simplify_path(alloc, tree, path),
        }
    }
}
