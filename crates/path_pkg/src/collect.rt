//! What each call adds to a package, asked of a tree.
ghost use Rattle.std.specs.Prelude.{◌≡◌, ◌↔◌, true, false, map, string_bytes, Err, IfOk, IfErr};
ghost use Rattle.std.specs.List.{list_all};
ghost use Rattle.path_pkg.specs.Fault.{is_decided, is_simplify_error, IsPackAnswer, PackLeavesTree};
ghost use Rattle.path_pkg.specs.Path.{is_absolute};
ghost use Rattle.path_pkg.specs.Records.{record_fits, is_wanted, unwanted, then_checked, added, is_packed};
ghost use Rattle.path_pkg.specs.Records.{found, all_found, behind_links, found_at, contents_records};
ghost use Rattle.path_pkg.specs.Place.{spot_of};
ghost use Rattle.path_pkg.specs.Resolved.{target_kind_at};
ghost use Rattle.path_pkg.specs.Simplified.{simplified};
ghost use Rattle.path_pkg.specs.Told.{WhereTold};

use crate::fault::PackError;
use crate::node::Kind;
use crate::path::is_absolute;
use crate::place::{Place, text};
use crate::record::{Packed, Record, checked, link_records, records_at};
use crate::simplify::simplified;
use crate::tree::Tree;
use dist_types::text::Text;
use std::alloc::{AllocError, Global};

fn is_wanted(what: Packed, kind: Kind) -> bool
    ensures { result ≡ is_wanted what kind }
{
    match kind {
        Kind::Dir => match what {
            Packed::Dir => true,
            Packed::File => false,
        },
        Kind::File => match what {
            Packed::Dir => false,
            Packed::File => true,
        },
        Kind::Link => match what {
            Packed::Dir => false,
            Packed::File => false,
        },
        Kind::Other => match what {
            Packed::Dir => false,
            Packed::File => false,
        },
        Kind::None => match what {
            Packed::Dir => false,
            Packed::File => false,
        },
    }
}

/// Whether a path leads to what is wanted.
#[tactic(auto, using(crate::proofs::FaultLemmas::undecided, crate::proofs::FaultLemmas::of_simplify, crate::proofs::FaultLemmas::pack_refused, crate::proofs::FaultLemmas::untouched))]
fn leads_to<T: Tree>(tree: &mut T, path: &str, what: Packed) -> Result<bool, PackError>
    ensures leads { IfOk result
        (λ b. WhereTold (T.told tree.old) (λ t. b ≡ is_wanted what (target_kind_at t path.now))) }
    ensures decided { IfErr result (λ e. is_decided e ≡ false) }
    ensures reasons { IfErr result (λ e. is_simplify_error e ≡ true) }
    ensures leaves { PackLeavesTree result (T.told tree.old) (T.told tree.new) }
{
    let kind = tree.target_kind(path)?;
    Ok(is_wanted(what, kind))
}

/// What stands at a path, and the links on its way.
#[tactic(auto, using(crate::proofs::FaultLemmas::untouched))]
fn records_to<T: Tree>(
    alloc: Global,
    tree: &mut T,
    path: &str,
    what: Packed,
) -> Result<Vec<Record>, PackError>
    ensures records { WhereTold (T.told tree.old)
        (λ t. IsPackAnswer (λ v. v.items) (then_checked what (simplified true t path.now)) result) }
    ensures reasons { IfErr result (λ e. ¬ (e ≡ PackError.NotAbsolute)) }
    ensures fit { IfOk result (λ v. list_all record_fits v.items ≡ true) }
    ensures leaves { PackLeavesTree result (T.told tree.old) (T.told tree.new) }
{
    match simplified(alloc, tree, true, path) {
        Ok(place) => {
            let records = records_at(alloc, what, &place)?;
            checked(records)
        }
        Err(fault) => Err(fault),
    }
}

/// What adding a directory or a file adds.
#[tactic(auto, using(crate::proofs::FaultLemmas::untouched), unfolding(crate::specs::Records::added))]
pub(crate) fn added<T: Tree>(
    alloc: Global,
    tree: &mut T,
    path: &str,
    what: Packed,
) -> Result<Vec<Record>, PackError>
    ensures records { WhereTold (T.told tree.old)
        (λ t. IsPackAnswer (λ v. v.items) (added what t path.now) result) }
    ensures not_absolute { (result ≡ Err PackError.NotAbsolute) ↔ (is_absolute path.now ≡ false) }
    ensures fit { IfOk result (λ v. list_all record_fits v.items ≡ true) }
    ensures leaves { PackLeavesTree result (T.told tree.old) (T.told tree.new) }
{
    if !is_absolute(path) {
        return Err(PackError::NotAbsolute);
    }
    if !leads_to(tree, path, what)? {
        return Err(unwanted(what));
    }
    records_to(alloc, tree, path, what)
}

fn unwanted(what: Packed) -> PackError
    ensures { result ≡ unwanted what }
{
    match what {
        Packed::Dir => PackError::NotDir,
        Packed::File => PackError::NotFile,
    }
}

/// Whether a path in a directory is packed: a file, or a link that leads to one.
#[tactic(auto, using(crate::proofs::FaultLemmas::undecided, crate::proofs::FaultLemmas::of_simplify, crate::proofs::FaultLemmas::pack_refused, crate::proofs::FaultLemmas::untouched))]
fn is_packed<T: Tree>(tree: &mut T, path: &str) -> Result<bool, PackError>
    ensures packed { IfOk result (λ b. WhereTold (T.told tree.old) (λ t. b ≡ is_packed t path.now)) }
    ensures decided { IfErr result (λ e. is_decided e ≡ false) }
    ensures reasons { IfErr result (λ e. is_simplify_error e ≡ true) }
    ensures leaves { PackLeavesTree result (T.told tree.old) (T.told tree.new) }
{
    let kind = tree.kind(path)?;
    match kind {
        Kind::File => Ok(true),
        Kind::Link => leads_to(tree, path, Packed::File),
        Kind::Dir => Ok(false),
        Kind::Other => Ok(false),
        Kind::None => Ok(false),
    }
}

/// What a path in a directory adds.
#[tactic(auto, using(crate::proofs::FaultLemmas::untouched), unfolding(crate::specs::Records::found))]
fn found<T: Tree>(alloc: Global, tree: &mut T, path: &str) -> Result<Vec<Record>, PackError>
    ensures records { WhereTold (T.told tree.old)
        (λ t. IsPackAnswer (λ v. v.items) (found t path.now) result) }
    ensures reasons { IfErr result (λ e. is_simplify_error e ≡ true) }
    ensures leaves { PackLeavesTree result (T.told tree.old) (T.told tree.new) }
{
    if !is_packed(tree, path)? {
        return Ok(Vec::new(alloc));
    }
    match simplified(alloc, tree, true, path) {
        Ok(place) => {
            let records = records_at(alloc, Packed::File, &place)?;
            Ok(records)
        }
        Err(fault) => Err(fault),
    }
}

/// What the paths in a directory add.
#[tactic(auto, using(crate::proofs::FaultLemmas::untouched))]
fn all_found<T: Tree>(
    alloc: Global,
    tree: &mut T,
    paths: &[String],
) -> Result<Vec<Record>, PackError>
    ensures records { WhereTold (T.told tree.old)
        (λ t. IsPackAnswer (λ v. v.items) (all_found t (map string_bytes paths.now)) result) }
    ensures reasons { IfErr result (λ e. is_simplify_error e ≡ true) }
    ensures leaves { PackLeavesTree result (T.told tree.old) (T.told tree.new) }
{
    let mut records = Vec::new(alloc);
    for path in paths {
        match found(alloc, tree, path.as_str()) {
            Ok(mut more) => records.append(&mut more)?,
            Err(fault) => return Err(fault),
        }
    }
    Ok(records)
}

/// What adding the contents of a directory adds.
#[tactic(auto, using(crate::proofs::FaultLemmas::untouched), unfolding(crate::specs::Records::contents_records))]
pub(crate) fn contents<T: Tree>(
    alloc: Global,
    tree: &mut T,
    path: &str,
) -> Result<Vec<Record>, PackError>
    ensures records { WhereTold (T.told tree.old)
        (λ t. IsPackAnswer (λ v. v.items) (contents_records t path.now) result) }
    ensures not_absolute { (result ≡ Err PackError.NotAbsolute) ↔ (is_absolute path.now ≡ false) }
    ensures fit { IfOk result (λ v. list_all record_fits v.items ≡ true) }
    ensures leaves { PackLeavesTree result (T.told tree.old) (T.told tree.new) }
{
    if !is_absolute(path) {
        return Err(PackError::NotAbsolute);
    }
    if !leads_to(tree, path, Packed::Dir)? {
        return Err(PackError::NotDir);
    }
    match simplified(alloc, tree, true, path) {
        Ok(place) => contents_at(alloc, tree, &place),
        Err(fault) => Err(fault),
    }
}

/// What was found in a directory, with the links on its way in front; nothing, where nothing was found.
fn behind_links(
    alloc: Global,
    links: &[(Text, Text)],
    mut found: Vec<Record>,
) -> Result<Vec<Record>, AllocError>
    ensures { IfOk result (λ v. v.items ≡ behind_links links.now found.items) }
{
    if found.is_empty() {
        return Ok(found);
    }
    let mut records = link_records(alloc, links)?;
    records.append(&mut found)?;
    Ok(records)
}

/// Each file and each link to a file in a directory, with the links on the directory's way where there is such
/// a file.
#[tactic(auto, using(crate::proofs::FaultLemmas::undecided, crate::proofs::FaultLemmas::of_simplify, crate::proofs::FaultLemmas::pack_refused, crate::proofs::FaultLemmas::untouched))]
fn contents_at<T: Tree>(
    alloc: Global,
    tree: &mut T,
    place: &Place,
) -> Result<Vec<Record>, PackError>
    ensures records { WhereTold (T.told tree.old)
        (λ t. IsPackAnswer (λ v. v.items) (found_at t (spot_of place.now)) result) }
    ensures reasons { IfErr result (λ e. ¬ (e ≡ PackError.NotAbsolute)) }
    ensures fit { IfOk result (λ v. list_all record_fits v.items ≡ true) }
    ensures leaves { PackLeavesTree result (T.told tree.old) (T.told tree.new) }
{
    let path = text(alloc, place)?;
    let paths = tree.walk(path.as_str())?;
    match all_found(alloc, tree, &paths) {
        Ok(found) => {
            let records = behind_links(alloc, &place.links, found)?;
            checked(records)
        }
        Err(fault) => Err(fault),
    }
}
