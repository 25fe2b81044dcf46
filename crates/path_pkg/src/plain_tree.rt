//! Looking into a map of nodes.
ghost use Rattle.std.specs.Prelude.{◌≡◌, ◌⊎◌, ◌++◌, ◌∷◌, [], true, map, IfOk, OnOk, string_bytes};
ghost use Rattle.path_pkg.specs.Fault.{is_decided};
ghost use Rattle.std.specs.Option.{option_copied};
ghost use Rattle.path_pkg.specs.MapNodes.{nodes_of};
ghost use Rattle.path_pkg.specs.Resolved.{target_node, dir_prefix, is_within, paths_below};
ghost use Rattle.path_pkg.specs.Told.{IsInByteOrder};
ghost use Rattle.path_pkg.specs.Tree.{node_at, kind_of, link_of};

use crate::fault::{PackError, TreeFault};
use crate::link_lookup::LinkLookup;
use crate::node::{Kind, Node};
use crate::place::text;
use crate::simplify::simplified;
use std::alloc::{AllocError, Global};
use std::collections::BTreeMap;

/// The node whose path is this text.
pub(crate) fn node<'a>(nodes: &'a BTreeMap<String, Node>, path: &str) -> Option<&'a Node>
    ensures { option_copied result ≡ node_at (nodes_of nodes.now.entries) path.now }
{
    nodes.get(path)
}

/// The kind of a node.
pub(crate) fn kind_of(node: Option<&Node>) -> Kind
    ensures { result ≡ kind_of (option_copied node.entry) }
{
    match node {
        None => Kind::None,
        Some(Node::Dir) => Kind::Dir,
        Some(Node::File(_)) => Kind::File,
        Some(Node::Link(_)) => Kind::Link,
        Some(Node::Other) => Kind::Other,
    }
}

/// The target, where the node is a link.
pub(crate) fn link_of<'a>(node: Option<&'a Node>) -> Option<&'a str>
    ensures { option_copied result ≡ link_of (option_copied node.entry) }
{
    match node {
        None => None,
        Some(Node::Dir) => None,
        Some(Node::File(_)) => None,
        Some(Node::Link(target)) => Some(target.get()),
        Some(Node::Other) => None,
    }
}

/// The paths of a map are in byte order. It does nothing when it runs.
pub(crate) fn in_byte_order(nodes: &BTreeMap<String, Node>)
    ensures { IsInByteOrder (nodes_of nodes.now.entries) }
{
    let _ = nodes.len();
}

/// A map of nodes, of which as much may be asked as one likes.
#[derive(Drop)]
struct PlainTree<'a> {
    alloc: Global,
    nodes: &'a BTreeMap<String, Node>,
}

impl LinkLookup for PlainTree<'_> {
    ghost use Rattle.std.specs.Prelude.{Some};
    ghost use Rattle.path_pkg.specs.MapNodes.{nodes_of};

    ghost told = { λ s. record { nodes = Some (nodes_of s.nodes.now.entries); faults = 0; misnamed = 0 } };

    fn is_link(&mut self, path: &str) -> Result<bool, TreeFault> {
        Ok(kind_of(node(self.nodes, path)) == Kind::Link)
    }

    fn link_target(&mut self, path: &str) -> Result<String, TreeFault> {
        match link_of(node(self.nodes, path)) {
            Some(target) => {
                let copy = String::from_str(self.alloc, target)?;
                Ok(copy)
            }
            None => unreachable!(),
        }
    }
}

/// Memory, and of no other refusal of a tree that never fails anything.
fn only_memory(fault: PackError) -> Result<(), AllocError>
    requires { (is_decided fault ≡ true) ⊎ (fault ≡ PackError.Memory) }
    ensures { IfOk result (λ _. is_decided fault ≡ true) }
{
    match fault {
        PackError::Memory => Err(AllocError),
        PackError::TreeFault => unreachable!(),
        PackError::SinkFault => unreachable!(),
        PackError::NotUtf8 => unreachable!(),
        PackError::NotAbsolute => Ok(()),
        PackError::NotDir => Ok(()),
        PackError::NotFile => Ok(()),
        PackError::LinkInParent => Ok(()),
        PackError::TooManyLinks => Ok(()),
        PackError::PathTooLong => Ok(()),
    }
}

/// The node that a path leads to, with each link followed.
pub(crate) fn target_node<'a>(
    alloc: Global,
    nodes: &'a BTreeMap<String, Node>,
    path: &str,
) -> Result<Option<&'a Node>, AllocError>
    ensures { IfOk result (λ node. option_copied node ≡ target_node (nodes_of nodes.now.entries) path.now) }
{
    let mut tree = PlainTree { alloc, nodes };
    match simplified(alloc, &mut tree, true, path) {
        Ok(place) => {
            let text = text(alloc, &place)?;
            Ok(node(nodes, text.as_str()))
        }
        Err(fault) => {
            only_memory(fault)?;
            Ok(None)
        }
    }
}

/// Whether a path lies below the directory of which all paths in it begin with this prefix.
pub(crate) fn is_within(prefix: &str, inner: &str) -> bool
    ensures { result ≡ is_within prefix.now inner.now }
{
    prefix.len() < inner.len() && inner.as_bytes().starts_with(prefix.as_bytes())
}

/// What the paths in a directory begin with.
pub(crate) fn dir_prefix(alloc: Global, path: &str) -> Result<String, AllocError>
    ensures { IfOk result (λ prefix. string_bytes prefix ≡ dir_prefix path.now) }
{
    let mut prefix = String::from_str(alloc, path)?;
    if path != "/" {
        prefix.push_str("/")?;
    }
    Ok(prefix)
}

/// The paths below a directory, in byte order.
pub(crate) fn paths_below(
    alloc: Global,
    nodes: &BTreeMap<String, Node>,
    path: &str,
) -> Result<Vec<String>, AllocError>
    ensures { IfOk result (λ v. map string_bytes v.items ≡ paths_below
        (nodes_of nodes.now.entries) path.now) }
{
    let prefix = dir_prefix(alloc, path)?;
    let mut paths = Vec::new(alloc);
    for (inner, _) in nodes {
        if is_within(prefix.as_str(), inner.as_str()) {
            push_copy(alloc, &mut paths, inner.as_str())?;
        }
    }
    Ok(paths)
}

fn push_copy(alloc: Global, paths: &mut Vec<String>, path: &str) -> Result<(), AllocError>
    ensures { OnOk result (map string_bytes paths.new.items ≡ map string_bytes paths.old.items ++ path.now
        ∷ []) }
{
    let copy = String::from_str(alloc, path)?;
    paths.push(copy)?;
    Ok(())
}
