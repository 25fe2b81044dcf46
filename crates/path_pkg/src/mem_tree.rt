//! The tree in memory.
ghost use Rattle.std.specs.Prelude.{◌≡◌, IfOk, map, string_bytes};
ghost use Rattle.std.specs.List.{list_any};
ghost use Rattle.std.specs.Option.{option_copied};
ghost use Rattle.std.specs.Str.{bytes_eq};
ghost use Rattle.dist_types.specs.Cause.{counted};
ghost use Rattle.std.proofs.Props.{props};
ghost use Rattle.path_pkg.specs.MapNodes.{nodes_of};
ghost use Rattle.path_pkg.specs.Resolved.{is_within};
ghost use Rattle.path_pkg.specs.Told.{IsInByteOrder};
ghost use Rattle.path_pkg.specs.Tree.{content_of};

use crate::fault::TreeFault;
use crate::listed_calls::begin_call;
use crate::node::{Kind, Node};
use crate::plain_tree::{
    dir_prefix, in_byte_order, is_within, kind_of, link_of, node, paths_below, target_node,
};
use crate::tree::Tree;
use dist_types::fault::raise;
use dist_types::text::Text;
use std::alloc::{AllocError, Global};
use std::collections::BTreeMap;

/// Directories, files and links by their paths. The calls of the listed numbers, from 0 on, fail. Reading
/// the link at a listed path, and walking a directory above one, finds a name that is not UTF-8.
#[derive(Drop)]
pub struct MemTree {
    alloc: Global,
    nodes: BTreeMap<String, Node>,
    fails: Vec<u64>,
    misnames: Vec<Text>,
    calls: u64,
    faults: u64,
    misnamed: u64,
    ghost in_byte_order: { IsInByteOrder (nodes_of nodes.entries) } by { Prim.hlevel props },
}

impl MemTree {
    ghost use Rattle.path_pkg.specs.InMemory.{tree_nodes, tree_fails, tree_misnames, tree_calls, tree_faults};
    ghost use Rattle.path_pkg.specs.InMemory.{tree_misnamed};

    /// A tree of which nothing was asked so far. It takes no memory.
    pub fn new(
        alloc: Global,
        nodes: BTreeMap<String, Node>,
        fails: Vec<u64>,
        misnames: Vec<Text>,
    ) -> Self
        ensures nodes { tree_nodes result ≡ nodes_of nodes.entries }
        ensures fails { tree_fails result ≡ fails.items }
        ensures misnames { tree_misnames result ≡ misnames.items }
        ensures calls { tree_calls result ≡ 0 }
        ensures faults { tree_faults result ≡ 0 }
        ensures misnamed { tree_misnamed result ≡ 0 }
    {
        in_byte_order(&nodes);
        MemTree {
            alloc,
            nodes,
            fails,
            misnames,
            calls: 0,
            faults: 0,
            misnamed: 0,
        }
    }
}

fn is_listed_path(paths: &[Text], path: &str) -> bool
    ensures { result ≡ list_any (bytes_eq path.now) paths.now }
{
    paths.iter().any(|p| path == p.get())
}

fn content_of(node: Option<&Node>) -> Option<&[u8]>
    ensures { option_copied result ≡ content_of (option_copied node.entry) }
{
    match node {
        None => None,
        Some(Node::Dir) => None,
        Some(Node::File(bytes)) => Some(bytes.get()),
        Some(Node::Link(_)) => None,
        Some(Node::Other) => None,
    }
}

fn has_path_below(prefix: &str, paths: &[Text]) -> bool
    ensures { result ≡ list_any (is_within prefix.now) paths.now }
{
    paths.iter().any(|p| is_within(prefix, p.get()))
}

impl Tree for MemTree {
    ghost use Rattle.std.specs.Prelude.{Some, None, Err, ◌⊎◌};
    ghost use Rattle.path_pkg.specs.Told.{WhereTold, LeavesTree};
    ghost use Rattle.path_pkg.specs.Tree.{kind_at, link_at};
    ghost use Rattle.path_pkg.specs.Resolved.{target_kind_at, content_at, paths_below};
    ghost use Rattle.path_pkg.specs.InMemory.{tree_told, tree_nodes, tree_fails, tree_misnames, tree_calls};
    ghost use Rattle.path_pkg.specs.InMemory.{kind_verdict, link_verdict, target_kind_verdict, read_verdict};
    ghost use Rattle.path_pkg.specs.InMemory.{walk_verdict, Answers, told_in_byte_order};

    ghost told = { tree_told };

    /// Failed exactly where this call is listed.
    fn kind(&mut self, path: &str) -> Result<Kind, TreeFault>
        ensures kind { IfOk result (λ k. WhereTold (tree_told self.old) (λ t. k ≡ kind_at t path.now)) }
        ensures leaves { LeavesTree result (tree_told self.old) (tree_told self.new) }

        ensures exact { result ≡ kind_verdict self.old path.now }
        ensures calls { tree_calls self.new ≡ counted (tree_calls self.old) }
        ensures kept { (tree_nodes self.new ≡ tree_nodes self.old)
            × (tree_fails self.new ≡ tree_fails self.old)
            × (tree_misnames self.new ≡ tree_misnames self.old) }
    {
        begin_call(&self.fails, &mut self.calls, &mut self.faults)?;
        Ok(kind_of(node(&self.nodes, path)))
    }

    /// Failed exactly where this call is listed or there is no link, and else NotUtf8 exactly where its path
    /// is listed.
    fn read_link(&mut self, path: &str) -> Result<String, TreeFault>
        ensures target { IfOk result
            (λ s. WhereTold (tree_told self.old) (λ t. link_at t path.now ≡ Some (string_bytes s))) }
        ensures no_link { WhereTold (tree_told self.old) (λ t. link_at t path.now ≡ None
            → result ≡ Err TreeFault.Failed) }
        ensures leaves { LeavesTree result (tree_told self.old) (tree_told self.new) }

        ensures exact { Answers string_bytes (link_verdict self.old path.now) result }
        ensures calls { tree_calls self.new ≡ counted (tree_calls self.old) }
        ensures kept { (tree_nodes self.new ≡ tree_nodes self.old)
            × (tree_fails self.new ≡ tree_fails self.old)
            × (tree_misnames self.new ≡ tree_misnames self.old) }
    {
        begin_call(&self.fails, &mut self.calls, &mut self.faults)?;
        match link_of(node(&self.nodes, path)) {
            None => {
                raise(&mut self.faults);
                Err(TreeFault::Failed)
            }
            Some(target) => {
                if is_listed_path(&self.misnames, path) {
                    raise(&mut self.misnamed);
                    return Err(TreeFault::NotUtf8);
                }
                let copy = String::from_str(self.alloc, target)?;
                Ok(copy)
            }
        }
    }

    /// Failed exactly where this call is listed.
    fn target_kind(&mut self, path: &str) -> Result<Kind, TreeFault>
        ensures kind { IfOk result
            (λ k. WhereTold (tree_told self.old) (λ t. k ≡ target_kind_at t path.now)) }
        ensures leaves { LeavesTree result (tree_told self.old) (tree_told self.new) }

        ensures exact { Answers (λ k. k) (target_kind_verdict self.old path.now) result }
        ensures calls { tree_calls self.new ≡ counted (tree_calls self.old) }
        ensures kept { (tree_nodes self.new ≡ tree_nodes self.old)
            × (tree_fails self.new ≡ tree_fails self.old)
            × (tree_misnames self.new ≡ tree_misnames self.old) }
    {
        begin_call(&self.fails, &mut self.calls, &mut self.faults)?;
        let node = target_node(self.alloc, &self.nodes, path)?;
        Ok(kind_of(node))
    }

    /// Failed exactly where this call is listed or the path leads to no file.
    fn read(&mut self, path: &str) -> Result<Vec<u8>, TreeFault>
        ensures content { IfOk result
            (λ v. WhereTold (tree_told self.old) (λ t. content_at t path.now ≡ Some v.items)) }
        ensures no_file { WhereTold (tree_told self.old) (λ t. content_at t path.now ≡ None
            → (result ≡ Err TreeFault.Failed) ⊎ (result ≡ Err TreeFault.Memory)) }
        ensures leaves { LeavesTree result (tree_told self.old) (tree_told self.new) }

        ensures exact { Answers (λ v. v.items) (read_verdict self.old path.now) result }
        ensures calls { tree_calls self.new ≡ counted (tree_calls self.old) }
        ensures kept { (tree_nodes self.new ≡ tree_nodes self.old)
            × (tree_fails self.new ≡ tree_fails self.old)
            × (tree_misnames self.new ≡ tree_misnames self.old) }
    {
        begin_call(&self.fails, &mut self.calls, &mut self.faults)?;
        let node = target_node(self.alloc, &self.nodes, path)?;
        match content_of(node) {
            None => {
                raise(&mut self.faults);
                Err(TreeFault::Failed)
            }
            Some(bytes) => {
                let copy = Vec::from_slice(self.alloc, bytes)?;
                Ok(copy)
            }
        }
    }

    /// Failed exactly where this call is listed, and else NotUtf8 exactly where a listed path lies below.
    fn walk(&mut self, path: &str) -> Result<Vec<String>, TreeFault>
        ensures paths { IfOk result
            (λ v. WhereTold (tree_told self.old) (λ t. map string_bytes v.items ≡ paths_below t path.now)) }
        ensures leaves { LeavesTree result (tree_told self.old) (tree_told self.new) }

        ensures exact { Answers (λ v. map string_bytes v.items) (walk_verdict self.old path.now) result }
        ensures calls { tree_calls self.new ≡ counted (tree_calls self.old) }
        ensures kept { (tree_nodes self.new ≡ tree_nodes self.old)
            × (tree_fails self.new ≡ tree_fails self.old)
            × (tree_misnames self.new ≡ tree_misnames self.old) }
    {
        begin_call(&self.fails, &mut self.calls, &mut self.faults)?;
        let prefix = dir_prefix(self.alloc, path)?;
        if has_path_below(prefix.as_str(), &self.misnames) {
            raise(&mut self.misnamed);
            return Err(TreeFault::NotUtf8);
        }
        let paths = paths_below(self.alloc, &self.nodes, path)?;
        Ok(paths)
    }

    ghost in_byte_order = { told_in_byte_order };
}
