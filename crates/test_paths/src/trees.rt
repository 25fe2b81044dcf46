//! The tree that the rows ask.
use dist_types::text::{Bytes, Text};
use path_pkg::mem_tree::MemTree;
use path_pkg::node::Node;
use std::alloc::Global;
use std::collections::BTreeMap;
use std::test::Fail;

/// Its nodes, one a line: `d` directory, `f` file, `l` link, the path, and the content or the target.
const NODES: &str = r"d / -
d /a -
d /a/b -
f /a/b/f one
l /a/rel b
l /a/up ../c/g
l /abs /a/b
d /c -
f /c/g two
l /dangling nowhere/q
l /deep /abs/f
l /l1 l2
l /l10 l11
l /l11 l12
l /l12 l13
l /l13 l14
l /l14 l15
l /l15 l16
l /l16 l17
l /l17 l18
l /l18 l19
l /l19 l20
l /l2 l3
l /l20 l21
l /l21 l22
l /l22 l23
l /l23 l24
l /l24 l25
l /l25 l26
l /l26 l27
l /l27 l28
l /l28 l29
l /l29 l30
l /l3 l4
l /l30 l31
l /l31 l32
l /l32 l33
l /l33 l34
l /l34 l35
l /l35 l36
l /l36 l37
l /l37 l38
l /l38 l39
l /l39 l40
l /l4 l5
l /l40 l41
l /l41 l1
l /l5 l6
l /l6 l7
l /l7 l8
l /l8 l9
l /l9 l10
l /m0 m1
l /m1 m2
l /m10 m11
l /m11 m12
l /m12 m13
l /m13 m14
l /m14 m15
l /m15 m16
l /m16 m17
l /m17 m18
l /m18 m19
l /m19 m20
l /m2 m3
l /m20 m21
l /m21 m22
l /m22 m23
l /m23 m24
l /m24 m25
l /m25 m26
l /m26 m27
l /m27 m28
l /m28 m29
l /m29 m30
l /m3 m4
l /m30 m31
l /m31 m32
l /m32 m33
l /m33 m34
l /m34 m35
l /m35 m36
l /m36 m37
l /m37 m38
l /m38 m39
l /m39 m40
l /m4 m5
l /m40 c/g
l /m5 m6
l /m6 m7
l /m7 m8
l /m8 m9
l /m9 m10
d /prefix -
d /prefix/disk-C -
l /prefix/disk-C/lnk s
l /prefix/disk-C/out /a/b
d /prefix/disk-C/s -
f /prefix/disk-C/s/k.c int
l /prefix/disk-D disk-C
l /root /
l /self self
l /x y
l /y x
";

fn node(alloc: Global, kind: &str, more: &str) -> Result<Node, Fail> {
    if kind == "d" {
        return Ok(Node::Dir);
    }
    if kind == "f" {
        return Ok(Node::File(Bytes::from_slice(alloc, more.as_bytes())?));
    }
    Ok(Node::Link(Text::of(alloc, more)?))
}

fn put(alloc: Global, nodes: &mut BTreeMap<String, Node>, line: &str) -> Result<(), Fail> {
    let (kind, rest) = line.split_once(' ').ok_or("no kind")?;
    let (path, more) = rest.split_once(' ').ok_or("no path")?;
    let node = node(alloc, kind, more)?;
    nodes.insert(String::from_str(alloc, path)?, node)?;
    Ok(())
}

/// A tree of nodes, one a line.
pub fn tree_of(
    alloc: Global,
    lines: &str,
    fails: Vec<u64>,
    misnames: Vec<Text>,
) -> Result<MemTree, Fail> {
    let mut nodes = BTreeMap::new(alloc);
    for line in lines.lines() {
        put(alloc, &mut nodes, line)?;
    }
    Ok(MemTree::new(alloc, nodes, fails, misnames))
}

/// The tree of the rows, with the calls that are to fail and the names that are not UTF-8.
pub fn tree(alloc: Global, fails: Vec<u64>, misnames: Vec<Text>) -> Result<MemTree, Fail> {
    tree_of(alloc, NODES, fails, misnames)
}
