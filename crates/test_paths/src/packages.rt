//! Packages over the tree of the rows, and what is refused.
use crate::trees::{tree, tree_of};
use dist_types::sink::MemSink;
use dist_types::text::Text;
use path_pkg::fault::PackError;
use path_pkg::mem_tree::MemTree;
use path_pkg::package::ToolchainPackageBuilder;
use std::alloc::Global;
use std::process::Abort;
use std::test::Fail;

/// The directory at a link, a file behind two links, and the contents of a directory.
const LIST: &str =
    "4400000003612f624600000005612f622f6600000000000000036f6e654600000003632f67000000000000000374776f4c00000004612f7570000000042f632f674c00000003616273000000042f612f624c0000000464656570000000062f612f622f6645";

fn is_list(
    rt: &impl Abort,
    alloc: Global,
    builder: ToolchainPackageBuilder,
    tree: &mut MemTree,
    wanted: &str,
) -> Result<(), Fail> {
    let mut out = MemSink::new(alloc, Vec::new(alloc));
    builder.into_framed_list(tree, &mut out)?;
    let text = hex::encode(alloc, out.bytes())?;
    assert_eq!(rt; text.as_str(), wanted);
    Ok(())
}

#[test]
fn common_directory(rt: HostRuntime) -> Result<(), Fail> {
    let alloc = rt.alloc();
    let mut tree = tree_of(alloc, "d /tmp -\n", Vec::new(alloc), Vec::new(alloc))?;
    let mut builder = ToolchainPackageBuilder::new(alloc);
    builder.add_common(&mut tree)?;
    is_list(&rt, alloc, builder, &mut tree, "4400000003746d7045")
}

#[test]
fn directories_files_and_links(rt: HostRuntime) -> Result<(), Fail> {
    let alloc = rt.alloc();
    let mut tree = tree(alloc, Vec::new(alloc), Vec::new(alloc))?;
    let mut builder = ToolchainPackageBuilder::new(alloc);
    builder.add_dir_contents(&mut tree, "/a")?;
    builder.add_file(&mut tree, "/deep")?;
    builder.add_dir(&mut tree, "/abs")?;
    builder.add_dir(&mut tree, "/../a/./b/")?;
    builder.add_dir(&mut tree, "/")?;
    is_list(&rt, alloc, builder, &mut tree, LIST)
}

#[test]
fn a_way_to_no_file_adds_nothing(rt: HostRuntime) -> Result<(), Fail> {
    let alloc = rt.alloc();
    let nodes = "d /empty -\nd /empty/more -\nl /way empty\n";
    let mut tree = tree_of(alloc, nodes, Vec::new(alloc), Vec::new(alloc))?;
    let mut builder = ToolchainPackageBuilder::new(alloc);
    builder.add_dir_contents(&mut tree, "/way")?;
    is_list(&rt, alloc, builder, &mut tree, "45")
}

/// A file, and the link on the way to its directory.
const ON_ITS_WAY: &str =
    "4600000006642f66696c6500000000000000036f6e654c00000003776179000000022f6445";

#[test]
fn the_way_to_a_file_is_added_with_it(rt: HostRuntime) -> Result<(), Fail> {
    let alloc = rt.alloc();
    let nodes = "d /d -\nf /d/file one\nl /way d\n";
    let mut tree = tree_of(alloc, nodes, Vec::new(alloc), Vec::new(alloc))?;
    let mut builder = ToolchainPackageBuilder::new(alloc);
    builder.add_dir_contents(&mut tree, "/way")?;
    is_list(&rt, alloc, builder, &mut tree, ON_ITS_WAY)
}

#[test]
fn a_file_that_is_gone_is_not_packed(rt: HostRuntime) -> Result<(), Fail> {
    let alloc = rt.alloc();
    let mut tree = tree(alloc, Vec::new(alloc), Vec::new(alloc))?;
    let mut builder = ToolchainPackageBuilder::new(alloc);
    builder.add_dir(&mut tree, "/a/b")?;
    builder.add_file(&mut tree, "/a/b/f")?;
    builder.add_file(&mut tree, "/c/g")?;
    let mut without = tree_of(
        alloc,
        "d /a/b -\nf /c/g two\n",
        Vec::new(alloc),
        Vec::new(alloc),
    )?;
    let mut out = MemSink::new(alloc, Vec::new(alloc));
    let got = builder.into_framed_list(&mut without, &mut out);
    assert_eq!(rt; got, Err(PackError::TreeFault));
    assert_eq!(rt; out.bytes(), b"D\x00\x00\x00\x03a/b".as_slice());
    Ok(())
}

/// What is asked, of which path, and the refusal.
const REFUSED: &str = "dir a|path is not absolute
file |path is not absolute
contents a|path is not absolute
dir /c/g|not a directory
dir /self|not a directory
contents /deep|not a directory
file /abs|not a file
file /m0|not a file
file /l1|not a file
dir /tmp|not a directory";

fn asks(
    builder: &mut ToolchainPackageBuilder,
    tree: &mut MemTree,
    what: &str,
    path: &str,
) -> Result<(), PackError> {
    if what == "dir" {
        return builder.add_dir(tree, path);
    }
    if what == "file" {
        return builder.add_file(tree, path);
    }
    builder.add_dir_contents(tree, path)
}

fn is_refused(
    rt: &impl Abort,
    alloc: Global,
    builder: &mut ToolchainPackageBuilder,
    tree: &mut MemTree,
    row: &str,
) -> Result<(), Fail> {
    let (asked, wanted) = row.split_once('|').ok_or("no column")?;
    let (what, path) = asked.split_once(' ').ok_or("no path")?;
    let fault = asks(builder, tree, what, path).err().ok_or("taken")?;
    let text = fault.to_string(alloc)?;
    assert_eq!(rt; text.as_str(), wanted, "{row}");
    Ok(())
}

#[test]
fn what_is_refused_adds_nothing(rt: HostRuntime) -> Result<(), Fail> {
    let alloc = rt.alloc();
    let mut tree = tree(alloc, Vec::new(alloc), Vec::new(alloc))?;
    let mut builder = ToolchainPackageBuilder::new(alloc);
    for row in REFUSED.lines() {
        is_refused(&rt, alloc, &mut builder, &mut tree, row)?;
    }
    is_list(&rt, alloc, builder, &mut tree, "45")
}

fn adds(
    alloc: Global,
    fails: Vec<u64>,
    misnames: Vec<Text>,
) -> Result<Result<(), PackError>, Fail> {
    let mut tree = tree(alloc, fails, misnames)?;
    let mut builder = ToolchainPackageBuilder::new(alloc);
    Ok(builder.add_dir_contents(&mut tree, "/a"))
}

#[test]
fn calls_that_fail_and_names_that_are_no_text(rt: HostRuntime) -> Result<(), Fail> {
    let alloc = rt.alloc();
    for call in 0..9u64 {
        let got = adds(alloc, vec![in alloc; call]?, Vec::new(alloc))?;
        assert_eq!(rt; got, Err(PackError::TreeFault), "call {call}");
    }
    let bad = vec![in alloc; Text::of(alloc, "/a/b/bad")?]?;
    assert_eq!(rt; adds(alloc, Vec::new(alloc), bad)?, Err(PackError::NotUtf8));
    let bad = vec![in alloc; Text::of(alloc, "/x")?]?;
    assert_eq!(rt; adds(alloc, Vec::new(alloc), bad)?, Ok(()));
    Ok(())
}

#[test]
fn a_front_is_written_before_a_fault(rt: HostRuntime) -> Result<(), Fail> {
    let alloc = rt.alloc();
    let mut tree = tree(alloc, Vec::new(alloc), Vec::new(alloc))?;
    let mut builder = ToolchainPackageBuilder::new(alloc);
    builder.add_dir(&mut tree, "/a/b")?;
    builder.add_file(&mut tree, "/c/g")?;
    let mut out = MemSink::new(alloc, vec![in alloc; 1]?);
    let got = builder.into_framed_list(&mut tree, &mut out);
    assert_eq!(rt; got, Err(PackError::SinkFault));
    assert_eq!(rt; out.bytes(), b"D\x00\x00\x00\x03a/b".as_slice());
    Ok(())
}

/// A tree with one file in its root, whose name has so many letters.
fn long_tree(alloc: Global, len: u32) -> Result<(MemTree, String), Fail> {
    let mut path = String::from_str(alloc, "/")?;
    for _ in 0..len {
        path.push('x')?;
    }
    let line = format!(in alloc; "f {path} -\n")?;
    let tree = tree_of(alloc, line.as_str(), Vec::new(alloc), Vec::new(alloc))?;
    Ok((tree, path))
}

#[test]
fn the_longest_path(rt: HostRuntime) -> Result<(), Fail> {
    let alloc = rt.alloc();
    let mut builder = ToolchainPackageBuilder::new(alloc);
    let (mut tree, path) = long_tree(alloc, 65_535)?;
    assert_eq!(rt; builder.add_file(&mut tree, path.as_str()), Ok(()));
    let (mut tree, path) = long_tree(alloc, 65_536)?;
    assert_eq!(rt;
        builder.add_file(&mut tree, path.as_str()),
        Err(PackError::PathTooLong)
    );
    Ok(())
}
