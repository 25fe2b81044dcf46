//! The tree of the system, over a folder that the test writes.
use dist_types::sink::MemSink;
use path_pkg::fault::TreeFault;
use path_pkg::node::Kind;
use path_pkg::package::ToolchainPackageBuilder;
use path_pkg::real_tree::RealTree;
use path_pkg::tree::Tree;
use std::alloc::Global;
use std::os::unix::fs::symlink;
use std::process::Abort;
use std::rt::Files;
use std::test::Fail;
use std::{env, fs};

fn write_folder<R: Files + AllocGlobal>(rt: &R, top: &str) -> Result<(), Fail> {
    let alloc = rt.alloc();
    fs::create_dir_all(rt, format!(in alloc; "{top}/inner")?.as_str())?;
    fs::write(rt, format!(in alloc; "{top}/inner/file")?.as_str(), "one")?;
    symlink(rt, "nowhere", format!(in alloc; "{top}/dangling")?.as_str())?;
    symlink(rt, "inner", format!(in alloc; "{top}/folder")?.as_str())?;
    symlink(rt, "inner/file", format!(in alloc; "{top}/link")?.as_str())?;
    symlink(rt, "round", format!(in alloc; "{top}/round")?.as_str())?;
    Ok(())
}

fn is_kind<T: Tree>(
    rt: &impl Abort,
    tree: &mut T,
    path: &str,
    own: Kind,
    target: Kind,
) -> Result<(), Fail> {
    assert_eq!(rt; tree.kind(path)?, own, "{path}");
    assert_eq!(rt; tree.target_kind(path)?, target, "{path}");
    Ok(())
}

fn has_kinds<R: Abort + AllocGlobal, T: Tree>(rt: &R, tree: &mut T, top: &str) -> Result<(), Fail> {
    let alloc = rt.alloc();
    is_kind(rt, tree, top, Kind::Dir, Kind::Dir)?;
    let path = format!(in alloc; "{top}/dangling")?;
    is_kind(rt, tree, path.as_str(), Kind::Link, Kind::None)?;
    let path = format!(in alloc; "{top}/folder")?;
    is_kind(rt, tree, path.as_str(), Kind::Link, Kind::Dir)?;
    let path = format!(in alloc; "{top}/link")?;
    is_kind(rt, tree, path.as_str(), Kind::Link, Kind::File)?;
    assert_eq!(rt; tree.read_link(path.as_str())?.as_str(), "inner/file");
    assert_eq!(rt; tree.read(path.as_str())?.as_slice(), b"one".as_slice());
    let path = format!(in alloc; "{top}/round")?;
    is_kind(rt, tree, path.as_str(), Kind::Link, Kind::None)?;
    assert_eq!(rt; tree.read(path.as_str()).err(), Some(TreeFault::Failed));
    let path = format!(in alloc; "{top}/inner")?;
    assert_eq!(rt;
        tree.read_link(path.as_str()).err(),
        Some(TreeFault::Failed)
    );
    Ok(())
}

/// How many bytes the paths below a directory have, without the directory's own.
fn walked_len<T: Tree>(tree: &mut T, top: &str) -> Result<usize, Fail> {
    let mut len = 0usize;
    for path in &tree.walk(top)? {
        let rest = path.strip_prefix(top).ok_or("outside")?;
        len = len.saturating_add(rest.len());
    }
    Ok(len)
}

/// How many bytes the package of a directory's contents has.
fn packed_len<T: Tree>(alloc: Global, tree: &mut T, top: &str) -> Result<usize, Fail> {
    let mut builder = ToolchainPackageBuilder::new(alloc);
    builder.add_dir_contents(tree, top)?;
    let mut out = MemSink::new(alloc, Vec::new(alloc));
    builder.into_framed_list(tree, &mut out)?;
    Ok(out.bytes().len())
}

/// A file and a link: their letters, the lengths, the packed paths, the content, the target and the end.
fn wanted_len(top: usize) -> usize {
    let own = 5 + 11 + 8 + 3 + 5 + 5 + 4 + 11 + 1;
    top.saturating_mul(3).saturating_sub(2).saturating_add(own)
}

#[test]
fn a_folder_of_the_system(rt: HostRuntime) -> Result<(), Fail> {
    let alloc = rt.alloc();
    let dir = env::temp_dir(&rt)?;
    let top = format!(in alloc; "{}/path_tests_tree", dir.as_path().as_str())?;
    let _ = fs::remove_dir_all(&rt, top.as_str());
    write_folder(&rt, top.as_str())?;
    let mut tree = RealTree::new(&rt);
    has_kinds(&rt, &mut tree, top.as_str())?;
    let walked = "/dangling/folder/inner/inner/file/link/round".len();
    assert_eq!(rt; walked_len(&mut tree, top.as_str())?, walked);
    assert_eq!(rt;
        packed_len(alloc, &mut tree, top.as_str())?,
        wanted_len(top.len())
    );
    fs::remove_dir_all(&rt, top.as_str())?;
    Ok(())
}
