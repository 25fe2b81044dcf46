//! Paths made simple over one tree, with links that are relative, absolute, in parents and in cycles of one,
//! two and forty-one. A row is the path, what it is without recording, what it is with it, and the links that
//! are then recorded.
use crate::trees::tree;
use path_pkg::fault::PackError;
use path_pkg::mem_tree::MemTree;
use path_pkg::recorded::SimplifyPath;
use path_pkg::simplify::simplify_path;
use path_pkg::windows::PathTransformer;
use std::alloc::Global;
use std::collections::BTreeMap;
use std::process::Abort;
use std::test::Fail;

const UNIX: &str = r"/|/|/|
/a/b/f|/a/b/f|/a/b/f|
/a//b/./f|/a/b/f|/a/b/f|
/a/b/../b/f|/a/b/f|/a/b/f|
/../../a|/a|/a|
/a/rel/f|/a/rel/f|/a/b/f|/a/rel=/a/b
/a/rel/../b|!link in a parent path|/a/b|/a/rel=/a/b
/a/up|/a/up|/c/g|/a/up=/c/g
/a/up/..|!link in a parent path|/c|/a/up=/c/g
/abs/f|/abs/f|/a/b/f|/abs=/a/b
/abs/../c|!link in a parent path|/a/c|/abs=/a/b
/deep|/deep|/a/b/f|/abs=/a/b,/deep=/a/b/f
/dangling|/dangling|/nowhere/q|/dangling=/nowhere/q
/dangling/more|/dangling/more|/nowhere/q/more|/dangling=/nowhere/q
/root|/root|/|/root=/
/root/a/rel/f|/root/a/rel/f|/a/b/f|/a/rel=/a/b,/root=/
/self|/self|!too many links|
/x|/x|!too many links|
/l1|/l1|!too many links|
/m1|/m1|/c/g|/m1=/c/g,/m10=/c/g,/m11=/c/g,/m12=/c/g,/m13=/c/g,/m14=/c/g,/m15=/c/g,/m16=/c/g,/m17=/c/g,/m18=/c/g,/m19=/c/g,/m2=/c/g,/m20=/c/g,/m21=/c/g,/m22=/c/g,/m23=/c/g,/m24=/c/g,/m25=/c/g,/m26=/c/g,/m27=/c/g,/m28=/c/g,/m29=/c/g,/m3=/c/g,/m30=/c/g,/m31=/c/g,/m32=/c/g,/m33=/c/g,/m34=/c/g,/m35=/c/g,/m36=/c/g,/m37=/c/g,/m38=/c/g,/m39=/c/g,/m4=/c/g,/m40=/c/g,/m5=/c/g,/m6=/c/g,/m7=/c/g,/m8=/c/g,/m9=/c/g
/m0|/m0|!too many links|
a/b|a/b|a/b|
|||
./a/../..|||
../c/g|c/g|c/g|
/missing/../c/g|/c/g|/c/g|
/c/g/x|/c/g/x|/c/g/x|
";

/// The same behind a path of Windows and the text that it is sent as, which is `-` where there is none.
const WINDOWS: &str = r"C:/s/k.c|/prefix/disk-C/s/k.c|/prefix/disk-C/s/k.c|/prefix/disk-C/s/k.c|
c:\s\.\k.c|/prefix/disk-C/s/k.c|/prefix/disk-C/s/k.c|/prefix/disk-C/s/k.c|
C:\lnk\k.c|/prefix/disk-C/lnk/k.c|/prefix/disk-C/lnk/k.c|/prefix/disk-C/s/k.c|/prefix/disk-C/lnk=/prefix/disk-C/s
D:/lnk/k.c|/prefix/disk-D/lnk/k.c|/prefix/disk-D/lnk/k.c|/prefix/disk-C/s/k.c|/prefix/disk-C/lnk=/prefix/disk-C/s,/prefix/disk-D=/prefix/disk-C
D:\lnk\..\s|/prefix/disk-D/lnk/../s|/prefix/disk-D/s|/prefix/disk-C/s|/prefix/disk-C/lnk=/prefix/disk-C/s,/prefix/disk-D=/prefix/disk-C
\\?\C:\s\k.c|/prefix/disk-C/s/k.c|/prefix/disk-C/s/k.c|/prefix/disk-C/s/k.c|
\\?\C:\s\.\k.c|/prefix/disk-C/s/./k.c|/prefix/disk-C/s/k.c|/prefix/disk-C/s/k.c|
\\?\c:\s/k.c|/prefix/disk-C/s/k.c|/prefix/disk-C/s/k.c|/prefix/disk-C/s/k.c|
C:/out/f|/prefix/disk-C/out/f|/prefix/disk-C/out/f|/a/b/f|/prefix/disk-C/out=/a/b
.\a\.\b|./a/b|a/b|a/b|
a\..\..\c|a/../../c|c|c|
C:|-|||
C:a|-|||
\a|-|||
//?/X:/a|-|||
\\?\X:|-|||
\\?\X:/a|-|||
";

/// The path, or the text of the refusal behind `!`.
fn said(alloc: Global, made: Result<String, PackError>) -> Result<String, Fail> {
    match made {
        Ok(path) => Ok(path),
        Err(fault) => Ok(format!(in alloc; "!{fault}")?),
    }
}

fn put_link(out: &mut String, path: &str, target: &str) -> Result<(), Fail> {
    if !out.is_empty() {
        out.push_str(",")?;
    }
    out.push_str(path)?;
    out.push_str("=")?;
    out.push_str(target)?;
    Ok(())
}

fn links_text(alloc: Global, links: &BTreeMap<String, String>) -> Result<String, Fail> {
    let mut out = String::new(alloc);
    for (path, target) in links {
        put_link(&mut out, path.as_str(), target.as_str())?;
    }
    Ok(out)
}

fn made(
    alloc: Global,
    tree: &mut MemTree,
    path: &str,
    links: &mut BTreeMap<String, String>,
) -> Result<String, Fail> {
    let mut simplify = SimplifyPath {
        resolved_symlinks: Some(links),
    };
    said(alloc, simplify.simplify(alloc, tree, path))
}

fn is_as(
    rt: &impl Abort,
    alloc: Global,
    tree: &mut MemTree,
    path: &str,
    wanted: &str,
) -> Result<(), Fail> {
    let (plain, rest) = wanted.split_once('|').ok_or("no column")?;
    let (recorded, links) = rest.split_once('|').ok_or("no column")?;
    let got = said(alloc, simplify_path(alloc, tree, path))?;
    assert_eq!(rt; got.as_str(), plain, "{path}");
    let mut map = BTreeMap::new(alloc);
    let got = made(alloc, tree, path, &mut map)?;
    assert_eq!(rt; got.as_str(), recorded, "{path}");
    let text = links_text(alloc, &map)?;
    assert_eq!(rt; text.as_str(), links, "{path}");
    Ok(())
}

fn unix_row(rt: &impl Abort, alloc: Global, tree: &mut MemTree, row: &str) -> Result<(), Fail> {
    let (path, wanted) = row.split_once('|').ok_or("no column")?;
    is_as(rt, alloc, tree, path, wanted)
}

fn windows_row(rt: &impl Abort, alloc: Global, tree: &mut MemTree, row: &str) -> Result<(), Fail> {
    let (path, rest) = row.split_once('|').ok_or("no column")?;
    let (sent, wanted) = rest.split_once('|').ok_or("no column")?;
    let mut transformer = PathTransformer::new(alloc);
    match transformer.as_dist(path.as_bytes())? {
        Some(text) => {
            assert_eq!(rt; text.as_str(), sent, "{path}");
            is_as(rt, alloc, tree, sent, wanted)
        }
        None => {
            assert_eq!(rt; "-", sent, "{path}");
            Ok(())
        }
    }
}

#[test]
fn unix_paths_made_simple(rt: HostRuntime) -> Result<(), Fail> {
    let alloc = rt.alloc();
    let mut tree = tree(alloc, Vec::new(alloc), Vec::new(alloc))?;
    for row in UNIX.lines() {
        unix_row(&rt, alloc, &mut tree, row)?;
    }
    Ok(())
}

#[test]
fn windows_paths_made_simple(rt: HostRuntime) -> Result<(), Fail> {
    let alloc = rt.alloc();
    let mut tree = tree(alloc, Vec::new(alloc), Vec::new(alloc))?;
    for row in WINDOWS.lines() {
        windows_row(&rt, alloc, &mut tree, row)?;
    }
    Ok(())
}
