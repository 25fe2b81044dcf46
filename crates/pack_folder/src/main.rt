//! The program `pack_folder DIR`: it writes the files below a directory to standard output, as a framed list.
#![tactic(auto)]

use dist_types::sink::{Sink, StdSink};
use path_pkg::fault::PackError;
use path_pkg::package::ToolchainPackageBuilder;
use path_pkg::real_tree::RealTree;
use path_pkg::tree::Tree;
use std::alloc::Global;
use std::process::ExitCode;
use std::{env, io};

fn pack<T: Tree, W: Sink>(
    alloc: Global,
    tree: &mut T,
    dir: &str,
    out: &mut W,
) -> Result<(), PackError> {
    let mut builder = ToolchainPackageBuilder::new(alloc);
    builder.add_dir_contents(tree, dir)?;
    builder.into_framed_list(tree, out)
}

fn main(rt: HostRuntime) -> io::Result<ExitCode> {
    let words: Vec<String> = env::args(&rt)?.collect(rt.alloc())?;
    let Some(dir) = words.get(1) else {
        eprintln!(rt; "pack_folder: no directory")?;
        return Ok(ExitCode::from(2));
    };
    let mut tree = RealTree::new(&rt);
    let mut out = StdSink::new(rt.stdout());
    match pack(rt.alloc(), &mut tree, dir.as_str(), &mut out) {
        Ok(()) => Ok(ExitCode::from(0)),
        Err(fault) => {
            eprintln!(rt; "pack_folder: {fault}")?;
            Ok(ExitCode::from(1))
        }
    }
}
