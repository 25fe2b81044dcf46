//! What a line says is to be done.
use crate::bench::Bench;
use crate::fault::Fault;
use crate::files;
use crate::sweep::sweep;
use crate::words::{cut, said};
use disk_cache::folder::Folder;
use std::alloc::Global;

/// Takes a step about single files of a folder.
fn take_file<F: Folder + Drop>(
    alloc: Global,
    folder: F,
    name: &str,
    rest: &str,
) -> Result<String, Fault> {
    let mut folder = folder;
    match name {
        "write" => files::write(alloc, &mut folder, rest),
        "read" => files::read(alloc, &mut folder, rest),
        _ => files::remove(alloc, &mut folder, rest),
    }
}

/// Takes a step of that name, which is about toolchains.
fn take_named<F: Folder + Drop>(
    alloc: Global,
    bench: &mut Bench<F>,
    folder: F,
    name: &str,
    rest: &str,
) -> Result<String, Fault> {
    match name {
        "config" => bench.config(alloc, rest),
        "open" => bench.open(alloc, folder, rest),
        "sweep" => sweep(alloc, rest == "behind"),
        _ => bench.call(alloc, name, rest),
    }
}

/// Takes the step of a line over a folder. Answers what came of it.
pub(crate) fn take<F: Folder + Drop>(
    alloc: Global,
    bench: &mut Bench<F>,
    folder: F,
    line: &str,
) -> Result<String, Fault> {
    let (name, rest) = cut(line);
    match name {
        "#" => said(alloc, line),
        "write" | "read" | "remove" => take_file(alloc, folder, name, rest),
        _ => take_named(alloc, bench, folder, name, rest),
    }
}
