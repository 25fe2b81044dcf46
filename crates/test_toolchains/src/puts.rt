//! What the calls on a client's toolchains tell, in words.
use crate::fault::Fault;
use crate::words::{cut, hex_of, packager, said, toolchain};
use disk_cache::folder::Folder;
use disk_cache::{ClientToolchains, ToolchainError};
use dist_types::toolchain::Toolchain;
use std::alloc::Global;

/// Why a call refused, by name.
pub(crate) fn refused(alloc: Global, refusal: ToolchainError) -> Result<String, Fault> {
    Ok(format!(in alloc; "{refusal:?}")?)
}

/// A toolchain, the compiler's path in its archive, and the archive's name.
fn custom_told(
    alloc: Global,
    tc: &Toolchain,
    inside: &str,
    archive: &str,
) -> Result<String, Fault> {
    let id = tc.archive_id();
    Ok(format!(in alloc; "{id} {inside} {archive}")?)
}

/// What is told of a toolchain that was put.
fn placed(
    alloc: Global,
    tc: &Toolchain,
    beside: Option<(String, String)>,
) -> Result<String, Fault> {
    match beside {
        Some((inside, archive)) => custom_told(alloc, tc, inside.as_str(), archive.as_str()),
        None => said(alloc, tc.archive_id()),
    }
}

/// Puts the toolchain of a compiler under a weak key, with a packager.
pub(crate) fn put<F: Folder>(
    alloc: Global,
    toolchains: &mut ClientToolchains<F>,
    rest: &str,
) -> Result<String, Fault> {
    let (compiler, rest) = cut(rest);
    let (key, packed) = cut(rest);
    let mut packager = packager(alloc, packed)?;
    match toolchains.put_toolchain(compiler, key, &mut packager) {
        Ok((tc, beside)) => placed(alloc, &tc, beside),
        Err(refusal) => refused(alloc, refusal),
    }
}

/// What is told of the archive that is configured for a compiler.
pub(crate) fn custom<F: Folder>(
    alloc: Global,
    toolchains: &mut ClientToolchains<F>,
    compiler: &str,
) -> Result<String, Fault> {
    match toolchains.get_custom_toolchain(compiler) {
        Some(Ok((tc, inside, archive))) => {
            custom_told(alloc, &tc, inside.as_str(), archive.as_str())
        }
        Some(Err(refusal)) => refused(alloc, refusal),
        None => said(alloc, "none"),
    }
}

/// The archive of an id, in hex.
pub(crate) fn get<F: Folder>(
    alloc: Global,
    toolchains: &mut ClientToolchains<F>,
    id: &str,
) -> Result<String, Fault> {
    let tc = toolchain(id)?;
    match toolchains.get_toolchain(&tc) {
        Ok(Some(bytes)) => hex_of(alloc, &bytes),
        Ok(None) => said(alloc, "none"),
        Err(refusal) => refused(alloc, refusal),
    }
}

/// Takes a step about toolchains that are open.
pub(crate) fn take<F: Folder>(
    alloc: Global,
    toolchains: &mut ClientToolchains<F>,
    name: &str,
    rest: &str,
) -> Result<String, Fault> {
    match name {
        "put" => put(alloc, toolchains, rest),
        "custom" => custom(alloc, toolchains, rest),
        "get" => get(alloc, toolchains, rest),
        _ => Err(Fault::BadStep),
    }
}
