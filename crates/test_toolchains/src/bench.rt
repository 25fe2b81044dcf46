//! What the steps work on.
use crate::fault::Fault;
use crate::puts::{refused, take};
use crate::words::{cut, said};
use disk_cache::folder::Folder;
use disk_cache::{ClientToolchains, DistToolchainConfig};
use dist_types::text::Text;
use std::alloc::Global;

/// The most bytes of all archives.
const CAPACITY: u64 = 1000;

/// What the steps work on.
#[derive(Drop)]
pub(crate) struct Bench<F: Folder> {
    /// What the next opening is configured with.
    configs: Vec<DistToolchainConfig>,
    /// The toolchains, where they are open.
    toolchains: Option<ClientToolchains<F>>,
}

/// A compiler that is configured to have no toolchain.
fn no_dist(alloc: Global, compiler: &str) -> Result<DistToolchainConfig, Fault> {
    let compiler_executable = Text::of(alloc, compiler)?;
    Ok(DistToolchainConfig::NoDist {
        compiler_executable,
    })
}

/// A compiler for which an archive is configured, and the compiler's path in it.
fn path_override(
    alloc: Global,
    compiler: &str,
    archive: &str,
    inside: &str,
) -> Result<DistToolchainConfig, Fault> {
    let compiler_executable = Text::of(alloc, compiler)?;
    let archive = Text::of(alloc, archive)?;
    let archive_compiler_executable = Text::of(alloc, inside)?;
    Ok(DistToolchainConfig::PathOverride {
        compiler_executable,
        archive,
        archive_compiler_executable,
    })
}

/// What is configured for a compiler: an archive and the compiler's path in it, or, where no archive is
/// named, none.
fn configured(alloc: Global, rest: &str) -> Result<DistToolchainConfig, Fault> {
    let (compiler, rest) = cut(rest);
    let (archive, inside) = cut(rest);
    if archive.is_empty() {
        return no_dist(alloc, compiler);
    }
    path_override(alloc, compiler, archive, inside)
}

impl<F: Folder + Drop> Bench<F> {
    /// Nothing configured, and nothing open.
    pub(crate) fn new(alloc: Global) -> Self {
        Bench {
            configs: Vec::new(alloc),
            toolchains: None,
        }
    }

    /// Configures a compiler for the next opening.
    pub(crate) fn config(&mut self, alloc: Global, rest: &str) -> Result<String, Fault> {
        let config = configured(alloc, rest)?;
        self.configs.push(config)?;
        said(alloc, "configured")
    }

    /// Opens the toolchains below a path of the folder, in place of those that are open.
    pub(crate) fn open(&mut self, alloc: Global, folder: F, dir: &str) -> Result<String, Fault> {
        let opened = ClientToolchains::new(alloc, folder, dir, CAPACITY, &self.configs);
        self.configs = Vec::new(alloc);
        match opened {
            Ok(toolchains) => {
                self.toolchains = Some(toolchains);
                said(alloc, "opened")
            }
            Err(refusal) => refused(alloc, refusal),
        }
    }

    /// Takes a step about the toolchains that are open.
    pub(crate) fn call(&mut self, alloc: Global, name: &str, rest: &str) -> Result<String, Fault> {
        match &mut self.toolchains {
            Some(toolchains) => take(alloc, toolchains, name, rest),
            None => Err(Fault::BadStep),
        }
    }
}
