//! What is configured for compilers, and the verdict on it.
ghost use Rattle.std.specs.Prelude.{◌≡◌, IfOk, Some};
ghost use Rattle.std.specs.Option.{option_map};
ghost use Rattle.disk_cache.specs.Configs.{compiler_of, config_of, says_no_dist, clash, beside};
ghost use Rattle.disk_cache.specs.Configs.{config_verdict, IsChoice};

use crate::toolchain_error::ToolchainError;
use dist_types::fault::Memory;
use dist_types::text::Text;
use dist_types::try_clone::{TryClone, push};
use std::alloc::Global;

/// An archive that is configured for a compiler.
#[derive(Debug, Drop)]
pub struct CustomToolchain {
    /// Its name, in the folder.
    pub archive: Text,
    /// The compiler's path in it.
    pub compiler_executable: Text,
}

impl TryClone for CustomToolchain {
    fn clone(&self) -> Result<Self, Memory> {
        let archive = self.archive.clone()?;
        let compiler_executable = self.compiler_executable.clone()?;
        Ok(CustomToolchain {
            archive,
            compiler_executable,
        })
    }
}

/// What is configured for the compiler of a path.
#[derive(Debug, Drop)]
pub enum DistToolchainConfig {
    /// An archive is its toolchain.
    PathOverride {
        /// The compiler's path.
        compiler_executable: Text,
        /// The archive's name, in the folder.
        archive: Text,
        /// The compiler's path in the archive.
        archive_compiler_executable: Text,
    },
    /// It has no toolchain.
    NoDist {
        /// The compiler's path.
        compiler_executable: Text,
    },
}

impl TryClone for DistToolchainConfig {
    fn clone(&self) -> Result<Self, Memory> {
        match self {
            DistToolchainConfig::PathOverride {
                compiler_executable,
                archive,
                archive_compiler_executable,
            } => {
                let compiler_executable = compiler_executable.clone()?;
                let archive = archive.clone()?;
                let archive_compiler_executable = archive_compiler_executable.clone()?;
                Ok(DistToolchainConfig::PathOverride {
                    compiler_executable,
                    archive,
                    archive_compiler_executable,
                })
            }
            DistToolchainConfig::NoDist {
                compiler_executable,
            } => {
                let compiler_executable = compiler_executable.clone()?;
                Ok(DistToolchainConfig::NoDist {
                    compiler_executable,
                })
            }
        }
    }
}

/// The compiler that it is of.
fn compiler_of(config: &DistToolchainConfig) -> &str
    ensures { result.now ≡ compiler_of config.now }
{
    match config {
        DistToolchainConfig::PathOverride {
            compiler_executable,
            archive: _archive,
            archive_compiler_executable: _inside,
        } => compiler_executable.get(),
        DistToolchainConfig::NoDist {
            compiler_executable,
        } => compiler_executable.get(),
    }
}

/// The first that is of a compiler.
pub(crate) fn config_of<'a>(
    path: &str,
    configs: &'a [DistToolchainConfig],
) -> Option<&'a DistToolchainConfig>
    ensures { option_map (λ c. c.now) result ≡ config_of path.now configs.now }
{
    for config in configs {
        if path == compiler_of(config) {
            return Some(config);
        }
    }
    None
}

/// Whether it says that no archive is wanted.
fn says_no_dist(config: &DistToolchainConfig) -> bool
    ensures { result ≡ says_no_dist config.now }
{
    match config {
        DistToolchainConfig::PathOverride {
            compiler_executable: _path,
            archive: _archive,
            archive_compiler_executable: _inside,
        } => false,
        DistToolchainConfig::NoDist {
            compiler_executable: _path,
        } => true,
    }
}

/// Why two of one compiler cannot stand beside each other.
fn clash(earlier: &DistToolchainConfig, config: &DistToolchainConfig) -> ToolchainError
    ensures { result ≡ clash earlier.now config.now }
{
    if says_no_dist(earlier) {
        if says_no_dist(config) {
            ToolchainError::DuplicateConfig
        } else {
            ToolchainError::ConflictConfig
        }
    } else {
        if says_no_dist(config) {
            ToolchainError::ConflictConfig
        } else {
            ToolchainError::DuplicateConfig
        }
    }
}

/// Whether one can stand behind those before it.
fn beside(
    before: &[DistToolchainConfig],
    config: &DistToolchainConfig,
) -> Result<(), ToolchainError>
    ensures { result ≡ beside (config_of (compiler_of config.now) before.now) config.now }
{
    match config_of(compiler_of(config), before) {
        None => Ok(()),
        Some(earlier) => Err(clash(earlier, config)),
    }
}

/// The verdict on what is configured: DuplicateConfig where a compiler is configured twice in the same way,
/// ConflictConfig where it is configured both ways, in the order of the list. It takes no memory.
pub(crate) fn judge(configs: &[DistToolchainConfig]) -> Result<(), ToolchainError>
    ensures { result ≡ config_verdict configs.now }
{
    for (i, config) in configs.iter().enumerate() {
        match beside(&configs[..i], config) {
            Ok(()) => {}
            Err(e) => return Err(e),
        }
    }
    Ok(())
}

/// A copy of what is configured. Refused for want of memory alone.
pub(crate) fn copy_all(
    alloc: Global,
    configs: &[DistToolchainConfig],
) -> Result<Vec<DistToolchainConfig>, Memory>
    ensures { IfOk result (λ v. v.items ≡ configs.now) }
{
    let mut copies = Vec::with_capacity(alloc, configs.len())?;
    for config in configs {
        let copy = config.clone()?;
        push(&mut copies, copy)?;
    }
    Ok(copies)
}

/// What is configured for a compiler: nothing, no toolchain, or an archive, where memory did not run out.
#[derive(Debug, Drop)]
pub(crate) enum Choice {
    Nothing,
    Disabled,
    Archive(Result<CustomToolchain, Memory>),
}

/// A copy of an archive that is configured.
fn custom_copy(archive: &Text, inside: &Text) -> Result<CustomToolchain, Memory>
    ensures { IfOk result (λ c. c ≡ record { archive = archive.now; compiler_executable = inside.now }) }
{
    let archive = archive.clone()?;
    let compiler_executable = inside.clone()?;
    Ok(CustomToolchain {
        archive,
        compiler_executable,
    })
}

/// What is configured for a compiler.
pub(crate) fn choice_of(path: &str, configs: &[DistToolchainConfig]) -> Choice
    ensures { IsChoice (config_of path.now configs.now) result }
{
    match config_of(path, configs) {
        None => Choice::Nothing,
        Some(config) => chosen(config),
    }
}

/// What one says.
fn chosen(config: &DistToolchainConfig) -> Choice
    ensures { IsChoice (Some config.now) result }
{
    match config {
        DistToolchainConfig::PathOverride {
            compiler_executable: _path,
            archive,
            archive_compiler_executable,
        } => Choice::Archive(custom_copy(archive, archive_compiler_executable)),
        DistToolchainConfig::NoDist {
            compiler_executable: _path,
        } => Choice::Disabled,
    }
}
