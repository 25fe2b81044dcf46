//! The rows of a builder's record.
ghost use Rattle.std.specs.Prelude.{◌≡◌, IfOk};

use dist_types::builder::BuildFault;
use dist_types::command::CompileCommand;
use dist_types::fault::Memory;
use dist_types::results::BuildResult;
use dist_types::text::{Bytes, Items, Text};
use dist_types::toolchain::Toolchain;
use dist_types::try_clone::{TryClone, push};
use std::alloc::Global;

/// One build: what was asked, and what it gave.
#[derive(Debug, Drop)]
pub struct BuildRow {
    /// The toolchain's id.
    pub toolchain: Toolchain,
    /// The SHA-256 of the archive that it ran in.
    pub digest: [u8; 32],
    /// The command.
    pub command: CompileCommand,
    /// The names of the outputs that were asked for.
    pub outputs: Items<Text>,
    /// The inputs.
    pub inputs: Bytes,
    /// What it gave.
    pub answer: Result<BuildResult, BuildFault>,
}

/// Copies of some names. Refused for want of memory alone.
pub(crate) fn copy_names(alloc: Global, names: &[Text]) -> Result<Items<Text>, Memory>
    ensures { IfOk result (λ copies. copies ≡ names.now) }
{
    let mut copies = Vec::with_capacity(alloc, names.len())?;
    for name in names {
        let copy = name.clone()?;
        push(&mut copies, copy)?;
    }
    Ok(Items::new(copies))
}

/// A copy of what a build gave. Refused for want of memory alone.
pub fn copy_result(built: &BuildResult) -> Result<BuildResult, Memory>
    ensures { IfOk result (λ copy. copy ≡ built.now) }
{
    let output = built.output.clone()?;
    let outputs = built.outputs.clone()?;
    Ok(BuildResult { output, outputs })
}

/// A copy of an answer. Refused for want of memory alone.
pub(crate) fn copy_answer(
    answer: &Result<BuildResult, BuildFault>,
) -> Result<Result<BuildResult, BuildFault>, Memory>
    ensures { IfOk result (λ copy. copy ≡ answer.now) }
{
    match answer {
        Ok(built) => {
            let copy = copy_result(built)?;
            Ok(Ok(copy))
        }
        Err(fault) => Ok(Err(*fault)),
    }
}
