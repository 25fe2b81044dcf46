//! The builder that echoes.
ghost use Rattle.std.specs.Prelude.{◌≡◌, ◌≤◌, ◌≢◌, IfOk, IfErr, OnOk, length, map, Err, Some, None};
ghost use Rattle.sha2.specs.Sha256.{sha256};
ghost use Rattle.dist_types.specs.Cause.{Rose};
ghost use Rattle.dist_types.specs.Content.{Recorded, KeptOrRecorded};
ghost use Rattle.dist_types.specs.Builder.{Built, built_row};
ghost use Rattle.build_server.specs.Echo.{data_of, echo_of};

use dist_types::builder::{BuildFault, BuilderIncoming};
use dist_types::command::CompileCommand;
use dist_types::fault::Memory;
use dist_types::output::{OutputData, ProcessOutput};
use dist_types::results::BuildResult;
use dist_types::text::{Bytes, Items, Text};
use dist_types::toolchain::Toolchain;
use dist_types::try_clone::push;
use std::alloc::Global;

/// Builds nothing: it answers the code 0, the inputs as standard output, and for each output that is asked
/// the name's own bytes. It tells no record and never refuses.
#[derive(Debug, Drop)]
pub struct EchoBuilder {
    alloc: Global,
}

impl EchoBuilder {
    /// A builder that takes its memory here.
    pub fn new(alloc: Global) -> Self {
        EchoBuilder { alloc }
    }
}

/// The output of a name: the name's own bytes.
fn output_of(alloc: Global, name: &Text) -> Result<(Text, OutputData), Memory>
    ensures output { IfOk result (λ o. o ≡ (name.now, data_of name.now)) }
{
    let text = Text::of(alloc, name.get())?;
    let bytes = Bytes::from_slice(alloc, name.get().as_bytes())?;
    let size = bytes.get().len() as u64;
    Ok((text, OutputData(bytes, size)))
}

/// The outputs of some names.
fn outputs_of(alloc: Global, names: &[Text]) -> Result<Vec<(Text, OutputData)>, Memory>
    ensures outputs { IfOk result (λ v. v.items ≡ map (λ name. (name, data_of name)) names.now) }
{
    let mut outputs = Vec::with_capacity(alloc, names.len())?;
    for name in names {
        let output = output_of(alloc, name)?;
        push(&mut outputs, output)?;
    }
    Ok(outputs)
}

/// What is echoed. Refused for want of memory alone.
pub fn echo(alloc: Global, outputs: &[Text], inputs: &[u8]) -> Result<BuildResult, Memory>
    ensures echo { IfOk result (λ built. built ≡ echo_of outputs.now inputs.now) }
{
    let outputs = outputs_of(alloc, outputs)?;
    let stdout = Bytes::from_slice(alloc, inputs)?;
    let output = ProcessOutput {
        code: 0,
        stdout,
        stderr: Bytes::new(Vec::new(alloc)),
    };
    Ok(BuildResult {
        output,
        outputs: Items::new(outputs),
    })
}

impl BuilderIncoming for EchoBuilder {
    ghost use Rattle.std.specs.Prelude.{None};

    ghost built = { λ _. None };

    ghost refusals = { λ _. 0 };

    ghost answers = { λ _. None };

    /// What is echoed. Refused for want of memory alone.
    fn run_build(
        &mut self,
        _toolchain: &Toolchain,
        _archive: &[u8],
        _command: &CompileCommand,
        outputs: &[Text],
        inputs: &[u8],
    ) -> Result<BuildResult, BuildFault>
        ensures echoes { IfOk result (λ built. built ≡ echo_of outputs.now inputs.now) }
        ensures err { IfErr result (λ e. e ≡ BuildFault.Memory) }
        ensures cause { result ≡ Err BuildFault.Refused → Rose 0 0 }
    {
        match echo(self.alloc, outputs, inputs) {
            Ok(built) => Ok(built),
            Err(_) => Err(BuildFault::Memory),
        }
    }
}
