//! The builders of a setup: they answer what their lines list, in order, and then echo.
//!
//! A farm that a script sets up keeps the lines of its builders in its setup and the number of their builds
//! in its stations. `FarmBuilder` is such a builder by itself.
ghost use Rattle.std.specs.Prelude.{◌≡◌, ◌≢◌, ◌≤◌, [], Err, Some, IfOk, OnOk, length, drop, map};
ghost use Rattle.std.specs.Prelude.{option_copied, slice_get};
ghost use Rattle.sha2.specs.Sha256.{sha256};
ghost use Rattle.dist_types.specs.Builder.{built_row};
ghost use Rattle.dist_types.specs.Cause.{Rose};
ghost use Rattle.dist_types.specs.Content.{Recorded, KeptOrRecorded};
ghost use Rattle.build_server.specs.Echo.{data_of};
ghost use Rattle.farm_entries.specs.Served.{listed, build_answer};
ghost use Rattle.farm_stations.specs.Lined.{answering, told_row};

use crate::build_row::{BuildRow, copy_answer, copy_names};
use crate::copies::copy_lines;
use build_server::echo::echo;
use dist_types::builder::{BuildFault, BuilderIncoming};
use dist_types::command::CompileCommand;
use dist_types::fault::Memory;
use dist_types::output::{OutputData, ProcessOutput};
use dist_types::results::BuildResult;
use dist_types::text::{Bytes, Items, Text};
use dist_types::toolchain::Toolchain;
use dist_types::try_clone::{TryClone, push};
use farm_script::setup::BuilderLine;
use sha2::{Digest, Sha256};
use std::alloc::Global;
use std::marker::Model;

/// An output that is listed.
fn listed_output(name: &Text, bytes: &Bytes) -> Result<(Text, OutputData), Memory>
    ensures { IfOk result (λ o. o ≡ (name.now, data_of bytes.now)) }
{
    let text = name.clone()?;
    let data = bytes.clone()?;
    let size = data.get().len() as u64;
    Ok((text, OutputData(data, size)))
}

/// The outputs that are listed.
fn listed_outputs(
    alloc: Global,
    outputs: &[(Text, Bytes)],
) -> Result<Vec<(Text, OutputData)>, Memory>
    ensures { IfOk result (λ v. v.items ≡ map (λ p. (p.0, data_of p.1)) outputs.now) }
{
    let mut all = Vec::with_capacity(alloc, outputs.len())?;
    for pair in outputs {
        let output = listed_output(&pair.0, &pair.1)?;
        push(&mut all, output)?;
    }
    Ok(all)
}

/// What a line lists.
fn listed(alloc: Global, line: &BuilderLine) -> Result<Result<BuildResult, BuildFault>, Memory>
    ensures ok { IfOk result (λ heard. heard ≡ listed line.now) }
{
    match line {
        BuilderLine::Listed {
            code,
            stdout,
            stderr,
            outputs,
        } => {
            let stdout = stdout.clone()?;
            let stderr = stderr.clone()?;
            let outputs = listed_outputs(alloc, outputs.get())?;
            Ok(Ok(BuildResult {
                output: ProcessOutput {
                    code: *code,
                    stdout,
                    stderr,
                },
                outputs: Items::new(outputs),
            }))
        }
        BuilderLine::Refuse => Ok(Err(BuildFault::Refused)),
    }
}

/// The answer of a builder of which that line is due, or which has answered all its lines. Refused for want
/// of memory alone.
pub fn build_answer(
    alloc: Global,
    line: Option<&BuilderLine>,
    outputs: &[Text],
    inputs: &[u8],
) -> Result<Result<BuildResult, BuildFault>, Memory>
    ensures ok { IfOk result
        (λ heard. heard ≡ build_answer (option_copied line.entry) outputs.now inputs.now) }
{
    match line {
        None => {
            let built = echo(alloc, outputs, inputs)?;
            Ok(Ok(built))
        }
        Some(line) => {
            let heard = listed(alloc, line)?;
            Ok(heard)
        }
    }
}

/// A builder that answers what its lines list, in order, and then echoes. It tells its whole record. Contracts
/// see its lines, its record, and how often it refused.
#[derive(Debug, Drop)]
pub struct FarmBuilder {
    alloc: Global,
    lines: Items<BuilderLine>,
    rows: Vec<BuildRow>,
    refusals: u64,
}

impl Model for FarmBuilder {
    ghost use Rattle.std.specs.Prelude.{map};
    ghost use Rattle.farm_stations.specs.Lined.{Lined, told_row};

    ghost Value = { Lined };

    ghost view = { λ b. record {
      lines = b.lines;
      rows = map told_row b.rows.items;
      refusals = b.refusals;
    } };
}

impl FarmBuilder {
    /// A builder of those lines, which has answered none. Refused for want of memory alone.
    pub fn of(alloc: Global, lines: &[BuilderLine]) -> Result<Self, Memory>
        ensures of { IfOk result (λ b. b ≡ record { lines = lines.now; rows = []; refusals = 0 }) }
    {
        let lines = copy_lines(alloc, lines)?;
        Ok(FarmBuilder {
            alloc,
            lines: Items::new(lines),
            rows: Vec::new(alloc),
            refusals: 0,
        })
    }

    /// Its record, oldest first.
    pub fn rows(&self) -> &[BuildRow]
        ensures rows { map told_row result.now ≡ self.now.rows }
    {
        &self.rows
    }

    /// The line that is due; none where all are answered.
    fn due(&self) -> Option<&BuilderLine>
        ensures { option_copied result ≡ slice_get self.now.lines (length self.now.rows) }
    {
        self.lines.get().get(self.rows.len())
    }

    /// The lines that it has not answered yet.
    pub fn lines_left(&self) -> &[BuilderLine]
        ensures left { result.now ≡ drop (length self.now.rows) self.now.lines }
    {
        match self.lines.get().get(self.rows.len()..) {
            Some(left) => left,
            None => &[],
        }
    }
}

impl BuilderIncoming for FarmBuilder {
    ghost built = { λ b. Some b.rows };

    ghost refusals = { λ b. b.refusals };

    ghost answers = { λ b. Some (answering b.lines) };

    /// What the line lists that is due; where all are answered, the echo. Refused where the line says so, and
    /// for want of memory, which changes nothing.
    fn run_build(
        &mut self,
        toolchain: &Toolchain,
        archive: &[u8],
        command: &CompileCommand,
        outputs: &[Text],
        inputs: &[u8],
    ) -> Result<BuildResult, BuildFault>
        ensures answers { result ≢ Err BuildFault.Memory
            → result ≡ answering self.old.lines (length self.old.rows) outputs.now inputs.now }
        ensures row { result ≢ Err BuildFault.Memory
            → Recorded (built_row toolchain.now (sha256 archive.now)
            command.now outputs.now inputs.now result) (Some self.old.rows) (Some self.new.rows) }
        ensures memory { result ≡ Err BuildFault.Memory
            → KeptOrRecorded (built_row toolchain.now (sha256 archive.now)
            command.now outputs.now inputs.now result) (Some self.old.rows) (Some self.new.rows) }
        ensures lines { self.new.lines ≡ self.old.lines }
        ensures same { result ≡ Err BuildFault.Memory → self.new ≡ self.old }
        ensures steady { OnOk result (self.new.refusals ≡ self.old.refusals) }
        ensures uncounted { result ≡ Err BuildFault.Memory → self.new.refusals ≡ self.old.refusals }
        ensures later { self.old.refusals ≤ self.new.refusals }
        ensures cause { result ≡ Err BuildFault.Refused → Rose self.old.refusals self.new.refusals }
    {
        let answer = build_answer(self.alloc, self.due(), outputs, inputs)?;
        let refused = match &answer {
            Ok(_) => 0,
            Err(BuildFault::Refused) => 1,
            Err(BuildFault::Memory) => return Err(BuildFault::Memory),
        };
        let row = BuildRow {
            toolchain: *toolchain,
            digest: Sha256::digest(archive),
            command: command.clone()?,
            outputs: copy_names(self.alloc, outputs)?,
            inputs: Bytes::from_slice(self.alloc, inputs)?,
            answer: copy_answer(&answer)?,
        };
        self.rows.reserve(1)?;
        self.rows.push_reserved(row);
        self.refusals = self.refusals.saturating_add(refused);
        answer
    }
}
