//! Scripts, read line by line.
ghost use Rattle.std.specs.Prelude.{◌≡◌, ◌≤◌, ◌⊎◌, length, IfOk, IfErr, OnOk};
ghost use Rattle.line_program.specs.Lines.{IsScriptAnswer};
ghost use Rattle.line_program.specs.Reader.{onto};
ghost use Rattle.line_program.specs.declared.fault.FarmFault.TheVariants as fault;
ghost use Rattle.mirror_script.specs.Place.{misplaced};
ghost use Rattle.mirror_script.specs.FirstFaulty.{IsFirstFaulty};
ghost use Rattle.mirror_script.specs.Spelled.{SpellsScript};
ghost use Rattle.mirror_script.specs.Script.{read_of, before, with_line, line_reader, take_line, finished, script};
ghost use Rattle.mirror_script.specs.Script.{IsShort};
ghost use Rattle.std.specs.List.{AllByRecursion};

use crate::line::{Line, Site, Step, read_line};
use dist_types::text::Items;
use line_program::fault::{FarmFault, LineFault};
use line_program::limits::{MAX_BYTES, MAX_LINES};
use line_program::pieces::{first_len, is_within, text};
use std::alloc::{AllocError, Global};

/// What a mirror's script says.
#[derive(Debug, Drop)]
pub struct Script {
    /// How many bytes the near cache takes.
    pub near: u64,
    /// How many bytes the far cache takes.
    pub far: u64,
    /// What is done, in order.
    pub steps: Items<Step>,
}

/// What was read so far.
#[derive(Debug, Drop)]
pub struct Reading {
    pub near: Option<u64>,
    pub far: Option<u64>,
    pub steps: Vec<Step>,
}

/// Whether a line stands where its kind does not belong.
fn is_misplaced(reading: &Reading, line: &Line) -> bool
    ensures { result ≡ misplaced (before (read_of reading.now)) line.now }
{
    match line {
        Line::Skip => false,
        Line::Capacity(Site::Near, _) => reading.near.is_some(),
        Line::Capacity(Site::Far, _) => reading.near.is_none() || reading.far.is_some(),
        Line::Step(_) => reading.far.is_none(),
    }
}

/// What was read, with what one more line says.
fn with_line(reading: Reading, line: Line) -> Result<Reading, AllocError>
    ensures { IfOk result (λ r. read_of r ≡ with_line (read_of reading) line) }
{
    let Reading {
        near,
        far,
        mut steps,
    } = reading;
    match line {
        Line::Skip => Ok(Reading { near, far, steps }),
        Line::Capacity(Site::Near, bytes) => Ok(Reading {
            near: Some(bytes),
            far,
            steps,
        }),
        Line::Capacity(Site::Far, bytes) => Ok(Reading {
            near,
            far: Some(bytes),
            steps,
        }),
        Line::Step(step) => {
            steps.push(step)?;
            Ok(Reading { near, far, steps })
        }
    }
}

/// What was read, with what a line of this number says, where it stands in its place.
fn onto(number: u64, reading: Reading, line: Line) -> Result<Reading, FarmFault>
    ensures { IsScriptAnswer read_of result (onto line_reader number (read_of reading) line) }
{
    if is_misplaced(&reading, &line) {
        return Err(FarmFault::BadLine(number));
    }
    match with_line(reading, line) {
        Ok(reading) => Ok(reading),
        Err(_) => Err(FarmFault::Memory),
    }
}

fn with_piece(
    alloc: Global,
    number: u64,
    room: usize,
    reading: Reading,
    piece: &[u8],
) -> Result<Reading, FarmFault>
    ensures exact { IsScriptAnswer read_of result (take_line number room (read_of reading) piece.now) }
    ensures number { OnOk result (number ≤ MAX_LINES) }
    ensures room { OnOk result (length piece.now ≤ room) }
{
    if !is_within(number, room, piece) {
        return Err(FarmFault::BadLine(number));
    }
    match read_line(alloc, text(piece)) {
        Ok(line) => onto(number, reading, line),
        Err(LineFault::Bad) => Err(FarmFault::BadLine(number)),
        Err(LineFault::Memory) => Err(FarmFault::Memory),
    }
}

fn finish(number: u64, reading: Reading) -> Result<Script, FarmFault>
    ensures { IsScriptAnswer (λ x. x) result (finished number (read_of reading)) }
{
    let Reading { near, far, steps } = reading;
    let Some(near) = near else {
        return Err(FarmFault::BadLine(number));
    };
    let Some(far) = far else {
        return Err(FarmFault::BadLine(number));
    };
    let steps = Items::new(steps);
    Ok(Script { near, far, steps })
}

/// The script that an input says, or its first faulty line: BadLine with its number, counted from 1. Memory
/// comes for want of memory alone.
pub fn read_script(alloc: Global, bytes: &[u8]) -> Result<Script, FarmFault>
    ensures exact { IsScriptAnswer (λ x. x) result (script bytes.now) }
    // What is read is what the lines say, of which none is faulty.
    ensures says { IfOk result (λ s. SpellsScript bytes.now s) }
    // No step has more bytes than a line can say.
    ensures short { IfOk result (λ s. AllByRecursion IsShort s.steps) }
    // What is told is the first faulty line, unless memory ran out.
    ensures faulty { IfErr result (λ f. (f ≡ fault.Memory) ⊎ IsFirstFaulty bytes.now f) }
{
    let mut reading = Reading {
        near: None,
        far: None,
        steps: Vec::new(alloc),
    };
    let mut rest = bytes;
    let mut number = 1u64;
    let mut room = MAX_BYTES;
    while !rest.is_empty() {
        let (piece, after) = rest.split_at(first_len(rest));
        match with_piece(alloc, number, room, reading, piece) {
            Ok(next) => reading = next,
            Err(fault) => return Err(fault),
        }
        number += 1;
        room -= piece.len();
        rest = after;
    }
    finish(number, reading)
}
