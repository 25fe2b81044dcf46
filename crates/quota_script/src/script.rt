//! Scripts, read line by line.
ghost use Rattle.std.specs.Prelude.{◌≡◌, ◌≤◌, ◌⊎◌, length, IfOk, IfErr, OnOk, false};
ghost use Rattle.farm_script.specs.declared.lines.Scopes.TheVariants.{Taken};
ghost use Rattle.line_program.specs.Lines.{IsScriptAnswer};
ghost use Rattle.line_program.specs.Reader.{onto, fault_of};
ghost use Rattle.line_program.specs.declared.fault.FarmFault.TheVariants as fault;
ghost use Rattle.quota_script.specs.Place.{misplaced, AreNamedOnce};
ghost use Rattle.quota_script.specs.FirstFaulty.{IsFirstFaulty};
ghost use Rattle.quota_script.specs.Spelled.{SpellsScript};
ghost use Rattle.quota_script.specs.Line.{line_at};
ghost use Rattle.quota_script.specs.Script.{read_of, said_of, before, with_line, line_reader, take_line};
ghost use Rattle.quota_script.specs.Script.{finished, script};

use crate::clients::Clients;
use crate::event::Event;
use crate::line::{Line, read_line};
use dist_types::text::Items;
use farm_script::lines::Scopes;
use line_program::fault::{FarmFault, LineFault};
use line_program::limits::{MAX_BYTES, MAX_LINES};
use line_program::pieces::{first_len, is_within, text};
use std::alloc::{AllocError, Global};

/// What a script says.
#[derive(Debug, Drop)]
pub struct Script {
    /// The number of the first job.
    pub base: u64,
    /// The clients, each with how many reservations it may hold.
    pub clients: Clients,
    /// What happens, in order.
    pub events: Items<Event>,
}

/// What was read so far.
#[derive(Debug, Drop)]
pub struct Reading {
    pub base: Option<u64>,
    pub clients: Clients,
    pub events: Vec<Event>,
}

/// Whether a line stands where its kind does not belong, or lists a client again.
fn is_misplaced(reading: &Reading, line: &Line) -> bool
    ensures { result ≡ misplaced (before (read_of reading.now)) line.now }
{
    match line {
        Line::Skip => false,
        Line::Ids(_) => reading.base.is_some(),
        Line::Client(name, _) => {
            reading.base.is_none() || !reading.events.is_empty() || reading.clients.has(name.get())
        }
        Line::Event(_) => reading.base.is_none(),
    }
}

/// What was read, with what one more line says, which stands in its place.
fn with_line(reading: Reading, line: Line) -> Result<Reading, AllocError>
    requires in_place { misplaced (before (read_of reading)) line ≡ false }
    ensures { IfOk result (λ r. read_of r ≡ with_line (read_of reading) line) }
{
    let Reading {
        base,
        mut clients,
        mut events,
    } = reading;
    match line {
        Line::Skip => Ok(Reading {
            base,
            clients,
            events,
        }),
        Line::Ids(base) => Ok(Reading {
            base: Some(base),
            clients,
            events,
        }),
        Line::Client(name, limit) => {
            clients.push(name, limit)?;
            Ok(Reading {
                base,
                clients,
                events,
            })
        }
        Line::Event(event) => {
            events.push(event)?;
            Ok(Reading {
                base,
                clients,
                events,
            })
        }
    }
}

/// What was read, with what a line of this number says, where it stands in its place.
fn onto(number: u64, reading: Reading, line: Line) -> Result<Reading, FarmFault>
    ensures { IsScriptAnswer read_of result (onto line_reader number (read_of reading) line) }
{
    if is_misplaced(&reading, &line) {
        return Err(FarmFault::BadLine(number));
    }
    match with_line(reading, line) {
        Ok(reading) => Ok(reading),
        Err(_) => Err(FarmFault::Memory),
    }
}

/// Why the line of this number is faulty, whose addresses without scopes are in no line.
fn scoped_or_bad(alloc: Global, number: u64, reading: &Reading, text: &[u8]) -> FarmFault
    ensures told { (result ≡ fault.Memory)
        ⊎ (result ≡ fault_of line_reader number (read_of reading.now) (line_at Taken text.now)) }
{
    match read_line(alloc, Scopes::Taken, text) {
        Ok(line) => {
            if is_misplaced(reading, &line) {
                FarmFault::BadLine(number)
            } else {
                FarmFault::ScopedAddress(number)
            }
        }
        Err(LineFault::Bad) => FarmFault::BadLine(number),
        Err(LineFault::Memory) => FarmFault::Memory,
    }
}

fn with_piece(
    alloc: Global,
    number: u64,
    room: usize,
    reading: Reading,
    piece: &[u8],
) -> Result<Reading, FarmFault>
    ensures exact { IsScriptAnswer read_of result (take_line number room (read_of reading) piece.now) }
    ensures number { OnOk result (number ≤ MAX_LINES) }
    ensures room { OnOk result (length piece.now ≤ room) }
{
    if !is_within(number, room, piece) {
        return Err(FarmFault::BadLine(number));
    }
    match read_line(alloc, Scopes::Refused, text(piece)) {
        Ok(line) => onto(number, reading, line),
        Err(LineFault::Bad) => Err(scoped_or_bad(alloc, number, &reading, text(piece))),
        Err(LineFault::Memory) => Err(FarmFault::Memory),
    }
}

fn finish(number: u64, reading: Reading) -> Result<Script, FarmFault>
    ensures { IsScriptAnswer said_of result (finished number (read_of reading)) }
{
    let Reading {
        base,
        clients,
        events,
    } = reading;
    match base {
        Some(base) => {
            let events = Items::new(events);
            Ok(Script {
                base,
                clients,
                events,
            })
        }
        None => Err(FarmFault::BadLine(number)),
    }
}

/// The script that an input says, or its first faulty line: BadLine or ScopedAddress with its number, counted
/// from 1. Memory comes for want of memory alone.
pub fn read_script(alloc: Global, bytes: &[u8]) -> Result<Script, FarmFault>
    ensures exact { IsScriptAnswer said_of result (script bytes.now) }
    // What is read is what the lines say, of which none is faulty.
    ensures says { IfOk result (λ s. SpellsScript bytes.now (said_of s)) }
    ensures named_once { IfOk result (λ s. AreNamedOnce s.clients) }
    // What is told is the first faulty line with its cause, unless memory ran out.
    ensures faulty { IfErr result (λ f. (f ≡ fault.Memory) ⊎ IsFirstFaulty bytes.now f) }
{
    let mut reading = Reading {
        base: None,
        clients: Clients::new(alloc),
        events: Vec::new(alloc),
    };
    let mut rest = bytes;
    let mut number = 1u64;
    let mut room = MAX_BYTES;
    while !rest.is_empty() {
        let (piece, after) = rest.split_at(first_len(rest));
        match with_piece(alloc, number, room, reading, piece) {
            Ok(next) => reading = next,
            Err(fault) => return Err(fault),
        }
        number += 1;
        room -= piece.len();
        rest = after;
    }
    finish(number, reading)
}
