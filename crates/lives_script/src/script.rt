//! Scripts, read line by line.
ghost use Rattle.std.specs.Prelude.{◌≡◌, ◌≤◌, ◌⊎◌, length, map, IfOk, IfErr, OnOk, false};
ghost use Rattle.std.specs.List.{AllByRecursion};
ghost use Rattle.farm_script.specs.Setups.{IsSetup};
ghost use Rattle.farm_script.specs.declared.lines.Scopes.TheVariants.{Taken};
ghost use Rattle.line_program.specs.Lines.{IsScriptAnswer};
ghost use Rattle.line_program.specs.Reader.{onto, fault_of};
ghost use Rattle.line_program.specs.declared.fault.FarmFault.TheVariants as fault;
ghost use Rattle.lives_script.specs.FirstFaulty.{IsFirstFaulty};
ghost use Rattle.lives_script.specs.Ids.{AreApartIds, IsRange};
ghost use Rattle.lives_script.specs.Line.{line_at};
ghost use Rattle.lives_script.specs.Place.{ids_of, has_ids, misplaced, duplicate, overlapping, HasRange};
ghost use Rattle.lives_script.specs.Script.{read_of, before, with_line, line_reader, take_line, finished};
ghost use Rattle.lives_script.specs.Script.{script, with_event, IsKept, IsLastKept};
ghost use Rattle.lives_script.specs.Spelled.{SpellsLives};
ghost use Rattle.lives_script.specs.declared.line.Line.TheVariants as lines;

use crate::line::{Line, line_with};
use crate::used_ids::UsedIds;
use dist_types::rules::Rules;
use dist_types::text::Items;
use farm_script::event::Event;
use farm_script::lines::{Scopes, SetupLine};
use farm_script::script as farm;
use farm_script::script::{is_duplicate_setup, is_misplaced_setup, with_setup};
use farm_script::setup::Setup;
use line_program::fault::{FarmFault, LineFault};
use line_program::limits::{MAX_BYTES, MAX_LINES};
use line_program::pieces::{first_len, is_within, text};
use std::alloc::{AllocError, Global};

/// A life of a scheduler.
#[derive(Debug, Drop)]
pub struct Life {
    /// The first of its ids, behind which the others follow; 0 follows the greatest number.
    pub from: u64,
    /// How many ids it has, one at least.
    pub count: u64,
    /// What happens in it, in order.
    pub events: Items<Event>,
}

/// What a script says.
#[derive(Debug, Drop)]
pub struct Script {
    /// The farm, whose scheduler has base 0 and count 0.
    pub setup: Setup,
    /// The lives, of which there is one at least, in order.
    pub lives: Items<Life>,
}

/// What was read so far.
#[derive(Debug, Drop)]
pub struct Reading {
    /// How the farm is set up.
    pub setup: farm::Reading,
    /// The lives before the last one.
    pub over: Vec<Life>,
    /// The last life, whose events go on.
    pub last: Option<Life>,
    /// The ids of all of them.
    pub used: UsedIds,
}

/// Whether a scheduler has other ids than none.
fn has_ids(line: &SetupLine) -> bool
    ensures { result ≡ has_ids line.now }
{
    match line {
        SetupLine::Version2 => false,
        SetupLine::Scheduler(scheduler) => !(scheduler.base == 0 && scheduler.count == 0),
        SetupLine::Server(_) => false,
        SetupLine::Builder(_, _) => false,
    }
}

/// Whether a line stands where its kind does not belong.
fn is_misplaced(reading: &Reading, line: &Line) -> bool
    requires lives { IsLastKept (read_of reading.now) }
    ensures { result ≡ misplaced (before (read_of reading.now)) line.now }
{
    match line {
        Line::Skip => false,
        Line::Setup(setup) => {
            reading.last.is_some() || has_ids(setup) || is_misplaced_setup(&reading.setup, setup)
        }
        Line::Life(_, _) => reading.setup.scheduler.is_none(),
        Line::Event(_) => reading.last.is_none(),
    }
}

/// Whether a line sets up a server at an address that stands before.
fn is_duplicate(reading: &Reading, line: &Line) -> bool
    ensures { result ≡ duplicate (before (read_of reading.now)) line.now }
{
    match line {
        Line::Skip => false,
        Line::Setup(setup) => is_duplicate_setup(&reading.setup, setup),
        Line::Life(_, _) => false,
        Line::Event(_) => false,
    }
}

/// Whether a line begins a life whose range meets that of an earlier one.
fn is_overlapping(reading: &Reading, line: &Line) -> bool
    requires kept { IsKept reading.now }
    requires range { HasRange line.now }
    ensures { result ≡ overlapping (before (read_of reading.now)) line.now }
{
    match line {
        Line::Skip => false,
        Line::Setup(_) => false,
        Line::Life(from, count) => reading.used.meets(*from, *count),
        Line::Event(_) => false,
    }
}

/// What was read, with a life more, whose range meets none.
fn with_life(alloc: Global, reading: Reading, from: u64, count: u64) -> Result<Reading, AllocError>
    requires kept { IsKept reading }
    requires some { 1 ≤ count }
    requires apart { overlapping (before (read_of reading)) (lines.Life from count) ≡ false }
    ensures exact { IfOk result (λ r. read_of r ≡ with_line (read_of reading) (lines.Life from count)) }
    ensures kept { IfOk result IsKept }
{
    let Reading {
        setup,
        mut over,
        last,
        mut used,
    } = reading;
    used.add(from, count)?;
    if let Some(life) = last {
        over.push(life)?;
    }
    let events = Items::new(Vec::new(alloc));
    let last = Some(Life {
        from,
        count,
        events,
    });
    Ok(Reading {
        setup,
        over,
        last,
        used,
    })
}

/// A life in which one thing more happens.
fn with_event(life: Life, event: Event) -> Result<Life, AllocError>
    ensures { IfOk result (λ l. l ≡ with_event event life) }
{
    let Life {
        from,
        count,
        events,
    } = life;
    let mut events = events.into_inner();
    events.push(event)?;
    Ok(Life {
        from,
        count,
        events: Items::new(events),
    })
}

/// What was read, with what one more line says, which stands in its place and meets no earlier range.
fn with_line(alloc: Global, reading: Reading, line: Line) -> Result<Reading, AllocError>
    requires kept { IsKept reading }
    requires range { HasRange line }
    requires apart { overlapping (before (read_of reading)) line ≡ false }
    ensures exact { IfOk result (λ r. read_of r ≡ with_line (read_of reading) line) }
    ensures kept { IfOk result IsKept }
{
    match line {
        Line::Skip => Ok(reading),
        Line::Setup(line) => {
            let Reading {
                setup,
                over,
                last,
                used,
            } = reading;
            let setup = with_setup(alloc, setup, line)?;
            Ok(Reading {
                setup,
                over,
                last,
                used,
            })
        }
        Line::Life(from, count) => with_life(alloc, reading, from, count),
        Line::Event(event) => {
            let Reading {
                setup,
                over,
                last,
                used,
            } = reading;
            let last = match last {
                Some(life) => Some(with_event(life, event)?),
                None => None,
            };
            Ok(Reading {
                setup,
                over,
                last,
                used,
            })
        }
    }
}

/// What was read, with what a line of this number says, where it stands in its place, its address is new, and its
/// range meets no earlier one.
fn onto(alloc: Global, number: u64, reading: Reading, line: Line) -> Result<Reading, FarmFault>
    requires kept { IsKept reading }
    requires range { HasRange line }
    ensures exact { IsScriptAnswer read_of result (onto line_reader number (read_of reading) line) }
    ensures kept { IfOk result IsKept }
{
    if is_misplaced(&reading, &line) {
        return Err(FarmFault::BadLine(number));
    }
    if is_duplicate(&reading, &line) {
        return Err(FarmFault::DuplicateAddress(number));
    }
    if is_overlapping(&reading, &line) {
        return Err(FarmFault::OverlappingIds(number));
    }
    match with_line(alloc, reading, line) {
        Ok(reading) => Ok(reading),
        Err(_) => Err(FarmFault::Memory),
    }
}

/// Why the line of this number is faulty, whose addresses without scopes are in no line.
fn scoped_or_bad(alloc: Global, number: u64, reading: &Reading, text: &[u8]) -> FarmFault
    requires lives { IsLastKept (read_of reading.now) }
    ensures told { (result ≡ fault.Memory)
        ⊎ (result ≡ fault_of line_reader number (read_of reading.now) (line_at Taken text.now)) }
{
    match line_with(alloc, Scopes::Taken, text) {
        Ok(line) => {
            if is_misplaced(reading, &line) {
                FarmFault::BadLine(number)
            } else {
                FarmFault::ScopedAddress(number)
            }
        }
        Err(LineFault::Bad) => FarmFault::BadLine(number),
        Err(LineFault::Memory) => FarmFault::Memory,
    }
}

fn with_piece(
    alloc: Global,
    number: u64,
    room: usize,
    reading: Reading,
    piece: &[u8],
) -> Result<Reading, FarmFault>
    requires kept { IsKept reading }
    ensures exact { IsScriptAnswer read_of result (take_line number room (read_of reading) piece.now) }
    ensures kept { IfOk result IsKept }
    ensures number { OnOk result (number ≤ MAX_LINES) }
    ensures room { OnOk result (length piece.now ≤ room) }
{
    if !is_within(number, room, piece) {
        return Err(FarmFault::BadLine(number));
    }
    match line_with(alloc, Scopes::Refused, text(piece)) {
        Ok(line) => onto(alloc, number, reading, line),
        Err(LineFault::Bad) => Err(scoped_or_bad(alloc, number, &reading, text(piece))),
        Err(LineFault::Memory) => Err(FarmFault::Memory),
    }
}

fn finish(number: u64, reading: Reading) -> Result<Script, FarmFault>
    ensures { IsScriptAnswer (λ s. s) result (finished number (read_of reading)) }
{
    let Reading {
        setup,
        mut over,
        last,
        used: _,
    } = reading;
    let farm::Reading {
        rules,
        scheduler,
        servers,
        events: _,
    } = setup;
    match (scheduler, last) {
        (Some(scheduler), Some(life)) => {
            over.push(life)?;
            let servers = Items::new(servers);
            let setup = Setup {
                rules,
                scheduler,
                servers,
            };
            let lives = Items::new(over);
            Ok(Script { setup, lives })
        }
        (_, _) => Err(FarmFault::BadLine(number)),
    }
}

/// The setup and the lives of a script, or its first faulty line: BadLine, ScopedAddress, DuplicateAddress or
/// OverlappingIds with its number, counted from 1. Memory comes for want of memory alone.
pub fn read_lives(alloc: Global, bytes: &[u8]) -> Result<Script, FarmFault>
    ensures exact { IsScriptAnswer (λ s. s) result (script bytes.now) }
    // What is read is what the lines say, of which none is faulty.
    ensures says { IfOk result (λ s. SpellsLives bytes.now s) }
    // What is told is the first faulty line with its cause, unless memory ran out.
    ensures faulty { IfErr result (λ f. (f ≡ fault.Memory) ⊎ IsFirstFaulty bytes.now f) }
    // The addresses differ, the servers are at most 1,000, and keys and tokens have their lengths.
    ensures setup { IfOk result (λ s. IsSetup s.setup) }
    // The scheduler has given no id.
    ensures fresh { IfOk result (λ s. (s.setup.scheduler.base ≡ 0) × (s.setup.scheduler.count ≡ 0)) }
    // There is a life, and no two have an id in common.
    ensures some { IfOk result (λ s. 1 ≤ length s.lives) }
    ensures apart { IfOk result (λ s. AreApartIds (map ids_of s.lives)) }
    // Each has an id.
    ensures counts { IfOk result (λ s. AllByRecursion (λ life. IsRange (ids_of life)) s.lives) }
{
    let mut reading = Reading {
        setup: farm::Reading {
            rules: Rules::One,
            scheduler: None,
            servers: Vec::new(alloc),
            events: Vec::new(alloc),
        },
        over: Vec::new(alloc),
        last: None,
        used: UsedIds::new(alloc),
    };
    let mut rest = bytes;
    let mut number = 1u64;
    let mut room = MAX_BYTES;
    while !rest.is_empty() {
        let (piece, after) = rest.split_at(first_len(rest));
        match with_piece(alloc, number, room, reading, piece) {
            Ok(next) => reading = next,
            Err(fault) => return Err(fault),
        }
        number += 1;
        room -= piece.len();
        rest = after;
    }
    finish(number, reading)
}
