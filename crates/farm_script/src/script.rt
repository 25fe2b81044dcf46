//! Scripts, read line by line.
ghost use Rattle.std.specs.Prelude.{◌≡◌, ◌≤◌, ◌++◌, ◌∷◌, [], ℕ, length, map, option_to_list, IfOk, IfErr};
ghost use Rattle.std.specs.Prelude.{OnOk, IsTrue, ◌⊎◌, ◌||◌, position};
ghost use Rattle.dist_types.specs.Addr.{same_addr};
ghost use Rattle.farm_script.specs.Lines.{line_at};
ghost use Rattle.farm_script.specs.Place.{is_two, misplaced, duplicate, has_addr};
ghost use Rattle.farm_script.specs.FirstFaulty.{IsFirstFaulty};
ghost use Rattle.farm_script.specs.Spelled.{SpellsScript};
ghost use Rattle.farm_script.specs.Setups.{IsSetup};
ghost use Rattle.farm_script.specs.Script.{read_of, before, answered, with_line, line_reader};
ghost use Rattle.farm_script.specs.Script.{take_line, finished, script};
ghost use Rattle.line_program.specs.declared.fault.FarmFault.TheVariants as fault;
ghost use Rattle.line_program.specs.Lines.{fits, IsScriptAnswer};
ghost use Rattle.line_program.specs.Reader.{onto, fault_of};
ghost use Rattle.farm_script.specs.declared.lines.Scopes.TheVariants.{Taken};

use crate::event::Event;
use crate::lines::{Line, Scopes, SetupLine, line_with};
use crate::reader::{LineFault, read_line};
use crate::setup::{BuilderLine, Setup, SetupScheduler, SetupServer};
use dist_types::addr::Addr;
use dist_types::rules::Rules;
use dist_types::text::Items;
use line_program::fault::{FarmFault, LineFault as ScopesFault};
use line_program::limits::{MAX_BYTES, MAX_LINES};
use line_program::pieces::{first_len, is_within, text};
use std::alloc::{AllocError, Global};
use std::mem;

/// The most build servers of a farm.
pub const MAX_SERVERS: usize = 1_000;

/// What was read so far.
#[derive(Debug, Drop)]
pub struct Reading {
    /// Version 2 where a line says so, else version 1.
    pub rules: Rules,
    pub scheduler: Option<SetupScheduler>,
    pub servers: Vec<SetupServer>,
    pub events: Vec<Event>,
}

/// The place of the first server at an address.
fn place_of(servers: &[SetupServer], addr: &Addr) -> Option<usize>
    ensures { result ≡ position (λ s. same_addr s.addr addr.now) servers.now }
{
    servers.iter().position(|server| server.addr == *addr)
}

/// Whether a server is at an address.
fn has_server(servers: &[SetupServer], addr: &Addr) -> bool
    ensures { result ≡ has_addr addr.now (map (λ s. s.addr) servers.now) }
{
    place_of(servers, addr).is_some()
}

fn is_at(scheduler: &Option<SetupScheduler>, addr: &Addr) -> bool
    ensures { result ≡ has_addr addr.now (map (λ s. s.addr) (option_to_list scheduler.now)) }
{
    match scheduler {
        Some(scheduler) => scheduler.addr == *addr,
        None => false,
    }
}

fn is_two(rules: Rules) -> bool
    ensures { result ≡ is_two rules }
{
    match rules {
        Rules::One => false,
        Rules::Two => true,
    }
}

/// Whether a line of a setup stands where its kind does not belong.
pub fn is_misplaced_setup(reading: &Reading, line: &SetupLine) -> bool
    ensures { result ≡ misplaced (before (read_of reading.now)) (Line.Setup line.now) }
{
    if !reading.events.is_empty() {
        return true;
    }
    match line {
        SetupLine::Version2 => reading.scheduler.is_some() || is_two(reading.rules),
        SetupLine::Scheduler(_) => reading.scheduler.is_some(),
        SetupLine::Server(_) => reading.scheduler.is_none() || reading.servers.len() >= MAX_SERVERS,
        SetupLine::Builder(addr, _) => !has_server(&reading.servers, addr),
    }
}

/// Whether a line stands where its kind does not belong.
fn is_misplaced(reading: &Reading, line: &Line) -> bool
    ensures { result ≡ misplaced (before (read_of reading.now)) line.now }
{
    match line {
        Line::Skip => false,
        Line::Setup(setup) => is_misplaced_setup(reading, setup),
        Line::Event(_) => false,
    }
}

/// Whether the scheduler or a server is at an address.
fn is_taken(reading: &Reading, addr: &Addr) -> bool
    ensures { result ≡ (has_addr addr.now (before (read_of reading.now)).schedulers
        || has_addr addr.now (before (read_of reading.now)).servers) }
{
    is_at(&reading.scheduler, addr) || has_server(&reading.servers, addr)
}

/// Whether a line of a setup is a server at an address that stands before.
pub fn is_duplicate_setup(reading: &Reading, line: &SetupLine) -> bool
    ensures { result ≡ duplicate (before (read_of reading.now)) (Line.Setup line.now) }
{
    match line {
        SetupLine::Version2 => false,
        SetupLine::Scheduler(_) => false,
        SetupLine::Server(server) => is_taken(reading, &server.addr),
        SetupLine::Builder(_, _) => false,
    }
}

/// Whether a line sets up a server at an address that stands before.
fn is_duplicate(reading: &Reading, line: &Line) -> bool
    ensures { result ≡ duplicate (before (read_of reading.now)) line.now }
{
    match line {
        Line::Skip => false,
        Line::Setup(setup) => is_duplicate_setup(reading, setup),
        Line::Event(_) => false,
    }
}

/// Puts an answer behind those of a server's builder.
fn push_answer(
    alloc: Global,
    server: &mut SetupServer,
    answer: BuilderLine,
) -> Result<(), AllocError>
    ensures { OnOk result (server.new ≡ record server.old { builder = server.old.builder ++ answer ∷ [] }) }
{
    let mut answers = mem::replace(&mut server.builder, Items::new(Vec::new(alloc))).into_inner();
    answers.push(answer)?;
    server.builder = Items::new(answers);
    Ok(())
}

/// Puts an answer behind those of the builder of the first server at an address.
fn add_answer(
    alloc: Global,
    servers: &mut Vec<SetupServer>,
    addr: &Addr,
    answer: BuilderLine,
) -> Result<(), AllocError>
    ensures { OnOk result (servers.new.items ≡ answered addr.now answer servers.old.items) }
{
    match place_of(servers, addr) {
        None => Ok(()),
        Some(i) => push_answer(alloc, &mut servers[i], answer),
    }
}

/// What was read, with what one more line of a setup says.
pub fn with_setup(alloc: Global, reading: Reading, line: SetupLine) -> Result<Reading, AllocError>
    ensures { IfOk result (λ r. read_of r ≡ with_line (read_of reading) (Line.Setup line)) }
{
    let Reading {
        rules,
        scheduler,
        mut servers,
        events,
    } = reading;
    match line {
        SetupLine::Version2 => Ok(Reading {
            rules: Rules::Two,
            scheduler,
            servers,
            events,
        }),
        SetupLine::Scheduler(scheduler) => Ok(Reading {
            rules,
            scheduler: Some(scheduler),
            servers,
            events,
        }),
        SetupLine::Server(server) => {
            servers.push(server)?;
            Ok(Reading {
                rules,
                scheduler,
                servers,
                events,
            })
        }
        SetupLine::Builder(addr, answer) => {
            add_answer(alloc, &mut servers, &addr, answer)?;
            Ok(Reading {
                rules,
                scheduler,
                servers,
                events,
            })
        }
    }
}

/// What was read, with what one more line says.
fn with_line(alloc: Global, reading: Reading, line: Line) -> Result<Reading, AllocError>
    ensures { IfOk result (λ r. read_of r ≡ with_line (read_of reading) line) }
{
    match line {
        Line::Skip => Ok(reading),
        Line::Setup(setup) => with_setup(alloc, reading, setup),
        Line::Event(event) => {
            let Reading {
                rules,
                scheduler,
                servers,
                mut events,
            } = reading;
            events.push(event)?;
            Ok(Reading {
                rules,
                scheduler,
                servers,
                events,
            })
        }
    }
}

/// What was read, with what a line of this number says, where it stands in its place and its address is
/// new.
fn onto(alloc: Global, number: u64, reading: Reading, line: Line) -> Result<Reading, FarmFault>
    ensures { IsScriptAnswer read_of result (onto line_reader number (read_of reading) line) }
{
    if is_misplaced(&reading, &line) {
        return Err(FarmFault::BadLine(number));
    }
    if is_duplicate(&reading, &line) {
        return Err(FarmFault::DuplicateAddress(number));
    }
    match with_line(alloc, reading, line) {
        Ok(reading) => Ok(reading),
        Err(_) => Err(FarmFault::Memory),
    }
}

/// Why the line of this number is faulty, whose addresses without scopes are in no line.
fn scoped_or_bad(alloc: Global, number: u64, reading: &Reading, text: &[u8]) -> FarmFault
    ensures told { (result ≡ fault.Memory)
        ⊎ (result ≡ fault_of line_reader number (read_of reading.now) (line_at Taken text.now)) }
{
    match line_with(alloc, Scopes::Taken, text) {
        Ok(line) => {
            if is_misplaced(reading, &line) {
                FarmFault::BadLine(number)
            } else {
                FarmFault::ScopedAddress(number)
            }
        }
        Err(ScopesFault::Bad) => FarmFault::BadLine(number),
        Err(ScopesFault::Memory) => FarmFault::Memory,
    }
}

fn with_piece(
    alloc: Global,
    number: u64,
    room: usize,
    reading: Reading,
    piece: &[u8],
) -> Result<Reading, FarmFault>
    ensures exact { IsScriptAnswer read_of result (take_line number room (read_of reading) piece.now) }
    ensures number { OnOk result (number ≤ MAX_LINES) }
    ensures room { OnOk result (length piece.now ≤ room) }
{
    if !is_within(number, room, piece) {
        return Err(FarmFault::BadLine(number));
    }
    match read_line(alloc, text(piece)) {
        Ok(line) => onto(alloc, number, reading, line),
        Err(LineFault::Bad) => Err(FarmFault::BadLine(number)),
        Err(LineFault::Scoped) => Err(scoped_or_bad(alloc, number, &reading, text(piece))),
        Err(LineFault::Memory) => Err(FarmFault::Memory),
    }
}

fn finish(number: u64, reading: Reading) -> Result<(Setup, Vec<Event>), FarmFault>
    ensures { IsScriptAnswer (λ x. (x.0, x.1.items)) result (finished number (read_of reading)) }
{
    let Reading {
        rules,
        scheduler,
        servers,
        events,
    } = reading;
    match scheduler {
        Some(scheduler) => {
            let servers = Items::new(servers);
            let setup = Setup {
                rules,
                scheduler,
                servers,
            };
            Ok((setup, events))
        }
        None => Err(FarmFault::BadLine(number)),
    }
}

/// The setup and the events of a script, or its first faulty line: BadLine, ScopedAddress or
/// DuplicateAddress with its number, counted from 1. Memory comes for want of memory alone.
pub fn read_script(alloc: Global, bytes: &[u8]) -> Result<(Setup, Vec<Event>), FarmFault>
    ensures exact { IsScriptAnswer (λ x. (x.0, x.1.items)) result (script bytes.now) }
    // What is read is what the lines say, of which none is faulty.
    ensures says { IfOk result (λ x. SpellsScript bytes.now x.0 x.1.items) }
    // What is told is the first faulty line with its cause, unless memory ran out.
    ensures faulty { IfErr result (λ f. (f ≡ fault.Memory) ⊎ IsFirstFaulty bytes.now f) }
    // The addresses differ, the servers are at most 1,000, and keys and tokens have their lengths.
    ensures setup { IfOk result (λ x. IsSetup x.0) }
{
    let mut reading = Reading {
        rules: Rules::One,
        scheduler: None,
        servers: Vec::new(alloc),
        events: Vec::new(alloc),
    };
    let mut rest = bytes;
    let mut number = 1u64;
    let mut room = MAX_BYTES;
    while !rest.is_empty() {
        let (piece, after) = rest.split_at(first_len(rest));
        match with_piece(alloc, number, room, reading, piece) {
            Ok(next) => reading = next,
            Err(fault) => return Err(fault),
        }
        number += 1;
        room -= piece.len();
        rest = after;
    }
    finish(number, reading)
}
