//! Reads a printed run line by line, and keeps what is to be judged.
ghost use Rattle.std.specs.Prelude.{◌≡◌, ◌≤◌, ◌<◌, ◌+◌, OnOk, IsTrue, max, length, ◌^◌, IfOk};
ghost use Rattle.audit.specs.Reading.{read_of, with_kind, with_built, with_book, with_line, take_line, fits};
ghost use Rattle.audit.specs.Reading.{IsTaken, makes, ran_in, built_in, is_ended, finished, read, IsReadAnswer};

use crate::mark::{Book, Mark};
use crate::order::{Place, is_over, next};
use build_server::run::Ran;
use core_rules::entry::{CoreEntry, CoreKind, Reserved};
use dist_types::fault::Memory;
use dist_types::ids::JobId;
use farm_entries::entry::StepKind;
use line_program::fault::LineFault;
use line_program::limits::MAX_RUN_BYTES;
use line_program::pieces::{first_len, text};
use run_lines::line::RunLine;
use run_lines::lines::read_run_line;
use std::alloc::{AllocError, Global};

/// What was read so far.
#[derive(Debug, Drop)]
pub struct Reading {
    /// Where the text is.
    pub place: Place,
    /// The version of the rules.
    pub version: u64,
    /// How many entries line 1 says.
    pub entries: u64,
    /// How many entries stand so far.
    pub seen: u64,
    /// The moment of the last event.
    pub at: u64,
    /// How many reserve entries with a job stand so far.
    pub made: u64,
    /// What is to be judged.
    pub marks: Vec<Mark>,
    /// The line of the ids, the id base, and how many ids were given.
    pub ids_line: u64,
    pub base: u64,
    pub count: u64,
    /// The lines behind the ids.
    pub books: Vec<Book>,
}

/// How many reservations a core entry makes.
fn makes(kind: &CoreKind) -> u64
    ensures made { result ≡ makes kind.now }
    ensures few { result ≤ 1 }
{
    match kind {
        CoreKind::Reserve(Reserved::Job { .. }) => 1,
        CoreKind::Reserve(Reserved::NoRoom(_)) => 0,
        CoreKind::Reserve(Reserved::Spent) => 0,
        CoreKind::Commit { .. } => 0,
        CoreKind::Undo { .. } => 0,
        CoreKind::Beat { .. } => 0,
        CoreKind::Update { .. } => 0,
        CoreKind::Status { .. } => 0,
        CoreKind::Drain { .. } => 0,
    }
}

/// The job of a run, where it built, or the builder refused.
fn ran_in(job: JobId, ran: Ran) -> Option<JobId>
    ensures { result ≡ ran_in job ran }
{
    match ran {
        Ran::None => None,
        Ran::Unlisted(_) => None,
        Ran::Folder(_) => None,
        Ran::Built(_) => Some(job),
        Ran::Refused(_) => Some(job),
    }
}

/// The job that a step builds, or whose builder refused it, if it does.
fn built_in(kind: &StepKind) -> Option<JobId>
    ensures { result ≡ built_in kind.now }
{
    match kind {
        StepKind::Heard(_) => None,
        StepKind::Assigned { .. } => None,
        StepKind::Submitted { .. } => None,
        StepKind::Ran { job, ran, .. } => ran_in(*job, *ran),
        StepKind::Finished { .. } => None,
        StepKind::Unreported { .. } => None,
        StepKind::Opened(_) => None,
    }
}

fn push_core(r: &mut Reading, line: u64, number: u64, kind: CoreKind) -> Result<(), AllocError>
    requires { r.old.made + 1 < 2 ^ 64 }
    ensures { OnOk result (read_of r.new ≡ with_kind line number kind (read_of r.old)) }
{
    let made = r.made + makes(&kind);
    let entry = CoreEntry { now: r.at, kind };
    r.marks.push(Mark::Core(line, number, entry))?;
    r.made = made;
    Ok(())
}

fn push_built(r: &mut Reading, line: u64, job: Option<JobId>) -> Result<(), AllocError>
    ensures { OnOk result (read_of r.new ≡ with_built line job (read_of r.old)) }
{
    match job {
        None => Ok(()),
        Some(job) => {
            r.marks.push(Mark::Built(line, job))?;
            Ok(())
        }
    }
}

fn push_book(r: &mut Reading, book: Book) -> Result<(), AllocError>
    ensures { OnOk result (read_of r.new ≡ with_book book (read_of r.old)) }
{
    r.books.push(book)?;
    Ok(())
}

/// What was read, with what a line says.
fn with_line(r: &mut Reading, number: u64, line: RunLine) -> Result<(), AllocError>
    requires made { r.old.made + 1 < 2 ^ 64 }
    requires seen { r.old.seen + 1 < 2 ^ 64 }
    ensures { OnOk result (read_of r.new ≡ with_line number line (read_of r.old)) }
{
    match line {
        RunLine::Run(version, entries) => {
            r.version = version;
            r.entries = entries;
            Ok(())
        }
        RunLine::Entry(_, event) => {
            r.at = event.at;
            r.seen = r.seen + 1;
            Ok(())
        }
        RunLine::Core(core_number, kind) => push_core(r, number, core_number, kind),
        RunLine::Step(_, kind) => push_built(r, number, built_in(&kind)),
        RunLine::Call(_, _) => Ok(()),
        RunLine::Reply(_, _) => Ok(()),
        RunLine::Word(_) => Ok(()),
        RunLine::Books => Ok(()),
        RunLine::Ids(base, count) => {
            r.ids_line = number;
            r.base = base;
            r.count = count;
            Ok(())
        }
        RunLine::Server(row) => push_book(r, Book::Server(row)),
        RunLine::Job(job, reg, state, claimed) => {
            push_book(r, Book::Job(job, reg, state, claimed))
        }
        RunLine::Held(_, _, _) => Ok(()),
        RunLine::Archive(_, _, _) => Ok(()),
        RunLine::End => Ok(()),
    }
}

fn is_within(room: usize, piece: &[u8]) -> bool
    ensures exact { result ≡ fits room piece.now }
    ensures room { IsTrue result → length piece.now ≤ room }
{
    piece.len() <= room && is_ended(piece)
}

fn is_ended(piece: &[u8]) -> bool
    ensures { result ≡ is_ended piece.now }
{
    match piece {
        [.., 10] => true,
        _ => false,
    }
}

/// Takes a line in: whether it is in the grammar.
fn take_line(
    alloc: Global,
    number: u64,
    room: usize,
    r: &mut Reading,
    piece: &[u8],
) -> Result<bool, Memory>
    requires made { r.old.made + 1 < 2 ^ 64 }
    requires seen { r.old.seen + 1 < 2 ^ 64 }
    ensures exact { IfOk result (λ taken. IsTaken taken (take_line number room (read_of r.old) piece.now)
        (read_of r.new)) }
    ensures room { IfOk result (λ taken. IsTrue taken → length piece.now ≤ room) }
    ensures made { IfOk result (λ taken. IsTrue taken → r.new.made ≤ r.old.made + 1) }
    ensures seen { IfOk result (λ taken. IsTrue taken → r.new.seen ≤ r.old.seen + 1) }
    ensures line { IfOk result (λ taken. IsTrue taken → r.new.ids_line ≤ max r.old.ids_line number) }
{
    if !is_within(room, piece) {
        return Ok(false);
    }
    let line = match read_run_line(alloc, text(piece)) {
        Ok(line) => line,
        Err(LineFault::Bad) => return Ok(false),
        Err(LineFault::Memory) => return Err(Memory),
    };
    match next(r.place, r.seen, &line) {
        None => Ok(false),
        Some(place) => {
            with_line(r, number, line)?;
            r.place = place;
            Ok(true)
        }
    }
}

fn finish(number: u64, r: Reading) -> Result<Reading, u64>
    ensures exact { IsReadAnswer result (finished number (read_of r)) }
    ensures same { IfOk result (λ x. x.ids_line ≡ r.ids_line) }
{
    if !is_over(r.place) {
        return Err(number);
    }
    if r.seen != r.entries {
        return Err(1);
    }
    Ok(r)
}

/// What is to be judged of a text, or the number of its first line outside the grammar: of the number
/// after the last where lines are missing, and 1 where there is another number of entries than it says.
pub fn read(alloc: Global, bytes: &[u8]) -> Result<Result<Reading, u64>, Memory>
    ensures exact { IfOk result (λ r. IsReadAnswer r (read bytes.now)) }
    ensures line { IfOk result (λ r. IfOk r (λ x. x.ids_line ≤ 268435457)) }
{
    let mut reading = Reading {
        place: Place::Top,
        version: 0,
        entries: 0,
        seen: 0,
        at: 0,
        made: 0,
        marks: Vec::new(alloc),
        ids_line: 0,
        base: 0,
        count: 0,
        books: Vec::new(alloc),
    };
    let mut rest = bytes;
    let mut number = 1u64;
    let mut room = MAX_RUN_BYTES;
    while !rest.is_empty() {
        let (piece, after) = rest.split_at(first_len(rest));
        if !take_line(alloc, number, room, &mut reading, piece)? {
            return Ok(Err(number));
        }
        number += 1;
        room -= piece.len();
        rest = after;
    }
    Ok(finish(number, reading))
}
