//! What a printed line says.
ghost use Rattle.std.specs.Prelude.{◌≡◌, IfOk, string_bytes};
ghost use Rattle.farm_script.specs.Reading.{IsLineAnswer};
ghost use Rattle.farm_script.specs.Words.{field};
ghost use Rattle.run_lines.specs.Texts.{event_text};
ghost use Rattle.run_lines.specs.Lines.{word_at, version_at, run_at, script_event_at, printed_event_at, entry_at};
ghost use Rattle.run_lines.specs.Lines.{core_line_at, step_line_at, ids_at, call_at, reply_at, row_at};
ghost use Rattle.run_lines.specs.Lines.{job_line_at, held_at, archive_line_at, line_behind, run_line_at};

use crate::core_lines::core;
use crate::fields::{either, exact_field, id, lower, maybe, stage_field};
use crate::line::RunLine;
use crate::step_lines::step;
use core_rules::rows::ServerRow;
use dist_types::ids::{JobId, ServerId, ServerNonce};
use farm_entries::entry::EntryWord;
use farm_script::event::Event;
use farm_script::fields::{number, number_field};
use farm_script::lines::{Line, Scopes, line_with};
use farm_script::words::{first_word, strip};
use farm_text::text::Kind;
use line_program::fault::LineFault;
use std::alloc::{AllocError, Global};

/// A word.
fn entry_word(text: &[u8]) -> Result<EntryWord, LineFault>
    ensures { IsLineAnswer (λ x. x) result (word_at text.now) }
{
    if text == b"void".as_slice() {
        return Ok(EntryWord::Void);
    }
    if text == b"down".as_slice() {
        return Ok(EntryWord::Down);
    }
    if text == b"waiting".as_slice() {
        return Ok(EntryWord::Waiting);
    }
    if text == b"died".as_slice() {
        return Ok(EntryWord::Died);
    }
    Err(LineFault::Bad)
}

/// The version of the rules.
fn version(word: &[u8]) -> Result<u64, LineFault>
    ensures { IsLineAnswer (λ x. x) result (version_at word.now) }
{
    let n = number(word)?;
    if n == 1 || n == 2 {
        Ok(n)
    } else {
        Err(LineFault::Bad)
    }
}

/// The version of the rules and the space behind it.
fn version_field(text: &[u8]) -> Result<(u64, &[u8]), LineFault>
    ensures { IsLineAnswer (λ x. (x.0, x.1.now)) result (field version_at text.now) }
{
    let (word, rest) = first_word(text)?;
    let value = version(word)?;
    Ok((value, rest))
}

/// What stands behind the word `run`.
#[tactic(auto, unfolding(crate::specs::Lines::run_at))]
fn run(text: &[u8]) -> Result<RunLine, LineFault>
    ensures { IsLineAnswer (λ x. x) result (run_at text.now) }
{
    let (version, rest) = version_field(text)?;
    let rest = strip(rest, b"entries ")?;
    let entries = number(rest)?;
    Ok(RunLine::Run(version, entries))
}

/// The text that is printed of an event.
fn event_text(alloc: Global, event: &Event) -> Result<String, AllocError>
    ensures { IfOk result (λ t. string_bytes t ≡ event_text event.now) }
{
    let at = event.at;
    let kind = Kind(&event.kind);
    format!(in alloc; "{at} {kind}")
}

/// The event of a script's line.
fn script_event(alloc: Global, text: &[u8]) -> Result<Event, LineFault>
    ensures { IsLineAnswer (λ x. x) result (script_event_at text.now) }
{
    match line_with(alloc, Scopes::Refused, text)? {
        Line::Event(event) => Ok(event),
        Line::Setup(_) => Err(LineFault::Bad),
        Line::Skip => Err(LineFault::Bad),
    }
}

/// An event, where the text is the one that is printed of it.
#[tactic(auto, unfolding(crate::specs::Lines::printed_event_at))]
fn printed_event(alloc: Global, text: &[u8]) -> Result<Event, LineFault>
    ensures { IsLineAnswer (λ x. x) result (printed_event_at text.now) }
{
    let event = script_event(alloc, text)?;
    let printed = event_text(alloc, &event)?;
    if printed.as_bytes() == text {
        Ok(event)
    } else {
        Err(LineFault::Bad)
    }
}

/// What stands behind the word `entry`.
#[tactic(auto, unfolding(crate::specs::Lines::entry_at))]
fn entry(alloc: Global, text: &[u8]) -> Result<RunLine, LineFault>
    ensures { IsLineAnswer (λ x. x) result (entry_at text.now) }
{
    let (number, rest) = number_field(text)?;
    let event = printed_event(alloc, rest)?;
    Ok(RunLine::Entry(number, event))
}

/// What stands behind the word `core`.
#[tactic(auto, unfolding(crate::specs::Lines::core_line_at))]
fn core_line(alloc: Global, text: &[u8]) -> Result<RunLine, LineFault>
    ensures { IsLineAnswer (λ x. x) result (core_line_at text.now) }
{
    let (number, rest) = number_field(text)?;
    let kind = core(alloc, rest)?;
    Ok(RunLine::Core(number, kind))
}

/// What stands behind the word `step`.
#[tactic(auto, unfolding(crate::specs::Lines::step_line_at))]
fn step_line(alloc: Global, text: &[u8]) -> Result<RunLine, LineFault>
    ensures { IsLineAnswer (λ x. x) result (step_line_at text.now) }
{
    let (server, rest) = exact_field(alloc, text)?;
    let kind = step(alloc, rest)?;
    Ok(RunLine::Step(server, kind))
}

/// What stands behind the word `call`.
#[tactic(auto, unfolding(crate::specs::Lines::call_at))]
fn call(alloc: Global, text: &[u8]) -> Result<RunLine, LineFault>
    ensures { IsLineAnswer (λ x. x) result (call_at text.now) }
{
    let (target, rest) = exact_field(alloc, text)?;
    let bytes = lower(alloc, rest)?;
    Ok(RunLine::Call(target, bytes))
}

/// What stands behind the word `reply`.
#[tactic(auto, unfolding(crate::specs::Lines::reply_at))]
fn reply(alloc: Global, text: &[u8]) -> Result<RunLine, LineFault>
    ensures { IsLineAnswer (λ x. x) result (reply_at text.now) }
{
    let (to, rest) = number_field(text)?;
    let bytes = lower(alloc, rest)?;
    Ok(RunLine::Reply(to, bytes))
}

/// What stands behind the word `ids`.
#[tactic(auto, unfolding(crate::specs::Lines::ids_at))]
fn ids(text: &[u8]) -> Result<RunLine, LineFault>
    ensures { IsLineAnswer (λ x. x) result (ids_at text.now) }
{
    let rest = strip(text, b"base ")?;
    let (base, rest) = number_field(rest)?;
    let rest = strip(rest, b"count ")?;
    let count = number(rest)?;
    Ok(RunLine::Ids(base, count))
}

/// What stands behind the word `server`.
#[tactic(auto, unfolding(crate::specs::Lines::row_at))]
fn row(alloc: Global, text: &[u8]) -> Result<RunLine, LineFault>
    ensures { IsLineAnswer (λ x. x) result (row_at text.now) }
{
    let (server, rest) = exact_field(alloc, text)?;
    let rest = strip(rest, b"reg ")?;
    let (reg, rest) = number_field(rest)?;
    let rest = strip(rest, b"cpus ")?;
    let (cpus, rest) = number_field(rest)?;
    let rest = strip(rest, b"nonce ")?;
    let (nonce, rest) = number_field(rest)?;
    let rest = strip(rest, b"seen ")?;
    let (seen, rest) = number_field(rest)?;
    let rest = strip(rest, b"load ")?;
    let (load, rest) = number_field(rest)?;
    let rest = strip(rest, b"error ")?;
    let error = maybe(rest)?;
    Ok(RunLine::Server(ServerRow {
        reg,
        server: ServerId::new(server),
        cpus,
        nonce: ServerNonce::new(nonce),
        seen,
        load,
        error,
        draining: false,
    }))
}

/// What stands behind the word `job`.
#[tactic(auto, unfolding(crate::specs::Lines::job_line_at))]
fn job_line(text: &[u8]) -> Result<RunLine, LineFault>
    ensures { IsLineAnswer (λ x. x) result (job_line_at text.now) }
{
    let (job, rest) = number_field(text)?;
    let rest = strip(rest, b"reg ")?;
    let (reg, rest) = number_field(rest)?;
    let (stage, rest) = stage_field(rest)?;
    let claimed = either(rest, b"claimed", b"unclaimed")?;
    Ok(RunLine::Job(JobId(job), reg, stage, claimed))
}

/// What stands behind the word `held`.
#[tactic(auto, unfolding(crate::specs::Lines::held_at))]
fn held(alloc: Global, text: &[u8]) -> Result<RunLine, LineFault>
    ensures { IsLineAnswer (λ x. x) result (held_at text.now) }
{
    let (server, rest) = exact_field(alloc, text)?;
    let (job, rest) = number_field(rest)?;
    let tc = id(rest)?;
    Ok(RunLine::Held(server, JobId(job), tc))
}

/// What stands behind the word `archive`.
#[tactic(auto, unfolding(crate::specs::Lines::archive_line_at))]
fn archive_line(alloc: Global, text: &[u8]) -> Result<RunLine, LineFault>
    ensures { IsLineAnswer (λ x. x) result (archive_line_at text.now) }
{
    let (server, rest) = exact_field(alloc, text)?;
    let (word, rest) = first_word(rest)?;
    let tc = id(word)?;
    let size = number(rest)?;
    Ok(RunLine::Archive(server, tc, size))
}

/// A line, by its first word and what stands behind it.
fn line_behind(alloc: Global, word: &[u8], text: &[u8]) -> Result<RunLine, LineFault>
    ensures { IsLineAnswer (λ x. x) result (line_behind word.now text.now) }
{
    if word == b"run".as_slice() {
        return run(text);
    }
    if word == b"entry".as_slice() {
        return entry(alloc, text);
    }
    if word == b"core".as_slice() {
        return core_line(alloc, text);
    }
    if word == b"step".as_slice() {
        return step_line(alloc, text);
    }
    if word == b"call".as_slice() {
        return call(alloc, text);
    }
    if word == b"reply".as_slice() {
        return reply(alloc, text);
    }
    if word == b"word".as_slice() {
        let word = entry_word(text)?;
        return Ok(RunLine::Word(word));
    }
    if word == b"ids".as_slice() {
        return ids(text);
    }
    if word == b"server".as_slice() {
        return row(alloc, text);
    }
    if word == b"job".as_slice() {
        return job_line(text);
    }
    if word == b"held".as_slice() {
        return held(alloc, text);
    }
    if word == b"archive".as_slice() {
        return archive_line(alloc, text);
    }
    Err(LineFault::Bad)
}

/// What a printed line says, without its end. Bad exactly where it is in no row of the grammar, or in
/// another spelling than the one that is printed.
#[tactic(auto, unfolding(crate::specs::Lines::run_line_at))]
pub fn read_run_line(alloc: Global, text: &[u8]) -> Result<RunLine, LineFault>
    ensures { IsLineAnswer (λ x. x) result (run_line_at text.now) }
{
    if text == b"books".as_slice() {
        return Ok(RunLine::Books);
    }
    if text == b"end".as_slice() {
        return Ok(RunLine::End);
    }
    let (word, rest) = first_word(text)?;
    line_behind(alloc, word, rest)
}
