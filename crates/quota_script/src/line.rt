//! What a line of a script says.
ghost use Rattle.std.specs.Prelude.{◌≡◌};
ghost use Rattle.farm_script.specs.Reading.{IsLineAnswer};
ghost use Rattle.quota_script.specs.Line.{state_at, ready_at, commit_at, beat_at, update_at, kind_behind};
ghost use Rattle.quota_script.specs.Line.{kind_at, event_at, client_at, said_at, line_at};

use crate::event::{Event, EventKind};
use dist_types::ids::ServerNonce;
use dist_types::results::JobState;
use dist_types::text::Text;
use farm_script::fields::{host_field, number, number_field, token, token_field};
use farm_script::lines::Scopes;
use farm_script::words::{first_word, strip};
use line_program::fault::LineFault;
use std::alloc::Global;

/// What a line says.
#[derive(Debug, Drop)]
pub enum Line {
    /// Nothing.
    Skip,
    /// The number of the first job.
    Ids(u64),
    /// A client's name, and how many reservations it may hold.
    Client(Text, u64),
    /// What happens.
    Event(Event),
}

/// The name of a job's state.
fn state(word: &[u8]) -> Result<JobState, LineFault>
    ensures { IsLineAnswer (λ x. x) result (state_at word.now) }
{
    if word == b"pending".as_slice() {
        return Ok(JobState::Pending);
    }
    if word == b"ready".as_slice() {
        return Ok(JobState::Ready);
    }
    if word == b"started".as_slice() {
        return Ok(JobState::Started);
    }
    if word == b"complete".as_slice() {
        return Ok(JobState::Complete);
    }
    Err(LineFault::Bad)
}

/// Whether a job is ready at once, by the name of the state that it begins in.
fn ready(word: &[u8]) -> Result<bool, LineFault>
    ensures { IsLineAnswer (λ x. x) result (ready_at word.now) }
{
    if word == b"pending".as_slice() {
        return Ok(false);
    }
    if word == b"ready".as_slice() {
        return Ok(true);
    }
    Err(LineFault::Bad)
}

/// What stands behind the word `commit`.
#[tactic(auto, unfolding(crate::specs::Line::commit_at))]
fn commit(text: &[u8]) -> Result<EventKind, LineFault>
    ensures { IsLineAnswer (λ x. x) result (commit_at text.now) }
{
    let (job, rest) = number_field(text)?;
    let is_ready = ready(rest)?;
    Ok(EventKind::Commit(job, is_ready))
}

/// What stands behind the word `beat`.
#[tactic(auto, unfolding(crate::specs::Line::beat_at))]
fn beat(scopes: Scopes, text: &[u8]) -> Result<EventKind, LineFault>
    ensures { IsLineAnswer (λ x. x) result (beat_at scopes text.now) }
{
    let (server, rest) = host_field(scopes, text)?;
    let rest = strip(rest, b"nonce ")?;
    let (nonce, rest) = number_field(rest)?;
    let rest = strip(rest, b"cpus ")?;
    let cpus = number(rest)?;
    Ok(EventKind::Beat(server, ServerNonce::new(nonce), cpus))
}

/// What stands behind the word `update`.
#[tactic(auto, unfolding(crate::specs::Line::update_at))]
fn update(scopes: Scopes, text: &[u8]) -> Result<EventKind, LineFault>
    ensures { IsLineAnswer (λ x. x) result (update_at scopes text.now) }
{
    let (server, rest) = host_field(scopes, text)?;
    let (job, rest) = number_field(rest)?;
    let state = state(rest)?;
    Ok(EventKind::Update(server, job, state))
}

/// What stands behind the word of an event.
fn kind_behind(
    alloc: Global,
    scopes: Scopes,
    word: &[u8],
    text: &[u8],
) -> Result<EventKind, LineFault>
    ensures { IsLineAnswer (λ x. x) result (kind_behind scopes word.now text.now) }
{
    if word == b"alloc".as_slice() {
        let client = token(alloc, text)?;
        return Ok(EventKind::Alloc(client));
    }
    if word == b"commit".as_slice() {
        return commit(text);
    }
    if word == b"undo".as_slice() {
        let job = number(text)?;
        return Ok(EventKind::Undo(job));
    }
    if word == b"beat".as_slice() {
        return beat(scopes, text);
    }
    if word == b"update".as_slice() {
        return update(scopes, text);
    }
    Err(LineFault::Bad)
}

/// What happens, behind its moment.
#[tactic(auto, unfolding(crate::specs::Line::kind_at))]
fn kind(alloc: Global, scopes: Scopes, text: &[u8]) -> Result<EventKind, LineFault>
    ensures { IsLineAnswer (λ x. x) result (kind_at scopes text.now) }
{
    if text == b"status".as_slice() {
        return Ok(EventKind::Status);
    }
    let (word, rest) = first_word(text)?;
    kind_behind(alloc, scopes, word, rest)
}

/// A moment, and what happens at it.
#[tactic(auto, unfolding(crate::specs::Line::event_at))]
fn event(alloc: Global, scopes: Scopes, text: &[u8]) -> Result<Event, LineFault>
    ensures { IsLineAnswer (λ x. x) result (event_at scopes text.now) }
{
    let (at, rest) = number_field(text)?;
    let kind = kind(alloc, scopes, rest)?;
    Ok(Event { at, kind })
}

/// What stands behind the word `client`.
#[tactic(auto, unfolding(crate::specs::Line::client_at))]
fn client(alloc: Global, text: &[u8]) -> Result<Line, LineFault>
    ensures { IsLineAnswer (λ x. x) result (client_at text.now) }
{
    let (name, rest) = token_field(alloc, text)?;
    let rest = strip(rest, b"limit ")?;
    let limit = number(rest)?;
    Ok(Line::Client(name, limit))
}

/// What a line says that is not skipped.
#[tactic(auto, unfolding(crate::specs::Line::said_at))]
fn said(alloc: Global, scopes: Scopes, text: &[u8]) -> Result<Line, LineFault>
    ensures { IsLineAnswer (λ x. x) result (said_at scopes text.now) }
{
    if let Some(rest) = text.strip_prefix(b"ids ".as_slice()) {
        let base = number(rest)?;
        return Ok(Line::Ids(base));
    }
    if let Some(rest) = text.strip_prefix(b"client ".as_slice()) {
        let line = client(alloc, rest)?;
        return Ok(line);
    }
    let event = event(alloc, scopes, text)?;
    Ok(Line::Event(event))
}

/// What a line says, without its end. A line with a scoped address is read only where those are taken. Bad where
/// it is not in the grammar; Memory for want of memory alone.
#[tactic(auto, unfolding(crate::specs::Line::line_at))]
pub fn read_line(alloc: Global, scopes: Scopes, text: &[u8]) -> Result<Line, LineFault>
    ensures { IsLineAnswer (λ x. x) result (line_at scopes text.now) }
{
    match text {
        [] => Ok(Line::Skip),
        [35, ..] => Ok(Line::Skip),
        [_, ..] => said(alloc, scopes, text),
    }
}
