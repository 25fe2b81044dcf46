//! What the line of a core entry says, behind its number.
ghost use Rattle.std.specs.Prelude.{◌≡◌};
ghost use Rattle.farm_script.specs.Reading.{IsLineAnswer};
ghost use Rattle.run_lines.specs.CoreLines.{job_at, reserved_at, commit_at, undo_at, beat_at, advance_at};
ghost use Rattle.run_lines.specs.CoreLines.{update_at, status_at, drain_at, core_behind, core_at};

use crate::fields::{either, either_field, exact_field, maybe, maybe_field, state, state_field};
use crate::lists::{jobs_field, numbers, numbers_field};
use core_rules::entry::{CoreKind, Reserved, UpdateAnswer};
use dist_types::ids::{JobId, ServerId, ServerNonce};
use dist_types::text::{Bytes, Items};
use farm_script::fields::{number, number_field};
use farm_script::words::{first_word, strip};
use line_program::fault::LineFault;
use std::alloc::Global;

/// What a reserve gave, behind the word `job`.
#[tactic(auto, unfolding(crate::specs::CoreLines::job_at))]
fn job(alloc: Global, text: &[u8]) -> Result<Reserved, LineFault>
    ensures { IsLineAnswer (λ x. x) result (job_at text.now) }
{
    let (job, rest) = number_field(text)?;
    let rest = strip(rest, b"reg ")?;
    let (reg, rest) = number_field(rest)?;
    let rest = strip(rest, b"forgiven ")?;
    let forgiven = numbers(alloc, rest)?;
    Ok(Reserved::Job {
        job: JobId(job),
        reg,
        forgiven: Items::new(forgiven),
    })
}

/// What stands behind the word `reserve`.
#[tactic(auto, unfolding(crate::specs::CoreLines::reserved_at))]
fn reserved(alloc: Global, text: &[u8]) -> Result<Reserved, LineFault>
    ensures { IsLineAnswer (λ x. x) result (reserved_at text.now) }
{
    if let Some(rest) = text.strip_prefix(b"job ".as_slice()) {
        return job(alloc, rest);
    }
    if let Some(rest) = text.strip_prefix(b"none ".as_slice()) {
        let standing = number(rest)?;
        return Ok(Reserved::NoRoom(standing));
    }
    if text == b"spent".as_slice() {
        return Ok(Reserved::Spent);
    }
    Err(LineFault::Bad)
}

/// What stands behind the word `commit`.
#[tactic(auto, unfolding(crate::specs::CoreLines::commit_at))]
fn commit(text: &[u8]) -> Result<CoreKind, LineFault>
    ensures { IsLineAnswer (λ x. x) result (commit_at text.now) }
{
    let rest = strip(text, b"job ")?;
    let (job, rest) = number_field(rest)?;
    let rest = strip(rest, b"state ")?;
    let (state, rest) = state_field(rest)?;
    let kept = either(rest, b"kept", b"dropped")?;
    Ok(CoreKind::Commit {
        job: JobId(job),
        state,
        kept,
    })
}

/// What stands behind the word `undo`.
#[tactic(auto, unfolding(crate::specs::CoreLines::undo_at))]
fn undo(text: &[u8]) -> Result<CoreKind, LineFault>
    ensures { IsLineAnswer (λ x. x) result (undo_at text.now) }
{
    let rest = strip(text, b"job ")?;
    let (job, rest) = number_field(rest)?;
    let rest = strip(rest, b"noted ")?;
    let (noted, rest) = maybe_field(rest)?;
    let rest = strip(rest, b"ended ")?;
    let ended = either(rest, b"yes", b"no")?;
    Ok(CoreKind::Undo {
        job: JobId(job),
        noted,
        ended,
    })
}

/// What stands behind the word `beat`.
#[tactic(auto, unfolding(crate::specs::CoreLines::beat_at))]
fn beat(alloc: Global, text: &[u8]) -> Result<CoreKind, LineFault>
    ensures { IsLineAnswer (λ x. x) result (beat_at text.now) }
{
    let (server, rest) = exact_field(alloc, text)?;
    let rest = strip(rest, b"nonce ")?;
    let (nonce, rest) = number_field(rest)?;
    let rest = strip(rest, b"cpus ")?;
    let (cpus, rest) = number_field(rest)?;
    let rest = strip(rest, b"pruned ")?;
    let (pruned, rest) = numbers_field(alloc, rest)?;
    let rest = strip(rest, b"reaped ")?;
    let (reaped, rest) = jobs_field(alloc, rest)?;
    let rest = strip(rest, b"replaced ")?;
    let (replaced, rest) = maybe_field(rest)?;
    let is_new = either(rest, b"new", b"old")?;
    Ok(CoreKind::Beat {
        server: ServerId::new(server),
        nonce: ServerNonce::new(nonce),
        cpus,
        key: Bytes::new(Vec::new(alloc)),
        pruned,
        reaped,
        replaced,
        is_new,
    })
}

/// The answer to an update.
#[tactic(auto, unfolding(crate::specs::CoreLines::advance_at))]
fn advance(text: &[u8]) -> Result<UpdateAnswer, LineFault>
    ensures { IsLineAnswer (λ x. x) result (advance_at text.now) }
{
    if let Some(rest) = text.strip_prefix(b"transition ".as_slice()) {
        let state = state(rest)?;
        return Ok(UpdateAnswer::Transition(state));
    }
    if text == b"accepted".as_slice() {
        return Ok(UpdateAnswer::Accepted);
    }
    if text == b"unknown".as_slice() {
        return Ok(UpdateAnswer::Unknown);
    }
    if text == b"wrong".as_slice() {
        return Ok(UpdateAnswer::Wrong);
    }
    Err(LineFault::Bad)
}

/// What stands behind the word `update`.
#[tactic(auto, unfolding(crate::specs::CoreLines::update_at))]
fn update(alloc: Global, text: &[u8]) -> Result<CoreKind, LineFault>
    ensures { IsLineAnswer (λ x. x) result (update_at text.now) }
{
    let (server, rest) = exact_field(alloc, text)?;
    let rest = strip(rest, b"job ")?;
    let (job, rest) = number_field(rest)?;
    let rest = strip(rest, b"state ")?;
    let (state, rest) = state_field(rest)?;
    let answer = advance(rest)?;
    Ok(CoreKind::Update {
        server: ServerId::new(server),
        job: JobId(job),
        state,
        answer,
    })
}

/// What stands behind the word `status`.
#[tactic(auto, unfolding(crate::specs::CoreLines::status_at))]
fn status(alloc: Global, text: &[u8]) -> Result<CoreKind, LineFault>
    ensures { IsLineAnswer (λ x. x) result (status_at text.now) }
{
    let rest = strip(text, b"pruned ")?;
    let (pruned, rest) = numbers_field(alloc, rest)?;
    let rest = strip(rest, b"servers ")?;
    let (servers, rest) = number_field(rest)?;
    let rest = strip(rest, b"cpus ")?;
    let (cpus, rest) = number_field(rest)?;
    let rest = strip(rest, b"jobs ")?;
    let jobs = number(rest)?;
    Ok(CoreKind::Status {
        pruned,
        servers,
        cpus,
        jobs,
    })
}

/// What stands behind the word `drain`.
#[tactic(auto, unfolding(crate::specs::CoreLines::drain_at))]
fn drain(alloc: Global, text: &[u8]) -> Result<CoreKind, LineFault>
    ensures { IsLineAnswer (λ x. x) result (drain_at text.now) }
{
    let (server, rest) = exact_field(alloc, text)?;
    let rest = strip(rest, b"nonce ")?;
    let (nonce, rest) = number_field(rest)?;
    let (on, rest) = either_field(rest, b"on", b"off")?;
    let rest = strip(rest, b"reg ")?;
    let reg = maybe(rest)?;
    Ok(CoreKind::Drain {
        server: ServerId::new(server),
        nonce: ServerNonce::new(nonce),
        on,
        reg,
    })
}

/// What a core entry says, by its word and what stands behind it.
fn core_behind(alloc: Global, word: &[u8], text: &[u8]) -> Result<CoreKind, LineFault>
    ensures { IsLineAnswer (λ x. x) result (core_behind word.now text.now) }
{
    if word == b"reserve".as_slice() {
        let reserved = reserved(alloc, text)?;
        return Ok(CoreKind::Reserve(reserved));
    }
    if word == b"commit".as_slice() {
        return commit(text);
    }
    if word == b"undo".as_slice() {
        return undo(text);
    }
    if word == b"beat".as_slice() {
        return beat(alloc, text);
    }
    if word == b"update".as_slice() {
        return update(alloc, text);
    }
    if word == b"status".as_slice() {
        return status(alloc, text);
    }
    if word == b"drain".as_slice() {
        return drain(alloc, text);
    }
    Err(LineFault::Bad)
}

/// What a core entry says.
#[tactic(auto, unfolding(crate::specs::CoreLines::core_at))]
pub fn core(alloc: Global, text: &[u8]) -> Result<CoreKind, LineFault>
    ensures { IsLineAnswer (λ x. x) result (core_at text.now) }
{
    let (word, rest) = first_word(text)?;
    core_behind(alloc, word, rest)
}
