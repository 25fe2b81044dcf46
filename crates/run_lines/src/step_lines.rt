//! What the line of a step says, behind the address of its build server.
ghost use Rattle.std.specs.Prelude.{◌≡◌};
ghost use Rattle.farm_script.specs.Reading.{IsLineAnswer};
ghost use Rattle.run_lines.specs.StepLines.{heard_at, assigned_at, stored_at, outcome_at, submitted_at, ran_at};
ghost use Rattle.run_lines.specs.StepLines.{run_step_at, step_behind, step_at};

use crate::fields::{either, id};
use crate::lists::{archives, ids};
use build_server::run::Ran;
use build_server::submit::Submitted;
use dist_types::ids::JobId;
use dist_types::text::Items;
use farm_entries::entry::{HeardAs, StepKind};
use farm_script::fields::{number, number_field};
use farm_script::words::{first_word, strip};
use line_program::fault::LineFault;
use std::alloc::Global;

/// How a heartbeat was settled.
fn heard(text: &[u8]) -> Result<HeardAs, LineFault>
    ensures { IsLineAnswer (λ x. x) result (heard_at text.now) }
{
    if text == b"new".as_slice() {
        return Ok(HeardAs::New);
    }
    if text == b"old".as_slice() {
        return Ok(HeardAs::Old);
    }
    if text == b"lost".as_slice() {
        return Ok(HeardAs::Lost);
    }
    Err(LineFault::Bad)
}

/// What stands behind the word `assigned`.
#[tactic(auto, unfolding(crate::specs::StepLines::assigned_at))]
fn assigned(text: &[u8]) -> Result<StepKind, LineFault>
    ensures { IsLineAnswer (λ x. x) result (assigned_at text.now) }
{
    let (job, rest) = number_field(text)?;
    let (word, rest) = first_word(rest)?;
    let tc = id(word)?;
    let ready = either(rest, b"ready", b"pending")?;
    Ok(StepKind::Assigned {
        job: JobId(job),
        tc,
        ready,
    })
}

/// What stands behind the word `stored`.
#[tactic(auto, unfolding(crate::specs::StepLines::stored_at))]
fn stored(alloc: Global, text: &[u8]) -> Result<Submitted, LineFault>
    ensures { IsLineAnswer (λ x. x) result (stored_at text.now) }
{
    let (size, rest) = number_field(text)?;
    let rest = strip(rest, b"dropped ")?;
    let dropped = ids(alloc, rest)?;
    Ok(Submitted::Stored(size, Items::new(dropped)))
}

/// How a submission went.
#[tactic(auto, unfolding(crate::specs::StepLines::outcome_at))]
fn outcome(alloc: Global, text: &[u8]) -> Result<Submitted, LineFault>
    ensures { IsLineAnswer (λ x. x) result (outcome_at text.now) }
{
    if let Some(rest) = text.strip_prefix(b"stored ".as_slice()) {
        return stored(alloc, rest);
    }
    if let Some(rest) = text.strip_prefix(b"refused folder dropped ".as_slice()) {
        let dropped = ids(alloc, rest)?;
        return Ok(Submitted::Folder(Items::new(dropped)));
    }
    if text == b"none".as_slice() {
        return Ok(Submitted::None);
    }
    if text == b"listed".as_slice() {
        return Ok(Submitted::Listed);
    }
    if text == b"refused digest".as_slice() {
        return Ok(Submitted::Digest);
    }
    if text == b"refused capacity".as_slice() {
        return Ok(Submitted::Capacity);
    }
    Err(LineFault::Bad)
}

/// What stands behind the word `submitted`.
#[tactic(auto, unfolding(crate::specs::StepLines::submitted_at))]
fn submitted(alloc: Global, text: &[u8]) -> Result<StepKind, LineFault>
    ensures { IsLineAnswer (λ x. x) result (submitted_at text.now) }
{
    let (job, rest) = number_field(text)?;
    let outcome = outcome(alloc, rest)?;
    Ok(StepKind::Submitted {
        job: JobId(job),
        outcome,
    })
}

/// How a run went.
#[tactic(auto, unfolding(crate::specs::StepLines::ran_at))]
fn ran(text: &[u8]) -> Result<Ran, LineFault>
    ensures { IsLineAnswer (λ x. x) result (ran_at text.now) }
{
    if let Some(rest) = text.strip_prefix(b"unlisted ".as_slice()) {
        let tc = id(rest)?;
        return Ok(Ran::Unlisted(tc));
    }
    if let Some(rest) = text.strip_prefix(b"folder ".as_slice()) {
        let tc = id(rest)?;
        return Ok(Ran::Folder(tc));
    }
    if let Some(rest) = text.strip_prefix(b"built ".as_slice()) {
        let tc = id(rest)?;
        return Ok(Ran::Built(tc));
    }
    if let Some(rest) = text.strip_prefix(b"refused ".as_slice()) {
        let tc = id(rest)?;
        return Ok(Ran::Refused(tc));
    }
    if text == b"none".as_slice() {
        return Ok(Ran::None);
    }
    Err(LineFault::Bad)
}

/// What stands behind the word `ran`.
#[tactic(auto, unfolding(crate::specs::StepLines::run_step_at))]
fn run_step(text: &[u8]) -> Result<StepKind, LineFault>
    ensures { IsLineAnswer (λ x. x) result (run_step_at text.now) }
{
    let (job, rest) = number_field(text)?;
    let ran = ran(rest)?;
    Ok(StepKind::Ran {
        job: JobId(job),
        ran,
        result: None,
    })
}

/// What a build server did, by its word and what stands behind it.
fn step_behind(alloc: Global, word: &[u8], text: &[u8]) -> Result<StepKind, LineFault>
    ensures { IsLineAnswer (λ x. x) result (step_behind word.now text.now) }
{
    if word == b"heard".as_slice() {
        let heard = heard(text)?;
        return Ok(StepKind::Heard(heard));
    }
    if word == b"assigned".as_slice() {
        return assigned(text);
    }
    if word == b"submitted".as_slice() {
        return submitted(alloc, text);
    }
    if word == b"ran".as_slice() {
        return run_step(text);
    }
    if word == b"finished".as_slice() {
        let job = number(text)?;
        return Ok(StepKind::Finished { job: JobId(job) });
    }
    if word == b"unreported".as_slice() {
        let job = number(text)?;
        return Ok(StepKind::Unreported { job: JobId(job) });
    }
    if word == b"opened".as_slice() {
        let archives = archives(alloc, text)?;
        return Ok(StepKind::Opened(Items::new(archives)));
    }
    Err(LineFault::Bad)
}

/// What a build server did.
#[tactic(auto, unfolding(crate::specs::StepLines::step_at))]
pub fn step(alloc: Global, text: &[u8]) -> Result<StepKind, LineFault>
    ensures { IsLineAnswer (λ x. x) result (step_at text.now) }
{
    let (word, rest) = first_word(text)?;
    step_behind(alloc, word, rest)
}
