//! What a line of a script says.
ghost use Rattle.std.specs.Prelude.{◌≡◌};
ghost use Rattle.farm_script.specs.Reading.{IsLineAnswer};
ghost use Rattle.mirror_script.specs.Line.{id_at, put_at, capacity_at, line_behind, said_at, line_at};

use dist_types::text::Bytes;
use dist_types::toolchain::Toolchain;
use farm_script::fields::{hex, number};
use farm_script::words::{all_visible, first_word, strip, visible_text};
use line_program::fault::LineFault;
use std::alloc::Global;

/// One of the two caches of a mirror.
#[derive(Clone, Copy, Debug, PartialEq, Eq)]
pub enum Site {
    /// The one that is asked first.
    Near,
    /// The one that is asked over a connection, for what the near one does not list.
    Far,
}

/// What is done.
#[derive(Debug, Drop)]
pub enum Step {
    /// These bytes are put into a cache.
    Put(Site, Bytes),
    /// The archive of a toolchain is asked for.
    Get(Toolchain),
    /// The next ask of the far cache fails.
    Lose,
    /// The next ask of the far cache is answered with this body.
    Lie(Bytes),
}

/// What a line says.
#[derive(Debug, Drop)]
pub enum Line {
    /// Nothing.
    Skip,
    /// How many bytes a cache takes.
    Capacity(Site, u64),
    /// What is done.
    Step(Step),
}

/// An id, which is 64 hex digits of either case.
fn id(word: &[u8]) -> Result<Toolchain, LineFault>
    ensures { IsLineAnswer (λ x. x) result (id_at word.now) }
{
    if !all_visible(word) {
        return Err(LineFault::Bad);
    }
    match Toolchain::new(visible_text(word)) {
        Ok(tc) => Ok(tc),
        Err(_) => Err(LineFault::Bad),
    }
}

/// What stands behind the name of a cache, as how many bytes it takes.
fn capacity(site: Site, text: &[u8]) -> Result<Line, LineFault>
    ensures { IsLineAnswer (λ x. x) result (capacity_at site text.now) }
{
    let bytes = number(text)?;
    Ok(Line::Capacity(site, bytes))
}

/// What stands behind the word `put`.
#[tactic(auto, unfolding(crate::specs::Line::put_at))]
fn put(alloc: Global, text: &[u8]) -> Result<Step, LineFault>
    ensures { IsLineAnswer (λ x. x) result (put_at text.now) }
{
    match text.strip_prefix(b"near ".as_slice()) {
        Some(rest) => {
            let bytes = hex(alloc, rest)?;
            Ok(Step::Put(Site::Near, bytes))
        }
        None => {
            let rest = strip(text, b"far ")?;
            let bytes = hex(alloc, rest)?;
            Ok(Step::Put(Site::Far, bytes))
        }
    }
}

/// What a line says, by its first word and what stands behind it.
fn line_behind(alloc: Global, word: &[u8], text: &[u8]) -> Result<Line, LineFault>
    ensures { IsLineAnswer (λ x. x) result (line_behind word.now text.now) }
{
    if word == b"near".as_slice() {
        return capacity(Site::Near, text);
    }
    if word == b"far".as_slice() {
        return capacity(Site::Far, text);
    }
    if word == b"put".as_slice() {
        let step = put(alloc, text)?;
        return Ok(Line::Step(step));
    }
    if word == b"get".as_slice() {
        let tc = id(text)?;
        return Ok(Line::Step(Step::Get(tc)));
    }
    if word == b"lie".as_slice() {
        let body = hex(alloc, text)?;
        return Ok(Line::Step(Step::Lie(body)));
    }
    Err(LineFault::Bad)
}

/// What a line says that is not skipped.
#[tactic(auto, unfolding(crate::specs::Line::said_at))]
fn said(alloc: Global, text: &[u8]) -> Result<Line, LineFault>
    ensures { IsLineAnswer (λ x. x) result (said_at text.now) }
{
    if text == b"lose".as_slice() {
        return Ok(Line::Step(Step::Lose));
    }
    let (word, rest) = first_word(text)?;
    line_behind(alloc, word, rest)
}

/// What a line says, without its end. Bad where it is not in the grammar; Memory for want of memory alone.
#[tactic(auto, unfolding(crate::specs::Line::line_at))]
pub fn read_line(alloc: Global, text: &[u8]) -> Result<Line, LineFault>
    ensures { IsLineAnswer (λ x. x) result (line_at text.now) }
{
    match text {
        [] => Ok(Line::Skip),
        [35, ..] => Ok(Line::Skip),
        [_, ..] => said(alloc, text),
    }
}
