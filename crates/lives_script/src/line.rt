//! What a line of a script says.
ghost use Rattle.std.specs.Prelude.{◌≡◌, IfOk};
ghost use Rattle.farm_script.specs.Reading.{IsLineAnswer};
ghost use Rattle.lives_script.specs.Place.{HasRange};
ghost use Rattle.lives_script.specs.Line.{life_of, life_at, line_of, line_at};

use farm_script::event::Event;
use farm_script::fields::{number, number_field};
use farm_script::lines as farm;
use farm_script::lines::{Scopes, SetupLine};
use line_program::fault::LineFault;
use std::alloc::Global;

/// What a line says.
#[derive(Debug, Drop)]
pub enum Line {
    /// Nothing.
    Skip,
    /// How the farm is set up.
    Setup(SetupLine),
    /// A life begins: the first of its ids, and how many it has.
    Life(u64, u64),
    /// What happens.
    Event(Event),
}

/// A life of so many ids, of which there is one at least.
fn life_of(from: u64, count: u64) -> Result<Line, LineFault>
    ensures { IsLineAnswer (λ x. x) result (life_of from count) }
{
    if count == 0 {
        return Err(LineFault::Bad);
    }
    Ok(Line::Life(from, count))
}

/// What stands behind the word `life`.
#[tactic(auto, unfolding(crate::specs::Line::life_at))]
fn life(text: &[u8]) -> Result<Line, LineFault>
    ensures { IsLineAnswer (λ x. x) result (life_at text.now) }
{
    let (from, rest) = number_field(text)?;
    let count = number(rest)?;
    life_of(from, count)
}

/// A line of a farm's script.
fn line_of(line: farm::Line) -> Line
    ensures { result ≡ line_of line }
{
    match line {
        farm::Line::Skip => Line::Skip,
        farm::Line::Setup(setup) => Line::Setup(setup),
        farm::Line::Event(event) => Line::Event(event),
    }
}

/// What a line says, without its end. A line with a scoped address is read only where those are taken. Bad where
/// it is not in the grammar; Memory for want of memory alone.
#[tactic(auto, unfolding(crate::specs::Line::line_at))]
pub fn line_with(alloc: Global, scopes: Scopes, text: &[u8]) -> Result<Line, LineFault>
    ensures exact { IsLineAnswer (λ x. x) result (line_at scopes text.now) }
    ensures some { IfOk result HasRange }
{
    if let Some(rest) = text.strip_prefix(b"life ".as_slice()) {
        let line = life(rest)?;
        return Ok(line);
    }
    let line = farm::line_with(alloc, scopes, text)?;
    Ok(line_of(line))
}
