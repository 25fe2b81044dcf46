//! One line alone.
ghost use Rattle.farm_script.specs.Lines.{line_at};
ghost use Rattle.farm_script.specs.Reader.{IsReadAs, IsRefused};
ghost use Rattle.farm_script.specs.declared.lines.Scopes.TheVariants.{Refused, Taken};

use crate::lines::{Line, Scopes, line_with};
use line_program::fault::LineFault as ScopesFault;
use std::alloc::Global;

/// Why a line is none.
#[derive(Clone, Copy, Debug, PartialEq, Eq)]
pub enum LineFault {
    /// It is not in the grammar, even where an address may have a scope.
    Bad,
    /// It is a line but for the scope of an address.
    Scoped,
    /// Memory ran out.
    Memory,
}

/// Why a line is none that is not in the grammar of addresses without scopes.
fn refused(alloc: Global, line: &[u8]) -> LineFault
    ensures told { IsRefused result (line_at Taken line.now) }
{
    match line_with(alloc, Scopes::Taken, line) {
        Ok(_) => LineFault::Scoped,
        Err(ScopesFault::Bad) => LineFault::Bad,
        Err(ScopesFault::Memory) => LineFault::Memory,
    }
}

/// What a line says, without its end, or why it is none. Memory for want of memory alone.
pub fn read_line(alloc: Global, line: &[u8]) -> Result<Line, LineFault>
    ensures exact { IsReadAs result (line_at Refused line.now) (line_at Taken line.now) }
{
    match line_with(alloc, Scopes::Refused, line) {
        Ok(said) => Ok(said),
        Err(ScopesFault::Bad) => Err(refused(alloc, line)),
        Err(ScopesFault::Memory) => Err(LineFault::Memory),
    }
}
