//! The storm, and its summary on the output.
ghost use Rattle.line_program.specs.Side.{side};
ghost use Rattle.farm.specs.Command.{IsStormRun};

use dist_types::sink::{Sink, write_all};
use farm_storm::storm_text;
use line_program::fault::FarmFault;
use std::alloc::Global;

/// Writes the summary of the storm of so many events.
pub fn run_storm<K: Sink>(alloc: Global, count: u64, out: &mut K) -> Result<(), FarmFault>
    ensures run { IsStormRun count result
        (side K.held K.faults out.old) (side K.held K.faults out.new) }
{
    let text = match storm_text(alloc, count) {
        Ok(text) => text,
        Err(fault) => return Err(fault),
    };
    match write_all(out, text.as_bytes()) {
        Ok(()) => Ok(()),
        Err(_) => Err(FarmFault::WriteFault),
    }
}
