//! The audit of a printed run, on the output.
ghost use Rattle.std.specs.Prelude.{OnOk, IfErr};
ghost use Rattle.line_program.specs.Side.{side};
ghost use Rattle.audit.specs.Held.{IsHeld};
ghost use Rattle.farm.specs.Audited.{IsAuditRun, IsNoHold};

use audit::audit::audit;
use audit::verdict::Verdict;
use dist_types::sink::{Sink, write_all};
use dist_types::source::Source;
use line_program::fault::FarmFault;
use line_program::input::read_run;
use std::alloc::Global;

/// What is written of a printed run that holds.
const HOLDS: &[u8] = b"audit holds\n";

/// Judges a printed run, or what is none.
fn judge(alloc: Global, text: &[u8]) -> Result<(), FarmFault>
    ensures held { OnOk result (IsHeld text.now) }
    ensures refused { IfErr result (λ f. IsNoHold text.now f) }
{
    match audit(alloc, text) {
        Ok(Verdict::Holds) => Ok(()),
        Ok(Verdict::Refused(line, why)) => Err(FarmFault::AuditRefused(line, why)),
        Err(_) => Err(FarmFault::Memory),
    }
}

/// Reads a printed run to its end, or to one byte past the limit, judges it, and writes that it holds.
pub fn run_audit<S: Source, K: Sink>(
    alloc: Global,
    input: &mut S,
    out: &mut K,
) -> Result<(), FarmFault>
    ensures run { IsAuditRun result
        (side S.left S.faults input.old) (side S.left S.faults input.new)
        (side K.held K.faults out.old) (side K.held K.faults out.new) }
{
    let bytes = match read_run(alloc, input) {
        Ok(bytes) => bytes,
        Err(fault) => return Err(fault),
    };
    match judge(alloc, &bytes) {
        Ok(()) => match write_all(out, HOLDS) {
            Ok(()) => Ok(()),
            Err(_) => Err(FarmFault::WriteFault),
        },
        Err(fault) => Err(fault),
    }
}
