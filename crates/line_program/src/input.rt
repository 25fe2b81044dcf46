//! The input of a program over lines.
ghost use Rattle.std.specs.Prelude.{◌≡◌, ◌≤◌, ◌⊎◌, length, IfOk, IfErr, OnOk, OnErr};
ghost use Rattle.dist_types.specs.Cause.{Rose};
ghost use Rattle.dist_types.specs.Content.{Taken, IsAtEnd};
ghost use Rattle.line_program.specs.Limits.{bytes_read, run_bytes_read};
ghost use Rattle.line_program.specs.Side.{side};
ghost use Rattle.line_program.specs.Input.{IsReadTo, IsReadWithin, IsReadWhole, IsReadInPart};
ghost use Rattle.line_program.specs.declared.fault.FarmFault.TheVariants as fault;

use crate::fault::FarmFault;
use crate::limits::{MAX_BYTES, MAX_RUN_BYTES};
use dist_types::source::{ReadError, Source, read_up_to};
use std::alloc::Global;

/// Reads the input to its end, or so many bytes of it. ReadFault comes only where the count of the input rose;
/// where it failed or memory ran out, no more was taken than that.
pub fn read_to<S: Source>(alloc: Global, input: &mut S, most: usize) -> Result<Vec<u8>, FarmFault>
    ensures taken { IfOk result (λ v. Taken v.items (S.left input.old) (S.left input.new)) }
    ensures whole { IfOk result (λ v. (length v.items ≡ most) ⊎ IsAtEnd (S.left input.new)) }
    ensures within { IfOk result (λ v. length v.items ≤ most) }
    ensures read { OnOk result
        (IsReadTo most (side S.left S.faults input.old) (side S.left S.faults input.new)) }
    ensures err { IfErr result (λ f. ((f ≡ fault.Memory) × (S.faults input.new ≡ S.faults input.old))
        ⊎ ((f ≡ fault.ReadFault) × Rose (S.faults input.old) (S.faults input.new))) }
    ensures part { OnErr result
        (IsReadWithin most (side S.left S.faults input.old) (side S.left S.faults input.new)) }
{
    match read_up_to(alloc, input, most) {
        Ok(bytes) => Ok(bytes),
        Err(ReadError::Memory) => Err(FarmFault::Memory),
        Err(ReadError::Failed) => Err(FarmFault::ReadFault),
        Err(ReadError::TooLong) => unreachable!(),
    }
}

/// Reads a script, to its end or to one byte past the limit. ReadFault comes only where the count of the
/// input rose; where it failed or memory ran out, no more was taken than that.
pub fn read_input<S: Source>(alloc: Global, input: &mut S) -> Result<Vec<u8>, FarmFault>
    ensures taken { IfOk result (λ v. Taken v.items (S.left input.old) (S.left input.new)) }
    ensures whole { IfOk result (λ v. (length v.items ≡ bytes_read) ⊎ IsAtEnd (S.left input.new)) }
    ensures read { OnOk result
        (IsReadWhole (side S.left S.faults input.old) (side S.left S.faults input.new)) }
    ensures err { IfErr result (λ f. ((f ≡ fault.Memory) × (S.faults input.new ≡ S.faults input.old))
        ⊎ ((f ≡ fault.ReadFault) × Rose (S.faults input.old) (S.faults input.new))) }
    ensures part { OnErr result
        (IsReadInPart (side S.left S.faults input.old) (side S.left S.faults input.new)) }
{
    read_to(alloc, input, MAX_BYTES + 1)
}

/// Reads a printed run, to its end or to one byte past the limit. ReadFault comes only where the count of the
/// input rose; where it failed or memory ran out, no more was taken than that.
pub fn read_run<S: Source>(alloc: Global, input: &mut S) -> Result<Vec<u8>, FarmFault>
    ensures taken { IfOk result (λ v. Taken v.items (S.left input.old) (S.left input.new)) }
    ensures whole { IfOk result (λ v. (length v.items ≡ run_bytes_read) ⊎ IsAtEnd (S.left input.new)) }
    ensures within { IfOk result (λ v. length v.items ≤ run_bytes_read) }
    ensures read { OnOk result
        (IsReadTo run_bytes_read (side S.left S.faults input.old) (side S.left S.faults input.new)) }
    ensures err { IfErr result (λ f. ((f ≡ fault.Memory) × (S.faults input.new ≡ S.faults input.old))
        ⊎ ((f ≡ fault.ReadFault) × Rose (S.faults input.old) (S.faults input.new))) }
    ensures part { OnErr result
        (IsReadWithin run_bytes_read (side S.left S.faults input.old) (side S.left S.faults input.new)) }
{
    read_to(alloc, input, MAX_RUN_BYTES + 1)
}
