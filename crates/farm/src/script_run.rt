//! The text of the run of a script.
ghost use Rattle.std.specs.Prelude.{◌≡◌, ◌⊎◌, string_bytes, IfOk, IfErr};
ghost use Rattle.farm_script.specs.FirstFaulty.{IsFirstFaulty};
ghost use Rattle.line_program.specs.declared.fault.FarmFault.TheVariants as fault;
ghost use Rattle.farm_entries.specs.RunText.{IsReadText};
ghost use Rattle.line_program.specs.Report.{NamesLine};

use farm_run::begin;
use farm_run::print::print_run;
use farm_script::script::read_script;
use line_program::fault::FarmFault;
use std::alloc::Global;

/// The text of the run of a script, or its first faulty line, or want of memory.
#[tactic(auto, using(crate::proofs::ScriptRunLemmas::line_or_memory, crate::proofs::ScriptRunLemmas::setup_apart))]
pub fn run_of(alloc: Global, bytes: &[u8]) -> Result<String, FarmFault>
    ensures ok { IfOk result (λ text. IsReadText bytes.now (string_bytes text)) }
    ensures err { IfErr result (λ f. (f ≡ fault.Memory) ⊎ (NamesLine f × IsFirstFaulty bytes.now f)) }
{
    let (setup, events) = match read_script(alloc, bytes) {
        Ok(read) => read,
        Err(fault) => return Err(fault),
    };
    let farm = begin::setup(alloc, &setup)?;
    match farm.run(&events) {
        Ok(farm) => print_run(alloc, &farm),
        Err(_) => Err(FarmFault::Memory),
    }
}
