//! The program of a scheduler's lives: those of a script, one after the other.
ghost use Rattle.std.specs.Prelude.{◌≡◌, ℕ, List, Option, map, string_bytes};
ghost use Rattle.line_program.specs.Program.{IsEnough, HasRun, IsOutcome, call};
ghost use Rattle.line_program.specs.Side.{side};
ghost use Rattle.lives.specs.Program.{lives_runs};

use crate::run::lives_of;
use dist_types::sink::{Sink, write_all};
use dist_types::source::Source;
use line_program::fault::FarmFault;
use line_program::program::{Program, program_main};
use lives_script::script::read_lives;
use std::alloc::Global;

/// Runs the lives of a script that was read, and writes their text.
fn run_script<K: Sink>(alloc: Global, bytes: &[u8], out: &mut K) -> Result<(), FarmFault>
    ensures run { (content : Option (List ℕ)) → IsEnough bytes.now content
        → HasRun lives_runs result content (side K.held K.faults out.old) (side K.held K.faults out.new) }
{
    let script = match read_lives(alloc, bytes) {
        Ok(script) => script,
        Err(fault) => return Err(fault),
    };
    let text = match lives_of(alloc, &script) {
        Ok(text) => text,
        Err(_) => return Err(FarmFault::Memory),
    };
    match write_all(out, text.as_bytes()) {
        Ok(()) => Ok(()),
        Err(_) => Err(FarmFault::WriteFault),
    }
}

/// The program of a scheduler's lives.
pub struct Lives;

impl Program for Lives {
    ghost runs = { lives_runs };

    fn name() -> &'static str {
        "sccache_lives"
    }

    fn run<K: Sink>(alloc: Global, bytes: &[u8], out: &mut K) -> Result<(), FarmFault> {
        run_script(alloc, bytes, out)
    }
}

/// The program: reads a script from input, to its end or to one byte past the limit of scripts, before any line is
/// judged; runs its lives one after the other, and writes the line and the printed run of each to out; tells a fault
/// on errs, and answers the status. `words[0]` is the program's name, and no other word may stand. Nothing is written
/// before every life was run.
pub fn lives_main<S: Source, K: Sink, E: Sink>(
    alloc: Global,
    words: &[String],
    input: &mut S,
    out: &mut K,
    errs: &mut E,
) -> u8
    // 0: the line and the printed run of each life were written, and no more, and no fault is told; over all lives no
    // id has two ran steps that say built or refused, and a life of N ids gives them in their order, and says that they
    // are spent exactly after N. 1: the first faulty line is named. 2: there are words. 3: memory ran out. 4: input
    // failed. 5: out failed. Each from 1 to 5 has its cause in this call, and errs has its text; or it is 5, errs failed
    // and has a front of that text.
    ensures outcome { IsOutcome lives_runs result (call (map string_bytes words.now)
        (side S.left S.faults input.old) (side K.held K.faults out.old)
        (side S.left S.faults input.new) (side K.held K.faults out.new))
        (side E.held E.faults errs.old) (side E.held E.faults errs.new) }
{
    program_main::<Lives, S, K, E>(alloc, words, input, out, errs)
}
