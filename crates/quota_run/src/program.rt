//! The program of a scheduler with quotas: the calls of a script, each answered by a line.
ghost use Rattle.std.specs.Prelude.{◌≡◌, ℕ, List, Option, map, string_bytes, IfSome};
ghost use Rattle.line_program.specs.Program.{IsEnough, HasRun, IsOutcome, call};
ghost use Rattle.line_program.specs.Side.{side};
ghost use Rattle.quota_run.specs.Program.{quota_runs, AreIsolated};

use crate::script_run::script_lines;
use dist_types::sink::{Sink, write_all};
use dist_types::source::Source;
use line_program::fault::FarmFault;
use line_program::program::{Program, program_main};
use quota::laws::refused_calls_leave_others;
use quota_script::script::read_script;
use std::alloc::Global;

/// Makes the calls of a script that was read, and writes their lines.
fn run_script<K: Sink>(alloc: Global, bytes: &[u8], out: &mut K) -> Result<(), FarmFault>
    ensures run { (content : Option (List ℕ)) → IsEnough bytes.now content
        → HasRun quota_runs result content (side K.held K.faults out.old) (side K.held K.faults out.new) }
{
    let script = match read_script(alloc, bytes) {
        Ok(script) => script,
        Err(fault) => return Err(fault),
    };
    let lines = match script_lines(alloc, script) {
        Ok(lines) => lines,
        Err(_) => return Err(FarmFault::Memory),
    };
    match write_all(out, lines.as_bytes()) {
        Ok(()) => Ok(()),
        Err(_) => Err(FarmFault::WriteFault),
    }
}

/// The program of a scheduler with quotas.
pub struct Quotas;

impl Program for Quotas {
    ghost runs = { quota_runs };

    fn name() -> &'static str {
        "sccache_quota"
    }

    fn run<K: Sink>(alloc: Global, bytes: &[u8], out: &mut K) -> Result<(), FarmFault> {
        run_script(alloc, bytes, out)
    }
}

/// The program: reads a script from input, to its end or to one byte past the limit of scripts, before any line is
/// judged; makes its calls over a scheduler with quotas, and writes one line for each event to out; tells a fault on
/// errs, and answers the status. `words[0]` is the program's name, and no other word may stand. Nothing is written
/// before every call was answered. What is still reserved then is given back on its own scheduler, and stands in no
/// line.
pub fn quota_main<S: Source, K: Sink, E: Sink>(
    alloc: Global,
    words: &[String],
    input: &mut S,
    out: &mut K,
    errs: &mut E,
) -> u8
    // 0: each event's line was written, that of its call over the calls before it, and no more, and no fault is told.
    // 1: the first faulty line is named. 2: there are words. 3: memory ran out. 4: input failed. 5: out failed. Each
    // from 1 to 5 has its cause in this call, and errs has its text; or it is 5, errs failed and has a front of that
    // text.
    ensures outcome { IsOutcome quota_runs result (call (map string_bytes words.now)
        (side S.left S.faults input.old) (side K.held K.faults out.old)
        (side S.left S.faults input.new) (side K.held K.faults out.new))
        (side E.held E.faults errs.old) (side E.held E.faults errs.new) }
    // Of the calls that are answered so: without those answered `full` or `no client` the log and all other answers are
    // the same.
    ensures isolated { IfSome (S.left input.old) AreIsolated }
{
    refused_calls_leave_others();
    program_main::<Quotas, S, K, E>(alloc, words, input, out, errs)
}
