//! The program of a mirror: the steps of a script, over two caches in memory.
ghost use Rattle.std.specs.Prelude.{◌≡◌, ℕ, List, [], Option, map, string_bytes, IfSome};
ghost use Rattle.std.specs.List.{AllByRecursion};
ghost use Rattle.dist_types.specs.Content.{Added};
ghost use Rattle.line_program.specs.Program.{IsEnough, HasRun, IsOutcome, call};
ghost use Rattle.line_program.specs.Side.{side};
ghost use Rattle.mirror_script.specs.Script.{IsShort};
ghost use Rattle.mirror_script.specs.declared.said.Said.{Said};
ghost use Rattle.mirror_run.specs.LinesAsOne.{AreAsOne};
ghost use Rattle.mirror_run.specs.Program.{RunsTo, mirror_runs, rooms_of};
ghost use Rattle.mirror_run.specs.Sites.{StepsRun};
ghost use Rattle.mirror_run.specs.Steps.{lines_text};

use crate::sites::{line_of, open};
use dist_types::sink::{Sink, write_all};
use dist_types::source::Source;
use line_program::fault::FarmFault;
use line_program::program::{Program, program_main};
use mirror_script::script::{Script, read_script};
use std::alloc::Global;

/// Does the steps of a script, and writes the line of each as it is done.
fn run_steps<K: Sink>(alloc: Global, script: &Script, out: &mut K) -> Result<(), FarmFault>
    requires short { AllByRecursion IsShort script.now.steps }
    ensures run { StepsRun (rooms_of script.now) script.now.steps result
        (side K.held K.faults out.old) (side K.held K.faults out.new) }
{
    let mut sites = match open(alloc, script.near, script.far) {
        Ok(sites) => sites,
        Err(_) => return Err(FarmFault::Memory),
    };
    for step in script.steps.get() {
        let line = match line_of(alloc, &mut sites, step) {
            Ok(line) => line,
            Err(_) => return Err(FarmFault::Memory),
        };
        match write_all(out, line.as_bytes()) {
            Ok(()) => {}
            Err(_) => return Err(FarmFault::WriteFault),
        }
    }
    Ok(())
}

/// Does the steps of a script that was read.
fn run_script<K: Sink>(alloc: Global, bytes: &[u8], out: &mut K) -> Result<(), FarmFault>
    ensures run { (content : Option (List ℕ)) → IsEnough bytes.now content
        → HasRun mirror_runs result content (side K.held K.faults out.old) (side K.held K.faults out.new) }
{
    let script = match read_script(alloc, bytes) {
        Ok(script) => script,
        Err(fault) => return Err(fault),
    };
    run_steps(alloc, &script, out)
}

/// The program of a mirror.
pub struct Mirrored;

impl Program for Mirrored {
    ghost runs = { mirror_runs };

    fn name() -> &'static str {
        "sccache_mirror"
    }

    fn run<K: Sink>(alloc: Global, bytes: &[u8], out: &mut K) -> Result<(), FarmFault> {
        run_script(alloc, bytes, out)
    }
}

/// The program: reads a script from input, to its end or to one byte past the limit of scripts, before any line is
/// judged, does its steps over two caches in memory, and writes the line of each to out; tells a fault on errs, and
/// answers the status. `words[0]` is the program's name, and no other word may stand. Nothing is written before every
/// line was judged. The far cache is asked through the route of a mirror, by a dialer in memory.
pub fn mirror_main<S: Source, K: Sink, E: Sink>(
    alloc: Global,
    words: &[String],
    input: &mut S,
    out: &mut K,
    errs: &mut E,
) -> u8
    // 0: each step's line was written, and no more, and no fault is told. 1: the first faulty line is named. 2: there
    // are words. 3: memory ran out. 4: input failed. 5: out failed. Each from 1 to 5 has its cause in this call, and
    // errs has its text; or it is 5, errs failed and has a front of that text.
    ensures outcome { IsOutcome mirror_runs result (call (map string_bytes words.now)
        (side S.left S.faults input.old) (side K.held K.faults out.old)
        (side S.left S.faults input.new) (side K.held K.faults out.new))
        (side E.held E.faults errs.old) (side E.held E.faults errs.new) }
    // Where no ask is lost, no reply is made up, and there is room for all that is put, each get has the line of one
    // cache that took all of it.
    ensures as_one { result ≡ 0 → IfSome (S.left input.old) (λ bytes. (ls : List Said) × (run : RunsTo bytes ls [])
        × Added (lines_text ls) (K.held out.old) (K.held out.new) × AreAsOne run.script ls) }
{
    program_main::<Mirrored, S, K, E>(alloc, words, input, out, errs)
}
