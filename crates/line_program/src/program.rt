//! A program over lines: it reads its input, runs it, and tells what it met.
ghost use Rattle.std.specs.Prelude.{◌≡◌, ◌≢◌, ◌⊎◌, List, ℕ, Option, map, string_bytes, IfOk, IfErr, OnErr, Err};
ghost use Rattle.std.specs.Vec.Iter.{into_iter_items};
ghost use Rattle.std.specs.IoError.{error_kind};
ghost use Rattle.line_program.specs.declared.fault.FarmFault.TheVariants as fault;
ghost use Rattle.line_program.specs.Program.{Runs, IsEnough, HasRun, IsRun, IsDone, IsOutcome, call};
ghost use Rattle.line_program.specs.Report.{IsReported, IsTold};
ghost use Rattle.line_program.specs.Side.{side};

use crate::fault::FarmFault;
use crate::input::read_input;
use crate::report::report;
use crate::words::{words_fault, words_in};
use dist_types::sink::Sink;
use dist_types::source::Source;
use std::alloc::Global;
use std::env::Args;
use std::io::{self, ErrorKind};

/// A program that takes no words, and runs what its input says.
pub trait Program {
    /// What its runs are.
    ghost runs: { Runs };

    /// What stands in front of each fault.
    fn name() -> &'static str
        ensures { result.now ≡ runs.name };

    /// Judges the lines of an input of which so many bytes were read, runs what they say, and writes the text of that.
    fn run<K: Sink>(alloc: Global, bytes: &[u8], out: &mut K) -> Result<(), FarmFault>
        ensures run { (content : Option (List ℕ)) → IsEnough bytes.now content
            → HasRun runs result content (side K.held K.faults out.old) (side K.held K.faults out.new) };
}

/// Reads the input, to its end or to one byte past the limit, before any line is judged; and runs it.
pub fn run_input<P: Program, S: Source, K: Sink>(
    alloc: Global,
    input: &mut S,
    out: &mut K,
) -> Result<(), FarmFault>
    ensures run { IsRun P.runs result
        (side S.left S.faults input.old) (side S.left S.faults input.new)
        (side K.held K.faults out.old) (side K.held K.faults out.new) }
{
    let bytes = match read_input(alloc, input) {
        Ok(bytes) => bytes,
        Err(fault) => return Err(fault),
    };
    P::run(alloc, &bytes, out)
}

/// Does what the words say: no word may stand behind the program's name.
fn run_words<P: Program, S: Source, K: Sink>(
    alloc: Global,
    words: &[String],
    input: &mut S,
    out: &mut K,
) -> Result<(), FarmFault>
    ensures done { IsDone P.runs result (call (map string_bytes words.now)
        (side S.left S.faults input.old) (side K.held K.faults out.old)
        (side S.left S.faults input.new) (side K.held K.faults out.new)) }
{
    match words {
        [_name] => run_input::<P, S, K>(alloc, input, out),
        _ => Err(FarmFault::Usage),
    }
}

/// The program: reads its input, runs it, tells a fault on errs, and answers the status. `words[0]` is the program's
/// name, and no other word may stand.
pub fn program_main<P: Program, S: Source, K: Sink, E: Sink>(
    alloc: Global,
    words: &[String],
    input: &mut S,
    out: &mut K,
    errs: &mut E,
) -> u8
    // 0: the text of the run was written, and no more, and no fault is told. 1: the first faulty line is named. 2: there
    // are words. 3: memory ran out. 4: input failed. 5: out failed. Each from 1 to 5 has its cause in this call, and
    // errs has its text; or it is 5, errs failed and has a front of that text.
    ensures outcome { IsOutcome P.runs result (call (map string_bytes words.now)
        (side S.left S.faults input.old) (side K.held K.faults out.old)
        (side S.left S.faults input.new) (side K.held K.faults out.new))
        (side E.held E.faults errs.old) (side E.held E.faults errs.new) }
{
    let done = run_words::<P, S, K>(alloc, words, input, out);
    report(alloc, P::name(), done, errs)
}

/// Tells a fault behind the program's name, and answers its status.
fn tell<P: Program, E: Sink>(alloc: Global, fault: FarmFault, errs: &mut E) -> u8
    ensures reported { IsReported P.runs.name (Err fault) result
        (side E.held E.faults errs.old) (side E.held E.faults errs.new) }
{
    report(alloc, P::name(), Err(fault), errs)
}

/// The program over the words that the system gave, or did not give: a word that is not UTF-8 is told as words that
/// stand where none may, and want of memory as that; then nothing but errs is touched.
pub fn run_command_line<P: Program, S: Source, K: Sink, E: Sink>(
    alloc: Global,
    given: io::Result<Args>,
    input: &mut S,
    out: &mut K,
    errs: &mut E,
) -> u8
    // What `program_main` answers of these words, unless memory ran out before.
    ensures given { IfOk given (λ args. IsOutcome P.runs result (call (map string_bytes (into_iter_items args))
        (side S.left S.faults input.old) (side K.held K.faults out.old)
        (side S.left S.faults input.new) (side K.held K.faults out.new))
        (side E.held E.faults errs.old) (side E.held E.faults errs.new)
        ⊎ ((input.new ≡ input.old) × (out.new ≡ out.old) × IsTold P.runs.name fault.Memory result
        (side E.held E.faults errs.old) (side E.held E.faults errs.new))) }
    // Where the system gave no words, memory ran out, or a word is not UTF-8.
    ensures memory { IfErr given (λ e. error_kind e ≡ ErrorKind.OutOfMemory → IsTold P.runs.name fault.Memory result
        (side E.held E.faults errs.old) (side E.held E.faults errs.new)) }
    ensures usage { IfErr given (λ e. error_kind e ≢ ErrorKind.OutOfMemory → IsTold P.runs.name fault.Usage result
        (side E.held E.faults errs.old) (side E.held E.faults errs.new)) }
    ensures untouched { OnErr given ((input.new ≡ input.old) × (out.new ≡ out.old)) }
{
    match given {
        Ok(args) => match words_in(alloc, args) {
            Ok(words) => program_main::<P, S, K, E>(alloc, &words, input, out, errs),
            Err(_) => tell::<P, E>(alloc, FarmFault::Memory, errs),
        },
        Err(error) => tell::<P, E>(alloc, words_fault(error.kind()), errs),
    }
}
