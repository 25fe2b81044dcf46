//! The command.
ghost use Rattle.std.specs.Prelude.{◌≡◌, ◌≢◌, ◌≤◌, ◌⊎◌, ℕ, map, string_bytes, IfOk, IfErr, IfSome};
ghost use Rattle.std.specs.Prelude.{OnErr, List, Option, Some, None, Ok, Err};
ghost use Rattle.dist_types.specs.Cause.{Rose};
ghost use Rattle.dist_types.specs.Content.{TookAtMost, left_behind};
ghost use Rattle.dist_config.specs.Serve.{scheduler_call, server_call};
ghost use Rattle.farm_script.specs.Script.{script};
ghost use Rattle.farm_script.specs.FirstFaulty.{IsFirstFaulty, IsFaultless};
ghost use Rattle.line_program.specs.declared.fault.FarmFault.{FarmFault as Fault};
ghost use Rattle.line_program.specs.declared.fault.FarmFault.TheVariants as fault;
ghost use Rattle.line_program.specs.declared.fault.ConfigCause.{ConfigCause as Cause};
ghost use Rattle.command_line.specs.Asked.{Invocation, asked_by, audit, farm, storm};
ghost use Rattle.command_line.specs.Need.{needed_by};
ghost use Rattle.command_line.specs.Parsed.{command_in};
ghost use Rattle.line_program.specs.Program.{IsEnough, HasRun};
ghost use Rattle.line_program.specs.Report.{IsReported};
ghost use Rattle.line_program.specs.Side.{side};
ghost use Rattle.line_program.specs.declared.why.Why.{Why};
ghost use Rattle.audit.specs.Held.{IsHeld};
ghost use Rattle.farm.specs.Audited.{IsRefusedFor};
ghost use Rattle.farm.specs.Command.{farm_runs, IsAuthRun, IsStarted, IsCarriedOut, IsDone};
ghost use Rattle.farm.specs.Command.{IsAnswered, fileless, moment, program_name, serving};

use crate::audit_run::run_audit;
use crate::script_run::run_of;
use crate::storm_run::run_storm;
use audit::laws::{refusals_are_first_faults, what_holds_is_held};
use command_line::command::{AuthSubcommand, Command};
use command_line::files::Files;
use command_line::line::auth_line;
use command_line::need::Need;
use command_line::parse::try_parse_from;
use dist_config::config::{SchedulerConfig, ServerConfig};
use dist_config::serve::Serve;
use dist_config::start::{Scheduler, Server};
use dist_types::sink::{Sink, write_all};
use dist_types::source::Source;
use line_program::fault::FarmFault;
use line_program::program::{Program, run_input};
use line_program::report::report;
pub use line_program::words::words_given;
use rand_core::Rng;
use std::alloc::Global;

/// What stands in front of each fault.
const PROGRAM: &str = "sccache-dist";

/// Runs a script that was read, and writes the text of its run.
fn run_script<K: Sink>(alloc: Global, bytes: &[u8], out: &mut K) -> Result<(), FarmFault>
    ensures run { (content : Option (List ℕ)) → IsEnough bytes.now content
        → HasRun farm_runs result content (side K.held K.faults out.old) (side K.held K.faults out.new) }
{
    let text = match run_of(alloc, bytes) {
        Ok(text) => text,
        Err(fault) => return Err(fault),
    };
    match write_all(out, text.as_bytes()) {
        Ok(()) => Ok(()),
        Err(_) => Err(FarmFault::WriteFault),
    }
}

/// The farm command, as a program over lines.
struct Farms;

impl Program for Farms {
    ghost runs = { farm_runs };

    fn name() -> &'static str {
        PROGRAM
    }

    fn run<K: Sink>(alloc: Global, bytes: &[u8], out: &mut K) -> Result<(), FarmFault> {
        run_script(alloc, bytes, out)
    }
}

/// Writes the line of a command for an authority.
#[tactic(auto, using(crate::proofs::AuthLemmas::no_line))]
fn run_auth<K: Sink, R: Rng>(
    alloc: Global,
    auth: &AuthSubcommand,
    random: &mut R,
    out: &mut K,
) -> Result<(), FarmFault>
    ensures run { IsAuthRun auth.now result (R.stream random.old) (R.stream random.new)
        (side K.held K.faults out.old) (side K.held K.faults out.new) }
{
    let line = match auth_line(alloc, auth, random) {
        Ok(line) => line,
        Err(fault) => return Err(fault),
    };
    match write_all(out, line.as_bytes()) {
        Ok(()) => Ok(()),
        Err(_) => Err(FarmFault::WriteFault),
    }
}

/// Hands a scheduler's configuration on.
fn start_scheduler<N: Serve>(config: SchedulerConfig, serve: &mut N) -> Result<(), FarmFault>
    ensures started { IsStarted (scheduler_call config) result
        (serving N.calls N.faults serve.old) (serving N.calls N.faults serve.new) }
{
    match Scheduler::new(config).start(serve) {
        Ok(()) => Ok(()),
        Err(_) => Err(FarmFault::ServeFault),
    }
}

/// Hands a build server's configuration on.
fn start_server<N: Serve>(config: ServerConfig, serve: &mut N) -> Result<(), FarmFault>
    ensures started { IsStarted (server_call config) result
        (serving N.calls N.faults serve.old) (serving N.calls N.faults serve.new) }
{
    match Server::new(config).start(serve) {
        Ok(()) => Ok(()),
        Err(_) => Err(FarmFault::ServeFault),
    }
}

/// Carries a command out.
fn carry_out<S: Source, K: Sink, R: Rng, N: Serve>(
    alloc: Global,
    command: Command,
    input: &mut S,
    out: &mut K,
    random: &mut R,
    serve: &mut N,
) -> Result<(), FarmFault>
    ensures done { IsCarriedOut command result
        (fileless (side S.left S.faults input.old) (side K.held K.faults out.old) (R.stream random.old)
        (serving N.calls N.faults serve.old))
        (fileless (side S.left S.faults input.new) (side K.held K.faults out.new) (R.stream random.new)
        (serving N.calls N.faults serve.new)) }
{
    match command {
        Command::Farm => run_input::<Farms, S, K>(alloc, input, out),
        Command::Audit => run_audit(alloc, input, out),
        Command::Storm(count) => run_storm(alloc, count, out),
        Command::Auth(auth) => run_auth(alloc, &auth, random, out),
        Command::Scheduler(config) => start_scheduler(config, serve),
        Command::Server(config) => start_server(config, serve),
    }
}

/// Does what the words say.
fn run_words<S: Source, K: Sink, D: Files, R: Rng, N: Serve>(
    alloc: Global,
    words: &[String],
    input: &mut S,
    out: &mut K,
    files: &mut D,
    random: &mut R,
    serve: &mut N,
) -> Result<(), FarmFault>
    ensures done { IsDone result (record {
      words = map string_bytes words.now;
      before = moment (side S.left S.faults input.old) (side K.held K.faults out.old) (D.files files.old)
          (D.faults files.old) (R.stream random.old) (serving N.calls N.faults serve.old);
      after = moment (side S.left S.faults input.new) (side K.held K.faults out.new) (D.files files.new)
          (D.faults files.new) (R.stream random.new) (serving N.calls N.faults serve.new);
    }) }
    ensures kept { D.files files.new ≡ D.files files.old }
{
    match try_parse_from(alloc, words, files) {
        Ok(command) => carry_out(alloc, command, input, out, random, serve),
        Err(fault) => Err(fault),
    }
}

/// The command: does what the words say, tells a fault on errs, and answers the status. `words[0]` is the
/// program's name. The words are judged first; then the configuration that they name is read, and the
/// command is carried out. `farm` reads a script from input, to its end or to one byte past the limit of
/// scripts, before any line is judged, and writes its printed run to out; nothing is written before every
/// line was judged. `audit` reads a printed run so, to its own limit, and writes that it holds, where it does.
pub fn dist_main<S: Source, K: Sink, E: Sink, D: Files, R: Rng, N: Serve>(
    alloc: Global,
    words: &[String],
    input: &mut S,
    out: &mut K,
    errs: &mut E,
    files: &mut D,
    random: &mut R,
    serve: &mut N,
) -> u8
    // 0: what the words ask for was done, and no fault is told. 1: the first faulty line is named. 2: the
    // words name no command. 3: memory ran out. 4: input failed. 5: out failed. 6: the configuration has a
    // fault. 7: what serves failed. 8: the printed run does not hold, and its first fault is named. Each from
    // 1 to 8 has its cause in this call, and errs has its text; or it is 5, errs failed and has a front of
    // that text.
    ensures answered { IsAnswered result (record {
      words = map string_bytes words.now;
      before = moment (side S.left S.faults input.old) (side K.held K.faults out.old) (D.files files.old)
          (D.faults files.old) (R.stream random.old) (serving N.calls N.faults serve.old);
      after = moment (side S.left S.faults input.new) (side K.held K.faults out.new) (D.files files.new)
          (D.faults files.new) (R.stream random.new) (serving N.calls N.faults serve.new);
    }) (side E.held E.faults errs.old) (side E.held E.faults errs.new) }
    // There is no other status.
    ensures statuses { result ≤ 8 }
    // No file changes.
    ensures kept { D.files files.new ≡ D.files files.old }
    // Where a line is faulty it is 1, and where none is it is 0, without want of memory and faults.
    ensures faulty { asked_by (map string_bytes words.now) ≡ Some farm → IfSome (S.left input.old) (λ bytes.
        (f : Fault) → IsFirstFaulty bytes f → (result ≡ 1) ⊎ (result ≡ 3) ⊎ (result ≡ 4) ⊎ (result ≡ 5)) }
    ensures faultless { asked_by (map string_bytes words.now) ≡ Some farm → IfSome (S.left input.old)
        (λ bytes.
        IsFaultless bytes → (result ≡ 0) ⊎ (result ≡ 3) ⊎ (result ≡ 4) ⊎ (result ≡ 5)) }
    // Where the lines were judged, input has left what stands behind one byte past the limit, and no more.
    ensures left { asked_by (map string_bytes words.now) ≡ Some farm → result ≤ 1
        → S.left input.new ≡ left_behind 67108865 (S.left input.old) }
    // Where a printed run holds it is 0, and where it does not it is 8, without want of memory and faults.
    ensures held { asked_by (map string_bytes words.now) ≡ Some audit → IfSome (S.left input.old) (λ bytes.
        IsHeld bytes → (result ≡ 0) ⊎ (result ≡ 3) ⊎ (result ≡ 4) ⊎ (result ≡ 5)) }
    ensures refused { asked_by (map string_bytes words.now) ≡ Some audit → IfSome (S.left input.old) (λ bytes.
        (n : ℕ) (why : Why) → IsRefusedFor bytes n why
        → (result ≡ 8) ⊎ (result ≡ 3) ⊎ (result ≡ 4) ⊎ (result ≡ 5)) }
    // Where it was judged, input has left what stands behind one byte past the limit, and no more.
    ensures behind { asked_by (map string_bytes words.now) ≡ Some audit → (result ≡ 0) ⊎ (result ≡ 8)
        → S.left input.new ≡ left_behind 268435457 (S.left input.old) }
    // A storm is 0, without want of memory and faults of out and errs.
    ensures storms { (n : ℕ) → asked_by (map string_bytes words.now) ≡ Some (storm n)
        → (result ≡ 0) ⊎ (result ≡ 3) ⊎ (result ≡ 5) }
    // A fault of input comes before what its bytes say, and out and errs fail in no status but 5.
    ensures order { result ≢ 4 → result ≢ 5 → S.faults input.new ≡ S.faults input.old }
    ensures counts { result ≢ 5
        → (K.faults out.new ≡ K.faults out.old) × (E.faults errs.new ≡ E.faults errs.old) }
    // Without the words of a command it is 2, 3 where memory ran out, or 5 where errs failed; with them it is
    // not 2.
    ensures no_command { asked_by (map string_bytes words.now) ≡ None
        → (result ≡ 2) ⊎ (result ≡ 3) ⊎ (result ≡ 5) }
    ensures command { (what : Invocation) → asked_by (map string_bytes words.now) ≡ Some what → result ≢ 2 }
    // Where the configuration that the words name has a fault it is 6, without want of memory.
    ensures configured { IfSome (D.files files.old) (λ told. (what : Invocation) (cause : Cause)
        → asked_by (map string_bytes words.now) ≡ Some what → command_in what told ≡ Err cause
        → (result ≡ 6) ⊎ (result ≡ 3) ⊎ (result ≡ 5)) }
    // What serves fails in no status but 7, or 5 where errs failed.
    ensures served { result ≢ 7 → result ≢ 5 → N.faults serve.new ≡ N.faults serve.old }
    // Random words are drawn for words that need them alone, and only words that need what serves ask for it.
    ensures undrawn { needed_by (map string_bytes words.now) ≢ Need.RandomWords
        → R.stream random.new ≡ R.stream random.old }
    ensures unserved { needed_by (map string_bytes words.now) ≢ Need.Serving
        → (N.calls serve.new ≡ N.calls serve.old) × (N.faults serve.new ≡ N.faults serve.old) }
{
    let done = run_words(alloc, words, input, out, files, random, serve);
    what_holds_is_held();
    refusals_are_first_faults();
    report(alloc, PROGRAM, done, errs)
}

/// The command over the words that were given. Where there are none, because the system gave none or not what
/// they need, that fault is told, and nothing but errs is touched.
pub fn run_command_line<S: Source, K: Sink, E: Sink, D: Files, R: Rng, N: Serve>(
    alloc: Global,
    given: Result<Vec<String>, FarmFault>,
    input: &mut S,
    out: &mut K,
    errs: &mut E,
    files: &mut D,
    random: &mut R,
    serve: &mut N,
) -> u8
    // What `dist_main` answers of these words.
    ensures given { IfOk given (λ words. IsAnswered result (record {
      words = map string_bytes words.items;
      before = moment (side S.left S.faults input.old) (side K.held K.faults out.old) (D.files files.old)
          (D.faults files.old) (R.stream random.old) (serving N.calls N.faults serve.old);
      after = moment (side S.left S.faults input.new) (side K.held K.faults out.new) (D.files files.new)
          (D.faults files.new) (R.stream random.new) (serving N.calls N.faults serve.new);
    }) (side E.held E.faults errs.old) (side E.held E.faults errs.new)) }
    // Why there are none, or want of memory in place of a fault that names a line or a key.
    ensures told { IfErr given (λ f. IsReported program_name (Err f) result
        (side E.held E.faults errs.old) (side E.held E.faults errs.new)) }
    ensures untouched { OnErr given ((input.new ≡ input.old) × (out.new ≡ out.old) × (files.new ≡ files.old)
        × (random.new ≡ random.old) × (serve.new ≡ serve.old)) }
{
    match given {
        Ok(words) => dist_main(alloc, &words, input, out, errs, files, random, serve),
        Err(fault) => report(alloc, PROGRAM, Err(fault), errs),
    }
}
