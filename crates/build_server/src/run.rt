//! Runs: a job that was taken out, its one build, and its end.
ghost use Rattle.std.specs.Prelude.{◌≡◌};
ghost use Rattle.std.specs.Option.{option_copied};
ghost use Rattle.build_server.specs.Builds.{Builds, builder_of, is_due, outcome_by, ran_of};
ghost use Rattle.build_server.specs.Builds.{built_of, ended, run_answer, complete_of};

use crate::fault::{BuildCause, ServerFault, Update, fault_of};
use dist_types::builder::{BuildFault, BuilderIncoming};
use dist_types::command::CompileCommand;
use dist_types::fault::Memory;
use dist_types::results::{BuildResult, JobComplete, RunJobResult};
use dist_types::text::{Bytes, Text};
use dist_types::toolchain::Toolchain;
use std::marker::Model;

/// What was found as a job was taken out.
#[derive(Debug, Drop)]
pub enum Taken {
    /// The job was not held.
    None,
    /// Its toolchain is not listed.
    Unlisted(Toolchain),
    /// The folder failed as its archive was read.
    Folder(Toolchain),
    /// Its toolchain, and the archive that was read.
    Read(Toolchain, Bytes),
}

/// How a run went, before its end is reported.
#[derive(Debug, Drop)]
pub enum Outcome {
    /// The job was not held.
    None,
    /// Its toolchain was not listed.
    Unlisted(Toolchain),
    /// The folder failed as its archive was read.
    Folder(Toolchain),
    /// It was built, and gave this.
    Built(Toolchain, BuildResult),
    /// The builder refused it.
    Refused(Toolchain),
}

/// How a run went, without what it gave.
#[derive(Clone, Copy, Debug, PartialEq, Eq)]
pub enum Ran {
    /// The job was not held.
    None,
    /// Its toolchain was not listed.
    Unlisted(Toolchain),
    /// The folder failed as its archive was read.
    Folder(Toolchain),
    /// It was built.
    Built(Toolchain),
    /// The builder refused it.
    Refused(Toolchain),
}

/// A job whose Started was accepted, and which is no longer held. It is spent by `build`, or given up
/// where memory ran out.
#[derive(Debug)]
pub struct RunHeld {
    taken: Taken,
}

impl Model for RunHeld {
    ghost use Rattle.build_server.specs.declared.run.Taken.{Taken};

    ghost Value = { Taken };

    ghost view = { λ h. h.taken };
}

/// A run whose build is over. It is spent by `end_run`.
#[derive(Debug)]
pub struct RunDone {
    outcome: Outcome,
}

impl Model for RunDone {
    ghost use Rattle.build_server.specs.declared.run.Outcome.{Outcome};

    ghost Value = { Outcome };

    ghost view = { λ d. d.outcome };
}

fn held(taken: Taken) -> RunHeld
    ensures { result ≡ taken }
{
    RunHeld { taken }
}

fn done(outcome: Outcome) -> RunDone
    ensures { result ≡ outcome }
{
    RunDone { outcome }
}

impl RunHeld {
    /// A job that was taken out.
    pub(crate) fn new(taken: Taken) -> Self
        ensures taken { result ≡ taken }
    {
        held(taken)
    }

    /// Calls the builder once where the archive was read, and nowhere else. Memory comes exactly where the
    /// builder answers it; what was taken out is handed back as it was.
    pub fn build<B: BuilderIncoming>(
        self,
        builder: &mut B,
        command: &CompileCommand,
        outputs: &[Text],
        inputs: &[u8],
    ) -> Result<RunDone, (RunHeld, Memory)>
        ensures builds { Builds self
            (record { command = command.now; outputs = outputs.now; inputs = inputs.now })
            (builder_of B.built B.refusals builder.old) (builder_of B.built B.refusals builder.new) result }
        ensures answers { B.answers builder.new ≡ B.answers builder.old }
    {
        let RunHeld { taken } = self;
        match taken {
            Taken::None => Ok(done(Outcome::None)),
            Taken::Unlisted(tc) => Ok(done(Outcome::Unlisted(tc))),
            Taken::Folder(tc) => Ok(done(Outcome::Folder(tc))),
            Taken::Read(tc, archive) => {
                match builder.run_build(&tc, archive.get(), command, outputs, inputs) {
                    Ok(built) => Ok(done(Outcome::Built(tc, built))),
                    Err(BuildFault::Refused) => Ok(done(Outcome::Refused(tc))),
                    Err(BuildFault::Memory) => Err((held(Taken::Read(tc, archive)), Memory)),
                }
            }
        }
    }

    /// Whether an archive was read, so that a build is due.
    pub fn is_due(&self) -> bool
        ensures due { result ≡ is_due self.now }
    {
        match &self.taken {
            Taken::None => false,
            Taken::Unlisted(_) => false,
            Taken::Folder(_) => false,
            Taken::Read(_, _) => true,
        }
    }

    /// Ends a build whose answer is known beforehand, as that of a builder which answers by a script: where
    /// the archive was read it went so, and elsewhere there was none. Memory comes exactly where that is the
    /// answer; what was taken out is handed back as it was.
    pub fn build_as(
        self,
        heard: Result<BuildResult, BuildFault>,
    ) -> Result<RunDone, (RunHeld, Memory)>
        ensures goes { result ≡ outcome_by self heard }
    {
        let RunHeld { taken } = self;
        match taken {
            Taken::None => Ok(done(Outcome::None)),
            Taken::Unlisted(tc) => Ok(done(Outcome::Unlisted(tc))),
            Taken::Folder(tc) => Ok(done(Outcome::Folder(tc))),
            Taken::Read(tc, archive) => match heard {
                Ok(built) => Ok(done(Outcome::Built(tc, built))),
                Err(BuildFault::Refused) => Ok(done(Outcome::Refused(tc))),
                Err(BuildFault::Memory) => Err((held(Taken::Read(tc, archive)), Memory)),
            },
        }
    }

    /// Lets the run go where memory ran out: its job is no longer held, and Complete is not reported.
    pub fn give_up(self) {
        let RunHeld { taken: _ } = self;
    }
}

impl RunDone {
    /// How the run went. It takes no memory.
    pub fn ran(&self) -> Ran
        ensures ran { result ≡ ran_of self.now }
    {
        match &self.outcome {
            Outcome::None => Ran::None,
            Outcome::Unlisted(tc) => Ran::Unlisted(*tc),
            Outcome::Folder(tc) => Ran::Folder(*tc),
            Outcome::Built(tc, _) => Ran::Built(*tc),
            Outcome::Refused(tc) => Ran::Refused(*tc),
        }
    }

    /// What the build gave, where there was one. It takes no memory.
    pub fn built(&self) -> Option<&BuildResult>
        ensures built { option_copied result ≡ built_of self.now }
    {
        match &self.outcome {
            Outcome::None => None,
            Outcome::Unlisted(_) => None,
            Outcome::Folder(_) => None,
            Outcome::Built(_, built) => Some(built),
            Outcome::Refused(_) => None,
        }
    }

    /// Ends the run by what the scheduler answered to Complete. Where that is accepted: JobNotFound, what the
    /// build gave, or BuildFailed with its cause. Else UpdateFailed, or Memory exactly where the update
    /// says so. It takes no memory.
    pub fn end_run(self, complete: Update) -> Result<RunJobResult, ServerFault>
        ensures ended { result ≡ ended self complete }
    {
        let RunDone { outcome } = self;
        match complete {
            Ok(_) => answer_of(outcome),
            Err(e) => Err(fault_of(e)),
        }
    }
}

/// What a run answers whose Complete was accepted.
fn answer_of(outcome: Outcome) -> Result<RunJobResult, ServerFault>
    ensures { result ≡ run_answer outcome }
{
    match outcome {
        Outcome::None => Ok(RunJobResult::JobNotFound),
        Outcome::Unlisted(_) => Err(ServerFault::BuildFailed(BuildCause::Unlisted)),
        Outcome::Folder(_) => Err(ServerFault::BuildFailed(BuildCause::Folder)),
        Outcome::Built(_, built) => Ok(RunJobResult::Complete(complete_of(built))),
        Outcome::Refused(_) => Err(ServerFault::BuildFailed(BuildCause::Refused)),
    }
}

/// What a build gave, as the answer of a run.
fn complete_of(built: BuildResult) -> JobComplete
    ensures { result ≡ complete_of built }
{
    let BuildResult { output, outputs } = built;
    JobComplete { output, outputs }
}
