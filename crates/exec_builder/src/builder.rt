//! The builder over a dialer.
ghost use Rattle.std.specs.Prelude.{◌≡◌, ◌≢◌, ◌≤◌, IfOk, OnOk, Ok, Err};
ghost use Rattle.sha2.specs.Sha256.{sha256};
ghost use Rattle.dist_types.specs.Builder.{built_row};
ghost use Rattle.dist_types.specs.Cause.{Rose};
ghost use Rattle.dist_types.specs.Content.{Recorded, KeptOrRecorded};
ghost use Rattle.exec_builder.specs.Asking.{dialing_of};
ghost use Rattle.exec_builder.specs.Builds.{AsksRun, AsksArchive, Brings, BringsFirst, AsksFirst, Builds};
ghost use Rattle.exec_builder.specs.Builds.{IsBuiltBy, answer_to, paused_with, refusals_with};

use crate::asking::ask;
use crate::executor::Executor;
use crate::pause::Pause;
use crate::questions::{QuestionFault, archive_question, run_question};
use crate::said::{Brought, HOLD_MS, Said, answer_of, brought_of, said_of};
use dist_types::builder::{BuildFault, BuilderIncoming};
use dist_types::command::CompileCommand;
use dist_types::dialer::Dialer;
use dist_types::fault::{Memory, raise};
use dist_types::results::BuildResult;
use dist_types::text::{Items, Text};
use dist_types::toolchain::Toolchain;
use dist_types::try_clone::{TryClone, push};
use dist_wire::run::RunJobHttpRequest;
use std::alloc::Global;
use std::marker::Model;

/// Copies of some names. Refused for want of memory alone.
fn names_of(alloc: Global, names: &[Text]) -> Result<Items<Text>, Memory>
    ensures { IfOk result (λ copies. copies ≡ names.now) }
{
    let mut copies = Vec::with_capacity(alloc, names.len())?;
    for name in names {
        let copy = name.clone()?;
        push(&mut copies, copy)?;
    }
    Ok(Items::new(copies))
}

/// The run of a command with these outputs. Refused for want of memory alone.
fn run_of(
    alloc: Global,
    command: &CompileCommand,
    outputs: &[Text],
) -> Result<RunJobHttpRequest, Memory>
    ensures { IfOk result (λ run. run ≡ record { command = command.now; outputs = outputs.now }) }
{
    let command = command.clone()?;
    let outputs = names_of(alloc, outputs)?;
    Ok(RunJobHttpRequest { command, outputs })
}

/// Asks an executor that, and says what it answers to a question to run.
fn ask_run<D: Dialer>(dialer: &mut D, executor: &Executor, request: &[u8]) -> Result<Said, Memory>
    ensures { AsksRun executor.now request.now result (dialing_of D.asked D.faults dialer.old)
        (dialing_of D.asked D.faults dialer.new) }
{
    let answer = ask(executor.host.alloc(), dialer, executor, request);
    said_of(answer)
}

/// Asks an executor that, and says what it answers to an archive.
fn ask_archive<D: Dialer>(
    dialer: &mut D,
    executor: &Executor,
    request: &[u8],
) -> Result<Brought, Memory>
    ensures { AsksArchive executor.now request.now result (dialing_of D.asked D.faults dialer.old)
        (dialing_of D.asked D.faults dialer.new) }
{
    let answer = ask(executor.host.alloc(), dialer, executor, request);
    brought_of(answer)
}

/// Brings an archive to an executor.
fn bring<D: Dialer>(
    dialer: &mut D,
    executor: &Executor,
    toolchain: &Toolchain,
    archive: &[u8],
) -> Result<Brought, Memory>
    ensures { Brings executor.now toolchain.now archive.now result (dialing_of D.asked D.faults dialer.old)
        (dialing_of D.asked D.faults dialer.new) }
{
    match archive_question(executor.host.alloc(), executor, toolchain, archive) {
        Ok(request) => ask_archive(dialer, executor, request.get()),
        Err(memory) => Err(memory),
    }
}

/// Brings an archive, and where it is taken asks an executor that.
fn bring_and_ask<D: Dialer>(
    dialer: &mut D,
    executor: &Executor,
    toolchain: &Toolchain,
    archive: &[u8],
    request: &[u8],
) -> Result<Said, Memory>
    ensures { BringsFirst executor.now toolchain.now archive.now request.now result
        (dialing_of D.asked D.faults dialer.old) (dialing_of D.asked D.faults dialer.new) }
{
    match bring(dialer, executor, toolchain, archive) {
        Ok(Brought::Taken) => ask_run(dialer, executor, request),
        Ok(Brought::Refused) => Ok(Said::Refused),
        Ok(Brought::Gone) => Ok(Said::Gone),
        Err(memory) => Err(memory),
    }
}

/// Asks an executor that. Where it does not know the archive, this is brought once, and the same asked again.
fn ask_or_bring<D: Dialer>(
    dialer: &mut D,
    executor: &Executor,
    toolchain: &Toolchain,
    archive: &[u8],
    request: &[u8],
) -> Result<Said, Memory>
    ensures { AsksFirst executor.now toolchain.now archive.now request.now result
        (dialing_of D.asked D.faults dialer.old) (dialing_of D.asked D.faults dialer.new) }
{
    match ask_run(dialer, executor, request) {
        Ok(Said::Unknown) => bring_and_ask(dialer, executor, toolchain, archive, request),
        Ok(Said::Built(built)) => Ok(Said::Built(built)),
        Ok(Said::Refused) => Ok(Said::Refused),
        Ok(Said::Gone) => Ok(Said::Gone),
        Err(memory) => Err(memory),
    }
}

/// A builder that asks an executor.
#[derive(Drop)]
pub struct ExecBuilder<D: Dialer, P: Pause> {
    dialer: D,
    executor: Executor,
    pause: P,
    refusals: u64,
}

impl<D: Dialer, P: Pause> Model for ExecBuilder<D, P> {
    ghost use Rattle.exec_builder.specs.Asking.{dialing_of};
    ghost use Rattle.exec_builder.specs.Builds.{Builder};

    ghost Value = { Builder };

    ghost view = { λ b. record {
      executor = b.executor;
      dialing = dialing_of D.asked D.faults b.dialer;
      paused = P.paused b.pause;
      refusals = b.refusals;
    } };
}

impl<D: Dialer, P: Pause> ExecBuilder<D, P> {
    /// A builder that asks that executor over that dialer, and holds refusals back by that pause. It takes no
    /// memory.
    pub fn new(dialer: D, executor: Executor, pause: P) -> Self
        ensures { result ≡ record {
          executor = executor;
          dialing = dialing_of D.asked D.faults dialer;
          paused = P.paused pause;
          refusals = 0;
        } }
    {
        ExecBuilder {
            dialer,
            executor,
            pause,
            refusals: 0,
        }
    }

    /// Asks the executor to run a command.
    fn ask(
        &mut self,
        toolchain: &Toolchain,
        archive: &[u8],
        run: &RunJobHttpRequest,
        inputs: &[u8],
    ) -> Result<Said, Memory>
        ensures builds { Builds self.old.executor
            (record { id = toolchain.now; archive = archive.now; run = run.now; inputs = inputs.now })
            result self.old.dialing self.new.dialing }
        ensures executor { self.new.executor ≡ self.old.executor }
        ensures paused { self.new.paused ≡ self.old.paused }
        ensures refusals { self.new.refusals ≡ self.old.refusals }
    {
        let alloc = self.executor.host.alloc();
        match run_question(alloc, &self.executor, toolchain, run, inputs) {
            Ok(request) => ask_or_bring(
                &mut self.dialer,
                &self.executor,
                toolchain,
                archive,
                request.get(),
            ),
            Err(QuestionFault::TooLong) => Ok(Said::Refused),
            Err(QuestionFault::Memory) => Err(Memory),
        }
    }

    /// Holds a refusal back where no reply came.
    fn hold(&mut self, said: &Result<Said, Memory>)
        ensures paused { self.new.paused ≡ paused_with said.now self.old.paused }
        ensures executor { self.new.executor ≡ self.old.executor }
        ensures dialing { self.new.dialing ≡ self.old.dialing }
        ensures refusals { self.new.refusals ≡ self.old.refusals }
    {
        match said {
            Ok(Said::Gone) => self.pause.pause(HOLD_MS),
            Ok(Said::Built(_)) => {}
            Ok(Said::Unknown) => {}
            Ok(Said::Refused) => {}
            Err(_) => {}
        }
    }

    /// Answers, and counts a refusal.
    fn answer(&mut self, said: Result<Said, Memory>) -> Result<BuildResult, BuildFault>
        ensures gives { result ≡ answer_to said }
        ensures refusals { self.new.refusals ≡ refusals_with result self.old.refusals }
        ensures later { self.old.refusals ≤ self.new.refusals }
        ensures executor { self.new.executor ≡ self.old.executor }
        ensures dialing { self.new.dialing ≡ self.old.dialing }
        ensures paused { self.new.paused ≡ self.old.paused }
    {
        match said {
            Ok(said) => match answer_of(said) {
                Ok(built) => Ok(built),
                Err(BuildFault::Refused) => {
                    raise(&mut self.refusals);
                    Err(BuildFault::Refused)
                }
                Err(BuildFault::Memory) => Err(BuildFault::Memory),
            },
            Err(_) => Err(BuildFault::Memory),
        }
    }

    /// Asks the executor to run a command, holds a refusal back where no reply came, and answers.
    fn build(
        &mut self,
        toolchain: &Toolchain,
        archive: &[u8],
        run: &RunJobHttpRequest,
        inputs: &[u8],
    ) -> Result<BuildResult, BuildFault>
        ensures built { IsBuiltBy
            (record { id = toolchain.now; archive = archive.now; run = run.now; inputs = inputs.now })
            result self.old self.new }
        ensures later { self.old.refusals ≤ self.new.refusals }
    {
        let said = self.ask(toolchain, archive, run, inputs);
        self.hold(&said);
        self.answer(said)
    }
}

impl<D: Dialer, P: Pause> BuilderIncoming for ExecBuilder<D, P> {
    ghost use Rattle.std.specs.Prelude.{None};

    ghost built = { λ _. None };

    ghost refusals = { λ b. b.refusals };

    ghost answers = { λ _. None };

    /// What the executor answers to that command in that archive over those inputs. Refused where it refuses or
    /// does not answer, and where command and names have 2^32 bytes or more.
    fn run_build(
        &mut self,
        toolchain: &Toolchain,
        archive: &[u8],
        command: &CompileCommand,
        outputs: &[Text],
        inputs: &[u8],
    ) -> Result<BuildResult, BuildFault>
        ensures asks { IsBuiltBy
            (record {
              id = toolchain.now;
              archive = archive.now;
              run = record { command = command.now; outputs = outputs.now };
              inputs = inputs.now;
            })
            result self.old self.new }
        ensures row { result ≢ Err BuildFault.Memory
            → Recorded (built_row toolchain.now (sha256 archive.now)
            command.now outputs.now inputs.now result) None None }
        ensures memory { result ≡ Err BuildFault.Memory
            → KeptOrRecorded (built_row toolchain.now (sha256 archive.now)
            command.now outputs.now inputs.now result) None None }
        ensures steady { OnOk result (self.new.refusals ≡ self.old.refusals) }
        ensures uncounted { result ≡ Err BuildFault.Memory → self.new.refusals ≡ self.old.refusals }
        ensures later { self.old.refusals ≤ self.new.refusals }
        ensures cause { result ≡ Err BuildFault.Refused → Rose self.old.refusals self.new.refusals }
    {
        match run_of(self.executor.host.alloc(), command, outputs) {
            Ok(run) => self.build(toolchain, archive, &run, inputs),
            Err(_) => Err(BuildFault::Memory),
        }
    }
}
