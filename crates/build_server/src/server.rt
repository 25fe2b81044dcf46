//! The running server: its state behind one lock.
ghost use Rattle.std.specs.Prelude.{◌≡◌};
ghost use Rattle.build_server.specs.Rules.{TellsAssign};
ghost use Rattle.build_server.specs.Builds.{builder_of};
ghost use Rattle.build_server.specs.Rows.{reports, reading, IsSubmitOn, IsRunOn};

use crate::archive::HashedArchive;
use crate::fault::{ServerFault, Update, fault_of};
use crate::keeping::{Keeping, assign_on, run_on, submit_on};
use crate::run::RunHeld;
use crate::state::ServerState;
use crate::submit::{Submit, Submitted};
use dist_types::builder::BuilderIncoming;
use dist_types::command::CompileCommand;
use dist_types::ids::JobId;
use dist_types::outgoing::ServerOutgoing;
use dist_types::readers::ToolchainReader;
use dist_types::results::{AssignJobResult, RunJobResult, SubmitToolchainResult};
use dist_types::source::Source;
use dist_types::text::Text;
use dist_types::toolchain::Toolchain;
use folders::folder::Folder;
use std::alloc::Global;
use std::sync::{Mutex, Wait};

/// Answers any number of callers, one call of its state at a time. No lock is held while the scheduler is
/// told a state, while an archive comes or is hashed, or while a build runs.
#[derive(Drop)]
pub struct Server<F: Folder> {
    alloc: Global,
    state: Mutex<ServerState<F>>,
}

/// A keeper that takes the server's lock for one call at a time, and tells nothing. An archive is hashed
/// before the lock is taken.
#[derive(Drop)]
pub struct Shared<'a, R: Wait, F: Folder> {
    rt: &'a R,
    state: &'a Mutex<ServerState<F>>,
}

impl<'a, R: Wait, F: Folder> Keeping for Shared<'a, R, F> {
    ghost use Rattle.std.specs.Prelude.{None};

    ghost kept = { λ _. None };

    fn assign(&mut self, job: JobId, tc: Toolchain) -> Result<AssignJobResult, ServerFault> {
        Keeping::assign(&mut *self.state.lock(self.rt), job, tc)
    }

    fn begin_submit(&self, job: JobId) -> Submit {
        Submit::new(job)
    }

    fn end_submit(
        &mut self,
        submit: Submit,
        ready: Update,
        archive: &[u8],
    ) -> Result<Submitted, ServerFault> {
        match ready {
            Ok(_) => {
                let archive = HashedArchive::of(archive);
                self.state.lock(self.rt).take_in(submit.job(), &archive)
            }
            Err(e) => Err(fault_of(e)),
        }
    }

    fn begin_run(&mut self, job: JobId, started: Update) -> Result<RunHeld, ServerFault> {
        Keeping::begin_run(&mut *self.state.lock(self.rt), job, started)
    }
}

impl<F: Folder> Server<F> {
    /// A server of a state. It takes no memory.
    pub fn new(alloc: Global, state: ServerState<F>) -> Self {
        Server {
            alloc,
            state: Mutex::new(state),
        }
    }

    /// A keeper of its state.
    pub fn keeper<'a, R: Wait>(&'a self, rt: &'a R) -> Shared<'a, R, F> {
        Shared {
            rt,
            state: &self.state,
        }
    }
}

/// The three calls that a build server answers.
pub trait ServerIncoming {
    /// Assigns a job with its toolchain: Ready and false, or Pending and true; AlreadyAssigned where the job
    /// is held, or Memory.
    fn handle_assign_job<W: Wait>(
        &self,
        rt: &W,
        job_id: JobId,
        tc: Toolchain,
    ) -> Result<AssignJobResult, ServerFault>
        ensures tells { TellsAssign job_id result };

    /// Takes a toolchain that is submitted under a job, as `submit_on` does: the reader is lent, and read to
    /// its end after Ready was accepted. Where a read failed, which its count shows, or more than
    /// 1,073,741,824 bytes came, the answer is CannotCache, whatever is held, and nothing is stored.
    fn handle_submit_toolchain<W: Wait, O: ServerOutgoing, R: Source>(
        &self,
        rt: &W,
        requester: &mut O,
        job_id: JobId,
        tc_rdr: ToolchainReader<&mut R>,
    ) -> Result<SubmitToolchainResult, ServerFault>
        ensures submit { IsSubmitOn O.says job_id None None
            (reports O.updated O.faults O.lent requester.old)
            (reports O.updated O.faults O.lent requester.new)
            (reading R.left R.faults tc_rdr.entry.0.now)
            (reading R.left R.faults tc_rdr.exit.0.now) result }
        ensures apart { R.apart tc_rdr.exit.0.now ≡ R.apart tc_rdr.entry.0.now };

    /// Runs a job, as `run_on` does.
    fn handle_run_job<W: Wait, O: ServerOutgoing, B: BuilderIncoming>(
        &self,
        rt: &W,
        requester: &mut O,
        builder: &mut B,
        job_id: JobId,
        command: &CompileCommand,
        outputs: &[Text],
        inputs: &[u8],
    ) -> Result<RunJobResult, ServerFault>
        ensures run { IsRunOn O.says job_id
            (record { command = command.now; outputs = outputs.now; inputs = inputs.now }) None None
            (reports O.updated O.faults O.lent requester.old)
            (reports O.updated O.faults O.lent requester.new)
            (builder_of B.built B.refusals builder.old) (builder_of B.built B.refusals builder.new) result }
        ensures answers { B.answers builder.new ≡ B.answers builder.old };
}

/// Each is its function over the keeper, which takes the lock for one call at a time.
impl<F: Folder> ServerIncoming for Server<F> {
    fn handle_assign_job<W: Wait>(
        &self,
        rt: &W,
        job_id: JobId,
        tc: Toolchain,
    ) -> Result<AssignJobResult, ServerFault> {
        assign_on(&mut self.keeper(rt), job_id, tc)
    }

    fn handle_submit_toolchain<W: Wait, O: ServerOutgoing, R: Source>(
        &self,
        rt: &W,
        requester: &mut O,
        job_id: JobId,
        tc_rdr: ToolchainReader<&mut R>,
    ) -> Result<SubmitToolchainResult, ServerFault> {
        submit_on(self.alloc, &mut self.keeper(rt), requester, job_id, tc_rdr)
    }

    fn handle_run_job<W: Wait, O: ServerOutgoing, B: BuilderIncoming>(
        &self,
        rt: &W,
        requester: &mut O,
        builder: &mut B,
        job_id: JobId,
        command: &CompileCommand,
        outputs: &[Text],
        inputs: &[u8],
    ) -> Result<RunJobResult, ServerFault> {
        let mut keeper = self.keeper(rt);
        run_on(
            &mut keeper,
            requester,
            builder,
            job_id,
            command,
            outputs,
            inputs,
        )
    }
}
