//! Keepers: what stands for a server's state, and the three calls that a running server answers, over any
//! keeper, requester, builder and reader.
ghost use Rattle.std.specs.Prelude.{◌≡◌, List, ℕ, Option, Result, Ok, Err};
ghost use Rattle.dist_types.specs.declared.source.ReadError.{ReadError as Unread};
ghost use Rattle.build_server.specs.Books.{Books};
ghost use Rattle.build_server.specs.Rules.{Assigns, TellsAssign, Submits, Begins, TellsUpdate, Turns};
ghost use Rattle.build_server.specs.Builds.{builder_of};
ghost use Rattle.build_server.specs.Rows.{reports, reading, IsSubmitOn, Fetches, Ends, Finishes, Works, Runs};
ghost use Rattle.build_server.specs.Rows.{IsRunOn};

use crate::fault::{ServerFault, Update, fault_of};
use crate::run::{RunDone, RunHeld};
use crate::submit::{Submit, Submitted};
use dist_types::builder::BuilderIncoming;
use dist_types::command::CompileCommand;
use dist_types::ids::JobId;
use dist_types::outgoing::ServerOutgoing;
use dist_types::readers::ToolchainReader;
use dist_types::results::{
    AssignJobResult, JobState, RunJobResult, SubmitToolchainResult, UpdateJobStateResult,
};
use dist_types::source::{ReadError, Source, read_whole};
use dist_types::text::Text;
use dist_types::toolchain::Toolchain;
use std::alloc::Global;

/// The most bytes of an archive that is submitted.
pub const MAX_ARCHIVE: u32 = 1_073_741_824;

/// Keeps what a build server keeps. Where it tells its books each call is that of a `ServerState` with
/// these books; the rules of `tells` hold whether it does or not.
pub trait Keeping {
    /// The books, where they are told.
    ghost kept: { Self → Option Books };

    /// Assigns a job with its toolchain: Ready where the archive is listed, else Pending, with the wish for
    /// the toolchain. AlreadyAssigned where the job is held; Memory changes nothing.
    fn assign(&mut self, job: JobId, tc: Toolchain) -> Result<AssignJobResult, ServerFault>
        ensures turns { Turns (λ old new. Assigns job tc old new result) (kept self.old) (kept self.new) }
        ensures tells { TellsAssign job result };

    /// Begins a submission under a job. It takes no memory.
    fn begin_submit(&self, job: JobId) -> Submit
        ensures job { result ≡ job };

    /// Ends a submission by what the scheduler answered to Ready: the archive is stored where the job is
    /// held and the archive is not listed. UpdateFailed exactly where Ready was not accepted, and Memory.
    fn end_submit(
        &mut self,
        submit: Submit,
        ready: Update,
        archive: &[u8],
    ) -> Result<Submitted, ServerFault>
        ensures turns { Turns (λ old new. Submits submit ready archive.now old new result)
            (kept self.old) (kept self.new) }
        ensures tells { TellsUpdate ready result };

    /// Takes a job out by what the scheduler answered to Started, and reads its archive. UpdateFailed exactly
    /// where Started was not accepted, and Memory; the job then stays held.
    fn begin_run(&mut self, job: JobId, started: Update) -> Result<RunHeld, ServerFault>
        ensures turns { Turns (λ old new. Begins job started old new result)
            (kept self.old) (kept self.new) }
        ensures tells { TellsUpdate started result };
}

/// Assigns a job with its toolchain, as the keeper does.
pub fn assign_on<K: Keeping>(
    keeper: &mut K,
    job_id: JobId,
    tc: Toolchain,
) -> Result<AssignJobResult, ServerFault>
    ensures turns { Turns (λ old new. Assigns job_id tc old new result) (K.kept keeper.old)
        (K.kept keeper.new) }
    ensures tells { TellsAssign job_id result }
{
    keeper.assign(job_id, tc)
}

/// Ends a submission whose archive was read.
fn end_with<K: Keeping>(
    keeper: &mut K,
    submit: Submit,
    ready: UpdateJobStateResult,
    archive: &[u8],
) -> Result<SubmitToolchainResult, ServerFault>
    ensures { Ends submit (Ok ready) archive.now (K.kept keeper.old) (K.kept keeper.new) result }
{
    match keeper.end_submit(submit, Ok(ready), archive) {
        Ok(outcome) => Ok(outcome.result()),
        Err(e) => Err(e),
    }
}

/// Reads the archive of a submission that was accepted, and ends it.
fn fetch<K: Keeping, R: Source>(
    alloc: Global,
    keeper: &mut K,
    submit: Submit,
    ready: UpdateJobStateResult,
    reader: &mut R,
) -> Result<SubmitToolchainResult, ServerFault>
    ensures fetches { (fetched : Result (List ℕ) Unread) × Fetches submit (Ok ready) fetched
        (K.kept keeper.old) (K.kept keeper.new)
        (reading R.left R.faults reader.old) (reading R.left R.faults reader.new) result }
    ensures apart { R.apart reader.new ≡ R.apart reader.old }
{
    match read_whole(alloc, reader, MAX_ARCHIVE) {
        Ok(archive) => end_with(keeper, submit, ready, &archive),
        Err(ReadError::Failed) => Ok(SubmitToolchainResult::CannotCache),
        Err(ReadError::TooLong) => Ok(SubmitToolchainResult::CannotCache),
        Err(ReadError::Memory) => Err(ServerFault::Memory),
    }
}

/// Submits a toolchain under a job: reports Ready, and where that is accepted reads the archive to its end
/// and has the keeper store it. An archive that cannot be read, or of more than 1,073,741,824 bytes, is
/// CannotCache, whatever is held, and nothing is stored.
pub fn submit_from<K: Keeping, O: ServerOutgoing, R: Source>(
    alloc: Global,
    keeper: &mut K,
    requester: &mut O,
    job_id: JobId,
    reader: &mut R,
) -> Result<SubmitToolchainResult, ServerFault>
    ensures submit { IsSubmitOn O.says job_id (K.kept keeper.old) (K.kept keeper.new)
        (reports O.updated O.faults O.lent requester.old) (reports O.updated O.faults O.lent requester.new)
        (reading R.left R.faults reader.old) (reading R.left R.faults reader.new) result }
    ensures apart { R.apart reader.new ≡ R.apart reader.old }
{
    let submit = keeper.begin_submit(job_id);
    match requester.do_update_job_state(job_id, JobState::Ready) {
        Ok(ready) => fetch(alloc, keeper, submit, ready, reader),
        Err(e) => Err(fault_of(e)),
    }
}

/// The same over the reader of an archive, which is lent: what is left of it is told.
pub fn submit_on<K: Keeping, O: ServerOutgoing, R: Source>(
    alloc: Global,
    keeper: &mut K,
    requester: &mut O,
    job_id: JobId,
    tc_rdr: ToolchainReader<&mut R>,
) -> Result<SubmitToolchainResult, ServerFault>
    ensures submit { IsSubmitOn O.says job_id (K.kept keeper.old) (K.kept keeper.new)
        (reports O.updated O.faults O.lent requester.old) (reports O.updated O.faults O.lent requester.new)
        (reading R.left R.faults tc_rdr.entry.0.now) (reading R.left R.faults tc_rdr.exit.0.now) result }
    ensures apart { R.apart tc_rdr.exit.0.now ≡ R.apart tc_rdr.entry.0.now }
{
    let ToolchainReader(reader) = tc_rdr;
    submit_from(alloc, keeper, requester, job_id, reader)
}

/// A build that is asked for, under a job.
#[derive(Drop)]
struct Order<'a> {
    job: JobId,
    command: &'a CompileCommand,
    outputs: &'a [Text],
    inputs: &'a [u8],
}

/// Reports the end of a run.
fn finish<O: ServerOutgoing>(
    requester: &mut O,
    job: JobId,
    done: RunDone,
) -> Result<RunJobResult, ServerFault>
    ensures { Finishes O.says job done (reports O.updated O.faults O.lent requester.old)
        (reports O.updated O.faults O.lent requester.new) result }
{
    let complete = requester.do_update_job_state(job, JobState::Complete);
    done.end_run(complete)
}

/// Builds what was taken out, and reports the end.
fn work<O: ServerOutgoing, B: BuilderIncoming>(
    requester: &mut O,
    builder: &mut B,
    held: RunHeld,
    order: &Order<'_>,
) -> Result<RunJobResult, ServerFault>
    ensures works { Works O.says order.now.job held
        (record { command = order.now.command.now; outputs = order.now.outputs.now; inputs = order.now.inputs.now })
        (reports O.updated O.faults O.lent requester.old) (reports O.updated O.faults O.lent requester.new)
        (builder_of B.built B.refusals builder.old) (builder_of B.built B.refusals builder.new) result }
    ensures answers { B.answers builder.new ≡ B.answers builder.old }
{
    match held.build(builder, order.command, order.outputs, order.inputs) {
        Ok(done) => finish(requester, order.job, done),
        Err((held, _)) => {
            held.give_up();
            Err(ServerFault::Memory)
        }
    }
}

/// Takes out a job whose Started was accepted, builds it and reports the end.
fn proceed<K: Keeping, O: ServerOutgoing, B: BuilderIncoming>(
    keeper: &mut K,
    requester: &mut O,
    builder: &mut B,
    started: UpdateJobStateResult,
    order: &Order<'_>,
) -> Result<RunJobResult, ServerFault>
    ensures runs { Runs O.says order.now.job
        (record { command = order.now.command.now; outputs = order.now.outputs.now; inputs = order.now.inputs.now })
        (Ok started) (K.kept keeper.old) (K.kept keeper.new)
        (reports O.updated O.faults O.lent requester.old) (reports O.updated O.faults O.lent requester.new)
        (builder_of B.built B.refusals builder.old) (builder_of B.built B.refusals builder.new) result }
    ensures answers { B.answers builder.new ≡ B.answers builder.old }
{
    match keeper.begin_run(order.job, Ok(started)) {
        Ok(held) => work(requester, builder, held, order),
        Err(e) => Err(e),
    }
}

/// Runs a job: reports Started, and where that is accepted takes the job out, builds it and reports Complete.
/// UpdateFailed where either report is not accepted, and the second then hides the outcome; JobNotFound where
/// the job is not held; BuildFailed with its cause; Memory.
pub fn run_on<K: Keeping, O: ServerOutgoing, B: BuilderIncoming>(
    keeper: &mut K,
    requester: &mut O,
    builder: &mut B,
    job_id: JobId,
    command: &CompileCommand,
    outputs: &[Text],
    inputs: &[u8],
) -> Result<RunJobResult, ServerFault>
    ensures run { IsRunOn O.says job_id
        (record { command = command.now; outputs = outputs.now; inputs = inputs.now })
        (K.kept keeper.old) (K.kept keeper.new)
        (reports O.updated O.faults O.lent requester.old) (reports O.updated O.faults O.lent requester.new)
        (builder_of B.built B.refusals builder.old) (builder_of B.built B.refusals builder.new) result }
    ensures answers { B.answers builder.new ≡ B.answers builder.old }
{
    let order = Order {
        job: job_id,
        command,
        outputs,
        inputs,
    };
    match requester.do_update_job_state(job_id, JobState::Started) {
        Ok(started) => proceed(keeper, requester, builder, started, &order),
        Err(e) => Err(fault_of(e)),
    }
}
