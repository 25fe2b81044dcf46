//! What a client of the scheduler and of build servers can ask.
ghost use Rattle.std.specs.Prelude.{◌≡◌, IfErr};
ghost use Rattle.disk_cache.specs.Putting.{placed_seen};
ghost use Rattle.path_pkg.specs.Called.{CalledOnce};
ghost use Rattle.http_calls.specs.Client.{ClientParts, Allocates, AsksStatus, Submits, Runs, run_of};
ghost use Rattle.http_calls.specs.Calls.{ReadsAlloc, ReadsStatus};
ghost use Rattle.http_calls.specs.Client.{first_of, PutsHere, TellsArchive, RowIs};
ghost use Rattle.http_calls.specs.Refusals.{IsSchedulerError, IsSubmitError, IsRunError};

use disk_cache::ToolchainError;
use dist_types::command::CompileCommand;
use dist_types::results::{
    AllocJobResult, JobAlloc, RunJobResult, SchedulerStatusResult, SubmitToolchainResult,
};
use dist_types::toolchain::Toolchain;
use http_head::error::HttpError;
use path_pkg::packagers::{InputsPackager, ToolchainPackager};
use path_pkg::unix::PathTransformer;

/// A client of the scheduler and of build servers.
///
/// A call that asks adds exactly one row to the record of its dialer, and its answer is that call resumed
/// with the reply of that row (`ParseError`, `Status`); it is `LinkFault` only where the dialer's count of
/// faults rose, and every other answer leaves that count as it was. Want of memory may hide each. The row is
/// read by its route as the same message under the same token, with the same archive or inputs, where a field
/// carries the token and the request is within the limits of what is read.
pub trait Client {
    /// Its parts: whom it asks, under which token, with which toolchains, and its dialer's record and count.
    ghost seen: { Self → ClientParts };

    /// Asks the scheduler for a job with that toolchain, under the client's token. `BadBase` exactly where
    /// the scheduler's URL is no `http` URL, and then nobody is asked.
    fn do_alloc_job(&mut self, tc: &Toolchain) -> Result<AllocJobResult, HttpError>
        ensures asks { Allocates tc.now result (seen self.old) (seen self.new) }
        ensures reads { let c = seen self.old in RowIs (ReadsAlloc c.base c.token tc.now) c (seen self.new) }
        ensures errors { IfErr result IsSchedulerError };

    /// Asks the scheduler for its status, under no token. `BadBase` exactly where the scheduler's URL is no
    /// `http` URL, and then nobody is asked.
    fn do_get_status(&mut self) -> Result<SchedulerStatusResult, HttpError>
        ensures asks { AsksStatus result (seen self.old) (seen self.new) }
        ensures reads { let c = seen self.old in RowIs (ReadsStatus c.base) c (seen self.new) }
        ensures errors { IfErr result IsSchedulerError };

    /// Brings the archive of a toolchain to a job's server, under the job's token. `NotLocal` exactly where
    /// the client has no such archive, and `Local` where it was not read; then nobody is asked.
    fn do_submit_toolchain(
        &mut self,
        job: &JobAlloc,
        tc: &Toolchain,
    ) -> Result<SubmitToolchainResult, HttpError>
        ensures asks { Submits job.now tc.now result (seen self.old) (seen self.new) }
        ensures errors { IfErr result IsSubmitError };

    /// Asks a job's server to run it so, with the inputs that the packager packs, under the job's token, and
    /// gives what mapped their paths beside the answer. `HeadTooLong` exactly where command and outputs have
    /// 2^32 bytes or more, and `Packager` where the packager refuses; then nobody is asked.
    fn do_run_job(
        &mut self,
        job: &JobAlloc,
        command: CompileCommand,
        outputs: Vec<String>,
        inputs: &mut dyn InputsPackager,
    ) -> Result<(RunJobResult, PathTransformer), HttpError>
        ensures asks { Runs (inputs.new ≡ inputs.old) (CalledOnce (times inputs.old) (times inputs.new))
            (packs inputs.old) (refusals inputs.old) (refusals inputs.new) job.now
            (run_of command outputs) (first_of result) (seen self.old) (seen self.new) }
        ensures errors { IfErr result IsRunError };

    /// Puts the toolchain of a compiler: see `ClientToolchains::put_toolchain`. It asks nobody.
    fn put_toolchain(
        &mut self,
        compiler_path: &str,
        weak_key: &str,
        packager: &mut dyn ToolchainPackager,
    ) -> Result<(Toolchain, Option<(String, String)>), ToolchainError>
        ensures { PutsHere (packager.new ≡ packager.old)
            (CalledOnce (times packager.old) (times packager.new)) (packs packager.old)
            (refusals packager.old) (refusals packager.new) compiler_path.now weak_key.now
            (placed_seen result) (seen self.old) (seen self.new) };

    /// Whether the client wants only includes to be rewritten.
    fn rewrite_includes_only(&self) -> bool
        ensures { result ≡ (seen self.now).rewrites };

    /// The name of the archive that is configured for a compiler, whose SHA-256 is taken: see
    /// `ClientToolchains::get_custom_toolchain`. It asks nobody.
    fn get_custom_toolchain(&mut self, exe: &str) -> Result<Option<String>, ToolchainError>
        ensures { TellsArchive exe.now result (seen self.old) (seen self.new) };
}
