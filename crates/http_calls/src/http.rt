//! The client over HTTP.
ghost use Rattle.std.specs.Prelude.{◌≡◌, Ok, Some, string_bytes};
ghost use Rattle.dist_wire.specs.Reading as wire;
ghost use Rattle.disk_cache.specs.Custom.{customs_seen};
ghost use Rattle.disk_cache.specs.Putting.{Gets, archives_seen, placed_seen};
ghost use Rattle.path_pkg.specs.Called.{CalledOnce};
ghost use Rattle.http_calls.specs.Asking.{dialed_host};
ghost use Rattle.http_calls.specs.Servers.{port_at};
ghost use Rattle.http_calls.specs.Client.{IsAsked, Allocates, AsksStatus, Submits, AfterGet, Runs, run_of};
ghost use Rattle.http_calls.specs.Calls.{ReadsAlloc, ReadsStatus};
ghost use Rattle.http_calls.specs.Client.{first_of, RowIs};
ghost use Rattle.http_calls.specs.Client.{local_error, with_toolchains, PutsHere, TellsArchive, IsName};

use crate::alloc_call::AllocCall;
use crate::ask::{ask_server, ask_url};
use crate::calls;
use crate::run_call::RunCall;
use crate::status_call::StatusCall;
use crate::submit_call::SubmitCall;
use disk_cache::folder::Folder;
use disk_cache::{ClientToolchains, ToolchainError};
use dist_types::command::CompileCommand;
use dist_types::dialer::Dialer;
use dist_types::results::{
    AllocJobResult, JobAlloc, RunJobResult, SchedulerStatusResult, SubmitToolchainResult,
};
use dist_types::text::Text;
use dist_types::toolchain::Toolchain;
use http_head::error::HttpError;
use path_pkg::packagers::{InputsPackager, ToolchainPackager};
use path_pkg::unix::PathTransformer;
use std::alloc::Global;
use std::marker::Model;
use url::Url;

/// A client over any dialer and folder.
#[derive(Drop)]
pub struct Client<D: Dialer, F: Folder> {
    alloc: Global,
    dialer: D,
    toolchains: ClientToolchains<F>,
    scheduler_url: Url,
    auth_token: Text,
    rewrite_includes_only: bool,
}

impl<D: Dialer, F: Folder> Model for Client<D, F> {
    ghost use Rattle.http_calls.specs.Client.{ClientParts};

    ghost Value = { ClientParts };

    ghost view = { λ c. record {
      base = c.scheduler_url;
      token = c.auth_token;
      rewrites =
          c.rewrite_includes_only;
      toolchains = c.toolchains;
      asked = D.asked c.dialer;
      faults = D.faults
          c.dialer;
    } };
}

/// A refusal of the client's toolchains, as a call tells it.
fn local_error(refusal: ToolchainError) -> HttpError
    ensures { result ≡ local_error refusal }
{
    match refusal {
        ToolchainError::Cache(e) => HttpError::Local(ToolchainError::Cache(e)),
        ToolchainError::Disabled => HttpError::Local(ToolchainError::Disabled),
        ToolchainError::DuplicateConfig => HttpError::Local(ToolchainError::DuplicateConfig),
        ToolchainError::ConflictConfig => HttpError::Local(ToolchainError::ConflictConfig),
        ToolchainError::BadWeakMap => HttpError::Local(ToolchainError::BadWeakMap),
        ToolchainError::PackagerFailed => HttpError::Local(ToolchainError::PackagerFailed),
        ToolchainError::Memory => HttpError::Memory,
    }
}

impl<D: Dialer, F: Folder> Client<D, F> {
    /// A client that asks the scheduler at that URL, under that token, over that dialer, and has those
    /// toolchains. It takes no memory.
    pub fn new(
        alloc: Global,
        dialer: D,
        toolchains: ClientToolchains<F>,
        scheduler_url: Url,
        auth_token: String,
        rewrite_includes_only: bool,
    ) -> Self
        ensures { result ≡ record {
          base = scheduler_url;
          token = string_bytes auth_token;
          rewrites =
              rewrite_includes_only;
          toolchains = toolchains;
          asked = D.asked dialer;
          faults = D.faults
              dialer;
        } }
    {
        Client {
            alloc,
            dialer,
            toolchains,
            scheduler_url,
            auth_token: Text::new(auth_token),
            rewrite_includes_only,
        }
    }

    /// Its dialer and its toolchains. It takes no memory.
    pub fn into_parts(self) -> (D, ClientToolchains<F>)
        ensures dialer { (D.asked result.0 ≡ self.asked) × (D.faults result.0 ≡ self.faults) }
        ensures toolchains { result.1 ≡ self.toolchains }
    {
        let Client {
            alloc: _alloc,
            dialer,
            toolchains,
            scheduler_url: _url,
            auth_token: _token,
            rewrite_includes_only: _rewrites,
        } = self;
        (dialer, toolchains)
    }

    // Asks the scheduler for a job.
    fn alloc_job(&mut self, tc: &Toolchain) -> Result<AllocJobResult, HttpError>
        ensures asks { Allocates tc.now result self.old self.new }
        ensures reads { RowIs (ReadsAlloc self.old.base self.old.token tc.now) self.old self.new }
    {
        match AllocCall::start(self.alloc, &self.scheduler_url, self.auth_token.get(), tc) {
            Ok(call) => ask_url(
                self.alloc,
                &mut self.dialer,
                &self.scheduler_url,
                call.request(),
            ),
            Err(refusal) => Err(refusal),
        }
    }

    // Asks the scheduler for its status.
    fn get_status(&mut self) -> Result<SchedulerStatusResult, HttpError>
        ensures asks { AsksStatus result self.old self.new }
        ensures reads { RowIs (ReadsStatus self.old.base) self.old self.new }
    {
        match StatusCall::start(self.alloc, &self.scheduler_url) {
            Ok(call) => ask_url(
                self.alloc,
                &mut self.dialer,
                &self.scheduler_url,
                call.request(),
            ),
            Err(refusal) => Err(refusal),
        }
    }

    // The archive of a toolchain.
    fn get(&mut self, tc: &Toolchain) -> Result<Option<Vec<u8>>, ToolchainError>
        ensures gets { Gets tc.now (archives_seen result) self.old.toolchains self.new.toolchains }
        ensures changes { self.new ≡ with_toolchains self.old self.new.toolchains }
    {
        let answer = self.toolchains.get_toolchain(tc);
        answer
    }

    // Brings an archive to a job's server.
    fn bring(&mut self, job: &JobAlloc, archive: &[u8]) -> Result<SubmitToolchainResult, HttpError>
        ensures { AfterGet job.now (Ok (Some archive.now)) result self.old self.new }
    {
        match SubmitCall::start(self.alloc, job, archive) {
            Ok(call) => ask_server(self.alloc, &mut self.dialer, job.server_id, call.request()),
            Err(refusal) => Err(refusal),
        }
    }

    // Brings the archive of a toolchain to a job's server.
    fn submit(&mut self, job: &JobAlloc, tc: &Toolchain) -> Result<SubmitToolchainResult, HttpError>
        ensures { Submits job.now tc.now result self.old self.new }
    {
        match self.get(tc) {
            Ok(found) => match found {
                Some(archive) => self.bring(job, &archive),
                None => Err(HttpError::NotLocal),
            },
            Err(refusal) => Err(local_error(refusal)),
        }
    }

    // Asks a job's server to run it.
    fn send(&mut self, job: &JobAlloc, call: &RunCall) -> Result<RunJobResult, HttpError>
        ensures { IsAsked wire.ran_at (dialed_host job.now.server_id) (port_at job.now.server_id) call.now
            result self.old self.new }
    {
        let answer = ask_server(self.alloc, &mut self.dialer, job.server_id, call.request());
        answer
    }

    // Packs the inputs of a run, and asks its server to run it.
    fn run(
        &mut self,
        job: &JobAlloc,
        command: CompileCommand,
        outputs: Vec<String>,
        inputs: &mut dyn InputsPackager,
    ) -> Result<(RunJobResult, PathTransformer), HttpError>
        ensures { Runs (inputs.new ≡ inputs.old) (CalledOnce (times inputs.old) (times inputs.new))
            (packs inputs.old) (refusals inputs.old) (refusals inputs.new) job.now
            (run_of command outputs) (first_of result) self.old self.new }
    {
        match RunCall::packed(self.alloc(), job, command, outputs, inputs) {
            Ok((call, transformer)) => beside(self.send(job, &call), transformer),
            Err(refusal) => Err(refusal),
        }
    }

    // Where its memory comes from.
    fn alloc(&self) -> Global {
        self.alloc
    }

    // Puts the toolchain of a compiler.
    fn put(
        &mut self,
        compiler_path: &str,
        weak_key: &str,
        packager: &mut dyn ToolchainPackager,
    ) -> Result<(Toolchain, Option<(String, String)>), ToolchainError>
        ensures { PutsHere (packager.new ≡ packager.old)
            (CalledOnce (times packager.old) (times packager.new)) (packs packager.old)
            (refusals packager.old) (refusals packager.new) compiler_path.now weak_key.now
            (placed_seen result) self.old self.new }
    {
        let answer = self
            .toolchains
            .put_toolchain(compiler_path, weak_key, packager);
        answer
    }

    // The name of the archive that is configured for a compiler.
    fn custom(&mut self, exe: &str) -> Result<Option<String>, ToolchainError>
        ensures { TellsArchive exe.now result self.old self.new }
    {
        let told = self.toolchains.get_custom_toolchain(exe);
        name_of(told)
    }
}

// An answer with what mapped the paths beside it.
fn beside(
    answer: Result<RunJobResult, HttpError>,
    transformer: PathTransformer,
) -> Result<(RunJobResult, PathTransformer), HttpError>
    ensures { first_of result ≡ answer }
{
    match answer {
        Ok(ran) => Ok((ran, transformer)),
        Err(refusal) => Err(refusal),
    }
}

// The archive's name in what is told of a configured archive.
fn name_of(
    told: Option<Result<(Toolchain, String, String), ToolchainError>>,
) -> Result<Option<String>, ToolchainError>
    ensures { IsName (customs_seen told) result }
{
    match told {
        None => Ok(None),
        Some(answer) => match answer {
            Ok((_tc, _inside, archive)) => Ok(Some(archive)),
            Err(refusal) => Err(refusal),
        },
    }
}

impl<D: Dialer, F: Folder> calls::Client for Client<D, F> {
    ghost seen = { λ c. c };

    #[tactic(auto, using(crate::proofs::RefusalLemmas::scheduler_error))]
    fn do_alloc_job(&mut self, tc: &Toolchain) -> Result<AllocJobResult, HttpError> {
        self.alloc_job(tc)
    }

    #[tactic(auto, using(crate::proofs::RefusalLemmas::scheduler_error))]
    fn do_get_status(&mut self) -> Result<SchedulerStatusResult, HttpError> {
        self.get_status()
    }

    #[tactic(auto, using(crate::proofs::RefusalLemmas::submit_error))]
    fn do_submit_toolchain(
        &mut self,
        job: &JobAlloc,
        tc: &Toolchain,
    ) -> Result<SubmitToolchainResult, HttpError> {
        self.submit(job, tc)
    }

    #[tactic(auto, using(crate::proofs::RefusalLemmas::run_error))]
    fn do_run_job(
        &mut self,
        job: &JobAlloc,
        command: CompileCommand,
        outputs: Vec<String>,
        inputs: &mut dyn InputsPackager,
    ) -> Result<(RunJobResult, PathTransformer), HttpError> {
        self.run(job, command, outputs, inputs)
    }

    fn put_toolchain(
        &mut self,
        compiler_path: &str,
        weak_key: &str,
        packager: &mut dyn ToolchainPackager,
    ) -> Result<(Toolchain, Option<(String, String)>), ToolchainError> {
        self.put(compiler_path, weak_key, packager)
    }

    fn rewrite_includes_only(&self) -> bool {
        self.rewrite_includes_only
    }

    fn get_custom_toolchain(&mut self, exe: &str) -> Result<Option<String>, ToolchainError> {
        self.custom(exe)
    }
}
