//! That a server answers while it reports, and while it builds: the held call waits until an assignment was
//! answered, and gives up after so many looks, so a lock that is kept fails the test.
use crate::outside::{Scheduler, archive, command, names, source_of};
use crate::running::{assigned, server_of, submitted};
use build_server::server::{Server, ServerIncoming};
use dist_types::builder::{BuildFault, BuilderIncoming};
use dist_types::command::CompileCommand;
use dist_types::fault::raise;
use dist_types::ids::JobId;
use dist_types::outgoing::{CallFault, ServerOutgoing};
use dist_types::output::ProcessOutput;
use dist_types::readers::ToolchainReader;
use dist_types::results::{
    BuildResult, JobState, RunJobResult, SubmitToolchainResult, UpdateJobStateResult,
};
use dist_types::text::{Bytes, Items, Text};
use dist_types::toolchain::Toolchain;
use folders::mem_folder::MemFolder;
use std::alloc::Global;
use std::process::Abort;
use std::sync::Wait;
use std::sync::atomic::{AtomicU64, Ordering};
use std::thread;

/// The most looks at a flag.
const LOOKS: u64 = 1_000_000_000;

/// Whether the held call has begun, and whether the other was answered.
#[derive(Drop)]
struct Gate {
    begun: AtomicU64,
    answered: AtomicU64,
}

impl Gate {
    fn new() -> Self {
        Gate {
            begun: AtomicU64::new(0),
            answered: AtomicU64::new(0),
        }
    }

    /// Begins the held call, and waits for the other. Whether it was answered in time.
    fn hold(&self) -> bool {
        self.begun.store(1, Ordering::SeqCst);
        is_set(&self.answered)
    }

    /// Waits for the held call to begin. Whether it did in time.
    fn wait(&self) -> bool {
        is_set(&self.begun)
    }

    fn answer(&self) {
        self.answered.store(1, Ordering::SeqCst);
    }
}

fn is_set(flag: &AtomicU64) -> bool {
    for look in 0..LOOKS {
        if flag.load(Ordering::SeqCst) == 1 {
            return true;
        }
        if look % 1024 == 1023 {
            thread::yield_now();
        }
    }
    false
}

/// A scheduler that accepts all, and holds the one report of a state at a gate.
#[derive(Drop)]
struct Held<'a> {
    gate: &'a Gate,
    at: JobState,
    faults: u64,
}

impl<'a> ServerOutgoing for Held<'a> {
    ghost use Rattle.std.specs.Prelude.{None};

    ghost updated = { λ _. None };

    ghost faults = { λ s. s.faults };

    fn do_update_job_state(
        &mut self,
        _job_id: JobId,
        state: JobState,
    ) -> Result<UpdateJobStateResult, CallFault> {
        if state == self.at && !self.gate.hold() {
            raise(&mut self.faults);
            return Err(CallFault::Lost);
        }
        Ok(UpdateJobStateResult::Success)
    }
}

/// A builder that holds its build at a gate.
#[derive(Drop)]
struct Builder<'a> {
    alloc: Global,
    gate: &'a Gate,
    refusals: u64,
}

impl<'a> BuilderIncoming for Builder<'a> {
    ghost use Rattle.std.specs.Prelude.{None};

    ghost built = { λ _. None };

    ghost refusals = { λ b. b.refusals };

    ghost answers = { λ _. None };

    fn run_build(
        &mut self,
        _toolchain: &Toolchain,
        _archive: &[u8],
        _command: &CompileCommand,
        _outputs: &[Text],
        _inputs: &[u8],
    ) -> Result<BuildResult, BuildFault> {
        if !self.gate.hold() {
            raise(&mut self.refusals);
            return Err(BuildFault::Refused);
        }
        let output = ProcessOutput {
            code: 0,
            stdout: Bytes::new(Vec::new(self.alloc)),
            stderr: Bytes::new(Vec::new(self.alloc)),
        };
        Ok(BuildResult {
            output,
            outputs: Items::new(Vec::new(self.alloc)),
        })
    }
}

/// Runs the job 4096, whose build is held at the gate. Whether it was let go.
fn build_held<R: Abort + Wait>(
    rt: &R,
    alloc: Global,
    server: &Server<MemFolder>,
    gate: &Gate,
) -> bool {
    let mut scheduler = Scheduler::new(alloc, None);
    let mut builder = Builder {
        alloc,
        gate,
        refusals: 0,
    };
    let (command, outputs) = (command(rt, alloc), names(rt, alloc, "o"));
    let ran = server.handle_run_job(
        rt,
        &mut scheduler,
        &mut builder,
        JobId(4096),
        &command,
        &outputs,
        b"in",
    );
    match ran {
        Ok(RunJobResult::Complete(_)) => true,
        _ => false,
    }
}

/// Submits the archive of the job 4096, the report of which is held at the gate. Whether it was let go.
fn report_held<R: Abort + Wait>(
    rt: &R,
    alloc: Global,
    server: &Server<MemFolder>,
    gate: &Gate,
) -> bool {
    let mut scheduler = Held {
        gate,
        at: JobState::Ready,
        faults: 0,
    };
    let mut source = source_of(rt, alloc, archive(1), Vec::new(alloc));
    let rdr = ToolchainReader(&mut source);
    let stored = server.handle_submit_toolchain(rt, &mut scheduler, JobId(4096), rdr);
    stored == Ok(SubmitToolchainResult::Success)
}

/// Assigns another job once the held call has begun, and lets that go. Whether it was answered so.
fn assign_meanwhile<R: Abort + Wait>(
    rt: &R,
    server: &Server<MemFolder>,
    gate: &Gate,
    want: JobState,
) -> bool {
    let begun = gate.wait();
    let answer = assigned(rt, server, 4097, 1);
    gate.answer();
    begun && answer == Some((want, want == JobState::Pending))
}

/// An assignment is answered while a build runs.
#[test]
fn gate_build(rt: HostRuntime) {
    let alloc = rt.alloc();
    let server = server_of(&rt, alloc);
    assigned(&rt, &server, 4096, 1);
    assert!(rt; submitted(&rt, alloc, &server, 4096, archive(1), None).is_ok());
    let gate = Gate::new();
    let (built, ready) = thread::join(
        &rt,
        || build_held(&rt, alloc, &server, &gate),
        || assign_meanwhile(&rt, &server, &gate, JobState::Ready),
    );
    assert!(rt; ready, "the assignment was not answered as it should");
    assert!(rt; built, "the build was not let go");
}

/// An assignment is answered while Ready is reported.
#[test]
fn gate_report(rt: HostRuntime) {
    let alloc = rt.alloc();
    let server = server_of(&rt, alloc);
    assigned(&rt, &server, 4096, 1);
    let gate = Gate::new();
    let (stored, pending) = thread::join(
        &rt,
        || report_held(&rt, alloc, &server, &gate),
        || assign_meanwhile(&rt, &server, &gate, JobState::Pending),
    );
    assert!(rt; pending, "the assignment was not answered as it should");
    assert!(rt; stored, "the report was not let go");
}
