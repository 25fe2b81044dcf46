//! Servers, a scheduler and a builder in memory that tell their record: the traits can be met.
use dist_types::builder::{BuildFault, BuilderIncoming};
use dist_types::command::CompileCommand;
use dist_types::fault::raise;
use dist_types::ids::{JobId, ServerId};
use dist_types::outgoing::{CallFault, SchedulerOutgoing, ServerOutgoing};
use dist_types::output::ProcessOutput;
use dist_types::results::{AssignJobResult, BuildResult, JobState, UpdateJobStateResult};
use dist_types::text::{Bytes, Items, Text};
use dist_types::toolchain::Toolchain;
use std::alloc::Global;
use std::test::Fail;

// One call to a server, and its answer.
#[derive(Debug, Drop)]
struct AssignedRow {
    server: ServerId,
    job: JobId,
    toolchain: Toolchain,
    token: Text,
    answer: Result<AssignJobResult, CallFault>,
}

// Servers that take every job, or are all lost.
#[derive(Debug, Drop)]
struct MemServers {
    alloc: Global,
    lost: bool,
    faults: u64,
    rows: Vec<AssignedRow>,
}

impl SchedulerOutgoing for MemServers {
    ghost use Rattle.std.specs.Prelude.{Some, map};
    ghost use Rattle.dist_types.specs.Outgoing.{assigned_row};

    ghost assigned = { λ s.
        Some (map (λ r. assigned_row r.server r.job.0 r.toolchain r.token r.answer) s.rows.items) };

    ghost faults = { λ s. s.faults };

    fn do_assign_job(
        &mut self,
        server_id: ServerId,
        job_id: JobId,
        tc: &Toolchain,
        auth: &str,
    ) -> Result<AssignJobResult, CallFault> {
        let token = Text::of(self.alloc, auth)?;
        let answer = if self.lost {
            Err(CallFault::Lost)
        } else {
            Ok(AssignJobResult {
                state: JobState::Ready,
                need_toolchain: false,
            })
        };
        let row = AssignedRow {
            server: server_id,
            job: job_id,
            toolchain: *tc,
            token,
            answer,
        };
        match self.rows.push(row) {
            Ok(()) => {}
            Err(_) => return Err(CallFault::Memory),
        }
        if self.lost {
            raise(&mut self.faults);
        }
        answer
    }
}

#[test]
fn servers_in_memory_keep_their_record(rt: HostRuntime) -> Result<(), Fail> {
    let alloc = rt.alloc();
    let mut servers = MemServers {
        alloc,
        lost: true,
        faults: 0,
        rows: Vec::new(alloc),
    };
    let server: ServerId = "127.0.0.1:10501".parse()?;
    let tc = Toolchain::new("ba7816bf8f01cfea414140de5dae2223b00361a396177a9cb410ff61f20015ad")?;
    assert_eq!(rt;
        servers.do_assign_job(server, JobId(7), &tc, "t"),
        Err(CallFault::Lost)
    );
    servers.lost = false;
    assert!(rt; servers.do_assign_job(server, JobId(8), &tc, "u").is_ok());
    assert_eq!(rt; (servers.faults, servers.rows.len()), (1, 2));
    assert_eq!(rt;
        (servers.rows[1].job, servers.rows[1].token.get()),
        (JobId(8), "u")
    );
    Ok(())
}

// One state that the scheduler was told, and its answer.
#[derive(Debug, Drop)]
struct UpdatedRow {
    job: JobId,
    state: JobState,
    answer: Result<UpdateJobStateResult, CallFault>,
}

// A scheduler that accepts every state, or is lost.
#[derive(Debug, Drop)]
struct MemScheduler {
    lost: bool,
    faults: u64,
    rows: Vec<UpdatedRow>,
}

impl ServerOutgoing for MemScheduler {
    ghost use Rattle.std.specs.Prelude.{Some, map};
    ghost use Rattle.dist_types.specs.Outgoing.{updated_row};

    ghost updated = { λ s. Some (map (λ r. updated_row r.job.0 r.state r.answer) s.rows.items) };

    ghost faults = { λ s. s.faults };

    fn do_update_job_state(
        &mut self,
        job_id: JobId,
        state: JobState,
    ) -> Result<UpdateJobStateResult, CallFault> {
        let row = UpdatedRow {
            job: job_id,
            state,
            answer: if self.lost {
                Err(CallFault::Lost)
            } else {
                Ok(UpdateJobStateResult::Success)
            },
        };
        match self.rows.push(row) {
            Ok(()) => {}
            Err(_) => return Err(CallFault::Memory),
        }
        if self.lost {
            raise(&mut self.faults);
            return Err(CallFault::Lost);
        }
        Ok(UpdateJobStateResult::Success)
    }
}

#[test]
fn schedulers_in_memory_keep_their_record(rt: HostRuntime) -> Result<(), Fail> {
    let mut scheduler = MemScheduler {
        lost: false,
        faults: 0,
        rows: Vec::new(rt.alloc()),
    };
    assert!(rt;
        scheduler
            .do_update_job_state(JobId(7), JobState::Ready)
            .is_ok()
    );
    scheduler.lost = true;
    assert!(rt;
        scheduler
            .do_update_job_state(JobId(7), JobState::Started)
            .is_err()
    );
    assert_eq!(rt; (scheduler.faults, scheduler.rows.len()), (1, 2));
    assert_eq!(rt;
        (scheduler.rows[1].job, scheduler.rows[1].state),
        (JobId(7), JobState::Started)
    );
    Ok(())
}

// A builder that answers with its inputs. It tells no record, and refuses where it is told to.
#[derive(Debug, Drop)]
struct MemBuilder {
    alloc: Global,
    refuses: bool,
    refusals: u64,
}

impl BuilderIncoming for MemBuilder {
    ghost use Rattle.std.specs.Prelude.{None};

    ghost built = { λ _. None };

    ghost refusals = { λ b. b.refusals };

    ghost answers = { λ _. None };

    fn run_build(
        &mut self,
        _toolchain: &Toolchain,
        _archive: &[u8],
        _command: &CompileCommand,
        _outputs: &[Text],
        inputs: &[u8],
    ) -> Result<BuildResult, BuildFault> {
        if self.refuses {
            raise(&mut self.refusals);
            return Err(BuildFault::Refused);
        }
        let stdout = Bytes::from_slice(self.alloc, inputs)?;
        let output = ProcessOutput {
            code: 0,
            stdout,
            stderr: Bytes::new(Vec::new(self.alloc)),
        };
        Ok(BuildResult {
            output,
            outputs: Items::new(Vec::new(self.alloc)),
        })
    }
}

#[test]
fn builders_in_memory_answer_or_refuse(rt: HostRuntime) -> Result<(), Fail> {
    let alloc = rt.alloc();
    let mut builder = MemBuilder {
        alloc,
        refuses: false,
        refusals: 0,
    };
    let tc = Toolchain::new("ba7816bf8f01cfea414140de5dae2223b00361a396177a9cb410ff61f20015ad")?;
    let command = CompileCommand {
        executable: Text::of(alloc, "cc")?,
        arguments: Items::new(Vec::new(alloc)),
        env_vars: Items::new(Vec::new(alloc)),
        cwd: Text::of(alloc, "/")?,
    };
    let built = builder.run_build(&tc, b"abc", &command, &[], b"in")?;
    assert_eq!(rt; built.output.stdout.get(), b"in".as_slice());
    builder.refuses = true;
    assert!(rt;
        builder
            .run_build(&tc, b"abc", &command, &[], b"in")
            .is_err()
    );
    assert_eq!(rt; builder.refusals, 1);
    Ok(())
}
