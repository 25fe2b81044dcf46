//! A running server over an empty cache: what its calls answer, one after the other.
use crate::outside::{Scheduler, archive, cache_of, command, left, names, source_of, toolchain};
use build_server::echo::EchoBuilder;
use build_server::fault::ServerFault;
use build_server::server::{Server, ServerIncoming};
use build_server::state::ServerState;
use dist_types::ids::JobId;
use dist_types::outgoing::CallFault;
use dist_types::readers::ToolchainReader;
use dist_types::results::{JobState, RunJobResult, SubmitToolchainResult};
use folders::mem_folder::MemFolder;
use std::alloc::Global;
use std::process::Abort;
use std::sync::Wait;

/// A server over an empty cache of 1,000 bytes.
pub(crate) fn server_of(rt: &impl Abort, alloc: Global) -> Server<MemFolder> {
    let cache = cache_of(alloc, 1000, Vec::new(alloc), Vec::new(alloc)).expect(rt, "a cache");
    Server::new(alloc, ServerState::new(alloc, cache))
}

/// Whether an assignment of a job with an archive's toolchain is Ready or Pending; None where it is held.
pub(crate) fn assigned<R: Abort + Wait>(
    rt: &R,
    server: &Server<MemFolder>,
    job: u64,
    place: usize,
) -> Option<(JobState, bool)> {
    match server.handle_assign_job(rt, JobId(job), toolchain(rt, place)) {
        Ok(answer) => Some((answer.state, answer.need_toolchain)),
        Err(fault) => {
            assert_eq!(rt; fault, ServerFault::AlreadyAssigned(JobId(job)));
            None
        }
    }
}

/// Submits an archive under a job, every report accepted but one.
pub(crate) fn submitted<R: Abort + Wait>(
    rt: &R,
    alloc: Global,
    server: &Server<MemFolder>,
    job: u64,
    bytes: &[u8],
    loses: Option<JobState>,
) -> Result<SubmitToolchainResult, ServerFault> {
    let mut scheduler = Scheduler::new(alloc, loses);
    let mut source = source_of(rt, alloc, bytes, Vec::new(alloc));
    let rdr = ToolchainReader(&mut source);
    let answer = server.handle_submit_toolchain(rt, &mut scheduler, JobId(job), rdr);
    let unread = if loses == Some(JobState::Ready) {
        bytes.len()
    } else {
        0
    };
    assert_eq!(rt; left(rt, &mut source), unread);
    answer
}

/// Runs the one command over the inputs `in`, with the output `o`, and counts the reports.
fn ran<R: Abort + Wait>(
    rt: &R,
    alloc: Global,
    server: &Server<MemFolder>,
    job: u64,
    loses: Option<JobState>,
) -> (Result<RunJobResult, ServerFault>, usize) {
    let mut scheduler = Scheduler::new(alloc, loses);
    let mut builder = EchoBuilder::new(alloc);
    let (command, outputs) = (command(rt, alloc), names(rt, alloc, "o"));
    let answer = server.handle_run_job(
        rt,
        &mut scheduler,
        &mut builder,
        JobId(job),
        &command,
        &outputs,
        b"in",
    );
    (answer, scheduler.told.len())
}

/// That a run gave the code 0, `in` on standard output, and the output `o`.
fn assert_echoed(rt: &impl Abort, answer: &Result<RunJobResult, ServerFault>) {
    match answer {
        Ok(RunJobResult::Complete(complete)) => {
            assert_eq!(rt; complete.output.code, 0);
            assert_eq!(rt; complete.output.stdout.get(), b"in".as_slice());
            let (name, data) = complete.outputs.get().first().expect(rt, "an output");
            assert_eq!(rt; (name.get(), data.1), ("o", 1));
        }
        _ => assert!(rt; false, "the run gave nothing"),
    }
}

fn is_not_found(answer: &Result<RunJobResult, ServerFault>) -> bool {
    match answer {
        Ok(RunJobResult::JobNotFound) => true,
        _ => false,
    }
}

#[test]
fn a_job_is_assigned_submitted_and_run(rt: HostRuntime) {
    let alloc = rt.alloc();
    let server = server_of(&rt, alloc);
    assert_eq!(rt;
        assigned(&rt, &server, 4096, 1),
        Some((JobState::Pending, true))
    );
    assert_eq!(rt; assigned(&rt, &server, 4096, 1), None);
    let answer = submitted(&rt, alloc, &server, 4096, archive(1), None);
    assert_eq!(rt; answer, Ok(SubmitToolchainResult::Success));
    assert_eq!(rt;
        assigned(&rt, &server, 4098, 1),
        Some((JobState::Ready, false))
    );
}

#[test]
fn a_job_is_run_once(rt: HostRuntime) {
    let alloc = rt.alloc();
    let server = server_of(&rt, alloc);
    assigned(&rt, &server, 4096, 1);
    let _ = submitted(&rt, alloc, &server, 4096, archive(1), None);
    let (answer, reports) = ran(&rt, alloc, &server, 4097, None);
    assert!(rt; is_not_found(&answer) && reports == 2);
    let (answer, reports) = ran(&rt, alloc, &server, 4096, None);
    assert_echoed(&rt, &answer);
    assert_eq!(rt; reports, 2);
    let (answer, _) = ran(&rt, alloc, &server, 4096, None);
    assert!(rt; is_not_found(&answer));
}

#[test]
fn a_report_that_is_lost_is_told(rt: HostRuntime) {
    let alloc = rt.alloc();
    let server = server_of(&rt, alloc);
    let lost = ServerFault::UpdateFailed(CallFault::Lost);
    assigned(&rt, &server, 7, 1);
    let answer = submitted(&rt, alloc, &server, 7, archive(1), Some(JobState::Ready));
    assert_eq!(rt; answer, Err(lost));
    let _ = submitted(&rt, alloc, &server, 7, archive(1), None);
    let (answer, reports) = ran(&rt, alloc, &server, 7, Some(JobState::Started));
    assert!(rt; answer.is_err() && reports == 1);
    let (answer, reports) = ran(&rt, alloc, &server, 7, Some(JobState::Complete));
    assert!(rt; answer.is_err() && reports == 2);
    let (answer, _) = ran(&rt, alloc, &server, 7, None);
    assert!(rt; is_not_found(&answer));
}

#[test]
fn an_archive_that_cannot_be_read_is_not_stored(rt: HostRuntime) {
    let alloc = rt.alloc();
    let server = server_of(&rt, alloc);
    assigned(&rt, &server, 7, 1);
    let mut scheduler = Scheduler::new(alloc, None);
    let fails = Vec::from_slice(alloc, &[0u64]).expect(&rt, "memory");
    let mut source = source_of(&rt, alloc, archive(1), fails);
    let rdr = ToolchainReader(&mut source);
    let answer = server.handle_submit_toolchain(&rt, &mut scheduler, JobId(7), rdr);
    assert_eq!(rt; answer, Ok(SubmitToolchainResult::CannotCache));
    assert_eq!(rt; left(&rt, &mut source), archive(1).len());
    assert_eq!(rt;
        assigned(&rt, &server, 8, 1),
        Some((JobState::Pending, true))
    );
}

#[test]
fn an_empty_archive_is_one(rt: HostRuntime) {
    let alloc = rt.alloc();
    let server = server_of(&rt, alloc);
    assigned(&rt, &server, 7, 0);
    let answer = submitted(&rt, alloc, &server, 7, b"x", None);
    assert_eq!(rt; answer, Ok(SubmitToolchainResult::CannotCache));
    assert_eq!(rt;
        assigned(&rt, &server, 8, 0),
        Some((JobState::Pending, true))
    );
    let answer = submitted(&rt, alloc, &server, 7, b"", None);
    assert_eq!(rt; answer, Ok(SubmitToolchainResult::Success));
    assert_eq!(rt;
        assigned(&rt, &server, 9, 0),
        Some((JobState::Ready, false))
    );
}
