//! What a client's calls answer, in words.
use crate::fault::Fault;
use crate::words::{hex_of, said};
use disk_cache::ToolchainError;
use dist_types::output::OutputData;
use dist_types::results::{
    AllocJobResult, JobAlloc, JobComplete, RunJobResult, SchedulerStatusResult,
    SubmitToolchainResult,
};
use http_calls::error::HttpError;
use std::alloc::Global;

fn local_told(alloc: Global, refusal: ToolchainError) -> Result<String, Fault> {
    Ok(format!(in alloc; "Local {refusal:?}")?)
}

fn status_told(alloc: Global, code: u16, body: &[u8]) -> Result<String, Fault> {
    let word = hex_of(alloc, body)?;
    Ok(format!(in alloc; "Status {code} {word}")?)
}

/// Why a call gave no answer, by name.
pub(crate) fn refused(alloc: Global, refusal: HttpError) -> Result<String, Fault> {
    match refusal {
        HttpError::Status(code, body) => status_told(alloc, code, body.get()),
        HttpError::Local(refusal) => local_told(alloc, refusal),
        HttpError::Memory => Err(Fault::Memory),
        other => Ok(format!(in alloc; "{other:?}")?),
    }
}

fn job_told(alloc: Global, job: &JobAlloc, need_toolchain: bool) -> Result<String, Fault> {
    let id = job.job_id;
    let server = job.server_id;
    let token = job.auth.get();
    Ok(format!(in alloc; "job {id} {server} {token} {need_toolchain}")?)
}

fn fail_told(alloc: Global, message: &str) -> Result<String, Fault> {
    Ok(format!(in alloc; "fail {message}")?)
}

pub(crate) fn job(alloc: Global, answer: AllocJobResult) -> Result<String, Fault> {
    match answer {
        AllocJobResult::Success {
            job_alloc,
            need_toolchain,
        } => job_told(alloc, &job_alloc, need_toolchain),
        AllocJobResult::Fail { msg } => fail_told(alloc, msg.get()),
    }
}

pub(crate) fn status(alloc: Global, answer: &SchedulerStatusResult) -> Result<String, Fault> {
    let servers = answer.num_servers;
    let cpus = answer.num_cpus;
    let jobs = answer.in_progress;
    Ok(format!(in alloc; "servers {servers} cpus {cpus} jobs {jobs}")?)
}

pub(crate) fn submitted(alloc: Global, answer: SubmitToolchainResult) -> Result<String, Fault> {
    match answer {
        SubmitToolchainResult::Success => said(alloc, "Success"),
        SubmitToolchainResult::JobNotFound => said(alloc, "JobNotFound"),
        SubmitToolchainResult::CannotCache => said(alloc, "CannotCache"),
    }
}

/// An output: its name, its bytes, and its size.
fn output_told(alloc: Global, name: &str, data: &OutputData) -> Result<String, Fault> {
    let word = hex_of(alloc, data.0.get())?;
    let size = data.1;
    Ok(format!(in alloc; " {name} {word} {size}")?)
}

/// Code, standard output, and standard error.
fn process_told(alloc: Global, answer: &JobComplete) -> Result<String, Fault> {
    let code = answer.output.code;
    let out = hex_of(alloc, answer.output.stdout.get())?;
    let errs = hex_of(alloc, answer.output.stderr.get())?;
    Ok(format!(in alloc; "complete {code} {out} {errs}")?)
}

/// The same, and each output.
fn complete(alloc: Global, answer: &JobComplete) -> Result<String, Fault> {
    let mut told = process_told(alloc, answer)?;
    for (name, data) in answer.outputs.get() {
        let row = output_told(alloc, name.get(), data)?;
        told.push_str(row.as_str())?;
    }
    Ok(told)
}

pub(crate) fn ran(alloc: Global, answer: &RunJobResult) -> Result<String, Fault> {
    match answer {
        RunJobResult::JobNotFound => said(alloc, "JobNotFound"),
        RunJobResult::Complete(answer) => complete(alloc, answer),
    }
}
