//! A job, from its files to what it made.
use crate::archive::Archive;
use crate::deadline::{Deadline, millis, since};
use crate::link::TimedDialer;
use crate::progress::Progress;
use crate::report::Report;
use crate::{files, outputs, refused};
use disk_cache::ClientToolchains;
use disk_cache::reliable_folder::ReliableFolder;
use dist_types::command::CompileCommand;
use dist_types::output::ProcessOutput;
use dist_types::results::{
    AllocJobResult, JobAlloc, JobComplete, RunJobResult, SubmitToolchainResult,
};
use dist_types::sink::{Sink, write_all};
use dist_types::source::Source;
use dist_types::text::{Bytes, Items, Text};
use dist_types::toolchain::Toolchain;
use http_calls::calls::Client;
use http_calls::http;
use path_pkg::mem_packager::MemPackager;
use std::alloc::Global;
use std::net::Net;
use std::rt::Files;
use std::thread;
use std::time::Clock;
use submit_words::job::Job;
use submit_words::refusal::{Refusal, Step};
use submit_words::status::{FIRST_WAIT, ended, is_reserved, next_wait};
use url::Url;

/// The most bytes of archives that are kept in memory, 1 TiB: there is one.
const ROOM: u64 = 1 << 40;

/// Where the program reads and writes.
#[derive(Drop)]
pub(crate) struct Streams<I: Source, K: Sink, E: Sink> {
    /// Standard input.
    pub input: I,
    /// Standard output.
    pub out: K,
    /// Standard error.
    pub errs: E,
    /// Where heads are shown, if they are.
    pub heads: Option<E>,
}

/// What a job is asked with: its words, the bytes of its inputs, the names of its outputs, and until when.
#[derive(Drop)]
struct Order<'a, 'w> {
    alloc: Global,
    job: &'a Job<'w>,
    inputs: Vec<u8>,
    names: Vec<String>,
    deadline: Deadline,
}

/// The command of a job.
fn command_of(alloc: Global, job: &Job<'_>) -> Result<CompileCommand, Refusal> {
    let mut arguments = Vec::new(alloc);
    for argument in job.arguments {
        let argument = Text::of(alloc, argument.as_str())?;
        arguments.push(argument)?;
    }
    let mut variables = Vec::new(alloc);
    for variable in &job.variables {
        let name = Text::of(alloc, variable.name)?;
        let value = Text::of(alloc, variable.text)?;
        variables.push((name, value))?;
    }
    let executable = Text::of(alloc, job.executable)?;
    let cwd = Text::of(alloc, job.cwd)?;
    Ok(CompileCommand {
        executable,
        arguments: Items::new(arguments),
        env_vars: Items::new(variables),
        cwd,
    })
}

fn copies(alloc: Global, names: &[String]) -> Result<Vec<String>, Refusal> {
    let mut copies = Vec::new(alloc);
    for name in names {
        let copy = String::from_str(alloc, name.as_str())?;
        copies.push(copy)?;
    }
    Ok(copies)
}

/// One try: asks for a job, brings the archive where it is wanted, and has the job run.
#[derive(Drop)]
struct Try<'r, 'o, 'j, 'w, R, C: Client + Drop> {
    rt: &'r R,
    order: &'o Order<'j, 'w>,
    client: C,
    archive: Archive,
    report: Report,
}

impl<R: Files + AllocGlobal + Clock, C: Client + Drop> Try<'_, '_, '_, '_, R, C> {
    // Asks the scheduler for a job, and tells whether its server wants the archive.
    fn ask(&mut self, id: &Toolchain) -> Result<(JobAlloc, bool), Refusal> {
        let alloc = self.order.alloc;
        let begin = millis(self.rt);
        let answer = self.client.do_alloc_job(id);
        self.report.times.ask = since(self.rt, begin);
        match answer {
            Ok(
                AllocJobResult::Success {
                    job_alloc,
                    need_toolchain,
                },
            ) => {
                self.report.job = Some(job_alloc.job_id.0);
                self.report.server = Some(job_alloc.server_id.addr());
                Ok((job_alloc, need_toolchain))
            }
            Ok(AllocJobResult::Fail { msg }) => Err(Refusal::NoJob(msg.into_inner())),
            Err(refusal) => Err(refused::call(alloc, Step::Ask, refusal)),
        }
    }

    // Brings the archive to the job's server.
    fn bring(&mut self, job: &JobAlloc, id: &Toolchain) -> Result<(), Refusal> {
        let alloc = self.order.alloc;
        let begin = millis(self.rt);
        self.archive.place(self.rt, alloc, &mut self.client, id)?;
        let answer = self.client.do_submit_toolchain(job, id);
        self.report.times.bring = since(self.rt, begin);
        match answer {
            Ok(SubmitToolchainResult::Success) => {
                self.report.bytes.archive = self.archive.size();
                Ok(())
            }
            Ok(SubmitToolchainResult::JobNotFound) => Err(Refusal::JobNotFound),
            Ok(SubmitToolchainResult::CannotCache) => Err(Refusal::CannotCache),
            Err(refusal) => Err(refused::call(alloc, Step::Bring, refusal)),
        }
    }

    // Has the job run.
    fn run(&mut self, job: &JobAlloc) -> Result<JobComplete, Refusal> {
        let alloc = self.order.alloc;
        let command = command_of(alloc, self.order.job)?;
        let names = copies(alloc, &self.order.names)?;
        let inputs = Bytes::from_slice(alloc, &self.order.inputs)?;
        let mut packed = MemPackager::new(alloc, inputs, Vec::new(alloc));
        let begin = millis(self.rt);
        let answer = self.client.do_run_job(job, command, names, &mut packed);
        self.report.times.run = since(self.rt, begin);
        match answer {
            Ok((ran, _paths)) => match ran {
                RunJobResult::Complete(complete) => Ok(complete),
                RunJobResult::JobNotFound => Err(Refusal::JobNotFound),
            },
            Err(refusal) => Err(refused::call(alloc, Step::Run, refusal)),
        }
    }

    // The whole try.
    fn complete<E: Sink>(
        &mut self,
        progress: &mut Progress<'_, E>,
    ) -> Result<JobComplete, Refusal> {
        let alloc = self.order.alloc;
        progress.tell("reading the archive");
        let begin = millis(self.rt);
        let id = self.archive.id(self.rt, alloc, &mut self.client)?;
        self.report.times.read = self.report.times.read.saturating_add(since(self.rt, begin));
        progress.tell("asking for a job");
        let (job, is_wanted) = self.ask(&id)?;
        if is_wanted {
            progress.tell("bringing the archive");
            self.bring(&job, &id)?;
        }
        progress.tell("the job runs");
        self.run(&job)
    }
}

/// A refusal for want of a reply, where the time is over, is that.
fn in_time<C: Clock>(clock: &C, deadline: Deadline, refusal: Refusal) -> Refusal {
    match refusal {
        Refusal::LinkFault(step) => {
            if deadline.is_over(clock) {
                Refusal::TimeOut
            } else {
                Refusal::LinkFault(step)
            }
        }
        other => other,
    }
}

/// Tries until a job ran, as often as the words say, where a refusal means that.
fn tried<R: Files + AllocGlobal + Clock, C: Client + Drop, E: Sink>(
    one: &mut Try<'_, '_, '_, '_, R, C>,
    progress: &mut Progress<'_, E>,
) -> Result<JobComplete, Refusal> {
    let deadline = one.order.deadline;
    let mut wait = FIRST_WAIT;
    let mut last = Refusal::TimeOut;
    for number in 0..one.order.job.tries {
        if number > 0 {
            progress.tell("waiting before a job is asked for again");
            thread::sleep(one.rt, deadline.at_most(one.rt, wait));
            wait = next_wait(wait);
            if deadline.is_over(one.rt) {
                return Err(Refusal::TimeOut);
            }
        }
        one.report.tries = number.saturating_add(1);
        match one.complete(progress) {
            Ok(complete) => return Ok(complete),
            Err(refusal) => last = in_time(one.rt, deadline, refusal),
        }
        if !last.asks_again() {
            return Err(last);
        }
    }
    Err(last)
}

/// What a job is asked with, once the files that its words name are read.
fn order_of<'a, 'w, R: Files + AllocGlobal + Clock, I: Source>(
    rt: &R,
    alloc: Global,
    job: &'a Job<'w>,
    input: &mut I,
) -> Result<Order<'a, 'w>, Refusal> {
    let deadline = Deadline::within(rt, job.seconds);
    let names = outputs::names(alloc, job)?;
    let inputs = files::inputs(rt, alloc, job, input)?;
    Ok(Order {
        alloc,
        job,
        inputs,
        names,
        deadline,
    })
}

/// Has the job built over the network, its archive kept in memory.
fn built<R: Files + AllocGlobal + Clock + Net, E: Sink + Drop>(
    rt: &R,
    order: &Order<'_, '_>,
    heads: Option<E>,
    report: &mut Report,
    progress: &mut Progress<'_, E>,
) -> Result<JobComplete, Refusal> {
    let (alloc, job) = (order.alloc, order.job);
    let Ok(url) = Url::parse(alloc, job.scheduler) else {
        let url = String::from_str(alloc, job.scheduler)?;
        return Err(Refusal::BadUrl(url));
    };
    let begin = millis(rt);
    let token = files::token(rt, alloc, job)?;
    let archive = Archive::of(rt, alloc, job)?;
    report.times.read = since(rt, begin);
    let toolchains = match ClientToolchains::new(alloc, ReliableFolder::new(alloc), "", ROOM, &[]) {
        Ok(toolchains) => toolchains,
        Err(refusal) => return Err(refused::toolchain(alloc, refusal)),
    };
    let dialer = TimedDialer::new(alloc, rt, order.deadline, heads);
    let client = http::Client::new(alloc, dialer, toolchains, url, token, false);
    let mut one = Try {
        rt,
        order,
        client,
        archive,
        report: *report,
    };
    let answer = tried(&mut one, progress);
    *report = one.report;
    answer
}

/// Hands on what the job wrote.
fn told<I: Source, K: Sink, E: Sink + Drop>(
    output: &ProcessOutput,
    streams: &mut Streams<I, K, E>,
) -> Result<(), Refusal> {
    let out = write_all(&mut streams.out, output.stdout.get());
    let errs = write_all(&mut streams.errs, output.stderr.get());
    if out.is_ok() && errs.is_ok() {
        Ok(())
    } else {
        Err(Refusal::WriteFault)
    }
}

/// Whether the last line of a text has no end.
fn is_open(text: &[u8]) -> bool {
    match text.last() {
        Some(last) => *last != b'\n',
        None => false,
    }
}

/// The bytes of all outputs.
fn size_of(complete: &JobComplete) -> u64 {
    let mut size: u64 = 0;
    for (_name, data) in complete.outputs.get() {
        size = size.saturating_add(data.0.get().len() as u64);
    }
    size
}

/// Hands on what the job made: what it wrote, and then its outputs, also where one of them cannot be.
fn handed_on<R: Files + AllocGlobal + Clock, I: Source, K: Sink, E: Sink + Drop>(
    rt: &R,
    order: &Order<'_, '_>,
    complete: &JobComplete,
    report: &mut Report,
    streams: &mut Streams<I, K, E>,
) -> Result<u8, Refusal> {
    let output = &complete.output;
    report.code = Some(output.code);
    report.bytes.stdout = output.stdout.get().len() as u64;
    report.bytes.stderr = output.stderr.get().len() as u64;
    report.bytes.outputs = size_of(complete);
    report.is_open = is_open(output.stderr.get());
    let told = told(output, streams);
    let begin = millis(rt);
    let written = outputs::write_all(rt, order.alloc, order.job, complete.outputs.get());
    report.times.write = since(rt, begin);
    ended(output.code, if told.is_ok() { written } else { told })
}

/// Has the job built, and hands on what it made; its status.
fn status_of<R: Files + AllocGlobal + Clock + Net, I: Source, K: Sink, E: Sink + Drop>(
    rt: &R,
    alloc: Global,
    job: &Job<'_>,
    report: &mut Report,
    streams: &mut Streams<I, K, E>,
    is_shown: bool,
) -> Result<u8, Refusal> {
    let order = order_of(rt, alloc, job, &mut streams.input)?;
    report.bytes.inputs = order.inputs.len() as u64;
    let heads = streams.heads.take();
    let complete = {
        let mut progress = Progress::new(alloc, &mut streams.errs, is_shown);
        let complete = built(rt, &order, heads, report, &mut progress);
        progress.clear();
        complete?
    };
    handed_on(rt, &order, &complete, report, streams)
}

/// Says on standard error, behind a line that has begun, why the program ends so, where that status is no job's; and
/// where it is a job's own though a refusal could have it.
fn say<E: Sink>(alloc: Global, errs: &mut E, begun: bool, status: u8, refusal: Option<&Refusal>) {
    let line = match refusal {
        Some(refusal) => format!(in alloc; "dist_submit: {refusal}\n"),
        None if is_reserved(status) => {
            format!(in alloc; "dist_submit: status {status} is the job's own\n")
        }
        None => return,
    };
    if begun {
        let _ = write_all(errs, b"\n");
    }
    if let Ok(line) = line {
        let _ = write_all(errs, line.as_str().as_bytes());
    }
}

/// Has the job built, hands on what it made, and tells how it ended; the status.
pub(crate) fn submit<R: Files + AllocGlobal + Clock + Net, I: Source, K: Sink, E: Sink + Drop>(
    rt: &R,
    alloc: Global,
    job: &Job<'_>,
    streams: &mut Streams<I, K, E>,
    is_shown: bool,
) -> u8 {
    let mut report = Report::new();
    let ended = status_of(rt, alloc, job, &mut report, streams, is_shown);
    let (status, refusal) = match &ended {
        Ok(status) => (*status, None),
        Err(refusal) => (refusal.status(), Some(refusal)),
    };
    say(alloc, &mut streams.errs, report.is_open, status, refusal);
    if job.json {
        if let Ok(line) = report.line(alloc, status, refusal) {
            let _ = write_all(&mut streams.out, &line);
        }
    }
    status
}
