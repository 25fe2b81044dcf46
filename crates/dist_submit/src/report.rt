//! What is told of a job in a line of JSON.
use dist_types::addr::Addr;
use json::Writer;
use std::alloc::{AllocError, Global};
use submit_words::refusal::Refusal;

/// How many bytes went and came.
#[derive(Clone, Copy, Debug)]
pub(crate) struct Sizes {
    /// Of the archive, where it was brought.
    pub archive: u64,
    /// Of the inputs.
    pub inputs: u64,
    /// Of all outputs.
    pub outputs: u64,
    /// Of the job's standard output.
    pub stdout: u64,
    /// Of the job's standard error.
    pub stderr: u64,
}

/// How long each step took, in milliseconds.
#[derive(Clone, Copy, Debug)]
pub(crate) struct Times {
    /// To read files.
    pub read: u64,
    /// To ask the scheduler.
    pub ask: u64,
    /// To bring the archive.
    pub bring: u64,
    /// To have the job run.
    pub run: u64,
    /// To write outputs.
    pub write: u64,
}

/// What is told of a job.
#[derive(Clone, Copy, Debug)]
pub(crate) struct Report {
    /// The job that was given last, if one was.
    pub job: Option<u64>,
    /// Its server's address.
    pub server: Option<Addr>,
    /// The code that it ended with, if it ran.
    pub code: Option<i32>,
    /// Whether the last line of the job's standard error has no end.
    pub is_open: bool,
    /// How often a job was asked for.
    pub tries: u64,
    /// How many bytes went and came.
    pub bytes: Sizes,
    /// How long each step took.
    pub times: Times,
}

fn number(out: &mut Writer, key: &str, value: u64) -> Result<(), AllocError> {
    out.key(key)?;
    out.u64(value)
}

fn text(out: &mut Writer, key: &str, value: &Option<String>) -> Result<(), AllocError> {
    out.key(key)?;
    match value {
        Some(value) => out.string(value.as_str()),
        None => out.null(),
    }
}

fn address_text(alloc: Global, address: Option<Addr>) -> Result<Option<String>, AllocError> {
    match address {
        Some(address) => {
            let text = format!(in alloc; "{address}")?;
            Ok(Some(text))
        }
        None => Ok(None),
    }
}

fn cause_of(alloc: Global, refusal: Option<&Refusal>) -> Result<Option<String>, AllocError> {
    match refusal {
        Some(refusal) => {
            let cause = format!(in alloc; "{refusal}")?;
            Ok(Some(cause))
        }
        None => Ok(None),
    }
}

impl Sizes {
    fn write(&self, out: &mut Writer) -> Result<(), AllocError> {
        out.key("bytes")?;
        out.begin_object()?;
        number(out, "archive", self.archive)?;
        number(out, "inputs", self.inputs)?;
        number(out, "outputs", self.outputs)?;
        number(out, "stdout", self.stdout)?;
        number(out, "stderr", self.stderr)?;
        out.end_object()
    }
}

impl Times {
    fn write(&self, out: &mut Writer) -> Result<(), AllocError> {
        out.key("ms")?;
        out.begin_object()?;
        number(out, "read", self.read)?;
        number(out, "ask", self.ask)?;
        number(out, "bring", self.bring)?;
        number(out, "run", self.run)?;
        number(out, "write", self.write)?;
        out.end_object()
    }
}

impl Report {
    /// Nothing is told so far.
    pub(crate) fn new() -> Self {
        Report {
            job: None,
            server: None,
            code: None,
            is_open: false,
            tries: 0,
            bytes: Sizes {
                archive: 0,
                inputs: 0,
                outputs: 0,
                stdout: 0,
                stderr: 0,
            },
            times: Times {
                read: 0,
                ask: 0,
                bring: 0,
                run: 0,
                write: 0,
            },
        }
    }

    // The code, and the job with its server.
    fn write_job(&self, alloc: Global, out: &mut Writer) -> Result<(), AllocError> {
        out.key("code")?;
        match self.code {
            Some(code) => out.i64(i64::from(code))?,
            None => out.null()?,
        }
        out.key("job")?;
        match self.job {
            Some(job) => out.u64(job)?,
            None => out.null()?,
        }
        let server = address_text(alloc, self.server)?;
        text(out, "server", &server)
    }

    /// The line: how the program ends, the job, and what is told of it.
    pub(crate) fn line(
        &self,
        alloc: Global,
        status: u8,
        refusal: Option<&Refusal>,
    ) -> Result<Vec<u8>, AllocError> {
        let cause = cause_of(alloc, refusal)?;
        let mut out = Writer::new(Vec::new(alloc));
        out.begin_object()?;
        number(&mut out, "status", u64::from(status))?;
        self.write_job(alloc, &mut out)?;
        number(&mut out, "tries", self.tries)?;
        self.bytes.write(&mut out)?;
        self.times.write(&mut out)?;
        text(&mut out, "refusal", &cause)?;
        out.end_object()?;
        let mut line = out.into_inner();
        line.push(b'\n')?;
        Ok(line)
    }
}
