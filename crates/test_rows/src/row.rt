//! A row: what the program is run on, and what it must answer and write.
use crate::fault::Fault;
use farm::files::{FileFault, Files};
use std::alloc::Global;

/// What the program is run on, and what it must answer and write.
#[derive(Drop)]
pub(crate) struct Row {
    /// The words, the program's name first.
    pub(crate) words: Vec<String>,
    pub(crate) script: Vec<u8>,
    pub(crate) out: Vec<u8>,
    pub(crate) errs: Vec<u8>,
    pub(crate) status: u8,
}

/// The file of a row, if there is one.
fn file_of<D: Files>(
    alloc: Global,
    files: &mut D,
    name: &str,
    kind: &str,
) -> Result<Option<Vec<u8>>, Fault> {
    let path = format!(in alloc; "{name}.{kind}")?;
    match files.read(path.as_str()) {
        Ok(bytes) => Ok(Some(bytes)),
        Err(FileFault::Missing) => Ok(None),
        Err(FileFault::Failed) => Err(Fault::Unread),
        Err(FileFault::Memory) => Err(Fault::Memory),
    }
}

/// A file as text, or another text where there is none.
fn text_or(alloc: Global, file: Option<Vec<u8>>, other: &str) -> Result<String, Fault> {
    let Some(bytes) = file else {
        return Ok(String::from_str(alloc, other)?);
    };
    match String::from_utf8(bytes) {
        Ok(text) => Ok(text),
        Err(_) => Err(Fault::NoText),
    }
}

/// The program's name, and the words behind it, one a line.
fn words_in(alloc: Global, lines: &str) -> Result<Vec<String>, Fault> {
    let mut words = Vec::new(alloc);
    words.push(String::from_str(alloc, "sccache-dist")?)?;
    for line in lines.lines() {
        words.push(String::from_str(alloc, line)?)?;
    }
    Ok(words)
}

fn status_in(text: &str) -> Result<u8, Fault> {
    match text.trim().parse::<u8>() {
        Ok(status) => Ok(status),
        Err(_) => Err(Fault::NoStatus),
    }
}

impl Row {
    /// The row of a name. Words that no file has are `farm`, errs that none has are empty, and a status that
    /// none has is 0.
    pub(crate) fn of<D: Files>(alloc: Global, files: &mut D, name: &str) -> Result<Self, Fault> {
        let Some(script) = file_of(alloc, files, name, "script")? else {
            return Err(Fault::NoScript);
        };
        let words = text_or(alloc, file_of(alloc, files, name, "args")?, "farm")?;
        let status = text_or(alloc, file_of(alloc, files, name, "status")?, "0")?;
        Ok(Row {
            words: words_in(alloc, words.as_str())?,
            script,
            out: file_of(alloc, files, name, "out")?.unwrap_or(Vec::new(alloc)),
            errs: file_of(alloc, files, name, "err")?.unwrap_or(Vec::new(alloc)),
            status: status_in(status.as_str())?,
        })
    }
}
