//! What is told on standard error.
use crate::stopped::Stopped;
use dist_types::dialer::Asked;
use dist_types::sink::{Sink, write_all};
use dist_types::source::{ReadError, Source, read_whole};
use http_connections::served::Served;
use std::alloc::Global;

/// Writes a word and a number as a line.
fn write_line<K: Sink>(
    alloc: Global,
    errs: &mut K,
    word: &str,
    number: usize,
) -> Result<(), Stopped> {
    let line = format!(in alloc; "{word} {number}\n")?;
    write_all(errs, line.as_bytes())?;
    Ok(())
}

fn word_of(served: Served) -> &'static str {
    match served {
        Served::Answered => "Answered",
        Served::ReadFault => "ReadFault",
        Served::WriteFault => "WriteFault",
        Served::Memory => "Memory",
    }
}

/// Writes what serving a connection answered, and how many reports were made so far.
pub fn write_served<K: Sink>(
    alloc: Global,
    errs: &mut K,
    served: Served,
    reports: usize,
) -> Result<(), Stopped> {
    write_line(alloc, errs, word_of(served), reports)
}

/// Reads what a link has left, and writes how many bytes these are, or that reading fails.
pub fn write_left<L: Source, K: Sink>(
    alloc: Global,
    link: &mut L,
    errs: &mut K,
) -> Result<(), Stopped> {
    match read_whole(alloc, link, u32::MAX) {
        Ok(rest) => write_line(alloc, errs, "left", rest.len()),
        Err(ReadError::Failed) => write_line(alloc, errs, "unreadable", 0),
        Err(ReadError::Memory) => Err(Stopped),
        Err(ReadError::TooLong) => Err(Stopped),
    }
}

/// Writes whom a report went to, its length and its bytes.
fn write_report<K: Sink>(alloc: Global, errs: &mut K, row: &Asked) -> Result<(), Stopped> {
    write_line(alloc, errs, row.host.get(), row.port as usize)?;
    let request = row.request.get();
    write_line(alloc, errs, "report", request.len())?;
    write_all(errs, request)?;
    Ok(())
}

/// Writes all reports.
pub fn write_reports<K: Sink>(alloc: Global, errs: &mut K, rows: &[Asked]) -> Result<(), Stopped> {
    for row in rows {
        write_report(alloc, errs, row)?;
    }
    Ok(())
}
