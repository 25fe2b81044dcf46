//! What a line asks, and what came of it.
use crate::asking::{Call, outcome_of};
use crate::fault::Fault;
use crate::words::{bytes_of, cut, said};
use std::alloc::Global;

/// How often the dialer was asked, and what came of the call.
fn answer(alloc: Global, call: Call<'_>, reply: Option<Vec<u8>>) -> Result<String, Fault> {
    let outcome = outcome_of(alloc, call, reply)?;
    outcome.answer(alloc)
}

/// The same, and what was asked.
fn request(alloc: Global, call: Call<'_>, reply: Option<Vec<u8>>) -> Result<String, Fault> {
    let outcome = outcome_of(alloc, call, reply)?;
    outcome.requests(alloc)
}

/// What came of a call whose reply is cut.
fn cut_off(alloc: Global, call: Call<'_>, front: &[u8]) -> Result<String, Fault> {
    let reply = Vec::from_slice(alloc, front)?;
    answer(alloc, call, Some(reply))
}

/// Counts an answer that is `1 ParseError`, and puts down each other.
fn count(
    alloc: Global,
    told: &mut String,
    refused: &mut u64,
    n: usize,
    answer: &str,
) -> Result<(), Fault> {
    if answer == "1 ParseError" {
        *refused = refused.saturating_add(1);
        return Ok(());
    }
    let row = format!(in alloc; "\n{n}: {answer}")?;
    told.push_str(row.as_str())?;
    Ok(())
}

/// Makes a call with each shorter front of a reply. Answers how many were told as ParseError, and what came
/// of each other.
fn cuts(alloc: Global, call: Call<'_>, reply: &[u8]) -> Result<String, Fault> {
    let mut others = String::new(alloc);
    let mut refused = 0u64;
    for n in 0..reply.len() {
        let answer = cut_off(alloc, call, &reply[..n])?;
        count(alloc, &mut others, &mut refused, n, answer.as_str())?;
    }
    let others = others.as_str();
    Ok(format!(in alloc; "{refused} ParseError{others}")?)
}

/// The reply of a word in hex: none for `none`.
fn reply_of(alloc: Global, word: &str) -> Result<Option<Vec<u8>>, Fault> {
    if word == "none" {
        return Ok(None);
    }
    let bytes = bytes_of(alloc, word)?;
    Ok(Some(bytes))
}

/// What is shown of a call with that reply.
fn show(alloc: Global, name: &str, call: Call<'_>, word: &str) -> Result<String, Fault> {
    let reply = reply_of(alloc, word)?;
    match name {
        "answer" => answer(alloc, call, reply),
        "request" => request(alloc, call, reply),
        _ => Err(Fault::BadRow),
    }
}

/// The same for each shorter front of the reply.
fn show_cuts(alloc: Global, call: Call<'_>, word: &str) -> Result<String, Fault> {
    let reply = bytes_of(alloc, word)?;
    cuts(alloc, call, &reply)
}

/// What came of a row: what is shown, a call and its word, the scheduler's URL, and the reply.
fn take(alloc: Global, name: &str, rest: &str) -> Result<String, Fault> {
    let (call, rest) = cut(rest);
    let (word, rest) = cut(rest);
    let (base, reply) = cut(rest);
    let call = Call {
        name: call,
        word,
        base,
    };
    if name == "cuts" {
        return show_cuts(alloc, call, reply);
    }
    show(alloc, name, call, reply)
}

/// What came of a line. One that begins with `#` is told as it is.
pub(crate) fn told(alloc: Global, line: &str) -> Result<String, Fault> {
    let (name, rest) = cut(line);
    if name == "#" {
        return said(alloc, line);
    }
    take(alloc, name, rest)
}
