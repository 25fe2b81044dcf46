//! `quotas CLIENTS CALL COUNT`: so many calls of a scheduler with so many clients, or of one without quotas
//! where there are none.
//!
//! The calls are `job` (a reserve, a commit as ready, and the reports that it started and is complete),
//! `undo` (a reserve that is given back) and `beat` (a heartbeat of the one server, which has 64
//! processors). Each client may hold one reservation, and they reserve in turn. Each call is a millisecond
//! after the one before it. It writes how many entries the log has.

use crate::books::{Books, key};
use crate::short_tokens::QuotaTokens;
use dist_types::results::JobState;
use quota::state::QuotaState;
use sched_core::state::SchedState;
use std::alloc::{AllocError, Global};
use std::io;
use std::process::ExitCode;

/// A call whose cost is measured.
#[derive(Clone, Copy)]
enum Call {
    Job,
    Undo,
    Beat,
}

fn call_of(word: &str) -> Option<Call> {
    match word {
        "job" => Some(Call::Job),
        "undo" => Some(Call::Undo),
        "beat" => Some(Call::Beat),
        _ => None,
    }
}

/// A job from its reserve to its end. Whether each call was accepted.
fn job<B: Books>(books: &mut B, now: u64, client: &str) -> bool {
    let Some(r) = books.take(now, client) else {
        return false;
    };
    let job = r.job_id();
    books.keep(now.saturating_add(1), r)
        && books.tell(now.saturating_add(2), job, JobState::Started)
        && books.tell(now.saturating_add(3), job, JobState::Complete)
}

/// A reserve that is given back. Whether it was granted.
fn undo<B: Books>(books: &mut B, now: u64, client: &str) -> bool {
    let Some(r) = books.take(now, client) else {
        return false;
    };
    books.give_back(now.saturating_add(1), r);
    true
}

/// One call. Whether it was accepted.
fn make<B: Books>(books: &mut B, alloc: Global, now: u64, client: &str, call: Call) -> bool {
    match call {
        Call::Job => job(books, now, client),
        Call::Undo => undo(books, now, client),
        Call::Beat => books.hear(now, key(alloc)),
    }
}

/// The names of so many clients.
fn names_of(alloc: Global, clients: u64) -> Result<Vec<String>, AllocError> {
    let mut names = Vec::new(alloc);
    for number in 0..clients {
        names.push(format!(in alloc; "client-{number}")?)?;
    }
    Ok(names)
}

/// Clients of these names, each with a limit of one.
fn limited(alloc: Global, names: &[String]) -> Result<Vec<(String, u64)>, AllocError> {
    let mut clients = Vec::new(alloc);
    for name in names {
        clients.push((name.clone()?, 1u64))?;
    }
    Ok(clients)
}

/// The name whose turn it is, or none.
fn turn_of(names: &[String], number: u64) -> &str {
    let count = (names.len() as u64).max(1);
    match names.get((number % count) as usize) {
        Some(name) => name.as_str(),
        None => "",
    }
}

/// The entries of the log, once so many calls were made. None where one was refused.
fn go_through<B: Books + Drop>(
    mut books: B,
    alloc: Global,
    names: &[String],
    call: Call,
    count: u64,
) -> Option<usize> {
    if !books.hear(0, key(alloc)) {
        return None;
    }
    for number in 0..count {
        let now = number.saturating_mul(4);
        if !make(&mut books, alloc, now, turn_of(names, number), call) {
            return None;
        }
    }
    Some(books.entries())
}

/// The same, of a scheduler whose clients have these names, or of one without quotas where there are none.
fn measured(alloc: Global, names: &[String], call: Call, count: u64) -> Option<usize> {
    if names.is_empty() {
        let state: SchedState<QuotaTokens> = SchedState::new(alloc, 0);
        return go_through(state, alloc, names, call, count);
    }
    let clients = limited(alloc, names).ok()?;
    let state: QuotaState<QuotaTokens> = match QuotaState::new(alloc, 0, clients) {
        Ok(state) => state,
        Err(_) => return None,
    };
    go_through(state, alloc, names, call, count)
}

fn asked(words: &[String]) -> Option<(u64, Call, u64)> {
    let clients = words.get(2)?.as_str().parse::<u64>().ok()?;
    let call = call_of(words.get(3)?.as_str())?;
    let count = words.get(4)?.as_str().parse::<u64>().ok()?;
    Some((clients, call, count))
}

/// Makes the calls that the words ask for.
pub(crate) fn timed(rt: &HostRuntime, words: &[String]) -> io::Result<ExitCode> {
    let Some((clients, call, count)) = asked(words) else {
        eprintln!(rt; "bench: quotas CLIENTS job|undo|beat COUNT")?;
        return Ok(ExitCode::from(2));
    };
    let names = names_of(rt.alloc(), clients)?;
    match measured(rt.alloc(), &names, call, count) {
        Some(entries) => {
            println!(rt; "{entries}")?;
            Ok(ExitCode::from(0))
        }
        None => {
            eprintln!(rt; "bench: refused, or out of memory")?;
            Ok(ExitCode::from(1))
        }
    }
}
