//! The calls of a script's events, and the lines of their answers.
ghost use Rattle.std.specs.Prelude.{◌≡◌, ◌++◌, ◌∷◌, [], IfOk, OnOk, map, string_bytes};
ghost use Rattle.quota_script.specs.Script.{said_of};
ghost use Rattle.quota_run.specs.Lines.{call_of, lines_of};
ghost use Rattle.quota_run.specs.Program.{script_lines};

use crate::lines::lines;
use crate::run::Run;
use crate::tokens::NoTokens;
use dist_types::fault::Memory;
use dist_types::ids::{JobId, ServerId};
use dist_types::text::{Bytes, Items};
use quota::call::QuotaCall;
use quota_script::event::{Event, EventKind};
use quota_script::script::Script;
use std::alloc::{AllocError, Global};

/// The call of an event.
fn call_of(alloc: Global, event: Event) -> QuotaCall
    ensures { result ≡ call_of event }
{
    let Event { at, kind } = event;
    match kind {
        EventKind::Alloc(client) => QuotaCall::Alloc { now: at, client },
        EventKind::Commit(job, is_ready) => QuotaCall::Commit {
            now: at,
            job: JobId(job),
            is_ready,
        },
        EventKind::Undo(job) => QuotaCall::Undo {
            now: at,
            job: JobId(job),
        },
        EventKind::Beat(server, nonce, cpus) => QuotaCall::Beat {
            now: at,
            server: ServerId::new(server),
            nonce,
            cpus,
            key: Bytes::new(Vec::new(alloc)),
        },
        EventKind::Update(server, job, state) => QuotaCall::Update {
            now: at,
            server: ServerId::new(server),
            job: JobId(job),
            state,
        },
        EventKind::Status => QuotaCall::Status { now: at },
    }
}

/// Adds a call. Refused for want of memory alone.
fn push(calls: &mut Vec<QuotaCall>, call: QuotaCall) -> Result<(), AllocError>
    ensures { OnOk result (calls.new.items ≡ calls.old.items ++ call ∷ []) }
{
    calls.push(call)?;
    Ok(())
}

/// The calls of events. Refused for want of memory alone.
fn calls_of(alloc: Global, events: Items<Event>) -> Result<Vec<QuotaCall>, AllocError>
    ensures { IfOk result (λ calls. calls.items ≡ map call_of events) }
{
    let mut calls = Vec::new(alloc);
    for event in events.into_inner() {
        push(&mut calls, call_of(alloc, event))?;
    }
    Ok(calls)
}

/// Makes calls, and gives the lines of their answers. Refused for want of memory alone.
fn told(alloc: Global, run: &mut Run<NoTokens>, calls: &[QuotaCall]) -> Result<String, Memory>
    ensures { IfOk result (λ s. string_bytes s ≡ lines_of run.old calls.now) }
{
    let answers = run.answer_all(calls)?;
    match lines(alloc, run.history(), &answers) {
        Ok(lines) => Ok(lines),
        Err(_) => Err(Memory),
    }
}

/// The same; what is still reserved then is given back, and stands in no line.
fn told_once(alloc: Global, run: Run<NoTokens>, calls: &[QuotaCall]) -> Result<String, Memory>
    ensures { IfOk result (λ s. string_bytes s ≡ lines_of run calls.now) }
{
    let mut run = run;
    let lines = told(alloc, &mut run, calls);
    run.close();
    lines
}

/// The lines of a script. Refused for want of memory alone.
pub(crate) fn script_lines(alloc: Global, script: Script) -> Result<String, Memory>
    ensures { IfOk result (λ s. string_bytes s ≡ script_lines (said_of script)) }
{
    let Script {
        base,
        clients,
        events,
    } = script;
    let calls = calls_of(alloc, events)?;
    let clients = clients.into_list(alloc)?;
    match Run::new(alloc, base, clients) {
        Ok(run) => told_once(alloc, run, &calls),
        Err(_) => Err(Memory),
    }
}
