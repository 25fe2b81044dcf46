//! `turns CALLERS ROUNDS`: so many callers, each in a thread of its own with a pass and a server of its own,
//! make so many rounds of five calls on one running scheduler: a heartbeat, an allocation that the server
//! takes, the reports that the job is started and complete, and a status request. It writes how many calls
//! were made.
ghost use Rattle.std.specs.Prelude.{◌≡◌, All, IfOk, None};
ghost use Rattle.sched.specs.Pass.{IsPassOf, Stays};

use crate::short_tokens::TurnTokens;
use dist_types::addr::Addr;
use dist_types::clock::MemClock;
use dist_types::ids::{JobId, ServerId, ServerNonce};
use dist_types::outgoing::{CallFault, SchedulerOutgoing};
use dist_types::results::{AllocJobResult, AssignJobResult, JobState};
use dist_types::roles::JobAuthorizer;
use dist_types::toolchain::Toolchain;
use sched::pass::Pass;
use sched::scheduler::Scheduler;
use std::alloc::Global;
use std::process::ExitCode;
use std::sync::Wait;
use std::thread::Threads;
use std::{io, thread};

/// How many calls a round has.
const CALLS: u64 = 5;

/// The toolchain of every job: the id of the archive `abc` (FIPS 180-4, appendix B.1).
const TOOLCHAIN: &str = "ba7816bf8f01cfea414140de5dae2223b00361a396177a9cb410ff61f20015ad";

/// A server that takes every job.
#[derive(Drop)]
struct Taking;

impl SchedulerOutgoing for Taking {
    ghost assigned = { λ _. None };

    ghost faults = { λ _. 0 };

    fn do_assign_job(
        &mut self,
        _server_id: ServerId,
        _job_id: JobId,
        _tc: &Toolchain,
        _auth: &str,
    ) -> Result<AssignJobResult, CallFault> {
        Ok(AssignJobResult {
            state: JobState::Ready,
            need_toolchain: false,
        })
    }
}

/// One caller: its pass, its server, how many rounds it makes, and how many calls were answered.
#[derive(Drop)]
struct Caller {
    alloc: Global,
    pass: Pass,
    server: ServerId,
    tc: Toolchain,
    rounds: u64,
    answered: u64,
}

/// The job of an answer.
fn given(answer: &AllocJobResult) -> Option<(ServerId, JobId)> {
    match answer {
        AllocJobResult::Success { job_alloc, .. } => Some((job_alloc.server_id, job_alloc.job_id)),
        AllocJobResult::Fail { .. } => None,
    }
}

/// An allocation, and the reports on its job. How many calls were answered.
fn job<R: Wait>(
    rt: &R,
    alloc: Global,
    scheduler: &Scheduler<TurnTokens>,
    pass: &mut Pass,
    tc: &Toolchain,
) -> u64
    requires pass { IsPassOf scheduler.now pass.old }
    ensures stays { Stays pass.old pass.new }
{
    let mut clock = MemClock::new(Vec::new(alloc));
    let Ok(answer) = scheduler.handle_alloc_job(rt, pass, &mut clock, &mut Taking, tc) else {
        return 0;
    };
    let Some((server, job)) = given(&answer) else {
        return 0;
    };
    let to = JobState::Started;
    let started = scheduler.handle_update_job_state(rt, pass, &mut clock, job, server, to);
    let to = JobState::Complete;
    let over = scheduler.handle_update_job_state(rt, pass, &mut clock, job, server, to);
    1 + u64::from(started.is_ok()) + u64::from(over.is_ok())
}

/// One round. How many calls were answered.
fn round<R: Wait>(
    rt: &R,
    alloc: Global,
    scheduler: &Scheduler<TurnTokens>,
    pass: &mut Pass,
    server: ServerId,
    tc: &Toolchain,
) -> u64
    requires pass { IsPassOf scheduler.now pass.old }
    ensures stays { Stays pass.old pass.new }
{
    let mut clock = MemClock::new(Vec::new(alloc));
    let key = TurnTokens::of_key(Vec::new(alloc));
    let nonce = ServerNonce::new(7);
    let heard = scheduler.handle_heartbeat_server(rt, pass, &mut clock, server, nonce, 4, key);
    let done = job(rt, alloc, scheduler, pass, tc);
    let counted = scheduler.handle_status(rt, pass, &mut clock);
    let others = u64::from(heard.is_ok()) + u64::from(counted.is_ok());
    done.saturating_add(others)
}

/// All rounds of a caller.
fn call_all<R: Wait>(rt: &R, scheduler: &Scheduler<TurnTokens>, caller: &mut Caller)
    requires pass { IsPassOf scheduler.now caller.old.pass }
{
    for _ in 0..caller.rounds {
        let (alloc, server) = (caller.alloc, caller.server);
        let answered = round(rt, alloc, scheduler, &mut caller.pass, server, &caller.tc);
        caller.answered = caller.answered.saturating_add(answered);
    }
}

/// The callers. None where memory ran out.
fn hire<R: Wait>(
    rt: &R,
    alloc: Global,
    scheduler: &Scheduler<TurnTokens>,
    pass: &mut Pass,
    callers: u64,
    rounds: u64,
) -> Option<Vec<Caller>>
    requires pass { IsPassOf scheduler.now pass.old }
    ensures passes { (v : _) → result ≡ Some v → All (λ c. IsPassOf scheduler.now c.pass) v.items }
{
    let mut hired = Vec::new(alloc);
    for number in 0..callers {
        let pass = scheduler.split(rt, pass).ok()?;
        let server = ServerId::new(Addr::V4([127, 0, 0, 1], (number % 60000) as u16));
        let caller = Caller {
            alloc,
            pass,
            server,
            tc: Toolchain::new(TOOLCHAIN).ok()?,
            rounds,
            answered: 0,
        };
        hired.push(caller).ok()?;
    }
    Some(hired)
}

/// Makes all calls. How many were answered.
fn measured<R: Threads + Wait + Sync>(
    rt: &R,
    alloc: Global,
    callers: u64,
    rounds: u64,
) -> Option<u64> {
    let (scheduler, mut pass) = Scheduler::<TurnTokens>::new(alloc, 0).ok()?;
    let scheduler = &scheduler;
    let mut hired = hire(rt, alloc, scheduler, &mut pass, callers, rounds)?;
    let threads = hired.len();
    if threads == 0 {
        return None;
    }
    thread::for_each_mut(
        rt,
        &mut hired,
        threads,
        &|_, c: &mut Caller| -> ()
            requires pass { IsPassOf scheduler.now c.now.pass }
        { call_all(rt, scheduler, c) },
    );
    let mut answered = 0u64;
    for caller in &hired {
        answered = answered.saturating_add(caller.answered);
    }
    Some(answered)
}

/// The number that a word says.
fn number(words: &[String], place: usize) -> Option<u64> {
    words.get(place)?.as_str().parse::<u64>().ok()
}

/// Makes the calls that the words ask for.
pub(crate) fn timed<R: Threads + Wait + Sync>(
    rt: &HostRuntime,
    threads: &R,
    words: &[String],
) -> io::Result<ExitCode> {
    let (Some(callers), Some(rounds)) = (number(words, 2), number(words, 3)) else {
        eprintln!(rt; "bench: turns CALLERS ROUNDS")?;
        return Ok(ExitCode::from(2));
    };
    let wanted = callers.saturating_mul(rounds).saturating_mul(CALLS);
    match measured(threads, rt.alloc(), callers, rounds) {
        Some(answered) if answered == wanted => {
            println!(rt; "{answered}")?;
            Ok(ExitCode::from(0))
        }
        _ => {
            eprintln!(rt; "bench: a call was refused")?;
            Ok(ExitCode::from(1))
        }
    }
}
