//! Workers: each serves the connections of its kit in a thread of its own, and all come back.
ghost use Rattle.std.specs.Prelude.{◌≡◌, ◌+◌, ◌<◌, ◌≤◌, [], List, ℕ, length, map, IfOk, OnOk, OnErr};
ghost use Rattle.std.specs.Prelude.{All, slice_index_or, vec_len, vec_capacity};
ghost use Rattle.std.specs.List.{sum_by};
ghost use Rattle.sched.specs.Outside.{moments};
ghost use Rattle.sched.specs.Pass.{Told, IsPassOf, IsSplit, Stays, Rises, held_of, split_off};
ghost use Rattle.http_connections.specs.Tally.{Worked};
ghost use Rattle.scheduler_service.specs.Connection.{IsReplied};
ghost use Rattle.scheduler_service.specs.Workers.{AreJoined, AreTakenBack, HasAllBack, around};

use crate::connection::serve_scheduler_connection;
use dist_token::checks::{ClientAuthCheck, ServerAuthCheck};
use dist_token::job_token::JWTJobAuthorizer;
use dist_types::clock::Clock;
use dist_types::dialer::Dialer;
use dist_types::fault::Memory;
use http_connections::tasks::Tasks;
use sched::pass::Pass;
use sched::scheduler::Scheduler;
use std::alloc::Global;
use std::sync::Wait;
use std::thread::Threads;
use std::{mem, thread};

/// What one worker has for its own.
#[derive(Drop)]
pub struct Kit<T, D, C, K> {
    /// Where its connections come from.
    pub tasks: T,
    /// How it asks build servers.
    pub dialer: D,
    /// Its clock.
    pub clock: C,
    /// Its check of clients' tokens.
    pub client: K,
}

/// One worker.
#[derive(Drop)]
struct Worker<T, D, C, K> {
    kit: Kit<T, D, C, K>,
    pass: Pass,
}

/// Serves all connections of the worker's kit.
fn work<
    R: Wait,
    T: Tasks,
    D: Dialer + Drop,
    C: Clock + Drop,
    K: ClientAuthCheck + Drop,
    V: ServerAuthCheck,
>(
    rt: &R,
    alloc: Global,
    scheduler: &Scheduler<JWTJobAuthorizer>,
    server: &V,
    worker: &mut Worker<T, D, C, K>,
)
    requires pass { IsPassOf scheduler.now worker.old.pass }
    ensures worked { Worked (IsReplied K.may_answer K.shown (V.server_of server.now))
        (λ l. record {
          left = T.L.left l;
          held = T.L.held l;
          reads = T.L.Source.faults l;
          writes = T.L.Sink.faults l;
        })
        (T.told worker.old.kit.tasks) (T.told worker.new.kit.tasks)
        (around (moments C.moments C.last) D.asked D.faults worker.old.pass worker.old.kit)
        (around (moments C.moments C.last) D.asked D.faults worker.new.pass worker.new.kit) }
    ensures stays { Stays worker.old.pass worker.new.pass }
{
    for _ in rt.forever() {
        let Some((mut link, peer)) = worker.kit.tasks.take() else {
            return;
        };
        let served = serve_scheduler_connection(
            rt,
            alloc,
            scheduler,
            &mut worker.pass,
            &mut link,
            peer,
            &mut worker.kit.dialer,
            &mut worker.kit.clock,
            &mut worker.kit.client,
            server,
        );
        worker.kit.tasks.done(link, served);
    }
    unreachable!()
}

/// Runs all workers at once, and waits for all.
fn work_all<
    R: Threads + Wait + Sync,
    T: Tasks,
    D: Dialer + Drop + Send,
    C: Clock + Drop + Send,
    K: ClientAuthCheck + Drop,
    V: ServerAuthCheck + Sync,
>(
    rt: &R,
    alloc: Global,
    scheduler: &Scheduler<JWTJobAuthorizer>,
    server: &V,
    workers: &mut [Worker<T, D, C, K>],
)
    requires passes { All (λ w. IsPassOf scheduler.now w.pass) workers.old }
    ensures worked { (i : ℕ) (d : _) → i < length workers.old
        → Worked (IsReplied K.may_answer K.shown (V.server_of server.now))
        (λ l. record {
          left = T.L.left l;
          held = T.L.held l;
          reads = T.L.Source.faults l;
          writes = T.L.Sink.faults l;
        })
        (T.told (slice_index_or workers.old i d).kit.tasks) (T.told (slice_index_or workers.new i d).kit.tasks)
        (around (moments C.moments C.last) D.asked D.faults (slice_index_or workers.old i d).pass (slice_index_or workers.old i d).kit)
        (around (moments C.moments C.last) D.asked D.faults (slice_index_or workers.new i d).pass (slice_index_or workers.new i d).kit) }
    ensures stay { (i : ℕ) (d : _) → i < length workers.old
        → Stays (slice_index_or workers.old i d).pass (slice_index_or workers.new i d).pass }
{
    let threads = workers.len();
    if threads == 0 {
        return;
    }
    thread::for_each_mut(
        rt,
        workers,
        threads,
        &|_, w: &mut Worker<T, D, C, K>| -> ()
            requires pass { IsPassOf scheduler.now w.now.pass }
            ensures worked { Worked (IsReplied K.may_answer K.shown (V.server_of server.entry.now))
                (λ l. record {
                  left = T.L.left l;
                  held = T.L.held l;
                  reads = T.L.Source.faults l;
                  writes = T.L.Sink.faults l;
                })
                (T.told w.entry.now.kit.tasks) (T.told w.exit.now.kit.tasks)
                (around (moments C.moments C.last) D.asked D.faults w.entry.now.pass w.entry.now.kit)
                (around (moments C.moments C.last) D.asked D.faults w.exit.now.pass w.exit.now.kit) }
            ensures stays { Stays w.entry.now.pass w.exit.now.pass }
        {
            work(rt, alloc, scheduler, server, w);
        },
    );
}

/// Takes the passes in.
fn join_all(scheduler: &Scheduler<JWTJobAuthorizer>, pass: &mut Pass, passes: Vec<Pass>)
    requires pass { IsPassOf scheduler.now pass.old }
    requires passes { All (λ p. IsPassOf scheduler.now p) passes.items }
    ensures joined { AreJoined passes.items pass.old pass.new }
{
    for theirs in passes {
        scheduler.join(pass, theirs);
    }
}

/// So many passes that are split off, for which there is room. Where memory ran out, those that were made are
/// joined again.
fn split_all<R: Wait>(
    rt: &R,
    scheduler: &Scheduler<JWTJobAuthorizer>,
    pass: &mut Pass,
    number: usize,
    mut passes: Vec<Pass>,
) -> Result<Vec<Pass>, Memory>
    requires pass { IsPassOf scheduler.now pass.old }
    requires room { vec_len passes + number ≤ vec_capacity passes }
    requires none { passes.items ≡ [] }
    ensures len { IfOk result (λ made. vec_len made ≡ number) }
    ensures split { IfOk result (λ made. All (λ p. IsSplit pass.old p) made.items) }
    ensures counted { OnOk result (pass.new ≡ split_off number pass.old) }
    ensures left { OnErr result (AreTakenBack number pass.old pass.new) }
{
    for _ in 0..number {
        match scheduler.split(rt, pass) {
            Ok(made) => passes.push_reserved(made),
            Err(_) => {
                join_all(scheduler, pass, passes);
                return Err(Memory);
            }
        }
    }
    Ok(passes)
}

/// A worker for each kit, each with one of the passes that were split off the given one, of which there are
/// as many.
fn hire<T: Tasks, D: Dialer + Drop, C: Clock + Drop, K: ClientAuthCheck + Drop>(
    pass: &Pass,
    kits: Vec<Kit<T, D, C, K>>,
    mut passes: Vec<Pass>,
    mut workers: Vec<Worker<T, D, C, K>>,
) -> Vec<Worker<T, D, C, K>>
    requires room { vec_len workers + vec_len kits ≤ vec_capacity workers }
    requires none { workers.items ≡ [] }
    requires enough { vec_len passes ≡ vec_len kits }
    requires split { All (λ p. IsSplit pass.now p) passes.items }
    ensures kits { map (λ w. w.kit) result.items ≡ kits.items }
    ensures split { All (λ w. IsSplit pass.now w.pass) result.items }
    ensures hold { sum_by (λ w. held_of w.pass) result.items ≡ length kits.items }
{
    for kit in kits {
        let Some(pass) = passes.pop() else {
            unreachable!()
        };
        workers.push_reserved(Worker { kit, pass });
    }
    workers
}

/// Takes the passes of the workers in, and gives their kits back.
fn gather<T: Tasks, D: Dialer + Drop, C: Clock + Drop, K: ClientAuthCheck + Drop>(
    scheduler: &Scheduler<JWTJobAuthorizer>,
    pass: &mut Pass,
    workers: Vec<Worker<T, D, C, K>>,
    kits: &mut Vec<Kit<T, D, C, K>>,
)
    requires pass { IsPassOf scheduler.now pass.old }
    requires passes { All (λ w. IsPassOf scheduler.now w.pass) workers.items }
    requires room { vec_len kits.now + vec_len workers ≤ vec_capacity kits.now }
    requires none { kits.now.items ≡ [] }
    ensures kits { kits.new.items ≡ map (λ w. w.kit) workers.items }
    ensures joined { AreJoined (map (λ w. w.pass) workers.items) pass.old pass.new }
{
    for worker in workers {
        let Worker { kit, pass: theirs } = worker;
        scheduler.join(pass, theirs);
        kits.push_reserved(kit);
    }
}

/// Runs a worker for each kit, and returns once all their connections were served. Each link that a kit
/// gave came back once, in order, with what serving it did to the kit and to a pass of the worker's own,
/// which was split off the given one; and none is left. These passes are joined: the pass then has the
/// places of all of them, and holds one more for each kit. A worker that gets no thread is run by the
/// caller. Refused for want of memory alone, before any link was taken: the kits are as they were, and the
/// passes that were split off are joined again. Either way none of them is out.
pub fn serve_scheduler_kits<
    R: Threads + Wait + Sync,
    T: Tasks,
    D: Dialer + Drop + Send,
    C: Clock + Drop + Send,
    K: ClientAuthCheck + Drop,
    V: ServerAuthCheck + Sync,
>(
    rt: &R,
    alloc: Global,
    scheduler: &Scheduler<JWTJobAuthorizer>,
    pass: &mut Pass,
    kits: &mut Vec<Kit<T, D, C, K>>,
    server: &V,
) -> Result<(), Memory>
    requires pass { IsPassOf scheduler.now pass.old }
    ensures of { IsPassOf scheduler.now pass.new }
    ensures back { HasAllBack pass.old pass.new }
    ensures len { length kits.new.items ≡ length kits.old.items }
    ensures worked { OnOk result ((began : List Told) × (ended : List Told)
        × (length began ≡ length kits.old.items) × (length ended ≡ length kits.old.items)
        × All (λ p. IsSplit pass.old p) began
        × AreJoined ended (split_off (length kits.old.items) pass.old) pass.new
        × ((i : ℕ) (d : _) (p : Told) → i < length kits.old.items
        → Worked (IsReplied K.may_answer K.shown (V.server_of server.now))
        (λ l. record {
          left = T.L.left l;
          held = T.L.held l;
          reads = T.L.Source.faults l;
          writes = T.L.Sink.faults l;
        })
        (T.told (slice_index_or kits.old.items i d).tasks) (T.told (slice_index_or kits.new.items i d).tasks)
        (around (moments C.moments C.last) D.asked D.faults (slice_index_or began i p) (slice_index_or kits.old.items i d))
        (around (moments C.moments C.last) D.asked D.faults (slice_index_or ended i p) (slice_index_or kits.new.items i d)))) }
    ensures holds { OnOk result (Rises (length kits.old.items) (held_of pass.old) (held_of pass.new)) }
    ensures untaken { OnErr result (kits.new ≡ kits.old) }
    ensures left { OnErr result (AreTakenBack (length kits.old.items) pass.old pass.new) }
{
    let number = kits.len();
    let back = Vec::with_capacity(alloc, number)?;
    let workers = Vec::with_capacity(alloc, number)?;
    let passes = Vec::with_capacity(alloc, number)?;
    let passes = split_all(rt, scheduler, pass, number, passes)?;
    let given = mem::replace(kits, back);
    let mut workers = hire(&*pass, given, passes, workers);
    work_all(rt, alloc, scheduler, server, &mut workers);
    gather(scheduler, pass, workers, kits);
    Ok(())
}

/// As `serve_scheduler_kits`, over kits that are given by value: they are given back, and dropped for want of
/// memory.
pub fn serve_scheduler_workers<
    R: Threads + Wait + Sync,
    T: Tasks,
    D: Dialer + Drop + Send,
    C: Clock + Drop + Send,
    K: ClientAuthCheck + Drop,
    V: ServerAuthCheck + Sync,
>(
    rt: &R,
    alloc: Global,
    scheduler: &Scheduler<JWTJobAuthorizer>,
    pass: &mut Pass,
    mut kits: Vec<Kit<T, D, C, K>>,
    server: &V,
) -> Result<Vec<Kit<T, D, C, K>>, Memory>
    requires pass { IsPassOf scheduler.now pass.old }
    ensures of { IsPassOf scheduler.now pass.new }
    ensures back { HasAllBack pass.old pass.new }
    ensures len { IfOk result (λ back. length back.items ≡ length kits.items) }
    ensures worked { IfOk result (λ back. (began : List Told) × (ended : List Told)
        × (length began ≡ length kits.items) × (length ended ≡ length kits.items)
        × All (λ p. IsSplit pass.old p) began
        × AreJoined ended (split_off (length kits.items) pass.old) pass.new
        × ((i : ℕ) (d : _) (p : Told) → i < length kits.items
        → Worked (IsReplied K.may_answer K.shown (V.server_of server.now))
        (λ l. record {
          left = T.L.left l;
          held = T.L.held l;
          reads = T.L.Source.faults l;
          writes = T.L.Sink.faults l;
        })
        (T.told (slice_index_or kits.items i d).tasks) (T.told (slice_index_or back.items i d).tasks)
        (around (moments C.moments C.last) D.asked D.faults (slice_index_or began i p) (slice_index_or kits.items i d))
        (around (moments C.moments C.last) D.asked D.faults (slice_index_or ended i p) (slice_index_or back.items i d)))) }
    ensures holds { OnOk result (Rises (length kits.items) (held_of pass.old) (held_of pass.new)) }
    ensures left { OnErr result (AreTakenBack (length kits.items) pass.old pass.new) }
{
    serve_scheduler_kits(rt, alloc, scheduler, pass, &mut kits, server)?;
    Ok(kits)
}
