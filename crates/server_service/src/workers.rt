//! Workers of a build server: each serves the connections of its kit in a thread of its own, and all come
//! back.
ghost use Rattle.std.specs.Prelude.{◌≡◌, ◌<◌, ℕ, length, IfOk, OnErr, slice_index_or};
ghost use Rattle.build_server.specs.Builds.{builder_of};
ghost use Rattle.dist_token.specs.Verdict.{job_verdict};
ghost use Rattle.http_calls.specs.Urls.{IsHttp};
ghost use Rattle.http_connections.specs.Tally.{Worked};
ghost use Rattle.server_service.specs.Replied.{IsReplied};
ghost use Rattle.server_service.specs.Told.{peer_of};
ghost use Rattle.server_service.specs.Workers.{lent};

use crate::connection::serve_server_connection;
use build_server::server::Server;
use dist_token::job_token::JWTJobAuthorizer;
use dist_types::builder::BuilderIncoming;
use dist_types::dialer::Dialer;
use dist_types::fault::Memory;
use folders::folder::Folder;
use http_connections::tasks::Tasks;
use std::alloc::Global;
use std::sync::Wait;
use std::thread;
use std::thread::Threads;
use url::Url;

/// What one worker has for its own.
#[derive(Drop)]
pub struct BuildKit<T, D, B> {
    /// Where its connections come from.
    pub tasks: T,
    /// How it tells the scheduler.
    pub dialer: D,
    /// What runs its builds.
    pub builder: B,
}

/// Serves all connections of a kit.
fn work<R: Wait, F: Folder, T: Tasks, D: Dialer + Drop, B: BuilderIncoming + Drop>(
    rt: &R,
    alloc: Global,
    server: &Server<F>,
    key: &JWTJobAuthorizer,
    scheduler: &Url,
    scheduler_auth: &str,
    kit: &mut BuildKit<T, D, B>,
)
    requires http { IsHttp scheduler.now }
    ensures worked { Worked (λ _. IsReplied (job_verdict key.now) (peer_of scheduler.now scheduler_auth.now))
        (λ l. record {
          left = T.L.left l;
          held = T.L.held l;
          reads = T.L.Source.faults l;
          writes = T.L.Sink.faults l;
        })
        (T.told kit.old.tasks) (T.told kit.new.tasks)
        (lent D.asked D.faults (builder_of B.built B.refusals) kit.old)
        (lent D.asked D.faults (builder_of B.built B.refusals) kit.new) }
{
    for _ in rt.forever() {
        let Some((mut link, _peer)) = kit.tasks.take() else {
            return;
        };
        let mut keeper = server.keeper(rt);
        let served = serve_server_connection(
            alloc,
            &mut keeper,
            key,
            &mut link,
            &mut kit.dialer,
            scheduler,
            scheduler_auth,
            &mut kit.builder,
        );
        kit.tasks.done(link, served);
    }
    unreachable!()
}

/// Runs all workers at once, and waits for all.
fn work_all<
    R: Threads + Wait + Sync,
    F: Folder + Send,
    T: Tasks,
    D: Dialer + Drop + Send,
    B: BuilderIncoming + Drop + Send,
>(
    rt: &R,
    alloc: Global,
    server: &Server<F>,
    key: &JWTJobAuthorizer,
    scheduler: &Url,
    scheduler_auth: &str,
    kits: &mut [BuildKit<T, D, B>],
)
    requires http { IsHttp scheduler.now }
    ensures worked { (i : ℕ) (d : _) → i < length kits.old
        → Worked (λ _. IsReplied (job_verdict key.now) (peer_of scheduler.now scheduler_auth.now))
        (λ l. record {
          left = T.L.left l;
          held = T.L.held l;
          reads = T.L.Source.faults l;
          writes = T.L.Sink.faults l;
        })
        (T.told (slice_index_or kits.old i d).tasks) (T.told (slice_index_or kits.new i d).tasks)
        (lent D.asked D.faults (builder_of B.built B.refusals) (slice_index_or kits.old i d))
        (lent D.asked D.faults (builder_of B.built B.refusals) (slice_index_or kits.new i d)) }
    ensures len { length kits.new ≡ length kits.old }
{
    let threads = kits.len();
    if threads == 0 {
        return;
    }
    thread::for_each_mut(
        rt,
        kits,
        threads,
        &|_, kit: &mut BuildKit<T, D, B>| -> ()
            requires { IsHttp scheduler.now }
            ensures { Worked (λ _. IsReplied (job_verdict key.entry.now)
                (peer_of scheduler.entry.now scheduler_auth.entry.now))
                (λ l. record {
                  left = T.L.left l;
                  held = T.L.held l;
                  reads = T.L.Source.faults l;
                  writes = T.L.Sink.faults l;
                })
                (T.told kit.entry.now.tasks) (T.told kit.exit.now.tasks)
                (lent D.asked D.faults (builder_of B.built B.refusals) kit.entry.now)
                (lent D.asked D.faults (builder_of B.built B.refusals) kit.exit.now) }
        {
            work(rt, alloc, server, key, scheduler, scheduler_auth, kit);
        },
    );
}

/// Runs a worker for each kit over one server, and gives the kits back once all their connections were
/// served. Each link that a kit gave came back once, in order, with what serving it did to the kit, and none
/// is left. The scheduler stands at a base of scheme `http`. A worker that gets no thread is run by the
/// caller. It takes no memory of its own, so it is never refused.
pub fn serve_server_workers<
    R: Threads + Wait + Sync,
    F: Folder + Send,
    T: Tasks,
    D: Dialer + Drop + Send,
    B: BuilderIncoming + Drop + Send,
>(
    rt: &R,
    alloc: Global,
    server: &Server<F>,
    key: &JWTJobAuthorizer,
    kits: Vec<BuildKit<T, D, B>>,
    scheduler: &Url,
    scheduler_auth: &str,
) -> Result<Vec<BuildKit<T, D, B>>, Memory>
    requires http { IsHttp scheduler.now }
    ensures len { IfOk result (λ back. length back.items ≡ length kits.items) }
    ensures worked { IfOk result (λ back. (i : ℕ) (d : _) → i < length kits.items
        → Worked (λ _. IsReplied (job_verdict key.now) (peer_of scheduler.now scheduler_auth.now))
        (λ l. record {
          left = T.L.left l;
          held = T.L.held l;
          reads = T.L.Source.faults l;
          writes = T.L.Sink.faults l;
        })
        (T.told (slice_index_or kits.items i d).tasks) (T.told (slice_index_or back.items i d).tasks)
        (lent D.asked D.faults (builder_of B.built B.refusals) (slice_index_or kits.items i d))
        (lent D.asked D.faults (builder_of B.built B.refusals) (slice_index_or back.items i d))) }
    ensures never_refused { OnErr result ⊥ }
{
    let mut kits = kits;
    work_all(rt, alloc, server, key, scheduler, scheduler_auth, &mut kits);
    Ok(kits)
}
