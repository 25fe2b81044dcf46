//! That the values of a farm have lines. Nothing here does anything when it runs.
ghost use Rattle.std.specs.List.{AllByRecursion};
ghost use Rattle.dist_types.specs.Addr.{IsAddr};
ghost use Rattle.run_lines.specs.Grammar.{Fits, Each, AllFit, JobFits, JobsFit, SomeFits, HasText, HasHex, IsId, AreIds};
ghost use Rattle.run_lines.specs.Grammar.{ArchivesFit, ReservedFits, CoreFits, SubmittedFits, RanFits, StepFits};
ghost use Rattle.audit.specs.Keyless.{keyless};
ghost use Rattle.farm_audit.specs.RunLines.{shown};
ghost use Rattle.farm_audit.specs.Fit.{SomeCoreFits, SomeStepFits, SomeCallFits, SomeReplyFits};
ghost use Rattle.farm_audit.specs.Fit.{KindFits, EventFits, EffectFits, ServerFits, SiteFits};

use build_server::run::Ran;
use build_server::submit::Submitted;
use core_rules::entry::{CoreEntry, CoreKind, Reserved};
use dist_types::addr::Addr;
use dist_types::ids::JobId;
use dist_types::toolchain::Toolchain;
use farm_entries::entry::{Entry, OutCall, Reply, Step, StepKind};
use farm_entries::site::{Site, SiteServer};
use farm_script::event::{Event, EventKind};

/// A number fits its type.
pub(crate) fn number_fits(n: u64)
    ensures { Fits n }
{
    let _n = n;
}

fn numbers_fit(numbers: &[u64])
    ensures { AllFit numbers.now }
{
    let _numbers = numbers;
}

fn bytes_fit(bytes: &[u8])
    ensures { HasHex bytes.now }
{
    let _bytes = bytes;
}

fn some_fits(number: Option<u64>)
    ensures { SomeFits number }
{
    match number {
        Some(n) => number_fits(n),
        None => {}
    }
}

fn is_addr(address: Addr)
    ensures { IsAddr address }
{
    match address {
        Addr::V4(octets, _) => {
            let [_a, _b, _c, _d] = octets;
        }
        Addr::V6(groups, _) => {
            let _groups = groups;
        }
    }
}

fn addr_fits(address: Addr)
    ensures { HasText address }
{
    is_addr(address);
}

fn id_fits(tc: &Toolchain)
    ensures { IsId tc.now }
{
    let _id = tc.archive_id();
}

fn job_fits(job: &JobId)
    ensures { JobFits job.now }
{
    number_fits(job.0);
}

fn jobs_fit(jobs: &[JobId])
    ensures { JobsFit jobs.now }
{
    for job in jobs {
        job_fits(job);
    }
}

fn ids_fit(ids: &[Toolchain])
    ensures { AreIds ids.now }
{
    for tc in ids {
        id_fits(tc);
    }
}

fn archives_fit(archives: &[(Toolchain, u64)])
    ensures { ArchivesFit archives.now }
{
    for archive in archives {
        id_fits(&archive.0);
        number_fits(archive.1);
    }
}

fn reserved_fits(reserved: &Reserved)
    ensures { ReservedFits reserved.now }
{
    match reserved {
        Reserved::Job { job, reg, forgiven } => {
            number_fits(job.0);
            number_fits(*reg);
            numbers_fit(forgiven.get());
        }
        Reserved::NoRoom(standing) => number_fits(*standing),
        Reserved::Spent => {}
    }
}

fn core_fits(kind: &CoreKind)
    ensures { CoreFits (keyless kind.now) }
{
    match kind {
        CoreKind::Reserve(reserved) => reserved_fits(reserved),
        CoreKind::Commit { job, .. } => number_fits(job.0),
        CoreKind::Undo { job, noted, .. } => {
            number_fits(job.0);
            some_fits(*noted);
        }
        CoreKind::Beat {
            server,
            nonce,
            cpus,
            pruned,
            reaped,
            replaced,
            ..
        } => {
            addr_fits(server.addr());
            number_fits(nonce.get());
            number_fits(*cpus);
            numbers_fit(pruned.get());
            jobs_fit(reaped.get());
            some_fits(*replaced);
        }
        CoreKind::Update { server, job, .. } => {
            addr_fits(server.addr());
            number_fits(job.0);
        }
        CoreKind::Status {
            pruned,
            servers,
            cpus,
            jobs,
        } => {
            numbers_fit(pruned.get());
            number_fits(*servers);
            number_fits(*cpus);
            number_fits(*jobs);
        }
        CoreKind::Drain {
            server,
            nonce,
            reg,
            ..
        } => {
            addr_fits(server.addr());
            number_fits(nonce.get());
            some_fits(*reg);
        }
    }
}

fn some_core_fits(core: &Option<CoreEntry>)
    ensures { SomeCoreFits core.now }
{
    match core {
        Some(made) => {
            number_fits(made.now);
            core_fits(&made.kind);
        }
        None => {}
    }
}

fn submitted_fits(outcome: &Submitted)
    ensures { SubmittedFits outcome.now }
{
    match outcome {
        Submitted::None => {}
        Submitted::Listed => {}
        Submitted::Stored(size, dropped) => {
            number_fits(*size);
            ids_fit(dropped.get());
        }
        Submitted::Digest => {}
        Submitted::Capacity => {}
        Submitted::Folder(dropped) => ids_fit(dropped.get()),
    }
}

fn ran_fits(ran: &Ran)
    ensures { RanFits ran.now }
{
    match ran {
        Ran::None => {}
        Ran::Unlisted(tc) => id_fits(tc),
        Ran::Folder(tc) => id_fits(tc),
        Ran::Built(tc) => id_fits(tc),
        Ran::Refused(tc) => id_fits(tc),
    }
}

fn step_fits(kind: &StepKind)
    ensures { StepFits (shown kind.now) }
{
    match kind {
        StepKind::Heard(_) => {}
        StepKind::Assigned { job, tc, .. } => {
            number_fits(job.0);
            id_fits(tc);
        }
        StepKind::Submitted { job, outcome } => {
            number_fits(job.0);
            submitted_fits(outcome);
        }
        StepKind::Ran { job, ran, .. } => {
            number_fits(job.0);
            ran_fits(ran);
        }
        StepKind::Finished { job } => number_fits(job.0),
        StepKind::Unreported { job } => number_fits(job.0),
        StepKind::Opened(archives) => archives_fit(archives.get()),
    }
}

fn some_step_fits(step: &Option<Step>)
    ensures { SomeStepFits step.now }
{
    match step {
        Some(made) => {
            addr_fits(made.server);
            step_fits(&made.kind);
        }
        None => {}
    }
}

fn some_call_fits(call: &Option<OutCall>)
    ensures { SomeCallFits call.now }
{
    match call {
        Some(made) => {
            addr_fits(made.target);
            bytes_fit(made.bytes.get());
        }
        None => {}
    }
}

fn some_reply_fits(reply: &Option<Reply>)
    ensures { SomeReplyFits reply.now }
{
    match reply {
        Some(made) => {
            number_fits(made.to);
            bytes_fit(made.bytes.get());
        }
        None => {}
    }
}

fn kind_fits(kind: &EventKind)
    ensures { KindFits kind.now }
{
    match kind {
        EventKind::Request {
            target,
            peer,
            bytes,
        } => {
            is_addr(*target);
            is_addr(*peer);
            bytes_fit(bytes.get());
        }
        EventKind::Deliver { call } => number_fits(*call),
        EventKind::Fail { call } => number_fits(*call),
        EventKind::Return { delivery } => number_fits(*delivery),
        EventKind::Answer { call, bytes } => {
            number_fits(*call);
            bytes_fit(bytes.get());
        }
        EventKind::Beat { server } => is_addr(*server),
        EventKind::Restart { server, key, nonce } => {
            is_addr(*server);
            bytes_fit(key.get());
            number_fits(nonce.get());
        }
    }
}

fn event_fits(event: &Event)
    ensures { EventFits event.now }
{
    number_fits(event.at);
    kind_fits(&event.kind);
}

fn effect_fits(made: &Entry)
    ensures { EffectFits made.now }
{
    event_fits(&made.event);
    some_core_fits(&made.core);
    some_step_fits(&made.step);
    some_call_fits(&made.call);
    some_reply_fits(&made.reply);
}

/// The values of entries have lines, by their types.
pub(crate) fn effects_fit(entries: &[Entry])
    ensures { Each EffectFits entries.now }
{
    for made in entries {
        effect_fits(made);
    }
}

fn server_fits(server: &SiteServer)
    ensures { ServerFits server.now }
{
    addr_fits(server.addr);
    match &server.found {
        Some(archives) => archives_fit(archives.get()),
        None => {}
    }
}

fn servers_fit(servers: &[SiteServer])
    ensures { Each ServerFits servers.now }
{
    for server in servers {
        server_fits(server);
    }
}

/// The values of a setup have lines.
pub(crate) fn site_fits(setup: &Site)
    ensures { SiteFits setup.now }
{
    number_fits(setup.scheduler.base);
    servers_fit(setup.servers.get());
}

fn are_addrs(servers: &[SiteServer])
    ensures { AllByRecursion (λ s. IsAddr s.addr) servers.now }
{
    for server in servers {
        is_addr(server.addr);
    }
}

/// The addresses of a setup are addresses.
pub(crate) fn has_addresses(setup: &Site)
    ensures scheduler { IsAddr setup.now.scheduler.addr }
    ensures servers { AllByRecursion (λ s. IsAddr s.addr) setup.now.servers }
{
    is_addr(setup.scheduler.addr);
    are_addrs(setup.servers.get());
}
