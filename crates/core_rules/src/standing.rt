//! The rows of the registrations that stand, and what one entry does to them.
ghost use Rattle.std.specs.Prelude.{◌≡◌};
ghost use Rattle.core_rules.specs.Prune.{is_expired};
ghost use Rattle.core_rules.specs.Rule.{replaced_by, says_new, named_by, status_by};
ghost use Rattle.core_rules.specs.Next.{row_by, place_if};
ghost use Rattle.core_rules.specs.Next.{one_more_if};

use crate::entry::{CoreEntry, CoreKind};
use crate::rows::{OpenRow, ServerRow};
use dist_types::ids::ServerNonce;
use dist_types::results::SchedulerStatusResult;
use dist_types::text::Items;

/// A registration whose last sign is older is pruned, in milliseconds.
pub const HEARTBEAT_TIMEOUT: u64 = 90000;

/// Whether the last sign is too long ago.
pub fn is_silent(row: &ServerRow, now: u64) -> bool
    ensures { result ≡ is_expired now row.now }
{
    now.saturating_sub(row.seen) > HEARTBEAT_TIMEOUT
}

/// The registration of an open job, if there is one.
pub fn place_of(found: &Option<OpenRow>) -> Option<u64>
    ensures { result ≡ place_if found.now }
{
    match found {
        Some(o) => o.reg,
        None => None,
    }
}

/// One more, at most 2^64 - 1.
pub fn one_more(more: bool, n: u64) -> u64
    ensures { result ≡ one_more_if more n }
{
    if more { n.saturating_add(1) } else { n }
}

/// The registration that an entry of this number makes.
#[inline(always)]
pub fn row_made(step: &CoreEntry, number: u64) -> Option<ServerRow>
    ensures { result ≡ row_by step.entry.now.kind number step.entry.now.now }
{
    match &step.kind {
        CoreKind::Reserve(_) => None,
        CoreKind::Commit { .. } => None,
        CoreKind::Undo { .. } => None,
        CoreKind::Beat {
            server,
            nonce,
            cpus,
            is_new,
            ..
        } => {
            if *is_new {
                Some(ServerRow {
                    reg: number,
                    server: *server,
                    cpus: *cpus,
                    nonce: *nonce,
                    seen: step.now,
                    load: 0,
                    error: None,
                    draining: false,
                })
            } else {
                None
            }
        }
        CoreKind::Update { .. } => None,
        CoreKind::Status { .. } => None,
        CoreKind::Drain { .. } => None,
    }
}

/// The registration that a drain with this nonce names.
pub fn drained(there: &Option<ServerRow>, nonce: ServerNonce) -> Option<u64>
    ensures { result ≡ named_by nonce there.now }
{
    match there {
        Some(row) => {
            if row.nonce == nonce {
                Some(row.reg)
            } else {
                None
            }
        }
        None => None,
    }
}

/// The registration that another nonce replaces.
pub fn replaced(there: &Option<ServerRow>, nonce: ServerNonce) -> Option<u64>
    ensures { result ≡ replaced_by nonce there.now }
{
    match there {
        Some(row) => {
            if row.nonce == nonce {
                None
            } else {
                Some(row.reg)
            }
        }
        None => None,
    }
}

/// Whether a heartbeat with this nonce makes a registration.
pub fn is_new(there: &Option<ServerRow>, nonce: ServerNonce) -> bool
    ensures { result ≡ says_new nonce there.now }
{
    match there {
        Some(row) => row.nonce != nonce,
        None => true,
    }
}

/// The entry of a status.
pub fn status_entry(now: u64, pruned: Vec<u64>, counts: SchedulerStatusResult) -> CoreEntry
    ensures { result ≡ status_by now pruned.items counts }
{
    let kind = CoreKind::Status {
        pruned: Items::new(pruned),
        servers: counts.num_servers,
        cpus: counts.num_cpus,
        jobs: counts.in_progress,
    };
    CoreEntry { now, kind }
}
