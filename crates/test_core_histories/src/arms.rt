//! What is to come in the histories: the arms of the rule, and some states in which calls come.
use core_rules::entry::{CoreEntry, CoreKind, Reserved, UpdateAnswer};
use core_rules::rows::{JobRow, ServerRow};
use dist_types::results::JobState;

/// What is to come in each test of short histories.
pub(crate) const ARMS: &[&str] = &[
    "reserved wrapped forgiven full spent pending ready dropped undone unended alone",
    "new old replaced reaped pruned readied started complete unknown wrong transition",
    "status left refused backwards forwards",
];

/// What is to come where a heartbeat says old and a job at its server is ready and unclaimed: it is ready for a
/// moment less than a minute, or for a minute; for that long while its reservation is younger, or for less while
/// that is older.
pub(crate) const READY_ARMS: &[&str] = &["at59999 at60000 past short"];

/// What is to come in version 2: a drain that names a registration, on and off, or none; a reserve while a
/// draining registration has less load than the pick; one that drains is replaced, or pruned.
pub(crate) const DRAIN_ARMS: &[&str] = &["on off none lighter replaced_draining pruned_draining"];

/// The arm of an entry of this kind. A job's id is below 2^32 behind the wrap alone.
pub(crate) fn arm_of(kind: &CoreKind) -> &'static str {
    match kind {
        CoreKind::Reserve(Reserved::Job { job, forgiven, .. }) => {
            if !forgiven.get().is_empty() {
                "forgiven"
            } else if job.0 < 4294967296 {
                "wrapped"
            } else {
                "reserved"
            }
        }
        CoreKind::Reserve(Reserved::NoRoom(_)) => "full",
        CoreKind::Reserve(Reserved::Spent) => "spent",
        CoreKind::Commit { kept: false, .. } => "dropped",
        CoreKind::Commit {
            state: JobState::Ready,
            ..
        } => "ready",
        CoreKind::Commit { .. } => "pending",
        CoreKind::Undo { ended: true, .. } => "undone",
        CoreKind::Undo { noted: Some(_), .. } => "unended",
        CoreKind::Undo { .. } => "alone",
        CoreKind::Beat {
            replaced: Some(_),
            ..
        } => "replaced",
        CoreKind::Beat {
            pruned,
            reaped,
            is_new,
            ..
        } => {
            if !reaped.get().is_empty() {
                "reaped"
            } else if !pruned.get().is_empty() {
                "pruned"
            } else if *is_new {
                "new"
            } else {
                "old"
            }
        }
        CoreKind::Update {
            answer: UpdateAnswer::Unknown,
            ..
        } => "unknown",
        CoreKind::Update {
            answer: UpdateAnswer::Wrong,
            ..
        } => "wrong",
        CoreKind::Update {
            answer: UpdateAnswer::Transition(_),
            ..
        } => "transition",
        CoreKind::Update {
            state: JobState::Started,
            ..
        } => "started",
        CoreKind::Update {
            state: JobState::Complete,
            ..
        } => "complete",
        CoreKind::Update { .. } => "readied",
        CoreKind::Status { pruned, .. } => {
            if pruned.get().is_empty() {
                "status"
            } else {
                "left"
            }
        }
        CoreKind::Drain { reg: None, .. } => "none",
        CoreKind::Drain { on: true, .. } => "on",
        CoreKind::Drain { .. } => "off",
    }
}

/// Whether the registration is draining.
fn is_draining(servers: &[ServerRow], reg: u64) -> bool {
    servers.iter().any(|row| row.reg == reg && row.draining)
}

/// Whether one of the registrations is draining.
fn has_draining(servers: &[ServerRow], regs: &[u64]) -> bool {
    regs.iter().any(|reg| is_draining(servers, *reg))
}

/// Whether one that is draining has no error and no load, while that one has some.
fn is_heavier(servers: &[ServerRow], reg: u64) -> bool {
    servers.iter().any(|row| row.reg == reg && row.load > 0)
        && servers
            .iter()
            .any(|row| row.draining && row.error.is_none() && row.load == 0)
}

/// What the entry does while a registration is draining.
pub(crate) fn drain_arm(kind: &CoreKind, servers: &[ServerRow]) -> Option<&'static str> {
    match kind {
        CoreKind::Reserve(Reserved::Job { reg, .. }) if is_heavier(servers, *reg) => Some(
            "lighter",
        ),
        CoreKind::Beat {
            replaced: Some(reg),
            ..
        } if is_draining(servers, *reg) => { Some("replaced_draining") }
        CoreKind::Beat { pruned, .. } if has_draining(servers, pruned.get()) => {
            Some("pruned_draining")
        }
        CoreKind::Status { pruned, .. } if has_draining(servers, pruned.get()) => {
            Some("pruned_draining")
        }
        _ => None,
    }
}

/// How long a job is ready, and its reservation is old.
fn ages(row: &JobRow, now: u64) -> Option<(u64, u64)> {
    let since = row.ready_at?;
    if row.state == Some(JobState::Ready) && !row.claimed {
        Some((
            now.saturating_sub(since),
            now.saturating_sub(row.reserved_at),
        ))
    } else {
        None
    }
}

/// The arm of a job that is ready for so long, and whose reservation is so old.
fn arm_at(ages: Option<(u64, u64)>) -> Option<&'static str> {
    let (ready, age) = ages?;
    if ready >= 60000 && age < 60000 {
        Some("past")
    } else if ready == 59999 {
        Some("at59999")
    } else if ready == 60000 {
        Some("at60000")
    } else if ready < 60000 && age >= 60000 {
        Some("short")
    } else {
        None
    }
}

/// How long the first ready job is ready at the server of a heartbeat that says old, where that is an arm.
pub(crate) fn ready_arm(entry: &CoreEntry, jobs: &[JobRow]) -> Option<&'static str> {
    let at = match &entry.kind {
        CoreKind::Beat {
            server,
            is_new: false,
            ..
        } => *server,
        _ => return None,
    };
    for row in jobs {
        if row.server == at {
            let arm = arm_at(ages(row, entry.now));
            if arm.is_some() {
                return arm;
            }
        }
    }
    None
}
