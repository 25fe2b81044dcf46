//! What one call did to the scheduler, as its log keeps it.
ghost use Rattle.std.specs.Prelude.{◌≡◌, IfOk};
ghost use Rattle.core_rules.specs.Rule.{says_new_entry, knows_of};
ghost use Rattle.core_rules.specs.Same.{same_state, same_answer, same_reserved, same_kind, same_but_key};

use dist_types::ids::{JobId, ServerId, ServerNonce};
use dist_types::results::JobState;
use dist_types::text::{Bytes, Items};
use std::alloc::{AllocError, Global};

/// One entry of the core log: what one hold of the scheduler's lock did.
#[derive(Debug, Drop)]
pub struct CoreEntry {
    /// The moment of the call, in milliseconds.
    pub now: u64,
    /// What it did.
    pub kind: CoreKind,
}

/// What an entry says. A number named `reg`, `pruned`, `forgiven`, `noted` or `replaced` is that of a
/// registration: the place in the log of the heartbeat that made it.
#[derive(Debug, Drop)]
pub enum CoreKind {
    /// A job was to be reserved.
    Reserve(Reserved),
    /// A reservation was spent: its job is kept in the state, or was dropped.
    Commit {
        job: JobId,
        state: JobState,
        kept: bool,
    },
    /// A reservation was given back: the registration that stands at its address has the error noted,
    /// and the reservation ended, if it still stood.
    Undo {
        job: JobId,
        noted: Option<u64>,
        ended: bool,
    },
    /// A heartbeat: which registrations it pruned, which jobs it reaped, which registration it
    /// replaced, and whether it made a new one.
    Beat {
        server: ServerId,
        nonce: ServerNonce,
        cpus: u64,
        key: Bytes,
        pruned: Items<u64>,
        reaped: Items<JobId>,
        replaced: Option<u64>,
        is_new: bool,
    },
    /// A server's report on a job.
    Update {
        server: ServerId,
        job: JobId,
        state: JobState,
        answer: UpdateAnswer,
    },
    /// A status request: which registrations it pruned, and how many registrations, processors and
    /// open jobs were left.
    Status {
        pruned: Items<u64>,
        servers: u64,
        cpus: u64,
        jobs: u64,
    },
    /// A server was to drain, or no longer: the registration that stands at its address under the nonce,
    /// if one does.
    Drain {
        server: ServerId,
        nonce: ServerNonce,
        on: bool,
        reg: Option<u64>,
    },
}

/// What became of a reserve.
#[derive(Debug, Drop)]
pub enum Reserved {
    /// The job is reserved at the registration, and the errors of those were forgotten.
    Job {
        job: JobId,
        reg: u64,
        forgiven: Items<u64>,
    },
    /// No registration had room, of so many that stand.
    NoRoom(u64),
    /// The job ids are spent.
    Spent,
}

/// The answer to a server's report on a job.
#[derive(Clone, Copy, Debug, PartialEq, Eq)]
pub enum UpdateAnswer {
    /// The job is in the new state.
    Accepted,
    /// No open job has that id.
    Unknown,
    /// The job is at another address.
    Wrong,
    /// The job does not go from this state to the reported one.
    Transition(JobState),
}

impl CoreEntry {
    /// Whether it is a heartbeat that made a registration.
    pub fn is_new_beat(&self) -> bool
        ensures { result ≡ says_new_entry self.entry.now }
    {
        matches!(self.kind, CoreKind::Beat { is_new: true, .. })
    }

    /// Whether it is a drain that names a registration.
    pub fn is_known(&self) -> bool
        ensures { result ≡ knows_of self.entry.now }
    {
        matches!(self.kind, CoreKind::Drain { reg: Some(_), .. })
    }

    /// Whether it is of the same moment and did the same, whatever key a heartbeat had.
    pub fn is_same_but_key(&self, other: &CoreEntry) -> bool
        ensures { result ≡ same_but_key self.entry.now other.entry.now }
    {
        self.now == other.now && self.kind.is_same_but_key(&other.kind)
    }

    /// A copy. Refused for want of memory alone.
    pub fn copy(&self, alloc: Global) -> Result<Self, AllocError>
        ensures { IfOk result (λ e. e ≡ self.entry.now) }
    {
        let kind = self.kind.copy(alloc)?;
        Ok(CoreEntry {
            now: self.now,
            kind,
        })
    }
}

/// Whether two states are one.
fn is_state(a: JobState, b: JobState) -> bool
    ensures { result ≡ same_state a b }
{
    match a {
        JobState::Pending => matches!(b, JobState::Pending),
        JobState::Ready => matches!(b, JobState::Ready),
        JobState::Started => matches!(b, JobState::Started),
        JobState::Complete => matches!(b, JobState::Complete),
    }
}

/// Whether two answers to an update are one.
fn is_answer(a: UpdateAnswer, b: UpdateAnswer) -> bool
    ensures { result ≡ same_answer a b }
{
    match a {
        UpdateAnswer::Accepted => matches!(b, UpdateAnswer::Accepted),
        UpdateAnswer::Unknown => matches!(b, UpdateAnswer::Unknown),
        UpdateAnswer::Wrong => matches!(b, UpdateAnswer::Wrong),
        UpdateAnswer::Transition(from) => match b {
            UpdateAnswer::Transition(other) => is_state(from, other),
            _ => false,
        },
    }
}

impl CoreKind {
    /// Whether it did the same, whatever key a heartbeat had.
    fn is_same_but_key(&self, other: &CoreKind) -> bool
        ensures { result ≡ same_kind self.now other.now }
    {
        match (self, other) {
            (CoreKind::Reserve(a), CoreKind::Reserve(b)) => a.is_same(b),
            (
                CoreKind::Commit { job, state, kept },
                CoreKind::Commit {
                    job: j,
                    state: s,
                    kept: k,
                },
            ) => job.0 == j.0 && is_state(*state, *s) && *kept == *k,
            (
                CoreKind::Undo { job, noted, ended },
                CoreKind::Undo {
                    job: j,
                    noted: n,
                    ended: e,
                },
            ) => job.0 == j.0 && *noted == *n && *ended == *e,
            (
                CoreKind::Beat {
                    server,
                    nonce,
                    cpus,
                    key: _,
                    pruned,
                    reaped,
                    replaced,
                    is_new,
                },
                CoreKind::Beat {
                    server: s,
                    nonce: n,
                    cpus: c,
                    key: _,
                    pruned: p,
                    reaped: r,
                    replaced: x,
                    is_new: i,
                },
            ) => {
                *server == *s
                    && nonce.get() == n.get()
                    && *cpus == *c
                    && pruned.get() == p.get()
                    && reaped.get() == r.get()
                    && *replaced == *x
                    && *is_new == *i
            }
            (
                CoreKind::Update {
                    server,
                    job,
                    state,
                    answer,
                },
                CoreKind::Update {
                    server: s,
                    job: j,
                    state: t,
                    answer: a,
                },
            ) => { *server == *s && job.0 == j.0 && is_state(*state, *t) && is_answer(*answer, *a) }
            (
                CoreKind::Status {
                    pruned,
                    servers,
                    cpus,
                    jobs,
                },
                CoreKind::Status {
                    pruned: p,
                    servers: s,
                    cpus: c,
                    jobs: j,
                },
            ) => pruned.get() == p.get() && *servers == *s && *cpus == *c && *jobs == *j,
            (
                CoreKind::Drain {
                    server,
                    nonce,
                    on,
                    reg,
                },
                CoreKind::Drain {
                    server: s,
                    nonce: n,
                    on: o,
                    reg: r,
                },
            ) => *server == *s && nonce.get() == n.get() && *on == *o && *reg == *r,
            _ => false,
        }
    }

    /// A copy. Refused for want of memory alone.
    pub fn copy(&self, alloc: Global) -> Result<Self, AllocError>
        ensures { IfOk result (λ k. k ≡ self.now) }
    {
        match self {
            CoreKind::Reserve(reserved) => {
                let reserved = reserved.copy(alloc)?;
                Ok(CoreKind::Reserve(reserved))
            }
            CoreKind::Commit { job, state, kept } => Ok(CoreKind::Commit {
                job: *job,
                state: *state,
                kept: *kept,
            }),
            CoreKind::Undo { job, noted, ended } => Ok(CoreKind::Undo {
                job: *job,
                noted: *noted,
                ended: *ended,
            }),
            CoreKind::Beat {
                server,
                nonce,
                cpus,
                key,
                pruned,
                reaped,
                replaced,
                is_new,
            } => {
                let key = key.copy(alloc)?;
                let pruned = pruned.copy(alloc)?;
                let reaped = reaped.copy(alloc)?;
                Ok(CoreKind::Beat {
                    server: *server,
                    nonce: *nonce,
                    cpus: *cpus,
                    key,
                    pruned,
                    reaped,
                    replaced: *replaced,
                    is_new: *is_new,
                })
            }
            CoreKind::Update {
                server,
                job,
                state,
                answer,
            } => Ok(CoreKind::Update {
                server: *server,
                job: *job,
                state: *state,
                answer: *answer,
            }),
            CoreKind::Status {
                pruned,
                servers,
                cpus,
                jobs,
            } => {
                let pruned = pruned.copy(alloc)?;
                Ok(CoreKind::Status {
                    pruned,
                    servers: *servers,
                    cpus: *cpus,
                    jobs: *jobs,
                })
            }
            CoreKind::Drain {
                server,
                nonce,
                on,
                reg,
            } => Ok(CoreKind::Drain {
                server: *server,
                nonce: *nonce,
                on: *on,
                reg: *reg,
            }),
        }
    }
}

impl Reserved {
    /// Whether the same became of another reserve.
    fn is_same(&self, other: &Reserved) -> bool
        ensures { result ≡ same_reserved self.now other.now }
    {
        match (self, other) {
            (
                Reserved::Job { job, reg, forgiven },
                Reserved::Job {
                    job: j,
                    reg: r,
                    forgiven: f,
                },
            ) => job.0 == j.0 && *reg == *r && forgiven.get() == f.get(),
            (Reserved::NoRoom(a), Reserved::NoRoom(b)) => *a == *b,
            (Reserved::Spent, Reserved::Spent) => true,
            _ => false,
        }
    }

    /// A copy. Refused for want of memory alone.
    pub fn copy(&self, alloc: Global) -> Result<Self, AllocError>
        ensures { IfOk result (λ r. r ≡ self.now) }
    {
        match self {
            Reserved::Job { job, reg, forgiven } => {
                let forgiven = forgiven.copy(alloc)?;
                Ok(Reserved::Job {
                    job: *job,
                    reg: *reg,
                    forgiven,
                })
            }
            Reserved::NoRoom(standing) => Ok(Reserved::NoRoom(*standing)),
            Reserved::Spent => Ok(Reserved::Spent),
        }
    }
}
