//! Histories of calls over the state, each entry and the books behind them as a model outside of this
//! repository's code has them.
use core_rules::entry::{CoreEntry, CoreKind, Reserved, UpdateAnswer};
use core_rules::rows::{JobRow, ServerRow};
use dist_token::job_token::JWTJobAuthorizer;
use dist_types::addr::Addr;
use dist_types::ids::{JobId, ServerId, ServerNonce};
use dist_types::results::JobState;
use dist_types::roles::JobAuthorizer;
use dist_types::rules::Rules;
use sched_core::answers::Picked;
use sched_core::reservation::Reservation;
use sched_core::state::SchedState;
use std::alloc::Global;
use std::process::Abort;

type State = SchedState<JWTJobAuthorizer>;

/// What is asked. A server is named by its port at 127.0.0.1.
pub(crate) enum Ask {
    Reserve,
    Commit(u64, JobState),
    Undo(u64),
    /// Server, nonce and processors.
    Beat(u16, u64, u64),
    Update(u16, u64, JobState),
    Status,
    /// Server, nonce, and whether it is to drain.
    Drain(u16, u64, bool),
}

/// What the entry says, beside what was asked.
pub(crate) enum Said {
    /// The job, its registration, and those whose errors are forgiven.
    Job(u64, u64, &'static [u64]),
    NoRoom(u64),
    Kept(bool),
    /// The registration that is noted, and whether the reservation ended.
    Undone(Option<u64>, bool),
    /// Of a heartbeat that says new: what it prunes, and what it replaces.
    New(&'static [u64], Option<u64>),
    /// Of one that says old: what it prunes, and what it reaps.
    Old(&'static [u64], &'static [u64]),
    Accepted,
    Transition(JobState),
    /// What a drain names.
    Named(Option<u64>),
    /// What is pruned; the servers, processors and jobs that are left.
    Counted(&'static [u64], [u64; 3]),
}

/// A history, and the books behind it.
pub(crate) struct History {
    pub(crate) rules: Rules,
    pub(crate) steps: &'static [(u64, Ask, Said)],
    /// Its server; number, processors, nonce, last sign and load; its error; whether it is draining.
    pub(crate) servers: &'static [(u16, [u64; 5], Option<u64>, bool)],
    /// Its job, number, registration and moment; its state; whether it is claimed.
    pub(crate) jobs: &'static [([u64; 4], Option<JobState>, bool)],
}

fn server(port: u16) -> ServerId {
    ServerId::new(Addr::V4([127, 0, 0, 1], port))
}

/// The authorizer of the key 010202.
fn key(rt: &impl Abort, alloc: Global) -> JWTJobAuthorizer {
    JWTJobAuthorizer::of_key([1u8, 2, 2].to_vec(alloc).expect(rt, "memory"))
}

/// Whether the entry is of that call.
fn is_asked(kind: &CoreKind, ask: &Ask) -> bool {
    match (kind, ask) {
        (CoreKind::Reserve(_), Ask::Reserve) => true,
        (CoreKind::Commit { job, state, .. }, Ask::Commit(j, s)) => (job.0, *state) == (*j, *s),
        (CoreKind::Undo { job, .. }, Ask::Undo(j)) => job.0 == *j,
        (
            CoreKind::Beat {
                server: at,
                nonce,
                cpus,
                ..
            },
            Ask::Beat(port, n, c),
        ) => (*at, nonce.get(), *cpus) == (server(*port), *n, *c),
        (
            CoreKind::Update {
                server: at,
                job,
                state,
                ..
            },
            Ask::Update(port, j, s),
        ) => (*at, job.0, *state) == (server(*port), *j, *s),
        (CoreKind::Status { .. }, Ask::Status) => true,
        (
            CoreKind::Drain {
                server: at,
                nonce,
                on,
                ..
            },
            Ask::Drain(port, n, o),
        ) => (*at, nonce.get(), *on) == (server(*port), *n, *o),
        _ => false,
    }
}

/// Whether the jobs have these ids.
fn are_jobs(jobs: &[JobId], ids: &[u64]) -> bool {
    jobs.len() == ids.len() && jobs.iter().zip(ids).all(|(job, id)| job.0 == *id)
}

/// Whether the entry says that.
fn is_said(kind: &CoreKind, said: &Said) -> bool {
    match (kind, said) {
        (CoreKind::Reserve(Reserved::Job { job, reg, forgiven }), Said::Job(j, r, f)) => {
            (job.0, *reg) == (*j, *r) && forgiven.get() == *f
        }
        (CoreKind::Reserve(Reserved::NoRoom(standing)), Said::NoRoom(s)) => *standing == *s,
        (CoreKind::Commit { kept, .. }, Said::Kept(k)) => *kept == *k,
        (CoreKind::Undo { noted, ended, .. }, Said::Undone(n, e)) => (*noted, *ended) == (*n, *e),
        (
            CoreKind::Beat {
                pruned,
                reaped,
                replaced,
                is_new: true,
                ..
            },
            Said::New(p, r),
        ) => pruned.get() == *p && reaped.get().is_empty() && *replaced == *r,
        (
            CoreKind::Beat {
                pruned,
                reaped,
                replaced,
                is_new: false,
                ..
            },
            Said::Old(p, j),
        ) => pruned.get() == *p && are_jobs(reaped.get(), j) && replaced.is_none(),
        (CoreKind::Update { answer, .. }, Said::Accepted) => *answer == UpdateAnswer::Accepted,
        (CoreKind::Update { answer, .. }, Said::Transition(from)) => {
            *answer == UpdateAnswer::Transition(*from)
        }
        (CoreKind::Drain { reg, .. }, Said::Named(r)) => *reg == *r,
        (
            CoreKind::Status {
                pruned,
                servers,
                cpus,
                jobs,
            },
            Said::Counted(p, numbers),
        ) => pruned.get() == *p && [*servers, *cpus, *jobs] == *numbers,
        _ => false,
    }
}

/// The state, and the reservations in hand.
struct Run {
    alloc: Global,
    state: State,
    hand: Vec<Reservation>,
}

impl Run {
    /// The reservation of that job, which is in hand.
    fn take(&mut self, rt: &impl Abort, job: u64) -> Reservation {
        let place = self.hand.iter().position(|r| r.job_id().0 == job);
        let place = place.expect(rt, "a reservation");
        assert!(rt; place < self.hand.len());
        self.hand.swap_remove(place)
    }

    /// Makes the call.
    fn make(&mut self, rt: &impl Abort, now: u64, ask: &Ask) {
        match ask {
            Ask::Reserve => match self.state.reserve(now) {
                Ok(Picked::Reserved(r)) => self.hand.push(r).expect(rt, "memory"),
                Ok(Picked::NoRoom(_)) => (),
                Err(_) => (),
            },
            Ask::Commit(job, JobState::Ready) => {
                let r = self.take(rt, *job);
                let _answer = self.state.commit(now, r, JobState::Ready);
            }
            Ask::Commit(job, _) => {
                let r = self.take(rt, *job);
                let _answer = self.state.commit(now, r, JobState::Pending);
            }
            Ask::Undo(job) => {
                let r = self.take(rt, *job);
                let _answer = self.state.undo(now, r);
            }
            Ask::Beat(port, nonce, cpus) => {
                let authorizer = key(rt, self.alloc);
                let nonce = ServerNonce::new(*nonce);
                let _answer = self
                    .state
                    .beat(now, server(*port), nonce, *cpus, authorizer);
            }
            Ask::Update(port, job, state) => {
                let _answer = self.state.update(now, server(*port), JobId(*job), *state);
            }
            Ask::Status => {
                let _answer = self.state.status(now);
            }
            Ask::Drain(port, nonce, on) => match self.state.rules() {
                Rules::One => (),
                Rules::Two => {
                    let nonce = ServerNonce::new(*nonce);
                    let _answer = self.state.drain(now, server(*port), nonce, *on);
                }
            },
        }
    }

    /// Makes the call. Whether its entry is as it is said.
    fn is_right(&mut self, rt: &impl Abort, step: &(u64, Ask, Said)) -> bool {
        let (now, ask, said) = step;
        let before = self.state.history().len();
        self.make(rt, *now, ask);
        match self.state.history().get(before) {
            Some(CoreEntry { now: at, kind }) => {
                *at == *now && is_asked(kind, ask) && is_said(kind, said)
            }
            None => false,
        }
    }

    /// Whether the registrations that stand are these.
    fn has_servers(&self, rows: &[(u16, [u64; 5], Option<u64>, bool)]) -> bool {
        let mut kept = self.state.servers();
        for row in rows {
            match kept.next() {
                Some(server) => {
                    if !is_server(&server, row) {
                        return false;
                    }
                }
                None => return false,
            }
        }
        kept.next().is_none()
    }

    /// Whether the unended reservations are these.
    fn has_jobs(&self, rows: &[([u64; 4], Option<JobState>, bool)]) -> bool {
        let mut kept = self.state.jobs();
        for row in rows {
            match kept.next() {
                Some(job) => {
                    if !is_job(&job, row) {
                        return false;
                    }
                }
                None => return false,
            }
        }
        kept.next().is_none()
    }

    /// Gives back what is in hand.
    fn close(self) {
        let Run {
            alloc: _,
            mut state,
            mut hand,
        } = self;
        while let Some(r) = hand.pop() {
            state.undo(0, r);
        }
        hand.destroy_empty();
    }
}

fn is_server(row: &ServerRow, said: &(u16, [u64; 5], Option<u64>, bool)) -> bool {
    let (port, numbers, error, draining) = said;
    row.server == server(*port)
        && [row.reg, row.cpus, row.nonce.get(), row.seen, row.load] == *numbers
        && (row.error, row.draining) == (*error, *draining)
}

fn is_job(row: &JobRow, said: &([u64; 4], Option<JobState>, bool)) -> bool {
    let (numbers, state, claimed) = said;
    [row.job.0, row.number, row.reg, row.reserved_at] == *numbers
        && (row.state, row.claimed) == (*state, *claimed)
}

/// Runs a history: each entry, and the books at its end.
pub(crate) fn compare(rt: &impl Abort, alloc: Global, history: &History) {
    let mut run = Run {
        alloc,
        state: SchedState::with_rules(alloc, 4096, 0, history.rules),
        hand: Vec::new(alloc),
    };
    for (number, step) in history.steps.iter().enumerate() {
        let right = run.is_right(rt, step);
        assert_eq!(rt; (number, right), (number, true));
    }
    let right = run.has_servers(history.servers) && run.has_jobs(history.jobs);
    run.close();
    assert!(rt; right);
}
