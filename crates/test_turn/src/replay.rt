//! The log replayed by a state of one thread.
use crate::answer::{Answer, Kept, allocated, counted, drained, heard, reported};
use crate::caller::KEY;
use crate::fault::Fault;
use core_rules::entry::{CoreEntry, CoreKind};
use core_rules::rows::{JobRow, ServerRow};
use dist_token::job_token::JWTJobAuthorizer;
use dist_types::ids::{JobId, ServerId, ServerNonce};
use dist_types::roles::JobAuthorizer;
use dist_types::rules::Rules;
use sched_core::answers::Picked;
use sched_core::reservation::Reservation;
use sched_core::state::SchedState;
use scheduler_steps::allocated::{allocated as answered, no_room};
use scheduler_steps::step;
use std::alloc::Global;

type State = SchedState<JWTJobAuthorizer>;

/// The replay: its state, the reservations in hand, and how many answers of each caller were compared.
struct Replay {
    alloc: Global,
    state: State,
    hand: Vec<Reservation>,
    compared: Vec<usize>,
}

impl Replay {
    /// A replay from the beginning of that state's log on.
    fn new(alloc: Global, of: &State, callers: usize) -> Result<Self, Fault> {
        let mut compared = Vec::new(alloc);
        for _ in 0..callers {
            compared.push(0usize)?;
        }
        Ok(Replay {
            alloc,
            state: State::with_rules(alloc, of.base(), of.count(), of.rules()),
            hand: Vec::new(alloc),
            compared,
        })
    }

    /// The next answer of the caller whose moment that is, if its place has that moment.
    fn next<'k>(&mut self, kept: &'k [Vec<Kept>], moment: u64) -> Option<&'k Kept> {
        let caller = (moment % (kept.len() as u64).max(1)) as usize;
        let next = self.compared.get_mut(caller)?;
        let kept = kept.get(caller)?.get(*next)?;
        *next = next.saturating_add(1);
        if kept.moment == moment {
            Some(kept)
        } else {
            None
        }
    }

    /// Whether the next answer at that moment is this one.
    fn is_next(&mut self, kept: &[Vec<Kept>], moment: u64, answer: &Answer) -> bool {
        match self.next(kept, moment) {
            Some(kept) => kept.answer == *answer,
            None => false,
        }
    }

    /// A reserve: the reservation is kept in hand, or the allocation is over.
    fn reserve(&mut self, now: u64, kept: &[Vec<Kept>]) -> Result<bool, Fault> {
        self.hand.reserve(1)?;
        let answer = match step::reserve(&mut self.state, now) {
            Ok(Picked::Reserved(r)) => {
                self.hand.push_reserved(r);
                return Ok(true);
            }
            Ok(Picked::NoRoom(standing)) => allocated(no_room(self.alloc, standing)),
            Err(fault) => Answer::Fault(fault),
        };
        Ok(self.is_next(kept, now, &answer))
    }

    /// The reservation of a job that is in hand.
    fn held(&mut self, job: JobId) -> Option<Reservation> {
        let place = self.hand.iter().position(|r| r.job_id() == job)?;
        Some(self.hand.swap_remove(place))
    }

    /// A commit or an undo, by what the caller heard of the job's server.
    fn settle(&mut self, now: u64, job: JobId, kept: &[Vec<Kept>]) -> bool {
        let Some(kept) = self.next(kept, now) else {
            return false;
        };
        let Some(heard) = kept.heard else {
            return false;
        };
        let Some(r) = self.held(job) else {
            return false;
        };
        let settled = step::settle(&mut self.state, now, r, heard);
        allocated(answered(self.alloc, settled)) == kept.answer
    }

    /// A heartbeat.
    fn hear(
        &mut self,
        now: u64,
        server: ServerId,
        nonce: ServerNonce,
        cpus: u64,
    ) -> Result<Answer, Fault> {
        let key = JWTJobAuthorizer::of_key(Vec::from_slice(self.alloc, KEY)?);
        Ok(heard(step::hear(&mut self.state, now, server, nonce, cpus, key)))
    }

    /// A drain, which has no place in a log of version 1.
    fn drain(
        &mut self,
        now: u64,
        server: ServerId,
        nonce: ServerNonce,
        on: bool,
    ) -> Option<Answer> {
        match self.state.rules() {
            Rules::One => None,
            Rules::Two => Some(drained(step::drain(&mut self.state, now, server, nonce, on))),
        }
    }

    /// Makes the call of an entry. Whether its answer, where the call is over, is the one that is kept.
    fn make(&mut self, entry: &CoreEntry, kept: &[Vec<Kept>]) -> Result<bool, Fault> {
        let now = entry.now;
        let answer = match &entry.kind {
            CoreKind::Reserve(_) => return self.reserve(now, kept),
            CoreKind::Commit { job, .. } => return Ok(self.settle(now, *job, kept)),
            CoreKind::Undo { job, .. } => return Ok(self.settle(now, *job, kept)),
            CoreKind::Beat {
                server,
                nonce,
                cpus,
                ..
            } => self.hear(now, *server, *nonce, *cpus)?,
            CoreKind::Update {
                server,
                job,
                state,
                ..
            } => reported(step::report(&mut self.state, now, *server, *job, *state)),
            CoreKind::Status { .. } => counted(step::count(&mut self.state, now)),
            CoreKind::Drain {
                server,
                nonce,
                on,
                ..
            } => match self.drain(now, *server, *nonce, *on) {
                Some(answer) => answer,
                None => return Ok(false),
            },
        };
        Ok(self.is_next(kept, now, &answer))
    }

    /// Makes the call of each entry: the entry that it makes has to be that one, and so the answer.
    fn make_all(&mut self, log: &[CoreEntry], kept: &[Vec<Kept>]) -> Result<(), Fault> {
        for (place, entry) in log.iter().enumerate() {
            let is_answered = self.make(entry, kept)?;
            let is_made = match self.state.history().last() {
                Some(made) => made.is_same_but_key(entry) && has_key(entry),
                None => false,
            };
            if !is_answered || !is_made || self.state.history().len() != place.saturating_add(1) {
                return Err(Fault::Differs(place));
            }
        }
        Ok(())
    }

    /// Gives back what is in hand. The state, and how many answers of each caller were compared.
    fn close(self) -> (State, Vec<usize>) {
        let Replay {
            alloc: _,
            mut state,
            mut hand,
            compared,
        } = self;
        while let Some(r) = hand.pop() {
            state.undo(0, r);
        }
        hand.destroy_empty();
        (state, compared)
    }
}

/// Whether a heartbeat was logged under the key of all.
fn has_key(entry: &CoreEntry) -> bool {
    match &entry.kind {
        CoreKind::Beat { key, .. } => key.get() == KEY,
        _ => true,
    }
}

fn is_server(a: &ServerRow, b: &ServerRow) -> bool {
    (a.reg, a.server, a.cpus, a.nonce) == (b.reg, b.server, b.cpus, b.nonce)
        && (a.seen, a.load, a.error, a.draining) == (b.seen, b.load, b.error, b.draining)
}

fn is_job(a: &JobRow, b: &JobRow) -> bool {
    (a.number, a.job, a.reg, a.server) == (b.number, b.job, b.reg, b.server)
        && (a.reserved_at, a.state) == (b.reserved_at, b.state)
        && (a.ready_at, a.claimed) == (b.ready_at, b.claimed)
}

/// Whether the same registrations stand.
fn are_same_servers(a: &State, b: &State) -> bool {
    let mut others = b.servers();
    for have in a.servers() {
        match others.next() {
            Some(want) => {
                if !is_server(&have, &want) {
                    return false;
                }
            }
            None => return false,
        }
    }
    others.next().is_none()
}

/// Whether the same reservations are unended.
fn are_same_jobs(a: &State, b: &State) -> bool {
    let mut others = b.jobs();
    for have in a.jobs() {
        match others.next() {
            Some(want) => {
                if !is_job(&have, &want) {
                    return false;
                }
            }
            None => return false,
        }
    }
    others.next().is_none()
}

/// Whether two states have the same books.
fn are_same_books(a: &State, b: &State) -> bool {
    are_same_servers(a, b) && are_same_jobs(a, b)
}

/// Replays the log of a state, and compares its entries, its books and what each caller keeps.
pub(crate) fn compare(
    alloc: Global,
    state: &State,
    passes_counted: u64,
    kept: &[Vec<Kept>],
) -> Result<(), Fault> {
    let log = state.history();
    if passes_counted != log.len() as u64 {
        return Err(Fault::Counts(passes_counted, log.len()));
    }
    let mut replay = Replay::new(alloc, state, kept.len())?;
    let made = replay.make_all(log, kept);
    let (again, compared) = replay.close();
    made?;
    for (caller, (done, kept)) in compared.iter().zip(kept.iter()).enumerate() {
        if *done != kept.len() {
            return Err(Fault::Unplaced(caller));
        }
    }
    if are_same_books(state, &again) {
        Ok(())
    } else {
        Err(Fault::Books)
    }
}
