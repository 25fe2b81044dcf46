//! Each call is made on the running state, and its entry compared with the one that the plain scheduler gives over
//! the log before; then the books.
use crate::arms::{ARMS, DRAIN_ARMS, READY_ARMS, arm_of, drain_arm, ready_arm};
use crate::draws::{Draws, Shape, numbered};
use core_reference::plain::{entry, held};
use core_reference::servers::servers;
use core_rules::call::Call;
use core_rules::entry::{CoreEntry, CoreKind};
use core_rules::rows::{HeldRow, JobRow, ServerRow};
use core_rules::start::Start;
use dist_token::job_token::JWTJobAuthorizer;
use dist_types::ids::{JobId, ServerId, ServerNonce};
use dist_types::results::JobState;
use dist_types::roles::JobAuthorizer;
use dist_types::rules::Rules;
use dist_types::text::Bytes;
use sched_core::answers::Picked;
use sched_core::reservation::Reservation;
use sched_core::state::SchedState;
use std::alloc::Global;
use std::process::Abort;
use std::test::Fail;

type State = SchedState<JWTJobAuthorizer>;

const CALM: Shape = Shape {
    servers: 200,
    calls: 1000,
    between: 50,
    jumps: 2000,
    seldom: 10,
    aims: 0,
    drains: 0,
    reserves: 30,
};

const BRISK: Shape = Shape {
    servers: 200,
    calls: 1000,
    between: 50,
    jumps: 150,
    seldom: 1,
    aims: 0,
    drains: 6,
    reserves: 60,
};

const SHORT: Shape = Shape {
    servers: 3,
    calls: 60,
    between: 1,
    jumps: 3,
    seldom: 1,
    aims: 10,
    drains: 6,
    reserves: 22,
};

/// How often each arm comes at least, in a test of short histories.
const LEAST: usize = 5;

/// The bytes of the key of each authorizer.
const KEY: &[u8] = &[1, 2, 2];

fn authorizer(rt: &impl Abort, alloc: Global) -> JWTJobAuthorizer {
    JWTJobAuthorizer::of_key(KEY.to_vec(alloc).expect(rt, "memory"))
}

/// One history: the running state, the reservations in hand, and another scheduler whose reservations are
/// foreign.
struct Run {
    alloc: Global,
    start: Start,
    state: State,
    hand: Vec<Reservation>,
    other: State,
    draws: Draws,
    before: u64,
    made: usize,
    came: Vec<&'static str>,
}

impl Run {
    /// The other scheduler gives the same ids, under other numbers.
    fn new(rt: &impl Abort, alloc: Global, draws: Draws, start: Start) -> Self {
        let first = start.base.wrapping_add(start.count);
        let mut other: State = SchedState::new(alloc, first);
        let key = authorizer(rt, alloc);
        let answer = other.beat(0, numbered(0), ServerNonce::new(7), 4294967295, key);
        assert!(rt; answer.is_ok());
        Run {
            alloc,
            start,
            state: SchedState::with_rules(alloc, start.base, start.count, start.rules),
            hand: Vec::new(alloc),
            other,
            draws,
            before: 0,
            made: 0,
            came: Vec::new(alloc),
        }
    }

    /// The moment of the next call; notes a jump from the one before.
    fn moment(&mut self, rt: &impl Abort, times: u64) -> u64 {
        let now = self.draws.moment(times);
        if now.saturating_add(60000) < self.before {
            self.came.push("backwards").expect(rt, "memory");
        }
        if self.before.saturating_add(60000) < now {
            self.came.push("forwards").expect(rt, "memory");
        }
        self.before = now;
        now
    }

    /// Makes a call that spends no reservation, and compares its entry.
    fn make(&mut self, rt: &impl Abort, call: &Call) {
        let want = self.judge(rt, call);
        let alloc = self.alloc;
        match call {
            Call::Reserve { now } => match self.state.reserve(*now) {
                Ok(Picked::Reserved(r)) => self.hand.push(r).expect(rt, "memory"),
                Ok(Picked::NoRoom(_)) => (),
                Err(_) => (),
            },
            Call::Beat {
                now,
                server,
                nonce,
                cpus,
                ..
            } => {
                let key = authorizer(rt, alloc);
                let _answer = self.state.beat(*now, *server, *nonce, *cpus, key);
            }
            Call::Update {
                now,
                server,
                job,
                state,
            } => {
                let _answer = self.state.update(*now, *server, *job, *state);
            }
            Call::Status { now } => {
                let _answer = self.state.status(*now);
            }
            Call::Drain {
                now,
                server,
                nonce,
                on,
            } => match self.state.rules() {
                Rules::One => (),
                Rules::Two => {
                    let _answer = self.state.drain(*now, *server, *nonce, *on);
                }
            },
            Call::Commit { .. } | Call::Undo { .. } => (),
        }
        self.compare(rt, &want);
    }

    /// Commits the reservation in that state, pending or ready, or else undoes it, and compares the entry.
    fn spend(&mut self, rt: &impl Abort, now: u64, r: Reservation, to: Option<JobState>) {
        let (number, job) = (r.number(), r.job_id());
        let call = match to {
            Some(state) => Call::Commit {
                now,
                number,
                job,
                state,
            },
            None => Call::Undo { now, number, job },
        };
        let want = self.judge(rt, &call);
        match to {
            Some(JobState::Ready) => {
                let _answer = self.state.commit(now, r, JobState::Ready);
            }
            Some(_) => {
                let _answer = self.state.commit(now, r, JobState::Pending);
            }
            None => {
                let _answer = self.state.undo(now, r);
            }
        }
        self.compare(rt, &want);
    }

    /// The entry that the plain scheduler gives. Notes in what state of the books it comes.
    fn judge(&mut self, rt: &impl Abort, call: &Call) -> Option<CoreEntry> {
        let log = self.state.history();
        let want = entry(self.alloc, self.start, log, call).expect(rt, "memory")?;
        let (rows, jobs) = (self.rows(rt), self.jobs(rt));
        let arms = [
            Some(arm_of(&want.kind)),
            drain_arm(&want.kind, &rows),
            ready_arm(&want, &jobs),
        ];
        for arm in arms.iter().filter_map(|arm| *arm) {
            self.came.push(arm).expect(rt, "memory");
        }
        Some(want)
    }

    /// The registrations that stand.
    fn rows(&self, rt: &impl Abort) -> Vec<ServerRow> {
        let mut rows = Vec::new(self.alloc);
        for row in self.state.servers() {
            rows.push(row).expect(rt, "memory");
        }
        rows
    }

    /// The unended reservations.
    fn jobs(&self, rt: &impl Abort) -> Vec<JobRow> {
        let mut rows = Vec::new(self.alloc);
        for row in self.state.jobs() {
            rows.push(row).expect(rt, "memory");
        }
        rows
    }

    /// The last entry is that one, or the call made none.
    fn compare(&mut self, rt: &impl Abort, want: &Option<CoreEntry>) {
        self.made = self.made.saturating_add(want.iter().count());
        assert_eq!(rt; self.state.history().len(), self.made);
        match (self.state.history().last(), want) {
            (Some(have), Some(want)) => {
                assert!(rt; have.is_same_but_key(want) && has_key(&have.kind));
            }
            _ => self.came.push("refused").expect(rt, "memory"),
        }
    }

    /// A reservation of the other scheduler, or one in hand, if there is one.
    fn next_reservation(&mut self, rt: &impl Abort) -> Option<Reservation> {
        if self.draws.comes(25) {
            match self.other.reserve(0) {
                Ok(Picked::Reserved(r)) => return Some(r),
                Ok(Picked::NoRoom(_)) => panic!(rt; "no room"),
                Err(_) => panic!(rt; "refused"),
            }
        }
        let place = self.draws.below(self.hand.len() as u64) as usize;
        if place < self.hand.len() {
            Some(self.hand.swap_remove(place))
        } else {
            None
        }
    }

    fn beat(&mut self, rt: &impl Abort, now: u64, server: ServerId, cpus: u64) {
        let call = Call::Beat {
            now,
            server,
            nonce: self.draws.nonce(),
            cpus,
            key: Bytes::from_slice(self.alloc, KEY).expect(rt, "memory"),
        };
        self.make(rt, &call);
    }

    /// A heartbeat at a moment where the age of a job, or how long it is ready, comes to a limit or past it.
    fn aimed_beat(&mut self, rt: &impl Abort) {
        let jobs = self.jobs(rt);
        let place = self.draws.below(jobs.len() as u64) as usize;
        let ready = jobs.iter().find(|row| row.state == Some(JobState::Ready));
        if let Some(row) = ready.or(jobs.get(place)) {
            let since = if self.draws.comes(3) {
                row.reserved_at
            } else {
                row.ready_at.unwrap_or(row.reserved_at)
            };
            let now = self.draws.limit(since);
            self.beat(rt, now, row.server, 1);
        }
    }

    /// A report, mostly on a job that is unended, by its server, and of the state that follows its own.
    fn update(&mut self, rt: &impl Abort) {
        let now = self.moment(rt, 5);
        let jobs = self.jobs(rt);
        let place = self.draws.below(jobs.len() as u64) as usize;
        let drawn = self.draws.state();
        let (mut server, mut job, mut state) = match jobs.get(place) {
            Some(row) => (row.server, row.job, next_state(row.state, drawn)),
            None => (numbered(0), JobId(0), drawn),
        };
        if self.draws.comes(8) {
            server = self.draws.server();
        }
        if self.draws.comes(20) {
            job = JobId(job.0.wrapping_add(self.draws.below(400)));
        }
        if self.draws.comes(4) {
            state = drawn;
        }
        let call = Call::Update {
            now,
            server,
            job,
            state,
        };
        self.make(rt, &call);
    }

    /// One call, of those that the numbers draw.
    fn draw(&mut self, rt: &impl Abort) {
        let shape = self.draws.shape;
        let aims = shape.aims.saturating_add(34);
        let drains = shape.drains.saturating_add(aims);
        let choice = self.draws.below(shape.reserves.saturating_add(drains));
        let times = if choice < 10 { 120 } else { 60 };
        let seldom = self.moment(rt, shape.seldom.saturating_mul(times));
        if choice < 10 {
            let (server, cpus) = (self.draws.server(), self.draws.cpus());
            self.beat(rt, seldom, server, cpus);
        } else if choice < 12 {
            self.make(rt, &Call::Status { now: seldom });
        } else if choice < 22 {
            let now = self.moment(rt, 5);
            let to = match self.draws.below(10) {
                0 | 1 | 2 => None,
                3 | 4 | 5 => Some(JobState::Ready),
                _ => Some(JobState::Pending),
            };
            match self.next_reservation(rt) {
                Some(r) => self.spend(rt, now, r, to),
                None => (),
            }
        } else if choice < 34 {
            self.update(rt);
        } else if choice < aims {
            self.aimed_beat(rt);
        } else if choice < drains {
            let call = Call::Drain {
                now: seldom,
                server: self.draws.server(),
                nonce: self.draws.nonce(),
                on: !self.draws.comes(3),
            };
            self.make(rt, &call);
        } else {
            let now = self.moment(rt, 5);
            self.make(rt, &Call::Reserve { now });
        }
    }

    /// Compares the registrations that stand, and the unended reservations, these by rising id and each with
    /// its registration's address.
    fn compare_books(&self, rt: &impl Abort) {
        let log = self.state.history();
        let rows = servers(self.alloc, log).expect(rt, "memory");
        let held = held(self.alloc, log).expect(rt, "memory");
        let (servers, jobs) = (self.rows(rt), self.jobs(rt));
        assert_eq!(rt; (servers.len(), jobs.len()), (rows.len(), held.len()));
        for (have, want) in servers.iter().zip(rows.iter()) {
            assert!(rt; is_server(have, want));
        }
        let mut before = None;
        for have in &jobs {
            assert!(rt; before < Some(have.job.0));
            assert!(rt; held.iter().any(|want| is_job(have, want)));
            assert!(rt;
                rows.iter()
                    .any(|row| row.reg == have.reg && row.server == have.server)
            );
            before = Some(have.job.0);
        }
    }

    /// Gives back what is in hand. The arms that came.
    fn close(self) -> Vec<&'static str> {
        let Run {
            alloc: _,
            start: _,
            state: _state,
            mut hand,
            mut other,
            draws: _draws,
            before: _,
            made: _,
            came,
        } = self;
        while let Some(r) = hand.pop() {
            other.undo(0, r);
        }
        hand.destroy_empty();
        came
    }
}

/// Whether a heartbeat has the key.
fn has_key(kind: &CoreKind) -> bool {
    match kind {
        CoreKind::Beat { key, .. } => key.get() == KEY,
        _ => true,
    }
}

fn is_server(a: &ServerRow, b: &ServerRow) -> bool {
    (a.reg, a.server, a.cpus, a.nonce) == (b.reg, b.server, b.cpus, b.nonce)
        && (a.seen, a.load, a.error, a.draining) == (b.seen, b.load, b.error, b.draining)
}

fn is_job(a: &JobRow, b: &HeldRow) -> bool {
    (a.number, a.job, a.reg, a.reserved_at) == (b.number, b.job, b.reg, b.reserved_at)
        && (a.state, a.ready_at, a.claimed) == (b.state, b.ready_at, b.claimed)
}

/// The state that follows a job's own.
fn next_state(state: Option<JobState>, drawn: JobState) -> JobState {
    match state {
        Some(JobState::Pending) => JobState::Ready,
        Some(JobState::Ready) => JobState::Started,
        Some(JobState::Started) => JobState::Complete,
        _ => drawn,
    }
}

/// One history. A long one begins with a heartbeat of each server. Some ids wrap, some end. The arms that came.
fn history(rt: &impl Abort, alloc: Global, draws: Draws, start: Start) -> Vec<&'static str> {
    let shape = draws.shape;
    let mut run = Run::new(rt, alloc, draws, start);
    if shape.servers > 3 {
        for number in 0..shape.servers {
            let now = run.moment(rt, 1000);
            let cpus = run.draws.below(2).saturating_add(1);
            run.beat(rt, now, numbered(number), cpus);
        }
    }
    for place in 0..shape.calls {
        run.draw(rt);
        if place.saturating_add(1) % shape.between.max(1) == 0 {
            run.compare_books(rt);
        }
    }
    run.close()
}

/// Histories of that shape, by those rules. In the short ones each of the arms comes as often as it is to; the long
/// ones are few, since the plain scheduler walks the whole log for each call.
fn compare_all(rt: &impl Abort, alloc: Global, shape: Shape, rules: Rules, arms: &[&[&str]]) {
    let mut came = Vec::new(alloc);
    let near = u64::MAX.saturating_sub(shape.calls / 10);
    let is_long = shape.servers > 3;
    let last = if is_long { 3 } else { 300 };
    for seed in 0..last {
        let (base, count) = match seed % 5 {
            0 => (4096, near),
            1 => (near, 0),
            _ => (1099511627776, 7),
        };
        let draws = Draws::new(seed, shape);
        let more = history(rt, alloc, draws, Start { base, count, rules });
        for arm in &more {
            came.push(*arm).expect(rt, "memory");
        }
    }
    if is_long {
        return;
    }
    for names in arms {
        for line in *names {
            for arm in line.split(' ') {
                let times = came.iter().filter(|other| **other == arm).count();
                assert_eq!(rt; (arm, times >= LEAST), (arm, true));
            }
        }
    }
}

#[test]
fn calm_histories(rt: HostRuntime) -> Result<(), Fail> {
    compare_all(&rt, rt.alloc(), CALM, Rules::One, &[ARMS]);
    Ok(())
}

#[test]
fn brisk_histories(rt: HostRuntime) -> Result<(), Fail> {
    compare_all(&rt, rt.alloc(), BRISK, Rules::Two, &[ARMS]);
    Ok(())
}

#[test]
fn short_histories_by_version_one(rt: HostRuntime) -> Result<(), Fail> {
    compare_all(&rt, rt.alloc(), SHORT, Rules::One, &[ARMS, READY_ARMS]);
    Ok(())
}

#[test]
fn short_histories_by_version_two(rt: HostRuntime) -> Result<(), Fail> {
    let arms = &[ARMS, READY_ARMS, DRAIN_ARMS];
    compare_all(&rt, rt.alloc(), SHORT, Rules::Two, arms);
    Ok(())
}
