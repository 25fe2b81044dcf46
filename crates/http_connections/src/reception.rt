//! The links of one listener, for all of its workers: a worker that has nothing to serve asks the system for
//! what comes, one at a time. What it finds and may take it serves itself; the rest it puts in queues.
//!
//! One that serves a request that waits for nobody stays the leader meanwhile, so that such a request costs
//! no waking; where it is longer about it than a moment, another takes its place.
ghost use Rattle.std.specs.Prelude.{◌≡◌, Some, true, is_some, IfSome};
ghost use Rattle.http_routes.specs.declared.kind.Kind.TheVariants as kinds;
ghost use Rattle.http_connections.specs.declared.queues.Takes.TheVariants as takers;

use crate::asked::Asked;
use crate::lot::{Lot, SWEEP_MS};
use crate::queues::{Lead, Queues, Rings, Takes};
use crate::start::{Start, StartFault};
use http_routes::kind::{Kind, Role};
use std::alloc::Global;
use std::net::{Net, TcpListener};
use std::sync::{Condvar, Mutex, MutexGuard, Wait};
use std::time::{Clock, Duration};

/// The links of one listener, for all of its workers.
#[derive(Drop)]
pub struct Reception {
    lot: Mutex<Lot>,
    queues: Mutex<Queues>,
    all: Condvar,
    whole: Condvar,
    quick: Condvar,
}

/// Whether a worker was the leader when it was given its last link, and by which number.
#[derive(Clone, Copy, Debug)]
pub struct Place {
    led: Option<u64>,
}

impl Place {
    /// The place of a worker that does not lead yet.
    pub fn new() -> Self {
        Place { led: None }
    }

    /// Whether it is the leader.
    fn leads(&self, lead: Lead) -> bool {
        match (lead, self.led) {
            (Lead::Serves(number), Some(led)) => number == led,
            _ => false,
        }
    }

    /// It goes with a link of this kind: it stays the leader where that link waits for nobody.
    fn go(&mut self, queues: &mut Queues, kind: Option<Kind>) {
        if !self.leads(queues.lead) {
            return;
        }
        if kind == Some(Kind::Quick) {
            self.led = Some(queues.keep_lead());
        } else {
            queues.lead = Lead::Nobody;
        }
    }

    /// Whether it may lead, where it slept under such a lead until its time was up, or did not.
    fn may_lead(&self, lead: Lead, slept: Option<Lead>) -> bool {
        match lead {
            Lead::Nobody => true,
            Lead::Polls => false,
            Lead::Serves(_) => self.leads(lead) || slept == Some(lead),
        }
    }
}

impl Reception {
    /// The links of a listener, of which none was accepted yet. Refused where the system does not give what
    /// watching takes, or memory ran out.
    pub fn new<R: Net>(
        rt: &R,
        alloc: Global,
        role: Role,
        listener: TcpListener,
        start: Start,
    ) -> Result<Self, StartFault> {
        let lot = Lot::new(rt, alloc, role, listener, start)?;
        Ok(Reception {
            lot: Mutex::new(lot),
            queues: Mutex::new(Queues::new(alloc)),
            all: Condvar::new(),
            whole: Condvar::new(),
            quick: Condvar::new(),
        })
    }

    /// What came of it, once all workers ended. Refused where the system failed.
    pub fn outcome<R: Wait>(&self, rt: &R) -> Result<(), StartFault> {
        if self.queues.lock(rt).failed {
            return Err(StartFault);
        }
        Ok(())
    }

    /// Wakes so many workers of each sort.
    fn ring(&self, rings: Rings) {
        for _ in 0..rings.all {
            self.all.notify_one();
        }
        for _ in 0..rings.whole {
            self.whole.notify_one();
        }
        for _ in 0..rings.quick {
            self.quick.notify_one();
        }
    }

    /// No link comes any more.
    fn end(&self, queues: &mut Queues) {
        queues.ended = true;
        self.all.notify_all();
        self.whole.notify_all();
        self.quick.notify_all();
    }

    /// Waits for the system once, a moment at most, while so many bytes stand in the queues, and puts into
    /// them what came.
    fn turn<R: Wait + Clock>(&self, rt: &R, queued: usize) -> MutexGuard<'_, Queues> {
        let mut lot = self.lot.lock(rt);
        let turned = lot.turn(rt, queued);
        let mut queues = self.queues.lock(rt);
        for _ in 0..u64::MAX {
            let Some(asked) = lot.next_whole() else {
                break;
            };
            queues.put(asked);
        }
        if turned.is_err() {
            queues.failed = true;
        }
        if turned.is_err() || lot.is_done() {
            self.end(&mut queues);
        }
        queues
    }

    /// Sleeps until its bell is rung, or a moment at most; whether its time was up.
    fn sleep<'a, R: Wait + Clock>(
        &self,
        rt: &R,
        mut queues: MutexGuard<'a, Queues>,
        takes: Takes,
    ) -> (MutexGuard<'a, Queues>, bool) {
        let bell = match takes {
            Takes::All => &self.all,
            Takes::Whole => &self.whole,
            Takes::Quick => &self.quick,
        };
        queues.lie_down(takes);
        let moment = Duration::from_millis(SWEEP_MS);
        let (mut queues, waited) = bell.wait_timeout(rt, queues, moment);
        queues.rise(takes);
        (queues, waited.timed_out())
    }

    /// The next link that a worker may take, waiting for it; None where none comes any more. A worker that
    /// takes what waits for nobody gets no request that may wait, and one that takes what came whole none
    /// whose body still comes.
    pub fn next<R: Wait + Clock>(&self, rt: &R, takes: Takes, place: &mut Place) -> Option<Asked>
        ensures quick { takes ≡ takers.Quick → IfSome result (λ a. a.kind ≡ Some kinds.Quick) }
        ensures whole { takes ≡ takers.Whole → IfSome result (λ a. is_some a.kind ≡ true) }
    {
        let mut queues = self.queues.lock(rt);
        let mut slept = None;
        let mut turned = false;
        for _ in rt.forever() {
            if let Some(asked) = queues.first(takes) {
                place.go(&mut queues, asked.kind);
                let rings = queues.rings(turned);
                drop(queues);
                self.ring(rings);
                return Some(asked);
            }
            let rings = queues.rings(turned);
            self.ring(rings);
            if queues.ended {
                return None;
            }
            if place.may_lead(queues.lead, slept) {
                queues.lead = Lead::Polls;
                let queued = queues.bytes();
                drop(queues);
                queues = self.turn(rt, queued);
                place.led = Some(queues.keep_lead());
                turned = true;
            } else {
                let lead = queues.lead;
                let (woken, timed_out) = self.sleep(rt, queues, takes);
                queues = woken;
                slept = if timed_out { Some(lead) } else { None };
                turned = false;
            }
        }
        unreachable!()
    }
}
