//! Three queues: of requests that wait for nobody, of those that may wait, and of those whose body still
//! comes; and who of the workers sleeps.
ghost use Rattle.std.specs.Prelude.{◌≡◌, Some, true, is_some, IfSome};
ghost use Rattle.http_routes.specs.declared.kind.Kind.TheVariants as kinds;
ghost use Rattle.http_connections.specs.declared.queues.Takes.TheVariants as takers;

use crate::asked::Asked;
use http_routes::kind::Kind;
use std::alloc::Global;
use std::collections::VecDeque;

/// How many requests of a kind are in a queue at most. One that comes to a full queue is dropped.
pub const MAX_QUEUED: usize = 1_024;

/// From which queues a worker takes.
#[derive(Clone, Copy, Debug, PartialEq, Eq)]
pub enum Takes {
    /// From all.
    All,
    /// What came whole.
    Whole,
    /// What came whole and waits for nobody.
    Quick,
}

/// Which worker asks the system for what comes.
#[derive(Clone, Copy, Debug, PartialEq, Eq)]
pub enum Lead {
    /// None.
    Nobody,
    /// One that waits for the system.
    Polls,
    /// One that found a request that waits for nobody, serves it, and then goes on: by how often that was
    /// so.
    Serves(u64),
}

/// How many workers of one sort wait for a bell, and how many of them it was rung for.
#[derive(Clone, Copy, Debug)]
struct Sleepers {
    asleep: usize,
    rung: usize,
}

impl Sleepers {
    fn none() -> Self {
        Sleepers { asleep: 0, rung: 0 }
    }

    /// Rings for so many at most, and says for how many.
    fn ring(&mut self, number: usize) -> usize {
        let rung = number.min(self.asleep);
        self.asleep = self.asleep.saturating_sub(rung);
        self.rung = self.rung.saturating_add(rung);
        rung
    }

    /// One goes to sleep.
    fn lie_down(&mut self) {
        self.asleep = self.asleep.saturating_add(1);
    }

    /// One woke, by the bell or by itself.
    fn rise(&mut self) {
        if self.rung > 0 {
            self.rung = self.rung.saturating_sub(1);
        } else {
            self.asleep = self.asleep.saturating_sub(1);
        }
    }
}

/// How often each bell is to be rung.
#[derive(Clone, Copy, Debug)]
pub struct Rings {
    /// For workers that take all.
    pub all: usize,
    /// For workers that take what came whole.
    pub whole: usize,
    /// For workers that take what waits for nobody.
    pub quick: usize,
}

/// A link whose request came whole and waits for nobody.
#[derive(Drop)]
struct QuickAsked {
    asked: Asked,
    ghost quick: { asked.kind ≡ Some kinds.Quick },
}

/// A link whose request came whole and may wait.
#[derive(Drop)]
struct WaitingAsked {
    asked: Asked,
    ghost waits: { asked.kind ≡ Some kinds.Waits },
}

/// What is in the queues, who leads, and who sleeps.
#[derive(Drop)]
pub struct Queues {
    quick: VecDeque<QuickAsked>,
    waits: VecDeque<WaitingAsked>,
    coming: VecDeque<Asked>,
    /// How many bytes of requests are in the queues.
    bytes: usize,
    /// Which worker asks the system for what comes.
    pub lead: Lead,
    /// How often one that leads began to serve.
    leads: u64,
    /// Whether nothing comes any more.
    pub ended: bool,
    /// Whether that is so because the system failed.
    pub failed: bool,
    all: Sleepers,
    whole: Sleepers,
    alone: Sleepers,
}

impl Queues {
    /// Empty queues, of which nobody takes yet. It takes no memory.
    pub fn new(alloc: Global) -> Self {
        Queues {
            quick: VecDeque::new(alloc),
            waits: VecDeque::new(alloc),
            coming: VecDeque::new(alloc),
            bytes: 0,
            lead: Lead::Nobody,
            leads: 0,
            ended: false,
            failed: false,
            all: Sleepers::none(),
            whole: Sleepers::none(),
            alone: Sleepers::none(),
        }
    }

    /// How many bytes of requests are in the queues.
    pub fn bytes(&self) -> usize {
        self.bytes
    }

    /// Puts a link at the end of the queue of its kind. Where that is full, or memory ran out, it is
    /// dropped.
    pub fn put(&mut self, asked: Asked) {
        let len = asked.begun.len();
        let kind = asked.kind;
        let is_in = match kind {
            Some(Kind::Quick) => self.put_quick(QuickAsked { asked }),
            Some(Kind::Waits) => self.put_waiting(WaitingAsked { asked }),
            None => self.put_coming(asked),
        };
        if is_in {
            self.bytes = self.bytes.saturating_add(len);
        }
    }

    fn put_quick(&mut self, asked: QuickAsked) -> bool {
        self.quick.len() < MAX_QUEUED && self.quick.push_back(asked).is_ok()
    }

    fn put_waiting(&mut self, asked: WaitingAsked) -> bool {
        self.waits.len() < MAX_QUEUED && self.waits.push_back(asked).is_ok()
    }

    fn put_coming(&mut self, asked: Asked) -> bool {
        self.coming.len() < MAX_QUEUED && self.coming.push_back(asked).is_ok()
    }

    /// The first link that waits for nobody.
    fn first_quick(&mut self) -> Option<Asked>
        ensures quick { IfSome result (λ a. a.kind ≡ Some kinds.Quick) }
    {
        match self.quick.pop_front() {
            Some(quick) => {
                let QuickAsked { asked, .. } = quick;
                Some(asked)
            }
            None => None,
        }
    }

    /// The first link that came whole: first what may wait.
    fn first_whole(&mut self) -> Option<Asked>
        ensures whole { IfSome result (λ a. is_some a.kind ≡ true) }
    {
        match self.waits.pop_front() {
            Some(waiting) => {
                let WaitingAsked { asked, .. } = waiting;
                Some(asked)
            }
            None => self.first_quick(),
        }
    }

    /// The first link for a worker of these queues: first what still comes, then what may wait.
    fn first_of(&mut self, takes: Takes) -> Option<Asked>
        ensures quick { takes ≡ takers.Quick → IfSome result (λ a. a.kind ≡ Some kinds.Quick) }
        ensures whole { takes ≡ takers.Whole → IfSome result (λ a. is_some a.kind ≡ true) }
    {
        match takes {
            Takes::Quick => self.first_quick(),
            Takes::Whole => self.first_whole(),
            Takes::All => match self.coming.pop_front() {
                Some(asked) => Some(asked),
                None => self.first_whole(),
            },
        }
    }

    /// The first link that a worker may take. One that takes what waits for nobody gets no request that may
    /// wait, and one that takes what came whole none whose body still comes.
    pub fn first(&mut self, takes: Takes) -> Option<Asked>
        ensures quick { takes ≡ takers.Quick → IfSome result (λ a. a.kind ≡ Some kinds.Quick) }
        ensures whole { takes ≡ takers.Whole → IfSome result (λ a. is_some a.kind ≡ true) }
    {
        let asked = self.first_of(takes)?;
        self.bytes = self.bytes.saturating_sub(asked.begun.len());
        Some(asked)
    }

    /// A worker leads, and serves meanwhile: the number of that.
    pub fn keep_lead(&mut self) -> u64 {
        self.leads = self.leads.wrapping_add(1);
        self.lead = Lead::Serves(self.leads);
        self.leads
    }

    /// For whom the bells are to be rung: where links were just put into the queues, for those that take
    /// what is in them; and where nobody leads, for one who does.
    pub fn rings(&mut self, were_put: bool) -> Rings {
        let mut rings = Rings {
            all: 0,
            whole: 0,
            quick: 0,
        };
        if were_put {
            self.ring_takers(&mut rings);
        }
        if self.lead == Lead::Nobody {
            self.ring_leader(&mut rings);
        }
        rings
    }

    /// Rings for those that take what is in the queues.
    fn ring_takers(&mut self, rings: &mut Rings) {
        rings.quick = self.alone.ring(self.quick.len());
        let quick = self.quick.len().saturating_sub(rings.quick);
        rings.whole = self.whole.ring(self.waits.len().saturating_add(quick));
        let whole = self.waits.len().saturating_add(quick);
        let left = whole.saturating_sub(rings.whole);
        rings.all = self.all.ring(self.coming.len().saturating_add(left));
    }

    /// Rings for one of those that sleep, to lead.
    fn ring_leader(&mut self, rings: &mut Rings) {
        if self.alone.ring(1) == 1 {
            rings.quick = rings.quick.saturating_add(1);
        } else if self.whole.ring(1) == 1 {
            rings.whole = rings.whole.saturating_add(1);
        } else {
            rings.all = rings.all.saturating_add(self.all.ring(1));
        }
    }

    fn sleepers(&mut self, takes: Takes) -> &mut Sleepers {
        match takes {
            Takes::All => &mut self.all,
            Takes::Whole => &mut self.whole,
            Takes::Quick => &mut self.alone,
        }
    }

    /// A worker goes to sleep.
    pub fn lie_down(&mut self, takes: Takes) {
        self.sleepers(takes).lie_down();
    }

    /// A worker woke, by the bell or by itself.
    pub fn rise(&mut self, takes: Takes) {
        self.sleepers(takes).rise();
    }
}
