//! A stream of numbers, and a clock that jumps both ways.
use dist_types::addr::Addr;
use dist_types::ids::{ServerId, ServerNonce};
use dist_types::results::JobState;

/// Where a moment jumps, it jumps by one of these, in milliseconds: to the edge of what is timed out, or past
/// it.
const JUMPS: &[u64] = &[
    1, 500, 59999, 60000, 60001, 89999, 90000, 90001, 299999, 300000, 300001, 400000,
];

/// What a history is made of.
#[derive(Clone, Copy)]
pub(crate) struct Shape {
    /// How many servers there are.
    pub(crate) servers: u64,
    /// How many calls are drawn.
    pub(crate) calls: u64,
    /// After how many calls the books are compared, again and again.
    pub(crate) between: u64,
    /// Once in how many calls the clock jumps.
    pub(crate) jumps: u64,
    /// How much more seldom the moment of a call jumps that prunes.
    pub(crate) seldom: u64,
    /// How many of the calls are heartbeats at a limit, drains and reserves, beside 34 others.
    pub(crate) aims: u64,
    pub(crate) drains: u64,
    pub(crate) reserves: u64,
}

/// The numbers, and the clock.
#[derive(Drop)]
pub(crate) struct Draws {
    pub(crate) shape: Shape,
    seed: u64,
    pub(crate) clock: u64,
}

impl Draws {
    /// The numbers from a seed on.
    pub(crate) fn new(seed: u64, shape: Shape) -> Self {
        Draws {
            shape,
            seed,
            clock: 2000000,
        }
    }

    /// The next number, below the limit.
    pub(crate) fn below(&mut self, limit: u64) -> u64 {
        self.seed = self
            .seed
            .wrapping_mul(6364136223846793005)
            .wrapping_add(1442695040888963407);
        (self.seed >> 33) % limit.max(1)
    }

    /// Whether it comes, once in so many times.
    pub(crate) fn comes(&mut self, times: u64) -> bool {
        self.below(times) == 0
    }

    /// A jump of the clock forwards or backwards.
    fn jump(&mut self) -> u64 {
        let at = self.below(JUMPS.len() as u64);
        let by = JUMPS.get(at as usize).copied().unwrap_or(0);
        if self.comes(2) {
            self.clock.saturating_add(by)
        } else {
            self.clock.saturating_sub(by)
        }
    }

    /// The moment of the next call. The clock goes on a little, and now and then jumps for good; the moment
    /// itself jumps once in so many times.
    pub(crate) fn moment(&mut self, times: u64) -> u64 {
        let by = self.below(150);
        self.clock = self.clock.saturating_add(by);
        if self.comes(self.shape.jumps) {
            self.clock = self.jump();
        }
        if self.comes(times) {
            self.jump()
        } else {
            self.clock
        }
    }

    /// A moment at a limit, or past it, from another on.
    pub(crate) fn limit(&mut self, since: u64) -> u64 {
        since.saturating_add(match self.below(8) {
            0 | 1 => 59999,
            2 | 3 | 4 | 5 => 60000,
            6 => 60001,
            _ => 300001,
        })
    }

    /// A server.
    pub(crate) fn server(&mut self) -> ServerId {
        numbered(self.below(self.shape.servers))
    }

    /// A nonce, mostly the same.
    pub(crate) fn nonce(&mut self) -> ServerNonce {
        ServerNonce::new(if self.comes(12) { 8 } else { 7 })
    }

    /// Of a heartbeat: mostly one processor, now and then too few or too many.
    pub(crate) fn cpus(&mut self) -> u64 {
        match self.below(60) {
            0 => 0,
            1 => 4294967296,
            2 => 4294967295,
            3 | 4 | 5 | 6 | 7 | 8 => self.below(16).saturating_add(1),
            _ => 1,
        }
    }

    /// A state of a job.
    pub(crate) fn state(&mut self) -> JobState {
        match self.below(4) {
            0 => JobState::Pending,
            1 => JobState::Ready,
            2 => JobState::Started,
            _ => JobState::Complete,
        }
    }
}

/// The server of that number.
pub(crate) fn numbered(number: u64) -> ServerId {
    ServerId::new(Addr::V4([127, 0, 0, 1], (number % 60000) as u16))
}
