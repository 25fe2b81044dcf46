//! A clock whose moments no other caller's clock gives.
ghost use Rattle.std.specs.Prelude.{None};

use dist_types::clock::Clock;

/// Gives every `step`th moment from its first one on.
#[derive(Drop)]
pub(crate) struct Ticks {
    next: u64,
    step: u64,
    last: u64,
}

impl Ticks {
    /// A clock whose first moment is that one.
    pub(crate) fn new(first: u64, step: u64) -> Self {
        Ticks {
            next: first,
            step,
            last: 0,
        }
    }

    /// The moment that it gave last.
    pub(crate) fn last(&self) -> u64 {
        self.last
    }
}

impl Clock for Ticks {
    ghost moments = { λ _. None };

    ghost last = { λ c. c.last };

    fn now(&mut self) -> u64 {
        self.last = self.next;
        self.next = self.next.saturating_add(self.step);
        self.last
    }
}
