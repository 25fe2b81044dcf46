//! Moments: the trait, the clock in memory and the system's.
ghost use Rattle.std.specs.Prelude.{◌≡◌, [], List, ℕ, drop, Option, Some, None, IfSome};
ghost use Rattle.std.specs.Option.{option_map};
ghost use Rattle.dist_types.specs.Clock.{next_moment};
ghost use Rattle.dist_types.specs.Real.{real_clock_last};

use std::time::Clock as SystemClock;

/// Gives moments, in milliseconds.
pub trait Clock {
    /// The moments that it will give, in any order, where they are told.
    ghost moments: { Self → Option (List ℕ) };

    /// The moment that it gave last, or 0.
    ghost last: { Self → ℕ };

    /// The next moment. Past the end of the moments that are told it is the last one again.
    fn now(&mut self) -> u64
        ensures given { IfSome (moments self.old) (λ coming. result ≡ next_moment coming (last self.old)) }
        ensures left { moments self.new ≡ option_map (λ coming. drop 1 coming) (moments self.old) }
        ensures last { last self.new ≡ result };
}

/// Moments that are given one after the other, and past their end the last one again, or 0.
#[derive(Debug, Drop)]
pub struct MemClock {
    moments: Vec<u64>,
    at: usize,
    last: u64,
}

impl MemClock {
    ghost use Rattle.dist_types.specs.Clock.{clock_moments, clock_last};

    /// A clock that will give these moments. It takes no memory.
    pub fn new(moments: Vec<u64>) -> Self
        ensures moments { clock_moments result ≡ moments.items }
        ensures last { clock_last result ≡ 0 }
    {
        MemClock {
            moments,
            at: 0,
            last: 0,
        }
    }
}

impl Clock for MemClock {
    ghost moments = { λ c. Some (drop c.at c.moments.items) };

    ghost last = { λ c. c.last };

    fn now(&mut self) -> u64 {
        if self.at < self.moments.len() {
            self.last = self.moments[self.at];
            self.at += 1;
        }
        self.last
    }
}

/// The system's clock, which never goes back. Its start is any moment.
#[derive(Drop)]
pub struct RealClock<C: SystemClock> {
    clock: C,
    last: u64,
}

impl<C: SystemClock> RealClock<C> {
    /// A clock that asks the system. It takes no memory.
    pub fn new(clock: C) -> Self
        ensures last { real_clock_last result ≡ 0 }
    {
        RealClock { clock, last: 0 }
    }
}

impl<C: SystemClock> Clock for RealClock<C> {
    ghost moments = { λ _. None };

    ghost last = { λ c. c.last };

    /// Where the system does not answer, the last moment again.
    fn now(&mut self) -> u64 {
        if let Ok(since) = self.clock.monotonic() {
            self.last = match u64::try_from(since.as_millis()) {
                Ok(millis) => millis,
                Err(_) => u64::MAX,
            };
        }
        self.last
    }
}
