//! Holding an answer back.
ghost use Rattle.std.specs.Prelude.{◌≡◌, ℕ};
ghost use Rattle.exec_builder.specs.Pause.{paused_more};

use std::thread;
use std::time::{Clock, Duration};

/// Holds its caller back.
pub trait Pause {
    /// For how many milliseconds it did so in all, at most 2^64 - 1.
    ghost paused: { Self → ℕ };

    /// Holds back for so many milliseconds.
    fn pause(&mut self, millis: u64)
        ensures { paused self.new ≡ paused_more millis (paused self.old) };
}

/// Counts, and holds nobody back.
#[derive(Debug, Drop)]
pub struct MemPause {
    paused: u64,
}

impl MemPause {
    ghost use Rattle.exec_builder.specs.Pause.{mem_paused};

    /// A pause that counted nothing so far.
    pub fn new() -> Self
        ensures { mem_paused result ≡ 0 }
    {
        MemPause { paused: 0 }
    }

    /// For how many milliseconds it would have held back in all.
    pub fn paused(&self) -> u64
        ensures { result ≡ mem_paused self.now }
    {
        self.paused
    }
}

impl Pause for MemPause {
    ghost paused = { λ p. p.paused };

    fn pause(&mut self, millis: u64) {
        self.paused = self.paused.saturating_add(millis);
    }
}

/// Sleeps by a clock of the system. That time goes by meanwhile no clause says.
#[derive(Drop)]
pub struct RealPause<'a, C: Clock> {
    clock: &'a C,
    paused: u64,
}

impl<'a, C: Clock> RealPause<'a, C> {
    ghost use Rattle.exec_builder.specs.Pause.{real_paused};

    /// A pause that slept for nobody so far.
    pub fn new(clock: &'a C) -> Self
        ensures { real_paused result ≡ 0 }
    {
        RealPause { clock, paused: 0 }
    }
}

impl<C: Clock> Pause for RealPause<'_, C> {
    ghost paused = { λ p. p.paused };

    fn pause(&mut self, millis: u64) {
        self.paused = self.paused.saturating_add(millis);
        thread::sleep(self.clock, Duration::from_millis(millis));
    }
}
