//! A stream of numbers.

/// The numbers that follow a seed.
#[derive(Drop)]
pub(crate) struct Draws {
    seed: u64,
}

impl Draws {
    /// The numbers from a seed on.
    pub(crate) fn new(seed: u64) -> Self {
        Draws { seed }
    }

    /// The next number, below the limit.
    pub(crate) fn below(&mut self, limit: u64) -> u64 {
        self.seed = self
            .seed
            .wrapping_mul(6364136223846793005)
            .wrapping_add(1442695040888963407);
        (self.seed >> 33) % limit.max(1)
    }

    /// Whether it comes, once in so many times.
    pub(crate) fn comes(&mut self, times: u64) -> bool {
        self.below(times) == 0
    }
}
