//! Random words that are all 0.
use rand_core::Rng;

/// Gives 0 at each call.
#[derive(Clone, Copy, Debug)]
pub struct Zeros;

impl Rng for Zeros {
    ghost use Rattle.std.specs.Prelude.{replicate};

    ghost stream = { λ _. record { u32_after = λ _. 0; u64_after = λ _. 0; bytes_after = λ _ n. replicate n 0 } };

    #[tactic(auto, unfolding(rand_core::specs::Stream::next_u32))]
    fn next_u32(&mut self) -> u32 {
        0
    }

    #[tactic(auto, unfolding(rand_core::specs::Stream::next_u64))]
    fn next_u64(&mut self) -> u64 {
        0
    }

    #[tactic(auto, unfolding(rand_core::specs::Stream::fill_bytes))]
    fn fill_bytes(&mut self, dst: &mut [u8]) {
        dst.fill(0);
    }
}
