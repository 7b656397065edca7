//! Pseudo-random numbers for tests and benchmarks, the same in each run.

/// A linear congruential generator, whose field is its state.
#[derive(Drop)]
pub struct Numbers(pub u64);

impl Numbers {
    /// Returns the next pseudo-random number below `n`, or 0 if `n` is 0.
    pub fn below(&mut self, n: u32) -> u32 {
        self.0 = self
            .0
            .wrapping_mul(6364136223846793005)
            .wrapping_add(1442695040888963407);
        ((self.0 >> 33) % u64::from(n.max(1))) as u32
    }
}
