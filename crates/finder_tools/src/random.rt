//! Numbers that look drawn at random, the same in each run.
ghost use Rattle.std.specs.Prelude.{◌<◌, ◌≤◌};

use rand_core::Rng;
use rand_pcg::Lcg64Xsh32;

/// The state and the stream with which each sequence starts.
const SEED: u64 = 42;

const STREAM: u64 = 54;

/// A sequence of numbers that look drawn at random.
#[derive(Drop)]
pub struct Random {
    words: Lcg64Xsh32,
}

impl Random {
    /// The sequence from its first number.
    pub fn new() -> Random {
        Random {
            words: Lcg64Xsh32::new(SEED, STREAM),
        }
    }

    /// The next number, of 32 bits.
    pub fn next(&mut self) -> u32 {
        self.words.next_u32()
    }

    /// The next number below a bound.
    pub fn below(&mut self, bound: u32) -> u32
        requires { 1 ≤ bound }
        ensures { result < bound }
    {
        self.next() % bound
    }
}
