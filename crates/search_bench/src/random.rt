//! Numbers that look random, the same for the same seed (SplitMix64, by Steele, Lea and Flood).

ghost use Rattle.std.specs.Prelude.{◌<◌};

/// A stream of numbers.
#[derive(Drop)]
pub struct Random {
    state: u64,
}

impl Random {
    /// The stream of a seed.
    pub fn new(seed: u64) -> Random {
        Random { state: seed }
    }

    /// The next number.
    fn next(&mut self) -> u64 {
        self.state = self.state.wrapping_add(0x9E37_79B9_7F4A_7C15);
        let mixed = (self.state ^ (self.state >> 30)).wrapping_mul(0xBF58_476D_1CE4_E5B9);
        let mixed = (mixed ^ (mixed >> 27)).wrapping_mul(0x94D0_49BB_1331_11EB);
        mixed ^ (mixed >> 31)
    }

    /// A number below `bound`.
    pub fn below(&mut self, bound: usize) -> usize
        requires { 0 < bound }
        ensures { result < bound }
    {
        let bound = bound as u64;
        (self.next() % bound) as usize
    }

    /// A number below `bound`, small ones more often.
    pub fn skewed(&mut self, bound: usize) -> usize
        requires { 0 < bound }
        ensures { result < bound }
    {
        let most = self.below(bound);
        self.below(most + 1)
    }
}
