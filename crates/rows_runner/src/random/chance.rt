//! Numbers that look random, and are the same for the same seed.
ghost use Rattle.std.specs.Prelude.{◌<◌};

/// A generator of numbers.
#[derive(Drop)]
pub struct Chance {
    // What the last number was made of.
    state: u64,
}

impl Chance {
    /// Returns the generator of a seed.
    pub fn new(seed: u64) -> Chance {
        let mut chance = Chance { state: seed };
        // Seeds that lie near each other part.
        let _ = chance.below(2);
        chance
    }

    /// Returns a number that is less than `bound`. The generator is a linear congruential one, of
    /// which the upper bits are taken.
    pub fn below(&mut self, bound: u64) -> u64
        requires { 0 < bound }
        ensures { result < bound }
    {
        self.state = self
            .state
            .wrapping_mul(6_364_136_223_846_793_005)
            .wrapping_add(1_442_695_040_888_963_407);
        (self.state >> 33) % bound
    }

    /// Returns true once in so many times.
    pub fn is_one_of(&mut self, times: u64) -> bool
        requires { 0 < times }
    {
        self.below(times) == 0
    }
}
