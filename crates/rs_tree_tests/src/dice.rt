//! Numbers that a seed determines.

ghost use Rattle.std.specs.Prelude.{◌<◌};

/// A row of numbers, by Knuth's linear congruential generator MMIX: the same for the same seed.
#[derive(Drop)]
pub struct Dice {
    state: u64,
}

impl Dice {
    pub fn new(seed: u64) -> Dice {
        Dice { state: seed }
    }

    /// The next number, below so many.
    pub fn draw(&mut self, sides: u64) -> u64
        requires sides { 0 < sides }
        ensures below { result < sides }
    {
        self.state = self
            .state
            .wrapping_mul(6_364_136_223_846_793_005)
            .wrapping_add(1_442_695_040_888_963_407);
        (self.state >> 33) % sides
    }
}
