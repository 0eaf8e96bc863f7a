// Numbers that look random and are the same on every run.
ghost use Rattle.std.specs.Prelude.{◌≡◌};
ghost use Rattle.calculator.specs.Draws.{state_after, number_drawn, side_drawn};

use book::Side;

/// A linear congruential generator of 64 bits, whose high bits are used.
#[derive(Drop)]
pub struct Source {
    state: u64,
}

impl Source {
    /// A source that begins at a seed.
    pub fn new(seed: u64) -> Source
        ensures { result.state ≡ seed }
    {
        Source { state: seed }
    }

    /// The next number below `bound`, or 0 below 0.
    pub fn below(&mut self, bound: u32) -> u32
        ensures state { self.new.state ≡ state_after self.old.state }
        ensures value { result ≡ number_drawn bound self.new.state }
    {
        self.state = self
            .state
            .wrapping_mul(6_364_136_223_846_793_005)
            .wrapping_add(1_442_695_040_888_963_407);
        ((self.state >> 33) % u64::from(bound.max(1))) as u32
    }

    /// The next side: a buy where the next number below 2 is 0.
    pub fn side(&mut self) -> Side
        ensures state { self.new.state ≡ state_after self.old.state }
        ensures value { result ≡ side_drawn self.new.state }
    {
        match self.below(2) {
            0 => Side::Buy,
            _ => Side::Sell,
        }
    }
}
