//! Numbers for the tests of random texts.
ghost use Rattle.std.specs.Prelude.{◌≡◌, ◌<◌};

/// A linear congruential generator.
#[derive(Drop)]
pub struct Random {
    state: usize,
}

impl Random {
    /// The generator of the numbers after `state`.
    pub fn new(state: usize) -> Random {
        Random { state }
    }

    /// A number below `end`, or 0 if that is 0.
    pub fn below(&mut self, end: usize) -> usize
        ensures below { 0 < end → result < end }
        ensures at_no_end { end ≡ 0 → result ≡ 0 }
    {
        self.state = self
            .state
            .wrapping_mul(6_364_136_223_846_793_005)
            .wrapping_add(1_442_695_040_888_963_407);
        (self.state >> 33).checked_rem(end).unwrap_or(0)
    }
}
