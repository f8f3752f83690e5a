//! Numbers that are drawn.

ghost use Rattle.std.specs.Prelude.{◌<◌};

/// A linear congruential generator with Knuth's constants, which gives its upper bits.
#[derive(Drop)]
pub struct Chances {
    state: u64,
}

impl Chances {
    pub fn new(seed: u64) -> Chances {
        Chances { state: seed }
    }

    /// A number below n.
    pub fn below(&mut self, n: u64) -> u64
        requires { 0 < n }
        ensures { result < n }
    {
        self.state = self
            .state
            .wrapping_mul(6_364_136_223_846_793_005)
            .wrapping_add(1_442_695_040_888_963_407);
        (self.state >> 33) % n
    }
}
