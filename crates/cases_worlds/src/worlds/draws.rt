//! Draws.

/// Numbers that follow from a first one.
#[derive(Drop)]
pub struct Draw {
    state: u64,
}

impl Draw {
    pub fn new(first: u64) -> Draw {
        Draw { state: first }
    }

    /// The next number below `limit`, or 0 where that is 0.
    pub fn below(&mut self, limit: u64) -> u64 {
        self.state = self
            .state
            .wrapping_mul(6364136223846793005)
            .wrapping_add(1442695040888963407);
        (self.state >> 33).checked_rem(limit).unwrap_or(0)
    }
}
