//! The numbers that a rehearsal draws.

ghost use Rattle.std.specs.Prelude.{◌≡◌};
ghost use Rattle.ss_rehearse.specs.Draws.{drawn_after};

/// The multiplier of the sequence (Knuth's for MMIX).
const MULTIPLIER: u64 = 6_364_136_223_846_793_005;

/// What is added at each step.
const INCREMENT: u64 = 1_442_695_040_888_963_407;

/// The number that follows another one, of 64 bits.
#[tactic(auto, unfolding(crate::specs::Draws::drawn_after))]
pub fn drawn_after(number: u64) -> u64
    ensures { result ≡ drawn_after number }
{
    number.wrapping_mul(MULTIPLIER).wrapping_add(INCREMENT)
}
