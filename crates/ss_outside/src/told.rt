//! What an object of the outside tells.

ghost use Rattle.ss_outside.specs.Told.{Meanings};

/// An object of the outside tells of its bytes, or doesn't, and counts its faults.
pub trait Told {
    ghost told: { Self → Meanings };
}
