//! Clocks.

ghost use Rattle.std.specs.Prelude.{List, ℕ, Option};
ghost use Rattle.ss_outside.specs.Told.{TakesFirst};

/// A clock.
pub trait Clock {
    /// The readings that are to come, where they are told.
    ghost coming: { Self → Option (List ℕ) };

    /// The time in hundredths of a second since 1970. Every value is possible.
    fn now(&mut self) -> u64
        ensures { TakesFirst (coming self.old) (coming self.new) result };
}
