//! Clocks in memory.

ghost use Rattle.std.specs.Prelude.{◌≡◌, ◌+◌, ◌-◌, ◌^◌, min, [], None};
ghost use Rattle.ss_outside.specs.Told.{TakesFirst};

use crate::clock::Clock;
use std::marker::Model;

/// A clock that reads the numbers of a list, and then 0.
#[derive(Drop, Debug)]
pub struct MemClock {
    readings: Vec<u64>,
    next: usize,
}

impl Model for MemClock {
    ghost use Rattle.std.specs.Prelude.{List, ℕ, drop};

    ghost Value = { List ℕ };

    ghost view = { λ clock. drop clock.next clock.readings.items };
}

impl MemClock {
    /// A clock that reads these numbers.
    pub fn new(readings: Vec<u64>) -> MemClock
        ensures { result ≡ readings.items }
    {
        MemClock { readings, next: 0 }
    }
}

impl Clock for MemClock {
    ghost use Rattle.std.specs.Prelude.{Some};

    ghost coming = { λ clock. Some clock };

    fn now(&mut self) -> u64
        ensures told { TakesFirst (Some self.old) (Some self.new) result }
        ensures used_up { self.old ≡ [] → result ≡ 0 }
    {
        match self.readings.get(self.next) {
            Some(reading) => {
                self.next += 1;
                *reading
            }
            None => 0,
        }
    }
}

/// A clock that reads a first number, and each time one more, up to the greatest u64.
#[derive(Drop, Debug)]
pub struct CountClock {
    next: u64,
}

impl Model for CountClock {
    ghost use Rattle.std.specs.Prelude.{ℕ};

    ghost Value = { ℕ };

    ghost view = { λ clock. clock.next };
}

impl CountClock {
    /// A clock whose first reading is this number.
    pub fn new(first: u64) -> CountClock
        ensures { result ≡ first }
    {
        CountClock { next: first }
    }
}

impl Clock for CountClock {
    ghost coming = { λ clock. None };

    fn now(&mut self) -> u64
        ensures untold { TakesFirst None None result }
        ensures reading { result ≡ self.old }
        ensures next { self.new ≡ min (self.old + 1) (2 ^ 64 - 1) }
    {
        let reading = self.next;
        self.next = reading.saturating_add(1);
        reading
    }
}
