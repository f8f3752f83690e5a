//! Which calls of an object in memory fail.

ghost use Rattle.std.specs.Prelude.{◌≡◌, MatchBool};
ghost use Rattle.ss_outside.specs.Causes.{Rose};
ghost use Rattle.ss_outside.specs.Plans.{fresh_plan, is_failing, after_call, fault_count};

use std::marker::Model;

/// A plan of the calls that fail, which counts them.
pub trait Faults {
    ghost use Rattle.std.specs.Prelude.{Option};
    ghost use Rattle.ss_outside.specs.Plans.{Plan};

    /// Which calls fail, and how many were made; None where none ever fails.
    ghost plan: { Self → Option Plan };

    /// Whether this call is to fail.
    fn fails(&mut self) -> bool
        ensures answer { result ≡ is_failing (plan self.old) }
        ensures after { plan self.new ≡ after_call (plan self.old) }
        ensures cause { MatchBool result (Rose (fault_count (plan self.old)) (fault_count (plan self.new)))
            (fault_count (plan self.new) ≡ fault_count (plan self.old)) };
}

/// The calls with these numbers fail; the first call has number 1.
#[derive(Drop, Debug)]
pub struct Numbered {
    failing: Vec<u64>,
    calls: u64,
    faults: u64,
}

impl Model for Numbered {
    ghost use Rattle.ss_outside.specs.Plans.{Plan};

    ghost Value = { Plan };

    ghost view = { λ plan. record { failing = plan.failing.items; calls = plan.calls; faults = plan.faults } };
}

impl Numbered {
    /// A plan by which the calls with these numbers fail, before the first call.
    pub fn new(failing: Vec<u64>) -> Numbered
        ensures { result ≡ fresh_plan failing.items }
    {
        Numbered {
            failing,
            calls: 0,
            faults: 0,
        }
    }
}

impl Faults for Numbered {
    ghost use Rattle.std.specs.Prelude.{Some};

    ghost plan = { λ plan. Some plan };

    fn fails(&mut self) -> bool {
        self.calls = self.calls.saturating_add(1);
        if !self.failing.contains(&self.calls) {
            return false;
        }
        self.faults = self.faults.saturating_add(1);
        true
    }
}

/// No call fails.
#[derive(Clone, Copy, Debug)]
pub struct Never;

impl Faults for Never {
    ghost use Rattle.std.specs.Prelude.{None};

    ghost plan = { λ plan. None };

    fn fails(&mut self) -> bool {
        false
    }
}
