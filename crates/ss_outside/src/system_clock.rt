//! The clock of the system: the trusted edge. It tells no reading that is to come.

ghost use Rattle.std.specs.Prelude.{◌≡◌, ◌-◌, ◌/◌, ◌^◌, min, None};

use crate::clock::Clock;
use std::time::SystemTime;

/// The clock of the system, read through the runtime. Where the system can't read its clock, or the clock stands before 1970,
/// the reading is 0.
#[derive(Drop)]
pub struct SystemClock<'a, R: std::rt::Clock> {
    system: &'a R,
}

impl<'a, R: std::rt::Clock> SystemClock<'a, R> {
    pub fn new(system: &'a R) -> SystemClock<'a, R> {
        SystemClock { system }
    }
}

/// Whole hundredths of a second in so many milliseconds; the greatest u64 where there are more.
fn hundredths(milliseconds: u128) -> u64
    ensures { result ≡ min (milliseconds / 10) (2 ^ 64 - 1) }
{
    match u64::try_from(milliseconds / 10) {
        Ok(hundredths) => hundredths,
        Err(_) => u64::MAX,
    }
}

impl<'a, R: std::rt::Clock> Clock for SystemClock<'a, R> {
    ghost coming = { λ clock. None };

    fn now(&mut self) -> u64 {
        let Ok(now) = SystemTime::now(self.system) else {
            return 0;
        };
        match now.duration_since(SystemTime::UNIX_EPOCH) {
            Ok(time) => hundredths(time.as_millis()),
            Err(_) => 0,
        }
    }
}
