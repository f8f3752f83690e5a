//! How long a link over the network waits.

ghost use Rattle.std.specs.Prelude.{IfSome, ◌<◌, ◌≡◌};

use std::io;
use std::time::{Clock, Duration, Instant};

/// A message must be whole within 30 seconds, and so must a response be taken. This project's limit.
pub const WAIT_SECONDS: u64 = 30;

/// Between two messages a link keeps its worker for at most so many milliseconds (this project).
pub const QUIET_MILLIS: u64 = 5_000;

/// The same, in milliseconds, while others wait for a worker (this project).
pub const PRESSED_QUIET_MILLIS: u64 = 250;

/// A message or a response may be so many milliseconds behind `LEAST_RATE` (this project).
pub const GRACE_MILLIS: u64 = 2_000;

/// With so many bytes a second a message must come, and a response be taken, while others wait for a worker (this
/// project).
pub const LEAST_RATE: u64 = 16_384;

/// How long one read or write of the system waits, in milliseconds, until the rules are looked at again.
pub(crate) const SLICE_MILLIS: u64 = 50;

/// Since when a message or a response is awaited.
#[derive(Clone, Copy, Debug)]
pub(crate) struct Awaited {
    since: Instant,
}

impl Awaited {
    /// Awaited from now on.
    pub(crate) fn from_now(clock: &impl Clock) -> io::Result<Awaited> {
        Ok(Awaited {
            since: Instant::now(clock)?,
        })
    }

    /// How long to wait for the next byte of it; None where its time is up.
    pub(crate) fn time_left(&self, clock: &impl Clock) -> io::Result<Option<Duration>> {
        let spent = self.since.elapsed(clock)?;
        let left = Duration::from_secs(WAIT_SECONDS).saturating_sub(spent);
        Ok(if left.is_zero() { None } else { Some(left) })
    }
}

/// A message that comes, or a response that goes.
#[derive(Clone, Copy, Debug)]
pub(crate) struct Transfer {
    since: Instant,
    // For how long from then on it is fast enough, whatever comes.
    allowed: Duration,
}

impl Transfer {
    /// One that begins at this moment.
    pub(crate) fn at(since: Instant) -> Transfer {
        Transfer {
            since,
            allowed: Duration::from_millis(GRACE_MILLIS),
        }
    }

    /// So many bytes of it came or were taken. Bytes that were fast earn it no more than `GRACE_MILLIS`: what the system's
    /// buffers took of a response says nothing of its client.
    pub(crate) fn add(&mut self, count: usize, now: Instant) {
        let earned = (count as u64).saturating_mul(1_000_000) / LEAST_RATE;
        let most = now
            .duration_since(self.since)
            .saturating_add(Duration::from_millis(GRACE_MILLIS));
        self.allowed = self
            .allowed
            .saturating_add(Duration::from_micros(earned))
            .min(most);
    }

    /// Whether it breaks a rule at this moment: its time is up, or it is too slow while others wait for a worker.
    pub(crate) fn is_late(&self, now: Instant, is_pressed: bool) -> bool {
        let spent = now.duration_since(self.since);
        spent >= Duration::from_secs(WAIT_SECONDS) || is_pressed && spent > self.allowed
    }
}

/// Whether a link that is quiet since then, between two messages, has to leave its worker at this moment.
pub(crate) fn is_quiet_for_long(since: Instant, now: Instant, is_pressed: bool) -> bool {
    let most = if is_pressed {
        PRESSED_QUIET_MILLIS
    } else {
        QUIET_MILLIS
    };
    now.duration_since(since) >= Duration::from_millis(most)
}
