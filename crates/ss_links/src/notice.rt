//! Short texts for people that are said now and then.

use std::sync::atomic::{AtomicU64, Ordering};
use std::time::Clock;

// At most once in so many seconds.
const SECONDS_BETWEEN: u64 = 60;

/// A fixed text for people, which is written to standard error at most once a minute. It takes no memory.
#[derive(Drop)]
pub(crate) struct Notice {
    text: &'static [u8],
    // The second of the system's clock from which on it may be said again.
    again: AtomicU64,
}

impl Notice {
    pub(crate) fn new(text: &'static [u8]) -> Notice {
        Notice {
            text,
            again: AtomicU64::new(0),
        }
    }

    /// Says it, unless it was said within the last minute. A text that can't be written is passed over.
    pub(crate) fn say(&self, clock: &impl Clock) {
        let Ok(now) = clock.monotonic() else {
            return;
        };
        let again = self.again.load(Ordering::SeqCst);
        let next = now.as_secs().saturating_add(SECONDS_BETWEEN);
        if now.as_secs() >= again && self.claims(again, next) {
            let _ = libc::write(libc::STDERR_FILENO, self.text);
        }
    }

    // Whether this thread is the one that says it.
    fn claims(&self, again: u64, next: u64) -> bool {
        self.again
            .compare_exchange(again, next, Ordering::SeqCst, Ordering::SeqCst)
            .is_ok()
    }
}
