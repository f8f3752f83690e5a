//! What the port, the links and the gate of a server know of each other.

use crate::notice::Notice;
use std::sync::atomic::{AtomicBool, AtomicU64, Ordering};
use std::time::Clock;

// Between two accepts of a term there are microseconds. Where the port wasn't asked for so many milliseconds, the term
// had its number of links, and is to end.
const AWAY_MILLIS: u64 = 75;

// Where links wait for so many milliseconds and no worker has one, the term is to end: no thread of a worker lives
// then, and the one that accepts is to serve them.
const UNSERVED_MILLIS: u64 = 250;

// In the place of a moment: the port is asked for a link right now, or wasn't asked yet.
const PRESENT: u64 = u64::MAX;

/// What the port, the links and the gate of a server know of each other: whether others wait for a worker, so that who
/// has one must leave it soon. No contract speaks of it. One value serves one port.
#[derive(Drop)]
pub struct Traffic {
    // Links that the port gave, and that no worker has read from yet.
    unread: AtomicU64,
    // Links that a worker has read from, and that aren't closed yet.
    served: AtomicU64,
    // When a link was last closed, or given as the only unread one, in milliseconds of the system's clock.
    moved_at: AtomicU64,
    is_rest_wanted: AtomicBool,
    // When the port was last left by who asked it for a link, in milliseconds of the system's clock.
    left_at: AtomicU64,
    no_descriptors: Notice,
    no_memory: Notice,
    no_worker: Notice,
}

// Milliseconds of the system's clock; 0 where it can't be read.
fn millis(clock: &impl Clock) -> u64 {
    match clock.monotonic() {
        Ok(now) => u64::try_from(now.as_millis()).unwrap_or(u64::MAX),
        Err(_) => 0,
    }
}

impl Traffic {
    /// Nobody waits.
    pub fn new() -> Traffic {
        Traffic {
            unread: AtomicU64::new(0),
            served: AtomicU64::new(0),
            moved_at: AtomicU64::new(0),
            is_rest_wanted: AtomicBool::new(false),
            left_at: AtomicU64::new(PRESENT),
            no_descriptors: Notice::new(
                b"syncstore: no descriptor or no memory was left for a new connection; silent ones are closed for it\n",
            ),
            no_memory: Notice::new(
                b"syncstore: no memory was left for a connection, so it was closed unanswered\n",
            ),
            no_worker: Notice::new(
                b"syncstore: no worker takes connections, so they are answered one by one: can threads be started?\n",
            ),
        }
    }

    /// Whether others wait: a link was given that no worker has read from yet, or the term is to end.
    pub(crate) fn is_pressed(&self, clock: &impl Clock) -> bool {
        self.unread.load(Ordering::SeqCst) != 0
            || self.is_rest_wanted()
            || self.was_left_for_long(clock)
    }

    /// Whether a rest is wanted: the end of this term.
    pub(crate) fn is_rest_wanted(&self) -> bool {
        self.is_rest_wanted.load(Ordering::SeqCst)
    }

    /// Wants a rest.
    pub(crate) fn want_rest(&self) {
        self.is_rest_wanted.store(true, Ordering::SeqCst);
    }

    /// The port is asked for a link. Where a term begins so, the last one's wish for a rest is over.
    pub(crate) fn enter(&self, clock: &impl Clock, has_rested: bool) {
        if has_rested || self.was_left_for_long(clock) {
            self.is_rest_wanted.store(false, Ordering::SeqCst);
        }
        self.left_at.store(PRESENT, Ordering::SeqCst);
    }

    /// The port has answered.
    pub(crate) fn leave(&self, clock: &impl Clock) {
        self.left_at.store(millis(clock), Ordering::SeqCst);
    }

    // Whether nobody asked the port for so long that its term is to end.
    fn was_left_for_long(&self, clock: &impl Clock) -> bool {
        let left_at = self.left_at.load(Ordering::SeqCst);
        left_at != PRESENT && millis(clock).saturating_sub(left_at) >= AWAY_MILLIS
    }

    /// A link was given.
    pub(crate) fn give(&self, clock: &impl Clock) {
        if self.unread.fetch_add(1, Ordering::SeqCst) == 0 {
            self.note_move(clock);
        }
    }

    /// A link that was given is read for the first time.
    pub(crate) fn serve(&self) {
        self.served.fetch_add(1, Ordering::SeqCst);
        self.unread.fetch_sub(1, Ordering::SeqCst);
    }

    /// A link that was read is closed.
    pub(crate) fn let_go(&self, clock: &impl Clock) {
        self.note_move(clock);
        self.served.fetch_sub(1, Ordering::SeqCst);
    }

    /// A link that was given is closed unread.
    pub(crate) fn turn_away(&self, clock: &impl Clock) {
        self.note_move(clock);
        self.unread.fetch_sub(1, Ordering::SeqCst);
    }

    fn note_move(&self, clock: &impl Clock) {
        self.moved_at.store(millis(clock), Ordering::SeqCst);
    }

    /// Whether links wait that nobody serves: for a quarter of a second no worker has had a link. Where workers live
    /// they take what waits at once, and one that is busy has a link.
    pub(crate) fn is_unserved(&self, clock: &impl Clock) -> bool {
        self.unread.load(Ordering::SeqCst) != 0
            && self.served.load(Ordering::SeqCst) == 0
            && millis(clock).saturating_sub(self.moved_at.load(Ordering::SeqCst)) >= UNSERVED_MILLIS
    }

    /// Says that descriptors are wanting, or memory for a socket.
    pub(crate) fn tell_no_descriptors(&self, clock: &impl Clock) {
        self.no_descriptors.say(clock);
    }

    /// Says that memory is wanting at links.
    pub(crate) fn tell_no_memory(&self, clock: &impl Clock) {
        self.no_memory.say(clock);
    }

    /// Says that no worker takes links.
    pub(crate) fn tell_no_worker(&self, clock: &impl Clock) {
        self.no_worker.say(clock);
    }
}
