// How a caller waits until its ticket is served: it looks for a while, and then it sleeps. How long it looks depends on how the
// callers before it fared: looks that end in a sleep cost processor time for nothing. No clause speaks of it.
use std::hint::spin_loop;
use std::sync::Wait;
use std::sync::atomic::{AtomicU64, Ordering};
use std::thread::yield_now;

// How often a caller looks before it leaves the processor to others between two looks.
const SPINS: u32 = 64;

// How often it looks before it sleeps where turns are short.
const LOOKS: u32 = 80;

// How often it looks where the callers before it slept all the same.
const FEW_LOOKS: u32 = 4;

// After how many sleeps in a row callers look but a few times.
const NAPS: u64 = 8;

// One caller of so many looks for long in any case, so that the desk learns when turns become short again.
const PROBES: u64 = 16;

// At how many bells the callers of one desk sleep, so that the end of a turn mostly wakes the next caller alone.
const BELLS: u64 = 8;

/// Where callers sleep whose tickets leave the same remainder.
#[derive(Drop)]
struct Bell {
    // How often it was rung.
    rings: AtomicU64,
    // The callers that sleep, or are about to look for a last time before they sleep.
    sleepers: AtomicU64,
}

impl Bell {
    fn new() -> Bell {
        Bell {
            rings: AtomicU64::new(0),
            sleepers: AtomicU64::new(0),
        }
    }
}

/// The bells of a desk. Each ticket has one.
#[derive(Drop)]
pub(crate) struct Bells {
    bells: [Bell; 8],

    // How many callers that looked slept all the same, one after the other: up to NAPS.
    naps: AtomicU64,
}

impl Bells {
    pub(crate) fn new() -> Bells {
        Bells {
            bells: [
                Bell::new(),
                Bell::new(),
                Bell::new(),
                Bell::new(),
                Bell::new(),
                Bell::new(),
                Bell::new(),
                Bell::new(),
            ],
            naps: AtomicU64::new(0),
        }
    }

    /// A caller with this ticket that has not looked yet.
    pub(crate) fn waiter(&self, ticket: u64) -> Waiter<'_> {
        Waiter {
            bell: &self.bells[(ticket % BELLS) as usize],
            naps: &self.naps,
            most: self.looks(ticket),
            looks: 0,
            sleeps: false,
        }
    }

    // How often the caller with this ticket looks before it sleeps.
    fn looks(&self, ticket: u64) -> u32 {
        if ticket % PROBES == 0 || self.naps.load(Ordering::Relaxed) < NAPS {
            LOOKS
        } else {
            FEW_LOOKS
        }
    }

    /// Wakes the caller with this ticket, if it sleeps. It is called once the ticket is served: a caller counts itself
    /// among the sleepers before its last look, so either that look sees that it is served, or it is counted here.
    pub(crate) fn ring(&self, ticket: u64) {
        let bell = &self.bells[(ticket % BELLS) as usize];
        if bell.sleepers.load(Ordering::SeqCst) > 0 {
            bell.rings.fetch_add(1, Ordering::SeqCst);
            bell.rings.wake_all();
        }
    }
}

/// A caller that waits for its turn.
#[derive(Drop)]
pub(crate) struct Waiter<'a> {
    bell: &'a Bell,
    naps: &'a AtomicU64,

    // How often it looks before it sleeps.
    most: u32,
    looks: u32,

    // Whether it is counted among the sleepers.
    sleeps: bool,
}

impl Waiter<'_> {
    /// The rings of its bell, to be read before a look. Where it was rung since, the pause after that look is none.
    pub(crate) fn rings(&self) -> u32 {
        (self.bell.rings.load(Ordering::SeqCst) & 0xffff_ffff) as u32
    }

    /// What a caller does between two looks.
    pub(crate) fn pause<R: Wait>(&mut self, rt: &R, rings: u32) {
        if self.sleeps {
            self.bell.rings.park(rt, rings);
        } else if self.looks >= self.most {
            self.bell.sleepers.fetch_add(1, Ordering::SeqCst);
            self.sleeps = true;
        } else {
            if self.looks < SPINS {
                spin_loop();
            } else {
                yield_now();
            }
            self.looks += 1;
        }
    }

    /// The last look saw that the ticket is served.
    pub(crate) fn end(self) {
        if self.sleeps {
            self.bell.sleepers.fetch_sub(1, Ordering::SeqCst);
            let naps = self.naps.load(Ordering::Relaxed);
            if naps < NAPS {
                self.naps.store(naps + 1, Ordering::Relaxed);
            }
        } else if self.looks > 0 {
            self.naps.store(0, Ordering::Relaxed);
        }
    }
}
