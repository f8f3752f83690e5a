//! A term of two workers, the first of which is held at its gate until the other one was answered.

use crate::terms::case::Case;
use crate::terms::terms::{Ended, lines, serve};
use ss_links::{Gate, MemLink};
use ss_serve::LinkReport;
use std::alloc::Global;
use std::sync::Wait;
use std::sync::atomic::{AtomicU64, Ordering};
use std::thread::{Threads, yield_now};

/// How often a worker that is held at the gate looks whether it may go on.
const LOOKS: u64 = 10_000_000;

/// Holds the first worker that comes until the other one was answered.
#[derive(Drop)]
struct Holding {
    comers: AtomicU64,
    answered: AtomicU64,
    late: AtomicU64,
}

impl Gate for Holding {
    ghost use Rattle.std.specs.Prelude.{⊤};

    ghost says = { λ gate worker turn closes. ⊤ };

    fn pass(&self, _worker: u32, turn: u64) -> bool {
        if turn > 0 {
            self.answered.store(1, Ordering::SeqCst);
            return false;
        }
        if self.comers.fetch_add(1, Ordering::SeqCst) > 0 {
            return false;
        }
        for _ in 0..LOOKS {
            if self.answered.load(Ordering::SeqCst) > 0 {
                return false;
            }
            yield_now();
        }
        self.late.store(1, Ordering::SeqCst);
        false
    }

    fn fills(&self) {}

    fn starves(&self) {}
}

/// The numbers of the workers that served links, from the least on.
fn workers(alloc: Global, reports: &[LinkReport<MemLink>]) -> anyhow::Result<String> {
    let mut numbers = Vec::new(alloc);
    for report in reports {
        numbers.push(report.worker)?;
    }
    numbers.sort()?;
    let mut text = String::new(alloc);
    for number in numbers.iter() {
        text.push_str(format!(in alloc; " {number}")?.as_str())?;
    }
    Ok(text)
}

/// What is told of a term that ended, where so many waited in vain.
fn reported(alloc: Global, ended: &Ended, late: u64) -> anyhow::Result<String> {
    let workers = workers(alloc, ended.links.as_slice())?;
    let lines = lines(alloc, ended.links.as_slice())?;
    Ok(format!(in alloc;
        "{:?}, {late} in vain, workers{workers}{lines}",
        ended.ended
    )?)
}

/// What is told of such a term: why it ended, how many waited in vain, and which workers served a link.
pub fn held_line<R: Threads + Wait + Sync>(
    rt: &R,
    alloc: Global,
    case: Case,
) -> anyhow::Result<String> {
    let gate = Holding {
        comers: AtomicU64::new(0),
        answered: AtomicU64::new(0),
        late: AtomicU64::new(0),
    };
    let ended = serve(rt, alloc, case, &gate)?;
    let text = reported(alloc, &ended, gate.late.load(Ordering::SeqCst));
    drop(ended);
    text
}
