//! A term whose gate counts how often it is told of a journal that is full, or more than half full after a call.

use crate::terms::case::Case;
use crate::terms::terms::{reported, serve};
use ss_links::Gate;
use std::alloc::Global;
use std::sync::Wait;
use std::sync::atomic::{AtomicU64, Ordering};
use std::thread::Threads;

/// Counts how often it is told of such a journal, and lets each link stay.
#[derive(Drop)]
struct Filling {
    told: AtomicU64,
}

impl Gate for Filling {
    ghost use Rattle.std.specs.Prelude.{⊤};

    ghost says = { λ gate worker turn closes. ⊤ };

    fn pass(&self, _worker: u32, _turn: u64) -> bool {
        false
    }

    fn fills(&self) {
        let _before = self.told.fetch_add(1, Ordering::SeqCst);
    }

    fn starves(&self) {}
}

/// What is told of such a term: how often its gate was told of such a journal, why the term ended, which accounts came
/// back, and its links.
pub fn filling_line<R: Threads + Wait + Sync>(
    rt: &R,
    alloc: Global,
    case: Case,
) -> anyhow::Result<String> {
    let gate = Filling {
        told: AtomicU64::new(0),
    };
    let ended = serve(rt, alloc, case, &gate)?;
    let times = gate.told.load(Ordering::SeqCst);
    let text = reported(alloc, &ended);
    drop(ended);
    Ok(format!(in alloc; "told {times} times, {}", text?)?)
}
