//! All room that a term needs, taken before a link is accepted.

ghost use Rattle.std.specs.Prelude.{◌≡◌, ◌≤◌, ◌<◌, ◌+◌, [], IfOk, vec_capacity};
ghost use Rattle.crossbeam_channel.specs.Claims.{view, IsSeatAt};
ghost use Rattle.crossbeam_channel.specs.Ends.{sends_on, receives_on};
ghost use Rattle.ss_serve.specs.Tallies.{tally};
ghost use Rattle.ss_town.specs.Limits.{most_connections, most_workers};

use crate::channel::{Job, Links, Tally};
use crate::report::LinkReport;
use crate::worker::Worker;
use crossbeam_channel::{Pass, RuledReceiver, RuledSender, bounded_with};
use ss_desk::Journaled;
use ss_links::Closable;
use std::alloc::{AllocError, Global};

#[derive(Drop)]
pub(crate) struct Room<L: Closable + Drop, C, T: Journaled> {
    pub(crate) jobs: Vec<Worker<L, C, T>>,
    pub(crate) done: Vec<Worker<L, C, T>>,
    pub(crate) left: Vec<L>,
    pub(crate) reports: Vec<LinkReport<L>>,
    pub(crate) clocks: Vec<C>,
    pub(crate) sender: RuledSender<Job<L>, Tally, Links<L>>,
    pub(crate) receiver: RuledReceiver<Job<L>, Tally, Links<L>>,
    pub(crate) place: Pass<Job<L>, Tally>,
}

/// Room for so many workers and links, and a channel that holds them all and a stop for each worker.
pub(crate) fn room_for<L: Closable + Drop, C: Drop, T: Journaled>(
    alloc: Global,
    workers: usize,
    connections: usize,
) -> Result<Room<L, C, T>, AllocError>
    requires workers { (0 < workers) × (workers ≤ most_workers) }
    requires connections { connections ≤ most_connections }
    ensures jobs { IfOk result (λ r. (r.jobs.items ≡ []) × (workers ≤ vec_capacity r.jobs)) }
    ensures done { IfOk result (λ r. (r.done.items ≡ []) × (workers ≤ vec_capacity r.done)) }
    ensures left { IfOk result (λ r. (r.left.items ≡ []) × (connections ≤ vec_capacity r.left)) }
    ensures reports { IfOk result (λ r. (r.reports.items ≡ []) × (connections ≤ vec_capacity r.reports)) }
    ensures clocks { IfOk result (λ r. (r.clocks.items ≡ []) × (workers ≤ vec_capacity r.clocks)) }
    ensures channel { IfOk result (λ r. (receives_on r.receiver ≡ sends_on r.sender)
        × IsSeatAt (sends_on r.sender) r.place × (view r.place ≡ tally 32 0 0)) }
{
    let jobs = Vec::with_capacity(alloc, workers)?;
    let done = Vec::with_capacity(alloc, workers)?;
    let left = Vec::with_capacity(alloc, connections)?;
    let reports = Vec::with_capacity(alloc, connections)?;
    let clocks = Vec::with_capacity(alloc, workers)?;
    let (sender, receiver, place) = bounded_with::<Job<L>, Tally, Links<L>, Global>(
        alloc,
        connections + workers,
    )?;
    Ok(Room {
        jobs,
        done,
        left,
        reports,
        clocks,
        sender,
        receiver,
        place,
    })
}
