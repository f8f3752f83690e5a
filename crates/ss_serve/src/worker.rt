//! A worker: its passes, its manner of reading conditions, its clock, its place at the channel, and its reports.

ghost use Rattle.std.specs.Prelude.{◌≡◌, ◌<◌, ◌+◌, vec_len, vec_capacity};
ghost use Rattle.crossbeam_channel.specs.Ends.{receives_on};
ghost use Rattle.ss_links.specs.Links.{IsUnusedLink};
ghost use Rattle.ss_town.specs.Town.{uids_of, desks_of};
ghost use Rattle.ss_serve.specs.Crew.{HasWorked, IsGatedWorker, IsReady, sign};

use crate::channel::{Job, Links, Take, Tally};
use crate::report::LinkReport;
use crossbeam_channel::{Pass, RuledReceiver};
use ss_booked::Booked;
use ss_connection::{End, serve_connection};
use ss_desk::Journaled;
use ss_keeper::Keeper;
use ss_links::{Closable, Gate};
use ss_outside::Clock;
use ss_route::Manner;
use ss_town::{Passes, Town};
use std::alloc::Global;
use std::snapshot::Snapshot;
use std::sync::Wait;

#[derive(Drop)]
pub(crate) struct Worker<L, C, T: Journaled> {
    pub(crate) number: u32,
    // How it reads conditions.
    pub(crate) manner: Manner,
    pub(crate) clock: C,
    // The clock as it was at first, for the proofs.
    pub(crate) start: Snapshot<C>,
    pub(crate) passes: Passes<T>,
    pub(crate) reports: Vec<LinkReport<L>>,
    pub(crate) place: Pass<Job<L>, Tally>,
}

/// Serves one link, closes it and reports it. Before each response the worker asks this gate, by its own number.
pub(crate) fn serve_one<L: Closable + Drop, C: Clock + Drop, K: Keeper + Drop, G: Gate, R: Wait>(
    rt: &R,
    alloc: Global,
    gate: &G,
    town: &Town<Booked<K>>,
    worker: &mut Worker<L, C, Booked<K>>,
    mut link: L,
)
    requires worked { HasWorked L.Told.told L.closed C.coming (uids_of town.now) (desks_of town.now) worker.old }
    requires unused { IsUnusedLink (L.Told.told link) }
    requires room { vec_len worker.old.reports < vec_capacity worker.old.reports }
    requires gated { IsGatedWorker (G.says gate.now) worker.old }
    ensures worked { HasWorked L.Told.told L.closed C.coming (uids_of town.now) (desks_of town.now) worker.new }
    ensures more { vec_len worker.new.reports ≡ vec_len worker.old.reports + 1 }
    ensures place { worker.new.place ≡ worker.old.place }
    ensures sign { sign C.coming worker.new ≡ sign C.coming worker.old }
    ensures gated { IsGatedWorker (G.says gate.now) worker.new }
{
    let mut turns = Vec::new(alloc);
    let end = serve_connection(
        rt,
        alloc,
        worker.manner,
        &mut link,
        &mut worker.clock,
        gate,
        worker.number,
        town,
        &mut worker.passes,
        &mut turns,
    );
    if let End::Memory = end {
        gate.starves();
    }
    link.close();
    worker.reports.push_reserved(LinkReport {
        worker: worker.number,
        link,
        turns,
        end,
    });
}

/// Serves links until it is told to stop, or has no room for a report.
pub(crate) fn work<L: Closable + Drop, C: Clock + Drop, K: Keeper + Drop, G: Gate, R: Wait>(
    rt: &R,
    alloc: Global,
    gate: &G,
    town: &Town<Booked<K>>,
    receiver: &RuledReceiver<Job<L>, Tally, Links<L>>,
    mut worker: Worker<L, C, Booked<K>>,
) -> Worker<L, C, Booked<K>>
    requires ready { IsReady L.Told.told L.closed C.coming (uids_of town.now) (desks_of town.now)
        (receives_on receiver.now) worker }
    requires gated { IsGatedWorker (G.says gate.now) worker }
    ensures ready { IsReady L.Told.told L.closed C.coming (uids_of town.now) (desks_of town.now)
        (receives_on receiver.now) result }
    ensures sign { sign C.coming result ≡ sign C.coming worker }
    ensures gated { IsGatedWorker (G.says gate.now) result }
{
    for _ in rt.forever() {
        if worker.reports.len() >= worker.reports.capacity() {
            return worker;
        }
        match receiver.recv_as::<Take<L>, R>(rt, &mut worker.place) {
            Ok(Job::Link(link)) => serve_one(rt, alloc, gate, town, &mut worker, link),
            Ok(Job::Stop) => return worker,
            Err(_) => return worker,
        }
    }
    unreachable!()
}
