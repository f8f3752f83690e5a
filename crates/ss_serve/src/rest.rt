//! Links that no worker took.

ghost use Rattle.std.specs.Prelude.{◌≡◌, ◌≤◌, ◌<◌, ◌+◌, All, map, length, vec_len, vec_capacity};
ghost use Rattle.crossbeam_channel.specs.Claims.{view, IsSeatAt};
ghost use Rattle.crossbeam_channel.specs.Ends.{receives_on};
ghost use Rattle.ss_serve.specs.Accepting.{AreUnusedLinks};
ghost use Rattle.ss_town.specs.Town.{uids_of, desks_of};
ghost use Rattle.ss_serve.specs.Crew.{HasWorked, IsGatedWorker, sign, count_reports};

use crate::channel::{Job, Links, Take, Tally};
use crate::worker::{Worker, serve_one};
use crossbeam_channel::{Pass, RuledReceiver};
use ss_booked::Booked;
use ss_keeper::Keeper;
use ss_links::{Closable, Gate};
use ss_outside::Clock;
use ss_town::Town;
use std::alloc::Global;
use std::sync::Wait;

// Serves the links that are left in the channel, with this worker. All that was put has then been taken.
fn serve_rest<L: Closable + Drop, C: Clock + Drop, K: Keeper + Drop, G: Gate, R: Wait>(
    rt: &R,
    alloc: Global,
    gate: &G,
    town: &Town<Booked<K>>,
    receiver: &RuledReceiver<Job<L>, Tally, Links<L>>,
    place: &mut Pass<Job<L>, Tally>,
    worker: &mut Worker<L, C, Booked<K>>,
)
    requires seat { IsSeatAt (receives_on receiver.now) place.old }
    requires whole { (view place.old).parts ≡ 32 }
    requires worked { HasWorked L.Told.told L.closed C.coming (uids_of town.now) (desks_of town.now) worker.old }
    requires gated { IsGatedWorker (G.says gate.now) worker.old }
    requires room { (view place.old).put + vec_len worker.old.reports ≤ vec_capacity worker.old.reports +
        (view place.old).taken }
    ensures worked { HasWorked L.Told.told L.closed C.coming (uids_of town.now) (desks_of town.now) worker.new }
    ensures sign { sign C.coming worker.new ≡ sign C.coming worker.old }
    ensures gated { IsGatedWorker (G.says gate.now) worker.new }
    ensures count { vec_len worker.new.reports + (view place.old).taken
        ≡ vec_len worker.old.reports + (view place.old).put }
{
    for _ in rt.forever() {
        match receiver.try_recv_as::<Take<L>, R>(rt, place) {
            Ok(Job::Link(link)) => serve_one(rt, alloc, gate, town, worker, link),
            Ok(Job::Stop) => {}
            Err(_) => return,
        }
    }
    unreachable!()
}

// Serves the links that the channel did not take.
fn serve_left<L: Closable + Drop, C: Clock + Drop, K: Keeper + Drop, G: Gate, R: Wait>(
    rt: &R,
    alloc: Global,
    gate: &G,
    town: &Town<Booked<K>>,
    worker: &mut Worker<L, C, Booked<K>>,
    mut left: Vec<L>,
)
    requires worked { HasWorked L.Told.told L.closed C.coming (uids_of town.now) (desks_of town.now) worker.old }
    requires gated { IsGatedWorker (G.says gate.now) worker.old }
    requires unused { AreUnusedLinks L.Told.told left.items }
    requires room { vec_len left + vec_len worker.old.reports ≤ vec_capacity worker.old.reports }
    ensures worked { HasWorked L.Told.told L.closed C.coming (uids_of town.now) (desks_of town.now) worker.new }
    ensures sign { sign C.coming worker.new ≡ sign C.coming worker.old }
    ensures gated { IsGatedWorker (G.says gate.now) worker.new }
    ensures count { vec_len worker.new.reports ≡ vec_len worker.old.reports + vec_len left }
{
    while let Some(link) = left.pop() {
        serve_one(rt, alloc, gate, town, worker, link);
    }
}

/// Serves with the first worker what no worker took.
pub(crate) fn serve_all_left<
    L: Closable + Drop,
    C: Clock + Drop,
    K: Keeper + Drop,
    G: Gate,
    R: Wait,
>(
    rt: &R,
    alloc: Global,
    gate: &G,
    town: &Town<Booked<K>>,
    receiver: &RuledReceiver<Job<L>, Tally, Links<L>>,
    place: &mut Pass<Job<L>, Tally>,
    left: Vec<L>,
    connections: u32,
    crew: &mut Vec<Worker<L, C, Booked<K>>>,
)
    requires seat { IsSeatAt (receives_on receiver.now) place.old }
    requires whole { (view place.old).parts ≡ 32 }
    requires some { 0 < length crew.old.items }
    requires worked { All (λ w. HasWorked L.Told.told L.closed C.coming (uids_of town.now) (desks_of town.now) w)
        crew.old.items }
    requires gated { All (IsGatedWorker (G.says gate.now)) crew.old.items }
    requires least { All (λ w. connections ≤ vec_capacity w.reports) crew.old.items }
    requires taken { (view place.old).taken ≡ count_reports crew.old.items }
    requires room { (view place.old).put + vec_len left ≤ connections }
    requires unused { AreUnusedLinks L.Told.told left.items }
    ensures worked { All (λ w. HasWorked L.Told.told L.closed C.coming (uids_of town.now) (desks_of town.now) w)
        crew.new.items }
    ensures signs { map (sign C.coming) crew.new.items ≡ map (sign C.coming) crew.old.items }
    ensures gated { All (IsGatedWorker (G.says gate.now)) crew.new.items }
    ensures count { count_reports crew.new.items ≡ (view place.old).put + vec_len left }
{
    let worker = &mut crew[0];
    serve_rest(rt, alloc, gate, town, receiver, place, worker);
    serve_left(rt, alloc, gate, town, worker, left);
}
