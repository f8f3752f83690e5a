//! Workers in threads of their own, beside the accepting of links.

ghost use Rattle.std.specs.Prelude.{◌≡◌, ◌≤◌, ◌<◌, ◌+◌, [], All, MatchOption, map, vec_len, vec_capacity};
ghost use denote.Param.Send.{IsSync};
ghost use Rattle.crossbeam_channel.specs.Claims.{view, IsSeatAt};
ghost use Rattle.crossbeam_channel.specs.Ends.{sends_on, receives_on};
ghost use Rattle.ss_serve.specs.Accepting.{HasCause, HasGiven, AreUnusedLinks};
ghost use Rattle.ss_town.specs.Town.{uids_of, desks_of};
ghost use Rattle.ss_serve.specs.Crew.{IsGatedWorker, IsReady, sign};

use crate::accept::{Stopped, accept_all};
use crate::channel::{Job, Links, Tally};
use crate::worker::{Worker, work};
use crossbeam_channel::{Pass, RuledReceiver, RuledSender};
use ss_booked::Booked;
use ss_desk::Journaled;
use ss_keeper::Keeper;
use ss_links::{Closable, Gate, Port};
use ss_outside::Clock;
use ss_town::Town;
use std::alloc::Global;
use std::sync::Wait;
use std::thread::{Threads, join, join_mut};

/// What the accepting thread has: its place at the channel, and the links that the channel did not take.
#[derive(Drop)]
pub(crate) struct Front<L: Drop> {
    pub(crate) place: Pass<Job<L>, Tally>,
    pub(crate) left: Vec<L>,
}

/// The workers that are to begin, and room for those that have returned.
#[derive(Drop)]
pub(crate) struct Crew<L, C, T: Journaled> {
    pub(crate) jobs: Vec<Worker<L, C, T>>,
    pub(crate) done: Vec<Worker<L, C, T>>,
}

// Each worker in a thread of its own, or where none can be made here, the first worker first.
fn serve_all<
    L: Closable + Drop + Send,
    C: Clock + Drop + Send,
    K: Keeper + Drop + Send,
    G: Gate + Sync,
    R: Threads + Wait + Sync,
>(
    rt: &R,
    alloc: Global,
    gate: &G,
    town: &Town<Booked<K>>,
    receiver: &RuledReceiver<Job<L>, Tally, Links<L>>,
    mut jobs: Vec<Worker<L, C, Booked<K>>>,
    done: Vec<Worker<L, C, Booked<K>>>,
) -> Vec<Worker<L, C, Booked<K>>>
    requires room { vec_len done + vec_len jobs ≤ vec_capacity done }
    requires none { done.items ≡ [] }
    requires jobs { All (λ w. IsReady L.Told.told L.closed C.coming (uids_of town.now) (desks_of town.now)
        (receives_on receiver.now) w) jobs.items }
    requires gated { All (IsGatedWorker (G.says gate.now)) jobs.items }
    ensures all { All (λ w. IsReady L.Told.told L.closed C.coming (uids_of town.now) (desks_of town.now)
        (receives_on receiver.now) w) result.items }
    ensures signs { map (sign C.coming) result.items ≡ map (sign C.coming) jobs.items }
    ensures len { vec_len result ≡ vec_len jobs }
    ensures room { vec_capacity result ≡ vec_capacity done }
    ensures gated { All (IsGatedWorker (G.says gate.now)) result.items }
{
    let Some(job) = jobs.pop() else {
        return done;
    };
    let (mine, mut rest) = join(
        rt,
        || -> Worker<L, C, Booked<K>>
            requires { IsReady L.Told.told L.closed C.coming (uids_of town.now) (desks_of town.now)
                (receives_on receiver.now) job × IsGatedWorker (G.says gate.now) job }
            ensures { IsReady L.Told.told L.closed C.coming (uids_of town.entry.now) (desks_of town.entry.now)
                (receives_on receiver.entry.now) result × (sign C.coming result ≡ sign C.coming job)
                × IsGatedWorker (G.says gate.entry.now) result }
        { work(rt, alloc, gate, town, receiver, job) },
        || -> Vec<Worker<L, C, Booked<K>>>
            requires { IsSync R.row × IsSync G.row × (vec_len done + vec_len jobs ≤ vec_capacity done)
                × (done.items ≡ []) × All (λ w. IsReady L.Told.told L.closed C.coming (uids_of town.now)
                (desks_of town.now) (receives_on receiver.now) w) jobs.items
                × All (IsGatedWorker (G.says gate.now)) jobs.items }
            ensures { All (λ w. IsReady L.Told.told L.closed C.coming (uids_of town.entry.now) (desks_of town.entry.now)
                (receives_on receiver.entry.now) w) result.items × (map (sign C.coming) result.items
                ≡ map (sign C.coming) jobs.items) × (vec_len result ≡ vec_len jobs)
                × (vec_capacity result ≡ vec_capacity done) × All (IsGatedWorker (G.says gate.entry.now)) result.items }
        { serve_all(rt, alloc, gate, town, receiver, jobs, done) },
    );
    rest.push_reserved(mine);
    rest
}

// Takes the workers that are to begin, and runs them.
fn begin<
    L: Closable + Drop + Send,
    C: Clock + Drop + Send,
    K: Keeper + Drop + Send,
    G: Gate + Sync,
    R: Threads + Wait + Sync,
>(
    rt: &R,
    alloc: Global,
    gate: &G,
    town: &Town<Booked<K>>,
    receiver: &RuledReceiver<Job<L>, Tally, Links<L>>,
    crew: &mut Option<Crew<L, C, Booked<K>>>,
) -> Vec<Worker<L, C, Booked<K>>>
    requires { MatchOption crew.old ⊥ (λ c. (vec_len c.done + vec_len c.jobs ≤ vec_capacity c.done)
        × (c.done.items ≡ []) × All (λ w. IsReady L.Told.told L.closed C.coming (uids_of town.now) (desks_of town.now)
        (receives_on receiver.now) w) c.jobs.items × All (IsGatedWorker (G.says gate.now)) c.jobs.items) }
    ensures { MatchOption crew.old ⊥ (λ c. All (λ w. IsReady L.Told.told L.closed C.coming (uids_of town.now)
        (desks_of town.now) (receives_on receiver.now) w) result.items
        × (map (sign C.coming) result.items ≡ map (sign C.coming) c.jobs.items)
        × All (IsGatedWorker (G.says gate.now)) result.items) }
{
    let Some(Crew { jobs, done }) = crew.take() else {
        unreachable!()
    };
    serve_all(rt, alloc, gate, town, receiver, jobs, done)
}

fn accept_in_front<L: Closable + Drop, P: Port<Link = L>, R: Wait>(
    rt: &R,
    port: &mut P,
    sender: &RuledSender<Job<L>, Tally, Links<L>>,
    front: &mut Front<L>,
    connections: u32,
    workers: usize,
) -> Stopped
    requires seat { IsSeatAt (sends_on sender.now) front.old.place }
    requires parts { 0 < (view front.old.place).parts }
    requires left { AreUnusedLinks L.Told.told front.old.left.items }
    requires room { vec_len front.old.left + connections ≤ vec_capacity front.old.left }
    ensures seat { IsSeatAt (sends_on sender.now) front.new.place }
    ensures parts { (view front.new.place).parts ≡ (view front.old.place).parts }
    ensures taken { (view front.new.place).taken ≡ (view front.old.place).taken }
    ensures given { HasGiven ((view front.old.place).put + vec_len front.old.left)
        ((view front.new.place).put + vec_len front.new.left) connections (P.counts port.old) (P.counts port.new) }
    ensures left { AreUnusedLinks L.Told.told front.new.left.items }
    ensures cause { HasCause result connections (P.counts port.old) (P.counts port.new) }
{
    accept_all(
        rt,
        port,
        sender,
        &mut front.place,
        &mut front.left,
        connections,
        workers,
    )
}

/// The workers in threads of their own, while this thread accepts links. Where no thread can be made links are accepted
/// first, and then this thread is each worker in turn.
pub(crate) fn run<
    L: Closable + Drop + Send,
    P: Port<Link = L>,
    C: Clock + Drop + Send,
    K: Keeper + Drop + Send,
    G: Gate + Sync,
    R: Threads + Wait + Sync,
>(
    rt: &R,
    alloc: Global,
    gate: &G,
    town: &Town<Booked<K>>,
    sender: &RuledSender<Job<L>, Tally, Links<L>>,
    receiver: &RuledReceiver<Job<L>, Tally, Links<L>>,
    port: &mut P,
    front: &mut Front<L>,
    connections: u32,
    workers: usize,
    crew: Crew<L, C, Booked<K>>,
) -> (Vec<Worker<L, C, Booked<K>>>, Stopped)
    requires seat { IsSeatAt (sends_on sender.now) front.old.place }
    requires parts { 0 < (view front.old.place).parts }
    requires left { AreUnusedLinks L.Told.told front.old.left.items }
    requires room { vec_len front.old.left + connections ≤ vec_capacity front.old.left }
    requires done { (vec_len crew.done + vec_len crew.jobs ≤ vec_capacity crew.done) × (crew.done.items ≡ []) }
    requires jobs { All (λ w. IsReady L.Told.told L.closed C.coming (uids_of town.now) (desks_of town.now)
        (receives_on receiver.now) w) crew.jobs.items }
    requires gated { All (IsGatedWorker (G.says gate.now)) crew.jobs.items }
    ensures seat { IsSeatAt (sends_on sender.now) front.new.place }
    ensures parts { (view front.new.place).parts ≡ (view front.old.place).parts }
    ensures taken { (view front.new.place).taken ≡ (view front.old.place).taken }
    ensures given { HasGiven ((view front.old.place).put + vec_len front.old.left)
        ((view front.new.place).put + vec_len front.new.left) connections (P.counts port.old) (P.counts port.new) }
    ensures left { AreUnusedLinks L.Told.told front.new.left.items }
    ensures cause { HasCause result.1 connections (P.counts port.old) (P.counts port.new) }
    ensures all { All (λ w. IsReady L.Told.told L.closed C.coming (uids_of town.now) (desks_of town.now)
        (receives_on receiver.now) w) result.0.items }
    ensures signs { map (sign C.coming) result.0.items ≡ map (sign C.coming) crew.jobs.items }
    ensures gated { All (IsGatedWorker (G.says gate.now)) result.0.items }
{
    let mut waiting = Some(crew);
    let mut first = move || -> Vec<Worker<L, C, Booked<K>>>
        requires { MatchOption waiting ⊥ (λ c. (vec_len c.done + vec_len c.jobs ≤ vec_capacity c.done)
            × (c.done.items ≡ []) × All (λ w. IsReady L.Told.told L.closed C.coming (uids_of town.now)
            (desks_of town.now) (receives_on receiver.now) w) c.jobs.items
            × All (IsGatedWorker (G.says gate.now)) c.jobs.items) }
        ensures { MatchOption waiting.entry ⊥ (λ c. All (λ w. IsReady L.Told.told L.closed C.coming
            (uids_of town.entry.now) (desks_of town.entry.now) (receives_on receiver.entry.now) w) result.items
            × (map (sign C.coming) result.items ≡ map (sign C.coming) c.jobs.items)
            × All (IsGatedWorker (G.says gate.entry.now)) result.items) }
    { begin(rt, alloc, gate, town, receiver, &mut waiting) };
    join_mut(
        rt,
        &mut first,
        &mut || -> Stopped
            requires { IsSeatAt (sends_on sender.now) front.now.place × (0 < (view front.now.place).parts)
                × AreUnusedLinks L.Told.told front.now.left.items × (vec_len front.now.left + connections
                ≤ vec_capacity front.now.left) }
            ensures { IsSeatAt (sends_on sender.entry.now) front.exit.now.place
                × ((view front.exit.now.place).parts ≡ (view front.entry.now.place).parts)
                × ((view front.exit.now.place).taken ≡ (view front.entry.now.place).taken)
                × HasGiven ((view front.entry.now.place).put + vec_len front.entry.now.left)
                ((view front.exit.now.place).put + vec_len front.exit.now.left) connections (P.counts port.entry.now)
                (P.counts port.exit.now) × AreUnusedLinks L.Told.told front.exit.now.left.items
                × HasCause result connections (P.counts port.entry.now) (P.counts port.exit.now) }
        { accept_in_front(rt, port, sender, front, connections, workers) },
    )
}
