//! A term: several workers over several accounts, until the port or the number of links ends it.

ghost use Rattle.std.specs.Prelude.{◌≡◌, ◌≤◌, ◌<◌, ◌+◌, ◌++◌, ℕ, [], All, map, length, vec_len, vec_capacity};
ghost use Rattle.crossbeam_channel.specs.Claims.{view, IsSeatAt};
ghost use Rattle.crossbeam_channel.specs.Ends.{sends_on, receives_on};
ghost use Rattle.ss_desk.specs.Passes.{AreOf, view_at};
ghost use Rattle.ss_links.specs.Counts.{RoseBy as GivenBy};
ghost use Rattle.ss_links.specs.Ports.{Accepts};
ghost use Rattle.ss_serve.specs.Accepting.{HasCause, HasGiven};
ghost use Rattle.ss_town.specs.Town.{uids_of, desks_of, passes_of};
ghost use Rattle.ss_town.specs.Opening.{AreBare};
ghost use Rattle.ss_booked.specs.Booked.{account_of, journal_of, terms_of};
ghost use Rattle.ss_route.specs.declared.manner.Manner.{Manner};
ghost use Rattle.ss_serve.specs.Crew.{AreHalvedPasses, AreHandedBack, Have, HasWorked, IsGatedWorker, IsReady, IsWhole};
ghost use Rattle.ss_serve.specs.Crew.{count_reports};
ghost use Rattle.ss_serve.specs.Crew.{sign, starts};
ghost use Rattle.ss_serve.specs.Gathering.{reports_in};
ghost use Rattle.ss_serve.specs.Reports.{AreAllGated};
ghost use Rattle.ss_serve.specs.Tallies.{tally};
ghost use Rattle.ss_serve.specs.Terms.{TermSays, FullSays, HasEnded, AreServedAccounts};
ghost use Rattle.ss_serve.specs.Fullness.{IsOpenStop, FullKind};
ghost use Rattle.ss_town.specs.Limits.{most_connections, most_workers};

use crate::accept::Stopped;
use crate::channel::{Job, Links, Tally};
use crate::crew::{lay_all_down, recruit_all};
use crate::ending::{finish, move_all};
use crate::fullness::smallest_full;
use crate::report::{LinkReport, TermStop};
use crate::rest::serve_all_left;
use crate::room::{Room, room_for};
use crate::threads::{Crew, Front, run};
use crate::worker::Worker;
use crossbeam_channel::{RuledReceiver, RuledSender};
use ss_booked::Booked;
use ss_keeper::Keeper;
use ss_links::{Closable, Gate, Port};
use ss_outside::Clock;
use ss_route::Manner;
use ss_town::{Passes, Town};
use std::alloc::Global;
use std::sync::Wait;
use std::thread::Threads;

/// What a term hands back.
#[derive(Drop)]
pub struct TermEnd<L, C, K: Keeper> {
    /// The accounts, in the order of their uids, with the journals of what was asked of them.
    pub accounts: Vec<(u32, Booked<K>)>,

    /// A report for each link that the port gave. Those of one worker stand in its own order.
    pub links: Vec<LinkReport<L>>,

    /// The clocks, in the order in which they were given.
    pub clocks: Vec<C>,

    /// Why the term ended.
    pub ended: TermStop,
}

// Why a term ended, by why no more links were accepted, and by the account that was full.
fn stop_of(stopped: Stopped, full: Option<u32>) -> TermStop
    ensures open { IsOpenStop result }
    ensures cause { (n : ℕ) (old new : Accepts) → HasCause stopped n old new → HasEnded result n old new }
    ensures full { FullKind full result }
{
    match stopped {
        Stopped::Port => TermStop::Port,
        Stopped::Memory => TermStop::Memory,
        Stopped::PortEnded => match full {
            Some(uid) => TermStop::Full { uid },
            None => TermStop::PortEnded,
        },
        Stopped::Rested => match full {
            Some(uid) => TermStop::Full { uid },
            None => TermStop::Rested,
        },
        Stopped::Connections => match full {
            Some(uid) => TermStop::Full { uid },
            None => TermStop::Connections,
        },
    }
}

// Nothing was served, for want of memory.
fn end_unserved<L: Closable + Drop, C: Clock + Drop, K: Keeper + Drop>(
    alloc: Global,
    town: Town<Booked<K>>,
    passes: Passes<Booked<K>>,
    clocks: Vec<C>,
) -> TermEnd<L, C, K>
    requires of { AreOf (desks_of town) (passes_of passes) }
    requires start { AreHalvedPasses 0 (passes_of passes) (passes_of passes) }
    ensures handed { AreHandedBack (λ b. terms_of K.keep_faults b) (uids_of town) (passes_of passes) result.accounts.items }
    ensures served { (manner : Manner) → AreServedAccounts (λ b. terms_of K.keep_faults b) (λ b. (journal_of b).entries)
        (λ b. K.keep_faults (account_of b).keeper) manner L.Told.told L.closed
        result.accounts.items result.links.items (map C.coming clocks.items) (map C.coming result.clocks.items) }
    ensures none { result.links.items ≡ [] }
    ensures ended { result.ended ≡ TermStop.Memory }
{
    let crew = Vec::<Worker<L, C, Booked<K>>>::new(alloc);
    let (accounts, links, _) = finish(town, passes, crew, Vec::new(alloc), Vec::new(alloc));
    TermEnd {
        accounts,
        links,
        clocks,
        ended: TermStop::Memory,
    }
}

// Not every worker could be made, for want of memory. The clocks of the others come behind those of the workers.
fn end_early<L: Closable + Drop, C: Clock + Drop, K: Keeper + Drop>(
    town: Town<Booked<K>>,
    passes: Passes<Booked<K>>,
    crew: Vec<Worker<L, C, Booked<K>>>,
    reports: Vec<LinkReport<L>>,
    served: Vec<C>,
    others: Vec<C>,
) -> TermEnd<L, C, K>
    requires of { AreOf (desks_of town) (passes_of passes) }
    requires crew { Have L.Told.told L.closed C.coming (uids_of town) (desks_of town) (passes_of passes) crew.items }
    requires whole { (i : ℕ) → i < length (uids_of town) → IsWhole (length crew.items) (view_at (passes_of passes) i) }
    requires few { length crew.items ≤ most_workers }
    requires none { (reports.items ≡ []) × (served.items ≡ []) }
    requires unserved { count_reports crew.items ≡ 0 }
    requires room { vec_len crew + vec_len others ≤ vec_capacity served }
    ensures handed { AreHandedBack (λ b. terms_of K.keep_faults b) (uids_of town) (passes_of passes) result.accounts.items }
    ensures served { (manner : Manner) → All (λ w. w.manner ≡ manner) crew.items
        → AreServedAccounts (λ b. terms_of K.keep_faults b) (λ b. (journal_of b).entries)
        (λ b. K.keep_faults (account_of b).keeper) manner L.Told.told L.closed
        result.accounts.items result.links.items (starts (map (sign C.coming) crew.items) ++ map C.coming others.items) (map C.coming result.clocks.items) }
    ensures none { length result.links.items ≡ 0 }
    ensures ended { result.ended ≡ TermStop.Memory }
{
    let (accounts, links, mut clocks) = finish(town, passes, crew, reports, served);
    move_all(others, &mut clocks);
    TermEnd {
        accounts,
        links,
        clocks,
        ended: TermStop::Memory,
    }
}

// All workers have returned, and all links were served.
fn end_served<L: Closable + Drop, C: Clock + Drop, K: Keeper + Drop>(
    town: Town<Booked<K>>,
    passes: Passes<Booked<K>>,
    crew: Vec<Worker<L, C, Booked<K>>>,
    reports: Vec<LinkReport<L>>,
    clocks: Vec<C>,
    stopped: Stopped,
) -> TermEnd<L, C, K>
    requires of { AreOf (desks_of town) (passes_of passes) }
    requires one { (manner : Manner) × All (λ w. w.manner ≡ manner) crew.items }
    requires crew { Have L.Told.told L.closed C.coming (uids_of town) (desks_of town) (passes_of passes) crew.items }
    requires whole { (i : ℕ) → i < length (uids_of town) → IsWhole (length crew.items) (view_at (passes_of passes) i) }
    requires few { length crew.items ≤ most_workers }
    requires none { (reports.items ≡ []) × (clocks.items ≡ []) }
    requires room { count_reports crew.items ≤ vec_capacity reports }
    requires clocks { vec_len crew ≤ vec_capacity clocks }
    ensures handed { AreHandedBack (λ b. terms_of K.keep_faults b) (uids_of town) (passes_of passes) result.accounts.items }
    ensures served { (manner : Manner) → All (λ w. w.manner ≡ manner) crew.items
        → AreServedAccounts (λ b. terms_of K.keep_faults b) (λ b. (journal_of b).entries)
        (λ b. K.keep_faults (account_of b).keeper) manner L.Told.told L.closed
        result.accounts.items result.links.items (starts (map (sign C.coming) crew.items)) (map C.coming result.clocks.items) }
    ensures reports { result.links.items ≡ reports_in crew.items }
    ensures count { length result.links.items ≡ count_reports crew.items }
    ensures open { IsOpenStop result.ended }
    ensures full { FullSays (λ b. terms_of K.keep_faults b) (λ b. (journal_of b).entries) result.accounts.items
        result.links.items result.ended }
    ensures cause { (n : ℕ) (old new : Accepts) → HasCause stopped n old new → HasEnded result.ended n old new }
{
    let (accounts, links, clocks) = finish(town, passes, crew, reports, clocks);
    let full = smallest_full(accounts.as_slice(), links.as_slice());
    TermEnd {
        accounts,
        links,
        clocks,
        ended: stop_of(stopped, full),
    }
}

// Serves the links of the port by these workers, all of them, and those that no worker took by the first one.
fn serve_links<
    L: Closable + Drop + Send,
    P: Port<Link = L>,
    C: Clock + Drop + Send,
    K: Keeper + Drop + Send,
    G: Gate + Sync,
    R: Threads + Wait + Sync,
>(
    rt: &R,
    alloc: Global,
    gate: &G,
    town: &Town<Booked<K>>,
    sender: &RuledSender<Job<L>, Tally, Links<L>>,
    receiver: &RuledReceiver<Job<L>, Tally, Links<L>>,
    port: &mut P,
    mut front: Front<L>,
    connections: u32,
    crew: Crew<L, C, Booked<K>>,
) -> (Vec<Worker<L, C, Booked<K>>>, Stopped)
    requires channel { receives_on receiver.now ≡ sends_on sender.now }
    requires seat { IsSeatAt (sends_on sender.now) front.place }
    requires parts { (view front.place).parts + length crew.jobs.items ≡ 32 }
    requires idle { ((view front.place).put ≡ 0) × ((view front.place).taken ≡ 0) }
    requires left { front.left.items ≡ [] }
    requires room { connections ≤ vec_capacity front.left }
    requires done { (vec_len crew.done + vec_len crew.jobs ≤ vec_capacity crew.done) × (crew.done.items ≡ []) }
    requires some { (0 < length crew.jobs.items) × (length crew.jobs.items ≤ most_workers) }
    requires jobs { All (λ w. IsReady L.Told.told L.closed C.coming (uids_of town.now) (desks_of town.now)
        (sends_on sender.now) w) crew.jobs.items }
    requires least { All (λ w. connections ≤ vec_capacity w.reports) crew.jobs.items }
    requires gated { All (IsGatedWorker (G.says gate.now)) crew.jobs.items }
    ensures worked { All (λ w. HasWorked L.Told.told L.closed C.coming (uids_of town.now) (desks_of town.now) w)
        result.0.items }
    ensures signs { map (sign C.coming) result.0.items ≡ map (sign C.coming) crew.jobs.items }
    ensures gated { All (IsGatedWorker (G.says gate.now)) result.0.items }
    ensures given { HasGiven 0 (count_reports result.0.items) connections (P.counts port.old) (P.counts port.new) }
    ensures cause { HasCause result.1 connections (P.counts port.old) (P.counts port.new) }
{
    let workers = crew.jobs.len();
    let (crew, stopped) = run(
        rt,
        alloc,
        gate,
        town,
        sender,
        receiver,
        port,
        &mut front,
        connections,
        workers,
        crew,
    );
    let Front { mut place, left } = front;
    let mut crew = lay_all_down(town, sender, &mut place, crew);
    serve_all_left(
        rt,
        alloc,
        gate,
        town,
        receiver,
        &mut place,
        left,
        connections,
        &mut crew,
    );
    (crew, stopped)
}

// A term of a town that is open, with the room that it needs.
fn run_in<
    L: Closable + Drop + Send,
    P: Port<Link = L>,
    C: Clock + Drop + Send,
    K: Keeper + Drop + Send,
    G: Gate + Sync,
    R: Threads + Wait + Sync,
>(
    rt: &R,
    alloc: Global,
    manner: Manner,
    port: &mut P,
    mut clocks: Vec<C>,
    gate: &G,
    town: Town<Booked<K>>,
    mut passes: Passes<Booked<K>>,
    connections: u32,
    room: Room<L, C, Booked<K>>,
) -> TermEnd<L, C, K>
    requires clocks { (0 < vec_len clocks) × (vec_len clocks ≤ most_workers) }
    requires connections { connections ≤ most_connections }
    requires of { AreOf (desks_of town) (passes_of passes) }
    requires start { AreHalvedPasses 0 (passes_of passes) (passes_of passes) }
    requires jobs { (room.jobs.items ≡ []) × (vec_len clocks ≤ vec_capacity room.jobs) }
    requires done { (room.done.items ≡ []) × (vec_len clocks ≤ vec_capacity room.done) }
    requires left { (room.left.items ≡ []) × (connections ≤ vec_capacity room.left) }
    requires reports { (room.reports.items ≡ []) × (connections ≤ vec_capacity room.reports) }
    requires served { (room.clocks.items ≡ []) × (vec_len clocks ≤ vec_capacity room.clocks) }
    requires channel { (receives_on room.receiver ≡ sends_on room.sender) × IsSeatAt (sends_on room.sender) room.place
        × (view room.place ≡ tally 32 0 0) }
    ensures handed { AreHandedBack (λ b. terms_of K.keep_faults b) (uids_of town) (passes_of passes) result.accounts.items }
    ensures served { AreServedAccounts (λ b. terms_of K.keep_faults b) (λ b. (journal_of b).entries)
        (λ b. K.keep_faults (account_of b).keeper) manner L.Told.told L.closed
        result.accounts.items result.links.items (map C.coming clocks.items) (map C.coming result.clocks.items) }
    ensures open { IsOpenStop result.ended }
    ensures full { FullSays (λ b. terms_of K.keep_faults b) (λ b. (journal_of b).entries) result.accounts.items
        result.links.items result.ended }
    ensures given { GivenBy (length result.links.items) (P.counts port.old).links (P.counts port.new).links }
    ensures few { length result.links.items ≤ connections }
    ensures gated { AreAllGated (G.says gate.now) result.links.items }
    ensures cause { HasEnded result.ended connections (P.counts port.old) (P.counts port.new) }
{
    let Room {
        mut jobs,
        done,
        left,
        reports,
        clocks: served,
        sender,
        receiver,
        mut place,
    } = room;
    if !recruit_all(
        alloc,
        &town,
        &mut passes,
        &sender,
        &mut place,
        &mut clocks,
        manner,
        connections as usize,
        &mut jobs,
    ) {
        return end_early(town, passes, jobs, reports, served, clocks);
    }
    let (crew, stopped) = serve_links(
        rt,
        alloc,
        gate,
        &town,
        &sender,
        &receiver,
        port,
        Front { place, left },
        connections,
        Crew { jobs, done },
    );
    end_served(town, passes, crew, reports, served, stopped)
}

// A term of a town that is open.
fn run_term<
    L: Closable + Drop + Send,
    P: Port<Link = L>,
    C: Clock + Drop + Send,
    K: Keeper + Drop + Send,
    G: Gate + Sync,
    R: Threads + Wait + Sync,
>(
    rt: &R,
    alloc: Global,
    manner: Manner,
    port: &mut P,
    clocks: Vec<C>,
    gate: &G,
    town: Town<Booked<K>>,
    passes: Passes<Booked<K>>,
    connections: u32,
) -> TermEnd<L, C, K>
    requires clocks { (0 < vec_len clocks) × (vec_len clocks ≤ most_workers) }
    requires connections { connections ≤ most_connections }
    requires of { AreOf (desks_of town) (passes_of passes) }
    requires start { AreHalvedPasses 0 (passes_of passes) (passes_of passes) }
    ensures handed { AreHandedBack (λ b. terms_of K.keep_faults b) (uids_of town) (passes_of passes) result.accounts.items }
    ensures served { AreServedAccounts (λ b. terms_of K.keep_faults b) (λ b. (journal_of b).entries)
        (λ b. K.keep_faults (account_of b).keeper) manner L.Told.told L.closed
        result.accounts.items result.links.items (map C.coming clocks.items) (map C.coming result.clocks.items) }
    ensures open { IsOpenStop result.ended }
    ensures full { FullSays (λ b. terms_of K.keep_faults b) (λ b. (journal_of b).entries) result.accounts.items
        result.links.items result.ended }
    ensures given { GivenBy (length result.links.items) (P.counts port.old).links (P.counts port.new).links }
    ensures few { length result.links.items ≤ connections }
    ensures gated { AreAllGated (G.says gate.now) result.links.items }
    ensures cause { HasEnded result.ended connections (P.counts port.old) (P.counts port.new) }
{
    match room_for(alloc, clocks.len(), connections as usize) {
        Ok(room) => run_in(
            rt,
            alloc,
            manner,
            port,
            clocks,
            gate,
            town,
            passes,
            connections,
            room,
        ),
        Err(_) => end_unserved(alloc, town, passes, clocks),
    }
}

/// A term: a worker for each clock, in a thread of its own where one can be started, answers the links that the port
/// gives, up to so many, over the desks of these accounts, and reads conditions in this manner. Where no thread can be
/// started the caller serves the links itself. A worker's number is its clock's place, from 0. Nothing is said of
/// progress, fairness or time.
pub fn serve_term<
    L: Closable + Drop + Send,
    P: Port<Link = L>,
    C: Clock + Drop + Send,
    K: Keeper + Drop + Send,
    G: Gate + Sync,
    R: Threads + Wait + Sync,
>(
    rt: &R,
    alloc: Global,
    manner: Manner,
    port: &mut P,
    clocks: Vec<C>,
    gate: &G,
    accounts: Vec<(u32, Booked<K>)>,
    connections: u32,
) -> TermEnd<L, C, K>
    requires clocks { (0 < vec_len clocks) × (vec_len clocks ≤ most_workers) }
    requires connections { connections ≤ most_connections }
    requires bare { AreBare (λ b. (journal_of b).entries) accounts.items }
    // What comes back, and what the reports say of it.
    ensures says { TermSays (λ b. terms_of K.keep_faults b) (λ b. (journal_of b).entries)
        (λ b. K.keep_faults (account_of b).keeper) manner L.Told.told L.closed
        accounts.items result.accounts.items result.links.items (map C.coming clocks.items) (map C.coming result.clocks.items) result.ended }
    // Which account was full.
    ensures full { FullSays (λ b. terms_of K.keep_faults b) (λ b. (journal_of b).entries) result.accounts.items
        result.links.items result.ended }
    // There are as many reports as the port gave links, and at most as many as were wanted.
    ensures given { GivenBy (length result.links.items) (P.counts port.old).links (P.counts port.new).links }
    ensures few { length result.links.items ≤ connections }
    // Of each response this gate was asked whether it closes, by the number of the worker that reports it and the message's.
    ensures gated { AreAllGated (G.says gate.now) result.links.items }
    // Why the term ended.
    ensures cause { HasEnded result.ended connections (P.counts port.old) (P.counts port.new) }
{
    match Town::open(alloc, accounts) {
        Ok((town, passes)) => run_term(
            rt,
            alloc,
            manner,
            port,
            clocks,
            gate,
            town,
            passes,
            connections,
        ),
        Err((accounts, fault)) => TermEnd {
            accounts,
            links: Vec::new(alloc),
            clocks,
            ended: TermStop::Town(fault),
        },
    }
}
