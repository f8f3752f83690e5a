//! The workers of a term: they are made, and their places at the channel come back.

ghost use Rattle.std.specs.Prelude.{◌≡◌, ◌≤◌, ◌<◌, ◌+◌, ◌-◌, ℕ, [], ◌++◌, All, map, IfOk, IfErr, OnErr, true, length};
ghost use Rattle.std.specs.Prelude.{vec_len, vec_capacity};
ghost use Rattle.crossbeam_channel.specs.Claims.{view, IsSeatAt};
ghost use Rattle.crossbeam_channel.specs.Ends.{sends_on};
ghost use Rattle.ss_desk.specs.Passes.{AreOf, view_at};
ghost use Rattle.ss_town.specs.Town.{uids_of, desks_of, passes_of};
ghost use Rattle.ss_serve.specs.Tallies.{tally};
ghost use Rattle.ss_serve.specs.Crew.{IsReady, HasWorked, IsStart, AreHalvedPasses, AreWorkerSigns, fixed_at, sign};
ghost use Rattle.ss_serve.specs.Crew.{starts};
ghost use Rattle.ss_serve.specs.Crew.{count_reports};
ghost use Rattle.ss_town.specs.Limits.{most_workers};

use crate::channel::{Bare, Cut, Job, Links, Tally};
use crate::worker::Worker;
use crossbeam_channel::{Pass, RuledSender};
use ss_booked::Booked;
use ss_keeper::Keeper;
use ss_links::Closable;
use ss_outside::Clock;
use ss_route::Manner;
use ss_town::{Passes, Town};
use std::alloc::Global;
use std::mem::replace;
use std::snapshot::Snapshot;

/// A worker with the upper halves of the numbers, this manner, and room for so many reports. Where memory is wanting
/// nothing changes.
pub(crate) fn recruit<L: Closable + Drop, C: Clock + Drop, K: Keeper + Drop>(
    alloc: Global,
    town: &Town<Booked<K>>,
    passes: &mut Passes<Booked<K>>,
    sender: &RuledSender<Job<L>, Tally, Links<L>>,
    place: &mut Pass<Job<L>, Tally>,
    clock: C,
    number: u32,
    manner: Manner,
    connections: usize,
) -> Result<Worker<L, C, Booked<K>>, C>
    requires of { AreOf (desks_of town.now) (passes_of passes.old) }
    requires start { (i : ℕ) → i < length (passes_of passes.old) → IsStart number (view_at (passes_of passes.old) i) }
    requires few { number < 16 }
    requires seat { IsSeatAt (sends_on sender.now) place.old }
    requires parts { 1 < (view place.old).parts }
    ensures of { AreOf (desks_of town.now) (passes_of passes.new) }
    ensures start { IfOk result (λ w. (i : ℕ) → i < length (passes_of passes.new)
        → IsStart (number + 1) (view_at (passes_of passes.new) i)) }
    ensures long { length (passes_of passes.new) ≡ length (passes_of passes.old) }
    ensures fixed { fixed_at (passes_of passes.new) ≡ fixed_at (passes_of passes.old) }
    ensures ready { IfOk result (λ w. IsReady L.Told.told L.closed C.coming (uids_of town.now) (desks_of town.now)
        (sends_on sender.now) w) }
    ensures signed { IfOk result (λ w. (w.number ≡ number) × (connections ≤ vec_capacity w.reports)
        × (C.coming w.start.value ≡ C.coming clock) × (fixed_at (passes_of w.passes)
        ≡ fixed_at (passes_of passes.old))) }
    ensures manner { IfOk result (λ w. w.manner ≡ manner) }
    ensures none { IfOk result (λ w. w.reports.items ≡ []) }
    ensures place { IfOk result (λ w. view place.new ≡ tally ((view place.old).parts - 1) (view place.old).put
        (view place.old).taken) }
    ensures seat { IsSeatAt (sends_on sender.now) place.new }
    ensures returned { IfErr result (λ c. c ≡ clock) }
    ensures unchanged { OnErr result (passes.new ≡ passes.old) }
    ensures unmoved { OnErr result (view place.new ≡ view place.old) }
{
    let Ok(reports) = Vec::with_capacity(alloc, connections) else {
        return Err(clock);
    };
    let Ok(theirs) = passes.split(alloc, town) else {
        return Err(clock);
    };
    let theirs_at = sender.another::<Cut>(place);
    let start = Snapshot::of(&clock);
    Ok(Worker {
        number,
        manner,
        clock,
        start,
        passes: theirs,
        reports,
        place: theirs_at,
    })
}

/// A worker for each clock, in their order, all in one manner. Where memory runs out the other clocks stay.
pub(crate) fn recruit_all<L: Closable + Drop, C: Clock + Drop, K: Keeper + Drop>(
    alloc: Global,
    town: &Town<Booked<K>>,
    passes: &mut Passes<Booked<K>>,
    sender: &RuledSender<Job<L>, Tally, Links<L>>,
    place: &mut Pass<Job<L>, Tally>,
    clocks: &mut Vec<C>,
    manner: Manner,
    connections: usize,
    jobs: &mut Vec<Worker<L, C, Booked<K>>>,
) -> bool
    requires of { AreOf (desks_of town.now) (passes_of passes.old) }
    requires start { AreHalvedPasses 0 (passes_of passes.old) (passes_of passes.old) }
    requires seat { IsSeatAt (sends_on sender.now) place.old }
    requires whole { view place.old ≡ tally 32 0 0 }
    requires none { jobs.old.items ≡ [] }
    requires few { vec_len clocks.old ≤ most_workers }
    requires room { vec_len clocks.old ≤ vec_capacity jobs.old }
    ensures of { AreOf (desks_of town.now) (passes_of passes.new) }
    ensures left { AreHalvedPasses (length jobs.new.items) (passes_of passes.old) (passes_of passes.new) }
    ensures seat { IsSeatAt (sends_on sender.now) place.new }
    ensures parts { (view place.new).parts + length jobs.new.items ≡ 32 }
    ensures idle { ((view place.new).put ≡ 0) × ((view place.new).taken ≡ 0) }
    ensures ready { All (λ w. IsReady L.Told.told L.closed C.coming (uids_of town.now) (desks_of town.now)
        (sends_on sender.now) w) jobs.new.items }
    ensures signed { AreWorkerSigns connections (fixed_at (passes_of passes.old)) manner (map (sign C.coming) jobs.new.items) }
    ensures none { count_reports jobs.new.items ≡ 0 }
    ensures starts { starts (map (sign C.coming) jobs.new.items) ++ map C.coming clocks.new.items
        ≡ map C.coming clocks.old.items }
    ensures count { vec_len jobs.new + vec_len clocks.new ≡ vec_len clocks.old }
    ensures all { result ≡ true → clocks.new.items ≡ [] }
{
    clocks.reverse();
    while let Some(clock) = clocks.pop() {
        match recruit(
            alloc,
            town,
            passes,
            sender,
            place,
            clock,
            jobs.len() as u32,
            manner,
            connections,
        ) {
            Ok(worker) => jobs.push_reserved(worker),
            Err(clock) => {
                clocks.push_reserved(clock);
                clocks.reverse();
                return false;
            }
        }
    }
    true
}

// The worker's place at the channel comes back; it keeps one that has no part.
fn lay_down<L: Closable + Drop, C: Clock + Drop, K: Keeper + Drop>(
    town: &Town<Booked<K>>,
    sender: &RuledSender<Job<L>, Tally, Links<L>>,
    place: &mut Pass<Job<L>, Tally>,
    worker: &mut Worker<L, C, Booked<K>>,
)
    requires seat { IsSeatAt (sends_on sender.now) place.old }
    requires ready { IsReady L.Told.told L.closed C.coming (uids_of town.now) (desks_of town.now) (sends_on sender.now)
        worker.old }
    ensures seat { IsSeatAt (sends_on sender.now) place.new }
    ensures view { view place.new ≡ tally ((view place.old).parts + 1) (view place.old).put
        ((view place.old).taken + length worker.old.reports.items) }
    ensures worked { HasWorked L.Told.told L.closed C.coming (uids_of town.now) (desks_of town.now) worker.new }
    ensures sign { sign C.coming worker.new ≡ sign C.coming worker.old }
    ensures reports { worker.new.reports ≡ worker.old.reports }
{
    let bare = sender.another::<Bare>(place);
    let theirs = replace(&mut worker.place, bare);
    sender.absorb::<Cut>(place, theirs);
}

/// All places at the channel come back.
pub(crate) fn lay_all_down<L: Closable + Drop, C: Clock + Drop, K: Keeper + Drop>(
    town: &Town<Booked<K>>,
    sender: &RuledSender<Job<L>, Tally, Links<L>>,
    place: &mut Pass<Job<L>, Tally>,
    mut crew: Vec<Worker<L, C, Booked<K>>>,
) -> Vec<Worker<L, C, Booked<K>>>
    requires seat { IsSeatAt (sends_on sender.now) place.old }
    requires ready { All (λ w. IsReady L.Told.told L.closed C.coming (uids_of town.now) (desks_of town.now)
        (sends_on sender.now) w) crew.items }
    ensures seat { IsSeatAt (sends_on sender.now) place.new }
    ensures view { view place.new ≡ tally ((view place.old).parts + length crew.items) (view place.old).put
        ((view place.old).taken + count_reports crew.items) }
    ensures worked { All (λ w. HasWorked L.Told.told L.closed C.coming (uids_of town.now) (desks_of town.now) w)
        result.items }
    ensures signs { map (sign C.coming) result.items ≡ map (sign C.coming) crew.items }
    ensures reports { map (λ w. w.reports) result.items ≡ map (λ w. w.reports) crew.items }
    ensures count { count_reports result.items ≡ count_reports crew.items }
    ensures room { vec_capacity result ≡ vec_capacity crew }
{
    let Some(mut worker) = crew.pop() else {
        return crew;
    };
    let mut earlier = lay_all_down(town, sender, place, crew);
    lay_down(town, sender, place, &mut worker);
    earlier.push_reserved(worker);
    earlier
}
