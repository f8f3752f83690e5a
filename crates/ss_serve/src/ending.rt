//! The end of a term: passes come back, and the town is closed.

ghost use Rattle.std.specs.Prelude.{◌≡◌, ◌≤◌, ◌<◌, ◌+◌, ◌++◌, ℕ, [], All, map, reverse, length, vec_len, vec_capacity};
ghost use Rattle.ss_desk.specs.Passes.{AreOf, view_at};
ghost use Rattle.ss_town.specs.Town.{uids_of, desks_of, passes_of};
ghost use Rattle.ss_booked.specs.Booked.{account_of, journal_of, terms_of};
ghost use Rattle.ss_route.specs.declared.manner.Manner.{Manner};
ghost use Rattle.ss_serve.specs.Terms.{AreServedAccounts};
ghost use Rattle.ss_serve.specs.Crew.{Have, IsWhole, AreHandedBack, count_reports, sign, starts};
ghost use Rattle.ss_serve.specs.Gathering.{IsGathering, reports_in};
ghost use Rattle.ss_town.specs.Limits.{most_workers};

use crate::report::LinkReport;
use crate::worker::Worker;
use ss_booked::Booked;
use ss_keeper::Keeper;
use ss_links::Closable;
use ss_outside::Clock;
use ss_town::{Passes, Town};

/// Puts all values at the end.
pub(crate) fn move_all<T: Drop>(from: Vec<T>, into: &mut Vec<T>)
    requires { vec_len into.old + vec_len from ≤ vec_capacity into.old }
    ensures items { into.new.items ≡ into.old.items ++ from.items }
    ensures room { vec_capacity into.new ≡ vec_capacity into.old }
{
    for value in from {
        into.push_reserved(value);
    }
}

// Takes the workers' passes in, the last worker's first.
fn gather<L: Closable + Drop, C: Clock + Drop, K: Keeper + Drop>(
    town: &Town<Booked<K>>,
    passes: &mut Passes<Booked<K>>,
    mut crew: Vec<Worker<L, C, Booked<K>>>,
    reports: &mut Vec<LinkReport<L>>,
    clocks: &mut Vec<C>,
)
    requires of { AreOf (desks_of town.now) (passes_of passes.old) }
    requires crew { Have L.Told.told L.closed C.coming (uids_of town.now) (desks_of town.now) (passes_of passes.old)
        crew.items }
    requires whole { (i : ℕ) → i < length (uids_of town.now) → IsWhole (length crew.items)
        (view_at (passes_of passes.old) i) }
    requires none { (reports.old.items ≡ []) × (clocks.old.items ≡ []) }
    requires room { count_reports crew.items ≤ vec_capacity reports.old }
    requires clocks { vec_len crew ≤ vec_capacity clocks.old }
    ensures of { AreOf (desks_of town.now) (passes_of passes.new) }
    ensures gathered { IsGathering (length (uids_of town.now)) (passes_of passes.old) crew.items [] (passes_of passes.new)
        reports.new.items (reverse clocks.new.items) }
    ensures room { vec_capacity clocks.new ≡ vec_capacity clocks.old }
{
    while let Some(worker) = crew.pop() {
        let Worker {
            number: _,
            manner: _,
            clock,
            start: _,
            passes: theirs,
            reports: done,
            place: _,
        } = worker;
        town.back(passes, theirs);
        move_all(done, reports);
        clocks.push_reserved(clock);
    }
}

/// The accounts, the reports and the clocks of a term whose workers have all returned. A report is in the manner of its
/// worker.
pub(crate) fn finish<L: Closable + Drop, C: Clock + Drop, K: Keeper + Drop>(
    town: Town<Booked<K>>,
    mut passes: Passes<Booked<K>>,
    crew: Vec<Worker<L, C, Booked<K>>>,
    mut reports: Vec<LinkReport<L>>,
    mut clocks: Vec<C>,
) -> (Vec<(u32, Booked<K>)>, Vec<LinkReport<L>>, Vec<C>)
    requires of { AreOf (desks_of town) (passes_of passes) }
    requires crew { Have L.Told.told L.closed C.coming (uids_of town) (desks_of town) (passes_of passes) crew.items }
    requires whole { (i : ℕ) → i < length (uids_of town) → IsWhole (length crew.items) (view_at (passes_of passes) i) }
    requires few { length crew.items ≤ most_workers }
    requires none { (reports.items ≡ []) × (clocks.items ≡ []) }
    requires room { count_reports crew.items ≤ vec_capacity reports }
    requires clocks { vec_len crew ≤ vec_capacity clocks }
    ensures handed { AreHandedBack (λ b. terms_of K.keep_faults b) (uids_of town) (passes_of passes) result.0.items }
    ensures served { (manner : Manner) → All (λ w. w.manner ≡ manner) crew.items
        → AreServedAccounts (λ b. terms_of K.keep_faults b) (λ b. (journal_of b).entries)
        (λ b. K.keep_faults (account_of b).keeper) manner L.Told.told L.closed
        result.0.items result.1.items (starts (map (sign C.coming) crew.items)) (map C.coming result.2.items) }
    ensures reports { result.1.items ≡ reports_in crew.items }
    ensures count { length result.1.items ≡ count_reports crew.items }
    ensures clocks { length result.2.items ≡ length crew.items }
    ensures room { vec_capacity result.2 ≡ vec_capacity clocks }
{
    gather(&town, &mut passes, crew, &mut reports, &mut clocks);
    clocks.reverse();
    (town.close(passes), reports, clocks)
}
