//! Which account was full.

ghost use Rattle.std.specs.Prelude.{◌≡◌, Bool, length};
ghost use Rattle.ss_booked.specs.Booked.{journal_of};
ghost use Rattle.ss_serve.specs.Terms.{Smallest};
ghost use Rattle.ss_serve.specs.Fullness.{IsTestOf, TurnNames, ReportNames, SomeReportNames, IsNamedFull, OneMore};

use crate::report::LinkReport;
use ss_booked::Booked;
use ss_connection::{Turn, TurnNote};
use ss_keeper::Keeper;

// Whether the turn says that this account was full, with so many entries.
fn turn_names(note: &TurnNote, uid: u32, entries: u64) -> bool
    ensures { IsTestOf result (TurnNames uid entries note.entry.now.turn) }
{
    match note.turn {
        Turn::Full {
            uid: full,
            entries: count,
            bytes: _,
        } => full == uid && count == entries,
        _ => false,
    }
}

// Whether one of these turns says so.
fn report_names(turns: &[TurnNote], uid: u32, entries: u64) -> bool
    ensures { IsTestOf result (ReportNames uid entries turns.now) }
{
    for k in 0..turns.len() {
        if turn_names(&turns[k], uid, entries) {
            return true;
        }
    }
    false
}

// Whether a turn of one of these reports says so.
fn are_named<L>(reports: &[LinkReport<L>], uid: u32, entries: u64) -> bool
    ensures { IsTestOf result (SomeReportNames uid entries reports.now) }
{
    for j in 0..reports.len() {
        if report_names(reports[j].turns.as_slice(), uid, entries) {
            return true;
        }
    }
    false
}

// Whether a turn says that the account was full with as many entries as it has.
fn is_named<L, K: Keeper>(account: &(u32, Booked<K>), reports: &[LinkReport<L>]) -> bool
    ensures { IsTestOf result (IsNamedFull (λ b. (journal_of b).entries) reports.now account.now) }
{
    let entries = account.1.journal().entries().len() as u64;
    are_named(reports, account.0, entries)
}

// The smallest uid, with one account more.
fn and_one<L, K: Keeper>(
    found: Option<u32>,
    account: &(u32, Booked<K>),
    reports: &[LinkReport<L>],
) -> Option<u32>
    ensures { (b : Bool) × IsTestOf b (IsNamedFull (λ b. (journal_of b).entries) reports.now account.now)
        × OneMore b found account.now.0 result }
{
    if !is_named(account, reports) {
        return found;
    }
    match found {
        None => Some(account.0),
        Some(least) => Some(least.min(account.0)),
    }
}

/// The smallest uid of an account of which a turn says that it was full with as many entries as it has.
pub(crate) fn smallest_full<L, K: Keeper>(
    accounts: &[(u32, Booked<K>)],
    reports: &[LinkReport<L>],
) -> Option<u32>
    ensures { Smallest (IsNamedFull (λ b. (journal_of b).entries) reports.now) accounts.now (length accounts.now) result }
{
    let mut found = None;
    for i in 0..accounts.len() {
        found = and_one(found, &accounts[i], reports);
    }
    found
}
