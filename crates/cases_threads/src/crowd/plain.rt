//! The plain program: an account that answers one request after the other.

ghost use Rattle.std.specs.Prelude.{All};
ghost use Rattle.ss_query.specs.Fit.{IsFitRequest};

use crate::accounts::opened;
use ss_account::Account;
use ss_booked::{Booked, Entry};
use ss_bso::Kept;
use ss_keeper::{Keeper, SureKeeper};
use ss_query::Reply;
use std::alloc::Global;

/// The replies of an account to the requests of a journal, each with its ticket.
fn replies_of(
    alloc: Global,
    account: &mut Account<SureKeeper>,
    entries: &[Entry],
) -> anyhow::Result<Vec<(u64, Reply)>>
    requires fit { All (λ entry. IsFitRequest entry.request) entries.now }
{
    let mut replies = Vec::new(alloc);
    for entry in entries {
        let reply = account.step(alloc, entry.now, &entry.request);
        replies.push((entry.ticket, reply))?;
    }
    Ok(replies)
}

/// The replies of a fresh account to the requests of a journal.
fn replies_to(alloc: Global, entries: &[Entry]) -> anyhow::Result<Vec<(u64, Reply)>>
    requires fit { All (λ entry. IsFitRequest entry.request) entries.now }
{
    let mut account = opened(alloc, SureKeeper::new(Kept::fresh(alloc)))?;
    let replies = replies_of(alloc, &mut account, entries);
    drop(account);
    replies
}

/// The replies at the places of an account's journal, which began with a fresh account.
pub fn replies<K: Keeper>(alloc: Global, booked: &Booked<K>) -> anyhow::Result<Vec<(u64, Reply)>> {
    replies_to(alloc, booked.journal().entries())
}
