//! The accounts 8 and 7 over keepers in memory.

ghost use Rattle.std.specs.Prelude.{IfOk};
ghost use Rattle.ss_booked.specs.Booked.{journal_of};
ghost use Rattle.ss_town.specs.Opening.{AreBare};

use crate::accounts::{add, booked};
use ss_booked::Booked;
use ss_bso::Kept;
use ss_keeper::MemKeeper;
use std::alloc::Global;

/// Adds a fresh account of this uid, whose keeper's call with this number fails; 0 is none.
fn add_fresh(
    alloc: Global,
    accounts: &mut Vec<(u32, Booked<MemKeeper>)>,
    uid: u32,
    most: u32,
    failing: u64,
) -> anyhow::Result<()>
    requires bare { AreBare (λ b. (journal_of b).entries) accounts.old.items }
    ensures bare { IfOk result (λ done. AreBare (λ b. (journal_of b).entries) accounts.new.items) }
{
    let keeper = MemKeeper::new(Kept::fresh(alloc), vec![in alloc; failing]?);
    let booked = booked(alloc, uid, keeper, most)?;
    add(accounts, uid, booked)?;
    Ok(())
}

/// Adds the accounts 8 and 7.
fn add_both(
    alloc: Global,
    accounts: &mut Vec<(u32, Booked<MemKeeper>)>,
    most: u32,
    failing: u64,
) -> anyhow::Result<()>
    requires bare { AreBare (λ b. (journal_of b).entries) accounts.old.items }
    ensures bare { IfOk result (λ done. AreBare (λ b. (journal_of b).entries) accounts.new.items) }
{
    add_fresh(alloc, accounts, 8, most, failing)?;
    add_fresh(alloc, accounts, 7, most, failing)?;
    Ok(())
}

/// The accounts 8 and 7, both fresh, of which the keepers' calls with this number fail.
pub fn accounts(
    alloc: Global,
    most: u32,
    failing: u64,
) -> anyhow::Result<Vec<(u32, Booked<MemKeeper>)>>
    ensures bare { IfOk result (λ accounts. AreBare (λ b. (journal_of b).entries) accounts.items) }
{
    let mut accounts = Vec::new(alloc);
    match add_both(alloc, &mut accounts, most, failing) {
        Ok(()) => Ok(accounts),
        Err(error) => {
            drop(accounts);
            Err(error)
        }
    }
}
