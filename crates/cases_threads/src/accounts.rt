//! Accounts with empty journals, over keepers.

ghost use Rattle.std.specs.Prelude.{◌≡◌, [], IfOk};
ghost use Rattle.ss_booked.specs.Booked.{journal_of};
ghost use Rattle.ss_town.specs.Opening.{AreBare};

use anyhow::bail;
use ss_account::Account;
use ss_booked::{Booked, MOST_ENTRIES};
use ss_keeper::Keeper;
use std::alloc::{AllocError, Global};

/// The account of a keeper.
pub fn opened<K: Keeper + Drop>(alloc: Global, keeper: K) -> anyhow::Result<Account<K>> {
    match Account::open(alloc, keeper) {
        Ok(account) => Ok(account),
        Err((keeper, _)) => {
            drop(keeper);
            bail!("no account")
        }
    }
}

/// The account of this uid, which a keeper holds, with an empty journal, which has room for so many entries.
pub fn booked<K: Keeper + Drop>(
    alloc: Global,
    uid: u32,
    keeper: K,
    most: u32,
) -> anyhow::Result<Booked<K>>
    ensures bare { IfOk result (λ b. (journal_of b).entries ≡ []) }
{
    if most == 0 || most > MOST_ENTRIES {
        bail!("no such room");
    }
    match Booked::open(alloc, uid, opened(alloc, keeper)?, most) {
        Ok(booked) => Ok(booked),
        Err((account, _)) => {
            drop(account);
            bail!("no journal")
        }
    }
}

/// Adds an account with an empty journal.
pub fn add<K: Keeper + Drop>(
    accounts: &mut Vec<(u32, Booked<K>)>,
    uid: u32,
    booked: Booked<K>,
) -> Result<(), AllocError>
    requires empty { (journal_of booked).entries ≡ [] }
    requires bare { AreBare (λ b. (journal_of b).entries) accounts.old.items }
    ensures bare { IfOk result (λ done. AreBare (λ b. (journal_of b).entries) accounts.new.items) }
{
    accounts.push((uid, booked))?;
    Ok(())
}
