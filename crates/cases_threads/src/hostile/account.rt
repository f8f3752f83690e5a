//! The account of a term.

ghost use Rattle.std.specs.Prelude.{◌≡◌, [], IfOk, IfSome};
ghost use Rattle.ss_booked.specs.Booked.{journal_of};
ghost use Rattle.ss_town.specs.Opening.{AreBare};

use crate::accounts::{add, booked};
use anyhow::bail;
use ss_booked::Booked;
use ss_bso::Kept;
use ss_keeper::MemKeeper;
use std::alloc::Global;

/// What fails of an account, and the most entries of its journal in a term.
#[derive(Clone, Copy)]
pub struct Setting {
    /// The commit of the keeper that fails, from 1; 0 is none.
    pub commit: u64,
    pub most: u32,
}

/// Account 7, fresh, with an empty journal.
fn fresh(alloc: Global, setting: Setting) -> anyhow::Result<Booked<MemKeeper>>
    ensures bare { IfOk result (λ b. (journal_of b).entries ≡ []) }
{
    // The load is the keeper's first call. A call 1 that failed would open no account.
    let failing = if setting.commit == 0 {
        0
    } else {
        setting.commit.saturating_add(1)
    };
    let keeper = MemKeeper::new(Kept::fresh(alloc), vec![in alloc; failing]?);
    booked(alloc, 7, keeper, setting.most)
}

/// Account 7, fresh.
pub fn accounts(alloc: Global, setting: Setting) -> anyhow::Result<Vec<(u32, Booked<MemKeeper>)>>
    ensures bare { IfOk result (λ accounts. AreBare (λ b. (journal_of b).entries) accounts.items) }
{
    let mut accounts = Vec::new(alloc);
    add(&mut accounts, 7, fresh(alloc, setting)?)?;
    Ok(accounts)
}

/// An account whose journal begins again.
fn folded(mut booked: Booked<MemKeeper>) -> Option<Booked<MemKeeper>>
    ensures bare { IfSome result (λ b. (journal_of b).entries ≡ []) }
{
    match booked.fold() {
        Ok(()) => Some(booked),
        Err(_) => None,
    }
}

/// The account of a term that has ended, whose journal begins again.
pub fn again(
    alloc: Global,
    mut accounts: Vec<(u32, Booked<MemKeeper>)>,
) -> anyhow::Result<Vec<(u32, Booked<MemKeeper>)>>
    ensures bare { IfOk result (λ accounts. AreBare (λ b. (journal_of b).entries) accounts.items) }
{
    let Some((_, booked)) = accounts.pop() else {
        bail!("no account came back")
    };
    let Some(booked) = folded(booked) else {
        bail!("no journal")
    };
    let mut accounts = Vec::new(alloc);
    add(&mut accounts, 7, booked)?;
    Ok(accounts)
}
