//! Towns of counters with room for two additions each.

ghost use Rattle.std.specs.Prelude.{◌≡◌, ◌<◌, ℕ, length, IfOk};
ghost use Rattle.ss_desk.specs.Passes.{AreOf, view_at};
ghost use Rattle.ss_desk.specs.Views.{CoversAll};
ghost use Rattle.ss_town.specs.Opening.{AreBare};
ghost use Rattle.ss_town.specs.Places.{CoverNoLess, HoldAtLeast};
ghost use Rattle.ss_town.specs.Town.{desks_of, passes_of};

use anyhow::{anyhow, bail};
use ss_desk::{Counter, Full};
use ss_town::{Answer, Passes, Town, TownFault};
use std::alloc::{AllocError, Global};
use std::sync::Wait;

/// Counters with room for two additions each, under these uids.
fn counters(alloc: Global, uids: &[u32]) -> Result<Vec<(u32, Counter)>, AllocError>
    ensures bare { IfOk result (λ accounts. AreBare (λ c. c.additions.items) accounts.items) }
{
    let mut accounts = Vec::new(alloc);
    for uid in uids {
        accounts.push((*uid, Counter::new(alloc, 2)?))?;
    }
    Ok(accounts)
}

/// Why there is no town of these uids, and how many accounts came back.
fn refused(alloc: Global, uids: &[u32]) -> Result<Option<(TownFault, usize)>, AllocError> {
    match Town::open(alloc, counters(alloc, uids)?) {
        Ok(_) => Ok(None),
        Err((accounts, fault)) => Ok(Some((fault, accounts.len()))),
    }
}

/// Whether uids make a town, or why not and how many accounts come back.
pub fn opened(alloc: Global, uids: &[u32]) -> anyhow::Result<String> {
    Ok(match refused(alloc, uids)? {
        None => String::from_str(alloc, "a town")?,
        Some((fault, count)) => format!(in alloc; "{fault:?}, and {count} accounts come back")?,
    })
}

/// A town of these uids, with its passes.
fn open(alloc: Global, uids: &[u32]) -> anyhow::Result<(Town<Counter>, Passes<Counter>)>
    ensures of { IfOk result (λ r. AreOf (desks_of r.0) (passes_of r.1)) }
    ensures all { IfOk result (λ r. (i : ℕ) → i < length (desks_of r.0) → CoversAll (view_at (passes_of r.1) i)) }
{
    match Town::open(alloc, counters(alloc, uids)?) {
        Ok(both) => Ok(both),
        Err(_) => Err(anyhow!("no town")),
    }
}

/// What the account with this uid answers to an addition: the total, that it isn't listed, or that it is full.
fn add<R: Wait>(
    rt: &R,
    town: &Town<Counter>,
    passes: &mut Passes<Counter>,
    uid: u32,
    amount: u32,
) -> Result<u64, Option<Full>>
    requires of { AreOf (desks_of town.now) (passes_of passes.old) }
    ensures of { AreOf (desks_of town.now) (passes_of passes.new) }
    ensures covers { CoverNoLess (passes_of passes.old) (passes_of passes.new) }
{
    match town.ask(rt, passes, uid, amount) {
        Answer::Reply { ticket: _, reply } => Ok(reply),
        Answer::NoAccount => Err(None),
        Answer::Full(full) => Err(Some(full)),
    }
}

/// Splits the passes, adds with both, and takes the others back; gives what each addition was answered.
fn add_with_two<R: Wait>(
    rt: &R,
    alloc: Global,
    town: &Town<Counter>,
    passes: &mut Passes<Counter>,
) -> Result<[Result<u64, Option<Full>>; 5], AllocError>
    requires of { AreOf (desks_of town.now) (passes_of passes.old) }
    requires many { HoldAtLeast 2 (passes_of passes.old) }
    ensures of { AreOf (desks_of town.now) (passes_of passes.new) }
    ensures covers { CoverNoLess (passes_of passes.old) (passes_of passes.new) }
{
    let mut others = passes.split(alloc, town)?;
    let first = add(rt, town, passes, 8, 5);
    let second = add(rt, town, &mut others, 7, 3);
    let third = add(rt, town, &mut others, 8, 4);
    let full = add(rt, town, passes, 8, 1);
    let unlisted = add(rt, town, passes, 9, 1);
    town.back(passes, others);
    Ok([first, second, third, full, unlisted])
}

/// What the additions of two passes to each of a town's accounts are answered, and the accounts of the closed town.
fn added<R: Wait>(
    rt: &R,
    alloc: Global,
    uids: &[u32],
) -> anyhow::Result<([Result<u64, Option<Full>>; 5], Vec<(u32, Counter)>)> {
    let (town, mut passes) = open(alloc, uids)?;
    if passes.numbers() < 2 {
        bail!("passes that can't be split");
    }
    let answers = add_with_two(rt, alloc, &town, &mut passes)?;
    Ok((answers, town.close(passes)))
}

/// What is told of additions at a town of these uids.
pub fn asked<R: Wait>(rt: &R, alloc: Global, uids: &[u32]) -> anyhow::Result<String> {
    let (answers, accounts) = added(rt, alloc, uids)?;
    let mut text = String::new(alloc);
    let asked = ["5 to 8", "3 to 7", "4 to 8", "1 to 8", "1 to 9"];
    for (what, answer) in asked.iter().zip(&answers) {
        text.push_str(format!(in alloc; "\n  {what}: {answer:?}")?.as_str())?;
    }
    for (uid, counter) in accounts.iter() {
        text.push_str(format!(in alloc; "\n  {uid} has {}", counter.total)?.as_str())?;
    }
    Ok(format!(in alloc; "{} accounts{text}", accounts.len())?)
}
