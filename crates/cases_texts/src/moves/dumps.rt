//! What comes of a text that may be a dump.

ghost use Rattle.ss_account.specs.Opening.{IsGood};

use crate::moves::exchanges::{Commit, answered};
use anyhow::{Result, bail};
use ss_bso::{Batches, Kept, Rows, Times};
use ss_dump::{DumpFault, RefillFault, dump, refill, undump};
use ss_keeper::{Keeper, SureKeeper};
use std::alloc::Global;

/// The text that a case's lines spell, without the commit behind it.
pub fn text_of(alloc: Global, lines: &[String]) -> Result<Vec<u8>> {
    let mut text = Vec::new(alloc);
    for line in lines {
        let line = line.as_str();
        if let Some(line) = line.strip_prefix("|") {
            text.extend_from_slice(line.as_bytes())?;
            text.push(b'\n')?;
        } else if let Some(piece) = line.strip_prefix("-") {
            text.extend_from_slice(piece.as_bytes())?;
        } else if !line.starts_with(">") {
            bail!("a line of no text: {line}");
        }
    }
    Ok(text)
}

/// The same account, each of its lists the other way round.
fn turned(kept: Kept) -> Kept {
    let mut rows = kept.rows.into_vec();
    let mut collections = kept.collections.into_vec();
    let mut batches = kept.batches.into_vec();
    rows.as_mut_slice().reverse();
    collections.as_mut_slice().reverse();
    batches.as_mut_slice().reverse();
    Kept {
        rows: Rows::new(rows),
        collections: Times::new(collections),
        store: kept.store,
        last_delete: kept.last_delete,
        counter: kept.counter,
        batches: Batches::new(batches),
    }
}

/// Fills a fresh keeper in memory with this; a second time it is refused.
fn fill(alloc: Global, keeper: &mut SureKeeper, kept: &Kept) -> Result<()>
    requires { IsGood kept.now }
{
    if refill(alloc, keeper, kept).is_err() {
        bail!("a fresh keeper was not filled");
    }
    let again = refill(alloc, keeper, kept);
    if again != Err(RefillFault::NotFresh) && again.is_err() {
        bail!("a keeper that is filled was refused otherwise");
    }
    Ok(())
}

/// A keeper in memory that was filled with this.
fn refilled(alloc: Global, kept: &Kept) -> Result<SureKeeper>
    requires { IsGood kept.now }
{
    let mut keeper = SureKeeper::new(Kept::fresh(alloc));
    fill(alloc, &mut keeper, kept)?;
    Ok(keeper)
}

/// Whether this is dumped as a text.
fn is_dumped(alloc: Global, text: &[u8], kept: &Kept) -> Result<bool> {
    let dumped = dump(alloc, kept)?;
    Ok(dumped.as_slice() == text)
}

/// Whether what a keeper holds is dumped as a text.
fn is_held(alloc: Global, text: &[u8], keeper: &mut SureKeeper) -> Result<bool> {
    match keeper.load(alloc) {
        Ok(held) => is_dumped(alloc, text, &held),
        Err(_) => bail!("a keeper in memory failed"),
    }
}

/// Whether a keeper that was filled with this is dumped as a text.
fn is_filled(alloc: Global, text: &[u8], kept: &Kept) -> Result<bool>
    requires { IsGood kept.now }
{
    let mut keeper = refilled(alloc, kept)?;
    is_held(alloc, text, &mut keeper)
}

/// Whether an account is dumped as the text from which it was read: as it is, turned, and by a keeper that was filled.
fn is_same(alloc: Global, text: &[u8], kept: Kept) -> Result<bool>
    requires { IsGood kept }
{
    let filled = is_filled(alloc, text, &kept)?;
    let first = is_dumped(alloc, text, &kept)?;
    let turned = is_dumped(alloc, text, &turned(kept))?;
    Ok(first && filled && turned)
}

/// What a fault says.
fn fault_told(alloc: Global, fault: &DumpFault) -> Result<String> {
    Ok(match fault {
        DumpFault::BadLine { n } => format!(in alloc; "line {n}")?,
        DumpFault::BadDigest { stated, found } => {
            let stated = stated.as_str();
            let found = found.as_str();
            format!(in alloc; "digest {stated} {found}")?
        }
        DumpFault::BadCollection { n } => format!(in alloc; "collection {n}")?,
        DumpFault::BadRow { n } => format!(in alloc; "row {n}")?,
        DumpFault::BadBatch { n } => format!(in alloc; "batch {n}")?,
        DumpFault::Memory => format!(in alloc; "memory")?,
    })
}

/// What the account of a dump answers to a commit, once it is moved.
fn moved_told(alloc: Global, kept: &Kept, commit: Commit) -> Result<String>
    requires { IsGood kept.now }
{
    answered(alloc, refilled(alloc, kept)?, commit)
}

/// Whether a dump is written as it was read.
fn same_told(alloc: Global, text: &[u8], kept: Kept) -> Result<String>
    requires { IsGood kept }
{
    let told = if is_same(alloc, text, kept)? {
        "a dump"
    } else {
        "another dump"
    };
    Ok(String::from_str(alloc, told)?)
}

/// What comes of a dump: whether it is written as it was read, or, where a commit is asked for, what the moved account
/// answers.
fn dump_told(alloc: Global, text: &[u8], kept: Kept, commit: Option<Commit>) -> Result<String>
    requires { IsGood kept }
{
    match commit {
        Some(commit) => moved_told(alloc, &kept, commit),
        None => same_told(alloc, text, kept),
    }
}

/// What comes of the text of a case.
pub fn dump_line(alloc: Global, lines: &[String]) -> Result<String> {
    let text = text_of(alloc, lines)?;
    match undump(alloc, &text) {
        Ok(kept) => dump_told(alloc, &text, kept, Commit::of(alloc, lines)?),
        Err(fault) => fault_told(alloc, &fault),
    }
}
