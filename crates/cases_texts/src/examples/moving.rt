//! An account is written as a text, and read back.

use crate::examples::answering::{fresh, id, name, put};
use anyhow::bail;
use ss_account::Account;
use ss_bso::Kept;
use ss_dump::{dump, undump};
use ss_keeper::SureKeeper;
use std::alloc::Global;

/// Asks an account to put a record, and gives what it then holds.
fn told(alloc: Global, account: &mut Account<SureKeeper>) -> anyhow::Result<Kept> {
    let put = put(alloc, name(alloc, "notes")?, id(alloc, "a")?, "hello")?;
    account.step(alloc, 1_000, &put);
    match account.told(alloc) {
        Ok(kept) => Ok(kept),
        Err(_) => bail!("no memory"),
    }
}

/// What an account holds that was asked to put a record.
fn held(alloc: Global) -> anyhow::Result<Kept> {
    let mut account = fresh(alloc)?;
    told(alloc, &mut account)
}

/// What a dump tells.
fn read(alloc: Global, text: &[u8]) -> anyhow::Result<Kept> {
    match undump(alloc, text) {
        Ok(kept) => Ok(kept),
        Err(_) => bail!("it is no dump"),
    }
}

/// Tells the lines of a dump.
fn tell_text(alloc: Global, lines: &mut Vec<String>, text: &[u8]) -> anyhow::Result<()> {
    for line in String::from_utf8_lossy(alloc, text)?.as_str().lines() {
        lines.push(String::from_str(alloc, line)?)?;
    }
    Ok(())
}

/// Tells the records that are read from a dump.
fn tell_rows(alloc: Global, lines: &mut Vec<String>, text: &[u8]) -> anyhow::Result<()> {
    for row in read(alloc, text)?.rows.as_slice() {
        lines.push(format!(in alloc; "{}: {}", row.id.as_str(), row.payload.as_str())?)?;
    }
    Ok(())
}

/// Writes what an account holds as a dump, and tells the records that are read from it.
pub fn moved(alloc: Global) -> anyhow::Result<Vec<String>> {
    let text = dump(alloc, &held(alloc)?)?;
    let mut lines = Vec::new(alloc);
    tell_text(alloc, &mut lines, text.as_slice())?;
    tell_rows(alloc, &mut lines, text.as_slice())?;
    Ok(lines)
}
