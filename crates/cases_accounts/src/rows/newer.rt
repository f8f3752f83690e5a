//! What is newer than a time, of five rows.

ghost use Rattle.std.specs.Prelude.{◌≡◌, ◌+◌, ◌≤◌, count_by, IfOk, OnOk, Some};
ghost use Rattle.ss_index.specs.Walk.{is_above};

use crate::rows::shelf_draws::change;
use crate::rows::shelf_rows::{changes, collection, row};
use anyhow::bail;
use ss_bso::{Row, RowChange};
use ss_index::Shelf;
use ss_list::Steps;
use ss_query::{Picked, Query, read_query};
use ss_text::Stamp;
use std::alloc::Global;
use std::sync::ledger::Ledger;

/// A row of one collection is put on a shelf.
fn put(alloc: Global, shelf: &mut Shelf, number: u32) -> anyhow::Result<()> {
    let time = u64::from(number).saturating_add(1000);
    let mut rows = Vec::new(alloc);
    rows.push(RowChange::Put(row(alloc, number.saturating_mul(4), time)?))?;
    let changes = changes(alloc, rows, Vec::new(alloc), time);
    if !change(alloc, shelf, &changes)? {
        bail!("changes out of time");
    }
    Ok(())
}

/// Puts five rows of one collection on a shelf, written at 10.00 to 10.04.
fn put_five(alloc: Global, shelf: &mut Shelf) -> anyhow::Result<()> {
    for number in 0..5u32 {
        put(alloc, shelf, number)?;
    }
    Ok(())
}

/// How many rows are newer than a time.
fn count_newer(rows: &[Row], newer: Stamp) -> u64
    ensures { result ≡ count_by (is_above (Some newer)) rows.now }
{
    let mut count = 0;
    for row in rows {
        if newer.get() < row.modified.get() {
            count += 1;
        }
    }
    count
}

/// The query of what is newer than a time.
fn since(alloc: Global, newer: Stamp) -> anyhow::Result<Query>
    ensures { IfOk result (λ query. query.newer ≡ Some newer) }
{
    let Ok(mut query) = read_query(alloc, b"") else {
        bail!("no query");
    };
    query.newer = Some(newer);
    Ok(query)
}

/// What is newer than a time, where at most three rows of any collection are newer: then at most three links are
/// followed.
fn few_newer<L: Ledger>(
    alloc: Global,
    shelf: &Shelf,
    newer: Stamp,
    steps: &mut Steps<L>,
) -> anyhow::Result<Picked>
    ensures { OnOk result (steps.new ≤ steps.old + 3) }
{
    let rows = shelf.copy_rows(alloc)?;
    if count_newer(rows.as_slice(), newer) > 3 {
        bail!("more than three rows");
    }
    let (name, query) = (collection(alloc, 0)?, since(alloc, newer)?);
    Ok(shelf.select(alloc, &name, &query, steps)?)
}

/// The times of these rows among so many.
fn times_of(alloc: Global, rows: &[Row], all: u64) -> anyhow::Result<String> {
    let mut told = format!(in alloc; "{} of {all} rows:", rows.len())?;
    for row in rows {
        told.push_str(format!(in alloc; " {}", row.modified.get())?.as_str())?;
    }
    Ok(told)
}

/// The times of the rows on a shelf that are newer than a time.
fn times_on<L: Ledger>(
    alloc: Global,
    shelf: &Shelf,
    newer: u64,
    steps: &mut Steps<L>,
) -> anyhow::Result<String> {
    let picked = few_newer(alloc, shelf, Stamp::clamp(newer), steps)?;
    times_of(alloc, picked.rows.as_slice(), shelf.len())
}

/// The times of the rows among five that are newer than a time.
pub fn times<L: Ledger>(alloc: Global, newer: u64, steps: &mut Steps<L>) -> anyhow::Result<String> {
    let mut shelf = Shelf::new(alloc);
    put_five(alloc, &mut shelf)?;
    times_on(alloc, &shelf, newer, steps)
}
