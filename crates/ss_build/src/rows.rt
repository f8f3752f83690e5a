//! Rows as they were read.

ghost use Rattle.std.specs.Prelude.{◌≡◌, IfOk};
ghost use Rattle.ss_build.specs.Rows.{dead, is_skipped, is_tombstone, readings, rows_of, skipped};

use crate::orders::by_id;
use ss_record::{Reading, Sheet, read_record};
use ss_text::{Id, Ids, Stamp};
use std::alloc::{AllocError, Global};

/// A row as it was read: its id, its time in hundredths of a second, and what it says of its id.
#[derive(Drop, Debug)]
pub(crate) struct Row {
    pub(crate) id: Id,
    pub(crate) time: Stamp,
    pub(crate) reading: Reading,
}

/// What each sheet says, in their order.
#[tactic(auto, unfolding(crate::specs::Rows::row_of))]
pub(crate) fn read_rows(alloc: Global, sheets: &[Sheet]) -> Result<Vec<Row>, AllocError>
    ensures { IfOk result (λ rows. rows.items ≡ rows_of sheets.now) }
{
    let mut rows = Vec::with_capacity(alloc, sheets.len())?;
    for sheet in sheets {
        rows.push(Row {
            id: sheet.id.copy(alloc)?,
            time: sheet.modified,
            reading: read_record(alloc, sheet)?,
        })?;
    }
    Ok(rows)
}

/// Whether the item was deleted.
fn is_tombstone(reading: &Reading) -> bool
    ensures { result ≡ is_tombstone reading.now }
{
    matches!(reading, Reading::Tombstone)
}

/// Whether nothing is understood of the row.
fn is_skipped(reading: &Reading) -> bool
    ensures { result ≡ is_skipped reading.now }
{
    matches!(reading, Reading::Skipped)
}

/// The ids that are told as deleted, by id.
#[tactic(auto, unfolding(crate::specs::Rows::dead))]
pub(crate) fn dead(alloc: Global, rows: &[Row]) -> Result<Ids, AllocError>
    ensures { IfOk result (λ ids. ids ≡ dead rows.now) }
{
    let mut ids = Vec::new(alloc);
    for row in rows {
        if is_tombstone(&row.reading) {
            ids.push(row.id.copy(alloc)?)?;
        }
    }
    by_id(ids)
}

/// The ids of which nothing is understood, by id.
#[tactic(auto, unfolding(crate::specs::Rows::skipped))]
pub(crate) fn skipped(alloc: Global, rows: &[Row]) -> Result<Ids, AllocError>
    ensures { IfOk result (λ ids. ids ≡ skipped rows.now) }
{
    let mut ids = Vec::new(alloc);
    for row in rows {
        if is_skipped(&row.reading) {
            ids.push(row.id.copy(alloc)?)?;
        }
    }
    by_id(ids)
}

/// Each id with what was read of it, in the order of the rows.
pub(crate) fn readings(alloc: Global, rows: Vec<Row>) -> Result<Vec<(Id, Reading)>, AllocError>
    ensures { IfOk result (λ told. told.items ≡ readings rows.items) }
{
    let mut told = Vec::with_capacity(alloc, rows.len())?;
    for row in rows {
        let Row { id, reading, .. } = row;
        told.push((id, reading))?;
    }
    Ok(told)
}
