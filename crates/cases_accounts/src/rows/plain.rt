//! A plain list of rows, which is read whole for each answer.

use crate::rows::shelf_rows::collection;
use ss_bso::{Changes, CollectionChange, Row, RowChange};
use ss_text::{Id, Name};
use std::alloc::{AllocError, Global};

/// The rows without those that have ended by a moment.
fn without_ended(alloc: Global, rows: Vec<Row>, moment: u64) -> Result<Vec<Row>, AllocError> {
    let mut left = Vec::new(alloc);
    for row in rows {
        let alive = match row.expires {
            Some(end) => moment < end,
            None => true,
        };
        if alive {
            left.push(row)?;
        }
    }
    Ok(left)
}

/// The rows without those of a collection that have this id, or without all of the collection.
fn without(
    alloc: Global,
    rows: Vec<Row>,
    collection: &Name,
    id: Option<&Id>,
) -> Result<Vec<Row>, AllocError> {
    let mut left = Vec::new(alloc);
    for row in rows {
        let named = match id {
            Some(id) => row.id == *id,
            None => true,
        };
        if !named || row.collection != *collection {
            left.push(row)?;
        }
    }
    Ok(left)
}

/// The rows after one change of rows.
fn with_row(alloc: Global, rows: Vec<Row>, change: &RowChange) -> Result<Vec<Row>, AllocError> {
    match change {
        RowChange::Put(row) => {
            let mut rows = without(alloc, rows, &row.collection, Some(&row.id))?;
            rows.push(row.copy(alloc)?)?;
            Ok(rows)
        }
        RowChange::Drop { collection, id } => without(alloc, rows, collection, Some(id)),
    }
}

/// The list after changes.
pub fn listed(alloc: Global, rows: Vec<Row>, changes: &Changes) -> Result<Vec<Row>, AllocError> {
    let mut rows = without_ended(alloc, rows, changes.moment.get())?;
    for change in changes.collections.as_slice() {
        if let CollectionChange::Drop { name } = change {
            rows = without(alloc, rows, name, None)?;
        }
    }
    for change in changes.rows.as_slice() {
        rows = with_row(alloc, rows, change)?;
    }
    Ok(rows)
}

/// The rows of a collection, copied.
pub fn rows_of(alloc: Global, rows: &[Row], collection: &Name) -> Result<Vec<Row>, AllocError> {
    let mut found = Vec::new(alloc);
    for row in rows {
        if row.collection == *collection {
            found.push(row.copy(alloc)?)?;
        }
    }
    Ok(found)
}

/// How many rows of a list a collection has, and their payload bytes.
fn size_of(rows: &[Row], name: &Name) -> (u64, u64) {
    let (mut count, mut bytes) = (0u64, 0u64);
    for row in rows {
        if row.collection == *name {
            count = count.saturating_add(1);
            bytes = bytes.saturating_add(row.payload.as_str().len() as u64);
        }
    }
    (count, bytes)
}

/// The rows and bytes of each collection that has a row, upwards by name, and the bytes of all.
pub fn sizes(alloc: Global, rows: &[Row]) -> anyhow::Result<String> {
    let mut line = String::new(alloc);
    let mut total = 0u64;
    for number in 0..2u32 {
        let name = collection(alloc, number)?;
        let (count, bytes) = size_of(rows, &name);
        if count > 0 {
            let word = format!(in alloc; "{}={count},{bytes} ", name.as_str())?;
            line.push_str(word.as_str())?;
        }
        total = total.saturating_add(bytes);
    }
    Ok(format!(in alloc; "{line}total={total}")?)
}
