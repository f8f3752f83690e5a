//! The plain slow program for changes: a tree as a list of rows over numbers, in which siblings stand in their order.

use std::alloc::{AllocError, Global};

/// The numbers of the roots are those below this one.
const ROOTS: u32 = 4;

/// An item's number, its parent's, and whether it is a folder.
#[derive(Clone, Copy)]
pub struct Row {
    pub id: u32,
    pub parent: u32,
    pub folder: bool,
}

fn find(rows: &[Row], id: u32) -> Option<Row> {
    rows.iter().find(|row| row.id == id).copied()
}

fn takes_children(rows: &[Row], id: u32) -> bool {
    id < ROOTS || rows.iter().any(|row| row.id == id && row.folder)
}

/// Whether a number is met on the way up from another one.
fn is_under(rows: &[Row], top: u32, id: u32) -> bool {
    let mut at = id;
    for _step in 0..rows.len() {
        let Some(row) = find(rows, at) else {
            return false;
        };
        if row.parent == top {
            return true;
        }
        at = row.parent;
    }
    false
}

fn is_place(rows: &[Row], parent: u32, before: Option<u32>) -> bool {
    match before {
        Some(id) => rows.iter().any(|row| row.id == id && row.parent == parent),
        None => true,
    }
}

/// The rows with one more, before that of a sibling or last.
fn with_row(
    alloc: Global,
    rows: &[Row],
    row: Row,
    before: Option<u32>,
) -> Result<Vec<Row>, AllocError> {
    let mut all = Vec::new(alloc);
    for other in rows {
        if before == Some(other.id) {
            all.push(row)?;
        }
        all.push(*other)?;
    }
    if before.is_none() {
        all.push(row)?;
    }
    Ok(all)
}

fn without(alloc: Global, rows: &[Row], id: u32) -> Result<Vec<Row>, AllocError> {
    let mut all = Vec::new(alloc);
    for row in rows {
        if row.id != id {
            all.push(*row)?;
        }
    }
    Ok(all)
}

/// The rows after an insertion; None where it is refused.
pub fn inserted(
    alloc: Global,
    rows: &[Row],
    row: Row,
    before: Option<u32>,
) -> Result<Option<Vec<Row>>, AllocError> {
    if !takes_children(rows, row.parent)
        || find(rows, row.id).is_some()
        || !is_place(rows, row.parent, before)
    {
        return Ok(None);
    }
    Ok(Some(with_row(alloc, rows, row, before)?))
}

/// The rows after a move; None where it is refused, or there is no such item.
pub fn moved(
    alloc: Global,
    rows: &[Row],
    id: u32,
    parent: u32,
    before: Option<u32>,
) -> Result<Option<Vec<Row>>, AllocError> {
    let Some(row) = find(rows, id) else {
        return Ok(None);
    };
    if !takes_children(rows, parent)
        || id == parent
        || is_under(rows, id, parent)
        || !is_place(rows, parent, before)
        || before == Some(id)
    {
        return Ok(None);
    }
    let rest = without(alloc, rows, id)?;
    Ok(Some(with_row(
        alloc,
        &rest,
        Row {
            id,
            parent,
            folder: row.folder,
        },
        before,
    )?))
}

/// The rows after a removal; None where it is refused, or there is no such item.
pub fn removed(alloc: Global, rows: &[Row], id: u32) -> Result<Option<Vec<Row>>, AllocError> {
    if find(rows, id).is_none() || rows.iter().any(|row| row.parent == id) {
        return Ok(None);
    }
    Ok(Some(without(alloc, rows, id)?))
}

/// The numbers in preorder.
pub fn listed(alloc: Global, rows: &[Row]) -> Result<Vec<u32>, AllocError> {
    let mut ahead = vec![in alloc; 3, 2, 1, 0]?;
    let mut numbers = Vec::new(alloc);
    for _step in 0..rows.len().saturating_add(4) {
        let Some(id) = ahead.pop() else {
            return Ok(numbers);
        };
        numbers.push(id)?;
        for row in rows.iter().rev() {
            if row.parent == id {
                ahead.push(row.id)?;
            }
        }
    }
    Ok(numbers)
}
