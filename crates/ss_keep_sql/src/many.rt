//! Rows of a table, inserted many at once.

use crate::faults::{NO_MEMORY, Refusal};
use crate::numbers::integer;
use sqlite::types::ValueRef;
use sqlite::{Alter, Error, Transaction};
use ss_bso::{Field, Part, Row};
use ss_text::Word;
use std::alloc::{AllocError, Global};

/// How many rows one statement inserts at most.
const MOST_ROWS: usize = 50;

const INSERT_ROWS: &str =
    "INSERT INTO rows (collection, id, modified, sortindex, payload, expires) VALUES ";

const ROW: &str = "(?, ?, ?, ?, ?, ?)";

const ROW_COLUMNS: usize = 6;

const INSERT_PARTS: &str =
    "INSERT INTO parts (number, place, id, has_payload, payload, has_sortindex, sortindex, has_ttl, ttl) VALUES ";

const PART: &str = "(?, ?, ?, ?, ?, ?, ?, ?, ?)";

const PART_COLUMNS: usize = 9;

/// The statement that inserts so many rows.
fn statement(alloc: Global, front: &str, row: &str, count: usize) -> Result<String, AllocError> {
    let mut text = String::from_str(alloc, front)?;
    for at in 0..count {
        if at != 0 {
            text.push_str(", ")?;
        }
        text.push_str(row)?;
    }
    Ok(text)
}

/// Inserts so many rows that have these values.
fn insert<S: Alter>(
    alloc: Global,
    transaction: &mut Transaction<'_, S>,
    front: &str,
    row: &str,
    count: usize,
    values: &[ValueRef<'_>],
) -> Result<(), Error> {
    let Ok(text) = statement(alloc, front, row, count) else {
        return Err(NO_MEMORY);
    };
    let _rows = transaction.execute(text.as_str(), values)?;
    Ok(())
}

fn number_or_null(number: Option<i64>) -> ValueRef<'static> {
    match number {
        Some(number) => ValueRef::Int(number),
        None => ValueRef::Null,
    }
}

/// Appends the values of a stored record.
fn push_row<'a>(values: &mut Vec<ValueRef<'a>>, row: &'a Row) -> Result<(), AllocError> {
    values.push(ValueRef::Text(row.collection.as_str().as_bytes()))?;
    values.push(ValueRef::Text(row.id.as_str().as_bytes()))?;
    values.push(ValueRef::Int(integer(row.modified.get())))?;
    values.push(number_or_null(row.sortindex.map(i64::from)))?;
    values.push(ValueRef::Text(row.payload.as_str().as_bytes()))?;
    values.push(number_or_null(row.expires.map(integer)))?;
    Ok(())
}

fn row_values<'a>(alloc: Global, rows: &[&'a Row]) -> Result<Vec<ValueRef<'a>>, AllocError> {
    let mut values = Vec::new(alloc);
    for row in rows {
        push_row(&mut values, row)?;
    }
    Ok(values)
}

/// Inserts stored records, of which none is there.
pub(crate) fn insert_rows<S: Alter>(
    alloc: Global,
    transaction: &mut Transaction<'_, S>,
    rows: &[&Row],
) -> Result<(), Refusal> {
    let values = row_values(alloc, rows)?;
    for some in values.chunks(MOST_ROWS * ROW_COLUMNS) {
        let count = some.len() / ROW_COLUMNS;
        insert(alloc, transaction, INSERT_ROWS, ROW, count, some)?;
    }
    Ok(())
}

/// Whether a field is given.
fn is_given<T>(field: &Field<T>) -> ValueRef<'static> {
    ValueRef::Int(match field {
        Field::Keep => 0,
        Field::Clear | Field::Set(_) => 1,
    })
}

fn text_of(field: &Field<Word>) -> ValueRef<'_> {
    match field {
        Field::Set(text) => ValueRef::Text(text.as_str().as_bytes()),
        Field::Keep | Field::Clear => ValueRef::Null,
    }
}

fn sortindex_of(field: &Field<i32>) -> ValueRef<'static> {
    match field {
        Field::Set(number) => ValueRef::Int(i64::from(*number)),
        Field::Keep | Field::Clear => ValueRef::Null,
    }
}

fn ttl_of(field: &Field<u32>) -> ValueRef<'static> {
    match field {
        Field::Set(seconds) => ValueRef::Int(i64::from(*seconds)),
        Field::Keep | Field::Clear => ValueRef::Null,
    }
}

/// Appends the values of a part of a batch at a place.
fn push_part<'a>(
    values: &mut Vec<ValueRef<'a>>,
    batch: u64,
    place: i64,
    part: &'a Part,
) -> Result<(), AllocError> {
    values.push(ValueRef::Int(integer(batch)))?;
    values.push(ValueRef::Int(place))?;
    values.push(ValueRef::Text(part.id.as_str().as_bytes()))?;
    values.push(is_given(&part.fields.payload))?;
    values.push(text_of(&part.fields.payload))?;
    values.push(is_given(&part.fields.sortindex))?;
    values.push(sortindex_of(&part.fields.sortindex))?;
    values.push(is_given(&part.fields.ttl))?;
    values.push(ttl_of(&part.fields.ttl))?;
    Ok(())
}

/// The values of parts of a batch that come behind the one at this place.
fn part_values(
    alloc: Global,
    batch: u64,
    behind: i64,
    parts: &[Part],
) -> Result<Vec<ValueRef<'_>>, AllocError> {
    let mut values = Vec::new(alloc);
    let mut place = behind;
    for part in parts {
        place = place.saturating_add(1);
        push_part(&mut values, batch, place, part)?;
    }
    Ok(values)
}

/// Inserts parts of a batch, which come behind the one at this place; 0 where there is none.
pub(crate) fn insert_parts<S: Alter>(
    alloc: Global,
    transaction: &mut Transaction<'_, S>,
    batch: u64,
    behind: i64,
    parts: &[Part],
) -> Result<(), Refusal> {
    let values = part_values(alloc, batch, behind, parts)?;
    for some in values.chunks(MOST_ROWS * PART_COLUMNS) {
        let count = some.len() / PART_COLUMNS;
        insert(alloc, transaction, INSERT_PARTS, PART, count, some)?;
    }
    Ok(())
}
