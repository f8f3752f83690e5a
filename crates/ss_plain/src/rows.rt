//! What writes make of a list of rows.

ghost use Rattle.std.specs.Prelude.{◌≡◌, ◌&&◌, ◌++◌, bytes_eq, filter_map, option_copied, option_to_list, IfOk, OnOk};
ghost use Rattle.ss_bso.specs.Account.{is_at, row_at};
ghost use Rattle.ss_bso.specs.Write.{ids_of, is_among, parts_of, put_all, rows_without};

use ss_bso::{Part, Row, put};
use ss_text::{Id, Name, Stamp};
use std::alloc::{AllocError, Global};

fn is_at(row: &Row, collection: &Name, id: &Id) -> bool
    ensures { result ≡ is_at collection.now id.now row.now }
{
    row.collection == *collection && row.id == *id
}

/// The row of a collection and id, where it is there.
pub(crate) fn find_row<'a>(rows: &'a [Row], collection: &Name, id: &Id) -> Option<&'a Row>
    ensures { option_copied result ≡ row_at collection.now id.now rows.now }
{
    rows.iter().find(|row| is_at(row, collection, id))
}

fn is_among(ids: &[Id], id: &Id) -> bool
    ensures { result ≡ is_among ids.now id.now }
{
    ids.iter().any(|other| *other == *id)
}

/// Whether a row is in a collection and has one of these ids.
pub(crate) fn is_named(row: &Row, collection: &Name, ids: &[Id]) -> bool
    ensures { result ≡ (bytes_eq row.now.collection collection.now && is_among ids.now row.now.id) }
{
    row.collection == *collection && is_among(ids, &row.id)
}

/// The rows without those of these ids in a collection.
pub(crate) fn rows_without(mut rows: Vec<Row>, collection: &Name, ids: &[Id]) -> Vec<Row>
    ensures { result.items ≡ rows_without collection.now ids.now rows.items }
{
    rows.retain(|row| !is_named(row, collection, ids));
    rows
}

fn copied(alloc: Global, row: Option<&Row>) -> Result<Option<Row>, AllocError>
    ensures { IfOk result (λ copied. copied ≡ option_copied row.entry) }
{
    match row {
        Some(row) => Ok(Some(row.copy(alloc)?)),
        None => Ok(None),
    }
}

/// The row that the parts of an id make of the old one, one after the other.
fn made_row(
    alloc: Global,
    rows: &[Row],
    collection: &Name,
    id: &Id,
    parts: &[Part],
    stamp: Stamp,
) -> Result<Option<Row>, AllocError>
    ensures { IfOk result (λ made. made ≡ put_all collection.now (parts_of id.now parts.now) stamp
        (row_at collection.now id.now rows.now)) }
{
    let mut made = copied(alloc, find_row(rows, collection, id))?;
    for part in parts {
        if part.id == *id {
            made = Some(put(alloc, made.as_ref(), collection, part, stamp)?);
        }
    }
    Ok(made)
}

/// Adds a row, where it is there.
fn push_some(rows: &mut Vec<Row>, row: Option<Row>) -> Result<(), AllocError>
    ensures { OnOk result (rows.new.items ≡ rows.old.items ++ option_to_list row) }
{
    if let Some(row) = row {
        rows.push(row)?;
    }
    Ok(())
}

/// The row of each id that parts make of the old rows.
pub(crate) fn made_rows(
    alloc: Global,
    rows: &[Row],
    collection: &Name,
    ids: &[Id],
    parts: &[Part],
    stamp: Stamp,
) -> Result<Vec<Row>, AllocError>
    ensures { IfOk result (λ made. made.items ≡ filter_map (λ id. put_all collection.now (parts_of id parts.now) stamp
        (row_at collection.now id rows.now)) ids.now) }
{
    let mut made = Vec::new(alloc);
    for id in ids {
        let row = made_row(alloc, rows, collection, id, parts, stamp)?;
        push_some(&mut made, row)?;
    }
    Ok(made)
}
