//! The numbers under which stored records stand in their table. No index finds a record's number there, so all are read
//! where a record is written.

use crate::faults::{NO_MEMORY, Refusal};
use crate::many::insert_rows;
use crate::numbers::number;
use crate::places::{Place, Table};
use crate::stored::{Stored, Unread, id_at, name_at, read_all, stamp_at};
use crate::tables::renew_rows;
use sqlite::{Alter, Row as Values, Transaction};
use ss_bso::Row;
use ss_text::{Id, Name, Word};
use std::alloc::{AllocError, Global};
use std::collections::BTreeMap;

/// The largest number that a row has, far enough from the largest one of SQLite that further rows find theirs behind it.
const MOST_NUMBER: i64 = 4_611_686_018_427_387_904;

/// How many stored records of an older version have their values in memory at a time.
const SOME_ROWS: usize = 1000;

/// The key of a stored record: its collection and its id.
#[derive(Clone, Copy, PartialEq, Eq, PartialOrd, Ord, Drop)]
pub(crate) struct Key<'a> {
    pub(crate) collection: &'a Name,
    pub(crate) id: &'a Id,
}

/// The numbers of the stored records of the table, by their keys.
pub(crate) type Numbers<'a> = BTreeMap<Key<'a>, i64>;

/// A stored record, with its number.
#[derive(Drop)]
struct Numbered {
    number: i64,
    row: Row,
}

/// The key of a stored record, with its number.
#[derive(Drop)]
pub(crate) struct Keyed {
    number: i64,
    collection: Name,
    id: Id,
}

/// The key of a stored record.
pub(crate) fn key_of(row: &Row) -> Key<'_> {
    Key {
        collection: &row.collection,
        id: &row.id,
    }
}

/// A stored record, which has a number of SQLite's own in an older version.
impl Stored for Row {
    const TABLE: Table = Table::Rows;

    const SELECT: &'static str =
        "SELECT rowid, collection, id, modified, sortindex, payload, expires FROM rows";

    fn read(alloc: Global, values: &Values) -> Result<Row, Unread> {
        let expires: Option<i64> = values.get(6)?;
        Ok(Row {
            collection: name_at(alloc, values, 1)?,
            id: id_at(alloc, values, 2)?,
            modified: stamp_at(values, 3)?,
            sortindex: values.get(4)?,
            payload: Word::new(values.get(5)?),
            expires: expires.map(number),
        })
    }
}

/// The number of a row of the table, from 1 on.
fn number_of(values: &Values) -> Result<i64, Unread> {
    let number: i64 = values.get(0)?;
    if number < 1 || number > MOST_NUMBER {
        return Err(Unread::OutOfForm);
    }
    Ok(number)
}

impl Stored for Numbered {
    const TABLE: Table = Table::Rows;

    const SELECT: &'static str =
        "SELECT number, collection, id, modified, sortindex, payload, expires FROM rows";

    fn read(alloc: Global, values: &Values) -> Result<Numbered, Unread> {
        Ok(Numbered {
            number: number_of(values)?,
            row: Row::read(alloc, values)?,
        })
    }
}

impl Stored for Keyed {
    const TABLE: Table = Table::Rows;

    const SELECT: &'static str = "SELECT number, collection, id FROM rows";

    fn read(alloc: Global, values: &Values) -> Result<Keyed, Unread> {
        Ok(Keyed {
            number: number_of(values)?,
            collection: name_at(alloc, values, 1)?,
            id: id_at(alloc, values, 2)?,
        })
    }
}

/// The stored records of the table, and their numbers in the same order.
pub(crate) fn read_rows<S: Alter>(
    alloc: Global,
    transaction: &mut Transaction<'_, S>,
) -> Result<(Vec<Row>, Vec<i64>), Refusal> {
    let all: Vec<Numbered> = read_all(alloc, transaction, &[])?;
    let mut rows = Vec::new(alloc);
    let mut numbers = Vec::new(alloc);
    for numbered in all {
        rows.push(numbered.row).map_err(|_| NO_MEMORY)?;
        numbers.push(numbered.number).map_err(|_| NO_MEMORY)?;
    }
    Ok((rows, numbers))
}

/// The keys of the stored records of the table, with their numbers.
pub(crate) fn read_keys<S: Alter>(
    alloc: Global,
    transaction: &mut Transaction<'_, S>,
) -> Result<Vec<Keyed>, Refusal> {
    read_all(alloc, transaction, &[])
}

/// Adds the number of a further stored record. Where another one has its key, it is out of form.
fn add<'a>(numbers: &mut Numbers<'a>, key: Key<'a>, number: i64) -> Result<(), Refusal> {
    match numbers.insert(key, number) {
        Ok(None) => Ok(()),
        Ok(Some(_)) => Err(Refusal::Damaged {
            place: Place {
                table: Table::Rows,
                row: number,
            },
        }),
        Err(_) => Err(Refusal::Statement(NO_MEMORY)),
    }
}

/// The numbers of stored records that were read with them, of which no two have one key.
pub(crate) fn numbers_of_rows<'a>(
    alloc: Global,
    rows: &'a [Row],
    numbers: &[i64],
) -> Result<Numbers<'a>, Refusal> {
    let mut all = BTreeMap::new(alloc);
    for (row, number) in rows.iter().zip(numbers) {
        add(&mut all, key_of(row), *number)?;
    }
    Ok(all)
}

/// The numbers of stored records whose keys were read.
pub(crate) fn numbers_of_keys(alloc: Global, keys: &[Keyed]) -> Result<Numbers<'_>, Refusal> {
    let mut all = BTreeMap::new(alloc);
    for keyed in keys {
        let key = Key {
            collection: &keyed.collection,
            id: &keyed.id,
        };
        add(&mut all, key, keyed.number)?;
    }
    Ok(all)
}

fn lent(alloc: Global, rows: &[Row]) -> Result<Vec<&Row>, AllocError> {
    let mut lent = Vec::new(alloc);
    for row in rows {
        lent.push(row)?;
    }
    Ok(lent)
}

fn insert_some<S: Alter>(
    alloc: Global,
    transaction: &mut Transaction<'_, S>,
    rows: &[Row],
) -> Result<(), Refusal> {
    let lent = lent(alloc, rows)?;
    insert_rows(alloc, transaction, lent.as_slice())
}

/// Gives the stored records of an older version numbers of their own, and its tables the version that has them.
pub(crate) fn number_rows<S: Alter>(
    alloc: Global,
    transaction: &mut Transaction<'_, S>,
) -> Result<(), Refusal> {
    let rows: Vec<Row> = read_all(alloc, transaction, &[])?;
    renew_rows(transaction)?;
    for some in rows.chunks(SOME_ROWS) {
        insert_some(alloc, transaction, some)?;
    }
    Ok(())
}
