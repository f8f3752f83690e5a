//! The stored records that commits touch, written to their table: each once, however often it was changed.

use crate::faults::{NO_MEMORY, Refusal};
use crate::many::insert_rows;
use crate::numbers::integer;
use crate::row_numbers::{Key, Numbers, key_of};
use sqlite::{Alter, Error, Transaction, params};
use ss_bso::{Changes, Row, RowChange};
use ss_text::Name;
use std::alloc::{AllocError, Global};
use std::collections::{BTreeMap, HashSet};

const CHANGE_ROW: &str =
    "UPDATE rows SET modified = ?2, sortindex = ?3, payload = ?4, expires = ?5 WHERE number = ?1";

const DROP_ROW: &str = "DELETE FROM rows WHERE number = ?1";

fn key_of_change(change: &RowChange) -> Key<'_> {
    match change {
        RowChange::Put(row) => key_of(row),
        RowChange::Drop { collection, id } => Key { collection, id },
    }
}

/// What is there of keys in the end; None where no row is.
type Ends<'a> = BTreeMap<Key<'a>, Option<&'a Row>>;

fn has_name(names: &HashSet<&Name>, name: &Name) -> bool {
    names.contains(&name)
}

/// Notes the rows of the table that go with their collections.
fn note_dropped<'a>(
    ends: &mut Ends<'a>,
    dropped: &HashSet<&'a Name>,
    numbers: &Numbers<'a>,
) -> Result<(), AllocError> {
    if dropped.is_empty() {
        return Ok(());
    }
    for key in numbers.keys() {
        if has_name(&*dropped, key.collection) {
            let _none = ends.insert(*key, None)?;
        }
    }
    Ok(())
}

fn note_touched<'a>(ends: &mut Ends<'a>, changes: &'a [RowChange]) -> Result<(), AllocError> {
    for change in changes {
        let _none = ends.insert(key_of_change(change), None)?;
    }
    Ok(())
}

/// What is there in the end of the keys that commits touch.
fn ends<'a>(
    alloc: Global,
    commits: &'a [Changes],
    dropped: &HashSet<&'a Name>,
    numbers: &Numbers<'a>,
    puts: &'a [Row],
) -> Result<Ends<'a>, AllocError> {
    let mut ends = BTreeMap::new(alloc);
    note_dropped(&mut ends, &*dropped, &*numbers)?;
    for commit in commits {
        note_touched(&mut ends, commit.rows.as_slice())?;
    }
    for row in puts {
        let _none = ends.insert(key_of(row), Some(row))?;
    }
    Ok(ends)
}

/// What becomes of rows of the table, by their numbers; None where one goes.
type Stored<'a> = BTreeMap<i64, Option<&'a Row>>;

/// Parts what is there in the end into what becomes of the rows of the table, and the rows that aren't there.
fn parted<'a>(
    alloc: Global,
    ends: Ends<'a>,
    numbers: &Numbers<'a>,
) -> Result<(Stored<'a>, Vec<&'a Row>), AllocError> {
    let mut stored = BTreeMap::new(alloc);
    let mut new = Vec::new(alloc);
    for (key, row) in ends {
        match (numbers.get(&key), row) {
            (Some(number), row) => {
                let _none = stored.insert(*number, row)?;
            }
            (None, Some(row)) => new.push(row)?,
            (None, None) => {}
        }
    }
    Ok((stored, new))
}

/// Changes the row with a number, and says whether it is there.
fn change_row<S: Alter>(
    transaction: &mut Transaction<'_, S>,
    number: i64,
    row: &Row,
) -> Result<bool, Error> {
    let expires = row.expires.map(integer);
    let rows = transaction.execute(
        CHANGE_ROW,
        params![
            number,
            integer(row.modified.get()),
            row.sortindex,
            row.payload.as_str(),
            expires,
        ],
    )?;
    Ok(rows != 0)
}

/// Changes or drops the row with a number. Gives the row that is to be there and isn't, since that one had ended.
fn write_row<'a, S: Alter>(
    transaction: &mut Transaction<'_, S>,
    number: i64,
    row: Option<&'a Row>,
) -> Result<Option<&'a Row>, Error> {
    match row {
        Some(row) => {
            let is_changed = change_row(transaction, number, row)?;
            Ok(if is_changed { None } else { Some(row) })
        }
        None => {
            let _rows = transaction.execute(DROP_ROW, params![number])?;
            Ok(None)
        }
    }
}

/// Writes what commits make of rows: those of the table in the order of their numbers, the others behind them. The rows that
/// have ended are gone from the table already; `dropped` are the collections that commits drop, `numbers` has the rows
/// that were in the table before, and `puts` are those that are put and stay.
pub(crate) fn write_rows<'a, S: Alter>(
    alloc: Global,
    transaction: &mut Transaction<'_, S>,
    commits: &'a [Changes],
    dropped: &HashSet<&'a Name>,
    numbers: &Numbers<'a>,
    puts: &'a [Row],
) -> Result<(), Refusal> {
    let ends = ends(alloc, commits, &*dropped, &*numbers, puts)?;
    let (stored, mut new) = parted(alloc, ends, &*numbers)?;
    for (number, row) in stored {
        if let Some(row) = write_row(transaction, number, row)? {
            new.push(row).map_err(|_| NO_MEMORY)?;
        }
    }
    insert_rows(alloc, transaction, new.as_slice())
}
