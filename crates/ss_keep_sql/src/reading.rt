//! What an account's tables hold.

use crate::faults::{NO_MEMORY, Refusal};
use crate::numbers::{integer, number};
use crate::places::{Place, Table};
use crate::row_numbers::read_rows;
use crate::stored::{Stored, Unread, flag_at, id_at, name_at, read_all, stamp_at};
use crate::tables::IN_TRANSACTION;
use sqlite::{Alter, Connection, Error, Row as Values, Transaction, params};
use ss_bso::{Batches, Changes, Field, Fields, Kept, Part, Parts, Rows, Staged, Times};
use ss_keeper::make;
use ss_text::{Name, Stamp, Word};
use std::alloc::Global;

/// A part whose batch isn't there.
const STRAY_PART: &str =
    "SELECT rowid FROM parts WHERE number NOT IN (SELECT number FROM batches) LIMIT 1";

/// What `about` says besides the version.
#[derive(Clone, Copy, Debug)]
struct About {
    row: i64,
    store: Stamp,
    last_delete: Stamp,
    counter: u64,
}

impl Stored for About {
    const TABLE: Table = Table::About;

    const SELECT: &'static str = "SELECT rowid, store, last_delete, counter FROM about";

    fn read(_alloc: Global, values: &Values) -> Result<About, Unread> {
        let counter: i64 = values.get(3)?;
        Ok(About {
            row: values.get(0)?,
            store: stamp_at(values, 1)?,
            last_delete: stamp_at(values, 2)?,
            counter: number(counter),
        })
    }
}

impl Stored for (Name, Stamp) {
    const TABLE: Table = Table::Collections;

    const SELECT: &'static str = "SELECT rowid, name, time FROM collections";

    fn read(alloc: Global, values: &Values) -> Result<(Name, Stamp), Unread> {
        Ok((name_at(alloc, values, 1)?, stamp_at(values, 2)?))
    }
}

/// A batch, without its parts.
impl Stored for Staged {
    const TABLE: Table = Table::Batches;

    const SELECT: &'static str = "SELECT number, collection, begun FROM batches ORDER BY number";

    fn read(alloc: Global, values: &Values) -> Result<Staged, Unread> {
        let held: i64 = values.get(0)?;
        Ok(Staged {
            number: number(held),
            collection: name_at(alloc, values, 1)?,
            begun: stamp_at(values, 2)?,
            parts: Parts::new(Vec::new(alloc)),
        })
    }
}

/// A field of a part: whether it is given, and then its value, where it isn't cleared.
fn field<T: Drop>(is_given: bool, value: Option<T>) -> Result<Field<T>, Unread> {
    match (is_given, value) {
        (false, None) => Ok(Field::Keep),
        (false, Some(_)) => Err(Unread::OutOfForm),
        (true, None) => Ok(Field::Clear),
        (true, Some(value)) => Ok(Field::Set(value)),
    }
}

fn read_fields(values: &Values) -> Result<Fields, Unread> {
    let payload: Option<String> = values.get(4)?;
    Ok(Fields {
        payload: field(flag_at(values, 3)?, payload.map(Word::new))?,
        sortindex: field(flag_at(values, 5)?, values.get(6)?)?,
        ttl: field(flag_at(values, 7)?, values.get(8)?)?,
    })
}

impl Stored for Part {
    const TABLE: Table = Table::Parts;

    const SELECT: &'static str =
        "SELECT rowid, place, id, has_payload, payload, has_sortindex, sortindex, has_ttl, ttl FROM parts WHERE number = ?1 ORDER BY place";

    fn read(alloc: Global, values: &Values) -> Result<Part, Unread> {
        let place: i64 = values.get(1)?;
        if place < 1 {
            return Err(Unread::OutOfForm);
        }
        Ok(Part {
            id: id_at(alloc, values, 2)?,
            fields: read_fields(values)?,
        })
    }
}

/// The row of `about`, which has no other one.
fn read_about<S: Alter>(
    alloc: Global,
    transaction: &mut Transaction<'_, S>,
) -> Result<About, Refusal> {
    let all: Vec<About> = read_all(alloc, transaction, &[])?;
    match all.as_slice() {
        [] => Err(Refusal::Statement(Error::QueryReturnedNoRows)),
        [about] => Ok(*about),
        [_, further, ..] => Err(Refusal::Damaged {
            place: Place {
                table: Table::About,
                row: further.row,
            },
        }),
    }
}

/// Refuses a part that stands there for a batch that doesn't.
fn refuse_stray_part<S: Alter>(transaction: &mut Transaction<'_, S>) -> Result<(), Refusal> {
    let mut answer = transaction.query(STRAY_PART, &[])?;
    match answer.next()? {
        None => Ok(()),
        Some(values) => Err(Refusal::Damaged {
            place: Place {
                table: Table::Parts,
                row: values.get(0)?,
            },
        }),
    }
}

/// The batches of the table, without their parts.
pub(crate) fn read_begun<S: Alter>(
    alloc: Global,
    transaction: &mut Transaction<'_, S>,
) -> Result<Vec<Staged>, Refusal> {
    read_all(alloc, transaction, &[])
}

fn read_batches<S: Alter>(
    alloc: Global,
    transaction: &mut Transaction<'_, S>,
) -> Result<Vec<Staged>, Refusal> {
    refuse_stray_part(transaction)?;
    let mut batches = Vec::new(alloc);
    for mut batch in read_begun(alloc, transaction)? {
        let parts = read_all(alloc, transaction, params![integer(batch.number)])?;
        batch.parts = Parts::new(parts);
        batches.push(batch).map_err(|_| NO_MEMORY)?;
    }
    Ok(batches)
}

/// What the tables have, and the numbers of its rows in their order.
pub(crate) fn read_tables<S: Alter>(
    alloc: Global,
    transaction: &mut Transaction<'_, S>,
) -> Result<(Kept, Vec<i64>), Refusal> {
    let about = read_about(alloc, transaction)?;
    let (rows, numbers) = read_rows(alloc, transaction)?;
    let kept = Kept {
        rows: Rows::new(rows),
        collections: Times::new(read_all(alloc, transaction, &[])?),
        store: about.store,
        last_delete: about.last_delete,
        counter: about.counter,
        batches: Batches::new(read_batches(alloc, transaction)?),
    };
    Ok((kept, numbers))
}

/// All that is held: what the tables have, with the changes of the commits made to it.
pub(crate) fn read<S: Alter>(
    alloc: Global,
    connection: &mut Connection<S>,
) -> Result<Kept, Refusal> {
    if !connection.is_autocommit() {
        return Err(Refusal::Statement(IN_TRANSACTION));
    }
    let mut transaction = connection.transaction();
    let (mut kept, _numbers) = read_tables(alloc, &mut transaction)?;
    let commits: Vec<Changes> = read_all(alloc, &mut transaction, &[])?;
    make(alloc, &mut kept, commits.as_slice())?;
    Ok(kept)
}
