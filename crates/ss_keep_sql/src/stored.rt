//! Rows of a table, read one after the other. One that is out of form is told by its place.

use crate::faults::{NO_MEMORY, Refusal, is_memory};
use crate::numbers::number;
use crate::places::{Place, Table};
use sqlite::types::ValueRef;
use sqlite::{Alter, Error, Row as Values, Transaction};
use ss_text::{Id, Name, Stamp};
use std::alloc::{AllocError, Global};

/// Why what a row holds wasn't read.
#[derive(Clone, Copy, Debug, PartialEq, Eq)]
pub(crate) enum Unread {
    /// A value is of another type, beyond its range, or has not the form that it is to have.
    OutOfForm,

    Memory,
}

impl From<Error> for Unread {
    fn from(error: Error) -> Unread {
        if is_memory(error) {
            Unread::Memory
        } else {
            Unread::OutOfForm
        }
    }
}

impl From<AllocError> for Unread {
    fn from(_error: AllocError) -> Unread {
        Unread::Memory
    }
}

/// What a row of a table holds.
pub(crate) trait Stored: Sized {
    /// The table.
    const TABLE: Table;

    /// The query for its rows, each with its number in front.
    const SELECT: &'static str;

    /// Reads what a row of the query's answer holds.
    fn read(alloc: Global, values: &Values) -> Result<Self, Unread>;
}

/// Reads what a row holds.
fn read_row<T: Stored + Drop>(alloc: Global, values: &Values) -> Result<T, Refusal> {
    match T::read(alloc, values) {
        Ok(stored) => Ok(stored),
        Err(Unread::Memory) => Err(Refusal::Statement(NO_MEMORY)),
        Err(Unread::OutOfForm) => Err(Refusal::Damaged {
            place: Place {
                table: T::TABLE,
                row: values.get(0)?,
            },
        }),
    }
}

/// What the rows of a table hold that its query gives for these values.
pub(crate) fn read_all<T: Stored + Drop, S: Alter>(
    alloc: Global,
    transaction: &mut Transaction<'_, S>,
    given: &[ValueRef<'_>],
) -> Result<Vec<T>, Refusal> {
    let mut all = Vec::new(alloc);
    let mut answer = transaction.query(T::SELECT, given)?;
    for _ in 0..u64::MAX {
        let Some(values) = answer.next()? else {
            break;
        };
        all.push(read_row(alloc, values)?).map_err(|_| NO_MEMORY)?;
    }
    Ok(all)
}

/// The bytes of a text.
pub(crate) fn text_at<'a>(values: &'a Values, at: usize) -> Result<&'a [u8], Unread> {
    match values.get_ref(at) {
        Ok(ValueRef::Text(text)) => Ok(text),
        _ => Err(Unread::OutOfForm),
    }
}

pub(crate) fn name_at(alloc: Global, values: &Values, at: usize) -> Result<Name, Unread> {
    match Name::new(alloc, text_at(values, at)?)? {
        Some(name) => Ok(name),
        None => Err(Unread::OutOfForm),
    }
}

pub(crate) fn id_at(alloc: Global, values: &Values, at: usize) -> Result<Id, Unread> {
    match Id::new(alloc, text_at(values, at)?)? {
        Some(id) => Ok(id),
        None => Err(Unread::OutOfForm),
    }
}

pub(crate) fn stamp_at(values: &Values, at: usize) -> Result<Stamp, Unread> {
    let hundredths: i64 = values.get(at)?;
    match Stamp::new(number(hundredths)) {
        Some(stamp) => Ok(stamp),
        None => Err(Unread::OutOfForm),
    }
}

/// Yes or no, as 1 or 0.
pub(crate) fn flag_at(values: &Values, at: usize) -> Result<bool, Unread> {
    let flag: i64 = values.get(at)?;
    match flag {
        0 => Ok(false),
        1 => Ok(true),
        _ => Err(Unread::OutOfForm),
    }
}
