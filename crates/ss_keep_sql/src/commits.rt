//! The table of commits.

use crate::faults::NO_MEMORY;
use crate::places::Table;
use crate::stored::{Stored, Unread, text_at};
use crate::tables::IN_TRANSACTION;
use sqlite::types::ValueRef;
use sqlite::{Alter, Connection, Error, Row as Values};
use ss_bso::{BatchChange, Changes, Field, Part, RowChange};
use ss_commits::{read_changes, write_changes};
use ss_text::Word;
use std::alloc::Global;

const ADD_COMMIT: &str = "INSERT INTO commits (changes) VALUES (?1)";

fn payload_of(field: &Field<Word>) -> u64 {
    match field {
        Field::Set(text) => text.as_str().len() as u64,
        Field::Keep | Field::Clear => 0,
    }
}

fn bytes_of_parts(parts: &[Part]) -> u64 {
    let mut bytes = 0u64;
    for part in parts {
        bytes = bytes.saturating_add(payload_of(&part.fields.payload));
    }
    bytes
}

fn bytes_of_batch(change: &BatchChange) -> u64 {
    match change {
        BatchChange::End { .. } => 0,
        BatchChange::Begin(staged) => bytes_of_parts(staged.parts.as_slice()),
        BatchChange::Append { parts, .. } => bytes_of_parts(parts.as_slice()),
    }
}

/// How many bytes the payloads of changes have.
pub(crate) fn payload_bytes(changes: &Changes) -> u64 {
    let mut bytes = 0u64;
    for change in changes.rows.as_slice() {
        if let RowChange::Put(row) = change {
            bytes = bytes.saturating_add(row.payload.as_str().len() as u64);
        }
    }
    for change in changes.batches.as_slice() {
        bytes = bytes.saturating_add(bytes_of_batch(change));
    }
    bytes
}

/// Adds a commit in a transaction of its own, and tells how many bytes its text has.
pub(crate) fn add_commit<S: Alter>(
    alloc: Global,
    connection: &mut Connection<S>,
    changes: &Changes,
) -> Result<u64, Error> {
    if !connection.is_autocommit() {
        return Err(IN_TRANSACTION);
    }
    let Ok(text) = write_changes(alloc, changes) else {
        return Err(NO_MEMORY);
    };
    let _commits = connection.execute(ADD_COMMIT, &[ValueRef::Text(text.as_slice())])?;
    Ok(text.len() as u64)
}

/// The changes of a commit, from their text.
impl Stored for Changes {
    const TABLE: Table = Table::Commits;

    const SELECT: &'static str = "SELECT number, changes FROM commits ORDER BY number";

    fn read(alloc: Global, values: &Values) -> Result<Changes, Unread> {
        match read_changes(alloc, text_at(values, 1)?)? {
            Some(changes) => Ok(changes),
            None => Err(Unread::OutOfForm),
        }
    }
}
