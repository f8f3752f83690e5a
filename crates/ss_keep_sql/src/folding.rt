//! Commits made to the tables, so that none is left beside them.

use crate::faults::Refusal;
use crate::reading::{read_begun, read_tables};
use crate::row_numbers::{numbers_of_keys, numbers_of_rows, read_keys};
use crate::stored::read_all;
use crate::tables::{IN_TRANSACTION, clear_commits};
use crate::writing::write;
use sqlite::{Alter, Connection, Transaction};
use ss_bso::{Batches, Changes, Kept, Row, Staged};
use ss_keeper::make;
use std::alloc::{AllocError, Global};
use std::slice;

/// What commits make of batches that begin without parts, and of nothing else.
fn made(alloc: Global, commits: &[Changes], begun: Vec<Staged>) -> Result<Kept, AllocError> {
    let mut kept = Kept {
        batches: Batches::new(begun),
        ..Kept::fresh(alloc)
    };
    make(alloc, &mut kept, commits)?;
    Ok(kept)
}

fn numbers_of(alloc: Global, batches: &[Staged]) -> Result<Vec<u64>, AllocError> {
    let mut numbers = Vec::new(alloc);
    for batch in batches {
        numbers.push(batch.number)?;
    }
    Ok(numbers)
}

/// The numbers of the batches in the table, and what commits make of these without their parts, and of nothing else.
fn outcome<S: Alter>(
    alloc: Global,
    transaction: &mut Transaction<'_, S>,
    commits: &[Changes],
) -> Result<(Vec<u64>, Kept), Refusal> {
    let begun = read_begun(alloc, transaction)?;
    let stored = numbers_of(alloc, begun.as_slice())?;
    let made = made(alloc, commits, begun)?;
    Ok((stored, made))
}

/// Writes what commits make of the tables, and empties the table of commits: each row, time and batch that they touch is
/// written once, however often it was changed. The rows of the table were read with these numbers, and of two with one
/// key one is refused, also where there are no commits.
fn settle_read<S: Alter>(
    alloc: Global,
    transaction: &mut Transaction<'_, S>,
    commits: &[Changes],
    rows: &[Row],
    numbers: &[i64],
) -> Result<(), Refusal> {
    let (stored, made) = outcome(alloc, transaction, commits)?;
    let numbers = numbers_of_rows(alloc, rows, numbers)?;
    if commits.is_empty() {
        return Ok(());
    }
    write(
        alloc,
        transaction,
        commits,
        &numbers,
        stored.as_slice(),
        &made,
    )?;
    clear_commits(transaction)?;
    Ok(())
}

/// The same, where the rows of the table weren't read.
fn settle<S: Alter>(
    alloc: Global,
    transaction: &mut Transaction<'_, S>,
    commits: &[Changes],
) -> Result<(), Refusal> {
    let (stored, made) = outcome(alloc, transaction, commits)?;
    let keys = read_keys(alloc, transaction)?;
    let numbers = numbers_of_keys(alloc, keys.as_slice())?;
    write(
        alloc,
        transaction,
        commits,
        &numbers,
        stored.as_slice(),
        &made,
    )?;
    clear_commits(transaction)?;
    Ok(())
}

/// Reads what the tables have, makes the commits to it and to them, and gives it.
pub(crate) fn read_folding<S: Alter>(
    alloc: Global,
    transaction: &mut Transaction<'_, S>,
) -> Result<Kept, Refusal> {
    let (mut kept, numbers) = read_tables(alloc, transaction)?;
    let commits: Vec<Changes> = read_all(alloc, transaction, &[])?;
    settle_read(
        alloc,
        transaction,
        commits.as_slice(),
        kept.rows.as_slice(),
        numbers.as_slice(),
    )?;
    if !commits.is_empty() {
        make(alloc, &mut kept, commits.as_slice())?;
    }
    Ok(kept)
}

/// Makes the commits to the tables. What is held stays as it is, also where it is refused: then all is as before.
pub(crate) fn fold<S: Alter>(alloc: Global, connection: &mut Connection<S>) -> Result<(), Refusal> {
    if !connection.is_autocommit() {
        return Err(Refusal::Statement(IN_TRANSACTION));
    }
    let mut transaction = connection.transaction();
    let commits: Vec<Changes> = read_all(alloc, &mut transaction, &[])?;
    if commits.is_empty() {
        return Ok(());
    }
    settle(alloc, &mut transaction, commits.as_slice())?;
    transaction.commit()?;
    Ok(())
}

/// Makes a further commit to the tables, where none stands beside them. Where it is refused all is as before.
pub(crate) fn write_commit<S: Alter>(
    alloc: Global,
    connection: &mut Connection<S>,
    changes: &Changes,
) -> Result<(), Refusal> {
    if !connection.is_autocommit() {
        return Err(Refusal::Statement(IN_TRANSACTION));
    }
    let mut transaction = connection.transaction();
    settle(alloc, &mut transaction, slice::from_ref(changes))?;
    transaction.commit()?;
    Ok(())
}
