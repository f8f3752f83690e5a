//! What commits come to, written to the tables.

use crate::faults::Refusal;
use crate::many::insert_parts;
use crate::numbers::integer;
use crate::row_numbers::Numbers;
use crate::rows::write_rows;
use sqlite::{Alter, Error, Transaction, params};
use ss_bso::{BatchChange, Changes, CollectionChange, Kept, Staged, Times};
use ss_text::{Name, Stamp};
use std::alloc::{AllocError, Global};
use std::collections::HashSet;

/// An expiry from 2^63 on stands below 0, and no moment reaches it.
const DROP_ENDED: &str = "DELETE FROM rows WHERE expires BETWEEN 0 AND ?1";

const DROP_COLLECTION: &str = "DELETE FROM collections WHERE name = ?1";

const SET_COLLECTION: &str =
    "INSERT INTO collections (name, time) VALUES (?1, ?2) ON CONFLICT (name) DO UPDATE SET time = excluded.time";

const SET_ABOUT: &str = "UPDATE about SET store = ?1, last_delete = ?2, counter = ?3";

const END_PARTS: &str = "DELETE FROM parts WHERE number = ?1";

const END_BATCH: &str = "DELETE FROM batches WHERE number = ?1";

const BEGIN_BATCH: &str = "INSERT INTO batches (number, collection, begun) VALUES (?1, ?2, ?3)";

const LAST_PLACE: &str = "SELECT place FROM parts WHERE number = ?1 ORDER BY place DESC LIMIT 1";

/// The latest moment of commits.
fn last_moment(commits: &[Changes]) -> u64 {
    let mut last = 0;
    for commit in commits {
        last = commit.moment.get().max(last);
    }
    last
}

fn drop_ended<S: Alter>(transaction: &mut Transaction<'_, S>, moment: u64) -> Result<(), Error> {
    let _rows = transaction.execute(DROP_ENDED, params![integer(moment)])?;
    Ok(())
}

/// The collections that commits drop.
fn dropped(alloc: Global, commits: &[Changes]) -> Result<HashSet<&Name>, AllocError> {
    let mut names = HashSet::new(alloc);
    for commit in commits {
        note_dropped(&mut names, commit.collections.as_slice())?;
    }
    Ok(names)
}

fn note_dropped<'a>(
    names: &mut HashSet<&'a Name>,
    changes: &'a [CollectionChange],
) -> Result<(), AllocError> {
    for change in changes {
        if let CollectionChange::Drop { name } = change {
            let _added = names.insert(name)?;
        }
    }
    Ok(())
}

/// Drops collections, whose rows are dropped with the other rows.
fn drop_collections<S: Alter>(
    transaction: &mut Transaction<'_, S>,
    dropped: &HashSet<&Name>,
) -> Result<(), Error> {
    for name in dropped {
        let _collections = transaction.execute(DROP_COLLECTION, params![name.as_str()])?;
    }
    Ok(())
}

fn set_collection<S: Alter>(
    transaction: &mut Transaction<'_, S>,
    name: &Name,
    time: Stamp,
) -> Result<(), Error> {
    let _collections = transaction.execute(
        SET_COLLECTION,
        params![name.as_str(), integer(time.get())],
    )?;
    Ok(())
}

fn set_collections<S: Alter>(
    transaction: &mut Transaction<'_, S>,
    times: &Times,
) -> Result<(), Error> {
    for entry in times.as_slice() {
        set_collection(transaction, &entry.0, entry.1)?;
    }
    Ok(())
}

fn set_about<S: Alter>(transaction: &mut Transaction<'_, S>, kept: &Kept) -> Result<(), Error> {
    let _about = transaction.execute(
        SET_ABOUT,
        params![
            integer(kept.store.get()),
            integer(kept.last_delete.get()),
            integer(kept.counter),
        ],
    )?;
    Ok(())
}

/// The numbers of the batches that commits end.
fn ended(alloc: Global, commits: &[Changes]) -> Result<HashSet<u64>, AllocError> {
    let mut numbers = HashSet::new(alloc);
    for commit in commits {
        note_ended(&mut numbers, commit.batches.as_slice())?;
    }
    Ok(numbers)
}

fn note_ended(numbers: &mut HashSet<u64>, changes: &[BatchChange]) -> Result<(), AllocError> {
    for change in changes {
        if let BatchChange::End { number } = change {
            let _added = numbers.insert(*number)?;
        }
    }
    Ok(())
}

fn end_batch<S: Alter>(transaction: &mut Transaction<'_, S>, number: u64) -> Result<(), Error> {
    let _parts = transaction.execute(END_PARTS, params![integer(number)])?;
    let _batches = transaction.execute(END_BATCH, params![integer(number)])?;
    Ok(())
}

/// Of the batches in the table those that commits don't end.
fn going_on(
    alloc: Global,
    ended: &HashSet<u64>,
    stored: &[u64],
) -> Result<HashSet<u64>, AllocError> {
    let mut left = HashSet::new(alloc);
    for number in stored {
        if !ended.contains(number) {
            let _added = left.insert(*number)?;
        }
    }
    Ok(left)
}

/// Ends those of the batches in the table that commits end.
fn end_batches<S: Alter>(
    transaction: &mut Transaction<'_, S>,
    ended: &HashSet<u64>,
    stored: &[u64],
) -> Result<(), Error> {
    for number in stored {
        if ended.contains(number) {
            end_batch(transaction, *number)?;
        }
    }
    Ok(())
}

fn begin_batch<S: Alter>(
    transaction: &mut Transaction<'_, S>,
    staged: &Staged,
) -> Result<(), Error> {
    let _batches = transaction.execute(
        BEGIN_BATCH,
        params![
            integer(staged.number),
            staged.collection.as_str(),
            integer(staged.begun.get()),
        ],
    )?;
    Ok(())
}

/// The place of a batch's last part in the table; 0 where it has none.
fn last_place<S: Alter>(transaction: &mut Transaction<'_, S>, number: u64) -> Result<i64, Error> {
    let mut answer = transaction.query(LAST_PLACE, params![integer(number)])?;
    match answer.next()? {
        Some(values) => values.get(0),
        None => Ok(0),
    }
}

/// Writes a batch with its parts, or, where it is in the table, the parts that come behind those there.
fn write_batch<S: Alter>(
    alloc: Global,
    transaction: &mut Transaction<'_, S>,
    staged: &Staged,
    is_stored: bool,
) -> Result<(), Refusal> {
    let last = if is_stored {
        last_place(transaction, staged.number)?
    } else {
        begin_batch(transaction, staged)?;
        0
    };
    insert_parts(
        alloc,
        transaction,
        staged.number,
        last,
        staged.parts.as_slice(),
    )
}

/// Writes what commits make of batches: those of these numbers are in the table.
fn write_batches<S: Alter>(
    alloc: Global,
    transaction: &mut Transaction<'_, S>,
    commits: &[Changes],
    stored: &[u64],
    batches: &[Staged],
) -> Result<(), Refusal> {
    let ended = ended(alloc, commits)?;
    let left = going_on(alloc, &ended, stored)?;
    end_batches(transaction, &ended, stored)?;
    for batch in batches {
        write_batch(alloc, transaction, batch, left.contains(&batch.number))?;
    }
    Ok(())
}

/// Writes what commits make of the tables. Of what they bring, `made` has what is there in the end: the rows, the times of
/// collections, and of the batches the parts that aren't in the tables. `stored` are the numbers of the batches that are,
/// and `numbers` those of the rows.
pub(crate) fn write<'a, S: Alter>(
    alloc: Global,
    transaction: &mut Transaction<'_, S>,
    commits: &'a [Changes],
    numbers: &Numbers<'a>,
    stored: &[u64],
    made: &'a Kept,
) -> Result<(), Refusal> {
    let dropped = dropped(alloc, commits)?;
    drop_ended(transaction, last_moment(commits))?;
    drop_collections(transaction, &dropped)?;
    write_rows(
        alloc,
        transaction,
        commits,
        &dropped,
        &*numbers,
        made.rows.as_slice(),
    )?;
    set_collections(transaction, &made.collections)?;
    write_batches(alloc, transaction, commits, stored, made.batches.as_slice())?;
    set_about(transaction, made)?;
    Ok(())
}
