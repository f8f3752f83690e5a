//! The changes of commits made to what is kept, all of them or none.

ghost use Rattle.std.specs.Prelude.{◌≡◌, ◌≤◌, ◌+◌, ◌++◌, filter, fold, OnOk, OnErr, vec_len, vec_capacity};
ghost use Rattle.ss_keeper.specs.Memory.{after_commits};
ghost use Rattle.ss_keeper.specs.Together.{leaves, leaves_time};

use crate::batch_edits::batches_after;
use crate::row_edits::RowEdits;
use crate::time_edits::TimeEdits;
use ss_bso::{Changes, Kept, Row, Rows, Times};
use ss_text::{Name, Stamp};
use std::alloc::{AllocError, Global};
use std::mem;

fn cut_rows(rows: &mut Vec<Row>, edits: &RowEdits<'_>)
    ensures rows { rows.new.items ≡ filter (leaves edits.now) rows.old.items }
    ensures len { vec_len rows.new ≤ vec_len rows.old }
    ensures capacity { vec_capacity rows.new ≡ vec_capacity rows.old }
{
    rows.retain(|row| edits.leaves(row));
}

fn cut_times(times: &mut Vec<(Name, Stamp)>, edits: &TimeEdits<'_>)
    ensures times { times.new.items ≡ filter (λ entry. leaves_time edits.now entry.0) times.old.items }
    ensures len { vec_len times.new ≤ vec_len times.old }
    ensures capacity { vec_capacity times.new ≡ vec_capacity times.old }
{
    times.retain(|entry| edits.leaves(&entry.0));
}

fn append_rows(rows: &mut Vec<Row>, mut puts: Vec<Row>)
    requires { vec_len rows.old + vec_len puts ≤ vec_capacity rows.old }
    ensures { rows.new.items ≡ rows.old.items ++ puts.items }
{
    match rows.append(&mut puts) {
        Ok(()) => (),
        Err(_) => unreachable!(),
    }
}

fn append_times(times: &mut Vec<(Name, Stamp)>, mut set: Vec<(Name, Stamp)>)
    requires { vec_len times.old + vec_len set ≤ vec_capacity times.old }
    ensures { times.new.items ≡ times.old.items ++ set.items }
{
    match times.append(&mut set) {
        Ok(()) => (),
        Err(_) => unreachable!(),
    }
}

/// Edits rows and times, unless there is no room for what is put and set; then they are as before.
fn edit(
    rows: &mut Vec<Row>,
    times: &mut Vec<(Name, Stamp)>,
    row_edits: RowEdits<'_>,
    time_edits: TimeEdits<'_>,
) -> Result<(), AllocError>
    ensures rows { OnOk result (rows.new.items ≡ filter (leaves row_edits.entry) rows.old.items
        ++ row_edits.entry.puts.items) }
    ensures times { OnOk result (times.new.items ≡ filter (λ entry. leaves_time time_edits.entry entry.0)
        times.old.items ++ time_edits.entry.times.items) }
    ensures same_rows { OnErr result (rows.new.items ≡ rows.old.items) }
    ensures same_times { OnErr result (times.new.items ≡ times.old.items) }
{
    rows.reserve(row_edits.puts.len())?;
    times.reserve(time_edits.times.len())?;
    cut_rows(rows, &row_edits);
    cut_times(times, &time_edits);
    append_rows(rows, row_edits.puts);
    append_times(times, time_edits.times);
    Ok(())
}

/// The times of the store and the last deletion, and the counter, are those of the last commit.
fn set_about(kept: &mut Kept, commits: &[Changes])
    ensures { kept.new ≡ record kept.old {
      store = fold (λ _ commit. commit.store) kept.old.store commits.now;
      last_delete = fold (λ _ commit. commit.last_delete) kept.old.last_delete commits.now;
      counter = fold (λ _ commit. commit.counter) kept.old.counter commits.now;
    } }
{
    for commit in commits {
        kept.store = commit.store;
        kept.last_delete = commit.last_delete;
        kept.counter = commit.counter;
    }
}

/// Makes the changes of commits to what is kept, one after the other. All memory is taken before anything changes;
/// after an Err it is as before. The time is in the size of what is kept and of the changes together.
pub fn make(alloc: Global, kept: &mut Kept, commits: &[Changes]) -> Result<(), AllocError>
    ensures made { OnOk result (kept.new ≡ after_commits kept.old commits.now) }
    ensures same { OnErr result (kept.new ≡ kept.old) }
{
    let row_edits = RowEdits::of(alloc, commits)?;
    let time_edits = TimeEdits::of(alloc, commits)?;
    let batches = batches_after(alloc, &kept.batches, commits)?;
    let mut rows = mem::replace(&mut kept.rows, Rows::new(Vec::new(alloc))).into_vec();
    let mut times = mem::replace(&mut kept.collections, Times::new(Vec::new(alloc))).into_vec();
    let made = edit(&mut rows, &mut times, row_edits, time_edits);
    kept.rows = Rows::new(rows);
    kept.collections = Times::new(times);
    made?;
    kept.batches = batches;
    set_about(kept, commits);
    Ok(())
}
