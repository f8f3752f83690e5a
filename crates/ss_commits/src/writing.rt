//! Writing the text of a commit.

ghost use Rattle.std.specs.Prelude.{◌≡◌, ◌++◌, IfOk, OnOk, map};
ghost use Rattle.std.specs.List.{flat_map};
ghost use Rattle.ss_commits.specs.Commits.{batch_notes, changes_text, collection_note, note_text, part_note, row_note};
ghost use Rattle.ss_commits.specs.Commits.{text_of};

use crate::marks::{push_next_parts, push_no_batch, push_no_collection, push_no_row, push_now};
use ss_bso::{BatchChange, Changes, CollectionChange, Part, RowChange};
use ss_lines::{push_batch, push_collection, push_part, push_row, push_times};
use std::alloc::{AllocError, Global};

fn push_collection_change(out: &mut Vec<u8>, change: &CollectionChange) -> Result<(), AllocError>
    ensures { OnOk result (out.new.items ≡ out.old.items ++ note_text (collection_note change.now)) }
{
    match change {
        CollectionChange::Set { name, time } => push_collection(out, name, *time),
        CollectionChange::Drop { name } => push_no_collection(out, name),
    }
}

fn push_collection_changes(
    out: &mut Vec<u8>,
    changes: &[CollectionChange],
) -> Result<(), AllocError>
    ensures { OnOk result (out.new.items ≡ out.old.items ++ text_of (map collection_note changes.now)) }
{
    for change in changes {
        push_collection_change(out, change)?;
    }
    Ok(())
}

fn push_row_change(out: &mut Vec<u8>, change: &RowChange) -> Result<(), AllocError>
    ensures { OnOk result (out.new.items ≡ out.old.items ++ note_text (row_note change.now)) }
{
    match change {
        RowChange::Put(row) => push_row(out, row),
        RowChange::Drop { collection, id } => push_no_row(out, collection, id),
    }
}

fn push_row_changes(out: &mut Vec<u8>, changes: &[RowChange]) -> Result<(), AllocError>
    ensures { OnOk result (out.new.items ≡ out.old.items ++ text_of (map row_note changes.now)) }
{
    for change in changes {
        push_row_change(out, change)?;
    }
    Ok(())
}

fn push_parts(out: &mut Vec<u8>, parts: &[Part]) -> Result<(), AllocError>
    ensures { OnOk result (out.new.items ≡ out.old.items ++ text_of (map part_note parts.now)) }
{
    for part in parts {
        push_part(out, part)?;
    }
    Ok(())
}

fn push_batch_change(out: &mut Vec<u8>, change: &BatchChange) -> Result<(), AllocError>
    ensures { OnOk result (out.new.items ≡ out.old.items ++ text_of (batch_notes change.now)) }
{
    match change {
        BatchChange::End { number } => push_no_batch(out, *number),
        BatchChange::Begin(staged) => {
            push_batch(out, staged.number, &staged.collection, staged.begun)?;
            push_parts(out, staged.parts.as_slice())
        }
        BatchChange::Append { number, parts } => {
            push_next_parts(out, *number)?;
            push_parts(out, parts.as_slice())
        }
    }
}

fn push_batch_changes(out: &mut Vec<u8>, changes: &[BatchChange]) -> Result<(), AllocError>
    ensures { OnOk result (out.new.items ≡ out.old.items ++ text_of (flat_map batch_notes changes.now)) }
{
    for change in changes {
        push_batch_change(out, change)?;
    }
    Ok(())
}

/// The text of a commit: its moment and the times, and then its changes of collections, of rows and of batches, a line
/// each, and the parts of batches behind them.
#[tactic(auto, unfolding(crate::specs::Commits::changes_text, crate::specs::Commits::changes_notes))]
pub fn write_changes(alloc: Global, changes: &Changes) -> Result<Vec<u8>, AllocError>
    ensures { IfOk result (λ text. text.items ≡ changes_text changes.now) }
{
    let mut out = Vec::new(alloc);
    push_now(&mut out, changes.moment)?;
    push_times(
        &mut out,
        changes.store,
        changes.last_delete,
        changes.counter,
    )?;
    push_collection_changes(&mut out, changes.collections.as_slice())?;
    push_row_changes(&mut out, changes.rows.as_slice())?;
    push_batch_changes(&mut out, changes.batches.as_slice())?;
    Ok(out)
}
