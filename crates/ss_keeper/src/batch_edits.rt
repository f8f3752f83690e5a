//! Batches after the changes of commits.

ghost use Rattle.std.specs.Prelude.{◌≡◌, ◌++◌, not, IfOk, OnOk, filter, filter_map, fold, map};
ghost use Rattle.std.specs.List.{list_any};
ghost use Rattle.ss_bso.specs.Batches.{grown};
ghost use Rattle.ss_bso.specs.Changes.{batch_grown, batches_changed, begun_by, ends};
ghost use Rattle.ss_keeper.specs.Batches.{with_begun};

use ss_bso::{BatchChange, Batches, Changes, Parts, Staged};
use std::alloc::{AllocError, Global};

fn ends(change: &BatchChange, number: u64) -> bool
    ensures { result ≡ ends number change.now }
{
    match change {
        BatchChange::End { number: ended } => *ended == number,
        BatchChange::Begin(_) | BatchChange::Append { .. } => false,
    }
}

fn are_ending(changes: &[BatchChange], number: u64) -> bool
    ensures { result ≡ list_any (ends number) changes.now }
{
    changes.iter().any(|change| ends(change, number))
}

/// The batches go that changes end.
fn end_batches(held: &mut Vec<Staged>, changes: &[BatchChange])
    ensures { held.new.items ≡ filter (λ staged. not (list_any (ends staged.number) changes.now)) held.old.items }
{
    held.retain(|staged| !are_ending(changes, staged.number));
}

/// The batch comes that a change begins.
fn begin_batch(
    alloc: Global,
    held: &mut Vec<Staged>,
    change: &BatchChange,
) -> Result<(), AllocError>
    ensures { OnOk result (held.new.items ≡ with_begun (begun_by change.now) held.old.items) }
{
    if let BatchChange::Begin(staged) = change {
        held.push(staged.copy(alloc)?)?;
    }
    Ok(())
}

/// The batches come that changes begin.
fn begin_batches(
    alloc: Global,
    held: &mut Vec<Staged>,
    changes: &[BatchChange],
) -> Result<(), AllocError>
    ensures { OnOk result (held.new.items ≡ held.old.items ++ filter_map begun_by changes.now) }
{
    for change in changes {
        begin_batch(alloc, held, change)?;
    }
    Ok(())
}

/// A batch gets parts, where it has this number.
fn grow(alloc: Global, staged: &mut Staged, number: u64, parts: &Parts) -> Result<(), AllocError>
    ensures { OnOk result (staged.new ≡ grown number parts.now staged.old) }
{
    if staged.number == number {
        staged.parts.append(parts.copy(alloc)?.into_vec())?;
    }
    Ok(())
}

/// The batches of a number get parts.
fn grow_batches(
    alloc: Global,
    held: &mut Vec<Staged>,
    number: u64,
    parts: &Parts,
) -> Result<(), AllocError>
    ensures { OnOk result (held.new.items ≡ map (grown number parts.now) held.old.items) }
{
    for staged in held.iter_mut() {
        grow(alloc, staged, number, parts)?;
    }
    Ok(())
}

/// The batches get the parts that a change appends.
fn append_parts(
    alloc: Global,
    held: &mut Vec<Staged>,
    change: &BatchChange,
) -> Result<(), AllocError>
    ensures { OnOk result (held.new.items ≡ batch_grown held.old.items change.now) }
{
    match change {
        BatchChange::Append { number, parts } => grow_batches(alloc, held, *number, parts),
        BatchChange::End { .. } | BatchChange::Begin(_) => Ok(()),
    }
}

/// The batches get the parts that changes append.
fn append_all(
    alloc: Global,
    held: &mut Vec<Staged>,
    changes: &[BatchChange],
) -> Result<(), AllocError>
    ensures { OnOk result (held.new.items ≡ fold batch_grown held.old.items changes.now) }
{
    for change in changes {
        append_parts(alloc, held, change)?;
    }
    Ok(())
}

/// Makes changes to batches.
fn change_batches(
    alloc: Global,
    held: &mut Vec<Staged>,
    changes: &[BatchChange],
) -> Result<(), AllocError>
    ensures { OnOk result (held.new.items ≡ batches_changed held.old.items changes.now) }
{
    end_batches(held, changes);
    begin_batches(alloc, held, changes)?;
    append_all(alloc, held, changes)
}

/// The batches after the changes of commits, one after the other.
pub(crate) fn batches_after(
    alloc: Global,
    batches: &Batches,
    commits: &[Changes],
) -> Result<Batches, AllocError>
    ensures { IfOk result (λ after. after ≡ fold (λ held commit. batches_changed held commit.batches) batches.now
        commits.now) }
{
    let mut held = batches.copy(alloc)?.into_vec();
    for commit in commits {
        change_batches(alloc, &mut held, commit.batches.as_slice())?;
    }
    Ok(Batches::new(held))
}
