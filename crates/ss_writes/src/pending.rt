//! A write that is ready: what is to become of the account, and what a keeper is told of it.

ghost use Rattle.std.specs.Prelude.{◌≡◌, ◌≤◌, ◌+◌, ◌∷◌, ◌++◌, [], map, filter, bytes_eq, option_map, IfOk, OnOk};
ghost use Rattle.std.specs.Prelude.{IfSome, IsSome, vec_len, vec_capacity};
ghost use Rattle.ss_bso.specs.declared.changes.BatchChange.TheVariants.{End as EndChange};
ghost use Rattle.ss_bso.specs.declared.changes.RowChange.TheVariants.{Put as PutChange};
ghost use Rattle.ss_bso.specs.declared.changes.CollectionChange.TheVariants.{Drop as DropChange, Set};
ghost use Rattle.ss_batch.specs.Stage.{live_batch};
ghost use Rattle.ss_writes.specs.Pending.{batch_ended, batches_but, batches_left, collection_changes, deletion_left};
ghost use Rattle.ss_writes.specs.Pending.{ended_by, numbers_of, row_changes, times_left};

use crate::editing::{remove_time, set_time};
use crate::ended::Ended;
use crate::targets::Targets;
use ss_batch::Stage;
use ss_bso::{BatchChange, CollectionChange, Row, RowChange, Staged};
use ss_query::Body;
use ss_text::{Name, Stamp};
use std::alloc::{AllocError, Global};

/// A write that is ready.
#[derive(Drop)]
pub enum Pending {
    /// Rows take the places of their ids, and the batch that is committed by it ends.
    Put {
        collection: Name,
        targets: Targets,
        rows: Vec<Row>,
        batch: Option<u64>,
    },

    /// The rows of these ids go.
    Cut {
        collection: Name,
        targets: Targets,
    },

    /// The collection goes, with its rows and its batches.
    DropCollection {
        collection: Name,
    },

    /// All rows, collections and batches go.
    DropAll,
}

/// The changes that put copies of rows.
fn puts(alloc: Global, rows: &[Row]) -> Result<Vec<RowChange>, AllocError>
    ensures { IfOk result (λ changes. changes.items ≡ map PutChange rows.now) }
{
    let mut changes = Vec::with_capacity(alloc, rows.len())?;
    for row in rows {
        changes.push(RowChange::Put(row.copy(alloc)?))?;
    }
    Ok(changes)
}

/// The change that gives a collection a time.
fn set(alloc: Global, collection: &Name, time: Stamp) -> Result<Vec<CollectionChange>, AllocError>
    ensures { IfOk result (λ changes. changes.items ≡ Set collection.now time ∷ []) }
{
    let name = collection.copy(alloc)?;
    Ok(vec![in alloc; CollectionChange::Set { name, time }]?)
}

/// The change that drops a collection.
fn drop_one(alloc: Global, collection: &Name) -> Result<Vec<CollectionChange>, AllocError>
    ensures { IfOk result (λ changes. changes.items ≡ DropChange collection.now ∷ []) }
{
    let name = collection.copy(alloc)?;
    Ok(vec![in alloc; CollectionChange::Drop { name }]?)
}

/// The changes that drop all collections.
fn drop_each(
    alloc: Global,
    collections: &[(Name, Stamp)],
) -> Result<Vec<CollectionChange>, AllocError>
    ensures { IfOk result (λ changes. changes.items ≡ map (λ entry. DropChange entry.0) collections.now) }
{
    let mut changes = Vec::with_capacity(alloc, collections.len())?;
    for entry in collections {
        changes.push(CollectionChange::Drop {
            name: entry.0.copy(alloc)?,
        })?;
    }
    Ok(changes)
}

/// Adds the end of a batch.
fn push_end(changes: &mut Vec<BatchChange>, number: u64) -> Result<(), AllocError>
    ensures { OnOk result (changes.new.items ≡ changes.old.items ++ EndChange number ∷ []) }
{
    changes.push(BatchChange::End { number })?;
    Ok(())
}

/// Adds the ends of batches.
fn push_ends(changes: &mut Vec<BatchChange>, batches: &[Staged]) -> Result<(), AllocError>
    ensures { OnOk result (changes.new.items ≡ changes.old.items ++ map EndChange (numbers_of batches.now)) }
{
    for staged in batches {
        push_end(changes, staged.number)?;
    }
    Ok(())
}

/// Adds the ends of the batches of a collection.
fn push_ends_of(
    changes: &mut Vec<BatchChange>,
    batches: &[Staged],
    collection: &Name,
) -> Result<(), AllocError>
    ensures { OnOk result (changes.new.items ≡ changes.old.items ++ map EndChange
        (numbers_of (filter (λ batch. bytes_eq batch.collection collection.now) batches.now))) }
{
    for staged in batches {
        if staged.collection == *collection {
            push_end(changes, staged.number)?;
        }
    }
    Ok(())
}

/// Ends a live batch, if one is named.
fn end_batch(stage: &mut Stage, batch: Option<u64>)
    requires { IfSome batch (λ number. IsSome (live_batch number stage.old.batches)) }
    ensures { stage.new ≡ record stage.old { batches = batches_but batch stage.old.batches } }
{
    if let Some(batch) = batch {
        drop(stage.take(batch));
    }
}

impl Pending {
    /// What becomes of rows.
    pub fn row_changes(&self, alloc: Global) -> Result<Vec<RowChange>, AllocError>
        ensures { IfOk result (λ changes. changes.items ≡ row_changes self.now) }
    {
        match self {
            Pending::Put { rows, .. } => puts(alloc, rows.as_slice()),
            Pending::Cut {
                collection,
                targets,
            } => targets.drops(alloc, collection),
            Pending::DropCollection { .. } | Pending::DropAll => Ok(Vec::new(alloc)),
        }
    }

    /// What becomes of collections, where the write has this time.
    pub fn collection_changes(
        &self,
        alloc: Global,
        collections: &[(Name, Stamp)],
        stamp: Stamp,
    ) -> Result<Vec<CollectionChange>, AllocError>
        ensures { IfOk result (λ changes. changes.items ≡ collection_changes stamp self.now collections.now) }
    {
        match self {
            Pending::Put { collection, .. } | Pending::Cut { collection, .. } => {
                set(alloc, collection, stamp)
            }
            Pending::DropCollection { collection } => drop_one(alloc, collection),
            Pending::DropAll => drop_each(alloc, collections),
        }
    }

    /// What becomes of batches, where those that ended before are noted.
    pub fn batch_changes(
        &self,
        alloc: Global,
        ended: &Ended,
        batches: &[Staged],
    ) -> Result<Vec<BatchChange>, AllocError>
        ensures { IfOk result (λ changes. changes.items ≡ map EndChange (ended.now ++ ended_by self.now batches.now)) }
    {
        let mut changes = ended.ends(alloc)?;
        match self {
            Pending::Put {
                batch: Some(number),
                ..
            } => push_end(&mut changes, *number)?,
            Pending::Put { batch: None, .. } | Pending::Cut { .. } => (),
            Pending::DropCollection { collection } => {
                push_ends_of(&mut changes, batches, collection)?
            }
            Pending::DropAll => push_ends(&mut changes, batches)?,
        }
        Ok(changes)
    }

    /// The time of the last deletion, where the write has this time.
    pub fn last_delete(&self, last_delete: Stamp, stamp: Stamp) -> Stamp
        ensures { result ≡ deletion_left stamp self.now last_delete }
    {
        match self {
            Pending::Put { .. } | Pending::Cut { .. } => last_delete,
            Pending::DropCollection { .. } | Pending::DropAll => stamp,
        }
    }

    /// Does the write to collections and batches, at a time. There is room for one more collection.
    pub fn apply(self, collections: &mut Vec<(Name, Stamp)>, stage: &mut Stage, stamp: Stamp)
        requires one_more { vec_len collections.old + 1 ≤ vec_capacity collections.old }
        requires live { IfSome (batch_ended self) (λ number. IsSome (live_batch number stage.old.batches)) }
        ensures times { collections.new.items ≡ times_left stamp self collections.old.items }
        ensures stage { stage.new ≡ record stage.old { batches = batches_left self stage.old.batches } }
    {
        match self {
            Pending::Put {
                collection,
                batch,
                ..
            } => {
                set_time(collections, collection, stamp);
                end_batch(stage, batch);
            }
            Pending::Cut { collection, .. } => set_time(collections, collection, stamp),
            Pending::DropCollection { collection } => {
                remove_time(collections, &collection);
                stage.drop_collection(&collection);
            }
            Pending::DropAll => {
                collections.clear();
                stage.clear();
            }
        }
    }
}

/// A write with what is told of it, where it is ready.
pub fn with_body(found: Option<Pending>, body: Body) -> Option<(Pending, Body)>
    ensures { result ≡ option_map (λ pending. (pending, body)) found }
{
    match found {
        Some(pending) => Some((pending, body)),
        None => None,
    }
}
