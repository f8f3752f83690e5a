//! What outlives the process of an account, and what a write changes of it.

ghost use Rattle.std.specs.Prelude.{◌≡◌, IfOk};
ghost use Rattle.ss_bso.specs.Changes.{fresh_kept};

use crate::account::{Batches, Staged, Times};
use crate::parts::Parts;
use crate::rows::{Row, Rows};
use ss_text::{Id, Name, Stamp};
use std::alloc::{AllocError, Global};
use std::marker::Model;

/// What a keeper holds of an account: all but its moment. The counter is kept, so that no number of a batch comes
/// again.
#[derive(Drop, Debug)]
pub struct Kept {
    pub rows: Rows,
    pub collections: Times,

    /// The time of the last write to the store.
    pub store: Stamp,

    /// The time of the last deletion of the store or of a collection.
    pub last_delete: Stamp,

    /// How many batches were begun.
    pub counter: u64,

    /// The batches that aren't committed yet.
    pub batches: Batches,
}

impl Kept {
    /// What is kept of an account that nothing was asked of.
    pub fn fresh(alloc: Global) -> Kept
        ensures { result ≡ fresh_kept }
    {
        Kept {
            rows: Rows::new(Vec::new(alloc)),
            collections: Times::new(Vec::new(alloc)),
            store: Stamp::clamp(0),
            last_delete: Stamp::clamp(0),
            counter: 0,
            batches: Batches::new(Vec::new(alloc)),
        }
    }

    pub fn copy(&self, alloc: Global) -> Result<Kept, AllocError>
        ensures { IfOk result (λ copied. copied ≡ self.now) }
    {
        Ok(Kept {
            rows: self.rows.copy(alloc)?,
            collections: self.collections.copy(alloc)?,
            store: self.store,
            last_delete: self.last_delete,
            counter: self.counter,
            batches: self.batches.copy(alloc)?,
        })
    }
}

/// What becomes of a row.
#[derive(Drop, Debug)]
pub enum RowChange {
    /// It is there, in the place of the one of its collection and id.
    Put(Row),

    /// It is there no more.
    Drop { collection: Name, id: Id },
}

impl RowChange {
    pub fn copy(&self, alloc: Global) -> Result<RowChange, AllocError>
        ensures { IfOk result (λ copied. copied ≡ self.now) }
    {
        Ok(match self {
            RowChange::Put(row) => RowChange::Put(row.copy(alloc)?),
            RowChange::Drop { collection, id } => RowChange::Drop {
                collection: collection.copy(alloc)?,
                id: id.copy(alloc)?,
            },
        })
    }
}

/// What becomes of a collection.
#[derive(Drop, Debug)]
pub enum CollectionChange {
    /// It is there, with this time.
    Set { name: Name, time: Stamp },

    /// It is there no more, nor are its rows.
    Drop { name: Name },
}

impl CollectionChange {
    pub fn copy(&self, alloc: Global) -> Result<CollectionChange, AllocError>
        ensures { IfOk result (λ copied. copied ≡ self.now) }
    {
        Ok(match self {
            CollectionChange::Set { name, time } => CollectionChange::Set {
                name: name.copy(alloc)?,
                time: *time,
            },
            CollectionChange::Drop { name } => CollectionChange::Drop {
                name: name.copy(alloc)?,
            },
        })
    }
}

/// A list of what becomes of rows.
#[derive(Drop, Debug)]
pub struct RowChanges {
    changes: Vec<RowChange>,
}

impl Model for RowChanges {
    ghost use Rattle.std.specs.Prelude.{List};
    ghost use Rattle.ss_bso.specs.declared.changes.RowChange.{RowChange};

    ghost Value = { List RowChange };

    ghost view = { λ c. c.changes.items };
}

impl RowChanges {
    /// The changes of a vector, which are moved.
    pub fn new(changes: Vec<RowChange>) -> RowChanges
        ensures { result ≡ changes.items }
    {
        RowChanges { changes }
    }

    pub fn as_slice(&self) -> &[RowChange]
        ensures { result.now ≡ self.now }
    {
        self.changes.as_slice()
    }

    /// The changes as a vector, which are moved.
    pub fn into_vec(self) -> Vec<RowChange>
        ensures { result.items ≡ self }
    {
        self.changes
    }

    pub fn copy(&self, alloc: Global) -> Result<RowChanges, AllocError>
        ensures { IfOk result (λ copied. copied ≡ self.now) }
    {
        let mut changes = Vec::with_capacity(alloc, self.changes.len())?;
        for change in &self.changes {
            changes.push(change.copy(alloc)?)?;
        }
        Ok(RowChanges { changes })
    }
}

/// A list of what becomes of collections.
#[derive(Drop, Debug)]
pub struct CollectionChanges {
    changes: Vec<CollectionChange>,
}

impl Model for CollectionChanges {
    ghost use Rattle.std.specs.Prelude.{List};
    ghost use Rattle.ss_bso.specs.declared.changes.CollectionChange.{CollectionChange};

    ghost Value = { List CollectionChange };

    ghost view = { λ c. c.changes.items };
}

impl CollectionChanges {
    /// The changes of a vector, which are moved.
    pub fn new(changes: Vec<CollectionChange>) -> CollectionChanges
        ensures { result ≡ changes.items }
    {
        CollectionChanges { changes }
    }

    pub fn as_slice(&self) -> &[CollectionChange]
        ensures { result.now ≡ self.now }
    {
        self.changes.as_slice()
    }

    /// The changes as a vector, which are moved.
    pub fn into_vec(self) -> Vec<CollectionChange>
        ensures { result.items ≡ self }
    {
        self.changes
    }

    pub fn copy(&self, alloc: Global) -> Result<CollectionChanges, AllocError>
        ensures { IfOk result (λ copied. copied ≡ self.now) }
    {
        let mut changes = Vec::with_capacity(alloc, self.changes.len())?;
        for change in &self.changes {
            changes.push(change.copy(alloc)?)?;
        }
        Ok(CollectionChanges { changes })
    }
}

/// What becomes of a batch.
#[derive(Drop, Debug)]
pub enum BatchChange {
    /// It is there no more: it was committed, it ended, or its collection was dropped.
    End { number: u64 },

    /// It is there, after those that are. No batch of its number is kept, unless it is ended by the same changes.
    Begin(Staged),

    /// It has these parts too, after those that it has.
    Append { number: u64, parts: Parts },
}

impl BatchChange {
    pub fn copy(&self, alloc: Global) -> Result<BatchChange, AllocError>
        ensures { IfOk result (λ copied. copied ≡ self.now) }
    {
        Ok(match self {
            BatchChange::End { number } => BatchChange::End { number: *number },
            BatchChange::Begin(staged) => BatchChange::Begin(staged.copy(alloc)?),
            BatchChange::Append { number, parts } => BatchChange::Append {
                number: *number,
                parts: parts.copy(alloc)?,
            },
        })
    }
}

/// A list of what becomes of batches.
#[derive(Drop, Debug)]
pub struct BatchChanges {
    changes: Vec<BatchChange>,
}

impl Model for BatchChanges {
    ghost use Rattle.std.specs.Prelude.{List};
    ghost use Rattle.ss_bso.specs.declared.changes.BatchChange.{BatchChange};

    ghost Value = { List BatchChange };

    ghost view = { λ c. c.changes.items };
}

impl BatchChanges {
    /// The changes of a vector, which are moved.
    pub fn new(changes: Vec<BatchChange>) -> BatchChanges
        ensures { result ≡ changes.items }
    {
        BatchChanges { changes }
    }

    pub fn as_slice(&self) -> &[BatchChange]
        ensures { result.now ≡ self.now }
    {
        self.changes.as_slice()
    }

    /// The changes as a vector, which are moved.
    pub fn into_vec(self) -> Vec<BatchChange>
        ensures { result.items ≡ self }
    {
        self.changes
    }

    pub fn copy(&self, alloc: Global) -> Result<BatchChanges, AllocError>
        ensures { IfOk result (λ copied. copied ≡ self.now) }
    {
        let mut changes = Vec::with_capacity(alloc, self.changes.len())?;
        for change in &self.changes {
            changes.push(change.copy(alloc)?)?;
        }
        Ok(BatchChanges { changes })
    }
}

/// What a step changes of what is kept, all of it at once.
#[derive(Drop, Debug)]
pub struct Changes {
    /// The account's moment: rows that have ended by then go first.
    pub moment: Stamp,

    /// What becomes of rows, one after the other, after whole collections were dropped.
    pub rows: RowChanges,

    /// What becomes of collections: those that are dropped go before the rows are changed, those that are set come
    /// after.
    pub collections: CollectionChanges,

    /// The store's time from now on.
    pub store: Stamp,

    /// The time of the last deletion from now on.
    pub last_delete: Stamp,

    /// The counter of batches from now on.
    pub counter: u64,

    /// What becomes of batches: first those go that end, then those come that begin, and then parts are appended. A
    /// collection that is dropped takes no batch with it.
    pub batches: BatchChanges,
}

impl Changes {
    pub fn copy(&self, alloc: Global) -> Result<Changes, AllocError>
        ensures { IfOk result (λ copied. copied ≡ self.now) }
    {
        Ok(Changes {
            moment: self.moment,
            rows: self.rows.copy(alloc)?,
            collections: self.collections.copy(alloc)?,
            store: self.store,
            last_delete: self.last_delete,
            counter: self.counter,
            batches: self.batches.copy(alloc)?,
        })
    }
}
