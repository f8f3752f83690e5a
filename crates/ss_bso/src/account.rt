//! An account as plain data.

ghost use Rattle.std.specs.Prelude.{◌≡◌, IfOk};

use crate::parts::Parts;
use crate::rows::Rows;
use ss_text::{Name, Stamp};
use std::alloc::{AllocError, Global};
use std::marker::Model;

/// The collections, each with the time of its last write.
#[derive(Drop, Debug)]
pub struct Times {
    times: Vec<(Name, Stamp)>,
}

impl Model for Times {
    ghost use Rattle.std.specs.Prelude.{List, ℕ};

    ghost Value = { List (List ℕ × ℕ) };

    ghost view = { λ t. t.times.items };
}

impl Times {
    /// The times of a vector, which are moved.
    pub fn new(times: Vec<(Name, Stamp)>) -> Times
        ensures { result ≡ times.items }
    {
        Times { times }
    }

    pub fn as_slice(&self) -> &[(Name, Stamp)]
        ensures { result.now ≡ self.now }
    {
        self.times.as_slice()
    }

    /// The times as a vector, which are moved.
    pub fn into_vec(self) -> Vec<(Name, Stamp)>
        ensures { result.items ≡ self }
    {
        self.times
    }

    pub fn copy(&self, alloc: Global) -> Result<Times, AllocError>
        ensures { IfOk result (λ copied. copied ≡ self.now) }
    {
        let mut times = Vec::with_capacity(alloc, self.times.len())?;
        for entry in &self.times {
            times.push((entry.0.copy(alloc)?, entry.1))?;
        }
        Ok(Times { times })
    }
}

/// A batch that isn't committed yet.
#[derive(Drop, Debug)]
pub struct Staged {
    pub number: u64,
    pub collection: Name,

    /// The account's moment when it began.
    pub begun: Stamp,
    pub parts: Parts,
}

impl Staged {
    pub fn copy(&self, alloc: Global) -> Result<Staged, AllocError>
        ensures { IfOk result (λ copied. copied ≡ self.now) }
    {
        Ok(Staged {
            number: self.number,
            collection: self.collection.copy(alloc)?,
            begun: self.begun,
            parts: self.parts.copy(alloc)?,
        })
    }
}

/// A list of batches.
#[derive(Drop, Debug)]
pub struct Batches {
    batches: Vec<Staged>,
}

impl Model for Batches {
    ghost use Rattle.std.specs.Prelude.{List};
    ghost use Rattle.ss_bso.specs.declared.account.Staged.{Staged};

    ghost Value = { List Staged };

    ghost view = { λ b. b.batches.items };
}

impl Batches {
    /// The batches of a vector, which are moved.
    pub fn new(batches: Vec<Staged>) -> Batches
        ensures { result ≡ batches.items }
    {
        Batches { batches }
    }

    pub fn as_slice(&self) -> &[Staged]
        ensures { result.now ≡ self.now }
    {
        self.batches.as_slice()
    }

    /// The batches as a vector, which are moved.
    pub fn into_vec(self) -> Vec<Staged>
        ensures { result.items ≡ self }
    {
        self.batches
    }

    pub fn copy(&self, alloc: Global) -> Result<Batches, AllocError>
        ensures { IfOk result (λ copied. copied ≡ self.now) }
    {
        let mut batches = Vec::with_capacity(alloc, self.batches.len())?;
        for batch in &self.batches {
            batches.push(batch.copy(alloc)?)?;
        }
        Ok(Batches { batches })
    }
}

/// An account as plain data.
#[derive(Drop, Debug)]
pub struct Plain {
    pub rows: Rows,
    pub collections: Times,

    /// The time of the last write to the store.
    pub store: Stamp,

    /// The time of the last deletion of the store or of a collection.
    pub last_delete: Stamp,

    /// Account time: the latest reading of the clock, or the last write, whichever is later.
    pub moment: Stamp,

    /// How many batches were begun.
    pub counter: u64,
    pub batches: Batches,
}

impl Plain {
    pub fn copy(&self, alloc: Global) -> Result<Plain, AllocError>
        ensures { IfOk result (λ copied. copied ≡ self.now) }
    {
        Ok(Plain {
            rows: self.rows.copy(alloc)?,
            collections: self.collections.copy(alloc)?,
            store: self.store,
            last_delete: self.last_delete,
            moment: self.moment,
            counter: self.counter,
            batches: self.batches.copy(alloc)?,
        })
    }
}
