//! A stored record.

ghost use Rattle.std.specs.Prelude.{◌≡◌, IfOk};
ghost use Rattle.ss_bso.specs.Account.{is_alive};

use ss_text::{Id, Name, Stamp, Word};
use std::alloc::{AllocError, Global};
use std::marker::Model;

/// A stored record, a "basic storage object" of the SyncStorage API 1.5.
#[derive(Drop, Debug)]
pub struct Row {
    pub collection: Name,
    pub id: Id,

    /// The time of the last write.
    pub modified: Stamp,

    /// The place among others, from -999,999,999 to 999,999,999.
    pub sortindex: Option<i32>,
    pub payload: Word,

    /// The hundredth of a second from which the row is there no more; None is never.
    pub expires: Option<u64>,
}

impl Row {
    pub fn copy(&self, alloc: Global) -> Result<Row, AllocError>
        ensures { IfOk result (λ copied. copied ≡ self.now) }
    {
        Ok(Row {
            collection: self.collection.copy(alloc)?,
            id: self.id.copy(alloc)?,
            modified: self.modified,
            sortindex: self.sortindex,
            payload: self.payload.copy(alloc)?,
            expires: self.expires,
        })
    }

    /// Whether it is there at a moment: it has no expiry, or a later one.
    pub fn is_alive(&self, moment: Stamp) -> bool
        ensures { result ≡ is_alive moment self.now }
    {
        match self.expires {
            None => true,
            Some(expires) => moment.get() < expires,
        }
    }
}

/// A list of rows.
#[derive(Drop, Debug)]
pub struct Rows {
    rows: Vec<Row>,
}

impl Model for Rows {
    ghost use Rattle.std.specs.Prelude.{List};
    ghost use Rattle.ss_bso.specs.declared.rows.Row.{Row};

    ghost Value = { List Row };

    ghost view = { λ r. r.rows.items };
}

impl Rows {
    /// The rows of a vector, which are moved.
    pub fn new(rows: Vec<Row>) -> Rows
        ensures { result ≡ rows.items }
    {
        Rows { rows }
    }

    pub fn as_slice(&self) -> &[Row]
        ensures { result.now ≡ self.now }
    {
        self.rows.as_slice()
    }

    /// The rows as a vector, which are moved.
    pub fn into_vec(self) -> Vec<Row>
        ensures { result.items ≡ self }
    {
        self.rows
    }

    pub fn copy(&self, alloc: Global) -> Result<Rows, AllocError>
        ensures { IfOk result (λ copied. copied ≡ self.now) }
    {
        let mut rows = Vec::with_capacity(alloc, self.rows.len())?;
        for row in &self.rows {
            rows.push(row.copy(alloc)?)?;
        }
        Ok(Rows { rows })
    }
}
