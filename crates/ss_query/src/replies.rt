//! What a client is told (SyncStorage API 1.5).

ghost use Rattle.std.specs.Prelude.{◌≡◌};
ghost use Rattle.ss_query.specs.Marks.{mark_of};

use ss_bso::{Failures, Row, Rows, Times};
use ss_text::{Ids, Name, Stamp};
use std::marker::Model;

/// Names of collections, each with a number.
#[derive(Drop, Debug)]
pub struct Numbers {
    numbers: Vec<(Name, u64)>,
}

impl Model for Numbers {
    ghost use Rattle.std.specs.Prelude.{List, ℕ};

    ghost Value = { List (List ℕ × ℕ) };

    ghost view = { λ n. n.numbers.items };
}

impl Numbers {
    /// The numbers of a vector, which are moved.
    pub fn new(numbers: Vec<(Name, u64)>) -> Numbers
        ensures { result ≡ numbers.items }
    {
        Numbers { numbers }
    }

    pub fn as_slice(&self) -> &[(Name, u64)]
        ensures { result.now ≡ self.now }
    {
        self.numbers.as_slice()
    }
}

/// The words of error bodies (this project).
#[derive(Clone, Copy, Debug, PartialEq, Eq)]
pub enum Said {
    Account,
    Announce,
    Batch,
    Batches,
    Clock,
    Commit,
    Condition,
    Head,
    Ids,
    Item,
    Keeper,
    Length,
    Limit,
    Memory,
    Modified,
    Offset,
    Path,
    Size,
    Sort,
    Stamp,
    Term,
    Type,
}

/// The body of a reply.
#[derive(Drop, Debug)]
pub enum Body {
    /// The time of each collection.
    Times(Times),

    /// The number of records of each collection.
    Counts(Numbers),

    /// The payload bytes of each collection.
    Usage(Numbers),

    /// The payload bytes of the account.
    Quota {
        used: u64,
    },

    /// The limits of the server.
    Limits,

    /// The time of a deletion.
    Gone(Stamp),

    /// The ids of a list.
    Ids(Ids),

    /// The whole records of a list.
    Rows(Rows),
    Posted {
        modified: Stamp,
        success: Ids,
        failed: Failures,
    },
    Staged {
        batch: u64,
        success: Ids,
        failed: Failures,
    },
    One(Row),

    /// The time of a PUT.
    At(Stamp),

    /// None, as with 304 and 405.
    Empty,
    Code(u16),
    Said(Said),
}

/// What a client is told.
#[derive(Drop, Debug)]
pub struct Reply {
    pub status: u16,

    /// The account's moment after the request.
    pub moment: Stamp,

    /// The time of the target, or of the write.
    pub modified: Option<Stamp>,

    /// How many records a list has.
    pub count: Option<u64>,

    /// Where the next page of a list begins, if records are left.
    pub next: Option<u64>,
    pub body: Body,
}

impl Reply {
    /// How the request that is answered so is entered in the journal.
    pub fn mark(&self) -> Mark
        ensures { result ≡ mark_of self.now }
    {
        match (self.status, &self.body) {
            (507, _) => Mark::Memory,
            (503, Body::Said(Said::Keeper)) => Mark::Keeper,
            _ => Mark::Done,
        }
    }
}

/// What a query finds.
#[derive(Drop, Debug)]
pub struct Picked {
    pub rows: Rows,

    /// Where the next page begins, if records are left.
    pub next: Option<u64>,
}

/// The ids of what a query finds.
#[derive(Drop, Debug)]
pub struct PickedIds {
    pub ids: Ids,

    /// Where the next page begins, if rows are left.
    pub next: Option<u64>,
}

/// How a request was entered in the journal.
#[derive(Clone, Copy, Debug, PartialEq, Eq)]
pub enum Mark {
    /// It was done, or refused by a rule.
    Done,

    /// The keeper failed.
    Keeper,

    /// Memory ran out.
    Memory,
}
