//! What a client asks of one account (SyncStorage API 1.5).

ghost use Rattle.std.specs.Prelude.{◌≡◌, IfOk};

use ss_bso::{Fields, Records};
use ss_text::{Cond, Id, Ids, Name, Stamp};
use std::alloc::{AllocError, Global};

/// How the records of a POST are taken.
#[derive(Clone, Copy, Debug, PartialEq, Eq)]
pub enum Mode {
    /// They are put at once.
    Plain,

    /// They begin a batch.
    Begin,

    /// They go to the end of a batch.
    Append { batch: u64 },

    /// They go to the end of a batch, whose records are then put at once.
    Commit { batch: u64 },
}

/// What is asked of the account as a whole.
#[derive(Clone, Copy, Debug, PartialEq, Eq)]
pub enum Info {
    /// The time of each collection.
    Collections,

    /// The number of records of each collection.
    Counts,

    /// The payload bytes of each collection.
    Usage,

    /// The payload bytes of the account.
    Quota,

    /// The limits of the server.
    Configuration,
}

/// The order of a list; ties go by id.
#[derive(Clone, Copy, Debug, PartialEq, Eq)]
pub enum Sort {
    /// By time, downwards.
    Newest,

    /// By time, upwards.
    Oldest,

    /// By sortindex, downwards, with 0 for none.
    Index,
}

/// Which records of a collection are asked for, and in which order.
#[derive(Drop, Debug)]
pub struct Query {
    /// Only these; None is all.
    pub ids: Option<Ids>,

    /// Only those of a strictly later time.
    pub newer: Option<Stamp>,

    /// Only those of a strictly earlier time.
    pub older: Option<Stamp>,

    /// At most so many; None is all.
    pub limit: Option<u32>,

    /// So many are left out at the front.
    pub offset: u32,
    pub sort: Sort,

    /// Whole records, and not their ids alone.
    pub full: bool,
}

fn copy_of(alloc: Global, ids: &Option<Ids>) -> Result<Option<Ids>, AllocError>
    ensures { IfOk result (λ copied. copied ≡ ids.now) }
{
    match ids {
        Some(ids) => Ok(Some(ids.copy(alloc)?)),
        None => Ok(None),
    }
}

impl Query {
    pub fn copy(&self, alloc: Global) -> Result<Query, AllocError>
        ensures { IfOk result (λ copied. copied ≡ self.now) }
    {
        Ok(Query {
            ids: copy_of(alloc, &self.ids)?,
            newer: self.newer,
            older: self.older,
            limit: self.limit,
            offset: self.offset,
            sort: self.sort,
            full: self.full,
        })
    }
}

/// What a client asks of one account.
#[derive(Drop, Debug)]
pub enum Request {
    Info {
        what: Info,
        cond: Cond,
    },
    DeleteAll {
        cond: Cond,
    },
    List {
        collection: Name,
        query: Query,
        cond: Cond,
    },
    Post {
        collection: Name,
        records: Records,
        mode: Mode,
        cond: Cond,
    },
    DeleteCollection {
        collection: Name,
        cond: Cond,
    },
    DeleteIds {
        collection: Name,
        ids: Ids,
        cond: Cond,
    },
    Get {
        collection: Name,
        id: Id,
        cond: Cond,
    },
    Put {
        collection: Name,
        id: Id,
        fields: Fields,
        cond: Cond,
    },
    Delete {
        collection: Name,
        id: Id,
        cond: Cond,
    },
}

impl Request {
    pub fn copy(&self, alloc: Global) -> Result<Request, AllocError>
        ensures { IfOk result (λ copied. copied ≡ self.now) }
    {
        match self {
            Request::Info { what, cond } => Ok(Request::Info {
                what: *what,
                cond: *cond,
            }),
            Request::DeleteAll { cond } => Ok(Request::DeleteAll { cond: *cond }),
            Request::List {
                collection,
                query,
                cond,
            } => Ok(Request::List {
                collection: collection.copy(alloc)?,
                query: query.copy(alloc)?,
                cond: *cond,
            }),
            Request::Post {
                collection,
                records,
                mode,
                cond,
            } => Ok(Request::Post {
                collection: collection.copy(alloc)?,
                records: records.copy(alloc)?,
                mode: *mode,
                cond: *cond,
            }),
            Request::DeleteCollection { collection, cond } => Ok(Request::DeleteCollection {
                collection: collection.copy(alloc)?,
                cond: *cond,
            }),
            Request::DeleteIds {
                collection,
                ids,
                cond,
            } => Ok(Request::DeleteIds {
                collection: collection.copy(alloc)?,
                ids: ids.copy(alloc)?,
                cond: *cond,
            }),
            Request::Get {
                collection,
                id,
                cond,
            } => Ok(Request::Get {
                collection: collection.copy(alloc)?,
                id: id.copy(alloc)?,
                cond: *cond,
            }),
            Request::Put {
                collection,
                id,
                fields,
                cond,
            } => Ok(Request::Put {
                collection: collection.copy(alloc)?,
                id: id.copy(alloc)?,
                fields: fields.copy(alloc)?,
                cond: *cond,
            }),
            Request::Delete {
                collection,
                id,
                cond,
            } => Ok(Request::Delete {
                collection: collection.copy(alloc)?,
                id: id.copy(alloc)?,
                cond: *cond,
            }),
        }
    }
}
