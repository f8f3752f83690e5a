//! What a request is to an account: a read, a write, or a change of a batch alone.

ghost use Rattle.ss_bso.specs.Validity.{IsValid};
ghost use Rattle.ss_query.specs.declared.requests.Request.TheVariants.{Post};
ghost use Rattle.ss_text.specs.declared.stamps.Cond.{Cond};
ghost use Rattle.ss_account.specs.Kinds.{IsKindOf};

use crate::state::State;
use ss_bso::{Fields, Records};
use ss_query::{Info, Mode, Query, Request};
use ss_text::{Id, Ids, Name};

/// What a request is to an account, once its condition has let it pass.
#[derive(Drop)]
pub(crate) enum Kind<'a> {
    /// It changes nothing.
    Read(ReadRequest<'a>),

    /// It changes rows or collections, and has a stamp.
    Write(WriteRequest<'a>),

    /// It changes a batch alone.
    Stage(StageRequest<'a>),
}

/// A request that changes nothing.
#[derive(Drop)]
pub(crate) enum ReadRequest<'a> {
    Info(Info),

    List {
        collection: &'a Name,
        query: &'a Query,
    },

    Get {
        collection: &'a Name,
        id: &'a Id,
    },

    /// A POST without a good record.
    Post {
        collection: &'a Name,
        records: &'a Records,
    },

    /// A DELETE of ids in a collection that isn't listed.
    DeleteIds {
        collection: &'a Name,
        ids: &'a Ids,
    },
}

/// A request that changes rows or collections.
#[derive(Drop)]
pub(crate) enum WriteRequest<'a> {
    DeleteAll,

    DeleteCollection {
        collection: &'a Name,
    },

    DeleteIds {
        collection: &'a Name,
        ids: &'a Ids,
    },

    Delete {
        collection: &'a Name,
        id: &'a Id,
    },

    Put {
        collection: &'a Name,
        id: &'a Id,
        fields: &'a Fields,
    },

    /// A POST of no batch.
    Post {
        collection: &'a Name,
        records: &'a Records,
    },

    /// A commit that puts records, its own or those of its batch.
    Commit {
        collection: &'a Name,
        records: &'a Records,
        batch: u64,
    },
}

/// A request that changes a batch alone.
#[derive(Drop)]
pub(crate) enum StageRequest<'a> {
    Begin {
        collection: &'a Name,
        records: &'a Records,
    },

    Append {
        collection: &'a Name,
        records: &'a Records,
        batch: u64,
    },

    /// A commit that puts no record.
    End {
        collection: &'a Name,
        records: &'a Records,
        batch: u64,
    },
}

impl State {
    /// What a request is to this account.
    pub(crate) fn kind_of<'a>(&self, request: &'a Request) -> Kind<'a>
        requires { IsValid self.now }
        ensures { IsKindOf self.now request.now result }
    {
        match request {
            Request::Info { what, .. } => Kind::Read(ReadRequest::Info(*what)),
            Request::List {
                collection,
                query,
                ..
            } => Kind::Read(ReadRequest::List { collection, query }),
            Request::Get { collection, id, .. } => Kind::Read(ReadRequest::Get { collection, id }),
            Request::Post {
                collection,
                records,
                mode,
                ..
            } => self.post_kind(collection, records, *mode),
            Request::DeleteIds {
                collection,
                ids,
                ..
            } => {
                if self.is_listed(collection) {
                    Kind::Write(WriteRequest::DeleteIds { collection, ids })
                } else {
                    Kind::Read(ReadRequest::DeleteIds { collection, ids })
                }
            }
            Request::DeleteAll { .. } => Kind::Write(WriteRequest::DeleteAll),
            Request::DeleteCollection { collection, .. } => {
                Kind::Write(WriteRequest::DeleteCollection { collection })
            }
            Request::Delete { collection, id, .. } => {
                Kind::Write(WriteRequest::Delete { collection, id })
            }
            Request::Put {
                collection,
                id,
                fields,
                ..
            } => Kind::Write(WriteRequest::Put {
                collection,
                id,
                fields,
            }),
        }
    }

    /// What a POST is to this account: one that puts no record writes nothing.
    fn post_kind<'a>(&self, collection: &'a Name, records: &'a Records, mode: Mode) -> Kind<'a>
        requires { IsValid self.now }
        ensures { (cond : Cond) → IsKindOf self.now (Post collection.now records.now mode cond) result }
    {
        let has_parts = !records.parts.as_slice().is_empty();
        match mode {
            Mode::Plain if has_parts => Kind::Write(WriteRequest::Post {
                collection,
                records,
            }),
            Mode::Plain => Kind::Read(ReadRequest::Post {
                collection,
                records,
            }),
            Mode::Begin => Kind::Stage(StageRequest::Begin {
                collection,
                records,
            }),
            Mode::Append { batch } => Kind::Stage(StageRequest::Append {
                collection,
                records,
                batch,
            }),
            Mode::Commit { batch } => {
                if has_parts || !self.staged_parts(batch, collection).is_empty() {
                    Kind::Write(WriteRequest::Commit {
                        collection,
                        records,
                        batch,
                    })
                } else {
                    Kind::Stage(StageRequest::End {
                        collection,
                        records,
                        batch,
                    })
                }
            }
        }
    }
}
