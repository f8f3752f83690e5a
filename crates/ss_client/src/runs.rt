//! A run as plain data: what it counts, and what it is about to send.

ghost use Rattle.std.specs.Prelude.{◌≡◌, ◌∷◌, ◌++◌, [], IfOk};

use ss_bso::Parts;
use ss_hearing::Sheets;
use ss_plan::Limits;
use ss_sync::Fetched;
use ss_text::Stamp;
use ss_tree::Tree;
use std::alloc::{AllocError, Global};
use std::marker::Model;

/// Times in the order in which they came.
#[derive(Drop, Debug)]
pub struct Times {
    times: Vec<Stamp>,
}

impl Model for Times {
    ghost use Rattle.std.specs.Prelude.{List, ℕ};

    ghost Value = { List ℕ };

    ghost view = { λ t. t.times.items };
}

impl Times {
    pub fn new(alloc: Global) -> Times
        ensures { result ≡ [] }
    {
        Times {
            times: Vec::new(alloc),
        }
    }

    pub fn as_slice(&self) -> &[Stamp]
        ensures { result.now ≡ self.now }
    {
        self.times.as_slice()
    }

    /// The times and one more.
    pub(crate) fn and(mut self, time: Stamp) -> Result<Times, AllocError>
        ensures { IfOk result (λ times. times ≡ self ++ time ∷ []) }
    {
        self.times.push(time)?;
        Ok(self)
    }
}

/// What a run counts beside its stage.
#[derive(Drop, Debug)]
pub struct Run {
    /// Whether its fetch is the newer one.
    pub newer: bool,
    /// The collection's times that its 412s told.
    pub changes: Times,
    /// The server's limits; before they were told all 0.
    pub limits: Limits,
    /// The number of the request under way, from 1.
    pub number: u64,
    /// The POSTs that were sent.
    pub posts: u64,
    /// The fetches that were begun.
    pub fetches: u64,
}

/// What is fetched page by page.
#[derive(Drop)]
pub struct Paging {
    /// The collection's time at the first page.
    pub(crate) time: Stamp,
    /// Where the next page begins.
    pub(crate) offset: u32,
    /// The pages that came.
    pub(crate) pages: u64,
    pub(crate) rows: Fetched,
}

impl Model for Paging {
    ghost use Rattle.std.specs.Prelude.{◌<◌};
    ghost use Rattle.ss_client.specs.Leaves.{PagingView};

    ghost Value = { PagingView };

    ghost view = { λ p. record { time = p.time; offset = p.offset; pages = p.pages; rows = p.rows } };

    ghost invariant = { λ p. p.pages < 1000 };
}

/// The rows of all pages of a newer fetch.
#[derive(Drop)]
pub struct Listing {
    /// The collection's time at the first page.
    pub(crate) time: Stamp,
    pub(crate) rows: Fetched,
}

/// A plan that is sent.
#[derive(Drop, Debug)]
pub struct Upload {
    /// The collection's time at the first page of the fetch.
    pub(crate) time: Stamp,
    /// The rows that were fetched.
    pub(crate) rows: Sheets,
    pub(crate) merged: Tree,
    /// The parts of the plan.
    pub(crate) parts: Parts,
    /// The batch, once it was begun.
    pub(crate) batch: Option<u64>,
    /// The parts that are in the batch.
    pub(crate) sent: usize,
    /// The parts of the POST under way.
    pub(crate) count: usize,
}

impl Model for Upload {
    ghost use Rattle.ss_client.specs.Leaves.{UploadView, IsUpload};

    ghost Value = { UploadView };

    ghost view = { λ u. record { time = u.time; rows = u.rows; merged = u.merged; parts = u.parts; batch = u.batch; sent = u.sent; count = u.count } };

    ghost invariant = { λ u. IsUpload (record { time = u.time; rows = u.rows; merged = u.merged; parts = u.parts; batch = u.batch; sent = u.sent; count = u.count }) };
}

/// What a run is about to send, with what it knows.
#[derive(Drop)]
pub enum Stage {
    /// The request for the server's limits.
    Asks,
    /// The request for a first page.
    Opens,
    /// The request for a further page.
    Pages(Paging),
    /// The request for the ids of all rows.
    Lists(Listing),
    /// A POST.
    Uploads(Upload),
}
