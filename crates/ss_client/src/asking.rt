//! The requests of a machine.

ghost use Rattle.std.specs.Prelude.{◌≡◌, [], Some, None, if◌then◌else◌, IfOk, codes};
ghost use Rattle.ss_query.specs.declared.requests.Request.TheVariants.{Post};
ghost use Rattle.ss_text.specs.declared.stamps.Cond.TheVariants.{IfUnmodified};
ghost use Rattle.ss_route.specs.Sending.{page, all_ids};
ghost use Rattle.ss_client.specs.Runs.{post_of, rest_of};
ghost use Rattle.ss_client.specs.Asking.{mode_of, asked, awaits, awaited_of};

use crate::runs::{Run, Stage, Upload};
use ss_bso::{Failures, Part, Parts, Records};
use ss_device::Device;
use ss_hearing::Awaited;
use ss_query::{Info, Mode, Query, Request, Sort};
use ss_text::{Cond, Name, Stamp};
use std::alloc::{AllocError, Global};

/// How many rows a page has at most.
const PAGE: u32 = 1_000;

/// The collection that is synced.
#[tactic(auto, unfolding(ss_text::specs::Names::is_name))]
fn bookmarks(alloc: Global) -> Result<Name, AllocError>
    ensures { IfOk result (λ name. name ≡ codes "bookmarks") }
{
    match Name::new(alloc, b"bookmarks")? {
        Some(name) => Ok(name),
        None => unreachable!(),
    }
}

fn page(newer: Option<Stamp>, offset: u32) -> Query
    ensures { result ≡ page newer offset }
{
    Query {
        ids: None,
        newer,
        older: None,
        limit: Some(PAGE),
        offset,
        sort: Sort::Oldest,
        full: true,
    }
}

fn all_ids() -> Query
    ensures { result ≡ all_ids }
{
    Query {
        ids: None,
        newer: None,
        older: None,
        limit: None,
        offset: 0,
        sort: Sort::Newest,
        full: false,
    }
}

fn copy_of(alloc: Global, parts: &[Part]) -> Result<Parts, AllocError>
    ensures { IfOk result (λ copied. copied ≡ parts.now) }
{
    let mut copied = Vec::with_capacity(alloc, parts.len())?;
    for part in parts {
        copied.push(part.copy(alloc)?)?;
    }
    Ok(Parts::new(copied))
}

fn mode_of(batch: Option<u64>, rest: &[Part]) -> Mode
    ensures { result ≡ mode_of batch rest.now }
{
    match (batch, rest.is_empty()) {
        (None, true) => Mode::Plain,
        (None, false) => Mode::Begin,
        (Some(batch), true) => Mode::Commit { batch },
        (Some(batch), false) => Mode::Append { batch },
    }
}

impl Upload {
    /// The parts of the POST under way.
    fn post(&self) -> &[Part]
        ensures { result.now ≡ post_of self.now }
    {
        &self.parts.as_slice()[self.sent..self.sent + self.count]
    }

    /// The parts of the POSTs after it.
    fn rest(&self) -> &[Part]
        ensures { result.now ≡ rest_of self.now }
    {
        &self.parts.as_slice()[self.sent + self.count..]
    }
}

fn post_of(alloc: Global, upload: &Upload) -> Result<Request, AllocError>
    ensures { IfOk result (λ request. request ≡ Post (codes "bookmarks")
        (record { parts = post_of upload.now; failed = [] }) (mode_of upload.now.batch (rest_of upload.now))
        (IfUnmodified upload.now.time)) }
{
    Ok(Request::Post {
        collection: bookmarks(alloc)?,
        records: Records {
            parts: copy_of(alloc, upload.post())?,
            failed: Failures::new(Vec::new(alloc)),
        },
        mode: mode_of(upload.batch, upload.rest()),
        cond: Cond::IfUnmodified(upload.time),
    })
}

/// The time above which rows are fetched.
fn since(device: &Device, run: &Run) -> Option<Stamp>
    ensures { result ≡ (if run.now.newer then Some device.now.stamp else None) }
{
    if run.newer {
        Some(device.stamp())
    } else {
        None
    }
}

/// What a machine asks (SyncStorage API 1.5).
#[tactic(auto, unfolding(crate::specs::Asking::asked))]
pub(crate) fn asked(
    alloc: Global,
    device: &Device,
    run: &Run,
    stage: &Stage,
) -> Result<Request, AllocError>
    ensures { IfOk result (λ request. request ≡ asked (record { device = device.now; run = run.now; stage = stage.now })
        stage.now) }
{
    match stage {
        Stage::Asks => Ok(Request::Info {
            what: Info::Configuration,
            cond: Cond::Free,
        }),
        Stage::Opens => Ok(Request::List {
            collection: bookmarks(alloc)?,
            query: page(since(device, run), 0),
            cond: Cond::Free,
        }),
        Stage::Pages(paging) => Ok(Request::List {
            collection: bookmarks(alloc)?,
            query: page(since(device, run), paging.offset),
            cond: Cond::IfUnmodified(paging.time),
        }),
        Stage::Lists(listing) => Ok(Request::List {
            collection: bookmarks(alloc)?,
            query: all_ids(),
            cond: Cond::IfUnmodified(listing.time),
        }),
        Stage::Uploads(upload) => post_of(alloc, upload),
    }
}

impl Stage {
    /// The kind of reply that is awaited.
    #[tactic(auto, unfolding(crate::specs::Asking::awaits))]
    pub(crate) fn awaits(&self) -> Awaited
        ensures { result ≡ awaits self.now }
    {
        match self {
            Stage::Asks => Awaited::Configuration,
            Stage::Opens => Awaited::FirstPage,
            Stage::Pages(_) => Awaited::LaterPage,
            Stage::Lists(_) => Awaited::AllIds,
            Stage::Uploads(upload) => if upload.rest().is_empty() {
                Awaited::Writing
            } else {
                Awaited::Staging
            },
        }
    }
}
