//! What requests ask in common, and the bodies that tell of them.

ghost use Rattle.std.specs.Prelude.{◌≡◌, ◌<◌, IfOk, length};
ghost use Rattle.ss_bso.specs.Limits.{rows_of};
ghost use Rattle.ss_query.specs.Answer.{answer};
ghost use Rattle.ss_bso.specs.Write.{ids_of};
ghost use Rattle.ss_query.specs.declared.replies.Body.TheVariants.{Posted, Staged as StagedBody};
ghost use Rattle.ss_query.specs.Api.{why_stopped};
ghost use Rattle.ss_query.specs.Refused.{condition_of, said_by};
ghost use Rattle.ss_query.specs.Told.{first_failures, rows_body};
ghost use Rattle.ss_index.specs.Shelved.{rows_in};
ghost use Rattle.ss_account.specs.Steps.{fault_body};

use ss_batch::StageFault;
use ss_bso::{Failures, Records};
use ss_index::Shelf;
use ss_list::Steps;
use ss_query::{Body, Cond, Picked, PickedIds, Query, Request, Said};
use ss_text::{Ids, Name, Stamp};
use ss_writes::{Targets, first_failures};
use std::alloc::{AllocError, Global};
use std::marker::Brand;
use std::sync::ledger::{Blank, Ledger};

/// The condition of a request.
pub(crate) fn condition_of(request: &Request) -> Cond
    ensures { result ≡ condition_of request.now }
{
    match request {
        Request::Info { cond, .. } => *cond,
        Request::DeleteAll { cond } => *cond,
        Request::List { cond, .. } => *cond,
        Request::Post { cond, .. } => *cond,
        Request::DeleteCollection { cond, .. } => *cond,
        Request::DeleteIds { cond, .. } => *cond,
        Request::Get { cond, .. } => *cond,
        Request::Put { cond, .. } => *cond,
        Request::Delete { cond, .. } => *cond,
    }
}

/// The body of a request that its condition stops.
pub(crate) fn stop_body(status: u16) -> Body
    ensures { result ≡ said_by (why_stopped status) }
{
    if status == 304 {
        Body::Empty
    } else {
        Body::Said(Said::Modified)
    }
}

/// The body against a request that continues a batch.
pub(crate) fn fault_body(fault: StageFault) -> Body
    ensures { result ≡ fault_body fault }
{
    match fault {
        StageFault::TooManyRecords { .. } | StageFault::TooManyBytes { .. } => Body::Code(17),
        _ => Body::Said(Said::Batch),
    }
}

/// The ids of a POST's good parts, and its failed records, as it is told of them.
#[derive(Drop)]
pub(crate) struct Told {
    pub(crate) success: Ids,
    pub(crate) failed: Failures,
}

pub(crate) fn told_of(alloc: Global, records: &Records) -> Result<Told, AllocError>
    ensures success { IfOk result (λ told. told.success ≡ ids_of records.now.parts) }
    ensures failed { IfOk result (λ told. told.failed ≡ first_failures records.now.failed) }
{
    let targets = Targets::of_parts(alloc, records.parts.as_slice(), &[])?;
    Ok(Told {
        success: Ids::new(targets.into_vec(alloc)?),
        failed: Failures::new(first_failures(alloc, records.failed.as_slice())?),
    })
}

pub(crate) fn posted(modified: Stamp, told: Told) -> Body
    ensures { result ≡ Posted modified told.success told.failed }
{
    Body::Posted {
        modified,
        success: told.success,
        failed: told.failed,
    }
}

pub(crate) fn staged(batch: u64, told: Told) -> Body
    ensures { result ≡ StagedBody batch told.success told.failed }
{
    Body::Staged {
        batch,
        success: told.success,
        failed: told.failed,
    }
}

/// A list as it is told: whole rows or their ids alone, how many, and where the next page begins.
#[derive(Drop)]
pub(crate) struct Page {
    pub(crate) body: Body,
    pub(crate) count: u64,
    pub(crate) next: Option<u64>,
}

/// The page of a query over the rows of a collection. No payload is copied for a list of ids.
pub(crate) fn page_of(
    alloc: Global,
    shelf: &Shelf,
    collection: &Name,
    query: &Query,
) -> Result<Page, AllocError>
    ensures body { IfOk result (λ page. page.body ≡ rows_body query.now.full
        (answer (rows_of collection.now (rows_in shelf.now)) query.now).rows) }
    ensures count { IfOk result (λ page. page.count ≡ length (answer (rows_of collection.now (rows_in shelf.now))
        query.now).rows) }
    ensures next { IfOk result (λ page. page.next ≡ (answer (rows_of collection.now (rows_in shelf.now))
        query.now).next) }
{
    page_counting::<Brand>(alloc, shelf, collection, query, Blank::new(1))
}

fn page_counting<L: Ledger>(
    alloc: Global,
    shelf: &Shelf,
    collection: &Name,
    query: &Query,
    blank: Blank,
) -> Result<Page, AllocError>
    requires name { blank.name ≡ L.name }
    requires parts { blank.parts ≡ L.parts }
    requires some_part { 0 < blank.parts }
    ensures body { IfOk result (λ page. page.body ≡ rows_body query.now.full
        (answer (rows_of collection.now (rows_in shelf.now)) query.now).rows) }
    ensures count { IfOk result (λ page. page.count ≡ length (answer (rows_of collection.now (rows_in shelf.now))
        query.now).rows) }
    ensures next { IfOk result (λ page. page.next ≡ (answer (rows_of collection.now (rows_in shelf.now))
        query.now).next) }
{
    let mut steps = Steps::<L>::new(blank);
    if query.full {
        let Picked { rows, next } = shelf.select(alloc, collection, query, &mut steps)?;
        let count = rows.as_slice().len() as u64;
        let body = Body::Rows(rows);
        Ok(Page { body, count, next })
    } else {
        let PickedIds { ids, next } = shelf.select_ids(alloc, collection, query, &mut steps)?;
        let count = ids.as_slice().len() as u64;
        let body = Body::Ids(ids);
        Ok(Page { body, count, next })
    }
}
