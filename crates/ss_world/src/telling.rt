//! What a device is told of a reply.

ghost use Rattle.std.specs.Prelude.{◌≡◌, map, unwrap_or, IfOk, OnErr};
ghost use Rattle.ss_serving.specs.Bookmarks.{sheet_of};
ghost use Rattle.ss_serving.specs.Asking.{our_limits, first_failed, page_told, said_by, told_by};
ghost use Rattle.ss_hearing.specs.Hearing.{answer_or_failure, status_of};
ghost use Rattle.ss_client.specs.Sound.{TellsOurs};
ghost use Rattle.ss_hearing.specs.declared.answer.Awaited.TheVariants as awaited;

use ss_bso::{Failures, Row, limits};
use ss_hearing::{Answer, Awaited, Sheets};
use ss_http::limits::BODY_ROOM;
use ss_plan::Limits;
use ss_query::{Body, Reply};
use ss_record::Sheet;
use ss_text::{Id, Stamp};
use std::alloc::{AllocError, Global};

/// The limits that our server tells.
fn our_limits() -> Limits
    ensures { result ≡ our_limits }
{
    Limits {
        max_request_bytes: BODY_ROOM,
        max_post_records: limits::MOST_POST_RECORDS,
        max_post_bytes: limits::MOST_POST_BYTES,
        max_total_records: limits::MOST_BATCH_RECORDS,
        max_total_bytes: limits::MOST_BATCH_BYTES,
        max_record_payload_bytes: limits::MOST_RECORD_PAYLOAD_BYTES as u64,
    }
}

fn first_failed(alloc: Global, failed: &Failures) -> Result<Option<Id>, AllocError>
    ensures { IfOk result (λ id. id ≡ first_failed failed.now) }
{
    match failed.as_slice().first() {
        Some((id, _)) => Ok(Some(id.copy(alloc)?)),
        None => Ok(None),
    }
}

fn answer_with(
    alloc: Global,
    status: u16,
    failed: &Failures,
    answer: Answer,
) -> Result<Answer, AllocError>
    ensures { IfOk result (λ a. a ≡ answer_or_failure status (first_failed failed.now) answer) }
{
    match first_failed(alloc, failed)? {
        Some(id) => Ok(Answer::Failed { status, id }),
        None => Ok(answer),
    }
}

fn sheets_of(alloc: Global, rows: &[Row]) -> Result<Sheets, AllocError>
    ensures { IfOk result (λ sheets. sheets ≡ map sheet_of rows.now) }
{
    let mut sheets = Vec::with_capacity(alloc, rows.len())?;
    for row in rows {
        sheets.push(Sheet {
            id: row.id.copy(alloc)?,
            modified: row.modified,
            payload: row.payload.copy(alloc)?,
        })?;
    }
    Ok(Sheets::new(sheets))
}

fn time_of(reply: &Reply) -> Stamp
    ensures { result ≡ unwrap_or reply.now.modified 0 }
{
    match reply.modified {
        Some(time) => time,
        None => Stamp::clamp(0),
    }
}

/// A page at this time of the collection; an offset of ten digits is none that a client reads.
fn page(alloc: Global, next: Option<u64>, rows: &[Row], time: Stamp) -> Result<Answer, AllocError>
    ensures { IfOk result (λ answer. answer ≡ page_told next rows.now time) }
{
    let next = match next {
        None => None,
        Some(offset) if offset < 1_000_000_000 => Some(offset as u32),
        Some(_) => return Ok(Answer::Unread),
    };
    Ok(Answer::Paged {
        rows: sheets_of(alloc, rows)?,
        next,
        time,
    })
}

fn configuration(reply: &Reply) -> Answer
    ensures { result ≡ said_by awaited.Configuration reply.now reply.now.body }
{
    match &reply.body {
        Body::Limits => Answer::Configured(our_limits()),
        _ => Answer::Unread,
    }
}

fn first_page(alloc: Global, reply: &Reply) -> Result<Answer, AllocError>
    ensures { IfOk result (λ answer. answer ≡ said_by awaited.FirstPage reply.now reply.now.body) }
{
    match (&reply.body, reply.modified) {
        (Body::Rows(rows), Some(time)) => page(alloc, reply.next, rows.as_slice(), time),
        _ => Ok(Answer::Unread),
    }
}

fn later_page(alloc: Global, reply: &Reply) -> Result<Answer, AllocError>
    ensures { IfOk result (λ answer. answer ≡ said_by awaited.LaterPage reply.now reply.now.body) }
{
    match &reply.body {
        Body::Rows(rows) => page(alloc, reply.next, rows.as_slice(), time_of(reply)),
        _ => Ok(Answer::Unread),
    }
}

fn all_ids(alloc: Global, reply: &Reply) -> Result<Answer, AllocError>
    ensures { IfOk result (λ answer. answer ≡ said_by awaited.AllIds reply.now reply.now.body) }
{
    match &reply.body {
        Body::Ids(ids) => Ok(Answer::Listed(ids.copy(alloc)?)),
        _ => Ok(Answer::Unread),
    }
}

fn staged(alloc: Global, reply: &Reply) -> Result<Answer, AllocError>
    ensures { IfOk result (λ answer. answer ≡ said_by awaited.Staging reply.now reply.now.body) }
{
    match &reply.body {
        Body::Staged { batch, failed, .. } => answer_with(alloc, 202, failed, Answer::Held(*batch)),
        _ => Ok(Answer::Unread),
    }
}

fn written(alloc: Global, reply: &Reply) -> Result<Answer, AllocError>
    ensures { IfOk result (λ answer. answer ≡ said_by awaited.Writing reply.now reply.now.body) }
{
    match &reply.body {
        Body::Posted {
            modified,
            failed,
            ..
        } => answer_with(alloc, 200, failed, Answer::Written(*modified)),
        _ => Ok(Answer::Unread),
    }
}

/// What a reply of the awaited status says.
fn said_by(alloc: Global, awaited: Awaited, reply: &Reply) -> Result<Answer, AllocError>
    ensures { IfOk result (λ answer. answer ≡ said_by awaited reply.now reply.now.body) }
{
    match awaited {
        Awaited::Configuration => Ok(configuration(reply)),
        Awaited::FirstPage => first_page(alloc, reply),
        Awaited::LaterPage => later_page(alloc, reply),
        Awaited::AllIds => all_ids(alloc, reply),
        Awaited::Staging => staged(alloc, reply),
        Awaited::Writing => written(alloc, reply),
    }
}

/// What a reply says to a client that awaits this, the status first. The limits that it tells, if it tells any, are
/// ours.
#[tactic(auto, unfolding(ss_serving::specs::Asking::told_by))]
pub(crate) fn tell(alloc: Global, awaited: Awaited, reply: &Reply) -> Result<Answer, AllocError>
    ensures told { IfOk result (λ answer. answer ≡ told_by awaited reply.now) }
    ensures ours { IfOk result TellsOurs }
    ensures wanting { OnErr result (reply.now.status ≡ status_of awaited) }
{
    if reply.status == awaited.status() {
        return said_by(alloc, awaited, reply);
    }
    if awaited.is_conditional() && reply.status == 412 {
        return Ok(Answer::Changed(time_of(reply)));
    }
    Ok(Answer::Refused(reply.status))
}
