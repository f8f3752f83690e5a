//! Why a request is refused before it is looked at as a write: by its item, its condition or its batch.

ghost use Rattle.std.specs.Prelude.{◌≡◌, ◌+◌, ◌-◌, ◌^◌, ◌++◌, min, is_some};
ghost use Rattle.ss_bso.specs.Batches.{fit};
ghost use Rattle.ss_bso.specs.Limits.{part_bytes, payload_size};
ghost use Rattle.ss_query.specs.Api.{condition_cause, lacks_room, misses_batch, misses_item, overfills_batch};
ghost use Rattle.ss_query.specs.Refused.{continued_batch};
ghost use Rattle.ss_plain.specs.Steps.{is_stopped};

use crate::finding::{condition_of, find_batch, is_there, staged_parts, target_time};
use crate::rows::find_row;
use ss_bso::limits::{MOST_BATCH_BYTES, MOST_BATCH_RECORDS, MOST_LIVE_BATCHES};
use ss_bso::{Field, Part, Plain};
use ss_query::{Mode, Request};
use ss_text::LAST;

fn misses_item(account: &Plain, request: &Request) -> bool
    ensures { result ≡ misses_item account.now request.now }
{
    match request {
        Request::Get { collection, id, .. } => {
            find_row(account.rows.as_slice(), collection, id).is_none()
        }
        Request::Delete { collection, id, .. } => {
            find_row(account.rows.as_slice(), collection, id).is_none()
        }
        _ => false,
    }
}

fn is_refused_by_condition(account: &Plain, request: &Request) -> bool
    ensures { result ≡ is_some (condition_cause account.now request.now) }
{
    let is_there = is_there(account, request);
    let time = target_time(account, request);
    condition_of(request).stops(is_there, time).is_some()
}

fn lacks_room(account: &Plain, request: &Request) -> bool
    ensures { result ≡ lacks_room account.now request.now }
{
    match request {
        Request::Post {
            mode: Mode::Begin,
            ..
        } => { MOST_LIVE_BATCHES <= account.batches.as_slice().len() || LAST <= account.counter }
        _ => false,
    }
}

/// The batch that a POST continues, if it does.
fn continued(mode: Mode) -> Option<u64>
    ensures { result ≡ continued_batch mode }
{
    match mode {
        Mode::Plain | Mode::Begin => None,
        Mode::Append { batch } | Mode::Commit { batch } => Some(batch),
    }
}

fn misses_batch(account: &Plain, request: &Request) -> bool
    ensures { result ≡ misses_batch account.now request.now }
{
    match request {
        Request::Post {
            collection,
            mode,
            ..
        } => match continued(*mode) {
            Some(number) => find_batch(account.batches.as_slice(), collection, number).is_none(),
            None => false,
        },
        _ => false,
    }
}

/// The payload bytes that a part brings.
fn brings(part: &Part) -> u64
    ensures { result ≡ payload_size part.now.fields.payload }
{
    match &part.fields.payload {
        Field::Keep | Field::Clear => 0,
        Field::Set(text) => text.as_str().len() as u64,
    }
}

/// Bytes and the payload bytes of parts, up to the greatest u64.
fn bytes_with(bytes: u64, parts: &[Part]) -> u64
    ensures { result ≡ min (bytes + part_bytes parts.now) (2 ^ 64 - 1) }
{
    let mut total = bytes;
    for part in parts {
        total = total.saturating_add(brings(part));
    }
    total
}

/// Whether parts and further parts are within the limits of a batch.
fn fit_together(first: &[Part], more: &[Part]) -> bool
    ensures { result ≡ fit (first.now ++ more.now) }
{
    let records = first.len() as u64 + more.len() as u64;
    let bytes = bytes_with(bytes_with(0, first), more);
    records <= MOST_BATCH_RECORDS && bytes <= MOST_BATCH_BYTES
}

fn overfills_batch(account: &Plain, request: &Request) -> bool
    ensures { result ≡ overfills_batch account.now request.now }
{
    match request {
        Request::Post {
            collection,
            records,
            mode,
            ..
        } => match continued(*mode) {
            Some(number) => !fit_together(
                staged_parts(account, collection, number),
                records.parts.as_slice(),
            ),
            None => false,
        },
        _ => false,
    }
}

/// Whether a request is refused by its item, its condition or its batch.
pub(crate) fn is_stopped(account: &Plain, request: &Request) -> bool
    ensures { result ≡ is_stopped account.now request.now }
{
    misses_item(account, request)
        || is_refused_by_condition(account, request)
        || lacks_room(account, request)
        || misses_batch(account, request)
        || overfills_batch(account, request)
}
