//! The bytes that a journal counts for an entry.

ghost use Rattle.std.specs.Prelude.{◌^◌, ◌≡◌, ◌+◌, ◌<◌, ◌≤◌, length};
ghost use Rattle.std.specs.Option.{option_map_or};
ghost use Rattle.ss_bso.specs.Limits.{part_bytes, payload_size};
ghost use Rattle.ss_query.specs.Fit.{IsFitRequest};
ghost use Rattle.ss_booked.specs.Sizes.{count_of_items, payload_of, request_bytes};

use crate::limits::ENTRY_BYTES;
use ss_bso::{Field, Fields, Part};
use ss_query::{Query, Request};

/// The payload bytes that a record's fields bring.
fn payload_bytes(fields: &Fields) -> u64
    ensures bytes { result ≡ payload_size fields.now.payload }
    ensures few { result < 2 ^ 63 }
{
    match &fields.payload {
        Field::Keep | Field::Clear => 0,
        Field::Set(text) => text.as_str().len() as u64,
    }
}

/// The payload bytes of parts.
fn bytes_of_parts(parts: &[Part]) -> u64
    requires few { part_bytes parts.now < 2 ^ 64 }
    ensures { result ≡ part_bytes parts.now }
{
    let mut bytes: u64 = 0;
    for part in parts {
        bytes += payload_bytes(&part.fields);
    }
    bytes
}

/// The ids that a query lists.
fn ids_of_query(query: &Query) -> u64
    ensures { result ≡ option_map_or (λ ids. length ids) query.now.ids 0 }
{
    match &query.ids {
        Some(ids) => ids.as_slice().len() as u64,
        None => 0,
    }
}

/// The parts, the failed records and the listed ids of a request.
fn count_listed(request: &Request) -> u64
    requires fits { IsFitRequest request.now }
    ensures listed { result ≡ count_of_items request.now }
    ensures few { result ≤ 100 }
{
    match request {
        Request::Post { records, .. } => {
            records.parts.as_slice().len() as u64 + records.failed.as_slice().len() as u64
        }
        Request::List { query, .. } => ids_of_query(query),
        Request::DeleteIds { ids, .. } => ids.as_slice().len() as u64,
        _ => 0,
    }
}

/// The payload bytes of a request's parts or fields.
fn bytes_of_payloads(request: &Request) -> u64
    requires fits { IsFitRequest request.now }
    ensures payload { result ≡ payload_of request.now }
    ensures few { result < 2 ^ 63 }
{
    match request {
        Request::Post { records, .. } => bytes_of_parts(records.parts.as_slice()),
        Request::Put { fields, .. } => payload_bytes(fields),
        _ => 0,
    }
}

/// The bytes that a journal counts for a request: 256, 256 more for each part, failed record and listed id, and its payload
/// bytes (this project).
pub fn bytes_of_request(request: &Request) -> u64
    requires fits { IsFitRequest request.now }
    ensures bytes { result ≡ request_bytes request.now }
    ensures few { result < 2 ^ 63 + 2 ^ 15 }
{
    ENTRY_BYTES + ENTRY_BYTES * count_listed(request) + bytes_of_payloads(request)
}
