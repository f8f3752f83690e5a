//! Whether a request is within the limits of one.

ghost use Rattle.std.specs.Prelude.{◌≡◌, ◌≤◌, ◌+◌, true, false, length, nat_le};
ghost use Rattle.ss_bso.specs.Limits.{part_bytes, payload_size};
ghost use Rattle.ss_query.specs.Fit.{IsFitRequest, most_post_bytes, most_post_records};

use crate::requests::Request;
use ss_bso::limits::{MOST_IDS, MOST_POST_BYTES, MOST_POST_RECORDS};
use ss_bso::{Field, Part, Records};

/// The payload bytes that a part brings.
fn payload_size(part: &Part) -> usize
    ensures { result ≡ payload_size part.now.fields.payload }
{
    match &part.fields.payload {
        Field::Set(text) => text.as_str().len(),
        Field::Keep | Field::Clear => 0,
    }
}

/// Whether the payloads of parts are within the limit of one POST: 2,097,152 payload bytes (SyncStorage API 1.5,
/// `max_post_bytes`).
pub fn are_within_post(parts: &[Part]) -> bool
    ensures { result ≡ nat_le (part_bytes parts.now) most_post_bytes }
{
    let mut room = MOST_POST_BYTES;
    for part in parts {
        let size = payload_size(part) as u64;
        if size > room {
            return false;
        }
        room -= size;
    }
    true
}

/// Whether records are within the limits of one POST.
fn are_of_one_post(records: &Records) -> bool
    ensures fit { result ≡ true → (length records.now.parts + length records.now.failed ≤ most_post_records)
        × (part_bytes records.now.parts ≤ most_post_bytes) }
    ensures unfit { result ≡ false → length records.now.parts + length records.now.failed ≤ most_post_records
        → part_bytes records.now.parts ≤ most_post_bytes → ⊥ }
{
    let parts = records.parts.as_slice();
    let good = parts.len() as u64;
    let failed = records.failed.as_slice().len() as u64;
    good <= MOST_POST_RECORDS && failed <= MOST_POST_RECORDS - good && are_within_post(parts)
}

/// Whether a request is within the limits of one: of the records of a POST, and of the ids that are listed. What is
/// routed always is.
pub fn is_fit(request: &Request) -> bool
    ensures fit { result ≡ true → IsFitRequest request.now }
    ensures unfit { result ≡ false → IsFitRequest request.now → ⊥ }
{
    match request {
        Request::Post { records, .. } => are_of_one_post(records),
        Request::List { query, .. } => match &query.ids {
            Some(ids) => ids.as_slice().len() <= MOST_IDS,
            None => true,
        },
        Request::DeleteIds { ids, .. } => ids.as_slice().len() <= MOST_IDS,
        _ => true,
    }
}
