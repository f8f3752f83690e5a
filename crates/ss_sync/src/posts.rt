//! How much a POST takes.

ghost use Rattle.std.specs.Prelude.{◌≡◌, ◌⊎◌, ◌<◌, ◌&&◌, nat_le, true, false, length, IfOk};
ghost use Rattle.ss_plan.specs.Refusals.{payload_bytes};
ghost use Rattle.ss_bso.specs.Put.{payload_set};
ghost use Rattle.ss_route.specs.Sending.{upload_text};
ghost use Rattle.ss_sync.specs.Posts.{fits, IsNext};

use ss_bso::{Field, Part};
use ss_plan::Limits;
use ss_text::push_json_text;
use std::alloc::{AllocError, Global};

/// The payload that a part sets.
fn payload_of(part: &Part) -> &str
    ensures { result.now ≡ payload_set part.now.fields.payload }
{
    match &part.fields.payload {
        Field::Set(payload) => payload.as_str(),
        Field::Keep | Field::Clear => "",
    }
}

/// The payload bytes of a part.
fn payload_bytes(part: &Part) -> u64
    ensures { result ≡ payload_bytes part.now }
{
    payload_of(part).len() as u64
}

/// A part's object in a body.
#[tactic(auto, using(ss_route::proofs::Appending::append_append), unfolding(ss_route::specs::Sending::upload_text, ss_route::specs::Texts::json_text))]
fn object_of(alloc: Global, part: &Part) -> Result<Vec<u8>, AllocError>
    ensures { IfOk result (λ text. text.items ≡ upload_text part.now) }
{
    let mut text = Vec::new(alloc);
    text.extend_from_slice(b"{\"id\":")?;
    push_json_text(&mut text, part.id.as_str())?;
    text.extend_from_slice(b",\"payload\":")?;
    push_json_text(&mut text, payload_of(part))?;
    text.extend_from_slice(b"}")?;
    Ok(text)
}

/// The bytes of a part's object in a body.
fn object_bytes(alloc: Global, part: &Part) -> Result<u64, AllocError>
    ensures { IfOk result (λ n. n ≡ length (upload_text part.now)) }
{
    Ok(object_of(alloc, part)?.len() as u64)
}

/// Whether numbers are within the limits of one POST.
fn are_within(limits: &Limits, records: usize, payloads: u128, body: u128) -> bool
    ensures { result ≡ (nat_le records limits.now.max_post_records && (nat_le payloads limits.now.max_post_bytes &&
        nat_le body limits.now.max_request_bytes)) }
{
    records as u64 <= limits.max_post_records
        && payloads <= u128::from(limits.max_post_bytes)
        && body <= u128::from(limits.max_request_bytes)
}

/// Whether a POST of so many parts can't take one more, with which it is within the limits or not.
fn is_full(count: usize, within: bool) -> bool
    ensures full { result ≡ true → (0 < count) × (within ≡ false) }
    ensures room { result ≡ false → (count ≡ 0) ⊎ (within ≡ true) }
{
    count > 0 && !within
}

/// How many of the parts the next POST takes: the next one, and as many further ones as the limits of one POST allow
/// (SyncStorage API 1.5).
pub fn next_post(alloc: Global, limits: &Limits, parts: &[Part]) -> Result<usize, AllocError>
    requires { 0 < length parts.now }
    ensures { IfOk result (IsNext limits.now parts.now) }
{
    let mut payloads = 0u128;
    let mut body = 1u128;
    for (count, part) in parts.iter().enumerate() {
        payloads += u128::from(payload_bytes(part));
        body += u128::from(object_bytes(alloc, part)?) + 1;
        if is_full(count, are_within(limits, count + 1, payloads, body)) {
            return Ok(count);
        }
    }
    Ok(parts.len())
}
