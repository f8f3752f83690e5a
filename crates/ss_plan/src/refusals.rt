//! Why a plan isn't sent.

ghost use Rattle.std.specs.Prelude.{◌≡◌, [], ◌∷◌, IfOk, OnOk, length, option_map};
ghost use Rattle.ss_plan.specs.Refusals.{body_bytes, first_over, lone_body, or_else, over, payload_bytes};
ghost use Rattle.ss_bso.specs.Put.{payload_set};
ghost use Rattle.ss_plan.specs.Refusals.{refusal, total_bytes};
ghost use Rattle.ss_plan.specs.declared.limits.PlanFault.TheVariants.{RecordTooLarge, BodyTooLarge, TooManyRecords};
ghost use Rattle.ss_plan.specs.declared.limits.PlanFault.TheVariants.{TooManyBytes};

use crate::limits::{Limits, PlanFault};
use ss_bso::{Field, Part};
use ss_text::push_json_text;
use std::alloc::{AllocError, Global};

/// The payload that a part sets.
fn payload_of(part: &Part) -> &str
    ensures { result.now ≡ payload_set part.now.fields.payload }
{
    match &part.fields.payload {
        Field::Set(payload) => payload.as_str(),
        Field::Keep | Field::Clear => "",
    }
}

/// The payload bytes of a part.
fn payload_bytes(part: &Part) -> u64
    ensures { result ≡ payload_bytes part.now }
{
    payload_of(part).len() as u64
}

/// Writes a body with a part alone.
fn write_body(out: &mut Vec<u8>, part: &Part) -> Result<(), AllocError>
    requires { out.old.items ≡ [] }
    ensures { OnOk result (out.new.items ≡ lone_body part.now) }
{
    out.extend_from_slice(b"[{\"id\":")?;
    push_json_text(out, part.id.as_str())?;
    out.extend_from_slice(b",\"payload\":")?;
    push_json_text(out, payload_of(part))?;
    out.extend_from_slice(b"}]")?;
    Ok(())
}

/// The bytes of a body with a part alone: its object and two brackets.
fn body_bytes(alloc: Global, part: &Part) -> Result<u64, AllocError>
    ensures { IfOk result (λ n. n ≡ body_bytes part.now) }
{
    let mut body = Vec::new(alloc);
    write_body(&mut body, part)?;
    Ok(body.len() as u64)
}

/// The first part whose payload has more bytes than these.
fn large_record(alloc: Global, most: u64, parts: &[Part]) -> Result<Option<PlanFault>, AllocError>
    ensures { IfOk result (λ fault. fault ≡ option_map (λ p. RecordTooLarge p.id (payload_bytes p))
        (first_over payload_bytes most parts.now)) }
{
    for part in parts {
        let n = payload_bytes(part);
        if most < n {
            let id = part.id.copy(alloc)?;
            return Ok(Some(PlanFault::RecordTooLarge { id, n }));
        }
    }
    Ok(None)
}

/// The first part that makes a body of more bytes than these alone.
fn large_body(alloc: Global, most: u64, parts: &[Part]) -> Result<Option<PlanFault>, AllocError>
    ensures { IfOk result (λ fault. fault ≡ option_map (λ p. BodyTooLarge p.id (body_bytes p))
        (first_over body_bytes most parts.now)) }
{
    for part in parts {
        let n = body_bytes(alloc, part)?;
        if most < n {
            let id = part.id.copy(alloc)?;
            return Ok(Some(PlanFault::BodyTooLarge { id, n }));
        }
    }
    Ok(None)
}

/// The payload bytes of all parts, counted up to the greatest u64.
#[tactic(auto, unfolding(crate::specs::Refusals::total_bytes))]
fn total_bytes(parts: &[Part]) -> u64
    ensures { result ≡ total_bytes parts.now }
{
    let mut total = 0u64;
    for part in parts {
        total = total.saturating_add(payload_bytes(part));
    }
    total
}

/// Why these parts aren't sent as they are many, or large together.
fn too_much(limits: &Limits, parts: &[Part]) -> Option<PlanFault>
    ensures { result ≡ or_else (option_map TooManyRecords (over limits.now.max_total_records (length parts.now)))
        (option_map TooManyBytes (over limits.now.max_total_bytes (total_bytes parts.now))) }
{
    let count = parts.len() as u64;
    if limits.max_total_records < count {
        return Some(PlanFault::TooManyRecords { n: count });
    }
    let bytes = total_bytes(parts);
    if limits.max_total_bytes < bytes {
        return Some(PlanFault::TooManyBytes { n: bytes });
    }
    None
}

/// Why these parts aren't sent; None where they are.
#[tactic(auto, unfolding(crate::specs::Refusals::refusal))]
pub(crate) fn refusal(
    alloc: Global,
    limits: &Limits,
    parts: &[Part],
) -> Result<Option<PlanFault>, AllocError>
    ensures { IfOk result (λ fault. fault ≡ refusal limits.now parts.now) }
{
    if let Some(fault) = large_record(alloc, limits.max_record_payload_bytes, parts)? {
        return Ok(Some(fault));
    }
    if let Some(fault) = large_body(alloc, limits.max_request_bytes, parts)? {
        return Ok(Some(fault));
    }
    Ok(too_much(limits, parts))
}
