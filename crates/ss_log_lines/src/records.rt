//! What a request says of records, from JSON values.

ghost use Rattle.std.specs.Prelude.{◌≡◌, IfOk, option_map, option_and_then};
ghost use Rattle.serde_json.specs.Find.{as_str};
ghost use Rattle.serde_json.specs.View.{items_view, view};
ghost use Rattle.ss_lines.specs.Values.{field_of};
ghost use Rattle.ss_log_lines.specs.Values.{all_from, failure_from, fields_from, fields_told, list_from, part_from};
ghost use Rattle.ss_log_lines.specs.Values.{reason_of};

use crate::words::reason_of;
use serde_json::Value;
use ss_bso::{Failures, Field, Fields, Part, Parts, Reason};
use ss_lines::values::{id_at, integer_field, seconds_field, text_at};
use ss_text::{Id, Word};
use std::alloc::{AllocError, Global};

/// What is said of a payload.
fn payload_in(alloc: Global, value: Option<&Value>) -> Result<Option<Field<Word>>, AllocError>
    ensures { IfOk result (λ o. o ≡ option_and_then (field_of as_str) (option_map (λ v. view v.now) value.entry)) }
{
    match value {
        None => Ok(None),
        Some(Value::Null) => Ok(Some(Field::Clear)),
        Some(Value::Array(_)) => Ok(Some(Field::Keep)),
        Some(Value::String(text)) => {
            let text = String::from_str(alloc, text.as_str())?;
            Ok(Some(Field::Set(Word::new(text))))
        }
        Some(_) => Ok(None),
    }
}

/// What three values say of a record.
#[tactic(auto, unfolding(crate::specs::Values::fields_told))]
fn fields_told(
    alloc: Global,
    payload: Option<&Value>,
    sortindex: Option<&Value>,
    ttl: Option<&Value>,
) -> Result<Option<Fields>, AllocError>
    ensures { IfOk result (λ fields. fields ≡ fields_told (option_map (λ v. view v.now) payload.entry)
        (option_map (λ v. view v.now) sortindex.entry) (option_map (λ v. view v.now) ttl.entry)) }
{
    let Some(payload) = payload_in(alloc, payload)? else {
        return Ok(None);
    };
    let Some(sortindex) = integer_field(sortindex) else {
        return Ok(None);
    };
    match seconds_field(ttl) {
        Some(ttl) => Ok(Some(Fields {
            payload,
            sortindex,
            ttl,
        })),
        None => Ok(None),
    }
}

/// The fields that a value is.
pub(crate) fn fields_in(alloc: Global, value: Option<&Value>) -> Result<Option<Fields>, AllocError>
    ensures { IfOk result (λ fields. fields ≡ option_and_then fields_from (option_map (λ v. view v.now) value.entry)) }
{
    match value {
        Some(list) => fields_told(alloc, list.get(0), list.get(1), list.get(2)),
        None => Ok(None),
    }
}

#[tactic(auto, unfolding(crate::specs::Values::part_from))]
fn part_from(alloc: Global, list: &Value) -> Result<Option<Part>, AllocError>
    ensures { IfOk result (λ part. part ≡ part_from (view list.now)) }
{
    let Some(id) = id_at(alloc, list, 0)? else {
        return Ok(None);
    };
    match fields_told(alloc, list.get(1), list.get(2), list.get(3))? {
        Some(fields) => Ok(Some(Part { id, fields })),
        None => Ok(None),
    }
}

fn all_parts(alloc: Global, values: &Vec<Value>) -> Result<Option<Vec<Part>>, AllocError>
    ensures { IfOk result (λ found. option_map (λ v. v.items) found ≡ all_from part_from (items_view values.now.items)) }
{
    let mut parts = Vec::with_capacity(alloc, values.len())?;
    for value in values {
        match part_from(alloc, value)? {
            Some(part) => parts.push(part)?,
            None => return Ok(None),
        }
    }
    Ok(Some(parts))
}

/// The list of parts that a value is.
pub(crate) fn parts_in(alloc: Global, value: Option<&Value>) -> Result<Option<Parts>, AllocError>
    ensures { IfOk result (λ parts. parts ≡ option_and_then (list_from part_from)
        (option_map (λ v. view v.now) value.entry)) }
{
    let Some(Value::Array(values)) = value else {
        return Ok(None);
    };
    match all_parts(alloc, values)? {
        Some(parts) => Ok(Some(Parts::new(parts))),
        None => Ok(None),
    }
}

/// The reason that a word names.
fn reason_in(word: Option<&str>) -> Option<Reason>
    ensures { result ≡ option_and_then reason_of (option_map (λ w. w.now) word.entry) }
{
    reason_of(word?)
}

#[tactic(auto, unfolding(crate::specs::Values::failure_from))]
fn failure_from(alloc: Global, list: &Value) -> Result<Option<(Id, Reason)>, AllocError>
    ensures { IfOk result (λ failure. failure ≡ failure_from (view list.now)) }
{
    let Some(id) = id_at(alloc, list, 0)? else {
        return Ok(None);
    };
    match reason_in(text_at(list, 1)) {
        Some(reason) => Ok(Some((id, reason))),
        None => Ok(None),
    }
}

fn all_failures(alloc: Global, values: &Vec<Value>) -> Result<Option<Vec<(Id, Reason)>>, AllocError>
    ensures { IfOk result (λ found. option_map (λ v. v.items) found ≡ all_from failure_from
        (items_view values.now.items)) }
{
    let mut failures = Vec::with_capacity(alloc, values.len())?;
    for value in values {
        match failure_from(alloc, value)? {
            Some(failure) => failures.push(failure)?,
            None => return Ok(None),
        }
    }
    Ok(Some(failures))
}

/// The list of failed records that a value is.
pub(crate) fn failures_in(
    alloc: Global,
    value: Option<&Value>,
) -> Result<Option<Failures>, AllocError>
    ensures { IfOk result (λ failed. failed ≡ option_and_then (list_from failure_from)
        (option_map (λ v. view v.now) value.entry)) }
{
    let Some(Value::Array(values)) = value else {
        return Ok(None);
    };
    match all_failures(alloc, values)? {
        Some(failures) => Ok(Some(Failures::new(failures))),
        None => Ok(None),
    }
}
