//! The fields that a JSON object gives a record.

ghost use Rattle.std.specs.Prelude.{◌≡◌, IfOk, option_map};
ghost use Rattle.serde_json.specs.View.{view};
ghost use Rattle.ss_bso.specs.Members.{json_of, parsed_body, payload_of, sortindex_of, ttl_of, fields_of};
ghost use Rattle.ss_bso.specs.Members.{fields_of_text, GivesFields};
ghost use Rattle.ss_bso.specs.declared.members.FieldsFault.TheVariants.{Memory};

use crate::limits::{LEAST_SORTINDEX, MOST_RECORD_PAYLOAD_BYTES, MOST_SORTINDEX, MOST_TTL};
use crate::parts::{Field, Fields, Reason};
use serde_json::Value;
use ss_text::{Word, count_decimals, wrap_decimals};
use std::alloc::{AllocError, Global};

/// Why the body of a PUT gives no fields.
#[derive(Clone, Copy, Debug, PartialEq, Eq)]
pub enum FieldsFault {
    /// It is no JSON of at most 127 levels.
    NotJson,

    /// It is JSON, but no object.
    NotObject,

    /// The first of its members that is out of form.
    Bad(Reason),
    Memory,
}

impl From<AllocError> for FieldsFault {
    ghost from_gives = { λ _ fault. fault ≡ Memory };

    fn from(_error: AllocError) -> FieldsFault {
        FieldsFault::Memory
    }
}

/// The JSON value of bytes; None exactly where they are no JSON.
fn read(alloc: Global, bytes: &[u8]) -> Result<Option<Value>, AllocError>
    ensures { IfOk result (λ value. option_map view value ≡ json_of bytes.now) }
{
    match Value::from_slice(alloc, bytes) {
        Ok(value) => Ok(Some(value)),
        Err(error) if error.is_memory() => Err(AllocError),
        Err(_) => Ok(None),
    }
}

/// The JSON value of a text, its decimals wrapped first; None exactly where it is no JSON. A text without decimals is
/// read as it is.
pub(crate) fn parse(alloc: Global, text: &[u8]) -> Result<Option<Value>, AllocError>
    ensures { IfOk result (λ value. option_map view value ≡ parsed_body text.now) }
{
    if count_decimals(text) == 0 {
        return read(alloc, text);
    }
    let wrapped = wrap_decimals(alloc, text)?;
    read(alloc, wrapped.bytes.as_slice())
}

/// The payload that a member gives; its text is moved out of it.
#[tactic(auto, unfolding(crate::specs::Members::payload_of))]
fn payload_in(member: Option<&mut Value>) -> Result<Field<Word>, Reason>
    ensures { result ≡ payload_of (option_map (λ value. view value.now) member.entry) }
{
    let value = match member {
        None => return Ok(Field::Keep),
        Some(value) => value.take(),
    };
    match value {
        Value::Null => Ok(Field::Clear),
        Value::String(text) => if text.len() > MOST_RECORD_PAYLOAD_BYTES {
            Err(Reason::TooLarge)
        } else {
            Ok(Field::Set(Word::new(text)))
        },
        _ => Err(Reason::Payload),
    }
}

#[tactic(auto, unfolding(crate::specs::Members::sortindex_of))]
fn sortindex_in(member: Option<&Value>) -> Result<Field<i32>, Reason>
    ensures { result ≡ sortindex_of (option_map (λ value. view value.now) member.entry) }
{
    let value = match member {
        None => return Ok(Field::Keep),
        Some(value) => value,
    };
    if value.is_null() {
        return Ok(Field::Clear);
    }
    match value.as_i64() {
        None => Err(Reason::Sortindex),
        Some(index) => if LEAST_SORTINDEX <= index && index <= MOST_SORTINDEX {
            Ok(Field::Set(index as i32))
        } else {
            Err(Reason::Sortindex)
        },
    }
}

#[tactic(auto, unfolding(crate::specs::Members::ttl_of))]
fn ttl_in(member: Option<&Value>) -> Result<Field<u32>, Reason>
    ensures { result ≡ ttl_of (option_map (λ value. view value.now) member.entry) }
{
    let value = match member {
        None => return Ok(Field::Keep),
        Some(value) => value,
    };
    if value.is_null() {
        return Ok(Field::Clear);
    }
    match value.as_u64() {
        None => Err(Reason::Ttl),
        Some(seconds) => if seconds <= MOST_TTL {
            Ok(Field::Set(seconds as u32))
        } else {
            Err(Reason::Ttl)
        },
    }
}

/// The fields that an object's members give, or the first reason against them. The payload's text is moved out.
#[tactic(auto, unfolding(crate::specs::Members::fields_of))]
pub(crate) fn fields_in(mut value: Value) -> Result<Fields, Reason>
    ensures { result ≡ fields_of (view value) }
{
    let sortindex = sortindex_in(value.get("sortindex"));
    let ttl = ttl_in(value.get("ttl"));
    let payload = payload_in(value.get_mut("payload"))?;
    Ok(Fields {
        payload,
        sortindex: sortindex?,
        ttl: ttl?,
    })
}

/// The fields that the body of a PUT gives: a JSON object, its decimals wrapped first, of equal members the last.
/// An absent member is `Keep`, `null` is `Clear`; payload, sortindex and ttl are tested in this order, and no other
/// member is looked at (SyncStorage API 1.5). Each fault but want of memory comes exactly by its rule.
#[tactic(auto, unfolding(crate::specs::Members::fields_of_text))]
pub fn read_fields(alloc: Global, body: &[u8]) -> Result<Fields, FieldsFault>
    ensures { GivesFields result (fields_of_text body.now) }
{
    let value = parse(alloc, body)?.ok_or(FieldsFault::NotJson)?;
    if !value.is_object() {
        return Err(FieldsFault::NotObject);
    }
    fields_in(value).map_err(FieldsFault::Bad)
}
