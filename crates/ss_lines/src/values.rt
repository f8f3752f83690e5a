//! Lines as JSON values.

ghost use Rattle.std.specs.Prelude.{◌≡◌, IfOk, option_map, option_and_then};
ghost use Rattle.serde_json.specs.Find.{as_str};
ghost use Rattle.serde_json.specs.View.{view};
ghost use Rattle.ss_lines.specs.Values.{batch_from, collection_from, digest_from, field_of, id_at, integer_of};
ghost use Rattle.ss_lines.specs.Values.{line_from, name_at, natural_at, natural_of, optional_of, part_from, row_from};
ghost use Rattle.ss_lines.specs.Values.{seconds_of, tag_of, line_of_tag, text_at, time_at, times_from};

use crate::digests::Digest;
use crate::lines::Line;
use serde_json::Value;
use ss_bso::{Field, Fields, Part, Row};
use ss_text::{Id, Name, Stamp, Word, read_stamp};
use std::alloc::{AllocError, Global};

/// The least number of 32 bits.
const LEAST: i64 = -2_147_483_648;

/// The greatest number of 32 bits with a sign.
const MOST: i64 = 2_147_483_647;

/// The greatest number of 32 bits without a sign.
const MOST_SECONDS: u64 = 4_294_967_295;

// ---- what a value says

/// A whole number of 32 bits with a sign.
#[tactic(auto, unfolding(crate::specs::Values::integer_of))]
pub fn integer_of(value: &Value) -> Option<i32>
    ensures { result ≡ integer_of (view value.now) }
{
    match value.as_i64() {
        Some(number) => if LEAST <= number && number <= MOST {
            Some(number as i32)
        } else {
            None
        },
        None => None,
    }
}

/// A whole number of 32 bits without a sign.
#[tactic(auto, unfolding(crate::specs::Values::seconds_of))]
pub fn seconds_of(value: &Value) -> Option<u32>
    ensures { result ≡ seconds_of (view value.now) }
{
    match value.as_u64() {
        Some(number) => if number <= MOST_SECONDS {
            Some(number as u32)
        } else {
            None
        },
        None => None,
    }
}

/// A sortindex, or none for `null`.
pub fn optional_integer(value: Option<&Value>) -> Option<Option<i32>>
    ensures { result ≡ option_and_then (optional_of integer_of) (option_map (λ v. view v.now) value.entry) }
{
    let value = value?;
    if value.is_null() {
        return Some(None);
    }
    match integer_of(value) {
        Some(number) => Some(Some(number)),
        None => None,
    }
}

/// The hundredth of a second at which a row ends, or none for `null`.
pub fn optional_natural(value: Option<&Value>) -> Option<Option<u64>>
    ensures { result ≡ option_and_then (optional_of natural_of) (option_map (λ v. view v.now) value.entry) }
{
    let value = value?;
    if value.is_null() {
        return Some(None);
    }
    match value.as_u64() {
        Some(number) => Some(Some(number)),
        None => None,
    }
}

/// What a part says of a sortindex.
pub fn integer_field(value: Option<&Value>) -> Option<Field<i32>>
    ensures { result ≡ option_and_then (field_of integer_of) (option_map (λ v. view v.now) value.entry) }
{
    let value = value?;
    if value.is_null() {
        return Some(Field::Clear);
    }
    if value.is_array() {
        return Some(Field::Keep);
    }
    match integer_of(value) {
        Some(number) => Some(Field::Set(number)),
        None => None,
    }
}

/// What a part says of a ttl.
pub fn seconds_field(value: Option<&Value>) -> Option<Field<u32>>
    ensures { result ≡ option_and_then (field_of seconds_of) (option_map (λ v. view v.now) value.entry) }
{
    let value = value?;
    if value.is_null() {
        return Some(Field::Clear);
    }
    if value.is_array() {
        return Some(Field::Keep);
    }
    match seconds_of(value) {
        Some(number) => Some(Field::Set(number)),
        None => None,
    }
}

/// A text, which is moved out of its value.
pub fn taken_text(value: Option<&mut Value>) -> Option<Word>
    ensures { result ≡ option_and_then as_str (option_map (λ v. view v.now) value.entry) }
{
    let value = match value {
        None => return None,
        Some(value) => value.take(),
    };
    match value {
        Value::String(text) => Some(Word::new(text)),
        _ => None,
    }
}

/// What a part says of a payload; its text is moved out of its value.
pub fn taken_field(value: Option<&mut Value>) -> Option<Field<Word>>
    ensures { result ≡ option_and_then (field_of as_str) (option_map (λ v. view v.now) value.entry) }
{
    let value = match value {
        None => return None,
        Some(value) => value.take(),
    };
    match value {
        Value::Null => Some(Field::Clear),
        Value::Array(_) => Some(Field::Keep),
        Value::String(text) => Some(Field::Set(Word::new(text))),
        _ => None,
    }
}

// ---- what stands at a place of a list

/// The text at a place.
pub fn text_at(list: &Value, place: usize) -> Option<&str>
    ensures { option_map (λ s. s.now) result ≡ text_at place (view list.now) }
{
    match list.get(place) {
        Some(value) => value.as_str(),
        None => None,
    }
}

/// The whole number at a place.
pub fn natural_at(list: &Value, place: usize) -> Option<u64>
    ensures { result ≡ natural_at place (view list.now) }
{
    match list.get(place) {
        Some(value) => value.as_u64(),
        None => None,
    }
}

/// The time at a place.
pub fn time_at(list: &Value, place: usize) -> Option<Stamp>
    ensures { result ≡ time_at place (view list.now) }
{
    match text_at(list, place) {
        Some(text) => read_stamp(text.as_bytes()),
        None => None,
    }
}

/// The id at a place.
pub fn id_at(alloc: Global, list: &Value, place: usize) -> Result<Option<Id>, AllocError>
    ensures { IfOk result (λ id. id ≡ id_at place (view list.now)) }
{
    match text_at(list, place) {
        Some(text) => Id::new(alloc, text.as_bytes()),
        None => Ok(None),
    }
}

/// The name of a collection at a place.
pub fn name_at(alloc: Global, list: &Value, place: usize) -> Result<Option<Name>, AllocError>
    ensures { IfOk result (λ name. name ≡ name_at place (view list.now)) }
{
    match text_at(list, place) {
        Some(text) => Name::new(alloc, text.as_bytes()),
        None => Ok(None),
    }
}

// ---- lines

#[tactic(auto, unfolding(crate::specs::Values::times_from))]
fn times_from(list: &Value) -> Option<Line>
    ensures { result ≡ times_from (view list.now) }
{
    Some(Line::Times {
        store: time_at(list, 1)?,
        last_delete: time_at(list, 2)?,
        counter: natural_at(list, 3)?,
    })
}

#[tactic(auto, unfolding(crate::specs::Values::collection_from))]
fn collection_from(alloc: Global, list: &Value) -> Result<Option<Line>, AllocError>
    ensures { IfOk result (λ line. line ≡ collection_from (view list.now)) }
{
    let Some(name) = name_at(alloc, list, 1)? else {
        return Ok(None);
    };
    match time_at(list, 2) {
        Some(modified) => Ok(Some(Line::Collection { name, modified })),
        None => Ok(None),
    }
}

#[tactic(auto, unfolding(crate::specs::Values::row_from))]
fn row_from(alloc: Global, mut list: Value) -> Result<Option<Line>, AllocError>
    ensures { IfOk result (λ line. line ≡ row_from (view list)) }
{
    let Some(collection) = name_at(alloc, &list, 1)? else {
        return Ok(None);
    };
    let Some(id) = id_at(alloc, &list, 2)? else {
        return Ok(None);
    };
    let Some(modified) = time_at(&list, 3) else {
        return Ok(None);
    };
    let Some(sortindex) = optional_integer(list.get(4)) else {
        return Ok(None);
    };
    let Some(expires) = optional_natural(list.get(5)) else {
        return Ok(None);
    };
    match taken_text(list.get_mut(6)) {
        Some(payload) => Ok(Some(Line::Row(Row {
            collection,
            id,
            modified,
            sortindex,
            payload,
            expires,
        }))),
        None => Ok(None),
    }
}

#[tactic(auto, unfolding(crate::specs::Values::batch_from))]
fn batch_from(alloc: Global, list: &Value) -> Result<Option<Line>, AllocError>
    ensures { IfOk result (λ line. line ≡ batch_from (view list.now)) }
{
    let Some(number) = natural_at(list, 1) else {
        return Ok(None);
    };
    let Some(collection) = name_at(alloc, list, 2)? else {
        return Ok(None);
    };
    match time_at(list, 3) {
        Some(begun) => Ok(Some(Line::Batch {
            number,
            collection,
            begun,
        })),
        None => Ok(None),
    }
}

#[tactic(auto, unfolding(crate::specs::Values::part_from))]
fn part_from(alloc: Global, mut list: Value) -> Result<Option<Line>, AllocError>
    ensures { IfOk result (λ line. line ≡ part_from (view list)) }
{
    let Some(id) = id_at(alloc, &list, 1)? else {
        return Ok(None);
    };
    let Some(sortindex) = integer_field(list.get(3)) else {
        return Ok(None);
    };
    let Some(ttl) = seconds_field(list.get(4)) else {
        return Ok(None);
    };
    match taken_field(list.get_mut(2)) {
        Some(payload) => Ok(Some(Line::Part(Part {
            id,
            fields: Fields {
                payload,
                sortindex,
                ttl,
            },
        }))),
        None => Ok(None),
    }
}

#[tactic(auto, unfolding(crate::specs::Values::digest_from))]
fn digest_from(alloc: Global, list: &Value) -> Result<Option<Line>, AllocError>
    ensures { IfOk result (λ line. line ≡ digest_from (view list.now)) }
{
    let Some(text) = text_at(list, 1) else {
        return Ok(None);
    };
    match Digest::new(alloc, text)? {
        Some(digest) => Ok(Some(Line::Digest(digest))),
        None => Ok(None),
    }
}

/// The kinds of lines, by their first texts.
#[derive(Clone, Copy)]
pub(crate) enum Tag {
    Account,
    Times,
    Collection,
    Row,
    Batch,
    Part,
    Digest,
    End,
}

fn tag_of(text: &str) -> Option<Tag>
    ensures { result ≡ tag_of text.now }
{
    match text {
        "account" => Some(Tag::Account),
        "times" => Some(Tag::Times),
        "collection" => Some(Tag::Collection),
        "row" => Some(Tag::Row),
        "batch" => Some(Tag::Batch),
        "part" => Some(Tag::Part),
        "digest" => Some(Tag::Digest),
        "end" => Some(Tag::End),
        _ => None,
    }
}

fn tagged(alloc: Global, tag: Tag, list: Value) -> Result<Option<Line>, AllocError>
    ensures { IfOk result (λ line. line ≡ line_of_tag tag (view list)) }
{
    match tag {
        Tag::Account => Ok(Some(Line::Account)),
        Tag::Times => Ok(times_from(&list)),
        Tag::Collection => collection_from(alloc, &list),
        Tag::Row => row_from(alloc, list),
        Tag::Batch => batch_from(alloc, &list),
        Tag::Part => part_from(alloc, list),
        Tag::Digest => digest_from(alloc, &list),
        Tag::End => Ok(Some(Line::End)),
    }
}

/// The kind of line that a list is.
fn tag_in(list: &Value) -> Option<Tag>
    ensures { result ≡ option_and_then tag_of (text_at 0 (view list.now)) }
{
    match text_at(list, 0) {
        Some(text) => tag_of(text),
        None => None,
    }
}

/// What a value says as a line; perhaps the line isn't written so.
#[tactic(auto, unfolding(crate::specs::Values::line_from))]
pub fn line_from(alloc: Global, list: Value) -> Result<Option<Line>, AllocError>
    ensures { IfOk result (λ line. line ≡ line_from (view list)) }
{
    match tag_in(&list) {
        Some(tag) => tagged(alloc, tag, list),
        None => Ok(None),
    }
}
