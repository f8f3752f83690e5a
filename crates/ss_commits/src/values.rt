//! Lines that no account has, as JSON values.

ghost use Rattle.std.specs.Prelude.{◌≡◌, IfOk, option_map, option_and_then};
ghost use Rattle.serde_json.specs.View.{view};
ghost use Rattle.ss_lines.specs.Values.{id_at, name_at, natural_at, text_at, time_at};
ghost use Rattle.ss_commits.specs.Values.{kind_of, mark_from, next_parts_from, no_batch_from, no_collection_from};
ghost use Rattle.ss_commits.specs.Values.{no_row_from, now_from};

use crate::marks::Mark;
use serde_json::Value;
use ss_text::{Id, Name, Stamp, read_stamp};
use std::alloc::{AllocError, Global};

fn text_at(list: &Value, place: usize) -> Option<&str>
    ensures { option_map (λ s. s.now) result ≡ text_at place (view list.now) }
{
    match list.get(place) {
        Some(value) => value.as_str(),
        None => None,
    }
}

fn number_at(list: &Value, place: usize) -> Option<u64>
    ensures { result ≡ natural_at place (view list.now) }
{
    match list.get(place) {
        Some(value) => value.as_u64(),
        None => None,
    }
}

fn time_at(list: &Value, place: usize) -> Option<Stamp>
    ensures { result ≡ time_at place (view list.now) }
{
    match text_at(list, place) {
        Some(text) => read_stamp(text.as_bytes()),
        None => None,
    }
}

fn id_at(alloc: Global, list: &Value, place: usize) -> Result<Option<Id>, AllocError>
    ensures { IfOk result (λ id. id ≡ id_at place (view list.now)) }
{
    match text_at(list, place) {
        Some(text) => Id::new(alloc, text.as_bytes()),
        None => Ok(None),
    }
}

fn name_at(alloc: Global, list: &Value, place: usize) -> Result<Option<Name>, AllocError>
    ensures { IfOk result (λ name. name ≡ name_at place (view list.now)) }
{
    match text_at(list, place) {
        Some(text) => Name::new(alloc, text.as_bytes()),
        None => Ok(None),
    }
}

/// The kinds of these lines, by their first texts.
#[derive(Clone, Copy)]
pub(crate) enum Kind {
    Now,
    NoRow,
    NoCollection,
    NoBatch,
    NextParts,
}

fn kind_of(text: &str) -> Option<Kind>
    ensures { result ≡ kind_of text.now }
{
    match text {
        "now" => Some(Kind::Now),
        "no-row" => Some(Kind::NoRow),
        "no-collection" => Some(Kind::NoCollection),
        "no-batch" => Some(Kind::NoBatch),
        "next-parts" => Some(Kind::NextParts),
        _ => None,
    }
}

fn kind_in(list: &Value) -> Option<Kind>
    ensures { result ≡ option_and_then kind_of (text_at 0 (view list.now)) }
{
    match text_at(list, 0) {
        Some(text) => kind_of(text),
        None => None,
    }
}

fn now_from(list: &Value) -> Option<Mark>
    ensures { result ≡ now_from (view list.now) }
{
    match time_at(list, 1) {
        Some(moment) => Some(Mark::Now(moment)),
        None => None,
    }
}

fn no_row_from(alloc: Global, list: &Value) -> Result<Option<Mark>, AllocError>
    ensures { IfOk result (λ mark. mark ≡ no_row_from (view list.now)) }
{
    let Some(collection) = name_at(alloc, list, 1)? else {
        return Ok(None);
    };
    match id_at(alloc, list, 2)? {
        Some(id) => Ok(Some(Mark::NoRow { collection, id })),
        None => Ok(None),
    }
}

fn no_collection_from(alloc: Global, list: &Value) -> Result<Option<Mark>, AllocError>
    ensures { IfOk result (λ mark. mark ≡ no_collection_from (view list.now)) }
{
    match name_at(alloc, list, 1)? {
        Some(name) => Ok(Some(Mark::NoCollection { name })),
        None => Ok(None),
    }
}

fn no_batch_from(list: &Value) -> Option<Mark>
    ensures { result ≡ no_batch_from (view list.now) }
{
    match number_at(list, 1) {
        Some(number) => Some(Mark::NoBatch { number }),
        None => None,
    }
}

fn next_parts_from(list: &Value) -> Option<Mark>
    ensures { result ≡ next_parts_from (view list.now) }
{
    match number_at(list, 1) {
        Some(number) => Some(Mark::NextParts { number }),
        None => None,
    }
}

/// What a value says as a line that no account has; perhaps the line isn't written so.
pub(crate) fn mark_from(alloc: Global, list: &Value) -> Result<Option<Mark>, AllocError>
    ensures { IfOk result (λ mark. mark ≡ mark_from (view list.now)) }
{
    match kind_in(list) {
        Some(Kind::Now) => Ok(now_from(list)),
        Some(Kind::NoRow) => no_row_from(alloc, list),
        Some(Kind::NoCollection) => no_collection_from(alloc, list),
        Some(Kind::NoBatch) => Ok(no_batch_from(list)),
        Some(Kind::NextParts) => Ok(next_parts_from(list)),
        None => Ok(None),
    }
}
