//! Pages of rows, and the list of all ids.

ghost use Rattle.std.specs.Prelude.{◌≡◌, IfOk, option_map, option_and_then, codes};
ghost use Rattle.json.specs.Find.{get};
ghost use Rattle.json.specs.Value.{value_view, items_view};
ghost use Rattle.ss_hearing.specs.Bodies.{id_of, each};
ghost use Rattle.ss_hearing.specs.Lists.{sheet_of, rows_of, ids_of, next_of};

use crate::bodies::{id_of, stamp_in, string_in};
use crate::sheets::Sheets;
use json::Value;
use ss_record::Sheet;
use ss_text::{Bytes, Id, Ids, Word, read_number};
use std::alloc::{AllocError, Global};

/// The id that the member `id` is.
fn id_in(alloc: Global, value: &Value) -> Result<Option<Id>, AllocError>
    ensures { IfOk result (λ id. id ≡ option_and_then id_of (get (codes "id") (value_view value.now))) }
{
    match value.get("id") {
        Some(member) => id_of(alloc, member),
        None => Ok(None),
    }
}

/// The row that an object is.
#[tactic(auto, unfolding(crate::specs::Lists::sheet_of))]
fn sheet_of(alloc: Global, value: &Value) -> Result<Option<Sheet>, AllocError>
    ensures { IfOk result (λ sheet. sheet ≡ sheet_of (value_view value.now)) }
{
    let Some(id) = id_in(alloc, value)? else {
        return Ok(None);
    };
    let Some(modified) = stamp_in(value, "modified") else {
        return Ok(None);
    };
    let Some(payload) = string_in(value, "payload") else {
        return Ok(None);
    };
    let payload = Word::new(String::from_str(alloc, payload)?);
    Ok(Some(Sheet {
        id,
        modified,
        payload,
    }))
}

fn each_row(alloc: Global, items: &Vec<Value>) -> Result<Option<Sheets>, AllocError>
    ensures { IfOk result (λ rows. rows ≡ each sheet_of (items_view items.now.items)) }
{
    let mut rows = Vec::with_capacity(alloc, items.len())?;
    for item in items {
        match sheet_of(alloc, item)? {
            Some(row) => rows.push(row)?,
            None => return Ok(None),
        }
    }
    Ok(Some(Sheets::new(rows)))
}

fn each_id(alloc: Global, items: &Vec<Value>) -> Result<Option<Ids>, AllocError>
    ensures { IfOk result (λ ids. ids ≡ each id_of (items_view items.now.items)) }
{
    let mut ids = Vec::with_capacity(alloc, items.len())?;
    for item in items {
        match id_of(alloc, item)? {
            Some(id) => ids.push(id)?,
            None => return Ok(None),
        }
    }
    Ok(Some(Ids::new(ids)))
}

/// The rows of a page; None where it isn't a list of rows.
#[tactic(auto, unfolding(crate::specs::Lists::rows_of))]
pub(crate) fn rows_of(alloc: Global, value: &Value) -> Result<Option<Sheets>, AllocError>
    ensures { IfOk result (λ rows. rows ≡ rows_of (value_view value.now)) }
{
    match value {
        Value::Array(items) => each_row(alloc, items),
        _ => Ok(None),
    }
}

/// The ids of a list; None where it isn't a list of ids.
#[tactic(auto, unfolding(crate::specs::Lists::ids_of))]
pub(crate) fn ids_of(alloc: Global, value: &Value) -> Result<Option<Ids>, AllocError>
    ensures { IfOk result (λ ids. ids ≡ ids_of (value_view value.now)) }
{
    match value {
        Value::Array(items) => each_id(alloc, items),
        _ => Ok(None),
    }
}

/// The next offset that a page names, or that it names none; None where it isn't 1 to 9 digits.
#[tactic(auto, unfolding(crate::specs::Lists::next_of))]
pub(crate) fn next_of(next: Option<&Bytes>) -> Option<Option<u32>>
    ensures { result ≡ next_of (option_map (λ text. text.now) next.entry) }
{
    match next {
        None => Some(None),
        Some(text) => {
            let offset = read_number(text.as_slice(), 9)?;
            Some(Some(offset as u32))
        }
    }
}
