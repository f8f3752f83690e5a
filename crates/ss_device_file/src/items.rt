//! The lines of items.

ghost use Rattle.std.specs.Prelude.{◌≡◌, IfOk, IfSome, Some, option_map, true};
ghost use Rattle.std.specs.Str.{IsUtf8};
ghost use Rattle.serde_json.specs.View.{members_view};
ghost use Rattle.ss_text.specs.Names.{is_id};
ghost use Rattle.ss_record.specs.Records.{reading};
ghost use Rattle.ss_build.specs.Rows.{is_item};
ghost use Rattle.ss_device.specs.Writing.{item_line};
ghost use Rattle.ss_device_file.specs.Lines.{IsItemLine, record_in};
ghost use Rattle.ss_device_file.specs.Records.{all_ids, id_told, in_place, item_from, read_item, record_id};
ghost use Rattle.ss_device_file.specs.Records.{record_parts};
ghost use Rattle.ss_device_file.specs.declared.lines.ItemLine.{ItemLine as ItemLineView};

use crate::cuts::{cut_item, time_of};
use crate::lines::ItemLine;
use serde_json::{Map, Value};
use ss_record::{
    Item, Reading, Sheet, Words, into_members, is_places, member, read_record, read_value,
    string_of,
};
use ss_text::{Id, Ids, Stamp, Word};
use std::alloc::{AllocError, Global};

/// The members of a record.
fn record_parts(alloc: Global, text: &str) -> Result<Option<Map<String, Value>>, AllocError>
    ensures { IfOk result (λ found. option_map (λ m. members_view m.entries) found ≡ record_parts text.now) }
{
    match read_value(alloc, text)? {
        Some(value) => Ok(into_members(value)),
        None => Ok(None),
    }
}

/// The id that members say.
fn id_told(alloc: Global, members: &Map<String, Value>) -> Result<Option<Id>, AllocError>
    ensures { IfOk result (λ id. id ≡ id_told (members_view members.now.entries)) }
{
    let Some(value) = member(members, "id") else {
        return Ok(None);
    };
    match string_of(value) {
        Some(id) => Id::new(alloc, id.as_bytes()),
        None => Ok(None),
    }
}

/// The id that a record says.
#[tactic(auto, unfolding(crate::specs::Records::record_id))]
fn record_id(alloc: Global, text: &str) -> Result<Option<Id>, AllocError>
    ensures { IfOk result (λ id. id ≡ record_id text.now) }
{
    match record_parts(alloc, text)? {
        Some(members) => id_told(alloc, &members),
        None => Ok(None),
    }
}

/// The ids that texts are, where each is one.
fn ids_of(alloc: Global, texts: &[Word]) -> Result<Option<Ids>, AllocError>
    ensures { IfOk result (λ ids. ids ≡ all_ids texts.now) }
{
    let mut ids = Vec::with_capacity(alloc, texts.len())?;
    for text in texts {
        match Id::new(alloc, text.as_str().as_bytes())? {
            Some(id) => ids.push(id)?,
            None => return Ok(None),
        }
    }
    Ok(Some(Ids::new(ids)))
}

/// The line of an item that was read, with the place that its record names.
#[tactic(auto, unfolding(crate::specs::Records::in_place))]
fn in_place(
    alloc: Global,
    time: Stamp,
    item: Item,
    parent: &Word,
    children: &Words,
) -> Result<Option<ItemLine>, AllocError>
    ensures { IfOk result (λ o. o ≡ in_place time item parent.now children.now) }
{
    if is_places(item.id()) {
        return Ok(None);
    }
    let Some(parent) = Id::new(alloc, parent.as_str().as_bytes())? else {
        return Ok(None);
    };
    let Some(children) = ids_of(alloc, children.as_slice())? else {
        return Ok(None);
    };
    Ok(Some(ItemLine {
        time,
        item,
        parent,
        children,
    }))
}

/// What a reading says as an item's line.
fn read_item(alloc: Global, time: Stamp, reading: Reading) -> Result<Option<ItemLine>, AllocError>
    ensures { IfOk result (λ o. o ≡ read_item time reading) }
{
    match reading {
        Reading::Item {
            item,
            parentid,
            children,
        } => match parentid {
            Some(parent) => in_place(alloc, time, item, &parent, &children),
            None => Ok(None),
        },
        _ => Ok(None),
    }
}

/// The id behind the first `"id":"` of a text, which is mostly the one that its record says.
fn likely_id(alloc: Global, text: &str) -> Result<Option<Id>, AllocError>
    ensures { IfOk result (λ id. IfSome id (λ x. is_id x ≡ true)) }
{
    let Some((_, rest)) = text.split_once("\"id\":\"") else {
        return Ok(None);
    };
    match rest.split_once('"') {
        Some((id, _)) => Id::new(alloc, id.as_bytes()),
        None => Ok(None),
    }
}

/// Whether a reading is an item.
pub(crate) fn is_item(reading: &Reading) -> bool
    ensures { result ≡ is_item reading.now }
{
    matches!(reading, Reading::Item { .. })
}

/// What a record says of an id.
fn reading_of(alloc: Global, time: Stamp, id: Id, text: &str) -> Result<Reading, AllocError>
    ensures { IfOk result (λ r. r ≡ reading id text.now) }
{
    let sheet = Sheet {
        id,
        modified: time,
        payload: Word::new(String::from_str(alloc, text)?),
    };
    read_record(alloc, &sheet)
}

/// What a record says as an item's line; perhaps the line isn't written so. Where it reads as an item of the likely id,
/// that is the id that it says.
#[tactic(auto, unfolding(crate::specs::Records::item_from))]
fn item_from(alloc: Global, time: Stamp, text: &str) -> Result<Option<ItemLine>, AllocError>
    ensures { IfOk result (λ o. o ≡ item_from time text.now) }
{
    if let Some(id) = likely_id(alloc, text)? {
        let likely = reading_of(alloc, time, id, text)?;
        if is_item(&likely) {
            return read_item(alloc, time, likely);
        }
    }
    let Some(id) = record_id(alloc, text)? else {
        return Ok(None);
    };
    let told = reading_of(alloc, time, id, text)?;
    read_item(alloc, time, told)
}

/// What a line says as an item's; perhaps it isn't written so.
pub(crate) fn item_in(alloc: Global, line: &[u8]) -> Result<Option<ItemLine>, AllocError>
    ensures form { IfOk result (λ o. IfSome o IsItemLine) }
    ensures all { IfOk result (λ o. (i : ItemLineView) → IsItemLine i → IsUtf8 (record_in i)
        → item_line i.time (record_in i) ≡ line.now → o ≡ Some i) }
{
    let Some(cut) = cut_item(line) else {
        return Ok(None);
    };
    let Some(time) = time_of(cut.digits) else {
        return Ok(None);
    };
    match str::from_utf8(cut.text) {
        Ok(text) => item_from(alloc, time, text),
        Err(_) => Ok(None),
    }
}
