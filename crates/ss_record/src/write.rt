//! The records of items, and of deleted ones.

ghost use Rattle.std.specs.Prelude.{◌≡◌, ◌≢◌, [], Some, false, map, string_bytes, codes, if◌then◌else◌, IfOk, OnOk};
ghost use Rattle.std.specs.Prelude.{OnErr};
ghost use Rattle.serde_json.specs.Data.{string, array, put};
ghost use Rattle.serde_json.specs.View.{view, items_view, members_view};
ghost use Rattle.ss_record.specs.Ids.{has, places, roots};
ghost use Rattle.ss_record.specs.Kinds.{is_folder, kind_name};
ghost use Rattle.ss_record.specs.Marks.{marked_string};
ghost use Rattle.ss_record.specs.Records.{reading, record_members, record_of, string_items, tombstone_members};
ghost use Rattle.ss_record.specs.Records.{tombstone_of};
ghost use Rattle.ss_record.specs.declared.readings.Reading.TheVariants.{Item as Reads, Tombstone};

use crate::items::Item;
use crate::marks::{marked_string, plain_text};
use serde_json::{Map, Value};
use ss_text::{Id, Word};
use std::alloc::{AllocError, Global};

/// The object with this member, in place of an earlier one of its name.
pub fn with_member(
    alloc: Global,
    mut members: Map<String, Value>,
    name: &str,
    value: Value,
) -> Result<Map<String, Value>, AllocError>
    ensures { IfOk result (λ m. members_view m.entries ≡ put name.now (view value) (members_view members.entries)) }
{
    members.insert(String::from_str(alloc, name)?, value)?;
    Ok(members)
}

/// A string, as a marked text has it.
fn text(alloc: Global, text: &str) -> Result<Value, AllocError>
    ensures { IfOk result (λ v. view v ≡ string (marked_string text.now)) }
{
    Ok(Value::String(marked_string(alloc, text)?))
}

/// A list of ids.
fn list(alloc: Global, ids: &[Id]) -> Result<Value, AllocError>
    ensures { IfOk result (λ v. view v ≡ array (string_items ids.now)) }
{
    let mut items = Vec::with_capacity(alloc, ids.len())?;
    for id in ids {
        items.push(text(alloc, id.as_str())?)?;
    }
    Ok(Value::Array(items))
}

/// The members with those that tell what an item is, and its parent.
fn item_members(
    alloc: Global,
    item: &Item,
    content: Map<String, Value>,
    parent: &Id,
) -> Result<Map<String, Value>, AllocError>
    ensures { IfOk result (λ m. members_view m.entries ≡ put (codes "id") (string (marked_string item.now.id)) (put (codes "type") (string (kind_name item.now.kind)) (put (codes "parentid") (string (marked_string parent.now)) (members_view content.entries)))) }
{
    let members = with_member(alloc, content, "parentid", text(alloc, parent.as_str())?)?;
    let kind = Value::String(String::from_str(alloc, item.kind().name())?);
    let members = with_member(alloc, members, "type", kind)?;
    with_member(alloc, members, "id", text(alloc, item.id().as_str())?)
}

/// The members of an item's record, over those of its content.
#[tactic(auto, unfolding(crate::specs::Records::record_members))]
fn placed(
    alloc: Global,
    item: &Item,
    content: Map<String, Value>,
    parent: &Id,
    children: &[Id],
) -> Result<Map<String, Value>, AllocError>
    ensures { IfOk result (λ m. members_view m.entries ≡ record_members item.now.id item.now.kind (members_view content.entries) parent.now children.now) }
{
    let members = item_members(alloc, item, content, parent)?;
    if !item.kind().is_folder() {
        return Ok(members);
    }
    let ids = list(alloc, children)?;
    Ok(with_member(alloc, members, "children", ids)?)
}

/// The record of an item under a parent and with children, as compact JSON with its members upwards by name; of another
/// kind than a folder the children aren't told. It reads back as the item, the parent and the children.
pub fn write_record(
    alloc: Global,
    item: &Item,
    parent: &Id,
    children: &[Id],
) -> Result<Word, AllocError>
    ensures text { IfOk result (λ record_text. record_text ≡ record_of item.now parent.now children.now) }
    ensures reads_back { item.now.id ≢ places → IfOk result (λ record_text. reading item.now.id record_text ≡ Reads item.now (Some parent.now) (if is_folder item.now.kind then children.now else [])) }
{
    let content = item.members(alloc)?;
    let members = placed(alloc, item, content, parent, children)?;
    plain_text(alloc, members)
}

/// The members of a deleted item's record.
#[tactic(auto, unfolding(crate::specs::Records::tombstone_members))]
fn dead_members(alloc: Global, id: &Id) -> Result<Map<String, Value>, AllocError>
    ensures { IfOk result (λ m. members_view m.entries ≡ tombstone_members id.now) }
{
    let members = with_member(alloc, Map::new(alloc), "id", text(alloc, id.as_str())?)?;
    let members = with_member(alloc, members, "deleted", Value::Bool(true))?;
    Ok(members)
}

/// The record of a deleted item. It reads back as a tombstone, unless the id is `places` or a root's.
pub fn write_tombstone(alloc: Global, id: &Id) -> Result<Word, AllocError>
    ensures text { IfOk result (λ record_text. record_text ≡ tombstone_of id.now) }
    ensures reads_back { id.now ≢ places → has id.now roots ≡ false → IfOk result (λ record_text. reading id.now record_text ≡ Tombstone) }
{
    let members = dead_members(alloc, id)?;
    plain_text(alloc, members)
}
