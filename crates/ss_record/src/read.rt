//! What a row says of its id.

ghost use Rattle.std.specs.Prelude.{◌≡◌, ◌&&◌, Some, true, false, not, bytes_eq, option_map, codes, IfOk};
ghost use Rattle.serde_json.specs.Data.{Members};
ghost use Rattle.serde_json.specs.Find.{get_member};
ghost use Rattle.serde_json.specs.View.{view, members_view};
ghost use Rattle.ss_record.specs.Ids.{has, places, roots};
ghost use Rattle.ss_record.specs.Kinds.{is_folder, kind_of};
ghost use Rattle.ss_record.specs.Items.{names_of};
ghost use Rattle.ss_record.specs.Payloads.{payload_members, without, is_true};
ghost use Rattle.ss_record.specs.Records.{children_of, item_of, kind_in, members_reading, parentid_of, reading};

use crate::ids::{is_places, is_root};
use crate::items::{Item, tells_place};
use crate::kinds::Kind;
use crate::marks::{plain_text, string_of};
use crate::payloads::{is_string, is_true, member, members_of, string_list};
use crate::readings::{Reading, Sheet, Words};
use serde_json::{Map, Value};
use ss_text::{Id, Word};
use std::alloc::{AllocError, Global};

/// The kind that `type` names.
fn kind_in(members: &Map<String, Value>) -> Option<Kind>
    ensures { result ≡ kind_in (members_view members.now.entries) }
{
    member(members, "type")
        .and_then(string_of)
        .and_then(Kind::from_name)
}

/// `parentid`, which may be absent; None where it is no string.
fn parentid_of(alloc: Global, value: Option<&Value>) -> Result<Option<Option<Word>>, AllocError>
    ensures { IfOk result (λ parent. parent ≡ parentid_of (option_map (λ v. view v.now) value.entry)) }
{
    match value {
        None => Ok(Some(None)),
        Some(value) => match string_of(value) {
            Some(text) => Ok(Some(Some(Word::new(String::from_str(alloc, text)?)))),
            None => Ok(None),
        },
    }
}

/// A folder's `children`, which may be absent; None where it is no list of strings.
fn children_of(
    alloc: Global,
    kind: Kind,
    value: Option<&Value>,
) -> Result<Option<Vec<Word>>, AllocError>
    ensures { IfOk result (λ found. option_map (λ v. v.items) found ≡ children_of (is_folder kind) (option_map (λ v. view v.now) value.entry)) }
{
    match value {
        Some(list) if kind.is_folder() => string_list(alloc, list),
        _ => Ok(Some(Vec::new(alloc))),
    }
}

/// The members that are content.
fn content_of(kind: Kind, mut members: Map<String, Value>) -> Map<String, Value>
    ensures { members_view result.entries ≡ without (names_of kind) (members_view members.entries) }
{
    members.retain(|name, _| !tells_place(kind, name.as_str()));
    members
}

/// Whether the id is a root's, whose item is a folder, and the kind isn't one.
fn is_leaf_root(id: &Id, kind: Kind) -> bool
    ensures { result ≡ (has id.now roots && not (is_folder kind)) }
{
    is_root(id) && !kind.is_folder()
}

/// The item of an object whose `type`, `parentid` and `children` are in form.
#[tactic(auto, unfolding(crate::specs::Records::item_of))]
fn read_item(
    alloc: Global,
    sheet: &Sheet,
    members: Map<String, Value>,
) -> Result<Option<Reading>, AllocError>
    requires payload { payload_members sheet.now.payload ≡ Some (members_view members.entries) }
    requires live { is_true (get_member (codes "deleted") (members_view members.entries)) ≡ false }
    requires place { bytes_eq sheet.now.id places ≡ false }
    ensures { IfOk result (λ r. r ≡ item_of sheet.now.id (members_view members.entries)) }
{
    let Some(kind) = kind_in(&members) else {
        return Ok(None);
    };
    let Some(parentid) = parentid_of(alloc, member(&members, "parentid"))? else {
        return Ok(None);
    };
    let Some(children) = children_of(alloc, kind, member(&members, "children"))? else {
        return Ok(None);
    };
    if is_leaf_root(&sheet.id, kind) {
        return Ok(None);
    }
    let content = plain_text(alloc, content_of(kind, members))?;
    let item = Item::fit(sheet.id.copy(alloc)?, kind, content);
    Ok(Some(Reading::Item {
        item,
        parentid,
        children: Words::new(children),
    }))
}

/// What an object says of the id of its row.
#[tactic(auto, unfolding(crate::specs::Records::members_reading))]
fn read_members(
    alloc: Global,
    sheet: &Sheet,
    members: Map<String, Value>,
) -> Result<Reading, AllocError>
    requires payload { payload_members sheet.now.payload ≡ Some (members_view members.entries) }
    requires place { bytes_eq sheet.now.id places ≡ false }
    ensures { IfOk result (λ r. r ≡ members_reading sheet.now.id (members_view members.entries)) }
{
    if !is_string(sheet.id.as_str(), member(&members, "id")) {
        return Ok(Reading::Skipped);
    }
    if is_true(member(&members, "deleted")) {
        return Ok(if is_root(&sheet.id) {
            Reading::Skipped
        } else {
            Reading::Tombstone
        });
    }
    match read_item(alloc, sheet, members)? {
        Some(item) => Ok(item),
        None => Ok(Reading::Skipped),
    }
}

/// What a row says of its id: an item with its parent and children, that the item was deleted, or nothing that is
/// understood (the rules are this project's, over the records of Firefox's bookmarks).
#[tactic(auto, unfolding(crate::specs::Records::reading))]
pub fn read_record(alloc: Global, sheet: &Sheet) -> Result<Reading, AllocError>
    ensures { IfOk result (λ r. r ≡ reading sheet.now.id sheet.now.payload) }
{
    if is_places(&sheet.id) {
        return Ok(Reading::Skipped);
    }
    match members_of(alloc, sheet.payload.as_str())? {
        Some(members) => read_members(alloc, sheet, members),
        None => Ok(Reading::Skipped),
    }
}
