//! Payloads as JSON: the members of an object, and what stands in them.

ghost use Rattle.std.specs.Prelude.{◌≡◌, ◌≤◌, nat_le, IfOk, option_map};
ghost use Rattle.serde_json.specs.Data.{depth, items_depth, members_depth};
ghost use Rattle.serde_json.specs.Find.{get_member, as_object};
ghost use Rattle.serde_json.specs.Read.{read};
ghost use Rattle.serde_json.specs.View.{view, items_view, members_view};
ghost use Rattle.ss_text.specs.Decimals.{marked_text};
ghost use Rattle.ss_record.specs.Payloads.{is_json, payload_members, strings, string_list, is_string, is_true};

use crate::marks::{is_plain, string_of};
use json::Scratch;
use serde_json::{Map, Value};
use ss_text::{Word, mark_decimals};
use std::alloc::{AllocError, Global};

/// How many levels a payload may have; its line in a device's file has one more.
const LEVELS: usize = 126;

/// Whether arrays and objects nest at most that deep.
#[cycle(fits)]
fn fits(value: &Value, levels: usize) -> bool
    ensures { result ≡ nat_le (depth (view value.now)) levels }
{
    match value {
        Value::Array(items) => levels > 0 && items_fit(items, levels - 1),
        Value::Object(members) => levels > 0 && members_fit(members, levels - 1),
        _ => true,
    }
}

#[cycle(fits)]
fn items_fit(items: &Vec<Value>, levels: usize) -> bool
    ensures { result ≡ nat_le (items_depth (items_view items.now.items)) levels }
{
    for item in items {
        if !fits(item, levels) {
            return false;
        }
    }
    true
}

#[cycle(fits)]
fn members_fit(members: &Map<String, Value>, levels: usize) -> bool
    ensures { result ≡ nat_le (members_depth (members_view members.now.entries)) levels }
{
    for (_, member) in members.iter() {
        if !fits(member, levels) {
            return false;
        }
    }
    true
}

/// Whether a text is JSON (RFC 8259), so that all names in it are strings. Marking makes strings of numbers, and a value
/// has lost what stood in a member that a later one of its name replaces, so it is the text itself that is tested.
fn is_json(alloc: Global, text: &str) -> Result<bool, AllocError>
    ensures { IfOk result (λ valid. valid ≡ is_json text.now) }
{
    json::is_valid(text, &mut Scratch::new(alloc))
}

/// The value that a text is as JSON, its decimals marked first.
pub fn read_value(alloc: Global, text: &str) -> Result<Option<Value>, AllocError>
    ensures { IfOk result (λ found. option_map view found ≡ read (marked_text text.now)) }
{
    let marked = mark_decimals(alloc, text.as_bytes())?;
    match Value::from_slice(alloc, marked.as_slice()) {
        Ok(value) => Ok(Some(value)),
        Err(error) => {
            if error.is_memory() {
                Err(AllocError)
            } else {
                Ok(None)
            }
        }
    }
}

/// The members of an object.
pub fn into_members(value: Value) -> Option<Map<String, Value>>
    ensures { option_map (λ m. members_view m.entries) result ≡ as_object (view value) }
{
    match value {
        Value::Object(members) => Some(members),
        _ => None,
    }
}

/// The members of a text that is in form as a payload; None exactly where it isn't.
#[tactic(auto, unfolding(crate::specs::Payloads::payload_members))]
pub(crate) fn members_of(
    alloc: Global,
    text: &str,
) -> Result<Option<Map<String, Value>>, AllocError>
    ensures { IfOk result (λ found. option_map (λ m. members_view m.entries) found ≡ payload_members text.now) }
{
    if !is_json(alloc, text)? {
        return Ok(None);
    }
    match read_value(alloc, text)? {
        Some(value) if fits(&value, LEVELS) && is_plain(&value) => Ok(into_members(value)),
        _ => Ok(None),
    }
}

/// The member of a name. Names are those of the marked text.
pub fn member<'a>(members: &'a Map<String, Value>, name: &str) -> Option<&'a Value>
    ensures { option_map (λ v. view v.now) result ≡ get_member name.now (members_view members.now.entries) }
{
    members.get(name)
}

/// Whether a member is this string.
pub(crate) fn is_string(text: &str, member: Option<&Value>) -> bool
    ensures { result ≡ is_string text.now (option_map (λ v. view v.now) member.entry) }
{
    match member.and_then(string_of) {
        Some(string) => text == string,
        None => false,
    }
}

/// Whether a member is `true`.
pub(crate) fn is_true(member: Option<&Value>) -> bool
    ensures { result ≡ is_true (option_map (λ v. view v.now) member.entry) }
{
    matches!(member, Some(Value::Bool(true)))
}

/// The strings of a list of strings.
fn strings(alloc: Global, items: &Vec<Value>) -> Result<Option<Vec<Word>>, AllocError>
    ensures { IfOk result (λ found. option_map (λ v. v.items) found ≡ strings (items_view items.now.items)) }
{
    let mut words = Vec::with_capacity(alloc, items.len())?;
    for item in items {
        match string_of(item) {
            Some(text) => words.push(Word::new(String::from_str(alloc, text)?))?,
            None => return Ok(None),
        }
    }
    Ok(Some(words))
}

/// The list of strings that a value is.
pub(crate) fn string_list(alloc: Global, value: &Value) -> Result<Option<Vec<Word>>, AllocError>
    ensures { IfOk result (λ found. option_map (λ v. v.items) found ≡ string_list (view value.now)) }
{
    match value {
        Value::Array(items) => strings(alloc, items),
        _ => Ok(None),
    }
}
