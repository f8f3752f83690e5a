//! Strings and values as they are read from a marked text, in which a number that serde_json would round is a string
//! of U+0001 and its characters, and a string that begins with U+0001 has one more in front.

ghost use Rattle.std.specs.Prelude.{◌≡◌, ◌∷◌, ◌||◌, false, drop, is_some, string_bytes, option_map, IfOk, MatchOption};
ghost use Rattle.serde_json.specs.Data.{object};
ghost use Rattle.serde_json.specs.View.{view, number_view, items_view, members_view};
ghost use Rattle.serde_json.specs.Written.{members_have_float};
ghost use Rattle.ss_record.specs.Marks.{begins_marked, marked_string, said_text, string_of, is_string_or_decimal};
ghost use Rattle.ss_record.specs.Marks.{is_plain_number, is_plain, items_plain, members_plain, plain_text};

use serde_json::{Map, Number, Value};
use ss_text::{Word, is_decimal, unmark_decimals};
use std::alloc::{AllocError, Global};

/// What a whole number of at most 18 digits is below.
const END: u64 = 1_000_000_000_000_000_000;

/// What a negative number of at most 18 digits is above.
const START: i64 = -1_000_000_000_000_000_000;

fn begins_marked(text: &str) -> bool
    ensures { result ≡ begins_marked text.now }
{
    match text.as_bytes().first() {
        Some(byte) => *byte == 1,
        None => false,
    }
}

/// What follows the mark, where the text begins with it.
fn behind_mark(text: &str) -> Option<&str>
    ensures { MatchOption result (begins_marked text.now ≡ false) (λ rest. text.now ≡ 1 ∷ rest.now) }
{
    text.strip_prefix('\u{1}')
}

/// The text that a string of a marked text says; None for a marked number.
#[tactic(auto, unfolding(crate::specs::Marks::said_text))]
fn said_text(text: &str) -> Option<&str>
    ensures { option_map (λ said. said.now) result ≡ said_text text.now }
{
    match behind_mark(text) {
        None => Some(text),
        Some(rest) => if begins_marked(rest) {
            Some(rest)
        } else {
            None
        },
    }
}

/// The text that a value says. A number is no string, also where it stands as one behind a mark.
pub fn string_of(value: &Value) -> Option<&str>
    ensures { option_map (λ said. said.now) result ≡ string_of (view value.now) }
{
    match value {
        Value::String(text) => said_text(text.as_str()),
        _ => None,
    }
}

/// A text as a marked text has it.
#[tactic(auto, unfolding(crate::specs::Marks::marked_string))]
pub fn marked_string(alloc: Global, text: &str) -> Result<String, AllocError>
    ensures { IfOk result (λ marked. string_bytes marked ≡ marked_string text.now) }
{
    if !begins_marked(text) {
        return String::from_str(alloc, text);
    }
    let mut marked = String::from_str(alloc, "\u{1}")?;
    marked.push_str(text)?;
    Ok(marked)
}

#[tactic(auto, unfolding(crate::specs::Marks::is_string_or_decimal, crate::specs::Marks::said_text))]
fn is_string_or_decimal(text: &str) -> bool
    ensures { result ≡ is_string_or_decimal text.now }
{
    match behind_mark(text) {
        None => true,
        Some(rest) => begins_marked(rest) || is_decimal(rest),
    }
}

#[tactic(auto, unfolding(crate::specs::Marks::is_plain_number))]
fn is_plain_number(number: &Number) -> bool
    ensures { result ≡ is_plain_number (number_view number.now) }
{
    if let Some(value) = number.as_u64() {
        return value < END;
    }
    match number.as_i64() {
        Some(value) => START < value && value < 0,
        None => false,
    }
}

/// Whether no number of the value was rounded, and no name of a member is a number.
#[cycle(is_plain)]
pub(crate) fn is_plain(value: &Value) -> bool
    ensures { result ≡ is_plain (view value.now) }
{
    match value {
        Value::Null | Value::Bool(_) => true,
        Value::Number(number) => is_plain_number(number),
        Value::String(text) => is_string_or_decimal(text.as_str()),
        Value::Array(items) => items_plain(items),
        Value::Object(members) => members_plain(members),
    }
}

#[cycle(is_plain)]
fn items_plain(items: &Vec<Value>) -> bool
    ensures { result ≡ items_plain (items_view items.now.items) }
{
    for item in items {
        if !is_plain(item) {
            return false;
        }
    }
    true
}

#[cycle(is_plain)]
fn members_plain(members: &Map<String, Value>) -> bool
    ensures { result ≡ members_plain (members_view members.now.entries) }
{
    for (name, member) in members.iter() {
        if said_text(name.as_str()).is_none() || !is_plain(member) {
            return false;
        }
    }
    true
}

/// The compact text of an object without floats, in which each marked number stands with the characters that it had.
pub fn plain_text(alloc: Global, members: Map<String, Value>) -> Result<Word, AllocError>
    requires { members_have_float (members_view members.entries) ≡ false }
    ensures { IfOk result (λ text. text ≡ plain_text (object (members_view members.entries))) }
{
    let marked = Value::Object(members).to_string(alloc)?;
    let bytes = unmark_decimals(alloc, marked.as_str().as_bytes())?;
    match String::from_utf8(bytes) {
        Ok(text) => Ok(Word::new(text)),
        Err(_) => unreachable!(),
    }
}
