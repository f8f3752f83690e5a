//! What a POST is told of its records.

ghost use Rattle.std.specs.Prelude.{◌≡◌, true, is_some, IfOk, option_and_then, codes};
ghost use Rattle.json.specs.Find.{get, as_str};
ghost use Rattle.json.specs.Value.{value_view, items_view, members_view};
ghost use Rattle.ss_hearing.specs.Bodies.{each};
ghost use Rattle.ss_hearing.specs.Lists.{ids_of};
ghost use Rattle.ss_hearing.specs.Posts.{are_words, are_failures, first_name, failure_among, failure_of, failure_in};
ghost use Rattle.ss_hearing.specs.Posts.{batch_in};

use crate::batches::batch_of;
use crate::bodies::string_in;
use crate::lists::ids_of;
use json::Value;
use ss_text::Id;
use std::alloc::{AllocError, Global};

/// Whether items are strings.
fn each_is_word(items: &Vec<Value>) -> bool
    ensures { result ≡ is_some (each as_str (items_view items.now.items)) }
{
    for item in items {
        if item.as_str().is_none() {
            return false;
        }
    }
    true
}

/// Whether a value is a list of strings.
#[tactic(auto, unfolding(crate::specs::Posts::are_words))]
fn are_words(value: &Value) -> bool
    ensures { result ≡ are_words (value_view value.now) }
{
    match value {
        Value::Array(items) => each_is_word(items),
        _ => false,
    }
}

/// Whether members are ids, each with a list of strings.
fn are_failures(alloc: Global, members: &Vec<(&str, Value)>) -> Result<bool, AllocError>
    ensures { IfOk result (λ fit. fit ≡ are_failures (members_view members.now.items)) }
{
    for member in members {
        if Id::new(alloc, member.0.as_bytes())?.is_none() || !are_words(&member.1) {
            return Ok(false);
        }
    }
    Ok(true)
}

/// The id that stands first.
fn first_id(alloc: Global, members: &Vec<(&str, Value)>) -> Result<Option<Id>, AllocError>
    requires { are_failures (members_view members.now.items) ≡ true }
    ensures { IfOk result (λ id. id ≡ first_name (members_view members.now.items)) }
{
    match members.first() {
        Some(member) => Id::new(alloc, member.0.as_bytes()),
        None => Ok(None),
    }
}

/// What `failed` says: the record that stands first in it, or that none failed; None where it isn't in form.
#[tactic(auto, unfolding(crate::specs::Posts::failure_of))]
fn failure_of(alloc: Global, value: &Value) -> Result<Option<Option<Id>>, AllocError>
    ensures { IfOk result (λ failure. failure ≡ failure_of (value_view value.now)) }
{
    match value {
        Value::Object(members) => if are_failures(alloc, members)? {
            Ok(Some(first_id(alloc, members)?))
        } else {
            Ok(None)
        },
        _ => Ok(None),
    }
}

/// Whether `success` is a list of ids.
fn has_success(alloc: Global, value: &Value) -> Result<bool, AllocError>
    ensures { IfOk result (λ fit. fit ≡ is_some (option_and_then ids_of
        (get (codes "success") (value_view value.now)))) }
{
    match value.get("success") {
        Some(list) => Ok(ids_of(alloc, list)?.is_some()),
        None => Ok(false),
    }
}

/// The record that failed first, or that none failed; None where `success` or `failed` isn't in form.
#[tactic(auto, unfolding(crate::specs::Posts::failure_in))]
pub(crate) fn failure_in(alloc: Global, value: &Value) -> Result<Option<Option<Id>>, AllocError>
    ensures { IfOk result (λ failure. failure ≡ failure_in (value_view value.now)) }
{
    if !has_success(alloc, value)? {
        return Ok(None);
    }
    match value.get("failed") {
        Some(failed) => failure_of(alloc, failed),
        None => Ok(None),
    }
}

/// The number of the batch that a reply names.
#[tactic(auto, unfolding(crate::specs::Posts::batch_in))]
pub(crate) fn batch_in(alloc: Global, value: &Value) -> Result<Option<u64>, AllocError>
    ensures { IfOk result (λ batch. batch ≡ batch_in (value_view value.now)) }
{
    match string_in(value, "batch") {
        Some(token) => batch_of(alloc, token.as_bytes()),
        None => Ok(None),
    }
}
