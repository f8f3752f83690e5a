//! What stands in a request, from JSON values.

ghost use Rattle.std.specs.Prelude.{◌≡◌, IfOk, option_map, option_and_then};
ghost use Rattle.serde_json.specs.Find.{as_bool};
ghost use Rattle.serde_json.specs.View.{items_view, view};
ghost use Rattle.ss_lines.specs.Values.{optional_of, seconds_of};
ghost use Rattle.ss_log_lines.specs.Values.{all_from, cond_from, id_from, list_from, mode_from, query_from, sort_of};
ghost use Rattle.ss_log_lines.specs.Values.{time_from};

use crate::words::sort_of;
use serde_json::Value;
use ss_lines::values::{natural_at, seconds_of, text_at, time_at};
use ss_query::{Mode, Query, Sort};
use ss_text::{Cond, Id, Ids, Stamp, read_stamp};
use std::alloc::{AllocError, Global};

/// A condition: nothing, or a word with its time.
#[tactic(auto, unfolding(crate::specs::Values::cond_from))]
fn cond_from(list: &Value) -> Option<Cond>
    ensures { result ≡ cond_from (view list.now) }
{
    match text_at(list, 0) {
        None => Some(Cond::Free),
        Some("modified") => Some(Cond::IfModified(time_at(list, 1)?)),
        Some("unmodified") => Some(Cond::IfUnmodified(time_at(list, 1)?)),
        Some("absent") => Some(Cond::IfAbsent),
        Some(_) => None,
    }
}

/// The condition that a value is.
pub(crate) fn cond_in(value: Option<&Value>) -> Option<Cond>
    ensures { result ≡ option_and_then cond_from (option_map (λ v. view v.now) value.entry) }
{
    cond_from(value?)
}

/// How the records of a POST are taken.
#[tactic(auto, unfolding(crate::specs::Values::mode_from))]
fn mode_from(list: &Value) -> Option<Mode>
    ensures { result ≡ mode_from (view list.now) }
{
    match text_at(list, 0) {
        None => Some(Mode::Plain),
        Some("begin") => Some(Mode::Begin),
        Some("append") => Some(Mode::Append {
            batch: natural_at(list, 1)?,
        }),
        Some("commit") => Some(Mode::Commit {
            batch: natural_at(list, 1)?,
        }),
        Some(_) => None,
    }
}

/// The mode that a value is.
pub(crate) fn mode_in(value: Option<&Value>) -> Option<Mode>
    ensures { result ≡ option_and_then mode_from (option_map (λ v. view v.now) value.entry) }
{
    mode_from(value?)
}

fn id_from(alloc: Global, value: &Value) -> Result<Option<Id>, AllocError>
    ensures { IfOk result (λ id. id ≡ id_from (view value.now)) }
{
    match value.as_str() {
        Some(text) => Id::new(alloc, text.as_bytes()),
        None => Ok(None),
    }
}

fn all_ids(alloc: Global, values: &Vec<Value>) -> Result<Option<Vec<Id>>, AllocError>
    ensures { IfOk result (λ found. option_map (λ v. v.items) found ≡ all_from id_from (items_view values.now.items)) }
{
    let mut ids = Vec::with_capacity(alloc, values.len())?;
    for value in values {
        match id_from(alloc, value)? {
            Some(id) => ids.push(id)?,
            None => return Ok(None),
        }
    }
    Ok(Some(ids))
}

fn ids_from(alloc: Global, value: &Value) -> Result<Option<Ids>, AllocError>
    ensures { IfOk result (λ ids. ids ≡ list_from id_from (view value.now)) }
{
    let Some(values) = value.as_array() else {
        return Ok(None);
    };
    match all_ids(alloc, values)? {
        Some(ids) => Ok(Some(Ids::new(ids))),
        None => Ok(None),
    }
}

/// The list of ids that a value is.
pub(crate) fn ids_in(alloc: Global, value: Option<&Value>) -> Result<Option<Ids>, AllocError>
    ensures { IfOk result (λ ids. ids ≡ option_and_then (list_from id_from) (option_map (λ v. view v.now) value.entry)) }
{
    match value {
        Some(value) => ids_from(alloc, value),
        None => Ok(None),
    }
}

/// The ids that a query lists, or none for `null`.
fn optional_ids(alloc: Global, value: Option<&Value>) -> Result<Option<Option<Ids>>, AllocError>
    ensures { IfOk result (λ o. o ≡ option_and_then (optional_of (list_from id_from))
        (option_map (λ v. view v.now) value.entry)) }
{
    let Some(value) = value else {
        return Ok(None);
    };
    if value.is_null() {
        return Ok(Some(None));
    }
    match ids_from(alloc, value)? {
        Some(ids) => Ok(Some(Some(ids))),
        None => Ok(None),
    }
}

fn time_from(value: &Value) -> Option<Stamp>
    ensures { result ≡ time_from (view value.now) }
{
    match value.as_str() {
        Some(text) => read_stamp(text.as_bytes()),
        None => None,
    }
}

/// A time, or none for `null`.
fn optional_time(value: Option<&Value>) -> Option<Option<Stamp>>
    ensures { result ≡ option_and_then (optional_of time_from) (option_map (λ v. view v.now) value.entry) }
{
    let value = value?;
    if value.is_null() {
        return Some(None);
    }
    match time_from(value) {
        Some(time) => Some(Some(time)),
        None => None,
    }
}

/// The most records that are asked for, or none for `null`.
fn optional_limit(value: Option<&Value>) -> Option<Option<u32>>
    ensures { result ≡ option_and_then (optional_of seconds_of) (option_map (λ v. view v.now) value.entry) }
{
    let value = value?;
    if value.is_null() {
        return Some(None);
    }
    match seconds_of(value) {
        Some(limit) => Some(Some(limit)),
        None => None,
    }
}

/// A whole number of 32 bits.
pub(crate) fn number_in(value: Option<&Value>) -> Option<u32>
    ensures { result ≡ option_and_then seconds_of (option_map (λ v. view v.now) value.entry) }
{
    seconds_of(value?)
}

fn flag_in(value: Option<&Value>) -> Option<bool>
    ensures { result ≡ option_and_then as_bool (option_map (λ v. view v.now) value.entry) }
{
    value?.as_bool()
}

/// The order that a word names.
fn sort_in(word: Option<&str>) -> Option<Sort>
    ensures { result ≡ option_and_then sort_of (option_map (λ w. w.now) word.entry) }
{
    sort_of(word?)
}

/// Which records of a collection are asked for.
#[tactic(auto, unfolding(crate::specs::Values::query_from))]
fn query_from(alloc: Global, list: &Value) -> Result<Option<Query>, AllocError>
    ensures { IfOk result (λ query. query ≡ query_from (view list.now)) }
{
    let Some(ids) = optional_ids(alloc, list.get(0))? else {
        return Ok(None);
    };
    let Some(newer) = optional_time(list.get(1)) else {
        return Ok(None);
    };
    let Some(older) = optional_time(list.get(2)) else {
        return Ok(None);
    };
    let Some(limit) = optional_limit(list.get(3)) else {
        return Ok(None);
    };
    let Some(offset) = number_in(list.get(4)) else {
        return Ok(None);
    };
    let Some(sort) = sort_in(text_at(list, 5)) else {
        return Ok(None);
    };
    match flag_in(list.get(6)) {
        Some(full) => Ok(Some(Query {
            ids,
            newer,
            older,
            limit,
            offset,
            sort,
            full,
        })),
        None => Ok(None),
    }
}

/// The query that a value is.
pub(crate) fn query_in(alloc: Global, value: Option<&Value>) -> Result<Option<Query>, AllocError>
    ensures { IfOk result (λ query. query ≡ option_and_then query_from (option_map (λ v. view v.now) value.entry)) }
{
    match value {
        Some(value) => query_from(alloc, value),
        None => Ok(None),
    }
}
