//! Requests as JSON values.

ghost use Rattle.std.specs.Prelude.{◌≡◌, IfOk, option_map, option_and_then};
ghost use Rattle.serde_json.specs.View.{view};
ghost use Rattle.ss_lines.specs.Values.{text_at};
ghost use Rattle.ss_log_lines.specs.Values.{asked_of, delete_all_from, delete_collection_from, delete_from};
ghost use Rattle.ss_log_lines.specs.Values.{delete_ids_from, get_from, info_from, kind_of, list_request_from, of_kind};
ghost use Rattle.ss_log_lines.specs.Values.{post_from, put_from, request_from};

use crate::records::{failures_in, fields_in, parts_in};
use crate::values::{cond_in, ids_in, mode_in, query_in};
use crate::words::asked_of;
use serde_json::Value;
use ss_bso::Records;
use ss_lines::values::{id_at, name_at, text_at};
use ss_query::{Info, Request};
use std::alloc::{AllocError, Global};

/// What is asked of the account as a whole.
fn asked_in(word: Option<&str>) -> Option<Info>
    ensures { result ≡ option_and_then asked_of (option_map (λ w. w.now) word.entry) }
{
    asked_of(word?)
}

#[tactic(auto, unfolding(crate::specs::Values::info_from))]
fn info_from(list: &Value) -> Option<Request>
    ensures { result ≡ info_from (view list.now) }
{
    Some(Request::Info {
        what: asked_in(text_at(list, 1))?,
        cond: cond_in(list.get(2))?,
    })
}

#[tactic(auto, unfolding(crate::specs::Values::delete_all_from))]
fn delete_all_from(list: &Value) -> Option<Request>
    ensures { result ≡ delete_all_from (view list.now) }
{
    Some(Request::DeleteAll {
        cond: cond_in(list.get(1))?,
    })
}

#[tactic(auto, unfolding(crate::specs::Values::list_request_from))]
fn list_from(alloc: Global, list: &Value) -> Result<Option<Request>, AllocError>
    ensures { IfOk result (λ request. request ≡ list_request_from (view list.now)) }
{
    let Some(collection) = name_at(alloc, list, 1)? else {
        return Ok(None);
    };
    let Some(query) = query_in(alloc, list.get(2))? else {
        return Ok(None);
    };
    match cond_in(list.get(3)) {
        Some(cond) => Ok(Some(Request::List {
            collection,
            query,
            cond,
        })),
        None => Ok(None),
    }
}

#[tactic(auto, unfolding(crate::specs::Values::post_from))]
fn post_from(alloc: Global, list: &Value) -> Result<Option<Request>, AllocError>
    ensures { IfOk result (λ request. request ≡ post_from (view list.now)) }
{
    let Some(collection) = name_at(alloc, list, 1)? else {
        return Ok(None);
    };
    let Some(mode) = mode_in(list.get(2)) else {
        return Ok(None);
    };
    let Some(parts) = parts_in(alloc, list.get(3))? else {
        return Ok(None);
    };
    let Some(failed) = failures_in(alloc, list.get(4))? else {
        return Ok(None);
    };
    match cond_in(list.get(5)) {
        Some(cond) => Ok(Some(Request::Post {
            collection,
            records: Records { parts, failed },
            mode,
            cond,
        })),
        None => Ok(None),
    }
}

#[tactic(auto, unfolding(crate::specs::Values::delete_collection_from))]
fn delete_collection_from(alloc: Global, list: &Value) -> Result<Option<Request>, AllocError>
    ensures { IfOk result (λ request. request ≡ delete_collection_from (view list.now)) }
{
    let Some(collection) = name_at(alloc, list, 1)? else {
        return Ok(None);
    };
    match cond_in(list.get(2)) {
        Some(cond) => Ok(Some(Request::DeleteCollection { collection, cond })),
        None => Ok(None),
    }
}

#[tactic(auto, unfolding(crate::specs::Values::delete_ids_from))]
fn delete_ids_from(alloc: Global, list: &Value) -> Result<Option<Request>, AllocError>
    ensures { IfOk result (λ request. request ≡ delete_ids_from (view list.now)) }
{
    let Some(collection) = name_at(alloc, list, 1)? else {
        return Ok(None);
    };
    let Some(ids) = ids_in(alloc, list.get(2))? else {
        return Ok(None);
    };
    match cond_in(list.get(3)) {
        Some(cond) => Ok(Some(Request::DeleteIds {
            collection,
            ids,
            cond,
        })),
        None => Ok(None),
    }
}

#[tactic(auto, unfolding(crate::specs::Values::get_from))]
fn get_from(alloc: Global, list: &Value) -> Result<Option<Request>, AllocError>
    ensures { IfOk result (λ request. request ≡ get_from (view list.now)) }
{
    let Some(collection) = name_at(alloc, list, 1)? else {
        return Ok(None);
    };
    let Some(id) = id_at(alloc, list, 2)? else {
        return Ok(None);
    };
    match cond_in(list.get(3)) {
        Some(cond) => Ok(Some(Request::Get {
            collection,
            id,
            cond,
        })),
        None => Ok(None),
    }
}

#[tactic(auto, unfolding(crate::specs::Values::put_from))]
fn put_from(alloc: Global, list: &Value) -> Result<Option<Request>, AllocError>
    ensures { IfOk result (λ request. request ≡ put_from (view list.now)) }
{
    let Some(collection) = name_at(alloc, list, 1)? else {
        return Ok(None);
    };
    let Some(id) = id_at(alloc, list, 2)? else {
        return Ok(None);
    };
    let Some(fields) = fields_in(alloc, list.get(3))? else {
        return Ok(None);
    };
    match cond_in(list.get(4)) {
        Some(cond) => Ok(Some(Request::Put {
            collection,
            id,
            fields,
            cond,
        })),
        None => Ok(None),
    }
}

#[tactic(auto, unfolding(crate::specs::Values::delete_from))]
fn delete_from(alloc: Global, list: &Value) -> Result<Option<Request>, AllocError>
    ensures { IfOk result (λ request. request ≡ delete_from (view list.now)) }
{
    let Some(collection) = name_at(alloc, list, 1)? else {
        return Ok(None);
    };
    let Some(id) = id_at(alloc, list, 2)? else {
        return Ok(None);
    };
    match cond_in(list.get(3)) {
        Some(cond) => Ok(Some(Request::Delete {
            collection,
            id,
            cond,
        })),
        None => Ok(None),
    }
}

/// The kinds of requests, by their first words.
#[derive(Clone, Copy)]
pub(crate) enum Kind {
    Info,
    DeleteAll,
    List,
    Post,
    DeleteCollection,
    DeleteIds,
    Get,
    Put,
    Delete,
}

fn kind_of(word: &str) -> Option<Kind>
    ensures { result ≡ kind_of word.now }
{
    match word {
        "info" => Some(Kind::Info),
        "deleteall" => Some(Kind::DeleteAll),
        "list" => Some(Kind::List),
        "post" => Some(Kind::Post),
        "drop" => Some(Kind::DeleteCollection),
        "dropids" => Some(Kind::DeleteIds),
        "get" => Some(Kind::Get),
        "put" => Some(Kind::Put),
        "delete" => Some(Kind::Delete),
        _ => None,
    }
}

/// The kind of request that a list is.
fn kind_in(list: &Value) -> Option<Kind>
    ensures { result ≡ option_and_then kind_of (text_at 0 (view list.now)) }
{
    kind_of(text_at(list, 0)?)
}

fn of_kind(alloc: Global, kind: Kind, list: &Value) -> Result<Option<Request>, AllocError>
    ensures { IfOk result (λ request. request ≡ of_kind kind (view list.now)) }
{
    match kind {
        Kind::Info => Ok(info_from(list)),
        Kind::DeleteAll => Ok(delete_all_from(list)),
        Kind::List => list_from(alloc, list),
        Kind::Post => post_from(alloc, list),
        Kind::DeleteCollection => delete_collection_from(alloc, list),
        Kind::DeleteIds => delete_ids_from(alloc, list),
        Kind::Get => get_from(alloc, list),
        Kind::Put => put_from(alloc, list),
        Kind::Delete => delete_from(alloc, list),
    }
}

#[tactic(auto, unfolding(crate::specs::Values::request_from))]
fn request_from(alloc: Global, list: &Value) -> Result<Option<Request>, AllocError>
    ensures { IfOk result (λ request. request ≡ request_from (view list.now)) }
{
    match kind_in(list) {
        Some(kind) => of_kind(alloc, kind, list),
        None => Ok(None),
    }
}

/// The request that a value says; perhaps it isn't written so.
pub(crate) fn request_in(
    alloc: Global,
    value: Option<&Value>,
) -> Result<Option<Request>, AllocError>
    ensures { IfOk result (λ request. request ≡ option_and_then request_from
        (option_map (λ v. view v.now) value.entry)) }
{
    match value {
        Some(list) => request_from(alloc, list),
        None => Ok(None),
    }
}
