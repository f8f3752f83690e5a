//! What the types of a line's values say of them.

ghost use Rattle.std.specs.Prelude.{◌≡◌, ◌≤◌, ◌<◌, ◌^◌, FitsSigned};
ghost use Rattle.std.specs.Int.{w32};
ghost use Rattle.std.specs.List.{AllByRecursion};
ghost use Rattle.std.specs.Str.{IsUtf8};
ghost use Rattle.ss_text.specs.Time.{last_stamp};
ghost use Rattle.ss_lines.specs.Lines.{IsPart, OfField, OfOption};
ghost use Rattle.ss_log_lines.specs.LogLines.{IsEntry, IsFitLine, IsLogLine};
ghost use Rattle.ss_log_lines.specs.Requests.{AreFields, IsCond, IsFailure, IsId, IsMode, IsQuery, IsRequest, IsTime};

use crate::lines::LogLine;
use ss_bso::{Field, Fields, Part, Reason};
use ss_laws::Entry;
use ss_lines::{line_form, part_form};
use ss_query::{Mode, Query, Request};
use ss_text::{Cond, Id, Ids, Stamp, Word};

/// A time is one.
fn time_form(time: Stamp)
    ensures { time ≤ last_stamp }
{
    let _time = time.get();
}

fn cond_form(cond: Cond)
    ensures { IsCond cond }
{
    match cond {
        Cond::IfModified(since) | Cond::IfUnmodified(since) => time_form(since),
        Cond::Free | Cond::IfAbsent => {}
    }
}

fn mode_form(mode: Mode)
    ensures { IsMode mode }
{
    match mode {
        Mode::Append { batch } | Mode::Commit { batch } => {
            let _batch = batch;
        }
        Mode::Plain | Mode::Begin => {}
    }
}

fn ids_form(ids: &[Id])
    ensures { AllByRecursion IsId ids.now }
{
    for id in ids {
        let _id = id.as_str();
    }
}

fn parts_form(parts: &[Part])
    ensures { AllByRecursion IsPart parts.now }
{
    for part in parts {
        part_form(part);
    }
}

fn failure_form(failure: &(Id, Reason))
    ensures { IsFailure failure.now }
{
    let _id = failure.0.as_str();
}

fn failures_form(failures: &[(Id, Reason)])
    ensures { AllByRecursion IsFailure failures.now }
{
    for failure in failures {
        failure_form(failure);
    }
}

fn optional_ids_form(ids: &Option<Ids>)
    ensures { OfOption (AllByRecursion IsId) ids.now }
{
    if let Some(ids) = ids {
        ids_form(ids.as_slice());
    }
}

fn optional_time_form(time: Option<Stamp>)
    ensures { OfOption IsTime time }
{
    if let Some(time) = time {
        time_form(time);
    }
}

fn optional_limit_form(limit: Option<u32>)
    ensures { OfOption (λ n. n < 2 ^ 32) limit }
{
    if let Some(limit) = limit {
        let _limit = limit;
    }
}

fn query_form(query: &Query)
    ensures { IsQuery query.now }
{
    optional_ids_form(&query.ids);
    optional_time_form(query.newer);
    optional_time_form(query.older);
    optional_limit_form(query.limit);
    let _offset = query.offset;
}

fn payload_form(payload: &Field<Word>)
    ensures { OfField IsUtf8 payload.now }
{
    if let Field::Set(text) = payload {
        let _bytes = text.as_str().as_bytes();
    }
}

fn sortindex_form(sortindex: &Field<i32>)
    ensures { OfField (λ z. FitsSigned w32 z) sortindex.now }
{
    if let Field::Set(number) = sortindex {
        let _number = *number;
    }
}

fn ttl_form(ttl: &Field<u32>)
    ensures { OfField (λ n. n < 2 ^ 32) ttl.now }
{
    if let Field::Set(number) = ttl {
        let _number = *number;
    }
}

fn fields_form(id: &Id, fields: &Fields)
    ensures { AreFields id.now fields.now }
{
    let _id = id.as_str();
    payload_form(&fields.payload);
    sortindex_form(&fields.sortindex);
    ttl_form(&fields.ttl);
}

fn request_form(request: &Request)
    ensures { IsRequest request.now }
{
    match request {
        Request::Info { cond, .. } | Request::DeleteAll { cond } => cond_form(*cond),
        Request::List {
            collection,
            query,
            cond,
        } => {
            let _collection = collection.as_str();
            query_form(query);
            cond_form(*cond);
        }
        Request::Post {
            collection,
            records,
            mode,
            cond,
        } => {
            let _collection = collection.as_str();
            parts_form(records.parts.as_slice());
            failures_form(records.failed.as_slice());
            mode_form(*mode);
            cond_form(*cond);
        }
        Request::DeleteCollection { collection, cond } => {
            let _collection = collection.as_str();
            cond_form(*cond);
        }
        Request::DeleteIds {
            collection,
            ids,
            cond,
        } => {
            let _collection = collection.as_str();
            ids_form(ids.as_slice());
            cond_form(*cond);
        }
        Request::Get {
            collection,
            id,
            cond,
        }
        | Request::Delete {
            collection,
            id,
            cond,
        } => {
            let _collection = collection.as_str();
            let _id = id.as_str();
            cond_form(*cond);
        }
        Request::Put {
            collection,
            id,
            fields,
            cond,
        } => {
            let _collection = collection.as_str();
            fields_form(id, fields);
            cond_form(*cond);
        }
    }
}

/// The values of an entry have their forms.
pub fn entry_form(entry: &Entry)
    ensures { IsEntry entry.entry.now }
{
    let _ticket = entry.ticket;
    let _pass = entry.pass;
    let _now = entry.now;
    request_form(&entry.request);
}

/// Each value of a line has the form of its type.
pub fn log_line_form(line: &LogLine)
    requires fit { IsFitLine line.now }
    ensures { IsLogLine line.now }
{
    match line {
        LogLine::Log { moment, most } => {
            time_form(*moment);
            let _most = *most;
        }
        LogLine::Account(line) => line_form(line),
        LogLine::Call(entry) => entry_form(entry),
    }
}
