//! The requests that a sync client sends.

ghost use Rattle.std.specs.Prelude.{◌≡◌, ◌++◌, IfOk, OnOk, option_map, codes, decimal, string_bytes};
ghost use Rattle.ss_query.specs.Fit.{IsFitRequest};
ghost use Rattle.ss_query.specs.Refused.{condition_of};
ghost use Rattle.ss_text.specs.Time.{stamp_text};
ghost use Rattle.ss_route.specs.Posts.{token};
ghost use Rattle.ss_route.specs.Sending.{IsSentRequest, IsHost, method_of, account_path, offset_text, newer_text};
ghost use Rattle.ss_route.specs.Sending.{listed_text};
ghost use Rattle.ss_route.specs.Sending.{mode_text, target_of, upload_text, uploads_text, body_sent};
ghost use Rattle.ss_bso.specs.Put.{payload_set};
ghost use Rattle.ss_route.specs.Sending.{request_sent};

use crate::scalars::{put, put_json};
use crate::texts::{Element, put_list, token};
use ss_bso::{Field, Part, Parts};
use ss_http::push_request;
use ss_query::{Mode, Query, Request};
use ss_text::{Cond, Stamp, Word};
use std::alloc::{AllocError, Global};

fn payload_set(payload: &Field<Word>) -> &str
    ensures { result.now ≡ payload_set payload.now }
{
    match payload {
        Field::Set(text) => text.as_str(),
        Field::Keep | Field::Clear => "",
    }
}

impl Element for Part {
    ghost text = { upload_text };

    #[tactic(auto, using(crate::proofs::Appending::append_append), unfolding(crate::specs::Sending::upload_text))]
    fn write(&self, out: &mut Vec<u8>) -> Result<(), AllocError> {
        put(out, b"{\"id\":")?;
        put_json(out, self.id.as_str())?;
        put(out, b",\"payload\":")?;
        put_json(out, payload_set(&self.fields.payload))?;
        put(out, b"}")
    }
}

/// The body of a POST.
fn uploads_text(alloc: Global, parts: &Parts) -> Result<Vec<u8>, AllocError>
    ensures { IfOk result (λ text. text.items ≡ uploads_text parts.now) }
{
    let mut out = Vec::new(alloc);
    put_list(&mut out, parts.as_slice())?;
    Ok(out)
}

/// Where the targets of an account begin.
#[tactic(auto, unfolding(crate::specs::Sending::account_path))]
fn account_path(alloc: Global, uid: u32) -> Result<String, AllocError>
    ensures { IfOk result (λ text. string_bytes text ≡ account_path uid) }
{
    format!(in alloc; "/1.5/{uid}")
}

/// The offset of a later page.
fn push_offset(alloc: Global, target: &mut String, offset: u32) -> Result<(), AllocError>
    ensures { OnOk result (string_bytes target.new ≡ string_bytes target.old ++ (codes "&offset=" ++ decimal offset)) }
{
    let text = format!(in alloc; "&offset={offset}")?;
    target.push_str(text.as_str())
}

fn push_page(
    alloc: Global,
    target: &mut String,
    query: &Query,
    cond: Cond,
) -> Result<(), AllocError>
    ensures { OnOk result (string_bytes target.new ≡ string_bytes target.old ++ offset_text query.now.offset cond) }
{
    match cond {
        Cond::IfUnmodified(_) => push_offset(alloc, target, query.offset),
        Cond::Free | Cond::IfModified(_) | Cond::IfAbsent => Ok(()),
    }
}

/// The parameter of a page of newer records.
fn since_text(alloc: Global, since: Stamp) -> Result<String, AllocError>
    ensures { IfOk result (λ text. string_bytes text ≡ codes "&newer=" ++ stamp_text since) }
{
    let (seconds, rest) = (since.get() / 100, since.get() % 100);
    format!(in alloc; "&newer={seconds}.{}{}", rest / 10, rest % 10)
}

fn push_newer(alloc: Global, target: &mut String, newer: Option<Stamp>) -> Result<(), AllocError>
    ensures { OnOk result (string_bytes target.new ≡ string_bytes target.old ++ newer_text newer) }
{
    match newer {
        Some(since) => target.push_str(since_text(alloc, since)?.as_str()),
        None => Ok(()),
    }
}

/// What the target of a list says behind the account.
#[tactic(auto, using(crate::proofs::Appending::append_append))]
fn push_listed(
    alloc: Global,
    target: &mut String,
    query: &Query,
    cond: Cond,
) -> Result<(), AllocError>
    ensures { OnOk result (string_bytes target.new ≡ string_bytes target.old ++ listed_text query.now cond) }
{
    if !query.full {
        return target.push_str("/storage/bookmarks");
    }
    target.push_str("/storage/bookmarks?full=1&sort=oldest&limit=1000")?;
    push_newer(alloc, target, query.newer)?;
    push_page(alloc, target, query, cond)
}

fn push_batch(alloc: Global, target: &mut String, batch: u64) -> Result<(), AllocError>
    ensures { OnOk result (string_bytes target.new ≡ string_bytes target.old ++ (codes "?batch=" ++ token batch)) }
{
    let token = token(alloc, batch)?;
    target.push_str("?batch=")?;
    target.push_str(token.as_str())
}

fn push_commit(alloc: Global, target: &mut String, batch: u64) -> Result<(), AllocError>
    ensures { OnOk result (string_bytes target.new ≡ string_bytes target.old
        ++ (codes "?batch=" ++ token batch ++ codes "&commit=true")) }
{
    push_batch(alloc, target, batch)?;
    target.push_str("&commit=true")?;
    Ok(())
}

fn push_mode(alloc: Global, target: &mut String, mode: Mode) -> Result<(), AllocError>
    ensures { OnOk result (string_bytes target.new ≡ string_bytes target.old ++ mode_text mode) }
{
    match mode {
        Mode::Plain => Ok(()),
        Mode::Begin => target.push_str("?batch=true"),
        Mode::Append { batch } => push_batch(alloc, target, batch),
        Mode::Commit { batch } => push_commit(alloc, target, batch),
    }
}

/// The target of a request.
#[tactic(auto, unfolding(crate::specs::Sending::target_of))]
fn target_of(alloc: Global, uid: u32, request: &Request) -> Result<String, AllocError>
    requires { IsSentRequest request.now }
    ensures { IfOk result (λ text. string_bytes text ≡ target_of uid request.now) }
{
    let mut target = account_path(alloc, uid)?;
    match request {
        Request::Info { .. } => {
            target.push_str("/info/configuration")?;
        }
        Request::List { query, cond, .. } => {
            push_listed(alloc, &mut target, query, *cond)?;
        }
        Request::Post { mode, .. } => {
            target.push_str("/storage/bookmarks")?;
            push_mode(alloc, &mut target, *mode)?;
        }
        _ => unreachable!(),
    }
    Ok(target)
}

fn method_of(request: &Request) -> &'static str
    ensures { result.now ≡ method_of request.now }
{
    match request {
        Request::Post { .. } => "POST",
        _ => "GET",
    }
}

fn body_sent(alloc: Global, request: &Request) -> Result<Option<Vec<u8>>, AllocError>
    ensures { IfOk result (λ body. option_map (λ bytes. bytes.items) body ≡ body_sent request.now) }
{
    match request {
        Request::Post { records, .. } => Ok(Some(uploads_text(alloc, &records.parts)?)),
        _ => Ok(None),
    }
}

fn condition_of(request: &Request) -> Cond
    requires { IsSentRequest request.now }
    ensures { result ≡ condition_of request.now }
{
    match request {
        Request::Info { cond, .. } | Request::List { cond, .. } | Request::Post { cond, .. } => {
            *cond
        }
        _ => unreachable!(),
    }
}

/// The bytes of a request: for the limits of the server, for a page of the bookmarks, all or those newer than a time,
/// for the list of their ids, or to upload bookmarks.
pub fn write_request(
    alloc: Global,
    uid: u32,
    host: &str,
    request: &Request,
) -> Result<Vec<u8>, AllocError>
    requires sent { IsSentRequest request.now }
    requires fit { IsFitRequest request.now }
    requires host { IsHost host.now }
    ensures text { IfOk result (λ bytes. bytes.items ≡ request_sent uid host.now request.now) }
{
    let target = target_of(alloc, uid, request)?;
    let body = body_sent(alloc, request)?;
    let body = match &body {
        Some(bytes) => Some(bytes.as_slice()),
        None => None,
    };
    let mut out = Vec::new(alloc);
    push_request(
        alloc,
        &mut out,
        method_of(request),
        target.as_str(),
        host,
        &condition_of(request),
        body,
    )?;
    Ok(out)
}
