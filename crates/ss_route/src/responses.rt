//! Responses.

ghost use Rattle.std.specs.Prelude.{◌≡◌, ◌++◌, IfOk, OnOk, option_map, decimal};
ghost use Rattle.ss_http.specs.Responses.{response};
ghost use Rattle.ss_route.specs.Wire.{is_list, content, head_of, wire, local_head, local_wire, heard_of, not_listed};
ghost use Rattle.ss_route.specs.Wire.{refusal_of};

use crate::routed::{Local, said};
use crate::texts::put_body;
use itoa::Buffer;
use ss_http::{Heard, MsgFault, ResponseHead, into_response};
use ss_query::{Body, Reply, Said};
use ss_text::{Bytes, Stamp};
use std::alloc::{AllocError, Global};

fn is_list(body: &Body) -> bool
    ensures { result ≡ is_list body.now }
{
    matches!(body, Body::Ids(_) | Body::Rows(_))
}

/// The body of a response with this status; a 304 has none.
fn put_content(
    alloc: Global,
    out: &mut Vec<u8>,
    status: u16,
    newlines: bool,
    body: &Body,
) -> Result<(), AllocError>
    ensures { OnOk result (out.new.items ≡ out.old.items ++ (content status newlines body.now)) }
{
    if status == 304 {
        return Ok(());
    }
    put_body(alloc, out, newlines, body)
}

/// The body of a response with this status.
fn content_of(
    alloc: Global,
    status: u16,
    newlines: bool,
    body: &Body,
) -> Result<Vec<u8>, AllocError>
    ensures { IfOk result (λ bytes. bytes.items ≡ content status newlines body.now) }
{
    let mut out = Vec::new(alloc);
    put_content(alloc, &mut out, status, newlines, body)?;
    Ok(out)
}

/// The response with this head. Its body is written first, once, so that the head can say how long it is.
fn respond(
    alloc: Global,
    head: &ResponseHead,
    newlines: bool,
    body: &Body,
) -> Result<Vec<u8>, AllocError>
    ensures { IfOk result (λ bytes. bytes.items ≡ response head.now (content head.now.status newlines body.now)) }
{
    let content = content_of(alloc, head.status, newlines, body)?;
    into_response(alloc, head, content)
}

fn head_of(reply: &Reply, newlines: bool, last: bool) -> ResponseHead
    ensures { result ≡ head_of reply.now newlines last }
{
    ResponseHead {
        status: reply.status,
        moment: reply.moment,
        modified: reply.modified,
        count: reply.count,
        next: reply.next,
        allow: None,
        newlines: newlines && is_list(&reply.body),
        last,
    }
}

/// The response to a reply; `newlines` is the form that lists are asked in, `last` closes the connection (SyncStorage
/// API 1.5).
pub fn render(
    alloc: Global,
    reply: &Reply,
    newlines: bool,
    last: bool,
) -> Result<Vec<u8>, AllocError>
    ensures { IfOk result (λ bytes. bytes.items ≡ wire reply.now newlines last) }
{
    respond(
        alloc,
        &head_of(reply, newlines, last),
        newlines,
        &reply.body,
    )
}

fn copy_of(alloc: Global, allow: &Option<Bytes>) -> Result<Option<Bytes>, AllocError>
    ensures { IfOk result (λ copied. copied ≡ allow.now) }
{
    match allow {
        Some(methods) => Ok(Some(methods.copy(alloc)?)),
        None => Ok(None),
    }
}

fn local_head(
    alloc: Global,
    local: &Local,
    moment: Stamp,
    last: bool,
) -> Result<ResponseHead, AllocError>
    ensures { IfOk result (λ head. head ≡ local_head local.now moment last) }
{
    Ok(ResponseHead {
        status: local.status,
        moment,
        modified: None,
        count: None,
        next: None,
        allow: copy_of(alloc, &local.allow)?,
        newlines: false,
        last,
    })
}

/// The response to a message that no account is asked for.
pub fn render_local(
    alloc: Global,
    local: &Local,
    moment: Stamp,
    last: bool,
) -> Result<Vec<u8>, AllocError>
    ensures { IfOk result (λ bytes. bytes.items ≡ local_wire local.now moment last) }
{
    let head = local_head(alloc, local, moment, last)?;
    respond(alloc, &head, false, &local.body)
}

/// The decimal text of a number, where there is one.
fn text_of(alloc: Global, number: Option<u64>) -> Result<Option<Bytes>, AllocError>
    ensures { IfOk result (λ text. text ≡ option_map decimal number) }
{
    match number {
        Some(number) => {
            let mut buffer = Buffer::new();
            let digits = buffer.format(number).as_bytes();
            Ok(Some(Bytes::from_slice(alloc, digits)?))
        }
        None => Ok(None),
    }
}

/// What a client hears of a reply.
pub fn heard_of(
    alloc: Global,
    reply: &Reply,
    newlines: bool,
    last: bool,
) -> Result<Heard, AllocError>
    ensures { IfOk result (λ heard. heard ≡ heard_of reply.now newlines last) }
{
    let content = content_of(alloc, reply.status, newlines, &reply.body)?;
    Ok(Heard {
        status: reply.status,
        modified: reply.modified,
        next: text_of(alloc, reply.next)?,
        body: Bytes::new(content),
        last,
    })
}

/// What a message is told whose account isn't listed.
pub fn not_listed() -> Local
    ensures { result ≡ not_listed }
{
    said(401, Said::Account)
}

/// What is told where bytes are no message; nothing where the input ended or failed, or memory did.
pub fn refused(fault: MsgFault) -> Option<Local>
    ensures { result ≡ refusal_of fault }
{
    match fault {
        MsgFault::BadHead | MsgFault::HeadTooLong => Some(said(400, Said::Head)),
        MsgFault::Coded => Some(said(411, Said::Length)),
        MsgFault::BadLength => Some(said(400, Said::Length)),
        MsgFault::TooLarge { .. } => Some(said(413, Said::Size)),
        MsgFault::End | MsgFault::Cut | MsgFault::ReadFault | MsgFault::Memory => None,
    }
}
