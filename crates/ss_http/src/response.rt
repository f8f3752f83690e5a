//! The bytes of a response.

ghost use Rattle.std.specs.Prelude.{◌≡◌, ◌++◌, Some, None, codes, decimal, option_map, if◌then◌else◌, IfOk, OnOk};
ghost use Rattle.std.specs.Prelude.{OnErr};
ghost use Rattle.ss_http.specs.Fields.{field_if, lines};
ghost use Rattle.ss_http.specs.Responses.{body_fields, fields, head_text, reason_of, response, status_line, type_of};
ghost use Rattle.ss_text.specs.Time.{stamp_text};

use crate::lines::{
    begin_line, push_line, push_number, push_number_line, push_stamp_line, push_text,
};
use ss_text::{Bytes, Stamp};
use std::alloc::{AllocError, Global};

/// What the head of a response says, besides the length of its body (SyncStorage API 1.5).
#[derive(Drop, Debug)]
pub struct ResponseHead {
    pub status: u16,

    /// `X-Weave-Timestamp`: the account's moment.
    pub moment: Stamp,

    /// `X-Last-Modified`: the target's time, or the write's.
    pub modified: Option<Stamp>,

    /// `X-Weave-Records`: how many items a list has.
    pub count: Option<u64>,

    /// `X-Weave-Next-Offset`: where the next page of a list begins.
    pub next: Option<u64>,

    /// `Allow`: the methods that a 405 names.
    pub allow: Option<Bytes>,

    /// Whether the body is an element a line.
    pub newlines: bool,

    /// Whether the connection ends with this response.
    pub last: bool,
}

fn reason(status: u16) -> &'static str
    ensures { result.now ≡ reason_of status }
{
    match status {
        200 => "OK",
        202 => "Accepted",
        304 => "Not Modified",
        400 => "Bad Request",
        401 => "Unauthorized",
        403 => "Forbidden",
        404 => "Not Found",
        405 => "Method Not Allowed",
        411 => "Length Required",
        412 => "Precondition Failed",
        413 => "Content Too Large",
        415 => "Unsupported Media Type",
        503 => "Service Unavailable",
        507 => "Insufficient Storage",
        _ => "",
    }
}

#[tactic(auto, unfolding(crate::specs::Fields::lines))]
fn push_allow(out: &mut Vec<u8>, allow: &Option<Bytes>) -> Result<(), AllocError>
    ensures { OnOk result (out.new.items ≡ out.old.items ++ lines (field_if (codes "Allow") allow.now)) }
{
    match allow {
        None => Ok(()),
        Some(methods) => {
            begin_line(out, "Allow")?;
            out.extend_from_slice(methods.as_slice())?;
            push_text(out, "\r\n")
        }
    }
}

fn type_text(newlines: bool) -> &'static str
    ensures { result.now ≡ type_of newlines }
{
    if newlines {
        "application/newlines"
    } else {
        "application/json"
    }
}

#[tactic(auto, unfolding(crate::specs::Fields::lines))]
fn push_body_fields(out: &mut Vec<u8>, head: &ResponseHead, size: usize) -> Result<(), AllocError>
    ensures { OnOk result (out.new.items ≡ out.old.items ++ lines (body_fields head.now size)) }
{
    if head.status == 304 {
        return Ok(());
    }
    push_line(out, "Content-Type", type_text(head.newlines))?;
    push_number_line(out, "Content-Length", Some(size as u64))?;
    Ok(())
}

#[tactic(auto, unfolding(crate::specs::Fields::lines))]
fn push_connection(out: &mut Vec<u8>, last: bool) -> Result<(), AllocError>
    ensures { OnOk result (out.new.items ≡ out.old.items ++ lines (field_if (codes "Connection")
        (if last then Some (codes "close") else None))) }
{
    if last {
        push_line(out, "Connection", "close")
    } else {
        Ok(())
    }
}

fn push_fields(out: &mut Vec<u8>, head: &ResponseHead, size: usize) -> Result<(), AllocError>
    ensures { OnOk result (out.new.items ≡ out.old.items ++ lines (fields head.now size)) }
{
    push_stamp_line(out, "X-Weave-Timestamp", Some(head.moment))?;
    push_stamp_line(out, "X-Last-Modified", head.modified)?;
    push_number_line(out, "X-Weave-Records", head.count)?;
    push_number_line(out, "X-Weave-Next-Offset", head.next)?;
    push_allow(out, &head.allow)?;
    push_body_fields(out, head, size)?;
    push_connection(out, head.last)?;
    Ok(())
}

fn push_status_line(out: &mut Vec<u8>, status: u16) -> Result<(), AllocError>
    ensures { OnOk result (out.new.items ≡ out.old.items ++ status_line status) }
{
    push_text(out, "HTTP/1.1 ")?;
    push_number(out, u64::from(status))?;
    push_text(out, " ")?;
    push_text(out, reason(status))?;
    push_text(out, "\r\n")
}

/// The lines before a body of this size.
#[tactic(auto, unfolding(crate::specs::Responses::head_text))]
fn head_lines(alloc: Global, head: &ResponseHead, size: usize) -> Result<Vec<u8>, AllocError>
    ensures { IfOk result (λ lines. lines.items ≡ head_text head.now size) }
{
    let mut out = Vec::with_capacity(alloc, 256)?;
    push_status_line(&mut out, head.status)?;
    push_fields(&mut out, head, size)?;
    push_text(&mut out, "\r\n")?;
    Ok(out)
}

/// The response with this head and body. The head is put before the body where that lies, so that a body isn't copied
/// where there is room behind it.
pub fn into_response(
    alloc: Global,
    head: &ResponseHead,
    mut body: Vec<u8>,
) -> Result<Vec<u8>, AllocError>
    ensures { IfOk result (λ bytes. bytes.items ≡ response head.now body.items) }
{
    let size = body.len();
    let lines = head_lines(alloc, head, size)?;
    drop(body.splice(..0, lines)?);
    Ok(body)
}

/// Appends a response with this head and body. Without memory for it `out` stays as it was.
pub fn push_response(
    alloc: Global,
    out: &mut Vec<u8>,
    head: &ResponseHead,
    body: &[u8],
) -> Result<(), AllocError>
    ensures ok { OnOk result (out.new.items ≡ out.old.items ++ response head.now body.now) }
    ensures err { OnErr result (out.new.items ≡ out.old.items) }
{
    let lines = head_lines(alloc, head, body.len())?;
    out.reserve(lines.len() + body.len())?;
    out.extend_from_slice(lines.as_slice())?;
    out.extend_from_slice(body)
}
