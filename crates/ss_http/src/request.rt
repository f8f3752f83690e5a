//! The bytes of a request that a client sends.

ghost use Rattle.std.specs.Prelude.{◌≡◌, ◌++◌, codes, option_map, IfOk, OnOk, OnErr};
ghost use Rattle.ss_http.specs.Fields.{field_if, lines};
ghost use Rattle.ss_http.specs.Requests.{body_bytes, cond_fields, content_fields, request_fields, request_line};
ghost use Rattle.ss_http.specs.Requests.{request_text};

use crate::lines::{push_line, push_number_line, push_stamp_line, push_text};
use ss_text::{Cond, Stamp};
use std::alloc::{AllocError, Global};

fn push_request_line(out: &mut Vec<u8>, method: &str, target: &str) -> Result<(), AllocError>
    ensures { OnOk result (out.new.items ≡ out.old.items ++ request_line method.now target.now) }
{
    push_text(out, method)?;
    push_text(out, " ")?;
    push_text(out, target)?;
    push_text(out, " HTTP/1.1\r\n")
}

#[tactic(auto, unfolding(crate::specs::Fields::lines))]
fn push_cond(out: &mut Vec<u8>, cond: &Cond) -> Result<(), AllocError>
    ensures { OnOk result (out.new.items ≡ out.old.items ++ lines (cond_fields cond.now)) }
{
    match cond {
        Cond::Free => Ok(()),
        Cond::IfModified(since) => push_stamp_line(out, "X-If-Modified-Since", Some(*since)),
        Cond::IfUnmodified(since) => push_stamp_line(out, "X-If-Unmodified-Since", Some(*since)),
        Cond::IfAbsent => push_stamp_line(out, "X-If-Unmodified-Since", Some(Stamp::clamp(0))),
    }
}

#[tactic(auto, unfolding(crate::specs::Fields::lines))]
fn push_content(out: &mut Vec<u8>, body: Option<&[u8]>) -> Result<(), AllocError>
    ensures { OnOk result (out.new.items ≡ out.old.items ++ lines (content_fields
        (option_map (λ body. body.now) body.entry))) }
{
    match body {
        None => Ok(()),
        Some(body) => {
            push_line(out, "Content-Type", "application/json")?;
            push_number_line(out, "Content-Length", Some(body.len() as u64))
        }
    }
}

fn push_fields(
    out: &mut Vec<u8>,
    host: &str,
    cond: &Cond,
    body: Option<&[u8]>,
) -> Result<(), AllocError>
    ensures { OnOk result (out.new.items ≡ out.old.items ++ lines (request_fields host.now cond.now
        (option_map (λ body. body.now) body.entry))) }
{
    push_line(out, "Host", host)?;
    push_cond(out, cond)?;
    push_content(out, body)?;
    Ok(())
}

/// The lines before the body.
fn head_lines(
    alloc: Global,
    method: &str,
    target: &str,
    host: &str,
    cond: &Cond,
    body: Option<&[u8]>,
) -> Result<Vec<u8>, AllocError>
    ensures { IfOk result (λ head. head.items ≡ request_line method.now target.now
        ++ lines (request_fields host.now cond.now (option_map (λ body. body.now) body.entry)) ++ codes "\r\n") }
{
    let mut head = Vec::with_capacity(alloc, 512)?;
    push_request_line(&mut head, method, target)?;
    push_fields(&mut head, host, cond, body)?;
    push_text(&mut head, "\r\n")?;
    Ok(head)
}

/// Appends a request: its first line, `Host`, the condition's field, the type and length of a body, an empty line and
/// the body. Without memory for it `out` stays as it was. A server reads it as a message where the method is a token,
/// the target is UTF-8 without blanks, the host has visible bytes alone, and each and the body are within their limits.
#[tactic(auto, unfolding(crate::specs::Requests::request_text))]
pub fn push_request(
    alloc: Global,
    out: &mut Vec<u8>,
    method: &str,
    target: &str,
    host: &str,
    cond: &Cond,
    body: Option<&[u8]>,
) -> Result<(), AllocError>
    ensures ok { OnOk result (out.new.items ≡ out.old.items
        ++ request_text method.now target.now host.now cond.now (option_map (λ body. body.now) body.entry)) }
    ensures err { OnErr result (out.new.items ≡ out.old.items) }
{
    let head = head_lines(alloc, method, target, host, cond, body)?;
    let bytes = body.unwrap_or(&[]);
    out.reserve(head.len() + bytes.len())?;
    out.extend_from_slice(head.as_slice())?;
    out.extend_from_slice(bytes)
}
