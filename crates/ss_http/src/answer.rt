//! The head of a response.

ghost use Rattle.std.specs.Prelude.{◌≡◌, ◌≤◌, length, map, codes, option_and_then, All, IfOk};
ghost use Rattle.httparse.specs.Spans.{IsHeaderWithin, IsResponseOf, IsResponseWithin, header_bytes};
ghost use Rattle.ss_text.specs.Time.{stamp_of};
ghost use Rattle.ss_http.specs.Fields.{first_named};
ghost use Rattle.ss_http.specs.Hearing.{size_of};
ghost use Rattle.ss_http.specs.Listening.{Looks};

use crate::fields::{ends, find};
use crate::heard::HeardFault;
use crate::limits::{HEAD_ROOM, HEARD_ROOM, LENGTH_DIGITS, MOST_FIELDS};
use httparse::Status;
use httparse::spans::{EMPTY_HEADER_SPAN, HeaderSpan, ResponseSpans, parse_response};
use ss_text::{Bytes, Stamp, read_number, read_stamp};
use std::alloc::{AllocError, Global};

/// What a head says, and how many bytes its body has.
#[derive(Drop, Debug)]
pub struct Answer {
    pub status: u16,
    pub modified: Option<Stamp>,
    pub next: Option<Bytes>,
    pub last: bool,
    pub size: usize,
}

/// What stands at the front of the bytes.
#[derive(Drop, Debug)]
pub enum Looked {
    /// A head.
    Whole(Answer),

    /// The beginning of a head.
    Unfinished,

    /// Nothing that a response may begin with.
    Refused(HeardFault),
}

/// How many bytes the body has.
fn size_in(buf: &[u8], headers: &[HeaderSpan], status: u16) -> Option<u64>
    requires { All (IsHeaderWithin (length buf.now)) headers.now }
    ensures { result ≡ size_of status (map (header_bytes buf.now) headers.now) }
{
    if status == 304 {
        return Some(0);
    }
    match find(buf, headers, "Content-Length") {
        Some(span) => read_number(span.of(buf), LENGTH_DIGITS),
        None => None,
    }
}

fn modified_in(buf: &[u8], headers: &[HeaderSpan]) -> Option<Stamp>
    requires { All (IsHeaderWithin (length buf.now)) headers.now }
    ensures { result ≡ option_and_then stamp_of (first_named (codes "X-Last-Modified")
        (map (header_bytes buf.now) headers.now)) }
{
    match find(buf, headers, "X-Last-Modified") {
        Some(span) => read_stamp(span.of(buf)),
        None => None,
    }
}

fn next_in(alloc: Global, buf: &[u8], headers: &[HeaderSpan]) -> Result<Option<Bytes>, AllocError>
    requires { All (IsHeaderWithin (length buf.now)) headers.now }
    ensures { IfOk result (λ next. next ≡ first_named (codes "X-Weave-Next-Offset")
        (map (header_bytes buf.now) headers.now)) }
{
    match find(buf, headers, "X-Weave-Next-Offset") {
        Some(span) => Ok(Some(Bytes::from_slice(alloc, span.of(buf))?)),
        None => Ok(None),
    }
}

/// A head that was parsed: what it says, or why it isn't read.
fn answer_of(
    alloc: Global,
    buf: &[u8],
    headers: &[HeaderSpan],
    spans: ResponseSpans,
) -> Result<Looked, AllocError>
    requires within { IsResponseWithin buf.now headers.now spans }
    requires found { IsResponseOf buf.now headers.now spans }
    requires room { length buf.now ≤ HEAD_ROOM }
    requires count { length headers.now ≤ MOST_FIELDS }
    ensures { IfOk result (λ looked. Looks looked buf.now) }
{
    let fields = &headers[..spans.headers];
    if find(buf, fields, "Transfer-Encoding").is_some() {
        return Ok(Looked::Refused(HeardFault::Bad));
    }
    let size = match size_in(buf, fields, spans.code) {
        Some(size) => size,
        None => return Ok(Looked::Refused(HeardFault::Bad)),
    };
    if size > HEARD_ROOM {
        return Ok(Looked::Refused(HeardFault::TooLarge { n: size }));
    }
    Ok(Looked::Whole(Answer {
        status: spans.code,
        modified: modified_in(buf, fields),
        next: next_in(alloc, buf, fields)?,
        last: ends(buf, fields, spans.version),
        size: size as usize,
    }))
}

/// Looks for a head at the front of the bytes.
pub fn look(alloc: Global, buf: &[u8]) -> Result<Looked, AllocError>
    requires { length buf.now ≤ HEAD_ROOM }
    ensures { IfOk result (λ looked. Looks looked buf.now) }
{
    let mut headers = [EMPTY_HEADER_SPAN; MOST_FIELDS];
    match parse_response(buf, &mut headers) {
        Ok(Status::Complete(spans)) => answer_of(alloc, buf, &headers, spans),
        Ok(Status::Partial) => {
            if buf.len() < HEAD_ROOM {
                Ok(Looked::Unfinished)
            } else {
                Ok(Looked::Refused(HeardFault::Bad))
            }
        }
        Err(_) => Ok(Looked::Refused(HeardFault::Bad)),
    }
}
