//! The head of a message.

ghost use Rattle.std.specs.Prelude.{◌≡◌, ◌≤◌, length, map, All, IfOk};
ghost use Rattle.httparse.specs.Spans.{IsHeaderWithin, IsRequestWithin, IsRequestOf, header_bytes};
ghost use Rattle.ss_http.specs.Heads.{Finds};

use crate::fault::MsgFault;
use crate::fields::{announced, ends, find};
use crate::limits::{BODY_ROOM, HEAD_ROOM, MOST_FIELDS};
use crate::message::FieldLines;
use httparse::Status;
use httparse::spans::{EMPTY_HEADER_SPAN, HeaderSpan, RequestSpans, parse_request};
use ss_text::Bytes;
use std::alloc::{AllocError, Global};

/// The parts of a head, the number of its bytes and of those of its body.
#[derive(Drop, Debug)]
pub struct Head {
    pub method: Bytes,
    pub target: Bytes,
    pub fields: FieldLines,
    pub last: bool,
    pub size: usize,
    pub body: usize,
}

/// What stands at the front of the kept bytes.
#[derive(Drop, Debug)]
pub enum Found {
    /// A head that a message may have.
    Whole(Head),

    /// The beginning of a head.
    Unfinished,

    /// Nothing that a message may begin with.
    Refused(MsgFault),
}

/// A copy of the fields.
pub(crate) fn fields_at(
    alloc: Global,
    buf: &[u8],
    headers: &[HeaderSpan],
) -> Result<FieldLines, AllocError>
    requires { All (IsHeaderWithin (length buf.now)) headers.now }
    ensures { IfOk result (λ fields. fields ≡ map (header_bytes buf.now) headers.now) }
{
    let mut lines = Vec::with_capacity(alloc, headers.len())?;
    for header in headers {
        let name = Bytes::from_slice(alloc, header.name.of(buf))?;
        let value = Bytes::from_slice(alloc, header.value.of(buf))?;
        lines.push((name, value))?;
    }
    Ok(FieldLines::new(lines))
}

/// A head that was parsed: its copy, or why no message has it.
fn head_of(
    alloc: Global,
    buf: &[u8],
    headers: &[HeaderSpan],
    spans: RequestSpans,
) -> Result<Found, AllocError>
    requires within { IsRequestWithin buf.now headers.now spans }
    requires found { IsRequestOf buf.now headers.now spans }
    requires room { length buf.now ≤ HEAD_ROOM }
    requires count { length headers.now ≤ MOST_FIELDS }
    ensures { IfOk result (λ found. Finds found buf.now) }
{
    let fields = &headers[..spans.headers];
    if find(buf, fields, "Transfer-Encoding").is_some() {
        return Ok(Found::Refused(MsgFault::Coded));
    }
    let body = match announced(buf, fields) {
        Some(body) => body,
        None => return Ok(Found::Refused(MsgFault::BadLength)),
    };
    if body > BODY_ROOM {
        return Ok(Found::Refused(MsgFault::TooLarge { n: body }));
    }
    Ok(Found::Whole(Head {
        method: Bytes::from_slice(alloc, spans.method.of(buf))?,
        target: Bytes::from_slice(alloc, spans.path.of(buf))?,
        fields: fields_at(alloc, buf, fields)?,
        last: ends(buf, fields, spans.version),
        size: spans.len,
        body: body as usize,
    }))
}

/// Looks for a head at the front of the bytes.
pub fn find_head(alloc: Global, buf: &[u8]) -> Result<Found, AllocError>
    ensures { IfOk result (λ found. Finds found buf.now) }
{
    let front = &buf[..buf.len().min(HEAD_ROOM)];
    let mut headers = [EMPTY_HEADER_SPAN; MOST_FIELDS];
    match parse_request(front, &mut headers) {
        Ok(Status::Complete(spans)) => head_of(alloc, front, &headers, spans),
        Ok(Status::Partial) => {
            if buf.len() < HEAD_ROOM {
                Ok(Found::Unfinished)
            } else {
                Ok(Found::Refused(MsgFault::HeadTooLong))
            }
        }
        Err(_) => Ok(Found::Refused(MsgFault::BadHead)),
    }
}
