//! Cases of requests: `request OBJECT` tells the bytes that a client sends, and how they stand behind others. The
//! object has `method`, `target`, `host`, perhaps a condition `modified` or `unmodified` in hundredths of a second, and
//! perhaps `body`.

use crate::messages::members::{number_of, text_of};
use crate::reading::{quoted, values};
use anyhow::bail;
use serde_json::Value;
use ss_http::push_request;
use ss_text::{Cond, Stamp};
use std::alloc::Global;

/// The condition that an object tells.
fn cond_of(told: &Value) -> Cond {
    match (number_of(told, "modified"), number_of(told, "unmodified")) {
        (Some(since), _) => Cond::IfModified(Stamp::clamp(since)),
        (None, Some(since)) => Cond::IfUnmodified(Stamp::clamp(since)),
        (None, None) => Cond::Free,
    }
}

/// The bytes of the request that an object tells, behind others.
fn told_request(alloc: Global, told: &Value) -> anyhow::Result<String> {
    let mut out = Vec::from_slice(alloc, b":")?;
    let body = text_of(told, "body").map(|text| text.as_bytes());
    push_request(
        alloc,
        &mut out,
        text_of(told, "method").unwrap_or(""),
        text_of(told, "target").unwrap_or(""),
        text_of(told, "host").unwrap_or(""),
        &cond_of(told),
        body,
    )?;
    quoted(alloc, out.as_slice())
}

/// What a case tells.
pub fn request_line(alloc: Global, text: &str) -> anyhow::Result<String> {
    match values(alloc, text)?.get(0) {
        Some(request) => told_request(alloc, request),
        None => bail!("no request"),
    }
}
