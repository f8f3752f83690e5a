//! What others than the devices ask, in bytes.

use crate::accounts::UID;
use crate::worlds::wired::HOST;
use anyhow::bail;
use ss_bso::{Field, Fields};
use ss_http::push_request;
use ss_query::Request;
use ss_text::Cond;
use std::alloc::Global;

/// The payload that fields set.
fn payload_of(fields: &Fields) -> &str {
    match &fields.payload {
        Field::Set(text) => text.as_str(),
        _ => "",
    }
}

/// A request without a condition, in bytes.
fn bytes(alloc: Global, method: &str, path: &str, body: Option<&str>) -> anyhow::Result<Vec<u8>> {
    let target = format!(in alloc; "/1.5/{UID}/storage/{path}")?;
    let body = match body {
        Some(text) => Some(text.as_bytes()),
        None => None,
    };
    let mut out = Vec::new(alloc);
    push_request(
        alloc,
        &mut out,
        method,
        target.as_str(),
        HOST,
        &Cond::Free,
        body,
    )?;
    Ok(out)
}

/// The bytes in which others ask for a whole collection, put a record, or begin a batch without records.
pub fn text_of(alloc: Global, request: &Request) -> anyhow::Result<Vec<u8>> {
    match request {
        Request::List { collection, .. } => {
            let path = format!(in alloc; "{}?full=1&sort=newest", collection.as_str())?;
            bytes(alloc, "GET", path.as_str(), None)
        }
        Request::Put {
            collection,
            id,
            fields,
            ..
        } => {
            let path = format!(in alloc; "{}/{}", collection.as_str(), id.as_str())?;
            let body = format!(in alloc; "{{\"payload\":\"{}\"}}", payload_of(fields))?;
            bytes(alloc, "PUT", path.as_str(), Some(body.as_str()))
        }
        Request::Post { collection, .. } => {
            let path = format!(in alloc; "{}?batch=true", collection.as_str())?;
            bytes(alloc, "POST", path.as_str(), Some("[]"))
        }
        _ => bail!("others ask no such thing"),
    }
}
