//! Cases of responses:
//! - `response HEAD` is written: its head is an object of `status`, `moment`, `modified`, `count`, `next`, `allow`,
//!   `newlines` and `last`, with times in hundredths of a second, and `body`. It is told how it stands behind other
//!   bytes, and whether it is the same where its body is moved.
//! - `memory MOMENT, LAST` tells the response that is there without memory, and its size.
//! - `heard TEXT` tells what a client hears, one response after the other, and the fault at the end; it is read whole,
//!   and again cut
//!   after every byte. `heard TEXT, N` is read whole, and the read with that number fails, counted from 1.

use crate::messages::members::{is_so, number_of, text_of};
use crate::messages::sources::{cut, whole};
use crate::messages::telling::ending;
use crate::reading::{add, quoted, text_in, values};
use anyhow::bail;
use serde_json::Value;
use ss_http::{
    Heard, HeardFault, ResponseHead, into_response, memory_response, memory_response_len,
    push_response, read_response,
};
use ss_outside::Source;
use ss_text::{Bytes, Stamp};
use std::alloc::Global;

/// The most responses of one case.
const MOST_CALLS: u64 = 10;

/// The methods that a head allows, where it does.
fn allow_of(alloc: Global, told: &Value) -> anyhow::Result<Option<Bytes>> {
    match text_of(told, "allow") {
        Some(methods) => Ok(Some(Bytes::from_slice(alloc, methods.as_bytes())?)),
        None => Ok(None),
    }
}

/// The head that an object tells.
fn head_of(alloc: Global, told: &Value) -> anyhow::Result<ResponseHead> {
    Ok(ResponseHead {
        status: u16::try_from(number_of(told, "status").unwrap_or(0))?,
        moment: Stamp::clamp(number_of(told, "moment").unwrap_or(0)),
        modified: number_of(told, "modified").and_then(Stamp::new),
        count: number_of(told, "count"),
        next: number_of(told, "next"),
        allow: allow_of(alloc, told)?,
        newlines: is_so(told, "newlines"),
        last: is_so(told, "last"),
    })
}

/// The bytes of a response behind others, and whether it is the same where its body is moved.
fn told_written(alloc: Global, told: &Value) -> anyhow::Result<String> {
    let head = head_of(alloc, told)?;
    let body = text_of(told, "body").unwrap_or("").as_bytes();
    let mut out = Vec::from_slice(alloc, b":")?;
    push_response(alloc, &mut out, &head, body)?;
    let moved = into_response(alloc, &head, Vec::from_slice(alloc, body)?)?;
    let line = quoted(alloc, out.as_slice())?;
    if out.get(1..) == Some(moved.as_slice()) {
        Ok(format!(in alloc; "{line}; moved alike")?)
    } else {
        Ok(format!(in alloc;
            "{line}; MOVED OTHERWISE: {}",
            quoted(alloc, moved.as_slice())?
        )?)
    }
}

/// The response without memory, and its size.
fn told_memory(alloc: Global, moment: u64, last: bool) -> anyhow::Result<String> {
    let moment = Stamp::clamp(moment);
    let size = memory_response_len(moment, last);
    let room = memory_response(moment, last);
    let text = quoted(alloc, &room[..size])?;
    Ok(format!(in alloc; "{size} bytes, {text}")?)
}

/// What is heard of a response.
fn told_heard(alloc: Global, heard: &Heard) -> anyhow::Result<String> {
    let modified = heard.modified.map(Stamp::get);
    let next = match &heard.next {
        Some(next) => quoted(alloc, next.as_slice())?,
        None => String::from_str(alloc, "none")?,
    };
    let body = quoted(alloc, heard.body.as_slice())?;
    Ok(format!(in alloc;
        "{}, modified {modified:?}, next {next}, body {body}, {}",
        heard.status,
        ending(heard.last)
    )?)
}

fn told_outcome(alloc: Global, outcome: &Result<Heard, HeardFault>) -> anyhow::Result<String> {
    match outcome {
        Ok(heard) => told_heard(alloc, heard),
        Err(fault) => Ok(format!(in alloc; "{fault:?}")?),
    }
}

/// What comes of calls until one gives a fault.
fn calls<S: Source>(alloc: Global, source: &mut S) -> anyhow::Result<String> {
    let mut line = String::new(alloc);
    for _ in 0..MOST_CALLS {
        let outcome = read_response(alloc, source);
        add(&mut line, "; ", told_outcome(alloc, &outcome)?.as_str())?;
        if outcome.is_err() {
            break;
        }
    }
    Ok(line)
}

/// What is heard of a text that comes whole, and whether it is heard alike cut after every byte.
fn told_text(alloc: Global, text: &[u8]) -> anyhow::Result<String> {
    let one = calls(alloc, &mut whole(alloc, text, 0)?)?;
    let other = calls(alloc, &mut cut(alloc, text)?)?;
    if one == other {
        Ok(format!(in alloc; "{one}; cut alike")?)
    } else {
        Ok(format!(in alloc; "{one}; CUT OTHERWISE: {other}")?)
    }
}

/// What is heard of a text, whole where a read of it fails.
fn told_heard_of(alloc: Global, values: &Value) -> anyhow::Result<String> {
    let text = text_in(values, 0)?.as_bytes();
    match values.get(1).and_then(Value::as_u64) {
        Some(failing) => calls(alloc, &mut whole(alloc, text, failing)?),
        None => told_text(alloc, text),
    }
}

/// What a case tells.
pub fn response_line(alloc: Global, kind: &str, text: &str) -> anyhow::Result<String> {
    let values = values(alloc, text)?;
    match (kind, values.get(0)) {
        ("response", Some(head)) => told_written(alloc, head),
        ("memory", Some(moment)) => {
            let last = values.get(1).and_then(Value::as_bool) == Some(true);
            told_memory(alloc, moment.as_u64().unwrap_or(0), last)
        }
        ("heard", Some(_)) => told_heard_of(alloc, &values),
        _ => bail!("no value"),
    }
}
