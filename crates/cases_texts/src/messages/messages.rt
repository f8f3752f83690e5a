//! Cases of reading messages. Each tells the messages one after the other: the first line, the fields, the body, and
//! whether the connection ends; or the fault, and where it stands again. What is kept is told behind a message, a
//! failed read, and an input that ends inside a message.
//! - `message TEXT` is read whole, and again cut after every byte; so is `long N`, a head of N bytes whose one field
//!   fills it, and
//!   `wide N`, a head of N fields.
//! - `pieces [FAILING ..], [PIECE ..]` is read piece by piece, where the reads with those numbers fail, counted from 1.
//! - `field NAME, TEXT` tells the value of the first field of that name in the first message.

use crate::messages::sources::{cut, whole};
use crate::messages::telling::ending;
use crate::reading::{add, numbers_in, pieces_in, quoted, text_in, values};
use anyhow::bail;
use serde_json::Value;
use ss_http::{Buffer, Message, MsgFault, read_message};
use ss_outside::{MemSource, Source};
use std::alloc::Global;

/// The most calls of one case.
const MOST_CALLS: u64 = 10;

/// The fields of a message, in order.
fn told_fields(alloc: Global, message: &Message) -> anyhow::Result<String> {
    let fields = message.fields.as_slice();
    let mut line = format!(in alloc; "fields {}", fields.len())?;
    for field in fields {
        let name = String::from_utf8_lossy(alloc, field.0.as_slice())?;
        let value = quoted(alloc, field.1.as_slice())?;
        line.push_str(format!(in alloc; ", {name}: {value}")?.as_str())?;
    }
    Ok(line)
}

fn told_message(alloc: Global, message: &Message) -> anyhow::Result<String> {
    let method = String::from_utf8_lossy(alloc, message.method.as_slice())?;
    let target = String::from_utf8_lossy(alloc, message.target.as_slice())?;
    let fields = told_fields(alloc, message)?;
    let body = quoted(alloc, message.body.as_slice())?;
    Ok(format!(in alloc;
        "{method} {target}, {fields}, body {body}, {}",
        ending(message.last)
    )?)
}

fn told_outcome(alloc: Global, outcome: &Result<Message, MsgFault>) -> anyhow::Result<String> {
    match outcome {
        Ok(message) => told_message(alloc, message),
        Err(fault) => Ok(format!(in alloc; "{fault:?}")?),
    }
}

/// What came of calls: a line that tells what is kept behind a message too, and one that doesn't.
#[derive(Drop)]
struct Outcomes {
    told: String,
    plain: String,
}

/// Whether what is kept is told behind a fault.
fn keeps(fault: MsgFault) -> bool {
    matches!(fault, MsgFault::Cut | MsgFault::ReadFault)
}

/// Adds what is kept, where it isn't nothing.
fn add_kept(alloc: Global, line: &mut String, buffer: &Buffer) -> anyhow::Result<()> {
    if !buffer.kept().is_empty() {
        line.push_str(", keeps ")?;
        line.push_str(quoted(alloc, buffer.kept())?.as_str())?;
    }
    Ok(())
}

impl Outcomes {
    /// Makes a call, and tells what comes of it.
    fn add<S: Source>(
        &mut self,
        alloc: Global,
        buffer: &mut Buffer,
        source: &mut S,
    ) -> anyhow::Result<()> {
        let outcome = read_message(alloc, buffer, source);
        let line = told_outcome(alloc, &outcome)?;
        add(&mut self.told, "; ", line.as_str())?;
        add(&mut self.plain, "; ", line.as_str())?;
        match outcome {
            Ok(_) => add_kept(alloc, &mut self.told, buffer),
            Err(fault) if keeps(fault) => {
                add_kept(alloc, &mut self.told, buffer)?;
                add_kept(alloc, &mut self.plain, buffer)
            }
            Err(_) => Ok(()),
        }
    }
}

/// What comes of calls until a fault that stays was told twice.
fn calls<S: Source>(alloc: Global, source: &mut S) -> anyhow::Result<Outcomes> {
    let mut buffer = Buffer::new(alloc)?;
    let mut outcomes = Outcomes {
        told: String::new(alloc),
        plain: String::new(alloc),
    };
    for _ in 0..MOST_CALLS {
        let is_stopped = buffer.stop().is_some();
        outcomes.add(alloc, &mut buffer, source)?;
        if is_stopped {
            break;
        }
    }
    Ok(outcomes)
}

/// What is read of a text that comes whole, and whether it is read alike cut after every byte.
fn told_text(alloc: Global, text: &[u8]) -> anyhow::Result<String> {
    let one = calls(alloc, &mut whole(alloc, text, 0)?)?;
    let other = calls(alloc, &mut cut(alloc, text)?)?;
    if one.plain == other.plain {
        Ok(format!(in alloc; "{}; cut alike", one.told)?)
    } else {
        Ok(format!(in alloc; "{}; CUT OTHERWISE: {}", one.told, other.plain)?)
    }
}

/// A head of so many bytes, at least 23, whose one field fills it.
fn long_head(alloc: Global, size: u64) -> anyhow::Result<Vec<u8>> {
    let mut text = Vec::from_slice(alloc, b"GET / HTTP/1.1\r\nX: ")?;
    for _ in 23..size {
        text.push(b'a')?;
    }
    text.extend_from_slice(b"\r\n\r\n")?;
    Ok(text)
}

/// A head with so many fields.
fn wide_head(alloc: Global, count: u64) -> anyhow::Result<Vec<u8>> {
    let mut text = Vec::from_slice(alloc, b"GET / HTTP/1.1\r\n")?;
    for _ in 0..count {
        text.extend_from_slice(b"A: b\r\n")?;
    }
    text.extend_from_slice(b"\r\n")?;
    Ok(text)
}

/// A source of the pieces of two lists, the first of which has the numbers of the reads that fail.
fn source_of(alloc: Global, values: &Value) -> anyhow::Result<MemSource> {
    let failing = numbers_in(alloc, values, 0)?;
    Ok(MemSource::new(pieces_in(alloc, values, 1)?, failing))
}

/// The first field of a name in the first message of a text.
fn told_field(alloc: Global, name: &str, text: &[u8]) -> anyhow::Result<String> {
    let mut buffer = Buffer::new(alloc)?;
    let mut source = whole(alloc, text, 0)?;
    let Ok(message) = read_message(alloc, &mut buffer, &mut source) else {
        bail!("no message");
    };
    match message.fields.first(name) {
        Some(value) => quoted(alloc, value),
        None => Ok(String::from_str(alloc, "no such field")?),
    }
}

/// What a case tells.
pub fn message_line(alloc: Global, kind: &str, text: &str) -> anyhow::Result<String> {
    match kind {
        "long" => told_text(alloc, long_head(alloc, text.parse::<u64>()?)?.as_slice()),
        "wide" => told_text(alloc, wide_head(alloc, text.parse::<u64>()?)?.as_slice()),
        "pieces" => Ok(calls(alloc, &mut source_of(alloc, &values(alloc, text)?)?)?.told),
        "field" => {
            let values = values(alloc, text)?;
            told_field(alloc, text_in(&values, 0)?, text_in(&values, 1)?.as_bytes())
        }
        _ => told_text(alloc, text_in(&values(alloc, text)?, 0)?.as_bytes()),
    }
}
