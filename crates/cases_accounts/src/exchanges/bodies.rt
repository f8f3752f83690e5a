//! Bodies of messages, some of which are told by what makes them.

use crate::words::number;
use anyhow::bail;
use std::alloc::Global;

/// A list of so many records whose ids and payloads are the numbers from one on.
fn records(alloc: Global, from: u64, count: u64) -> anyhow::Result<String> {
    let mut body = String::from_str(alloc, "[")?;
    for place in 0..count {
        let comma = if place == 0 { "" } else { "," };
        let id = from.saturating_add(place);
        body.push_str(format!(in alloc;
            "{comma}{{\"id\":\"{id}\",\"payload\":\"{id}\"}}"
        )?.as_str())?;
    }
    body.push_str("]")?;
    Ok(body)
}

/// An object with a payload of so many bytes.
fn payload(alloc: Global, size: u64) -> anyhow::Result<String> {
    let text = letters(alloc, size)?;
    Ok(format!(in alloc; "{{\"payload\":\"{text}\"}}")?)
}

/// A list of one record with a payload of so many bytes.
fn record(alloc: Global, size: u64) -> anyhow::Result<String> {
    let text = letters(alloc, size)?;
    Ok(format!(in alloc; "[{{\"id\":\"a\",\"payload\":\"{text}\"}}]")?)
}

/// A text of so many letters.
pub fn letters(alloc: Global, size: u64) -> anyhow::Result<String> {
    Ok("x".repeat(alloc, usize::try_from(size)?)?)
}

/// A body as a line has it, in which `¶` stands for a newline and `←` for CR. `%records FROM COUNT`, `%payload SIZE`
/// and `%record SIZE` stand for long ones; the first moves on by its count where a line is repeated.
pub fn body(alloc: Global, text: &str, turn: u64) -> anyhow::Result<String> {
    let Some(made) = text.strip_prefix("%") else {
        return Ok(
            text.replace(alloc, "¶", "\n")?
                .as_str()
                .replace(alloc, "←", "\r")?,
        );
    };
    match made.split_once(' ') {
        Some(("records", rest)) => {
            let Some((from, count)) = rest.split_once(' ') else {
                bail!("how many records?");
            };
            let count = number(count)?;
            records(
                alloc,
                number(from)?.saturating_add(turn.saturating_mul(count)),
                count,
            )
        }
        Some(("payload", size)) => payload(alloc, number(size)?),
        Some(("record", size)) => record(alloc, number(size)?),
        _ => bail!("no body"),
    }
}
