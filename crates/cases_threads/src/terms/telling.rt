//! What is told of a link that was served: how it ended, whether it is closed, its turns and what was written, with `|`
//! for each end of a line.

use anyhow::bail;
use ss_connection::{End, Turn, TurnNote};
use ss_links::MemLink;
use std::alloc::Global;

/// A turn as text, behind the reading of the clock: account and ticket of a call, and whether the gate closed the link.
fn turn(alloc: Global, note: TurnNote) -> anyhow::Result<String> {
    let now = note.now;
    let closed = if note.closed_by_gate { "=last" } else { "" };
    Ok(match note.turn {
        Turn::Call { uid, ticket } => format!(in alloc; " {now}:{uid}/{ticket}{closed}")?,
        other => format!(in alloc; " {now}:{other:?}{closed}")?,
    })
}

/// Turns as text.
fn turns(alloc: Global, notes: &[TurnNote]) -> anyhow::Result<String> {
    let mut text = String::new(alloc);
    for note in notes {
        text.push_str(turn(alloc, *note)?.as_str())?;
    }
    if text.is_empty() {
        text.push_str(" none")?;
    }
    Ok(text)
}

/// What was written to a link as text.
fn written(alloc: Global, link: &MemLink) -> anyhow::Result<String> {
    match link.written() {
        None => Ok(String::from_str(alloc, "untold")?),
        Some([]) => Ok(String::from_str(alloc, "nothing")?),
        Some(bytes) => match str::from_utf8(bytes) {
            Ok(text) if !text.contains("|") => Ok(text.replace(alloc, "\r\n", "|")?),
            _ => bail!("what was written can't be told so"),
        },
    }
}

/// A line on a link, behind an end of a line.
pub fn link(alloc: Global, end: End, notes: &[TurnNote], link: &MemLink) -> anyhow::Result<String> {
    let turns = turns(alloc, notes)?;
    let written = written(alloc, link)?;
    let closed = if link.is_closed() {
        ", link closed"
    } else {
        ""
    };
    Ok(format!(in alloc; "\n  {end:?}{closed}, turns{turns}, wrote {written}")?)
}
