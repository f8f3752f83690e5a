//! What is told of links that were served.

use crate::hostile::term::Ended;
use anyhow::bail;
use ss_connection::{End, Turn};
use ss_links::MemLink;
use ss_serve::LinkReport;
use std::alloc::Global;

/// A turn as text.
fn turn(alloc: Global, turn: Turn) -> anyhow::Result<String> {
    Ok(match turn {
        Turn::Call { uid, ticket } => format!(in alloc; " {uid}/{ticket}")?,
        other => format!(in alloc; " {other:?}")?,
    })
}

/// The turns of a link as text.
fn turns(alloc: Global, report: &LinkReport<MemLink>) -> anyhow::Result<String> {
    let mut text = String::new(alloc);
    for note in report.turns.iter() {
        text.push_str(turn(alloc, note.turn)?.as_str())?;
    }
    if text.is_empty() {
        text.push_str(" none")?;
    }
    Ok(text)
}

/// What was written to a link as text.
fn written(alloc: Global, report: &LinkReport<MemLink>) -> anyhow::Result<String> {
    match report.link.written() {
        None => Ok(String::from_str(alloc, "untold")?),
        Some([]) => Ok(String::from_str(alloc, "nothing")?),
        Some(bytes) => match str::from_utf8(bytes) {
            Ok(text) => Ok(text.replace(alloc, "\r\n", "|")?),
            Err(_) => bail!("no text was written"),
        },
    }
}

/// What is told of a link.
fn link(alloc: Global, report: &LinkReport<MemLink>) -> anyhow::Result<String> {
    let turns = turns(alloc, report)?;
    let written = written(alloc, report)?;
    let open = if report.link.is_closed() {
        ""
    } else {
        ", left open"
    };
    Ok(format!(in alloc; "{:?}{open}, turns{turns}, wrote {written}", report.end)?)
}

/// What is told of a term: why it ended, and each link, a line each behind this title.
pub fn ended_line(alloc: Global, title: &str, ended: &Ended) -> anyhow::Result<String> {
    let mut text = format!(in alloc; "{title}: {:?}", ended.ended)?;
    for report in ended.links.iter() {
        text.push_str("\n  ")?;
        text.push_str(link(alloc, report)?.as_str())?;
    }
    Ok(text)
}

/// Whether a link's input ended inside a message, and nothing was answered.
fn is_cut(report: &LinkReport<MemLink>) -> bool {
    report.end == End::Cut
        && report.link.is_closed()
        && report.turns.is_empty()
        && report.link.written() == Some([].as_slice())
}

/// What is told of a term all of whose links were cut: why it ended, and how many links that is true of.
pub fn cut(alloc: Global, title: &str, ended: &Ended) -> anyhow::Result<String> {
    let mut count: u32 = 0;
    for report in ended.links.iter() {
        if is_cut(report) {
            count = count.saturating_add(1);
        }
    }
    Ok(format!(in alloc;
        "{title}: {:?}\n  Cut, turns none, wrote nothing: {count} of {} links",
        ended.ended,
        ended.links.len()
    )?)
}
