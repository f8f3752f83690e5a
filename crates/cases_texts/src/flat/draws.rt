//! Sets of rows that are drawn: few ids, times, texts and visits, so that they meet.

use crate::flat::chances::Chances;
use crate::flat::ways::set_line;
use anyhow::bail;
use ss_flat::FlatKind;
use std::alloc::{AllocError, Global};

/// The ids, texts, dates and types that are drawn are below this.
const FEW: u64 = 3;

/// The visits of a record, in which each quote stands behind a backslash, as in the text of a line.
fn visits(alloc: Global, chances: &mut Chances) -> Result<String, AllocError> {
    let mut text = String::new(alloc);
    for _ in 0..chances.below(4) {
        if !text.is_empty() {
            text.push_str(",")?;
        }
        let date = chances.below(FEW);
        let kind = chances.below(FEW);
        text.push_str(format!(in alloc; "{{\\\"date\\\":{date},\\\"type\\\":{kind}}}")?.as_str())?;
    }
    Ok(text)
}

/// The payload of a record of this id, its quotes as in the text of a line.
fn record(
    alloc: Global,
    chances: &mut Chances,
    kind: FlatKind,
    id: u64,
) -> Result<String, AllocError> {
    let first = chances.below(FEW);
    let second = chances.below(FEW);
    match kind {
        FlatKind::History => {
            let visits = visits(alloc, chances)?;
            format!(in alloc;
                "{{\\\"title\\\":\\\"t{second}\\\",\\\"visits\\\":[{visits}],\\\"id\\\":\\\"i{id}\\\",\\\"histUri\\\":\\\"a{first}\\\"}}"
            )
        }
        FlatKind::Forms => format!(in alloc;
            "{{\\\"value\\\":\\\"t{second}\\\",\\\"id\\\":\\\"i{id}\\\",\\\"name\\\":\\\"a{first}\\\"}}"
        ),
    }
}

/// The payload of a row of this id: nothing that is understood, a tombstone or a record.
fn payload(
    alloc: Global,
    chances: &mut Chances,
    kind: FlatKind,
    id: u64,
) -> Result<String, AllocError> {
    match chances.below(8) {
        0 => format!(in alloc; "{{\\\"id\\\":\\\"i{id}\\\",\\\"deleted\\\":false}}"),
        1 | 2 => format!(in alloc; "{{\\\"deleted\\\":true,\\\"id\\\":\\\"i{id}\\\"}}"),
        _ => record(alloc, chances, kind, id),
    }
}

/// The line of a row.
fn line(alloc: Global, chances: &mut Chances, kind: FlatKind) -> Result<String, AllocError> {
    let id = chances.below(FEW);
    let time = chances.below(6);
    let payload = payload(alloc, chances, kind, id)?;
    format!(in alloc; "[\"row\",\"{time}.00\",\"i{id}\",\"{payload}\"]")
}

/// The lines of up to seven rows.
fn lines(alloc: Global, chances: &mut Chances, kind: FlatKind) -> Result<Vec<String>, AllocError> {
    let mut lines = Vec::new(alloc);
    for _ in 0..chances.below(8) {
        lines.push(line(alloc, chances, kind)?)?;
    }
    Ok(lines)
}

/// The sum of a text behind another (FNV-1a, 64 bits).
fn summed(mut sum: u64, text: &str) -> u64 {
    for byte in text.as_bytes() {
        sum = (sum ^ u64::from(*byte)).wrapping_mul(1_099_511_628_211);
    }
    sum
}

/// Draws a set of rows, and gives the sum of what it comes to behind another.
fn drawn(alloc: Global, chances: &mut Chances, kind: FlatKind, sum: u64) -> anyhow::Result<u64> {
    let lines = lines(alloc, chances, kind)?;
    let told = set_line(alloc, kind, lines.as_slice())?;
    Ok(summed(sum, told.as_str()))
}

/// Draws sets of rows, and tells the sum of what they come to; the words are a seed and their number.
pub fn draws(alloc: Global, kind: FlatKind, text: &str) -> anyhow::Result<String> {
    let Some((seed, count)) = text.split_once(' ') else {
        bail!("a seed and a number: {text}");
    };
    let mut chances = Chances::new(seed.parse::<u64>()?);
    let count = count.parse::<u64>()?;
    let mut sum = 14_695_981_039_346_656_037;
    for _ in 0..count {
        sum = drawn(alloc, &mut chances, kind, sum)?;
    }
    Ok(format!(in alloc; "{count} sets of rows, sum {sum}\n")?)
}
