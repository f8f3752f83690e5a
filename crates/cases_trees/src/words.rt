//! Words of a line.

use anyhow::bail;
use ss_text::Id;
use std::alloc::Global;

/// The words of a line, which single spaces part.
pub fn split(alloc: Global, line: &str) -> anyhow::Result<Vec<&str>> {
    let mut words = Vec::new(alloc);
    for word in line.split(' ') {
        words.push(word)?;
    }
    Ok(words)
}

/// A number.
pub fn number(text: &str) -> anyhow::Result<u64> {
    Ok(text.parse::<u64>()?)
}

/// An id.
pub fn id_of(alloc: Global, text: &str) -> anyhow::Result<Id> {
    match Id::new(alloc, text.as_bytes())? {
        Some(id) => Ok(id),
        None => bail!("no id: {text}"),
    }
}
