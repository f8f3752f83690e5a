//! Words of a line.

use anyhow::bail;
use ss_text::{Id, Name};
use std::alloc::Global;

/// A number.
pub fn number(text: &str) -> anyhow::Result<u64> {
    Ok(text.parse::<u64>()?)
}

/// The name of a collection.
pub fn name(alloc: Global, text: &str) -> anyhow::Result<Name> {
    match Name::new(alloc, text.as_bytes())? {
        Some(name) => Ok(name),
        None => bail!("no name of a collection"),
    }
}

/// An id.
pub fn id(alloc: Global, text: &str) -> anyhow::Result<Id> {
    match Id::new(alloc, text.as_bytes())? {
        Some(id) => Ok(id),
        None => bail!("no id"),
    }
}
