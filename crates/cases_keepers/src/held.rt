//! What is kept of an account, as lines.

use ss_bso::Kept;
use std::alloc::Global;

/// What is kept as lines, in the order of their texts.
pub fn lines(alloc: Global, kept: &Kept) -> anyhow::Result<Vec<String>> {
    let mut lines = Vec::new(alloc);
    for row in kept.rows.as_slice() {
        lines.push(format!(in alloc; "{row:?}")?)?;
    }
    for entry in kept.collections.as_slice() {
        lines.push(format!(in alloc; "{entry:?}")?)?;
    }
    for staged in kept.batches.as_slice() {
        lines.push(format!(in alloc; "{staged:?}")?)?;
    }
    lines.push(format!(in alloc;
        "{} {} {}",
        kept.store.get(),
        kept.last_delete.get(),
        kept.counter
    )?)?;
    lines.sort()?;
    Ok(lines)
}
