//! What is kept of an account, as lines.

use ss_bso::Kept;
use std::alloc::Global;

/// Adds a line for each of what is kept.
fn add_all(alloc: Global, lines: &mut Vec<String>, kept: &Kept) -> anyhow::Result<()> {
    for row in kept.rows.as_slice() {
        lines.push(format!(in alloc; "{row:?}")?)?;
    }
    for entry in kept.collections.as_slice() {
        lines.push(format!(in alloc; "{entry:?}")?)?;
    }
    for staged in kept.batches.as_slice() {
        lines.push(format!(in alloc; "{staged:?}")?)?;
    }
    lines.push(format!(in alloc;
        "{} {} {}",
        kept.store.get(),
        kept.last_delete.get(),
        kept.counter
    )?)?;
    Ok(())
}

/// What is kept as lines, in the order of their texts.
pub fn lines(alloc: Global, kept: &Kept) -> anyhow::Result<Vec<String>> {
    let mut lines = Vec::new(alloc);
    add_all(alloc, &mut lines, kept)?;
    lines.sort()?;
    Ok(lines)
}
