//! Sources of a text in memory.

use ss_outside::MemSource;
use std::alloc::{AllocError, Global};

/// A source of a text in one piece. The read with that number fails, counted from 1; 0 is none.
pub fn whole(alloc: Global, text: &[u8], failing: u64) -> Result<MemSource, AllocError> {
    let mut pieces = Vec::new(alloc);
    pieces.push(Vec::from_slice(alloc, text)?)?;
    Ok(MemSource::new(pieces, vec![in alloc; failing]?))
}

/// A source of a text cut after every byte.
pub fn cut(alloc: Global, text: &[u8]) -> Result<MemSource, AllocError> {
    let mut pieces = Vec::new(alloc);
    for byte in text {
        pieces.push(vec![in alloc; *byte]?)?;
    }
    Ok(MemSource::new(pieces, Vec::new(alloc)))
}
