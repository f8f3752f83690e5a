//! Links from which texts come.

ghost use Rattle.std.specs.Prelude.{All, IfOk};
ghost use Rattle.ss_links.specs.Links.{IsUnusedLink, link_tells};

use ss_links::MemLink;
use std::alloc::{AllocError, Global};

/// The room for what is written to a link.
const ROOM: usize = 4096;

/// The pieces of one text each.
pub fn pieces(alloc: Global, texts: &[&str]) -> Result<Vec<Vec<u8>>, AllocError> {
    let mut pieces = Vec::new(alloc);
    for text in texts {
        pieces.push(Vec::from_slice(alloc, text.as_bytes())?)?;
    }
    Ok(pieces)
}

/// A text in pieces of one byte.
pub fn bytes(alloc: Global, text: &str) -> Result<Vec<Vec<u8>>, AllocError> {
    let mut pieces = Vec::new(alloc);
    for byte in text.as_bytes() {
        pieces.push(vec![in alloc; *byte]?)?;
    }
    Ok(pieces)
}

/// A link from which these pieces come. The call with this number fails, reads and writes counted together from 1; 0 is
/// none.
pub fn link(alloc: Global, pieces: Vec<Vec<u8>>, failing: u64) -> Result<MemLink, AllocError>
    ensures { IfOk result (λ link. IsUnusedLink (link_tells link)) }
{
    MemLink::new(alloc, pieces, ROOM, vec![in alloc; failing]?)
}

/// A link that never fails, from which these texts come.
pub fn sound(alloc: Global, texts: &[&str]) -> Result<MemLink, AllocError>
    ensures { IfOk result (λ link. IsUnusedLink (link_tells link)) }
{
    link(alloc, pieces(alloc, texts)?, 0)
}

/// A link from each front of a text, from its first byte alone to all bytes but the last.
pub fn fronts(alloc: Global, text: &str) -> Result<Vec<MemLink>, AllocError>
    ensures { IfOk result (λ links. All (λ link. IsUnusedLink (link_tells link)) links.items) }
{
    let bytes = text.as_bytes();
    let mut links = Vec::new(alloc);
    for end in 1..bytes.len() {
        let pieces = vec![in alloc; Vec::from_slice(alloc, &bytes[..end])?]?;
        links.push(link(alloc, pieces, 0)?)?;
    }
    Ok(links)
}
