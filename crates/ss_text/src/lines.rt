//! The lines of a text.

ghost use Rattle.std.specs.Prelude.{◌≡◌, ◌==◌, IfOk, map, position};
ghost use Rattle.ss_text.specs.Texts.{lines_of};

use crate::texts::Bytes;
use memchr::memchr;
use std::alloc::{AllocError, Global};

/// The place of the first newline.
pub fn line_end(text: &[u8]) -> Option<usize>
    ensures { result ≡ position (λ b. b == 10) text.now }
{
    memchr(b'\n', text)
}

/// The pieces of a text between newlines, empty ones dropped, lent.
pub fn lines_in(alloc: Global, text: &[u8]) -> Result<Vec<&[u8]>, AllocError>
    ensures { IfOk result (λ found. map (λ line. line.now) found.items ≡ lines_of text.now) }
{
    text.split(|b| *b == b'\n')
        .filter(|line| !line.is_empty())
        .collect(alloc)
}

/// The pieces of a text between newlines, empty ones dropped, copied.
pub fn cut_lines(alloc: Global, text: &[u8]) -> Result<Vec<Bytes>, AllocError>
    ensures { IfOk result (λ cut. cut.items ≡ lines_of text.now) }
{
    let found = lines_in(alloc, text)?;
    let mut cut = Vec::with_capacity(alloc, found.len())?;
    for line in &found {
        cut.push(Bytes::from_slice(alloc, line)?)?;
    }
    Ok(cut)
}
