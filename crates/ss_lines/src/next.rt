//! The line at the front of a text.

ghost use Rattle.std.specs.Prelude.{◌≡◌, IfOk, IfSome, IfNone};
ghost use Rattle.ss_lines.specs.Lines.{IsFront, NoneBegins};

use crate::lines::Line;
use crate::reading::read_line;
use ss_text::line_end;
use std::alloc::{AllocError, Global};

/// The line at the front of a text, and how many bytes it is, its newline included.
#[derive(Drop, Debug)]
pub struct Front {
    pub line: Line,
    pub used: usize,
}

/// Reads the line at the front of a text, in place; None exactly where none is there.
pub fn next_line(alloc: Global, text: &[u8]) -> Result<Option<Front>, AllocError>
    ensures front { IfOk result (λ o. IfSome o (λ f. IsFront text.now f.line f.used)) }
    ensures none { IfOk result (λ o. IfNone o (NoneBegins text.now)) }
{
    let Some(end) = line_end(text) else {
        return Ok(None);
    };
    let used = end + 1;
    match read_line(alloc, &text[..used])? {
        Some(line) => Ok(Some(Front { line, used })),
        None => Ok(None),
    }
}
