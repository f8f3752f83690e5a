//! The line of a log at the front of a text.

ghost use Rattle.std.specs.Prelude.{◌≡◌, IfOk, IfSome, IfNone};
ghost use Rattle.ss_log_lines.specs.LogLines.{IsLogFront, NoLogLineBegins};

use crate::lines::LogLine;
use crate::reading::read_log_line;
use ss_text::line_end;
use std::alloc::{AllocError, Global};

/// The line at the front of a text, and how many bytes it is, its newline included.
#[derive(Drop, Debug)]
pub struct LogFront {
    pub line: LogLine,
    pub used: usize,
}

/// Reads the line at the front of a text, in place; None exactly where none is there.
pub fn next_log_line(alloc: Global, text: &[u8]) -> Result<Option<LogFront>, AllocError>
    ensures front { IfOk result (λ o. IfSome o (λ f. IsLogFront text.now f.line f.used)) }
    ensures none { IfOk result (λ o. IfNone o (NoLogLineBegins text.now)) }
{
    let Some(end) = line_end(text) else {
        return Ok(None);
    };
    let used = end + 1;
    match read_log_line(alloc, &text[..used])? {
        Some(line) => Ok(Some(LogFront { line, used })),
        None => Ok(None),
    }
}
