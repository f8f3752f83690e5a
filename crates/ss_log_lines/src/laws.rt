//! What holds of the lines of a log.

ghost use Rattle.std.specs.Prelude.{◌≡◌, ◌++◌, ℕ, List, IfOk, Some};
ghost use Rattle.ss_log_lines.specs.LogLines.{IsFitLine, IsLogLine, log_line_text};
ghost use Rattle.ss_log_lines.specs.declared.lines.LogLine.{LogLine as LineView};

use crate::forms::log_line_form;
use crate::lines::LogLine;
use crate::reading::read_log_line;
use crate::writing::push_log_line;
use std::alloc::{AllocError, Global};

/// A text begins with one line at most, so that lines one behind the other are told apart; and no two lines have one text.
pub fn log_lines_are_told_apart()
    ensures { (l m : LineView) (behind other : List ℕ) → IsLogLine l → IsLogLine m
        → log_line_text l ++ behind ≡ log_line_text m ++ other → (l ≡ m) × (behind ≡ other) }
{}

/// Writes a line and reads it again: that gives the same line, unless memory is wanting.
pub fn read_written_line(alloc: Global, line: &LogLine) -> Result<Option<LogLine>, AllocError>
    requires fit { IsFitLine line.now }
    ensures { IfOk result (λ o. o ≡ Some line.now) }
{
    log_line_form(line);
    let mut written = Vec::new(alloc);
    push_log_line(&mut written, line)?;
    read_log_line(alloc, written.as_slice())
}
