//! Reading one line of a log.

ghost use Rattle.std.specs.Prelude.{◌≡◌, IfOk, IfSome, Some, bytes_eq};
ghost use Rattle.serde_json.specs.Data.{array};
ghost use Rattle.serde_json.specs.Written.{compact_text};
ghost use Rattle.ss_log_lines.specs.LogLines.{IsLogLine, log_line_text, log_list_of};
ghost use Rattle.ss_log_lines.specs.declared.lines.LogLine.{LogLine as LineView};

use crate::fit::is_fit_line;
use crate::forms::log_line_form;
use crate::lines::LogLine;
use crate::told::log_line_from;
use crate::writing::push_log_line;
use serde_json::Value;
use std::alloc::{AllocError, Global};

/// What a text says as a line, without its newline; perhaps the line isn't written so.
fn line_in(alloc: Global, text: &[u8]) -> Result<Option<LogLine>, AllocError>
    ensures { IfOk result (λ o. (l : LineView) → IsLogLine l → compact_text (array (log_list_of l)) ≡ text.now
        → o ≡ Some l) }
{
    match Value::from_slice(alloc, text) {
        Ok(list) => log_line_from(alloc, list),
        Err(error) => {
            if error.is_memory() {
                Err(AllocError)
            } else {
                Ok(None)
            }
        }
    }
}

/// What a line says; perhaps it isn't written so.
fn guess(alloc: Global, line: &[u8]) -> Result<Option<LogLine>, AllocError>
    ensures { IfOk result (λ o. (l : LineView) → IsLogLine l → log_line_text l ≡ line.now → o ≡ Some l) }
{
    match line.split_last() {
        Some((last, text)) if *last == b'\n' => line_in(alloc, text),
        _ => Ok(None),
    }
}

/// Whether a text is that of a line.
fn is_text_of(alloc: Global, text: &[u8], line: &LogLine) -> Result<bool, AllocError>
    ensures { IfOk result (λ is. is ≡ bytes_eq text.now (log_line_text line.now)) }
{
    let mut written = Vec::with_capacity(alloc, text.len())?;
    push_log_line(&mut written, line)?;
    Ok(text == written.as_slice())
}

/// Reads a line of a log, its newline included; None exactly where it is no line, or what it says was asked is past the
/// limits of one request. A line is read exactly where it is what would be written for what it says.
pub fn read_log_line(alloc: Global, line: &[u8]) -> Result<Option<LogLine>, AllocError>
    ensures is { IfOk result (λ o. IfSome o (λ l. IsLogLine l × (log_line_text l ≡ line.now))) }
    ensures all { IfOk result (λ o. (l : LineView) → IsLogLine l → log_line_text l ≡ line.now → o ≡ Some l) }
{
    let Some(found) = guess(alloc, line)? else {
        return Ok(None);
    };
    if !is_fit_line(&found) {
        return Ok(None);
    }
    log_line_form(&found);
    if is_text_of(alloc, line, &found)? {
        Ok(Some(found))
    } else {
        Ok(None)
    }
}
