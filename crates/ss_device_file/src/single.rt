//! One line of a device's file.

ghost use Rattle.std.specs.Prelude.{◌≡◌, IfOk, IfSome, Some};
ghost use Rattle.std.specs.Str.{IsUtf8};
ghost use Rattle.ss_device_file.specs.Lines.{HasForm, IsLine, line_text};
ghost use Rattle.ss_device_file.specs.declared.lines.Line.{Line as LineView};

use crate::cuts::is_of_item;
use crate::items::item_in;
use crate::lines::Line;
use crate::texts::push_line;
use crate::values::line_in;
use std::alloc::{AllocError, Global};

/// What a line says; perhaps it isn't written so.
fn guess(alloc: Global, line: &[u8]) -> Result<Option<Line>, AllocError>
    requires { IsUtf8 line.now }
    ensures form { IfOk result (λ o. IfSome o HasForm) }
    ensures all { IfOk result (λ o. (l : LineView) → IsLine l → line_text l ≡ line.now → o ≡ Some l) }
{
    if is_of_item(line) {
        return match item_in(alloc, line)? {
            Some(item) => Ok(Some(Line::Item(item))),
            None => Ok(None),
        };
    }
    match line.split_last() {
        Some((last, text)) if *last == b'\n' => line_in(alloc, text),
        _ => Ok(None),
    }
}

/// Reads a line, its newline included; None exactly where it is no line of a device's file.
pub fn read_line(alloc: Global, line: &[u8]) -> Result<Option<Line>, AllocError>
    ensures is { IfOk result (λ o. IfSome o (λ l. IsLine l × (line_text l ≡ line.now))) }
    ensures all { IfOk result (λ o. (l : LineView) → IsLine l → line_text l ≡ line.now → o ≡ Some l) }
{
    if str::from_utf8(line).is_err() {
        return Ok(None);
    }
    let Some(found) = guess(alloc, line)? else {
        return Ok(None);
    };
    let mut text = Vec::with_capacity(alloc, line.len())?;
    push_line(alloc, &mut text, &found)?;
    if text.as_slice() == line {
        Ok(Some(found))
    } else {
        Ok(None)
    }
}
