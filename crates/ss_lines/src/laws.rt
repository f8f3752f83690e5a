//! What holds of lines.

ghost use Rattle.std.specs.Prelude.{◌≡◌, ◌++◌, ℕ, List, IfOk, Some};
ghost use Rattle.ss_lines.specs.Lines.{IsLine, line_text};
ghost use Rattle.ss_lines.specs.declared.lines.Line.{Line as LineView};

use crate::forms::line_form;
use crate::lines::Line;
use crate::reading::read_line;
use crate::writing::push_line;
use std::alloc::{AllocError, Global};

/// A text begins with one line at most, so that lines one behind the other are told apart; and no two lines have one text.
pub fn lines_are_told_apart()
    ensures { (l m : LineView) (behind other : List ℕ) → IsLine l → IsLine m → line_text l ++ behind ≡ line_text m ++ other
        → (l ≡ m) × (behind ≡ other) }
{}

/// Writes a line and reads it again: that gives the same line, unless memory is wanting.
pub fn read_written(alloc: Global, line: &Line) -> Result<Option<Line>, AllocError>
    ensures { IfOk result (λ o. o ≡ Some line.now) }
{
    line_form(line);
    let mut written = Vec::new(alloc);
    push_line(&mut written, line)?;
    read_line(alloc, written.as_slice())
}
