//! The lines of a device's file at the front of a text.

ghost use Rattle.std.specs.Prelude.{◌≡◌, ◌∷◌, ◌++◌, [], IfOk, IfErr, OnOk};
ghost use Rattle.ss_device_file.specs.Files.{IsFront, IsNextLine, IsWhyNoFront, IsStoppedBy};

use crate::cuts::place_of;
use crate::faults::LinesFault;
use crate::grammar::{is_ended, may_come};
use crate::lines::Line;
use crate::single::read_line;
use std::alloc::{AllocError, Global};

/// The lines of a device's file at the front of a text, the last of which is the end, and how many bytes they are.
#[derive(Drop, Debug)]
pub struct Front {
    pub lines: Vec<Line>,
    pub used: usize,
}

/// The line that a text goes on with behind these lines, and how many bytes it is.
#[derive(Drop)]
struct Next {
    line: Line,
    length: usize,
}

/// The next line, where there is one: the text up to its first newline.
fn next_line(alloc: Global, lines: &[Line], rest: &[u8]) -> Result<Next, LinesFault>
    ensures next { IfOk result (λ n. IsNextLine lines.now rest.now n.line n.length) }
    ensures stopped { IfErr result (λ fault. IsStoppedBy lines.now rest.now fault) }
{
    let number = lines.len() as u64 + 1;
    let Some(end) = place_of(rest, b'\n') else {
        return Err(LinesFault::Cut { number });
    };
    let length = end + 1;
    match read_line(alloc, &rest[..length])? {
        Some(line) if may_come(lines, &line) => Ok(Next { line, length }),
        _ => Err(LinesFault::Refused { number }),
    }
}

/// Puts a line last.
fn keep(lines: &mut Vec<Line>, line: Line) -> Result<(), AllocError>
    ensures { OnOk result (lines.new.items ≡ lines.old.items ++ line ∷ []) }
{
    lines.push(line)?;
    Ok(())
}

/// Reads the lines of a device's file at the front of a text, up to the end's.
pub fn read_front(alloc: Global, text: &[u8]) -> Result<Front, LinesFault>
    ensures front { IfOk result (λ f. IsFront text.now f) }
    ensures stopped { IfErr result (λ fault. IsWhyNoFront text.now fault) }
{
    let mut lines = Vec::new(alloc);
    let mut used = 0;
    'lines: while !is_ended(&lines) {
        let next = next_line(alloc, &lines, &text[used..])?;
        used += next.length;
        keep(&mut lines, next.line)?;
    }
    Ok(Front { lines, used })
}
