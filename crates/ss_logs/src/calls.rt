//! The entries of a log: what stands behind its opening.

ghost use Rattle.std.specs.Prelude.{◌≡◌, ◌≢◌, IfOk, IfErr, IfSome, IfNone, true, false};
ghost use Rattle.ss_lines.specs.declared.lines.Line.TheVariants.{End};
ghost use Rattle.ss_log_lines.specs.LogLines.{IsLogFront};
ghost use Rattle.ss_logs.specs.Fronts.{AreCalls, IsCallsFault, NoneBehind, next_line};

use crate::faults::LogFault;
use ss_laws::Entry;
use ss_lines::Line;
use ss_log_lines::{LogLine, next_log_line};
use std::alloc::{AllocError, Global};

/// What a line behind an opening says.
#[derive(Drop)]
enum Next {
    Call(Entry),
    End,
}

/// The line at the front of a text, and how many bytes it is.
#[derive(Drop)]
struct NextFront {
    next: Next,
    used: usize,
}

/// The entries at the front of a text, and how many bytes they are.
#[derive(Drop)]
pub(crate) struct Calls {
    pub(crate) entries: Vec<Entry>,
    pub(crate) used: usize,
}

fn is_end(line: &Line) -> bool
    ensures end { result ≡ true → line.now ≡ End }
    ensures other { result ≡ false → line.now ≢ End }
{
    matches!(line, Line::End)
}

/// Reads an entry or the end at the front of a text; None exactly where neither is there.
fn next_front(alloc: Global, text: &[u8]) -> Result<Option<NextFront>, AllocError>
    ensures front { IfOk result (λ o. IfSome o (λ f. IsLogFront text.now (next_line f.next) f.used)) }
    ensures none { IfOk result (λ o. IfNone o (NoneBehind text.now)) }
{
    let Some(front) = next_log_line(alloc, text)? else {
        return Ok(None);
    };
    let used = front.used;
    match front.line {
        LogLine::Call(entry) => Ok(Some(NextFront {
            next: Next::Call(entry),
            used,
        })),
        LogLine::Account(line) => {
            if is_end(&line) {
                Ok(Some(NextFront {
                    next: Next::End,
                    used,
                }))
            } else {
                Ok(None)
            }
        }
        LogLine::Log { .. } => Ok(None),
    }
}

/// Reads the entries at the front of a text, up to the end's line, which is counted in.
pub(crate) fn front_calls(alloc: Global, bytes: &[u8]) -> Result<Calls, LogFault>
    ensures calls { IfOk result (λ calls. AreCalls bytes.now calls.entries.items calls.used) }
    ensures bad { IfErr result (λ fault. IsCallsFault bytes.now fault) }
{
    let mut entries = Vec::new(alloc);
    let mut used = 0;
    'calls: while used < bytes.len() {
        let n = entries.len() as u64 + 1;
        let Some(front) = next_front(alloc, &bytes[used..])? else {
            return Err(LogFault::BadLine { n });
        };
        used += front.used;
        match front.next {
            Next::Call(entry) => entries.push(entry)?,
            Next::End => return Ok(Calls { entries, used }),
        }
    }
    Err(LogFault::BadLine {
        n: entries.len() as u64 + 1,
    })
}
