//! How the log of a journal is written.

ghost use Rattle.std.specs.Prelude.{◌≡◌, ◌++◌, IfOk, OnOk, map};
ghost use Rattle.ss_log_lines.specs.declared.lines.LogLine.TheVariants.{Call};
ghost use Rattle.ss_logs.specs.Logs.{log_text, text_of};

use ss_dump::push_dump;
use ss_laws::{Entry, Journal};
use ss_lines::Line;
use ss_log_lines::{LogLine, push_call, push_log, push_log_line};
use std::alloc::{AllocError, Global};

/// Appends a line for each entry.
fn push_calls(out: &mut Vec<u8>, entries: &[Entry]) -> Result<(), AllocError>
    ensures { OnOk result (out.new.items ≡ out.old.items ++ text_of (map (λ entry. Call entry) entries.now)) }
{
    for entry in entries {
        push_call(out, entry)?;
    }
    Ok(())
}

/// The log of a journal: the moment of its opening and the most entries that it may have, the dump of its opening, its
/// entries, oldest first, and the end. The lists of the opening stand in a dump's order, however they are kept.
#[tactic(auto, unfolding(crate::specs::Logs::log_text))]
pub fn write_log(alloc: Global, journal: &Journal) -> Result<Vec<u8>, AllocError>
    ensures { IfOk result (λ text. text.items ≡ log_text journal.now) }
{
    let opening = journal.opening();
    let mut out = Vec::new(alloc);
    push_log(&mut out, opening.moment, journal.most())?;
    push_dump(alloc, &mut out, opening)?;
    push_calls(&mut out, journal.entries())?;
    push_log_line(&mut out, &LogLine::Account(Line::End))?;
    Ok(out)
}
