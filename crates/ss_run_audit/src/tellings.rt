//! What `audit` tells of logs.

ghost use Rattle.std.specs.Prelude.{◌≡◌, IfOk};
ghost use Rattle.ss_run_audit.specs.Tellings.{verdict_text, why_word};

use ss_audit::{Verdict, Why};
use ss_lines::cells::{Cell, push_list};
use std::alloc::{AllocError, Global};

/// Why logs aren't sound, in a word.
fn why_word(why: Why) -> &'static str
    ensures { result.now ≡ why_word why }
{
    match why {
        Why::Opening => "opening",
        Why::Follows => "follows",
        Why::Ticket => "ticket",
        Why::Limits => "limits",
    }
}

/// The line of a verdict.
#[tactic(auto, unfolding(crate::specs::Tellings::verdict_text))]
pub(crate) fn telling(alloc: Global, verdict: &Verdict) -> Result<Vec<u8>, AllocError>
    ensures { IfOk result (λ line. line.items ≡ verdict_text verdict.now) }
{
    let mut line = Vec::new(alloc);
    match *verdict {
        Verdict::Yes {
            logs,
            entries,
            store,
        } => {
            let cells = [
                Cell::Natural(logs),
                Cell::Natural(entries),
                Cell::Time(store),
            ];
            push_list(&mut line, "yes", &cells)?;
        }
        Verdict::No { log, entry, why } => {
            let cells = [
                Cell::Natural(log),
                Cell::Natural(entry),
                Cell::Text(why_word(why)),
            ];
            push_list(&mut line, "no", &cells)?;
        }
    }
    Ok(line)
}
