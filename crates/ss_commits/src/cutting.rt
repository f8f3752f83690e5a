//! The line at the front of a text.

ghost use Rattle.std.specs.Prelude.{◌≡◌, ◌≤◌, ◌<◌, ◌++◌, ℕ, List, IfOk, IfSome, Some, length};
ghost use Rattle.ss_commits.specs.Commits.{IsNote, note_text};
ghost use Rattle.ss_commits.specs.declared.notes.Note.{Note as NoteView};

use crate::notes::{Note, read_note};
use ss_text::line_end;
use std::alloc::{AllocError, Global};

/// What the line at the front of a text says, and how many bytes it is, its newline included.
#[derive(Drop, Debug)]
pub(crate) struct Front {
    pub(crate) note: Note,
    pub(crate) used: usize,
}

/// Reads the line at the front of a text, in place; perhaps the line isn't written so.
pub(crate) fn next_note(alloc: Global, text: &[u8]) -> Result<Option<Front>, AllocError>
    ensures front { IfOk result (λ o. (n : NoteView) (back : List ℕ) → IsNote n → note_text n ++ back ≡ text.now
        → o ≡ Some (record { note = n; used = length (note_text n) })) }
    ensures inside { IfOk result (λ o. IfSome o (λ f. f.used ≤ length text.now)) }
    ensures some { IfOk result (λ o. IfSome o (λ f. 0 < f.used)) }
{
    let Some(end) = line_end(text) else {
        return Ok(None);
    };
    let used = end + 1;
    match read_note(alloc, &text[..used])? {
        Some(note) => Ok(Some(Front { note, used })),
        None => Ok(None),
    }
}
