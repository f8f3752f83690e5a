//! The lines of a commit.

ghost use Rattle.std.specs.Prelude.{◌≡◌, IfOk, Some, option_map};
ghost use Rattle.serde_json.specs.Data.{array};
ghost use Rattle.serde_json.specs.Written.{compact_text};
ghost use Rattle.ss_commits.specs.Commits.{IsMark, IsNote, is_marked, mark_list, mark_text, note_text};
ghost use Rattle.ss_commits.specs.declared.marks.Mark.{Mark as MarkView};
ghost use Rattle.ss_commits.specs.declared.notes.Note.{Note as NoteView};
ghost use Rattle.ss_commits.specs.declared.notes.Note.TheVariants.{Of, Beside};

use crate::marks::Mark;
use crate::values::mark_from;
use serde_json::Value;
use ss_lines::{Line, read_line};
use std::alloc::{AllocError, Global};

/// What a line of a commit says.
#[derive(Drop, Debug)]
pub(crate) enum Note {
    /// What a line of an account says.
    Of(Line),

    /// What no line of an account does.
    Beside(Mark),
}

/// What a text says as a line that no account has, without its newline; perhaps the line isn't written so.
fn mark_in(alloc: Global, text: &[u8]) -> Result<Option<Mark>, AllocError>
    ensures { IfOk result (λ o. (m : MarkView) → IsMark m → compact_text (array (mark_list m)) ≡ text.now → o ≡ Some m) }
{
    match Value::from_slice(alloc, text) {
        Ok(list) => mark_from(alloc, &list),
        Err(error) => {
            if error.is_memory() {
                Err(AllocError)
            } else {
                Ok(None)
            }
        }
    }
}

/// The same with its newline.
fn read_mark(alloc: Global, line: &[u8]) -> Result<Option<Mark>, AllocError>
    ensures { IfOk result (λ o. (m : MarkView) → IsMark m → mark_text m ≡ line.now → o ≡ Some m) }
{
    match line.split_last() {
        Some((last, text)) if *last == b'\n' => mark_in(alloc, text),
        _ => Ok(None),
    }
}

/// Whether the first text of a line begins with `n`.
fn is_marked(line: &[u8]) -> bool
    ensures { result ≡ is_marked line.now }
{
    match line.get(2) {
        Some(first) => *first == b'n',
        None => false,
    }
}

fn beside(mark: Option<Mark>) -> Option<Note>
    ensures { result ≡ option_map (λ m. Beside m) mark }
{
    match mark {
        Some(mark) => Some(Note::Beside(mark)),
        None => None,
    }
}

fn of(line: Option<Line>) -> Option<Note>
    ensures { result ≡ option_map (λ l. Of l) line }
{
    match line {
        Some(line) => Some(Note::Of(line)),
        None => None,
    }
}

/// What a line of a commit says, its newline included; perhaps it isn't written so.
pub(crate) fn read_note(alloc: Global, line: &[u8]) -> Result<Option<Note>, AllocError>
    ensures { IfOk result (λ o. (n : NoteView) → IsNote n → note_text n ≡ line.now → o ≡ Some n) }
{
    if is_marked(line) {
        let mark = read_mark(alloc, line)?;
        Ok(beside(mark))
    } else {
        let found = read_line(alloc, line)?;
        Ok(of(found))
    }
}
