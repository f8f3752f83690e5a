//! Reading the text of a commit.

ghost use Rattle.std.specs.Prelude.{◌≡◌, IfOk, IfSome, Some, bytes_eq};
ghost use Rattle.ss_bso.specs.declared.changes.Changes.{Changes as ChangesView};
ghost use Rattle.ss_commits.specs.Commits.{HasFormedValues, changes_text};

use crate::cutting::next_note;
use crate::telling::{Draft, told_by};
use crate::writing::write_changes;
use ss_bso::Changes;
use std::alloc::{AllocError, Global};

/// What a text tells line by line; perhaps it isn't written so.
fn guess(alloc: Global, text: &[u8]) -> Result<Option<Changes>, AllocError>
    ensures { IfOk result (λ o. (c : ChangesView) → HasFormedValues c → changes_text c ≡ text.now → o ≡ Some c) }
{
    let mut draft = Draft::new(alloc);
    let mut used = 0;
    'lines: while used < text.len() {
        let Some(front) = next_note(alloc, &text[used..])? else {
            return Ok(None);
        };
        let Some(more) = told_by(alloc, draft, front.note)? else {
            return Ok(None);
        };
        draft = more;
        used += front.used;
    }
    Ok(Some(draft.into_changes()))
}

/// Whether a text is that of a commit.
fn is_text_of(alloc: Global, text: &[u8], changes: &Changes) -> Result<bool, AllocError>
    ensures { IfOk result (λ is. is ≡ bytes_eq text.now (changes_text changes.now)) }
{
    let written = write_changes(alloc, changes)?;
    Ok(text == written.as_slice())
}

/// Reads the text of a commit; None exactly where it is none. A text is read exactly where it is what would be written
/// for what it says.
pub fn read_changes(alloc: Global, text: &[u8]) -> Result<Option<Changes>, AllocError>
    ensures is { IfOk result (λ o. IfSome o (λ changes. changes_text changes ≡ text.now)) }
    ensures all { IfOk result (λ o. (c : ChangesView) → HasFormedValues c → changes_text c ≡ text.now → o ≡ Some c) }
{
    let Some(found) = guess(alloc, text)? else {
        return Ok(None);
    };
    if is_text_of(alloc, text, &found)? {
        Ok(Some(found))
    } else {
        Ok(None)
    }
}
