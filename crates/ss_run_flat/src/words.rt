//! The words that ask for a run.

ghost use Rattle.std.specs.Prelude.{◌≡◌, ◌≢◌, Some, codes, map, string_bytes, IfSome, IfNone, IsTrue, IsFalse};
ghost use Rattle.ss_flat.specs.declared.kinds.FlatKind.{FlatKind as Kind};
ghost use Rattle.ss_run_flat.specs.Files.{name_of};
ghost use Rattle.ss_run_flat.specs.Runs.{Asks, AsksBehind};

use crate::endings::NO_MEMORY;
use ss_flat::FlatKind;
use ss_outside::{Sink, write_all};
use ss_words::{Cause, Refusal};
use std::alloc::{AllocError, Global};

/// The name of the command, which is the first word.
pub const NAME: &str = "flat";

/// What ends the words of a command that may begin with a dash.
const DASHES: &str = "--";

/// Whether a word is the name of the command.
fn is_name(word: &str) -> bool
    ensures yes { IsTrue result → word.now ≡ codes "flat" }
    ensures no { IsFalse result → word.now ≢ codes "flat" }
{
    word == NAME
}

/// Whether a word ends those that may begin with a dash.
fn is_dashes(word: &str) -> bool
    ensures yes { IsTrue result → word.now ≡ codes "--" }
    ensures no { IsFalse result → word.now ≢ codes "--" }
{
    word == DASHES
}

/// The kind of this name.
#[tactic(auto, unfolding(crate::specs::Files::name_of))]
fn kind_of(word: &str) -> Option<FlatKind>
    ensures is { IfSome result (λ kind. word.now ≡ name_of kind) }
    ensures all { (kind : Kind) → word.now ≡ name_of kind → result ≡ Some kind }
{
    match word {
        "history" => Some(FlatKind::History),
        "forms" => Some(FlatKind::Forms),
        _ => None,
    }
}

/// The kind that the words behind the command's name ask for.
fn kind_behind(words: &[String]) -> Option<FlatKind>
    ensures asks { IfSome result (λ kind. AsksBehind (map (λ word. string_bytes word) words.now) kind) }
    ensures none { IfNone result ((kind : Kind) → AsksBehind (map (λ word. string_bytes word) words.now) kind → ⊥) }
{
    match words {
        [kind] => kind_of(kind.as_str()),
        [first, second] => if is_dashes(first.as_str()) {
            kind_of(second.as_str())
        } else if is_dashes(second.as_str()) {
            kind_of(first.as_str())
        } else {
            None
        },
        _ => None,
    }
}

/// The kind that the words ask for; None exactly where they ask for none.
pub(crate) fn kind_asked(words: &[String]) -> Option<FlatKind>
    ensures asks { IfSome result (λ kind. Asks (map (λ word. string_bytes word) words.now) kind) }
    ensures none { IfNone result ((kind : Kind) → Asks (map (λ word. string_bytes word) words.now) kind → ⊥) }
{
    match words {
        [name, others @ ..] => if is_name(name.as_str()) {
            kind_behind(others)
        } else {
            None
        },
        _ => None,
    }
}

/// Why words ask for no kind, for people.
fn reason(alloc: Global, words: &[String]) -> Result<String, AllocError> {
    match words {
        [] | [_] => format!(in alloc;
            "{}",
            Refusal {
                cause: Cause::TooFew,
                word: None
            }
        ),
        [_, word] => format!(in alloc; "`{word}`: not a kind of rows, `history` or `forms`"),
        [_, .., word] => format!(in alloc; "`{word}`: {}", Cause::TooMany),
    }
}

/// Tells people why words ask for no kind.
pub(crate) fn explain<E: Sink>(alloc: Global, words: &[String], err: &mut E) {
    let line = match reason(alloc, words) {
        Ok(reason) => format!(in alloc; "syncstore: {reason}; try syncstore flat --help\n"),
        Err(fault) => Err(fault),
    };
    let _ = match line {
        Ok(line) => write_all(err, line.as_bytes()),
        Err(_) => write_all(err, NO_MEMORY.as_bytes()),
    };
}
