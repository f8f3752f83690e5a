//! The words that ask for a run.

ghost use Rattle.std.specs.Prelude.{◌≡◌, ◌≢◌, ◌↔◌, codes, map, string_bytes, IsTrue, IsFalse};
ghost use Rattle.ss_run_audit.specs.Runs.{Asks};

use crate::endings::NO_MEMORY;
use ss_outside::{Sink, write_all};
use ss_words::Cause;
use std::alloc::Global;

/// The name of the command, which is the first word.
pub const NAME: &str = "audit";

/// What ends the words of a command that may begin with a dash.
const DASHES: &str = "--";

/// Whether a word is the name of the command.
fn is_name(word: &str) -> bool
    ensures yes { IsTrue result → word.now ≡ codes "audit" }
    ensures no { IsFalse result → word.now ≢ codes "audit" }
{
    word == NAME
}

/// Whether a word ends those that may begin with a dash.
fn is_dashes(word: &str) -> bool
    ensures yes { IsTrue result → word.now ≡ codes "--" }
    ensures no { IsFalse result → word.now ≢ codes "--" }
{
    word == DASHES
}

/// Whether the words ask for an audit.
pub(crate) fn asks(words: &[String]) -> bool
    ensures yes { IsTrue result → Asks (map (λ word. string_bytes word) words.now) }
    ensures no { IsFalse result → Asks (map (λ word. string_bytes word) words.now) → ⊥ }
{
    match words {
        [name] => is_name(name.as_str()),
        [name, second] => is_name(name.as_str()) && is_dashes(second.as_str()),
        _ => false,
    }
}

/// Tells people why words ask for no audit.
pub(crate) fn explain<E: Sink>(alloc: Global, words: &[String], err: &mut E) {
    let told = match words {
        [_, .., word] => format!(in alloc;
            "syncstore: `{word}`: {}; try syncstore audit --help\n",
            Cause::TooMany
        ),
        _ => format!(in alloc; "syncstore: no audit is asked for; try syncstore audit --help\n"),
    };
    let _ = match told {
        Ok(line) => write_all(err, line.as_bytes()),
        Err(_) => write_all(err, NO_MEMORY.as_bytes()),
    };
}
