//! A run of `flat`.

ghost use Rattle.std.specs.Prelude.{map, string_bytes, IfOk, IfErr};
ghost use Rattle.ss_run_flat.specs.Endings.{Wrote};
ghost use Rattle.ss_run_flat.specs.Files.{IsNoFile};
ghost use Rattle.ss_run_flat.specs.Runs.{Flattens, IsFlatOf, Runs};

use crate::endings::{Ending, NO_MEMORY};
use crate::files::state_of;
use crate::tellings::telling;
use crate::words::{explain, kind_asked};
use ss_flat::FlatKind;
use ss_input::read_whole;
use ss_outside::{Sink, Source, write_all};
use std::alloc::Global;

/// What the rows of a text come to.
fn flattened(alloc: Global, kind: FlatKind, text: &[u8]) -> Result<Vec<u8>, Ending>
    ensures made { IfOk result (λ out. IsFlatOf kind text.now out.items) }
    ensures refused { IfErr result (λ ending. IsNoFile text.now ending) }
{
    let flat = state_of(alloc, kind, text)?;
    Ok(telling(alloc, &flat)?)
}

/// Writes a text.
fn write_out<T: Sink>(text: &[u8], output: &mut T) -> Ending
    ensures { Wrote text.now result (T.Told.told output.old) (T.Told.told output.new) }
{
    match write_all(output, text) {
        Ok(()) => Ending::Done,
        Err(_) => Ending::Output,
    }
}

/// Reads lines of rows to the input's end, and writes what the set of the rows comes to.
pub fn flat<S: Source, T: Sink>(
    alloc: Global,
    kind: FlatKind,
    input: &mut S,
    output: &mut T,
) -> Ending
    ensures { Flattens kind result (S.Told.told input.old) (S.Told.told input.new) (T.Told.told output.old)
        (T.Told.told output.new) }
{
    let text = match read_whole(alloc, input) {
        Ok(text) => text,
        Err(fault) => return Ending::from(fault),
    };
    match flattened(alloc, kind, text.as_slice()) {
        Ok(out) => write_out(out.as_slice(), output),
        Err(ending) => ending,
    }
}

/// Tells people how a run ended, where it isn't done.
fn tell<E: Sink>(alloc: Global, err: &mut E, ending: Ending) {
    if let Ending::Done = ending {
        return;
    }
    let _ = match format!(in alloc; "syncstore: {ending}\n") {
        Ok(line) => write_all(err, line.as_bytes()),
        Err(_) => write_all(err, NO_MEMORY.as_bytes()),
    };
}

/// Runs the words `flat history` and `flat forms`, and answers how that ended: `Done` where all was written;
/// `OtherWords` where the words are others, and nothing is read; else by its cause. Unless it is `Done` or `Output`
/// nothing is written. What `err` is told is for people, and nothing is said of it.
pub fn run_flat<S: Source, T: Sink, E: Sink>(
    alloc: Global,
    words: &[String],
    input: &mut S,
    output: &mut T,
    err: &mut E,
) -> Ending
    ensures { Runs (map (λ word. string_bytes word) words.now) result (S.Told.told input.old) (S.Told.told input.new)
        (T.Told.told output.old) (T.Told.told output.new) }
{
    match kind_asked(words) {
        Some(kind) => {
            let ending = flat(alloc, kind, input, output);
            tell(alloc, err, ending);
            ending
        }
        None => {
            explain(alloc, words, err);
            Ending::OtherWords
        }
    }
}
