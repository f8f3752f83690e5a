//! A run of `edit` or `merge`.

ghost use Rattle.std.specs.Prelude.{map, string_bytes};
ghost use Rattle.ss_run_edit.specs.Runs.{Runs};

use crate::editing::edit;
use crate::endings::Ending;
use crate::merging::merge;
use ss_outside::{Clock, Sink, Source, write_all};
use ss_words::{Command, WordsFault, read_command};
use std::alloc::Global;

/// What people are told where no memory is found to tell them more.
const NO_MEMORY: &str = "syncstore: no memory was found\n";

/// Tells people how a run ended, where it isn't done. Why words ask for neither is left to the caller to tell.
fn tell<E: Sink>(alloc: Global, err: &mut E, ending: &Ending) {
    if let Ending::Done | Ending::OtherWords = ending {
        return;
    }
    let _ = match format!(in alloc; "syncstore: {ending}\n") {
        Ok(line) => write_all(err, line.as_bytes()),
        Err(_) => write_all(err, NO_MEMORY.as_bytes()),
    };
}

/// Does what the words ask.
fn carry_out<S: Source, T: Sink, C: Clock>(
    alloc: Global,
    words: &[String],
    input: &mut S,
    output: &mut T,
    clock: &mut C,
) -> Ending
    ensures { Runs (map (λ word. string_bytes word) words.now) result (S.Told.told input.old) (S.Told.told input.new)
        (T.Told.told output.old) (T.Told.told output.new) (C.coming clock.old) (C.coming clock.new) clock.old clock.new }
{
    let command = match read_command(alloc, words) {
        Ok(command) => command,
        Err(WordsFault::Refused(_)) => return Ending::OtherWords,
        Err(WordsFault::Memory) => return Ending::Memory,
    };
    match command {
        Command::Edit(command) => edit(alloc, command, input, output, clock),
        Command::Merge => merge(alloc, input, output),
        _ => Ending::OtherWords,
    }
}

/// Runs the words `edit ACTION ..` and `merge`, and answers how that ended: `Done` where all was written; `OtherWords`
/// where the words ask neither, and `Unfit` where they ask for an item that can't be, and nothing is read or written;
/// else by its cause. Unless it is `Done` or `Output` nothing is written. What `err` is told is for people, and nothing
/// is said of it.
pub fn run_device_command<S: Source, T: Sink, C: Clock, E: Sink>(
    alloc: Global,
    words: &[String],
    input: &mut S,
    output: &mut T,
    clock: &mut C,
    err: &mut E,
) -> Ending
    ensures { Runs (map (λ word. string_bytes word) words.now) result (S.Told.told input.old) (S.Told.told input.new)
        (T.Told.told output.old) (T.Told.told output.new) (C.coming clock.old) (C.coming clock.new) clock.old clock.new }
{
    let ending = carry_out(alloc, words, input, output, clock);
    tell(alloc, err, &ending);
    ending
}
