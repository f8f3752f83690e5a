//! A run of `rehearse`.

ghost use Rattle.std.specs.Prelude.{◌≤◌, map, string_bytes};
ghost use Rattle.ss_rehearse.specs.Runs.{Rehearses, Runs};

use crate::endings::{Ending, write_out};
use crate::rehearsing::rehearse;
use ss_outside::{Sink, write_all};
use ss_words::{Command, WordsFault, read_command};
use std::alloc::Global;

/// What people are told where no memory is found to tell them more.
const NO_MEMORY: &str = "syncstore: no memory was found\n";

/// Tells people how a run ended, where it isn't done. Why words ask for none is left to the caller to tell.
fn tell<E: Sink>(alloc: Global, err: &mut E, ending: Ending) {
    if let Ending::Done | Ending::OtherWords = ending {
        return;
    }
    let _ = match format!(in alloc; "syncstore: {ending}\n") {
        Ok(line) => write_all(err, line.as_bytes()),
        Err(_) => write_all(err, NO_MEMORY.as_bytes()),
    };
}

/// Writes the summary of a rehearsal.
fn write_summary<T: Sink>(alloc: Global, items: u64, seed: u64, output: &mut T) -> Ending
    requires few { items ≤ 15000 }
    ensures { Rehearses items seed result (T.Told.told output.old) (T.Told.told output.new) }
{
    match rehearse(alloc, items, seed) {
        Ok(text) => write_out(text.as_slice(), output),
        Err(_) => Ending::Memory,
    }
}

/// Does what the words ask.
fn carry_out<T: Sink>(alloc: Global, words: &[String], output: &mut T) -> Ending
    ensures { Runs (map (λ word. string_bytes word) words.now) result (T.Told.told output.old)
        (T.Told.told output.new) }
{
    let command = match read_command(alloc, words) {
        Ok(command) => command,
        Err(WordsFault::Refused(_)) => return Ending::OtherWords,
        Err(WordsFault::Memory) => return Ending::Memory,
    };
    let Command::Rehearse(command) = command else {
        return Ending::OtherWords;
    };
    write_summary(alloc, command.items, command.seed, output)
}

/// Runs the words `rehearse N S`, and answers how that ended: `Done` where the summary was written; `OtherWords` where
/// the words don't ask it; else by its cause. Unless it is `Done` or `Output` nothing is written. What `err` is told is
/// for people, and nothing is said of it.
pub fn run_rehearsal<T: Sink, E: Sink>(
    alloc: Global,
    words: &[String],
    output: &mut T,
    err: &mut E,
) -> Ending
    ensures { Runs (map (λ word. string_bytes word) words.now) result (T.Told.told output.old)
        (T.Told.told output.new) }
{
    let ending = carry_out(alloc, words, output);
    tell(alloc, err, ending);
    ending
}
