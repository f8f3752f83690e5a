//! The commands that wait for nobody.

ghost use Rattle.std.specs.Prelude.{map, string_bytes};
ghost use Rattle.ss_run_answer.specs.Offline.{Runs};

use crate::answer::answer;
use crate::endings::Ending;
use ss_outside::{Clock, Sink, Source};
use ss_words::{Command, WordsFault, read_command};
use std::alloc::Global;

/// Runs the command that the words ask, and answers how it ended: at the end of the input, or with a message that asks
/// to close; `OtherWords` where the words ask nothing, or another command; by its cause where the input or the output
/// failed, the input ended inside a message, what came is no message and was answered so, 1,000,000 messages were
/// answered, or no memory was found for the run itself. With `--at` the clock that is handed in is not read.
pub fn run_offline<S: Source, T: Sink, C: Clock>(
    alloc: Global,
    words: &[String],
    input: &mut S,
    output: &mut T,
    clock: &mut C,
) -> Ending
    ensures { Runs (map (λ word. string_bytes word) words.now) result (S.Told.told input.old) (S.Told.told input.new)
        (T.Told.told output.old) (T.Told.told output.new) (C.coming clock.old) (C.coming clock.new) clock.old clock.new }
{
    let command = match read_command(alloc, words) {
        Ok(command) => command,
        Err(WordsFault::Refused(_)) => return Ending::OtherWords,
        Err(WordsFault::Memory) => return Ending::Memory,
    };
    let Command::Answer(command) = command else {
        return Ending::OtherWords;
    };
    answer(alloc, command, input, output, clock)
}
