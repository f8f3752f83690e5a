//! A run of `audit`.

ghost use Rattle.std.specs.Prelude.{map, string_bytes, IfOk, IfErr};
ghost use Rattle.ss_logs.specs.Logs.{IsWhyNoLogs};
ghost use Rattle.ss_run_audit.specs.Endings.{Wrote, told_end};
ghost use Rattle.ss_run_audit.specs.Runs.{Audits, IsAuditOf, Runs};

use crate::endings::{Ending, NO_MEMORY};
use crate::tellings::telling;
use crate::words::{asks, explain};
use ss_audit::{Verdict, audit};
use ss_input::read_whole;
use ss_logs::{LogFault, read_logs};
use ss_outside::{Sink, Source, write_all};
use std::alloc::Global;

/// The verdict on the logs that a text tells.
fn audited(alloc: Global, text: &[u8]) -> Result<Verdict, LogFault>
    ensures verdict { IfOk result (λ verdict. IsAuditOf text.now verdict) }
    ensures refused { IfErr result (λ fault. IsWhyNoLogs text.now fault) }
{
    let logs = read_logs(alloc, text)?;
    Ok(audit(alloc, &logs)?)
}

/// Writes the line of a verdict, and says how a run ends that does.
fn write_out<T: Sink>(line: &[u8], verdict: &Verdict, output: &mut T) -> Ending
    ensures { Wrote line.now (told_end verdict.now) result (T.Told.told output.old) (T.Told.told output.new) }
{
    match write_all(output, line) {
        Ok(()) => Ending::of_verdict(verdict),
        Err(_) => Ending::Output,
    }
}

/// Reads logs to the input's end, and writes the verdict on them.
pub fn audit_input<S: Source, T: Sink>(alloc: Global, input: &mut S, output: &mut T) -> Ending
    ensures { Audits result (S.Told.told input.old) (S.Told.told input.new) (T.Told.told output.old)
        (T.Told.told output.new) }
{
    let text = match read_whole(alloc, input) {
        Ok(text) => text,
        Err(fault) => return Ending::from(fault),
    };
    match audited(alloc, text.as_slice()) {
        Ok(verdict) => match telling(alloc, &verdict) {
            Ok(line) => write_out(line.as_slice(), &verdict, output),
            Err(_) => Ending::Memory,
        },
        Err(fault) => Ending::from(fault),
    }
}

/// Tells people how a run ended, where its output doesn't.
fn tell<E: Sink>(alloc: Global, err: &mut E, ending: Ending) {
    if let Ending::Sound | Ending::Unsound = ending {
        return;
    }
    let _ = match format!(in alloc; "syncstore: {ending}\n") {
        Ok(line) => write_all(err, line.as_bytes()),
        Err(_) => write_all(err, NO_MEMORY.as_bytes()),
    };
}

/// Runs the word `audit`, and answers how that ended: `Sound` and `Unsound` where the verdict was written, yes and no;
/// `OtherWords` where the words are others, and nothing is read; else by its cause. With `Output` a front of the
/// verdict was written, and with the others nothing. What `err` is told is for people, and nothing is said of it.
pub fn run_audit<S: Source, T: Sink, E: Sink>(
    alloc: Global,
    words: &[String],
    input: &mut S,
    output: &mut T,
    err: &mut E,
) -> Ending
    ensures { Runs (map (λ word. string_bytes word) words.now) result (S.Told.told input.old) (S.Told.told input.new)
        (T.Told.told output.old) (T.Told.told output.new) }
{
    if asks(words) {
        let ending = audit_input(alloc, input, output);
        tell(alloc, err, ending);
        return ending;
    }
    explain(alloc, words, err);
    Ending::OtherWords
}
